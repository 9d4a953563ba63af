//! The laws of right declarations: what a text imports and declares without a fault is told.
#![tactic(auto)]
