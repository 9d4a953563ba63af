//! The laws of all rows, and of whole runs.
#![tactic(auto)]
