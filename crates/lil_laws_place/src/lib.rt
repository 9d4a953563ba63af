//! The laws of the rows of places and of stores.
#![tactic(auto)]
