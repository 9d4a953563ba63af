//! The laws of the rows of statements.
#![tactic(auto)]
