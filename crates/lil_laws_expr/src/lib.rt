//! The laws of the rows of expressions.
#![tactic(auto)]
