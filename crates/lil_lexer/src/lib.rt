//! Cuts texts into their tokens.
#![tactic(auto)]

mod bytes;
mod cutting;
mod numbers;
mod pieces;
mod words;

pub use cutting::tokens;
