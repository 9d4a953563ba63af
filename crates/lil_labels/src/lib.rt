//! Code that is being written, with labels that get their places at the end.
#![tactic(auto)]

mod buffer;

pub use buffer::{Aim, CodeBuffer, HeldRecord};
