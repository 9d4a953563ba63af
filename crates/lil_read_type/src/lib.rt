//! Reads types and the parameters of procedure types.
#![tactic(auto)]

mod lookahead;
mod ordinal;
mod parameter;
mod structure;

pub use parameter::{by_place, open_array, result};
pub use structure::sort;
