//! What operators and sets mean over operands that have values, and which faults they have.
#![tactic(auto)]

mod constants;
mod depths;
mod operations;
mod sets;

pub use constants::{constant_found, plain_found};
pub use depths::raised;
pub use operations::{Chained, begun, chain_found, one_node, two_node};
pub use sets::{Gathered, Operand, Tally, joined_one, joined_range, no_elements, set_node};
