//! What statements mean, and which faults they have.
#![tactic(auto)]

mod counting;
mod labels;
mod nodes;
mod statements;
mod stmt;

pub use stmt::{Stated, bodies};
