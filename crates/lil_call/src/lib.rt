//! Calls over what is known of their arguments: which faults they have, and what they are resolved to.
#![tactic(auto)]

mod call;
mod functions;
mod passing;
mod procedures;
mod routines;

pub use call::{Argument, Callee, called, stated};
