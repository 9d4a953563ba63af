//! The interface of a definition: what its symbol file says.
#![tactic(auto)]

mod classes;
mod exports;
mod interface;
mod known;
mod names;
mod types;

pub use interface::interface_of;
pub use known::interface_in;
