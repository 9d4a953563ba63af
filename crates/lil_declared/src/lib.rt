//! What a module declares, and what it finds declared: its variables and procedures, and those of the system.
#![tactic(auto)]

mod declared;
mod standard;

pub use declared::{Mode, RProc, RVar, mode_of};
pub use standard::{Resident, Standard};
