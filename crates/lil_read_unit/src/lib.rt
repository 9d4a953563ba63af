//! Reads units.
#![tactic(auto)]

mod ends;
mod head;
mod reading;
mod texts;
mod units;

pub use reading::unit;
pub use texts::read;
