//! The symbol files of the modules that a unit imports, and the faults of its imports.
#![tactic(auto)]

mod faults;
mod gathering;
mod meeting;
mod stop;
mod stored;

pub use gathering::{Gathered, gather};
pub use stop::ImportStop;
pub use stored::Stored;
