//! What expressions mean where the names around them are known, and which faults they have.
#![tactic(auto)]

mod asked;
mod designators;
mod literals;
mod names;
mod set_types;
mod uses;
mod values;

pub use asked::Asked;
pub use designators::{Named, Part, Reached};
pub use names::{Looked, look, type_named};
pub use values::{asked_expression, boxed_asked, boxed_expression, call, expression, variable};
