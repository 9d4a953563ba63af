//! What types mean, and which faults they have.
#![tactic(auto, using(crate::specs::Walks::walk_steps), unfolding(lil_report::specs::Told::after, lil_report::specs::Told::tell))]

mod bounds;
mod labels;
mod made;
mod named;
mod records;
mod routines;
mod simple;
mod sorts;
mod spans;

pub use bounds::type_below;
pub use labels::label;
pub use made::{add_form, add_type};
pub use named::NamedType;
pub use records::sort_or;
pub use routines::{Parameters, add_parameter, is_structure, procedure_form, result_type};
pub use sorts::sort;
pub use spans::Spans;
