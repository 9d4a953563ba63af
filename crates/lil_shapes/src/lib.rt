//! What types are for the generator: kinds of values, shapes of variables, and how variables lie.
#![tactic(auto)]

mod bases;
mod composites;
mod elements;
mod laying;
mod members;
mod operators;
mod pointers;
mod shapes;
mod signatures;

pub use bases::{base_at, kind_at};
pub use composites::{ArrayParts, array_at, composite_at, element_sort, field_at};
pub use elements::elements_at;
pub use laying::{Laid, lay, lay_locals};
pub use members::{Members, members_at};
pub use operators::{counted, counted_base};
pub use pointers::{Target, all_targets, target_at, target_of, target_sort};
pub use shapes::{Shaped, all_shapes};
pub use signatures::all_signatures;
