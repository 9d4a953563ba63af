//! What phrases become of which code is made: places, values and statements, from what is known of their parts.
#![tactic(auto)]

mod arguments;
mod operators;
mod places;
mod sets;
mod statements;
mod values;
mod variables;

pub use arguments::{called, handed_over, nothing_handed};
pub use operators::{
    Built, begun, chain_form, function_value, one_of, operated, set_form, single_by, span_by,
    value_form,
};
pub use places::{
    Cell, cell_at, element_of, field_of, held_at, located_form, located_in, target_of, variable_at,
};
pub use sets::{allocated, turned};
pub use statements::{assigned, changed, changed_by_one, created, disposed, note_characters};
pub use values::{own, typed, typed_by};
pub use variables::{named_at, seen};
