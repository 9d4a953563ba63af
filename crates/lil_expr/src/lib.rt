//! The code of expressions, of places and of calls.
#![tactic(auto)]

mod calls;
mod expressions;
mod functions;
mod numbers;
mod opened;
mod places;
mod ranges;
mod roots;
mod spelled;

pub use calls::{emit_argument, emit_call, emit_value_call};
pub use expressions::{emit_address_of, emit_expression, emit_place, emit_tested};
pub use numbers::word_of_number;
pub use places::{Access, Reached, variable_access};
pub use ranges::{covers, emit_test};
