//! What is known of operands, and how kinds of operands go together.
#![tactic(auto)]

mod forms;
mod found;
mod operators;
mod relations;

pub use forms::{
    ArrayParts, arity, array_parts, element_span, field, has_nil, is_char_array, is_opaque,
    is_record, is_routine, parameter, parameters, result, set_base, shape, span_of, target,
};
pub use found::{Applied, Form, Found, Located, OpenArray, Standing};
pub use operators::{extreme, function, one, operand_type, two};
pub use relations::{assignable, compatible, is_constant, is_ordinal, misses, number, outside};
