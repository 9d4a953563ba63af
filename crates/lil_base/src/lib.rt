//! Words, names, lists and the values that answers carry.
#![tactic(auto)]

mod boxed;
mod fault;
mod fields;
mod found;
mod items;
mod memory;
mod name;
mod operator;
mod request;
mod sets;
mod shared;
mod words;

pub use boxed::Boxed;
pub use fault::{
    ArithFault, CodePlace, FaultKind, FormatStop, Key, LimitKind, LoadRefusal, Place, SourceFault,
    TrapAt, TrapKind,
};
pub use fields::{get16, put16, put32};
pub use found::beside;
pub use items::{Items, joined, same_bytes};
pub use memory::Memory;
pub use name::{FileKind, FileName, Name};
pub use operator::{OneOp, TwoOp};
pub use request::Request;
pub use sets::{set_either, set_has, set_meet, set_minus, set_span, set_union, set_within};
pub use shared::Shared;
pub use words::{
    abs_int, add_card, add_int, div_card, div_int, mod_card, mod_int, mul_card, mul_int, neg_int,
    sub_card, sub_int, whole_difference, whole_product, whole_quotient, whole_rest, whole_sum,
};

/// A list of bytes.
pub type Bytes = Items<u8>;

/// A list of bytes that is read as text.
pub type Text = Items<u8>;
