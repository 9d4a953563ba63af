//! The M-code processor: its store, its code, its instructions and its steps.
#![tactic(auto)]

mod arithmetic;
mod machine;
mod processor;
mod request;

pub use lil_asm::{Instr, decode, encode, encode_entry};
pub use machine::{CodeAt, Event, Machine};
pub use request::words_of_request;
