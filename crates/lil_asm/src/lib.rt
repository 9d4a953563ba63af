//! The instructions of M-code, and their bytes.
#![tactic(auto)]

mod encoding;
mod instr;

pub use encoding::{encode, encode_entry};
pub use instr::{Instr, decode, word_of_bytes};
