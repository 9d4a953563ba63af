//! The code of statements.
#![tactic(auto)]

mod cases;
mod kinds;
mod loops;
mod simple;
mod starts;
mod statements;
mod targets;

pub use loops::frame_words;
pub use statements::{Around, emit_body};
