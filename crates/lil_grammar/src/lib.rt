//! Parsers, the grammars that they read, and the laws between them; and the reader of tokens.
#![tactic(auto)]

mod fault;
mod reader;

pub use fault::syntax;
pub use reader::Reader;
