//! Reads declarations.
#![tactic(auto)]

mod declaration;
mod lookahead;
mod part;
mod procedure_heading;

pub use declaration::{block, decls, definition_decls};
