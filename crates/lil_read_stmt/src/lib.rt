//! Reads statements and expressions.
#![tactic(auto)]

mod cursor;
mod forms;
mod lookahead;
mod loops;
mod simple;
mod statement;

pub use cursor::{read_expression, read_statements};
pub use statement::statements;
