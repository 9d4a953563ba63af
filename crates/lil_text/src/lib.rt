//! Tokens, names where they stand, and why reading stops.
#![tactic(auto)]

mod stop;
mod token;
mod tree;

pub use lil_base::{OneOp, TwoOp};
pub use stop::ReadStop;
pub use token::{Mark, Token, TokenKind, Tokens, Word};
pub use tree::{Ident, Qualident};
