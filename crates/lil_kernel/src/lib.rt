//! The kernel: it serves what programs ask for. Each request takes its words from the machine's
//! expression stack, and shows a piece on the screen.
#![tactic(auto)]

mod numbers;
mod pieces;
mod service;
mod strings;

pub use pieces::{Piece, piece};
pub use service::serve;
