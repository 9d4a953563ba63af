//! The main store: its words, and the blocks that are taken from its upper end.
#![tactic(auto)]

mod blocks;
mod store;
mod words;

pub use blocks::Block;
pub use store::{MainStore, StoreFull};
