//! The book of a volume: its definitions by their keys. It is read and written here, and grows.
#![tactic(auto)]

mod book;
mod reading;
mod writing;

pub use book::{Book, BookStop, Entry};
pub use reading::read_book;
pub use writing::write_book;
