//! How many words the data of a module take.
#![tactic(auto)]

mod data;
mod strings;
mod values;

pub use data::{data_words, variables_words};
pub use strings::body_words;
