//! The tests of phrases, and the least fault of those that find something wrong.
#![tactic(auto)]

mod report;

pub use report::{Fault, Report, worse};
