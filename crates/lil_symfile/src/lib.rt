//! Symbol files: what a definition module tells of itself, and how that is read and written.
#![tactic(auto)]

mod bounds;
mod kinds;
mod names;
mod reading;
mod same;
mod seen;
mod short;
mod spelling;
mod tree;
mod types;
mod writing;

pub use reading::{is_resident, read_sym};
pub use spelling::has_spelling;
pub use tree::{Class, Field, Form, Parameter, SymName, SymType, SymbolFile, TypeNumber};
pub use writing::write_sym;

#[cfg(test)]
mod tests;
