//! Object files: what a module that is compiled leaves for the loader, and how that is read and written.
#![tactic(auto)]

mod contents;
mod head;
mod object;
mod reading;
mod writing;

pub use object::{Contents, DataString, Head, Object, ObjectKind, ProcedureEntry};
pub use reading::read_object;
pub use writing::write_object;

#[cfg(test)]
mod tests;
