//! A unit as a whole: what a definition declares, the module that runs, or which fault of names, declarations and statements speaks.
#![tactic(auto)]

mod assembling;
mod checking;
mod modules;
mod programs;

pub use checking::{Declared, check_names, told};
pub use modules::check_module;
pub use programs::{check_program, missing_fault, naming_fault};
