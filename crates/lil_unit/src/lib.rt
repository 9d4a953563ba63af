//! The code of program modules.
#![tactic(auto)]

mod code;
mod stop;

pub use code::{ModuleCode, generate, generate_alone, link};
pub use stop::GenStop;
