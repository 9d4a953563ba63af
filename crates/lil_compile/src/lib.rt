//! The compilation of definitions: what is written of one in its volume, or which fault it has.
#![tactic(auto)]

mod command;
mod prepare;
mod stop;

pub use command::compile_def;
pub use stop::CompileStop;
