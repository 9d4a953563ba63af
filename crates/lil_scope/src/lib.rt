//! What names stand for: blocks of declarations, one inside the other, and all that is declared so far.
#![tactic(auto)]

mod awaited;
mod built;
mod coming;
mod entering;
mod env;
mod locals;
mod names;
mod scope;
mod thing;

pub use awaited::{awaited_procedure, awaited_type, rebind};
pub use built::is_built;
pub use coming::Coming;
pub use entering::{
    Around, chain, enter, leave, levels_out, procedure_out, variable_levels, visible,
};
pub use env::{Env, Wait, Waits, Withs};
pub use locals::Locals;
pub use names::{bind, bind_at, find_in, is_later, waits_for};
pub use scope::{Blocks, Scopes};
pub use thing::{
    Bound, Chars, Entry, ExternalProcedure, ExternalVariable, Kind, Routine, Thing, Variable,
};
