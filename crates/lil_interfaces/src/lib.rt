//! The names that a unit begins with: the standard names, those of its own definition, the interfaces of other modules, and what
//! is imported of them.
#![tactic(auto)]

mod entering;
mod importing;
mod modules;
mod moving;
mod origins;
mod own;
mod resident_modules;
mod sources;
mod standard;
mod surface;

pub use entering::{add_rest, add_rests, copied_rests, copied_wanted, has_rest, with_itself};
pub use importing::{exports, imports};
pub use modules::{Entered, Imported};
pub use origins::{Enumerations, Origins};
pub use own::begin;
pub use resident_modules::{all_resident, resident};
pub use sources::{Source, Sources};
pub use standard::start;
pub use surface::{Exported, Interface, Interfaces, named, same_name, same_text};
