//! What declarations mean, and which faults they have.
#![tactic(auto, using(lil_check_type::specs::Walks::walk_steps), unfolding(lil_report::specs::Told::after, lil_report::specs::Told::tell))]

mod constants;
mod decl;
mod headings;
mod home;

pub use decl::declarations;
pub use home::Home;
