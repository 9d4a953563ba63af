//! Reads names and expressions.
#![tactic(auto)]

mod adding;
mod expression;
mod forms;
mod idents;
mod lists;
mod literals;
mod lookahead;
mod named;
mod selectors;

pub use adding::add_read;
pub use expression::{boxed_expr, expr};
pub use idents::{names, qualident};
pub use lists::{actuals, labels};
pub use lookahead::sees_expression;
pub use selectors::designator;
