//! Types by their numbers, how they go together, and constants.
#![tactic(auto)]

mod adding;
mod fields;
mod folding;
mod relations;
mod table;

pub use adding::{add, append, own, values};
pub use fields::{FieldAt, Fields};
pub use folding::{fits, fold_one, fold_two};
pub use relations::{
    assignable, base, compatible, entry, is_pointer_type, is_untold_type, is_whole, known, meant,
    same, words,
};
pub use table::{
    ADDRESS, BITSET, BOOLEAN, CARDINAL, CHAR, Const, Facts, Field, FoldStop, INTEGER, Origin, PROC,
    PROCESS, Parameter, Span, TypeEntry, TypeForm, TypeId, TypeTable, meets,
};
