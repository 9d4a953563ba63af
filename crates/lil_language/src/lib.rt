//! What a unit says as it is written: its tree, and the grammar, by which its tokens derive the tree.
#![tactic(auto)]

mod tree;
mod unit;

pub use tree::{
    Arm, Designator, Expr, ForHead, Guard, Operation, Range, Selector, Stmt, begun_at, first_place,
};
pub use unit::{
    Block, Constant, Decl, FieldList, Formal, Head, Heading, Import, Section, Simple, Sort,
    TypeName, Unit, UnitKind, Variables, Variant, weight,
};
