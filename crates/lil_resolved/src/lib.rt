//! Resolved modules: each name is replaced by its thing, and each constant expression by its value.
#![tactic(auto)]

mod resolved;
mod shapes;

pub use lil_base::{OneOp, TwoOp};
pub use resolved::{
    Allocation, Direction, Membership, RArgument, RArm, RBase, RDeclared, RExpr, RFunction, RGuard,
    RHeading, RKind, RLabel, RMember, RModule, RNamed, ROpening, ROperation, RPassed, RPassing,
    RPlace, RProcedure, RRange, RRoot, RSelector, RSignature, RStmt, RVariable, base, whole_base,
};
pub use shapes::{RElements, RField, RShape};
