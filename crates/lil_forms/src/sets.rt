ghost use Rattle.std.specs.Prelude.{◌≡◌};
ghost use Rattle.lil_forms.specs.Statements as spec;

use crate::places::cell_at;
use crate::values::typed;
use lil_kinds::{Found, Located};
use lil_resolved::{Allocation, Membership, RExpr, RPlace, RStmt};
use lil_shapes::members_at;
use lil_types::TypeTable;

/// A number joins the set at a place, by INCL, or leaves it, by EXCL.
#[tactic(auto, unfolding(crate::specs::Statements::turned))]
pub fn turned(t: &TypeTable, way: Membership, set: Option<Located>, of: Found) -> Option<RStmt>
    ensures { result ≡ spec.turned t.now way set of }
{
    let Some(cell) = cell_at(t, set) else {
        drop(of);
        return None;
    };
    let Some(members) = members_at(t, cell.sort) else {
        drop((cell, of));
        return None;
    };
    match typed(t, members.sort, of) {
        None => {
            drop(cell);
            None
        }
        Some(of) => Some(RStmt::Member(way, cell.place, members.kind, of)),
    }
}

/// ALLOCATE and DEALLOCATE: an address at a place gets a workspace of so many words, or is NIL again.
pub fn allocated(way: Allocation, of: Option<RPlace>, words: Option<RExpr>) -> Option<RStmt>
    ensures { result ≡ spec.allocated way of words }
{
    match of.zip(words) {
        None => None,
        Some((place, words)) => Some(RStmt::Allocate(way, place, words)),
    }
}
