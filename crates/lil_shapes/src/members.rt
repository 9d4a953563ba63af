ghost use Rattle.std.specs.Prelude.{◌≡◌};
ghost use Rattle.std.specs.Option.{option_map};
ghost use Rattle.lil_types.specs.Types as types;
ghost use Rattle.lil_shapes.specs.Bases as spec;

use crate::bases::kind_at;
use lil_resolved::{RBase, RKind, RRange};
use lil_types::{BITSET, CARDINAL, TypeForm, TypeId, TypeTable, base, entry};

/// What may be in a set: numbers of a kind, and their base type.
#[derive(Clone, Copy)]
pub struct Members {
    pub kind: RKind,
    pub sort: TypeId,
}

/// The numbers from 0 to 15 as CARDINALs.
fn bits() -> Members
    ensures { result ≡ spec.members_with types.cardinal spec.bits }
{
    Members {
        kind: RKind {
            base: RBase::Cardinal,
            range: Some(RRange { low: 0, high: 15 }),
        },
        sort: CARDINAL,
    }
}

fn members_of(t: &TypeTable, sort: TypeId) -> Option<Members>
    ensures { result ≡ option_map (spec.members_with (types.base t.now sort)) (spec.kind_at t.now sort) }
{
    match kind_at(t, sort) {
        None => None,
        Some(kind) => Some(Members {
            kind,
            sort: base(t, sort),
        }),
    }
}

fn members_in(t: &TypeTable, form: &TypeForm) -> Option<Members>
    ensures { result ≡ spec.members_in t.now form.now }
{
    match form {
        TypeForm::SetOf(of) => members_of(t, *of),
        _ => None,
    }
}

/// What may be in the sets of a type, None for a type of other values.
pub fn members_at(t: &TypeTable, sort: TypeId) -> Option<Members>
    ensures { result ≡ spec.members_at t.now sort }
{
    if sort == BITSET {
        return Some(bits());
    }
    match entry(t, sort) {
        None => None,
        Some(entry) => members_in(t, &entry.form),
    }
}
