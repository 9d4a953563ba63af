ghost use Rattle.std.specs.Prelude.{◌≡◌};
ghost use Rattle.lil_types.specs.Types as types;
ghost use Rattle.lil_shapes.specs.Bases as spec;

use lil_resolved::{RBase, RKind, RRange};
use lil_types::{
    ADDRESS, BITSET, BOOLEAN, CARDINAL, CHAR, INTEGER, PROC, TypeForm, TypeId, TypeTable, base,
    entry,
};

/// The base of a standard type's values.
fn standard(sort: TypeId) -> Option<RBase>
    ensures { result ≡ spec.standard sort }
{
    if sort == INTEGER {
        Some(RBase::Integer)
    } else if sort == CARDINAL {
        Some(RBase::Cardinal)
    } else if sort == BOOLEAN {
        Some(RBase::Truth)
    } else if sort == CHAR {
        Some(RBase::Character)
    } else if sort == BITSET {
        Some(RBase::Set)
    } else if sort == ADDRESS {
        Some(RBase::Address)
    } else if sort == PROC {
        Some(RBase::Procedure(sort as usize))
    } else {
        None
    }
}

fn enumerated(count: usize) -> Option<RBase>
    ensures { result ≡ spec.enumerated count }
{
    if count <= 65535 {
        Some(RBase::Enumeration(count as u16))
    } else {
        None
    }
}

fn base_form(sort: TypeId, form: &TypeForm) -> Option<RBase>
    ensures { result ≡ spec.base_form sort form.now }
{
    match form {
        TypeForm::Enumeration(constants) => enumerated(constants.len()),
        TypeForm::SetOf(_) => Some(RBase::Set),
        TypeForm::Pointer(_) => Some(RBase::Pointer(sort as usize)),
        TypeForm::Procedure(_, _) => Some(RBase::Procedure(sort as usize)),
        _ => None,
    }
}

/// What the values of a base type are, None for a type that is none or has no words of its own.
pub fn base_at(t: &TypeTable, sort: TypeId) -> Option<RBase>
    ensures { result ≡ spec.base_at t.now sort }
{
    match entry(t, sort) {
        None => standard(sort),
        Some(entry) => base_form(sort, &entry.form),
    }
}

fn plain(base: RBase) -> RKind
    ensures { result ≡ spec.plain base }
{
    RKind { base, range: None }
}

fn kind_form(base: RBase, form: &TypeForm) -> Option<RKind>
    ensures { result ≡ spec.kind_form base form.now }
{
    match form {
        TypeForm::Enumeration(_) => Some(plain(base)),
        TypeForm::SetOf(_) => Some(plain(base)),
        TypeForm::Pointer(_) => Some(plain(base)),
        TypeForm::Procedure(_, _) => Some(plain(base)),
        TypeForm::Subrange(_, span) => Some(RKind {
            base,
            range: Some(RRange {
                low: span.low,
                high: span.high,
            }),
        }),
        _ => None,
    }
}

/// The kind of a type's variables, whose values are of a base.
fn kind_over(t: &TypeTable, base: RBase, sort: TypeId) -> Option<RKind>
    ensures { result ≡ spec.kind_by base (types.entry t.now sort) }
{
    match entry(t, sort) {
        None => Some(plain(base)),
        Some(entry) => kind_form(base, &entry.form),
    }
}

/// The kind of a type's variables, None where it is neither an ordinal type nor a set, a pointer or a procedure type.
pub fn kind_at(t: &TypeTable, sort: TypeId) -> Option<RKind>
    ensures { result ≡ spec.kind_at t.now sort }
{
    match base_at(t, base(t, sort)) {
        None => None,
        Some(base) => kind_over(t, base, sort),
    }
}
