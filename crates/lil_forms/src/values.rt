ghost use Rattle.std.specs.Prelude.{◌≡◌};
ghost use Rattle.lil_forms.specs.Values as spec;

use lil_kinds::{Form, Found, Located};
use lil_resolved::{RBase, RExpr};
use lil_scope::Kind;
use lil_shapes::{base_at, kind_at};
use lil_types::{TypeId, TypeTable, base};

/// A constant of a base by its number.
fn constant(base: Option<RBase>, number: i32) -> Option<RExpr>
    ensures { result ≡ spec.constant base number }
{
    match base {
        None => None,
        Some(base) => Some(RExpr::Constant(base, number)),
    }
}

/// The value at a place, None where its type has no kind.
pub(crate) fn taken(t: &TypeTable, of: Located) -> Option<RExpr>
    ensures { result ≡ spec.taken t.now of }
{
    match kind_at(t, of.sort) {
        None => {
            drop(of);
            None
        }
        Some(kind) => Some(RExpr::Taken(of.place, kind)),
    }
}

/// The value of a form that has a type, None where it has no code.
pub fn own(t: &TypeTable, of: Form) -> Option<RExpr>
    ensures { result ≡ spec.own t.now of }
{
    match of {
        Form::Value(value) => Some(value),
        Form::Located(place) => taken(t, place),
        Form::Text(text) => {
            drop(text);
            None
        }
        Form::Nothing | Form::Open(_) | Form::Routine(_) => None,
    }
}

/// A procedure of the text as a value of a procedure type; its number from 1 is a byte in the code.
fn routine_by(sort: TypeId, number: usize) -> Option<RExpr>
    ensures { result ≡ spec.routine_by sort number }
{
    if number < 255 {
        Some(RExpr::Routine((number + 1) as u8, sort as usize))
    } else {
        None
    }
}

fn routine_in(sort: TypeId, of: Form) -> Option<RExpr>
    ensures { result ≡ spec.routine_in sort of }
{
    match of {
        Form::Routine(number) => routine_by(sort, number),
        rest => {
            drop(rest);
            None
        }
    }
}

/// The value of an operand of a kind in its own type, or that of a constant without one, or of a procedure, in the type
/// `sort`. None where its form has no code.
pub fn typed_by(t: &TypeTable, sort: TypeId, kind: Kind, form: Form) -> Option<RExpr>
    ensures { result ≡ spec.typed_by t.now sort kind form }
{
    match kind {
        Kind::Of(_) => own(t, form),
        Kind::Whole(number) => {
            drop(form);
            constant(base_at(t, base(t, sort)), number)
        }
        Kind::Scalar(own, word) => {
            drop(form);
            constant(base_at(t, base(t, own)), i32::from(word))
        }
        Kind::Chars(text) => {
            drop(form);
            constant(Some(RBase::Character), i32::from(text.first))
        }
        Kind::Nil => {
            drop(form);
            constant(base_at(t, base(t, sort)), 0)
        }
        Kind::Open(_) => {
            drop(form);
            None
        }
        Kind::Routine(_) => routine_in(base(t, sort), form),
    }
}

/// The value of an operand, likewise.
#[tactic(auto, unfolding(crate::specs::Values::typed))]
pub fn typed(t: &TypeTable, sort: TypeId, of: Found) -> Option<RExpr>
    ensures { result ≡ spec.typed t.now sort of }
{
    typed_by(t, sort, of.kind, of.form)
}
