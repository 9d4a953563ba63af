ghost use Rattle.std.specs.Prelude.{◌≡◌, true};
ghost use Rattle.lil_resolved.specs.Sound.{is_text};
ghost use Rattle.lil_forms.specs.Statements as spec;

use crate::places::{Cell, cell_at};
use crate::values::typed;
use lil_kinds::{Form, Found, Located};
use lil_resolved::{Direction, RExpr, RStmt};
use lil_shapes::{composite_at, counted, counted_base, target_of};
use lil_types::TypeTable;

/// A value goes to a place of a kind.
fn stored(cell: Option<Cell>, value: Option<RExpr>) -> Option<RStmt>
    ensures { result ≡ spec.stored cell value }
{
    match cell.zip(value) {
        None => None,
        Some((cell, value)) => Some(RStmt::Assign(cell.place, cell.kind, value)),
    }
}

/// Bytes are characters.
pub fn note_characters(of: &[u8])
    ensures { is_text of.now ≡ true }
{}

/// A string or a whole array or record goes to a place.
fn composed(to: Located, form: Form) -> Option<RStmt>
    ensures { result ≡ spec.composed to form }
{
    match form {
        Form::Text(text) => Some(RStmt::Text(to.place, text)),
        Form::Located(from) => Some(RStmt::Copy(to.place, from.place)),
        rest => {
            drop((to, rest));
            None
        }
    }
}

/// A value goes to a place: all of an array or a record, a string, or a value of a kind. None where one of them has no form.
#[tactic(auto, unfolding(crate::specs::Statements::assigned))]
pub fn assigned(t: &TypeTable, to: Option<Located>, value: Found) -> Option<RStmt>
    ensures { result ≡ spec.assigned t.now to value }
{
    let Some(to) = to else {
        drop(value);
        return None;
    };
    if composite_at(t, to.sort) {
        composed(to, value.form)
    } else {
        let sort = to.sort;
        stored(cell_at(t, Some(to)), typed(t, sort, value))
    }
}

/// INC or DEC of a place by a number of the type that goes with it.
#[tactic(auto, unfolding(crate::specs::Statements::changed))]
pub fn changed(t: &TypeTable, way: Direction, of: Option<Located>, by: Found) -> Option<RStmt>
    ensures { result ≡ spec.changed t.now way of by }
{
    let Some(cell) = cell_at(t, of) else {
        drop(by);
        return None;
    };
    match typed(t, counted(cell.kind.base), by) {
        None => {
            drop(cell);
            None
        }
        Some(by) => Some(RStmt::Change(way, cell.place, cell.kind, by)),
    }
}

/// INC or DEC of a place by 1.
#[tactic(auto, unfolding(crate::specs::Statements::changed_by_one))]
pub fn changed_by_one(t: &TypeTable, way: Direction, of: Option<Located>) -> Option<RStmt>
    ensures { result ≡ spec.changed_by_one t.now way of }
{
    let Some(cell) = cell_at(t, of) else {
        return None;
    };
    let one = RExpr::Constant(counted_base(cell.kind.base), 1);
    Some(RStmt::Change(way, cell.place, cell.kind, one))
}

/// NEW of a pointer at a place, None where it is no pointer or nothing lies where it points to.
#[tactic(auto, unfolding(crate::specs::Statements::created))]
pub fn created(t: &TypeTable, of: Option<Located>) -> Option<RStmt>
    ensures { result ≡ spec.created t.now of }
{
    let Some(cell) = cell_at(t, of) else {
        return None;
    };
    match target_of(t, cell.kind) {
        None => {
            drop(cell);
            None
        }
        Some(target) => Some(RStmt::New(cell.place, target.pointer)),
    }
}

/// DISPOSE of a pointer at a place, which gets NIL.
#[tactic(auto, unfolding(crate::specs::Statements::disposed))]
pub fn disposed(t: &TypeTable, of: Option<Located>) -> Option<RStmt>
    ensures { result ≡ spec.disposed t.now of }
{
    let Some(cell) = cell_at(t, of) else {
        return None;
    };
    let nil = RExpr::Constant(cell.kind.base, 0);
    Some(RStmt::Assign(cell.place, cell.kind, nil))
}
