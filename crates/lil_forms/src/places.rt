ghost use Rattle.std.specs.Prelude.{◌≡◌, ◌-◌, IfOk, Some, None};
ghost use Rattle.std.specs.Option.{option_copied};
ghost use Rattle.lil_shapes.specs.Bases.{array_at};
ghost use Rattle.lil_forms.specs.Places as spec;

use crate::values::typed;
use lil_base::{Boxed, Items, Memory, beside};
use lil_declared::{Mode, RVar};
use lil_kinds::{Form, Found, Located, OpenArray};
use lil_resolved::{RExpr, RKind, RNamed, ROpening, RPlace, RRoot, RSelector};
use lil_shapes::{ArrayParts, array_at, field_at, kind_at, target_at};
use lil_types::{CARDINAL, TypeId, TypeTable};
use std::alloc::Global;

/// A place of a kind, and its type.
#[derive(Drop)]
pub struct Cell {
    pub place: RPlace,
    pub kind: RKind,
    pub sort: TypeId,
}

fn at_root(alloc: Global, root: RRoot, sort: TypeId) -> Located
    ensures { result ≡ spec.at_root root sort }
{
    Located {
        place: RPlace {
            root,
            selectors: Items::new(alloc),
        },
        sort,
    }
}

/// The form of a place, Nothing where there is none.
pub fn located_form(of: Option<Located>) -> Form
    ensures { result ≡ spec.located_form of }
{
    match of {
        None => Form::Nothing,
        Some(of) => Form::Located(of),
    }
}

/// The place that a form is.
pub fn located_in(of: Form) -> Option<Located>
    ensures { result ≡ spec.located_in of }
{
    match of {
        Form::Located(place) => Some(place),
        rest => {
            drop(rest);
            None
        }
    }
}

/// An open array, which is a parameter of a procedure.
fn open_form(opening: ROpening, sort: TypeId, named: RNamed) -> Form
    ensures { result ≡ spec.open_form opening sort named }
{
    match named {
        RNamed::Module(_) => Form::Nothing,
        RNamed::Level(levels, number) => Form::Open(OpenArray {
            opening,
            levels,
            number,
            sort,
        }),
    }
}

/// What was handed in for a VAR parameter, which is one of a procedure.
fn handed_form(alloc: Global, sort: TypeId, named: RNamed) -> Form
    ensures { result ≡ spec.handed_form sort named }
{
    match named {
        RNamed::Module(_) => Form::Nothing,
        RNamed::Level(levels, number) => {
            Form::Located(at_root(alloc, RRoot::Handed(levels, number), sort))
        }
    }
}

/// Where a variable leads, by what is known of it: to itself, to what was handed in, or it is an open array. Nothing where it
/// isn't seen.
pub fn variable_at(alloc: Global, named: RNamed, of: Option<&RVar>) -> Form
    ensures { result ≡ spec.variable_at named (option_copied of.entry) }
{
    let Some(variable) = of else {
        return Form::Nothing;
    };
    match variable.mode {
        Mode::Plain | Mode::Value => {
            Form::Located(at_root(alloc, RRoot::Variable(named), variable.sort))
        }
        Mode::Place => handed_form(alloc, variable.sort, named),
        Mode::OpenValue => open_form(ROpening::Copied, variable.sort, named),
        Mode::OpenPlace => open_form(ROpening::Lent, variable.sort, named),
    }
}

/// The record of a WITH by its number from the outermost, by the types of those of all WITHs around.
pub fn held_at(alloc: Global, around: &[TypeId], number: usize) -> Option<Located>
    ensures { result ≡ spec.held_at around.now number }
{
    match around.get(number) {
        None => None,
        Some(sort) => Some(at_root(alloc, RRoot::Held(around.len() - 1 - number), *sort)),
    }
}

/// A part of a place.
fn part_of(of: Located, selector: RSelector, sort: TypeId) -> Result<Located, Memory>
    ensures { IfOk result (λ p. p ≡ spec.part_of of selector sort) }
{
    let RPlace { root, selectors } = of.place;
    let mut selectors = selectors;
    selectors.push(selector)?;
    Ok(Located {
        place: RPlace { root, selectors },
        sort,
    })
}

/// A field by its number, None where the place is no record with such a field.
pub fn field_of(
    t: &TypeTable,
    number: usize,
    of: Option<Located>,
) -> Result<Option<Located>, Memory>
    ensures { IfOk result (λ p. p ≡ spec.field_of t.now number of) }
{
    let Some(of) = of else {
        return Ok(None);
    };
    match field_at(t, of.sort, number) {
        None => {
            drop(of);
            Ok(None)
        }
        Some(sort) => Ok(Some(part_of(of, RSelector::Field(number), sort)?)),
    }
}

fn element_as(
    of: Located,
    sort: TypeId,
    kind: Option<RKind>,
    index: Option<RExpr>,
) -> Result<Option<Located>, Memory>
    ensures { IfOk result (λ p. p ≡ spec.element_as of sort kind index) }
{
    match kind.zip(index) {
        None => {
            drop(of);
            Ok(None)
        }
        Some((kind, index)) => Ok(Some(part_of(of, RSelector::Index(kind, index), sort)?)),
    }
}

fn element_by(
    t: &TypeTable,
    index: Found,
    of: Located,
    parts: ArrayParts,
) -> Result<Option<Located>, Memory>
    ensures { IfOk result (λ p. p ≡ spec.element_by t.now index of (Some parts)) }
{
    let kind = kind_at(t, parts.index);
    let index = typed(t, parts.index, index);
    element_as(of, parts.element, kind, index)
}

/// An element along an open array, by a CARDINAL.
fn element_along(
    alloc: Global,
    of: OpenArray,
    index: Option<RExpr>,
) -> Result<Option<Located>, Memory>
    ensures { IfOk result (λ p. p ≡ spec.element_along of index) }
{
    let Some(index) = index else {
        return Ok(None);
    };
    let root = RRoot::Along(of.levels, of.number, Boxed::new(alloc, index)?);
    Ok(Some(at_root(alloc, root, of.sort)))
}

fn element_in(t: &TypeTable, index: Found, of: Located) -> Result<Option<Located>, Memory>
    ensures { IfOk result (λ p. p ≡ spec.element_by t.now index of (array_at t.now of.sort)) }
{
    match array_at(t, of.sort) {
        None => {
            drop((of, index));
            Ok(None)
        }
        Some(parts) => element_by(t, index, of, parts),
    }
}

/// An element by an index, None where the form is no array.
pub fn element_of(
    alloc: Global,
    t: &TypeTable,
    index: Found,
    of: Form,
) -> Result<Option<Located>, Memory>
    ensures { IfOk result (λ p. p ≡ spec.element_of t.now index of) }
{
    match of {
        Form::Located(of) => element_in(t, index, of),
        Form::Open(of) => element_along(alloc, of, typed(t, CARDINAL, index)),
        rest => {
            drop((rest, index));
            Ok(None)
        }
    }
}

/// What a pointer points to, None where the place is no pointer or nothing lies there.
pub fn target_of(t: &TypeTable, of: Option<Located>) -> Result<Option<Located>, Memory>
    ensures { IfOk result (λ p. p ≡ spec.target_of t.now of) }
{
    let Some(of) = of else {
        return Ok(None);
    };
    match target_at(t, of.sort) {
        None => {
            drop(of);
            Ok(None)
        }
        Some(to) => Ok(Some(part_of(of, RSelector::Follow(to.pointer), to.sort)?)),
    }
}

/// A place of a kind, None where its type has none.
#[tactic(auto, unfolding(crate::specs::Places::cell))]
pub fn cell_at(t: &TypeTable, of: Option<Located>) -> Option<Cell>
    ensures { result ≡ spec.cell t.now of }
{
    let Some(of) = of else {
        return None;
    };
    match kind_at(t, of.sort) {
        None => {
            drop(of);
            None
        }
        Some(kind) => Some(Cell {
            place: of.place,
            kind,
            sort: of.sort,
        }),
    }
}
