//! What an interface says, in the numbers of a unit.

ghost use Rattle.std.specs.Prelude.{◌≡◌, IfOk, map};
ghost use Rattle.std.specs.Option.{option_copied};
ghost use Rattle.lil_interfaces.specs.Moving as spec;

use crate::standard::known;
use crate::surface::Exported;
use lil_base::{Items, Memory, Name};
use lil_scope::{Blocks, ExternalProcedure, ExternalVariable, Kind, Routine, Thing, Variable};
use lil_types::{Field, Fields, Parameter, TypeForm, TypeId};
use std::alloc::Global;

fn number_at(number: Option<&TypeId>) -> TypeId
    ensures { result ≡ spec.number_at (option_copied number.entry) }
{
    match number {
        Some(number) => *number,
        None => 4_294_967_295,
    }
}

/// The number in the unit's table of a type that an interface has under this number, where the types of its table have these.
fn moved(numbers: &[TypeId], number: TypeId) -> TypeId
    ensures { result ≡ spec.moved numbers.now number }
{
    if number < 16 {
        return number;
    }
    number_at(numbers.get(number as usize - 16))
}

fn moved_some(numbers: &[TypeId], number: Option<TypeId>) -> Option<TypeId>
    ensures { result ≡ spec.moved_some numbers.now number }
{
    match number {
        Some(number) => Some(moved(numbers, number)),
        None => None,
    }
}

fn moved_parameter(numbers: &[TypeId], of: Parameter) -> Parameter
    ensures { result ≡ spec.moved_parameter numbers.now of }
{
    Parameter {
        sort: moved(numbers, of.sort),
        ..of
    }
}

fn moved_parameters(
    alloc: Global,
    numbers: &[TypeId],
    of: &[Parameter],
) -> Result<Items<Parameter>, Memory>
    ensures { IfOk result (λ ps. ps ≡ map (spec.moved_parameter numbers.now) of.now) }
{
    let mut all = Items::new(alloc);
    for one in of {
        all.push(moved_parameter(numbers, *one))?;
    }
    Ok(all)
}

fn moved_fields(alloc: Global, numbers: &[TypeId], of: &[Field]) -> Result<Fields, Memory>
    ensures { IfOk result (λ fs. fs ≡ map (spec.moved_field numbers.now) of.now) }
{
    let mut all = Fields::new(alloc);
    for one in of {
        let (_, more) = all.with(alloc, &one.name, moved(numbers, one.sort))?;
        all = more;
    }
    Ok(all)
}

pub(crate) fn copied_names(alloc: Global, of: &[Name]) -> Result<Items<Name>, Memory>
    ensures { IfOk result (λ ns. ns ≡ of.now) }
{
    let mut all = Items::new(alloc);
    for one in of {
        all.push(one.copy(alloc)?)?;
    }
    Ok(all)
}

pub(crate) fn moved_form(
    alloc: Global,
    numbers: &[TypeId],
    of: &TypeForm,
) -> Result<TypeForm, Memory>
    ensures { IfOk result (λ f. f ≡ spec.moved_form numbers.now of.now) }
{
    Ok(match of {
        TypeForm::Enumeration(names) => {
            TypeForm::Enumeration(copied_names(alloc, names.as_slice())?)
        }
        TypeForm::Subrange(base, span) => TypeForm::Subrange(moved(numbers, *base), *span),
        TypeForm::Array(index, element) => {
            TypeForm::Array(moved(numbers, *index), moved(numbers, *element))
        }
        TypeForm::Record(fields) => {
            TypeForm::Record(moved_fields(alloc, numbers, fields.as_slice())?)
        }
        TypeForm::SetOf(base) => TypeForm::SetOf(moved(numbers, *base)),
        TypeForm::Pointer(target) => TypeForm::Pointer(moved(numbers, *target)),
        TypeForm::Procedure(parameters, answer) => TypeForm::Procedure(
            moved_parameters(alloc, numbers, parameters.as_slice())?,
            moved_some(numbers, *answer),
        ),
        TypeForm::Opaque(other) => TypeForm::Opaque(moved_some(numbers, *other)),
    })
}

fn moved_kind(numbers: &[TypeId], of: Kind) -> Kind
    ensures { result ≡ spec.moved_kind numbers.now of }
{
    match of {
        Kind::Scalar(sort, word) => Kind::Scalar(moved(numbers, sort), word),
        Kind::Of(sort) => Kind::Of(moved(numbers, sort)),
        Kind::Open(sort) => Kind::Open(moved(numbers, sort)),
        Kind::Routine(sort) => Kind::Routine(moved(numbers, sort)),
        _ => of,
    }
}

/// The number of a text, where so many stood before.
fn moved_text(texts: usize, number: usize) -> usize
    ensures { result ≡ spec.moved_text texts number }
{
    texts.saturating_add(number).min(4_294_967_295)
}

/// A thing of an interface, where so many texts stood before. What is external belongs to the module whose names stand in this
/// block.
pub(crate) fn moved_thing(numbers: &[TypeId], texts: usize, block: usize, of: Thing) -> Thing
    ensures { result ≡ spec.moved_thing numbers.now texts block of }
{
    match of {
        Thing::Constant(kind) => Thing::Constant(moved_kind(numbers, kind)),
        Thing::Named(number, chars) => Thing::Named(moved_text(texts, number), chars),
        Thing::Variable(variable) => Thing::Variable(Variable {
            sort: moved(numbers, variable.sort),
            ..variable
        }),
        Thing::Type(sort) => Thing::Type(moved(numbers, sort)),
        Thing::Procedure(routine) => Thing::Procedure(Routine {
            sort: moved(numbers, routine.sort),
            ..routine
        }),
        Thing::ExternalVariable(variable) => Thing::ExternalVariable(ExternalVariable {
            module: block,
            sort: moved(numbers, variable.sort),
            ..variable
        }),
        Thing::ExternalProcedure(procedure) => Thing::ExternalProcedure(ExternalProcedure {
            module: block,
            sort: moved(numbers, procedure.sort),
            ..procedure
        }),
        Thing::Resident(request, sort) => Thing::Resident(request, moved(numbers, sort)),
        _ => of,
    }
}

fn seen_by(numbers: &[TypeId], texts: usize, block: usize, of: &Exported) -> Thing
    ensures { result ≡ spec.seen_by numbers.now texts block of.now.shown of.now.what }
{
    if of.shown {
        moved_thing(numbers, texts, block, of.what)
    } else {
        Thing::Hidden
    }
}

/// A name of an interface in a block.
#[tactic(auto, unfolding(crate::specs::Moving::with_name))]
fn add_name(
    alloc: Global,
    numbers: &[TypeId],
    texts: usize,
    block: usize,
    to: &mut Blocks,
    of: &Exported,
) -> Result<(), Memory>
    ensures { IfOk result (λ u. to.new ≡ spec.with_name numbers.now texts block to.old of.now) }
{
    let seen = seen_by(numbers, texts, block, of);
    to.declare(alloc, block, &of.name, known(seen))?;
    Ok(())
}

/// The names of an interface in a block.
pub(crate) fn add_names(
    alloc: Global,
    numbers: &[TypeId],
    texts: usize,
    block: usize,
    to: &mut Blocks,
    of: &[Exported],
) -> Result<(), Memory>
    ensures { IfOk result (λ u. to.new ≡ spec.with_names numbers.now texts block to.old of.now) }
{
    for one in of {
        add_name(alloc, numbers, texts, block, to, one)?;
    }
    Ok(())
}
