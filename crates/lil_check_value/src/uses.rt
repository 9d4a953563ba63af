ghost use Rattle.std.specs.Prelude.{◌≡◌, IfOk, slice_get};
ghost use Rattle.lil_report.specs.Told.{Said};
ghost use Rattle.lil_check_value.specs.Designators as spec;

use crate::designators::{Named, Part, Reached, is_misplaced};
use lil_base::{FaultKind, Items, Memory, Place, Shared, Text};
use lil_call::{Argument, Callee};
use lil_forms::own;
use lil_kinds::{Form, Found};
use lil_operators::{constant_found, plain_found};
use lil_report::Report;
use lil_scope::{Env, ExternalProcedure, Kind, Routine, Thing, levels_out};
use lil_types::{TypeId, TypeTable};

fn part_found(of: Part) -> Found
    ensures { result ≡ spec.part_found of }
{
    Found {
        form: of.form,
        kind: of.kind,
        first: of.first,
        depth: of.depth,
        standing: of.standing,
    }
}

fn no_value(of: Thing) -> bool
    ensures { result ≡ spec.no_value of }
{
    match of {
        Thing::Procedure(routine) => routine.level > 1,
        Thing::Resident(_, _) => true,
        Thing::Standard(_) => true,
        _ => false,
    }
}

/// A procedure by its number, where no other one declares it.
fn routine_found(first: Place, of: Routine) -> Option<Found>
    ensures { result ≡ spec.routine_found first of }
{
    if of.level > 1 {
        None
    } else {
        let form = Form::Routine(of.number);
        Some(plain_found(first, form, Kind::Routine(of.sort)))
    }
}

/// A procedure of another module has no form.
fn external_found(first: Place, of: ExternalProcedure) -> Found
    ensures { result ≡ spec.external_found first of }
{
    plain_found(first, Form::Nothing, Kind::Routine(of.sort))
}

/// The text of a constant by its number among those of all constants.
fn text_form(texts: &Items<Shared<Text>>, number: usize) -> Result<Form, Memory>
    ensures { IfOk result (λ f. f ≡ spec.text_form (slice_get texts.now number)) }
{
    match texts.get(number) {
        None => Ok(Form::Nothing),
        Some(text) => Ok(Form::Text(text.share()?)),
    }
}

fn thing_found(
    texts: &Items<Shared<Text>>,
    first: Place,
    of: Thing,
) -> Result<Option<Found>, Memory>
    ensures { IfOk result (λ o. o ≡ spec.thing_found texts.now first of) }
{
    match of {
        Thing::Constant(kind) => Ok(Some(constant_found(first, kind))),
        Thing::Named(number, chars) => {
            let form = text_form(texts, number)?;
            Ok(Some(plain_found(first, form, Kind::Chars(chars))))
        }
        Thing::Nil => Ok(Some(constant_found(first, Kind::Nil))),
        Thing::Procedure(routine) => Ok(routine_found(first, routine)),
        Thing::ExternalProcedure(of) => Ok(Some(external_found(first, of))),
        _ => Ok(None),
    }
}

/// A name that is no variable, as a value.
#[tactic(auto, unfolding(crate::specs::Designators::named_value, lil_report::specs::Told::tell))]
fn named_value(
    texts: &Items<Shared<Text>>,
    report: &mut Report,
    of: Named,
) -> Result<Option<Found>, Memory>
    ensures { IfOk result (λ o. Said (spec.named_value texts.now of) report.old o report.new) }
{
    report.note(is_misplaced(of.thing), of.name, FaultKind::WrongKind);
    report.note(no_value(of.thing), of.name, FaultKind::ProcValue);
    let found = thing_found(texts, of.first, of.thing)?;
    Ok(found)
}

/// What a designator reaches, as a value.
#[tactic(auto, unfolding(lil_report::specs::Told::tell))]
pub(crate) fn value_node(
    texts: &Items<Shared<Text>>,
    report: &mut Report,
    of: Option<Reached>,
) -> Result<Option<Found>, Memory>
    ensures { IfOk result (λ o. Said (spec.value_node texts.now of) report.old o report.new) }
{
    match of {
        None => Ok(None),
        Some(Reached::Part(part)) => Ok(Some(part_found(part))),
        Some(Reached::Other(named)) => named_value(texts, report, named),
    }
}

/// What a designator reaches, as a variable.
#[tactic(auto, unfolding(lil_report::specs::Told::tell))]
pub(crate) fn variable_node(report: &mut Report, of: Option<Reached>) -> Option<Found>
    ensures { Said (spec.variable_node of) report.old result report.new }
{
    match of {
        None => None,
        Some(Reached::Part(part)) => Some(part_found(part)),
        Some(Reached::Other(named)) => {
            report.note(true, named.name, FaultKind::WrongKind);
            None
        }
    }
}

/// The value of a variable or of a part of one.
fn part_callee(types: &TypeTable, of: Part) -> Callee
    ensures { result ≡ spec.part_callee types.now of.kind of }
{
    match of.kind {
        Kind::Of(sort) => Callee::Variable(sort, of.depth, own(types, of.form)),
        _ => {
            drop(of);
            Callee::Other
        }
    }
}

fn thing_callee(env: &Env, of: Thing) -> Option<Callee>
    ensures { result ≡ spec.thing_callee env.now of }
{
    match of {
        Thing::Procedure(routine) => {
            let levels = levels_out(env, routine.level);
            Some(Callee::Procedure(routine.sort, routine.number, levels))
        }
        Thing::ExternalProcedure(of) => Some(Callee::Variable(of.sort, 1, None)),
        Thing::Resident(resident, sort) => Some(Callee::Resident(resident, sort)),
        Thing::Standard(standard) => Some(Callee::Standard(standard)),
        Thing::Constant(_) => Some(Callee::Other),
        Thing::Named(_, _) => Some(Callee::Other),
        Thing::Nil => Some(Callee::Other),
        _ => None,
    }
}

/// What a designator reaches, as what is called.
#[tactic(auto, unfolding(lil_report::specs::Told::tell))]
pub(crate) fn callee_node(env: &Env, report: &mut Report, of: Option<Reached>) -> Option<Callee>
    ensures { Said (spec.callee_node env.now of) report.old result report.new }
{
    match of {
        None => None,
        Some(Reached::Part(part)) => Some(part_callee(&env.types, part)),
        Some(Reached::Other(named)) => {
            report.note(is_misplaced(named.thing), named.name, FaultKind::WrongKind);
            thing_callee(env, named.thing)
        }
    }
}

fn type_in(of: Thing) -> Option<TypeId>
    ensures { result ≡ spec.type_in of }
{
    match of {
        Thing::Type(sort) => Some(sort),
        _ => None,
    }
}

fn no_type_in(of: Thing) -> bool
    ensures { result ≡ spec.no_type_in of }
{
    match of {
        Thing::Type(_) => false,
        _ => true,
    }
}

#[tactic(auto, unfolding(lil_report::specs::Told::tell))]
fn part_typed(report: &mut Report, first: Place, of: Part) -> Argument
    ensures { Said (spec.part_typed of.is_whole first of) report.old result report.new }
{
    if of.is_whole {
        report.note(true, of.name, FaultKind::WrongKind);
        drop(of);
        Argument::Type(first, None)
    } else {
        Argument::Value(Some(part_found(of)))
    }
}

/// What a designator reaches, where it should be a type's name.
#[tactic(auto, unfolding(lil_report::specs::Told::tell))]
pub(crate) fn typed_node(report: &mut Report, first: Place, of: Option<Reached>) -> Argument
    ensures { Said (spec.typed_node first of) report.old result report.new }
{
    match of {
        None => Argument::Type(first, None),
        Some(Reached::Part(part)) => part_typed(report, first, part),
        Some(Reached::Other(named)) => {
            report.note(no_type_in(named.thing), named.name, FaultKind::WrongKind);
            Argument::Type(first, type_in(named.thing))
        }
    }
}
