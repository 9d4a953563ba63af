ghost use Rattle.std.specs.Prelude.{◌≡◌, IfOk};
ghost use Rattle.lil_report.specs.Told.{Said};
ghost use Rattle.lil_call.specs.Calls as spec;

use crate::call::Argument;
use crate::functions::agrees;
use crate::passing::{Passed, nothing_passed, pass_all};
use lil_base::{Boxed, FaultKind, Items, Memory, Place, beside};
use lil_declared::Resident;
use lil_forms::{called, value_form};
use lil_kinds::{Found, Standing, arity, is_routine, result};
use lil_report::Report;
use lil_resolved::{RArgument, RExpr, RKind, RStmt};
use lil_scope::Kind;
use lil_shapes::kind_at;
use lil_types::{TypeId, TypeTable};
use std::alloc::Global;

/// What is called: a procedure of a resident module; one of the module itself, by its number and how many procedures out
/// it is declared; or the value of a variable, where it has code.
#[derive(Drop)]
pub enum Target {
    Resident(Resident),
    Own(usize, usize),
    Value(Option<RExpr>),
}

/// A procedure that is called: its procedure type, the depth of its designator, and which one it is.
#[derive(Drop)]
pub struct Invoked {
    pub sort: TypeId,
    pub depth: usize,
    pub target: Target,
}

fn is_resident(target: &Target) -> bool
    ensures { result ≡ spec.is_resident target.now }
{
    matches!(target, Target::Resident(_))
}

fn is_callable(t: &TypeTable, wanted: bool, sort: TypeId) -> bool
    ensures { result ≡ spec.is_callable t.now wanted sort }
{
    is_routine(t, sort) && agrees(wanted, result(t, sort).is_some())
}

/// Whether a procedure of this type may be called here, with so many arguments.
#[tactic(auto, unfolding(crate::specs::Calls::heading_node, lil_report::specs::Told::tell))]
fn heading(
    t: &TypeTable,
    report: &mut Report,
    first: Place,
    wanted: bool,
    sort: TypeId,
    count: usize,
) -> bool
    ensures { Said (spec.heading_node t.now first wanted sort count) report.old result report.new }
{
    let routine = is_routine(t, sort);
    let callable = is_callable(t, wanted, sort);
    let counted = arity(t, sort) == count;
    report.note(routine && !counted, first, FaultKind::ArgCount);
    report.note(!callable, first, FaultKind::NotCallable);
    callable && counted
}

#[tactic(auto, unfolding(crate::specs::Calls::depth_node, lil_report::specs::Told::tell))]
fn not_deep(report: &mut Report, first: Place, s: Passed) -> Option<Passed>
    ensures { Said (spec.depth_node first s) report.old result report.new }
{
    report.note(12 < s.depth, first, FaultKind::ExprDeep);
    if s.is_right && s.depth <= 12 {
        Some(s)
    } else {
        None
    }
}

/// The arguments of a call, where the procedure may be called so.
fn routine(
    alloc: Global,
    t: &TypeTable,
    report: &mut Report,
    first: Place,
    wanted: bool,
    v: &Invoked,
    arguments: Items<Argument>,
) -> Result<Option<Passed>, Memory>
    ensures { IfOk result (λ o. Said (spec.routine_mean t.now first wanted v.now arguments) report.old o report.new) }
{
    let count = arguments.len();
    let ready = heading(t, report, first, wanted, v.sort, count);
    if ready {
        let start = nothing_passed(alloc, v.depth);
        let resident = is_resident(&v.target);
        let passed = pass_all(t, report, resident, v.sort, start, arguments)?;
        Ok(not_deep(report, first, passed))
    } else {
        Ok(None)
    }
}

/// The value of a function of the module, whose number from 1 and levels are bytes, where its arguments have code.
fn own_value(
    number: usize,
    levels: usize,
    kind: Option<RKind>,
    given: Option<Items<RArgument>>,
) -> Option<RExpr>
    ensures { result ≡ spec.own_value number levels kind given }
{
    let (Some(kind), Some(given)) = (kind, given) else {
        return None;
    };
    if number < 255 && levels < 256 {
        Some(RExpr::Invoke((number + 1) as u8, levels as u8, kind, given))
    } else {
        drop(given);
        None
    }
}

/// What the function returns that is a value.
fn invoked_value(
    alloc: Global,
    value: Option<RExpr>,
    kind: Option<RKind>,
    given: Option<Items<RArgument>>,
) -> Result<Option<RExpr>, Memory>
    ensures { IfOk result (λ x. x ≡ spec.invoked_value value kind given) }
{
    let (Some(value), Some(kind), Some(given)) = (value, kind, given) else {
        return Ok(None);
    };
    let (given, value) = beside(given, Boxed::new(alloc, value))?;
    Ok(Some(RExpr::InvokeValue(value, kind, given)))
}

/// What a call returns. Resident procedures return nothing.
fn value_by(
    alloc: Global,
    target: Target,
    kind: Option<RKind>,
    handed: Option<Items<RArgument>>,
) -> Result<Option<RExpr>, Memory>
    ensures { IfOk result (λ x. x ≡ spec.value_by target kind handed) }
{
    match target {
        Target::Own(number, levels) => Ok(own_value(number, levels, kind, handed)),
        Target::Value(value) => invoked_value(alloc, value, kind, handed),
        Target::Resident(_) => {
            drop(handed);
            Ok(None)
        }
    }
}

/// A call that gives a value.
fn call_found(
    alloc: Global,
    t: &TypeTable,
    first: Place,
    target: Target,
    sort: Option<TypeId>,
    s: Option<Passed>,
) -> Result<Option<Found>, Memory>
    ensures { IfOk result (λ o. o ≡ spec.call_found t.now first target sort s) }
{
    let (Some(sort), Some(s)) = (sort, s) else {
        drop(target);
        return Ok(None);
    };
    let Passed {
        parameters,
        handed,
        depth,
        ..
    } = s;
    drop(parameters);
    let value = value_by(alloc, target, kind_at(t, sort), handed)?;
    Ok(Some(Found {
        form: value_form(value),
        kind: Kind::Of(sort),
        first,
        depth,
        standing: Standing::Value,
    }))
}

/// A call of a procedure in an expression.
pub(crate) fn value_call(
    alloc: Global,
    t: &TypeTable,
    report: &mut Report,
    first: Place,
    v: Invoked,
    arguments: Items<Argument>,
) -> Result<Option<Found>, Memory>
    ensures { IfOk result (λ o. Said (spec.routine_value t.now first v arguments) report.old o report.new) }
{
    let passed = routine(alloc, t, report, first, true, &v, arguments);
    let (of, s) = beside(v, passed)?;
    let sort = result(t, of.sort);
    let found = call_found(alloc, t, first, of.target, sort, s)?;
    Ok(found)
}

/// A call of one of the module's procedures, whose number from 1 and levels are bytes, where its arguments have code.
fn own_call(number: usize, levels: usize, given: Option<Items<RArgument>>) -> Option<RStmt>
    ensures { result ≡ spec.own_call number levels given }
{
    let Some(given) = given else {
        return None;
    };
    if number < 255 && levels < 256 {
        Some(RStmt::Call((number + 1) as u8, levels as u8, given))
    } else {
        drop(given);
        None
    }
}

/// A call of the procedure that is a value.
fn called_value(value: Option<RExpr>, given: Option<Items<RArgument>>) -> Option<RStmt>
    ensures { result ≡ spec.called_value value given }
{
    match value.zip(given) {
        None => None,
        Some((value, given)) => Some(RStmt::CallValue(value, given)),
    }
}

fn call_of(target: Target, handed: Option<Items<RArgument>>) -> Option<RStmt>
    ensures { result ≡ spec.call_of target handed }
{
    match target {
        Target::Resident(resident) => called(resident, handed),
        Target::Own(number, levels) => own_call(number, levels, handed),
        Target::Value(value) => called_value(value, handed),
    }
}

fn call_statement(v: Invoked, s: Option<Passed>) -> Option<RStmt>
    ensures { result ≡ spec.call_statement v s }
{
    match s {
        None => {
            drop(v);
            None
        }
        Some(s) => {
            let Passed {
                parameters,
                handed,
                ..
            } = s;
            drop(parameters);
            call_of(v.target, handed)
        }
    }
}

/// A call of a procedure as a statement.
pub(crate) fn statement_call(
    alloc: Global,
    t: &TypeTable,
    report: &mut Report,
    first: Place,
    v: Invoked,
    arguments: Items<Argument>,
) -> Result<Option<RStmt>, Memory>
    ensures { IfOk result (λ o. Said (spec.routine_statement t.now first v arguments) report.old o report.new) }
{
    let passed = routine(alloc, t, report, first, false, &v, arguments);
    let (of, s) = beside(v, passed)?;
    Ok(call_statement(of, s))
}
