ghost use Rattle.std.specs.Prelude.{◌≡◌, IfOk};
ghost use Rattle.lil_report.specs.Told.{Said, after};
ghost use Rattle.lil_call.specs.Procedures as spec;

use crate::call::Argument;
use lil_base::{FaultKind, Items, Memory, Place};
use lil_declared::Standard;
use lil_forms::{function_value, value_form};
use lil_kinds::{Applied, Form, Found, Standing, extreme, function, is_constant, is_ordinal};
use lil_report::Report;
use lil_scope::Kind;
use lil_types::{INTEGER, TypeId, TypeTable};
use std::alloc::Global;

fn is_function(of: Standard) -> bool
    ensures { result ≡ spec.is_function of }
{
    match of {
        Standard::Dec => false,
        Standard::Excl => false,
        Standard::Halt => false,
        Standard::Inc => false,
        Standard::Incl => false,
        Standard::New => false,
        Standard::Dispose => false,
        _ => true,
    }
}

fn is_extreme(of: Standard) -> bool
    ensures { result ≡ spec.is_extreme of }
{
    match of {
        Standard::Max => true,
        Standard::Min => true,
        _ => false,
    }
}

fn takes_count(of: Standard, n: usize) -> bool
    ensures { result ≡ spec.takes_count of n }
{
    match of {
        Standard::Val => n == 2,
        Standard::Excl => n == 2,
        Standard::Incl => n == 2,
        Standard::Dec => n == 1 || n == 2,
        Standard::Inc => n == 1 || n == 2,
        Standard::Halt => n == 0,
        _ => n == 1,
    }
}

pub(crate) fn agrees(wanted: bool, is: bool) -> bool
    ensures { result ≡ spec.agrees wanted is }
{
    if wanted { is } else { !is }
}

/// Whether a standard procedure may be called here, with so many arguments.
#[tactic(auto, unfolding(crate::specs::Procedures::standard_node, lil_report::specs::Told::tell))]
pub(crate) fn standard(
    report: &mut Report,
    first: Place,
    wanted: bool,
    of: Standard,
    count: usize,
) -> bool
    ensures { Said (spec.standard_node first wanted of count) report.old result report.new }
{
    let callable = agrees(wanted, is_function(of));
    let counted = takes_count(of, count);
    report.note(!counted, first, FaultKind::ArgCount);
    report.note(!callable, first, FaultKind::NotCallable);
    callable && counted
}

/// A function of a value; VAL gives values of the type `sort`.
fn function_form(
    alloc: Global,
    t: &TypeTable,
    of: Standard,
    sort: TypeId,
    x: Found,
) -> Result<Form, Memory>
    ensures { IfOk result (λ f. f ≡ spec.function_form t.now of sort x) }
{
    Ok(value_form(function_value(alloc, t, of, sort, x)?))
}

/// A constant has no form.
fn kept_form(form: Form, kind: Kind) -> Form
    ensures { result ≡ spec.kept_form form kind }
{
    match kind {
        Kind::Of(_) => form,
        _ => {
            drop(form);
            Form::Nothing
        }
    }
}

fn function_depth(kind: Kind, depth: usize) -> usize
    ensures { result ≡ spec.function_depth kind depth }
{
    if is_constant(kind) { 1 } else { depth.max(1) }
}

fn applied_value(first: Place, depth: usize, form: Form, a: Applied) -> Option<Found>
    ensures { result ≡ spec.applied_value first depth form a }
{
    match a {
        Applied::Refused | Applied::Outside => {
            drop(form);
            None
        }
        Applied::Gives(kind) => Some(Found {
            form: kept_form(form, kind),
            kind,
            first,
            depth: function_depth(kind, depth),
            standing: Standing::Value,
        }),
    }
}

fn is_refused(a: Applied) -> bool
    ensures { result ≡ spec.is_refused a }
{
    match a {
        Applied::Refused => true,
        _ => false,
    }
}

fn lies_outside(a: Applied) -> bool
    ensures { result ≡ spec.lies_outside a }
{
    match a {
        Applied::Outside => true,
        _ => false,
    }
}

/// What a function makes of its argument.
#[tactic(auto, unfolding(crate::specs::Procedures::applied_node, lil_report::specs::Told::tell))]
fn made(
    report: &mut Report,
    first: Place,
    at: Place,
    depth: usize,
    form: Form,
    a: Applied,
) -> Option<Found>
    ensures { Said (spec.applied_node first at depth form a) report.old result report.new }
{
    report.note(is_refused(a), at, FaultKind::Operands);
    report.note(lies_outside(a), at, FaultKind::ConstRange);
    applied_value(first, depth, form, a)
}

/// A type's name where a value is needed.
#[tactic(auto, unfolding(crate::specs::Procedures::no_value, lil_report::specs::Told::tell))]
pub(crate) fn no_value<T>(report: &mut Report, at: Place) -> Option<T>
    ensures { Said (spec.no_value {A = T} at) report.old result report.new }
{
    report.note(true, at, FaultKind::WrongKind);
    None
}

/// A value where a type's name is needed.
#[tactic(auto, unfolding(crate::specs::Procedures::no_type, lil_report::specs::Told::tell))]
fn no_type(report: &mut Report, at: Place) -> Option<Found>
    ensures { Said (spec.no_type at) report.old result report.new }
{
    report.note(true, at, FaultKind::Operands);
    None
}

/// MAX and MIN of a type.
fn of_type(
    t: &TypeTable,
    report: &mut Report,
    first: Place,
    of: Standard,
    at: Place,
    sort: TypeId,
) -> Option<Found>
    ensures { Said (spec.of_type t.now first of at sort) report.old result report.new }
{
    if is_extreme(of) {
        let value = extreme(t, of, sort);
        made(report, first, at, 1, Form::Nothing, value)
    } else {
        no_value(report, at)
    }
}

/// The other functions of one value.
fn of_value(
    alloc: Global,
    t: &TypeTable,
    report: &mut Report,
    first: Place,
    of: Standard,
    x: Found,
) -> Result<Option<Found>, Memory>
    ensures { IfOk result (λ o. Said (spec.of_value t.now first of x) report.old o report.new) }
{
    let (at, depth) = (x.first, x.depth);
    if is_extreme(of) {
        drop(x);
        return Ok(no_type(report, at));
    }
    let value = function(t, of, INTEGER, x.kind);
    let form = function_form(alloc, t, of, INTEGER, x)?;
    Ok(made(report, first, at, depth, form, value))
}

#[tactic(auto, unfolding(lil_report::specs::Told::tell))]
fn of_one(
    alloc: Global,
    t: &TypeTable,
    report: &mut Report,
    first: Place,
    of: Standard,
    x: Argument,
) -> Result<Option<Found>, Memory>
    ensures { IfOk result (λ o. Said (spec.of_one t.now first of x) report.old o report.new) }
{
    match x {
        Argument::Value(None) => Ok(None),
        Argument::Value(Some(x)) => of_value(alloc, t, report, first, of, x),
        Argument::Type(_, None) => Ok(None),
        Argument::Type(at, Some(sort)) => Ok(of_type(t, report, first, of, at, sort)),
    }
}

#[tactic(auto, unfolding(crate::specs::Procedures::ordinal_node, lil_report::specs::Told::tell))]
fn ordinal(t: &TypeTable, report: &mut Report, at: Place, sort: TypeId) -> bool
    ensures { Said (spec.ordinal_node t.now at sort) report.old result report.new }
{
    let is = is_ordinal(t, Kind::Of(sort));
    report.note(!is, at, FaultKind::Operands);
    is
}

fn kept_if(is: bool, o: Option<Found>) -> Option<Found>
    ensures { result ≡ spec.kept_if is o }
{
    if is {
        o
    } else {
        drop(o);
        None
    }
}

/// A value in another type.
fn converted(
    alloc: Global,
    t: &TypeTable,
    report: &mut Report,
    first: Place,
    of: Standard,
    sort: TypeId,
    x: Found,
) -> Result<Option<Found>, Memory>
    ensures { IfOk result (λ o. Said (spec.converted t.now first of sort x) report.old o report.new) }
{
    let (at, depth) = (x.first, x.depth);
    let value = function(t, of, sort, x.kind);
    let form = function_form(alloc, t, of, sort, x)?;
    Ok(made(report, first, at, depth, form, value))
}

/// VAL of a type and a value.
fn of_type_and_value(
    alloc: Global,
    t: &TypeTable,
    report: &mut Report,
    first: Place,
    of: Standard,
    at: Place,
    sort: TypeId,
    x: Found,
) -> Result<Option<Found>, Memory>
    ensures { IfOk result (λ o. Said (after (spec.ordinal_node t.now at sort) (spec.converted_if t.now first of sort x)) report.old o report.new) }
{
    let is = ordinal(t, report, at, sort);
    let o = converted(alloc, t, report, first, of, sort, x)?;
    Ok(kept_if(is, o))
}

#[tactic(auto, unfolding(lil_report::specs::Told::tell))]
fn of_two(
    alloc: Global,
    t: &TypeTable,
    report: &mut Report,
    first: Place,
    of: Standard,
    x: Argument,
    y: Argument,
) -> Result<Option<Found>, Memory>
    ensures { IfOk result (λ o. Said (spec.of_two t.now first of x y) report.old o report.new) }
{
    match x {
        Argument::Value(None) => {
            drop(y);
            Ok(None)
        }
        Argument::Value(Some(x)) => {
            let at = x.first;
            drop((x, y));
            Ok(no_type(report, at))
        }
        Argument::Type(_, None) => {
            drop(y);
            Ok(None)
        }
        Argument::Type(at, Some(sort)) => match y {
            Argument::Value(None) => Ok(None),
            Argument::Value(Some(y)) => {
                Ok(of_type_and_value(alloc, t, report, first, of, at, sort, y)?)
            }
            Argument::Type(place, _) => Ok(no_value(report, place)),
        },
    }
}

#[tactic(auto, unfolding(lil_report::specs::Told::tell))]
fn of_all(
    alloc: Global,
    t: &TypeTable,
    report: &mut Report,
    first: Place,
    of: Standard,
    arguments: Items<Argument>,
) -> Result<Option<Found>, Memory>
    ensures { IfOk result (λ o. Said (spec.of_all t.now first of arguments) report.old o report.new) }
{
    let mut left = arguments;
    match left.take_first() {
        None => Ok(None),
        Some(x) => match left.take_first() {
            None => of_one(alloc, t, report, first, of, x),
            Some(y) => of_two(alloc, t, report, first, of, x, y),
        },
    }
}

/// A call of a standard function.
pub(crate) fn function_call(
    alloc: Global,
    t: &TypeTable,
    report: &mut Report,
    first: Place,
    of: Standard,
    arguments: Items<Argument>,
) -> Result<Option<Found>, Memory>
    ensures { IfOk result (λ o. Said (spec.function_mean t.now first of arguments) report.old o report.new) }
{
    let count = arguments.len();
    let ready = standard(report, first, true, of, count);
    if ready {
        Ok(of_all(alloc, t, report, first, of, arguments)?)
    } else {
        Ok(None)
    }
}
