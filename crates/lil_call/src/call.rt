ghost use Rattle.std.specs.Prelude.{◌≡◌, IfOk};
ghost use Rattle.lil_report.specs.Told.{Said};
ghost use Rattle.lil_call.specs.Calls as spec;

use crate::functions::function_call;
use crate::passing::all_have_values;
use crate::procedures::procedure_call;
use crate::routines::{Invoked, Target, statement_call, value_call};
use lil_base::{FaultKind, Items, Memory, Place};
use lil_declared::{Resident, Standard};
use lil_kinds::Found;
use lil_report::Report;
use lil_resolved::{RExpr, RStmt};
use lil_types::{TypeId, TypeTable};
use std::alloc::Global;

/// What is called: a procedure, by its procedure type, its number, and how many procedures out it is declared; the value of a
/// variable, by its type, its depth, and the value itself where it has code; a procedure of a resident module; a standard
/// procedure; or what can't be called.
#[derive(Drop)]
pub enum Callee {
    Procedure(TypeId, usize, usize),
    Variable(TypeId, usize, Option<RExpr>),
    Resident(Resident, TypeId),
    Standard(Standard),
    Other,
}

/// An argument: a value, or a type's name at its first token, each where it has no fault.
#[derive(Drop)]
pub enum Argument {
    Value(Option<Found>),
    Type(Place, Option<TypeId>),
}

fn of_procedure(sort: TypeId, number: usize, levels: usize) -> Invoked
    ensures { result ≡ spec.of_procedure sort number levels }
{
    Invoked {
        sort,
        depth: 1,
        target: Target::Own(number, levels),
    }
}

fn of_variable(sort: TypeId, depth: usize, value: Option<RExpr>) -> Invoked
    ensures { result ≡ spec.of_variable sort depth value }
{
    Invoked {
        sort,
        depth,
        target: Target::Value(value),
    }
}

fn of_resident(number: Resident, sort: TypeId) -> Invoked
    ensures { result ≡ spec.of_resident number sort }
{
    Invoked {
        sort,
        depth: 1,
        target: Target::Resident(number),
    }
}

/// What is no procedure.
#[tactic(auto, unfolding(crate::specs::Calls::no_call, lil_report::specs::Told::tell))]
fn no_call<T>(report: &mut Report, first: Place) -> Option<T>
    ensures { Said (spec.no_call {A = T} first) report.old result report.new }
{
    report.note(true, first, FaultKind::NotCallable);
    None
}

fn value(
    alloc: Global,
    t: &TypeTable,
    report: &mut Report,
    first: Place,
    callee: Callee,
    arguments: Items<Argument>,
) -> Result<Option<Found>, Memory>
    ensures { IfOk result (λ o. Said (spec.value_of t.now first callee arguments) report.old o report.new) }
{
    match callee {
        Callee::Procedure(sort, number, levels) => {
            let v = of_procedure(sort, number, levels);
            value_call(alloc, t, report, first, v, arguments)
        }
        Callee::Variable(sort, depth, value) => {
            let v = of_variable(sort, depth, value);
            value_call(alloc, t, report, first, v, arguments)
        }
        Callee::Resident(number, sort) => {
            let v = of_resident(number, sort);
            value_call(alloc, t, report, first, v, arguments)
        }
        Callee::Standard(of) => function_call(alloc, t, report, first, of, arguments),
        Callee::Other => Ok(no_call(report, first)),
    }
}

fn statement(
    alloc: Global,
    t: &TypeTable,
    report: &mut Report,
    first: Place,
    callee: Callee,
    arguments: Items<Argument>,
) -> Result<Option<RStmt>, Memory>
    ensures { IfOk result (λ o. Said (spec.statement_of t.now first callee arguments) report.old o report.new) }
{
    match callee {
        Callee::Procedure(sort, number, levels) => {
            let v = of_procedure(sort, number, levels);
            statement_call(alloc, t, report, first, v, arguments)
        }
        Callee::Variable(sort, depth, value) => {
            let v = of_variable(sort, depth, value);
            statement_call(alloc, t, report, first, v, arguments)
        }
        Callee::Resident(number, sort) => {
            let v = of_resident(number, sort);
            statement_call(alloc, t, report, first, v, arguments)
        }
        Callee::Standard(of) => Ok(procedure_call(t, report, first, of, arguments)),
        Callee::Other => Ok(no_call(report, first)),
    }
}

/// A call in an expression, at the designator's first token.
#[tactic(auto, unfolding(crate::specs::Calls::call_node, lil_report::specs::Told::tell))]
pub fn called(
    alloc: Global,
    t: &TypeTable,
    report: &mut Report,
    first: Place,
    callee: Option<Callee>,
    arguments: Items<Argument>,
) -> Result<Option<Found>, Memory>
    ensures { IfOk result (λ o. Said (spec.call_node t.now first callee arguments) report.old o report.new) }
{
    match callee {
        None => Ok(None),
        Some(c) => {
            if all_have_values(arguments.as_slice()) {
                value(alloc, t, report, first, c, arguments)
            } else {
                Ok(None)
            }
        }
    }
}

/// A call that is a statement, at the designator's first token.
#[tactic(auto, unfolding(crate::specs::Calls::statement_node, lil_report::specs::Told::tell))]
pub fn stated(
    alloc: Global,
    t: &TypeTable,
    report: &mut Report,
    first: Place,
    callee: Option<Callee>,
    arguments: Items<Argument>,
) -> Result<Option<RStmt>, Memory>
    ensures { IfOk result (λ o. Said (spec.statement_node t.now first callee arguments) report.old o report.new) }
{
    match callee {
        None => Ok(None),
        Some(c) => {
            if all_have_values(arguments.as_slice()) {
                statement(alloc, t, report, first, c, arguments)
            } else {
                Ok(None)
            }
        }
    }
}
