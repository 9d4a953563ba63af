ghost use Rattle.std.specs.Prelude.{◌≡◌, [], IfOk, Option, ◌&&◌, is_none};
ghost use Rattle.lil_report.specs.{Least.now_of, Told.{Said, walk}};
ghost use Rattle.lil_operators.specs.{Operations.{Elements, all_gathered}, Gathering.Gathers};
ghost use Rattle.lil_check_value.specs.Values as spec;

use crate::asked::{Asked, asks, asks_at};
use crate::designators::{Reached, field_node, follow_node, index_node, root};
use crate::literals::{code, text, whole};
use crate::set_types::set_sort;
use crate::uses::{callee_node, typed_node, value_node, variable_node};
use lil_base::{Boxed, FaultKind, Items, Memory, Place, beside};
use lil_call::{Argument, called, stated};
use lil_kinds::Found;
use lil_language::{Designator, Expr, Operation, Range, Selector, first_place};
use lil_operators::{
    Chained, Gathered, begun, chain_found, joined_one, joined_range, no_elements, one_node,
    set_node, two_node,
};
use lil_report::Report;
use lil_resolved::RStmt;
use lil_scope::Env;
use lil_types::TypeId;
use std::alloc::Global;

/// The same value in parentheses that begin at this place.
fn begun_at(first: Place, of: Option<Found>) -> Option<Found>
    ensures { result ≡ spec.begun_at first of }
{
    match of {
        None => None,
        Some(a) => Some(Found {
            form: a.form,
            kind: a.kind,
            first,
            depth: a.depth,
            standing: a.standing,
        }),
    }
}

/// All indexes behind one bracket.
#[cycle(expression)]
fn indexed(
    alloc: Global,
    env: &Env,
    report: &mut Report,
    bracket: Place,
    of: Option<Reached>,
    indexes: &[Expr],
) -> Result<Option<Reached>, Memory>
    ensures { IfOk result (λ o. Said (walk (spec.index_means env.now bracket) of indexes.now) report.old o report.new) }
{
    let mut of = of;
    for one in indexes {
        let (before, index) = beside(of, expression(alloc, env, report, one))?;
        of = index_node(alloc, &env.types, report, bracket, before, index)?;
    }
    Ok(of)
}

/// A selector behind what is reached.
#[cycle(expression)]
fn selected(
    alloc: Global,
    env: &Env,
    report: &mut Report,
    of: Option<Reached>,
    selector: &Selector,
) -> Result<Option<Reached>, Memory>
    ensures { IfOk result (λ o. Said (spec.step env.now selector.now of) report.old o report.new) }
{
    match selector {
        Selector::Field(dot, name) => {
            let found = field_node(alloc, env, report, *dot, name, of)?;
            Ok(found)
        }
        Selector::Index(bracket, indexes) => {
            let found = indexed(alloc, env, report, *bracket, of, indexes.as_slice())?;
            Ok(found)
        }
        Selector::Follow(arrow) => {
            let found = follow_node(env, report, *arrow, of)?;
            Ok(found)
        }
    }
}

/// All selectors behind what is reached.
#[cycle(expression)]
fn all_selected(
    alloc: Global,
    env: &Env,
    report: &mut Report,
    of: Option<Reached>,
    selectors: &[Selector],
) -> Result<Option<Reached>, Memory>
    ensures { IfOk result (λ o. Said (walk (spec.step_means env.now) of selectors.now) report.old o report.new) }
{
    let mut of = of;
    for one in selectors {
        of = selected(alloc, env, report, of, one)?;
    }
    Ok(of)
}

/// What a designator reaches, where it or its expression begins at this place.
#[cycle(expression)]
fn reached(
    alloc: Global,
    env: &Env,
    report: &mut Report,
    first: Place,
    of: &Designator,
) -> Result<Option<Reached>, Memory>
    ensures { IfOk result (λ o. Said (spec.reach_means env.now first of.now) report.old o report.new) }
{
    let begin = root(alloc, env, report, first, &of.first)?;
    let found = all_selected(alloc, env, report, begin, of.selectors.as_slice())?;
    Ok(found)
}

/// All operations behind a first operand.
#[cycle(expression)]
fn operated(
    alloc: Global,
    env: &Env,
    report: &mut Report,
    first: Place,
    of: Option<Chained>,
    operations: &[Operation],
) -> Result<Option<Chained>, Memory>
    ensures { IfOk result (λ o. Said (walk (spec.operation_means env.now first) of operations.now) report.old o report.new) }
{
    let mut of = of;
    for one in operations {
        let (before, operand) = beside(of, expression(alloc, env, report, &one.operand))?;
        of = two_node(
            alloc,
            &env.types,
            report,
            first,
            one.operator,
            one.place,
            before,
            operand,
        )?;
    }
    Ok(of)
}

/// Elements of a set and one more.
#[cycle(expression)]
fn joined(
    alloc: Global,
    env: &Env,
    report: &mut Report,
    sort: Option<TypeId>,
    of: Option<Gathered>,
    element: &Range,
) -> Result<Option<Gathered>, Memory>
    ensures { IfOk result (λ o. (es : Option Elements) → of ≡ all_gathered env.now.types sort es → Gathers env.now.types sort (spec.joins env.now element.now sort es) report.old o report.new) }
{
    let (of, low) = beside(of, expression(alloc, env, report, &element.low))?;
    match &element.high {
        None => {
            let all = joined_one(&env.types, sort, of, low)?;
            Ok(all)
        }
        Some(high) => {
            let (before, high) = beside((of, low), expression(alloc, env, report, high.get()))?;
            let all = joined_range(&env.types, sort, before.0, before.1, high)?;
            Ok(all)
        }
    }
}

/// All elements of a set.
#[cycle(expression)]
fn elements(
    alloc: Global,
    env: &Env,
    report: &mut Report,
    sort: Option<TypeId>,
    elements: &[Range],
) -> Result<Option<Gathered>, Memory>
    ensures { IfOk result (λ o. Gathers env.now.types sort (spec.elements_mean env.now sort elements.now) report.old o report.new) }
{
    let none = no_elements(alloc, elements.len())?;
    let mut all = Some(none);
    for one in elements {
        all = joined(alloc, env, report, sort, all, one)?;
    }
    Ok(all)
}

/// An argument that should be a type's name.
#[cycle(expression)]
fn typed(alloc: Global, env: &Env, report: &mut Report, of: &Expr) -> Result<Argument, Memory>
    ensures { IfOk result (λ a. Said (spec.typed_means env.now of.now) report.old a report.new) }
{
    match of {
        Expr::Desig(first, designator) => {
            let of = reached(alloc, env, report, *first, designator)?;
            Ok(typed_node(report, *first, of))
        }
        _ => {
            let value = expression(alloc, env, report, of)?;
            Ok(Argument::Value(value))
        }
    }
}

/// An argument of a call.
#[cycle(expression)]
fn argument(
    alloc: Global,
    env: &Env,
    report: &mut Report,
    asks: bool,
    of: &Expr,
) -> Result<Argument, Memory>
    ensures { IfOk result (λ a. Said (spec.argument_in env.now asks of.now) report.old a report.new) }
{
    if asks {
        let named = typed(alloc, env, report, of)?;
        Ok(named)
    } else {
        let value = expression(alloc, env, report, of)?;
        Ok(Argument::Value(value))
    }
}

/// The arguments of a call.
#[cycle(expression)]
fn all_arguments(
    alloc: Global,
    env: &Env,
    report: &mut Report,
    asked: Asked,
    of: &[Expr],
) -> Result<Items<Argument>, Memory>
    ensures { IfOk result (λ all. Said (spec.arguments_mean env.now asked of.now) report.old all report.new) }
{
    let mut all = Items::new(alloc);
    for one in of {
        let asks = asks_at(asked, all.len());
        let more = argument(alloc, env, report, asks, one)?;
        all.push(more)?;
    }
    Ok(all)
}

/// What an expression means, None where something in it is wrong.
#[cycle(expression)]
pub fn expression(
    alloc: Global,
    env: &Env,
    report: &mut Report,
    of: &Expr,
) -> Result<Option<Found>, Memory>
    ensures { IfOk result (λ o. Said (spec.means env.now of.now) report.old o report.new) }
{
    match of {
        Expr::Whole(first, value) => Ok(whole(report, *first, *value)),
        Expr::Code(first, value) => Ok(code(report, *first, *value)),
        Expr::Chars(first, value) => {
            let found = text(alloc, report, *first, value)?;
            Ok(found)
        }
        Expr::SetOf(first, name, ranges) => {
            let sort = set_sort(env, report, name);
            let all = elements(alloc, env, report, sort, ranges.as_slice())?;
            Ok(set_node(&env.types, report, *first, sort, all))
        }
        Expr::Desig(first, designator) => {
            let of = reached(alloc, env, report, *first, designator)?;
            let value = value_node(&env.texts, report, of)?;
            Ok(value)
        }
        Expr::Call(first, designator, actuals) => {
            let named = designator.get();
            let begin = named.first.place;
            let of = reached(alloc, env, report, begin, named)?;
            let callee = callee_node(env, report, of);
            let asked = asks(&callee);
            let all = all_arguments(alloc, env, report, asked, actuals.as_slice());
            let (callee, all) = beside(callee, all)?;
            let value = called(alloc, &env.types, report, begin, callee, all)?;
            Ok(begun_at(*first, value))
        }
        Expr::One(first, op, at, operand) => {
            let a = expression(alloc, env, report, operand.get())?;
            let value = one_node(alloc, &env.types, report, *first, *op, *at, a)?;
            Ok(value)
        }
        Expr::Chain(first, operand, operations) => {
            let a = expression(alloc, env, report, operand.get())?;
            let begin = begun(a);
            let chain = operated(alloc, env, report, *first, begin, operations.as_slice())?;
            let value = chain_found(alloc, *first, chain)?;
            Ok(value)
        }
    }
}

/// What an expression in a block of its own means, as `expression` tells it.
pub fn boxed_expression(
    alloc: Global,
    env: &Env,
    report: &mut Report,
    of: &Boxed<Expr>,
) -> Result<Option<Found>, Memory>
    ensures { IfOk result (λ o. Said (spec.means env.now of.now) report.old o report.new) }
{
    let found = expression(alloc, env, report, of.get())?;
    Ok(found)
}

fn is_untold(found: &Option<Found>, own: &Report) -> bool
    ensures { result ≡ (is_none found.now && is_none (now_of own.now)) }
{
    found.is_none() && own.worst_now().is_none()
}

/// What an expression means that must be constant: it is none (51) where it has no type though none of its tests finds a fault.
pub fn asked_expression(
    alloc: Global,
    env: &Env,
    report: &mut Report,
    of: &Expr,
) -> Result<Option<Found>, Memory>
    ensures { IfOk result (λ o. Said (spec.asked_means env.now of.now) report.old o report.new) }
{
    let mut own = Report::new();
    let found = expression(alloc, env, &mut own, of)?;
    let untold = is_untold(&found, &own);
    let first = first_place(of);
    own.note(untold, first, FaultKind::NotConst);
    report.note_all(&own);
    Ok(found)
}

/// The same of an expression in a block of its own.
pub fn boxed_asked(
    alloc: Global,
    env: &Env,
    report: &mut Report,
    of: &Boxed<Expr>,
) -> Result<Option<Found>, Memory>
    ensures { IfOk result (λ o. Said (spec.asked_means env.now of.now) report.old o report.new) }
{
    let found = asked_expression(alloc, env, report, of.get())?;
    Ok(found)
}

/// The variable, or part of one, that a designator means. Its form is the place itself.
pub fn variable(
    alloc: Global,
    env: &Env,
    report: &mut Report,
    of: &Designator,
) -> Result<Option<Found>, Memory>
    ensures { IfOk result (λ o. Said (spec.variable_means env.now of.now) report.old o report.new) }
{
    let begin = of.first.place;
    let found = reached(alloc, env, report, begin, of)?;
    Ok(variable_node(report, found))
}

/// What a call that is a statement means.
pub fn call(
    alloc: Global,
    env: &Env,
    report: &mut Report,
    of: &Designator,
    arguments: &Items<Expr>,
) -> Result<Option<RStmt>, Memory>
    ensures { IfOk result (λ o. Said (spec.call_means env.now of.now arguments.now) report.old o report.new) }
{
    let begin = of.first.place;
    let found = reached(alloc, env, report, begin, of)?;
    let callee = callee_node(env, report, found);
    let asked = asks(&callee);
    let all = all_arguments(alloc, env, report, asked, arguments.as_slice());
    let (callee, all) = beside(callee, all)?;
    let value = stated(alloc, &env.types, report, begin, callee, all)?;
    Ok(value)
}
