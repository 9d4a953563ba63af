ghost use Rattle.std.specs.Prelude.{◌≡◌, [], ◌∷◌, ◌++◌, slice_get, true, Some, IfOk, OnOk};
ghost use Rattle.lil_scope.specs.declared.env.Env.{Env};
ghost use Rattle.lil_report.specs.Told.{Said, walk, after, pure};
ghost use Rattle.lil_check_value.specs.Values.{means, variable_means};
ghost use Rattle.lil_check_stmt.specs.Nodes.{assign_node, record_node};
ghost use Rattle.lil_check_stmt.specs.Counting as heads;
ghost use Rattle.lil_check_stmt.specs.Statements as spec;

use crate::counting::{counted, counting};
use crate::labels::{Arms, Labels, labels_of_arm};
use crate::nodes::{
    Opened, assign, condition, exit, record_of, return_alone, return_value, selector,
};
use lil_base::{Boxed, Items, Memory, Place, beside, joined};
use lil_check_type::Spans;
use lil_check_value::{boxed_expression, call, variable};
use lil_forms::typed;
use lil_kinds::{Found, Located, result};
use lil_language::{Arm, Designator, Expr, ForHead, Guard, Stmt};
use lil_report::Report;
use lil_resolved::{RArm, RExpr, RGuard, RLabel, RStmt};
use lil_scope::{Env, Kind};
use lil_types::{CARDINAL, INTEGER, TypeId, TypeTable};
use std::alloc::Global;

/// A condition and the statements behind it.
fn guard_of(condition: Option<RExpr>, body: Option<Items<RStmt>>) -> Option<RGuard>
    ensures { result ≡ spec.guard_of condition body }
{
    match condition.zip(body) {
        None => None,
        Some((condition, body)) => Some(RGuard { condition, body }),
    }
}

/// An IF of guards and what stands behind ELSE, if there is one.
fn conditional(
    alloc: Global,
    guards: Option<Items<RGuard>>,
    other: Option<Option<Items<RStmt>>>,
) -> Option<RStmt>
    ensures { result ≡ spec.conditional guards other }
{
    match guards.zip(other) {
        None => None,
        Some((guards, other)) => match other {
            Some(other) => Some(RStmt::If(guards, other)),
            None => Some(RStmt::If(guards, Items::new(alloc))),
        },
    }
}

/// A WHILE.
fn repeated_while(condition: Option<RExpr>, body: Option<Items<RStmt>>) -> Option<RStmt>
    ensures { result ≡ spec.repeated_while condition body }
{
    match condition.zip(body) {
        None => None,
        Some((condition, body)) => Some(RStmt::While(condition, body)),
    }
}

/// A REPEAT.
fn repeated_until(body: Option<Items<RStmt>>, condition: Option<RExpr>) -> Option<RStmt>
    ensures { result ≡ spec.repeated_until body condition }
{
    match body.zip(condition) {
        None => None,
        Some((body, condition)) => Some(RStmt::Repeat(body, condition)),
    }
}

/// A LOOP.
fn looped(body: Option<Items<RStmt>>) -> Option<RStmt>
    ensures { result ≡ spec.looped body }
{
    match body {
        None => None,
        Some(body) => Some(RStmt::Loop(body)),
    }
}

/// A WITH.
fn inside(of: Option<Located>, body: Option<Items<RStmt>>) -> Option<RStmt>
    ensures { result ≡ spec.inside of body }
{
    match of.zip(body) {
        None => None,
        Some((of, body)) => Some(RStmt::With(of.place, body)),
    }
}

/// The labels of an arm, and the statements behind them.
fn arm_of(labels: Items<RLabel>, body: Option<Items<RStmt>>) -> Option<RArm>
    ensures { result ≡ spec.arm_of labels body }
{
    match body {
        None => {
            drop(labels);
            None
        }
        Some(body) => Some(RArm { labels, body }),
    }
}

/// A CASE of a value, its arms, and what stands behind ELSE, if there is one.
fn selected_by(
    by: Option<RExpr>,
    arms: Option<Items<RArm>>,
    other: Option<Option<Items<RStmt>>>,
) -> Option<RStmt>
    ensures { result ≡ spec.selected_by by arms other }
{
    match by.zip(arms.zip(other)) {
        None => None,
        Some((by, (arms, other))) => Some(RStmt::Case(by, arms, other)),
    }
}

fn condition_of(
    alloc: Global,
    env: &Env,
    report: &mut Report,
    x: &Boxed<Expr>,
) -> Result<Option<RExpr>, Memory>
    ensures { IfOk result (λ o. Said (spec.condition_means env.now x.now) report.old o report.new) }
{
    let found = boxed_expression(alloc, env, report, x)?;
    Ok(condition(&env.types, report, found))
}

fn selector_of(
    alloc: Global,
    env: &Env,
    report: &mut Report,
    x: &Boxed<Expr>,
) -> Result<Option<Found>, Memory>
    ensures { IfOk result (λ o. Said (spec.selector_means env.now x.now) report.old o report.new) }
{
    let found = boxed_expression(alloc, env, report, x)?;
    Ok(selector(&env.types, report, found))
}

fn kind_of(of: &Option<Found>) -> Option<Kind>
    ensures { result ≡ spec.kind_of of.now }
{
    match of {
        Some(found) => Some(found.kind),
        None => None,
    }
}

/// The type of what the procedure at hand returns, where it is a function.
fn result_at(env: &Env) -> Option<TypeId>
    ensures { result ≡ spec.result_at env.now }
{
    match env.procedure {
        Some(number) => match env.procedures.get(number) {
            Some(procedure) => result(&env.types, procedure.sort),
            None => None,
        },
        None => None,
    }
}

fn returned(
    alloc: Global,
    env: &Env,
    report: &mut Report,
    at: Place,
    of: &Option<Boxed<Expr>>,
) -> Result<Option<RStmt>, Memory>
    ensures { IfOk result (λ o. Said (spec.return_means env.now at of.now) report.old o report.new) }
{
    match of {
        None => Ok(return_alone(report, at, result_at(env))),
        Some(x) => {
            let found = boxed_expression(alloc, env, report, x)?;
            Ok(return_value(&env.types, report, at, result_at(env), found))
        }
    }
}

fn assigned(
    alloc: Global,
    env: &Env,
    report: &mut Report,
    place: &Designator,
    becomes: Place,
    value: &Boxed<Expr>,
) -> Result<Option<RStmt>, Memory>
    ensures { IfOk result (λ o. Said (after (variable_means env.now place.now) (λ a. after (means env.now value.now) (λ v. assign_node env.now.types becomes a v))) report.old o report.new) }
{
    let found = variable(alloc, env, report, place)?;
    let (found, value) = beside(found, boxed_expression(alloc, env, report, value))?;
    Ok(assign(&env.types, report, becomes, found, value))
}

/// The type of a selector that has none.
fn selector_type(kind: Kind) -> TypeId
    ensures { result ≡ spec.selector_type kind }
{
    match kind {
        Kind::Whole(value) => { if value < 0 { INTEGER } else { CARDINAL } }
        _ => CARDINAL,
    }
}

fn selector_value(t: &TypeTable, of: Option<Found>) -> Option<RExpr>
    ensures { result ≡ spec.selector_value t.now of }
{
    match of {
        None => None,
        Some(of) => {
            let sort = selector_type(of.kind);
            typed(t, sort, of)
        }
    }
}

/// A CASE of what it selects by, its arms, and what stands behind ELSE, if there is one.
fn selected(
    t: &TypeTable,
    found: Option<Found>,
    arms: Option<Items<RArm>>,
    other: Option<Option<Items<RStmt>>>,
) -> Option<RStmt>
    ensures { result ≡ spec.selected t.now found arms other }
{
    selected_by(selector_value(t, found), arms, other)
}

fn with_record(of: Option<Opened>, body: Option<Items<RStmt>>) -> Option<RStmt>
    ensures { result ≡ spec.with_record of body }
{
    match of {
        Some(opened) => inside(opened.place, body),
        None => {
            drop(body);
            None
        }
    }
}

fn armed(labels: Option<Items<RLabel>>, body: Option<Items<RStmt>>) -> Option<RArm>
    ensures { result ≡ spec.armed labels body }
{
    match labels {
        None => {
            drop(body);
            None
        }
        Some(labels) => arm_of(labels, body),
    }
}

fn with_arm(
    arms: Option<Items<RArm>>,
    labels: Labels,
    body: Option<Items<RStmt>>,
) -> Result<Arms, Memory>
    ensures { IfOk result (λ a. a ≡ spec.with_arm arms labels body) }
{
    let Labels { seen, own } = labels;
    let arm = armed(own, body);
    let (seen, arms) = beside(seen, joined(arms, arm))?;
    Ok(Arms { seen, arms })
}

fn behind(of: Option<Items<RStmt>>) -> Option<Option<Items<RStmt>>>
    ensures { result ≡ spec.behind of }
{
    match of {
        None => None,
        Some(of) => Some(Some(of)),
    }
}

/// Begins a WITH, where its record has a type.
fn enter(env: &mut Env, of: &Option<Opened>) -> Result<(), Memory>
    ensures { IfOk result (λ u. env.new ≡ spec.within of.now env.old) }
{
    match of {
        Some(opened) => {
            env.withs.push(opened.sort)?;
            Ok(())
        }
        None => Ok(()),
    }
}

/// Ends what `enter` began.
fn leave(env: &mut Env, of: &Option<Opened>)
    ensures { (e : Env) → env.old ≡ spec.within of.now e → env.new ≡ e }
{
    match of {
        Some(_) => {
            env.withs.pop();
        }
        None => {}
    }
}

/// What a statement means, in a LOOP or not. The record of each WITH is there for the statements in it alone.
#[cycle(statement)]
fn statement(
    alloc: Global,
    env: &mut Env,
    report: &mut Report,
    looping: bool,
    x: &Stmt,
) -> Result<Option<RStmt>, Memory>
    ensures said { IfOk result (λ o. Said (spec.statement_means x.now env.old looping) report.old o report.new) }
    ensures same { IfOk result (λ o. env.new ≡ env.old) }
{
    match x {
        Stmt::Assign(place, becomes, value) => {
            assigned(alloc, env, report, place, *becomes, value)
        }
        Stmt::Call(designator, arguments) => call(alloc, env, report, designator, arguments),
        Stmt::If(_, guards, other) => {
            let guards = all_guards(alloc, env, report, looping, guards.as_slice())?;
            match other {
                None => Ok(conditional(alloc, guards, Some(None))),
                Some(other) => {
                    let other = statements(alloc, env, report, looping, other.as_slice());
                    let (guards, other) = beside(guards, other)?;
                    Ok(conditional(alloc, guards, behind(other)))
                }
            }
        }
        Stmt::Case(_, value, arms, other) => {
            let found = selector_of(alloc, env, report, value)?;
            let kind = kind_of(&found);
            let arms = all_arms(alloc, env, report, looping, kind, arms.as_slice());
            let (found, arms) = beside(found, arms)?;
            match other {
                None => Ok(selected(&env.types, found, arms.arms, Some(None))),
                Some(other) => {
                    let other = statements(alloc, env, report, looping, other.as_slice());
                    let ((found, arms), other) = beside((found, arms.arms), other)?;
                    Ok(selected(&env.types, found, arms, behind(other)))
                }
            }
        }
        Stmt::While(_, value, body) => while_true(alloc, env, report, looping, body, value),
        Stmt::Repeat(_, body, value) => until(alloc, env, report, looping, body, value),
        Stmt::Loop(_, body) => endless(alloc, env, report, body),
        Stmt::For(_, head, body) => for_each(alloc, env, report, looping, body, head),
        Stmt::With(at, designator, body) => {
            with(alloc, env, report, looping, body, *at, designator)
        }
        Stmt::Exit(at) => Ok(exit(report, *at, looping)),
        Stmt::Return(at, value) => returned(alloc, env, report, *at, value),
    }
}

#[cycle(statement)]
fn while_true(
    alloc: Global,
    env: &mut Env,
    report: &mut Report,
    looping: bool,
    body: &Items<Stmt>,
    value: &Boxed<Expr>,
) -> Result<Option<RStmt>, Memory>
    ensures said { IfOk result (λ o. Said (after (spec.condition_means env.old value.now) (λ c. after (spec.statements_mean env.old looping body.now) (λ ss. pure (spec.repeated_while c ss)))) report.old o report.new) }
    ensures same { IfOk result (λ o. env.new ≡ env.old) }
{
    let condition = condition_of(alloc, env, report, value)?;
    let body = statements(alloc, env, report, looping, body.as_slice());
    let (condition, body) = beside(condition, body)?;
    Ok(repeated_while(condition, body))
}

#[cycle(statement)]
fn until(
    alloc: Global,
    env: &mut Env,
    report: &mut Report,
    looping: bool,
    body: &Items<Stmt>,
    value: &Boxed<Expr>,
) -> Result<Option<RStmt>, Memory>
    ensures said { IfOk result (λ o. Said (after (spec.statements_mean env.old looping body.now) (λ ss. after (spec.condition_means env.old value.now) (λ c. pure (spec.repeated_until ss c)))) report.old o report.new) }
    ensures same { IfOk result (λ o. env.new ≡ env.old) }
{
    let body = statements(alloc, env, report, looping, body.as_slice())?;
    let (body, condition) = beside(body, condition_of(alloc, env, report, value))?;
    Ok(repeated_until(body, condition))
}

#[cycle(statement)]
fn endless(
    alloc: Global,
    env: &mut Env,
    report: &mut Report,
    body: &Items<Stmt>,
) -> Result<Option<RStmt>, Memory>
    ensures said { IfOk result (λ o. Said (after (spec.statements_mean env.old true body.now) (λ ss. pure (spec.looped ss))) report.old o report.new) }
    ensures same { IfOk result (λ o. env.new ≡ env.old) }
{
    let body = statements(alloc, env, report, true, body.as_slice())?;
    Ok(looped(body))
}

#[cycle(statement)]
fn for_each(
    alloc: Global,
    env: &mut Env,
    report: &mut Report,
    looping: bool,
    body: &Items<Stmt>,
    head: &ForHead,
) -> Result<Option<RStmt>, Memory>
    ensures said { IfOk result (λ o. Said (after (heads.count_means env.old head.now) (λ c. after (spec.statements_mean env.old looping body.now) (λ ss. pure (heads.counted c ss)))) report.old o report.new) }
    ensures same { IfOk result (λ o. env.new ≡ env.old) }
{
    let count = counting(alloc, env, report, head)?;
    let body = statements(alloc, env, report, looping, body.as_slice());
    let (count, body) = beside(count, body)?;
    Ok(counted(count, body))
}

/// The statements in a WITH, at its place.
#[cycle(statement)]
fn with(
    alloc: Global,
    env: &mut Env,
    report: &mut Report,
    looping: bool,
    body: &Items<Stmt>,
    at: Place,
    designator: &Designator,
) -> Result<Option<RStmt>, Memory>
    ensures said { IfOk result (λ o. Said (after (variable_means env.old designator.now) (λ a. after (record_node env.old.types at a) (λ r. after (spec.statements_mean (spec.within r env.old) looping body.now) (λ ss. pure (spec.with_record r ss))))) report.old o report.new) }
    ensures same { IfOk result (λ o. env.new ≡ env.old) }
{
    let found = variable(alloc, env, report, designator)?;
    let opened = record_of(&env.types, report, at, found);
    enter(env, &opened)?;
    let body = statements(alloc, env, report, looping, body.as_slice());
    let (opened, body) = beside(opened, body)?;
    leave(env, &opened);
    Ok(with_record(opened, body))
}

/// What statements mean, one behind another.
#[cycle(statement)]
pub(crate) fn statements(
    alloc: Global,
    env: &mut Env,
    report: &mut Report,
    looping: bool,
    of: &[Stmt],
) -> Result<Option<Items<RStmt>>, Memory>
    ensures said { IfOk result (λ o. Said (spec.statements_mean env.old looping of.now) report.old o report.new) }
    ensures same { IfOk result (λ o. env.new ≡ env.old) }
{
    let mut out = Some(Items::new(alloc));
    for one in of {
        let (before, meant) = beside(out, statement(alloc, env, report, looping, one))?;
        out = joined(before, meant)?;
    }
    Ok(out)
}

/// A condition, and the statements behind it.
#[cycle(statement)]
fn guard(
    alloc: Global,
    env: &mut Env,
    report: &mut Report,
    looping: bool,
    of: &Guard,
) -> Result<Option<RGuard>, Memory>
    ensures said { IfOk result (λ o. Said (spec.guard_means of.now env.old looping) report.old o report.new) }
    ensures same { IfOk result (λ o. env.new ≡ env.old) }
{
    let condition = condition_of(alloc, env, report, &of.condition)?;
    let body = statements(alloc, env, report, looping, of.body.as_slice());
    let (condition, body) = beside(condition, body)?;
    Ok(guard_of(condition, body))
}

#[cycle(statement)]
fn all_guards(
    alloc: Global,
    env: &mut Env,
    report: &mut Report,
    looping: bool,
    of: &[Guard],
) -> Result<Option<Items<RGuard>>, Memory>
    ensures said { IfOk result (λ o. Said (walk (spec.guard_step env.old looping) (Some []) of.now) report.old o report.new) }
    ensures same { IfOk result (λ o. env.new ≡ env.old) }
{
    let mut out = Some(Items::new(alloc));
    for one in of {
        let (before, meant) = beside(out, guard(alloc, env, report, looping, one))?;
        out = joined(before, meant)?;
    }
    Ok(out)
}

/// One arm more, behind others.
#[cycle(statement)]
fn arm(
    alloc: Global,
    env: &mut Env,
    report: &mut Report,
    looping: bool,
    kind: Option<Kind>,
    arms: Arms,
    of: &Arm,
) -> Result<Arms, Memory>
    ensures said { IfOk result (λ o. Said (spec.arm_means of.now env.old looping kind arms) report.old o report.new) }
    ensures same { IfOk result (λ o. env.new ≡ env.old) }
{
    let Arms { seen, arms } = arms;
    let labels = labels_of_arm(alloc, env, report, kind, seen, of.labels.as_slice())?;
    let body = statements(alloc, env, report, looping, of.body.as_slice())?;
    let made = with_arm(arms, labels, body)?;
    Ok(made)
}

#[cycle(statement)]
fn all_arms(
    alloc: Global,
    env: &mut Env,
    report: &mut Report,
    looping: bool,
    kind: Option<Kind>,
    of: &[Arm],
) -> Result<Arms, Memory>
    ensures said { IfOk result (λ o. Said (walk (spec.arm_step env.old looping kind) spec.no_arms of.now) report.old o report.new) }
    ensures same { IfOk result (λ o. env.new ≡ env.old) }
{
    let mut out = Arms {
        seen: Spans::new(alloc),
        arms: Some(Items::new(alloc)),
    };
    for one in of {
        let more = arm(alloc, env, report, looping, kind, out, one)?;
        out = more;
    }
    Ok(out)
}
