ghost use Rattle.std.specs.Prelude.{◌≡◌, Some, None, if◌then◌else◌, IfOk};
ghost use Rattle.std.specs.Option.{option_copied};
ghost use Rattle.lil_report.specs.Told.{Said};
ghost use Rattle.lil_check_value.specs.Looks.{look as look_of};
ghost use Rattle.lil_check_stmt.specs.Counting as spec;

use lil_base::{Boxed, FaultKind, Items, Memory, Place, beside};
use lil_check_value::{Looked, boxed_expression, look};
use lil_declared::{Mode, RVar};
use lil_forms::{named_at, seen, typed};
use lil_kinds::{Found, assignable, compatible, is_constant, is_ordinal, misses};
use lil_language::{Expr, ForHead};
use lil_report::Report;
use lil_resolved::{RExpr, RNamed, RStmt, RVariable};
use lil_scope::{Env, Kind, Thing, Variable};
use lil_shapes::kind_at;
use lil_types::{TypeId, TypeTable};
use std::alloc::Global;

/// The variable of a FOR, where it has code, and its type.
#[derive(Clone, Copy)]
pub(crate) struct Counter {
    pub(crate) variable: Option<RVariable>,
    pub(crate) sort: TypeId,
}

/// The variable of a FOR, its first value and its last.
#[derive(Drop)]
pub(crate) struct Bounds {
    pub(crate) variable: RVariable,
    pub(crate) from: RExpr,
    pub(crate) to: RExpr,
}

/// What stands between FOR and DO: the variable with its first value and its last, where all have code, and the step.
#[derive(Drop)]
pub(crate) struct Count {
    pub(crate) bounds: Option<Bounds>,
    pub(crate) by: i32,
}

/// A variable with which a FOR counts, where it is seen.
#[tactic(auto, unfolding(crate::specs::Counting::counted_variable))]
fn counted_variable(t: &TypeTable, named: RNamed, of: Option<&RVar>) -> Option<RVariable>
    ensures { result ≡ spec.counted_variable t.now named (option_copied of.entry) }
{
    match of {
        None => None,
        Some(variable) => match kind_at(t, variable.sort) {
            None => None,
            Some(kind) => Some(RVariable { named, kind }),
        },
    }
}

/// What a FOR counts, and from where to where.
fn bounds_of(variable: Option<RVariable>, from: Option<RExpr>, to: Option<RExpr>) -> Option<Bounds>
    ensures { result ≡ spec.bounds_of variable from to }
{
    match variable.zip(from.zip(to)) {
        None => None,
        Some((variable, (from, to))) => Some(Bounds { variable, from, to }),
    }
}

/// A step: an INTEGER that isn't zero.
fn integer_step(value: i32) -> Option<i16>
    ensures { result ≡ (if spec.is_step value then Some value else None) }
{
    if value != 0 && (!(value < -32768) && !(32767 < value)) {
        Some(value as i16)
    } else {
        None
    }
}

/// A FOR by a step.
fn counted_with(of: Option<Bounds>, by: i32, body: Option<Items<RStmt>>) -> Option<RStmt>
    ensures { result ≡ spec.counted_with of by body }
{
    let Some(Bounds { variable, from, to }) = of else {
        drop(body);
        return None;
    };
    let Some(body) = body else {
        drop((from, to));
        return None;
    };
    match integer_step(by) {
        None => {
            drop((from, to, body));
            None
        }
        Some(by) => Some(RStmt::For(variable, from, to, by, body)),
    }
}

fn is_nothing(of: Looked) -> bool
    ensures { result ≡ spec.is_nothing of }
{
    match of {
        Looked::Nothing => true,
        _ => false,
    }
}

fn is_other_thing(of: Thing) -> bool
    ensures { result ≡ spec.is_other_thing of }
{
    match of {
        Thing::Variable(_) => false,
        Thing::ExternalVariable(_) => false,
        Thing::Broken => false,
        _ => true,
    }
}

/// Whether a name stands for something that is no variable.
fn is_other(of: Looked) -> bool
    ensures { result ≡ spec.is_other of }
{
    match of {
        Looked::Thing(thing) => is_other_thing(thing),
        _ => false,
    }
}

fn is_plain(mode: Mode) -> bool
    ensures { result ≡ spec.is_plain mode }
{
    match mode {
        Mode::Plain => true,
        _ => false,
    }
}

fn is_unfit_thing(t: &TypeTable, of: Thing) -> bool
    ensures { result ≡ spec.is_unfit_thing t.now of }
{
    match of {
        Thing::Variable(variable) => {
            !is_plain(variable.mode) || !is_ordinal(t, Kind::Of(variable.sort))
        }
        Thing::ExternalVariable(_) => true,
        _ => false,
    }
}

/// Whether a FOR can't count with what is found.
fn is_unfit(t: &TypeTable, of: Looked) -> bool
    ensures { result ≡ spec.is_unfit t.now of }
{
    match of {
        Looked::Nothing => false,
        Looked::Field(_, _, _) => true,
        Looked::Thing(thing) => is_unfit_thing(t, thing),
    }
}

fn counting_with(env: &Env, of: Variable) -> Option<RVariable>
    ensures { result ≡ spec.counting_with env.now of }
{
    match named_at(env, of) {
        None => None,
        Some(named) => counted_variable(&env.types, named, seen(env, named)),
    }
}

fn counter_of(env: &Env, of: Looked) -> Option<Counter>
    ensures { result ≡ spec.counter_of env.now of }
{
    match of {
        Looked::Thing(Thing::Variable(variable)) => Some(Counter {
            variable: counting_with(env, variable),
            sort: variable.sort,
        }),
        _ => None,
    }
}

/// The variable that counts, by what its name means.
#[tactic(auto, unfolding(crate::specs::Counting::counter_node, lil_report::specs::Told::tell))]
fn counting_variable(env: &Env, report: &mut Report, at: Place, of: Looked) -> Option<Counter>
    ensures { Said (spec.counter_node env.now at of) report.old result report.new }
{
    let unknown = is_nothing(of);
    let other = is_other(of);
    let unfit = is_unfit(&env.types, of);
    report.note(unknown, at, FaultKind::Unknown);
    report.note(other, at, FaultKind::WrongKind);
    report.note(unfit, at, FaultKind::ForVariable);
    if unknown || other || unfit {
        return None;
    }
    counter_of(env, of)
}

/// The first value, at `:=`.
#[tactic(auto, unfolding(crate::specs::Counting::start_node, lil_report::specs::Told::tell))]
fn start(
    t: &TypeTable,
    report: &mut Report,
    becomes: Place,
    counter: Option<Counter>,
    value: Option<Found>,
) -> Option<RExpr>
    ensures { Said (spec.start_node t.now becomes counter value) report.old result report.new }
{
    match counter {
        Some(counter) => match value {
            Some(value) => {
                let unlike = !assignable(t, counter.sort, value.kind);
                let outside = misses(t, counter.sort, value.kind);
                report.note(unlike, becomes, FaultKind::Assign);
                report.note(outside, value.first, FaultKind::ConstRange);
                typed(t, counter.sort, value)
            }
            None => None,
        },
        None => {
            drop(value);
            None
        }
    }
}

/// The last value.
#[tactic(auto, unfolding(crate::specs::Counting::limit_node, lil_report::specs::Told::tell))]
fn limit(
    t: &TypeTable,
    report: &mut Report,
    counter: Option<Counter>,
    value: Option<Found>,
) -> Option<RExpr>
    ensures { Said (spec.limit_node t.now counter value) report.old result report.new }
{
    match counter {
        Some(counter) => match value {
            Some(value) => {
                let unlike = !compatible(t, Kind::Of(counter.sort), value.kind);
                report.note(unlike, value.first, FaultKind::Assign);
                typed(t, counter.sort, value)
            }
            None => None,
        },
        None => {
            drop(value);
            None
        }
    }
}

fn step_of(kind: Kind) -> Option<i32>
    ensures { result ≡ spec.step_of kind }
{
    match kind {
        Kind::Whole(value) => Some(value),
        _ => None,
    }
}

/// Whether a constant is no whole number.
fn is_other_constant(kind: Kind) -> bool
    ensures { result ≡ spec.is_other_constant kind }
{
    match kind {
        Kind::Whole(_) => false,
        _ => is_constant(kind),
    }
}

/// Whether a whole number is no step.
fn is_no_step(kind: Kind) -> bool
    ensures { result ≡ spec.is_no_step kind }
{
    match kind {
        Kind::Whole(value) => (!(value < 0) && !(0 < value)) || (value < -32768 || 32767 < value),
        _ => false,
    }
}

/// What stands behind BY.
#[tactic(auto, unfolding(crate::specs::Counting::step_node, lil_report::specs::Told::tell))]
fn step(report: &mut Report, of: &Option<Found>) -> Option<i32>
    ensures { Said (spec.step_node of.now) report.old result report.new }
{
    match of {
        Some(of) => {
            let open = !is_constant(of.kind);
            let other = is_other_constant(of.kind);
            let outside = is_no_step(of.kind);
            report.note(open, of.first, FaultKind::NotConst);
            report.note(other, of.first, FaultKind::Operands);
            report.note(outside, of.first, FaultKind::ConstRange);
            step_of(of.kind)
        }
        None => None,
    }
}

#[tactic(auto, unfolding(lil_report::specs::Told::tell))]
fn step_by(
    alloc: Global,
    env: &Env,
    report: &mut Report,
    by: &Option<Boxed<Expr>>,
) -> Result<Option<i32>, Memory>
    ensures { IfOk result (λ o. Said (spec.step_means env.now by.now) report.old o report.new) }
{
    match by {
        None => Ok(Some(1)),
        Some(x) => {
            let found = boxed_expression(alloc, env, report, x)?;
            let by = step(report, &found);
            drop(found);
            Ok(by)
        }
    }
}

fn count_of(
    counter: Option<Counter>,
    from: Option<RExpr>,
    to: Option<RExpr>,
    by: Option<i32>,
) -> Option<Count>
    ensures { result ≡ spec.count_of counter from to by }
{
    match (counter, by) {
        (Some(counter), Some(by)) => Some(Count {
            bounds: bounds_of(counter.variable, from, to),
            by,
        }),
        _ => {
            drop((from, to));
            None
        }
    }
}

/// What stands between FOR and DO.
pub(crate) fn counting(
    alloc: Global,
    env: &Env,
    report: &mut Report,
    head: &ForHead,
) -> Result<Option<Count>, Memory>
    ensures { IfOk result (λ o. Said (spec.count_means env.now head.now) report.old o report.new) }
{
    let looked = look(env, &head.variable.name);
    let counter = counting_variable(env, report, head.variable.place, looked);
    let from = boxed_expression(alloc, env, report, &head.from)?;
    let from = start(&env.types, report, head.becomes, counter, from);
    let (from, to) = beside(from, boxed_expression(alloc, env, report, &head.to))?;
    let to = limit(&env.types, report, counter, to);
    let ((from, to), by) = beside((from, to), step_by(alloc, env, report, &head.by))?;
    Ok(count_of(counter, from, to, by))
}

/// A FOR, of its head and its statements.
pub(crate) fn counted(count: Option<Count>, body: Option<Items<RStmt>>) -> Option<RStmt>
    ensures { result ≡ spec.counted count body }
{
    match count {
        Some(count) => counted_with(count.bounds, count.by, body),
        None => {
            drop(body);
            None
        }
    }
}
