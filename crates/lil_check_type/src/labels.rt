ghost use Rattle.std.specs.Prelude.{◌≡◌, not, ◌&&◌, IfOk};
ghost use Rattle.lil_report.specs.Told.{Said, tell};
ghost use Rattle.lil_check_type.specs.Nodes.{clear};
ghost use Rattle.lil_check_type.specs.Labels as spec;

use crate::bounds::{Bound, bound_of, constant_tests, is_empty, span_between};
use crate::spans::Spans;
use lil_base::{Boxed, FaultKind, Memory};
use lil_check_value::{asked_expression, boxed_asked};
use lil_language::{Expr, Range};
use lil_report::Report;
use lil_scope::Env;
use lil_types::{Span, TypeId, TypeTable};
use std::alloc::Global;

fn stands_before(before: &Spans, s: Option<Span>) -> bool
    ensures { result ≡ spec.stands_before before.now s }
{
    match s {
        Some(s) => before.has_value_of(s),
        None => false,
    }
}

/// A label of one value.
#[tactic(auto, unfolding(crate::specs::Labels::one_node, lil_report::specs::Told::tell))]
fn one(
    t: &TypeTable,
    report: &mut Report,
    of: Option<TypeId>,
    before: &Spans,
    a: Option<Bound>,
) -> Option<Span>
    ensures { Said (spec.one_node t.now of before.now a) report.old result report.new }
{
    match (of, a) {
        (Some(_), Some(a)) => {
            let right = constant_tests(t, report, of, a);
            let span = span_between(t, a.kind, a.kind);
            let twice = stands_before(before, span);
            report.note(twice, a.first, FaultKind::LabelTwice);
            if right && !twice { span } else { None }
        }
        _ => None,
    }
}

fn all_right(first: bool, last: bool, twice: bool, empty: bool) -> bool
    ensures { result ≡ (first && (last && (not twice && not empty))) }
{
    first && last && !twice && !empty
}

/// The tests of a label from one value to another: whether none of them finds a fault.
#[tactic(auto, using(crate::proofs::Lists::all_clear), unfolding(lil_report::specs::Told::tell))]
fn range_tests(
    t: &TypeTable,
    report: &mut Report,
    of: Option<TypeId>,
    before: &Spans,
    a: Bound,
    b: Bound,
) -> bool
    ensures told { report.new ≡ tell report.old (spec.range_rows t.now of before.now a b) }
    ensures right { result ≡ clear (spec.range_rows t.now of before.now a b) }
{
    let first = constant_tests(t, report, of, a);
    let last = constant_tests(t, report, of, b);
    let twice = stands_before(before, span_between(t, a.kind, b.kind));
    let empty = is_empty(t, a.kind, b.kind);
    report.note(twice, a.first, FaultKind::LabelTwice);
    report.note(empty, a.first, FaultKind::EmptyRange);
    all_right(first, last, twice, empty)
}

/// A label from one value to another.
#[tactic(auto, unfolding(crate::specs::Labels::range_node, lil_report::specs::Told::tell))]
fn range(
    t: &TypeTable,
    report: &mut Report,
    of: Option<TypeId>,
    before: &Spans,
    a: Option<Bound>,
    b: Option<Bound>,
) -> Option<Span>
    ensures { Said (spec.range_node t.now of before.now a b) report.old result report.new }
{
    match (of, a, b) {
        (Some(_), Some(a), Some(b)) => {
            if range_tests(t, report, of, before, a, b) {
                span_between(t, a.kind, b.kind)
            } else {
                None
            }
        }
        _ => None,
    }
}

fn label_rest(
    alloc: Global,
    env: &Env,
    report: &mut Report,
    of: Option<TypeId>,
    before: &Spans,
    a: Option<Bound>,
    high: &Option<Boxed<Expr>>,
) -> Result<Option<Span>, Memory>
    ensures { IfOk result (λ s. Said (spec.label_rest env.now of before.now a high.now) report.old s report.new) }
{
    match high {
        Some(y) => {
            let b = boxed_asked(alloc, env, report, y)?;
            Ok(range(&env.types, report, of, before, a, bound_of(b)))
        }
        None => Ok(one(&env.types, report, of, before, a)),
    }
}

/// The values of a label that has to go together with a type, where others stand before it in the same CASE. It has none
/// where a fault is in it.
pub fn label(
    alloc: Global,
    env: &Env,
    report: &mut Report,
    of: Option<TypeId>,
    before: &Spans,
    label: &Range,
) -> Result<Option<Span>, Memory>
    ensures { IfOk result (λ s. Said (spec.label_means env.now of before.now label.now) report.old s report.new) }
{
    let a = asked_expression(alloc, env, report, &label.low)?;
    label_rest(alloc, env, report, of, before, bound_of(a), &label.high)
}

/// The labels of a record's CASE so far: their values, and whether none has a fault.
#[derive(Drop)]
pub struct Labels {
    pub seen: Spans,
    pub right: bool,
}

impl Labels {
    pub fn new(alloc: Global) -> Labels
        ensures { result ≡ spec.no_labels }
    {
        Labels {
            seen: Spans::new(alloc),
            right: true,
        }
    }
}

fn add_values(alloc: Global, labels: &mut Labels, span: Option<Span>) -> Result<(), Memory>
    ensures { IfOk result (λ o. labels.new ≡ spec.with_label labels.old span) }
{
    let seen = std::mem::replace(&mut labels.seen, Spans::new(alloc));
    labels.seen = seen.with(span)?;
    labels.right = labels.right && span.is_some();
    Ok(())
}

/// A label more.
pub fn add_label(
    alloc: Global,
    env: &Env,
    report: &mut Report,
    of: Option<TypeId>,
    labels: &mut Labels,
    one: &Range,
) -> Result<(), Memory>
    ensures { IfOk result (λ o. Said (spec.label_step env.now of labels.old one.now) report.old labels.new report.new) }
{
    let span = label(alloc, env, report, of, &labels.seen, one)?;
    add_values(alloc, labels, span)
}
