ghost use Rattle.std.specs.Prelude.{◌≡◌, IfOk};
ghost use Rattle.lil_report.specs.Told.{Said};
ghost use Rattle.lil_check_stmt.specs.Labels as spec;

use lil_base::{Items, Memory, beside, joined};
use lil_check_type::{Spans, label, type_below};
use lil_language::Range;
use lil_report::Report;
use lil_resolved::{RArm, RLabel};
use lil_scope::{Env, Kind};
use lil_types::{Span, TypeId, TypeTable};
use std::alloc::Global;

/// The values of the labels of all arms so far, and the labels of the arm at hand, where none of them has a fault.
#[derive(Drop)]
pub(crate) struct Labels {
    pub(crate) seen: Spans,
    pub(crate) own: Option<Items<RLabel>>,
}

/// The arms of a CASE so far, where all have code, and the values of all their labels.
#[derive(Drop)]
pub(crate) struct Arms {
    pub(crate) seen: Spans,
    pub(crate) arms: Option<Items<RArm>>,
}

/// The type that the labels have to go together with.
fn tag_of(t: &TypeTable, selector: Option<Kind>) -> Option<TypeId>
    ensures { result ≡ spec.tag_of t.now selector }
{
    match selector {
        Some(selector) => type_below(t, selector),
        None => None,
    }
}

fn as_label(of: Option<Span>) -> Option<RLabel>
    ensures { result ≡ spec.as_label of }
{
    match of {
        Some(of) => Some(RLabel {
            low: of.low,
            high: of.high,
        }),
        None => None,
    }
}

fn with_label(of: Labels, span: Option<Span>) -> Result<Labels, Memory>
    ensures { IfOk result (λ ls. ls ≡ spec.with_label of span) }
{
    let Labels { seen, own } = of;
    let (own, seen) = beside(own, seen.with(span))?;
    let (seen, own) = beside(seen, joined(own, as_label(span)))?;
    Ok(Labels { seen, own })
}

/// The labels of an arm, behind those of the arms before it.
pub(crate) fn labels_of_arm(
    alloc: Global,
    env: &Env,
    report: &mut Report,
    selector: Option<Kind>,
    seen: Spans,
    of: &[Range],
) -> Result<Labels, Memory>
    ensures { IfOk result (λ ls. Said (spec.labels_mean env.now selector seen of.now) report.old ls report.new) }
{
    let tag = tag_of(&env.types, selector);
    let mut labels = Labels {
        seen,
        own: Some(Items::new(alloc)),
    };
    for one in of {
        let span = label(alloc, env, report, tag, &labels.seen, one)?;
        labels = with_label(labels, span)?;
    }
    Ok(labels)
}
