ghost use Rattle.std.specs.Prelude.{◌≡◌};
ghost use Rattle.lil_report.specs.Told.{Said};
ghost use Rattle.lil_check_stmt.specs.Nodes as spec;

use lil_base::{FaultKind, Place};
use lil_forms::{assigned, located_in, typed};
use lil_kinds::{Form, Found, Located, assignable, is_ordinal, is_record, misses};
use lil_report::Report;
use lil_resolved::{RExpr, RKind, RStmt};
use lil_scope::Kind;
use lil_shapes::kind_at;
use lil_types::{BOOLEAN, TypeId, TypeTable, base};

/// Whether a variable of this kind takes a value: an open array as a whole takes none.
fn takes(t: &TypeTable, variable: Kind, value: Kind) -> bool
    ensures { result ≡ spec.takes t.now variable value }
{
    match variable {
        Kind::Of(sort) => assignable(t, sort, value),
        _ => false,
    }
}

/// Whether a constant lies outside the type of a variable.
fn is_outside(t: &TypeTable, variable: Kind, value: Kind) -> bool
    ensures { result ≡ spec.outside t.now variable value }
{
    match variable {
        Kind::Of(sort) => misses(t, sort, value),
        _ => false,
    }
}

/// An assignment of a value to a variable, at `:=`.
#[tactic(auto, unfolding(crate::specs::Nodes::assign_node, lil_report::specs::Told::tell))]
pub(crate) fn assign(
    t: &TypeTable,
    report: &mut Report,
    becomes: Place,
    variable: Option<Found>,
    value: Option<Found>,
) -> Option<RStmt>
    ensures { Said (spec.assign_node t.now becomes variable value) report.old result report.new }
{
    match variable {
        Some(variable) => match value {
            Some(value) => {
                let unlike = !takes(t, variable.kind, value.kind);
                let outside = is_outside(t, variable.kind, value.kind);
                report.note(unlike, becomes, FaultKind::Assign);
                report.note(outside, value.first, FaultKind::ConstRange);
                assigned(t, located_in(variable.form), value)
            }
            None => {
                drop(variable);
                None
            }
        },
        None => {
            drop(value);
            None
        }
    }
}

fn is_truth(t: &TypeTable, kind: Kind) -> bool
    ensures { result ≡ spec.is_truth t.now kind }
{
    match kind {
        Kind::Of(sort) => base(t, sort) == BOOLEAN,
        Kind::Scalar(sort, _) => base(t, sort) == BOOLEAN,
        _ => false,
    }
}

/// A condition.
#[tactic(auto, unfolding(crate::specs::Nodes::condition_node, lil_report::specs::Told::tell))]
pub(crate) fn condition(t: &TypeTable, report: &mut Report, of: Option<Found>) -> Option<RExpr>
    ensures { Said (spec.condition_node t.now of) report.old result report.new }
{
    match of {
        Some(of) => {
            let unlike = !is_truth(t, of.kind);
            report.note(unlike, of.first, FaultKind::Operands);
            typed(t, BOOLEAN, of)
        }
        None => None,
    }
}

/// What a CASE selects by.
#[tactic(auto, unfolding(crate::specs::Nodes::selector_node, lil_report::specs::Told::tell))]
pub(crate) fn selector(t: &TypeTable, report: &mut Report, of: Option<Found>) -> Option<Found>
    ensures { Said (spec.selector_node t.now of) report.old result report.new }
{
    match of {
        Some(of) => {
            let unlike = !is_ordinal(t, of.kind);
            report.note(unlike, of.first, FaultKind::Operands);
            if unlike {
                drop(of);
                None
            } else {
                Some(of)
            }
        }
        None => None,
    }
}

/// The record of a WITH, where it has code, and its type.
#[derive(Drop)]
pub(crate) struct Opened {
    pub(crate) place: Option<Located>,
    pub(crate) sort: TypeId,
}

fn is_record_kind(t: &TypeTable, kind: Kind) -> bool
    ensures { result ≡ spec.is_record_kind t.now kind }
{
    match kind {
        Kind::Of(sort) => is_record(t, sort),
        _ => false,
    }
}

fn opening(kind: Kind, form: Form) -> Option<Opened>
    ensures { result ≡ spec.opening kind form }
{
    match kind {
        Kind::Of(sort) => Some(Opened {
            place: located_in(form),
            sort,
        }),
        _ => {
            drop(form);
            None
        }
    }
}

/// What stands between WITH and DO.
#[tactic(auto, unfolding(crate::specs::Nodes::record_node, lil_report::specs::Told::tell))]
pub(crate) fn record_of(
    t: &TypeTable,
    report: &mut Report,
    at: Place,
    of: Option<Found>,
) -> Option<Opened>
    ensures { Said (spec.record_node t.now at of) report.old result report.new }
{
    match of {
        Some(of) => {
            let unlike = !is_record_kind(t, of.kind);
            report.note(unlike, at, FaultKind::NotRecord);
            if unlike {
                drop(of);
                None
            } else {
                opening(of.kind, of.form)
            }
        }
        None => None,
    }
}

/// An EXIT, in a LOOP or not.
#[tactic(auto, unfolding(crate::specs::Nodes::exit_node, lil_report::specs::Told::tell))]
pub(crate) fn exit(report: &mut Report, at: Place, looping: bool) -> Option<RStmt>
    ensures { Said (spec.exit_node at looping) report.old result report.new }
{
    report.note(!looping, at, FaultKind::ExitOutside);
    Some(RStmt::Exit)
}

/// A RETURN without a value, where a function has this result.
#[tactic(auto, unfolding(crate::specs::Nodes::end_node, lil_report::specs::Told::tell))]
pub(crate) fn return_alone(
    report: &mut Report,
    at: Place,
    result_type: Option<TypeId>,
) -> Option<RStmt>
    ensures { Said (spec.end_node at result_type) report.old result report.new }
{
    report.note(result_type.is_some(), at, FaultKind::ReturnKind);
    Some(RStmt::Return)
}

fn answer(kind: Option<RKind>, value: Option<RExpr>) -> Option<RStmt>
    ensures { result ≡ spec.answer kind value }
{
    let (Some(kind), Some(value)) = (kind, value) else {
        return None;
    };
    Some(RStmt::Answer(kind, value))
}

/// A RETURN with a value.
#[tactic(auto, unfolding(crate::specs::Nodes::return_node, lil_report::specs::Told::tell))]
pub(crate) fn return_value(
    t: &TypeTable,
    report: &mut Report,
    at: Place,
    result_type: Option<TypeId>,
    value: Option<Found>,
) -> Option<RStmt>
    ensures { Said (spec.return_node t.now at result_type value) report.old result report.new }
{
    match value {
        Some(value) => match result_type {
            Some(sort) => {
                let unlike = !assignable(t, sort, value.kind);
                let outside = misses(t, sort, value.kind);
                report.note(unlike, at, FaultKind::Assign);
                report.note(outside, value.first, FaultKind::ConstRange);
                answer(kind_at(t, sort), typed(t, sort, value))
            }
            None => {
                drop(value);
                report.note(true, at, FaultKind::ReturnKind);
                None
            }
        },
        None => None,
    }
}
