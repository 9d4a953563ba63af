ghost use Rattle.std.specs.Prelude.{◌≡◌, IfOk};
ghost use Rattle.lil_report.specs.Told.{Said};
ghost use Rattle.lil_check_type.specs.Made as spec;

use lil_base::{FaultKind, Memory, Place};
use lil_report::Report;
use lil_scope::Env;
use lil_types::{Span, TypeForm, TypeId, TypeTable, add, known, own};

/// A type more: that is fault 61 at its first token, where it is too large.
#[tactic(auto, unfolding(crate::specs::Made::type_node, lil_report::specs::Told::tell))]
pub fn add_type(
    env: &mut Env,
    report: &mut Report,
    place: Place,
    form: TypeForm,
) -> Result<Option<TypeId>, Memory>
    ensures { IfOk result (λ o. Said (spec.type_node env.old place form) report.old (env.new, o) report.new) }
{
    let origin = own(&env.types);
    let number = add(&mut env.types, origin, form)?;
    report.note(number.is_none(), place, FaultKind::DataTooLong);
    Ok(number)
}

/// A type more, if its parts have no fault.
pub fn add_form(
    env: &mut Env,
    report: &mut Report,
    place: Place,
    form: Option<TypeForm>,
) -> Result<Option<TypeId>, Memory>
    ensures { IfOk result (λ o. Said (spec.form_node env.old place form) report.old (env.new, o) report.new) }
{
    match form {
        Some(form) => add_type(env, report, place, form),
        None => Ok(None),
    }
}

/// The values of an ordinal type.
pub fn span_of(t: &TypeTable, n: TypeId) -> Option<Span>
    ensures { result ≡ spec.span_of t.now n }
{
    known(t, n)?.span
}

/// A type that must be ordinal, at its name.
#[tactic(auto, unfolding(crate::specs::Made::ordinal_node, lil_report::specs::Told::tell))]
pub fn ordinal(
    t: &TypeTable,
    report: &mut Report,
    place: Place,
    sort: Option<TypeId>,
) -> Option<TypeId>
    ensures { Said (spec.ordinal_node t.now place sort) report.old result report.new }
{
    let n = sort?;
    let span = span_of(t, n);
    report.note(span.is_none(), place, FaultKind::WrongKind);
    if span.is_some() { Some(n) } else { None }
}
