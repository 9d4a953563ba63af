ghost use Rattle.std.specs.Prelude.{◌≡◌};
ghost use Rattle.lil_report.specs.Told.{Said};
ghost use Rattle.lil_check_value.specs.Looks as spec;

use crate::names::type_named;
use lil_base::{Boxed, FaultKind, Place};
use lil_kinds::set_base;
use lil_report::Report;
use lil_scope::Env;
use lil_text::Qualident;
use lil_types::{BITSET, TypeId, TypeTable};

fn is_no_set(types: &TypeTable, sort: TypeId) -> bool
    ensures { result ≡ spec.is_no_set types.now sort }
{
    set_base(types, sort).is_none()
}

/// A type's name before the braces.
#[tactic(auto, unfolding(crate::specs::Looks::sort_node, lil_report::specs::Told::tell))]
fn sort_node(
    types: &TypeTable,
    report: &mut Report,
    at: Place,
    sort: Option<TypeId>,
) -> Option<TypeId>
    ensures { Said (spec.sort_node types.now at sort) report.old result report.new }
{
    match sort {
        None => {
            report.note(false, at, FaultKind::WrongKind);
            None
        }
        Some(sort) => {
            let wrong = is_no_set(types, sort);
            report.note(wrong, at, FaultKind::WrongKind);
            if wrong { None } else { Some(sort) }
        }
    }
}

/// The type of a set.
#[tactic(auto, unfolding(lil_report::specs::Told::tell))]
pub(crate) fn set_sort(
    env: &Env,
    report: &mut Report,
    of: &Option<Boxed<Qualident>>,
) -> Option<TypeId>
    ensures { Said (spec.set_sort env.now of.now) report.old result report.new }
{
    match of {
        None => Some(BITSET),
        Some(named) => {
            let name = named.get();
            let sort = type_named(env, report, name);
            sort_node(&env.types, report, name.name.place, sort)
        }
    }
}
