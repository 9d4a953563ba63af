ghost use Rattle.std.specs.Prelude.{◌≡◌, IfOk};
ghost use Rattle.lil_report.specs.Told.{Said, walk};
ghost use Rattle.lil_check_type.specs.Simple as spec;

use crate::bounds::{bound_of, range};
use crate::made::{add_form, add_type, ordinal, span_of};
use crate::named::NamedType;
use lil_base::{FaultKind, Items, Memory, Name, Place};
use lil_check_value::{boxed_asked, type_named};
use lil_language::Simple;
use lil_report::Report;
use lil_scope::{Env, Kind, Thing, bind};
use lil_text::{Ident, Qualident};
use lil_types::{Span, TypeForm, TypeId, TypeTable};
use std::alloc::Global;

/// The names alone.
pub fn copy_names(alloc: Global, of: &[Ident]) -> Result<Items<Name>, Memory>
    ensures { IfOk result (λ names. names ≡ spec.names_of of.now) }
{
    let mut names = Items::new(alloc);
    for one in of {
        names.push(one.name.copy(alloc)?)?;
    }
    Ok(names)
}

fn constant_thing(sort: Option<TypeId>, word: u16) -> Thing
    ensures { result ≡ spec.constant_thing sort word }
{
    match sort {
        Some(n) => Thing::Constant(Kind::Scalar(n, word)),
        None => Thing::Broken,
    }
}

fn next_word(word: u16) -> u16
    ensures { result ≡ spec.next_word word }
{
    if word < 65535 { word + 1 } else { word }
}

/// The form of an enumeration, which has a constant.
#[tactic(auto, unfolding(crate::specs::Simple::names_node, lil_report::specs::Told::tell))]
fn enumeration_form(
    alloc: Global,
    report: &mut Report,
    place: Place,
    names: &[Ident],
) -> Result<TypeForm, Memory>
    ensures { IfOk result (λ f. Said (spec.names_node place names.now) report.old f report.new) }
{
    let form = TypeForm::Enumeration(copy_names(alloc, names)?);
    report.note(names.is_empty(), place, FaultKind::EmptyRange);
    Ok(form)
}

/// The constants of an enumeration.
fn constants(
    alloc: Global,
    env: &mut Env,
    report: &mut Report,
    sort: Option<TypeId>,
    names: &[Ident],
) -> Result<u16, Memory>
    ensures { IfOk result (λ w. Said (walk (spec.constant_step sort) (env.old, 0) names.now) report.old (env.new, w) report.new) }
{
    let mut word: u16 = 0;
    for name in names {
        bind(alloc, env, report, name, constant_thing(sort, word))?;
        word = next_word(word);
    }
    Ok(word)
}

fn enumeration(
    alloc: Global,
    env: &mut Env,
    report: &mut Report,
    place: Place,
    names: &[Ident],
) -> Result<Option<TypeId>, Memory>
    ensures { IfOk result (λ o. Said (spec.enumeration_means env.old place names.now) report.old (env.new, o) report.new) }
{
    let form = enumeration_form(alloc, report, place, names)?;
    let sort = add_type(env, report, place, form)?;
    constants(alloc, env, report, sort, names)?;
    Ok(sort)
}

fn given(sort: Option<TypeId>) -> NamedType
    ensures { result ≡ spec.given sort }
{
    match sort {
        Some(n) => NamedType::Given(n),
        None => NamedType::Faulty,
    }
}

/// The base that a subrange names.
fn range_base(env: &Env, report: &mut Report, of: &Option<Qualident>) -> NamedType
    ensures { Said (spec.base_means env.now of.now) report.old result report.new }
{
    match of {
        Some(q) => {
            let sort = type_named(env, report, q);
            let sort = ordinal(&env.types, report, q.name.place, sort);
            given(sort)
        }
        None => NamedType::Absent,
    }
}

/// What a type that may be an index or a set's base means.
#[tactic(auto, using(crate::specs::Walks::walk_steps), unfolding(crate::specs::Simple::simple_means, lil_report::specs::Told::after, lil_report::specs::Told::tell))]
pub fn simple(
    alloc: Global,
    env: &mut Env,
    report: &mut Report,
    of: &Simple,
) -> Result<Option<TypeId>, Memory>
    ensures { IfOk result (λ o. Said (spec.simple_means env.old of.now) report.old (env.new, o) report.new) }
{
    match of {
        Simple::Named(q) => Ok(type_named(env, report, q)),
        Simple::Enumeration(place, names) => enumeration(
            alloc,
            env,
            report,
            *place,
            names.as_slice(),
        ),
        Simple::Subrange(place, q, x, y) => {
            let named = range_base(env, report, q);
            let a = boxed_asked(alloc, env, report, x)?;
            let a = bound_of(a);
            let b = boxed_asked(alloc, env, report, y)?;
            let form = range(&env.types, report, *place, named, a, bound_of(b));
            let sort = add_form(env, report, *place, form)?;
            Ok(sort)
        }
    }
}

fn simple_place(of: &Simple) -> Place
    ensures { result ≡ spec.simple_place of.now }
{
    match of {
        Simple::Named(q) => q.name.place,
        Simple::Enumeration(place, _) => *place,
        Simple::Subrange(place, _, _, _) => *place,
    }
}

fn first_of(owner: &Option<Ident>, place: Place) -> Place
    ensures { result ≡ spec.first_of owner.now place }
{
    match owner {
        Some(owner) => owner.place,
        None => place,
    }
}

fn simple_first(of: &Simple) -> Place
    ensures { result ≡ spec.simple_first of.now }
{
    match of {
        Simple::Named(q) => first_of(&q.owner, q.name.place),
        Simple::Enumeration(place, _) => *place,
        Simple::Subrange(place, _, _, _) => *place,
    }
}

/// An index type.
pub fn index(
    alloc: Global,
    env: &mut Env,
    report: &mut Report,
    of: &Simple,
) -> Result<Option<TypeId>, Memory>
    ensures { IfOk result (λ o. Said (spec.index_means env.old of.now) report.old (env.new, o) report.new) }
{
    let sort = simple(alloc, env, report, of)?;
    let sort = ordinal(&env.types, report, simple_place(of), sort);
    Ok(sort)
}

fn is_short(span: Option<Span>) -> bool
    ensures { result ≡ spec.is_short span }
{
    match span {
        Some(span) => span.low >= 0 && span.high <= 15,
        None => false,
    }
}

/// The base of a set.
#[tactic(auto, unfolding(crate::specs::Simple::base_node, lil_report::specs::Told::tell))]
fn set_base(
    t: &TypeTable,
    report: &mut Report,
    place: Place,
    sort: Option<TypeId>,
) -> Option<TypeForm>
    ensures { Said (spec.base_node t.now place sort) report.old result report.new }
{
    let n = sort?;
    let is = is_short(span_of(t, n));
    report.note(!is, place, FaultKind::SetBase);
    if is { Some(TypeForm::SetOf(n)) } else { None }
}

/// A set type.
pub fn set(
    alloc: Global,
    env: &mut Env,
    report: &mut Report,
    place: Place,
    of: &Simple,
) -> Result<Option<TypeId>, Memory>
    ensures { IfOk result (λ o. Said (spec.set_means env.old place of.now) report.old (env.new, o) report.new) }
{
    let sort = simple(alloc, env, report, of)?;
    let form = set_base(&env.types, report, simple_first(of), sort);
    add_form(env, report, place, form)
}
