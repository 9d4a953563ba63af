ghost use Rattle.std.specs.Prelude.{◌≡◌, [], reverse, Some, None, IfOk, MatchOption};
ghost use Rattle.lil_report.specs.Told.{Said, walk};
ghost use Rattle.lil_check_type.specs.Sorts as spec;

use crate::labels::Labels;
use crate::made::{add_form, add_type};
use crate::records::{Fields, add_fields, add_record, end_labels, tag, variant_labels};
use crate::routines::procedure;
use crate::simple::{index, set, simple};
use lil_base::{Memory, Place};
use lil_language::{FieldList, Simple, Sort, Variant};
use lil_report::Report;
use lil_scope::{Env, Thing, Wait, is_later};
use lil_text::Ident;
use lil_types::{PROCESS, TypeForm, TypeId};
use std::alloc::Global;

/// The index types of an array.
fn indexes(
    alloc: Global,
    env: &mut Env,
    report: &mut Report,
    of: &[Simple],
) -> Result<Vec<Option<TypeId>>, Memory>
    ensures { IfOk result (λ is. Said (walk spec.index_step (env.old, []) of.now) report.old (env.new, is.items) report.new) }
{
    let mut sorts = Vec::new(alloc);
    for one in of {
        let sort = index(alloc, env, report, one)?;
        sorts.push(sort)?;
    }
    Ok(sorts)
}

fn array_form(index: Option<TypeId>, element: Option<TypeId>) -> Option<TypeForm>
    ensures { result ≡ spec.array_form index element }
{
    Some(TypeForm::Array(index?, element?))
}

/// The array types over these indexes, the last one first.
fn arrays(
    env: &mut Env,
    report: &mut Report,
    place: Place,
    indexes: Vec<Option<TypeId>>,
    element: Option<TypeId>,
) -> Result<Option<TypeId>, Memory>
    ensures { IfOk result (λ o. Said (walk (spec.array_step place) (env.old, element) (reverse indexes.items)) report.old (env.new, o) report.new) }
{
    let mut sort = element;
    let mut left = indexes;
    while let Some(index) = left.pop() {
        sort = add_form(env, report, place, array_form(index, sort))?;
    }
    Ok(sort)
}

fn add_wait(alloc: Global, env: &mut Env, pointer: Option<TypeId>, of: &Ident) -> Result<(), Memory>
    ensures { IfOk result (λ o. env.new ≡ spec.with_wait env.old pointer of.now) }
{
    match pointer {
        Some(pointer) => {
            let later = is_later(env, &of.name);
            let name = of.name.copy(alloc)?;
            env.waits.push(Wait {
                pointer,
                place: of.place,
                name,
                later,
            })
        }
        None => Ok(()),
    }
}

fn target_so_far(of: Option<Thing>) -> TypeId
    ensures { result ≡ spec.target_so_far of }
{
    match of {
        Some(Thing::Type(sort)) if sort != PROCESS => sort,
        _ => 0,
    }
}

/// A pointer type whose bare name is looked up at the block's end; until then it points to what the name stands for so
/// far, where something lies there.
fn waiting(
    alloc: Global,
    env: &mut Env,
    report: &mut Report,
    place: Place,
    of: &Ident,
) -> Result<Option<TypeId>, Memory>
    ensures { IfOk result (λ o. Said (spec.waiting_means env.old place of.now) report.old (env.new, o) report.new) }
{
    let target = target_so_far(env.scopes.find(&of.name));
    let pointer = add_type(env, report, place, TypeForm::Pointer(target))?;
    add_wait(alloc, env, pointer, of)?;
    Ok(pointer)
}

fn pointer_form(target: Option<TypeId>) -> Option<TypeForm>
    ensures { result ≡ spec.pointer_form target }
{
    Some(TypeForm::Pointer(target?))
}

fn bare_by<'a>(owner: &Option<Ident>, name: &'a Ident) -> Option<&'a Ident>
    ensures { MatchOption result (spec.bare_by owner.now name.now ≡ None) (λ i. spec.bare_by owner.now name.now ≡ Some i.now) }
{
    match owner {
        Some(_) => None,
        None => Some(name),
    }
}

fn bare_name(of: &Simple) -> Option<&Ident>
    ensures { MatchOption result (spec.bare_name of.now ≡ None) (λ i. spec.bare_name of.now ≡ Some i.now) }
{
    match of {
        Simple::Named(q) => bare_by(&q.owner, &q.name),
        _ => None,
    }
}

/// The name that a type is, if it is one alone.
#[tactic(auto, using(crate::proofs::Forms::sort_steps), unfolding(lil_report::specs::Told::after, lil_report::specs::Told::tell))]
fn bare(of: &Sort) -> Option<&Ident>
    ensures { MatchOption result ((spec.sense of.now).name ≡ None) (λ i. (spec.sense of.now).name ≡ Some i.now) }
{
    match of {
        Sort::Scalar(x) => bare_name(x),
        Sort::ArrayOf(_, _, _) => None,
        Sort::RecordOf(_, _) => None,
        Sort::SetOver(_, _) => None,
        Sort::PointerTo(_, _) => None,
        Sort::ProcedureOf(_, _, _) => None,
    }
}

/// What a type means: its number, None where something in it is wrong.
#[cycle(sorts)]
#[tactic(auto, using(crate::proofs::Forms::sort_steps), unfolding(lil_report::specs::Told::after, lil_report::specs::Told::tell))]
pub fn sort(
    alloc: Global,
    env: &mut Env,
    report: &mut Report,
    of: &Sort,
) -> Result<Option<TypeId>, Memory>
    ensures { IfOk result (λ o. Said (spec.sort_means env.old of.now) report.old (env.new, o) report.new) }
{
    match of {
        Sort::Scalar(x) => simple(alloc, env, report, x),
        Sort::ArrayOf(place, xs, y) => {
            let indexes = indexes(alloc, env, report, xs.as_slice())?;
            let element = sort(alloc, env, report, y.get())?;
            let sort = arrays(env, report, *place, indexes, element)?;
            Ok(sort)
        }
        Sort::RecordOf(place, lists) => {
            let sort = record_of(alloc, env, report, *place, lists.as_slice())?;
            Ok(sort)
        }
        Sort::SetOver(place, x) => set(alloc, env, report, *place, x),
        Sort::PointerTo(place, y) => {
            let sort = pointer(alloc, env, report, *place, y.get())?;
            Ok(sort)
        }
        Sort::ProcedureOf(place, formals, outcome) => {
            procedure(alloc, env, report, *place, formals.as_slice(), outcome)
        }
    }
}

/// A pointer type.
#[cycle(sorts)]
fn pointer(
    alloc: Global,
    env: &mut Env,
    report: &mut Report,
    place: Place,
    of: &Sort,
) -> Result<Option<TypeId>, Memory>
    ensures { IfOk result (λ o. Said (spec.pointer_means place (spec.sense of.now).name (spec.sense of.now).means env.old) report.old (env.new, o) report.new) }
{
    match bare(of) {
        Some(name) => waiting(alloc, env, report, place, name),
        None => {
            let target = sort(alloc, env, report, of)?;
            add_form(env, report, place, pointer_form(target))
        }
    }
}

#[cycle(sorts)]
fn record_of(
    alloc: Global,
    env: &mut Env,
    report: &mut Report,
    place: Place,
    of: &[FieldList],
) -> Result<Option<TypeId>, Memory>
    ensures { IfOk result (λ o. Said (spec.record_means env.old place of.now) report.old (env.new, o) report.new) }
{
    let mut fields = Fields::new(alloc);
    each_list(alloc, env, report, &mut fields, of)?;
    add_record(env, report, place, fields)
}

#[cycle(sorts)]
fn each_list(
    alloc: Global,
    env: &mut Env,
    report: &mut Report,
    fields: &mut Fields,
    of: &[FieldList],
) -> Result<(), Memory>
    ensures { IfOk result (λ o. Said (spec.lists_mean (env.old, fields.old) of.now) report.old (env.new, fields.new) report.new) }
{
    for one in of {
        list(alloc, env, report, fields, one)?;
    }
    Ok(())
}

/// Fields of one type, or variants.
#[cycle(sorts)]
#[tactic(auto, using(crate::proofs::Forms::sort_steps), unfolding(lil_report::specs::Told::after, lil_report::specs::Told::tell))]
fn list(
    alloc: Global,
    env: &mut Env,
    report: &mut Report,
    fields: &mut Fields,
    of: &FieldList,
) -> Result<(), Memory>
    ensures { IfOk result (λ o. Said (spec.list_step (env.old, fields.old) of.now) report.old (env.new, fields.new) report.new) }
{
    match of {
        FieldList::Fields(names, x) => {
            let sort = sort(alloc, env, report, x)?;
            add_fields(alloc, report, fields, sort, names.as_slice())
        }
        FieldList::Variants(_, name, q, variants, others) => {
            let tag = tag(alloc, env, report, fields, name, q)?;
            let labels = each_variant(alloc, env, report, fields, tag, variants.as_slice())?;
            end_labels(fields, labels);
            match others {
                Some(lists) => {
                    each_list(alloc, env, report, fields, lists.as_slice())?;
                    Ok(())
                }
                None => Ok(()),
            }
        }
    }
}

/// The variants of a CASE.
#[cycle(sorts)]
fn each_variant(
    alloc: Global,
    env: &mut Env,
    report: &mut Report,
    fields: &mut Fields,
    tag: Option<TypeId>,
    of: &[Variant],
) -> Result<Labels, Memory>
    ensures { IfOk result (λ ls. Said (spec.variants_mean of.now tag (env.old, fields.old)) report.old ((env.new, fields.new), ls) report.new) }
{
    let mut before = Labels::new(alloc);
    for one in of {
        variant(alloc, env, report, fields, &mut before, tag, one)?;
    }
    Ok(before)
}

#[cycle(sorts)]
#[tactic(auto, using(crate::proofs::Forms::sort_steps), unfolding(lil_report::specs::Told::after, lil_report::specs::Told::tell))]
fn variant(
    alloc: Global,
    env: &mut Env,
    report: &mut Report,
    fields: &mut Fields,
    before: &mut Labels,
    tag: Option<TypeId>,
    of: &Variant,
) -> Result<(), Memory>
    ensures { IfOk result (λ o. Said (spec.variant_step tag ((env.old, fields.old), before.old) of.now) report.old ((env.new, fields.new), before.new) report.new) }
{
    variant_labels(alloc, env, report, tag, before, of.labels.as_slice())?;
    each_list(alloc, env, report, fields, of.fields.as_slice())
}
