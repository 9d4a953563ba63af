ghost use Rattle.std.specs.Prelude.{◌≡◌, ◌&&◌, is_some, IfOk};
ghost use Rattle.lil_report.specs.Told.{Said, walk};
ghost use Rattle.lil_check_type.specs.Labels.{label_step};
ghost use Rattle.lil_check_type.specs.Records as spec;

use crate::labels::{Labels, add_label};
use crate::made::{add_form, ordinal};
use lil_base::{FaultKind, Memory, Place};
use lil_check_value::type_named;
use lil_language::Range;
use lil_report::Report;
use lil_scope::Env;
use lil_text::{Ident, Qualident};
use lil_types::{TypeForm, TypeId};
use std::alloc::Global;

/// The fields of a record so far, whether all have a type, and whether nothing else is wrong with them.
#[derive(Drop)]
pub struct Fields {
    pub list: lil_types::Fields,
    pub typed: bool,
    pub right: bool,
}

impl Fields {
    pub fn new(alloc: Global) -> Fields
        ensures { result ≡ spec.no_fields }
    {
        Fields {
            list: lil_types::Fields::new(alloc),
            typed: true,
            right: true,
        }
    }
}

/// The number of a type, 0 for one that has a fault.
pub fn sort_or(sort: Option<TypeId>) -> TypeId
    ensures { result ≡ spec.sort_or sort }
{
    sort.unwrap_or(0)
}

fn typed_still(typed: bool, sort: Option<TypeId>) -> bool
    ensures { result ≡ (typed && is_some sort) }
{
    typed && sort.is_some()
}

/// A field more: that is fault 21, where its name stands before.
#[tactic(auto, using(crate::proofs::FieldNames::has_found), unfolding(crate::specs::Records::field_step, lil_report::specs::Told::tell))]
fn add_field(
    alloc: Global,
    report: &mut Report,
    fields: &mut Fields,
    sort: Option<TypeId>,
    of: &Ident,
) -> Result<(), Memory>
    ensures { IfOk result (λ o. Said (spec.field_step sort fields.old of.now) report.old fields.new report.new) }
{
    let list = std::mem::replace(&mut fields.list, lil_types::Fields::new(alloc));
    let (twice, list) = list.with(alloc, &of.name, sort_or(sort))?;
    fields.list = list;
    fields.typed = typed_still(fields.typed, sort);
    fields.right = fields.right && !twice;
    report.note(twice, of.place, FaultKind::Twice);
    Ok(())
}

/// Fields of one type.
pub fn add_fields(
    alloc: Global,
    report: &mut Report,
    fields: &mut Fields,
    sort: Option<TypeId>,
    names: &[Ident],
) -> Result<(), Memory>
    ensures { IfOk result (λ o. Said (walk (spec.field_step sort) fields.old names.now) report.old fields.new report.new) }
{
    for name in names {
        add_field(alloc, report, fields, sort, name)?;
    }
    Ok(())
}

fn tag_field(
    alloc: Global,
    report: &mut Report,
    fields: &mut Fields,
    name: &Option<Ident>,
    sort: Option<TypeId>,
) -> Result<(), Memory>
    ensures { IfOk result (λ o. Said (spec.tag_field fields.old name.now sort) report.old fields.new report.new) }
{
    match name {
        Some(name) => add_field(alloc, report, fields, sort, name),
        None => {
            fields.typed = typed_still(fields.typed, sort);
            Ok(())
        }
    }
}

/// The tag of variants: its type.
pub fn tag(
    alloc: Global,
    env: &Env,
    report: &mut Report,
    fields: &mut Fields,
    name: &Option<Ident>,
    of: &Qualident,
) -> Result<Option<TypeId>, Memory>
    ensures { IfOk result (λ o. Said (spec.tag_means env.now fields.old name.now of.now) report.old (fields.new, o) report.new) }
{
    let sort = type_named(env, report, of);
    let sort = ordinal(&env.types, report, of.name.place, sort);
    tag_field(alloc, report, fields, name, sort)?;
    Ok(sort)
}

/// The labels of a variant.
pub fn variant_labels(
    alloc: Global,
    env: &Env,
    report: &mut Report,
    tag: Option<TypeId>,
    before: &mut Labels,
    of: &[Range],
) -> Result<(), Memory>
    ensures { IfOk result (λ o. Said (walk (label_step env.now tag) before.old of.now) report.old before.new report.new) }
{
    for one in of {
        add_label(alloc, env, report, tag, before, one)?;
    }
    Ok(())
}

/// The fields of variants, once all labels of their CASE are known.
pub fn end_labels(fields: &mut Fields, labels: Labels)
    ensures { fields.new ≡ spec.with_labels fields.old labels }
{
    fields.right = fields.right && labels.right;
}

/// The record type of these fields.
fn record_form(fields: Fields) -> Option<TypeForm>
    ensures { result ≡ spec.record_form fields }
{
    if fields.typed {
        Some(TypeForm::Record(fields.list))
    } else {
        None
    }
}

fn if_right(right: bool, sort: Option<TypeId>) -> Option<TypeId>
    ensures { result ≡ spec.if_right right sort }
{
    if right { sort } else { None }
}

/// A record of these fields. Where one is bound twice or a label has a fault it is tested for its length, and has no type.
pub fn add_record(
    env: &mut Env,
    report: &mut Report,
    place: Place,
    fields: Fields,
) -> Result<Option<TypeId>, Memory>
    ensures { IfOk result (λ o. Said (spec.record_node env.old place fields) report.old (env.new, o) report.new) }
{
    let right = fields.right;
    let sort = add_form(env, report, place, record_form(fields))?;
    Ok(if_right(right, sort))
}
