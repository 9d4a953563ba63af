ghost use Rattle.std.specs.Prelude.{◌≡◌, ◌+◌, ◌∷◌};
ghost use Rattle.lil_report.specs.Told.{Said};
ghost use Rattle.lil_check_value.specs.Looks as spec;

use lil_base::{FaultKind, Name, Place};
use lil_kinds::field;
use lil_report::Report;
use lil_scope::{Env, Thing, find_in, is_built};
use lil_text::{Ident, Qualident};
use lil_types::{FieldAt, TypeId, TypeTable};

/// What a name means where it stands: a field of the record of a WITH around it, by the number of the WITH, the field's
/// number and its type; what is declared of it; or nothing.
#[derive(Clone, Copy)]
pub enum Looked {
    Nothing,
    Field(usize, usize, TypeId),
    Thing(Thing),
}

fn nearer(of: Option<FieldAt>, number: usize, outer: Looked) -> Looked
    ensures { result ≡ spec.nearer of number outer }
{
    match of {
        Some(of) => Looked::Field(number, of.number, of.sort),
        None => outer,
    }
}

/// What a name means inside of a WITH, from what it means outside. The record isn't searched where a WITH further inside has
/// the same type.
#[tactic(auto, using(crate::proofs::Nearest::adds_nothing))]
fn inside(
    types: &TypeTable,
    name: &Name,
    outer: Looked,
    number: usize,
    sort: TypeId,
    inner: &[TypeId],
) -> Looked
    ensures { spec.in_withs types.now name.now result (number + 1) inner.now ≡ spec.in_withs types.now name.now outer number (sort ∷ inner.now) }
{
    if inner.contains(&sort) {
        return outer;
    }
    nearer(field(types, sort, name), number, outer)
}

/// The field of the nearest WITH that has one of this name.
fn in_withs(types: &TypeTable, withs: &[TypeId], name: &Name) -> Looked
    ensures { result ≡ spec.nearest types.now name.now withs.now }
{
    let mut found = Looked::Nothing;
    let mut number = 0;
    while number < withs.len() {
        let inner = &withs[number + 1..];
        found = inside(types, name, found, number, withs[number], inner);
        number += 1;
    }
    found
}

pub(crate) fn looked_as(of: Option<Thing>) -> Looked
    ensures { result ≡ spec.looked_as of }
{
    match of {
        Some(thing) => Looked::Thing(thing),
        None => Looked::Nothing,
    }
}

/// What a name means: the nearest WITH whose record has a field of this name comes before all declarations.
#[tactic(auto, unfolding(crate::specs::Looks::look))]
pub fn look(env: &Env, name: &Name) -> Looked
    ensures { result ≡ spec.look env.now name.now }
{
    match in_withs(&env.types, env.withs.as_slice(), name) {
        Looked::Nothing => looked_as(env.scopes.find(name)),
        Looked::Field(with, number, sort) => Looked::Field(with, number, sort),
        Looked::Thing(thing) => Looked::Thing(thing),
    }
}

pub(crate) fn is_nothing(of: Looked) -> bool
    ensures { result ≡ spec.is_nothing of }
{
    match of {
        Looked::Nothing => true,
        Looked::Field(_, _, _) => false,
        Looked::Thing(_) => false,
    }
}

fn is_hidden_thing(of: Thing) -> bool
    ensures { result ≡ spec.is_hidden_thing of }
{
    match of {
        Thing::Hidden => true,
        _ => false,
    }
}

pub(crate) fn is_hidden(of: Looked) -> bool
    ensures { result ≡ spec.is_hidden of }
{
    match of {
        Looked::Nothing => false,
        Looked::Field(_, _, _) => false,
        Looked::Thing(thing) => is_hidden_thing(thing),
    }
}

fn no_type_thing(of: Thing) -> bool
    ensures { result ≡ spec.no_type_thing of }
{
    match of {
        Thing::Type(_) => false,
        Thing::Hidden => false,
        Thing::Broken => false,
        _ => true,
    }
}

fn no_type(of: Looked) -> bool
    ensures { result ≡ spec.no_type of }
{
    match of {
        Looked::Nothing => false,
        Looked::Field(_, _, _) => true,
        Looked::Thing(thing) => no_type_thing(thing),
    }
}

fn no_module_thing(of: Thing) -> bool
    ensures { result ≡ spec.no_module_thing of }
{
    match of {
        Thing::Module(_) => false,
        Thing::Hidden => false,
        Thing::Broken => false,
        _ => true,
    }
}

fn no_module(of: Looked) -> bool
    ensures { result ≡ spec.no_module of }
{
    match of {
        Looked::Nothing => false,
        Looked::Field(_, _, _) => true,
        Looked::Thing(thing) => no_module_thing(thing),
    }
}

fn type_of(of: Looked) -> Option<TypeId>
    ensures { result ≡ spec.type_of of }
{
    match of {
        Looked::Thing(Thing::Type(sort)) => Some(sort),
        _ => None,
    }
}

fn module_of(of: Looked) -> Option<usize>
    ensures { result ≡ spec.module_of of }
{
    match of {
        Looked::Thing(Thing::Module(block)) => Some(block),
        _ => None,
    }
}

/// Whether programs with this name may run.
pub(crate) fn is_built_name(of: Looked) -> bool
    ensures { result ≡ spec.is_built_name of }
{
    match of {
        Looked::Nothing => true,
        Looked::Field(_, _, _) => true,
        Looked::Thing(thing) => is_built(thing),
    }
}

/// A name where a type's name is needed. The whole name begins at `first`.
#[tactic(auto, unfolding(crate::specs::Looks::type_node, lil_report::specs::Told::tell))]
fn type_node(report: &mut Report, first: Place, at: Place, of: Looked) -> Option<TypeId>
    ensures { Said (spec.type_node first at of) report.old result report.new }
{
    report.note(is_nothing(of), at, FaultKind::Unknown);
    report.note(is_hidden(of), at, FaultKind::NotExported);
    report.note(no_type(of), at, FaultKind::WrongKind);
    report.note(!is_built_name(of), first, FaultKind::NotBuilt);
    type_of(of)
}

/// A name where a module's name is needed.
#[tactic(auto, unfolding(crate::specs::Looks::module_node, lil_report::specs::Told::tell))]
fn module_node(report: &mut Report, at: Place, of: Looked) -> Option<usize>
    ensures { Said (spec.module_node at of) report.old result report.new }
{
    report.note(is_nothing(of), at, FaultKind::Unknown);
    report.note(is_hidden(of), at, FaultKind::NotExported);
    report.note(no_module(of), at, FaultKind::WrongKind);
    module_of(of)
}

/// A name of a module, by the number of the module's block, where a type's name is needed. The module's own name stands at
/// `first`.
#[tactic(auto, unfolding(lil_report::specs::Told::tell))]
fn member_type(
    env: &Env,
    report: &mut Report,
    first: Place,
    of: &Ident,
    block: Option<usize>,
) -> Option<TypeId>
    ensures { Said (spec.member_type env.now first of.now block) report.old result report.new }
{
    match block {
        None => None,
        Some(block) => type_node(
            report,
            first,
            of.place,
            looked_as(find_in(&env.scopes, block, &of.name)),
        ),
    }
}

/// The type of this name.
#[tactic(auto, unfolding(crate::specs::Looks::type_named))]
pub fn type_named(env: &Env, report: &mut Report, of: &Qualident) -> Option<TypeId>
    ensures { Said (spec.type_named env.now of.now) report.old result report.new }
{
    match &of.owner {
        None => type_node(
            report,
            of.name.place,
            of.name.place,
            look(env, &of.name.name),
        ),
        Some(owner) => {
            let block = module_node(report, owner.place, look(env, &owner.name));
            member_type(env, report, owner.place, &of.name, block)
        }
    }
}
