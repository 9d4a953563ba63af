ghost use Rattle.std.specs.Prelude.{◌≡◌, IfOk};
ghost use Rattle.lil_report.specs.Told.{Said, tell};
ghost use Rattle.lil_check_value.specs.Designators as spec;

use crate::names::{Looked, is_built_name, is_hidden, is_nothing, look, looked_as};
use lil_base::{FaultKind, Memory, Name, Place};
use lil_declared::Mode;
use lil_forms::{element_of, held_at, located_form, located_in, named_at, seen, variable_at};
use lil_kinds::{
    ArrayParts, Form, Found, Located, Standing, array_parts, assignable, field, is_opaque,
    is_record, misses, target,
};
use lil_operators::raised;
use lil_report::Report;
use lil_scope::{Env, Kind, Thing, Variable, find_in, waits_for};
use lil_text::Ident;
use lil_types::{CARDINAL, CHAR, FieldAt, TypeId, TypeTable};
use std::alloc::Global;

/// A variable or a part of one: where the designator begins, where its last name stands, the form of what it names, whether nothing is selected, what is known of its value, its depth, and whether it is a character of an array.
#[derive(Drop)]
pub struct Part {
    pub first: Place,
    pub name: Place,
    pub form: Form,
    pub is_whole: bool,
    pub kind: Kind,
    pub depth: usize,
    pub standing: Standing,
}

/// What a name means that is no variable, where its designator begins, and where it stands.
#[derive(Clone, Copy)]
pub struct Named {
    pub first: Place,
    pub name: Place,
    pub thing: Thing,
}

/// What a designator reaches.
#[derive(Drop)]
pub enum Reached {
    Part(Part),
    Other(Named),
}

/// Where a variable lies, Nothing where it isn't seen.
fn form_of(alloc: Global, env: &Env, of: Variable) -> Form
    ensures { result ≡ spec.form_of env.now of }
{
    match named_at(env, of) {
        None => Form::Nothing,
        Some(named) => variable_at(alloc, named, seen(env, named)),
    }
}

fn variable_kind(of: Variable) -> Kind
    ensures { result ≡ spec.variable_kind of }
{
    match of.mode {
        Mode::Plain => Kind::Of(of.sort),
        Mode::Value => Kind::Of(of.sort),
        Mode::Place => Kind::Of(of.sort),
        Mode::OpenValue => Kind::Open(of.sort),
        Mode::OpenPlace => Kind::Open(of.sort),
    }
}

fn whole_part(first: Place, name: Place, form: Form, kind: Kind) -> Part
    ensures { result ≡ spec.whole_part first name form kind }
{
    Part {
        first,
        name,
        form,
        is_whole: true,
        kind,
        depth: 1,
        standing: Standing::Variable,
    }
}

/// What the name of a thing reaches.
fn thing_reached(
    alloc: Global,
    env: &Env,
    first: Place,
    name: Place,
    thing: Thing,
) -> Option<Reached>
    ensures { result ≡ spec.thing_reached env.now first name thing }
{
    match thing {
        Thing::Variable(of) => Some(Reached::Part(whole_part(
            first,
            name,
            form_of(alloc, env, of),
            variable_kind(of),
        ))),
        Thing::ExternalVariable(of) => Some(Reached::Part(whole_part(
            first,
            name,
            Form::Nothing,
            Kind::Of(of.sort),
        ))),
        Thing::Hidden => None,
        Thing::Broken => None,
        _ => Some(Reached::Other(Named { first, name, thing })),
    }
}

/// A field of the record of a WITH.
fn held_field(
    alloc: Global,
    env: &Env,
    with: usize,
    number: usize,
) -> Result<Option<Located>, Memory>
    ensures { IfOk result (λ p. p ≡ spec.held_field env.now with number) }
{
    let held = held_at(alloc, env.withs.as_slice(), with);
    lil_forms::field_of(&env.types, number, held)
}

fn looked_reached(
    alloc: Global,
    env: &Env,
    first: Place,
    name: Place,
    of: Looked,
) -> Result<Option<Reached>, Memory>
    ensures { IfOk result (λ o. o ≡ spec.looked_reached env.now first name of) }
{
    match of {
        Looked::Nothing => Ok(None),
        Looked::Field(with, number, sort) => {
            let form = located_form(held_field(alloc, env, with, number)?);
            let part = whole_part(first, name, form, Kind::Of(sort));
            Ok(Some(Reached::Part(part)))
        }
        Looked::Thing(thing) => Ok(thing_reached(alloc, env, first, name, thing)),
    }
}

/// A name in a designator. With that of its module it begins at `at`.
#[tactic(auto, unfolding(crate::specs::Designators::name_node, lil_report::specs::Told::tell))]
fn name_node(
    alloc: Global,
    env: &Env,
    report: &mut Report,
    first: Place,
    at: Place,
    name: Place,
    of: Looked,
) -> Result<Option<Reached>, Memory>
    ensures { IfOk result (λ o. Said (spec.name_node env.now first at name of) report.old o report.new) }
{
    report.note(is_nothing(of), name, FaultKind::Unknown);
    report.note(is_hidden(of), name, FaultKind::NotExported);
    report.note(!is_built_name(of), at, FaultKind::NotBuilt);
    let value = looked_reached(alloc, env, first, name, of)?;
    Ok(value)
}

/// The first name of a designator that begins at this place.
pub(crate) fn root(
    alloc: Global,
    env: &Env,
    report: &mut Report,
    first: Place,
    of: &Ident,
) -> Result<Option<Reached>, Memory>
    ensures { IfOk result (λ o. Said (spec.root_means env.now first of.now) report.old o report.new) }
{
    let looked = look(env, &of.name);
    let value = name_node(alloc, env, report, first, of.place, of.place, looked)?;
    Ok(value)
}

/// Whether a thing is a type or a module.
pub(crate) fn is_misplaced(of: Thing) -> bool
    ensures { result ≡ spec.is_misplaced of }
{
    match of {
        Thing::Type(_) => true,
        Thing::Module(_) => true,
        _ => false,
    }
}

fn record_kind(types: &TypeTable, kind: Kind) -> bool
    ensures { result ≡ spec.record_kind types.now kind }
{
    match kind {
        Kind::Of(sort) => is_record(types, sort),
        _ => false,
    }
}

fn field_of(types: &TypeTable, kind: Kind, name: &Name) -> Option<FieldAt>
    ensures { result ≡ spec.field_of types.now kind name.now }
{
    match kind {
        Kind::Of(sort) => field(types, sort, name),
        _ => None,
    }
}

fn with_field(types: &TypeTable, of: Part, field: FieldAt) -> Result<Part, Memory>
    ensures { IfOk result (λ a. a ≡ spec.with_field types.now of field) }
{
    Ok(Part {
        first: of.first,
        name: of.name,
        form: located_form(lil_forms::field_of(types, field.number, located_in(of.form))?),
        is_whole: false,
        kind: Kind::Of(field.sort),
        depth: of.depth,
        standing: Standing::Variable,
    })
}

fn field_value(
    types: &TypeTable,
    is_record: bool,
    of: Part,
    field: Option<FieldAt>,
) -> Result<Option<Reached>, Memory>
    ensures { IfOk result (λ o. o ≡ spec.field_value types.now is_record of field) }
{
    match field {
        Some(field) if is_record => Ok(Some(Reached::Part(with_field(types, of, field)?))),
        _ => {
            drop(of);
            Ok(None)
        }
    }
}

/// A field of a variable or of a part of one.
#[tactic(auto, unfolding(crate::specs::Designators::part_field, lil_report::specs::Told::tell))]
fn part_field(
    types: &TypeTable,
    report: &mut Report,
    dot: Place,
    name: &Ident,
    of: Part,
) -> Result<Option<Reached>, Memory>
    ensures { IfOk result (λ o. Said (spec.part_field types.now dot name.now of) report.old o report.new) }
{
    let is_record = record_kind(types, of.kind);
    let field = field_of(types, of.kind, &name.name);
    let absent = is_record && field.is_none();
    report.note(!is_record, dot, FaultKind::NotRecord);
    report.note(absent, name.place, FaultKind::NoField);
    let value = field_value(types, is_record, of, field)?;
    Ok(value)
}

fn module_block(of: Thing) -> Option<usize>
    ensures { result ≡ spec.module_block of }
{
    match of {
        Thing::Module(block) => Some(block),
        _ => None,
    }
}

/// A name of a module, or a field of what is no variable.
#[tactic(auto, unfolding(crate::specs::Designators::other_field, lil_report::specs::Told::tell))]
fn other_field(
    alloc: Global,
    env: &Env,
    report: &mut Report,
    dot: Place,
    name: &Ident,
    of: Named,
) -> Result<Option<Reached>, Memory>
    ensures { IfOk result (λ o. Said (spec.other_field env.now dot name.now of) report.old o report.new) }
{
    match module_block(of.thing) {
        Some(block) => {
            let looked = looked_as(find_in(&env.scopes, block, &name.name));
            let value = name_node(alloc, env, report, of.first, of.name, name.place, looked)?;
            Ok(value)
        }
        None => {
            let misplaced = is_misplaced(of.thing);
            report.note(misplaced, of.name, FaultKind::WrongKind);
            report.note(!misplaced, dot, FaultKind::NotRecord);
            Ok(None)
        }
    }
}

/// A full stop and a name.
#[tactic(auto, unfolding(lil_report::specs::Told::tell))]
pub(crate) fn field_node(
    alloc: Global,
    env: &Env,
    report: &mut Report,
    dot: Place,
    name: &Ident,
    of: Option<Reached>,
) -> Result<Option<Reached>, Memory>
    ensures { IfOk result (λ o. Said (spec.field_node env.now dot name.now of) report.old o report.new) }
{
    match of {
        None => Ok(None),
        Some(Reached::Part(part)) => {
            let value = part_field(&env.types, report, dot, name, part)?;
            Ok(value)
        }
        Some(Reached::Other(named)) => {
            let value = other_field(alloc, env, report, dot, name, named)?;
            Ok(value)
        }
    }
}

fn parts_of(types: &TypeTable, kind: Kind) -> Option<ArrayParts>
    ensures { result ≡ spec.parts_of types.now kind }
{
    match kind {
        Kind::Of(sort) => array_parts(types, sort),
        Kind::Open(sort) => Some(ArrayParts {
            index: CARDINAL,
            element: sort,
        }),
        _ => None,
    }
}

fn element_standing(sort: TypeId) -> Standing
    ensures { result ≡ spec.element_standing sort }
{
    if sort == CHAR {
        Standing::Character
    } else {
        Standing::Variable
    }
}

fn with_index(
    alloc: Global,
    types: &TypeTable,
    of: Part,
    index: Found,
    parts: ArrayParts,
    depth: usize,
) -> Result<Part, Memory>
    ensures { IfOk result (λ a. a ≡ spec.with_index types.now of index parts depth) }
{
    Ok(Part {
        first: of.first,
        name: of.name,
        form: located_form(element_of(alloc, types, index, of.form)?),
        is_whole: false,
        kind: Kind::Of(parts.element),
        depth,
        standing: element_standing(parts.element),
    })
}

fn index_fits(types: &TypeTable, parts: ArrayParts, kind: Kind) -> bool
    ensures { result ≡ spec.index_fits types.now parts kind }
{
    assignable(types, parts.index, kind) && !misses(types, parts.index, kind)
}

fn element_value(
    alloc: Global,
    types: &TypeTable,
    of: Part,
    index: Found,
    parts: Option<ArrayParts>,
    depth: Option<usize>,
) -> Result<Option<Reached>, Memory>
    ensures { IfOk result (λ o. o ≡ spec.element_value types.now of index parts depth) }
{
    match (parts, depth) {
        (Some(parts), Some(depth)) => {
            if index_fits(types, parts, index.kind) {
                let part = with_index(alloc, types, of, index, parts, depth)?;
                Ok(Some(Reached::Part(part)))
            } else {
                drop((of, index));
                Ok(None)
            }
        }
        _ => {
            drop((of, index));
            Ok(None)
        }
    }
}

/// The tests of an index whose array, if it is one, has these parts.
#[tactic(auto, unfolding(lil_report::specs::Told::tell))]
fn test_index(
    types: &TypeTable,
    report: &mut Report,
    bracket: Place,
    first: Place,
    kind: Kind,
    parts: Option<ArrayParts>,
)
    ensures { report.new ≡ tell report.old (spec.index_rows types.now bracket first kind parts) }
{
    match parts {
        None => report.note(true, bracket, FaultKind::NotArray),
        Some(parts) => {
            report.note(
                !assignable(types, parts.index, kind),
                first,
                FaultKind::Assign,
            );
            report.note(
                misses(types, parts.index, kind),
                first,
                FaultKind::ConstRange,
            );
        }
    }
}

/// An index of a variable or of a part of one.
#[tactic(auto, unfolding(crate::specs::Designators::part_index, lil_report::specs::Told::tell))]
fn part_index(
    alloc: Global,
    types: &TypeTable,
    report: &mut Report,
    bracket: Place,
    of: Part,
    index: Found,
) -> Result<Option<Reached>, Memory>
    ensures { IfOk result (λ o. Said (spec.part_index types.now bracket of index) report.old o report.new) }
{
    let depth = raised(of.depth, 2, index.depth);
    let parts = parts_of(types, of.kind);
    report.note(depth.is_none(), of.first, FaultKind::ExprDeep);
    test_index(types, report, bracket, index.first, index.kind, parts);
    let value = element_value(alloc, types, of, index, parts, depth)?;
    Ok(value)
}

/// An index of what is no variable.
#[tactic(auto, unfolding(crate::specs::Designators::other_index, lil_report::specs::Told::tell))]
fn other_index(
    report: &mut Report,
    bracket: Place,
    of: Named,
    index: &Option<Found>,
) -> Option<Reached>
    ensures { Said (spec.other_index bracket of index.now) report.old result report.new }
{
    let misplaced = is_misplaced(of.thing);
    report.note(misplaced, of.name, FaultKind::WrongKind);
    match index {
        None => {}
        Some(index) => {
            let deep = !misplaced && raised(1, 2, index.depth).is_none();
            report.note(deep, of.first, FaultKind::ExprDeep);
            report.note(!misplaced, bracket, FaultKind::NotArray);
        }
    }
    None
}

/// One index.
#[tactic(auto, unfolding(lil_report::specs::Told::tell))]
pub(crate) fn index_node(
    alloc: Global,
    types: &TypeTable,
    report: &mut Report,
    bracket: Place,
    of: Option<Reached>,
    index: Option<Found>,
) -> Result<Option<Reached>, Memory>
    ensures { IfOk result (λ o. Said (spec.index_node types.now bracket of index) report.old o report.new) }
{
    match of {
        None => {
            drop(index);
            Ok(None)
        }
        Some(Reached::Other(named)) => {
            let value = other_index(report, bracket, named, &index);
            drop(index);
            Ok(value)
        }
        Some(Reached::Part(part)) => match index {
            None => {
                drop(part);
                Ok(None)
            }
            Some(index) => {
                let value = part_index(alloc, types, report, bracket, part, index)?;
                Ok(value)
            }
        },
    }
}

fn opaque_kind(types: &TypeTable, kind: Kind) -> bool
    ensures { result ≡ spec.opaque_kind types.now kind }
{
    match kind {
        Kind::Of(sort) => is_opaque(types, sort),
        _ => false,
    }
}

fn target_of(types: &TypeTable, kind: Kind) -> Option<TypeId>
    ensures { result ≡ spec.target_of types.now kind }
{
    match kind {
        Kind::Of(sort) => target(types, sort),
        _ => None,
    }
}

fn with_follow(types: &TypeTable, of: Part, sort: TypeId) -> Result<Part, Memory>
    ensures { IfOk result (λ a. a ≡ spec.with_follow types.now of sort) }
{
    Ok(Part {
        first: of.first,
        name: of.name,
        form: located_form(lil_forms::target_of(types, located_in(of.form))?),
        is_whole: false,
        kind: Kind::Of(sort),
        depth: of.depth,
        standing: Standing::Variable,
    })
}

fn target_value(
    types: &TypeTable,
    is_opaque: bool,
    of: Part,
    sort: Option<TypeId>,
) -> Result<Option<Reached>, Memory>
    ensures { IfOk result (λ o. o ≡ spec.target_value types.now is_opaque of sort) }
{
    match sort {
        Some(sort) if !is_opaque => Ok(Some(Reached::Part(with_follow(types, of, sort)?))),
        _ => {
            drop(of);
            Ok(None)
        }
    }
}

/// What a variable or a part of one points to.
#[tactic(auto, unfolding(crate::specs::Designators::part_follow, lil_report::specs::Told::tell))]
fn part_follow(
    types: &TypeTable,
    report: &mut Report,
    arrow: Place,
    of: Part,
) -> Result<Option<Reached>, Memory>
    ensures { IfOk result (λ o. Said (spec.part_follow types.now arrow of) report.old o report.new) }
{
    let is_opaque = opaque_kind(types, of.kind);
    let sort = target_of(types, of.kind);
    let no_pointer = !is_opaque && sort.is_none();
    report.note(is_opaque, arrow, FaultKind::Opaque);
    report.note(no_pointer, arrow, FaultKind::NotPointer);
    let value = target_value(types, is_opaque, of, sort)?;
    Ok(value)
}

fn is_waiting(env: &Env, kind: Kind) -> bool
    ensures { result ≡ spec.is_waiting env.now kind }
{
    match kind {
        Kind::Of(sort) => waits_for(env, sort),
        _ => false,
    }
}

/// An arrow behind a variable or a part of one. Nothing lies behind a pointer whose target the block declares later.
#[tactic(auto, unfolding(lil_report::specs::Told::tell))]
fn reached_follow(
    env: &Env,
    report: &mut Report,
    arrow: Place,
    of: Part,
) -> Result<Option<Reached>, Memory>
    ensures { IfOk result (λ o. Said (spec.reached_follow env.now arrow of) report.old o report.new) }
{
    if is_waiting(env, of.kind) {
        drop(of);
        Ok(None)
    } else {
        let value = part_follow(&env.types, report, arrow, of)?;
        Ok(value)
    }
}

/// An arrow behind what is no variable.
#[tactic(auto, unfolding(crate::specs::Designators::other_follow, lil_report::specs::Told::tell))]
fn other_follow(report: &mut Report, arrow: Place, of: Named) -> Option<Reached>
    ensures { Said (spec.other_follow arrow of) report.old result report.new }
{
    let misplaced = is_misplaced(of.thing);
    report.note(misplaced, of.name, FaultKind::WrongKind);
    report.note(!misplaced, arrow, FaultKind::NotPointer);
    None
}

/// An arrow.
#[tactic(auto, unfolding(lil_report::specs::Told::tell))]
pub(crate) fn follow_node(
    env: &Env,
    report: &mut Report,
    arrow: Place,
    of: Option<Reached>,
) -> Result<Option<Reached>, Memory>
    ensures { IfOk result (λ o. Said (spec.follow_node env.now arrow of) report.old o report.new) }
{
    match of {
        None => Ok(None),
        Some(Reached::Part(part)) => {
            let value = reached_follow(env, report, arrow, part)?;
            Ok(value)
        }
        Some(Reached::Other(named)) => Ok(other_follow(report, arrow, named)),
    }
}
