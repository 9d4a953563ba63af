//! The names that imports bind.

ghost use Rattle.std.specs.Prelude.{◌≡◌, IfOk, slice_get};
ghost use Rattle.std.specs.Option.{option_copied};
ghost use Rattle.lil_types.specs.declared.table.TypeEntry.{TypeEntry as Entered};
ghost use Rattle.lil_types.specs.Types.{entry as type_entry};
ghost use Rattle.lil_report.specs.Told.{Said, walk};
ghost use Rattle.lil_interfaces.specs.Imports as spec;
ghost use Rattle.lil_interfaces.specs.{Entering.{constants_by}, Sources.{source_of}};

use crate::modules::{Imported, enter};
use crate::moving::copied_names;
use crate::sources::{Source, Sources};
use crate::surface::{Interfaces, same_name, same_text};
use lil_base::{FaultKind, Items, Memory, Name, Place};
use lil_language::Import;
use lil_report::Report;
use lil_scope::{Entry, Env, Kind, Thing, find_in, is_built};
use lil_text::Ident;
use lil_types::{TypeForm, TypeId, TypeTable, entry};
use std::alloc::Global;

fn comes_from(before: Option<Source>, from: Source) -> bool
    ensures { result ≡ spec.comes_from before «from» }
{
    match (before, from) {
        (Some(Source::Itself), Source::Itself) => true,
        (Some(Source::Block(a)), Source::Block(b)) => a == b,
        _ => false,
    }
}

/// The constants of an enumeration by their names, none of another form.
fn constants_by(of: &TypeForm) -> &[Name]
    ensures { result.now ≡ constants_by of.now }
{
    match of {
        TypeForm::Enumeration(names) => names.as_slice(),
        _ => &[],
    }
}

/// Those of the type of a number.
fn constants_of(t: &TypeTable, sort: TypeId) -> &[Name]
    ensures { result.now ≡ spec.constants_of t.now sort }
{
    match entry(t, sort) {
        None => &[],
        Some(of) => constants_by(&of.form),
    }
}

fn is_at(name: &Name, there: Option<&Name>) -> bool
    ensures { result ≡ spec.is_at name.now (option_copied there.entry) }
{
    match there {
        None => false,
        Some(there) => same_name(name, there),
    }
}

/// Whether two constants are the one of this name of one enumeration.
fn same_constant(t: &TypeTable, name: &Name, a: Kind, b: Kind) -> bool
    ensures { result ≡ spec.same_constant t.now name.now a b }
{
    match (a, b) {
        (Kind::Scalar(a, v), Kind::Scalar(b, w)) => {
            a == b && (v == w && is_at(name, constants_of(t, a).get(usize::from(v))))
        }
        _ => false,
    }
}

fn same_thing(t: &TypeTable, name: &Name, a: Thing, b: Thing) -> bool
    ensures { result ≡ spec.same_thing t.now name.now a b }
{
    match (a, b) {
        (Thing::Type(a), Thing::Type(b)) => a == b,
        (Thing::Constant(a), Thing::Constant(b)) => same_constant(t, name, a, b),
        _ => false,
    }
}

/// Whether a name of the unit's block stands for another thing than this one.
fn stands_for_another(so_far: &Imported, from: Source, name: &Name, thing: Thing) -> bool
    ensures { result ≡ spec.stands_for_another so_far.now.env.types name.now (spec.there so_far.now name.now) (source_of so_far.now.taken name.now) «from» thing }
{
    match find_in(&so_far.env.scopes, so_far.env.scopes.inner, name) {
        None => false,
        Some(there) => {
            !(comes_from(so_far.taken.find(name), from)
                || same_thing(&so_far.env.types, name, there, thing))
        }
    }
}

/// Binds an imported name: where it stands for another thing before, that is fault 21.
#[tactic(auto, unfolding(crate::specs::Imports::take_node, lil_report::specs::Told::tell))]
fn take(
    alloc: Global,
    from: Source,
    at: &Ident,
    so_far: &mut Imported,
    report: &mut Report,
    thing: Thing,
) -> Result<(), Memory>
    ensures { IfOk result (λ u. Said (spec.take_node «from» at.now so_far.old thing) report.old so_far.new report.new) }
{
    let another = stands_for_another(so_far, from, &at.name, thing);
    report.note(another, at.place, FaultKind::Twice);
    let entry = Entry {
        thing,
        place: at.place,
    };
    let inner = so_far.env.scopes.inner;
    so_far
        .env
        .scopes
        .blocks
        .declare(alloc, inner, &at.name, entry)?;
    so_far.taken.add(alloc, &at.name, from)?;
    Ok(())
}

/// The constant with a number of an enumeration.
fn constant(sort: TypeId, number: usize) -> Thing
    ensures { result ≡ spec.constant sort number }
{
    Thing::Constant(Kind::Scalar(sort, number.min(65535) as u16))
}

/// A constant that comes with its type, at the place of the type's name.
fn take_constant(
    alloc: Global,
    from: Source,
    place: Place,
    so_far: &mut Imported,
    report: &mut Report,
    name: &Name,
    thing: Thing,
) -> Result<(), Memory>
    ensures { IfOk result (λ u. Said (spec.take_node «from» (spec.ident place name.now) so_far.old thing) report.old so_far.new report.new) }
{
    let name = name.copy(alloc)?;
    let at = Ident { name, place };
    take(alloc, from, &at, so_far, report, thing)
}

/// The constants of an enumeration.
fn take_constants(
    alloc: Global,
    from: Source,
    place: Place,
    sort: TypeId,
    so_far: &mut Imported,
    report: &mut Report,
    names: &[Name],
) -> Result<(), Memory>
    ensures { IfOk result (λ u. Said (spec.constants_step «from» place sort 0 so_far.old names.now) report.old so_far.new report.new) }
{
    for number in 0..names.len() {
        let thing = constant(sort, number);
        take_constant(alloc, from, place, so_far, report, &names[number], thing)?;
    }
    Ok(())
}

/// The constants of an enumeration, unless they are bound.
fn bring(
    alloc: Global,
    from: Source,
    place: Place,
    so_far: &mut Imported,
    report: &mut Report,
    sort: TypeId,
) -> Result<(), Memory>
    ensures { IfOk result (λ u. Said (spec.bring «from» place so_far.old sort) report.old so_far.new report.new) }
{
    if so_far.enumerations.has(sort) {
        return Ok(());
    }
    so_far.enumerations.add(sort)?;
    let names = copied_names(alloc, constants_of(&so_far.env.types, sort))?;
    take_constants(alloc, from, place, sort, so_far, report, names.as_slice())
}

/// What comes with the name of a thing: with that of a type its constants.
#[tactic(auto, unfolding(crate::specs::Imports::with_constants))]
fn with_constants(
    alloc: Global,
    from: Source,
    place: Place,
    so_far: &mut Imported,
    report: &mut Report,
    thing: Thing,
) -> Result<(), Memory>
    ensures { IfOk result (λ u. Said (spec.with_constants «from» place thing so_far.old) report.old so_far.new report.new) }
{
    match thing {
        Thing::Type(sort) => bring(alloc, from, place, so_far, report, sort),
        _ => Ok(()),
    }
}

/// Binds an imported name, and what comes with it.
#[tactic(auto, using(lil_report::specs::Laws::said_after))]
fn take_whole(
    alloc: Global,
    from: Source,
    at: &Ident,
    so_far: &mut Imported,
    report: &mut Report,
    thing: Thing,
) -> Result<(), Memory>
    ensures { IfOk result (λ u. Said (spec.taken_node «from» at.now so_far.old thing) report.old so_far.new report.new) }
{
    take(alloc, from, at, so_far, report, thing)?;
    with_constants(alloc, from, at.place, so_far, report, thing)
}

fn is_hidden(of: Option<Thing>) -> bool
    ensures { result ≡ spec.is_hidden of }
{
    matches!(of, Some(Thing::Hidden))
}

fn thing_or_broken(of: Option<Thing>) -> Thing
    ensures { result ≡ spec.thing_or_broken of }
{
    match of {
        None | Some(Thing::Hidden) => Thing::Broken,
        Some(thing) => thing,
    }
}

/// What a module's name stands for. Where there is none, that is fault 20, where it isn't exported 22, and where it isn't
/// built 90.
#[tactic(auto, unfolding(crate::specs::Imports::found_node, lil_report::specs::Told::tell))]
fn found(report: &mut Report, at: &Ident, of: Option<Thing>) -> Thing
    ensures { Said (spec.found_node at.now of) report.old result report.new }
{
    report.note(of.is_none(), at.place, FaultKind::Unknown);
    report.note(is_hidden(of), at.place, FaultKind::NotExported);
    let thing = thing_or_broken(of);
    report.note(!is_built(thing), at.place, FaultKind::NotBuilt);
    thing
}

/// A name of the module with this block.
#[tactic(auto, using(lil_report::specs::Laws::said_after))]
fn import_name(
    alloc: Global,
    block: usize,
    so_far: &mut Imported,
    report: &mut Report,
    at: &Ident,
) -> Result<(), Memory>
    ensures { IfOk result (λ u. Said (spec.name_step block so_far.old at.now) report.old so_far.new report.new) }
{
    let of = find_in(&so_far.env.scopes, block, &at.name);
    let thing = found(report, at, of);
    take_whole(alloc, Source::Block(block), at, so_far, report, thing)
}

fn import_names(
    alloc: Global,
    block: usize,
    so_far: &mut Imported,
    report: &mut Report,
    names: &[Ident],
) -> Result<(), Memory>
    ensures { IfOk result (λ u. Said (walk (spec.name_step block) so_far.old names.now) report.old so_far.new report.new) }
{
    for at in names {
        import_name(alloc, block, so_far, report, at)?;
    }
    Ok(())
}

/// Whether programs can't use anything yet of the module of this name.
fn is_unbuilt(name: &Name) -> bool
    ensures { result ≡ spec.is_unbuilt name.now }
{
    let name = name.as_slice();
    same_text(name, b"FileSystem") || (same_text(name, b"Program") || same_text(name, b"Channels"))
}

/// Tells fault 90 where a module is imported of which programs can't use anything yet.
#[tactic(auto, unfolding(crate::specs::Imports::late_node, lil_report::specs::Told::tell))]
fn late(so_far: &Imported, report: &mut Report, at: &Ident)
    ensures { Said (spec.late_node at.now so_far.now) report.old so_far.now report.new }
{
    let unbuilt = is_unbuilt(&at.name);
    report.note(unbuilt, at.place, FaultKind::NotBuilt);
}

fn own_name(
    alloc: Global,
    interfaces: &Interfaces,
    so_far: &mut Imported,
    report: &mut Report,
    at: &Ident,
) -> Result<(), Memory>
    ensures { IfOk result (λ u. Said (spec.own_node interfaces.now at.now so_far.old) report.old so_far.new report.new) }
{
    let block = enter(alloc, interfaces, so_far, &at.name)?;
    let thing = Thing::Module(block);
    take(alloc, Source::Itself, at, so_far, report, thing)
}

/// A module by its own name.
#[tactic(auto, using(lil_report::specs::Laws::said_after))]
fn import_module(
    alloc: Global,
    interfaces: &Interfaces,
    so_far: &mut Imported,
    report: &mut Report,
    at: &Ident,
) -> Result<(), Memory>
    ensures { IfOk result (λ u. Said (spec.module_step interfaces.now so_far.old at.now) report.old so_far.new report.new) }
{
    late(so_far, report, at);
    own_name(alloc, interfaces, so_far, report, at)
}

fn import_modules(
    alloc: Global,
    interfaces: &Interfaces,
    so_far: &mut Imported,
    report: &mut Report,
    names: &[Ident],
) -> Result<(), Memory>
    ensures { IfOk result (λ u. Said (walk (spec.module_step interfaces.now) so_far.old names.now) report.old so_far.new report.new) }
{
    for at in names {
        import_module(alloc, interfaces, so_far, report, at)?;
    }
    Ok(())
}

fn import_from(
    alloc: Global,
    interfaces: &Interfaces,
    so_far: &mut Imported,
    report: &mut Report,
    owner: &Ident,
    names: &[Ident],
) -> Result<(), Memory>
    ensures { IfOk result (λ u. Said (spec.names_of interfaces.now owner.now names.now so_far.old) report.old so_far.new report.new) }
{
    let block = enter(alloc, interfaces, so_far, &owner.name)?;
    import_names(alloc, block, so_far, report, names)
}

/// Names of a module.
#[tactic(auto, using(lil_report::specs::Laws::said_after))]
fn import_of(
    alloc: Global,
    interfaces: &Interfaces,
    so_far: &mut Imported,
    report: &mut Report,
    owner: &Ident,
    names: &[Ident],
) -> Result<(), Memory>
    ensures { IfOk result (λ u. Said (spec.names_from interfaces.now owner.now names.now so_far.old) report.old so_far.new report.new) }
{
    late(so_far, report, owner);
    import_from(alloc, interfaces, so_far, report, owner, names)
}

fn import(
    alloc: Global,
    interfaces: &Interfaces,
    so_far: &mut Imported,
    report: &mut Report,
    of: &Import,
) -> Result<(), Memory>
    ensures { IfOk result (λ u. Said (spec.import_step interfaces.now so_far.old of.now) report.old so_far.new report.new) }
{
    match &of.from {
        None => import_modules(alloc, interfaces, so_far, report, of.names.as_slice()),
        Some(owner) => {
            import_of(
                alloc,
                interfaces,
                so_far,
                report,
                owner,
                of.names.as_slice(),
            )
        }
    }
}

/// All that imports bind, in their order.
#[tactic(auto, unfolding(crate::specs::Imports::imports_mean))]
pub fn imports(
    alloc: Global,
    interfaces: &Interfaces,
    so_far: &mut Imported,
    report: &mut Report,
    of: &[Import],
) -> Result<(), Memory>
    ensures { IfOk result (λ u. Said (spec.imports_mean interfaces.now so_far.old of.now) report.old so_far.new report.new) }
{
    for one in of {
        import(alloc, interfaces, so_far, report, one)?;
    }
    Ok(())
}

fn declared_here(there: Option<Thing>, from: Option<Source>) -> bool
    ensures { result ≡ spec.declared_here there «from» }
{
    there.is_some() && from.is_none()
}

/// A name that a definition exports: where the definition doesn't declare it, that is fault 20.
#[tactic(auto, unfolding(crate::specs::Imports::export_step, lil_report::specs::Told::tell))]
fn export(taken: &Sources, env: &Env, report: &mut Report, at: &Ident)
    ensures { Said (spec.export_step taken.now env.now at.now) report.old env.now report.new }
{
    let there = find_in(&env.scopes, env.scopes.inner, &at.name);
    let from = taken.find(&at.name);
    report.note(!declared_here(there, from), at.place, FaultKind::Unknown);
}

fn export_names(taken: &Sources, env: &Env, report: &mut Report, names: &[Ident])
    ensures { Said (walk (spec.export_step taken.now) env.now names.now) report.old env.now report.new }
{
    for at in names {
        export(taken, env, report, at);
    }
}

/// The names that a definition exports, where it says which.
pub fn exports(taken: &Sources, env: &Env, report: &mut Report, names: &Option<Items<Ident>>)
    ensures { Said (spec.exports_mean taken.now env.now names.now) report.old env.now report.new }
{
    match names {
        None => {}
        Some(names) => export_names(taken, env, report, names.as_slice()),
    }
}
