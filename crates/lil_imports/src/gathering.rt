//! The interfaces of the modules that a unit imports.

ghost use Rattle.std.specs.Prelude.{◌≡◌, ◌∷◌, [], map, IfOk};
ghost use Rattle.lil_imports.specs.Gathering as spec;
ghost use Rattle.lil_imports.specs.Ran.{GatheringRan};

use crate::faults::import_fault;
use crate::stop::ImportStop;
use crate::stored::{Stored, stored_under};
use lil_base::{FileKind, Items, Memory, Name};
use lil_format::Wanted;
use lil_interfaces::{Interfaces, add_rests, all_resident, named};
use lil_language::{Import, Unit};
use lil_text::Ident;
use lil_volume::Volume;
use std::alloc::Global;
use std::slice;

/// What is gathered of imports: the interfaces, those of the resident modules first, and the modules that were met, each with the key
/// with which it was met first.
#[derive(Drop)]
pub struct Gathered {
    pub interfaces: Interfaces,
    pub met: Items<Wanted>,
}

fn nothing_gathered(alloc: Global) -> Result<Gathered, Memory>
    ensures { IfOk result (λ g. g ≡ spec.nothing_gathered) }
{
    Ok(Gathered {
        interfaces: all_resident(alloc)?,
        met: Items::new(alloc),
    })
}

/// The modules of one import.
fn modules_by(of: &Import) -> &[Ident]
    ensures { result.now ≡ spec.modules_by of.now.from of.now.names }
{
    match &of.from {
        Some(owner) => slice::from_ref(owner),
        None => of.names.as_slice(),
    }
}

/// The modules that a unit imports, in the order of the text.
fn modules_of<'a>(alloc: Global, of: &'a [Import]) -> Result<Vec<&'a Ident>, Memory>
    ensures { IfOk result (λ is. map (λ i. i.now) is.items ≡ spec.modules_of of.now) }
{
    let mut all = Vec::new(alloc);
    for one in of {
        for name in modules_by(one) {
            all.push(name)?;
        }
    }
    Ok(all)
}

fn is_known(of: &Gathered, name: &Name) -> bool
    ensures { result ≡ spec.is_known of.now name.now }
{
    named(of.interfaces.as_slice(), name).is_some()
}

/// A module more, whose symbol file is there.
fn and_stored(alloc: Global, of: Gathered, found: Stored) -> Result<Gathered, Memory>
    ensures { IfOk result (λ g. g ≡ spec.and_stored of found) }
{
    match found {
        Stored::Missing | Stored::Damaged => Ok(of),
        Stored::There(interface) => {
            let Gathered { interfaces, met } = of;
            let mut met = met;
            add_rests(alloc, &mut met, &interface)?;
            let mut interfaces = interfaces;
            interfaces.push(interface)?;
            Ok(Gathered { interfaces, met })
        }
    }
}

/// One import more.
fn gather_one<V: Volume>(
    alloc: Global,
    volume: &mut V,
    u: &Unit,
    of: Gathered,
    at: &Ident,
) -> Result<Gathered, ImportStop>
    ensures { GatheringRan u.now of (at.now ∷ []) (V.files volume.old) (V.faults volume.old) (V.files volume.new) (V.faults volume.new) result }
{
    if is_known(&of, &at.name) {
        return Ok(of);
    }
    let file = at.name.file(alloc, FileKind::Symbols)?;
    let bytes = volume.read(alloc, &file)?;
    let found = stored_under(alloc, &at.name, &bytes)?;
    if let Some(fault) = import_fault(alloc, u, &of, at, &found)? {
        return Err(ImportStop::Source(fault));
    }
    let more = and_stored(alloc, of, found)?;
    Ok(more)
}

/// All of these imports.
fn gather_all<V: Volume>(
    alloc: Global,
    volume: &mut V,
    u: &Unit,
    of: Gathered,
    modules: &[&Ident],
) -> Result<Gathered, ImportStop>
    ensures { GatheringRan u.now of (map (λ i. i.now) modules.now) (V.files volume.old) (V.faults volume.old) (V.files volume.new) (V.faults volume.new) result }
{
    let mut all = of;
    for at in modules {
        all = gather_one(alloc, volume, u, all, at)?;
    }
    Ok(all)
}

/// The interfaces of the modules that a unit imports, behind those of the resident ones: each is read once from its symbol file, in
/// the order of the imports, up to the first import that has a fault. Of that the fault of the least number is answered: a 61st module
/// that isn't resident (63), no symbol file (70), a module that was met with another key (71), the unit itself or a module that rests on
/// it (72), a file that isn't the module's symbol file (78). No file changes.
pub fn gather<V: Volume>(alloc: Global, volume: &mut V, u: &Unit) -> Result<Gathered, ImportStop>
    ensures { GatheringRan u.now spec.nothing_gathered (spec.modules_of u.now.head.imports) (V.files volume.old) (V.faults volume.old) (V.files volume.new) (V.faults volume.new) result }
{
    let nothing = nothing_gathered(alloc)?;
    let modules = modules_of(alloc, u.head.imports.as_slice())?;
    gather_all(alloc, volume, u, nothing, modules.as_slice())
}
