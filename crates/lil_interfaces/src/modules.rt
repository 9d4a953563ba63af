//! The modules that a unit imports, and what their interfaces bring.

ghost use Rattle.std.specs.Prelude.{◌≡◌, ◌++◌, length, map, IfOk};
ghost use Rattle.std.specs.Option.{option_copied};
ghost use Rattle.lil_interfaces.specs.Imports as spec;
ghost use Rattle.lil_interfaces.specs.Entering as entering;

use crate::entering::{add_origins, add_rests, add_types, numbers_of, places_of};
use crate::moving::add_names;
use crate::origins::{Enumerations, Origins};
use crate::sources::Sources;
use crate::surface::{Interface, Interfaces, named, same_name};
use lil_base::{Items, Memory, Name, Shared, Text};
use lil_format::Wanted;
use lil_scope::Env;
use std::alloc::Global;

/// A module that is imported, and the block of its names.
#[derive(Drop)]
pub struct Entered {
    pub name: Name,
    pub block: usize,
}

/// What is declared behind the imports so far: the modules, each with its block; where the names come from; the modules on which
/// the unit rests, each once, what it imports with, behind each of those, what that rests on; where the types belong, in their
/// order; and the enumerations whose constants are bound.
#[derive(Drop)]
pub struct Imported {
    pub env: Env,
    pub modules: Items<Entered>,
    pub taken: Sources,
    pub rests: Items<Wanted>,
    pub origins: Origins,
    pub enumerations: Enumerations,
}

fn block_of(modules: &[Entered], name: &Name) -> Option<usize>
    ensures { result ≡ spec.block_of modules.now name.now }
{
    for one in modules {
        if same_name(name, &one.name) {
            return Some(one.block);
        }
    }
    None
}

/// The texts of constants behind those that stand there.
pub(crate) fn add_texts(to: &mut Items<Shared<Text>>, of: &[Shared<Text>]) -> Result<(), Memory>
    ensures { IfOk result (λ u. to.new ≡ to.old ++ of.now) }
{
    for one in of {
        to.push(one.share()?)?;
    }
    Ok(())
}

/// The types, texts and names of an interface, the names in this block.
#[tactic(auto, unfolding(crate::specs::Imports::filled_by))]
fn fill_by(alloc: Global, block: usize, so_far: &mut Imported, of: &Interface) -> Result<(), Memory>
    ensures { IfOk result (λ u. so_far.new ≡ spec.filled_by block so_far.old of.now) }
{
    add_rests(alloc, &mut so_far.rests, of)?;
    let places = places_of(alloc, so_far.rests.as_slice(), of)?;
    let types = of.types.as_slice();
    add_origins(places.as_slice(), &mut so_far.origins, types)?;
    let numbers = numbers_of(alloc, places.as_slice(), &so_far.origins, types)?;
    add_types(
        alloc,
        places.as_slice(),
        &so_far.origins,
        numbers.as_slice(),
        &mut so_far.env.types,
        types,
    )?;
    let start = so_far.env.texts.len();
    let names = of.names.as_slice();
    let blocks = &mut so_far.env.scopes.blocks;
    add_names(alloc, numbers.as_slice(), start, block, blocks, names)?;
    add_texts(&mut so_far.env.texts, of.texts.as_slice())
}

fn fill(
    alloc: Global,
    block: usize,
    so_far: &mut Imported,
    of: Option<&Interface>,
) -> Result<(), Memory>
    ensures { IfOk result (λ u. so_far.new ≡ spec.filled block so_far.old (option_copied of.entry)) }
{
    match of {
        None => Ok(()),
        Some(of) => fill_by(alloc, block, so_far, of),
    }
}

/// A module that isn't imported before: its block has the next number.
fn open_module(
    alloc: Global,
    interfaces: &Interfaces,
    so_far: &mut Imported,
    name: &Name,
) -> Result<usize, Memory>
    ensures state { IfOk result (λ b. so_far.new ≡ spec.opened interfaces.now so_far.old name.now) }
    ensures block { IfOk result (λ b. b ≡ length so_far.old.env.scopes.blocks) }
{
    let block = so_far.env.scopes.blocks.begin(alloc)?;
    let interface = named(interfaces.as_slice(), name);
    fill(alloc, block, so_far, interface)?;
    let name = name.copy(alloc)?;
    so_far.modules.push(Entered { name, block })?;
    Ok(block)
}

/// The block of a module's names.
#[tactic(auto, unfolding(crate::specs::Imports::entered))]
pub(crate) fn enter(
    alloc: Global,
    interfaces: &Interfaces,
    so_far: &mut Imported,
    name: &Name,
) -> Result<usize, Memory>
    ensures { IfOk result (λ b. (so_far.new, b) ≡ spec.entered interfaces.now so_far.old name.now) }
{
    match block_of(so_far.modules.as_slice(), name) {
        Some(block) => Ok(block),
        None => open_module(alloc, interfaces, so_far, name),
    }
}
