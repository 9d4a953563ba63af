//! What a unit begins with: an implementation module with the names of its own definition, any other with nothing.

ghost use Rattle.std.specs.Prelude.{◌≡◌, ◌∷◌, ◌++◌, [], IfOk};
ghost use Rattle.std.specs.Option.{option_copied};
ghost use Rattle.lil_interfaces.specs.Own as spec;
ghost use Rattle.lil_interfaces.specs.Imports.{nothing_imported};
ghost use Rattle.lil_interfaces.specs.Entering.{with_types};

use crate::entering::{add_all, add_origins, add_types, numbers_of, places_from};
use crate::modules::{Imported, add_texts};
use crate::moving::moved_thing;
use crate::origins::{Enumerations, Origins};
use crate::sources::Sources;
use crate::standard::{known, start};
use crate::surface::{Exported, Interface};
use lil_base::{Items, Memory, Name};
use lil_declared::{Mode, RVar};
use lil_format::Wanted;
use lil_scope::{Env, Thing, Variable};
use lil_types::{TypeEntry, TypeId, TypeTable};
use std::alloc::Global;

/// Nothing is imported yet.
fn nothing_imported(alloc: Global) -> Result<Imported, Memory>
    ensures { IfOk result (λ s. s ≡ nothing_imported) }
{
    Ok(Imported {
        env: start(alloc)?,
        modules: Items::new(alloc),
        taken: Sources::new(alloc),
        rests: Items::new(alloc),
        origins: Origins::new(alloc),
        enumerations: Enumerations::new(alloc),
    })
}

fn own_rests(alloc: Global, of: &Interface) -> Result<Items<Wanted>, Memory>
    ensures { IfOk result (λ ws. ws ≡ spec.own_rests of.now) }
{
    let mut rests = Items::new(alloc);
    add_all(alloc, &mut rests, of.rests.as_slice())?;
    Ok(rests)
}

/// A variable of the definition is the unit's own, with this number.
fn own_thing(number: usize, of: Thing) -> Thing
    ensures { result ≡ spec.own_thing number of }
{
    match of {
        Thing::ExternalVariable(variable) => Thing::Variable(Variable {
            number,
            level: 1,
            sort: variable.sort,
            mode: Mode::Plain,
        }),
        _ => of,
    }
}

fn add_variable(
    alloc: Global,
    variables: &mut Items<RVar>,
    name: &Name,
    of: Thing,
) -> Result<(), Memory>
    ensures { IfOk result (λ u. variables.new ≡ variables.old ++ spec.own_variables name.now of) }
{
    match of {
        Thing::ExternalVariable(variable) => variables.push(RVar {
            name: name.copy(alloc)?,
            sort: variable.sort,
            mode: Mode::Plain,
        }),
        _ => Ok(()),
    }
}

/// A name of the definition in the unit's block.
#[tactic(auto, unfolding(crate::specs::Own::named_own))]
fn add_named(alloc: Global, env: &mut Env, name: &Name, of: Thing) -> Result<(), Memory>
    ensures { IfOk result (λ u. env.new ≡ spec.named_own name.now of env.old) }
{
    let own = own_thing(env.variables.len(), of);
    env.scopes.blocks.declare(alloc, 1, name, known(own))?;
    add_variable(alloc, &mut env.variables, name, of)
}

fn add_own_name(
    alloc: Global,
    numbers: &[TypeId],
    env: &mut Env,
    of: &Exported,
) -> Result<(), Memory>
    ensures { IfOk result (λ u. env.new ≡ spec.with_own_name numbers.now env.old of.now) }
{
    let thing = moved_thing(numbers, 0, 1, of.what);
    add_named(alloc, env, &of.name, thing)
}

/// All names of the definition in the unit's block.
fn add_own_names(
    alloc: Global,
    numbers: &[TypeId],
    env: &mut Env,
    of: &[Exported],
) -> Result<(), Memory>
    ensures { IfOk result (λ u. env.new ≡ spec.with_own_names numbers.now env.old of.now) }
{
    for one in of {
        add_own_name(alloc, numbers, env, one)?;
    }
    Ok(())
}

fn is_procedure(of: &Exported) -> bool
    ensures { result ≡ spec.is_procedure of.now.what }
{
    matches!(of.what, Thing::ExternalProcedure(_))
}

/// How many of these names are procedures.
fn procedures_in(of: &[Exported]) -> usize
    ensures { result ≡ spec.procedures_in of.now }
{
    of.iter().filter(|one| is_procedure(one)).count()
}

fn own_types(
    alloc: Global,
    places: &[usize],
    origins: &Origins,
    numbers: &[TypeId],
    of: &[TypeEntry],
) -> Result<TypeTable, Memory>
    ensures { IfOk result (λ t. t ≡ with_types places.now origins.now numbers.now [] of.now) }
{
    let mut types = TypeTable::new(alloc);
    add_types(alloc, places, origins, numbers, &mut types, of)?;
    Ok(types)
}

/// What an implementation module begins with, but for its names.
#[tactic(auto, unfolding(crate::specs::Standard::start))]
fn unnamed(alloc: Global, types: TypeTable, of: &Interface) -> Result<Env, Memory>
    ensures { IfOk result (λ e. e ≡ spec.unnamed types of.now) }
{
    let mut env = start(alloc)?;
    env.types = types;
    env.awaited = procedures_in(of.names.as_slice());
    add_texts(&mut env.texts, of.texts.as_slice())?;
    Ok(env)
}

/// What an implementation module begins with.
fn implementing(alloc: Global, of: &Interface) -> Result<Imported, Memory>
    ensures { IfOk result (λ s. s ≡ spec.implementing of.now) }
{
    let rests = own_rests(alloc, of)?;
    let places = places_from(alloc, 0, rests.as_slice(), of.rests.as_slice())?;
    let types = of.types.as_slice();
    let mut origins = Origins::new(alloc);
    add_origins(places.as_slice(), &mut origins, types)?;
    let numbers = numbers_of(alloc, places.as_slice(), &origins, types)?;
    let numbers = numbers.as_slice();
    let table = own_types(alloc, places.as_slice(), &origins, numbers, types)?;
    let mut so_far = nothing_imported(alloc)?;
    so_far.env = unnamed(alloc, table, of)?;
    let names = of.names.as_slice();
    add_own_names(alloc, numbers, &mut so_far.env, names)?;
    so_far.rests = rests;
    so_far.origins = origins;
    Ok(so_far)
}

/// What a unit begins with, before its first import: an implementation module with its own definition.
pub fn begin(alloc: Global, own: Option<&Interface>) -> Result<Imported, Memory>
    ensures { IfOk result (λ s. s ≡ spec.beginning (option_copied own.entry)) }
{
    match own {
        None => nothing_imported(alloc),
        Some(of) => implementing(alloc, of),
    }
}
