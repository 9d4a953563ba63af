//! The modules on which a unit rests, and the types of an interface by where they belong.

ghost use Rattle.std.specs.Prelude.{◌≡◌, ◌+◌, ◌∷◌, IfOk, map, slice_get};
ghost use Rattle.std.specs.Option.{option_copied};
ghost use Rattle.lil_types.specs.Adding.{next};
ghost use Rattle.lil_interfaces.specs.Entering as spec;
ghost use Rattle.lil_interfaces.specs.Moving.{number_at};

use crate::moving::moved_form;
use crate::origins::Origins;
use crate::surface::{Interface, same_name};
use lil_base::{Items, Memory, Name};
use lil_format::Wanted;
use lil_types::{Origin, TypeEntry, TypeId, TypeTable, append};
use std::alloc::Global;

/// Whether a module is among those of a list.
pub fn has_rest(rests: &[Wanted], name: &Name) -> bool
    ensures { result ≡ spec.has_rest rests.now name.now }
{
    rests.iter().any(|one| same_name(name, &one.name))
}

/// A copy.
pub fn copied_wanted(alloc: Global, of: &Wanted) -> Result<Wanted, Memory>
    ensures { IfOk result (λ w. w ≡ of.now) }
{
    let name = of.name.copy(alloc)?;
    let key = of.key;
    Ok(Wanted { name, key })
}

/// A copy of a list.
pub fn copied_rests(alloc: Global, of: &[Wanted]) -> Result<Items<Wanted>, Memory>
    ensures { IfOk result (λ ws. ws ≡ of.now) }
{
    let mut all = Items::new(alloc);
    for one in of {
        all.push(copied_wanted(alloc, one)?)?;
    }
    Ok(all)
}

/// A module more, if it isn't there.
pub fn add_rest(rests: &mut Items<Wanted>, of: Wanted) -> Result<(), Memory>
    ensures { IfOk result (λ u. rests.new ≡ spec.and_rest rests.old of) }
{
    if has_rest(rests.as_slice(), &of.name) {
        drop(of);
        return Ok(());
    }
    rests.push(of)
}

/// The module of an interface, and those on which it rests.
pub fn with_itself(alloc: Global, of: &Interface) -> Result<Items<Wanted>, Memory>
    ensures { IfOk result (λ ws. ws ≡ spec.with_itself of.now) }
{
    let mut all = Items::new(alloc);
    let name = of.name.copy(alloc)?;
    let key = of.key;
    all.push(Wanted { name, key })?;
    for one in of.rests.as_slice() {
        all.push(copied_wanted(alloc, one)?)?;
    }
    Ok(all)
}

pub(crate) fn add_all(alloc: Global, rests: &mut Items<Wanted>, of: &[Wanted]) -> Result<(), Memory>
    ensures { IfOk result (λ u. rests.new ≡ spec.and_rests rests.old of.now) }
{
    for one in of {
        let one = copied_wanted(alloc, one)?;
        add_rest(rests, one)?;
    }
    Ok(())
}

/// The module of an interface and those on which it rests, each once.
pub fn add_rests(alloc: Global, rests: &mut Items<Wanted>, of: &Interface) -> Result<(), Memory>
    ensures { IfOk result (λ u. rests.new ≡ spec.and_rests rests.old (spec.with_itself of.now)) }
{
    let with = with_itself(alloc, of)?;
    add_all(alloc, rests, with.as_slice())
}

/// The place of a module among those on which a unit rests, from 1.
fn place_of(rests: &[Wanted], name: &Name) -> usize
    ensures { result ≡ spec.place_from 1 rests.now name.now }
{
    let mut place: usize = 1;
    for one in rests {
        if same_name(name, &one.name) {
            return place;
        }
        place += 1;
    }
    place
}

/// A place, and behind it those of modules.
pub(crate) fn places_from(
    alloc: Global,
    first: usize,
    rests: &[Wanted],
    of: &[Wanted],
) -> Result<Items<usize>, Memory>
    ensures { IfOk result (λ ps. ps ≡ first ∷ spec.places rests.now of.now) }
{
    let mut places = Items::new(alloc);
    places.push(first)?;
    for one in of {
        places.push(place_of(rests, &one.name))?;
    }
    Ok(places)
}

/// The places of the module of an interface and of those on which it rests.
pub(crate) fn places_of(
    alloc: Global,
    rests: &[Wanted],
    of: &Interface,
) -> Result<Items<usize>, Memory>
    ensures { IfOk result (λ ps. ps ≡ spec.places rests.now (spec.with_itself of.now)) }
{
    let own = place_of(rests, &of.name);
    places_from(alloc, own, rests, of.rests.as_slice())
}

fn number_at(number: Option<&usize>) -> usize
    ensures { result ≡ number_at (option_copied number.entry) }
{
    match number {
        Some(number) => *number,
        None => 4_294_967_295,
    }
}

fn origin_in(places: &[usize], of: &TypeEntry) -> Origin
    ensures { result ≡ spec.origin_in places.now of.now }
{
    Origin {
        module: number_at(places.get(of.origin.module)),
        number: of.origin.number,
    }
}

/// The origins of an interface's types, each once.
pub(crate) fn add_origins(
    places: &[usize],
    origins: &mut Origins,
    of: &[TypeEntry],
) -> Result<(), Memory>
    ensures { IfOk result (λ u. origins.new ≡ spec.and_origins places.now origins.old of.now) }
{
    for one in of {
        origins.add(origin_in(places, one))?;
    }
    Ok(())
}

/// The numbers that an interface's types have by their origins.
pub(crate) fn numbers_of(
    alloc: Global,
    places: &[usize],
    origins: &Origins,
    of: &[TypeEntry],
) -> Result<Items<TypeId>, Memory>
    ensures { IfOk result (λ ns. ns ≡ spec.numbers_in places.now origins.now of.now) }
{
    let mut numbers = Items::new(alloc);
    for one in of {
        numbers.push(origins.number_of(origin_in(places, one)))?;
    }
    Ok(numbers)
}

fn next_number(t: &TypeTable) -> usize
    ensures { result ≡ next t.now }
{
    t.len() + 16
}

/// A type of an interface at the end of a table, unless it is there.
#[tactic(auto, unfolding(crate::specs::Entering::with_type))]
fn add_type(
    alloc: Global,
    places: &[usize],
    origins: &Origins,
    numbers: &[TypeId],
    to: &mut TypeTable,
    of: &TypeEntry,
) -> Result<(), Memory>
    ensures { IfOk result (λ u. to.new ≡ spec.with_type places.now origins.now numbers.now to.old of.now) }
{
    let origin = origin_in(places, of);
    if origins.number_of(origin) as usize == next_number(to) {
        let form = moved_form(alloc, numbers, &of.form)?;
        append(to, origin, form)?;
    }
    Ok(())
}

/// The types of an interface that aren't there yet, at the end of a table.
pub(crate) fn add_types(
    alloc: Global,
    places: &[usize],
    origins: &Origins,
    numbers: &[TypeId],
    to: &mut TypeTable,
    of: &[TypeEntry],
) -> Result<(), Memory>
    ensures { IfOk result (λ u. to.new ≡ spec.with_types places.now origins.now numbers.now to.old of.now) }
{
    for one in of {
        add_type(alloc, places, origins, numbers, to, one)?;
    }
    Ok(())
}
