ghost use Rattle.std.specs.Prelude.{◌≡◌};
ghost use Rattle.lil_scope.specs.Names as spec;

use crate::env::Env;
use crate::thing::{Entry, ExternalProcedure, Thing};
use lil_base::{Name, Place};
use lil_text::Ident;
use lil_types::{TypeId, TypeTable, is_untold_type};

fn is_in_no_text(place: Place) -> bool
    ensures { result ≡ spec.is_in_no_text place }
{
    place.offset == 0
}

fn procedure_awaited(entry: Option<Entry>) -> Option<ExternalProcedure>
    ensures { result ≡ spec.procedure_awaited entry }
{
    let entry = entry?;
    match entry.thing {
        Thing::ExternalProcedure(procedure) if is_in_no_text(entry.place) => Some(procedure),
        _ => None,
    }
}

fn type_awaited(types: &TypeTable, entry: Option<Entry>) -> Option<TypeId>
    ensures { result ≡ spec.type_awaited types.now entry }
{
    let entry = entry?;
    match entry.thing {
        Thing::Type(number) if is_in_no_text(entry.place) && is_untold_type(types, number) => {
            Some(number)
        }
        _ => None,
    }
}

fn entry_here(env: &Env, name: &Name) -> Option<Entry>
    ensures { result ≡ spec.entry_here env.now name.now }
{
    env.scopes.blocks.entry(env.scopes.inner, name)
}

/// The procedure of a unit's own definition that the unit hasn't declared again, where the name stands for one in the block at
/// hand.
#[tactic(auto, unfolding(crate::specs::Names::awaited_procedure))]
pub fn awaited_procedure(env: &Env, name: &Name) -> Option<ExternalProcedure>
    ensures { result ≡ spec.awaited_procedure env.now name.now }
{
    procedure_awaited(entry_here(env, name))
}

/// The opaque type of a unit's own definition that the unit hasn't declared again, where the name stands for one in the block at
/// hand.
#[tactic(auto, unfolding(crate::specs::Names::awaited_type))]
pub fn awaited_type(env: &Env, name: &Name) -> Option<TypeId>
    ensures { result ≡ spec.awaited_type env.now name.now }
{
    type_awaited(&env.types, entry_here(env, name))
}

/// A name that stands in the block at hand stands for another thing from now on.
pub fn rebind(env: &mut Env, name: &Ident, thing: Thing)
    ensures { env.new ≡ spec.rebind env.old name.now thing }
{
    let entry = Entry {
        thing,
        place: name.place,
    };
    let inner = env.scopes.inner;
    env.scopes.blocks.replace(inner, &name.name, entry);
}
