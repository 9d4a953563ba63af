//! The names that a definition declares, as its symbol file has them.

ghost use Rattle.std.specs.Prelude.{◌≡◌, ◌++◌, IfOk, map, drop};
ghost use Rattle.std.specs.List.{flat_map};
ghost use Rattle.lil_iface.specs.Iface as spec;
ghost use Rattle.lil_iface.specs.Listed.{name_in};

use crate::classes::{class_of, offsets};
use crate::exports::{Listed, is_shown, names_listed};
use lil_base::{Items, Memory};
use lil_check_unit::Declared;
use lil_scope::{Bound, Env};
use lil_symfile::SymName;
use lil_text::Ident;
use std::alloc::Global;

/// Names in the order of their places.
fn by_place<'a>(alloc: Global, of: &'a [Bound]) -> Result<Vec<&'a Bound>, Memory>
    ensures { IfOk result (λ bs. map (λ b. b.now) bs.items ≡ spec.by_place of.now) }
{
    let mut order = Vec::new(alloc);
    for one in of {
        order.push(one)?;
    }
    order.sort_by_key(|one| one.entry.place.offset)?;
    Ok(order)
}

/// The names behind the first so many.
#[tactic(auto, using(std::proofs::lemmas::List::drop_min))]
fn behind(of: &[Bound], first: usize) -> &[Bound]
    ensures { result.now ≡ drop first of.now }
{
    let first = first.min(of.len());
    &of[first..]
}

/// A name more, where it may stand in a symbol file.
fn add_name(
    alloc: Global,
    env: &Env,
    offsets: &Items<u32>,
    exports: &Option<Listed>,
    all: &mut Items<SymName>,
    of: &Bound,
) -> Result<(), Memory>
    ensures { IfOk result (λ o. all.new ≡ all.old ++ name_in env.now offsets.now exports.now of.now) }
{
    let Some(class) = class_of(alloc, env, offsets, of.entry.thing)? else {
        return Ok(());
    };
    let shown = is_shown(exports, &of.name);
    let name = of.name.copy(alloc)?;
    all.push(SymName { shown, name, class })
}

fn all_names(
    alloc: Global,
    env: &Env,
    offsets: &Items<u32>,
    exports: &Option<Listed>,
    of: &[&Bound],
) -> Result<Items<SymName>, Memory>
    ensures { IfOk result (λ ns. ns ≡ flat_map (name_in env.now offsets.now exports.now) (map (λ b. b.now) of.now)) }
{
    let mut all = Items::new(alloc);
    for one in of {
        add_name(alloc, env, offsets, exports, &mut all, one)?;
    }
    Ok(all)
}

/// The names that a definition declares, in the order of their places, and whether it exports them.
pub(crate) fn names_of(
    alloc: Global,
    of: &Declared,
    exports: &Option<Items<Ident>>,
) -> Result<Items<SymName>, Memory>
    ensures { IfOk result (λ ns. ns ≡ flat_map (spec.name_of of.now.env (spec.offsets of.now.env) exports.now) (spec.own_names of.now.imported of.now.env)) }
{
    let env = &of.env;
    let offsets = offsets(alloc, &env.types, env.variables.as_slice())?;
    let exports = names_listed(alloc, exports)?;
    let bound = env.scopes.blocks.all(alloc, env.scopes.inner)?;
    let own = by_place(alloc, behind(bound.as_slice(), of.imported))?;
    all_names(alloc, env, &offsets, &exports, own.as_slice())
}
