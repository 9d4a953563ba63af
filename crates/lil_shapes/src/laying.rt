ghost use Rattle.std.specs.Prelude.{◌≡◌, map, IfOk, MatchOption, None, Some};
ghost use Rattle.lil_shapes.specs.Measured.{shapes_in, words_held, IsShaped, IsLaidFrom, IsLaid};
ghost use Rattle.lil_shapes.specs.Shaping as spec;

use crate::shapes::{Shaped, size_at};
use lil_base::{Items, Memory};
use lil_declared::{Mode, RVar};
use lil_resolved::{RDeclared, ROpening, RPassing};
use std::alloc::Global;

/// Variables one behind another, and how many words they take.
#[derive(Drop)]
pub struct Laid {
    pub variables: Items<RDeclared>,
    pub words: u16,
}

/// How a variable holds what it means.
pub(crate) fn passing_of(mode: Mode) -> RPassing
    ensures { result ≡ spec.passing_of mode }
{
    match mode {
        Mode::Plain | Mode::Value => RPassing::ByValue,
        Mode::Place => RPassing::ByPlace,
        Mode::OpenValue => RPassing::Open(ROpening::Copied),
        Mode::OpenPlace => RPassing::Open(ROpening::Lent),
    }
}

/// The words of a variable: those that lie in it, one for an address, or two for an open array.
fn words_held(passing: RPassing, size: u16) -> u16
    ensures { result ≡ words_held passing size }
{
    match passing {
        RPassing::ByValue => size,
        RPassing::ByPlace => 1,
        RPassing::Open(_) => 2,
    }
}

/// Variables from a word on, as far as words are counted. None where nothing lies in one.
fn lay_from(alloc: Global, types: &Shaped, of: &[RVar], first: u16) -> Result<Option<Laid>, Memory>
    requires { IsShaped types.now }
    ensures { IfOk result (λ o. MatchOption o (spec.all_some (map (spec.lying (shapes_in types.now)) of.now) ≡ None) (IsLaidFrom first types.now of.now)) }
{
    let mut variables = Items::new(alloc);
    let mut words: u16 = 0;
    for one in of {
        let passing = passing_of(one.mode);
        let Some(size) = size_at(types, one.sort) else {
            return Ok(None);
        };
        let name = one.name.copy(alloc)?;
        variables.push(RDeclared {
            name,
            offset: words.saturating_add(first),
            shape: one.sort as usize,
            passing,
        })?;
        words = words.saturating_add(words_held(passing, size));
    }
    Ok(Some(Laid { variables, words }))
}

/// The variables of a module, None where nothing lies in one, or all have more than 32,000 words. Memory where there is no
/// room for them.
pub fn lay(alloc: Global, types: &Shaped, of: &[RVar]) -> Result<Option<Laid>, Memory>
    requires { IsShaped types.now }
    ensures { IfOk result (λ o. MatchOption o (spec.variables_by (Some (shapes_in types.now)) of.now ≡ None) (IsLaid types.now of.now)) }
{
    let Some(laid) = lay_from(alloc, types, of, 0)? else {
        return Ok(None);
    };
    if laid.words > 32_000 {
        drop(laid);
        return Ok(None);
    }
    Ok(Some(laid))
}

/// The variables of a procedure, behind the four words of its frame's mark. None where nothing lies in one. Memory where there
/// is no room for them.
pub fn lay_locals(alloc: Global, types: &Shaped, of: &[RVar]) -> Result<Option<Laid>, Memory>
    requires { IsShaped types.now }
    ensures { IfOk result (λ o. MatchOption o (spec.all_some (map (spec.lying (shapes_in types.now)) of.now) ≡ None) (IsLaidFrom 4 types.now of.now)) }
{
    lay_from(alloc, types, of, 4)
}
