//! Keys that are met.

ghost use Rattle.std.specs.Prelude.{◌≡◌, ◌∷◌, [], Option, IfOk};
ghost use Rattle.lil_imports.specs.Meeting as spec;
ghost use Rattle.lil_imports.specs.Stored.{wanted_in};

use crate::stored::Stored;
use lil_base::{Items, Key, Memory, Name, Place, SourceFault};
use lil_format::Wanted;
use lil_interfaces::{add_rest, copied_rests, copied_wanted, same_name, with_itself};
use std::alloc::Global;

/// The key with which a module was met first.
fn key_in(met: &[Wanted], name: &Name) -> Option<Key>
    ensures { spec.number_of result ≡ spec.key_in met.now name.now }
{
    for one in met {
        if same_name(name, &one.name) {
            return Some(one.key);
        }
    }
    None
}

/// Fault 71, where a module was met with another key.
fn conflict_with(
    alloc: Global,
    place: Place,
    met: &[Wanted],
    of: &Wanted,
) -> Result<Option<SourceFault>, Memory>
    ensures { IfOk result (λ f. f ≡ spec.conflict_by place of.now.name (spec.key_in met.now of.now.name) of.now.key.0) }
{
    match key_in(met, &of.name) {
        None => Ok(None),
        Some(first) => {
            if first.0 == of.key.0 {
                return Ok(None);
            }
            let name = of.name.copy(alloc)?;
            Ok(Some(SourceFault::key_conflict(place, name, first, of.key)))
        }
    }
}

fn conflict_in(
    alloc: Global,
    place: Place,
    met: &[Wanted],
    of: &[Wanted],
) -> Result<Option<SourceFault>, Memory>
    ensures { IfOk result (λ f. f ≡ spec.conflict place met.now of.now) }
{
    let mut all = copied_rests(alloc, met)?;
    for one in of {
        if let Some(fault) = conflict_with(alloc, place, all.as_slice(), one)? {
            return Ok(Some(fault));
        }
        add_rest(&mut all, copied_wanted(alloc, one)?)?;
    }
    Ok(None)
}

/// Fault 71, where a module, or one on which it rests, was met with another key.
pub(crate) fn conflict(
    alloc: Global,
    place: Place,
    met: &[Wanted],
    stored: &Stored,
) -> Result<Option<SourceFault>, Memory>
    ensures { IfOk result (λ f. f ≡ spec.conflict place met.now (wanted_in stored.now)) }
{
    match stored {
        Stored::Missing | Stored::Damaged => Ok(None),
        Stored::There(of) => {
            let wanted = with_itself(alloc, of)?;
            conflict_in(alloc, place, met, wanted.as_slice())
        }
    }
}
