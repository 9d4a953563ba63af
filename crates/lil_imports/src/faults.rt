//! The faults of an import.

ghost use Rattle.std.specs.Prelude.{◌≡◌, IfOk};
ghost use Rattle.lil_interfaces.specs.Entering.{has_rest, with_itself};
ghost use Rattle.lil_imports.specs.Gathering as spec;

use crate::gathering::Gathered;
use crate::meeting::conflict;
use crate::stored::Stored;
use lil_base::{FaultKind, Memory, Name, SourceFault};
use lil_interfaces::{Interface, has_rest, same_name};
use lil_language::Unit;
use lil_text::Ident;
use std::alloc::Global;

fn too_many(of: &Gathered, at: &Ident) -> Option<SourceFault>
    ensures { result ≡ spec.too_many of.now at.now }
{
    if of.interfaces.len() >= 67 {
        Some(SourceFault::at(FaultKind::TooManyImports, at.place))
    } else {
        None
    }
}

fn absent(at: &Ident, stored: &Stored) -> Option<SourceFault>
    ensures { result ≡ spec.absent at.now stored.now }
{
    match stored {
        Stored::Missing => Some(SourceFault::at(FaultKind::NoSymbol, at.place)),
        Stored::Damaged | Stored::There(_) => None,
    }
}

/// Whether a module has this name, or rests on one that has it.
fn rests_on(of: &Interface, name: &Name) -> bool
    ensures { result ≡ has_rest (with_itself of.now) name.now }
{
    same_name(name, &of.name) || has_rest(of.rests.as_slice(), name)
}

fn is_own(u: &Unit, at: &Ident, stored: &Stored) -> bool
    ensures { result ≡ spec.is_own u.now at.now stored.now }
{
    let name = &u.head.name.name;
    let itself = same_name(&at.name, name);
    match stored {
        Stored::Missing | Stored::Damaged => itself,
        Stored::There(of) => itself || rests_on(of, name),
    }
}

fn own(u: &Unit, at: &Ident, stored: &Stored) -> Option<SourceFault>
    ensures { result ≡ spec.own u.now at.now stored.now }
{
    if is_own(u, at, stored) {
        Some(SourceFault::at(FaultKind::SelfImport, at.place))
    } else {
        None
    }
}

fn damaged(alloc: Global, at: &Ident, stored: &Stored) -> Result<Option<SourceFault>, Memory>
    ensures { IfOk result (λ f. f ≡ spec.damaged at.now stored.now) }
{
    match stored {
        Stored::Missing | Stored::There(_) => Ok(None),
        Stored::Damaged => {
            let name = at.name.copy(alloc)?;
            Ok(Some(SourceFault::about(FaultKind::SymDamaged, at.place, name)))
        }
    }
}

/// The fault of an import, the one of the least number.
pub(crate) fn import_fault(
    alloc: Global,
    u: &Unit,
    of: &Gathered,
    at: &Ident,
    stored: &Stored,
) -> Result<Option<SourceFault>, Memory>
    ensures { IfOk result (λ f. f ≡ spec.import_fault u.now of.now at.now stored.now) }
{
    if let Some(fault) = too_many(of, at) {
        return Ok(Some(fault));
    }
    if let Some(fault) = absent(at, stored) {
        return Ok(Some(fault));
    }
    if let Some(fault) = conflict(alloc, at.place, of.met.as_slice(), stored)? {
        return Ok(Some(fault));
    }
    if let Some(fault) = own(u, at, stored) {
        return Ok(Some(fault));
    }
    damaged(alloc, at, stored)
}
