//! What the symbol file of a definition says.

ghost use Rattle.std.specs.{Prelude.{◌≡◌, ◌⊎◌, ◌<◌, ◌≤◌, min, true, false, Err, IfOk}, List.sum_by};
ghost use Rattle.lil_base.specs.declared.fault.SourceFault.{SourceFault as Told};
ghost use Rattle.lil_text.specs.declared.stop.ReadStop.TheVariants as stop;
ghost use Rattle.lil_layout.specs.Data.{variable_words};
ghost use Rattle.lil_check_unit.specs.Units.{ClassesOfNames, HasInterfaces, Speaks, names_worst};
ghost use Rattle.lil_iface.specs.Iface as spec;

use crate::names::names_of;
use crate::types::types_of;
use lil_base::{FaultKind, Key, Memory, SourceFault};
use lil_check_unit::{Declared, check_names};
use lil_interfaces::{Interfaces, copied_rests};
use lil_language::Unit;
use lil_layout::variables_words;
use lil_symfile::{SymbolFile, has_spelling};
use lil_text::ReadStop;
use std::alloc::Global;

/// What the symbol file says of what a definition declares.
fn symbols_by(alloc: Global, u: &Unit, of: &Declared, key: Key) -> Result<SymbolFile, Memory>
    ensures { IfOk result (λ s. s ≡ spec.symbols_by u.now key.0 of.now.rests of.now.env of.now.imported) }
{
    let name = u.head.name.name.copy(alloc)?;
    let rests = copied_rests(alloc, of.rests.as_slice())?;
    let types = types_of(alloc, &of.env.types)?;
    let names = names_of(alloc, of, &u.head.exports)?;
    Ok(SymbolFile {
        name,
        key,
        rests,
        types,
        names,
    })
}

/// Fault 61 at the unit's name.
fn too_long(u: &Unit) -> ReadStop
    ensures { result ≡ stop.Fault (spec.too_long u.now) }
{
    ReadStop::Fault(SourceFault::at(FaultKind::DataTooLong, u.head.name.place))
}

/// The symbol file, where it is spelled, as is told here, and the variables have at most 32,000 words; else fault 61.
fn settled(u: &Unit, of: &Declared, file: SymbolFile, spelled: bool) -> Result<SymbolFile, ReadStop>
    ensures right { IfOk result (λ s. (s ≡ file) × (spelled ≡ true) × (min (sum_by (variable_words of.now.env.types) of.now.env.variables) 4294967295 ≤ 32000)) }
    ensures wrong { (f : Told) → result ≡ Err (stop.Fault f) → (f ≡ spec.too_long u.now) × ((spelled ≡ false) ⊎ ((spelled ≡ true) × (32000 < min (sum_by (variable_words of.now.env.types) of.now.env.variables) 4294967295))) }
{
    if !spelled {
        return Err(too_long(u));
    }
    if variables_words(&of.env.types, of.env.variables.as_slice()) > 32000 {
        return Err(too_long(u));
    }
    Ok(file)
}

/// What the symbol file of a definition says under a key, or the definition's fault: that of names and declarations, as
/// `check_names` tells it, else 61 at the unit's name where a symbol file has no room for its counts, else 61 there where its
/// variables have more than 32,000 words. The file has the modules on which the definition rests, each once: those
/// that it imports and, behind each of them, those on which that rests; all types; and the names that it declares itself, in the
/// order of their places, with whether it exports them. What an opaque type is in its implementation isn't told. A variable lies
/// behind those before it, and procedures are numbered from 1 (Programming in Modula-2, Definition and implementation parts). Each
/// module that is imported has an interface.
pub fn interface_of(
    alloc: Global,
    u: &Unit,
    interfaces: &Interfaces,
    key: Key,
) -> Result<SymbolFile, ReadStop>
    requires { HasInterfaces interfaces.now u.now }
    ensures right { IfOk result (λ s. spec.IsInterface u.now interfaces.now key.0 s) }
    ensures wrong { (f : Told) → result ≡ Err (stop.Fault f) → spec.HasInterfaceFault u.now interfaces.now key.0 f }
    ensures least { Speaks (ClassesOfNames u.now interfaces.now) (names_worst u.now interfaces.now) }
{
    let declared = check_names(alloc, u, interfaces)?;
    let file = symbols_by(alloc, u, &declared, key)?;
    let spelled = has_spelling(alloc, &file)?;
    settled(u, &declared, file, spelled)
}
