//! What a volume has of a module's symbol file.

ghost use Rattle.std.specs.Prelude.{◌≡◌, IfOk};
ghost use Rattle.lil_imports.specs.Stored as spec;

use lil_base::{Bytes, FormatStop, Memory, Name};
use lil_iface::interface_in;
use lil_interfaces::{Interface, same_name};
use lil_symfile::read_sym;
use std::alloc::Global;

/// What a volume has under the name of a module's symbol file: nothing, what isn't the symbol file of this module, or what that tells.
#[derive(Drop)]
pub enum Stored {
    Missing,
    Damaged,
    There(Interface),
}

fn of_module(name: &Name, of: Interface) -> Stored
    ensures { result ≡ spec.of_module name.now of }
{
    if same_name(name, &of.name) {
        Stored::There(of)
    } else {
        drop(of);
        Stored::Damaged
    }
}

/// What was found under the name of a module's symbol file.
pub(crate) fn stored_under(
    alloc: Global,
    name: &Name,
    found: &Option<Bytes>,
) -> Result<Stored, Memory>
    ensures { IfOk result (λ s. s ≡ spec.stored name.now found.now) }
{
    let Some(bytes) = found else {
        return Ok(Stored::Missing);
    };
    match read_sym(alloc, bytes) {
        Ok(file) => Ok(of_module(name, interface_in(alloc, &file)?)),
        Err(FormatStop::Fault { offset: _ }) => Ok(Stored::Damaged),
        Err(FormatStop::Memory) => Err(Memory),
    }
}
