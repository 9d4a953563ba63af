ghost use Rattle.std.specs.Prelude.{◌≡◌, Some};
ghost use Rattle.lil_shapes.specs.Bases as spec;

use crate::bases::kind_at;
use crate::composites::{ArrayParts, array_at};
use crate::shapes::numbers;
use lil_types::{TypeId, TypeTable};

fn elements_in(t: &TypeTable, parts: ArrayParts) -> Option<u32>
    ensures { result ≡ spec.elements_in t.now (Some parts) }
{
    match kind_at(t, parts.index) {
        None => None,
        Some(kind) => Some(numbers(kind)),
    }
}

/// How many elements an array of a type has, None for a type of anything else.
pub fn elements_at(t: &TypeTable, sort: TypeId) -> Option<u32>
    ensures { result ≡ spec.elements_at t.now sort }
{
    match array_at(t, sort) {
        None => None,
        Some(parts) => elements_in(t, parts),
    }
}
