ghost use Rattle.std.specs.Prelude.{◌≡◌, length, IfOk};
ghost use Rattle.std.specs.Option.{option_map};
ghost use Rattle.lil_resolved.specs.Views.{kind_view};
ghost use Rattle.lil_shapes.specs.Measured.{shapes_in, IsShaped};
ghost use Rattle.lil_shapes.specs.Pointers as spec;

use crate::bases::kind_at;
use crate::composites::composite_at;
use crate::shapes::Shaped;
use lil_base::{Items, Memory};
use lil_resolved::{RBase, RKind};
use lil_types::{TypeForm, TypeId, TypeTable};
use std::alloc::Global;

/// A pointer type, by its number, and the type to which it points.
#[derive(Clone, Copy)]
pub struct Target {
    pub pointer: usize,
    pub sort: TypeId,
}

fn pointed_in(form: &TypeForm) -> Option<TypeId>
    ensures { result ≡ spec.pointed_in form.now }
{
    match form {
        TypeForm::Pointer(target) => Some(*target),
        _ => None,
    }
}

/// The type to which a pointer type points, None for any other type.
fn pointed(t: &TypeTable, number: usize) -> Option<TypeId>
    ensures { result ≡ spec.pointed t.now number }
{
    if number < 16 {
        return None;
    }
    match t.get(number - 16) {
        None => None,
        Some(entry) => pointed_in(&entry.form),
    }
}

/// Whether something lies in a variable of a type.
fn lies_at(t: &TypeTable, sort: TypeId) -> bool
    ensures { result ≡ spec.lies_at t.now sort }
{
    kind_at(t, sort).is_some() || composite_at(t, sort)
}

fn target_with(t: &TypeTable, pointer: usize) -> Option<Target>
    ensures { result ≡ spec.target_with t.now pointer (spec.pointed t.now pointer) }
{
    match pointed(t, pointer) {
        Some(sort) if lies_at(t, sort) => Some(Target { pointer, sort }),
        _ => None,
    }
}

/// The pointer type of a kind, and the type to which it points. None where the kind isn't one of pointers, and where
/// nothing lies in variables of the other type.
pub fn target_of(t: &TypeTable, kind: RKind) -> Option<Target>
    ensures { result ≡ spec.target_of t.now (kind_view kind) }
{
    match kind.range {
        Some(_) => None,
        None => match kind.base {
            RBase::Pointer(pointer) => target_with(t, pointer),
            _ => None,
        },
    }
}

/// The same, by the type of a place.
pub fn target_at(t: &TypeTable, sort: TypeId) -> Option<Target>
    ensures { result ≡ spec.target_at t.now sort }
{
    match kind_at(t, sort) {
        None => None,
        Some(kind) => target_of(t, kind),
    }
}

/// The type to which a pointer type points, None as above.
pub fn target_sort(t: &TypeTable, sort: TypeId) -> Option<TypeId>
    ensures { result ≡ option_map spec.target_sort (spec.target_at t.now sort) }
{
    match target_at(t, sort) {
        None => None,
        Some(target) => Some(target.sort),
    }
}

fn target_number(t: &TypeTable, number: usize) -> usize
    ensures { result ≡ spec.number_or number (spec.pointed t.now number) }
{
    match pointed(t, number) {
        None => number,
        Some(target) => target as usize,
    }
}

/// By the numbers of all types that of the type to which a pointer type points, and any other's own. Memory where there is
/// no room for them.
pub fn all_targets(alloc: Global, t: &TypeTable, types: &Shaped) -> Result<Items<usize>, Memory>
    requires { IsShaped types.now }
    ensures { IfOk result (λ all. all ≡ spec.targets_below t.now (length (shapes_in types.now))) }
{
    let mut all = Items::new(alloc);
    for number in 0..types.sizes.len() {
        all.push(target_number(t, number))?;
    }
    Ok(all)
}
