ghost use Rattle.std.specs.Prelude.{◌≡◌, length, map, IfOk};
ghost use Rattle.lil_shapes.specs.Measured.{shapes_in, IsShaped};
ghost use Rattle.lil_shapes.specs.Signatures as spec;

use crate::bases::kind_at;
use crate::laying::passing_of;
use crate::shapes::Shaped;
use lil_base::{Items, Memory};
use lil_declared::mode_of;
use lil_resolved::{RKind, RPassed, RSignature};
use lil_types::{Parameter, TypeForm, TypeId, TypeTable};
use std::alloc::Global;

/// A parameter by the number of its shape, and how it is handed over.
fn passed(of: Parameter) -> RPassed
    ensures { result ≡ spec.passed of }
{
    RPassed {
        shape: of.sort as usize,
        passing: passing_of(mode_of(of.by_place, of.open_array)),
    }
}

fn all_passed(alloc: Global, of: &[Parameter]) -> Result<Items<RPassed>, Memory>
    ensures { IfOk result (λ all. all ≡ map spec.passed of.now) }
{
    let mut all = Items::new(alloc);
    for one in of {
        all.push(passed(*one))?;
    }
    Ok(all)
}

/// The kind of what is returned, by the type of the result.
fn kind_returned(t: &TypeTable, of: Option<TypeId>) -> Option<RKind>
    ensures { result ≡ spec.kind_returned t.now of }
{
    match of {
        None => None,
        Some(sort) => kind_at(t, sort),
    }
}

fn no_signature(alloc: Global) -> RSignature
    ensures { result ≡ spec.no_signature }
{
    RSignature {
        parameters: Items::new(alloc),
        result: None,
    }
}

fn signature_in(alloc: Global, t: &TypeTable, form: &TypeForm) -> Result<RSignature, Memory>
    ensures { IfOk result (λ s. s ≡ spec.signature_in t.now form.now) }
{
    match form {
        TypeForm::Procedure(parameters, returned) => {
            let kind = kind_returned(t, *returned);
            Ok(RSignature {
                parameters: all_passed(alloc, parameters.as_slice())?,
                result: kind,
            })
        }
        _ => Ok(no_signature(alloc)),
    }
}

/// What the procedures of a procedure type have; no parameters and no result of PROC, and of any other type.
fn signature(alloc: Global, t: &TypeTable, number: usize) -> Result<RSignature, Memory>
    ensures { IfOk result (λ s. s ≡ spec.signature t.now number) }
{
    if number < 16 {
        return Ok(no_signature(alloc));
    }
    match t.get(number - 16) {
        None => Ok(no_signature(alloc)),
        Some(entry) => signature_in(alloc, t, &entry.form),
    }
}

/// By the numbers of all types what procedures of each have. Memory where there is no room for them.
pub fn all_signatures(
    alloc: Global,
    t: &TypeTable,
    types: &Shaped,
) -> Result<Items<RSignature>, Memory>
    requires { IsShaped types.now }
    ensures { IfOk result (λ all. all ≡ spec.signatures_below t.now (length (shapes_in types.now))) }
{
    let mut all = Items::new(alloc);
    for number in 0..types.sizes.len() {
        all.push(signature(alloc, t, number)?)?;
    }
    Ok(all)
}
