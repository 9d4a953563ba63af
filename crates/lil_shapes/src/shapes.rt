ghost use Rattle.std.specs.Prelude.{◌≡◌, ◌≤◌, ◌≤ℤ◌, ◌++◌, [], ◌∷◌, map, pos, negsuc, slice_get, IfOk, IfSome, None};
ghost use Rattle.std.specs.Option.{option_map};
ghost use Rattle.lil_resolved.specs.Kinds as kinds;
ghost use Rattle.lil_resolved.specs.{Kinds.{words as words_of, fields_of}, Views.kind_view};
ghost use Rattle.lil_shapes.specs.Measured as measured;
ghost use Rattle.lil_shapes.specs.Measured.{IsShaped, IsMade};
ghost use Rattle.lil_shapes.specs.Shaping as spec;

use crate::bases::kind_at;
use crate::operators::{greatest, least};
use lil_base::{Items, Memory};
use lil_resolved::{RElements, RField, RKind, RShape};
use lil_types::{Field, TypeForm, TypeId, TypeTable, entry, values};
use std::alloc::Global;

/// The shapes of the first types, by their numbers, and how many words each takes that is there.
#[derive(Drop)]
pub struct Shaped {
    pub shapes: Items<RShape>,
    pub sizes: Items<Option<u16>>,
}

/// A shape, and how many words it takes, if it is there.
#[derive(Drop)]
struct Made {
    shape: RShape,
    size: Option<u16>,
}

fn larger(x: i32, y: i32) -> i32
    ensures is { result ≡ kinds.larger x y }
    ensures at_least { y ≤ℤ result }
{
    if x < y { y } else { x }
}

fn lesser(x: i32, y: i32) -> i32
    ensures is { result ≡ kinds.lesser x y }
    ensures at_most { result ≤ℤ y }
{
    if y < x { y } else { x }
}

/// The least number of a kind's values.
pub(crate) fn least_of(kind: RKind) -> i32
    ensures is { result ≡ kinds.least (kind_view kind) }
    ensures at_least { negsuc 32767 ≤ℤ result }
{
    let least = least(kind.base);
    match kind.range {
        None => least,
        Some(range) => larger(range.low, least),
    }
}

/// The greatest number of a kind's values.
pub(crate) fn greatest_of(kind: RKind) -> i32
    ensures is { result ≡ kinds.greatest (kind_view kind) }
    ensures at_most { result ≤ℤ pos 65535 }
{
    let greatest = greatest(kind.base);
    match kind.range {
        None => greatest,
        Some(range) => lesser(range.high, greatest),
    }
}

/// How many values a kind has.
pub(crate) fn numbers(kind: RKind) -> u32
    ensures { result ≡ kinds.numbers (kind_view kind) }
{
    values(least_of(kind), greatest_of(kind)) as u32
}

fn words_by(size: Option<u16>) -> u16
    ensures { result ≡ measured.words_by size }
{
    match size {
        None => 0,
        Some(words) => words,
    }
}

/// The words of a type with a lesser number, None where it has none.
#[tactic(auto, using(crate::proofs::ShapeLaws::words_sized))]
fn words_at(before: &Shaped, sort: TypeId) -> Option<u16>
    requires { IsShaped before.now }
    ensures { result ≡ option_map words_of (slice_get (measured.shapes_in before.now) sort) }
{
    match before.sizes.get(sort as usize) {
        None => None,
        Some(size) => Some(words_by(*size)),
    }
}

/// The words of a variable of a type, None where nothing lies in it.
pub(crate) fn size_at(types: &Shaped, sort: TypeId) -> Option<u16>
    requires { IsShaped types.now }
    ensures { result ≡ option_map words_of (spec.there (slice_get (measured.shapes_in types.now) sort)) }
{
    match types.sizes.get(sort as usize) {
        None => None,
        Some(size) => *size,
    }
}

/// Where what comes behind so many words begins, if at most 32,000 are taken.
fn behind(words: u16, size: u16) -> Option<u16>
    ensures { result ≡ measured.behind words size }
{
    let end = u32::from(words) + u32::from(size);
    if end <= 32_000 {
        Some(end as u16)
    } else {
        None
    }
}

/// The elements of an array.
fn row(before: &Shaped, kind: Option<RKind>, element: TypeId) -> Option<Made>
    requires { IsShaped before.now }
    ensures means { option_map (measured.shape_made before.now) result ≡ spec.row kind (slice_get (measured.shapes_in before.now) element) }
    ensures made { IfSome result (IsMade before.now) }
{
    let Some(kind) = kind else {
        return None;
    };
    let Some(words) = words_at(before, element) else {
        return None;
    };
    let count = numbers(kind);
    let all = u64::from(count) * u64::from(words);
    if all > 32_000 {
        return None;
    }
    Some(Made {
        shape: RShape::Elements(RElements {
            count,
            words,
            shape: element as usize,
        }),
        size: Some(all as u16),
    })
}

/// The fields of a record, one behind another.
fn fields(alloc: Global, before: &Shaped, of: &[Field]) -> Result<Option<Made>, Memory>
    requires { IsShaped before.now }
    ensures means { IfOk result (λ o. option_map (measured.shape_made before.now) o ≡ option_map fields_of (spec.within (spec.all_some (map (spec.field_shape (measured.shapes_in before.now)) of.now)))) }
    ensures made { IfOk result (λ o. IfSome o (IsMade before.now)) }
{
    let mut found = Items::new(alloc);
    let mut offset: u16 = 0;
    for field in of {
        let Some(words) = words_at(before, field.sort) else {
            return Ok(None);
        };
        let Some(next) = behind(offset, words) else {
            return Ok(None);
        };
        found.push(RField {
            offset,
            shape: field.sort as usize,
        })?;
        offset = next;
    }
    Ok(Some(Made {
        shape: RShape::Fields(found),
        size: Some(offset),
    }))
}

/// A word, or nothing of which code is made.
fn scalar(kind: Option<RKind>) -> Made
    ensures means { (before : _) → measured.shape_made before result ≡ spec.scalar kind }
    ensures made { (before : _) → IsMade before result }
{
    match kind {
        None => Made {
            shape: RShape::Absent,
            size: None,
        },
        Some(kind) => Made {
            shape: RShape::Word(kind),
            size: Some(1),
        },
    }
}

/// The shape of a type of the table that has no kind.
fn composed(
    alloc: Global,
    t: &TypeTable,
    before: &Shaped,
    form: &TypeForm,
) -> Result<Option<Made>, Memory>
    requires { IsShaped before.now }
    ensures means { IfOk result (λ o. option_map (measured.shape_made before.now) o ≡ spec.shape_in t.now (measured.shapes_in before.now) None form.now) }
    ensures made { IfOk result (λ o. IfSome o (IsMade before.now)) }
{
    match form {
        TypeForm::Array(index, element) => Ok(row(before, kind_at(t, *index), *element)),
        TypeForm::Record(of) => fields(alloc, before, of.as_slice()),
        _ => Ok(Some(scalar(None))),
    }
}

/// The shape of a type, by those with lesser numbers.
fn shape(
    alloc: Global,
    t: &TypeTable,
    before: &Shaped,
    number: TypeId,
) -> Result<Option<Made>, Memory>
    requires { IsShaped before.now }
    ensures means { IfOk result (λ o. option_map (measured.shape_made before.now) o ≡ spec.shape t.now (measured.shapes_in before.now) number) }
    ensures made { IfOk result (λ o. IfSome o (IsMade before.now)) }
{
    let kind = kind_at(t, number);
    match entry(t, number) {
        None => Ok(Some(scalar(kind))),
        Some(entry) => match kind {
            None => composed(alloc, t, before, &entry.form),
            Some(_) => Ok(Some(scalar(kind))),
        },
    }
}

/// A shape more.
fn added(before: Shaped, made: Made) -> Result<Shaped, Memory>
    requires shaped { IsShaped before }
    requires next { IsMade before made }
    ensures means { IfOk result (λ s. measured.shapes_in s ≡ measured.shapes_in before ++ measured.shape_made before made ∷ []) }
    ensures shaped { IfOk result (λ s. IsShaped s) }
{
    let mut shapes = before.shapes;
    let mut sizes = before.sizes;
    sizes.push(made.size)?;
    shapes.push(made.shape)?;
    Ok(Shaped { shapes, sizes })
}

/// The shapes of a module's types. None where one has none, as where it has more than 32,000 words. Memory where there is no
/// room for them.
pub fn all_shapes(alloc: Global, t: &TypeTable) -> Result<Option<Shaped>, Memory>
    ensures means { IfOk result (λ o. option_map measured.shapes_in o ≡ spec.shapes t.now) }
    ensures shaped { IfOk result (λ o. IfSome o IsShaped) }
{
    let end = 16 + t.len() as TypeId;
    let mut so_far = Shaped {
        shapes: Items::new(alloc),
        sizes: Items::new(alloc),
    };
    for number in 0..end {
        match shape(alloc, t, &so_far, number)? {
            None => return Ok(None),
            Some(made) => so_far = added(so_far, made)?,
        }
    }
    Ok(Some(so_far))
}
