ghost use Rattle.std.specs.Prelude.{◌≡◌};
ghost use Rattle.std.specs.Option.{option_map};
ghost use Rattle.lil_shapes.specs.Bases as spec;

use lil_types::{TypeForm, TypeId, TypeTable, entry};

/// The types of an array's indexes and elements.
#[derive(Clone, Copy)]
pub struct ArrayParts {
    pub index: TypeId,
    pub element: TypeId,
}

fn field_in(form: &TypeForm, number: usize) -> Option<TypeId>
    ensures { result ≡ spec.field_in number form.now }
{
    match form {
        TypeForm::Record(fields) => match fields.as_slice().get(number) {
            None => None,
            Some(field) => Some(field.sort),
        },
        _ => None,
    }
}

/// The type of a record's field by its number, None where the type is no record or has no such field.
pub fn field_at(t: &TypeTable, sort: TypeId, number: usize) -> Option<TypeId>
    ensures { result ≡ spec.field_at t.now sort number }
{
    match entry(t, sort) {
        None => None,
        Some(entry) => field_in(&entry.form, number),
    }
}

fn array_in(form: &TypeForm) -> Option<ArrayParts>
    ensures { result ≡ spec.array_in form.now }
{
    match form {
        TypeForm::Array(index, element) => Some(ArrayParts {
            index: *index,
            element: *element,
        }),
        _ => None,
    }
}

/// The types of the indexes and elements of an array type, None for any other.
pub fn array_at(t: &TypeTable, sort: TypeId) -> Option<ArrayParts>
    ensures { result ≡ spec.array_at t.now sort }
{
    match entry(t, sort) {
        None => None,
        Some(entry) => array_in(&entry.form),
    }
}

fn is_composite(form: &TypeForm) -> bool
    ensures { result ≡ spec.is_composite form.now }
{
    match form {
        TypeForm::Array(_, _) => true,
        TypeForm::Record(_) => true,
        _ => false,
    }
}

/// Whether a type is an array or a record.
pub fn composite_at(t: &TypeTable, sort: TypeId) -> bool
    ensures { result ≡ spec.composite_at t.now sort }
{
    match entry(t, sort) {
        None => false,
        Some(entry) => is_composite(&entry.form),
    }
}

/// The type of the elements of an array type, None for any other.
pub fn element_sort(t: &TypeTable, sort: TypeId) -> Option<TypeId>
    ensures { result ≡ option_map spec.element_sort (spec.array_at t.now sort) }
{
    match array_at(t, sort) {
        None => None,
        Some(parts) => Some(parts.element),
    }
}
