ghost use Rattle.std.specs.Prelude.{◌≡◌};
ghost use Rattle.std.specs.Option.{option_copied};
ghost use Rattle.lil_kinds.specs.Forms as spec;

use lil_base::Name;
use lil_types::{
    ADDRESS, BITSET, CARDINAL, CHAR, FieldAt, PROC, Parameter, Span, TypeForm, TypeId, TypeTable,
    entry, known, meant,
};

/// The index type and the element type of an array.
#[derive(Clone, Copy)]
pub struct ArrayParts {
    pub index: TypeId,
    pub element: TypeId,
}

/// How a type is built, None for a standard type.
#[tactic(auto, unfolding(crate::specs::Forms::shape))]
pub fn shape(t: &TypeTable, n: TypeId) -> Option<&TypeForm>
    ensures { option_copied result ≡ spec.shape t.now n }
{
    match entry(t, meant(t, n)) {
        Some(e) => Some(&e.form),
        None => None,
    }
}

/// The numbers of an ordinal type's values, None for any other type.
#[tactic(auto, unfolding(crate::specs::Forms::span_of))]
pub fn span_of(t: &TypeTable, n: TypeId) -> Option<Span>
    ensures { result ≡ spec.span_of t.now n }
{
    match known(t, meant(t, n)) {
        Some(facts) => facts.span,
        None => None,
    }
}

/// The parts of an array type, None for any other.
#[tactic(auto, unfolding(crate::specs::Forms::array_parts))]
pub fn array_parts(t: &TypeTable, n: TypeId) -> Option<ArrayParts>
    ensures { result ≡ spec.array_parts t.now n }
{
    match shape(t, n) {
        Some(TypeForm::Array(index, element)) => Some(ArrayParts {
            index: *index,
            element: *element,
        }),
        _ => None,
    }
}

/// The field of this name, None where the type is no record or has no such field.
#[tactic(auto, unfolding(crate::specs::Forms::field))]
pub fn field(t: &TypeTable, n: TypeId, name: &Name) -> Option<FieldAt>
    ensures { result ≡ spec.field t.now n name.now }
{
    match shape(t, n) {
        Some(TypeForm::Record(fields)) => fields.find(name),
        _ => None,
    }
}

/// Whether the type is a record.
#[tactic(auto, unfolding(crate::specs::Forms::is_record))]
pub fn is_record(t: &TypeTable, n: TypeId) -> bool
    ensures { result ≡ spec.is_record t.now n }
{
    matches!(shape(t, n), Some(TypeForm::Record(_)))
}

/// The type to which a pointer type points, None for any other.
#[tactic(auto, unfolding(crate::specs::Forms::target))]
pub fn target(t: &TypeTable, n: TypeId) -> Option<TypeId>
    ensures { result ≡ spec.target t.now n }
{
    match shape(t, n) {
        Some(TypeForm::Pointer(target)) => Some(*target),
        _ => None,
    }
}

/// Whether the type is an opaque type of another module.
#[tactic(auto, unfolding(crate::specs::Forms::is_opaque))]
pub fn is_opaque(t: &TypeTable, n: TypeId) -> bool
    ensures { result ≡ spec.is_opaque t.now n }
{
    matches!(shape(t, n), Some(TypeForm::Opaque(_)))
}

/// Whether the type has the value NIL: it is a pointer type, an opaque type, or ADDRESS.
#[tactic(auto, unfolding(crate::specs::Forms::has_nil))]
pub fn has_nil(t: &TypeTable, n: TypeId) -> bool
    ensures { result ≡ spec.has_nil t.now n }
{
    meant(t, n) == ADDRESS || target(t, n).is_some() || is_opaque(t, n)
}

/// Whether the type is an array whose elements are CHAR itself.
#[tactic(auto, unfolding(crate::specs::Forms::is_char_array))]
pub fn is_char_array(t: &TypeTable, n: TypeId) -> bool
    ensures { result ≡ spec.is_char_array t.now n }
{
    match array_parts(t, n) {
        Some(parts) => parts.element == CHAR,
        None => false,
    }
}

fn own_base(t: &TypeTable, n: TypeId) -> Option<TypeId>
    ensures { result ≡ spec.of_form spec.set_of (spec.shape t.now n) }
{
    match shape(t, n) {
        Some(TypeForm::SetOf(base)) => Some(*base),
        _ => None,
    }
}

/// The type of a set's elements, None where the type is no set: CARDINAL for BITSET.
#[tactic(auto, unfolding(crate::specs::Forms::set_base))]
pub fn set_base(t: &TypeTable, n: TypeId) -> Option<TypeId>
    ensures { result ≡ spec.set_base t.now n }
{
    if meant(t, n) == BITSET {
        return Some(CARDINAL);
    }
    own_base(t, n)
}

/// The numbers that may be in a set, None where the type is no set: 0 to 15 for BITSET.
#[tactic(auto, unfolding(crate::specs::Forms::element_span))]
pub fn element_span(t: &TypeTable, n: TypeId) -> Option<Span>
    ensures { result ≡ spec.element_span t.now n }
{
    if meant(t, n) == BITSET {
        return Some(Span { low: 0, high: 15 });
    }
    match own_base(t, n) {
        Some(base) => span_of(t, base),
        None => None,
    }
}

/// Whether the type is a procedure type.
#[tactic(auto, unfolding(crate::specs::Forms::is_routine))]
pub fn is_routine(t: &TypeTable, n: TypeId) -> bool
    ensures { result ≡ spec.is_routine t.now n }
{
    meant(t, n) == PROC || matches!(shape(t, n), Some(TypeForm::Procedure(_, _)))
}

/// The parameters of a procedure type: PROC has none.
#[tactic(auto, unfolding(crate::specs::Forms::parameters))]
pub fn parameters(t: &TypeTable, n: TypeId) -> &[Parameter]
    ensures { result.now ≡ spec.parameters t.now n }
{
    match shape(t, n) {
        Some(TypeForm::Procedure(parameters, _)) => parameters.as_slice(),
        _ => &[],
    }
}

/// How many parameters a procedure type has.
#[tactic(auto, unfolding(crate::specs::Forms::arity))]
pub fn arity(t: &TypeTable, n: TypeId) -> usize
    ensures { result ≡ spec.arity t.now n }
{
    parameters(t, n).len()
}

/// A parameter of a procedure type by its place, from 0.
#[tactic(auto, unfolding(crate::specs::Forms::parameter))]
pub fn parameter(t: &TypeTable, n: TypeId, at: usize) -> Option<Parameter>
    ensures { result ≡ spec.parameter t.now n at }
{
    parameters(t, n).get(at).copied()
}

/// The type of what a function gives, None for a proper procedure.
#[tactic(auto, unfolding(crate::specs::Forms::result))]
pub fn result(t: &TypeTable, n: TypeId) -> Option<TypeId>
    ensures { result ≡ spec.result t.now n }
{
    match shape(t, n) {
        Some(TypeForm::Procedure(_, result)) => *result,
        _ => None,
    }
}
