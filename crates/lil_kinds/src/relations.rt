ghost use Rattle.std.specs.Prelude.{◌≡◌, ◌≤◌};
ghost use Rattle.std.specs.Option.{option_copied};
ghost use Rattle.lil_base.specs.Words.{between, number_of, Integer};
ghost use Rattle.lil_kinds.specs.Kinds as spec;

use crate::forms::{array_parts, has_nil, is_routine, parameters, result, span_of};
use lil_scope::Kind;
use lil_types::{
    CHAR, INTEGER, Parameter, Span, TypeId, TypeTable, base, fits, is_whole, same, values,
};

/// The type of an operand, where it has one.
pub(crate) fn sort_of(a: Kind) -> Option<TypeId>
    ensures { result ≡ spec.sort_of a }
{
    match a {
        Kind::Scalar(sort, _) | Kind::Of(sort) => Some(sort),
        _ => None,
    }
}

pub(crate) fn is_whole_constant(a: Kind) -> bool
    ensures { result ≡ spec.is_whole_constant a }
{
    matches!(a, Kind::Whole(_))
}

/// Whether a value of type `sort` is compatible with an operand.
#[tactic(auto, unfolding(crate::specs::Kinds::suits))]
fn suits(t: &TypeTable, sort: TypeId, b: Kind) -> bool
    ensures { result ≡ spec.suits t.now sort b }
{
    match b {
        Kind::Whole(m) => fits(base(t, sort), m),
        Kind::Scalar(other, _) | Kind::Of(other) => base(t, sort) == base(t, other),
        Kind::Chars(text) => text.length == 1 && base(t, sort) == CHAR,
        Kind::Nil => has_nil(t, sort),
        Kind::Open(_) | Kind::Routine(_) => false,
    }
}

/// Whether two operands are compatible (Programming in Modula-2, Expressions).
#[tactic(auto, unfolding(crate::specs::Kinds::compatible))]
pub fn compatible(t: &TypeTable, a: Kind, b: Kind) -> bool
    ensures { result ≡ spec.compatible t.now a b }
{
    match (sort_of(a), sort_of(b)) {
        (Some(sort), _) => suits(t, sort, b),
        (None, Some(sort)) => suits(t, sort, a),
        (None, None) => is_whole_constant(a) && is_whole_constant(b),
    }
}

fn same_parameter(t: &TypeTable, x: Parameter, y: Parameter) -> bool
    ensures { result ≡ spec.same_parameter t.now x y }
{
    x.by_place == y.by_place && x.open_array == y.open_array && same(t, x.sort, y.sort)
}

/// Whether two lists of parameters have the same kinds and types in order.
fn same_parameters(t: &TypeTable, xs: &[Parameter], ys: &[Parameter]) -> bool
    ensures { result ≡ spec.same_parameters t.now xs.now ys.now }
{
    if xs.len() != ys.len() {
        return false;
    }
    for i in 0..xs.len() {
        if !same_parameter(t, xs[i], ys[i]) {
            return false;
        }
    }
    true
}

/// Whether a procedure of type `s` is a value of procedure type `r`.
#[tactic(auto, unfolding(crate::specs::Kinds::conforms))]
fn conforms(t: &TypeTable, s: TypeId, r: TypeId) -> bool
    ensures { result ≡ spec.conforms t.now s r }
{
    is_routine(t, s)
        && is_routine(t, r)
        && same_parameters(t, parameters(t, s), parameters(t, r))
        && match (result(t, s), result(t, r)) {
            (Some(s), Some(r)) => same(t, s, r),
            (None, None) => true,
            _ => false,
        }
}

/// Whether a type is an ARRAY OF CHAR with at least so many elements.
#[tactic(auto, unfolding(crate::specs::Kinds::holds))]
fn holds(t: &TypeTable, to: TypeId, count: usize) -> bool
    ensures { result ≡ spec.holds t.now to count }
{
    match array_parts(t, to) {
        Some(parts) if parts.element == CHAR => match span_of(t, parts.index) {
            Some(span) => count as u64 <= values(span.low, span.high),
            None => false,
        },
        _ => false,
    }
}

/// Whether a value is assignable without being compatible.
#[tactic(auto, unfolding(crate::specs::Kinds::passes))]
fn passes(t: &TypeTable, to: TypeId, b: Kind) -> bool
    ensures { result ≡ spec.passes t.now to b }
{
    match b {
        Kind::Whole(_) => is_whole(t, to),
        Kind::Scalar(sort, _) | Kind::Of(sort) => is_whole(t, to) && is_whole(t, sort),
        Kind::Chars(text) => holds(t, to, text.length),
        Kind::Routine(sort) => conforms(t, sort, to),
        Kind::Nil | Kind::Open(_) => false,
    }
}

/// Whether a value can be assigned to a variable of this type.
#[tactic(auto, unfolding(crate::specs::Kinds::assignable))]
pub fn assignable(t: &TypeTable, to: TypeId, b: Kind) -> bool
    ensures { result ≡ spec.assignable t.now to b }
{
    compatible(t, Kind::Of(to), b) || passes(t, to, b)
}

/// Whether a number lies in a range, its ends included.
pub(crate) fn is_between(low: i32, number: i32, high: i32) -> bool
    ensures { result ≡ between low number high }
{
    low <= number && number <= high
}

/// Whether a number lies outside a span, where both are there.
pub fn outside(span: Option<Span>, number: Option<i32>) -> bool
    ensures { result ≡ spec.outside span number }
{
    match (span, number) {
        (Some(span), Some(number)) => !is_between(span.low, number, span.high),
        _ => false,
    }
}

/// The number that a constant has beside a type.
#[tactic(auto, unfolding(crate::specs::Kinds::number_beside, crate::specs::Kinds::number))]
fn number_beside(t: &TypeTable, to: TypeId, b: Kind) -> Option<i32>
    ensures { result ≡ spec.number_beside t.now to b }
{
    match b {
        Kind::Chars(_) if base(t, to) != CHAR => None,
        _ => number(t, b),
    }
}

/// Whether a constant lies outside the range of this type.
#[tactic(auto, unfolding(crate::specs::Kinds::misses))]
pub fn misses(t: &TypeTable, to: TypeId, b: Kind) -> bool
    ensures { result ≡ spec.misses t.now to b }
{
    outside(span_of(t, to), number_beside(t, to, b))
}

/// Whether the operand is ordinal, a whole constant and a text of one character included.
#[tactic(auto, unfolding(crate::specs::Kinds::is_ordinal))]
pub fn is_ordinal(t: &TypeTable, a: Kind) -> bool
    ensures { result ≡ spec.is_ordinal t.now a }
{
    match a {
        Kind::Whole(_) => true,
        Kind::Scalar(sort, _) | Kind::Of(sort) => span_of(t, sort).is_some(),
        Kind::Chars(text) => text.length == 1,
        Kind::Nil | Kind::Open(_) | Kind::Routine(_) => false,
    }
}

/// Whether the operand is a constant: NIL is none.
#[tactic(auto, unfolding(crate::specs::Kinds::is_constant))]
pub fn is_constant(a: Kind) -> bool
    ensures { result ≡ spec.is_constant a }
{
    matches!(a, Kind::Whole(_) | Kind::Scalar(_, _) | Kind::Chars(_))
}

/// The number that a word says as a value of a type.
pub(crate) fn word_number(t: &TypeTable, sort: TypeId, word: u16) -> i32
    ensures { result ≡ spec.word_number t.now sort word }
{
    if base(t, sort) == INTEGER && word >= 32768 {
        i32::from(word) - 65536
    } else {
        i32::from(word)
    }
}

/// The number of an ordinal constant.
#[tactic(auto, unfolding(crate::specs::Kinds::number))]
pub fn number(t: &TypeTable, a: Kind) -> Option<i32>
    ensures { result ≡ spec.number t.now a }
{
    match a {
        Kind::Whole(n) => Some(n),
        Kind::Scalar(sort, word) if span_of(t, sort).is_some() => Some(word_number(t, sort, word)),
        Kind::Chars(text) if text.length == 1 => Some(i32::from(text.first)),
        _ => None,
    }
}
