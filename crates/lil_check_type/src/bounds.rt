ghost use Rattle.std.specs.Prelude.{◌≡◌};
ghost use Rattle.lil_report.specs.Told.{Said, tell};
ghost use Rattle.lil_check_type.specs.Nodes.{clear};
ghost use Rattle.lil_check_type.specs.Bounds as spec;

use crate::named::NamedType;
use lil_base::{FaultKind, Place};
use lil_kinds::{Found, compatible, is_constant, is_ordinal, misses, number};
use lil_report::Report;
use lil_scope::Kind;
use lil_types::{CARDINAL, CHAR, INTEGER, Span, TypeForm, TypeId, TypeTable, base};

/// The operand that stands as a bound or label: what is known of it, and its first token.
#[derive(Clone, Copy)]
pub struct Bound {
    pub kind: Kind,
    pub first: Place,
}

/// What is asked of a bound.
pub fn bound_of(a: Option<Found>) -> Option<Bound>
    ensures { result ≡ spec.bound_of a }
{
    let a = a?;
    Some(Bound {
        kind: a.kind,
        first: a.first,
    })
}

fn whole_type(value: i32) -> TypeId
    ensures { result ≡ spec.whole_type value }
{
    if value < 0 { INTEGER } else { CARDINAL }
}

/// The type below an operand.
pub fn type_below(t: &TypeTable, of: Kind) -> Option<TypeId>
    ensures { result ≡ spec.type_below t.now of }
{
    match of {
        Kind::Whole(value) => Some(whole_type(value)),
        Kind::Scalar(n, _) => Some(base(t, n)),
        Kind::Chars(_) => Some(CHAR),
        Kind::Of(n) => Some(base(t, n)),
        _ => None,
    }
}

/// The base of a subrange that begins with this bound.
fn range_base(t: &TypeTable, named: NamedType, a: Kind) -> Option<TypeId>
    ensures { result ≡ spec.range_base t.now named a }
{
    match named {
        NamedType::Given(n) => Some(n),
        NamedType::Absent => {
            if is_ordinal(t, a) {
                type_below(t, a)
            } else {
                None
            }
        }
        NamedType::Faulty => None,
    }
}

fn is_unlike(t: &TypeTable, of: Option<TypeId>, b: Kind) -> bool
    ensures { result ≡ spec.is_unlike t.now of b }
{
    match of {
        Some(n) => !compatible(t, Kind::Of(n), b),
        None => true,
    }
}

fn is_outside(t: &TypeTable, named: NamedType, b: Kind) -> bool
    ensures { result ≡ spec.is_outside t.now named b }
{
    match named {
        NamedType::Given(n) => misses(t, n, b),
        _ => false,
    }
}

/// Whether values over these types can be compared.
fn alike(a: Option<TypeId>, b: Option<TypeId>) -> bool
    ensures { result ≡ spec.alike a b }
{
    match (a, b) {
        (Some(m), Some(n)) => m == n || (m < 2 && n < 2),
        _ => false,
    }
}

fn goes_down(low: Option<i32>, high: Option<i32>) -> bool
    ensures { result ≡ spec.goes_down low high }
{
    match (low, high) {
        (Some(m), Some(n)) => n < m,
        _ => false,
    }
}

pub fn is_empty(t: &TypeTable, a: Kind, b: Kind) -> bool
    ensures { result ≡ spec.is_empty t.now a b }
{
    alike(type_below(t, a), type_below(t, b)) && goes_down(number(t, a), number(t, b))
}

fn span_by(low: Option<i32>, high: Option<i32>) -> Option<Span>
    ensures { result ≡ spec.span_by low high }
{
    let low = low?;
    let high = high?;
    if high < low {
        None
    } else {
        Some(Span { low, high })
    }
}

/// All values from one constant to another.
pub fn span_between(t: &TypeTable, a: Kind, b: Kind) -> Option<Span>
    ensures { result ≡ spec.span_between t.now a b }
{
    if alike(type_below(t, a), type_below(t, b)) {
        span_by(number(t, a), number(t, b))
    } else {
        None
    }
}

/// The tests of a bound or label: whether none of them finds a fault.
pub fn constant_tests(t: &TypeTable, report: &mut Report, of: Option<TypeId>, b: Bound) -> bool
    ensures told { report.new ≡ tell report.old (spec.constant_rows t.now of b) }
    ensures right { result ≡ clear (spec.constant_rows t.now of b) }
{
    let unlike = is_unlike(t, of, b.kind);
    let constant = is_constant(b.kind);
    report.note(unlike, b.first, FaultKind::Assign);
    report.note(!constant, b.first, FaultKind::NotConst);
    !unlike && constant
}

/// The tests of a bound.
fn bound_tests(t: &TypeTable, report: &mut Report, named: NamedType, of: Option<TypeId>, b: Bound)
    ensures { report.new ≡ tell report.old (spec.bound_rows t.now named of b) }
{
    constant_tests(t, report, of, b);
    report.note(is_outside(t, named, b.kind), b.first, FaultKind::ConstRange);
}

fn bound_right(t: &TypeTable, named: NamedType, of: Option<TypeId>, b: Kind) -> bool
    ensures { result ≡ spec.bound_right t.now named of b }
{
    !is_unlike(t, of, b) && is_constant(b) && !is_outside(t, named, b)
}

fn range_by(of: Option<TypeId>, span: Option<Span>) -> Option<TypeForm>
    ensures { result ≡ spec.range_by of span }
{
    Some(TypeForm::Subrange(of?, span?))
}

fn range_form(
    t: &TypeTable,
    named: NamedType,
    of: Option<TypeId>,
    a: Kind,
    b: Kind,
) -> Option<TypeForm>
    ensures { result ≡ spec.range_form t.now named of a b }
{
    if bound_right(t, named, of, a) && bound_right(t, named, of, b) {
        range_by(of, span_between(t, a, b))
    } else {
        None
    }
}

/// The tests of a subrange.
fn range_tests(
    t: &TypeTable,
    report: &mut Report,
    place: Place,
    named: NamedType,
    of: Option<TypeId>,
    a: Bound,
    b: Bound,
)
    ensures { report.new ≡ tell report.old (spec.range_rows t.now place named of a b) }
{
    bound_tests(t, report, named, of, a);
    bound_tests(t, report, named, of, b);
    report.note(is_empty(t, a.kind, b.kind), place, FaultKind::EmptyRange);
}

/// A subrange, from its bounds.
fn range_over(
    t: &TypeTable,
    report: &mut Report,
    place: Place,
    named: NamedType,
    a: Bound,
    b: Bound,
) -> Option<TypeForm>
    ensures { Said (spec.range_over t.now place named (spec.range_base t.now named a.kind) a b) report.old result report.new }
{
    let of = range_base(t, named, a.kind);
    range_tests(t, report, place, named, of, a, b);
    range_form(t, named, of, a.kind, b.kind)
}

/// A subrange, if its base and bounds have no fault.
pub fn range(
    t: &TypeTable,
    report: &mut Report,
    place: Place,
    named: NamedType,
    a: Option<Bound>,
    b: Option<Bound>,
) -> Option<TypeForm>
    ensures { Said (spec.range_node t.now place named a b) report.old result report.new }
{
    match (named, a, b) {
        (NamedType::Absent, Some(a), Some(b)) => range_over(t, report, place, named, a, b),
        (NamedType::Given(_), Some(a), Some(b)) => range_over(t, report, place, named, a, b),
        _ => None,
    }
}
