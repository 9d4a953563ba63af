ghost use Rattle.std.specs.Prelude.{◌≡◌};
ghost use Rattle.lil_base.specs.Words.{between};
ghost use Rattle.lil_types.specs.Folding.{folded_as};
ghost use Rattle.lil_kinds.specs.Operators as spec;

use crate::forms::{has_nil, set_base, span_of};
use crate::found::Applied;
use crate::relations::{
    compatible, is_between, is_ordinal, is_whole_constant, number, outside, sort_of, word_number,
};
use lil_base::{OneOp, TwoOp};
use lil_declared::Standard;
use lil_scope::Kind;
use lil_types::{
    BOOLEAN, CARDINAL, CHAR, Const, FoldStop, INTEGER, TypeId, TypeTable, base, fold_one, fold_two,
    is_whole, same,
};

/// An operand as a constant, where it is one.
#[tactic(auto, unfolding(crate::specs::Operators::constant))]
fn constant(t: &TypeTable, a: Kind) -> Option<Const>
    ensures { result ≡ spec.constant t.now a }
{
    match a {
        Kind::Whole(n) => Some(Const::Whole(n)),
        Kind::Scalar(sort, word) if is_whole(t, sort) => {
            Some(Const::Whole(word_number(t, sort, word)))
        }
        Kind::Scalar(sort, word) => Some(Const::Scalar(sort, word)),
        Kind::Chars(text) if text.length == 1 => {
            Some(Const::Scalar(CHAR, u16::from(text.first)))
        }
        _ => None,
    }
}

fn applied(folded: Result<Const, FoldStop>) -> Applied
    ensures { result ≡ spec.applied (folded_as folded) }
{
    match folded {
        Ok(Const::Whole(n)) => Applied::Gives(Kind::Whole(n)),
        Ok(Const::Scalar(sort, word)) => Applied::Gives(Kind::Scalar(sort, word)),
        Err(FoldStop::Fault(52)) => Applied::Outside,
        _ => Applied::Refused,
    }
}

fn gives_where(takes: bool, sort: TypeId) -> Applied
    ensures { result ≡ spec.gives_where takes sort }
{
    if takes {
        Applied::Gives(Kind::Of(sort))
    } else {
        Applied::Refused
    }
}

fn one_sort(t: &TypeTable, op: OneOp, sort: TypeId) -> Applied
    ensures { result ≡ spec.one_sort t.now op sort }
{
    match op {
        OneOp::Plus => gives_where(is_whole(t, sort), base(t, sort)),
        OneOp::Minus => gives_where(base(t, sort) == INTEGER, INTEGER),
        OneOp::Not => gives_where(base(t, sort) == BOOLEAN, BOOLEAN),
    }
}

/// What a sign or NOT makes of its operand.
#[tactic(auto, unfolding(crate::specs::Operators::one))]
pub fn one(t: &TypeTable, op: OneOp, a: Kind) -> Applied
    ensures { result ≡ spec.one t.now op a }
{
    match (constant(t, a), sort_of(a)) {
        (Some(constant), _) => applied(fold_one(t, op, &constant)),
        (None, Some(sort)) => one_sort(t, op, sort),
        (None, None) => Applied::Refused,
    }
}

/// The type of the first operand that has one.
fn common(a: Kind, b: Kind) -> TypeId
    ensures { result ≡ spec.common a b }
{
    sort_of(a).or(sort_of(b)).unwrap_or(INTEGER)
}

/// Whether the operands are whole numbers of one base.
#[tactic(auto, unfolding(crate::specs::Operators::are_wholes))]
fn are_wholes(t: &TypeTable, a: Kind, b: Kind) -> bool
    ensures { result ≡ spec.are_wholes t.now a b }
{
    compatible(t, a, b) && is_whole(t, common(a, b))
}

/// Whether the operands are ordinals of one base.
#[tactic(auto, unfolding(crate::specs::Operators::are_ordinals))]
fn are_ordinals(t: &TypeTable, a: Kind, b: Kind) -> bool
    ensures { result ≡ spec.are_ordinals t.now a b }
{
    compatible(t, a, b) && is_ordinal(t, a) && is_ordinal(t, b)
}

/// Whether the operands are values of one set type.
#[tactic(auto, unfolding(crate::specs::Operators::are_sets))]
fn are_sets(t: &TypeTable, a: Kind, b: Kind) -> bool
    ensures { result ≡ spec.are_sets t.now a b }
{
    match (sort_of(a), sort_of(b)) {
        (Some(a), Some(b)) => set_base(t, a).is_some() && same(t, a, b),
        _ => false,
    }
}

/// Whether the first operand is compatible with the elements of the second.
#[tactic(auto, unfolding(crate::specs::Operators::is_element))]
fn is_element(t: &TypeTable, a: Kind, b: Kind) -> bool
    ensures { result ≡ spec.is_element t.now a b }
{
    match sort_of(b) {
        Some(set) => match set_base(t, set) {
            Some(base) => compatible(t, a, Kind::Of(base)),
            None => false,
        },
        None => false,
    }
}

/// Whether the operands are of those that = and # compare.
#[tactic(auto, unfolding(crate::specs::Operators::are_comparable, crate::specs::Operators::are_references))]
fn are_comparable(t: &TypeTable, a: Kind, b: Kind) -> bool
    ensures { result ≡ spec.are_comparable t.now a b }
{
    are_ordinals(t, a, b) || (compatible(t, a, b) && has_nil(t, common(a, b))) || are_sets(t, a, b)
}

/// What an operator makes of two operands that aren't both constants.
#[tactic(auto, unfolding(crate::specs::Operators::two_values, crate::specs::Operators::are_truths))]
fn two_values(t: &TypeTable, op: TwoOp, a: Kind, b: Kind) -> Applied
    ensures { result ≡ spec.two_values t.now op a b }
{
    match op {
        TwoOp::Plus | TwoOp::Minus | TwoOp::Times if are_wholes(t, a, b) => {
            Applied::Gives(Kind::Of(base(t, common(a, b))))
        }
        TwoOp::Plus | TwoOp::Minus | TwoOp::Times | TwoOp::Slash => {
            gives_where(are_sets(t, a, b), common(a, b))
        }
        TwoOp::Div | TwoOp::Mod => gives_where(are_wholes(t, a, b), base(t, common(a, b))),
        TwoOp::And | TwoOp::Or => gives_where(
            compatible(t, a, b) && base(t, common(a, b)) == BOOLEAN,
            BOOLEAN,
        ),
        TwoOp::Equal | TwoOp::Unequal => gives_where(are_comparable(t, a, b), BOOLEAN),
        TwoOp::Less | TwoOp::Greater => gives_where(are_ordinals(t, a, b), BOOLEAN),
        TwoOp::AtMost | TwoOp::AtLeast => gives_where(
            are_ordinals(t, a, b) || are_sets(t, a, b),
            BOOLEAN,
        ),
        TwoOp::In => gives_where(is_element(t, a, b), BOOLEAN),
    }
}

/// What an operator makes of two operands; two constants are computed.
#[tactic(auto, unfolding(crate::specs::Operators::two))]
pub fn two(t: &TypeTable, op: TwoOp, a: Kind, b: Kind) -> Applied
    ensures { result ≡ spec.two t.now op a b }
{
    if matches!((a, b), (Kind::Chars(_), Kind::Chars(_))) {
        return Applied::Refused;
    }
    match (constant(t, a), constant(t, b)) {
        (Some(x), Some(y)) => applied(fold_two(t, op, &x, &y)),
        _ => two_values(t, op, a, b),
    }
}

/// The type in which an operator computes: that of its operands, or of the set beside IN.
#[tactic(auto, unfolding(crate::specs::Operators::operand_type))]
pub fn operand_type(t: &TypeTable, op: TwoOp, a: Kind, b: Kind) -> TypeId
    ensures { result ≡ spec.operand_type t.now op a b }
{
    match op {
        TwoOp::In => sort_of(b).unwrap_or(INTEGER),
        _ => base(t, common(a, b)),
    }
}

fn word_constant(sort: TypeId, n: i32) -> Applied
    ensures { result ≡ spec.word_constant sort n }
{
    if !is_between(0, n, 65535) {
        return Applied::Outside;
    }
    Applied::Gives(Kind::Scalar(sort, n as u16))
}

/// The constant of a type by its number: a whole number has no type.
#[tactic(auto, unfolding(crate::specs::Operators::constant_of))]
fn constant_of(t: &TypeTable, sort: TypeId, n: i32) -> Applied
    ensures { result ≡ spec.constant_of t.now sort n }
{
    if is_whole(t, sort) {
        return Applied::Gives(Kind::Whole(n));
    }
    word_constant(sort, n)
}

fn is_integer(t: &TypeTable, a: Kind) -> bool
    ensures { result ≡ spec.is_integer t.now a }
{
    is_whole_constant(a) || compatible(t, a, Kind::Of(INTEGER))
}

fn is_number(t: &TypeTable, a: Kind) -> bool
    ensures { result ≡ spec.is_number t.now a }
{
    is_integer(t, a) || compatible(t, a, Kind::Of(CARDINAL))
}

fn absolute(n: Option<i32>) -> Applied
    ensures { result ≡ spec.value_by 0 spec.absolute n }
{
    match n {
        None => Applied::Gives(Kind::Of(INTEGER)),
        Some(n) if n.unsigned_abs() > 65535 => Applied::Outside,
        Some(n) => Applied::Gives(Kind::Whole(n.unsigned_abs() as i32)),
    }
}

fn capital(n: Option<i32>) -> Applied
    ensures { result ≡ spec.value_by 3 (λ n. spec.word_constant 3 (spec.capital n)) n }
{
    match n {
        None => Applied::Gives(Kind::Of(CHAR)),
        Some(n) if is_between(97, n, 122) => word_constant(CHAR, n - 32),
        Some(n) => word_constant(CHAR, n),
    }
}

fn oddness(n: Option<i32>) -> Applied
    ensures { result ≡ spec.value_by 2 spec.oddness n }
{
    match n {
        None => Applied::Gives(Kind::Of(BOOLEAN)),
        Some(n) => {
            let is_odd = n.unsigned_abs() % 2 == 1;
            Applied::Gives(Kind::Scalar(BOOLEAN, u16::from(is_odd)))
        }
    }
}

/// The value of a type that has the number of an operand.
#[tactic(auto, unfolding(crate::specs::Operators::converted))]
fn converted(t: &TypeTable, sort: TypeId, a: Kind) -> Applied
    ensures { result ≡ spec.converted t.now sort a }
{
    match number(t, a) {
        Some(n) => {
            if outside(span_of(t, sort), Some(n)) {
                return Applied::Outside;
            }
            constant_of(t, sort, n)
        }
        None => Applied::Gives(Kind::Of(sort)),
    }
}

fn where_taken(takes: bool, value: Applied) -> Applied
    ensures { result ≡ spec.where_taken takes value }
{
    if takes { value } else { Applied::Refused }
}

/// What a standard function of one value makes of it: ABS, CAP, CHR, HIGH, ODD, ORD, and VAL of a type.
#[tactic(auto, unfolding(crate::specs::Operators::function))]
pub fn function(t: &TypeTable, of: Standard, sort: TypeId, a: Kind) -> Applied
    ensures { result ≡ spec.function t.now of sort a }
{
    match of {
        Standard::Abs => where_taken(is_integer(t, a), absolute(number(t, a))),
        Standard::Cap => where_taken(compatible(t, a, Kind::Of(CHAR)), capital(number(t, a))),
        Standard::Chr => where_taken(is_number(t, a), converted(t, CHAR, a)),
        Standard::High => gives_where(matches!(a, Kind::Open(_)), CARDINAL),
        Standard::Odd => where_taken(is_number(t, a), oddness(number(t, a))),
        Standard::Ord => where_taken(is_ordinal(t, a), converted(t, CARDINAL, a)),
        Standard::Val => where_taken(
            span_of(t, sort).is_some() && is_ordinal(t, a),
            converted(t, sort, a),
        ),
        _ => Applied::Refused,
    }
}

/// The least or the greatest value of a type: MIN and MAX.
#[tactic(auto, unfolding(crate::specs::Operators::extreme))]
pub fn extreme(t: &TypeTable, of: Standard, sort: TypeId) -> Applied
    ensures { result ≡ spec.extreme t.now of sort }
{
    match (of, span_of(t, sort)) {
        (Standard::Min, Some(span)) => constant_of(t, sort, span.low),
        (Standard::Max, Some(span)) => constant_of(t, sort, span.high),
        _ => Applied::Refused,
    }
}
