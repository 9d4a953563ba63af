ghost use Rattle.std.specs.Prelude.{◌≡◌, ◌||◌, not, int_lt, ◌*ℤ◌, Err, Option, Some, None};
ghost use Rattle.lil_base.specs.Words as words;
ghost use Rattle.lil_types.specs.Folding as spec;

use crate::relations::{base, compatible, entry, same};
use crate::table::{
    BITSET, BOOLEAN, CARDINAL, CHAR, Const, FoldStop, INTEGER, TypeForm, TypeId, TypeTable,
};
use lil_base::{
    OneOp, TwoOp, set_has, whole_difference, whole_product, whole_quotient, whole_rest, whole_sum,
};

/// Operands that the operator doesn't take.
const OPERANDS: FoldStop = FoldStop::Fault(30);

/// A result outside -32768 to 65535, or a divisor that is zero.
const ARITHMETIC: FoldStop = FoldStop::Fault(52);

fn truth(is: bool) -> Result<Const, FoldStop>
    ensures { spec.folded_as result ≡ spec.truth is }
{
    Ok(Const::Scalar(BOOLEAN, u16::from(is)))
}

fn whole(v: i64) -> Result<Const, FoldStop>
    ensures { spec.folded_as result ≡ spec.whole v }
{
    if v < -32768 || 65535 < v {
        return Err(ARITHMETIC);
    }
    Ok(Const::Whole(v as i32))
}

fn quotient(m: i32, n: i32) -> Result<Const, FoldStop>
    ensures { spec.folded_as result ≡ spec.divided n (words.whole_quotient m n) }
{
    if n == 0 {
        return Err(ARITHMETIC);
    }
    whole(whole_quotient(m, n))
}

fn rest(m: i32, n: i32) -> Result<Const, FoldStop>
    ensures { spec.folded_as result ≡ spec.divided n (words.whole_rest m n) }
{
    if n == 0 {
        return Err(ARITHMETIC);
    }
    whole(whole_rest(m, n))
}

fn wholes(op: TwoOp, m: i32, n: i32) -> Result<Const, FoldStop>
    ensures { spec.folded_as result ≡ spec.wholes op m n }
{
    match op {
        TwoOp::Plus => whole(whole_sum(m, n)),
        TwoOp::Minus => whole(whole_difference(m, n)),
        TwoOp::Times => whole(whole_product(m, n)),
        TwoOp::Div => quotient(m, n),
        TwoOp::Mod => rest(m, n),
        TwoOp::Equal => truth(m == n),
        TwoOp::Unequal => truth(m != n),
        TwoOp::Less => truth(m < n),
        TwoOp::AtMost => truth(m <= n),
        TwoOp::Greater => truth(m > n),
        TwoOp::AtLeast => truth(m >= n),
        TwoOp::In | TwoOp::Or | TwoOp::Slash | TwoOp::And => Err(OPERANDS),
    }
}

fn both_true(b: TypeId, is: bool) -> Result<Const, FoldStop>
    ensures { spec.folded_as result ≡ spec.both_true b is }
{
    if b == BOOLEAN {
        truth(is)
    } else {
        Err(OPERANDS)
    }
}

/// Of two ordinals of one base, by their words.
fn ordinals(b: TypeId, op: TwoOp, x: u16, y: u16) -> Result<Const, FoldStop>
    ensures { spec.folded_as result ≡ spec.ordinals b op x y }
{
    match op {
        TwoOp::Equal => truth(x == y),
        TwoOp::Unequal => truth(x != y),
        TwoOp::Less => truth(x < y),
        TwoOp::AtMost => truth(x <= y),
        TwoOp::Greater => truth(x > y),
        TwoOp::AtLeast => truth(x >= y),
        TwoOp::And => both_true(b, x == 1 && y == 1),
        TwoOp::Or => both_true(b, x == 1 || y == 1),
        TwoOp::In | TwoOp::Plus | TwoOp::Minus | TwoOp::Times => Err(OPERANDS),
        TwoOp::Slash | TwoOp::Div | TwoOp::Mod => Err(OPERANDS),
    }
}

/// Of two sets of type `a`.
fn sets(a: TypeId, op: TwoOp, x: u16, y: u16) -> Result<Const, FoldStop>
    ensures { spec.folded_as result ≡ spec.sets a op x y }
{
    match op {
        TwoOp::Plus => Ok(Const::Scalar(a, x | y)),
        TwoOp::Minus => Ok(Const::Scalar(a, x & !y)),
        TwoOp::Times => Ok(Const::Scalar(a, x & y)),
        TwoOp::Slash => Ok(Const::Scalar(a, x ^ y)),
        TwoOp::Equal => truth(x == y),
        TwoOp::Unequal => truth(x != y),
        TwoOp::AtMost => truth((x | y) == y),
        TwoOp::AtLeast => truth((x | y) == x),
        TwoOp::Less | TwoOp::Greater | TwoOp::In | TwoOp::Or => Err(OPERANDS),
        TwoOp::Div | TwoOp::Mod | TwoOp::And => Err(OPERANDS),
    }
}

/// The base of a set type, None for any other.
fn set_base(t: &TypeTable, a: TypeId) -> Option<TypeId>
    ensures { result ≡ spec.set_base t.now a }
{
    if a == BITSET {
        return Some(CARDINAL);
    }
    match entry(t, a) {
        Some(e) => match &e.form {
            TypeForm::SetOf(b) => Some(base(t, *b)),
            _ => None,
        },
        None => None,
    }
}

fn is_member(y: u16, x: u16) -> bool
    ensures { result ≡ spec.is_member y x }
{
    x < 16 && set_has(y, x)
}

/// Of two values by their types and words, but for IN.
fn alike(t: &TypeTable, op: TwoOp, a: (TypeId, u16), b: (TypeId, u16)) -> Result<Const, FoldStop>
    ensures { spec.folded_as result ≡ spec.scalars_by (spec.set_base t.now a.0) (spec.set_base t.now b.0) t.now op a.0 a.1 b.0 b.1 }
{
    if set_base(t, a.0).is_some() {
        if same(t, a.0, b.0) {
            return sets(a.0, op, a.1, b.1);
        }
        return Err(OPERANDS);
    }
    if set_base(t, b.0).is_none() && compatible(t, a.0, b.0) {
        return ordinals(base(t, a.0), op, a.1, b.1);
    }
    Err(OPERANDS)
}

/// Of two values by their types and words.
fn scalars(t: &TypeTable, op: TwoOp, a: (TypeId, u16), b: (TypeId, u16)) -> Result<Const, FoldStop>
    ensures { spec.folded_as result ≡ spec.scalars t.now op a.0 a.1 b.0 b.1 }
{
    match op {
        TwoOp::In => match set_base(t, b.0) {
            Some(c) if base(t, a.0) == c => truth(is_member(b.1, a.1)),
            _ => Err(OPERANDS),
        },
        _ => alike(t, op, a, b),
    }
}

/// Whether a whole constant goes with a type of this base.
pub fn fits(b: TypeId, m: i32) -> bool
    ensures { result ≡ spec.fits b m }
{
    (b == INTEGER && m <= 32767) || (b == CARDINAL && m >= 0)
}

fn is_whole_member(y: u16, m: i32) -> bool
    ensures { result ≡ spec.is_whole_member y m }
{
    m >= 0 && m < 16 && set_has(y, m as u16)
}

fn whole_and_scalar(t: &TypeTable, op: TwoOp, m: i32, b: (TypeId, u16)) -> Result<Const, FoldStop>
    ensures { spec.folded_as result ≡ spec.whole_and_scalar t.now op m b.0 b.1 }
{
    match op {
        TwoOp::In => match set_base(t, b.0) {
            Some(c) if fits(c, m) => truth(is_whole_member(b.1, m)),
            _ => Err(OPERANDS),
        },
        _ => Err(OPERANDS),
    }
}

/// An operator with two constants: the constant that comes out. A string of one character beside a value stands for the
/// character. The fault is 30 where the operator doesn't take these operands, and 52 where a result of whole numbers lies
/// outside -32768 to 65535 or the divisor is zero.
pub fn fold_two(t: &TypeTable, op: TwoOp, a: &Const, b: &Const) -> Result<Const, FoldStop>
    ensures { spec.folded_as result ≡ spec.folded_two t.now op a.now b.now }
{
    match (a, b) {
        (Const::Whole(m), Const::Whole(n)) => wholes(op, *m, *n),
        (Const::Whole(m), Const::Scalar(b, y)) => whole_and_scalar(t, op, *m, (*b, *y)),
        (Const::Scalar(a, x), Const::Scalar(b, y)) => scalars(t, op, (*a, *x), (*b, *y)),
        (Const::Chars(text), Const::Scalar(b, y)) => match text.as_slice() {
            [c] => scalars(t, op, (CHAR, u16::from(*c)), (*b, *y)),
            _ => Err(OPERANDS),
        },
        (Const::Scalar(a, x), Const::Chars(text)) => match text.as_slice() {
            [c] => scalars(t, op, (*a, *x), (CHAR, u16::from(*c))),
            _ => Err(OPERANDS),
        },
        _ => Err(OPERANDS),
    }
}

/// An operator with one constant: the constant that comes out. The fault is 30 where the operator doesn't take the operand,
/// and 52 where the result lies outside -32768 to 65535.
pub fn fold_one(t: &TypeTable, op: OneOp, a: &Const) -> Result<Const, FoldStop>
    ensures { spec.folded_as result ≡ spec.folded_one t.now op a.now }
{
    match (op, a) {
        (OneOp::Plus, Const::Whole(v)) => Ok(Const::Whole(*v)),
        (OneOp::Minus, Const::Whole(v)) => whole(-i64::from(*v)),
        (OneOp::Not, Const::Scalar(a, x)) => both_true(base(t, *a), *x == 0),
        _ => Err(OPERANDS),
    }
}
