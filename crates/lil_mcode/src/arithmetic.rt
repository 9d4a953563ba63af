//! Operators and comparisons on words.

ghost use Rattle.std.specs.Prelude.{◌≡◌, ◌≢◌, pos, ◌-ℤ◌, ◌<ℤ◌, ◌≤ℤ◌};
ghost use Rattle.lil_base.specs.{Words.{Cardinal, Integer, number_of, word_of}, Traps.arith_trap};
ghost use Rattle.lil_mcode.specs.{Control.{loop_type, turns_up, turns, after_first}, Operators.{operator_of, comparison_of, joined_by, word_result}, Table.{capital, truth}};

use lil_base::{
    ArithFault, TrapKind, add_card, add_int, div_card, div_int, mod_card, mod_int, mul_card,
    mul_int, set_either, set_has, set_meet, set_minus, set_union, set_within, sub_card, sub_int,
};

/// The operators on two whole numbers.
#[derive(Clone, Copy)]
pub(crate) enum Operator {
    Sum,
    Difference,
    Product,
    Quotient,
    Remainder,
}

/// The comparisons of two words.
#[derive(Clone, Copy)]
pub(crate) enum Comparison {
    Equal,
    Unequal,
    LessCardinal,
    AtMostCardinal,
    LessInteger,
    AtMostInteger,
    Member,
    Within,
}

/// The operators on two sets.
#[derive(Clone, Copy)]
pub(crate) enum Joining {
    Union,
    Minus,
    Meet,
    Apart,
}

/// The INTEGER that a word says.
pub(crate) fn integer(word: u16) -> i16
    ensures { result ≡ number_of Integer word }
{
    if word < 32768 {
        word as i16
    } else {
        (i32::from(word) - 65536) as i16
    }
}

/// The word that says an INTEGER.
pub(crate) fn word_of_integer(number: i16) -> u16
    ensures { result ≡ word_of number }
{
    if number < 0 {
        (i32::from(number) + 65536) as u16
    } else {
        number as u16
    }
}

/// A result as a word.
pub(crate) fn as_word(number: Result<i16, ArithFault>) -> Result<u16, ArithFault>
    ensures { result ≡ word_result number }
{
    match number {
        Ok(number) => Ok(word_of_integer(number)),
        Err(fault) => Err(fault),
    }
}

/// The result of an operator on two CARDINALs.
#[tactic(auto, using(crate::proofs::WordLaws::of_cardinal))]
pub(crate) fn on_cardinals(operator: Operator, x: u16, y: u16) -> Result<u16, ArithFault>
    ensures { result ≡ word_result (operator_of operator Cardinal (pos x) (pos y)) }
{
    match operator {
        Operator::Sum => add_card(x, y),
        Operator::Difference => sub_card(x, y),
        Operator::Product => mul_card(x, y),
        Operator::Quotient => div_card(x, y),
        Operator::Remainder => mod_card(x, y),
    }
}

fn on_numbers(operator: Operator, x: i16, y: i16) -> Result<i16, ArithFault>
    ensures { result ≡ operator_of operator Integer x y }
{
    match operator {
        Operator::Sum => add_int(x, y),
        Operator::Difference => sub_int(x, y),
        Operator::Product => mul_int(x, y),
        Operator::Quotient => div_int(x, y),
        Operator::Remainder => mod_int(x, y),
    }
}

/// The result of an operator on two words as INTEGERs.
pub(crate) fn on_integers(operator: Operator, x: u16, y: u16) -> Result<u16, ArithFault>
    ensures { result ≡ word_result (operator_of operator Integer (number_of Integer x) (number_of Integer y)) }
{
    as_word(on_numbers(operator, integer(x), integer(y)))
}

/// Whether a comparison holds.
pub(crate) fn compares(comparison: Comparison, x: u16, y: u16) -> bool
    ensures { result ≡ comparison_of comparison x y }
{
    match comparison {
        Comparison::Equal => x == y,
        Comparison::Unequal => x != y,
        Comparison::LessCardinal => x < y,
        Comparison::AtMostCardinal => x <= y,
        Comparison::LessInteger => integer(x) < integer(y),
        Comparison::AtMostInteger => integer(x) <= integer(y),
        Comparison::Member => set_has(y, x),
        Comparison::Within => set_within(x, y),
    }
}

/// What two sets make.
pub(crate) fn joined(joining: Joining, s: u16, t: u16) -> u16
    ensures { result ≡ joined_by joining s t }
{
    match joining {
        Joining::Union => set_union(s, t),
        Joining::Minus => set_minus(s, t),
        Joining::Meet => set_meet(s, t),
        Joining::Apart => set_either(s, t),
    }
}

/// The word of a truth value.
pub(crate) fn truth_word(holds: bool) -> u16
    ensures { result ≡ truth holds }
{
    if holds { 1 } else { 0 }
}

/// The code of a capital for that of a small letter.
pub(crate) fn capital_of(word: u16) -> u16
    ensures { result ≡ capital word }
{
    if 97 <= word && word <= 122 {
        word - 32
    } else {
        word
    }
}

/// The trap of a result that doesn't exist.
pub(crate) fn trap_of(fault: ArithFault) -> TrapKind
    ensures { result ≡ arith_trap fault }
{
    match fault {
        ArithFault::Overflow => TrapKind::Overflow,
        ArithFault::DivZero => TrapKind::Divisor,
    }
}

fn bound(kind: u8, word: u16) -> i32
    ensures value { result ≡ number_of (loop_type kind) word }
{
    if kind == 0 {
        i32::from(word)
    } else {
        i32::from(integer(word))
    }
}

fn left_up(from: i32, to: i32, by: i32) -> Option<u16>
    requires rises { pos 0 <ℤ by }
    requires near { (to -ℤ from) ≤ℤ pos 65535 }
    ensures { result ≡ after_first (turns_up from to by) }
{
    if to < from {
        return None;
    }
    let span = (to - from) as u32;
    Some((span / (by as u32)) as u16)
}

/// The turns that are left in the first turn of a loop from one word to another, where there is one.
pub(crate) fn turns_left(kind: u8, from: u16, to: u16, by: u16) -> Option<u16>
    requires { by ≢ 0 }
    ensures { result ≡ after_first (turns (number_of (loop_type kind) from) (number_of (loop_type kind) to) (number_of Integer by)) }
{
    let from = bound(kind, from);
    let to = bound(kind, to);
    let by = i32::from(integer(by));
    if by < 0 {
        left_up(to, from, -by)
    } else {
        left_up(from, to, by)
    }
}
