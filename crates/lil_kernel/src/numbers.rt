//! Numbers as texts.

ghost use Rattle.std.specs.Prelude.{◌≡◌, ◌<◌, ◌≤◌, length, reverse};
ghost use Rattle.lil_base.specs.Words.{Integer, number_of};
ghost use Rattle.lil_meaning.specs.World.{digit as digit_of, natural as natural_text, signed as signed_text};

use arrayvec::ArrayVec;

/// The text of a number: at most six digits, and a sign before at most five.
pub(crate) type Text = ArrayVec<u8, 6>;

/// The character of a digit to a base of at most 16.
fn digit(value: u16) -> u8
    requires { value < 16 }
    ensures { result ≡ digit_of value }
{
    if value < 10 {
        b'0' + value as u8
    } else {
        b'A' - 10 + value as u8
    }
}

/// The digits of a number to a base from 8 to 16, the last one first.
#[tactic(auto, using(crate::proofs::Digits::all_left, crate::proofs::Digits::next_left, crate::proofs::Digits::none_left))]
fn digits_backward(base: u16, number: u16) -> Text
    requires least { 8 ≤ base }
    requires most { base ≤ 16 }
    ensures digits { reverse result.items ≡ natural_text base number }
{
    let mut text = Text::new();
    let mut rest = number;
    while rest >= base {
        text.push(digit(rest % base));
        rest /= base;
    }
    text.push(digit(rest));
    text
}

/// A CARDINAL to a base from 8 to 16.
pub(crate) fn natural(base: u16, number: u16) -> Text
    requires least { 8 ≤ base }
    requires most { base ≤ 16 }
    ensures { result.items ≡ natural_text base number }
{
    let mut text = digits_backward(base, number);
    text.as_mut_slice().reverse();
    text
}

/// The INTEGER that a word says, in decimal.
pub(crate) fn signed(word: u16) -> Text
    ensures { result.items ≡ signed_text (number_of Integer word) }
{
    if word < 32768 {
        return natural(10, word);
    }
    let mut text = digits_backward(10, 65535 - word + 1);
    text.push(b'-');
    text.as_mut_slice().reverse();
    text
}
