//! The words of numbers.

ghost use Rattle.std.specs.Prelude.{◌≡◌, ◌%◌, pos, ◌≤ℤ◌, true};
ghost use Rattle.lil_base.specs.Words.{word_of};
ghost use Rattle.lil_resolved.specs.{Kinds.{scalar_of, scalar_word, within}, Views.base_view};

use lil_resolved::RBase;

/// The word of a number: the number itself, or 65536 more where it is negative, and 0 below -65536. Of a number above 65535 it
/// is the last 16 bits.
pub fn word_of_number(number: i32) -> u16
    ensures is { number ≤ℤ pos 65535 → result ≡ word_of number }
    ensures low { result ≡ word_of number % 65536 }
{
    if number < -65536 {
        return 0;
    }
    number.rem_euclid(65536) as u16
}

/// The word of a constant of a base, by its number. That of a set has the numbers below 16 that are in the set, and that of
/// NIL and of no procedure is 0.
#[tactic(auto, using(crate::proofs::Sets::low_word))]
pub(crate) fn constant_word(base: RBase, number: i32) -> u16
    ensures { within (base_view base) (scalar_of (base_view base) number) ≡ true → result ≡ scalar_word (scalar_of (base_view base) number) }
{
    match base {
        RBase::Truth => u16::from(number != 0),
        RBase::Cardinal | RBase::Integer | RBase::Character | RBase::Enumeration(_) | RBase::Set =>
            word_of_number(number),
        RBase::Pointer(_) | RBase::Address | RBase::Procedure(_) => 0,
    }
}
