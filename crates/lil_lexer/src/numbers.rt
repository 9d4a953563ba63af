ghost use Rattle.std.specs.Prelude.{◌≡◌, ◌≤◌, ◌<◌, ◌+◌, length, IfSome, MatchOption};
ghost use Rattle.lil_text.specs.Lexical as lexical;
ghost use Rattle.lil_lexer.specs.Pieces as spec;
ghost use Rattle.lil_lexer.specs.Pieces.{Reads};

use crate::bytes::{all_digits, all_hex, all_octal, begins_with, digit_value, hex_len};
use crate::pieces::stop;
use lil_base::{FaultKind, Place};
use lil_text::{ReadStop, TokenKind};

/// How many bytes the number takes with which a text begins: digits and A to F, and an H that follows them.
#[tactic(auto, unfolding(crate::specs::Pieces::run_len))]
pub(crate) fn run_len(text: &[u8]) -> usize
    ensures len { result ≡ spec.run_len text.now }
    ensures within { result ≤ length text.now }
{
    let len = hex_len(text);
    if begins_with(b'H', &text[len..]) {
        len + 1
    } else {
        len
    }
}

/// What digits say to a base, or None above the limit.
#[tactic(auto, using(crate::proofs::Values::grows, std::proofs::lemmas::Grind::common_steps))]
fn value_within(base: u32, limit: u32, digits: &[u8]) -> Option<u32>
    requires base { (1 ≤ base) × (base ≤ 16) }
    requires limit { limit ≤ 65535 }
    ensures value { MatchOption result (limit < lexical.value base digits.now) (λ value. value ≡ lexical.value base digits.now) }
    ensures within { IfSome result (λ value. value ≤ limit) }
{
    let mut value: u32 = 0;
    for digit in digits {
        value = base * value + u32::from(digit_value(*digit));
        if limit < value {
            return None;
        }
    }
    Some(value)
}

fn number(base: u32, digits: &[u8], place: Place) -> Result<TokenKind, ReadStop>
    requires { (1 ≤ base) × (base ≤ 16) }
    ensures { Reads (spec.judged place (spec.number base digits.now)) result }
{
    match value_within(base, 65535, digits) {
        None => Err(stop(FaultKind::NumberTooLarge, place)),
        Some(value) => Ok(TokenKind::Number(value as u16)),
    }
}

fn code(digits: &[u8], place: Place) -> Result<TokenKind, ReadStop>
    ensures { Reads (spec.judged place (spec.code digits.now)) result }
{
    match value_within(8, 255, digits) {
        None => Err(stop(FaultKind::NumberTooLarge, place)),
        Some(value) => Ok(TokenKind::CharCode(value as u8)),
    }
}

/// What a run says that begins with a digit.
#[tactic(auto, unfolding(crate::specs::Pieces::says))]
pub(crate) fn numeral(run: &[u8], place: Place) -> Result<TokenKind, ReadStop>
    ensures { Reads (spec.judged place (spec.says run.now)) result }
{
    match run {
        [digits @ .., b'H'] if all_hex(digits) => number(16, digits, place),
        [digits @ .., b'B'] if all_octal(digits) => number(8, digits, place),
        [digits @ .., b'C'] if all_octal(digits) => code(digits, place),
        _ if all_digits(run) => number(10, run, place),
        _ => Err(stop(FaultKind::BadNumber, place)),
    }
}
