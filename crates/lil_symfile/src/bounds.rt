ghost use Rattle.std.specs.Prelude.{◌≡◌};
ghost use Rattle.lil_format.specs.Reading.{Reads};
ghost use Rattle.lil_format.specs.Format.{reads};
ghost use Rattle.lil_symfile.specs.Numbers as numbers;
ghost use Rattle.lil_symfile.specs.Symbol as spec;

use lil_format::{Source, Stop};

/// The number that a word means.
fn word_value(signed: bool, n: u16) -> i32
    ensures { result ≡ numbers.word_value signed n }
{
    if signed && 32768 <= n {
        i32::from(n) - 65536
    } else {
        i32::from(n)
    }
}

/// The number that a field of four bytes means.
fn long_value(n: u32) -> i32
    ensures { result ≡ numbers.long_value n }
{
    if 2_147_483_648 <= n {
        (i64::from(n) - 4_294_967_296) as i32
    } else {
        n as i32
    }
}

/// The lower bound of a subrange.
#[tactic(auto, unfolding(crate::specs::Symbol::lower, lil_format::specs::Format::reads))]
pub fn lower(source: &mut Source<'_>, signed: bool) -> Result<i32, Stop>
    ensures { Reads (reads (spec.lower signed) source.old) result source.new }
{
    match source.word() {
        None => Err(Stop::Left(0)),
        Some(n) => Ok(word_value(signed, n)),
    }
}

/// The upper bound, which isn't below the lower one.
#[tactic(auto, unfolding(crate::specs::Symbol::upper, lil_format::specs::Format::reads))]
pub fn upper(source: &mut Source<'_>, signed: bool, low: i32) -> Result<i32, Stop>
    ensures { Reads (reads (spec.upper signed low) source.old) result source.new }
{
    let here = source.left();
    match source.word() {
        None => Err(Stop::Left(0)),
        Some(n) => {
            let high = word_value(signed, n);
            if low <= high {
                Ok(high)
            } else {
                Err(Stop::Left(here))
            }
        }
    }
}

/// A whole constant.
#[tactic(auto, unfolding(lil_format::specs::Format::reads))]
pub fn constant(source: &mut Source<'_>) -> Result<i32, Stop>
    ensures { Reads (reads (numbers.long_such spec.is_constant) source.old) result source.new }
{
    let here = source.left();
    match source.long() {
        None => Err(Stop::Left(0)),
        Some(n) => {
            let value = long_value(n);
            if -32768 <= value && value <= 65535 {
                Ok(value)
            } else {
                Err(Stop::Left(here))
            }
        }
    }
}
