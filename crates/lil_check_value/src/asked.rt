ghost use Rattle.std.specs.Prelude.{◌≡◌};
ghost use Rattle.lil_check_value.specs.Values as spec;

use lil_call::Callee;
use lil_declared::Standard;

/// Whether the first argument of a call should be a type's name.
#[derive(Clone, Copy)]
pub enum Asked {
    Never,
    First,
}

fn standard_asks(of: Standard) -> Asked
    ensures { result ≡ spec.standard_asks of }
{
    match of {
        Standard::Max => Asked::First,
        Standard::Min => Asked::First,
        Standard::Val => Asked::First,
        _ => Asked::Never,
    }
}

pub(crate) fn asks(of: &Option<Callee>) -> Asked
    ensures { result ≡ spec.asks of.now }
{
    match of {
        Some(Callee::Standard(standard)) => standard_asks(*standard),
        _ => Asked::Never,
    }
}

pub(crate) fn asks_at(of: Asked, number: usize) -> bool
    ensures { result ≡ spec.asks_at of number }
{
    match of {
        Asked::First => number == 0,
        Asked::Never => false,
    }
}
