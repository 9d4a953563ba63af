ghost use Rattle.std.specs.Prelude.{◌≡◌};
ghost use Rattle.lil_format.specs.declared.stop.Stop.TheVariants as why;

use lil_base::Memory;

/// Why a part of a file was not read: so many bytes are left from the fault on, or want of memory.
#[derive(Clone, Copy, Debug, PartialEq, Eq)]
pub enum Stop {
    Left(usize),
    Memory,
}

impl From<Memory> for Stop {
    ghost from_gives = { λ _ e. e ≡ why.Memory };

    fn from(_: Memory) -> Stop {
        Stop::Memory
    }
}
