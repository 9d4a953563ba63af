ghost use Rattle.std.specs.Prelude.{◌≡◌};
ghost use Rattle.lil_unit.specs.declared.stop.GenStop.TheVariants as why;

use lil_base::Memory;
use thiserror::Error;

/// Why a module has no code.
#[derive(Clone, Copy, Debug, PartialEq, Eq, Error)]
pub enum GenStop {
    /// Its code would have more than 32,767 bytes: so many, or 4,294,967,295 where they are more.
    #[error("code of {bytes} bytes")]
    CodeTooLong { bytes: u32 },
    /// Memory is wanting.
    #[error("memory")]
    Memory,
}

impl From<Memory> for GenStop {
    ghost from_gives = { λ _ e. e ≡ why.Memory };

    fn from(_: Memory) -> GenStop {
        GenStop::Memory
    }
}
