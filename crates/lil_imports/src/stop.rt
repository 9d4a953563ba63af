ghost use Rattle.std.specs.Prelude.{◌≡◌};
ghost use Rattle.lil_imports.specs.declared.stop.ImportStop.TheVariants as why;
ghost use Rattle.lil_imports.specs.Ran.{failed_by};

use lil_base::{Memory, SourceFault};
use lil_volume::VolumeError;

/// Why the interfaces of imports aren't there.
#[derive(Drop)]
pub enum ImportStop {
    /// The fault of an import.
    Source(SourceFault),
    /// A call of the volume failed.
    Volume,
    /// Want of memory.
    Memory,
}

impl From<Memory> for ImportStop {
    ghost from_gives = { λ _ e. e ≡ why.Memory };

    fn from(_: Memory) -> ImportStop {
        ImportStop::Memory
    }
}

impl From<VolumeError> for ImportStop {
    ghost from_gives = { λ error e. e ≡ failed_by error };

    fn from(error: VolumeError) -> ImportStop {
        match error {
            VolumeError::Failed => ImportStop::Volume,
            VolumeError::Memory => ImportStop::Memory,
        }
    }
}
