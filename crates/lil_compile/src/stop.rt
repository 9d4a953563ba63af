ghost use Rattle.std.specs.Prelude.{◌≡◌};
ghost use Rattle.lil_compile.specs.declared.stop.CompileStop.TheVariants as why;
ghost use Rattle.lil_compile.specs.Layers.{stopped_by, failed_by, imported_by};

use lil_base::{Memory, SourceFault};
use lil_imports::ImportStop;
use lil_text::ReadStop;
use lil_volume::VolumeError;

/// Why a definition isn't compiled.
#[derive(Drop)]
pub enum CompileStop {
    /// The volume hasn't the source.
    NoFile,
    /// The fault of the source's text.
    Source(SourceFault),
    /// A call of the volume failed.
    Volume,
    /// Want of memory.
    Memory,
}

impl From<Memory> for CompileStop {
    ghost from_gives = { λ _ e. e ≡ why.Memory };

    fn from(_: Memory) -> CompileStop {
        CompileStop::Memory
    }
}

impl From<ReadStop> for CompileStop {
    ghost from_gives = { λ stop e. e ≡ stopped_by stop };

    fn from(stop: ReadStop) -> CompileStop {
        match stop {
            ReadStop::Fault(fault) => CompileStop::Source(fault),
            ReadStop::Memory => CompileStop::Memory,
        }
    }
}

impl From<VolumeError> for CompileStop {
    ghost from_gives = { λ error e. e ≡ failed_by error };

    fn from(error: VolumeError) -> CompileStop {
        match error {
            VolumeError::Failed => CompileStop::Volume,
            VolumeError::Memory => CompileStop::Memory,
        }
    }
}

impl From<ImportStop> for CompileStop {
    ghost from_gives = { λ stop e. e ≡ imported_by stop };

    fn from(stop: ImportStop) -> CompileStop {
        match stop {
            ImportStop::Source(fault) => CompileStop::Source(fault),
            ImportStop::Volume => CompileStop::Volume,
            ImportStop::Memory => CompileStop::Memory,
        }
    }
}
