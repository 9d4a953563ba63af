ghost use Rattle.std.specs.Prelude.{◌≡◌};
ghost use Rattle.lil_text.specs.declared.stop.ReadStop.TheVariants as why;

use lil_base::{Memory, SourceFault};

/// Why reading a text stopped: its fault, or want of memory.
#[derive(Drop)]
pub enum ReadStop {
    Fault(SourceFault),
    Memory,
}

impl From<Memory> for ReadStop {
    ghost from_gives = { λ _ e. e ≡ why.Memory };

    fn from(_: Memory) -> ReadStop {
        ReadStop::Memory
    }
}
