ghost use Rattle.std.specs.Prelude.{◌≡◌, ◌⊎◌, ℕ, List, Option, IfOk, OnOk, OnErr};
ghost use Rattle.lil_volume.specs.{declared.outside.VolumeError.TheVariants.Memory as WantsMemory, Causes.{HasCause, VolumeCause}, Told.{Files, FileIs, with_file, followed_by, FollowedByPrefix, KeyTaken}};

use lil_base::{Bytes, FileName, Memory};
use std::alloc::Global;
use thiserror::Error;

/// Why a volume gave no answer.
#[derive(Clone, Copy, Debug, PartialEq, Eq, Error)]
pub enum VolumeError {
    /// The volume didn't do what it was asked for. That counts as a fault.
    #[error("the volume failed")]
    Failed,
    /// There was no memory for the name or the bytes. That is no fault of the volume.
    #[error("memory")]
    Memory,
}

impl From<Memory> for VolumeError {
    ghost from_gives = { λ _ e. e ≡ WantsMemory };

    fn from(_: Memory) -> VolumeError {
        VolumeError::Memory
    }
}

/// The keyboard gave no answer.
#[derive(Clone, Copy, Debug, PartialEq, Eq, Error)]
#[error("the keyboard failed")]
pub struct KeyFailed;

/// The sink did not take the whole piece.
#[derive(Clone, Copy, Debug, PartialEq, Eq, Error)]
#[error("the sink failed")]
pub struct SinkFailed;

/// Files by their names, as Medos-2 has them (Knudsen; ETH report 40): a file is a row of bytes.
/// Where Medos-2 reads and writes a file as a stream with a position in it, a volume gives and
/// takes all of its bytes at once.
pub trait Volume {
    /// The files, or None where they are not told.
    ghost files: { Self → Option Files };

    /// How often the volume failed.
    ghost faults: { Self → ℕ };

    /// The bytes of a file, or None where the volume has no file of that name. No file changes.
    fn read(&mut self, alloc: Global, name: &FileName) -> Result<Option<Bytes>, VolumeError>
        ensures found { IfOk result (λ found. FileIs (files self.old) name.now found) }
        ensures same { files self.new ≡ files self.old }
        ensures cause { VolumeCause (faults self.old) (faults self.new) result };

    /// Makes a file, or gives it new bytes. After an error that file is as before or new, and all
    /// others are as they were.
    fn write(&mut self, alloc: Global, name: &FileName, content: &Bytes) -> Result<(), VolumeError>
        ensures ok { OnOk result (files self.new ≡ with_file (files self.old) name.now content.now) }
        ensures err { OnErr result ((files self.new ≡ files self.old) ⊎ (files self.new ≡ with_file (files self.old) name.now content.now)) }
        ensures cause { VolumeCause (faults self.old) (faults self.new) result };
}

/// Keys, as bytes that are taken one by one, as by `Read` of the module Terminal (ETH report 40;
/// Programming in Modula-2).
pub trait Keyboard {
    /// The keys that are left, or None where they are not told.
    ghost left: { Self → Option (List ℕ) };

    /// How often the keyboard failed.
    ghost faults: { Self → ℕ };

    /// Takes the next key, or None where none is left. A failed call leaves the keys.
    fn key(&mut self) -> Result<Option<u8>, KeyFailed>
        ensures ok { IfOk result (λ key. KeyTaken (left self.old) (left self.new) key) }
        ensures err { OnErr result (left self.new ≡ left self.old) }
        ensures cause { HasCause (faults self.old) (faults self.new) result };
}

/// Bytes that are written a piece at a time: a screen, as by `Write` of the module Terminal (ETH
/// report 40; Programming in Modula-2), or the report of a command.
pub trait Sink {
    /// The bytes written, or None where they are not told.
    ghost written: { Self → Option (List ℕ) };

    /// How often the sink failed.
    ghost faults: { Self → ℕ };

    /// Writes a piece. After a failure a prefix of the piece was written.
    fn put(&mut self, piece: &[u8]) -> Result<(), SinkFailed>
        ensures ok { OnOk result (written self.new ≡ followed_by (written self.old) piece.now) }
        ensures err { OnErr result (FollowedByPrefix (written self.old) piece.now (written self.new)) }
        ensures cause { HasCause (faults self.old) (faults self.new) result };
}
