ghost use Rattle.std.specs.Prelude.{◌≡◌, ◌↔◌, ◌≤◌, None, Ok, true, false, IfOk, IfErr, IfSome, IsOk, OnOk, IsErrOf, IsTrue, length};
ghost use Rattle.std.specs.declared.fs.locks.TryLockError.TheVariants.{WouldBlock};
ghost use Rattle.std.specs.{Fs.{file_type, IsFile}, IoError.error_kind};
ghost use Rattle.lil_volume.specs.Causes.{VolumeCause};

use crate::schedule::one_more;
use crate::streams::write_whole;
use crate::{Volume, VolumeError};
use lil_base::{Bytes, FileName};
use std::alloc::Global;
use std::fs::{File, Metadata, TryLockError};
use std::io::{ErrorKind, Read};
use std::os::unix::fs::MetadataExt;
use std::rt::Files;
use std::{fs, io, str};

/// The most bytes of a file.
const MOST_BYTES: usize = 16_777_216;

/// A file is written under one of these names first and then renamed: as many calls may write in a
/// folder at once. For their hyphens they are no `FileName`s.
const BESIDE: [&str; 16] = [
    "lilith-new-1",
    "lilith-new-2",
    "lilith-new-3",
    "lilith-new-4",
    "lilith-new-5",
    "lilith-new-6",
    "lilith-new-7",
    "lilith-new-8",
    "lilith-new-9",
    "lilith-new-10",
    "lilith-new-11",
    "lilith-new-12",
    "lilith-new-13",
    "lilith-new-14",
    "lilith-new-15",
    "lilith-new-16",
];

/// The files of the current folder, of at most 16,777,216 bytes each. A link to a file is read as
/// that file. A name of a folder, a pipe, a socket or a device is a fault of each call, and that of
/// a link is a fault of a write. After a write that fails the file is as before. As with Medos-2's
/// `Create` and `Rename` (Knudsen), a file gets its name when it is whole: it is written under the
/// first of 16 names `lilith-new-1` and on that is free, locked meanwhile, and then renamed. A file
/// of these names that nobody holds locked was left there by a call that died, and is taken away.
#[derive(Drop)]
pub struct FolderVolume<R: Files<File = File> + Drop> {
    runtime: R,
    faults: u64,
}

impl<R: Files<File = File> + Drop> FolderVolume<R> {
    /// The current folder, without faults so far.
    pub fn new(runtime: R) -> FolderVolume<R>
        ensures { result.faults ≡ 0 }
    {
        FolderVolume { runtime, faults: 0 }
    }
}

/// Whether a file stands where the host was asked what is there. A folder, a pipe, a socket, a
/// device and, where the host didn't follow it, a link are faults, and are told without being
/// opened.
fn is_there(found: io::Result<Metadata>) -> Result<bool, VolumeError>
    ensures some { IfOk found (λ what. result ≡ Ok true ↔ IsFile (file_type what)) }
    ensures none { IfErr found (λ error. result ≡ Ok false ↔ error_kind error ≡ ErrorKind.NotFound) }
{
    match found {
        Ok(what) => {
            if what.is_file() {
                return Ok(true);
            }
            Err(VolumeError::Failed)
        }
        Err(error) => {
            if error.kind() == ErrorKind::NotFound {
                return Ok(false);
            }
            Err(VolumeError::Failed)
        }
    }
}

/// All bytes of a reader that has at most `MOST_BYTES`.
fn read_whole<F: Read + Drop>(alloc: Global, file: F) -> Result<Bytes, VolumeError>
    ensures within { IfOk result (λ bytes. length bytes ≤ MOST_BYTES) }
    ensures whole { IfOk result (λ bytes. IfSome (F.remaining file) (λ all. bytes ≡ all)) }
{
    let mut bytes = Vec::new(alloc);
    let mut limited = file.take(16_777_217);
    match limited.read_to_end(&mut bytes) {
        Ok(_) => {
            let bytes = Bytes::of_vec(bytes);
            if bytes.len() > MOST_BYTES {
                return Err(VolumeError::Failed);
            }
            Ok(bytes)
        }
        Err(error) => {
            if error.kind() == ErrorKind::OutOfMemory {
                return Err(VolumeError::Memory);
            }
            Err(VolumeError::Failed)
        }
    }
}

fn read_file<R: Files<File = File>>(
    runtime: &R,
    alloc: Global,
    name: &FileName,
) -> Result<Option<Bytes>, VolumeError>
    ensures { IfOk result (λ found. IfSome found (λ bytes. length bytes ≤ MOST_BYTES)) }
{
    let Ok(path) = str::from_utf8(name.text().as_slice()) else {
        return Err(VolumeError::Failed);
    };
    if !is_there(fs::metadata(runtime, path))? {
        return Ok(None);
    }
    match File::open(runtime, path) {
        Ok(file) => Ok(Some(read_whole(alloc, file)?)),
        Err(error) => {
            if error.kind() == ErrorKind::NotFound {
                return Ok(None);
            }
            Err(VolumeError::Failed)
        }
    }
}

/// Whether an open file is what stands under a name.
fn stands<R: Files>(runtime: &R, file: &File, name: &str) -> bool {
    match (file.metadata(), fs::symlink_metadata(runtime, name)) {
        (Ok(own), Ok(found)) => own.dev() == found.dev() && own.ino() == found.ino(),
        _ => false,
    }
}

/// Whether a file beside was left by a call that died: nobody else held it, so it could be locked,
/// and it stands under its name still.
fn is_left(locked: Result<(), TryLockError>, stands: bool) -> bool
    ensures { IsTrue result ↔ (IsOk locked × IsTrue stands) }
{
    locked.is_ok() && stands
}

/// Whether a file beside that was just made is this call's own: no other call holds it, to take it
/// away, and it stands under its name still. Where the host has no locks none is taken away.
fn is_own(locked: Result<(), TryLockError>, stands: bool) -> bool
    ensures { IsTrue result ↔ ((IsErrOf locked WouldBlock → ⊥) × IsTrue stands) }
{
    match locked {
        Err(TryLockError::WouldBlock) => false,
        Ok(()) | Err(TryLockError::Error(_)) => stands,
    }
}

/// Takes away what a call that died has left under this name. What is no file stays.
fn take_left<R: Files<File = File>>(runtime: &R, name: &str) {
    let Ok(true) = is_there(fs::symlink_metadata(runtime, name)) else {
        return;
    };
    let Ok(file) = File::open(runtime, name) else {
        return;
    };
    if is_left(file.try_lock(), stands(runtime, &file, name)) {
        let _ = fs::remove_file(runtime, name);
    }
}

/// A new file under this name, which no other call takes away as long as it is open.
fn own_beside<R: Files<File = File>>(runtime: &R, name: &str) -> Option<File> {
    let Ok(file) = File::create_new(runtime, name) else {
        return None;
    };
    if is_own(file.try_lock(), stands(runtime, &file, name)) {
        return Some(file);
    }
    None
}

/// Whether a file now has these bytes under its name. They are written beside it first.
fn write_beside<R: Files<File = File>>(runtime: &R, path: &str, content: &[u8]) -> bool {
    for name in BESIDE {
        take_left(runtime, name);
    }
    for name in BESIDE {
        if let Some(mut file) = own_beside(runtime, name) {
            // the file is open until it has its name
            if write_whole(&mut file, content) && fs::rename(runtime, name, path).is_ok() {
                return true;
            }
            let _ = fs::remove_file(runtime, name);
            return false;
        }
    }
    false
}

/// Whether a file now has these bytes under its name. What is no file, or a link to one, stays.
fn write_file<R: Files<File = File>>(runtime: &R, name: &FileName, content: &[u8]) -> bool
    ensures { IsTrue result → length content.now ≤ MOST_BYTES }
{
    let Ok(path) = str::from_utf8(name.text().as_slice()) else {
        return false;
    };
    if content.len() > MOST_BYTES || is_there(fs::symlink_metadata(runtime, path)).is_err() {
        return false;
    }
    write_beside(runtime, path, content)
}

impl<R: Files<File = File> + Drop> Volume for FolderVolume<R> {
    ghost files = { λ _. None };

    ghost faults = { λ v. v.faults };

    fn read(&mut self, alloc: Global, name: &FileName) -> Result<Option<Bytes>, VolumeError>
        ensures cause { VolumeCause self.old.faults self.new.faults result }
        ensures limit { IfOk result (λ found. IfSome found (λ bytes. length bytes ≤ MOST_BYTES)) }
    {
        let found = read_file(&self.runtime, alloc, name);
        if let Err(VolumeError::Failed) = found {
            self.faults = one_more(self.faults);
        }
        found
    }

    fn write(&mut self, _alloc: Global, name: &FileName, content: &Bytes) -> Result<(), VolumeError>
        ensures cause { VolumeCause self.old.faults self.new.faults result }
        ensures limit { OnOk result (length content.now ≤ MOST_BYTES) }
    {
        if write_file(&self.runtime, name, content.as_slice()) {
            return Ok(());
        }
        self.faults = one_more(self.faults);
        Err(VolumeError::Failed)
    }
}
