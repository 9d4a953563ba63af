ghost use Rattle.std.specs.Prelude.{◌≡◌, ◌↔◌, Some, IfOk, OnOk, OnErr, IsErrOf};
ghost use Rattle.std.specs.{Ordering.nat_cmp, Cmp.Lexicographic.slice_cmp, Option.option_copied, FinMap.{from_entries, find, get}};
ghost use Rattle.lil_volume.specs.{Causes.{VolumeCause, IsListed, Scheduled}, Told.{FileIs, with_file}};

use crate::schedule::Schedule;
use crate::{Volume, VolumeError};
use lil_base::{Bytes, FileName, Memory, same_bytes};
use std::alloc::Global;

/// A volume in memory. Of two entries with the same name the first counts. It fails at the calls
/// that it was told to fail at, and at no other; any call may want memory.
#[derive(Drop)]
pub struct RamVolume {
    entries: Vec<(FileName, Bytes)>,
    schedule: Schedule,
}

/// The bytes of the first entry with this name.
fn first_with<'a>(entries: &'a [(FileName, Bytes)], name: &FileName) -> Option<&'a Bytes>
    ensures { option_copied result ≡ find (slice_cmp nat_cmp) name.now entries.now }
{
    match entries {
        [] => None,
        [first, rest @ ..] => {
            if same_bytes(first.0.text().as_slice(), name.text().as_slice()) {
                Some(&first.1)
            } else {
                first_with(rest, name)
            }
        }
    }
}

/// What the entries, as a map, have under this name.
fn held_under<'a>(entries: &'a [(FileName, Bytes)], name: &FileName) -> Option<&'a Bytes>
    ensures { option_copied result ≡ get (from_entries {R = slice_cmp nat_cmp} entries.now) name.now }
{
    first_with(entries, name)
}

impl Volume for RamVolume {
    ghost files = { λ v. Some (from_entries v.entries.items) };

    ghost faults = { λ v. v.schedule.faults };

    fn read(&mut self, alloc: Global, name: &FileName) -> Result<Option<Bytes>, VolumeError>
        ensures found { IfOk result (λ found. FileIs (Some (from_entries self.old.entries.items)) name.now found) }
        ensures same { self.new.entries.items ≡ self.old.entries.items }
        ensures cause { VolumeCause self.old.schedule.faults self.new.schedule.faults result }
        ensures schedule { Scheduled self.old.schedule self.new.schedule }
        ensures listed { IsErrOf result VolumeError.Failed ↔ IsListed self.old.schedule }
    {
        if self.schedule.next_fails() {
            return Err(VolumeError::Failed);
        }
        match held_under(self.entries.as_slice(), name) {
            None => Ok(None),
            Some(content) => Ok(Some(Bytes::from_slice(alloc, content.as_slice())?)),
        }
    }

    fn write(&mut self, alloc: Global, name: &FileName, content: &Bytes) -> Result<(), VolumeError>
        ensures ok { OnOk result (Some (from_entries self.new.entries.items) ≡ with_file (Some (from_entries self.old.entries.items)) name.now content.now) }
        ensures err { OnErr result (self.new.entries.items ≡ self.old.entries.items) }
        ensures cause { VolumeCause self.old.schedule.faults self.new.schedule.faults result }
        ensures schedule { Scheduled self.old.schedule self.new.schedule }
        ensures listed { IsErrOf result VolumeError.Failed ↔ IsListed self.old.schedule }
    {
        if self.schedule.next_fails() {
            return Err(VolumeError::Failed);
        }
        let name = name.copy(alloc)?;
        let content = Bytes::from_slice(alloc, content.as_slice())?;
        match self.entries.insert(0, (name, content)) {
            Ok(()) => Ok(()),
            Err(_) => Err(VolumeError::Memory),
        }
    }
}

impl RamVolume {
    /// Files by their names, and the numbers, from 1, of the calls that fail, reads and writes
    /// counted together.
    pub fn new(
        _alloc: Global,
        files: Vec<(FileName, Bytes)>,
        fails: Vec<u64>,
    ) -> Result<RamVolume, Memory>
        ensures files { IfOk result (λ v. ⟦<RamVolume as Volume>⟧.files v ≡ Some (from_entries files.items)) }
        ensures faults { IfOk result (λ v. ⟦<RamVolume as Volume>⟧.faults v ≡ 0) }
        ensures calls { IfOk result (λ v. v.schedule.calls ≡ 0) }
        ensures failing { IfOk result (λ v. v.schedule.failing.items ≡ fails.items) }
    {
        Ok(RamVolume {
            entries: files,
            schedule: Schedule::new(fails),
        })
    }

    /// How many reads and writes were asked for, failed calls included. The count stops at the
    /// greatest u64.
    pub fn calls(&self) -> u64
        ensures { result ≡ self.now.schedule.calls }
    {
        self.schedule.calls
    }
}
