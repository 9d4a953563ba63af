ghost use Rattle.std.specs.Prelude.{◌≡◌, ◌↔◌, Some, IfOk, OnErr, IsErr};
ghost use Rattle.lil_volume.specs.{Causes.{HasCause, IsListed, Scheduled}, Told.KeyTaken};

use crate::schedule::Schedule;
use crate::{KeyFailed, Keyboard};
use lil_base::{Bytes, Memory};
use std::alloc::Global;

/// A keyboard in memory. It fails at the calls that it was told to fail at, and at no other.
#[derive(Drop)]
pub struct RamKeys {
    left: Bytes,
    schedule: Schedule,
}

impl Keyboard for RamKeys {
    ghost left = { λ k. Some k.left };

    ghost faults = { λ k. k.schedule.faults };

    fn key(&mut self) -> Result<Option<u8>, KeyFailed>
        ensures ok { IfOk result (λ key. KeyTaken (Some self.old.left) (Some self.new.left) key) }
        ensures err { OnErr result (self.new.left ≡ self.old.left) }
        ensures cause { HasCause self.old.schedule.faults self.new.schedule.faults result }
        ensures schedule { Scheduled self.old.schedule self.new.schedule }
        ensures listed { IsErr result ↔ IsListed self.old.schedule }
    {
        if self.schedule.next_fails() {
            return Err(KeyFailed);
        }
        Ok(self.left.take_first())
    }
}

impl RamKeys {
    /// Keys that are to be given in order, and the numbers, from 1, of the calls that fail.
    pub fn new(_alloc: Global, keys: Bytes, fails: Vec<u64>) -> Result<RamKeys, Memory>
        ensures left { IfOk result (λ k. ⟦<RamKeys as Keyboard>⟧.left k ≡ Some keys) }
        ensures faults { IfOk result (λ k. ⟦<RamKeys as Keyboard>⟧.faults k ≡ 0) }
        ensures calls { IfOk result (λ k. k.schedule.calls ≡ 0) }
        ensures failing { IfOk result (λ k. k.schedule.failing.items ≡ fails.items) }
    {
        Ok(RamKeys {
            left: keys,
            schedule: Schedule::new(fails),
        })
    }

    /// How many keys were asked for, failed calls included. The count stops at the greatest u64.
    pub fn calls(&self) -> u64
        ensures { result ≡ self.now.schedule.calls }
    {
        self.schedule.calls
    }
}
