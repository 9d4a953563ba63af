ghost use Rattle.std.specs.Prelude.{◌≡◌, ◌++◌, Some, IfOk, OnOk, OnErr, IsErr};
ghost use Rattle.lil_volume.specs.Causes.{HasCause, IsListed, Scheduled};

use crate::schedule::Schedule;
use crate::{Sink, SinkFailed};
use lil_base::{Bytes, Memory};
use std::alloc::Global;

/// A sink in memory. It fails at the calls that it was told to fail at, and where memory is wanted.
/// A piece whose call fails isn't written at all.
#[derive(Drop)]
pub struct RamSink {
    written: Bytes,
    schedule: Schedule,
}

impl Sink for RamSink {
    ghost written = { λ s. Some s.written };

    ghost faults = { λ s. s.schedule.faults };

    fn put(&mut self, piece: &[u8]) -> Result<(), SinkFailed>
        ensures ok { OnOk result (self.new.written ≡ self.old.written ++ piece.now) }
        ensures err { OnErr result (self.new.written ≡ self.old.written) }
        ensures cause { HasCause self.old.schedule.faults self.new.schedule.faults result }
        ensures schedule { Scheduled self.old.schedule self.new.schedule }
        ensures listed { IsListed self.old.schedule → IsErr result }
    {
        if self.schedule.next_fails() {
            return Err(SinkFailed);
        }
        match self.written.extend(piece) {
            Ok(()) => Ok(()),
            Err(_) => {
                self.schedule.fail();
                Err(SinkFailed)
            }
        }
    }
}

impl RamSink {
    /// A sink that holds bytes already, and the numbers, from 1, of the calls that fail. Want of
    /// memory for a piece is a fault.
    pub fn new(_alloc: Global, written: Bytes, fails: Vec<u64>) -> Result<RamSink, Memory>
        ensures written { IfOk result (λ s. ⟦<RamSink as Sink>⟧.written s ≡ Some written) }
        ensures faults { IfOk result (λ s. ⟦<RamSink as Sink>⟧.faults s ≡ 0) }
        ensures calls { IfOk result (λ s. s.schedule.calls ≡ 0) }
        ensures failing { IfOk result (λ s. s.schedule.failing.items ≡ fails.items) }
    {
        Ok(RamSink {
            written,
            schedule: Schedule::new(fails),
        })
    }

    /// How many pieces were put, failed calls included. The count stops at the greatest u64.
    pub fn calls(&self) -> u64
        ensures { result ≡ self.now.schedule.calls }
    {
        self.schedule.calls
    }

    /// The bytes that it holds.
    pub fn written(&self) -> &Bytes
        ensures { ⟦<RamSink as Sink>⟧.written self.now ≡ Some result.now }
    {
        &self.written
    }
}
