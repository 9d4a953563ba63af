ghost use Rattle.std.specs.Prelude.{◌≡◌, ◌↔◌, true, IsTrue, Contains, vec_items};
ghost use Rattle.lil_volume.specs.Causes.{next_count, Counted};

/// When an object in memory fails: the numbers, from 1, of the calls that fail, the calls so far
/// and the faults so far. Both counts stop at the greatest u64.
#[derive(Drop)]
pub(crate) struct Schedule {
    pub(crate) failing: Vec<u64>,
    pub(crate) calls: u64,
    pub(crate) faults: u64,
}

/// The next value of a count that stops at the greatest u64.
pub(crate) fn one_more(count: u64) -> u64
    ensures { result ≡ next_count count }
{
    count.saturating_add(1)
}

impl Schedule {
    /// No call was made yet.
    pub(crate) fn new(failing: Vec<u64>) -> Schedule
        ensures failing { result.failing.items ≡ failing.items }
        ensures calls { result.calls ≡ 0 }
        ensures faults { result.faults ≡ 0 }
    {
        Schedule {
            failing,
            calls: 0,
            faults: 0,
        }
    }

    /// Counts a fault.
    pub(crate) fn fail(&mut self)
        ensures failing { self.new.failing.items ≡ self.old.failing.items }
        ensures calls { self.new.calls ≡ self.old.calls }
        ensures counted { Counted self.old.faults self.new.faults true }
    {
        self.faults = one_more(self.faults);
    }

    /// Counts a call, and tells whether it fails. Where it does, the fault is counted too.
    pub(crate) fn next_fails(&mut self) -> bool
        ensures failing { self.new.failing.items ≡ self.old.failing.items }
        ensures calls { self.new.calls ≡ next_count self.old.calls }
        ensures answer { IsTrue result ↔ Contains self.old.failing.items (next_count self.old.calls) }
        ensures counted { Counted self.old.faults self.new.faults result }
    {
        self.calls = one_more(self.calls);
        if self.failing.contains(&self.calls) {
            self.fail();
            true
        } else {
            false
        }
    }
}
