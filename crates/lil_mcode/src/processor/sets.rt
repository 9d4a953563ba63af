//! The rows of sets.

ghost use Rattle.std.specs.Prelude.{◌≡◌, ◌≤◌, length, drop};
ghost use Rattle.lil_base.specs.Sets.{span};
ghost use Rattle.lil_mcode.specs.{Table.{join_row, range_set_row, member_row, on_two, on_three}, Operators.joined_by};

use super::Processor;
use crate::arithmetic::{Joining, joined, trap_of, truth_word};
use crate::machine::Event;
use lil_base::{set_span, set_union};

impl Processor {
    pub(super) fn join(&mut self, joining: Joining, next: u16) -> Event
        ensures { on_two self.old self.old.stack (join_row (joined_by joining) next self.old) ≡ (result, self.new) }
    {
        let Some((x, y)) = self.two() else {
            return Event::BadCode;
        };
        self.replace(2, joined(joining, x, y), next);
        Event::Went
    }

    pub(super) fn add_range(&mut self, next: u16) -> Event
        ensures { on_three self.old self.old.stack (range_set_row next self.old) ≡ (result, self.new) }
    {
        let Some((set, low, high)) = self.three() else {
            return Event::BadCode;
        };
        if low <= high && high > 15 {
            return Event::BadCode;
        }
        self.replace(3, set_union(set, set_span(low, high)), next);
        Event::Went
    }

    /// A number comes to a set of the store, or goes from it.
    #[inline(always)]
    pub(super) fn change_member(&mut self, joining: Joining, next: u16) -> Event
        ensures { on_two self.old self.old.stack (member_row (λ t x. joined_by joining t (span x x)) next self.old) ≡ (result, self.new) }
    {
        let Some((address, number)) = self.two() else {
            return Event::BadCode;
        };
        if number > 15 {
            return Event::BadCode;
        }
        let set = self.memory.word(address);
        let set = joined(joining, set, set_span(number, number));
        self.put(address, set, next);
        Event::Went
    }
}
