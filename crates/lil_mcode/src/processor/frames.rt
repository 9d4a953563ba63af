//! The rows of frames: the mark and the words of a body, marks and calls of procedures, and returns.

ghost use Rattle.std.specs.Prelude.{◌≡◌, ◌+◌, ◌-◌, ◌*◌, ◌<◌, ◌≤◌, ◌∷◌, length, slice_index, false, option_map, OnSome, Some, []};
ghost use Rattle.lil_mcode.specs.Table.{module_at, body_entry, enter_row, leave_row, end_row, return_row, frame_out, link_word, mark_row, entry_in, call_row, value_call_row};
ghost use Rattle.lil_frames.specs.Words.{spliced};

use super::Processor;
use super::fetching::loaded;
use super::loading::body_place;
use crate::arithmetic::{trap_of, truth_word};
use crate::machine::Event;
use lil_base::LimitKind;

impl Processor {
    pub(super) fn start_unmarked(&mut self, number: u8, place: u16)
        requires { number ≤ length self.old.modules }
        ensures { self.new ≡ record self.old { running = number; place = place; stack = []; frame = self.old.base; top = self.old.base; marked = false } }
    {
        self.run_in(number);
        self.place = place;
        self.stack.clear();
        self.frame = self.base;
        self.top = self.base;
        self.marked = false;
    }

    pub(super) fn enter(&mut self, words: u16, next: u16) -> Event
        ensures { enter_row words next self.old ≡ (result, self.new) }
    {
        let end = u32::from(self.frame) + u32::from(words);
        if end < u32::from(self.top) {
            return Event::BadCode;
        }
        if u32::from(self.memory.lowest()) < end {
            return Event::Limit(LimitKind::Stack);
        }
        self.memory.clear_words(self.top, end);
        self.top = end as u16;
        self.place = next;
        Event::Went
    }

    /// The frame so many links out from the running one.
    pub(super) fn outer_frame(&self, links: u8) -> u16
        ensures { result ≡ frame_out self.now.store self.now.frame links }
    {
        let mut frame = self.frame;
        for k in 0..links {
            frame = self.memory.word(frame);
        }
        frame
    }

    /// The first word of the mark of a procedure that is declared so many levels out.
    #[tactic(auto, using(crate::proofs::Steps::link_more))]
    fn link(&self, levels: u8) -> u16
        ensures { result ≡ link_word levels self.now }
    {
        if levels == 0 {
            return 0;
        }
        self.outer_frame(levels - 1)
    }

    /// The mark of a call comes to the stack.
    pub(super) fn mark(&mut self, levels: u8, next: u16) -> Event
        ensures { mark_row levels next self.old ≡ (result, self.new) }
    {
        let link = self.link(levels);
        self.stack_words(&[link, 0, 0, 0], 0, next)
    }

    /// Where a procedure of a module begins.
    pub(super) fn entry_of(&self, number: u8, procedure: u8) -> Option<u16>
        ensures known { OnSome result (number ≤ length self.now.modules) }
        ensures value { result ≡ entry_in (module_at self.now.modules number) procedure }
    {
        let module = loaded(self.modules.as_slice(), number)?;
        let found = module.procedures.as_slice().get(usize::from(procedure))?;
        Some(found.0)
    }

    /// A module's procedure is called, with a mark and so many words of arguments above it.
    pub(super) fn call(&mut self, number: u8, procedure: u8, words: u16, next: u16) -> Event
        ensures { call_row number procedure words next self.old ≡ (result, self.new) }
    {
        if u32::from(self.top) < u32::from(self.frame) + 8 + u32::from(words) {
            return Event::BadCode;
        }
        if self.stack.len() != 0 {
            return Event::BadCode;
        }
        let Some(entry) = self.entry_of(number, procedure) else {
            return Event::BadCode;
        };
        let at = self.top - words - 4;
        self.memory
            .set_words(at + 1, &[self.frame, next, u16::from(self.running)]);
        self.frame = at;
        self.place = entry;
        if number == self.running {
            return Event::Went;
        }
        self.run_in(number);
        Event::Went
    }

    /// The procedure is called whose value stands in the mark.
    pub(super) fn call_value(&mut self, words: u16, next: u16) -> Event
        ensures { value_call_row words next self.old (slice_index self.old.store (self.old.top - words - 1)) ≡ (result, self.new) }
    {
        let at = self.top.saturating_sub(words).saturating_sub(1);
        let value = self.memory.word(at);
        self.call((value / 256) as u8, (value % 256) as u8, words, next)
    }

    pub(super) fn entry(&self, number: u8) -> Option<u16>
        ensures known { OnSome result (number ≤ length self.now.modules) }
        ensures value { result ≡ option_map body_entry (module_at self.now.modules number) }
    {
        let module = loaded(self.modules.as_slice(), number)?;
        Some(body_place(module.procedures.as_slice()))
    }

    pub(super) fn start_body(&mut self, number: u8, place: u16)
        requires room { self.old.base + 4 ≤ 65535 }
        requires known { number ≤ length self.old.modules }
        ensures { self.new ≡ record self.old { running = number; place = place; stack = []; store = spliced self.old.store self.old.base (0 ∷ 0 ∷ 0 ∷ number ∷ []); frame = self.old.base; top = self.old.base + 4 } }
    {
        self.memory
            .set_words(self.base, &[0, 0, 0, u16::from(number)]);
        self.run_in(number);
        self.place = place;
        self.stack.clear();
        self.frame = self.base;
        self.top = self.base + 4;
    }

    pub(super) fn next_body(&mut self) -> Event
        ensures { end_row self.old self.old.bodies ≡ (result, self.new) }
    {
        let Some(number) = self.bodies.get(0) else {
            return Event::LevelEnded;
        };
        let number = *number;
        let Some(place) = self.entry(number) else {
            return Event::BadCode;
        };
        if u32::from(self.memory.lowest()) < u32::from(self.base) + 4 {
            return Event::Limit(LimitKind::Stack);
        }
        self.bodies.take_first();
        self.start_body(number, place);
        Event::Went
    }

    pub(super) fn leave(&mut self) -> Event
        ensures { leave_row self.old ≡ (result, self.new) }
    {
        if self.frame == self.base {
            return self.next_body();
        }
        if u32::from(self.frame) + 3 >= 65536 {
            return Event::BadCode;
        }
        let to = self.memory.word(self.frame + 1);
        let place = self.memory.word(self.frame + 2);
        let number = self.memory.word(self.frame + 3);
        self.go_back(to, place, number)
    }

    #[tactic(auto, using(crate::proofs::Steps::is_loaded))]
    pub(super) fn go_back(&mut self, frame: u16, place: u16, number: u16) -> Event
        requires { self.old.frame + 3 < 65536 }
        ensures { return_row self.old frame place number ≡ (result, self.new) }
    {
        if frame < self.base || u32::from(self.frame) < u32::from(frame) + 4 {
            return Event::BadCode;
        }
        if number == 0 || usize::from(number) > self.modules.len() {
            return Event::BadCode;
        }
        self.top = self.frame;
        self.frame = frame;
        self.place = place;
        self.run_in(number as u8);
        Event::Went
    }
}
