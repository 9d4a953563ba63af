//! The rows of jumps, CASE and FOR.

ghost use Rattle.std.specs.Prelude.{◌≡◌, ◌<◌, ◌≤◌, ◌+◌, ◌*◌, ◌^◌, ◌∷◌, length, drop, MatchOption};
ghost use Rattle.lil_mcode.specs.{Control.{chosen, above, loop_words}, Fetch.own, Table.{going, on_one, on_three, jump, false_row, and_row, or_row, case_row, loop_row, again_row, called_trap, trap_row}};
ghost use Rattle.lil_frames.specs.Store.{with_words};

use super::Processor;
use crate::arithmetic::turns_left;
use crate::machine::Event;
use lil_asm::word_of_bytes;
use lil_base::TrapKind;
use lil_frames::MainStore;

impl Processor {
    /// A jump, at which so many words at the top go.
    pub(super) fn jump(&mut self, to: usize, dropped: u8) -> Event
        requires { dropped ≤ length self.old.stack }
        ensures { jump (own self.old) to self.old (record self.old { stack = drop dropped self.old.stack }) ≡ (result, self.new) }
    {
        if to >= self.running_code().len() {
            return Event::BadCode;
        }
        self.drop_arguments(dropped);
        self.place = to as u16;
        Event::Went
    }

    fn go_on(&mut self, next: u16, dropped: u8)
        requires { dropped ≤ length self.old.stack }
        ensures { self.new ≡ going self.old next (drop dropped self.old.stack) }
    {
        self.drop_arguments(dropped);
        self.place = next;
    }

    pub(super) fn jump_false(&mut self, to: usize, next: u16) -> Event
        ensures { on_one self.old self.old.stack (false_row (own self.old) to next self.old) ≡ (result, self.new) }
    {
        match self.topmost() {
            None => Event::BadCode,
            Some(0) => self.jump(to, 1),
            Some(_) => {
                self.go_on(next, 1);
                Event::Went
            }
        }
    }

    pub(super) fn jump_and(&mut self, to: usize, next: u16) -> Event
        ensures { on_one self.old self.old.stack (and_row (own self.old) to next self.old) ≡ (result, self.new) }
    {
        match self.topmost() {
            None => Event::BadCode,
            Some(0) => self.jump(to, 0),
            Some(_) => {
                self.go_on(next, 1);
                Event::Went
            }
        }
    }

    pub(super) fn jump_or(&mut self, to: usize, next: u16) -> Event
        ensures { on_one self.old self.old.stack (or_row (own self.old) to next self.old) ≡ (result, self.new) }
    {
        match self.topmost() {
            None => Event::BadCode,
            Some(0) => {
                self.go_on(next, 1);
                Event::Went
            }
            Some(_) => self.jump(to, 0),
        }
    }

    pub(super) fn choose(&mut self, count: u16, other: u16, next: u16) -> Event
        ensures { on_one self.old self.old.stack (case_row (own self.old) count other next self.old) ≡ (result, self.new) }
    {
        let Some(word) = self.topmost() else {
            return Event::BadCode;
        };
        match chosen_place(self.running_code(), count, usize::from(next), word, other) {
            None => Event::BadCode,
            Some(to) => self.jump(usize::from(to), 1),
        }
    }

    pub(super) fn three(&self) -> Option<(u16, u16, u16)>
        ensures { MatchOption result (length self.now.stack < 3) (λ p. self.now.stack ≡ p.2 ∷ p.1 ∷ p.0 ∷ drop 3 self.now.stack) }
    {
        let count = self.stack.len();
        if count < 3 {
            return None;
        }
        Some((
            self.stack[count - 3],
            self.stack[count - 2],
            self.stack[count - 1],
        ))
    }

    pub(super) fn begin_loop(&mut self, offset: u16, kind: u8, to: u16, next: u16) -> Event
        ensures { on_three self.old self.old.stack (loop_row (own self.old) (self.old.frame + offset) kind to next self.old) ≡ (result, self.new) }
    {
        let Some((first, last, step)) = self.three() else {
            return Event::BadCode;
        };
        if kind > 1 || step == 0 {
            return Event::BadCode;
        }
        match turns_left(kind, first, last, step) {
            None => self.jump(usize::from(to), 3),
            Some(left) => {
                let at = u32::from(self.frame) + u32::from(offset);
                if at + 2 >= 65536 {
                    return Event::BadCode;
                }
                put_loop(&mut self.memory, at as u16, first, left, step);
                self.go_on(next, 3);
                Event::Went
            }
        }
    }

    pub(super) fn turn(&mut self, offset: u16, to: u16, next: u16) -> Event
        ensures { again_row (own self.old) (self.old.frame + offset) to next self.old ≡ (result, self.new) }
    {
        let at = u32::from(self.frame) + u32::from(offset);
        if at + 1 >= 65536 {
            return Event::BadCode;
        }
        let at = at as u16;
        let left = self.memory.word(at + 1);
        if left == 0 {
            self.place = next;
            return Event::Went;
        }
        if u32::from(at) + 2 >= 65536 || usize::from(to) >= self.running_code().len() {
            return Event::BadCode;
        }
        let value = self.memory.word(at);
        let step = self.memory.word(at + 2);
        self.memory.set_word(at + 1, left - 1);
        self.memory
            .set_word(at, ((u32::from(value) + u32::from(step)) % 65536) as u16);
        self.place = to;
        Event::Went
    }

    pub(super) fn call_trap(&self, number: u8) -> Event
        ensures { trap_row self.now (called_trap number) ≡ (result, self.now) }
    {
        match number {
            7 => Event::Trap(TrapKind::Case),
            8 => Event::Trap(TrapKind::Function),
            9 => Event::Trap(TrapKind::Halted),
            _ => Event::BadCode,
        }
    }
}

pub(super) fn distance(low: u16, x: u16) -> u32
    ensures { result ≡ above low x }
{
    (u32::from(x) + (65536 - u32::from(low))) % 65536
}

/// The place of the first entry whose range has a word, else the other place.
fn chosen_place(code: &[u8], count: u16, place: usize, x: u16, other: u16) -> Option<u16>
    requires { place < 2 ^ 32 }
    ensures { result ≡ chosen code.now count place x other }
{
    let mut left = count;
    let mut at = place;
    while left > 0 {
        let low = word_of_bytes(code, at)?;
        let high = word_of_bytes(code, at + 2)?;
        let target = word_of_bytes(code, at + 4)?;
        if distance(low, x) <= distance(low, high) {
            return Some(target);
        }
        left -= 1;
        at += 6;
    }
    Some(other)
}

fn put_loop(memory: &mut MainStore, at: u16, value: u16, left: u16, step: u16)
    requires { at + 2 < 65536 }
    ensures { memory.new ≡ with_words memory.old (loop_words memory.old.words at value left step) }
{
    memory.set_word(at, value);
    memory.set_word(at + 1, left);
    memory.set_word(at + 2, step);
}
