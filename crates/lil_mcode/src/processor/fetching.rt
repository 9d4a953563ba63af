//! The instruction at hand: its bytes, its operands, and its row.

ghost use Rattle.std.specs.Prelude.{◌≡◌, true, ◌+◌, ◌*◌, ◌<◌, ◌≤◌, ◌^◌, length, drop, take, slice_get, OnSome, IfSome, IfNone, None, Some};
ghost use Rattle.std.specs.Option.{option_copied};
ghost use Rattle.lil_asm.specs.{Bytes.{word_at, two_words_at, byte_word_at, with_entries, with_loop, row, row_0, row_2, row_3, row_4, row_5, row_6, row_7}, declared.instr.Instr.TheVariants.{Cas, Fri}};
ghost use Rattle.lil_mcode.specs.{Fetch.{running_code, running_base, current}, Loaded.{loaded_at, IsPartOf}, Table.{mstep, performed}};

use super::{LoadedModule, Processor};
use crate::arithmetic::{Comparison, Joining, Operator, trap_of, truth_word};
use crate::machine::Event;
use lil_asm::word_of_bytes;
use lil_base::Bytes;

impl Processor {
    /// Another module runs.
    pub(super) fn run_in(&mut self, number: u8)
        requires { number ≤ length self.old.modules }
        ensures { self.new ≡ record self.old { running = number } }
    {
        let (start, size, base) = kept_part(self.modules.as_slice(), number);
        self.running = number;
        self.code_start = start;
        self.code_size = size;
        self.code_base = base;
    }

    /// Whether the level has begun: the mark of its first body had room.
    pub fn is_marked(&self) -> bool
        ensures { result ≡ self.now.marked }
    {
        self.marked
    }

    /// One step of the table, where the level has begun.
    #[inline(always)]
    #[tactic(auto, using(crate::proofs::Steps::fetched_current), unfolding(lil_asm::specs::Bytes::decoded))]
    pub fn row(&mut self) -> Event
        requires { self.old.marked ≡ true }
        ensures { mstep self.old ≡ (result, self.new) }
    {
        let place = usize::from(self.place);
        let Some(first) = self.byte(place) else {
            return Event::BadCode;
        };
        self.obey(first, place)
    }

    /// The code of the running module.
    #[inline(always)]
    #[tactic(auto, using(crate::proofs::Steps::kept_within, crate::proofs::Steps::kept_code))]
    pub(super) fn running_code(&self) -> &[u8]
        ensures value { result.now ≡ running_code self.now }
        ensures short { length result.now < 65536 }
    {
        code_part(self.code.as_slice(), self.code_start, self.code_size)
    }

    /// Where the data of the running module begins.
    #[inline(always)]
    #[tactic(auto, using(crate::proofs::Steps::kept_base))]
    pub(super) fn data_base(&self) -> u16
        ensures { result ≡ running_base self.now }
    {
        self.code_base
    }

    /// A byte of the running module's code.
    #[inline(always)]
    pub(super) fn byte(&self, at: usize) -> Option<u8>
        ensures value { result ≡ slice_get (running_code self.now) at }
        ensures within { OnSome result (at < 65535) }
    {
        self.running_code().get(at).copied()
    }

    /// A byte of the running module's code, as a word.
    #[inline(always)]
    fn short(&self, at: usize) -> Option<u16>
        ensures value { result ≡ slice_get (running_code self.now) at }
        ensures within { OnSome result (at < 65535) }
    {
        Some(u16::from(self.byte(at)?))
    }

    /// A word of the running module's code.
    #[inline(always)]
    pub(super) fn word(&self, at: usize) -> Option<u16>
        requires { at < 2 ^ 33 }
        ensures value { result ≡ word_at (running_code self.now) at }
        ensures within { OnSome result (at + 1 < 65535) }
    {
        word_of_bytes(self.running_code(), at)
    }

    /// Two words of the running module's code, one behind the other.
    #[inline(always)]
    pub(super) fn two_words(&self, at: usize) -> Option<(u16, u16)>
        requires { at < 2 ^ 32 }
        ensures value { result ≡ two_words_at (running_code self.now) at }
        ensures within { OnSome result (at + 3 < 65535) }
    {
        let low = self.word(at)?;
        let high = self.word(at + 2)?;
        Some((low, high))
    }

    /// The operands of CASE, whose first byte stands at a place.
    #[inline(always)]
    pub(super) fn case_operands(&self, place: usize) -> Option<(u16, u16)>
        requires { place < 65535 }
        ensures some { IfSome result (λ o. with_entries (running_code self.now) place ≡ Some (Cas o.0 o.1, place + 5)) }
        ensures none { IfNone result (with_entries (running_code self.now) place ≡ None) }
        ensures within { OnSome result (place + 4 < 65535) }
    {
        let count = self.word(place + 1)?;
        let other = self.word(place + 3)?;
        if self.running_code().len() < place + 5 + 6 * usize::from(count) {
            return None;
        }
        Some((count, other))
    }

    /// A byte and a word behind the first byte, which stands at a place.
    #[inline(always)]
    pub(super) fn byte_and_word(&self, place: usize) -> Option<(u8, u16)>
        requires { place < 65535 }
        ensures value { result ≡ byte_word_at (running_code self.now) (place + 1) }
        ensures within { OnSome result (place + 3 < 65535) }
    {
        let first = self.byte(place + 1)?;
        let second = self.word(place + 2)?;
        Some((first, second))
    }

    /// The operands of a loop's head, whose first byte stands at a place.
    #[inline(always)]
    pub(super) fn loop_operands(&self, place: usize) -> Option<(u16, u8, u16)>
        requires { place < 65535 }
        ensures some { IfSome result (λ o. with_loop (running_code self.now) place ≡ Some (Fri o.0 o.1 o.2, place + 6)) }
        ensures none { IfNone result (with_loop (running_code self.now) place ≡ None) }
        ensures within { OnSome result (place + 5 < 65535) }
    {
        let offset = self.word(place + 1)?;
        let kind = self.byte(place + 3)?;
        let to = self.word(place + 4)?;
        Some((offset, kind, to))
    }

    /// The row of the instruction at a place, by its first byte.
    #[inline(always)]
    #[tactic(auto, unfolding(lil_asm::specs::Bytes::row_0, lil_asm::specs::Bytes::row_2, lil_asm::specs::Bytes::row_3, lil_asm::specs::Bytes::row_4, lil_asm::specs::Bytes::row_5, lil_asm::specs::Bytes::row_6, lil_asm::specs::Bytes::row_7))]
    pub(super) fn obey(&mut self, first: u8, place: usize) -> Event
        requires { place < 65535 }
        ensures { performed self.old (current self.old) (row first (running_code self.old) place) ≡ (result, self.new) }
    {
        match first {
            0x01 => {
                let Some(w) = self.word(place + 1) else {
                    return Event::BadCode;
                };
                self.push(w, (place + 3) as u16)
            }
            0x02 => {
                let Some(b) = self.short(place + 1) else {
                    return Event::BadCode;
                };
                self.push(b, (place + 2) as u16)
            }
            0x03 => self.double((place + 1) as u16),
            0x04 => self.drop_word((place + 1) as u16),
            0x05 => self.swap((place + 1) as u16),
            0x10..=0x1f => self.push(u16::from(first % 16), (place + 1) as u16),
            0x20 => {
                let Some(w) = self.word(place + 1) else {
                    return Event::BadCode;
                };
                self.load(self.frame, w, (place + 3) as u16)
            }
            0x21 => {
                let Some(b) = self.short(place + 1) else {
                    return Event::BadCode;
                };
                self.load(self.frame, b, (place + 2) as u16)
            }
            0x22 => {
                let Some(w) = self.word(place + 1) else {
                    return Event::BadCode;
                };
                self.store(self.frame, w, (place + 3) as u16)
            }
            0x23 => {
                let Some(b) = self.short(place + 1) else {
                    return Event::BadCode;
                };
                self.store(self.frame, b, (place + 2) as u16)
            }
            0x24 => {
                let Some(w) = self.word(place + 1) else {
                    return Event::BadCode;
                };
                self.load(self.data_base(), w, (place + 3) as u16)
            }
            0x25 => {
                let Some(b) = self.short(place + 1) else {
                    return Event::BadCode;
                };
                self.load(self.data_base(), b, (place + 2) as u16)
            }
            0x26 => {
                let Some(w) = self.word(place + 1) else {
                    return Event::BadCode;
                };
                self.store(self.data_base(), w, (place + 3) as u16)
            }
            0x27 => {
                let Some(b) = self.short(place + 1) else {
                    return Event::BadCode;
                };
                self.store(self.data_base(), b, (place + 2) as u16)
            }
            0x2c => {
                let Some(w) = self.word(place + 1) else {
                    return Event::BadCode;
                };
                self.push_address(self.frame, w, (place + 3) as u16)
            }
            0x2d => {
                let Some(w) = self.word(place + 1) else {
                    return Event::BadCode;
                };
                self.push_address(self.data_base(), w, (place + 3) as u16)
            }
            0x30 => self.fetch(0, (place + 1) as u16),
            0x31 => self.put_word((place + 1) as u16),
            0x32 => {
                let Some(w) = self.word(place + 1) else {
                    return Event::BadCode;
                };
                self.fetch(w, (place + 3) as u16)
            }
            0x33 => {
                let Some(w) = self.word(place + 1) else {
                    return Event::BadCode;
                };
                self.go_further(w, (place + 3) as u16)
            }
            0x34 => {
                let Some(w) = self.word(place + 1) else {
                    return Event::BadCode;
                };
                self.move_words(w, 0, (place + 3) as u16)
            }
            0x35 => {
                let Some((low, high)) = self.two_words(place + 1) else {
                    return Event::BadCode;
                };
                self.move_words(low, high, (place + 5) as u16)
            }
            0x36 => self.test_nil((place + 1) as u16),
            0x37 => {
                let Some((low, high)) = self.two_words(place + 1) else {
                    return Event::BadCode;
                };
                self.element(low, high, (place + 5) as u16)
            }
            0x38 => {
                let Some(w) = self.word(place + 1) else {
                    return Event::BadCode;
                };
                self.open_element(w, (place + 3) as u16)
            }
            0x39 => {
                let Some((low, high)) = self.two_words(place + 1) else {
                    return Event::BadCode;
                };
                self.test_cardinal(low, high, (place + 5) as u16)
            }
            0x3a => {
                let Some((low, high)) = self.two_words(place + 1) else {
                    return Event::BadCode;
                };
                self.test_integer(low, high, (place + 5) as u16)
            }
            0x3b => self.make_capital((place + 1) as u16),
            0x40 => self.cardinals(Operator::Sum, (place + 1) as u16),
            0x41 => self.cardinals(Operator::Difference, (place + 1) as u16),
            0x42 => self.cardinals(Operator::Product, (place + 1) as u16),
            0x43 => self.cardinals(Operator::Quotient, (place + 1) as u16),
            0x44 => self.cardinals(Operator::Remainder, (place + 1) as u16),
            0x45 => self.integers(Operator::Sum, (place + 1) as u16),
            0x46 => self.integers(Operator::Difference, (place + 1) as u16),
            0x47 => self.integers(Operator::Product, (place + 1) as u16),
            0x48 => self.integers(Operator::Quotient, (place + 1) as u16),
            0x49 => self.integers(Operator::Remainder, (place + 1) as u16),
            0x4a => self.negate((place + 1) as u16),
            0x4b => self.take_sign((place + 1) as u16),
            0x50 => self.join(Joining::Union, (place + 1) as u16),
            0x51 => self.join(Joining::Minus, (place + 1) as u16),
            0x52 => self.join(Joining::Meet, (place + 1) as u16),
            0x53 => self.join(Joining::Apart, (place + 1) as u16),
            0x54 => self.compare(Comparison::Member, (place + 1) as u16),
            0x55 => self.add_range((place + 1) as u16),
            0x56 => self.change_member(Joining::Union, (place + 1) as u16),
            0x57 => self.change_member(Joining::Minus, (place + 1) as u16),
            0x58 => self.compare(Comparison::Within, (place + 1) as u16),
            0x59 => self.deny((place + 1) as u16),
            0x5a => self.compare(Comparison::Equal, (place + 1) as u16),
            0x5b => self.compare(Comparison::Unequal, (place + 1) as u16),
            0x5c => self.compare(Comparison::LessCardinal, (place + 1) as u16),
            0x5d => self.compare(Comparison::AtMostCardinal, (place + 1) as u16),
            0x5e => self.compare(Comparison::LessInteger, (place + 1) as u16),
            0x5f => self.compare(Comparison::AtMostInteger, (place + 1) as u16),
            0x61 => {
                let Some(b) = self.byte(place + 1) else {
                    return Event::BadCode;
                };
                self.mark(b, (place + 2) as u16)
            }
            0x65 => {
                let Some((b, w)) = self.byte_and_word(place) else {
                    return Event::BadCode;
                };
                self.call(self.running, b, w, (place + 4) as u16)
            }
            0x68 => {
                let Some(w) = self.word(place + 1) else {
                    return Event::BadCode;
                };
                self.enter(w, (place + 3) as u16)
            }
            0x6a => self.leave(),
            0x70 => {
                let Some(w) = self.word(place + 1) else {
                    return Event::BadCode;
                };
                self.jump(usize::from(w), 0)
            }
            0x71 => {
                let Some(w) = self.word(place + 1) else {
                    return Event::BadCode;
                };
                self.jump_false(usize::from(w), (place + 3) as u16)
            }
            0x72 => {
                let Some(w) = self.word(place + 1) else {
                    return Event::BadCode;
                };
                self.jump_and(usize::from(w), (place + 3) as u16)
            }
            0x73 => {
                let Some(w) = self.word(place + 1) else {
                    return Event::BadCode;
                };
                self.jump_or(usize::from(w), (place + 3) as u16)
            }
            0x74 => {
                let Some(b) = self.byte(place + 1) else {
                    return Event::BadCode;
                };
                self.jump(place + 2 + usize::from(b), 0)
            }
            0x75 => {
                let Some(b) = self.byte(place + 1) else {
                    return Event::BadCode;
                };
                self.jump_false(place + 2 + usize::from(b), (place + 2) as u16)
            }
            0x76 => {
                let Some((count, other)) = self.case_operands(place) else {
                    return Event::BadCode;
                };
                self.choose(count, other, (place + 5) as u16)
            }
            0x77 => {
                let Some((offset, kind, to)) = self.loop_operands(place) else {
                    return Event::BadCode;
                };
                self.begin_loop(offset, kind, to, (place + 6) as u16)
            }
            0x78 => {
                let Some((offset, to)) = self.two_words(place + 1) else {
                    return Event::BadCode;
                };
                self.turn(offset, to, (place + 5) as u16)
            }
            0x79 => {
                let Some(b) = self.byte(place + 1) else {
                    return Event::BadCode;
                };
                self.call_trap(b)
            }
            0x7a => self.take_block((place + 1) as u16),
            0x7d => {
                let Some(b) = self.byte(place + 1) else {
                    return Event::BadCode;
                };
                self.request(b, (place + 2) as u16)
            }
            0x28..=0x2b | 0x2e..=0x2f | 0x60 | 0x62..=0x64 | 0x66..=0x67 | 0x69 | 0x6b => {
                self.rare(first, place)
            }
            0x00
            | 0x06..=0x0f
            | 0x3c..=0x3f
            | 0x4c..=0x4f
            | 0x6c..=0x6f
            | 0x7b..=0x7c
            | 0x7e..=0xff => Event::BadCode,
        }
    }
}

pub(super) fn loaded(modules: &[LoadedModule], number: u8) -> Option<&LoadedModule>
    ensures value { option_copied result ≡ loaded_at modules.now number }
    ensures known { OnSome result (number ≤ length modules.now) }
{
    if number == 0 {
        return None;
    }
    modules.get(usize::from(number) - 1)
}

/// Where the code of a module lies, and where its data begins; zeros where no such module is loaded.
fn kept_part(modules: &[LoadedModule], number: u8) -> (u32, u16, u16)
    ensures { IsPartOf (loaded_at modules.now number) result.0 result.1 result.2 }
{
    match loaded(modules, number) {
        None => (0, 0, 0),
        Some(module) => (module.start, module.size, module.base),
    }
}

fn code_part(code: &[u8], start: u32, size: u16) -> &[u8]
    requires { start + size ≤ length code.now }
    ensures value { result.now ≡ take size (drop start code.now) }
    ensures short { length result.now < 65536 }
{
    let start = start as usize;
    let end = start + usize::from(size);
    &code[start..end]
}
