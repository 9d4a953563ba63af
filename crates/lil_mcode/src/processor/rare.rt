//! The rows that are rare, by their bytes: words in other modules and in outer frames, words that go to the stack of
//! frames, and calls in other modules and of procedure values.

ghost use Rattle.std.specs.Prelude.{◌≡◌, ◌≢◌, ◌⊎◌, ◌+◌, ◌<◌, ◌≤◌, ◌^◌, OnSome, IfSome, IfNone, None, Some};
ghost use Rattle.lil_asm.specs.{Bytes.{word_at, two_words_at, byte_word_at, with_call, row, row_0, row_2, row_3, row_4, row_5, row_6, row_7}, declared.instr.Instr.TheVariants.{Clx}};
ghost use Rattle.lil_mcode.specs.{Fetch.{running_code, current}, Table.{performed}};

use super::Processor;
use crate::arithmetic::{trap_of, truth_word};
use crate::machine::Event;

impl Processor {
    /// Words and addresses in other modules and in outer frames.
    #[tactic(auto, unfolding(lil_asm::specs::Bytes::row_2))]
    #[inline(never)]
    fn go_elsewhere(&mut self, first: u8, place: usize) -> Event
        requires within { place < 65535 }
        requires first { (40 ≤ first) × (first ≤ 47) × (first ≢ 44) × (first ≢ 45) }
        ensures { performed self.old (current self.old) (row first (running_code self.old) place) ≡ (result, self.new) }
    {
        let Some((number, words)) = self.byte_and_word(place) else {
            return Event::BadCode;
        };
        let next = (place + 4) as u16;
        match first {
            0x28 => self.load_in(number, words, next),
            0x29 => self.store_in(number, words, next),
            0x2a => self.load(self.outer_frame(number), words, next),
            0x2b => self.store(self.outer_frame(number), words, next),
            0x2e => self.push_address_in(number, words, next),
            0x2f => self.push_address(self.outer_frame(number), words, next),
            _ => unreachable!(),
        }
    }

    /// Marks of procedure values, and arrays and records that go to the stack of frames.
    #[tactic(auto, unfolding(lil_asm::specs::Bytes::row_6))]
    #[inline(never)]
    fn go_to_frames(&mut self, first: u8, place: usize) -> Event
        requires within { place < 65535 }
        requires first { (first ≡ 98) ⊎ ((first ≡ 100) ⊎ (first ≡ 105)) }
        ensures { performed self.old (current self.old) (row first (running_code self.old) place) ≡ (result, self.new) }
    {
        match first {
            0x62 => self.mark_value((place + 1) as u16),
            0x64 => {
                let Some(words) = self.word(place + 1) else {
                    return Event::BadCode;
                };
                self.stack_part(words, (place + 3) as u16)
            }
            0x69 => {
                let Some((offset, words)) = self.two_words(place + 1) else {
                    return Event::BadCode;
                };
                self.copy_array(offset, words, (place + 5) as u16)
            }
            _ => unreachable!(),
        }
    }

    /// The operands of a call in another module, whose first byte stands at a place.
    fn call_operands(&self, place: usize) -> Option<(u8, u8, u16)>
        requires { place < 65535 }
        ensures some { IfSome result (λ o. with_call (running_code self.now) place ≡ Some (Clx o.0 o.1 o.2, place + 5)) }
        ensures none { IfNone result (with_call (running_code self.now) place ≡ None) }
        ensures within { OnSome result (place + 4 < 65535) }
    {
        let number = self.byte(place + 1)?;
        let procedure = self.byte(place + 2)?;
        let words = self.word(place + 3)?;
        Some((number, procedure, words))
    }

    /// Calls in other modules, and of procedure values.
    #[tactic(auto, unfolding(lil_asm::specs::Bytes::row_6))]
    #[inline(never)]
    fn call_elsewhere(&mut self, first: u8, place: usize) -> Event
        requires within { place < 65535 }
        requires first { (102 ≤ first) × (first ≤ 103) }
        ensures { performed self.old (current self.old) (row first (running_code self.old) place) ≡ (result, self.new) }
    {
        if first == 0x66 {
            let Some((number, procedure, words)) = self.call_operands(place) else {
                return Event::BadCode;
            };
            return self.call(number, procedure, words, (place + 5) as u16);
        }
        let Some(words) = self.word(place + 1) else {
            return Event::BadCode;
        };
        self.call_value(words, (place + 3) as u16)
    }

    /// A rare row: the loop of the others has one call for all of them. Those that calls of functions have come first.
    #[inline(never)]
    #[tactic(auto, unfolding(lil_asm::specs::Bytes::row_6))]
    pub(super) fn rare(&mut self, first: u8, place: usize) -> Event
        requires within { place < 65535 }
        requires elsewhere { (40 ≤ first) × (first ≢ 44) × (first ≢ 45) }
        requires frames { (first < 48) ⊎ (95 < first) }
        requires calls { (first ≤ 107) × (first ≢ 97) × (first ≢ 101) × (first ≢ 104) × (first ≢ 106) }
        ensures { performed self.old (current self.old) (row first (running_code self.old) place) ≡ (result, self.new) }
    {
        match first {
            0x60 => self.save((place + 1) as u16),
            0x63 => self.stack_word((place + 1) as u16),
            0x6b => {
                let Some(own) = self.byte(place + 1) else {
                    return Event::BadCode;
                };
                self.restore(own, (place + 2) as u16)
            }
            0x28..=0x2f => self.go_elsewhere(first, place),
            0x66..=0x67 => self.call_elsewhere(first, place),
            _ => self.go_to_frames(first, place),
        }
    }
}
