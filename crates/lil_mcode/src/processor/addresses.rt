//! The rows of addresses, and of words and blocks of words at addresses.

ghost use Rattle.std.specs.Prelude.{◌≡◌, ◌+◌, ◌*◌, ◌<◌, ◌≤◌, ◌∷◌, length, drop};
ghost use Rattle.lil_mcode.specs.Table.{address_row, base_at, based_row, place_row, further_row, fetch_row, put_row, move_row, nil_row, element_row, open_row, take_row, on_one, on_two, on_three};

use super::Processor;
use super::control::distance;
use crate::arithmetic::{trap_of, truth_word};
use crate::machine::Event;
use lil_base::{LimitKind, TrapKind};

impl Processor {
    pub(super) fn push_address(&mut self, base: u16, offset: u16, next: u16) -> Event
        ensures { address_row (base + offset) next self.old ≡ (result, self.new) }
    {
        let at = u32::from(base) + u32::from(offset);
        if at >= 65536 {
            return Event::BadCode;
        }
        self.push(at as u16, next)
    }

    pub(super) fn push_address_in(&mut self, number: u8, offset: u16, next: u16) -> Event
        ensures { based_row (base_at self.old.modules number) offset self.old (λ a. address_row a next self.old) ≡ (result, self.new) }
    {
        let Some(base) = self.base_of(number) else {
            return Event::BadCode;
        };
        self.push_address(base, offset, next)
    }

    /// An address in place of so many words at the top.
    fn put_address(&mut self, dropped: u8, at: u64, next: u16) -> Event
        requires some { 1 ≤ dropped }
        requires there { dropped ≤ length self.old.stack }
        ensures { place_row at next self.old (drop dropped self.old.stack) ≡ (result, self.new) }
    {
        if at >= 65536 {
            return Event::BadCode;
        }
        self.replace(dropped, at as u16, next);
        Event::Went
    }

    pub(super) fn go_further(&mut self, words: u16, next: u16) -> Event
        ensures { on_one self.old self.old.stack (further_row words next self.old) ≡ (result, self.new) }
    {
        let Some(address) = self.topmost() else {
            return Event::BadCode;
        };
        self.put_address(1, u64::from(address) + u64::from(words), next)
    }

    pub(super) fn fetch(&mut self, words: u16, next: u16) -> Event
        ensures { on_one self.old self.old.stack (fetch_row words next self.old) ≡ (result, self.new) }
    {
        let Some(address) = self.topmost() else {
            return Event::BadCode;
        };
        let at = u32::from(address) + u32::from(words);
        if at >= 65536 {
            return Event::BadCode;
        }
        let word = self.memory.word(at as u16);
        self.replace(1, word, next);
        Event::Went
    }

    /// A word comes to an address, and the two topmost words go.
    pub(super) fn put(&mut self, address: u16, word: u16, next: u16)
        requires { 2 ≤ length self.old.stack }
        ensures { put_row next self.old address word (drop 2 self.old.stack) ≡ (Event.Went, self.new) }
    {
        self.drop_arguments(2);
        self.memory.set_word(address, word);
        self.place = next;
    }

    pub(super) fn put_word(&mut self, next: u16) -> Event
        ensures { on_two self.old self.old.stack (put_row next self.old) ≡ (result, self.new) }
    {
        let Some((address, word)) = self.two() else {
            return Event::BadCode;
        };
        self.put(address, word, next);
        Event::Went
    }

    pub(super) fn move_words(&mut self, words: u16, zeros: u16, next: u16) -> Event
        ensures { on_two self.old self.old.stack (move_row words zeros next self.old) ≡ (result, self.new) }
    {
        let Some((to, from)) = self.two() else {
            return Event::BadCode;
        };
        let length = u32::from(words) + u32::from(zeros);
        if u32::from(from) + u32::from(words) > 65536 || u32::from(to) + length > 65536 {
            return Event::BadCode;
        }
        self.memory.move_words(to, from, words, zeros);
        self.drop_arguments(2);
        self.place = next;
        Event::Went
    }

    pub(super) fn test_nil(&mut self, next: u16) -> Event
        ensures { on_one self.old self.old.stack (nil_row next self.old) ≡ (result, self.new) }
    {
        match self.topmost() {
            None => Event::BadCode,
            Some(0) => Event::Trap(TrapKind::Nil),
            Some(_) => {
                self.place = next;
                Event::Went
            }
        }
    }

    pub(super) fn element(&mut self, low: u16, words: u16, next: u16) -> Event
        ensures { on_two self.old self.old.stack (element_row low words next self.old) ≡ (result, self.new) }
    {
        let Some((address, index)) = self.two() else {
            return Event::BadCode;
        };
        let behind = u64::from(distance(low, index)) * u64::from(words);
        self.put_address(2, u64::from(address) + behind, next)
    }

    pub(super) fn open_element(&mut self, words: u16, next: u16) -> Event
        ensures { on_three self.old self.old.stack (open_row words next self.old) ≡ (result, self.new) }
    {
        let Some((address, high, index)) = self.three() else {
            return Event::BadCode;
        };
        if index > high {
            return Event::Trap(TrapKind::Range);
        }
        let behind = u64::from(index) * u64::from(words);
        self.put_address(3, u64::from(address) + behind, next)
    }

    /// A block of words is taken below the limit and cleared, and its address comes to a place.
    pub(super) fn take_block(&mut self, next: u16) -> Event
        ensures { on_two self.old self.old.stack (take_row next self.old) ≡ (result, self.new) }
    {
        let Some((address, words)) = self.two() else {
            return Event::BadCode;
        };
        match self.memory.allocate(u32::from(self.top), words) {
            Err(_) => Event::Limit(LimitKind::Store),
            Ok(block) => {
                self.put(address, block, next);
                Event::Went
            }
        }
    }
}
