//! The rows of the expression stack and of words of the store.

ghost use Rattle.std.specs.Prelude.{◌≡◌, ◌+◌, ◌<◌, ◌≤◌, ◌∷◌, length, drop, slice_get, None, Some, MatchOption};
ghost use Rattle.lil_base.specs.Words.{Cardinal, Integer};
ghost use Rattle.lil_mcode.specs.Table.{going, push_row, load_row, store_row, range_row, base_at, based_row, double_row, drop_row, swap_row, on_one, on_two};

use super::Processor;
use super::fetching::loaded;
use crate::arithmetic::{integer, trap_of, truth_word};
use crate::machine::Event;
use lil_base::TrapKind;

impl Processor {
    pub(super) fn push(&mut self, word: u16, next: u16) -> Event
        ensures { push_row word next self.old ≡ (result, self.new) }
    {
        if self.stack.is_full() {
            return Event::BadCode;
        }
        self.stack.push(word);
        self.place = next;
        Event::Went
    }

    pub(super) fn load(&mut self, base: u16, offset: u16, next: u16) -> Event
        ensures { load_row (base + offset) next self.old ≡ (result, self.new) }
    {
        let at = u32::from(base) + u32::from(offset);
        if at >= 65536 {
            return Event::BadCode;
        }
        let word = self.memory.word(at as u16);
        self.push(word, next)
    }

    pub(super) fn store(&mut self, base: u16, offset: u16, next: u16) -> Event
        ensures { on_one self.old self.old.stack (store_row (base + offset) next self.old) ≡ (result, self.new) }
    {
        let at = u32::from(base) + u32::from(offset);
        if at >= 65536 {
            return Event::BadCode;
        }
        let Some(word) = self.stack.pop() else {
            return Event::BadCode;
        };
        self.memory.set_word(at as u16, word);
        self.place = next;
        Event::Went
    }

    /// Where the data of a module begins, if it is loaded.
    pub(super) fn base_of(&self, number: u8) -> Option<u16>
        ensures { result ≡ base_at self.now.modules number }
    {
        let module = loaded(self.modules.as_slice(), number)?;
        Some(module.base)
    }

    pub(super) fn load_in(&mut self, number: u8, offset: u16, next: u16) -> Event
        ensures { based_row (base_at self.old.modules number) offset self.old (λ a. load_row a next self.old) ≡ (result, self.new) }
    {
        let Some(base) = self.base_of(number) else {
            return Event::BadCode;
        };
        self.load(base, offset, next)
    }

    pub(super) fn store_in(&mut self, number: u8, offset: u16, next: u16) -> Event
        ensures { based_row (base_at self.old.modules number) offset self.old (λ a. on_one self.old self.old.stack (store_row a next self.old)) ≡ (result, self.new) }
    {
        let Some(base) = self.base_of(number) else {
            return Event::BadCode;
        };
        self.store(base, offset, next)
    }

    pub(super) fn topmost(&self) -> Option<u16>
        ensures { result ≡ slice_get self.now.stack 0 }
    {
        let count = self.stack.len();
        if count == 0 {
            return None;
        }
        Some(self.stack[count - 1])
    }

    pub(super) fn test_cardinal(&mut self, low: u16, high: u16, next: u16) -> Event
        ensures { on_one self.old self.old.stack (range_row Cardinal low high next self.old) ≡ (result, self.new) }
    {
        let Some(word) = self.topmost() else {
            return Event::BadCode;
        };
        if word < low || high < word {
            return Event::Trap(TrapKind::Range);
        }
        self.place = next;
        Event::Went
    }

    pub(super) fn test_integer(&mut self, low: u16, high: u16, next: u16) -> Event
        ensures { on_one self.old self.old.stack (range_row Integer low high next self.old) ≡ (result, self.new) }
    {
        let Some(word) = self.topmost() else {
            return Event::BadCode;
        };
        let number = integer(word);
        if number < integer(low) || integer(high) < number {
            return Event::Trap(TrapKind::Range);
        }
        self.place = next;
        Event::Went
    }

    pub(super) fn double(&mut self, next: u16) -> Event
        ensures { on_one self.old self.old.stack (double_row next self.old) ≡ (result, self.new) }
    {
        let Some(word) = self.topmost() else {
            return Event::BadCode;
        };
        self.push(word, next)
    }

    pub(super) fn drop_word(&mut self, next: u16) -> Event
        ensures { on_one self.old self.old.stack (drop_row next self.old) ≡ (result, self.new) }
    {
        let Some(_) = self.stack.pop() else {
            return Event::BadCode;
        };
        self.place = next;
        Event::Went
    }

    pub(super) fn swap(&mut self, next: u16) -> Event
        ensures { on_two self.old self.old.stack (swap_row next self.old) ≡ (result, self.new) }
    {
        let Some((x, y)) = self.two() else {
            return Event::BadCode;
        };
        let _count = self.stack.len();
        self.replace(2, y, next);
        self.stack.push(x);
        Event::Went
    }

    pub(super) fn two(&self) -> Option<(u16, u16)>
        ensures { MatchOption result (length self.now.stack < 2) (λ p. self.now.stack ≡ p.1 ∷ p.0 ∷ drop 2 self.now.stack) }
    {
        let count = self.stack.len();
        if count < 2 {
            return None;
        }
        Some((self.stack[count - 2], self.stack[count - 1]))
    }

    /// A word in place of so many others at the top.
    pub(super) fn replace(&mut self, dropped: u8, word: u16, next: u16)
        requires some { 1 ≤ dropped }
        requires there { dropped ≤ length self.old.stack }
        ensures { self.new ≡ going self.old next (word ∷ drop dropped self.old.stack) }
    {
        let count = self.stack.len();
        self.stack.truncate(count - usize::from(dropped));
        self.stack.push(word);
        self.place = next;
    }
}
