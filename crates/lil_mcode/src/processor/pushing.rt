//! The rows of words that go to the stack of frames, and of those that come back from it.

ghost use Rattle.std.specs.Prelude.{◌≡◌, ◌+◌, ◌*◌, ◌<◌, ◌≤◌, ◌∷◌, ◌++◌, length, take, drop, reverse};
ghost use Rattle.lil_mcode.specs.Table.{stacked_row, value_mark_row, word_row, words_row, array_row, save_row, restore_row, on_one};
ghost use Rattle.lil_frames.specs.Words.{spliced, moved};
ghost use Rattle.arrayvec.specs.ArrayVec.{array_vec_len};

use super::Processor;
use crate::arithmetic::{trap_of, truth_word};
use crate::machine::Event;
use arrayvec::ArrayVec;
use lil_base::{LimitKind, TrapKind};

impl Processor {
    /// Words come to the stack of frames, and so many at the top of the expression stack go.
    pub(super) fn stack_words(&mut self, words: &[u16], dropped: u8, next: u16) -> Event
        requires { dropped ≤ length self.old.stack }
        ensures { stacked_row words.now next (drop dropped self.old.stack) self.old ≡ (result, self.new) }
    {
        let end = usize::from(self.top) + words.len();
        if usize::from(self.memory.lowest()) < end {
            return Event::Limit(LimitKind::Stack);
        }
        self.memory.set_words(self.top, words);
        self.drop_arguments(dropped);
        self.top = end as u16;
        self.place = next;
        Event::Went
    }

    /// The mark of a call of a procedure value.
    #[inline(never)]
    pub(super) fn mark_value(&mut self, next: u16) -> Event
        ensures { on_one self.old self.old.stack (value_mark_row next self.old) ≡ (result, self.new) }
    {
        let Some(value) = self.topmost() else {
            return Event::BadCode;
        };
        if value == 0 {
            return Event::Trap(TrapKind::NoProcedure);
        }
        let Some(_) = self.entry_of((value / 256) as u8, (value % 256) as u8) else {
            return Event::BadCode;
        };
        self.stack_words(&[0, 0, 0, value], 1, next)
    }

    /// The topmost word goes to the stack of frames.
    pub(super) fn stack_word(&mut self, next: u16) -> Event
        ensures { on_one self.old self.old.stack (word_row next self.old) ≡ (result, self.new) }
    {
        let Some(word) = self.topmost() else {
            return Event::BadCode;
        };
        self.stack_words(&[word], 1, next)
    }

    /// So many words of the store come to the stack of frames, which has room for them.
    fn copy_up(&mut self, from: u16, words: u16)
        requires there { from + words ≤ 65536 }
        requires room { self.old.top + words ≤ 65535 }
        ensures { self.new ≡ record self.old { top = self.old.top + words; store = spliced self.old.store self.old.top (moved self.old.store from words 0) } }
    {
        self.memory.move_words(self.top, from, words, 0);
        self.top += words;
    }

    /// The words at an address go to the stack of frames.
    #[inline(never)]
    pub(super) fn stack_part(&mut self, words: u16, next: u16) -> Event
        ensures { on_one self.old self.old.stack (words_row words next self.old) ≡ (result, self.new) }
    {
        let Some(from) = self.topmost() else {
            return Event::BadCode;
        };
        if u32::from(from) + u32::from(words) > 65536 {
            return Event::BadCode;
        }
        if u32::from(self.memory.lowest()) < u32::from(self.top) + u32::from(words) {
            return Event::Limit(LimitKind::Stack);
        }
        self.copy_up(from, words);
        self.drop_arguments(1);
        self.place = next;
        Event::Went
    }

    /// The elements of an array go to the stack of frames, and their address comes in place of the array's.
    #[inline(never)]
    pub(super) fn copy_array(&mut self, offset: u16, words: u16, next: u16) -> Event
        ensures { array_row (self.old.frame + offset) words next self.old ≡ (result, self.new) }
    {
        let at = u32::from(self.frame) + u32::from(offset);
        if at + 1 >= 65536 {
            return Event::BadCode;
        }
        let at = at as u16;
        let from = self.memory.word(at);
        let high = self.memory.word(at + 1);
        let count = (u64::from(high) + 1) * u64::from(words);
        if u64::from(from) + count > 65536 {
            return Event::BadCode;
        }
        if u64::from(self.memory.lowest()) < u64::from(self.top) + count {
            return Event::Limit(LimitKind::Stack);
        }
        let copy = self.top;
        self.copy_up(from, count as u16);
        self.memory.set_word(at, copy);
        self.place = next;
        Event::Went
    }

    /// The words of the expression stack and their number go to the stack of frames.
    pub(super) fn save(&mut self, next: u16) -> Event
        ensures { save_row next self.old ≡ (result, self.new) }
    {
        if self.stack.len() == 0 {
            return self.stack_words(&[0], 0, next);
        }
        if self.stack.len() == 1 {
            let word = self.stack[0];
            return self.stack_words(&[word, 1], 1, next);
        }
        self.save_all(next)
    }

    /// The same of any number of words.
    #[inline(never)]
    fn save_all(&mut self, next: u16) -> Event
        ensures { save_row next self.old ≡ (result, self.new) }
    {
        let count = self.stack.len() as u8;
        let mut words: ArrayVec<u16, 17> = ArrayVec::new();
        extend(&mut words, self.stack.as_slice());
        words.push(u16::from(count));
        self.stack_words(words.as_slice(), count, next)
    }

    /// Words that were saved come back below those of the expression stack.
    #[tactic(auto, using(crate::proofs::Lists::one_back))]
    fn take_back(&mut self, from: u16, count: u16)
        requires room { count + length self.old.stack ≤ 16 }
        requires there { from + count ≤ 65536 }
        ensures { self.new ≡ record self.old { stack = self.old.stack ++ reverse (take count (drop from self.old.store)) } }
    {
        if count == 0 {
            return;
        }
        if count == 1 {
            self.stack.insert(0, self.memory.word(from));
            return;
        }
        self.take_all_back(from, count);
    }

    /// The same of any number of words.
    #[inline(never)]
    fn take_all_back(&mut self, from: u16, count: u16)
        requires room { count + length self.old.stack ≤ 16 }
        requires there { from + count ≤ 65536 }
        ensures { self.new ≡ record self.old { stack = self.old.stack ++ reverse (take count (drop from self.old.store)) } }
    {
        let mut words: ArrayVec<u16, 16> = ArrayVec::new();
        extend(&mut words, self.memory.part(from, count));
        extend(&mut words, self.stack.as_slice());
        self.stack = words;
    }

    /// The words that SAV saved come back, where the expression stack has so many words of its own.
    pub(super) fn restore(&mut self, own: u8, next: u16) -> Event
        ensures { restore_row own next self.old ≡ (result, self.new) }
    {
        let count = self.memory.word(self.top.saturating_sub(1));
        if self.stack.len() != usize::from(own) || usize::from(count) + usize::from(own) > 16 {
            return Event::BadCode;
        }
        if u32::from(self.top) < u32::from(self.frame) + 5 + u32::from(count) {
            return Event::BadCode;
        }
        let from = self.top - 1 - count;
        self.take_back(from, count);
        self.top = from;
        self.place = next;
        Event::Went
    }
}

/// More words behind those that are there.
fn extend<const N: usize>(words: &mut ArrayVec<u16, N>, more: &[u16])
    requires { array_vec_len words.old + length more.now ≤ N }
    ensures { words.new.items ≡ words.old.items ++ more.now }
{
    match words.try_extend_from_slice(more) {
        Ok(()) => (),
        Err(_) => unreachable!(),
    }
}
