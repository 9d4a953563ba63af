ghost use Rattle.std.specs.Prelude.{◌≡◌, ◌+◌, ◌-◌, ◌<◌, ◌≤◌, length, take, drop, slice_get, slice_index, slice_set, Some, IfOk};
ghost use Rattle.lil_frames.specs.{Words.{spliced, cleared, moved}, Blocks.{Apart, size_at}, Store.{empty, lowest, with_words, opened, closed, taken}};

use crate::blocks::{Block, drop_level, lowest_of_blocks, put_block, size_of_block};
use crate::words::{clear, copy_words, move_words, part, zero_words};
use lil_base::Memory;
use std::alloc::Global;
use std::marker::Model;

/// The words of the main store.
const STORE_WORDS: usize = 65_536;

/// The most blocks: each takes two words beside its own.
const MOST_BLOCKS: usize = 32_768;

/// There is no room for a block: how many words are free.
#[derive(Clone, Copy, PartialEq, Eq)]
pub struct StoreFull {
    pub free: u32,
}

/// The main store: 65,536 words, and the blocks that the levels of programs have taken from its upper end, one below
/// another, each with two words below it.
#[derive(Drop)]
pub struct MainStore {
    words: Vec<u16>,
    blocks: Vec<Block>,
    lowest: u16,
    levels: u8,
}

impl Model for MainStore {
    ghost use Rattle.std.specs.Prelude.{◌≡◌, ◌≤◌, length, vec_capacity};
    ghost use Rattle.lil_frames.specs.Blocks.{Apart, lowest_of};
    ghost use Rattle.lil_frames.specs.Store.{Store};

    ghost Value = { Store };

    ghost view = { λ m. record { words = m.words.items; blocks = m.blocks.items; levels = m.levels } };

    ghost invariant = { λ m. (length m.words.items ≡ 65536) × (m.lowest ≡ lowest_of 65535 m.blocks.items) × Apart 65535 m.blocks.items × (32768 ≤ vec_capacity m.blocks) };
}

impl MainStore {
    /// A store of zeros, without levels and blocks. It takes all the memory that the store will need.
    pub fn new(alloc: Global) -> Result<MainStore, Memory>
        ensures { IfOk result (λ m. m ≡ empty) }
    {
        let words = zero_words(alloc, STORE_WORDS)?;
        let blocks = Vec::with_capacity(alloc, MOST_BLOCKS)?;
        Ok(MainStore {
            words,
            blocks,
            lowest: 65535,
            levels: 0,
        })
    }

    /// The word at an address.
    pub fn word(&self, at: u16) -> u16
        ensures value { result ≡ slice_index self.now.words at }
        ensures there { slice_get self.now.words at ≡ Some result }
    {
        self.words[usize::from(at)]
    }

    /// So many words from an address on.
    pub fn part(&self, from: u16, count: u16) -> &[u16]
        requires { from + count ≤ 65536 }
        ensures { result.now ≡ take count (drop from self.now.words) }
    {
        part(&self.words, usize::from(from), usize::from(count))
    }

    /// A word comes to an address.
    pub fn set_word(&mut self, at: u16, word: u16)
        ensures { self.new ≡ with_words self.old (slice_set self.old.words at word) }
    {
        self.words[usize::from(at)] = word;
    }

    /// Words come to an address.
    pub fn set_words(&mut self, at: u16, words: &[u16])
        requires { at + length words.now ≤ 65536 }
        ensures { self.new ≡ with_words self.old (spliced self.old.words at words.now) }
    {
        copy_words(&mut self.words, usize::from(at), words);
    }

    /// The words from one address to another become zero.
    pub fn clear_words(&mut self, from: u16, to: u32)
        requires ordered { from ≤ to }
        requires within { to ≤ 65536 }
        ensures { self.new ≡ with_words self.old (cleared self.old.words from to) }
    {
        clear(&mut self.words, usize::from(from), to as usize);
    }

    /// Words as they were, and zeros behind them, come to an address.
    pub fn move_words(&mut self, to: u16, from: u16, words: u16, zeros: u16)
        requires there { from + words ≤ 65536 }
        requires room { to + (words + zeros) ≤ 65536 }
        ensures { self.new ≡ with_words self.old (spliced self.old.words to (moved self.old.words from words zeros)) }
    {
        move_words(
            &mut self.words,
            usize::from(to),
            usize::from(from),
            usize::from(words),
            usize::from(zeros),
        );
    }

    /// The first of the two words below the lowest block, or 65,535 where there is no block.
    pub fn lowest(&self) -> u16
        ensures { result ≡ lowest self.now }
    {
        self.lowest
    }

    /// A level begins above the others.
    pub fn open_level(&mut self)
        requires { self.old.levels < 63 }
        ensures { self.new ≡ opened self.old }
    {
        self.levels += 1;
    }

    /// The highest level ends, and its blocks go back.
    #[tactic(auto, using(crate::proofs::BlockLaws::apart_lower))]
    pub fn close_level(&mut self)
        requires { 1 ≤ self.old.levels }
        ensures { self.new ≡ closed self.old }
    {
        drop_level(&mut self.blocks, self.levels);
        self.lowest = lowest_of_blocks(&self.blocks);
        self.levels -= 1;
    }

    /// Takes a block of zeros for the highest level, below all others, where the words from `top` on are free.
    ///
    /// # Errors
    ///
    /// `StoreFull` where the block and the two words below it are more than the free ones. Nothing changes then.
    #[tactic(auto, using(crate::proofs::BlockLaws::lowest_more, crate::proofs::BlockLaws::apart_more, crate::proofs::BlockLaws::apart_room))]
    pub fn allocate(&mut self, top: u32, words: u16) -> Result<u16, StoreFull>
        ensures taken { taken top words self.old ≡ (result, self.new) }
        ensures below { IfOk result (λ at. lowest self.new ≡ at - 2) }
        ensures apart { Apart 65535 self.new.blocks }
    {
        let free = u32::from(self.lowest).saturating_sub(top);
        if free < u32::from(words) + 2 {
            return Err(StoreFull { free });
        }
        let at = self.lowest - words;
        self.clear_words(at, u32::from(self.lowest));
        let block = Block {
            at,
            words,
            level: self.levels,
        };
        put_block(&mut self.blocks, block);
        self.lowest = at - 2;
        Ok(at)
    }

    /// How many words the block of the highest level has that begins at an address. None where none begins there.
    pub fn block_size(&self, at: u16) -> Option<u16>
        ensures { result ≡ size_at self.now.levels at self.now.blocks }
    {
        size_of_block(&self.blocks, self.levels, at)
    }
}
