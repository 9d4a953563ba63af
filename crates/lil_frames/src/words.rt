//! Several words of a store at once.

ghost use Rattle.std.specs.Prelude.{◌≡◌, ◌+◌, ◌≤◌, length, take, drop, IfOk};
ghost use Rattle.lil_frames.specs.Words.{zeros, spliced, cleared, moved};

use lil_base::Memory;
use std::alloc::Global;

#[tactic(auto, unfolding(crate::specs::Words::zeros))]
pub fn zero_words(alloc: Global, count: usize) -> Result<Vec<u16>, Memory>
    ensures zeros { IfOk result (λ words. words.items ≡ zeros count) }
    ensures long { IfOk result (λ words. length words.items ≡ count) }
{
    let words = vec![in alloc; 0u16; count]?;
    Ok(words)
}

/// So many words from a place on.
pub fn part(store: &[u16], from: usize, count: usize) -> &[u16]
    requires { from + count ≤ length store.now }
    ensures { result.now ≡ take count (drop from store.now) }
{
    let end = from + count;
    &store[from..end]
}

/// Words come to a place.
pub fn copy_words(store: &mut [u16], at: usize, words: &[u16])
    requires { at + length words.now ≤ length store.old }
    ensures { store.new ≡ spliced store.old at words.now }
{
    let end = at + words.len();
    store[at..end].copy_from_slice(words);
}

/// The words from one place to another become zero.
pub fn clear(store: &mut [u16], from: usize, to: usize)
    requires ordered { from ≤ to }
    requires within { to ≤ length store.old }
    ensures { store.new ≡ cleared store.old from to }
{
    store[from..to].fill(0);
}

/// Words as they were, and zeros behind them, come to an address.
pub fn move_words(store: &mut [u16], to: usize, from: usize, words: usize, zeros: usize)
    requires there { from + words ≤ length store.old }
    requires room { to + (words + zeros) ≤ length store.old }
    ensures { store.new ≡ spliced store.old to (moved store.old from words zeros) }
{
    store.copy_within(from..from + words, to);
    clear(store, to + words, to + (words + zeros));
}
