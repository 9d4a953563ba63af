ghost use Rattle.std.specs.Prelude.{◌≡◌, ◌++◌, ◌∷◌, [], ◌≤◌, ◌↔◌, length, IfOk, OnErr, Err};
ghost use Rattle.std.specs.Option.{option_copied};
ghost use Rattle.lil_book.specs.declared.book.BookStop.TheVariants as why;
ghost use Rattle.lil_book.specs.Book as spec;

use lil_base::{Items, Key, Memory, Name, Text};
use lil_format::Wanted;
use std::alloc::Global;
use thiserror::Error;

/// A definition that was compiled: its module, its text, and the modules on which it rests.
#[derive(Drop)]
pub struct Entry {
    pub name: Name,
    pub text: Text,
    pub rests: Items<Wanted>,
}

/// The definitions of a volume, in the order in which they were compiled. Each has its number, from 1, as its key.
#[derive(Drop)]
pub struct Book {
    pub entries: Items<Entry>,
}

/// Why an entry isn't appended.
#[derive(Clone, Copy, Debug, PartialEq, Eq, Error)]
pub enum BookStop {
    /// The book has 65,535 entries.
    #[error("the book is full")]
    Full,
    /// Want of memory.
    #[error("memory")]
    Memory,
}

impl From<Memory> for BookStop {
    ghost from_gives = { λ _ e. e ≡ why.Memory };

    fn from(_: Memory) -> BookStop {
        BookStop::Memory
    }
}

impl Book {
    /// The book without entries. It takes no memory yet.
    pub fn new(alloc: Global) -> Book
        ensures { result ≡ spec.no_entries }
    {
        Book {
            entries: Items::new(alloc),
        }
    }

    /// The entry with this key; none for 0 and above the number of entries.
    pub fn entry(&self, key: Key) -> Option<&Entry>
        ensures { option_copied result ≡ spec.entry_with self.now.entries key.0 }
    {
        if key.0 == 0 {
            return None;
        }
        self.entries.get(key.0 as usize - 1)
    }

    /// Puts an entry behind all others, and gives its key. After a refusal the book is as before.
    pub fn append(&mut self, entry: Entry) -> Result<Key, BookStop>
        // It stands last, and its key is the number of entries.
        ensures ok { IfOk result (λ key. (self.new.entries ≡ self.old.entries ++ entry ∷ []) × (key.0 ≡ length self.new.entries)) }
        // Full are 65,535 entries and more, which no file has.
        ensures full { result ≡ Err why.Full ↔ 65535 ≤ length self.old.entries }
        ensures err { OnErr result (self.new ≡ self.old) }
    {
        let count = self.entries.len();
        if 65_535 <= count {
            return Err(BookStop::Full);
        }
        self.entries.push(entry)?;
        Ok(Key(count as u32 + 1))
    }
}
