ghost use Rattle.std.specs.Prelude.{◌≡◌, IfOk, Ok};
ghost use Rattle.lil_format.specs.Reading.{Reads, ReadsFile, whole};
ghost use Rattle.lil_format.specs.Format.{reads, IsFile};
ghost use Rattle.lil_book.specs.declared.book.Book.{Book};
ghost use Rattle.lil_book.specs.Book as spec;

use crate::book::{Book, Entry};
use lil_base::{Bytes, FormatStop, Items, Text};
use lil_format::{
    Source, Stop, Wanted, any_byte, any_long, any_run, any_word, read_name, read_wanted, to_end,
};
use std::alloc::Global;

#[tactic(auto, unfolding(crate::specs::Book::source_text, lil_format::specs::Format::reads))]
fn source_text(alloc: Global, source: &mut Source<'_>) -> Result<Text, Stop>
    ensures { Reads (reads spec.source_text source.old) result source.new }
{
    let size = any_long(source)?;
    any_run(alloc, source, size as usize)
}

#[tactic(auto, using(lil_format::specs::Turns::turns), unfolding(crate::specs::Book::rests, lil_format::specs::Format::reads))]
fn rests(alloc: Global, source: &mut Source<'_>) -> Result<Items<Wanted>, Stop>
    ensures { Reads (reads spec.rests source.old) result source.new }
{
    let count = any_byte(source)?;
    let mut all = Items::new(alloc);
    for _turn in 0..count {
        let next = read_wanted(alloc, source)?;
        all.push(next)?;
    }
    Ok(all)
}

#[tactic(auto, unfolding(crate::specs::Book::entry, lil_format::specs::Format::reads))]
fn entry(alloc: Global, source: &mut Source<'_>) -> Result<Entry, Stop>
    ensures { Reads (reads spec.entry source.old) result source.new }
{
    let name = read_name(alloc, source)?;
    let text = source_text(alloc, source)?;
    let rests = rests(alloc, source)?;
    Ok(Entry { name, text, rests })
}

#[tactic(auto, using(lil_format::specs::Turns::turns), unfolding(crate::specs::Book::entries, lil_format::specs::Format::reads))]
fn entries(alloc: Global, source: &mut Source<'_>) -> Result<Items<Entry>, Stop>
    ensures { Reads (reads spec.entries source.old) result source.new }
{
    let count = any_word(source)?;
    let mut all = Items::new(alloc);
    for _turn in 0..count {
        let next = entry(alloc, source)?;
        all.push(next)?;
    }
    Ok(all)
}

#[tactic(auto, unfolding(crate::specs::Book::book, lil_format::specs::Format::reads))]
fn book(alloc: Global, source: &mut Source<'_>) -> Result<Book, Stop>
    ensures { Reads (reads spec.book source.old) result source.new }
{
    source.letters(b"LBOK")?;
    source.letters(&[1])?;
    let entries = entries(alloc, source)?;
    Ok(Book { entries })
}

fn book_of(alloc: Global, bytes: &[u8]) -> Result<Book, FormatStop>
    ensures found { IfOk result (λ b. IsFile spec.book bytes.now b) }
    ensures only { (b : Book) → IsFile spec.book bytes.now b → ReadsFile (Ok b) result }
    ensures exact { ReadsFile (whole bytes.now (reads spec.book bytes.now)) result }
{
    let mut source = Source::new(bytes);
    let read = book(alloc, &mut source);
    to_end(bytes.len(), &source, read)
}

/// The book whose file these bytes are.
pub fn read_book(alloc: Global, bytes: &Bytes) -> Result<Book, FormatStop>
    // The bytes are the spelling of what is read.
    ensures found { IfOk result (λ b. IsFile spec.book bytes.now b) }
    // A book is read from its spelling, unless memory is wanting.
    ensures only { (b : Book) → IsFile spec.book bytes.now b → ReadsFile (Ok b) result }
    // A fault is told at the first byte with which no file goes on.
    ensures exact { ReadsFile (whole bytes.now (reads spec.book bytes.now)) result }
{
    book_of(alloc, bytes.as_slice())
}
