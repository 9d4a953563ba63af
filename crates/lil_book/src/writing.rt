ghost use Rattle.std.specs.Prelude.{◌≡◌, ◌++◌, OnOk, IfOk};
ghost use Rattle.lil_format.specs.Format.{Fits, spelling};
ghost use Rattle.lil_book.specs.Book as spec;

use crate::book::{Book, Entry};
use lil_base::{Bytes, Memory, put16};
use lil_format::{Wanted, put_name, put_text32, put_wanted};
use std::alloc::Global;

#[tactic(auto, using(crate::proofs::Lists::rests_fit))]
fn put_rests(out: &mut Bytes, all: &[Wanted]) -> Result<(), Memory>
    requires { Fits spec.rests all.now }
    ensures { OnOk result (out.new ≡ out.old ++ spelling spec.rests all.now) }
{
    out.push(all.len() as u8)?;
    for one in all {
        put_wanted(out, one)?;
    }
    Ok(())
}

#[tactic(auto, unfolding(crate::specs::Book::entry, crate::specs::Book::source_text, lil_format::specs::Format::Fits, lil_format::specs::Format::spelling))]
fn put_entry(out: &mut Bytes, entry: &Entry) -> Result<(), Memory>
    requires { Fits spec.entry entry.now }
    ensures { OnOk result (out.new ≡ out.old ++ spelling spec.entry entry.now) }
{
    put_name(out, &entry.name)?;
    put_text32(out, entry.text.as_slice())?;
    put_rests(out, entry.rests.as_slice())
}

#[tactic(auto, using(crate::proofs::Lists::entries_fit))]
fn put_entries(out: &mut Bytes, all: &[Entry]) -> Result<(), Memory>
    requires { Fits spec.entries all.now }
    ensures { OnOk result (out.new ≡ out.old ++ spelling spec.entries all.now) }
{
    put16(out, all.len() as u16)?;
    for one in all {
        put_entry(out, one)?;
    }
    Ok(())
}

/// The spelling of a book that has one: with at most 65,535 entries, each of at most 255 rests.
#[tactic(auto, unfolding(crate::specs::Book::book, lil_format::specs::Format::Fits, lil_format::specs::Format::spelling))]
pub fn write_book(alloc: Global, book: &Book) -> Result<Bytes, Memory>
    requires { Fits spec.book book.now }
    ensures { IfOk result (λ bytes. bytes ≡ spelling spec.book book.now) }
{
    let mut out = Bytes::new(alloc);
    out.extend(b"LBOK")?;
    out.push(1)?;
    put_entries(&mut out, book.entries.as_slice())?;
    Ok(out)
}
