ghost use Rattle.std.specs.Prelude.{◌≡◌, ◌<◌, ◌≤◌, ◌+◌, length, Err, IfOk, MatchOption, None, codes};
ghost use Rattle.lil_base.specs.declared.fault.SourceFault.{SourceFault as Told};
ghost use Rattle.lil_text.specs.declared.stop.ReadStop.TheVariants as stop;
ghost use Rattle.lil_format.specs.Format.{Fits};
ghost use Rattle.lil_book.specs.Book.{book};
ghost use Rattle.lil_check_unit.specs.Units.{HasInterfaces};
ghost use Rattle.lil_iface.specs.Iface.{IsInterface};
ghost use Rattle.lil_compile.specs.Compiled as spec;
ghost use Rattle.lil_compile.specs.Layers.{compiled_as, IsOver};

use lil_base::{Bytes, FaultKind, FormatStop, Key, Memory, Name, SourceFault, Text};
use lil_book::{Book, BookStop, Entry, read_book, write_book};
use lil_iface::interface_of;
use lil_interfaces::Interfaces;
use lil_language::Unit;
use lil_symfile::{SymbolFile, write_sym};
use lil_text::ReadStop;
use std::alloc::Global;

/// What is written of a definition: its key, and the bytes of the book and of the symbol file.
#[derive(Drop)]
pub(crate) struct Prepared {
    pub key: Key,
    pub book: Bytes,
    pub symbols: Bytes,
}

/// The book whose file was found, without entries where there is no file; none where the file isn't of its format.
pub(crate) fn book_of(alloc: Global, found: &Option<Bytes>) -> Result<Option<Book>, Memory>
    ensures { IfOk result (λ o. MatchOption o (spec.IsDamaged found.now) (λ b. spec.IsBook found.now b)) }
{
    let Some(bytes) = found else {
        return Ok(Some(Book::new(alloc)));
    };
    match read_book(alloc, bytes) {
        Ok(book) => Ok(Some(book)),
        Err(FormatStop::Fault { offset: _ }) => Ok(None),
        Err(FormatStop::Memory) => Err(Memory),
    }
}

/// Fault 78, about the book, at the unit's name.
pub(crate) fn damaged(alloc: Global, u: &Unit) -> Result<SourceFault, Memory>
    ensures { IfOk result (λ f. f ≡ spec.damaged u.now) }
{
    let Some(name) = Name::of_slice(alloc, b"LILITH")? else {
        unreachable!()
    };
    let place = u.head.name.place;
    Ok(SourceFault::about(FaultKind::SymDamaged, place, name))
}

/// Fault 79, at the unit's name.
fn full(u: &Unit) -> SourceFault
    ensures { result ≡ spec.full u.now }
{
    SourceFault::at(FaultKind::BookFull, u.head.name.place)
}

/// The key of the next entry.
fn next_key(of: &Book) -> Key
    requires { length of.now.entries < 65536 }
    ensures { result.0 ≡ spec.next_key of.now }
{
    Key(of.entries.len() as u32 + 1)
}

/// The entry of a definition behind all others, and the bytes of both files.
fn with_symbols(
    alloc: Global,
    x: &Name,
    text: Text,
    u: &Unit,
    interfaces: &Interfaces,
    of: Book,
    symbols: SymbolFile,
) -> Result<Prepared, ReadStop>
    requires named { spec.naming x.now u.now ≡ None }
    requires short { length text < 4294967296 }
    requires fits { Fits book of }
    requires interface { IsInterface u.now interfaces.now (spec.next_key of) symbols }
    ensures right { IfOk result (λ p. IsOver x.now text u.now interfaces.now of (compiled_as x.now p)) }
    ensures wrong { (f : Told) → result ≡ Err (stop.Fault f) → spec.OfRoom u.now interfaces.now of f }
{
    // its bytes have the form of names
    let _ = x.as_slice();
    let bytes = write_sym(alloc, &symbols)?;
    let entry = Entry {
        name: x.copy(alloc)?,
        text,
        rests: symbols.rests,
    };
    let mut book = of;
    match book.append(entry) {
        Err(BookStop::Full) => Err(ReadStop::Fault(full(u))),
        Err(BookStop::Memory) => Err(ReadStop::Memory),
        Ok(key) => Ok(Prepared {
            key,
            book: write_book(alloc, &book)?,
            symbols: bytes,
        }),
    }
}

/// What is written of a unit whose name and kind are right, over a book, or its fault: that of its interface, else the book is full
/// (79). Each module that it imports has an interface.
pub(crate) fn prepare(
    alloc: Global,
    x: &Name,
    text: Text,
    u: &Unit,
    interfaces: &Interfaces,
    of: Book,
) -> Result<Prepared, ReadStop>
    requires named { spec.naming x.now u.now ≡ None }
    requires short { length text < 4294967296 }
    requires fits { Fits book of }
    requires imported { HasInterfaces interfaces.now u.now }
    ensures right { IfOk result (λ p. IsOver x.now text u.now interfaces.now of (compiled_as x.now p)) }
    ensures wrong { (f : Told) → result ≡ Err (stop.Fault f) → spec.IsWrong u.now interfaces.now of f }
{
    let symbols = interface_of(alloc, u, interfaces, next_key(&of))?;
    with_symbols(alloc, x, text, u, interfaces, of, symbols)
}
