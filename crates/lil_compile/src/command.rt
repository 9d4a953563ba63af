ghost use Rattle.std.specs.Prelude.{◌≡◌, ◌<◌, length, None, Some};
ghost use Rattle.lil_language.specs.Units.{Reads};
ghost use Rattle.lil_format.specs.Format.{Fits};
ghost use Rattle.lil_book.specs.Book.{book};
ghost use Rattle.lil_imports.specs.Ran.{Found};
ghost use Rattle.lil_compile.specs.Compiled.{naming, OfBook};
ghost use Rattle.lil_compile.specs.Command.{DefinitionCompiled};
ghost use Rattle.lil_compile.specs.Layers.{compiled_as, IsOverImports, IsUnitMade, IsUnitWrong, Ran, TextRan};

use crate::CompileStop;
use crate::prepare::{Prepared, book_of, damaged, prepare};
use lil_base::{FileKind, FileName, Key, Name, Text};
use lil_book::Book;
use lil_check_unit::{naming_fault, told};
use lil_imports::gather;
use lil_language::{Unit, UnitKind};
use lil_read_unit::read;
use lil_volume::Volume;
use std::alloc::Global;

/// Writes the book, and then the symbol file of the module x.
fn store<V: Volume>(
    alloc: Global,
    volume: &mut V,
    x: &Name,
    made: &Prepared,
) -> Result<Key, CompileStop>
    ensures { Ran (λ c. c ≡ compiled_as x.now made.now) (λ f. ⊥) (V.files volume.old) (V.faults volume.old) (V.files volume.new) (V.faults volume.new) result }
{
    let book = FileName::book(alloc)?;
    let symbols = x.file(alloc, FileKind::Symbols)?;
    volume.write(alloc, &book, &made.book)?;
    volume.write(alloc, &symbols, &made.symbols)?;
    Ok(made.key)
}

/// Compiles a unit whose name and kind are right, over a book.
fn compile_over<V: Volume>(
    alloc: Global,
    volume: &mut V,
    x: &Name,
    text: Text,
    u: &Unit,
    of: Book,
) -> Result<Key, CompileStop>
    requires named { naming x.now u.now ≡ None }
    requires short { length text < 4294967296 }
    requires fits { Fits book of }
    ensures { Ran (IsOverImports (Found (V.files volume.old)) x.now text u.now of) (OfBook (Found (V.files volume.old)) x.now u.now of) (V.files volume.old) (V.faults volume.old) (V.files volume.new) (V.faults volume.new) result }
{
    let gathered = gather(alloc, volume, u)?;
    let made = prepare(alloc, x, text, u, &gathered.interfaces, of)?;
    store(alloc, volume, x, &made)
}

/// Compiles a unit whose name and kind are right.
fn compile_named<V: Volume>(
    alloc: Global,
    volume: &mut V,
    x: &Name,
    text: Text,
    u: &Unit,
) -> Result<Key, CompileStop>
    requires named { naming x.now u.now ≡ None }
    requires short { length text < 4294967296 }
    ensures { Ran (IsUnitMade x.now text u.now (V.files volume.old)) (IsUnitWrong x.now u.now (V.files volume.old)) (V.files volume.old) (V.faults volume.old) (V.files volume.new) (V.faults volume.new) result }
{
    let book = FileName::book(alloc)?;
    let found = volume.read(alloc, &book)?;
    match book_of(alloc, &found)? {
        None => Err(CompileStop::Source(damaged(alloc, u)?)),
        Some(of) => compile_over(alloc, volume, x, text, u, of),
    }
}

/// Compiles a unit as the definition of the module x.
fn compile_unit<V: Volume>(
    alloc: Global,
    volume: &mut V,
    x: &Name,
    text: Text,
    u: &Unit,
) -> Result<Key, CompileStop>
    requires { length text < 4294967296 }
    ensures { Ran (IsUnitMade x.now text u.now (V.files volume.old)) (IsUnitWrong x.now u.now (V.files volume.old)) (V.files volume.old) (V.faults volume.old) (V.files volume.new) (V.faults volume.new) result }
{
    match naming_fault(UnitKind::Definition, x, u) {
        Some(fault) => Err(CompileStop::Source(told(fault))),
        None => compile_named(alloc, volume, x, text, u),
    }
}

/// Compiles a text as the definition of the module x.
fn compile_text<V: Volume>(
    alloc: Global,
    volume: &mut V,
    x: &Name,
    text: Text,
) -> Result<Key, CompileStop>
    ensures { TextRan x.now text (V.files volume.old) (V.faults volume.old) (V.files volume.new) (V.faults volume.new) result }
{
    let unit = read(alloc, &text)?;
    compile_unit(alloc, volume, x, text, &unit)
}

/// Compiles the definition of the module x in a volume (Programming in Modula-2, Definition and implementation parts; ETH report
/// 40). It reads `x.DEF`, and then, where that is a definition of this name, the book `LILITH.BOK` and the symbol file of each module
/// that it imports and that isn't resident, in their order, up to the first import that has a fault. It writes the book with one
/// entry more, the name, the source's text and the modules on which it rests, and then `x.SYM`. The answer is the entry's key: its
/// number in the book, from 1. A volume without the file of a book has a book without entries.
///
/// The first of these faults speaks: that of the text (65, 1 to 6, 10, 12, 11), of the unit's kind or name (80, 76, 77), a book
/// that isn't of its format (78), imports (63, 70, 71, 72, 78, the first import that has one), names and declarations, a symbol file or
/// variables that are too long (61), and a book that is full (79).
///
/// All bytes are made before the first write. After a fault of the volume, or where it wants memory, the book may be written
/// alone: then the key isn't given again.
pub fn compile_def<V: Volume>(alloc: Global, volume: &mut V, x: &Name) -> Result<Key, CompileStop>
    ensures compiled { DefinitionCompiled x.now (V.files volume.old) (V.faults volume.old) (V.files volume.new) (V.faults volume.new) result }
{
    let source = x.file(alloc, FileKind::Definition)?;
    match volume.read(alloc, &source)? {
        None => Err(CompileStop::NoFile),
        Some(text) => compile_text(alloc, volume, x, text),
    }
}
