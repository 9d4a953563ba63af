ghost use Rattle.std.specs.Prelude.{◌≡◌};
ghost use Rattle.lil_grammar.specs.Steps as steps;
ghost use Rattle.lil_grammar.specs.Steps.{Reads};
ghost use Rattle.lil_language.specs.Grammar as spec;

use lil_base::{Items, beside};
use lil_grammar::Reader;
use lil_language::{Head, Import, UnitKind};
use lil_read_expr::names;
use lil_text::{Ident, Mark, ReadStop, Word};
use std::alloc::Global;

/// Names that are imported from a module.
#[tactic(auto, unfolding(lil_language::specs::Grammar::reading, lil_language::specs::Grammar::import_from, lil_syntax::specs::Syntax::reads, lil_syntax::specs::Syntax::before))]
fn import_from(alloc: Global, reader: &mut Reader<'_>, depth: u8) -> Result<Import, ReadStop>
    ensures { Reads (spec.reading depth spec.import_from reader.old) result reader.new }
{
    let place = reader.expect_word(Word::From)?;
    let from = reader.ident(alloc)?;
    let (from, _) = beside(from, reader.expect_word(Word::Import))?;
    let (from, names) = beside(from, names(alloc, reader, depth))?;
    let ((from, names), _) = beside((from, names), reader.expect(Mark::Semicolon))?;
    Ok(Import {
        place,
        from: Some(from),
        names,
    })
}

/// Modules that are imported.
#[tactic(auto, unfolding(lil_language::specs::Grammar::reading, lil_language::specs::Grammar::import_all, lil_syntax::specs::Syntax::reads, lil_syntax::specs::Syntax::before))]
fn import_all(alloc: Global, reader: &mut Reader<'_>, depth: u8) -> Result<Import, ReadStop>
    ensures { Reads (spec.reading depth spec.import_all reader.old) result reader.new }
{
    let place = reader.expect_word(Word::Import)?;
    let names = names(alloc, reader, depth)?;
    reader.expect(Mark::Semicolon)?;
    Ok(Import {
        place,
        from: None,
        names,
    })
}

/// An import.
#[tactic(auto, using(lil_language::specs::Laws::ways), unfolding(lil_language::specs::Grammar::an_import, lil_language::specs::Grammar::import_from))]
fn an_import(alloc: Global, reader: &mut Reader<'_>, depth: u8) -> Result<Import, ReadStop>
    ensures { Reads (spec.reading depth spec.an_import reader.old) result reader.new }
{
    if reader.sees_word(Word::From) {
        import_from(alloc, reader, depth)
    } else {
        import_all(alloc, reader, depth)
    }
}

/// Whether an import is next.
#[tactic(auto, unfolding(lil_grammar::specs::Steps::at, lil_grammar::specs::Steps::same_word, lil_language::specs::Grammar::an_import, lil_language::specs::Grammar::import_from, lil_language::specs::Grammar::import_all))]
fn sees_import(reader: &Reader<'_>) -> bool
    ensures { result ≡ steps.at (spec.turns spec.an_import) reader.now }
{
    reader.sees_word(Word::From) || reader.sees_word(Word::Import)
}

/// The imports of a unit.
#[tactic(auto, using(lil_grammar::specs::Turns::turns), unfolding(lil_language::specs::Grammar::reading, lil_language::specs::Grammar::imports, lil_syntax::specs::Syntax::reads, lil_syntax::specs::Syntax::before, lil_grammar::specs::Steps::many))]
pub fn imports(alloc: Global, reader: &mut Reader<'_>, depth: u8) -> Result<Items<Import>, ReadStop>
    ensures { Reads (spec.reading depth spec.imports reader.old) result reader.new }
{
    let mut found = Items::new(alloc);
    for _turn in 0..reader.left() {
        if !sees_import(reader) {
            return Ok(found);
        }
        let next = an_import(alloc, reader, depth)?;
        found.push(next)?;
    }
    Ok(found)
}

/// The names that a definition exports.
#[tactic(auto, unfolding(lil_language::specs::Grammar::reading, lil_language::specs::Grammar::export, lil_syntax::specs::Syntax::reads, lil_syntax::specs::Syntax::before))]
fn export(alloc: Global, reader: &mut Reader<'_>, depth: u8) -> Result<Items<Ident>, ReadStop>
    ensures { Reads (spec.reading depth spec.export reader.old) result reader.new }
{
    reader.expect_word(Word::Export)?;
    reader.expect_word(Word::Qualified)?;
    let names = names(alloc, reader, depth)?;
    reader.expect(Mark::Semicolon)?;
    Ok(names)
}

/// The exports of a definition, if it has any.
#[tactic(auto, unfolding(lil_language::specs::Grammar::reading, lil_language::specs::Grammar::exports, lil_language::specs::Grammar::export, lil_syntax::specs::Syntax::reads, lil_syntax::specs::Syntax::before))]
fn exports(
    alloc: Global,
    reader: &mut Reader<'_>,
    depth: u8,
) -> Result<Option<Items<Ident>>, ReadStop>
    ensures { Reads (spec.reading depth spec.exports reader.old) result reader.new }
{
    if reader.sees_word(Word::Export) {
        let names = export(alloc, reader, depth)?;
        Ok(Some(names))
    } else {
        Ok(None)
    }
}

/// What stands before the declarations of a definition.
#[tactic(auto, unfolding(lil_language::specs::Grammar::reading, lil_language::specs::Grammar::definition_head, lil_syntax::specs::Syntax::reads, lil_syntax::specs::Syntax::before))]
pub fn definition_head(alloc: Global, reader: &mut Reader<'_>, depth: u8) -> Result<Head, ReadStop>
    ensures { Reads (spec.reading depth spec.definition_head reader.old) result reader.new }
{
    let place = reader.expect_word(Word::Definition)?;
    reader.expect_word(Word::Module)?;
    let name = reader.ident(alloc)?;
    let (name, _) = beside(name, reader.expect(Mark::Semicolon))?;
    let (name, imports) = beside(name, imports(alloc, reader, depth))?;
    let ((name, imports), exports) = beside((name, imports), exports(alloc, reader, depth))?;
    Ok(Head {
        place,
        kind: UnitKind::Definition,
        name,
        imports,
        exports,
    })
}

/// What stands before the declarations of an implementation.
#[tactic(auto, unfolding(lil_language::specs::Grammar::reading, lil_language::specs::Grammar::implementation_head, lil_syntax::specs::Syntax::reads, lil_syntax::specs::Syntax::before))]
fn implementation_head(alloc: Global, reader: &mut Reader<'_>, depth: u8) -> Result<Head, ReadStop>
    ensures { Reads (spec.reading depth spec.implementation_head reader.old) result reader.new }
{
    let place = reader.expect_word(Word::Implementation)?;
    reader.expect_word(Word::Module)?;
    let name = reader.ident(alloc)?;
    let (name, _) = beside(name, reader.expect(Mark::Semicolon))?;
    let (name, imports) = beside(name, imports(alloc, reader, depth))?;
    Ok(Head {
        place,
        kind: UnitKind::Implementation,
        name,
        imports,
        exports: None,
    })
}

/// What stands before the declarations of a program module.
#[tactic(auto, unfolding(lil_language::specs::Grammar::reading, lil_language::specs::Grammar::program_head, lil_syntax::specs::Syntax::reads, lil_syntax::specs::Syntax::before))]
fn program_head(alloc: Global, reader: &mut Reader<'_>, depth: u8) -> Result<Head, ReadStop>
    ensures { Reads (spec.reading depth spec.program_head reader.old) result reader.new }
{
    let place = reader.expect_word(Word::Module)?;
    let name = reader.ident(alloc)?;
    let (name, _) = beside(name, reader.expect(Mark::Semicolon))?;
    let (name, imports) = beside(name, imports(alloc, reader, depth))?;
    Ok(Head {
        place,
        kind: UnitKind::Program,
        name,
        imports,
        exports: None,
    })
}

/// What stands before the declarations of a module.
#[tactic(auto, using(lil_language::specs::Laws::ways), unfolding(lil_language::specs::Grammar::module_head, lil_language::specs::Grammar::implementation_head))]
pub fn module_head(alloc: Global, reader: &mut Reader<'_>, depth: u8) -> Result<Head, ReadStop>
    ensures { Reads (spec.reading depth spec.module_head reader.old) result reader.new }
{
    if reader.sees_word(Word::Implementation) {
        implementation_head(alloc, reader, depth)
    } else {
        program_head(alloc, reader, depth)
    }
}
