ghost use Rattle.lil_grammar.specs.Steps.{Reads};
ghost use Rattle.lil_language.specs.Grammar as spec;

use crate::head::{definition_head, module_head};
use lil_base::{Items, beside};
use lil_grammar::Reader;
use lil_language::Unit;
use lil_read_decl::{block, definition_decls};
use lil_syntax::finish;
use lil_text::{Mark, ReadStop, Word};
use std::alloc::Global;

/// A definition of so many tokens.
#[tactic(auto, unfolding(lil_language::specs::Grammar::reading, lil_language::specs::Grammar::definition, lil_syntax::specs::Syntax::reads, lil_syntax::specs::Syntax::before))]
fn definition(
    alloc: Global,
    reader: &mut Reader<'_>,
    depth: u8,
    weight: u32,
) -> Result<Unit, ReadStop>
    ensures { Reads (spec.reading depth (spec.definition weight) reader.old) result reader.new }
{
    let head = definition_head(alloc, reader, depth)?;
    let (head, decls) = beside(head, definition_decls(alloc, reader, depth))?;
    let (held, _) = beside((head, decls), reader.expect_word(Word::End))?;
    let (held, end) = beside(held, reader.ident(alloc))?;
    let ((held, end), _) = beside((held, end), reader.expect(Mark::Dot))?;
    let (head, decls) = held;
    Ok(Unit {
        head,
        decls,
        body: Items::new(alloc),
        end,
        weight,
    })
}

/// An implementation or a program module of so many tokens.
#[tactic(auto, unfolding(lil_language::specs::Grammar::reading, lil_language::specs::Grammar::other_unit, lil_syntax::specs::Syntax::reads, lil_syntax::specs::Syntax::before))]
fn other_unit(
    alloc: Global,
    reader: &mut Reader<'_>,
    depth: u8,
    weight: u32,
) -> Result<Unit, ReadStop>
    ensures { Reads (spec.reading depth (spec.other_unit weight) reader.old) result reader.new }
{
    let head = module_head(alloc, reader, depth)?;
    let (head, parts) = beside(head, block(alloc, reader, depth))?;
    let (held, end) = beside((head, parts), reader.ident(alloc))?;
    let ((held, end), _) = beside((held, end), reader.expect(Mark::Dot))?;
    let (head, (decls, body)) = held;
    Ok(Unit {
        head,
        decls,
        body,
        end,
        weight,
    })
}

/// A unit of so many tokens.
#[tactic(auto, using(lil_language::specs::Laws::ways), unfolding(lil_language::specs::Grammar::unit, lil_language::specs::Grammar::definition, lil_language::specs::Grammar::definition_head))]
fn some_unit(
    alloc: Global,
    reader: &mut Reader<'_>,
    depth: u8,
    weight: u32,
) -> Result<Unit, ReadStop>
    ensures { Reads (spec.reading depth (spec.unit weight) reader.old) result reader.new }
{
    if reader.sees_word(Word::Definition) {
        definition(alloc, reader, depth, weight)
    } else {
        other_unit(alloc, reader, depth, weight)
    }
}

/// A unit of so many tokens, and the end of its text.
#[tactic(auto, unfolding(lil_language::specs::Grammar::reading, lil_language::specs::Grammar::text, lil_syntax::specs::Syntax::reads, lil_syntax::specs::Syntax::before))]
pub fn text(
    alloc: Global,
    reader: &mut Reader<'_>,
    depth: u8,
    weight: u32,
) -> Result<Unit, ReadStop>
    ensures { Reads (spec.reading depth (spec.text weight) reader.old) result reader.new }
{
    let unit = some_unit(alloc, reader, depth, weight)?;
    let (unit, _) = beside(unit, finish(reader))?;
    Ok(unit)
}
