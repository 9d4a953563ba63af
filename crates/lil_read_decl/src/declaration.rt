ghost use Rattle.lil_grammar.specs.Steps.{Reads};
ghost use Rattle.lil_syntax.specs.Syntax.{read};
ghost use Rattle.lil_language.specs.Grammar as spec;

use crate::lookahead::{sees_decl, sees_definition_decl};
use crate::part::{constant_part, definition_type_part, type_part, variable_part};
use crate::procedure_heading::{definition_heading, heading};
use lil_base::{Items, beside};
use lil_grammar::Reader;
use lil_language::{Block, Decl, Stmt};
use lil_read_stmt::statements;
use lil_text::{Mark, ReadStop, Word};
use std::alloc::Global;

/// A procedure, with at most `depth` parts in one another.
#[cycle(declaration)]
#[tactic(auto, using(lil_language::specs::Laws::read_deeper, lil_language::specs::Laws::read_none))]
fn procedure(alloc: Global, reader: &mut Reader<'_>, depth: u8) -> Result<Decl, ReadStop>
    ensures { Reads (read spec.grammar depth spec.procedure reader.old) result reader.new }
{
    if depth == 0 {
        return reader.shallow(reader.sees_word(Word::Procedure));
    }
    a_procedure(alloc, reader, depth - 1)
}

#[cycle(declaration)]
#[tactic(auto, unfolding(lil_language::specs::Grammar::reading, lil_language::specs::Grammar::a_procedure, lil_syntax::specs::Syntax::reads, lil_syntax::specs::Syntax::before))]
fn a_procedure(alloc: Global, reader: &mut Reader<'_>, depth: u8) -> Result<Decl, ReadStop>
    ensures { Reads (spec.reading depth (spec.produced spec.procedure) reader.old) result reader.new }
{
    let heading = heading(alloc, reader, depth)?;
    let (heading, _) = beside(heading, reader.expect(Mark::Semicolon))?;
    let (heading, (decls, body)) = beside(heading, block(alloc, reader, depth))?;
    let ((heading, decls, body), end) = beside((heading, decls, body), reader.ident(alloc))?;
    Ok(Decl::ProcIs(heading, Some(Block { decls, body, end })))
}

#[cycle(declaration)]
#[tactic(auto, unfolding(lil_language::specs::Grammar::reading, lil_language::specs::Grammar::procedure_part, lil_syntax::specs::Syntax::reads, lil_syntax::specs::Syntax::before))]
fn procedure_part(alloc: Global, reader: &mut Reader<'_>, depth: u8) -> Result<Decl, ReadStop>
    ensures { Reads (spec.reading depth spec.procedure_part reader.old) result reader.new }
{
    let found = procedure(alloc, reader, depth)?;
    let (found, _) = beside(found, reader.expect(Mark::Semicolon))?;
    Ok(found)
}

#[cycle(declaration)]
#[tactic(auto, using(lil_language::specs::Laws::ways), unfolding(lil_language::specs::Grammar::decl, lil_language::specs::Grammar::constant_part, lil_language::specs::Grammar::type_part, lil_language::specs::Grammar::variable_part))]
fn decl(alloc: Global, reader: &mut Reader<'_>, depth: u8) -> Result<Decl, ReadStop>
    ensures { Reads (spec.reading depth spec.decl reader.old) result reader.new }
{
    if reader.sees_word(Word::Const) {
        constant_part(alloc, reader, depth)
    } else if reader.sees_word(Word::TypeWord) {
        type_part(alloc, reader, depth)
    } else if reader.sees_word(Word::Var) {
        variable_part(alloc, reader, depth)
    } else {
        procedure_part(alloc, reader, depth)
    }
}

/// The declarations of an implementation, a program or a procedure.
#[cycle(declaration)]
#[tactic(auto, using(lil_grammar::specs::Turns::turns), unfolding(lil_language::specs::Grammar::reading, lil_language::specs::Grammar::decls, lil_syntax::specs::Syntax::reads, lil_syntax::specs::Syntax::before, lil_grammar::specs::Steps::many))]
pub fn decls(alloc: Global, reader: &mut Reader<'_>, depth: u8) -> Result<Items<Decl>, ReadStop>
    ensures { Reads (spec.reading depth spec.decls reader.old) result reader.new }
{
    let mut found = Items::new(alloc);
    for _turn in 0..reader.left() {
        if !sees_decl(reader) {
            return Ok(found);
        }
        let next = decl(alloc, reader, depth)?;
        found.push(next)?;
    }
    Ok(found)
}

#[tactic(auto, unfolding(lil_language::specs::Grammar::reading, lil_language::specs::Grammar::body, lil_syntax::specs::Syntax::reads, lil_syntax::specs::Syntax::before))]
fn body(alloc: Global, reader: &mut Reader<'_>, depth: u8) -> Result<Items<Stmt>, ReadStop>
    ensures { Reads (spec.reading depth spec.body reader.old) result reader.new }
{
    if reader.sees_word(Word::Begin) {
        reader.expect_word(Word::Begin)?;
        statements(alloc, reader, depth)
    } else {
        Ok(Items::new(alloc))
    }
}

/// Declarations, and the statements behind BEGIN up to END.
#[cycle(declaration)]
#[tactic(auto, unfolding(lil_language::specs::Grammar::reading, lil_language::specs::Grammar::block, lil_syntax::specs::Syntax::reads, lil_syntax::specs::Syntax::before))]
pub fn block(
    alloc: Global,
    reader: &mut Reader<'_>,
    depth: u8,
) -> Result<(Items<Decl>, Items<Stmt>), ReadStop>
    ensures { Reads (spec.reading depth spec.block reader.old) result reader.new }
{
    let decls = decls(alloc, reader, depth)?;
    let (decls, body) = beside(decls, body(alloc, reader, depth))?;
    let (both, _) = beside((decls, body), reader.expect_word(Word::End))?;
    Ok(both)
}

#[tactic(auto, using(lil_language::specs::Laws::ways), unfolding(lil_language::specs::Grammar::definition_decl, lil_language::specs::Grammar::constant_part, lil_language::specs::Grammar::definition_type_part, lil_language::specs::Grammar::variable_part))]
fn definition_decl(alloc: Global, reader: &mut Reader<'_>, depth: u8) -> Result<Decl, ReadStop>
    ensures { Reads (spec.reading depth spec.definition_decl reader.old) result reader.new }
{
    if reader.sees_word(Word::Const) {
        constant_part(alloc, reader, depth)
    } else if reader.sees_word(Word::TypeWord) {
        definition_type_part(alloc, reader, depth)
    } else if reader.sees_word(Word::Var) {
        variable_part(alloc, reader, depth)
    } else {
        definition_heading(alloc, reader, depth)
    }
}

/// The declarations of a definition.
#[tactic(auto, using(lil_grammar::specs::Turns::turns), unfolding(lil_language::specs::Grammar::reading, lil_language::specs::Grammar::definition_decls, lil_syntax::specs::Syntax::reads, lil_syntax::specs::Syntax::before, lil_grammar::specs::Steps::many))]
pub fn definition_decls(
    alloc: Global,
    reader: &mut Reader<'_>,
    depth: u8,
) -> Result<Items<Decl>, ReadStop>
    ensures { Reads (spec.reading depth spec.definition_decls reader.old) result reader.new }
{
    let mut found = Items::new(alloc);
    for _turn in 0..reader.left() {
        if !sees_definition_decl(reader) {
            return Ok(found);
        }
        let next = definition_decl(alloc, reader, depth)?;
        found.push(next)?;
    }
    Ok(found)
}
