ghost use Rattle.lil_grammar.specs.Steps.{Reads};
ghost use Rattle.lil_syntax.specs.Syntax.{read};
ghost use Rattle.lil_language.specs.Grammar as spec;

use crate::forms::choice_form;
use crate::lookahead::{sees_choice, sees_loop, sees_other_word, sees_statement};
use crate::loops::loops_form;
use crate::simple::{exit_form, named_form, return_form};
use lil_base::{Items, beside};
use lil_grammar::Reader;
use lil_language::Stmt;
use lil_read_expr::{add_read, designator};
use lil_text::{Mark, ReadStop, Word};
use std::alloc::Global;

/// Statements with semicolons between them, with at most `depth` parts in one another.
#[cycle(stmt)]
#[tactic(auto, using(lil_grammar::specs::Turns::turns), unfolding(lil_language::specs::Grammar::reading, lil_language::specs::Grammar::statements, lil_syntax::specs::Syntax::reads, lil_syntax::specs::Syntax::before, lil_grammar::specs::Steps::many))]
pub fn statements(
    alloc: Global,
    reader: &mut Reader<'_>,
    depth: u8,
) -> Result<Items<Stmt>, ReadStop>
    ensures { Reads (spec.reading depth spec.statements reader.old) result reader.new }
{
    let mut found = Items::new(alloc);
    let first = statement(alloc, reader, depth)?;
    add_read(&mut found, first)?;
    for _turn in 0..reader.left() {
        if !reader.sees(Mark::Semicolon) {
            return Ok(found);
        }
        reader.expect(Mark::Semicolon)?;
        let next = statement(alloc, reader, depth)?;
        add_read(&mut found, next)?;
    }
    Ok(found)
}

/// A statement, where one stands here.
#[cycle(stmt)]
#[tactic(auto, unfolding(lil_language::specs::Grammar::reading, lil_language::specs::Grammar::statement, lil_syntax::specs::Syntax::reads, lil_syntax::specs::Syntax::before))]
fn statement(alloc: Global, reader: &mut Reader<'_>, depth: u8) -> Result<Option<Stmt>, ReadStop>
    ensures { Reads (spec.reading depth spec.statement reader.old) result reader.new }
{
    if sees_statement(reader) {
        let found = form(alloc, reader, depth)?;
        Ok(Some(found))
    } else {
        Ok(None)
    }
}

/// A statement that is some token.
#[cycle(stmt)]
#[tactic(auto, using(lil_language::specs::Laws::read_deeper, lil_language::specs::Laws::read_none))]
fn form(alloc: Global, reader: &mut Reader<'_>, depth: u8) -> Result<Stmt, ReadStop>
    ensures { Reads (read spec.grammar depth spec.form reader.old) result reader.new }
{
    if depth == 0 {
        return reader.shallow(sees_statement(reader));
    }
    a_form(alloc, reader, depth - 1)
}

/// The production of a statement.
#[cycle(stmt)]
#[tactic(auto, using(lil_language::specs::Laws::ways), unfolding(lil_language::specs::Grammar::a_form))]
fn a_form(alloc: Global, reader: &mut Reader<'_>, depth: u8) -> Result<Stmt, ReadStop>
    ensures { Reads (spec.reading depth spec.a_form reader.old) result reader.new }
{
    if sees_choice(reader) {
        choice_form(alloc, reader, depth)
    } else if sees_loop(reader) {
        loops_form(alloc, reader, depth)
    } else if sees_other_word(reader) {
        word_form(alloc, reader, depth)
    } else {
        named_form(alloc, reader, depth)
    }
}

/// WITH, EXIT or RETURN.
#[cycle(stmt)]
#[tactic(auto, using(lil_language::specs::Laws::ways), unfolding(lil_language::specs::Grammar::word_form, lil_language::specs::Grammar::with_form, lil_language::specs::Grammar::exit_form))]
fn word_form(alloc: Global, reader: &mut Reader<'_>, depth: u8) -> Result<Stmt, ReadStop>
    ensures { Reads (spec.reading depth spec.word_form reader.old) result reader.new }
{
    if reader.sees_word(Word::With) {
        with_form(alloc, reader, depth)
    } else if reader.sees_word(Word::Exit) {
        exit_form(reader, depth)
    } else {
        return_form(alloc, reader, depth)
    }
}

/// WITH up to its END.
#[cycle(stmt)]
#[tactic(auto, unfolding(lil_language::specs::Grammar::reading, lil_language::specs::Grammar::with_form, lil_syntax::specs::Syntax::reads, lil_syntax::specs::Syntax::before))]
fn with_form(alloc: Global, reader: &mut Reader<'_>, depth: u8) -> Result<Stmt, ReadStop>
    ensures { Reads (spec.reading depth spec.with_form reader.old) result reader.new }
{
    let place = reader.expect_word(Word::With)?;
    let record = designator(alloc, reader, depth)?;
    let (record, _) = beside(record, reader.expect_word(Word::Do))?;
    let (record, body) = beside(record, statements(alloc, reader, depth))?;
    let (held, _) = beside((record, body), reader.expect_word(Word::End))?;
    Ok(Stmt::With(place, held.0, held.1))
}
