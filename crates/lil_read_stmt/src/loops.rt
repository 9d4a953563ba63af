ghost use Rattle.lil_grammar.specs.Steps.{Reads};
ghost use Rattle.lil_language.specs.Grammar as spec;

use crate::statement::statements;
use lil_base::{Boxed, beside};
use lil_grammar::Reader;
use lil_language::{Expr, ForHead, Stmt};
use lil_read_expr::boxed_expr;
use lil_text::{Mark, ReadStop, Word};
use std::alloc::Global;

/// WHILE up to its END.
#[cycle(stmt)]
#[tactic(auto, unfolding(lil_language::specs::Grammar::reading, lil_language::specs::Grammar::while_form, lil_syntax::specs::Syntax::reads, lil_syntax::specs::Syntax::before))]
fn while_form(alloc: Global, reader: &mut Reader<'_>, depth: u8) -> Result<Stmt, ReadStop>
    ensures { Reads (spec.reading depth spec.while_form reader.old) result reader.new }
{
    let place = reader.expect_word(Word::While)?;
    let condition = boxed_expr(alloc, reader, depth)?;
    let (condition, _) = beside(condition, reader.expect_word(Word::Do))?;
    let (condition, body) = beside(condition, statements(alloc, reader, depth))?;
    let (held, _) = beside((condition, body), reader.expect_word(Word::End))?;
    Ok(Stmt::While(place, held.0, held.1))
}

/// REPEAT up to the condition behind its UNTIL.
#[cycle(stmt)]
#[tactic(auto, unfolding(lil_language::specs::Grammar::reading, lil_language::specs::Grammar::repeat_form, lil_syntax::specs::Syntax::reads, lil_syntax::specs::Syntax::before))]
fn repeat_form(alloc: Global, reader: &mut Reader<'_>, depth: u8) -> Result<Stmt, ReadStop>
    ensures { Reads (spec.reading depth spec.repeat_form reader.old) result reader.new }
{
    let place = reader.expect_word(Word::Repeat)?;
    let body = statements(alloc, reader, depth)?;
    reader.expect_word(Word::Until)?;
    let condition = boxed_expr(alloc, reader, depth)?;
    Ok(Stmt::Repeat(place, body, condition))
}

/// LOOP up to its END.
#[cycle(stmt)]
#[tactic(auto, unfolding(lil_language::specs::Grammar::reading, lil_language::specs::Grammar::loop_form, lil_syntax::specs::Syntax::reads, lil_syntax::specs::Syntax::before))]
fn loop_form(alloc: Global, reader: &mut Reader<'_>, depth: u8) -> Result<Stmt, ReadStop>
    ensures { Reads (spec.reading depth spec.loop_form reader.old) result reader.new }
{
    let place = reader.expect_word(Word::Loop)?;
    let body = statements(alloc, reader, depth)?;
    reader.expect_word(Word::End)?;
    Ok(Stmt::Loop(place, body))
}

/// What stands behind BY, where one stands here.
#[tactic(auto, unfolding(lil_language::specs::Grammar::reading, lil_language::specs::Grammar::step, lil_syntax::specs::Syntax::reads, lil_syntax::specs::Syntax::before))]
fn step(alloc: Global, reader: &mut Reader<'_>, depth: u8) -> Result<Option<Boxed<Expr>>, ReadStop>
    ensures { Reads (spec.reading depth spec.step reader.old) result reader.new }
{
    if reader.sees_word(Word::By) {
        reader.expect_word(Word::By)?;
        let by = boxed_expr(alloc, reader, depth)?;
        Ok(Some(by))
    } else {
        Ok(None)
    }
}

/// What stands between FOR and DO.
#[tactic(auto, unfolding(lil_language::specs::Grammar::reading, lil_language::specs::Grammar::a_for_head, lil_syntax::specs::Syntax::reads, lil_syntax::specs::Syntax::before))]
fn a_for_head(alloc: Global, reader: &mut Reader<'_>, depth: u8) -> Result<ForHead, ReadStop>
    ensures { Reads (spec.reading depth spec.a_for_head reader.old) result reader.new }
{
    let variable = reader.ident(alloc)?;
    let (named, becomes) = beside(variable, reader.expect(Mark::Becomes))?;
    let (named, from) = beside(named, boxed_expr(alloc, reader, depth))?;
    let (begun, _) = beside((named, from), reader.expect_word(Word::To))?;
    let (begun, to) = beside(begun, boxed_expr(alloc, reader, depth))?;
    let (bounded, by) = beside((begun, to), step(alloc, reader, depth))?;
    let ((variable, from), to) = bounded;
    Ok(ForHead {
        variable,
        becomes,
        from,
        to,
        by,
    })
}

/// FOR up to its END.
#[cycle(stmt)]
#[tactic(auto, unfolding(lil_language::specs::Grammar::reading, lil_language::specs::Grammar::for_form, lil_syntax::specs::Syntax::reads, lil_syntax::specs::Syntax::before))]
fn for_form(alloc: Global, reader: &mut Reader<'_>, depth: u8) -> Result<Stmt, ReadStop>
    ensures { Reads (spec.reading depth spec.for_form reader.old) result reader.new }
{
    let place = reader.expect_word(Word::For)?;
    let head = a_for_head(alloc, reader, depth)?;
    let (head, _) = beside(head, reader.expect_word(Word::Do))?;
    let (head, body) = beside(head, statements(alloc, reader, depth))?;
    let (held, _) = beside((head, body), reader.expect_word(Word::End))?;
    Ok(Stmt::For(place, held.0, held.1))
}

/// WHILE, REPEAT, LOOP or FOR.
#[cycle(stmt)]
#[tactic(auto, using(lil_language::specs::Laws::ways), unfolding(lil_language::specs::Grammar::loops_form, lil_language::specs::Grammar::while_form, lil_language::specs::Grammar::repeat_form, lil_language::specs::Grammar::loop_form))]
pub fn loops_form(alloc: Global, reader: &mut Reader<'_>, depth: u8) -> Result<Stmt, ReadStop>
    ensures { Reads (spec.reading depth spec.loops_form reader.old) result reader.new }
{
    if reader.sees_word(Word::While) {
        while_form(alloc, reader, depth)
    } else if reader.sees_word(Word::Repeat) {
        repeat_form(alloc, reader, depth)
    } else if reader.sees_word(Word::Loop) {
        loop_form(alloc, reader, depth)
    } else {
        for_form(alloc, reader, depth)
    }
}
