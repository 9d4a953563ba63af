ghost use Rattle.lil_grammar.specs.Steps.{Reads};
ghost use Rattle.lil_language.specs.Grammar as spec;

use crate::statement::statements;
use lil_base::{Items, beside};
use lil_grammar::Reader;
use lil_language::{Arm, Guard, Stmt};
use lil_read_expr::{add_read, boxed_expr, labels, sees_expression};
use lil_text::{Mark, ReadStop, Word};
use std::alloc::Global;

/// A condition, and the statements behind its THEN.
#[cycle(stmt)]
#[tactic(auto, unfolding(lil_language::specs::Grammar::reading, lil_language::specs::Grammar::guarded, lil_syntax::specs::Syntax::reads, lil_syntax::specs::Syntax::before))]
fn guarded(alloc: Global, reader: &mut Reader<'_>, depth: u8) -> Result<Guard, ReadStop>
    ensures { Reads (spec.reading depth spec.guarded reader.old) result reader.new }
{
    let condition = boxed_expr(alloc, reader, depth)?;
    let (condition, _) = beside(condition, reader.expect_word(Word::Then))?;
    let (condition, body) = beside(condition, statements(alloc, reader, depth))?;
    Ok(Guard { condition, body })
}

/// Conditions with ELSIF between them.
#[cycle(stmt)]
#[tactic(auto, using(lil_grammar::specs::Turns::turns), unfolding(lil_language::specs::Grammar::reading, lil_language::specs::Grammar::guards, lil_syntax::specs::Syntax::reads, lil_syntax::specs::Syntax::before, lil_grammar::specs::Steps::many))]
fn guards(alloc: Global, reader: &mut Reader<'_>, depth: u8) -> Result<Items<Guard>, ReadStop>
    ensures { Reads (spec.reading depth spec.guards reader.old) result reader.new }
{
    let mut found = Items::new(alloc);
    let first = guarded(alloc, reader, depth)?;
    found.push(first)?;
    for _turn in 0..reader.left() {
        if !reader.sees_word(Word::Elsif) {
            return Ok(found);
        }
        reader.expect_word(Word::Elsif)?;
        let next = guarded(alloc, reader, depth)?;
        found.push(next)?;
    }
    Ok(found)
}

/// The statements behind ELSE, where one stands here.
#[cycle(stmt)]
#[tactic(auto, unfolding(lil_language::specs::Grammar::reading, lil_language::specs::Grammar::otherwise, lil_syntax::specs::Syntax::reads, lil_syntax::specs::Syntax::before))]
fn otherwise(
    alloc: Global,
    reader: &mut Reader<'_>,
    depth: u8,
) -> Result<Option<Items<Stmt>>, ReadStop>
    ensures { Reads (spec.reading depth spec.otherwise reader.old) result reader.new }
{
    if reader.sees_word(Word::Else) {
        reader.expect_word(Word::Else)?;
        let body = statements(alloc, reader, depth)?;
        Ok(Some(body))
    } else {
        Ok(None)
    }
}

/// IF up to its END.
#[cycle(stmt)]
#[tactic(auto, unfolding(lil_language::specs::Grammar::reading, lil_language::specs::Grammar::if_form, lil_syntax::specs::Syntax::reads, lil_syntax::specs::Syntax::before))]
fn if_form(alloc: Global, reader: &mut Reader<'_>, depth: u8) -> Result<Stmt, ReadStop>
    ensures { Reads (spec.reading depth spec.if_form reader.old) result reader.new }
{
    let place = reader.expect_word(Word::If)?;
    let guards = guards(alloc, reader, depth)?;
    let (guards, otherwise) = beside(guards, otherwise(alloc, reader, depth))?;
    let (held, _) = beside((guards, otherwise), reader.expect_word(Word::End))?;
    Ok(Stmt::If(place, held.0, held.1))
}

/// Labels, and the statements behind their colon.
#[cycle(stmt)]
#[tactic(auto, unfolding(lil_language::specs::Grammar::reading, lil_language::specs::Grammar::an_arm, lil_syntax::specs::Syntax::reads, lil_syntax::specs::Syntax::before))]
fn an_arm(alloc: Global, reader: &mut Reader<'_>, depth: u8) -> Result<Arm, ReadStop>
    ensures { Reads (spec.reading depth spec.an_arm reader.old) result reader.new }
{
    let labels = labels(alloc, reader, depth)?;
    reader.expect(Mark::Colon)?;
    let (labels, body) = beside(labels, statements(alloc, reader, depth))?;
    Ok(Arm { labels, body })
}

/// An arm, where one stands here.
#[cycle(stmt)]
#[tactic(auto, unfolding(lil_language::specs::Grammar::reading, lil_language::specs::Grammar::some_arm, lil_language::specs::Grammar::an_arm, lil_language::specs::Grammar::labels, lil_language::specs::Grammar::element, lil_syntax::specs::Syntax::reads, lil_syntax::specs::Syntax::before))]
fn some_arm(alloc: Global, reader: &mut Reader<'_>, depth: u8) -> Result<Option<Arm>, ReadStop>
    ensures { Reads (spec.reading depth spec.some_arm reader.old) result reader.new }
{
    if sees_expression(reader) {
        let found = an_arm(alloc, reader, depth)?;
        Ok(Some(found))
    } else {
        Ok(None)
    }
}

/// Arms with bars between them.
#[cycle(stmt)]
#[tactic(auto, using(lil_grammar::specs::Turns::turns), unfolding(lil_language::specs::Grammar::reading, lil_language::specs::Grammar::arms, lil_syntax::specs::Syntax::reads, lil_syntax::specs::Syntax::before, lil_grammar::specs::Steps::many))]
fn arms(alloc: Global, reader: &mut Reader<'_>, depth: u8) -> Result<Items<Arm>, ReadStop>
    ensures { Reads (spec.reading depth spec.arms reader.old) result reader.new }
{
    let mut found = Items::new(alloc);
    let first = some_arm(alloc, reader, depth)?;
    add_read(&mut found, first)?;
    for _turn in 0..reader.left() {
        if !reader.sees(Mark::Bar) {
            return Ok(found);
        }
        reader.expect(Mark::Bar)?;
        let next = some_arm(alloc, reader, depth)?;
        add_read(&mut found, next)?;
    }
    Ok(found)
}

/// CASE up to its END.
#[cycle(stmt)]
#[tactic(auto, unfolding(lil_language::specs::Grammar::reading, lil_language::specs::Grammar::case_form, lil_syntax::specs::Syntax::reads, lil_syntax::specs::Syntax::before))]
fn case_form(alloc: Global, reader: &mut Reader<'_>, depth: u8) -> Result<Stmt, ReadStop>
    ensures { Reads (spec.reading depth spec.case_form reader.old) result reader.new }
{
    let place = reader.expect_word(Word::Case)?;
    let selector = boxed_expr(alloc, reader, depth)?;
    let (selector, _) = beside(selector, reader.expect_word(Word::Of))?;
    let (selector, arms) = beside(selector, arms(alloc, reader, depth))?;
    let (held, otherwise) = beside((selector, arms), otherwise(alloc, reader, depth))?;
    let (held, _) = beside((held, otherwise), reader.expect_word(Word::End))?;
    let ((selector, arms), otherwise) = held;
    Ok(Stmt::Case(place, selector, arms, otherwise))
}

/// IF or CASE.
#[cycle(stmt)]
#[tactic(auto, using(lil_language::specs::Laws::ways), unfolding(lil_language::specs::Grammar::choice_form, lil_language::specs::Grammar::if_form))]
pub fn choice_form(alloc: Global, reader: &mut Reader<'_>, depth: u8) -> Result<Stmt, ReadStop>
    ensures { Reads (spec.reading depth spec.choice_form reader.old) result reader.new }
{
    if reader.sees_word(Word::If) {
        if_form(alloc, reader, depth)
    } else {
        case_form(alloc, reader, depth)
    }
}
