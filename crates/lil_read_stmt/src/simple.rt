ghost use Rattle.lil_grammar.specs.Steps.{Reads};
ghost use Rattle.lil_language.specs.Grammar as spec;

use lil_base::{Items, beside};
use lil_grammar::Reader;
use lil_language::Stmt;
use lil_read_expr::{actuals, boxed_expr, designator, sees_expression};
use lil_text::{Mark, ReadStop, Word};
use std::alloc::Global;

/// EXIT.
#[tactic(auto, unfolding(lil_language::specs::Grammar::reading, lil_language::specs::Grammar::exit_form, lil_syntax::specs::Syntax::reads, lil_syntax::specs::Syntax::before))]
pub fn exit_form(reader: &mut Reader<'_>, depth: u8) -> Result<Stmt, ReadStop>
    ensures { Reads (spec.reading depth spec.exit_form reader.old) result reader.new }
{
    let place = reader.expect_word(Word::Exit)?;
    Ok(Stmt::Exit(place))
}

/// RETURN, with a value where an expression stands behind it.
#[tactic(auto, unfolding(lil_language::specs::Grammar::reading, lil_language::specs::Grammar::return_form, lil_syntax::specs::Syntax::reads, lil_syntax::specs::Syntax::before))]
pub fn return_form(alloc: Global, reader: &mut Reader<'_>, depth: u8) -> Result<Stmt, ReadStop>
    ensures { Reads (spec.reading depth spec.return_form reader.old) result reader.new }
{
    let place = reader.expect_word(Word::Return)?;
    if sees_expression(reader) {
        let value = boxed_expr(alloc, reader, depth)?;
        Ok(Stmt::Return(place, Some(value)))
    } else {
        Ok(Stmt::Return(place, None))
    }
}

/// An assignment or a call.
#[tactic(auto, unfolding(lil_language::specs::Grammar::reading, lil_language::specs::Grammar::named_form, lil_language::specs::Grammar::actuals, lil_syntax::specs::Syntax::reads, lil_syntax::specs::Syntax::before))]
pub fn named_form(alloc: Global, reader: &mut Reader<'_>, depth: u8) -> Result<Stmt, ReadStop>
    ensures { Reads (spec.reading depth spec.named_form reader.old) result reader.new }
{
    let designator = designator(alloc, reader, depth)?;
    if reader.sees(Mark::Becomes) {
        let (designator, place) = beside(designator, reader.expect(Mark::Becomes))?;
        let (designator, value) = beside(designator, boxed_expr(alloc, reader, depth))?;
        Ok(Stmt::Assign(designator, place, value))
    } else if reader.sees(Mark::Open) {
        let (designator, arguments) = beside(designator, actuals(alloc, reader, depth))?;
        Ok(Stmt::Call(designator, arguments))
    } else {
        Ok(Stmt::Call(designator, Items::new(alloc)))
    }
}
