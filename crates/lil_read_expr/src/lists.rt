ghost use Rattle.lil_grammar.specs.Steps.{Reads};
ghost use Rattle.lil_language.specs.Grammar as spec;

use crate::expression::expr;
use crate::forms::alone;
use crate::lookahead::sees_expression;
use lil_base::{Boxed, Items, beside};
use lil_grammar::Reader;
use lil_language::{Expr, Range};
use lil_text::{Mark, ReadStop};
use std::alloc::Global;

#[cycle(expr)]
#[tactic(auto, unfolding(lil_language::specs::Grammar::reading, lil_language::specs::Grammar::element, lil_syntax::specs::Syntax::reads, lil_syntax::specs::Syntax::before))]
fn element(alloc: Global, reader: &mut Reader<'_>, depth: u8) -> Result<Range, ReadStop>
    ensures { Reads (spec.reading depth spec.element reader.old) result reader.new }
{
    let low = expr(alloc, reader, depth)?;
    if reader.sees(Mark::Through) {
        let (low, _) = beside(low, reader.expect(Mark::Through))?;
        let (low, high) = beside(low, expr(alloc, reader, depth))?;
        let (low, high) = beside(low, Boxed::new(alloc, high))?;
        Ok(Range {
            low,
            high: Some(high),
        })
    } else {
        Ok(Range { low, high: None })
    }
}

/// Labels with commas between them.
#[cycle(expr)]
#[tactic(auto, using(lil_grammar::specs::Turns::turns), unfolding(lil_language::specs::Grammar::reading, lil_language::specs::Grammar::labels, lil_syntax::specs::Syntax::reads, lil_syntax::specs::Syntax::before, lil_grammar::specs::Steps::many))]
pub fn labels(alloc: Global, reader: &mut Reader<'_>, depth: u8) -> Result<Items<Range>, ReadStop>
    ensures { Reads (spec.reading depth spec.labels reader.old) result reader.new }
{
    let first = element(alloc, reader, depth)?;
    let mut found = alone(alloc, first)?;
    for _turn in 0..reader.left() {
        if !reader.sees(Mark::Comma) {
            return Ok(found);
        }
        reader.expect(Mark::Comma)?;
        let next = element(alloc, reader, depth)?;
        found.push(next)?;
    }
    Ok(found)
}

#[cycle(expr)]
#[tactic(auto, unfolding(lil_language::specs::Grammar::reading, lil_language::specs::Grammar::some_labels, lil_language::specs::Grammar::labels, lil_language::specs::Grammar::element, lil_syntax::specs::Syntax::reads, lil_syntax::specs::Syntax::before))]
fn some_labels(alloc: Global, reader: &mut Reader<'_>, depth: u8) -> Result<Items<Range>, ReadStop>
    ensures { Reads (spec.reading depth spec.some_labels reader.old) result reader.new }
{
    if sees_expression(reader) {
        labels(alloc, reader, depth)
    } else {
        Ok(Items::new(alloc))
    }
}

/// The elements of a set, in braces.
#[cycle(expr)]
#[tactic(auto, unfolding(lil_language::specs::Grammar::reading, lil_language::specs::Grammar::elements, lil_syntax::specs::Syntax::reads, lil_syntax::specs::Syntax::before))]
pub fn elements(alloc: Global, reader: &mut Reader<'_>, depth: u8) -> Result<Items<Range>, ReadStop>
    ensures { Reads (spec.reading depth spec.elements reader.old) result reader.new }
{
    reader.expect(Mark::OpenBrace)?;
    let found = some_labels(alloc, reader, depth)?;
    reader.expect(Mark::CloseBrace)?;
    Ok(found)
}

/// A set without the name of its type.
#[cycle(expr)]
#[tactic(auto, unfolding(lil_language::specs::Grammar::reading, lil_language::specs::Grammar::bit_set, lil_syntax::specs::Syntax::reads, lil_syntax::specs::Syntax::before))]
pub fn bit_set(alloc: Global, reader: &mut Reader<'_>, depth: u8) -> Result<Expr, ReadStop>
    ensures { Reads (spec.reading depth spec.bit_set reader.old) result reader.new }
{
    let place = reader.expect(Mark::OpenBrace)?;
    let elements = some_labels(alloc, reader, depth)?;
    reader.expect(Mark::CloseBrace)?;
    Ok(Expr::SetOf(place, None, elements))
}

/// Expressions with commas between them.
#[cycle(expr)]
#[tactic(auto, using(lil_grammar::specs::Turns::turns), unfolding(lil_language::specs::Grammar::reading, lil_language::specs::Grammar::exprs, lil_syntax::specs::Syntax::reads, lil_syntax::specs::Syntax::before, lil_grammar::specs::Steps::many))]
pub fn exprs(alloc: Global, reader: &mut Reader<'_>, depth: u8) -> Result<Items<Expr>, ReadStop>
    ensures { Reads (spec.reading depth spec.exprs reader.old) result reader.new }
{
    let first = expr(alloc, reader, depth)?;
    let mut found = alone(alloc, first)?;
    for _turn in 0..reader.left() {
        if !reader.sees(Mark::Comma) {
            return Ok(found);
        }
        reader.expect(Mark::Comma)?;
        let next = expr(alloc, reader, depth)?;
        found.push(next)?;
    }
    Ok(found)
}

#[cycle(expr)]
#[tactic(auto, unfolding(lil_language::specs::Grammar::reading, lil_language::specs::Grammar::arguments, lil_language::specs::Grammar::exprs, lil_syntax::specs::Syntax::reads, lil_syntax::specs::Syntax::before))]
fn arguments(alloc: Global, reader: &mut Reader<'_>, depth: u8) -> Result<Items<Expr>, ReadStop>
    ensures { Reads (spec.reading depth spec.arguments reader.old) result reader.new }
{
    if sees_expression(reader) {
        exprs(alloc, reader, depth)
    } else {
        Ok(Items::new(alloc))
    }
}

/// Arguments in parentheses.
#[cycle(expr)]
#[tactic(auto, unfolding(lil_language::specs::Grammar::reading, lil_language::specs::Grammar::actuals, lil_syntax::specs::Syntax::reads, lil_syntax::specs::Syntax::before))]
pub fn actuals(alloc: Global, reader: &mut Reader<'_>, depth: u8) -> Result<Items<Expr>, ReadStop>
    ensures { Reads (spec.reading depth spec.actuals reader.old) result reader.new }
{
    reader.expect(Mark::Open)?;
    let found = arguments(alloc, reader, depth)?;
    reader.expect(Mark::Close)?;
    Ok(found)
}

/// Arguments, where a parenthesis is next.
#[cycle(expr)]
#[tactic(auto, unfolding(lil_language::specs::Grammar::reading, lil_language::specs::Grammar::call, lil_language::specs::Grammar::actuals, lil_syntax::specs::Syntax::reads, lil_syntax::specs::Syntax::before))]
pub fn call(
    alloc: Global,
    reader: &mut Reader<'_>,
    depth: u8,
) -> Result<Option<Items<Expr>>, ReadStop>
    ensures { Reads (spec.reading depth spec.call reader.old) result reader.new }
{
    if reader.sees(Mark::Open) {
        let arguments = actuals(alloc, reader, depth)?;
        Ok(Some(arguments))
    } else {
        Ok(None)
    }
}
