ghost use Rattle.lil_grammar.specs.Steps.{Reads};
ghost use Rattle.lil_syntax.specs.Syntax.{read};
ghost use Rattle.lil_language.specs.Grammar as spec;

use crate::forms::{chained, compared, one};
use crate::lists::bit_set;
use crate::literals::literal;
use crate::lookahead::{sees_expression, sees_factor, sees_literal};
use crate::named::named;
use lil_base::{Boxed, Items, OneOp, beside};
use lil_grammar::Reader;
use lil_language::{Expr, Operation, begun_at};
use lil_syntax::{
    addition, multiplication, relation, sees_addition, sees_multiplication, sees_relation,
    sees_sign, sign,
};
use lil_text::{Mark, ReadStop, Word};
use std::alloc::Global;

/// An expression, with at most `depth` parts in one another.
#[cycle(expr)]
#[tactic(auto, using(lil_language::specs::Laws::read_deeper, lil_language::specs::Laws::read_none))]
pub fn expr(alloc: Global, reader: &mut Reader<'_>, depth: u8) -> Result<Expr, ReadStop>
    ensures { Reads (read spec.grammar depth spec.expression reader.old) result reader.new }
{
    if depth == 0 {
        return reader.shallow(sees_expression(reader));
    }
    related(alloc, reader, depth - 1)
}

/// An expression, as `expr` reads it, in a block of memory of its own.
pub fn boxed_expr(
    alloc: Global,
    reader: &mut Reader<'_>,
    depth: u8,
) -> Result<Boxed<Expr>, ReadStop>
    ensures { Reads (read spec.grammar depth spec.expression reader.old) result reader.new }
{
    let read = expr(alloc, reader, depth)?;
    Ok(Boxed::new(alloc, read)?)
}

/// A factor behind NOT, with at most `depth` parts in one another.
#[cycle(expr)]
#[tactic(auto, using(lil_language::specs::Laws::read_deeper, lil_language::specs::Laws::read_none))]
fn operand(alloc: Global, reader: &mut Reader<'_>, depth: u8) -> Result<Expr, ReadStop>
    ensures { Reads (read spec.grammar depth spec.operand reader.old) result reader.new }
{
    if depth == 0 {
        return reader.shallow(sees_factor(reader));
    }
    factor(alloc, reader, depth - 1)
}

#[cycle(expr)]
#[tactic(auto, unfolding(lil_language::specs::Grammar::reading, lil_language::specs::Grammar::relation, lil_language::specs::Grammar::comparison, lil_syntax::specs::Syntax::reads, lil_syntax::specs::Syntax::before))]
fn related(alloc: Global, reader: &mut Reader<'_>, depth: u8) -> Result<Expr, ReadStop>
    ensures { Reads (spec.reading depth spec.relation reader.old) result reader.new }
{
    let first = sum(alloc, reader, depth)?;
    if sees_relation(reader) {
        let (first, comparison) = beside(first, comparison(alloc, reader, depth))?;
        Ok(compared(alloc, first, comparison)?)
    } else {
        Ok(first)
    }
}

#[cycle(expr)]
#[tactic(auto, unfolding(lil_language::specs::Grammar::reading, lil_language::specs::Grammar::comparison, lil_syntax::specs::Syntax::reads, lil_syntax::specs::Syntax::before))]
fn comparison(alloc: Global, reader: &mut Reader<'_>, depth: u8) -> Result<Operation, ReadStop>
    ensures { Reads (spec.reading depth spec.comparison reader.old) result reader.new }
{
    let (operator, place) = relation(reader)?;
    let operand = sum(alloc, reader, depth)?;
    Ok(Operation {
        operator,
        place,
        operand,
    })
}

#[cycle(expr)]
#[tactic(auto, unfolding(lil_language::specs::Grammar::reading, lil_language::specs::Grammar::sum, lil_syntax::specs::Syntax::reads, lil_syntax::specs::Syntax::before))]
fn sum(alloc: Global, reader: &mut Reader<'_>, depth: u8) -> Result<Expr, ReadStop>
    ensures { Reads (spec.reading depth spec.sum reader.old) result reader.new }
{
    let first = signed(alloc, reader, depth)?;
    let (first, more) = beside(first, additions(alloc, reader, depth))?;
    Ok(chained(alloc, first, more)?)
}

#[cycle(expr)]
#[tactic(auto, using(lil_grammar::specs::Turns::turns), unfolding(lil_language::specs::Grammar::reading, lil_language::specs::Grammar::additions, lil_language::specs::Grammar::addition, lil_syntax::specs::Syntax::reads, lil_syntax::specs::Syntax::before, lil_grammar::specs::Steps::many))]
fn additions(
    alloc: Global,
    reader: &mut Reader<'_>,
    depth: u8,
) -> Result<Items<Operation>, ReadStop>
    ensures { Reads (spec.reading depth spec.additions reader.old) result reader.new }
{
    let mut found = Items::new(alloc);
    for _turn in 0..reader.left() {
        if !sees_addition(reader) {
            return Ok(found);
        }
        let next = an_addition(alloc, reader, depth)?;
        found.push(next)?;
    }
    Ok(found)
}

#[cycle(expr)]
#[tactic(auto, unfolding(lil_language::specs::Grammar::reading, lil_language::specs::Grammar::addition, lil_syntax::specs::Syntax::reads, lil_syntax::specs::Syntax::before))]
fn an_addition(alloc: Global, reader: &mut Reader<'_>, depth: u8) -> Result<Operation, ReadStop>
    ensures { Reads (spec.reading depth spec.addition reader.old) result reader.new }
{
    let (operator, place) = addition(reader)?;
    let operand = term(alloc, reader, depth)?;
    Ok(Operation {
        operator,
        place,
        operand,
    })
}

#[cycle(expr)]
#[tactic(auto, unfolding(lil_language::specs::Grammar::reading, lil_language::specs::Grammar::signed, lil_syntax::specs::Syntax::reads, lil_syntax::specs::Syntax::before))]
fn signed(alloc: Global, reader: &mut Reader<'_>, depth: u8) -> Result<Expr, ReadStop>
    ensures { Reads (spec.reading depth spec.signed reader.old) result reader.new }
{
    if sees_sign(reader) {
        let (operator, place) = sign(reader)?;
        let operand = term(alloc, reader, depth)?;
        Ok(one(alloc, place, operator, operand)?)
    } else {
        term(alloc, reader, depth)
    }
}

#[cycle(expr)]
#[tactic(auto, unfolding(lil_language::specs::Grammar::reading, lil_language::specs::Grammar::term, lil_syntax::specs::Syntax::reads, lil_syntax::specs::Syntax::before))]
fn term(alloc: Global, reader: &mut Reader<'_>, depth: u8) -> Result<Expr, ReadStop>
    ensures { Reads (spec.reading depth spec.term reader.old) result reader.new }
{
    let first = factor(alloc, reader, depth)?;
    let (first, more) = beside(first, multiplications(alloc, reader, depth))?;
    Ok(chained(alloc, first, more)?)
}

#[cycle(expr)]
#[tactic(auto, using(lil_grammar::specs::Turns::turns), unfolding(lil_language::specs::Grammar::reading, lil_language::specs::Grammar::multiplications, lil_language::specs::Grammar::multiplication, lil_syntax::specs::Syntax::reads, lil_syntax::specs::Syntax::before, lil_grammar::specs::Steps::many))]
fn multiplications(
    alloc: Global,
    reader: &mut Reader<'_>,
    depth: u8,
) -> Result<Items<Operation>, ReadStop>
    ensures { Reads (spec.reading depth spec.multiplications reader.old) result reader.new }
{
    let mut found = Items::new(alloc);
    for _turn in 0..reader.left() {
        if !sees_multiplication(reader) {
            return Ok(found);
        }
        let next = a_multiplication(alloc, reader, depth)?;
        found.push(next)?;
    }
    Ok(found)
}

#[cycle(expr)]
#[tactic(auto, unfolding(lil_language::specs::Grammar::reading, lil_language::specs::Grammar::multiplication, lil_syntax::specs::Syntax::reads, lil_syntax::specs::Syntax::before))]
fn a_multiplication(
    alloc: Global,
    reader: &mut Reader<'_>,
    depth: u8,
) -> Result<Operation, ReadStop>
    ensures { Reads (spec.reading depth spec.multiplication reader.old) result reader.new }
{
    let (operator, place) = multiplication(reader)?;
    let operand = factor(alloc, reader, depth)?;
    Ok(Operation {
        operator,
        place,
        operand,
    })
}

#[cycle(expr)]
#[tactic(auto, using(lil_language::specs::Laws::ways), unfolding(lil_language::specs::Grammar::factor, lil_language::specs::Grammar::bit_set, lil_language::specs::Grammar::inner, lil_language::specs::Grammar::negated))]
fn factor(alloc: Global, reader: &mut Reader<'_>, depth: u8) -> Result<Expr, ReadStop>
    ensures { Reads (spec.reading depth spec.factor reader.old) result reader.new }
{
    if sees_literal(reader) {
        literal(alloc, reader, depth)
    } else if reader.sees(Mark::OpenBrace) {
        bit_set(alloc, reader, depth)
    } else if reader.sees(Mark::Open) {
        inner(alloc, reader, depth)
    } else if reader.sees_word(Word::Not) {
        negated(alloc, reader, depth)
    } else {
        named(alloc, reader, depth)
    }
}

#[cycle(expr)]
#[tactic(auto, unfolding(lil_language::specs::Grammar::reading, lil_language::specs::Grammar::inner, lil_syntax::specs::Syntax::reads, lil_syntax::specs::Syntax::before))]
fn inner(alloc: Global, reader: &mut Reader<'_>, depth: u8) -> Result<Expr, ReadStop>
    ensures { Reads (spec.reading depth spec.inner reader.old) result reader.new }
{
    let place = reader.expect(Mark::Open)?;
    let inside = expr(alloc, reader, depth)?;
    let (inside, _) = beside(inside, reader.expect(Mark::Close))?;
    Ok(begun_at(place, inside))
}

#[cycle(expr)]
#[tactic(auto, unfolding(lil_language::specs::Grammar::reading, lil_language::specs::Grammar::negated, lil_syntax::specs::Syntax::reads, lil_syntax::specs::Syntax::before))]
fn negated(alloc: Global, reader: &mut Reader<'_>, depth: u8) -> Result<Expr, ReadStop>
    ensures { Reads (spec.reading depth spec.negated reader.old) result reader.new }
{
    let place = reader.expect_word(Word::Not)?;
    let operand = operand(alloc, reader, depth)?;
    Ok(one(alloc, place, OneOp::Not, operand)?)
}
