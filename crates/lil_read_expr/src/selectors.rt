ghost use Rattle.lil_grammar.specs.Steps.{Reads};
ghost use Rattle.lil_language.specs.Grammar as spec;
ghost use Rattle.lil_read_expr.specs.Selected.{more_selectors, selected_on};

use crate::forms::{alone, designated};
use crate::idents::{field, follow};
use crate::lists::{call, exprs};
use crate::lookahead::sees_selector;
use lil_base::Items;
use lil_grammar::Reader;
use lil_language::{Designator, Expr, Selector};
use lil_text::{Ident, Mark, ReadStop};
use std::alloc::Global;

#[cycle(expr)]
#[tactic(auto, unfolding(lil_language::specs::Grammar::reading, lil_language::specs::Grammar::index, lil_syntax::specs::Syntax::reads, lil_syntax::specs::Syntax::before))]
fn index(alloc: Global, reader: &mut Reader<'_>, depth: u8) -> Result<Selector, ReadStop>
    ensures { Reads (spec.reading depth spec.index reader.old) result reader.new }
{
    let place = reader.expect(Mark::OpenBracket)?;
    let indices = exprs(alloc, reader, depth)?;
    reader.expect(Mark::CloseBracket)?;
    Ok(Selector::Index(place, indices))
}

#[cycle(expr)]
#[tactic(auto, using(lil_language::specs::Laws::ways), unfolding(lil_language::specs::Grammar::part_selector, lil_language::specs::Grammar::index))]
fn part_selector(alloc: Global, reader: &mut Reader<'_>, depth: u8) -> Result<Selector, ReadStop>
    ensures { Reads (spec.reading depth spec.part_selector reader.old) result reader.new }
{
    if reader.sees(Mark::OpenBracket) {
        index(alloc, reader, depth)
    } else {
        follow(reader, depth)
    }
}

#[cycle(expr)]
#[tactic(auto, using(lil_language::specs::Laws::ways), unfolding(lil_language::specs::Grammar::selector, lil_language::specs::Grammar::field))]
fn selector(alloc: Global, reader: &mut Reader<'_>, depth: u8) -> Result<Selector, ReadStop>
    ensures { Reads (spec.reading depth spec.selector reader.old) result reader.new }
{
    if reader.sees(Mark::Dot) {
        field(alloc, reader, depth)
    } else {
        part_selector(alloc, reader, depth)
    }
}

/// What is selected behind `begun`.
#[cycle(expr)]
#[tactic(auto, using(lil_grammar::specs::Turns::turns), unfolding(crate::specs::Selected::more_selectors, lil_language::specs::Grammar::reading, lil_syntax::specs::Syntax::reads, lil_syntax::specs::Syntax::before, lil_grammar::specs::Steps::many))]
fn more_selectors(
    alloc: Global,
    reader: &mut Reader<'_>,
    depth: u8,
    begun: Items<Selector>,
) -> Result<Items<Selector>, ReadStop>
    ensures { Reads (more_selectors depth begun reader.old) result reader.new }
{
    let mut found = begun;
    for _turn in 0..reader.left() {
        if !sees_selector(reader) {
            return Ok(found);
        }
        let next = selector(alloc, reader, depth)?;
        found.push(next)?;
    }
    Ok(found)
}

#[tactic(auto, unfolding(crate::specs::Selected::more_selectors, lil_language::specs::Grammar::reading, lil_language::specs::Grammar::selectors, lil_syntax::specs::Syntax::reads, lil_syntax::specs::Syntax::before))]
fn selectors(alloc: Global, reader: &mut Reader<'_>, depth: u8) -> Result<Items<Selector>, ReadStop>
    ensures { Reads (spec.reading depth spec.selectors reader.old) result reader.new }
{
    more_selectors(alloc, reader, depth, Items::new(alloc))
}

/// What is selected, of which the first is no field.
#[cycle(expr)]
#[tactic(auto, unfolding(crate::specs::Selected::more_selectors, lil_language::specs::Grammar::reading, lil_language::specs::Grammar::part_selectors, lil_syntax::specs::Syntax::reads, lil_syntax::specs::Syntax::before))]
pub fn part_selectors(
    alloc: Global,
    reader: &mut Reader<'_>,
    depth: u8,
) -> Result<Items<Selector>, ReadStop>
    ensures { Reads (spec.reading depth spec.part_selectors reader.old) result reader.new }
{
    let first = part_selector(alloc, reader, depth)?;
    let begun = alone(alloc, first)?;
    more_selectors(alloc, reader, depth, begun)
}

/// A name, with what is selected of it behind `begun`, and called where arguments follow.
#[cycle(expr)]
#[tactic(auto, unfolding(crate::specs::Selected::selected_on))]
pub fn selected_on(
    alloc: Global,
    reader: &mut Reader<'_>,
    depth: u8,
    first: Ident,
    begun: Items<Selector>,
) -> Result<Expr, ReadStop>
    ensures { Reads (selected_on depth first begun reader.old) result reader.new }
{
    let selectors = more_selectors(alloc, reader, depth, begun)?;
    let arguments = call(alloc, reader, depth)?;
    let found = designated(alloc, first, selectors, arguments)?;
    Ok(found)
}

/// A name and what is selected of it.
#[tactic(auto, unfolding(lil_language::specs::Grammar::reading, lil_language::specs::Grammar::a_designator, lil_syntax::specs::Syntax::reads, lil_syntax::specs::Syntax::before))]
pub fn designator(alloc: Global, reader: &mut Reader<'_>, depth: u8) -> Result<Designator, ReadStop>
    ensures { Reads (spec.reading depth spec.a_designator reader.old) result reader.new }
{
    let first = reader.ident(alloc)?;
    let selectors = selectors(alloc, reader, depth)?;
    Ok(Designator { first, selectors })
}
