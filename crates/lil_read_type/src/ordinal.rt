ghost use Rattle.std.specs.Prelude.{◌≡◌};
ghost use Rattle.lil_grammar.specs.Steps.{Reads};
ghost use Rattle.lil_language.specs.Grammar as spec;
ghost use Rattle.lil_language.specs.Trees as tree;

use lil_base::{Boxed, Items, Place, beside};
use lil_grammar::Reader;
use lil_language::{Expr, Simple};
use lil_read_expr::{boxed_expr, names, qualident};
use lil_text::{Mark, Qualident, ReadStop};
use std::alloc::Global;

/// The place of a qualified name's first token.
pub fn qualident_place(name: &Qualident) -> Place
    ensures { result ≡ tree.qualident_place name.now }
{
    match &name.owner {
        Some(owner) => owner.place,
        None => name.name.place,
    }
}

/// The bounds of a subrange in brackets.
#[tactic(auto, unfolding(lil_language::specs::Grammar::reading, lil_language::specs::Grammar::bounds, lil_syntax::specs::Syntax::reads, lil_syntax::specs::Syntax::before))]
fn bounds(
    alloc: Global,
    reader: &mut Reader<'_>,
    depth: u8,
) -> Result<(Place, Boxed<Expr>, Boxed<Expr>), ReadStop>
    ensures { Reads (spec.reading depth spec.bounds reader.old) result reader.new }
{
    let place = reader.expect(Mark::OpenBracket)?;
    let low = boxed_expr(alloc, reader, depth)?;
    let (low, _) = beside(low, reader.expect(Mark::Through))?;
    let (low, high) = beside(low, boxed_expr(alloc, reader, depth))?;
    let ((low, high), _) = beside((low, high), reader.expect(Mark::CloseBracket))?;
    Ok((place, low, high))
}

/// A name, or the subrange of a named type.
#[tactic(auto, unfolding(lil_language::specs::Grammar::reading, lil_language::specs::Grammar::named_type, lil_language::specs::Grammar::bounds, lil_syntax::specs::Syntax::reads, lil_syntax::specs::Syntax::before))]
fn named_type(alloc: Global, reader: &mut Reader<'_>, depth: u8) -> Result<Simple, ReadStop>
    ensures { Reads (spec.reading depth spec.named_type reader.old) result reader.new }
{
    let name = qualident(alloc, reader, depth)?;
    if reader.sees(Mark::OpenBracket) {
        let place = qualident_place(&name);
        let (name, (_, low, high)) = beside(name, bounds(alloc, reader, depth))?;
        Ok(Simple::Subrange(place, Some(name), low, high))
    } else {
        Ok(Simple::Named(name))
    }
}

/// A subrange without a named type.
#[tactic(auto, unfolding(lil_language::specs::Grammar::reading, lil_language::specs::Grammar::unnamed, lil_syntax::specs::Syntax::reads, lil_syntax::specs::Syntax::before))]
fn unnamed(alloc: Global, reader: &mut Reader<'_>, depth: u8) -> Result<Simple, ReadStop>
    ensures { Reads (spec.reading depth spec.unnamed reader.old) result reader.new }
{
    let (place, low, high) = bounds(alloc, reader, depth)?;
    Ok(Simple::Subrange(place, None, low, high))
}

#[tactic(auto, unfolding(lil_language::specs::Grammar::reading, lil_language::specs::Grammar::enumeration, lil_syntax::specs::Syntax::reads, lil_syntax::specs::Syntax::before))]
fn enumeration(alloc: Global, reader: &mut Reader<'_>, depth: u8) -> Result<Simple, ReadStop>
    ensures { Reads (spec.reading depth spec.enumeration reader.old) result reader.new }
{
    let place = reader.expect(Mark::Open)?;
    let names = names(alloc, reader, depth)?;
    reader.expect(Mark::Close)?;
    Ok(Simple::Enumeration(place, names))
}

/// A type that may be an index or a base.
#[tactic(auto, using(lil_language::specs::Laws::ways), unfolding(lil_language::specs::Grammar::simple, lil_language::specs::Grammar::enumeration, lil_language::specs::Grammar::unnamed, lil_language::specs::Grammar::bounds))]
pub fn simple(alloc: Global, reader: &mut Reader<'_>, depth: u8) -> Result<Simple, ReadStop>
    ensures { Reads (spec.reading depth spec.simple reader.old) result reader.new }
{
    if reader.sees(Mark::Open) {
        enumeration(alloc, reader, depth)
    } else if reader.sees(Mark::OpenBracket) {
        unnamed(alloc, reader, depth)
    } else {
        named_type(alloc, reader, depth)
    }
}

/// Index types with commas between them.
#[tactic(auto, using(lil_grammar::specs::Turns::turns), unfolding(lil_language::specs::Grammar::reading, lil_language::specs::Grammar::simples, lil_syntax::specs::Syntax::reads, lil_syntax::specs::Syntax::before, lil_grammar::specs::Steps::many))]
pub fn simples(alloc: Global, reader: &mut Reader<'_>, depth: u8) -> Result<Items<Simple>, ReadStop>
    ensures { Reads (spec.reading depth spec.simples reader.old) result reader.new }
{
    let mut found = Items::new(alloc);
    let first = simple(alloc, reader, depth)?;
    found.push(first)?;
    for _turn in 0..reader.left() {
        if !reader.sees(Mark::Comma) {
            return Ok(found);
        }
        reader.expect(Mark::Comma)?;
        let next = simple(alloc, reader, depth)?;
        found.push(next)?;
    }
    Ok(found)
}
