ghost use Rattle.lil_grammar.specs.Steps.{Reads};
ghost use Rattle.lil_language.specs.Grammar as spec;

use crate::forms::alone;
use lil_base::Items;
use lil_grammar::Reader;
use lil_language::Selector;
use lil_text::{Ident, Mark, Qualident, ReadStop};
use std::alloc::Global;

/// A name, with its module's name before it where one stands there.
#[tactic(auto, unfolding(lil_language::specs::Grammar::reading, lil_language::specs::Grammar::a_qualident, lil_syntax::specs::Syntax::reads, lil_syntax::specs::Syntax::before))]
pub fn qualident(alloc: Global, reader: &mut Reader<'_>, depth: u8) -> Result<Qualident, ReadStop>
    ensures { Reads (spec.reading depth spec.a_qualident reader.old) result reader.new }
{
    let first = reader.ident(alloc)?;
    if reader.sees(Mark::Dot) {
        reader.expect(Mark::Dot)?;
        let name = reader.ident(alloc)?;
        Ok(Qualident {
            owner: Some(first),
            name,
        })
    } else {
        Ok(Qualident {
            owner: None,
            name: first,
        })
    }
}

/// Names with commas between them.
#[tactic(auto, using(lil_grammar::specs::Turns::turns), unfolding(lil_language::specs::Grammar::reading, lil_language::specs::Grammar::names, lil_syntax::specs::Syntax::reads, lil_syntax::specs::Syntax::before, lil_grammar::specs::Steps::many))]
pub fn names(alloc: Global, reader: &mut Reader<'_>, depth: u8) -> Result<Items<Ident>, ReadStop>
    ensures { Reads (spec.reading depth spec.names reader.old) result reader.new }
{
    let first = reader.ident(alloc)?;
    let mut found = alone(alloc, first)?;
    for _turn in 0..reader.left() {
        if !reader.sees(Mark::Comma) {
            return Ok(found);
        }
        reader.expect(Mark::Comma)?;
        let next = reader.ident(alloc)?;
        found.push(next)?;
    }
    Ok(found)
}

/// A field, at its full stop.
#[tactic(auto, unfolding(lil_language::specs::Grammar::reading, lil_language::specs::Grammar::field, lil_syntax::specs::Syntax::reads, lil_syntax::specs::Syntax::before))]
pub fn field(alloc: Global, reader: &mut Reader<'_>, depth: u8) -> Result<Selector, ReadStop>
    ensures { Reads (spec.reading depth spec.field reader.old) result reader.new }
{
    let place = reader.expect(Mark::Dot)?;
    let name = reader.ident(alloc)?;
    Ok(Selector::Field(place, name))
}

/// What a pointer points to, at the arrow.
#[tactic(auto, unfolding(lil_language::specs::Grammar::reading, lil_language::specs::Grammar::follow, lil_syntax::specs::Syntax::reads, lil_syntax::specs::Syntax::before))]
pub fn follow(reader: &mut Reader<'_>, depth: u8) -> Result<Selector, ReadStop>
    ensures { Reads (spec.reading depth spec.follow reader.old) result reader.new }
{
    let place = reader.expect(Mark::Arrow)?;
    Ok(Selector::Follow(place))
}
