ghost use Rattle.lil_grammar.specs.Steps.{Reads};
ghost use Rattle.lil_language.specs.Grammar as spec;

use crate::lookahead::sees_formal;
use crate::ordinal::qualident_place;
use lil_base::{Items, Place};
use lil_grammar::Reader;
use lil_language::Formal;
use lil_read_expr::qualident;
use lil_text::{Mark, Qualident, ReadStop, Word};
use std::alloc::Global;

/// VAR, where it stands.
#[tactic(auto, unfolding(lil_language::specs::Grammar::reading, lil_language::specs::Grammar::by_place, lil_syntax::specs::Syntax::reads, lil_syntax::specs::Syntax::before))]
pub fn by_place(
    alloc: Global,
    reader: &mut Reader<'_>,
    depth: u8,
) -> Result<Option<Place>, ReadStop>
    ensures { Reads (spec.reading depth spec.by_place reader.old) result reader.new }
{
    if reader.sees_word(Word::Var) {
        let place = reader.expect_word(Word::Var)?;
        Ok(Some(place))
    } else {
        Ok(None)
    }
}

/// ARRAY OF, where it stands, at ARRAY.
#[tactic(auto, unfolding(lil_language::specs::Grammar::reading, lil_language::specs::Grammar::open_array, lil_syntax::specs::Syntax::reads, lil_syntax::specs::Syntax::before))]
pub fn open_array(
    alloc: Global,
    reader: &mut Reader<'_>,
    depth: u8,
) -> Result<Option<Place>, ReadStop>
    ensures { Reads (spec.reading depth spec.open_array reader.old) result reader.new }
{
    if reader.sees_word(Word::Array) {
        let place = reader.expect_word(Word::Array)?;
        reader.expect_word(Word::Of)?;
        Ok(Some(place))
    } else {
        Ok(None)
    }
}

#[tactic(auto, unfolding(lil_language::specs::Grammar::reading, lil_language::specs::Grammar::formal, lil_syntax::specs::Syntax::reads, lil_syntax::specs::Syntax::before))]
fn formal(alloc: Global, reader: &mut Reader<'_>, depth: u8) -> Result<Formal, ReadStop>
    ensures { Reads (spec.reading depth spec.formal reader.old) result reader.new }
{
    let by_place = by_place(alloc, reader, depth)?;
    let open_array = open_array(alloc, reader, depth)?;
    let sort = qualident(alloc, reader, depth)?;
    let place = by_place.unwrap_or(open_array.unwrap_or(qualident_place(&sort)));
    Ok(Formal {
        place,
        by_place: by_place.is_some(),
        open_array: open_array.is_some(),
        sort,
    })
}

#[tactic(auto, using(lil_grammar::specs::Turns::turns), unfolding(lil_language::specs::Grammar::reading, lil_language::specs::Grammar::formals, lil_syntax::specs::Syntax::reads, lil_syntax::specs::Syntax::before, lil_grammar::specs::Steps::many))]
fn formals(alloc: Global, reader: &mut Reader<'_>, depth: u8) -> Result<Items<Formal>, ReadStop>
    ensures { Reads (spec.reading depth spec.formals reader.old) result reader.new }
{
    let mut found = Items::new(alloc);
    let first = formal(alloc, reader, depth)?;
    found.push(first)?;
    for _turn in 0..reader.left() {
        if !reader.sees(Mark::Comma) {
            return Ok(found);
        }
        reader.expect(Mark::Comma)?;
        let next = formal(alloc, reader, depth)?;
        found.push(next)?;
    }
    Ok(found)
}

#[tactic(auto, unfolding(lil_language::specs::Grammar::reading, lil_language::specs::Grammar::some_formals, lil_syntax::specs::Syntax::reads, lil_syntax::specs::Syntax::before))]
fn some_formals(
    alloc: Global,
    reader: &mut Reader<'_>,
    depth: u8,
) -> Result<Items<Formal>, ReadStop>
    ensures { Reads (spec.reading depth spec.some_formals reader.old) result reader.new }
{
    if sees_formal(reader) {
        formals(alloc, reader, depth)
    } else {
        Ok(Items::new(alloc))
    }
}

/// The type of a result behind a colon, where one stands.
#[tactic(auto, unfolding(lil_language::specs::Grammar::reading, lil_language::specs::Grammar::result, lil_syntax::specs::Syntax::reads, lil_syntax::specs::Syntax::before))]
pub fn result(
    alloc: Global,
    reader: &mut Reader<'_>,
    depth: u8,
) -> Result<Option<Qualident>, ReadStop>
    ensures { Reads (spec.reading depth spec.result reader.old) result reader.new }
{
    if reader.sees(Mark::Colon) {
        reader.expect(Mark::Colon)?;
        let sort = qualident(alloc, reader, depth)?;
        Ok(Some(sort))
    } else {
        Ok(None)
    }
}

/// Parameters in parentheses, and the type of a result.
#[tactic(auto, unfolding(lil_language::specs::Grammar::reading, lil_language::specs::Grammar::formal_part, lil_syntax::specs::Syntax::reads, lil_syntax::specs::Syntax::before))]
pub fn formal_part(
    alloc: Global,
    reader: &mut Reader<'_>,
    depth: u8,
) -> Result<(Items<Formal>, Option<Qualident>), ReadStop>
    ensures { Reads (spec.reading depth spec.formal_part reader.old) result reader.new }
{
    reader.expect(Mark::Open)?;
    let formals = some_formals(alloc, reader, depth)?;
    reader.expect(Mark::Close)?;
    let result = result(alloc, reader, depth)?;
    Ok((formals, result))
}
