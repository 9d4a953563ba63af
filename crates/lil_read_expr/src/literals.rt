ghost use Rattle.lil_grammar.specs.Steps.{Reads};
ghost use Rattle.lil_language.specs.Grammar as spec;

use lil_grammar::Reader;
use lil_language::Expr;
use lil_syntax::{sees_code, sees_number};
use lil_text::ReadStop;
use std::alloc::Global;

#[tactic(auto, unfolding(lil_language::specs::Grammar::reading, lil_language::specs::Grammar::number, lil_syntax::specs::Syntax::reads, lil_syntax::specs::Syntax::before))]
fn number(reader: &mut Reader<'_>, depth: u8) -> Result<Expr, ReadStop>
    ensures { Reads (spec.reading depth spec.number reader.old) result reader.new }
{
    let (place, value) = lil_syntax::number(reader)?;
    Ok(Expr::Whole(place, value))
}

#[tactic(auto, unfolding(lil_language::specs::Grammar::reading, lil_language::specs::Grammar::code, lil_syntax::specs::Syntax::reads, lil_syntax::specs::Syntax::before))]
fn code(reader: &mut Reader<'_>, depth: u8) -> Result<Expr, ReadStop>
    ensures { Reads (spec.reading depth spec.code reader.old) result reader.new }
{
    let (place, code) = lil_syntax::code(reader)?;
    Ok(Expr::Code(place, code))
}

#[tactic(auto, unfolding(lil_language::specs::Grammar::reading, lil_language::specs::Grammar::chars, lil_syntax::specs::Syntax::reads, lil_syntax::specs::Syntax::before))]
fn chars(alloc: Global, reader: &mut Reader<'_>, depth: u8) -> Result<Expr, ReadStop>
    ensures { Reads (spec.reading depth spec.chars reader.old) result reader.new }
{
    let (place, text) = lil_syntax::chars(alloc, reader)?;
    Ok(Expr::Chars(place, text))
}

/// A number, a character by its code, or a string.
#[tactic(auto, using(lil_language::specs::Laws::ways), unfolding(lil_language::specs::Grammar::literal, lil_language::specs::Grammar::number, lil_language::specs::Grammar::code))]
pub fn literal(alloc: Global, reader: &mut Reader<'_>, depth: u8) -> Result<Expr, ReadStop>
    ensures { Reads (spec.reading depth spec.literal reader.old) result reader.new }
{
    if sees_number(reader) {
        number(reader, depth)
    } else if sees_code(reader) {
        code(reader, depth)
    } else {
        chars(alloc, reader, depth)
    }
}
