ghost use Rattle.std.specs.Prelude.{◌≡◌};
ghost use Rattle.lil_grammar.specs.Steps as spec;
ghost use Rattle.lil_grammar.specs.Steps.{Reads};
ghost use Rattle.lil_syntax.specs.Terminals.{among, kinds_of, placed, taken_as, Terminal as t};

use crate::kinds::{addition_in, multiplication_in, relation_in, sign_in};
use lil_base::{Place, Text};
use lil_grammar::{Reader, syntax};
use lil_text::{OneOp, ReadStop, TokenKind, TwoOp};
use std::alloc::Global;

/// Takes the next token, of which this was found, at its place.
#[tactic(auto, unfolding(lil_grammar::specs::Steps::place_of, lil_grammar::specs::Steps::next))]
fn taken<T: Drop>(reader: &mut Reader<'_>, found: Option<T>) -> Result<(T, Place), ReadStop>
    ensures { Reads (spec.taken (spec.next reader.old) (spec.place_of reader.old) (placed (spec.place_of reader.old) found)) result reader.new }
{
    let place = reader.place();
    match found {
        Some(found) => {
            reader.skip();
            Ok((found, place))
        }
        None => Err(syntax(place)),
    }
}

/// Whether an operator of a term is next.
#[tactic(auto, unfolding(lil_grammar::specs::Steps::at, lil_grammar::specs::Steps::same_mark, lil_grammar::specs::Steps::same_word))]
pub fn sees_multiplication(reader: &Reader<'_>) -> bool
    ensures { result ≡ spec.at (among (kinds_of t.multiplication)) reader.now }
{
    matches!(reader.what(), Some(what) if multiplication_in(what).is_some())
}

/// An operator of a term, at its place.
#[tactic(auto, unfolding(lil_grammar::specs::Steps::token, lil_grammar::specs::Steps::place_of, lil_grammar::specs::Steps::next))]
pub fn multiplication(reader: &mut Reader<'_>) -> Result<(TwoOp, Place), ReadStop>
    ensures { Reads (spec.token (taken_as t.multiplication) reader.old) result reader.new }
{
    let found = reader.what().and_then(|what| multiplication_in(what));
    taken(reader, found)
}

/// Whether an operator of a sum is next.
#[tactic(auto, unfolding(lil_grammar::specs::Steps::at, lil_grammar::specs::Steps::same_mark, lil_grammar::specs::Steps::same_word))]
pub fn sees_addition(reader: &Reader<'_>) -> bool
    ensures { result ≡ spec.at (among (kinds_of t.addition)) reader.now }
{
    matches!(reader.what(), Some(what) if addition_in(what).is_some())
}

/// An operator of a sum, at its place.
#[tactic(auto, unfolding(lil_grammar::specs::Steps::token, lil_grammar::specs::Steps::place_of, lil_grammar::specs::Steps::next))]
pub fn addition(reader: &mut Reader<'_>) -> Result<(TwoOp, Place), ReadStop>
    ensures { Reads (spec.token (taken_as t.addition) reader.old) result reader.new }
{
    let found = reader.what().and_then(|what| addition_in(what));
    taken(reader, found)
}

/// Whether a relation is next.
#[tactic(auto, unfolding(lil_grammar::specs::Steps::at, lil_grammar::specs::Steps::same_mark, lil_grammar::specs::Steps::same_word))]
pub fn sees_relation(reader: &Reader<'_>) -> bool
    ensures { result ≡ spec.at (among (kinds_of t.relation)) reader.now }
{
    matches!(reader.what(), Some(what) if relation_in(what).is_some())
}

/// A relation, at its place.
#[tactic(auto, unfolding(lil_grammar::specs::Steps::token, lil_grammar::specs::Steps::place_of, lil_grammar::specs::Steps::next))]
pub fn relation(reader: &mut Reader<'_>) -> Result<(TwoOp, Place), ReadStop>
    ensures { Reads (spec.token (taken_as t.relation) reader.old) result reader.new }
{
    let found = reader.what().and_then(|what| relation_in(what));
    taken(reader, found)
}

/// Whether a sign is next.
#[tactic(auto, unfolding(lil_grammar::specs::Steps::at, lil_grammar::specs::Steps::same_mark, lil_grammar::specs::Steps::same_word))]
pub fn sees_sign(reader: &Reader<'_>) -> bool
    ensures { result ≡ spec.at (among (kinds_of t.sign)) reader.now }
{
    matches!(reader.what(), Some(what) if sign_in(what).is_some())
}

/// A sign, at its place.
#[tactic(auto, unfolding(lil_grammar::specs::Steps::token, lil_grammar::specs::Steps::place_of, lil_grammar::specs::Steps::next))]
pub fn sign(reader: &mut Reader<'_>) -> Result<(OneOp, Place), ReadStop>
    ensures { Reads (spec.token (taken_as t.sign) reader.old) result reader.new }
{
    let found = reader.what().and_then(|what| sign_in(what));
    taken(reader, found)
}

/// A number, at its place.
#[tactic(auto, unfolding(lil_grammar::specs::Steps::token, lil_grammar::specs::Steps::place_of, lil_grammar::specs::Steps::next))]
pub fn number(reader: &mut Reader<'_>) -> Result<(Place, u16), ReadStop>
    ensures { Reads (spec.token (taken_as t.number) reader.old) result reader.new }
{
    let place = reader.place();
    match reader.what() {
        Some(TokenKind::Number(value)) => {
            reader.skip();
            Ok((place, *value))
        }
        _ => Err(syntax(place)),
    }
}

/// A character's code, at its place.
#[tactic(auto, unfolding(lil_grammar::specs::Steps::token, lil_grammar::specs::Steps::place_of, lil_grammar::specs::Steps::next))]
pub fn code(reader: &mut Reader<'_>) -> Result<(Place, u8), ReadStop>
    ensures { Reads (spec.token (taken_as t.code) reader.old) result reader.new }
{
    let place = reader.place();
    match reader.what() {
        Some(TokenKind::CharCode(value)) => {
            reader.skip();
            Ok((place, *value))
        }
        _ => Err(syntax(place)),
    }
}

/// A string, at its place.
#[tactic(auto, unfolding(lil_grammar::specs::Steps::token, lil_grammar::specs::Steps::place_of, lil_grammar::specs::Steps::next))]
pub fn chars(alloc: Global, reader: &mut Reader<'_>) -> Result<(Place, Text), ReadStop>
    ensures { Reads (spec.token (taken_as t.chars) reader.old) result reader.new }
{
    let place = reader.place();
    match reader.what() {
        Some(TokenKind::Chars(text)) => {
            let text = Text::from_slice(alloc, text.as_slice())?;
            reader.skip();
            Ok((place, text))
        }
        _ => Err(syntax(place)),
    }
}

/// The end of the text, at its place.
#[tactic(auto, unfolding(lil_grammar::specs::Steps::token, lil_grammar::specs::Steps::place_of, lil_grammar::specs::Steps::next))]
pub fn finish(reader: &mut Reader<'_>) -> Result<Place, ReadStop>
    ensures { Reads (spec.token (taken_as t.finish) reader.old) result reader.new }
{
    let place = reader.place();
    match reader.what() {
        Some(TokenKind::Finish) => {
            reader.skip();
            Ok(place)
        }
        _ => Err(syntax(place)),
    }
}

/// Whether a name is next.
#[tactic(auto, unfolding(lil_grammar::specs::Steps::at))]
pub fn sees_name(reader: &Reader<'_>) -> bool
    ensures { result ≡ spec.at (among (kinds_of t.name)) reader.now }
{
    matches!(reader.what(), Some(TokenKind::Ident(_)))
}

/// Whether a number is next.
#[tactic(auto, unfolding(lil_grammar::specs::Steps::at))]
pub fn sees_number(reader: &Reader<'_>) -> bool
    ensures { result ≡ spec.at (among (kinds_of t.number)) reader.now }
{
    matches!(reader.what(), Some(TokenKind::Number(_)))
}

/// Whether a character code is next.
#[tactic(auto, unfolding(lil_grammar::specs::Steps::at))]
pub fn sees_code(reader: &Reader<'_>) -> bool
    ensures { result ≡ spec.at (among (kinds_of t.code)) reader.now }
{
    matches!(reader.what(), Some(TokenKind::CharCode(_)))
}
