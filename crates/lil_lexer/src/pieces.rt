ghost use Rattle.std.specs.Prelude.{◌≡◌, ◌≤◌, ◌<◌, ◌+◌, length, None, Some, IfSome};
ghost use Rattle.lil_base.specs.Faults.{fault, fault_number};
ghost use Rattle.lil_text.specs.Lexical as lexical;
ghost use Rattle.lil_text.specs.declared.stop.ReadStop.TheVariants as why;
ghost use Rattle.lil_lexer.specs.Pieces as spec;
ghost use Rattle.lil_lexer.specs.Pieces.{Reads, HasRoom, IsWithin, Found};

use crate::bytes::{
    begins_with, closes, is_blank, is_digit, is_letter, is_quote, line_len, name_len, opens,
    string_len,
};
use crate::numbers::{numeral, run_len};
use crate::words::word_of;
use lil_base::{FaultKind, Name, Place, SourceFault, Text};
use lil_text::{Mark, ReadStop, TokenKind, Word};
use std::alloc::Global;

/// What a text begins with: a token, or none for a blank or a comment, and how many bytes it takes.
#[derive(Drop)]
pub(crate) struct Piece {
    pub what: Option<TokenKind>,
    pub len: usize,
}

pub(crate) fn stop(kind: FaultKind, place: Place) -> ReadStop
    ensures { result ≡ why.Fault (fault (fault_number kind) place) }
{
    ReadStop::Fault(SourceFault::at(kind, place))
}

fn token(what: TokenKind, len: usize) -> Result<Piece, ReadStop>
    ensures { Reads (spec.token what len) result }
{
    Ok(Piece {
        what: Some(what),
        len,
    })
}

fn skipped(len: usize) -> Result<Piece, ReadStop>
    ensures { Reads (spec.skipped len) result }
{
    Ok(Piece { what: None, len })
}

fn after_byte(place: Place, b: u8) -> Place
    requires { HasRoom place 1 }
    ensures { result ≡ lexical.after_byte place b }
{
    if b == 10 {
        Place {
            line: place.line + 1,
            column: 1,
            offset: place.offset + 1,
        }
    } else {
        Place {
            line: place.line,
            column: place.column + 1,
            offset: place.offset + 1,
        }
    }
}

/// The place behind these bytes.
pub(crate) fn behind(place: Place, bytes: &[u8]) -> Place
    requires { HasRoom place (length bytes.now) }
    ensures value { result ≡ lexical.behind place bytes.now }
    ensures within { IsWithin place result (length bytes.now) }
{
    let mut at = place;
    for b in bytes {
        at = after_byte(at, *b);
    }
    at
}

/// What is behind a comment, from behind its `(*` on, or None where it isn't closed.
fn after_comment(inside: &[u8]) -> Option<&[u8]>
    ensures none { result ≡ None → spec.after_comment 0 0 inside.now ≡ None }
    ensures some { IfSome result (λ rest. spec.after_comment 0 0 inside.now ≡ Some rest.now) }
    ensures within { IfSome result (λ rest. length rest.now ≤ length inside.now) }
{
    let mut depth: usize = 0;
    let mut before: u8 = 0;
    let mut left = inside;
    while let [b, rest @ ..] = left {
        if opens(before, *b) {
            depth += 1;
            before = 0;
        } else if closes(before, *b) {
            if depth == 0 {
                return Some(rest);
            }
            depth -= 1;
            before = 0;
        } else {
            before = *b;
        }
        left = rest;
    }
    None
}

fn comment_piece(inside: &[u8], place: Place) -> Result<Piece, ReadStop>
    ensures { Reads (spec.comment_piece place inside.now (spec.after_comment 0 0 inside.now)) result }
{
    match after_comment(inside) {
        None => Err(stop(FaultKind::OpenComment, place)),
        Some(rest) => skipped(inside.len() - rest.len() + 2),
    }
}

#[tactic(auto, unfolding(crate::specs::Pieces::name_piece))]
fn name_piece(alloc: Global, name: &[u8], place: Place) -> Result<Piece, ReadStop>
    ensures { Reads (spec.name_piece name.now place) result }
{
    match word_of(name) {
        Some(word) => token(TokenKind::Word(word), name.len()),
        None => match Name::of_slice(alloc, name)? {
            None => Err(stop(FaultKind::NameTooLong, place)),
            Some(ident) => token(TokenKind::Ident(ident), name.len()),
        },
    }
}

#[tactic(auto, unfolding(crate::specs::Pieces::number_piece))]
fn number_piece(run: &[u8], place: Place) -> Result<Piece, ReadStop>
    ensures { Reads (spec.number_piece run.now place) result }
{
    let what = numeral(run, place)?;
    token(what, run.len())
}

/// The bytes on the line before the mark that ends a string.
#[tactic(auto, unfolding(crate::specs::Pieces::line_piece))]
fn line_piece(alloc: Global, mark: u8, line: &[u8], place: Place) -> Result<Piece, ReadStop>
    requires { HasRoom place (1 + length line.now) }
    ensures { Reads (spec.line_piece mark line.now place) result }
{
    let good = string_len(mark, line);
    if good < line.len() {
        return Err(stop(
            FaultKind::BadChar,
            behind(after_byte(place, mark), &line[..good]),
        ));
    }
    token(
        TokenKind::Chars(Text::from_slice(alloc, line)?),
        line.len() + 2,
    )
}

#[tactic(auto, unfolding(crate::specs::Pieces::string_piece))]
fn string_piece(alloc: Global, mark: u8, inner: &[u8], place: Place) -> Result<Piece, ReadStop>
    requires { HasRoom place (1 + length inner.now) }
    ensures { Reads (spec.string_piece mark inner.now place) result }
{
    let len = line_len(mark, inner);
    if !begins_with(mark, &inner[len..]) {
        return Err(stop(FaultKind::OpenString, place));
    }
    line_piece(alloc, mark, &inner[..len], place)
}

fn pair(b: u8, c: u8) -> Option<TokenKind>
    ensures { result ≡ lexical.pair b c }
{
    if b == b':' && c == b'=' {
        Some(TokenKind::Mark(Mark::Becomes))
    } else if b == b'.' && c == b'.' {
        Some(TokenKind::Mark(Mark::Through))
    } else if b == b'<' && c == b'=' {
        Some(TokenKind::Mark(Mark::AtMost))
    } else if b == b'>' && c == b'=' {
        Some(TokenKind::Mark(Mark::AtLeast))
    } else if b == b'<' && c == b'>' {
        Some(TokenKind::Mark(Mark::Unequal))
    } else {
        None
    }
}

fn single(b: u8) -> Option<TokenKind>
    ensures { result ≡ lexical.single b }
{
    match b {
        b'+' => Some(TokenKind::Mark(Mark::Plus)),
        b'-' => Some(TokenKind::Mark(Mark::Minus)),
        b'*' => Some(TokenKind::Mark(Mark::Times)),
        b'/' => Some(TokenKind::Mark(Mark::Slash)),
        b'&' => Some(TokenKind::Word(Word::And)),
        b'~' => Some(TokenKind::Word(Word::Not)),
        b'.' => Some(TokenKind::Mark(Mark::Dot)),
        b',' => Some(TokenKind::Mark(Mark::Comma)),
        b';' => Some(TokenKind::Mark(Mark::Semicolon)),
        b'(' => Some(TokenKind::Mark(Mark::Open)),
        b')' => Some(TokenKind::Mark(Mark::Close)),
        b'[' => Some(TokenKind::Mark(Mark::OpenBracket)),
        b']' => Some(TokenKind::Mark(Mark::CloseBracket)),
        b'{' => Some(TokenKind::Mark(Mark::OpenBrace)),
        b'}' => Some(TokenKind::Mark(Mark::CloseBrace)),
        b'^' => Some(TokenKind::Mark(Mark::Arrow)),
        b'=' => Some(TokenKind::Mark(Mark::Equal)),
        b'#' => Some(TokenKind::Mark(Mark::Unequal)),
        b'<' => Some(TokenKind::Mark(Mark::Less)),
        b'>' => Some(TokenKind::Mark(Mark::Greater)),
        b':' => Some(TokenKind::Mark(Mark::Colon)),
        b'|' => Some(TokenKind::Mark(Mark::Bar)),
        _ => None,
    }
}

fn single_piece(b: u8, place: Place) -> Result<Piece, ReadStop>
    ensures { Reads (spec.single_piece place (lexical.single b)) result }
{
    match single(b) {
        None => Err(stop(FaultKind::BadChar, place)),
        Some(what) => token(what, 1),
    }
}

#[tactic(auto, unfolding(crate::specs::Pieces::mark_piece))]
fn mark_piece(b: u8, rest: &[u8], place: Place) -> Result<Piece, ReadStop>
    ensures { Reads (spec.mark_piece b rest.now place) result }
{
    match rest {
        [] => single_piece(b, place),
        [c, inside @ ..] => {
            if opens(b, *c) {
                return comment_piece(inside, place);
            }
            match pair(b, *c) {
                None => single_piece(b, place),
                Some(what) => token(what, 2),
            }
        }
    }
}

#[tactic(auto, unfolding(crate::specs::Pieces::piece))]
fn piece_at(alloc: Global, text: &[u8], place: Place) -> Result<Piece, ReadStop>
    requires { HasRoom place (length text.now) }
    ensures { Reads (spec.piece text.now place) result }
{
    match text {
        [] => skipped(0),
        [b, rest @ ..] => {
            if is_blank(*b) {
                skipped(1)
            } else if is_letter(*b) {
                name_piece(alloc, &text[..name_len(text)], place)
            } else if is_digit(*b) {
                number_piece(&text[..run_len(text)], place)
            } else if is_quote(*b) {
                string_piece(alloc, *b, rest, place)
            } else {
                mark_piece(*b, rest, place)
            }
        }
    }
}

/// What the text at a place begins with, or the fault that stands there.
pub(crate) fn next_piece(alloc: Global, text: &[u8], place: Place) -> Result<Piece, ReadStop>
    requires some { 0 < length text.now }
    requires room { HasRoom place (length text.now) }
    ensures { Found place text.now result }
{
    piece_at(alloc, text, place)
}
