//! What is told in particular, by the tokens around a fault.

use crate::names::{known, name_like, reserved_like};
use crate::report::{Fault, Place};
use crate::sentences::*;
use crate::tokens::Token;

/// What stands before a sentence.
#[derive(Clone, Copy)]
pub enum Lead<'a> {
    Nothing,
    /// A word that may have been meant.
    Perhaps(&'a [u8]),
    /// A line of the text that the sentence speaks of.
    Line(usize),
}

/// The tokens of a text before a place, and those from it on.
#[derive(Clone, Copy)]
pub struct Around<'a> {
    before: &'a [Token<'a>],
    rest: &'a [Token<'a>],
    place: Place,
}

impl<'a> Around<'a> {
    pub fn new(tokens: &'a [Token<'a>], place: Place) -> Around<'a> {
        let count = tokens
            .iter()
            .take_while(|token| token.place < place)
            .count();
        let (before, rest) = tokens.split_at_checked(count).unwrap_or((tokens, &[]));
        Around {
            before,
            rest,
            place,
        }
    }

    /// The token at the place; nothing at the end of the text.
    fn word(&self) -> &'a [u8] {
        self.rest.first().map_or(&[], |token| token.bytes)
    }

    /// The token before the place.
    fn last(&self) -> &'a [u8] {
        self.before.last().map_or(&[], |token| token.bytes)
    }

    /// The token after that at the place.
    fn next(&self) -> &'a [u8] {
        self.rest.get(1).map_or(&[], |token| token.bytes)
    }

    /// The line before, where the place is at the first token of a line: that of the token before it.
    pub fn line_before(&self) -> Option<usize> {
        let line = self.before.last()?.place.line;
        if line < self.place.line {
            Some(line)
        } else {
            None
        }
    }
}

/// A word in small letters among the tokens of the lines that are shown, the nearest one.
fn small_word(around: &Around<'_>) -> Option<&'static str> {
    if let Some(name) = reserved_like(around.word()) {
        return Some(name);
    }
    let first = around.line_before().unwrap_or(around.place.line);
    for token in around.before.iter().rev() {
        if token.place.line < first {
            return None;
        }
        if let Some(name) = reserved_like(token.bytes) {
            return Some(name);
        }
    }
    None
}

/// The line of the last ELSE IF before the place.
fn else_if_line(around: &Around<'_>) -> Option<usize> {
    let mut found = None;
    let mut last: &[u8] = &[];
    for token in around.before {
        if matches!((last, token.bytes), (b"ELSE", b"IF")) {
            found = Some(token.place.line);
        }
        last = token.bytes;
    }
    found
}

/// Whether an AND or OR, and whether IF or another word that needs one after it, stands before the place in one statement.
fn statement_so_far(around: &Around<'_>) -> (bool, bool) {
    let mut joins = false;
    for token in around.before.iter().rev() {
        match token.bytes {
            b"AND" | b"OR" | b"&" => joins = true,
            b"IF" | b"ELSIF" | b"WHILE" | b"FOR" | b"WITH" | b"CASE" => return (joins, true),
            b";" | b"THEN" | b"DO" | b"OF" | b"BEGIN" | b"ELSE" | b"END" => break,
            _ => {}
        }
    }
    (joins, false)
}

/// What a token tells where a text can't go on with it.
fn of_token(around: &Around<'_>) -> Option<&'static str> {
    let (joins, opens) = statement_so_far(around);
    match (around.last(), around.word(), around.next()) {
        (_, b"<" | b">" | b"<=" | b">=" | b"=" | b"#" | b"<>", _) if joins => Some(AND_OR),
        (_, b"=", _) => Some(BECOMES),
        (b")", b":=", _) => Some(INDEX),
        (_, b":=", _) => Some(EQUAL),
        (_, b"+" | b"-", b"=" | b"+" | b"-") => Some(INCREMENT),
        (_, b".", [b'0'..=b'9', ..]) => Some(NO_REALS),
        (_, b"{", _) => Some(BRACES),
        (_, b"CONST" | b"TYPE" | b"VAR" | b"PROCEDURE" | b"FROM" | b"IMPORT", _) => {
            Some(DECLARATIONS)
        }
        _ if opens => Some(THEN_DO_OF),
        _ => None,
    }
}

/// What is told of fault 10.
fn of_syntax<'a>(around: &Around<'a>) -> Option<(Lead<'a>, &'static str)> {
    if let Some(name) = small_word(around) {
        return Some((Lead::Perhaps(name.as_bytes()), SMALL_LETTERS));
    }
    if around.before.is_empty() {
        return Some((Lead::Nothing, PROGRAM));
    }
    if around.rest.is_empty() {
        return Some((Lead::Nothing, END_OF_TEXT));
    }
    if let Some(hint) = of_token(around) {
        return Some((Lead::Nothing, hint));
    }
    match (around.last(), else_if_line(around)) {
        (b"END", Some(line)) => Some((Lead::Line(line), ELSE_IF)),
        (b"END", None) => Some((Lead::Nothing, MISSING_END)),
        _ => around.line_before().map(|_| (Lead::Nothing, LINE_BEFORE)),
    }
}

/// A word of the text that a word is but for small and capital letters.
fn token_like<'a>(around: &Around<'a>, word: &[u8]) -> Option<&'a [u8]> {
    let mut like = around.before.iter().map(|token| token.bytes);
    like.find(|bytes| *bytes != word && bytes.eq_ignore_ascii_case(word))
}

/// What is told of a name that isn't there.
fn of_name<'a>(around: &Around<'a>) -> Option<(Lead<'a>, &'static str)> {
    let word = around.word();
    if let Some(sentences) = known(word) {
        return Some((Lead::Nothing, sentences));
    }
    if let Some(name) = reserved_like(word) {
        return Some((Lead::Perhaps(name.as_bytes()), SMALL_LETTERS));
    }
    let name = name_like(word)
        .map(|name| name.as_bytes())
        .or_else(|| token_like(around, word))?;
    Some((Lead::Perhaps(name), OTHER_LETTERS))
}

/// What is told of a fault in particular, with what stands before it.
pub fn hint<'a>(fault: &Fault<'_>, around: &Around<'a>) -> Option<(Lead<'a>, &'static str)> {
    match (fault.number, around.word()) {
        (1, [26, ..]) => Some((Lead::Nothing, DISK_END)),
        (1, [30, ..]) => Some((Lead::Nothing, LILITH_LINE)),
        (10, _) => of_syntax(around),
        (20 | 22, _) => of_name(around),
        (30, b"/") => Some((Lead::Nothing, DIVIDE)),
        (90, word) if known(word) == Some(NO_REALS) => Some((Lead::Nothing, NO_REALS)),
        _ => None,
    }
}
