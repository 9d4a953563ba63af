//! Where parts of statements stand in a text.

use lil_base::Place;
use lil_text::{Mark, Token, TokenKind, Word};

/// A text and its tokens.
#[derive(Clone, Copy)]
pub(crate) struct Source<'t> {
    pub(crate) text: &'t [u8],
    pub(crate) tokens: &'t [Token],
}

/// Whether a token stands after a statement without others in it, or after the head of one.
fn stands_after(what: &TokenKind) -> bool {
    match what {
        TokenKind::Word(word) => matches!(
            word,
            Word::End | Word::Else | Word::Elsif | Word::Until | Word::Then | Word::Do | Word::Of
        ),
        TokenKind::Mark(mark) => matches!(mark, Mark::Semicolon | Mark::Bar),
        TokenKind::Finish => true,
        _ => false,
    }
}

fn is_loop(token: &Token) -> bool {
    matches!(token.what, TokenKind::Word(Word::Loop))
}

/// Where the statement or the head that begins with the first of these tokens ends.
fn end_of(tokens: &[Token]) -> Option<Place> {
    match tokens {
        [first, second, ..] if is_loop(first) => Some(second.place),
        _ => Some(tokens.iter().find(|token| stands_after(&token.what))?.place),
    }
}

/// The first line of a text, without blanks at its end.
fn first_line(text: &[u8]) -> &[u8] {
    let mut length = 0usize;
    for (place, byte) in text.iter().enumerate() {
        if *byte == 10 || *byte == 13 {
            break;
        }
        if *byte > 32 {
            length = place.saturating_add(1);
        }
    }
    text.get(..length).unwrap_or(text)
}

impl<'t> Source<'t> {
    /// The statement or the head at a place, as far as it stands on the first of its lines.
    pub(crate) fn part(self, at: Place) -> &'t [u8] {
        let first = self
            .tokens
            .partition_point(|token| token.place.offset < at.offset);
        let rest = self.tokens.get(first..).unwrap_or(&[]);
        let from = self.text.get(at.offset as usize..).unwrap_or(b"");
        match end_of(rest) {
            Some(end) => {
                let length = end.offset.saturating_sub(at.offset) as usize;
                first_line(from.get(..length).unwrap_or(from))
            }
            None => first_line(from),
        }
    }
}
