//! The tokens of a text with their places, roughly: an explanation needs no more.

use crate::report::Place;
use std::alloc::{AllocError, Global};

/// A word, a number, a string or a sign of a text.
#[derive(Clone, Copy)]
pub struct Token<'a> {
    pub bytes: &'a [u8],
    pub place: Place,
}

/// The length of the comment that a text begins with. Comments lie in one another; one that isn't closed has no end.
fn comment_length(text: &[u8]) -> usize {
    let mut depth = 0usize;
    let mut next = 0usize;
    for (i, pair) in text.windows(2).enumerate() {
        if i < next {
            continue;
        }
        match pair {
            b"(*" => depth = depth.saturating_add(1),
            b"*)" => depth = depth.saturating_sub(1),
            _ => continue,
        }
        next = i.saturating_add(2);
        if depth == 0 {
            return next;
        }
    }
    text.len()
}

/// How many bytes of a text go together, and whether they are a token.
fn first_piece(text: &[u8]) -> (usize, bool) {
    match text {
        [b'(', b'*', ..] => (comment_length(text), false),
        [b':' | b'<' | b'>', b'=', ..] | [b'<', b'>', ..] | [b'.', b'.', ..] => (2, true),
        [quote @ (b'"' | b'\''), after @ ..] => {
            let mut bytes = after.iter();
            let end = bytes.position(|byte| *byte == *quote || *byte == b'\n');
            (
                end.map_or(text.len(), |length| length.saturating_add(2)),
                true,
            )
        }
        [first, ..] if first.is_ascii_whitespace() => {
            let blanks = text.iter().take_while(|byte| byte.is_ascii_whitespace());
            (blanks.count(), false)
        }
        [first, ..] if first.is_ascii_alphanumeric() => {
            let letters = text.iter().take_while(|byte| byte.is_ascii_alphanumeric());
            (letters.count(), true)
        }
        _ => (1, true),
    }
}

/// The place after a piece of text.
fn after(place: Place, piece: &[u8]) -> Place {
    let mut place = place;
    for byte in piece {
        if *byte == b'\n' {
            place.line = place.line.saturating_add(1);
            place.column = 1;
        } else {
            place.column = place.column.saturating_add(1);
        }
    }
    place
}

/// The tokens of a text, in order, without comments.
pub fn tokens(alloc: Global, text: &[u8]) -> Result<Vec<Token<'_>>, AllocError> {
    let mut found = Vec::new(alloc);
    let mut rest = text;
    let mut place = Place { line: 1, column: 1 };
    for _ in 0..text.len() {
        let (length, is_token) = first_piece(rest);
        let Some((piece, others)) = rest.split_at_checked(length) else {
            break;
        };
        if is_token {
            found.push(Token {
                bytes: piece,
                place,
            })?;
        }
        place = after(place, piece);
        rest = others;
    }
    Ok(found)
}
