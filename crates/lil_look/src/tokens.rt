//! The first part: the tokens of a text.

use crate::page::{Page, shown};
use lil_base::{Memory, Place};
use lil_text::{Token, TokenKind};
use std::alloc::Global;

/// A place as its line and its column.
pub(crate) fn place_text(alloc: Global, at: Place) -> Result<String, Memory> {
    let line = at.line;
    let column = at.column;
    Ok(format!(in alloc; "{line}:{column}")?)
}

fn token_text(alloc: Global, what: &TokenKind) -> Result<String, Memory> {
    let text = match what {
        TokenKind::Word(word) => format!(in alloc; "Word {word:?}")?,
        TokenKind::Ident(name) => {
            let name = shown(alloc, name.as_slice())?;
            format!(in alloc; "Ident {name}")?
        }
        TokenKind::Number(value) => format!(in alloc; "Number {value}")?,
        TokenKind::CharCode(code) => format!(in alloc; "CharCode {code}")?,
        TokenKind::Chars(text) => {
            let text = shown(alloc, text.as_slice())?;
            format!(in alloc; "Chars \"{text}\"")?
        }
        TokenKind::Mark(mark) => format!(in alloc; "Mark {mark:?}")?,
        TokenKind::Finish => String::from_str(alloc, "Finish")?,
    };
    Ok(text)
}

/// Shows the tokens of a text, with their numbers from 0 and their places.
pub(crate) fn show_tokens(page: &mut Page, tokens: &[Token]) -> Result<(), Memory> {
    let alloc = page.alloc();
    let count = tokens.len();
    page.line(format!(in alloc; "1. The tokens: {count}")?.as_str())?;
    page.line("")?;
    page.line("number     place  token")?;
    for (number, token) in tokens.iter().enumerate() {
        let place = place_text(alloc, token.place)?;
        let what = token_text(alloc, &token.what)?;
        page.line(format!(in alloc; "{number:>6} {place:>9}  {what}")?.as_str())?;
    }
    Ok(())
}
