//! Lines of a text as a terminal shows them, and sentences in lines.

use crate::report::Place;
use std::alloc::{AllocError, Global};

/// The most characters of a line that are shown.
const WIDTH: usize = 68;

/// The most characters of a line of sentences.
const SENTENCE_WIDTH: usize = 76;

/// One character for each place of a terminal: a blank for a tab, and ? for what can't be shown.
pub fn visible(alloc: Global, bytes: &[u8]) -> Result<String, AllocError> {
    let mut shown = String::new(alloc);
    for chunk in bytes.utf8_chunks() {
        for character in chunk.valid().chars() {
            match character {
                '\t' => shown.push(' ')?,
                _ if character.is_control() => shown.push('?')?,
                _ => shown.push(character)?,
            }
        }
        for _ in chunk.invalid() {
            shown.push('?')?;
        }
    }
    Ok(shown)
}

/// The bytes of a line, from 1, without its end; none where the text has no such line.
fn line_of(text: &[u8], line: usize) -> &[u8] {
    let found = text
        .split(|byte| *byte == b'\n')
        .nth(line.saturating_sub(1));
    let bytes = found.unwrap_or(&[]);
    bytes.strip_suffix(b"\r").unwrap_or(bytes)
}

/// Puts a line of a text with its number, without its first `skipped` characters.
fn put_line(
    alloc: Global,
    page: &mut String,
    text: &[u8],
    line: usize,
    skipped: usize,
) -> Result<(), AllocError> {
    let shown = visible(alloc, line_of(text, line))?;
    page.push_str(format!(in alloc; "{line:>6} | ")?.as_str())?;
    for character in shown.chars().skip(skipped).take(WIDTH) {
        page.push(character)?;
    }
    page.push('\n')
}

/// Puts the line of a place with a mark under the place, and before it another line, where one is told. Of a long line
/// what is around the place is shown.
pub fn put_place(
    alloc: Global,
    page: &mut String,
    text: &[u8],
    place: Place,
    before: Option<usize>,
) -> Result<(), AllocError> {
    let bytes = line_of(text, place.line);
    let lead = bytes.get(..place.column.saturating_sub(1)).unwrap_or(bytes);
    let column = visible(alloc, lead)?.chars().count();
    let skipped = if column < WIDTH {
        0
    } else {
        column.saturating_sub(WIDTH / 2)
    };
    if let Some(line) = before {
        put_line(alloc, page, text, line, 0)?;
    }
    put_line(alloc, page, text, place.line, skipped)?;
    page.push_str("       | ")?;
    for _ in skipped..column {
        page.push(' ')?;
    }
    page.push_str("^\n")
}

/// Puts sentences, in lines of at most 76 characters where their words allow it.
pub fn put_sentences(page: &mut String, sentences: &str) -> Result<(), AllocError> {
    let mut column = 0usize;
    for word in sentences.split(' ') {
        let length = word.chars().count();
        if column > 0 && column.saturating_add(length) < SENTENCE_WIDTH {
            page.push(' ')?;
            column = column.saturating_add(1);
        } else {
            page.push_str(if column > 0 { "\n  " } else { "  " })?;
            column = 2;
        }
        page.push_str(word)?;
        column = column.saturating_add(length);
    }
    page.push('\n')
}
