//! What is shown after the line of a report.

use crate::hints::{Around, Lead, hint};
use crate::report::Fault;
use crate::sentences::of_fault;
use crate::shown::{put_place, put_sentences, visible};
use crate::tokens::tokens;
use std::alloc::{AllocError, Global};

/// Sentences with what stands before it.
fn with_lead(alloc: Global, lead: Lead<'_>, sentences: &str) -> Result<String, AllocError> {
    match lead {
        Lead::Nothing => String::from_str(alloc, sentences),
        Lead::Perhaps(word) => {
            let word = visible(alloc, word)?;
            format!(in alloc; "Perhaps {word} is meant: {sentences}")
        }
        Lead::Line(line) => format!(in alloc; "Line {line}: {sentences}"),
    }
}

/// The place of a fault in its text, and the sentences on it.
pub fn fault_page(alloc: Global, fault: &Fault<'_>, text: &[u8]) -> Result<String, AllocError> {
    let tokens = tokens(alloc, text)?;
    let around = Around::new(tokens.as_slice(), fault.place);
    let mut page = String::new(alloc);
    let before = if fault.number == 10 {
        around.line_before()
    } else {
        None
    };
    put_place(alloc, &mut page, text, fault.place, before)?;
    put_sentences(&mut page, of_fault(fault.number))?;
    if let Some((lead, sentences)) = hint(fault, &around) {
        put_sentences(&mut page, with_lead(alloc, lead, sentences)?.as_str())?;
    }
    Ok(page)
}

/// Sentences alone.
pub fn sentences_page(alloc: Global, sentences: &str) -> Result<String, AllocError> {
    let mut page = String::new(alloc);
    put_sentences(&mut page, sentences)?;
    Ok(page)
}
