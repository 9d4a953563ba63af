//! Pages of plain text.

ghost use Rattle.std.specs.Prelude.{◌≡◌, ◌++◌, ◌∷◌, [], ◌≤◌, length, take, OnOk};

use lil_base::{Bytes, Memory};
use std::alloc::Global;

/// The columns of a page.
const WIDTH: usize = 99;

/// Lines of plain text, each with its end.
#[derive(Drop)]
pub(crate) struct Page {
    alloc: Global,
    text: Bytes,
}

impl Page {
    /// A page without lines.
    pub(crate) fn new(alloc: Global) -> Page
        ensures { result.text ≡ [] }
    {
        Page {
            alloc,
            text: Bytes::new(alloc),
        }
    }

    /// From where its lines have their memory.
    pub(crate) fn alloc(&self) -> Global {
        self.alloc
    }

    /// The lines.
    pub(crate) fn as_slice(&self) -> &[u8]
        ensures { result.now ≡ self.now.text }
    {
        self.text.as_slice()
    }

    /// One line more, of which the first 99 columns are shown.
    pub(crate) fn line(&mut self, line: &str) -> Result<(), Memory>
        ensures { OnOk result (self.new.text ≡ self.old.text ++ take 99 line.now ++ 10 ∷ []) }
    {
        self.text.extend(fitted(line.as_bytes()))?;
        self.text.push(b'\n')
    }

    /// A heading, with a line without text before and after it.
    pub(crate) fn heading(&mut self, line: &str) -> Result<(), Memory> {
        self.line("")?;
        self.line(line)?;
        self.line("")
    }
}

/// As much of a line as a page shows.
#[tactic(auto, using(std::proofs::lemmas::List::take_min))]
fn fitted(line: &[u8]) -> &[u8]
    ensures shown { result.now ≡ take 99 line.now }
    ensures narrow { length result.now ≤ 99 }
{
    &line[..WIDTH.min(line.len())]
}

/// Bytes as text of one line, with a question mark for each that isn't a character of ASCII that is shown.
pub(crate) fn shown(alloc: Global, bytes: &[u8]) -> Result<String, Memory> {
    let mut text = String::new(alloc);
    for byte in bytes {
        let c = char::from(*byte);
        text.push(if c == ' ' || c.is_ascii_graphic() {
            c
        } else {
            '?'
        })?;
    }
    Ok(text)
}
