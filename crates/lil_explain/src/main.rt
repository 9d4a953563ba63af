//! What a terminal shows after the line of a report: the place in the text, and what beginners mean there. The line
//! comes by standard input, the text lies in the current folder, and the explanation goes to standard output.
#![tactic(auto)]

mod hints;
mod names;
mod page;
mod report;
mod sentences;
mod shown;
mod tokens;

use anyhow::Result;
use page::{fault_page, sentences_page};
use report::fault_of;
use sentences::{USAGE, of_fault};
use std::alloc::Global;
use std::fs::File;
use std::io;
use std::io::Read;
use std::rt::Files;

/// More bytes than a text may have.
const MOST_BYTES: u64 = 262_145;

/// The bytes of a file, or as many as a text may have and one more.
fn text_of<R: Files>(rt: &R, alloc: Global, file: &str) -> io::Result<Vec<u8>> {
    let mut bytes = Vec::new(alloc);
    File::open(rt, file)?
        .take(MOST_BYTES)
        .read_to_end(&mut bytes)?;
    Ok(bytes)
}

/// The explanation of a report's line, which is empty where there is none. Without the text only the sentences come.
fn explanation<R: Files>(rt: &R, alloc: Global, line: &str) -> Result<String> {
    if line.starts_with("usage: ") {
        return Ok(sentences_page(alloc, USAGE)?);
    }
    let Some(fault) = fault_of(line) else {
        return Ok(String::new(alloc));
    };
    match text_of(rt, alloc, fault.file) {
        Ok(text) => Ok(fault_page(alloc, &fault, text.as_slice())?),
        Err(_) => Ok(sentences_page(alloc, of_fault(fault.number))?),
    }
}

fn main(rt: HostRuntime) -> Result<()> {
    let alloc = rt.alloc();
    let mut line = String::new(alloc);
    rt.read_line(&mut line)?;
    let text = explanation(&rt, alloc, line.trim_end())?;
    print!(rt; "{text}")?;
    Ok(())
}
