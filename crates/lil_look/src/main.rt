//! A look inside: the tokens of a text, the module that it means, and its code beside its lines.
#![tactic(auto)]

mod instructions;
mod listing;
mod names;
mod page;
mod source;
mod tokens;
mod walk;

use crate::listing::listing;
use lil_base::{Bytes, Memory, Name, Text};
use lil_session::{
    ErrorSink, FolderVolume, Options, OutputSink, Rack, RamKeys, RamSink, Sink, Volume, once,
};
use std::alloc::Global;
use std::env::{Env, FillError};
use std::process::ExitCode;

/// The one word after the program's name; none where there is another number of them, or one of more bytes than the
/// name of a file has.
fn only_word<R: Env>(rt: &R, alloc: Global) -> Result<Option<Text>, Memory> {
    let mut bytes = [0u8; 80];
    let mut more = [0u8; 1];
    match (rt.arg(1, &mut bytes), rt.arg(2, &mut more)) {
        (Ok(length), Err(FillError::NotPresent)) => {
            Ok(Some(Text::from_slice(alloc, &bytes[..length])?))
        }
        _ => Ok(None),
    }
}

/// The name of a word that is a name and `.MOD`.
fn named(alloc: Global, word: &[u8]) -> Result<Option<Name>, Memory> {
    match word {
        [name @ .., b'.', b'M', b'O', b'D'] => Name::of_slice(alloc, name),
        _ => Ok(None),
    }
}

/// Reports what `once` reports of a file whose program it doesn't run.
fn refuse<V: Volume, R: Sink>(
    alloc: Global,
    word: &Text,
    volume: &mut V,
    report: &mut R,
) -> Result<(), Memory> {
    let mut keys = RamKeys::new(alloc, Bytes::new(alloc), Vec::new(alloc))?;
    let mut screen = RamSink::new(alloc, Bytes::new(alloc), Vec::new(alloc))?;
    let mut rack: Rack = Rack::new(alloc);
    let options = Options {
        steps: 0,
        count: false,
        screen: false,
    };
    let _ = once(
        alloc,
        word,
        options,
        volume,
        &mut keys,
        &mut screen,
        report,
        &mut rack,
    );
    Ok(())
}

/// Shows the text of a file on the screen, or reports why it can't be shown. It answers whether it was shown.
fn look<V: Volume, S: Sink, R: Sink>(
    alloc: Global,
    word: Option<&Text>,
    volume: &mut V,
    screen: &mut S,
    report: &mut R,
) -> Result<bool, Memory> {
    let usage = b"usage: lilith-look X.MOD\n";
    let Some(word) = word else {
        let _ = report.put(usage);
        return Ok(false);
    };
    let Some(name) = named(alloc, word.as_slice())? else {
        let _ = report.put(usage);
        return Ok(false);
    };
    match listing(alloc, &name, volume)? {
        Some(page) => Ok(screen.put(page.as_slice()).is_ok()),
        None => {
            refuse(alloc, word, volume, report)?;
            Ok(false)
        }
    }
}

fn main(rt: HostRuntime) -> ExitCode {
    let alloc = rt.alloc();
    let mut report = ErrorSink::new(rt.stderr());
    let mut screen = OutputSink::new(rt.stdout());
    let word = only_word(&rt, alloc);
    let mut volume = FolderVolume::new(rt);
    let shown = match word {
        Ok(word) => look(alloc, word.as_ref(), &mut volume, &mut screen, &mut report),
        Err(Memory) => Err(Memory),
    };
    match shown {
        Ok(true) => ExitCode::SUCCESS,
        Ok(false) => ExitCode::from(1),
        Err(Memory) => {
            let _ = report.put(b"memory\n");
            ExitCode::from(1)
        }
    }
}
