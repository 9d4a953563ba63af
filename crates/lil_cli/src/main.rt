//! The program: the top call over the current folder, the keyboard, the screen and standard error.
#![tactic(auto)]

ghost use Rattle.std.specs.Prelude.{◌≡◌, []};
ghost use Rattle.lil_session.specs.Report.{status_lines};

use lil_base::{Memory, Text};
use lil_session::{ErrorSink, FolderVolume, InputKeys, OutputSink, Rack, Sink, Status, lilith};
use std::alloc::Global;
use std::env::{Env, FillError};
use std::fs::File;
use std::os::fd::{AsRawFd, IntoRawFd};
use std::process::ExitCode;
use std::rt::Files;

/// Opens those of the descriptors 0 to 2 that are closed to nothing, for reading alone: there are no keys, and what is
/// put on the screen or the report fails as before. The host gives the lowest free number, so no file gets one of these.
fn open_closed<R: Files<File = File>>(rt: &R) {
    for _ in 0..3 {
        let Ok(nothing) = File::open(rt, "/dev/null") else {
            return;
        };
        if nothing.as_raw_fd() > 2 {
            return;
        }
        // stays open
        let _ = nothing.into_raw_fd();
    }
}

/// The word at place `i` of the command line, or none where there is no more. Its bytes need not be UTF-8.
fn word<R: Env>(rt: &R, alloc: Global, i: usize) -> Result<Option<Text>, Memory> {
    let mut room = 256usize;
    for _ in 0..usize::BITS {
        let mut bytes = Vec::new(alloc);
        bytes.resize(room, 0u8)?;
        match rt.arg(i, bytes.as_mut_slice()) {
            Ok(length) => return Ok(Some(Text::from_slice(alloc, &bytes[..length])?)),
            Err(FillError::NotPresent) => return Ok(None),
            Err(FillError::TooLong) => room = room.saturating_add(room),
        }
    }
    Err(Memory)
}

/// The words after the program's name.
fn words<R: Env + Alloc<A = Global>>(rt: &R) -> Result<Vec<Text>, Memory> {
    let alloc = rt.alloc();
    let mut words = Vec::new(alloc);
    for i in 1..usize::MAX {
        match word(rt, alloc, i)? {
            Some(text) => words.push(text)?,
            None => break,
        }
    }
    Ok(words)
}

/// The line of an answer that comes before there are words for a command.
fn memory_line() -> &'static [u8]
    ensures { result.now ≡ status_lines [] Status.Memory }
{
    b"memory\n"
}

fn main(rt: HostRuntime) -> ExitCode {
    open_closed(&rt);
    let alloc = rt.alloc();
    let mut report = ErrorSink::new(rt.stderr());
    let Ok(words) = words(&rt) else {
        // as the top call does, the answer stays whatever becomes of its line
        let _ = report.put(memory_line());
        return ExitCode::from(Status::Memory.code());
    };
    let mut keys = InputKeys::new(rt.reader());
    let mut screen = OutputSink::new(rt.stdout());
    let mut rack: Rack = Rack::new(alloc);
    let mut volume = FolderVolume::new(rt);
    let status = lilith(
        alloc,
        &words,
        &mut volume,
        &mut keys,
        &mut screen,
        &mut report,
        &mut rack,
    );
    ExitCode::from(status.code())
}
