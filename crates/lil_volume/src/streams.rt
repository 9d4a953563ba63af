ghost use Rattle.std.specs.Prelude.{◌≡◌, None, [], ◌∷◌, Option, IfOk, OnOk, IsTrue, MatchOption};
ghost use Rattle.std.specs.Io.KnownBytes.{Appends, Consumes, IsAtEnd};
ghost use Rattle.lil_volume.specs.Causes.{HasCause};

use crate::schedule::one_more;
use crate::{KeyFailed, Keyboard, Sink, SinkFailed};
use std::io::{ErrorKind, Read, Write};

/// Writes the whole piece and flushes, and tells whether both went well.
pub(crate) fn write_whole<W: Write>(output: &mut W, piece: &[u8]) -> bool
    ensures { IsTrue result → Appends (W.contents output.old) (W.contents output.new) piece.now }
{
    output.write_all(piece).is_ok() && output.flush().is_ok()
}

/// The next byte of a reader, or None at its end.
fn next_byte<R: Read>(input: &mut R) -> Result<Option<u8>, KeyFailed>
    ensures { IfOk result (λ key. MatchOption key (IsAtEnd (R.remaining input.new)) (λ byte. Consumes (R.remaining input.old) (R.remaining input.new) (byte ∷ []))) }
{
    let mut byte = [0u8; 1];
    for _ in 0..u64::MAX {
        match input.read(&mut byte) {
            Ok(0) => return Ok(None),
            Ok(_) => return Ok(Some(byte[0])),
            Err(error) => {
                if error.kind() != ErrorKind::Interrupted {
                    return Err(KeyFailed);
                }
            }
        }
    }
    Err(KeyFailed)
}

/// Keys that are the bytes of a reader of the host. Its end is the end of the keys.
#[derive(Drop)]
pub struct InputKeys<R: Read + Drop> {
    input: R,
    faults: u64,
}

/// The screen: a sink over a writer of the host, which is flushed after each piece.
#[derive(Drop)]
pub struct OutputSink<W: Write + Drop> {
    output: W,
    faults: u64,
}

/// The report is a sink of the same kind.
pub type ErrorSink<W> = OutputSink<W>;

impl<R: Read + Drop> InputKeys<R> {
    /// What the reader still gives, without faults so far.
    pub fn new(input: R) -> InputKeys<R>
        ensures { result.faults ≡ 0 }
    {
        InputKeys { input, faults: 0 }
    }
}

impl<W: Write + Drop> OutputSink<W> {
    /// What is put goes to the writer. There are no faults so far.
    pub fn new(output: W) -> OutputSink<W>
        ensures { result.faults ≡ 0 }
    {
        OutputSink { output, faults: 0 }
    }
}

impl<R: Read + Drop> Keyboard for InputKeys<R> {
    ghost left = { λ _. None };

    ghost faults = { λ k. k.faults };

    fn key(&mut self) -> Result<Option<u8>, KeyFailed>
        ensures cause { HasCause self.old.faults self.new.faults result }
        ensures bytes { IfOk result (λ key. MatchOption key (IsAtEnd (R.remaining self.new.input)) (λ byte. Consumes (R.remaining self.old.input) (R.remaining self.new.input) (byte ∷ []))) }
    {
        match next_byte(&mut self.input) {
            Ok(key) => Ok(key),
            Err(KeyFailed) => {
                self.faults = one_more(self.faults);
                Err(KeyFailed)
            }
        }
    }
}

impl<W: Write + Drop> Sink for OutputSink<W> {
    ghost written = { λ _. None };

    ghost faults = { λ s. s.faults };

    fn put(&mut self, piece: &[u8]) -> Result<(), SinkFailed>
        ensures cause { HasCause self.old.faults self.new.faults result }
        ensures bytes { OnOk result (Appends (W.contents self.old.output) (W.contents self.new.output) piece.now) }
    {
        if write_whole(&mut self.output, piece) {
            return Ok(());
        }
        self.faults = one_more(self.faults);
        Err(SinkFailed)
    }
}
