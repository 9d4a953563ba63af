ghost use Rattle.std.specs.Prelude.{◌≡◌, ◌++◌, ◌∷◌, ◌<◌, length, OnOk};
ghost use Rattle.lil_base.specs.Fields.{bytes16, bytes32};
ghost use Rattle.lil_format.specs.Reading.{Reads, number_in, run_in, such, u1, u2, u4};
ghost use Rattle.lil_format.specs.Format.{any, any_text};

use crate::source::Source;
use crate::stop::Stop;
use lil_base::{Bytes, Memory, Text, put16, put32};
use std::alloc::Global;

/// Any number of one byte.
pub fn any_byte(source: &mut Source<'_>) -> Result<u8, Stop>
    ensures { Reads (number_in u1 (such any) source.old) result source.new }
{
    match source.byte() {
        None => Err(Stop::Left(0)),
        Some(n) => Ok(n),
    }
}

/// Any number of two bytes.
pub fn any_word(source: &mut Source<'_>) -> Result<u16, Stop>
    ensures { Reads (number_in u2 (such any) source.old) result source.new }
{
    match source.word() {
        None => Err(Stop::Left(0)),
        Some(n) => Ok(n),
    }
}

/// Any number of four bytes.
pub fn any_long(source: &mut Source<'_>) -> Result<u32, Stop>
    ensures { Reads (number_in u4 (such any) source.old) result source.new }
{
    match source.long() {
        None => Err(Stop::Left(0)),
        Some(n) => Ok(n),
    }
}

/// Any bytes, so many.
pub fn any_run(alloc: Global, source: &mut Source<'_>, size: usize) -> Result<Text, Stop>
    ensures { Reads (run_in size any_text source.old) result source.new }
{
    match source.run(size) {
        None => Err(Stop::Left(0)),
        Some(run) => Ok(Text::from_slice(alloc, run)?),
    }
}

/// Appends a length of one byte and so many bytes.
pub fn put_text8(out: &mut Bytes, text: &[u8]) -> Result<(), Memory>
    requires { length text.now < 256 }
    ensures { OnOk result (out.new ≡ out.old ++ length text.now ∷ text.now) }
{
    out.push(text.len() as u8)?;
    out.extend(text)
}

/// Appends a length of two bytes and so many bytes.
pub fn put_text16(out: &mut Bytes, text: &[u8]) -> Result<(), Memory>
    requires { length text.now < 65536 }
    ensures { OnOk result (out.new ≡ out.old ++ (bytes16 (length text.now) ++ text.now)) }
{
    put16(out, text.len() as u16)?;
    out.extend(text)
}

/// Appends a length of four bytes and so many bytes.
pub fn put_text32(out: &mut Bytes, text: &[u8]) -> Result<(), Memory>
    requires { length text.now < 4294967296 }
    ensures { OnOk result (out.new ≡ out.old ++ (bytes32 (length text.now) ++ text.now)) }
{
    put32(out, text.len() as u32)?;
    out.extend(text)
}
