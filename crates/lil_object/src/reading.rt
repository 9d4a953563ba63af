ghost use Rattle.std.specs.Prelude.{IfOk, Ok};
ghost use Rattle.lil_format.specs.Reading.{Reads, ReadsFile, whole};
ghost use Rattle.lil_format.specs.Format.{reads, IsFile};
ghost use Rattle.lil_object.specs.declared.object.Object.{Object};
ghost use Rattle.lil_object.specs.Object as spec;

use crate::contents::contents;
use crate::head::head;
use crate::object::Object;
use lil_base::{Bytes, FormatStop};
use lil_format::{Source, Stop, to_end};
use std::alloc::Global;

#[tactic(auto, unfolding(crate::specs::Object::object, lil_format::specs::Format::reads))]
fn object(alloc: Global, source: &mut Source<'_>) -> Result<Object, Stop>
    ensures { Reads (reads spec.object source.old) result source.new }
{
    source.letters(b"LOBJ")?;
    source.letters(&[1])?;
    let head = head(alloc, source)?;
    let contents = contents(alloc, source, &head)?;
    Ok(Object { head, contents })
}

fn object_of(alloc: Global, bytes: &[u8]) -> Result<Object, FormatStop>
    ensures found { IfOk result (λ o. IsFile spec.object bytes.now o) }
    ensures only { (o : Object) → IsFile spec.object bytes.now o → ReadsFile (Ok o) result }
    ensures exact { ReadsFile (whole bytes.now (reads spec.object bytes.now)) result }
{
    let mut source = Source::new(bytes);
    let read = object(alloc, &mut source);
    to_end(bytes.len(), &source, read)
}

/// The object whose file these bytes are. The offset of a fault counts bytes from 0.
pub fn read_object(alloc: Global, bytes: &Bytes) -> Result<Object, FormatStop>
    // The bytes are the spelling of what is read.
    ensures found { IfOk result (λ o. IsFile spec.object bytes.now o) }
    // An object is read from its spelling, unless memory is wanting.
    ensures only { (o : Object) → IsFile spec.object bytes.now o → ReadsFile (Ok o) result }
    // A fault is told at the first byte with which no file goes on.
    ensures exact { ReadsFile (whole bytes.now (reads spec.object bytes.now)) result }
{
    object_of(alloc, bytes.as_slice())
}
