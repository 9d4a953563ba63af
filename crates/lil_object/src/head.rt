ghost use Rattle.std.specs.Prelude.{◌≡◌};
ghost use Rattle.lil_format.specs.Reading.{Reads, number_in, such, u1, u2, u4};
ghost use Rattle.lil_format.specs.Format.{reads};
ghost use Rattle.lil_object.specs.Object as spec;

use crate::object::{Head, ObjectKind};
use lil_base::{Items, Key};
use lil_format::{Source, Stop, Wanted, read_name, read_wanted};
use std::alloc::Global;

#[tactic(auto, unfolding(crate::specs::Object::kind, lil_format::specs::Format::reads))]
fn kind(source: &mut Source<'_>) -> Result<ObjectKind, Stop>
    ensures { Reads (reads spec.kind source.old) result source.new }
{
    let here = source.left();
    match source.byte() {
        None => Err(Stop::Left(0)),
        Some(1) => Ok(ObjectKind::Program),
        Some(2) => Ok(ObjectKind::Implementation),
        Some(_) => Err(Stop::Left(here)),
    }
}

fn key_fits(kind: ObjectKind, key: u32) -> bool
    ensures { result ≡ spec.key_fits kind key }
{
    match kind {
        ObjectKind::Program => key == 0,
        ObjectKind::Implementation => key != 0,
    }
}

fn key(source: &mut Source<'_>, kind: ObjectKind) -> Result<u32, Stop>
    ensures { Reads (number_in u4 (such (spec.key_fits kind)) source.old) result source.new }
{
    let here = source.left();
    match source.long() {
        None => Err(Stop::Left(0)),
        Some(n) if key_fits(kind, n) => Ok(n),
        Some(_) => Err(Stop::Left(here)),
    }
}

fn import_count(source: &mut Source<'_>) -> Result<u8, Stop>
    ensures { Reads (number_in u1 (such spec.few_imports) source.old) result source.new }
{
    let here = source.left();
    match source.byte() {
        None => Err(Stop::Left(0)),
        Some(n) if n <= 60 => Ok(n),
        Some(_) => Err(Stop::Left(here)),
    }
}

#[tactic(auto, using(lil_format::specs::Turns::turns), unfolding(crate::specs::Object::imports, lil_format::specs::Format::reads))]
fn imports(alloc: Global, source: &mut Source<'_>) -> Result<Items<Wanted>, Stop>
    ensures { Reads (reads spec.imports source.old) result source.new }
{
    let count = import_count(source)?;
    let mut all = Items::new(alloc);
    for _turn in 0..count {
        let next = read_wanted(alloc, source)?;
        all.push(next)?;
    }
    Ok(all)
}

fn data_words(source: &mut Source<'_>) -> Result<u16, Stop>
    ensures { Reads (number_in u2 (such spec.few_words) source.old) result source.new }
{
    let here = source.left();
    match source.word() {
        None => Err(Stop::Left(0)),
        Some(n) if n <= 32_000 => Ok(n),
        Some(_) => Err(Stop::Left(here)),
    }
}

/// The head of an object.
#[tactic(auto, unfolding(crate::specs::Object::head, lil_format::specs::Format::reads))]
pub fn head(alloc: Global, source: &mut Source<'_>) -> Result<Head, Stop>
    ensures { Reads (reads spec.head source.old) result source.new }
{
    let kind = kind(source)?;
    let name = read_name(alloc, source)?;
    let key = Key(key(source, kind)?);
    let imports = imports(alloc, source)?;
    let data_words = data_words(source)?;
    Ok(Head {
        kind,
        name,
        key,
        imports,
        data_words,
    })
}
