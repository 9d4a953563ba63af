ghost use Rattle.std.specs.Prelude.{◌≡◌};
ghost use Rattle.lil_format.specs.Reading.{Reads, number_in, such, u1, u2, u4};
ghost use Rattle.lil_format.specs.Format.{reads};
ghost use Rattle.lil_object.specs.Object as spec;

use crate::object::{Contents, DataString, Head, ProcedureEntry};
use lil_base::{Bytes, Items, Name, Text};
use lil_format::{Source, Stop, any_run, any_word, read_name};
use std::alloc::Global;

// ---- procedures

/// The byte that the body has in place of a name.
#[tactic(auto, unfolding(crate::specs::Object::no_name, lil_format::specs::Format::reads))]
fn no_name(source: &mut Source<'_>) -> Result<Option<Name>, Stop>
    ensures { Reads (reads spec.no_name source.old) result source.new }
{
    source.letters(&[0])?;
    Ok(None)
}

#[tactic(auto, unfolding(crate::specs::Object::some_name, lil_format::specs::Format::reads))]
fn some_name(alloc: Global, source: &mut Source<'_>) -> Result<Option<Name>, Stop>
    ensures { Reads (reads spec.some_name source.old) result source.new }
{
    let name = read_name(alloc, source)?;
    Ok(Some(name))
}

/// The name of a procedure behind these.
fn procedure_name(
    alloc: Global,
    source: &mut Source<'_>,
    so_far: &[ProcedureEntry],
) -> Result<Option<Name>, Stop>
    ensures { Reads (reads (spec.procedure_name so_far.now) source.old) result source.new }
{
    match so_far {
        [] => no_name(source),
        _ => some_name(alloc, source),
    }
}

#[tactic(auto, unfolding(crate::specs::Object::procedure, lil_format::specs::Format::reads))]
fn procedure(
    alloc: Global,
    source: &mut Source<'_>,
    so_far: &[ProcedureEntry],
) -> Result<ProcedureEntry, Stop>
    ensures { Reads (reads (spec.procedure so_far.now) source.old) result source.new }
{
    let entry = any_word(source)?;
    let name = procedure_name(alloc, source, so_far)?;
    Ok(ProcedureEntry { entry, name })
}

fn procedure_count(source: &mut Source<'_>) -> Result<u8, Stop>
    ensures { Reads (number_in u1 (such spec.some_procedures) source.old) result source.new }
{
    let here = source.left();
    match source.byte() {
        None => Err(Stop::Left(0)),
        Some(n) if 1 <= n && n <= 251 => Ok(n),
        Some(_) => Err(Stop::Left(here)),
    }
}

#[tactic(auto, using(lil_format::specs::Turns::turns), unfolding(crate::specs::Object::procedures, lil_format::specs::Format::reads))]
fn procedures(alloc: Global, source: &mut Source<'_>) -> Result<Items<ProcedureEntry>, Stop>
    ensures { Reads (reads spec.procedures source.old) result source.new }
{
    let count = procedure_count(source)?;
    let mut all = Items::new(alloc);
    for _turn in 0..count {
        let next = procedure(alloc, source, all.as_slice())?;
        all.push(next)?;
    }
    Ok(all)
}

// ---- code

fn above_entries(procedures: &[ProcedureEntry], size: u16) -> bool
    ensures { result ≡ spec.above_entries procedures.now size }
{
    procedures.iter().all(|p| p.entry < size)
}

fn code_length(source: &mut Source<'_>, procedures: &[ProcedureEntry]) -> Result<u16, Stop>
    ensures { Reads (number_in u2 (such (spec.code_long procedures.now)) source.old) result source.new }
{
    let here = source.left();
    match source.word() {
        None => Err(Stop::Left(0)),
        Some(n) if 1 <= n && n <= 32_767 && above_entries(procedures, n) => Ok(n),
        Some(_) => Err(Stop::Left(here)),
    }
}

#[tactic(auto, unfolding(crate::specs::Object::code, lil_format::specs::Format::reads))]
fn code(
    alloc: Global,
    source: &mut Source<'_>,
    procedures: &[ProcedureEntry],
) -> Result<Bytes, Stop>
    ensures { Reads (reads (spec.code procedures.now) source.old) result source.new }
{
    let size = code_length(source, procedures)?;
    any_run(alloc, source, usize::from(size))
}

// ---- fixups

fn last_of(places: &[u16]) -> Option<u16>
    ensures { result ≡ spec.last_of places.now }
{
    places.last().copied()
}

fn is_above(before: Option<u16>, place: u16) -> bool
    ensures { result ≡ spec.is_above before place }
{
    match before {
        None => true,
        Some(before) => before < place,
    }
}

fn names_module(imported: usize, byte: Option<u8>) -> bool
    ensures { result ≡ spec.names_module imported byte }
{
    match byte {
        None => false,
        Some(b) => usize::from(b) <= imported,
    }
}

fn fixup_fits(imported: usize, code: &[u8], so_far: &[u16], place: u16) -> bool
    ensures { result ≡ spec.fixup_fits imported code.now so_far.now place }
{
    is_above(last_of(so_far), place)
        && names_module(imported, code.get(usize::from(place)).copied())
}

/// A fixup behind these.
fn fixup(source: &mut Source<'_>, imported: usize, code: &[u8], so_far: &[u16]) -> Result<u16, Stop>
    ensures { Reads (number_in u2 (such (spec.fixup_fits imported code.now so_far.now)) source.old) result source.new }
{
    let here = source.left();
    match source.word() {
        None => Err(Stop::Left(0)),
        Some(n) if fixup_fits(imported, code, so_far, n) => Ok(n),
        Some(_) => Err(Stop::Left(here)),
    }
}

#[tactic(auto, using(lil_format::specs::Turns::turns), unfolding(crate::specs::Object::fixups, lil_format::specs::Format::reads))]
fn fixups(
    alloc: Global,
    source: &mut Source<'_>,
    imported: usize,
    code: &[u8],
) -> Result<Items<u16>, Stop>
    ensures { Reads (reads (spec.fixups imported code.now) source.old) result source.new }
{
    let count = any_word(source)?;
    let mut all = Items::new(alloc);
    for _turn in 0..count {
        let next = fixup(source, imported, code, all.as_slice())?;
        all.push(next)?;
    }
    Ok(all)
}

// ---- strings

/// The length of a string that begins at this word of a data frame of so many.
fn string_length(source: &mut Source<'_>, words: u16, offset: u16) -> Result<u16, Stop>
    ensures { Reads (number_in u2 (such (spec.string_long words offset)) source.old) result source.new }
{
    let here = source.left();
    match source.word() {
        None => Err(Stop::Left(0)),
        Some(n) if u32::from(offset) + u32::from(n.max(1)) <= u32::from(words) => Ok(n),
        Some(_) => Err(Stop::Left(here)),
    }
}

#[tactic(auto, unfolding(crate::specs::Object::string, lil_format::specs::Format::reads))]
fn string(alloc: Global, source: &mut Source<'_>, words: u16) -> Result<DataString, Stop>
    ensures { Reads (reads (spec.string words) source.old) result source.new }
{
    let offset = any_word(source)?;
    let size = string_length(source, words, offset)?;
    let text = any_run(alloc, source, usize::from(size))?;
    Ok(DataString { offset, text })
}

#[tactic(auto, using(lil_format::specs::Turns::turns), unfolding(crate::specs::Object::strings, lil_format::specs::Format::reads))]
fn strings(alloc: Global, source: &mut Source<'_>, words: u16) -> Result<Items<DataString>, Stop>
    ensures { Reads (reads (spec.strings words) source.old) result source.new }
{
    let count = any_word(source)?;
    let mut all = Items::new(alloc);
    for _turn in 0..count {
        let next = string(alloc, source, words)?;
        all.push(next)?;
    }
    Ok(all)
}

// ---- the source text

fn text_length(source: &mut Source<'_>) -> Result<u32, Stop>
    ensures { Reads (number_in u4 (such spec.text_long) source.old) result source.new }
{
    let here = source.left();
    match source.long() {
        None => Err(Stop::Left(0)),
        Some(n) if n <= 262_144 => Ok(n),
        Some(_) => Err(Stop::Left(here)),
    }
}

#[tactic(auto, unfolding(crate::specs::Object::source_text, lil_format::specs::Format::reads))]
fn source_text(alloc: Global, source: &mut Source<'_>) -> Result<Text, Stop>
    ensures { Reads (reads spec.source_text source.old) result source.new }
{
    let size = text_length(source)?;
    any_run(alloc, source, size as usize)
}

/// What an object has behind this head.
#[tactic(auto, unfolding(crate::specs::Object::contents, lil_format::specs::Format::reads))]
pub fn contents(alloc: Global, source: &mut Source<'_>, head: &Head) -> Result<Contents, Stop>
    ensures { Reads (reads (spec.contents head.now) source.old) result source.new }
{
    let procedures = procedures(alloc, source)?;
    let code = code(alloc, source, procedures.as_slice())?;
    let fixups = fixups(alloc, source, head.imports.len(), code.as_slice())?;
    let strings = strings(alloc, source, head.data_words)?;
    let text = source_text(alloc, source)?;
    Ok(Contents {
        procedures,
        code,
        fixups,
        strings,
        text,
    })
}
