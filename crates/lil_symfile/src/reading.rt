ghost use Rattle.std.specs.Prelude.{◌≡◌, ◌∷◌, ◌++◌, [], IfOk, Ok};
ghost use Rattle.lil_format.specs.Reading.{Reads, ReadsFile, whole, number_in, such, u4};
ghost use Rattle.lil_format.specs.Format.{reads, IsFile};
ghost use Rattle.lil_symfile.specs.declared.tree.SymbolFile.{SymbolFile as FileValue};
ghost use Rattle.lil_symfile.specs.Symbol as spec;

use crate::names::names;
use crate::seen::{Seen, new_name};
use crate::tree::SymbolFile;
use crate::types::types;
use lil_base::{Bytes, FormatStop, Items, Key};
use lil_format::{Source, Stop, Wanted, any_byte, read_name, same, to_end};
use std::alloc::Global;

/// Whether a module is resident.
pub fn is_resident(name: &[u8]) -> bool
    ensures { result ≡ spec.is_resident name.now }
{
    same(b"Terminal", name)
        || same(b"InOut", name)
        || same(b"FileSystem", name)
        || same(b"Storage", name)
        || same(b"Program", name)
        || same(b"Channels", name)
        || same(b"SYSTEM", name)
}

fn rest_key(source: &mut Source<'_>, name: &[u8]) -> Result<u32, Stop>
    ensures { Reads (number_in u4 (such (spec.key_fits name.now)) source.old) result source.new }
{
    let here = source.left();
    match source.long() {
        None => Err(Stop::Left(0)),
        Some(n) if !is_resident(name) || n == 0 => Ok(n),
        Some(_) => Err(Stop::Left(here)),
    }
}

#[tactic(auto, unfolding(crate::specs::Symbol::rest, lil_format::specs::Format::reads))]
fn rest(alloc: Global, source: &mut Source<'_>, seen: &mut Seen) -> Result<Wanted, Stop>
    ensures read { Reads (reads (spec.rest seen.old) source.old) result source.new }
    ensures seen { IfOk result (λ w. seen.new ≡ seen.old ++ w.name ∷ []) }
{
    let name = new_name(alloc, source, seen)?;
    let key = rest_key(source, name.as_slice())?;
    Ok(Wanted {
        name,
        key: Key(key),
    })
}

#[tactic(auto, using(lil_format::specs::Turns::turns), unfolding(crate::specs::Symbol::rests, lil_format::specs::Format::reads))]
fn rests(alloc: Global, source: &mut Source<'_>) -> Result<Items<Wanted>, Stop>
    ensures { Reads (reads spec.rests source.old) result source.new }
{
    let count = any_byte(source)?;
    let mut seen = Seen::new(alloc);
    let mut all = Items::new(alloc);
    for _turn in 0..count {
        let next = rest(alloc, source, &mut seen)?;
        all.push(next)?;
    }
    Ok(all)
}

/// The file's own key, from 1.
fn key(source: &mut Source<'_>) -> Result<u32, Stop>
    ensures { Reads (number_in u4 (such spec.at_least_one) source.old) result source.new }
{
    let here = source.left();
    match source.long() {
        None => Err(Stop::Left(0)),
        Some(n) if 1 <= n => Ok(n),
        Some(_) => Err(Stop::Left(here)),
    }
}

#[tactic(auto, unfolding(crate::specs::Symbol::symbol_file, lil_format::specs::Format::reads))]
fn symbol_file(alloc: Global, source: &mut Source<'_>) -> Result<SymbolFile, Stop>
    ensures { Reads (reads spec.symbol_file source.old) result source.new }
{
    source.letters(b"LSYM")?;
    source.letters(&[1])?;
    let name = read_name(alloc, source)?;
    let key = key(source)?;
    let rests = rests(alloc, source)?;
    let mut kinds = Items::new(alloc);
    let types = types(alloc, source, rests.len(), &mut kinds)?;
    let names = names(alloc, source, kinds.as_slice())?;
    Ok(SymbolFile {
        name,
        key: Key(key),
        rests,
        types,
        names,
    })
}

fn file(alloc: Global, bytes: &[u8]) -> Result<SymbolFile, FormatStop>
    ensures { ReadsFile (whole bytes.now (reads spec.symbol_file bytes.now)) result }
{
    let mut source = Source::new(bytes);
    let read = symbol_file(alloc, &mut source);
    to_end(bytes.len(), &source, read)
}

fn read_slice(alloc: Global, bytes: &[u8]) -> Result<SymbolFile, FormatStop>
    ensures found { IfOk result (λ f. IsFile spec.symbol_file bytes.now f) }
    ensures only { (f : FileValue) → IsFile spec.symbol_file bytes.now f → ReadsFile (Ok f) result }
    ensures exact { ReadsFile (whole bytes.now (reads spec.symbol_file bytes.now)) result }
{
    file(alloc, bytes)
}

/// What the symbol file of these bytes says. A fault has the first offset at which no file continues.
pub fn read_sym(alloc: Global, bytes: &Bytes) -> Result<SymbolFile, FormatStop>
    // What is read is spelled so.
    ensures found { IfOk result (λ f. IsFile spec.symbol_file bytes.now f) }
    // What is spelled so is read, unless memory runs out.
    ensures only { (f : FileValue) → IsFile spec.symbol_file bytes.now f → ReadsFile (Ok f) result }
    // Which offset its fault has.
    ensures exact { ReadsFile (whole bytes.now (reads spec.symbol_file bytes.now)) result }
{
    read_slice(alloc, bytes.as_slice())
}
