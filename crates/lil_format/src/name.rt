ghost use Rattle.std.specs.Prelude.{◌≡◌, ◌++◌, OnOk};
ghost use Rattle.lil_format.specs.Reading.{Reads, number_in, such, u1};
ghost use Rattle.lil_format.specs.Format.{reads, spelling};
ghost use Rattle.lil_format.specs.Names as spec;

use crate::fields::any_long;
use crate::source::{Source, same};
use crate::stop::Stop;
use lil_base::{Bytes, Key, Memory, Name, put32};
use std::alloc::Global;

/// A module, with the key of its definition by which another was compiled.
#[derive(Drop)]
pub struct Wanted {
    pub name: Name,
    pub key: Key,
}

/// The length of a name, which its bytes follow.
pub fn name_length(source: &mut Source<'_>) -> Result<u8, Stop>
    ensures { Reads (number_in u1 (such spec.name_long) source.old) result source.new }
{
    let here = source.left();
    match source.byte() {
        None => Err(Stop::Left(0)),
        Some(n) if 1 <= n && n <= 64 => Ok(n),
        Some(_) => Err(Stop::Left(here)),
    }
}

/// A name.
#[tactic(auto, unfolding(crate::specs::Names::name, crate::specs::Format::reads))]
pub fn read_name(alloc: Global, source: &mut Source<'_>) -> Result<Name, Stop>
    ensures { Reads (reads spec.name source.old) result source.new }
{
    let size = name_length(source)?;
    let here = source.left();
    match source.run(usize::from(size)) {
        None => Err(Stop::Left(0)),
        Some(run) => match Name::of_slice(alloc, run)? {
            None => Err(Stop::Left(here)),
            Some(name) => Ok(name),
        },
    }
}

/// Whether these bytes are one of the names.
pub fn is_among(names: &[Name], bytes: &[u8]) -> bool
    ensures { result ≡ spec.is_among names.now bytes.now }
{
    names.iter().any(|name| same(bytes, name.as_slice()))
}

/// A name that is none of those before it. It is compared with each of them: for short lists.
#[tactic(auto, unfolding(crate::specs::Names::name_but, crate::specs::Format::reads))]
pub fn read_name_but(alloc: Global, source: &mut Source<'_>, seen: &[Name]) -> Result<Name, Stop>
    ensures { Reads (reads (spec.name_but seen.now) source.old) result source.new }
{
    let size = name_length(source)?;
    let here = source.left();
    match source.run(usize::from(size)) {
        None => Err(Stop::Left(0)),
        Some(run) if is_among(seen, run) => Err(Stop::Left(here)),
        Some(run) => match Name::of_slice(alloc, run)? {
            None => Err(Stop::Left(here)),
            Some(name) => Ok(name),
        },
    }
}

/// A wanted.
#[tactic(auto, unfolding(crate::specs::Names::wanted, crate::specs::Format::reads))]
pub fn read_wanted(alloc: Global, source: &mut Source<'_>) -> Result<Wanted, Stop>
    ensures { Reads (reads spec.wanted source.old) result source.new }
{
    let name = read_name(alloc, source)?;
    let key = Key(any_long(source)?);
    Ok(Wanted { name, key })
}

/// Appends a name's spelling.
#[tactic(auto, using(crate::specs::Names::name_short), unfolding(crate::specs::Names::name, crate::specs::Format::spelling))]
pub fn put_name(out: &mut Bytes, name: &Name) -> Result<(), Memory>
    ensures { OnOk result (out.new ≡ out.old ++ spelling spec.name name.now) }
{
    let text = name.as_slice();
    out.push(text.len() as u8)?;
    out.extend(text)
}

/// Appends a wanted's spelling.
#[tactic(auto, unfolding(crate::specs::Names::wanted, crate::specs::Format::spelling))]
pub fn put_wanted(out: &mut Bytes, wanted: &Wanted) -> Result<(), Memory>
    ensures { OnOk result (out.new ≡ out.old ++ spelling spec.wanted wanted.now) }
{
    put_name(out, &wanted.name)?;
    put32(out, wanted.key.0)
}
