ghost use Rattle.std.specs.Prelude.{◌≡◌, [], ◌∷◌, ◌++◌, false, IfOk, OnOk};
ghost use Rattle.lil_format.specs.Reading.{Reads, run_in};
ghost use Rattle.lil_format.specs.Format.{reads};
ghost use Rattle.lil_format.specs.Names as names;

use indexmap::IndexSet;
use lil_base::{Memory, Name};
use lil_format::{Source, Stop, name_length};
use std::alloc::Global;
use std::marker::Model;

/// The names before, each once, in their order.
#[derive(Drop)]
pub struct Seen {
    names: IndexSet<Vec<u8>>,
}

impl Model for Seen {
    ghost use Rattle.std.specs.Prelude.{List, ℕ};
    ghost use Rattle.lil_symfile.specs.Seen.{names_in};

    ghost Value = { List (List ℕ) };

    ghost view = { λ s. names_in s.names.keys };
}

impl Seen {
    pub fn new(alloc: Global) -> Seen
        ensures { result ≡ [] }
    {
        Seen {
            names: IndexSet::new(alloc),
        }
    }

    pub fn has(&self, name: &[u8]) -> bool
        ensures { result ≡ names.is_among self.now name.now }
    {
        self.names.contains(name)
    }

    /// One name more, which isn't there.
    pub fn add(&mut self, alloc: Global, name: &[u8]) -> Result<(), Memory>
        requires { names.is_among self.old name.now ≡ false }
        ensures { OnOk result (self.new ≡ self.old ++ name.now ∷ []) }
    {
        let key = Vec::from_slice(alloc, name)?;
        self.names.insert(key)?;
        Ok(())
    }
}

/// A name's bytes, where it doesn't stand before.
fn new_run(alloc: Global, source: &mut Source<'_>, size: u8, seen: &mut Seen) -> Result<Name, Stop>
    ensures read { Reads (run_in size (names.is_new seen.old) source.old) result source.new }
    ensures seen { IfOk result (λ n. seen.new ≡ seen.old ++ n ∷ []) }
{
    let here = source.left();
    match source.run(usize::from(size)) {
        None => Err(Stop::Left(0)),
        Some(run) => match Name::of_slice(alloc, run)? {
            None => Err(Stop::Left(here)),
            Some(name) => {
                if seen.has(run) {
                    return Err(Stop::Left(here));
                }
                seen.add(alloc, run)?;
                Ok(name)
            }
        },
    }
}

/// A name that doesn't stand before, and from then on does.
#[tactic(auto, unfolding(lil_format::specs::Names::name_but, lil_format::specs::Format::reads))]
pub fn new_name(alloc: Global, source: &mut Source<'_>, seen: &mut Seen) -> Result<Name, Stop>
    ensures read { Reads (reads (names.name_but seen.old) source.old) result source.new }
    ensures seen { IfOk result (λ n. seen.new ≡ seen.old ++ n ∷ []) }
{
    let size = name_length(source)?;
    new_run(alloc, source, size, seen)
}
