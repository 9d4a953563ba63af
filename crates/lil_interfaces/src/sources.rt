//! Where imported names come from.

ghost use Rattle.std.specs.Prelude.{◌≡◌, [], IfOk};
ghost use Rattle.lil_interfaces.specs.Sources as spec;

use indexmap::IndexMap;
use lil_base::{Memory, Name};
use std::alloc::Global;
use std::marker::Model;

/// Where an imported name comes from: it is that of a module, or stands in a module's block.
#[derive(Clone, Copy)]
pub enum Source {
    Itself,
    Block(usize),
}

/// The names that are imported, in their order, each with where it comes from first.
#[derive(Drop)]
pub struct Sources {
    names: IndexMap<Vec<u8>, Source>,
}

impl Model for Sources {
    ghost use Rattle.std.specs.Prelude.{List, ℕ, map};
    ghost use Rattle.lil_interfaces.specs.declared.sources.Source.{Source};

    ghost Value = { List (List ℕ × Source) };

    ghost view = { λ s. map (λ p. (p.0.items, p.1)) s.names.entries };
}

impl Sources {
    pub fn new(alloc: Global) -> Sources
        ensures { result ≡ [] }
    {
        Sources {
            names: IndexMap::new(alloc),
        }
    }

    pub(crate) fn find(&self, name: &Name) -> Option<Source>
        ensures { result ≡ spec.source_of self.now name.now }
    {
        self.names.get(name.as_slice()).copied()
    }

    /// A name more, unless it is there.
    pub(crate) fn add(&mut self, alloc: Global, name: &Name, source: Source) -> Result<(), Memory>
        ensures { IfOk result (λ u. self.new ≡ spec.and_source self.old name.now source) }
    {
        match self.find(name) {
            Some(_) => Ok(()),
            None => {
                let key = Vec::from_slice(alloc, name.as_slice())?;
                self.names.insert(key, source)?;
                Ok(())
            }
        }
    }
}
