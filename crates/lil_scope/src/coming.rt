ghost use Rattle.std.specs.Prelude.{◌≡◌, [], IfOk};
ghost use Rattle.lil_scope.specs.Names as spec;

use indexmap::IndexSet;
use lil_base::{Memory, Name};
use std::alloc::Global;
use std::marker::Model;

/// The names of the types that a block declares, each once.
#[derive(Drop)]
pub struct Coming {
    names: IndexSet<Vec<u8>>,
}

impl Model for Coming {
    ghost use Rattle.std.specs.Prelude.{List, ℕ, map};

    ghost Value = { List (List ℕ) };

    ghost view = { λ c. map (λ n. n.items) c.names.keys };
}

impl Coming {
    pub fn new(alloc: Global) -> Coming
        ensures { result ≡ [] }
    {
        Coming {
            names: IndexSet::new(alloc),
        }
    }

    pub fn has(&self, name: &Name) -> bool
        ensures { result ≡ spec.is_among self.now name.now }
    {
        self.names.contains(name.as_slice())
    }

    /// One name more.
    pub fn add(&mut self, alloc: Global, name: &Name) -> Result<(), Memory>
        ensures { IfOk result (λ o. self.new ≡ spec.and_name self.old name.now) }
    {
        let key = Vec::from_slice(alloc, name.as_slice())?;
        self.names.insert(key)?;
        Ok(())
    }
}
