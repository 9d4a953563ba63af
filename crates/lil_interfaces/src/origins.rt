//! Where types belong, and the numbers that they have by it.

ghost use Rattle.std.specs.Prelude.{◌≡◌, [], IfOk};
ghost use Rattle.lil_interfaces.specs.Entering as spec;

use indexmap::IndexSet;
use lil_base::Memory;
use lil_types::{Origin, TypeId};
use std::alloc::Global;
use std::marker::Model;

/// The origins of a table's types, in their order, each once.
#[derive(Drop)]
pub struct Origins {
    set: IndexSet<Origin>,
}

impl Model for Origins {
    ghost use Rattle.std.specs.Prelude.{List};
    ghost use Rattle.lil_types.specs.declared.table.Origin.{Origin};

    ghost Value = { List Origin };

    ghost view = { λ o. o.set.keys };
}

impl Origins {
    pub fn new(alloc: Global) -> Origins
        ensures { result ≡ [] }
    {
        Origins {
            set: IndexSet::new(alloc),
        }
    }

    /// One more, if it isn't there.
    pub(crate) fn add(&mut self, origin: Origin) -> Result<(), Memory>
        ensures { IfOk result (λ o. self.new ≡ spec.and_origin self.old origin) }
    {
        self.set.insert(origin)?;
        Ok(())
    }

    /// The number of the type with this origin. The first has 16.
    pub(crate) fn number_of(&self, origin: Origin) -> TypeId
        ensures { result ≡ spec.number_of self.now origin }
    {
        match self.set.get_index_of(&origin) {
            Some(at) => at.min(4_294_967_279) as TypeId + 16,
            None => 4_294_967_295,
        }
    }
}

/// Enumerations whose constants are bound, by their numbers.
#[derive(Drop)]
pub struct Enumerations {
    set: IndexSet<TypeId>,
}

impl Model for Enumerations {
    ghost use Rattle.std.specs.Prelude.{List, ℕ};

    ghost Value = { List ℕ };

    ghost view = { λ e. e.set.keys };
}

impl Enumerations {
    pub fn new(alloc: Global) -> Enumerations
        ensures { result ≡ [] }
    {
        Enumerations {
            set: IndexSet::new(alloc),
        }
    }

    pub(crate) fn has(&self, sort: TypeId) -> bool
        ensures { result ≡ spec.has_number self.now sort }
    {
        self.set.contains(&sort)
    }

    /// One more, if it isn't there.
    pub(crate) fn add(&mut self, sort: TypeId) -> Result<(), Memory>
        ensures { IfOk result (λ o. self.new ≡ spec.and_number self.old sort) }
    {
        self.set.insert(sort)?;
        Ok(())
    }
}
