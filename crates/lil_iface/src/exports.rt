//! The names that a definition exports.

ghost use Rattle.std.specs.Prelude.{◌≡◌, ℕ, List, [], IfOk};
ghost use Rattle.std.specs.List.{list_any};
ghost use Rattle.lil_scope.specs.Names.{same, is_among, and_name};
ghost use Rattle.lil_iface.specs.Iface as spec;
ghost use Rattle.lil_iface.specs.Listed.{shown_by};

use indexmap::IndexSet;
use lil_base::{Items, Memory, Name};
use lil_text::Ident;
use std::alloc::Global;
use std::marker::Model;

/// The names of a list, each once.
#[derive(Drop)]
pub(crate) struct Listed {
    names: IndexSet<Vec<u8>>,
}

impl Model for Listed {
    ghost use Rattle.std.specs.Prelude.{List, ℕ, map};

    ghost Value = { List (List ℕ) };

    ghost view = { λ l. map (λ n. n.items) l.names.keys };
}

impl Listed {
    fn new(alloc: Global) -> Listed
        ensures { result ≡ [] }
    {
        Listed {
            names: IndexSet::new(alloc),
        }
    }

    fn has(&self, name: &Name) -> bool
        ensures { result ≡ is_among self.now name.now }
    {
        self.names.contains(name.as_slice())
    }

    fn add(&mut self, alloc: Global, name: &Name) -> Result<(), Memory>
        ensures { IfOk result (λ o. self.new ≡ and_name self.old name.now) }
    {
        let key = Vec::from_slice(alloc, name.as_slice())?;
        self.names.insert(key)?;
        Ok(())
    }
}

fn all_listed(alloc: Global, of: &[Ident]) -> Result<Listed, Memory>
    ensures { IfOk result (λ l. (n : List ℕ) → is_among l n ≡ list_any (λ i. same n i.name) of.now) }
{
    let mut all = Listed::new(alloc);
    for one in of {
        all.add(alloc, &one.name)?;
    }
    Ok(all)
}

/// The names of a list of exports, where there is one.
pub(crate) fn names_listed(
    alloc: Global,
    of: &Option<Items<Ident>>,
) -> Result<Option<Listed>, Memory>
    ensures { IfOk result (λ l. (n : List ℕ) → shown_by l n ≡ spec.is_shown of.now n) }
{
    match of {
        None => Ok(None),
        Some(list) => Ok(Some(all_listed(alloc, list.as_slice())?)),
    }
}

/// Whether a name is exported: it stands in the list, or there is none.
pub(crate) fn is_shown(list: &Option<Listed>, name: &Name) -> bool
    ensures { result ≡ shown_by list.now name.now }
{
    match list {
        None => true,
        Some(list) => list.has(name),
    }
}
