ghost use Rattle.std.specs.Prelude.{◌≡◌, List, ℕ, ◌++◌, ◌∷◌, [], is_some, IfOk};
ghost use Rattle.lil_types.specs.Fields.{field_from};
ghost use Rattle.lil_types.specs.FieldIndex as spec;

use crate::table::{Field, TypeId};
use indexmap::IndexMap;
use lil_base::{Items, Memory, Name};
use std::alloc::Global;
use std::marker::Model;

/// A field of a record: its number, from 0, and its type.
#[derive(Clone, Copy)]
pub struct FieldAt {
    pub number: usize,
    pub sort: TypeId,
}

/// Fields in their order, and the first of each name to look it up. Contracts see the list of the fields.
#[derive(Drop)]
pub struct Fields {
    items: Items<Field>,
    index: IndexMap<Vec<u8>, FieldAt>,
}

impl Model for Fields {
    ghost use Rattle.std.specs.Prelude.{List};
    ghost use Rattle.lil_types.specs.declared.table.Field.{Field};
    ghost use Rattle.lil_types.specs.FieldIndex.{IsIndex};

    ghost Value = { List Field };

    ghost view = { λ f. f.items };

    ghost invariant = { λ f. IsIndex f.index.entries f.items };
}

/// Puts a field into an index, unless one of its name is there, and tells whether one is.
fn put_first(
    alloc: Global,
    index: &mut IndexMap<Vec<u8>, FieldAt>,
    name: &[u8],
    at: FieldAt,
) -> Result<bool, Memory>
    ensures told { IfOk result (λ before. before ≡ is_some (spec.found_in index.old.entries name.now)) }
    ensures first { IfOk result (λ before. (n : List ℕ) → spec.found_in index.new.entries n ≡ spec.or_named (spec.found_in index.old.entries n) name.now at n) }
{
    if index.get(name).is_some() {
        return Ok(true);
    }
    let key = Vec::from_slice(alloc, name)?;
    index.insert(key, at)?;
    Ok(false)
}

impl Fields {
    pub fn new(alloc: Global) -> Fields
        ensures { result ≡ [] }
    {
        Fields {
            items: Items::new(alloc),
            index: IndexMap::new(alloc),
        }
    }

    /// The fields in their order.
    pub fn as_slice(&self) -> &[Field]
        ensures { result.now ≡ self.now }
    {
        self.items.as_slice()
    }

    /// The first field that has a name.
    pub fn find(&self, name: &Name) -> Option<FieldAt>
        ensures { result ≡ field_from 0 self.now name.now }
    {
        self.index.get(name.as_slice()).copied()
    }

    /// With a field more, and whether its name stood before.
    pub fn with(self, alloc: Global, name: &Name, sort: TypeId) -> Result<(bool, Fields), Memory>
        ensures told { IfOk result (λ r. r.0 ≡ is_some (field_from 0 self name.now)) }
        ensures more { IfOk result (λ r. r.1 ≡ self ++ record { name = name.now; sort = sort } ∷ []) }
    {
        let Fields { items, index } = self;
        let mut items = items;
        let mut index = index;
        let number = items.len();
        let before = put_first(alloc, &mut index, name.as_slice(), FieldAt { number, sort })?;
        let name = name.copy(alloc)?;
        items.push(Field { name, sort })?;
        Ok((before, Fields { items, index }))
    }
}
