ghost use Rattle.std.specs.Prelude.{◌≡◌, ◌<◌, ◌++◌, ◌∷◌, [], length, map, true, if◌then◌else◌, IfOk, MatchOption};
ghost use Rattle.lil_scope.specs.Names as spec;

use crate::thing::{Bound, Entry, Thing};
use indexmap::IndexMap;
use lil_base::{Items, Memory, Name, Place};
use std::alloc::Global;
use std::marker::Model;

/// The names of one block, in the order of declaration.
#[derive(Drop)]
pub struct Block {
    names: IndexMap<Vec<u8>, Entry>,
}

impl Model for Block {
    ghost use Rattle.std.specs.Prelude.{◌≡◌, List, ℕ, map, true};
    ghost use Rattle.lil_scope.specs.declared.thing.Entry.{Entry};
    ghost use Rattle.lil_scope.specs.Names.{are_names};

    ghost Value = { List (List ℕ × Entry) };

    ghost view = { λ b. map (λ p. (p.0.items, p.1)) b.names.entries };

    ghost invariant = { λ b. are_names (map (λ p. (p.0.items, p.1)) b.names.entries) ≡ true };
}

fn all_of(alloc: Global, names: &IndexMap<Vec<u8>, Entry>) -> Result<Items<Bound>, Memory>
    requires { spec.are_names (map spec.seen names.now.entries) ≡ true }
    ensures { IfOk result (λ bs. bs ≡ map spec.bound_of (map spec.seen names.now.entries)) }
{
    let mut bounds = Items::new(alloc);
    for (key, entry) in names.iter() {
        if let Some(name) = Name::of_slice(alloc, key.as_slice())? {
            let entry = *entry;
            bounds.push(Bound { name, entry })?;
        }
    }
    Ok(bounds)
}

impl Block {
    #[tactic(auto, using(crate::proofs::Entries::look_map))]
    fn entry(&self, name: &Name) -> Option<Entry>
        ensures { result ≡ spec.entry_in self.now name.now }
    {
        self.names.get(name.as_slice()).copied()
    }

    pub fn new(alloc: Global) -> Block
        ensures { result ≡ [] }
    {
        Block {
            names: IndexMap::new(alloc),
        }
    }

    fn len(&self) -> usize
        ensures { result ≡ length self.now }
    {
        self.names.len()
    }

    /// Its names in their order, and what they stand for.
    fn all(&self, alloc: Global) -> Result<Items<Bound>, Memory>
        ensures { IfOk result (λ bs. bs ≡ map spec.bound_of self.now) }
    {
        all_of(alloc, &self.names)
    }

    /// A name that stands here stands for another thing from now on.
    fn replace(&mut self, name: &Name, entry: Entry)
        ensures { self.new ≡ spec.rebound self.old name.now entry }
    {
        if let Some(at) = self.names.get_index_of(name.as_slice()) {
            if let Some(of) = self.names.get_index_mut(at) {
                *of = entry;
            }
        }
    }

    /// Binds a name, unless it stands here before: then it answers where.
    pub fn declare(
        &mut self,
        alloc: Global,
        name: &Name,
        entry: Entry,
    ) -> Result<Option<Place>, Memory>
        ensures told { IfOk result (λ before. before ≡ spec.place_in self.old name.now) }
        ensures entries { IfOk result (λ before. self.new ≡ spec.bound self.old name.now entry) }
    {
        match self.entry(name) {
            Some(before) => Ok(Some(before.place)),
            None => {
                let key = Vec::from_slice(alloc, name.as_slice())?;
                self.names.insert(key, entry)?;
                Ok(None)
            }
        }
    }
}

/// The blocks that were begun, by their numbers.
#[derive(Drop)]
pub struct Blocks {
    list: Vec<Block>,
}

impl Model for Blocks {
    ghost use Rattle.std.specs.Prelude.{List, ℕ};
    ghost use Rattle.lil_scope.specs.declared.thing.Entry.{Entry};

    ghost Value = { List (List (List ℕ × Entry)) };

    ghost view = { λ b. b.list.items };
}

impl Blocks {
    pub fn new(alloc: Global) -> Blocks
        ensures { result ≡ [] }
    {
        Blocks {
            list: Vec::new(alloc),
        }
    }

    /// One more, without names.
    pub fn begin(&mut self, alloc: Global) -> Result<usize, Memory>
        ensures number { IfOk result (λ n. n ≡ length self.old) }
        ensures more { IfOk result (λ n. self.new ≡ self.old ++ [] ∷ []) }
    {
        let number = self.list.len();
        self.list.push(Block::new(alloc))?;
        Ok(number)
    }

    /// The names of a block in the order of declaration, and what they stand for.
    pub fn all(&self, alloc: Global, number: usize) -> Result<Items<Bound>, Memory>
        ensures { IfOk result (λ bs. bs ≡ map spec.bound_of (spec.block_at self.now number)) }
    {
        match self.list.get(number) {
            Some(block) => block.all(alloc),
            None => Ok(Items::new(alloc)),
        }
    }

    /// How many names a block has.
    pub fn len_of(&self, number: usize) -> usize
        ensures { result ≡ length (spec.block_at self.now number) }
    {
        match self.list.get(number) {
            Some(block) => block.len(),
            None => 0,
        }
    }

    /// A name's entry in a block.
    pub fn entry(&self, number: usize, name: &Name) -> Option<Entry>
        ensures { result ≡ spec.entry_in (spec.block_at self.now number) name.now }
    {
        match self.list.get(number) {
            Some(block) => block.entry(name),
            None => None,
        }
    }

    pub fn find(&self, number: usize, name: &Name) -> Option<Thing>
        ensures { result ≡ spec.look_in (spec.block_at self.now number) name.now }
    {
        match self.entry(number, name) {
            Some(entry) => Some(entry.thing),
            None => None,
        }
    }

    /// Binds a name in a block, unless it stands there before: then it answers where.
    pub fn declare(
        &mut self,
        alloc: Global,
        number: usize,
        name: &Name,
        entry: Entry,
    ) -> Result<Option<Place>, Memory>
        ensures told { IfOk result (λ before. before ≡ spec.place_in (spec.block_at self.old number) name.now) }
        ensures entries { IfOk result (λ before. self.new ≡ spec.bound_at self.old number name.now entry) }
    {
        if number < self.list.len() {
            self.list[number].declare(alloc, name, entry)
        } else {
            Ok(None)
        }
    }

    /// A name of a block stands for another thing from now on.
    pub fn replace(&mut self, number: usize, name: &Name, entry: Entry)
        ensures { self.new ≡ spec.rebound_at self.old number name.now entry }
    {
        if number < self.list.len() {
            self.list[number].replace(name, entry);
        }
    }
}

/// All blocks, the numbers of those around the block at hand, the outermost first, and its own number.
#[derive(Drop)]
pub struct Scopes {
    pub blocks: Blocks,
    pub outer: Items<usize>,
    pub inner: usize,
}

fn find_in(blocks: &Blocks, chain: &[usize], name: &Name) -> Option<Thing>
    ensures { result ≡ spec.find_in blocks.now chain.now name.now }
{
    match chain {
        [] => None,
        [number, inner @ ..] => match find_in(blocks, inner, name) {
            Some(thing) => Some(thing),
            None => blocks.find(*number, name),
        },
    }
}

impl Scopes {
    pub fn find(&self, name: &Name) -> Option<Thing>
        ensures { result ≡ spec.find self.now name.now }
    {
        match self.blocks.find(self.inner, name) {
            Some(thing) => Some(thing),
            None => find_in(&self.blocks, self.outer.as_slice(), name),
        }
    }
}
