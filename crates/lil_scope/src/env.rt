ghost use Rattle.std.specs.Prelude.{◌≡◌, ◌++◌, ◌∷◌, [], take, drop, length, slice_get, IfOk, OnOk, OnErr, MatchOption};
ghost use Rattle.std.specs.Option.{option_copied};

use crate::coming::Coming;
use crate::locals::Locals;
use crate::scope::Scopes;
use lil_base::{Items, Memory, Name, Place, Shared, Text};
use lil_declared::{RProc, RVar};
use lil_types::{TypeId, TypeTable};
use std::alloc::Global;
use std::marker::Model;

/// A pointer type whose target is a bare name: it is looked up at the end of its block's declarations. Until then nothing lies
/// behind it if the block declares the target later.
#[derive(Drop)]
pub struct Wait {
    pub pointer: TypeId,
    pub place: Place,
    pub name: Name,
    pub later: bool,
}

/// The pointer types that wait for the end of a block, behind those that wait for the ends of the blocks around it.
#[derive(Drop)]
pub struct Waits {
    list: Vec<Wait>,
}

impl Model for Waits {
    ghost use Rattle.std.specs.Prelude.{List};
    ghost use Rattle.lil_scope.specs.declared.env.Wait.{Wait};

    ghost Value = { List Wait };

    ghost view = { λ w. w.list.items };
}

impl Waits {
    pub fn new(alloc: Global) -> Waits
        ensures { result ≡ [] }
    {
        Waits {
            list: Vec::new(alloc),
        }
    }

    pub fn as_slice(&self) -> &[Wait]
        ensures { result.now ≡ self.now }
    {
        self.list.as_slice()
    }

    pub fn len(&self) -> usize
        ensures { result ≡ length self.now }
    {
        self.list.len()
    }

    /// One pointer more.
    pub fn push(&mut self, wait: Wait) -> Result<(), Memory>
        ensures { IfOk result (λ o. self.new ≡ self.old ++ wait ∷ []) }
    {
        self.list.push(wait)?;
        Ok(())
    }

    /// Those behind the first so many, which wait no longer.
    #[tactic(auto, using(std::proofs::lemmas::List::take_min, std::proofs::lemmas::List::drop_min))]
    pub fn split_off(&mut self, first: usize) -> Result<Items<Wait>, Memory>
        ensures kept { IfOk result (λ ws. self.new ≡ take first self.old) }
        ensures rest { IfOk result (λ ws. ws ≡ drop first self.old) }
    {
        let first = first.min(self.list.len());
        let rest = self.list.split_off(first)?;
        Ok(Items::of_vec(rest))
    }
}

/// The types of the records of all WITH around a statement, the outermost first.
#[derive(Drop)]
pub struct Withs {
    list: Vec<TypeId>,
}

impl Model for Withs {
    ghost use Rattle.std.specs.Prelude.{List, ℕ};

    ghost Value = { List ℕ };

    ghost view = { λ w. w.list.items };
}

impl Withs {
    pub fn new(alloc: Global) -> Withs
        ensures { result ≡ [] }
    {
        Withs {
            list: Vec::new(alloc),
        }
    }

    pub fn as_slice(&self) -> &[TypeId]
        ensures { result.now ≡ self.now }
    {
        self.list.as_slice()
    }

    /// One WITH more, inside of the others.
    pub fn push(&mut self, sort: TypeId) -> Result<(), Memory>
        ensures ok { OnOk result (self.new ≡ self.old ++ sort ∷ []) }
        ensures err { OnErr result (self.new ≡ self.old) }
    {
        self.list.push(sort)?;
        Ok(())
    }

    /// Without the innermost one.
    pub fn pop(&mut self) -> Option<TypeId>
        ensures { MatchOption result ((self.old ≡ []) × (self.new ≡ [])) (λ last. self.old ≡ self.new ++ last ∷ []) }
    {
        self.list.pop()
    }
}

/// All that is declared so far: the names, the types, the texts of constants, the variables of the module, the procedures and
/// the variables of each, the pointers that wait for the end of the block at hand and of those around it, the names of the
/// types that it declares, the records of the WITH around, the procedure at hand, if it isn't the module's body, and how many
/// procedures of its definition the unit hasn't declared again.
#[derive(Drop)]
pub struct Env {
    pub scopes: Scopes,
    pub types: TypeTable,
    pub texts: Items<Shared<Text>>,
    pub variables: Items<RVar>,
    pub procedures: Items<RProc>,
    pub locals: Locals,
    pub waits: Waits,
    pub coming: Coming,
    pub withs: Withs,
    pub procedure: Option<usize>,
    pub awaited: usize,
}
