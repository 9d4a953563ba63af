ghost use Rattle.std.specs.Prelude.{◌≡◌, ◌++◌, ◌∷◌, [], IfOk};
ghost use Rattle.lil_scope.specs.Names as spec;

use lil_base::{Items, Memory};
use lil_declared::RVar;
use std::alloc::Global;
use std::marker::Model;

/// The variables of each procedure, by the procedures' numbers.
#[derive(Drop)]
pub struct Locals {
    list: Vec<Items<RVar>>,
}

impl Model for Locals {
    ghost use Rattle.std.specs.Prelude.{List};
    ghost use Rattle.lil_declared.specs.declared.declared.RVar.{RVar};

    ghost Value = { List (List RVar) };

    ghost view = { λ l. l.list.items };
}

impl Locals {
    pub fn new(alloc: Global) -> Locals
        ensures { result ≡ [] }
    {
        Locals {
            list: Vec::new(alloc),
        }
    }

    /// The next procedure, which has none yet.
    pub fn begin(&mut self, alloc: Global) -> Result<(), Memory>
        ensures { IfOk result (λ o. self.new ≡ self.old ++ [] ∷ []) }
    {
        self.list.push(Items::new(alloc))?;
        Ok(())
    }

    /// Those of a procedure, none where it isn't there.
    pub fn of(&self, owner: usize) -> &[RVar]
        ensures { result.now ≡ spec.locals_in self.now owner }
    {
        match self.list.get(owner) {
            Some(variables) => variables.as_slice(),
            None => &[],
        }
    }

    /// One more of a procedure, where it is there.
    pub fn declare(&mut self, owner: usize, variable: RVar) -> Result<(), Memory>
        ensures { IfOk result (λ o. self.new ≡ spec.with_local self.old owner variable) }
    {
        if owner < self.list.len() {
            self.list[owner].push(variable)
        } else {
            drop(variable);
            Ok(())
        }
    }
}
