ghost use Rattle.std.specs.Prelude.{◌≡◌, ◌++◌, OnOk};
ghost use Rattle.lil_language.specs.Trees.{listed};

use lil_base::{Items, Memory};

/// Adds what was read, if anything was.
pub fn add_read<T: Drop>(found: &mut Items<T>, next: Option<T>) -> Result<(), Memory>
    ensures { OnOk result (found.new ≡ found.old ++ listed next) }
{
    match next {
        None => Ok(()),
        Some(next) => found.push(next),
    }
}
