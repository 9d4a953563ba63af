ghost use Rattle.std.specs.Prelude.{◌≡◌, ◌↔◌, true, IfOk};
ghost use Rattle.lil_format.specs.Format.{Fits};
ghost use Rattle.lil_symfile.specs.Symbol as spec;

use crate::reading::read_sym;
use crate::same::same_file;
use crate::short::is_short;
use crate::tree::SymbolFile;
use crate::writing::file_bytes;
use lil_base::{FormatStop, Memory};
use std::alloc::Global;

/// Whether a file has a spelling: whether it is read back as it is from what is written of it. `Err` is want of memory.
pub fn has_spelling(alloc: Global, file: &SymbolFile) -> Result<bool, Memory>
    ensures { IfOk result (λ b. (b ≡ true) ↔ Fits spec.symbol_file file.now) }
{
    if !is_short(file) {
        return Ok(false);
    }
    let bytes = file_bytes(alloc, file)?;
    match read_sym(alloc, &bytes) {
        Err(FormatStop::Memory) => Err(Memory),
        Err(FormatStop::Fault { .. }) => Ok(false),
        Ok(again) => Ok(same_file(&again, file)),
    }
}
