ghost use Rattle.std.specs.Prelude.{◌≡◌, ◌⊎◌, Ok, Err, IfOk};
ghost use Rattle.lil_base.specs.declared.fault.SourceFault.{SourceFault as Fault};
ghost use Rattle.lil_language.specs.{declared.unit.Unit.Unit as Tree, Units.{Reads, HasReadFault}};

use crate::reading::unit;
use lil_base::Text;
use lil_language::Unit;
use lil_lexer::tokens;
use lil_text::ReadStop;
use std::alloc::Global;

/// The unit that a text is, or its fault: the first of its bytes (65, 1 to 6), else that of its tokens (10 or 12), else
/// the first name behind END that is wrong (11). A text is a unit in one way, or has such a fault, and not both, whatever
/// the call answers.
pub fn read(alloc: Global, text: &Text) -> Result<Unit, ReadStop>
    ensures found { IfOk result (λ u. Reads text.now u) }
    ensures only { (u : Tree) → Reads text.now u → (result ≡ Ok u) ⊎ (result ≡ Err ReadStop.Memory) }
    ensures fault { (f : Fault) → result ≡ Err (ReadStop.Fault f) → HasReadFault text.now f }
    ensures exact { (f : Fault) → HasReadFault text.now f → (result ≡ Err (ReadStop.Fault f)) ⊎ (result ≡ Err ReadStop.Memory) }
    ensures one { (u v : Tree) → Reads text.now u → Reads text.now v → u ≡ v }
    ensures whole { ((u : Tree) × Reads text.now u) ⊎ ((f : Fault) × HasReadFault text.now f) }
    ensures apart { (u : Tree) (f : Fault) → Reads text.now u → HasReadFault text.now f → ⊥ }
{
    let found = tokens(alloc, text)?;
    unit(alloc, &found)
}
