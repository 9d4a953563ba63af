ghost use Rattle.std.specs.Prelude.{◌≡◌, ◌⊎◌, ◌≤◌, List, length, Ok, Err, IfOk};
ghost use Rattle.lil_base.specs.declared.fault.SourceFault.{SourceFault as Fault};
ghost use Rattle.lil_language.specs.{declared.unit.Unit.Unit as Tree, Units.{IsRightUnit, HasUnitFault}};
ghost use Rattle.lil_read_unit.specs.Settled.{settled};

use crate::ends::wrong_end;
use crate::units::text;
use lil_base::{FaultKind, SourceFault, beside};
use lil_grammar::Reader;
use lil_language::Unit;
use lil_text::{ReadStop, Tokens};
use std::alloc::Global;

/// How many parts of a text may lie in one another.
const DEEPEST: u8 = 48;

/// The answer by the unit that was read.
fn with_ends(read: Result<Unit, ReadStop>) -> Result<Unit, ReadStop>
    ensures { result ≡ settled read }
{
    let unit = read?;
    let right = match wrong_end(&unit) {
        None => Ok(()),
        Some(place) => Err(ReadStop::Fault(SourceFault::at(FaultKind::EndName, place))),
    };
    let (unit, ()) = beside(unit, right)?;
    Ok(unit)
}

/// The unit that the tokens of a text are (Programming in Modula-2, Compilation units), or its fault: 10 at the first token
/// with which no unit goes on, 12 at the first part that lies deeper than 48 parts, or 11 at the first name behind END
/// that is another than the name of what ends there. The tokens are at most 262,145, and Finish stands last. Tokens are a
/// unit in one way, or have such a fault, and not both, whatever the call answers.
pub fn unit(alloc: Global, t: &Tokens) -> Result<Unit, ReadStop>
    requires { length t.now ≤ 262145 }
    ensures found { IfOk result (λ u. IsRightUnit t.now u) }
    ensures only { (u : Tree) → IsRightUnit t.now u → (result ≡ Ok u) ⊎ (result ≡ Err ReadStop.Memory) }
    ensures fault { (f : Fault) → result ≡ Err (ReadStop.Fault f) → HasUnitFault t.now f }
    ensures exact { (f : Fault) → HasUnitFault t.now f → (result ≡ Err (ReadStop.Fault f)) ⊎ (result ≡ Err ReadStop.Memory) }
    ensures one { (u v : Tree) → IsRightUnit t.now u → IsRightUnit t.now v → u ≡ v }
    ensures whole { ((u : Tree) × IsRightUnit t.now u) ⊎ ((f : Fault) × HasUnitFault t.now f) }
    ensures apart { (u : Tree) (f : Fault) → IsRightUnit t.now u → HasUnitFault t.now f → ⊥ }
{
    let mut reader = Reader::new(t.as_slice());
    let weight = t.len().saturating_sub(1) as u32;
    with_ends(text(alloc, &mut reader, DEEPEST, weight))
}
