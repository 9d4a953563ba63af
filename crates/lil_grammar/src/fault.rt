ghost use Rattle.std.specs.Prelude.{◌≡◌};
ghost use Rattle.lil_grammar.specs.Steps as spec;

use lil_base::{FaultKind, Place, SourceFault};
use lil_text::ReadStop;

/// Fault 10: the tokens go on with nothing that may stand here.
#[tactic(auto, unfolding(crate::specs::Steps::syntax))]
pub fn syntax(place: Place) -> ReadStop
    ensures { result ≡ spec.syntax place }
{
    ReadStop::Fault(SourceFault::at(FaultKind::Syntax, place))
}

/// Fault 12: a part that begins here is nested too deep.
#[tactic(auto, unfolding(crate::specs::Steps::nested))]
pub fn nested(place: Place) -> ReadStop
    ensures { result ≡ spec.nested place }
{
    ReadStop::Fault(SourceFault::at(FaultKind::TooNested, place))
}
