//! How the start of a FOR, which stands below the limit on the expression stack, is brought to the limit's type.

ghost use Rattle.std.specs.Prelude.{◌≡◌, [], ◌∷◌, OnOk};
ghost use Rattle.lil_resolved.specs.Kinds as kinds;
ghost use Rattle.lil_resolved.specs.{Kinds.base_of, Resolved.kind_of, Views.{kind_view, expression_of}};
ghost use Rattle.lil_labels.specs.Drafts.{Emits};
ghost use Rattle.lil_stmt.specs.Generating.{Aligning, Leaving};

use lil_asm::Instr;
use lil_base::Memory;
use lil_expr::covers;
use lil_labels::{Aim, CodeBuffer};
use lil_resolved::{RBase, RExpr, RKind, base};

/// Whether each value of the start is one of the kind that the variable's was taken from, which is the limit's.
#[tactic(auto, using(lil_resolved::specs::Bases::own_base))]
fn limit_covers(kind: RKind, from: &RExpr) -> bool
    ensures { result ≡ kinds.covers (base_of (kind_view kind)) (kind_of (expression_of from.now)) }
{
    let limit = RKind {
        base: kind.base,
        range: None,
    };
    covers(limit, base(from))
}

/// Whether a start that isn't a number of the limit's type has turns.
#[tactic(auto, using(lil_resolved::specs::Bases::own_base))]
fn outside_turns(kind: RKind, step: i16) -> bool
    ensures { result ≡ kinds.outside_turns (kinds.compared_as (base_of (kind_view kind))) step }
{
    match kind.base {
        RBase::Integer => step < 0,
        _ => 0 < step,
    }
}

/// Appends the code that does it, in a FOR that ends at a label: none where the start always is a number of the limit's
/// type. Another start traps where it has turns, and leaves the FOR where it has none.
pub(crate) fn emit_align(
    code: &mut CodeBuffer<'_>,
    kind: RKind,
    from: &RExpr,
    step: i16,
    end: usize,
) -> Result<(), Memory>
    ensures { OnOk result (Emits code.old code.new (Aligning (kinds.covers (base_of (kind_view kind)) (kind_of (expression_of from.now))) (kinds.outside_turns (kinds.compared_as (base_of (kind_view kind))) step) end)) }
{
    if limit_covers(kind, from) {
        Ok(())
    } else if outside_turns(kind, step) {
        code.put_all(&[Instr::Swp, Instr::Rgc(0, 32_767), Instr::Swp])
    } else {
        emit_leave(code, end)
    }
}

/// Appends the test that a start is a number of both types of whole numbers, where another start drops both bounds and
/// leads to a label.
fn emit_leave(code: &mut CodeBuffer<'_>, end: usize) -> Result<(), Memory>
    ensures { OnOk result (Emits code.old code.new (Leaving end)) }
{
    code.put_all(&[Instr::Swp, Instr::Dup, Instr::Liw(0), Instr::Lsi])?;
    let other = code.fresh()?;
    code.jump(Aim::IfFalse, other)?;
    code.put_all(&[Instr::Drp, Instr::Drp])?;
    code.jump(Aim::Always, end)?;
    code.here(other);
    code.put(Instr::Swp)
}
