//! What the kind of a place or a variable says of the code of INC, DEC and FOR.

ghost use Rattle.std.specs.Prelude.{◌≡◌, [], ◌∷◌, OnOk};
ghost use Rattle.lil_resolved.specs.Kinds as kinds;
ghost use Rattle.lil_resolved.specs.{Kinds.{OfWhole, base_of}, Resolved.counted_as, Views.{base_view, kind_view, is_down}};
ghost use Rattle.lil_asm.specs.Bytes.{Sayable};
ghost use Rattle.lil_table.specs.Rows as rows;
ghost use Rattle.lil_table.specs.Rows.{change_operator, test_code, whole_code};
ghost use Rattle.lil_labels.specs.Drafts.{DoingAll, Emits};

use lil_asm::Instr;
use lil_base::Memory;
use lil_expr::emit_test;
use lil_labels::CodeBuffer;
use lil_resolved::{Direction, RBase, RKind, whole_base};

/// The base of the numbers that INC and DEC of a place of a kind compute with.
#[tactic(auto, using(lil_resolved::specs::Bases::own_base))]
pub(crate) fn counted_base(kind: RKind) -> RBase
    ensures { base_view result ≡ OfWhole (counted_as (kind_view kind)) }
{
    whole_base(kind.base)
}

/// The instruction by which INC or DEC of such a place computes.
#[tactic(auto, using(lil_resolved::specs::Bases::own_base))]
pub(crate) fn change_instr(direction: Direction, kind: RKind) -> Instr
    ensures is { whole_code (change_operator (is_down direction)) (counted_as (kind_view kind)) ≡ result ∷ [] }
    ensures sayable { Sayable result }
{
    match direction {
        Direction::Up => match kind.base {
            RBase::Integer => Instr::Adi,
            _ => Instr::Adc,
        },
        Direction::Down => match kind.base {
            RBase::Integer => Instr::Sbi,
            _ => Instr::Sbc,
        },
    }
}

/// How FRI reads the bounds of a variable's FOR: 1 for INTEGERs, else 0.
#[tactic(auto, using(lil_resolved::specs::Bases::own_base))]
pub(crate) fn loop_sign(kind: RKind) -> u8
    ensures { result ≡ rows.loop_sign (kinds.compared_as (base_of (kind_view kind))) }
{
    match kind.base {
        RBase::Integer => 1,
        _ => 0,
    }
}

/// Appends the test that a value of FOR may be stored in its variable.
#[tactic(auto, using(lil_resolved::specs::Bases::own_base))]
pub(crate) fn emit_turn_test(code: &mut CodeBuffer<'_>, kind: RKind) -> Result<(), Memory>
    ensures { OnOk result (Emits code.old code.new (DoingAll (test_code (kind_view kind) (base_of (kind_view kind))))) }
{
    emit_test(code, kind, kind.base)
}
