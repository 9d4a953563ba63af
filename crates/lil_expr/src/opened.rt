//! The words of open arrays: the address of the first element, and behind it the number of the last one.

ghost use Rattle.std.specs.Prelude.{◌≡◌, [], ◌∷◌, ◌+◌, OnOk};
ghost use Rattle.lil_asm.specs.Bytes.{Sayable};
ghost use Rattle.lil_table.specs.Rows.{frame_code, second_code};
ghost use Rattle.lil_labels.specs.Drafts.{DoingAll, Emits};

use lil_asm::Instr;
use lil_base::Memory;
use lil_labels::CodeBuffer;

/// The instruction that brings a word of the frame of the procedure so many levels out to the expression stack.
pub(crate) fn frame_load(levels: u8, offset: u16) -> Instr
    ensures is { result ≡ frame_code levels offset }
    ensures sayable { Sayable result }
{
    match levels {
        0 => Instr::Llw(offset),
        _ => Instr::Lnw(levels, offset),
    }
}

/// Appends what brings both words of an open array to the expression stack, which lie in a frame from an offset on.
#[tactic(auto, using(crate::proofs::Opens::next_word))]
pub(crate) fn emit_opened(code: &mut CodeBuffer<'_>, levels: u8, offset: u16) -> Result<(), Memory>
    ensures { OnOk result (Emits code.old code.new (DoingAll (frame_code levels offset ∷ frame_code levels (offset + 1) ∷ []))) }
{
    let first = frame_load(levels, offset);
    let second = frame_load(levels, offset.saturating_add(1));
    code.put_all(&[first, second])
}

/// Appends the instruction that brings the second word of an open array. The first one of an argument of a call goes to the
/// frame before.
pub(crate) fn emit_second(
    code: &mut CodeBuffer<'_>,
    calls: bool,
    second: Instr,
) -> Result<(), Memory>
    requires { Sayable second }
    ensures { OnOk result (Emits code.old code.new (DoingAll (second_code calls second))) }
{
    if calls {
        code.put_all(&[Instr::Psh, second])
    } else {
        code.put_all(&[second])
    }
}
