//! The code of strings for arrays by value.

ghost use Rattle.std.specs.Prelude.{Bool, OnOk};
ghost use Rattle.lil_resolved.specs.{Resolved.Spelled, Sizes.words_of};
ghost use Rattle.lil_labels.specs.Drafts.{Adds, Emits};
ghost use Rattle.lil_expr.specs.Calling.{Argued, Zeroed};

use lil_asm::Instr;
use lil_base::{Memory, Text};
use lil_labels::{Aim, CodeBuffer};

/// Appends what brings a string to the frame that a call begins, with zeros behind it to the end of an array of so many
/// characters.
pub(crate) fn emit_spelled(code: &mut CodeBuffer<'_>, text: &Text, count: u16) -> Result<(), Memory>
    ensures { OnOk result ((calls : Bool) → Adds (words_of text.now) code.old code.new (Argued calls (Spelled text.now count))) }
{
    let offset = code.string(text.as_slice())?;
    let characters = (text.len() % 65_536) as u16;
    code.put_all(&[Instr::Lag(offset), Instr::Psm(characters)])?;
    emit_zeros(code, count.saturating_sub(characters))
}

/// Appends what brings so many zeros to the frame that a call begins. Their number stands on the expression stack, and is
/// counted down.
fn emit_zeros(code: &mut CodeBuffer<'_>, count: u16) -> Result<(), Memory>
    ensures { OnOk result (Emits code.old code.new (Zeroed count)) }
{
    if count == 0 {
        return Ok(());
    }
    code.put(Instr::Liw(count))?;
    let turn = code.mark()?;
    code.put_all(&[Instr::Liw(0), Instr::Psh, Instr::Liw(1), Instr::Sbc])?;
    code.jump(Aim::Or, turn)
}
