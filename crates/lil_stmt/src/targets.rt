//! The places to which statements store, and those that they copy.

ghost use Rattle.std.specs.Prelude.{◌≡◌, IfOk, OnOk};
ghost use Rattle.lil_resolved.specs.{Sizes.place_strings, Views.place_of};
ghost use Rattle.lil_table.specs.Rows.{store_code, again_code, under_code};
ghost use Rattle.lil_labels.specs.Drafts.{Doing, DoingAll, Adds, Emits};
ghost use Rattle.lil_expr.specs.Accesses.{access_view};
ghost use Rattle.lil_stmt.specs.Generating.{Readied, Targeted};

use lil_asm::Instr;
use lil_base::Memory;
use lil_expr::{Access, emit_place};
use lil_labels::CodeBuffer;
use lil_resolved::RPlace;

/// Appends the code of a place that is made ready for a store, and says how code then has it.
pub(crate) fn emit_target(code: &mut CodeBuffer<'_>, of: &RPlace) -> Result<Access, Memory>
    ensures { IfOk result (λ target. Adds (place_strings (place_of of.now)) code.old code.new (Targeted (place_of of.now) (access_view target))) }
{
    let at = emit_place(code, of)?;
    emit_ready(code, at.access)
}

/// Appends what makes a place ready for a store, and says how code then has it: an address on the expression stack becomes
/// that of the place itself.
fn emit_ready(code: &mut CodeBuffer<'_>, access: Access) -> Result<Access, Memory>
    ensures { IfOk result (λ ready. Emits code.old code.new (Readied (access_view access) (access_view ready))) }
{
    match access {
        Access::InData(_) | Access::InFrame(_, _) | Access::OnTop => Ok(access),
        Access::Behind(offset) => {
            code.put_all(&[Instr::Adf(offset)])?;
            Ok(Access::OnTop)
        }
    }
}

/// Appends what keeps a place that is ready for a second use.
pub(crate) fn emit_again(code: &mut CodeBuffer<'_>, access: Access) -> Result<(), Memory>
    ensures { OnOk result (Emits code.old code.new (DoingAll (again_code (access_view access)))) }
{
    match access {
        Access::InData(_) | Access::InFrame(_, _) => Ok(()),
        Access::OnTop | Access::Behind(_) => code.put_all(&[Instr::Dup]),
    }
}

/// Appends what brings the word at such a place below the number on the expression stack.
pub(crate) fn emit_under(code: &mut CodeBuffer<'_>, access: Access) -> Result<(), Memory>
    ensures { OnOk result (Emits code.old code.new (DoingAll (under_code (access_view access)))) }
{
    match access {
        Access::InData(offset) => code.put_all(&[Instr::Lgw(offset), Instr::Swp]),
        Access::InFrame(0, offset) => code.put_all(&[Instr::Llw(offset), Instr::Swp]),
        Access::InFrame(levels, offset) => code.put_all(&[Instr::Lnw(levels, offset), Instr::Swp]),
        Access::OnTop | Access::Behind(_) => { code.put_all(&[Instr::Swp, Instr::Ldi, Instr::Swp]) }
    }
}

/// Appends the store to a place that is ready.
pub(crate) fn emit_store(code: &mut CodeBuffer<'_>, access: Access) -> Result<(), Memory>
    ensures { OnOk result (Emits code.old code.new (Doing (λ word. store_code (access_view access)))) }
{
    match access {
        Access::InData(offset) => code.put(Instr::Sgw(offset)),
        Access::InFrame(0, offset) => code.put(Instr::Slw(offset)),
        Access::InFrame(levels, offset) => code.put(Instr::Snw(levels, offset)),
        Access::OnTop | Access::Behind(_) => code.put(Instr::Sti),
    }
}
