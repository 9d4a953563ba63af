//! How code has places, and what brings their addresses and their words.

ghost use Rattle.std.specs.Prelude.{◌≡◌, ◌+◌, ◌≤◌, OnOk};
ghost use Rattle.lil_resolved.specs.Views.{named_view};
ghost use Rattle.lil_table.specs.Rows as rows;
ghost use Rattle.lil_table.specs.Rows.{address_code, load_code};
ghost use Rattle.lil_labels.specs.Drafts.{Doing, DoingAll, Emits};
ghost use Rattle.lil_expr.specs.Accesses.{access_view, words_in};

use lil_asm::Instr;
use lil_base::Memory;
use lil_labels::CodeBuffer;
use lil_resolved::RNamed;

/// How code has a place: so many words into the data of the module, or into the frame of the procedure so many levels out,
/// of which the one at hand is 0; by its address on the expression stack, or so many words behind that address.
#[derive(Clone, Copy)]
pub enum Access {
    InData(u16),
    InFrame(u8, u16),
    OnTop,
    Behind(u16),
}

/// How code has a place, and the number of the place's shape.
#[derive(Clone, Copy)]
pub struct Reached {
    pub access: Access,
    pub shape: usize,
}

/// How code has a variable that lies so many words into the data or the frame of its owner.
pub fn variable_access(named: RNamed, offset: u16) -> Access
    ensures { access_view result ≡ rows.access_at (named_view named) offset }
{
    match named {
        RNamed::Module(_) => Access::InData(offset),
        RNamed::Level(levels, _) => Access::InFrame(levels, offset),
    }
}

/// How code has the place that lies so many words behind another, where 16 bits say it.
pub(crate) fn further(access: Access, words: u16) -> Access
    ensures { words_in (access_view access) + words ≤ 65535 → access_view result ≡ rows.further words (access_view access) }
{
    match access {
        Access::InData(offset) => Access::InData(offset.saturating_add(words)),
        Access::InFrame(levels, offset) => Access::InFrame(levels, offset.saturating_add(words)),
        Access::OnTop => Access::Behind(words),
        Access::Behind(offset) => Access::Behind(offset.saturating_add(words)),
    }
}

/// Appends the instructions that bring the address of a place to the expression stack.
pub(crate) fn emit_address(code: &mut CodeBuffer<'_>, access: Access) -> Result<(), Memory>
    ensures { OnOk result (Emits code.old code.new (DoingAll (address_code (access_view access)))) }
{
    match access {
        Access::InData(offset) => code.put_all(&[Instr::Lag(offset)]),
        Access::InFrame(0, offset) => code.put_all(&[Instr::Lal(offset)]),
        Access::InFrame(levels, offset) => code.put_all(&[Instr::Lan(levels, offset)]),
        Access::OnTop => Ok(()),
        Access::Behind(offset) => code.put_all(&[Instr::Adf(offset)]),
    }
}

/// Appends the instruction that brings the word at a place to the expression stack.
pub(crate) fn emit_load(code: &mut CodeBuffer<'_>, access: Access) -> Result<(), Memory>
    ensures { OnOk result (Emits code.old code.new (Doing (λ word. load_code (access_view access)))) }
{
    match access {
        Access::InData(offset) => code.put(Instr::Lgw(offset)),
        Access::InFrame(0, offset) => code.put(Instr::Llw(offset)),
        Access::InFrame(levels, offset) => code.put(Instr::Lnw(levels, offset)),
        Access::OnTop => code.put(Instr::Ldi),
        Access::Behind(offset) => code.put(Instr::Ldf(offset)),
    }
}
