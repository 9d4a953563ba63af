//! The code of standard functions.

ghost use Rattle.std.specs.Prelude.{◌≡◌, OnOk};
ghost use Rattle.lil_resolved.specs.{Kinds.compared_as, Views.{base_view, function_of, kind_view}};
ghost use Rattle.lil_resolved.specs.Resolved as resolved;
ghost use Rattle.lil_table.specs.Rows.{function_code};
ghost use Rattle.lil_labels.specs.Drafts.{DoingAll, Emits};

use crate::ranges::emit_test;
use lil_asm::Instr;
use lil_base::Memory;
use lil_labels::CodeBuffer;
use lil_resolved::{RBase, RFunction, RKind};

/// All values of a base.
fn whole_kind(base: RBase) -> RKind
    ensures { kind_view result ≡ base_view base }
{
    RKind { base, range: None }
}

/// Appends the code of a standard function, which finds its argument, a value of a base, on the expression stack.
pub(crate) fn emit_function(
    code: &mut CodeBuffer<'_>,
    function: RFunction,
    from: RBase,
) -> Result<(), Memory>
    ensures { OnOk result (Emits code.old code.new (DoingAll (function_code (function_of function (base_view from)) (base_view from)))) }
{
    match function {
        RFunction::Abs => emit_abs(code, from),
        RFunction::Cap => code.put_all(&[Instr::Cap]),
        RFunction::Chr => emit_test(code, whole_kind(RBase::Character), from),
        RFunction::Odd => code.put_all(&[Instr::Liw(2), Instr::Mdc]),
        RFunction::Ord => emit_test(code, whole_kind(RBase::Cardinal), from),
        RFunction::Val(kind) => emit_test(code, kind, from),
    }
}

fn emit_abs(code: &mut CodeBuffer<'_>, from: RBase) -> Result<(), Memory>
    ensures { OnOk result (Emits code.old code.new (DoingAll (function_code (resolved.Abs (compared_as (base_view from))) (base_view from)))) }
{
    match from {
        RBase::Integer => code.put_all(&[Instr::Abi]),
        _ => Ok(()),
    }
}
