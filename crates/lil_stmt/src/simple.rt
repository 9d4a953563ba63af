//! The code of statements without statements in them.

ghost use Rattle.std.specs.{Prelude.{◌≡◌, ℕ, Option, OnOk}, List.flat_map};
ghost use Rattle.lil_resolved.specs.Resolved as resolved;
ghost use Rattle.lil_resolved.specs.{Resolved.{Assign, Copy, Change, Member, New, Allocate, Exit, Answer, CallValue}, Views.{arguments_of, kind_view, place_of, is_down, is_out, is_back, expression_of}};
ghost use Rattle.lil_asm.specs.Bytes.{Sayable};
ghost use Rattle.lil_table.specs.Rows.{member_code, allocate_code};
ghost use Rattle.lil_labels.specs.Drafts.{DoingAll, Each, Adds, Emits};
ghost use Rattle.lil_expr.specs.Generating.{argument_part};
ghost use Rattle.lil_stmt.specs.Generating.{Says, ArgumentPart};

use crate::kinds::{change_instr, counted_base};
use crate::statements::Around;
use crate::targets::{emit_again, emit_store, emit_target, emit_under};
use lil_asm::Instr;
use lil_base::{Memory, Request, Text};
use lil_expr::{
    emit_address_of, emit_argument, emit_expression, emit_test, emit_tested, emit_value_call,
};
use lil_labels::{Aim, CodeBuffer};
use lil_resolved::{Allocation, Direction, Membership, RArgument, RBase, RExpr, RKind, RPlace};

/// Appends the code of an assignment: the place, made ready, the value, its test, and the store.
pub(crate) fn emit_assign(
    code: &mut CodeBuffer<'_>,
    place: &RPlace,
    kind: RKind,
    value: &RExpr,
) -> Result<(), Memory>
    ensures { OnOk result ((n : ℕ) (exit : Option ℕ) → Says code.old code.new n exit (Assign (place_of place.now) (kind_view kind) (expression_of value.now))) }
{
    let target = emit_target(code, place)?;
    emit_tested(code, kind, value)?;
    emit_store(code, target)
}

/// Appends the code of a copy: the addresses of both places, and the move of as many words as lie there.
pub(crate) fn emit_copy(
    code: &mut CodeBuffer<'_>,
    place: &RPlace,
    from: &RPlace,
) -> Result<(), Memory>
    ensures { OnOk result ((n : ℕ) (exit : Option ℕ) → Says code.old code.new n exit (Copy (place_of place.now) (place_of from.now))) }
{
    let shape = emit_address_of(code, place)?;
    emit_address_of(code, from)?;
    let words = code.words(shape);
    code.put(Instr::Mov(words))?;
    Ok(())
}

/// Appends the code of a string that goes to an array: the addresses of both, and the move of the characters, with zeros
/// behind them to the array's end.
pub(crate) fn emit_text(
    code: &mut CodeBuffer<'_>,
    place: &RPlace,
    text: &Text,
) -> Result<(), Memory>
    ensures { OnOk result ((n : ℕ) (exit : Option ℕ) → Says code.old code.new n exit (resolved.Text (place_of place.now) text.now)) }
{
    let shape = emit_address_of(code, place)?;
    let offset = code.string(text.as_slice())?;
    let characters = (text.len() % 65_536) as u16;
    let count = code.elements(shape).count;
    let zeros = count.saturating_sub(u32::from(characters)).min(65_535) as u16;
    code.put_all(&[Instr::Lag(offset), Instr::Mvz(characters, zeros)])
}

/// Appends the code of INC or DEC: the place, made ready and kept, the number, the place's below it, the sum or the
/// difference, its test, and the store.
pub(crate) fn emit_change(
    code: &mut CodeBuffer<'_>,
    direction: Direction,
    place: &RPlace,
    kind: RKind,
    value: &RExpr,
) -> Result<(), Memory>
    ensures { OnOk result ((n : ℕ) (exit : Option ℕ) → Says code.old code.new n exit (Change (is_down direction) (place_of place.now) (kind_view kind) (expression_of value.now))) }
{
    let computes = change_instr(direction, kind);
    let target = emit_target(code, place)?;
    emit_again(code, target)?;
    emit_expression(code, value)?;
    emit_under(code, target)?;
    code.put(computes)?;
    emit_test(code, kind, counted_base(kind))?;
    emit_store(code, target)
}

/// Appends the code of INCL or EXCL: the address of the set, the number, its test, and the instruction that puts it in or
/// takes it out.
pub(crate) fn emit_member(
    code: &mut CodeBuffer<'_>,
    membership: Membership,
    place: &RPlace,
    kind: RKind,
    number: &RExpr,
) -> Result<(), Memory>
    ensures { OnOk result ((n : ℕ) (exit : Option ℕ) → Says code.old code.new n exit (Member (is_out membership) (place_of place.now) (kind_view kind) (expression_of number.now))) }
{
    emit_address_of(code, place)?;
    emit_tested(code, kind, number)?;
    code.put(member_instr(membership))?;
    Ok(())
}

/// The instruction by which a number joins a set, or leaves it.
fn member_instr(membership: Membership) -> Instr
    ensures is { result ≡ member_code (is_out membership) }
    ensures sayable { Sayable result }
{
    match membership {
        Membership::Joins => Instr::Icl,
        Membership::Leaves => Instr::Ecl,
    }
}

/// Appends the code of NEW: the address of the pointer, the words of what pointers of its type point to, and the instruction
/// that takes a block of so many.
pub(crate) fn emit_new(
    code: &mut CodeBuffer<'_>,
    place: &RPlace,
    pointer: usize,
) -> Result<(), Memory>
    ensures { OnOk result ((n : ℕ) (exit : Option ℕ) → Says code.old code.new n exit (New (place_of place.now) pointer)) }
{
    emit_address_of(code, place)?;
    let words = code.words(code.target(pointer));
    code.put_all(&[Instr::Liw(words), Instr::Alc])?;
    Ok(())
}

/// Appends the code of ALLOCATE or DEALLOCATE: the place of the address, the number of words, its test, and what gives the
/// address a workspace of so many, or makes it NIL.
pub(crate) fn emit_allocate(
    code: &mut CodeBuffer<'_>,
    allocation: Allocation,
    place: &RPlace,
    words: &RExpr,
) -> Result<(), Memory>
    ensures { OnOk result ((n : ℕ) (exit : Option ℕ) → Says code.old code.new n exit (Allocate (is_back allocation) (place_of place.now) (expression_of words.now))) }
{
    let cardinal = RKind {
        base: RBase::Cardinal,
        range: None,
    };
    emit_address_of(code, place)?;
    emit_tested(code, cardinal, words)?;
    emit_allocation(code, allocation)?;
    Ok(())
}

/// Appends what takes a block for the address, of the words on the expression stack, or drops their number and stores NIL.
fn emit_allocation(code: &mut CodeBuffer<'_>, allocation: Allocation) -> Result<(), Memory>
    ensures { OnOk result (Emits code.old code.new (DoingAll (allocate_code (is_back allocation)))) }
{
    match allocation {
        Allocation::Takes => code.put_all(&[Instr::Alc]),
        Allocation::GivesBack => code.put_all(&[Instr::Drp, Instr::Liw(0), Instr::Sti]),
    }
}

/// Appends the code of a call of a resident procedure: the arguments, each with its test, and the request.
pub(crate) fn emit_request(
    code: &mut CodeBuffer<'_>,
    request: Request,
    given: &[RArgument],
) -> Result<(), Memory>
    ensures { OnOk result ((n : ℕ) (exit : Option ℕ) → Says code.old code.new n exit (resolved.Request request (arguments_of given.now))) }
{
    emit_arguments(code, given)?;
    code.put(Instr::Svc(request.number()))
}

/// Appends the code of arguments, each with its test.
fn emit_arguments(code: &mut CodeBuffer<'_>, given: &[RArgument]) -> Result<(), Memory>
    ensures { OnOk result (Adds (flat_map argument_part given.now) code.old code.new (Each ArgumentPart given.now)) }
{
    for argument in given {
        emit_argument(code, argument, false)?;
    }
    Ok(())
}

/// Appends the code of a call of the procedure that is a value: the value, and the call behind it.
pub(crate) fn emit_called_value(
    code: &mut CodeBuffer<'_>,
    value: &RExpr,
    given: &[RArgument],
) -> Result<(), Memory>
    ensures { OnOk result ((n : ℕ) (exit : Option ℕ) → Says code.old code.new n exit (CallValue (expression_of value.now) (arguments_of given.now))) }
{
    emit_expression(code, value)?;
    emit_value_call(code, given)
}

/// Appends the code of an EXIT: a jump behind the LOOP around it.
pub(crate) fn emit_exit(code: &mut CodeBuffer<'_>, around: Around) -> Result<(), Memory>
    ensures { OnOk result (Says code.old code.new around.words around.exit Exit) }
{
    match around.exit {
        None => Ok(()),
        Some(to) => code.jump(Aim::Always, to),
    }
}

/// Appends the code of a RETURN with a value: the value, its test, and the return.
pub(crate) fn emit_answer(
    code: &mut CodeBuffer<'_>,
    kind: RKind,
    answer: &RExpr,
) -> Result<(), Memory>
    ensures { OnOk result ((n : ℕ) (exit : Option ℕ) → Says code.old code.new n exit (Answer (kind_view kind) (expression_of answer.now))) }
{
    emit_tested(code, kind, answer)?;
    code.put(Instr::Rtn)
}
