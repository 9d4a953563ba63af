//! The code of resolved statements.

ghost use Rattle.std.specs.{Prelude.{◌≡◌, true, length, IfOk, OnOk}, List.flat_map};
ghost use Rattle.lil_resolved.specs.{Resolved.{While, Repeat, Loop, For, Inside}, Views.{named_view, variable_kind, expression_of, place_of, statement_of, statements_of}, Sizes.body_strings};
ghost use Rattle.lil_labels.specs.Drafts.{Each, Adds, Emits};
ghost use Rattle.lil_stmt.specs.{Generating.{Says, Body, GuardPart, guard_part, ArmPart, ArmBody, arm_part, Trapping, paired}, Forms.is_case};

use crate::cases::emit_choice;
use crate::kinds::{emit_turn_test, loop_sign};
use crate::loops::loop_place;
use crate::simple::{
    emit_allocate, emit_answer, emit_assign, emit_called_value, emit_change, emit_copy, emit_exit,
    emit_member, emit_new, emit_request, emit_text,
};
use crate::starts::emit_align;
use crate::targets::emit_store;
use lil_asm::Instr;
use lil_base::Memory;
use lil_expr::{emit_address_of, emit_call, emit_expression, variable_access, word_of_number};
use lil_labels::{Aim, CodeBuffer};
use lil_resolved::{RArm, RExpr, RGuard, RPlace, RStmt, RVariable};

/// What stands around a statement: how many words of the frame the variables, the FORs and the WITHs take, up to 65,535, and
/// the label of the place behind the LOOP, where there is one.
#[derive(Clone, Copy)]
pub struct Around {
    pub words: u16,
    pub exit: Option<usize>,
}

/// Appends the code of statements, one behind another.
#[cycle(emitting)]
pub fn emit_body(code: &mut CodeBuffer<'_>, body: &[RStmt], around: Around) -> Result<(), Memory>
    ensures { OnOk result (Adds (body_strings (statements_of body.now)) code.old code.new (Body around.words around.exit (statements_of body.now))) }
{
    for statement in body {
        emit_statement(code, statement, around)?;
    }
    Ok(())
}

/// Appends the code of a statement.
#[cycle(emitting)]
fn emit_statement(
    code: &mut CodeBuffer<'_>,
    statement: &RStmt,
    around: Around,
) -> Result<(), Memory>
    ensures { OnOk result (Adds (body_strings (statement_of statement.now)) code.old code.new (Body around.words around.exit (statement_of statement.now))) }
{
    match statement {
        RStmt::If(guards, otherwise) => {
            let end = code.fresh()?;
            emit_guards(code, guards.as_slice(), end, around)?;
            emit_body(code, otherwise.as_slice(), around)?;
            code.here(end);
            Ok(())
        }
        RStmt::Case(_, _, _) => emit_case(code, statement, around),
        RStmt::While(condition, body) => emit_while(code, body.as_slice(), condition, around),
        RStmt::Repeat(body, condition) => emit_repeat(code, body.as_slice(), condition, around),
        RStmt::Loop(body) => emit_loop(code, body.as_slice(), around),
        RStmt::For(variable, from, to, step, body) => {
            emit_for(code, body.as_slice(), *variable, from, to, *step, around)
        }
        RStmt::With(place, body) => emit_with(code, body.as_slice(), place, around),
        RStmt::Assign(place, kind, value) => emit_assign(code, place, *kind, value),
        RStmt::Copy(place, from) => emit_copy(code, place, from),
        RStmt::Text(place, text) => emit_text(code, place, text.get()),
        RStmt::Change(way, place, kind, value) => emit_change(code, *way, place, *kind, value),
        RStmt::Member(way, place, kind, value) => emit_member(code, *way, place, *kind, value),
        RStmt::New(place, pointer) => emit_new(code, place, *pointer),
        RStmt::Allocate(way, place, words) => emit_allocate(code, *way, place, words),
        RStmt::Request(request, given) => emit_request(code, *request, given.as_slice()),
        RStmt::Exit => emit_exit(code, around),
        RStmt::Halt => code.put(Instr::Trp(9)),
        RStmt::Return => code.put(Instr::Rtn),
        RStmt::Answer(kind, value) => emit_answer(code, *kind, value),
        RStmt::Call(procedure, levels, given) => {
            emit_call(code, *procedure, *levels, given.as_slice())
        }
        RStmt::CallValue(value, given) => emit_called_value(code, value, given.as_slice()),
    }
}

/// Appends the code of a CASE: the value, a jump to the table, the exit, the arms, what stands behind ELSE, and the table.
#[cycle(emitting)]
fn emit_case(code: &mut CodeBuffer<'_>, statement: &RStmt, around: Around) -> Result<(), Memory>
    requires { is_case statement.now ≡ true }
    ensures { OnOk result (Adds (body_strings (statement_of statement.now)) code.old code.new (Body around.words around.exit (statement_of statement.now))) }
{
    let RStmt::Case(value, arms, otherwise) = statement else {
        unreachable!()
    };
    let table = code.fresh()?;
    let end = code.fresh()?;
    emit_expression(code, value)?;
    code.jump(Aim::Always, table)?;
    let leave = code.mark()?;
    code.jump(Aim::Always, end)?;
    let labels = emit_arms(code, arms.as_slice(), leave, around)?;
    let other = match otherwise {
        None => emit_no_arm(code)?,
        Some(body) => emit_arm(code, body.as_slice(), leave, around)?,
    };
    code.here(table);
    emit_choice(code, arms.as_slice(), labels.as_slice(), other)?;
    code.here(end);
    Ok(())
}

/// Appends the code of the guards of an IF that ends at a label.
#[cycle(emitting)]
fn emit_guards(
    code: &mut CodeBuffer<'_>,
    guards: &[RGuard],
    end: usize,
    around: Around,
) -> Result<(), Memory>
    ensures { OnOk result (Adds (flat_map guard_part guards.now) code.old code.new (Each (GuardPart around.words around.exit end) guards.now)) }
{
    for guard in guards {
        emit_guard(code, guard, end, around)?;
    }
    Ok(())
}

/// Appends the code of a guard of an IF that ends at a label: the condition, a jump behind this guard where it is FALSE,
/// the statements, and a jump to the end.
#[cycle(emitting)]
fn emit_guard(
    code: &mut CodeBuffer<'_>,
    guard: &RGuard,
    end: usize,
    around: Around,
) -> Result<(), Memory>
    ensures { OnOk result (Adds (guard_part guard.now) code.old code.new (GuardPart around.words around.exit end guard.now)) }
{
    emit_expression(code, &guard.condition)?;
    let other = code.fresh()?;
    code.jump(Aim::IfFalse, other)?;
    emit_body(code, guard.body.as_slice(), around)?;
    code.jump(Aim::Always, end)?;
    code.here(other);
    Ok(())
}

/// Appends the bodies of arms, each with a jump to the exit, and gives the labels of their places.
#[cycle(emitting)]
fn emit_arms(
    code: &mut CodeBuffer<'_>,
    arms: &[RArm],
    leave: usize,
    around: Around,
) -> Result<Vec<usize>, Memory>
    ensures many { IfOk result (λ labels. length labels.items ≡ length arms.now) }
    ensures emits { IfOk result (λ labels. Adds (flat_map arm_part arms.now) code.old code.new (Each (ArmBody around.words around.exit leave) (paired arms.now labels.items))) }
{
    let mut labels = Vec::new(code.alloc());
    for arm in arms {
        let label = emit_arm(code, arm.body.as_slice(), leave, around)?;
        labels.push(label)?;
    }
    Ok(labels)
}

/// Appends the statements of an arm, and a jump to the exit. It gives the label of their place.
#[cycle(emitting)]
fn emit_arm(
    code: &mut CodeBuffer<'_>,
    body: &[RStmt],
    leave: usize,
    around: Around,
) -> Result<usize, Memory>
    ensures { IfOk result (λ label. Adds (body_strings (statements_of body.now)) code.old code.new (ArmPart around.words around.exit leave label (statements_of body.now))) }
{
    let label = code.mark()?;
    emit_body(code, body, around)?;
    code.jump(Aim::Always, leave)?;
    Ok(label)
}

/// Appends the trap of a CASE without ELSE. It gives the label of its place.
#[tactic(auto, using(crate::proofs::Stating::trap_marked))]
fn emit_no_arm(code: &mut CodeBuffer<'_>) -> Result<usize, Memory>
    ensures { IfOk result (λ label. Emits code.old code.new (Trapping label)) }
{
    let label = code.mark()?;
    code.put(Instr::Trp(7))?;
    Ok(label)
}

/// Appends the code of a WHILE: the condition, a jump behind all where it is FALSE, the statements, and a jump back.
#[cycle(emitting)]
fn emit_while(
    code: &mut CodeBuffer<'_>,
    body: &[RStmt],
    condition: &RExpr,
    around: Around,
) -> Result<(), Memory>
    ensures { OnOk result (Says code.old code.new around.words around.exit (While (expression_of condition.now) (statements_of body.now))) }
{
    let again = code.mark()?;
    emit_expression(code, condition)?;
    let end = code.fresh()?;
    code.jump(Aim::IfFalse, end)?;
    emit_body(code, body, around)?;
    code.jump(Aim::Always, again)?;
    code.here(end);
    Ok(())
}

/// Appends the code of a REPEAT: the statements, the condition, and a jump back where it is FALSE.
#[cycle(emitting)]
fn emit_repeat(
    code: &mut CodeBuffer<'_>,
    body: &[RStmt],
    condition: &RExpr,
    around: Around,
) -> Result<(), Memory>
    ensures { OnOk result (Says code.old code.new around.words around.exit (Repeat (statements_of body.now) (expression_of condition.now))) }
{
    let again = code.mark()?;
    emit_body(code, body, around)?;
    emit_expression(code, condition)?;
    code.jump(Aim::IfFalse, again)
}

/// Appends the code of a LOOP: the statements, and a jump back. EXITs in it jump behind that.
#[cycle(emitting)]
fn emit_loop(code: &mut CodeBuffer<'_>, body: &[RStmt], around: Around) -> Result<(), Memory>
    ensures { OnOk result (Says code.old code.new around.words around.exit (Loop (statements_of body.now))) }
{
    let again = code.mark()?;
    let end = code.fresh()?;
    let inside = Around {
        words: around.words,
        exit: Some(end),
    };
    emit_body(code, body, inside)?;
    code.jump(Aim::Always, again)?;
    code.here(end);
    Ok(())
}

/// Appends the code of a FOR: the first value, the last, what brings the first to the type of the last, the step, and the
/// turns. Each turn tests its value and stores it in the variable, and the statements follow.
#[cycle(emitting)]
fn emit_for(
    code: &mut CodeBuffer<'_>,
    body: &[RStmt],
    variable: RVariable,
    from: &RExpr,
    to: &RExpr,
    step: i16,
    around: Around,
) -> Result<(), Memory>
    ensures { OnOk result (Says code.old code.new around.words around.exit (For (named_view variable.named) (variable_kind variable) (expression_of from.now) (expression_of to.now) step (statements_of body.now))) }
{
    emit_expression(code, from)?;
    emit_expression(code, to)?;
    let end = code.fresh()?;
    emit_align(code, variable.kind, from, step, end)?;
    code.put(Instr::Liw(word_of_number(i32::from(step))))?;
    let place = loop_place(around.words);
    code.jump(Aim::Enter(place, loop_sign(variable.kind)), end)?;
    let turn = code.mark()?;
    code.put(Instr::Llw(place))?;
    emit_turn_test(code, variable.kind)?;
    let lies = code.variable(variable.named);
    emit_store(code, variable_access(variable.named, lies.offset))?;
    let inside = Around {
        words: around.words.saturating_add(3),
        exit: around.exit,
    };
    emit_body(code, body, inside)?;
    code.jump(Aim::Turn(place), turn)?;
    code.here(end);
    Ok(())
}

/// Appends the code of a WITH: the address of its record, which goes to a word of the frame, and the statements.
#[cycle(emitting)]
fn emit_with(
    code: &mut CodeBuffer<'_>,
    body: &[RStmt],
    place: &RPlace,
    around: Around,
) -> Result<(), Memory>
    ensures { OnOk result (Says code.old code.new around.words around.exit (Inside (place_of place.now) (statements_of body.now))) }
{
    let shape = emit_address_of(code, place)?;
    let word = loop_place(around.words);
    code.put(Instr::Slw(word))?;
    code.hold(word, shape)?;
    let inside = Around {
        words: around.words.saturating_add(1),
        exit: around.exit,
    };
    emit_body(code, body, inside)?;
    code.release();
    Ok(())
}
