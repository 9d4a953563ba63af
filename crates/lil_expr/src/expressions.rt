//! The code of expressions and of places.

ghost use Rattle.std.specs.{Prelude.{◌≡◌, IfOk, OnOk}, List.flat_map};
ghost use Rattle.lil_base.specs.Words as words;
ghost use Rattle.lil_resolved.specs.{Kinds.OfWhole, Sizes.{expression_strings, place_strings}, Views.{base_view, kind_view, expression_of, place_of}};
ghost use Rattle.lil_table.specs.Rows.{two_code, one_code, number_code, set_code};
ghost use Rattle.lil_labels.specs.Drafts.{DoingAll, Each, Adds, Emits};
ghost use Rattle.lil_expr.specs.{Accesses.access_view, Generating.{Addressed, Found, Selecting, Value, Tested, Stored, Joining, Operating, aim_of, selector_part, member_part, operation_part}};

use crate::calls::emit_invoked;
use crate::functions::emit_function;
use crate::numbers::constant_word;
use crate::opened::frame_load;
use crate::places::{Access, Reached, emit_address, emit_load, further};
use crate::ranges::{emit_test, least_word};
use crate::roots::emit_root;
use lil_asm::Instr;
use lil_base::Memory;
use lil_labels::{Aim, CodeBuffer};
use lil_resolved::{
    OneOp, RBase, RExpr, RKind, RMember, RNamed, ROperation, RPlace, RSelector, TwoOp, base,
};

/// Appends the code that leaves an expression's value on the expression stack.
#[cycle(emitting)]
pub fn emit_expression(code: &mut CodeBuffer<'_>, e: &RExpr) -> Result<(), Memory>
    ensures { OnOk result (Adds (expression_strings (expression_of e.now)) code.old code.new (Value (expression_of e.now))) }
{
    match e {
        RExpr::Constant(base, number) => code.put(Instr::Liw(constant_word(*base, *number))),
        RExpr::Taken(place, _) => {
            let at = emit_place(code, place)?;
            emit_load(code, at.access)
        }
        RExpr::One(operator, value) => {
            emit_expression(code, value.get())?;
            emit_one(code, *operator)
        }
        RExpr::Chain(first, operations) => {
            emit_expression(code, first.get())?;
            emit_operations(code, operations.as_slice())
        }
        RExpr::Apply(function, value) => {
            emit_expression(code, value.get())?;
            emit_function(code, *function, base(value.get()))
        }
        RExpr::Set(kind, members) => {
            code.put(Instr::Liw(0))?;
            emit_members(code, *kind, members.as_slice())
        }
        // what stands on the expression stack is saved until the call has returned
        RExpr::Invoke(_, _, _, _) | RExpr::InvokeValue(_, _, _) => {
            code.put(Instr::Sav)?;
            emit_invoked(code, e)?;
            code.put(Instr::Rst(1))
        }
        RExpr::High(levels, number) => {
            let opened = code.variable(RNamed::Level(*levels, *number));
            code.put(frame_load(*levels, opened.offset.saturating_add(1)))
        }
        RExpr::Routine(procedure, _) => code.routine(*procedure),
    }
}

/// Appends the code of a place, and says how code then has it.
#[cycle(emitting)]
pub fn emit_place(code: &mut CodeBuffer<'_>, of: &RPlace) -> Result<Reached, Memory>
    ensures { IfOk result (λ at. Adds (place_strings (place_of of.now)) code.old code.new (Found (place_of of.now) (access_view at.access) at.shape)) }
{
    let selectors = of.selectors.as_slice();
    let mut at = emit_root(code, &of.root)?;
    for selector in selectors {
        at = emit_selector(code, selector, at)?;
    }
    Ok(at)
}

/// Appends the code of a place and of its address, and gives a number of its shape.
#[cycle(emitting)]
pub fn emit_address_of(code: &mut CodeBuffer<'_>, of: &RPlace) -> Result<usize, Memory>
    ensures { IfOk result (λ shape. Adds (place_strings (place_of of.now)) code.old code.new (Addressed (place_of of.now) shape)) }
{
    let at = emit_place(code, of)?;
    emit_address(code, at.access)?;
    Ok(at.shape)
}

/// Appends the code that goes on from a place to a part of it: none to a field; to an element the address of its array, the
/// index and its test, and the instruction that computes the element's address; to what a pointer points to the pointer's
/// word, and the test that it isn't NIL.
#[cycle(emitting)]
fn emit_selector(
    code: &mut CodeBuffer<'_>,
    selector: &RSelector,
    at: Reached,
) -> Result<Reached, Memory>
    ensures { IfOk result (λ part. Adds (selector_part selector.now) code.old code.new (Selecting selector.now (access_view at.access) at.shape (access_view part.access) part.shape)) }
{
    match selector {
        RSelector::Field(number) => {
            let field = code.part(at.shape, *number);
            Ok(Reached {
                access: further(at.access, field.offset),
                shape: field.shape,
            })
        }
        RSelector::Index(kind, index) => {
            let elements = code.elements(at.shape);
            let least = least_word(*kind);
            emit_address(code, at.access)?;
            emit_expression(code, index)?;
            emit_test(code, *kind, base(index))?;
            code.put(Instr::Ixc(least, elements.words))?;
            Ok(Reached {
                access: Access::OnTop,
                shape: elements.shape,
            })
        }
        RSelector::Follow(pointer) => {
            let shape = code.target(*pointer);
            emit_load(code, at.access)?;
            code.put(Instr::Nlt)?;
            Ok(Reached {
                access: Access::OnTop,
                shape,
            })
        }
    }
}

/// Appends the code of the members of a set, numbers of a kind, each of which joins the set that stands on the expression
/// stack before it.
#[cycle(emitting)]
fn emit_members(code: &mut CodeBuffer<'_>, kind: RKind, members: &[RMember]) -> Result<(), Memory>
    ensures { OnOk result (Adds (flat_map member_part members.now) code.old code.new (Each (Joining (kind_view kind)) members.now)) }
{
    for member in members {
        emit_member(code, kind, member)?;
    }
    Ok(())
}

/// Appends the code of a member: the first number and the last, each with its test, and the instruction that puts all from
/// one to the other into the set. A single number is both.
#[cycle(emitting)]
fn emit_member(code: &mut CodeBuffer<'_>, kind: RKind, member: &RMember) -> Result<(), Memory>
    ensures { OnOk result (Adds (member_part member.now) code.old code.new (Joining (kind_view kind) member.now)) }
{
    match member {
        RMember::Single(value) => {
            emit_tested(code, kind, value)?;
            code.put_all(&[Instr::Dup, Instr::Spn])
        }
        RMember::Span(low, high) => {
            emit_tested(code, kind, low)?;
            emit_tested(code, kind, high)?;
            code.put(Instr::Spn)
        }
    }
}

/// Appends the code of a value where one of a kind is wanted, and its test.
#[cycle(emitting)]
pub fn emit_tested(code: &mut CodeBuffer<'_>, kind: RKind, value: &RExpr) -> Result<(), Memory>
    ensures tested { OnOk result (Adds (expression_strings (expression_of value.now)) code.old code.new (Tested (kind_view kind) (expression_of value.now))) }
    ensures stored { OnOk result (Adds (expression_strings (expression_of value.now)) code.old code.new (Stored (expression_of value.now) (kind_view kind))) }
{
    emit_expression(code, value)?;
    emit_test(code, kind, base(value))?;
    Ok(())
}

/// Appends the code of operations, each on the value that stands on the expression stack before it.
#[cycle(emitting)]
fn emit_operations(code: &mut CodeBuffer<'_>, operations: &[ROperation]) -> Result<(), Memory>
    ensures { OnOk result (Adds (flat_map operation_part operations.now) code.old code.new (Each Operating operations.now)) }
{
    for operation in operations {
        emit_operation(code, operation)?;
    }
    Ok(())
}

/// Appends the code of an operation: the operand and an instruction, or a jump over the operand where the value before
/// it may decide.
#[cycle(emitting)]
fn emit_operation(code: &mut CodeBuffer<'_>, operation: &ROperation) -> Result<(), Memory>
    ensures { OnOk result (Adds (operation_part operation.now) code.old code.new (Operating operation.now)) }
{
    match jump_over(operation.operator) {
        Some(aim) => {
            let end = code.fresh()?;
            code.jump(aim, end)?;
            emit_expression(code, &operation.operand)?;
            code.here(end);
            Ok(())
        }
        // the operand has the kind of the value before it, or is the set of IN
        None => {
            emit_expression(code, &operation.operand)?;
            emit_two(code, operation.operator, base(&operation.operand))
        }
    }
}

/// The jump over the right operand, where the left one may decide.
fn jump_over(operator: TwoOp) -> Option<Aim>
    ensures { result ≡ aim_of operator }
{
    match operator {
        TwoOp::And => Some(Aim::And),
        TwoOp::Or => Some(Aim::Or),
        _ => None,
    }
}

/// Appends the instructions of an operator on one value.
fn emit_one(code: &mut CodeBuffer<'_>, operator: OneOp) -> Result<(), Memory>
    ensures { OnOk result (Emits code.old code.new (DoingAll (one_code operator (OfWhole words.Integer)))) }
{
    match operator {
        OneOp::Plus => Ok(()),
        OneOp::Minus => code.put_all(&[Instr::Ngi]),
        OneOp::Not => code.put_all(&[Instr::Not]),
    }
}

/// Appends the instructions of an operator on two values of a base, and of IN on one and a set.
#[tactic(auto, using(crate::proofs::Operators::two_by_numbers, crate::proofs::Operators::two_by_sets))]
fn emit_two(code: &mut CodeBuffer<'_>, operator: TwoOp, base: RBase) -> Result<(), Memory>
    ensures { OnOk result (Emits code.old code.new (DoingAll (two_code operator (base_view base)))) }
{
    if operator == TwoOp::In {
        return code.put_all(&[Instr::Sin]);
    }
    match base {
        RBase::Set => emit_set(code, operator),
        RBase::Integer => emit_integer(code, operator),
        RBase::Cardinal
        | RBase::Truth
        | RBase::Character
        | RBase::Enumeration(_)
        | RBase::Pointer(_)
        | RBase::Address
        | RBase::Procedure(_) => emit_cardinal(code, operator),
    }
}

/// Appends the instructions of an operator on two sets.
fn emit_set(code: &mut CodeBuffer<'_>, operator: TwoOp) -> Result<(), Memory>
    ensures { OnOk result (Emits code.old code.new (DoingAll (set_code operator))) }
{
    match operator {
        TwoOp::Equal => code.put_all(&[Instr::Equ]),
        TwoOp::Unequal => code.put_all(&[Instr::Neq]),
        TwoOp::AtMost => code.put_all(&[Instr::Sle]),
        TwoOp::AtLeast => code.put_all(&[Instr::Swp, Instr::Sle]),
        TwoOp::Plus => code.put_all(&[Instr::Uni]),
        TwoOp::Minus => code.put_all(&[Instr::Dif]),
        TwoOp::Times => code.put_all(&[Instr::Its]),
        TwoOp::Slash => code.put_all(&[Instr::Sym]),
        _ => Ok(()),
    }
}

/// Appends the instructions of an operator on two numbers that are compared as CARDINALs.
fn emit_cardinal(code: &mut CodeBuffer<'_>, operator: TwoOp) -> Result<(), Memory>
    ensures { OnOk result (Emits code.old code.new (DoingAll (number_code operator words.Cardinal))) }
{
    match operator {
        TwoOp::Equal => code.put_all(&[Instr::Equ]),
        TwoOp::Unequal => code.put_all(&[Instr::Neq]),
        TwoOp::Less => code.put_all(&[Instr::Lsc]),
        TwoOp::AtMost => code.put_all(&[Instr::Lec]),
        TwoOp::Greater => code.put_all(&[Instr::Swp, Instr::Lsc]),
        TwoOp::AtLeast => code.put_all(&[Instr::Swp, Instr::Lec]),
        TwoOp::Plus => code.put_all(&[Instr::Adc]),
        TwoOp::Minus => code.put_all(&[Instr::Sbc]),
        TwoOp::Times => code.put_all(&[Instr::Mlc]),
        TwoOp::Div => code.put_all(&[Instr::Dvc]),
        TwoOp::Mod => code.put_all(&[Instr::Mdc]),
        TwoOp::And | TwoOp::Or | TwoOp::In | TwoOp::Slash => Ok(()),
    }
}

/// Appends the instructions of an operator on two INTEGERs.
fn emit_integer(code: &mut CodeBuffer<'_>, operator: TwoOp) -> Result<(), Memory>
    ensures { OnOk result (Emits code.old code.new (DoingAll (number_code operator words.Integer))) }
{
    match operator {
        TwoOp::Equal => code.put_all(&[Instr::Equ]),
        TwoOp::Unequal => code.put_all(&[Instr::Neq]),
        TwoOp::Less => code.put_all(&[Instr::Lsi]),
        TwoOp::AtMost => code.put_all(&[Instr::Lei]),
        TwoOp::Greater => code.put_all(&[Instr::Swp, Instr::Lsi]),
        TwoOp::AtLeast => code.put_all(&[Instr::Swp, Instr::Lei]),
        TwoOp::Plus => code.put_all(&[Instr::Adi]),
        TwoOp::Minus => code.put_all(&[Instr::Sbi]),
        TwoOp::Times => code.put_all(&[Instr::Mli]),
        TwoOp::Div => code.put_all(&[Instr::Dvi]),
        TwoOp::Mod => code.put_all(&[Instr::Mdi]),
        TwoOp::And | TwoOp::Or | TwoOp::In | TwoOp::Slash => Ok(()),
    }
}
