//! The code of calls, and of arguments.

ghost use Rattle.std.specs.Prelude.{◌≡◌, Bool, true, IfOk, OnOk};
ghost use Rattle.lil_resolved.specs.{Resolved.OfOpened, Sizes.{argument_strings, arguments_strings, expression_strings, place_strings}, Views.{argument_of, arguments_of, expression_of, place_of}};
ghost use Rattle.lil_labels.specs.Drafts.{Adds, Emits};
ghost use Rattle.lil_expr.specs.{Calling.{Argued, Blocked, Called, ValueCalled, Saved, Given, Pushed}, Forms.is_call};

use crate::expressions::{emit_address_of, emit_expression, emit_tested};
use crate::opened::{emit_second, frame_load};
use crate::spelled::emit_spelled;
use lil_asm::Instr;
use lil_base::Memory;
use lil_labels::CodeBuffer;
use lil_resolved::{RArgument, RExpr, RNamed, RPlace};

/// Appends a call of a procedure that is declared so many levels out: the mark, the arguments, each of which goes to the
/// frame that the mark begins, and the call itself. A frame that more words go to than a store has is never entered.
#[cycle(emitting)]
pub fn emit_call(
    code: &mut CodeBuffer<'_>,
    procedure: u8,
    levels: u8,
    given: &[RArgument],
) -> Result<(), Memory>
    ensures { OnOk result (Adds (arguments_strings (arguments_of given.now)) code.old code.new (Called procedure levels (arguments_of given.now))) }
{
    code.put(Instr::Mrk(levels))?;
    let words = emit_given(code, given)?;
    code.put(Instr::Cll(procedure, words))
}

/// Appends what follows the value of a procedure that is called: the mark, the arguments, and the call itself.
#[cycle(emitting)]
pub fn emit_value_call(code: &mut CodeBuffer<'_>, given: &[RArgument]) -> Result<(), Memory>
    ensures { OnOk result (Adds (arguments_strings (arguments_of given.now)) code.old code.new (ValueCalled (arguments_of given.now))) }
{
    code.put(Instr::Mrf)?;
    let words = emit_given(code, given)?;
    code.put(Instr::Clf(words))
}

/// Appends the call of a function, or the value of one and its call, which stands between what saves the words of the
/// expression stack and what restores them.
#[cycle(emitting)]
pub(crate) fn emit_invoked(code: &mut CodeBuffer<'_>, e: &RExpr) -> Result<(), Memory>
    requires { is_call e.now ≡ true }
    ensures { OnOk result (Adds (expression_strings (expression_of e.now)) code.old code.new (Saved (expression_of e.now))) }
{
    match e {
        RExpr::Invoke(procedure, levels, _, given) => {
            emit_call(code, *procedure, *levels, given.as_slice())
        }
        RExpr::InvokeValue(value, _, given) => {
            emit_expression(code, value.get())?;
            emit_value_call(code, given.as_slice())
        }
        _ => unreachable!(),
    }
}

/// Appends the code of the arguments of a call, and says how many words they take in the frame that it begins, up to 65,535.
#[cycle(emitting)]
fn emit_given(code: &mut CodeBuffer<'_>, given: &[RArgument]) -> Result<u16, Memory>
    ensures { IfOk result (λ words. Adds (arguments_strings (arguments_of given.now)) code.old code.new (Given words (arguments_of given.now))) }
{
    let mut words: u16 = 0;
    for argument in given {
        words = words.saturating_add(emit_pushed(code, argument)?);
    }
    Ok(words)
}

/// Appends the code of an argument, whose words go from the expression stack to the frame that a call begins, or all that lies
/// at a place or the characters of a string, and says how many words it takes there.
#[cycle(emitting)]
fn emit_pushed(code: &mut CodeBuffer<'_>, argument: &RArgument) -> Result<u16, Memory>
    ensures { IfOk result (λ words. Adds (argument_strings (argument_of argument.now)) code.old code.new (Pushed words (argument_of argument.now))) }
{
    match argument {
        RArgument::Value(_, _) | RArgument::Place(_) => {
            emit_argument(code, argument, true)?;
            code.put(Instr::Psh)?;
            Ok(1)
        }
        RArgument::All(place) => emit_block(code, place),
        RArgument::Array(_, _, _) | RArgument::Text(_) | RArgument::Opened(_, _, _) => {
            emit_argument(code, argument, true)?;
            code.put(Instr::Psh)?;
            Ok(2)
        }
        // a string goes there with its address
        RArgument::Spelled(_, count) => {
            emit_argument(code, argument, true)?;
            Ok(*count)
        }
    }
}

/// Appends the code of an argument of a call or a request: a value and its test, the address of a place, for an open array
/// the address of its first element and the number of the last one, or all of a string for an array by value.
#[cycle(emitting)]
pub fn emit_argument(
    code: &mut CodeBuffer<'_>,
    argument: &RArgument,
    calls: bool,
) -> Result<(), Memory>
    ensures { OnOk result (Adds (argument_strings (argument_of argument.now)) code.old code.new (Argued calls (argument_of argument.now))) }
{
    match argument {
        RArgument::Value(kind, value) => emit_tested(code, *kind, value),
        RArgument::Place(place) | RArgument::All(place) => {
            emit_address_of(code, place)?;
            Ok(())
        }
        RArgument::Array(_, place, high) => {
            emit_address_of(code, place)?;
            emit_second(code, calls, Instr::Liw(*high))
        }
        RArgument::Text(text) => {
            let text = text.get();
            let offset = code.string(text.as_slice())?;
            let high = (text.len().saturating_sub(1) % 65_536) as u16;
            code.put(Instr::Lag(offset))?;
            emit_second(code, calls, Instr::Liw(high))
        }
        RArgument::Opened(_, levels, number) => emit_handed_on(code, *levels, *number, calls),
        RArgument::Spelled(text, count) => emit_spelled(code, text.get(), *count),
    }
}

/// Appends the code of an open array that is a parameter and goes to another one.
fn emit_handed_on(
    code: &mut CodeBuffer<'_>,
    levels: u8,
    number: usize,
    calls: bool,
) -> Result<(), Memory>
    ensures { OnOk result ((copied : Bool) → Emits code.old code.new (Argued calls (OfOpened copied levels number))) }
{
    let opened = code.variable(RNamed::Level(levels, number));
    code.put(frame_load(levels, opened.offset))?;
    emit_second(
        code,
        calls,
        frame_load(levels, opened.offset.saturating_add(1)),
    )
}

/// Appends what brings all that lies at a place to the frame that a call begins, and says how many words it takes.
#[cycle(emitting)]
fn emit_block(code: &mut CodeBuffer<'_>, place: &RPlace) -> Result<u16, Memory>
    ensures { IfOk result (λ words. Adds (place_strings (place_of place.now)) code.old code.new (Blocked words (place_of place.now))) }
{
    let shape = emit_address_of(code, place)?;
    let words = code.words(shape);
    code.put(Instr::Psm(words))?;
    Ok(words)
}
