//! The third part: the code of a module, along the statements of its text, and behind it that of its procedures.
//! Statements have code in the order of the text, and each part of one ends with an instruction of its own kind.

use crate::instructions::{Code, Step, instr_text, step_at};
use crate::page::{Page, shown};
use crate::source::Source;
use lil_asm::{Instr, word_of_bytes};
use lil_base::{Items, Memory, Place};
use lil_language::{Arm, Block, Decl, Guard, Stmt, Unit, first_place};
use std::alloc::Global;

/// A page that shows code, and how far it has come.
#[derive(Drop)]
struct Walk<'t> {
    page: &'t mut Page,
    source: Source<'t>,
    code: Code<'t>,
    place: usize,
}

/// With which instruction a part ends: the only one, one that stores, asks or leaves, the test of a condition, the one
/// that enters a FOR, or the one that keeps the record of a WITH.
#[derive(Clone, Copy)]
enum Ending {
    Only,
    Effect,
    Test,
    Turns,
    Kept,
}

/// Whether a part ends with an instruction, which has this one after it. A call that RST follows is of a function, whose
/// value goes on.
fn is_last(ending: Ending, instr: Instr, after: Option<Step>) -> bool {
    match ending {
        Ending::Only => true,
        Ending::Test => matches!(instr, Instr::Jpf(_)),
        Ending::Turns => matches!(instr, Instr::Fri(_, _, _)),
        Ending::Kept => matches!(instr, Instr::Slw(_)),
        Ending::Effect => match instr {
            Instr::Cll(_, _) | Instr::Clf(_) => {
                !matches!(after, Some(step) if matches!(step.instr, Instr::Rst(_)))
            }
            _ => matches!(
                instr,
                Instr::Sgw(_)
                    | Instr::Sti
                    | Instr::Mov(_)
                    | Instr::Mvz(_, _)
                    | Instr::Icl
                    | Instr::Ecl
                    | Instr::Alc
                    | Instr::Svc(_)
                    | Instr::Jmp(_)
                    | Instr::Rtn
                    | Instr::Trp(_)
            ),
        },
    }
}

/// Bytes as pairs of digits of base 16.
fn bytes_text(alloc: Global, bytes: &[u8]) -> Result<String, Memory> {
    let mut text = String::new(alloc);
    for byte in bytes {
        if !text.is_empty() {
            text.push(' ')?;
        }
        text.push_str(format!(in alloc; "{byte:02x}")?.as_str())?;
    }
    Ok(text)
}

/// Shows some bytes of the code, what they are, the line that they come from, and what stands there.
fn show_row(
    walk: &mut Walk<'_>,
    next: usize,
    what: &str,
    number: u32,
    part: &str,
) -> Result<(), Memory> {
    let alloc = walk.page.alloc();
    let bytes = bytes_text(alloc, walk.code.bytes.get(walk.place..next).unwrap_or(&[]))?;
    let place = walk.place;
    let line = format!(in alloc; "{place:>5}  {bytes:<17}  {what:<17} {number:>6}{part}")?;
    walk.page.line(line.as_str())?;
    walk.place = next;
    Ok(())
}

/// Shows the code up to the first instruction that ends a part like this, with what stands at its place in the text.
fn show_part(walk: &mut Walk<'_>, word: &str, at: Place, ending: Ending) -> Result<(), Memory> {
    let alloc = walk.page.alloc();
    let text = shown(alloc, walk.source.part(at))?;
    let mut part = format!(in alloc; "  {word}{text}")?;
    for _ in 0..walk.code.bytes.len() {
        let Some(step) = step_at(walk.code, walk.place) else {
            return Ok(());
        };
        show_step(walk, step, at.line, part.as_str())?;
        if is_last(ending, step.instr, step_at(walk.code, step.next)) {
            return Ok(());
        }
        part.clear();
    }
    Ok(())
}

fn show_step(walk: &mut Walk<'_>, step: Step, number: u32, part: &str) -> Result<(), Memory> {
    let alloc = walk.page.alloc();
    let first = walk.code.bytes.get(step.place).copied().unwrap_or(0);
    let what = instr_text(alloc, first, step.instr)?;
    show_row(walk, step.next, what.as_str(), number, part)?;
    match step.instr {
        Instr::Cas(count, _) => show_entries(walk, count, number),
        _ => Ok(()),
    }
}

/// The word at a place of the code, or 0 if none stands there.
fn word_at(code: Code<'_>, place: usize) -> u16 {
    if place < code.bytes.len() {
        word_of_bytes(code.bytes, place).unwrap_or(0)
    } else {
        0
    }
}

/// Shows so many entries of a CASE: the words from one to another, and the place for them.
fn show_entries(walk: &mut Walk<'_>, count: u16, number: u32) -> Result<(), Memory> {
    let alloc = walk.page.alloc();
    for _ in 0..count {
        let place = walk.place;
        let low = word_at(walk.code, place);
        let high = word_at(walk.code, place.saturating_add(2));
        let target = word_at(walk.code, place.saturating_add(4));
        let what = format!(in alloc; "{low}..{high}: {target}")?;
        show_row(walk, place.saturating_add(6), what.as_str(), number, "")?;
    }
    Ok(())
}

#[cycle(statement)]
fn show_body(body: &Items<Stmt>, walk: &mut Walk<'_>) -> Result<(), Memory> {
    for statement in body.as_slice() {
        show_statement(statement, walk)?;
    }
    Ok(())
}

#[cycle(statement)]
fn show_statement(of: &Stmt, walk: &mut Walk<'_>) -> Result<(), Memory> {
    match of {
        Stmt::Assign(designator, _, _) | Stmt::Call(designator, _) => {
            show_part(walk, "", designator.first.place, Ending::Effect)
        }
        Stmt::Exit(at) | Stmt::Return(at, _) => show_part(walk, "", *at, Ending::Effect),
        Stmt::If(at, guards, other) => {
            show_guards(guards, walk, *at)?;
            match other {
                Some(body) => show_body(body, walk),
                None => Ok(()),
            }
        }
        Stmt::Case(at, _, arms, other) => {
            show_part(walk, "", *at, Ending::Effect)?;
            show_part(walk, "exit of ", *at, Ending::Only)?;
            show_arms(arms, walk, *at)?;
            match other {
                Some(body) => {
                    show_body(body, walk)?;
                    show_part(walk, "after ELSE of ", *at, Ending::Only)?;
                }
                None => show_part(walk, "no arm of ", *at, Ending::Only)?,
            }
            show_part(walk, "table of ", *at, Ending::Only)
        }
        Stmt::While(at, _, body) => {
            show_part(walk, "", *at, Ending::Test)?;
            show_body(body, walk)?;
            show_part(walk, "again ", *at, Ending::Only)
        }
        Stmt::Repeat(_, body, condition) => {
            show_body(body, walk)?;
            show_part(walk, "UNTIL ", first_place(condition.get()), Ending::Test)
        }
        Stmt::Loop(at, body) => {
            show_body(body, walk)?;
            show_part(walk, "again ", *at, Ending::Only)
        }
        Stmt::For(at, _, body) => {
            show_part(walk, "", *at, Ending::Turns)?;
            show_part(walk, "each turn of ", *at, Ending::Effect)?;
            show_body(body, walk)?;
            show_part(walk, "again ", *at, Ending::Only)
        }
        Stmt::With(at, _, body) => {
            show_part(walk, "", *at, Ending::Kept)?;
            show_body(body, walk)
        }
    }
}

/// Shows the guards of an IF at a place.
#[cycle(statement)]
fn show_guards(guards: &Items<Guard>, walk: &mut Walk<'_>, at: Place) -> Result<(), Memory> {
    let mut begun = false;
    for guard in guards.as_slice() {
        let condition = first_place(guard.condition.get());
        if begun {
            show_part(walk, "ELSIF ", condition, Ending::Test)?;
        } else {
            show_part(walk, "", at, Ending::Test)?;
        }
        begun = true;
        show_body(&guard.body, walk)?;
        show_part(walk, "after a guard of ", at, Ending::Only)?;
    }
    Ok(())
}

/// Shows the arms of a CASE at a place.
#[cycle(statement)]
fn show_arms(arms: &Items<Arm>, walk: &mut Walk<'_>, at: Place) -> Result<(), Memory> {
    for arm in arms.as_slice() {
        show_body(&arm.body, walk)?;
        show_part(walk, "after an arm of ", at, Ending::Only)?;
    }
    Ok(())
}

/// Shows the code of the procedures that are declared, each before those inside of it.
#[cycle(procedure)]
fn show_procedures(of: &Items<Decl>, walk: &mut Walk<'_>) -> Result<(), Memory> {
    for declaration in of.as_slice() {
        if let Decl::ProcIs(heading, Some(block)) = declaration {
            show_procedure(heading.place, block, walk)?;
        }
    }
    Ok(())
}

#[cycle(procedure)]
fn show_procedure(at: Place, of: &Block, walk: &mut Walk<'_>) -> Result<(), Memory> {
    show_part(walk, "", at, Ending::Only)?;
    show_body(&of.body, walk)?;
    show_part(walk, "END ", of.end.place, Ending::Only)?;
    show_procedures(&of.decls, walk)
}

/// Shows the code of a unit, each instruction with the line that it comes from.
pub(crate) fn show_code(
    page: &mut Page,
    source: Source<'_>,
    unit: &Unit,
    code: Code<'_>,
) -> Result<(), Memory> {
    page.line("place  bytes              instruction         line  of which part")?;
    let mut walk = Walk {
        page,
        source,
        code,
        place: 0,
    };
    show_part(&mut walk, "", unit.head.place, Ending::Only)?;
    show_body(&unit.body, &mut walk)?;
    show_part(&mut walk, "END ", unit.end.place, Ending::Only)?;
    show_procedures(&unit.decls, &mut walk)?;
    for _ in walk.place..code.bytes.len() {
        show_part(&mut walk, "beyond END ", unit.end.place, Ending::Only)?;
    }
    Ok(())
}
