//! The words of the frame that the FORs and the WITHs in statements take: three each FOR, and one each WITH. Numbers of words
//! go up to 65,535, which stands for more too.

ghost use Rattle.std.specs.Prelude.{◌≡◌, ◌+◌, min, [], None};
ghost use Rattle.lil_resolved.specs.Sizes as spec;
ghost use Rattle.lil_resolved.specs.Views as view;
ghost use Rattle.lil_table.specs.Rows as rows;

use lil_resolved::{RArm, RGuard, RStmt};

/// The words of the frame of statements: its mark, those of their variables, and those of their FORs and WITHs.
pub fn frame_words(locals_words: u16, body: &[RStmt]) -> u16
    ensures { result ≡ rows.framed (rows.loop_place locals_words + spec.body_words (view.statements_of body.now)) }
{
    loop_place(locals_words).saturating_add(body_words(body))
}

/// Where a FOR or a WITH has its words in the frame, where the variables and those around it take so many.
pub(crate) fn loop_place(words: u16) -> u16
    ensures { result ≡ rows.framed (rows.loop_place words) }
{
    words.saturating_add(4)
}

/// The words of the FORs and WITHs in a statement, in one another too.
#[cycle(counting)]
#[tactic(auto, using(crate::proofs::Counting::if_words, crate::proofs::Counting::case_words))]
fn statement_words(statement: &RStmt) -> u16
    ensures { result ≡ min 65535 (spec.body_words (view.statement_of statement.now)) }
{
    match statement {
        RStmt::If(guards, otherwise) => {
            guards_words(guards.as_slice()).saturating_add(body_words(otherwise.as_slice()))
        }
        RStmt::Case(_, arms, otherwise) => {
            let words = arms_words(arms.as_slice());
            match otherwise {
                None => words,
                Some(body) => words.saturating_add(body_words(body.as_slice())),
            }
        }
        RStmt::While(_, body) | RStmt::Repeat(body, _) | RStmt::Loop(body) => {
            body_words(body.as_slice())
        }
        RStmt::For(_, _, _, _, body) => body_words(body.as_slice()).saturating_add(3),
        RStmt::With(_, body) => body_words(body.as_slice()).saturating_add(1),
        RStmt::Assign(_, _, _)
        | RStmt::Copy(_, _)
        | RStmt::Text(_, _)
        | RStmt::Change(_, _, _, _)
        | RStmt::Member(_, _, _, _)
        | RStmt::New(_, _)
        | RStmt::Allocate(_, _, _)
        | RStmt::Request(_, _)
        | RStmt::Exit
        | RStmt::Halt
        | RStmt::Return
        | RStmt::Answer(_, _)
        | RStmt::Call(_, _, _)
        | RStmt::CallValue(_, _) => 0,
    }
}

/// Those in statements.
#[cycle(counting)]
#[tactic(auto, using(crate::proofs::Counting::body_words_next))]
fn body_words(body: &[RStmt]) -> u16
    ensures { result ≡ min 65535 (spec.body_words (view.statements_of body.now)) }
{
    let mut words: u16 = 0;
    for statement in body {
        words = words.saturating_add(statement_words(statement));
    }
    words
}

/// Those in guards.
#[cycle(counting)]
#[tactic(auto, using(crate::proofs::Counting::guards_words_next))]
fn guards_words(guards: &[RGuard]) -> u16
    ensures { result ≡ min 65535 (spec.body_words (view.guards_of guards.now [])) }
{
    let mut words: u16 = 0;
    for guard in guards {
        words = words.saturating_add(body_words(guard.body.as_slice()));
    }
    words
}

/// Those in the arms of a CASE.
#[cycle(counting)]
#[tactic(auto, using(crate::proofs::Counting::arms_words_next))]
fn arms_words(arms: &[RArm]) -> u16
    ensures { result ≡ min 65535 (spec.arms_words (view.arms_of arms.now None)) }
{
    let mut words: u16 = 0;
    for arm in arms {
        words = words.saturating_add(body_words(arm.body.as_slice()));
    }
    words
}
