//! The words of the strings of statements.

ghost use Rattle.std.specs.Prelude.{◌≡◌, ◌+◌, min};
ghost use Rattle.std.specs.List.{sum_by};
ghost use Rattle.lil_layout.specs.Strings as spec;

use crate::values::{arguments_words, expression_words, place_words, string_words};
use lil_resolved::{RArm, RExpr, RGuard, RPlace, RStmt};

/// The words of the strings in a statement.
#[cycle(statement)]
#[tactic(auto, using(crate::proofs::Bodies::assign_words, crate::proofs::Bodies::copy_words, crate::proofs::Bodies::string_words, crate::proofs::Bodies::change_words, crate::proofs::Bodies::member_changed_words, crate::proofs::Bodies::new_words, crate::proofs::Bodies::allocate_words, crate::proofs::Bodies::answer_words, crate::proofs::Bodies::call_words, crate::proofs::Bodies::call_value_words, crate::proofs::Bodies::while_words, crate::proofs::Bodies::repeat_words, crate::proofs::Bodies::for_words, crate::proofs::Bodies::inside_words, crate::proofs::Bodies::request_words, crate::proofs::Bodies::if_words, crate::proofs::Bodies::case_words))]
fn statement_words(of: &RStmt) -> u32
    ensures { result ≡ min (spec.statement_words of.now) 4294967295 }
{
    match of {
        RStmt::Exit | RStmt::Halt | RStmt::Return => 0,
        RStmt::Assign(place, _, value)
        | RStmt::Change(_, place, _, value)
        | RStmt::Member(_, place, _, value)
        | RStmt::Allocate(_, place, value) => stored_words(place, value),
        RStmt::Copy(place, from) => place_words(place).saturating_add(place_words(from)),
        RStmt::Text(place, text) => place_words(place).saturating_add(string_words(text.get())),
        RStmt::New(place, _) => place_words(place),
        RStmt::Request(_, given) | RStmt::Call(_, _, given) => arguments_words(given.as_slice()),
        RStmt::CallValue(value, given) => {
            expression_words(value).saturating_add(arguments_words(given.as_slice()))
        }
        RStmt::Answer(_, value) => expression_words(value),
        RStmt::If(guards, otherwise) => {
            let guarded = guards_words(guards.as_slice());
            guarded.saturating_add(body_words(otherwise.as_slice()))
        }
        RStmt::Case(value, arms, otherwise) => {
            let chosen = expression_words(value).saturating_add(arms_words(arms.as_slice()));
            match otherwise {
                Some(body) => chosen.saturating_add(body_words(body.as_slice())),
                None => chosen,
            }
        }
        RStmt::While(condition, body) | RStmt::Repeat(body, condition) => {
            expression_words(condition).saturating_add(body_words(body.as_slice()))
        }
        RStmt::Loop(body) => body_words(body.as_slice()),
        RStmt::For(_, from, to, _, body) => {
            let bounds = expression_words(from).saturating_add(expression_words(to));
            bounds.saturating_add(body_words(body.as_slice()))
        }
        RStmt::With(place, body) => {
            place_words(place).saturating_add(body_words(body.as_slice()))
        }
    }
}

/// Those in a place and in a value that goes there.
fn stored_words(place: &RPlace, value: &RExpr) -> u32
    ensures { result ≡ min (spec.place_words place.now + spec.expression_words value.now) 4294967295 }
{
    place_words(place).saturating_add(expression_words(value))
}

/// The words of the strings in statements, or 4,294,967,295 where they are more.
#[cycle(statement)]
pub fn body_words(of: &[RStmt]) -> u32
    ensures { result ≡ min (spec.body_words of.now) 4294967295 }
{
    let mut words: u32 = 0;
    for one in of {
        words = words.saturating_add(statement_words(one));
    }
    words
}

#[cycle(statement)]
fn guards_words(of: &[RGuard]) -> u32
    ensures { result ≡ min (sum_by spec.guard_words of.now) 4294967295 }
{
    let mut words: u32 = 0;
    for one in of {
        words = words.saturating_add(expression_words(&one.condition));
        words = words.saturating_add(body_words(one.body.as_slice()));
    }
    words
}

#[cycle(statement)]
fn arms_words(of: &[RArm]) -> u32
    ensures { result ≡ min (sum_by spec.arm_words of.now) 4294967295 }
{
    let mut words: u32 = 0;
    for one in of {
        words = words.saturating_add(body_words(one.body.as_slice()));
    }
    words
}
