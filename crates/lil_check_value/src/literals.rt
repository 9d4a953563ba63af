//! Numbers, characters and texts as they stand in expressions.

ghost use Rattle.std.specs.Prelude.{◌≡◌, IfOk, false, true};
ghost use Rattle.lil_report.specs.Told.{Said};
ghost use Rattle.lil_resolved.specs.Sound.{is_text};
ghost use Rattle.lil_check_value.specs.Values as spec;

use lil_base::{FaultKind, Memory, Place, Shared, Text};
use lil_forms::note_characters;
use lil_kinds::{Form, Found};
use lil_operators::{constant_found, plain_found};
use lil_report::Report;
use lil_scope::{Chars, Kind};
use lil_types::CHAR;
use std::alloc::Global;

/// A whole number.
#[tactic(auto, unfolding(crate::specs::Values::whole_node, lil_report::specs::Told::tell))]
pub(crate) fn whole(report: &mut Report, first: Place, value: u16) -> Option<Found>
    ensures { Said (spec.whole_node first value) report.old result report.new }
{
    report.note(u32::from(value) > 65535, first, FaultKind::ConstRange);
    Some(constant_found(first, Kind::Whole(i32::from(value))))
}

/// A character by its code.
#[tactic(auto, unfolding(crate::specs::Values::code_node, lil_report::specs::Told::tell))]
pub(crate) fn code(report: &mut Report, first: Place, value: u8) -> Option<Found>
    ensures { Said (spec.code_node first value) report.old result report.new }
{
    report.note(u32::from(value) > 255, first, FaultKind::ConstRange);
    Some(constant_found(first, Kind::Scalar(CHAR, u16::from(value))))
}

fn first_of(text: &[u8]) -> u8
    ensures { result ≡ spec.first_of text.now }
{
    match text {
        [] => 0,
        [first, ..] => *first,
    }
}

fn text_found(alloc: Global, first: Place, text: &Text) -> Result<Found, Memory>
    ensures { IfOk result (λ a. a ≡ spec.text_found first text.now) }
{
    let chars = Chars {
        length: text.len(),
        first: first_of(text.as_slice()),
    };
    let copy = Text::from_slice(alloc, text.as_slice())?;
    let form = Form::Text(Shared::new(alloc, copy)?);
    Ok(plain_found(first, form, Kind::Chars(chars)))
}

/// Whether a text has a character that no byte has: never.
fn has_no_bytes(of: &Text) -> bool
    ensures value { result ≡ false }
    ensures text { is_text of.now ≡ true }
{
    note_characters(of.as_slice());
    false
}

/// What is known of a text, as it stands.
#[tactic(auto, unfolding(crate::specs::Values::text_node, lil_report::specs::Told::tell))]
fn told(report: &mut Report, first: Place, value: &Text, found: Found) -> Option<Found>
    requires { found ≡ spec.text_found first value.now }
    ensures { Said (spec.text_node first value.now) report.old result report.new }
{
    let wrong = has_no_bytes(value);
    report.note(wrong, first, FaultKind::ConstRange);
    Some(found)
}

/// A text between two marks.
pub(crate) fn text(
    alloc: Global,
    report: &mut Report,
    first: Place,
    value: &Text,
) -> Result<Option<Found>, Memory>
    ensures { IfOk result (λ o. Said (spec.text_node first value.now) report.old o report.new) }
{
    let found = text_found(alloc, first, value)?;
    Ok(told(report, first, value, found))
}
