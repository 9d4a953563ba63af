//! The tests that a number is one of a kind.

ghost use Rattle.std.specs.Prelude.{◌≡◌, ◌≤ℤ◌, pos, OnOk};
ghost use Rattle.lil_base.specs.Words.{word_of};
ghost use Rattle.lil_resolved.specs.Kinds as kinds;
ghost use Rattle.lil_resolved.specs.Views.{base_view, kind_view};
ghost use Rattle.lil_table.specs.Rows.{cut, range_code, test_code};
ghost use Rattle.lil_labels.specs.Drafts.{DoingAll, Emits};

use crate::numbers::word_of_number;
use lil_asm::Instr;
use lil_base::Memory;
use lil_labels::CodeBuffer;
use lil_resolved::{RBase, RKind, RRange};

/// The least number of the values of a base.
fn base_least(base: RBase) -> i32
    ensures { result ≡ kinds.least (base_view base) }
{
    match base {
        RBase::Integer => -32_768,
        _ => 0,
    }
}

/// The greatest number of the values of a base, from 0 to 65535.
fn base_greatest(base: RBase) -> i32
    ensures is { result ≡ kinds.greatest (base_view base) }
    ensures word { result ≤ℤ pos 65535 }
{
    match base {
        RBase::Cardinal | RBase::Set => 65_535,
        RBase::Integer => 32_767,
        RBase::Truth => 1,
        RBase::Character => 255,
        RBase::Enumeration(count) => i32::from(count.saturating_sub(1)),
        RBase::Pointer(_) | RBase::Address | RBase::Procedure(_) => 0,
    }
}

/// The least number of the values of a kind.
fn kind_least(kind: RKind) -> i32
    ensures { result ≡ kinds.least (kind_view kind) }
{
    let least = base_least(kind.base);
    match kind.range {
        None => least,
        Some(range) => larger(range.low, least),
    }
}

/// The greatest number of the values of a kind.
fn kind_greatest(kind: RKind) -> i32
    ensures { result ≡ kinds.greatest (kind_view kind) }
{
    let greatest = base_greatest(kind.base);
    match kind.range {
        None => greatest,
        Some(range) => lesser(range.high, greatest),
    }
}

/// The word of the least number of a kind, cut to 16 bits where it lies above 65535: such a kind has no values.
pub(crate) fn least_word(kind: RKind) -> u16
    ensures { result ≡ cut (word_of (kinds.least (kind_view kind))) }
{
    word_of_number(kind_least(kind))
}

fn larger(x: i32, y: i32) -> i32
    ensures { result ≡ kinds.larger x y }
{
    if x < y { y } else { x }
}

fn lesser(x: i32, y: i32) -> i32
    ensures is { result ≡ kinds.lesser x y }
    ensures at_most { result ≤ℤ y }
{
    if y < x { y } else { x }
}

/// Whether each number of a base is one of a kind.
pub fn covers(to: RKind, from: RBase) -> bool
    ensures { result ≡ kinds.covers (kind_view to) (base_view from) }
{
    kind_least(to) <= base_least(from) && base_greatest(from) <= kind_greatest(to)
}

/// The numbers that a kind and a base share; where they share none, from 1 to 0.
fn shared(to: RKind, from: RBase) -> RRange
    ensures is { (result.low, result.high) ≡ kinds.shared (kind_view to) (base_view from) }
    ensures words { (result.low ≤ℤ pos 65535) × (result.high ≤ℤ pos 65535) }
{
    let low = larger(kind_least(to), base_least(from));
    let high = lesser(kind_greatest(to), base_greatest(from));
    if high < low {
        return RRange { low: 1, high: 0 };
    }
    RRange { low, high }
}

/// The instruction that tests the number of a value of a base.
fn range_test(from: RBase, range: RRange) -> Instr
    requires { (range.low ≤ℤ pos 65535) × (range.high ≤ℤ pos 65535) }
    ensures { result ≡ range_code (kinds.compared_as (base_view from)) (range.low, range.high) }
{
    let low = word_of_number(range.low);
    let high = word_of_number(range.high);
    match from {
        RBase::Integer => Instr::Rgi(low, high),
        _ => Instr::Rgc(low, high),
    }
}

/// Appends the test that the number of a value of a base is one of a kind, where it isn't always.
pub fn emit_test(code: &mut CodeBuffer<'_>, to: RKind, from: RBase) -> Result<(), Memory>
    ensures { OnOk result (Emits code.old code.new (DoingAll (test_code (kind_view to) (base_view from)))) }
{
    if covers(to, from) {
        return Ok(());
    }
    code.put_all(&[range_test(from, shared(to, from))])
}
