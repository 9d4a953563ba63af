//! The table of a CASE.

ghost use Rattle.std.specs.Prelude.{◌≡◌, ◌%◌, length, OnOk};
ghost use Rattle.lil_labels.specs.Drafts.{Each, Emits};
ghost use Rattle.lil_stmt.specs.Generating.{LabelEntry, ArmLabels, ChoiceOf, paired, entries};

use lil_base::Memory;
use lil_expr::word_of_number;
use lil_labels::CodeBuffer;
use lil_resolved::{RArm, RLabel};

/// Appends the instruction that chooses an arm, and its table. The arms stand at labels, and what is for the other
/// values at another.
pub(crate) fn emit_choice(
    code: &mut CodeBuffer<'_>,
    arms: &[RArm],
    labels: &[usize],
    other: usize,
) -> Result<(), Memory>
    requires { length labels.now ≡ length arms.now }
    ensures { OnOk result (Emits code.old code.new (ChoiceOf arms.now labels.now other)) }
{
    let count = entry_count(arms);
    code.choose(count, other)?;
    emit_table(code, arms, labels)?;
    Ok(())
}

/// How many entries the labels of arms have, cut to 16 bits.
fn entry_count(arms: &[RArm]) -> u16
    ensures { result ≡ entries arms.now % 65536 }
{
    let mut count: u16 = 0;
    for arm in arms {
        count = count.wrapping_add((arm.labels.len() % 65_536) as u16);
    }
    count
}

/// Appends the entries of arms, which stand at labels of the code.
fn emit_table(code: &mut CodeBuffer<'_>, arms: &[RArm], labels: &[usize]) -> Result<(), Memory>
    requires { length labels.now ≡ length arms.now }
    ensures { OnOk result (Emits code.old code.new (Each ArmLabels (paired arms.now labels.now))) }
{
    for (i, arm) in arms.iter().enumerate() {
        emit_labels(code, arm.labels.as_slice(), labels[i])?;
    }
    Ok(())
}

/// Appends an entry for each label, which leads to the arm.
fn emit_labels(code: &mut CodeBuffer<'_>, labels: &[RLabel], arm: usize) -> Result<(), Memory>
    ensures { OnOk result (Emits code.old code.new (Each (LabelEntry arm) labels.now)) }
{
    for label in labels {
        code.entry(word_of_number(label.low), word_of_number(label.high), arm)?;
    }
    Ok(())
}
