ghost use Rattle.std.specs.Prelude.{◌≡◌, ◌≤◌, IfOk};
ghost use Rattle.lil_report.specs.Told.{Said, tell};
ghost use Rattle.lil_operators.specs.Operations as spec;

use crate::constants::constant_found;
use crate::depths::raised;
use lil_base::{FaultKind, Items, Memory, Place, beside, joined};
use lil_forms::{set_form, single_by, span_by};
use lil_kinds::{Found, Standing, compatible, element_span, number, outside, set_base};
use lil_report::Report;
use lil_resolved::RMember;
use lil_scope::Kind;
use lil_shapes::{Members, members_at};
use lil_types::{TypeId, TypeTable};
use std::alloc::Global;

/// What is known of a value that is an element, or the first or the last of several.
#[derive(Clone, Copy)]
pub struct Operand {
    pub kind: Kind,
    pub first: Place,
    pub depth: usize,
}

/// What is known of elements together: whether all of them fit, the depth, None where it is too great, and the set's word, None
/// where an element isn't constant.
#[derive(Clone, Copy)]
pub struct Tally {
    pub fits: bool,
    pub depth: Option<usize>,
    pub word: Option<u16>,
}

/// The elements of a set so far: their forms, where all of them have one, what is known of them together, and the fault
/// of their tests. That is kept apart, since it speaks only if each element has a value.
#[derive(Drop)]
pub struct Gathered {
    pub forms: Option<Items<RMember>>,
    pub tally: Tally,
    pub report: Report,
}

fn operand_of(of: &Found) -> Operand
    ensures { result ≡ spec.operand_of of.now }
{
    Operand {
        kind: of.kind,
        first: of.first,
        depth: of.depth,
    }
}

fn kinds_of(types: &TypeTable, sort: Option<TypeId>) -> Option<Members>
    ensures { result ≡ spec.kinds_of types.now sort }
{
    match sort {
        None => None,
        Some(sort) => members_at(types, sort),
    }
}

fn fits_base(types: &TypeTable, base: Option<TypeId>, kind: Kind) -> bool
    ensures { result ≡ spec.fits_base types.now base kind }
{
    match base {
        None => false,
        Some(base) => compatible(types, Kind::Of(base), kind),
    }
}

fn operand_misses(types: &TypeTable, sort: TypeId, kind: Kind) -> bool
    ensures { result ≡ spec.operand_misses types.now sort kind }
{
    outside(element_span(types, sort), number(types, kind))
}

fn operand_fits(types: &TypeTable, sort: TypeId, kind: Kind) -> bool
    ensures { result ≡ spec.operand_fits types.now sort kind }
{
    fits_base(types, set_base(types, sort), kind) && !operand_misses(types, sort, kind)
}

/// The tests of a value that is an element.
#[tactic(auto, unfolding(lil_report::specs::Told::tell))]
fn test_operand(types: &TypeTable, report: &mut Report, sort: TypeId, of: Operand)
    ensures { report.new ≡ tell report.old (spec.operand_rows types.now sort of) }
{
    let fits = fits_base(types, set_base(types, sort), of.kind);
    let misses = operand_misses(types, sort, of.kind);
    report.note(!fits, of.first, FaultKind::Operands);
    report.note(misses, of.first, FaultKind::ConstRange);
}

/// All numbers from one to another.
#[tactic(auto, using(crate::proofs::Spans::span_room, crate::proofs::Spans::span_is))]
fn span_word(low: u16, high: u16) -> u16
    requires low { low ≤ 15 }
    requires high { high ≤ 15 }
    ensures { result ≡ spec.span_word low high }
{
    if high < low {
        return 0;
    }
    ((2u32 << high) - (1u32 << low)) as u16
}

fn members(low: i32, high: i32) -> u16
    ensures { result ≡ spec.members low high }
{
    if 0 <= low && low <= 15 && 0 <= high && high <= 15 {
        span_word(low as u16, high as u16)
    } else {
        0
    }
}

fn with_members(word: Option<u16>, low: Option<i32>, high: Option<i32>) -> Option<u16>
    ensures { result ≡ spec.with_members word low high }
{
    match (word, low, high) {
        (Some(word), Some(low), Some(high)) => Some(word | members(low, high)),
        _ => None,
    }
}

fn deepened(all: Option<usize>, by: usize, depth: usize) -> Option<usize>
    requires { by ≤ 2 }
    ensures { result ≡ spec.deepened all by depth }
{
    match all {
        None => None,
        Some(all) => raised(all, by, depth),
    }
}

fn alone_tally(types: &TypeTable, sort: TypeId, tally: Tally, low: Operand) -> Tally
    ensures { result ≡ spec.alone_tally types.now sort tally low }
{
    let fits = operand_fits(types, sort, low.kind);
    let value = number(types, low.kind);
    Tally {
        fits: tally.fits && fits,
        depth: deepened(tally.depth, 1, low.depth),
        word: with_members(tally.word, value, value),
    }
}

fn range_tally(types: &TypeTable, sort: TypeId, tally: Tally, low: Operand, high: Operand) -> Tally
    ensures { result ≡ spec.range_tally types.now sort tally low high }
{
    let fits = operand_fits(types, sort, low.kind) && operand_fits(types, sort, high.kind);
    Tally {
        fits: tally.fits && fits,
        depth: deepened(deepened(tally.depth, 1, low.depth), 2, high.depth),
        word: with_members(
            tally.word,
            number(types, low.kind),
            number(types, high.kind),
        ),
    }
}

/// An element more: a value, or all from one to another.
#[tactic(auto, unfolding(crate::specs::Operations::bounds_node, lil_report::specs::Told::tell))]
fn bounds_node(
    types: &TypeTable,
    report: &mut Report,
    sort: TypeId,
    tally: Tally,
    low: Operand,
    high: Option<Operand>,
) -> Tally
    ensures { Said (spec.bounds_node types.now sort tally (record { low = low; high = high })) report.old result report.new }
{
    match high {
        None => {
            test_operand(types, report, sort, low);
            alone_tally(types, sort, tally, low)
        }
        Some(high) => {
            test_operand(types, report, sort, low);
            test_operand(types, report, sort, high);
            range_tally(types, sort, tally, low, high)
        }
    }
}

/// The same, where the set's type may have a fault.
#[tactic(auto, unfolding(lil_report::specs::Told::tell))]
fn bounds_in(
    types: &TypeTable,
    report: &mut Report,
    sort: Option<TypeId>,
    tally: Tally,
    low: Operand,
    high: Option<Operand>,
) -> Tally
    ensures { Said (spec.bounds_in types.now sort tally (record { low = low; high = high })) report.old result report.new }
{
    match sort {
        None => tally,
        Some(sort) => bounds_node(types, report, sort, tally, low, high),
    }
}

/// No elements yet, with room for so many.
#[tactic(auto, unfolding(lil_report::specs::Told::tell))]
pub fn no_elements(alloc: Global, count: usize) -> Result<Gathered, Memory>
    ensures { IfOk result (λ x. x ≡ spec.none_gathered) }
{
    let forms = Vec::with_capacity(alloc, count)?;
    Ok(Gathered {
        forms: Some(Items::of_vec(forms)),
        tally: Tally {
            fits: true,
            depth: Some(1),
            word: Some(0),
        },
        report: Report::new(),
    })
}

fn with_element(
    types: &TypeTable,
    sort: Option<TypeId>,
    of: Gathered,
    form: Option<RMember>,
    low: Operand,
    high: Option<Operand>,
) -> Result<Gathered, Memory>
    ensures { IfOk result (λ x. x ≡ spec.with_gathered types.now sort of form low high) }
{
    let Gathered {
        forms,
        tally,
        report,
    } = of;
    let (report, forms) = beside(report, joined(forms, form))?;
    let mut report = report;
    let tally = bounds_in(types, &mut report, sort, tally, low, high);
    Ok(Gathered {
        forms,
        tally,
        report,
    })
}

/// Elements of a set and a value more.
pub fn joined_one(
    types: &TypeTable,
    sort: Option<TypeId>,
    of: Option<Gathered>,
    low: Option<Found>,
) -> Result<Option<Gathered>, Memory>
    ensures { IfOk result (λ x. x ≡ spec.gathered_one types.now sort of low) }
{
    match of.zip(low) {
        None => Ok(None),
        Some((of, low)) => {
            let a = operand_of(&low);
            let form = single_by(types, kinds_of(types, sort), low);
            Ok(Some(with_element(types, sort, of, form, a, None)?))
        }
    }
}

/// Elements of a set, and all from one value to another.
pub fn joined_range(
    types: &TypeTable,
    sort: Option<TypeId>,
    of: Option<Gathered>,
    low: Option<Found>,
    high: Option<Found>,
) -> Result<Option<Gathered>, Memory>
    ensures { IfOk result (λ x. x ≡ spec.gathered_range types.now sort of low high) }
{
    match of.zip(low.zip(high)) {
        None => Ok(None),
        Some((of, (low, high))) => {
            let a = operand_of(&low);
            let b = operand_of(&high);
            let form = span_by(types, kinds_of(types, sort), low, high);
            Ok(Some(with_element(types, sort, of, form, a, Some(b))?))
        }
    }
}

fn set_found(
    types: &TypeTable,
    first: Place,
    sort: TypeId,
    forms: Option<Items<RMember>>,
    word: Option<u16>,
    depth: usize,
) -> Found
    ensures { result ≡ spec.set_found types.now first sort forms word depth }
{
    match word {
        Some(word) => {
            drop(forms);
            constant_found(first, Kind::Scalar(sort, word))
        }
        None => Found {
            form: set_form(types, sort, forms),
            kind: Kind::Of(sort),
            first,
            depth,
            standing: Standing::Value,
        },
    }
}

#[tactic(auto, unfolding(crate::specs::Operations::set_end, lil_report::specs::Told::tell))]
fn set_end(
    types: &TypeTable,
    report: &mut Report,
    first: Place,
    sort: TypeId,
    forms: Option<Items<RMember>>,
    tally: Tally,
) -> Option<Found>
    ensures { Said (spec.set_end types.now first sort forms tally) report.old result report.new }
{
    report.note(tally.depth.is_none(), first, FaultKind::ExprDeep);
    match tally.depth {
        Some(depth) if tally.fits => {
            Some(set_found(types, first, sort, forms, tally.word, depth))
        }
        _ => {
            drop(forms);
            None
        }
    }
}

/// A set whose type and whose elements have values.
fn set_given(
    types: &TypeTable,
    report: &mut Report,
    first: Place,
    sort: TypeId,
    elements: Gathered,
) -> Option<Found>
    ensures { Said (spec.gathered_of types.now first sort elements) report.old result report.new }
{
    report.note_all(&elements.report);
    set_end(types, report, first, sort, elements.forms, elements.tally)
}

/// A set.
#[tactic(auto, unfolding(lil_report::specs::Told::tell))]
pub fn set_node(
    types: &TypeTable,
    report: &mut Report,
    first: Place,
    sort: Option<TypeId>,
    elements: Option<Gathered>,
) -> Option<Found>
    ensures { Said (spec.gathered_set types.now first sort elements) report.old result report.new }
{
    match (sort, elements) {
        (Some(sort), Some(elements)) => set_given(types, report, first, sort, elements),
        _ => None,
    }
}
