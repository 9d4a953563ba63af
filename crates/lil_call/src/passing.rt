ghost use Rattle.std.specs.Prelude.{◌≡◌, IfOk};
ghost use Rattle.lil_report.specs.Told.{Said};
ghost use Rattle.lil_call.specs.Passing as spec;

use crate::call::Argument;
use lil_base::{FaultKind, Items, Memory, beside};
use lil_forms::{handed_over, nothing_handed};
use lil_kinds::{ArrayParts, Found, Standing, array_parts, assignable, misses, parameter};
use lil_report::Report;
use lil_resolved::RArgument;
use lil_scope::Kind;
use lil_types::{CHAR, Parameter, TypeId, TypeTable, same};
use std::alloc::Global;

/// The arguments so far: the parameters that have got one, what was handed over to them where all of it has code, the words that
/// lie below the next one, the greatest depth, and whether the parameters take them.
#[derive(Drop)]
pub struct Passed {
    pub parameters: Items<Parameter>,
    pub handed: Option<Items<RArgument>>,
    pub words: usize,
    pub depth: usize,
    pub is_right: bool,
}

fn has_value(x: &Argument) -> bool
    ensures { result ≡ spec.has_value x.now }
{
    match x {
        Argument::Value(Some(_)) => true,
        Argument::Value(None) => false,
        Argument::Type(_, Some(_)) => true,
        Argument::Type(_, None) => false,
    }
}

/// Whether no argument has a fault of its own.
pub(crate) fn all_have_values(xs: &[Argument]) -> bool
    ensures { result ≡ spec.all_have_values xs.now }
{
    for x in xs {
        if !has_value(x) {
            return false;
        }
    }
    true
}

fn has_elements(t: &TypeTable, sort: TypeId, parts: Option<ArrayParts>) -> bool
    ensures { result ≡ spec.has_elements t.now sort parts }
{
    match parts {
        Some(a) => same(t, a.element, sort),
        None => false,
    }
}

/// Whether this is an array of elements of the very type, open or not.
fn is_array_of(t: &TypeTable, sort: TypeId, a: Kind) -> bool
    ensures { result ≡ spec.is_array_of t.now sort a }
{
    match a {
        Kind::Of(n) => has_elements(t, sort, array_parts(t, n)),
        Kind::Open(n) => same(t, n, sort),
        _ => false,
    }
}

fn is_of(t: &TypeTable, sort: TypeId, a: Kind) -> bool
    ensures { result ≡ spec.is_of t.now sort a }
{
    match a {
        Kind::Of(n) => same(t, n, sort),
        _ => false,
    }
}

fn is_text(a: Kind) -> bool
    ensures { result ≡ spec.is_text a }
{
    match a {
        Kind::Chars(_) => true,
        _ => false,
    }
}

fn is_open(a: Kind) -> bool
    ensures { result ≡ spec.is_open a }
{
    match a {
        Kind::Open(_) => true,
        _ => false,
    }
}

/// Whether this is a variable that may be changed in another place.
pub(crate) fn is_variable(standing: Standing) -> bool
    ensures { result ≡ spec.is_variable standing }
{
    match standing {
        Standing::Variable => true,
        _ => false,
    }
}

fn takes_value(t: &TypeTable, p: Parameter, a: Kind) -> bool
    ensures { result ≡ spec.takes_value t.now p a }
{
    if p.open_array {
        is_array_of(t, p.sort, a) || (p.sort == CHAR && is_text(a))
    } else {
        !is_open(a) && assignable(t, p.sort, a)
    }
}

fn takes_place(t: &TypeTable, p: Parameter, standing: Standing, a: Kind) -> bool
    ensures { result ≡ spec.takes_place t.now p standing a }
{
    if p.open_array {
        is_variable(standing) && is_array_of(t, p.sort, a)
    } else {
        is_variable(standing) && is_of(t, p.sort, a)
    }
}

fn is_wrong_value(t: &TypeTable, p: Parameter, a: Kind) -> bool
    ensures { result ≡ spec.is_wrong_value t.now p a }
{
    !p.by_place && !takes_value(t, p, a)
}

fn is_wrong_place(t: &TypeTable, p: Parameter, standing: Standing, a: Kind) -> bool
    ensures { result ≡ spec.is_wrong_place t.now p standing a }
{
    p.by_place && !takes_place(t, p, standing, a)
}

fn is_outside(t: &TypeTable, p: Parameter, a: Kind) -> bool
    ensures { result ≡ spec.is_outside t.now p a }
{
    !p.by_place && !p.open_array && misses(t, p.sort, a)
}

fn raised(words: usize, depth: usize) -> usize
    ensures { result ≡ spec.raised words depth }
{
    if 12 < words || 12 < depth {
        13
    } else {
        words + depth
    }
}

fn more_words(p: Parameter, words: usize) -> usize
    ensures { result ≡ spec.more_words p words }
{
    if 12 < words {
        words
    } else if p.open_array {
        words + 2
    } else {
        words + 1
    }
}

fn words_after(resident: bool, p: Parameter, words: usize) -> usize
    ensures { result ≡ spec.words_after resident p words }
{
    if resident {
        more_words(p, words)
    } else {
        words
    }
}

pub(crate) fn nothing_passed(alloc: Global, depth: usize) -> Passed
    ensures { result ≡ spec.nothing_passed depth }
{
    Passed {
        parameters: Items::new(alloc),
        handed: nothing_handed(alloc),
        words: 0,
        depth: depth.max(1),
        is_right: true,
    }
}

fn without_more(s: Passed) -> Passed
    ensures { result ≡ spec.without_more s }
{
    Passed {
        parameters: s.parameters,
        handed: s.handed,
        words: s.words,
        depth: s.depth,
        is_right: false,
    }
}

/// One argument for one parameter.
#[tactic(auto, unfolding(crate::specs::Passing::argument_node, lil_report::specs::Told::tell))]
fn with_argument(
    t: &TypeTable,
    report: &mut Report,
    resident: bool,
    p: Parameter,
    s: Passed,
    x: Found,
) -> Result<Passed, Memory>
    ensures { IfOk result (λ o. Said (spec.argument_node t.now resident p s x) report.old o report.new) }
{
    let wrong_value = is_wrong_value(t, p, x.kind);
    let wrong_place = is_wrong_place(t, p, x.standing, x.kind);
    let outside = is_outside(t, p, x.kind);
    report.note(wrong_value, x.first, FaultKind::Assign);
    report.note(wrong_place, x.first, FaultKind::VarArgument);
    report.note(outside, x.first, FaultKind::ConstRange);
    let is_right = s.is_right && !wrong_value && !wrong_place && !outside;
    let words = words_after(resident, p, s.words);
    let depth = s.depth.max(raised(s.words, x.depth));
    let (parameters, handed) = beside(s.parameters, handed_over(t, p, s.handed, x))?;
    let mut parameters = parameters;
    let (handed, _) = beside(handed, parameters.push(p))?;
    Ok(Passed {
        parameters,
        handed,
        words,
        depth,
        is_right,
    })
}

/// The next argument of a call.
#[tactic(auto, unfolding(crate::specs::Passing::argument_step, lil_report::specs::Told::tell))]
fn pass(
    t: &TypeTable,
    report: &mut Report,
    resident: bool,
    sort: TypeId,
    s: Passed,
    x: Argument,
) -> Result<Passed, Memory>
    ensures { IfOk result (λ o. Said (spec.argument_step t.now resident sort s x) report.old o report.new) }
{
    match x {
        Argument::Value(Some(x)) => match parameter(t, sort, s.parameters.len()) {
            Some(p) => with_argument(t, report, resident, p, s, x),
            None => {
                drop(x);
                Ok(without_more(s))
            }
        },
        Argument::Value(None) => Ok(without_more(s)),
        Argument::Type(place, _) => {
            report.note(true, place, FaultKind::WrongKind);
            Ok(without_more(s))
        }
    }
}

/// All arguments of a call.
pub(crate) fn pass_all(
    t: &TypeTable,
    report: &mut Report,
    resident: bool,
    sort: TypeId,
    start: Passed,
    arguments: Items<Argument>,
) -> Result<Passed, Memory>
    ensures { IfOk result (λ o. Said (spec.arguments_mean t.now resident sort start arguments) report.old o report.new) }
{
    let mut left = arguments;
    let mut s = start;
    while let Some(x) = left.take_first() {
        s = pass(t, report, resident, sort, s, x)?;
    }
    Ok(s)
}
