//! The words of the strings of expressions, of places and of arguments.

ghost use Rattle.std.specs.Prelude.{◌≡◌, length, min};
ghost use Rattle.std.specs.List.{sum_by};
ghost use Rattle.lil_resolved.specs.Sizes.{words_of};
ghost use Rattle.lil_layout.specs.Strings as spec;

use lil_base::Text;
use lil_resolved::{RArgument, RExpr, RMember, ROperation, RPlace, RRoot, RSelector};

/// The words of a string: one a character, and one where it has none.
pub(crate) fn string_words(of: &Text) -> u32
    ensures { result ≡ min (length (words_of of.now)) 4294967295 }
{
    let length = of.len().max(1);
    if length > 4_294_967_295 {
        u32::MAX
    } else {
        length as u32
    }
}

/// The words of the strings in an expression.
#[cycle(value)]
#[tactic(auto, using(crate::proofs::Counted::taken_words, crate::proofs::Counted::one_words, crate::proofs::Counted::chain_words, crate::proofs::Counted::apply_words, crate::proofs::Counted::set_words, crate::proofs::Counted::invoke_words, crate::proofs::Counted::invoke_value_words))]
pub(crate) fn expression_words(of: &RExpr) -> u32
    ensures { result ≡ min (spec.expression_words of.now) 4294967295 }
{
    match of {
        RExpr::Constant(_, _) | RExpr::High(_, _) | RExpr::Routine(_, _) => 0,
        RExpr::Taken(place, _) => place_words(place),
        RExpr::One(_, value) | RExpr::Apply(_, value) => expression_words(value.get()),
        RExpr::Chain(first, operations) => {
            let before = expression_words(first.get());
            before.saturating_add(operations_words(operations.as_slice()))
        }
        RExpr::Set(_, members) => members_words(members.as_slice()),
        RExpr::Invoke(_, _, _, given) => arguments_words(given.as_slice()),
        RExpr::InvokeValue(value, _, given) => {
            expression_words(value.get()).saturating_add(arguments_words(given.as_slice()))
        }
    }
}

/// Those in a place.
#[cycle(value)]
#[tactic(auto, using(crate::proofs::Counted::place_is_words))]
pub(crate) fn place_words(of: &RPlace) -> u32
    ensures { result ≡ min (spec.place_words of.now) 4294967295 }
{
    root_words(&of.root).saturating_add(selectors_words(of.selectors.as_slice()))
}

#[cycle(value)]
#[tactic(auto, using(crate::proofs::Counted::along_words))]
fn root_words(of: &RRoot) -> u32
    ensures { result ≡ min (spec.root_words of.now) 4294967295 }
{
    match of {
        RRoot::Variable(_) | RRoot::Handed(_, _) | RRoot::Held(_) => 0,
        RRoot::Along(_, _, index) => expression_words(index.get()),
    }
}

#[cycle(value)]
fn selectors_words(of: &[RSelector]) -> u32
    ensures { result ≡ min (sum_by spec.selector_words of.now) 4294967295 }
{
    let mut words: u32 = 0;
    for one in of {
        words = words.saturating_add(selector_words(one));
    }
    words
}

#[cycle(value)]
#[tactic(auto, using(crate::proofs::Counted::index_words))]
fn selector_words(of: &RSelector) -> u32
    ensures { result ≡ min (spec.selector_words of.now) 4294967295 }
{
    match of {
        RSelector::Field(_) | RSelector::Follow(_) => 0,
        RSelector::Index(_, index) => expression_words(index),
    }
}

#[cycle(value)]
fn members_words(of: &[RMember]) -> u32
    ensures { result ≡ min (sum_by spec.member_words of.now) 4294967295 }
{
    let mut words: u32 = 0;
    for one in of {
        words = words.saturating_add(member_words(one));
    }
    words
}

#[cycle(value)]
#[tactic(auto, using(crate::proofs::Counted::single_words, crate::proofs::Counted::span_words))]
fn member_words(of: &RMember) -> u32
    ensures { result ≡ min (spec.member_words of.now) 4294967295 }
{
    match of {
        RMember::Single(value) => expression_words(value),
        RMember::Span(low, high) => expression_words(low).saturating_add(expression_words(high)),
    }
}

#[cycle(value)]
fn operations_words(of: &[ROperation]) -> u32
    ensures { result ≡ min (sum_by spec.operation_words of.now) 4294967295 }
{
    let mut words: u32 = 0;
    for one in of {
        words = words.saturating_add(expression_words(&one.operand));
    }
    words
}

/// Those in arguments.
#[cycle(value)]
pub(crate) fn arguments_words(of: &[RArgument]) -> u32
    ensures { result ≡ min (sum_by spec.argument_words of.now) 4294967295 }
{
    let mut words: u32 = 0;
    for one in of {
        words = words.saturating_add(argument_words(one));
    }
    words
}

#[cycle(value)]
fn argument_words(of: &RArgument) -> u32
    ensures { result ≡ min (spec.argument_words of.now) 4294967295 }
{
    match of {
        RArgument::Value(_, value) => expression_words(value),
        RArgument::Place(place) | RArgument::All(place) | RArgument::Array(_, place, _) =>
            place_words(place),
        RArgument::Text(text) | RArgument::Spelled(text, _) => string_words(text.get()),
        RArgument::Opened(_, _, _) => 0,
    }
}
