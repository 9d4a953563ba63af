ghost use Rattle.std.specs.Prelude.{◌≡◌, ◌≤◌, ◌&&◌, not, false, [], ◌∷◌, ◌++◌, int_lt, length, IfOk, true};
ghost use Rattle.lil_check_type.specs.Labels.{with_span};
ghost use Rattle.lil_check_type.specs.SortedSpans.{has_value_of as value_of, AreSorted, below as count_below};

use lil_base::{Items, Memory};
use lil_types::{Span, meets};
use std::alloc::Global;
use std::marker::Model;

/// Spans in their order, and beside it sorted, to look a value up. After one that is empty or meets another they aren't
/// sorted, and a value is searched from the begin. Contracts see the list in its order.
#[derive(Drop)]
pub struct Spans {
    items: Items<Span>,
    sorted: Vec<Span>,
    apart: bool,
}

impl Model for Spans {
    ghost use Rattle.std.specs.Prelude.{List};
    ghost use Rattle.lil_types.specs.declared.table.Span.{Span};
    ghost use Rattle.lil_check_type.specs.SortedSpans.{IsIndex};

    ghost Value = { List Span };

    ghost view = { λ s. s.items };

    ghost invariant = { λ s. IsIndex s.apart s.sorted.items s.items };
}

/// How many of sorted spans lie below another one.
fn below(sorted: &[Span], s: Span) -> usize
    requires { AreSorted sorted.now }
    ensures within { result ≤ length sorted.now }
    ensures count { result ≡ count_below sorted.now s.low }
{
    sorted.partition_point(
        |u: &Span| -> bool
            ensures { result ≡ int_lt u.now.high s.low }
        { u.high < s.low },
    )
}

fn is_sorted_in(sorted: &[Span], s: Span) -> bool
    requires { AreSorted sorted.now }
    ensures { result ≡ value_of sorted.now s }
{
    let first = below(sorted, s);
    if first < sorted.len() {
        meets(s, sorted[first])
    } else {
        false
    }
}

fn is_in(items: &[Span], s: Span) -> bool
    ensures { result ≡ value_of items.now s }
{
    for u in items {
        if meets(s, *u) {
            return true;
        }
    }
    false
}

/// Whether a span can be sorted in.
fn fits(apart: bool, sorted: &[Span], s: Span) -> bool
    requires { apart ≡ true → AreSorted sorted.now }
    ensures { result ≡ (apart && (not (int_lt s.high s.low) && not (value_of sorted.now s))) }
{
    if apart {
        s.low <= s.high && !is_sorted_in(sorted, s)
    } else {
        false
    }
}

fn sorted_in(sorted: Vec<Span>, s: Span) -> Result<Vec<Span>, Memory>
    requires sorted { AreSorted sorted.items }
    requires full { int_lt s.high s.low ≡ false }
    requires new { value_of sorted.items s ≡ false }
    ensures sorted { IfOk result (λ all. AreSorted all.items) }
    ensures values { IfOk result (λ all. (x : _) → value_of all.items x ≡ value_of (sorted.items ++ s ∷ []) x) }
{
    let mut sorted = sorted;
    let at = below(sorted.as_slice(), s);
    sorted.insert(at, s)?;
    Ok(sorted)
}

impl Spans {
    pub fn new(alloc: Global) -> Spans
        ensures { result ≡ [] }
    {
        Spans {
            items: Items::new(alloc),
            sorted: Vec::new(alloc),
            apart: true,
        }
    }

    /// Whether a value of a span is in one of them.
    pub fn has_value_of(&self, s: Span) -> bool
        ensures { result ≡ value_of self.now s }
    {
        if self.apart {
            is_sorted_in(self.sorted.as_slice(), s)
        } else {
            is_in(self.items.as_slice(), s)
        }
    }

    fn and(self, s: Span) -> Result<Spans, Memory>
        ensures { IfOk result (λ all. all ≡ self ++ s ∷ []) }
    {
        let Spans {
            items,
            sorted,
            apart,
        } = self;
        let mut items = items;
        items.push(s)?;
        if fits(apart, sorted.as_slice(), s) {
            let sorted = sorted_in(sorted, s)?;
            Ok(Spans {
                items,
                sorted,
                apart: true,
            })
        } else {
            Ok(Spans {
                items,
                sorted,
                apart: false,
            })
        }
    }

    /// With a span more, if there is one.
    pub fn with(self, s: Option<Span>) -> Result<Spans, Memory>
        ensures { IfOk result (λ all. all ≡ with_span self s) }
    {
        match s {
            Some(s) => self.and(s),
            None => Ok(self),
        }
    }
}
