ghost use Rattle.std.specs.Prelude.{◌≡◌, ◌≤◌};
ghost use Rattle.lil_base.specs.Sets.{has, union, minus, meet, apart, span, is_within};

/// What is in one of two sets or in both.
#[tactic(auto, using(crate::proofs::Members::union_is))]
pub fn set_union(s: u16, t: u16) -> u16
    ensures { result ≡ union s t }
{
    s | t
}

/// What is in the first set and not in the second.
#[tactic(auto, using(crate::proofs::Members::minus_is))]
pub fn set_minus(s: u16, t: u16) -> u16
    ensures { result ≡ minus s t }
{
    s & !t
}

/// What is in both sets.
#[tactic(auto, using(crate::proofs::Members::meet_is))]
pub fn set_meet(s: u16, t: u16) -> u16
    ensures { result ≡ meet s t }
{
    s & t
}

/// What is in just one of two sets.
#[tactic(auto, using(crate::proofs::Members::apart_is))]
pub fn set_either(s: u16, t: u16) -> u16
    ensures { result ≡ apart s t }
{
    s ^ t
}

/// Whether a number is in a set. A number above 15 is in none.
#[tactic(auto, using(crate::proofs::Members::none_above))]
pub fn set_has(s: u16, x: u16) -> bool
    ensures { result ≡ has s x }
{
    if x < 16 { (s >> x) & 1 == 1 } else { false }
}

/// Whether all that is in the first set is in the second.
pub fn set_within(s: u16, t: u16) -> bool
    ensures { result ≡ is_within s t }
{
    set_minus(s, t) == 0
}

/// The numbers from `lo` to `hi`, both included: none where `lo` is greater.
#[tactic(auto, using(crate::proofs::Members::span_room, crate::proofs::Members::span_is, crate::proofs::Members::no_span))]
pub fn set_span(lo: u16, hi: u16) -> u16
    requires { lo ≤ hi → hi ≤ 15 }
    ensures { result ≡ span lo hi }
{
    if lo > hi {
        return 0;
    }
    ((2u32 << hi) - (1u32 << lo)) as u16
}
