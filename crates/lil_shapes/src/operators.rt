ghost use Rattle.std.specs.Prelude.{◌≡◌, ◌≤ℤ◌, pos, negsuc};
ghost use Rattle.lil_resolved.specs.Kinds as kinds;
ghost use Rattle.lil_resolved.specs.Views.{base_view};
ghost use Rattle.lil_shapes.specs.Operators as spec;

use lil_resolved::RBase;
use lil_types::{CARDINAL, INTEGER, TypeId};

/// The type of the numbers that INC and DEC of a variable compute with.
pub fn counted(base: RBase) -> TypeId
    ensures { result ≡ spec.counted base }
{
    match base {
        RBase::Integer => INTEGER,
        _ => CARDINAL,
    }
}

/// Its base.
pub fn counted_base(base: RBase) -> RBase
    ensures { result ≡ spec.counted_base base }
{
    match base {
        RBase::Integer => RBase::Integer,
        _ => RBase::Cardinal,
    }
}

/// The least number of a base's values.
pub(crate) fn least(base: RBase) -> i32
    ensures is { result ≡ kinds.least (base_view base) }
    ensures at_least { negsuc 32767 ≤ℤ result }
{
    match base {
        RBase::Integer => -32768,
        _ => 0,
    }
}

/// The greatest number of a base's values.
pub(crate) fn greatest(base: RBase) -> i32
    ensures is { result ≡ kinds.greatest (base_view base) }
    ensures at_most { result ≤ℤ pos 65535 }
{
    match base {
        RBase::Cardinal => 65535,
        RBase::Integer => 32767,
        RBase::Truth => 1,
        RBase::Character => 255,
        RBase::Enumeration(count) => i32::from(count.saturating_sub(1)),
        RBase::Set => 65535,
        RBase::Pointer(_) | RBase::Address | RBase::Procedure(_) => 0,
    }
}
