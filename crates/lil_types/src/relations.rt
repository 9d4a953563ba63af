ghost use Rattle.std.specs.Prelude.{◌≡◌};
ghost use Rattle.std.specs.Option.{option_copied};
ghost use Rattle.lil_types.specs.Types as spec;

use crate::table::{
    BOOLEAN, CARDINAL, CHAR, Facts, INTEGER, TypeEntry, TypeForm, TypeId, TypeTable, is_pointer,
    is_untold,
};

fn standard(n: TypeId) -> Option<Facts>
    ensures { result ≡ spec.standard n }
{
    match n {
        INTEGER => Some(Facts::ordinal(INTEGER, -32768, 32767)),
        CARDINAL => Some(Facts::ordinal(CARDINAL, 0, 65535)),
        BOOLEAN => Some(Facts::ordinal(BOOLEAN, 0, 1)),
        CHAR => Some(Facts::ordinal(CHAR, 0, 255)),
        4..=7 => Some(Facts::other(n, 1)),
        _ => None,
    }
}

/// The entry of a type of the table. The standard types have none.
pub fn entry(t: &TypeTable, n: TypeId) -> Option<&TypeEntry>
    ensures { option_copied result ≡ spec.entry t.now n }
{
    if n < 16 { None } else { t.get(n as usize - 16) }
}

/// Whether it is a pointer type.
pub fn is_pointer_type(t: &TypeTable, n: TypeId) -> bool
    ensures { result ≡ spec.is_pointer_type t.now n }
{
    match entry(t, n) {
        Some(e) => is_pointer(&e.form),
        None => false,
    }
}

/// Whether it is an opaque type, and which type it is in its implementation isn't told.
pub fn is_untold_type(t: &TypeTable, n: TypeId) -> bool
    ensures { result ≡ spec.is_untold_type t.now n }
{
    match entry(t, n) {
        Some(e) => is_untold(&e.form),
        None => false,
    }
}

/// What is known of a type, None where the table has no such number.
pub fn known(t: &TypeTable, n: TypeId) -> Option<Facts>
    ensures { result ≡ spec.known t.now n }
{
    match (standard(n), entry(t, n)) {
        (Some(facts), _) => Some(facts),
        (None, Some(e)) => Some(e.facts),
        (None, None) => None,
    }
}

/// The type that a number means: that of its implementation, where it is an opaque type that has one.
pub fn meant(t: &TypeTable, n: TypeId) -> TypeId
    ensures { result ≡ spec.meant t.now n }
{
    match entry(t, n) {
        Some(e) => match &e.form {
            TypeForm::Opaque(Some(other)) => *other,
            _ => n,
        },
        None => n,
    }
}

/// The type below all subranges; a number of no type is its own.
pub fn base(t: &TypeTable, n: TypeId) -> TypeId
    ensures { result ≡ spec.base t.now n }
{
    let meant = meant(t, n);
    match known(t, meant) {
        Some(facts) => facts.base,
        None => meant,
    }
}

/// Whether two numbers mean one type.
pub fn same(t: &TypeTable, a: TypeId, b: TypeId) -> bool
    ensures { result ≡ spec.same t.now a b }
{
    meant(t, a) == meant(t, b)
}

/// Whether values of two types may be operands of one operator: the types have one base.
pub fn compatible(t: &TypeTable, a: TypeId, b: TypeId) -> bool
    ensures { result ≡ spec.compatible t.now a b }
{
    base(t, a) == base(t, b)
}

/// Whether the type is INTEGER, CARDINAL or a subrange of one.
pub fn is_whole(t: &TypeTable, a: TypeId) -> bool
    ensures { result ≡ spec.is_whole t.now a }
{
    base(t, a) < 2
}

/// Whether a value of type `b` may be assigned to type `a`, as far as types alone say it.
pub fn assignable(t: &TypeTable, a: TypeId, b: TypeId) -> bool
    ensures { result ≡ spec.assignable t.now a b }
{
    compatible(t, a, b) || (is_whole(t, a) && is_whole(t, b))
}

/// The words of a variable of the type, 0 for a number of no type.
pub fn words(t: &TypeTable, a: TypeId) -> u32
    ensures { result ≡ spec.words t.now a }
{
    match known(t, a) {
        Some(facts) => facts.words,
        None => 0,
    }
}
