ghost use Rattle.std.specs.Prelude.{◌≡◌, false, pos, MatchOption, Some, None};
ghost use Rattle.lil_format.specs.Reading.{Reads, number_of, u2};
ghost use Rattle.lil_format.specs.Format.{reads};
ghost use Rattle.lil_symfile.specs.Symbol as spec;
ghost use Rattle.lil_symfile.specs.Kinds as kinds;
ghost use Rattle.lil_symfile.specs.declared.kinds.Kind.TheVariants as kind;
ghost use Rattle.lil_symfile.specs.declared.kinds.Rule.TheVariants as rule;

use crate::tree::{Form, TypeNumber};
use lil_format::{Source, Stop};

/// What the rules of the format ask of a type: of an ordinal one whether its last base is INTEGER, and its least and greatest
/// value.
#[derive(Clone, Copy)]
pub enum Kind {
    Ordinal { signed: bool, low: i32, high: i32 },
    Set,
    Procedure,
    Other,
}

/// Which types a number may name.
#[derive(Clone, Copy)]
pub enum Rule {
    /// Each that stands before.
    Any,
    /// Ordinal ones.
    Ordinal,
    /// Ordinal ones with no value outside 0 to 15.
    Small,
    /// Those that a scalar constant has: ordinal ones and sets.
    Scalar,
    /// Procedure types.
    Procedure,
}

/// The kind of an ordinal type from 0 to a number.
fn up_to(high: i32) -> Kind
    ensures { result ≡ kind.Ordinal false (pos 0) high }
{
    Kind::Ordinal {
        signed: false,
        low: 0,
        high,
    }
}

fn standard(n: TypeNumber) -> Option<Kind>
    ensures { result ≡ kinds.standard n }
{
    match n {
        0 => Some(Kind::Ordinal {
            signed: true,
            low: -32768,
            high: 32767,
        }),
        1 => Some(up_to(65535)),
        2 => Some(up_to(1)),
        3 => Some(up_to(255)),
        4 => Some(Kind::Set),
        5 => Some(Kind::Procedure),
        6 | 7 => Some(Kind::Other),
        _ => None,
    }
}

/// The kind of the type of a number, None where none before has it.
fn kind_at(all: &[Kind], n: TypeNumber) -> Option<Kind>
    ensures { result ≡ kinds.kind_at all.now n }
{
    if n < 16 {
        standard(n)
    } else {
        all.get(n as usize - 16).copied()
    }
}

fn is_ordinal(kind: Kind) -> bool
    ensures { result ≡ kinds.keeps rule.Ordinal kind }
{
    match kind {
        Kind::Ordinal { .. } => true,
        Kind::Set | Kind::Procedure | Kind::Other => false,
    }
}

fn is_small(kind: Kind) -> bool
    ensures { result ≡ kinds.keeps rule.Small kind }
{
    match kind {
        Kind::Ordinal { low, high, .. } => 0 <= low && high <= 15,
        Kind::Set | Kind::Procedure | Kind::Other => false,
    }
}

fn is_scalar(kind: Kind) -> bool
    ensures { result ≡ kinds.keeps rule.Scalar kind }
{
    match kind {
        Kind::Ordinal { .. } | Kind::Set => true,
        Kind::Procedure | Kind::Other => false,
    }
}

fn is_procedure(kind: Kind) -> bool
    ensures { result ≡ kinds.keeps rule.Procedure kind }
{
    match kind {
        Kind::Procedure => true,
        Kind::Ordinal { .. } | Kind::Set | Kind::Other => false,
    }
}

fn keeps(rule: Rule, kind: Kind) -> bool
    ensures { result ≡ kinds.keeps rule kind }
{
    match rule {
        Rule::Any => true,
        Rule::Ordinal => is_ordinal(kind),
        Rule::Small => is_small(kind),
        Rule::Scalar => is_scalar(kind),
        Rule::Procedure => is_procedure(kind),
    }
}

/// Whether a number names a type before that keeps a rule.
pub fn names_type(all: &[Kind], rule: Rule, n: TypeNumber) -> bool
    ensures { result ≡ kinds.names_type all.now rule n }
{
    match kind_at(all, n) {
        None => false,
        Some(kind) => keeps(rule, kind),
    }
}

/// Whether a subrange of the type of a number counts with a sign.
pub fn base_signed(all: &[Kind], n: TypeNumber) -> bool
    ensures { result ≡ spec.base_signed all.now n }
{
    match kind_at(all, n) {
        Some(Kind::Ordinal { signed, .. }) => signed,
        Some(Kind::Set | Kind::Procedure | Kind::Other) | None => false,
    }
}

/// The kind of a form behind types of these kinds.
pub fn kind_of(all: &[Kind], form: &Form) -> Kind
    ensures { result ≡ kinds.kind_of all.now form.now }
{
    match form {
        Form::Enumeration { names } => up_to(names.len().min(65536) as i32 - 1),
        Form::Subrange { base, lower, upper } => Kind::Ordinal {
            signed: base_signed(all, *base),
            low: *lower,
            high: *upper,
        },
        Form::Set { .. } => Kind::Set,
        Form::Procedure { .. } => Kind::Procedure,
        Form::Array { .. } | Form::Record { .. } | Form::Pointer { .. } | Form::Opaque => {
            Kind::Other
        }
    }
}

/// Takes the two bytes of a type's number; none where they aren't whole.
pub fn type_number(source: &mut Source<'_>) -> Option<TypeNumber>
    ensures { MatchOption result (number_of u2 source.old ≡ None) (λ n. number_of u2 source.old ≡ Some (n, source.new)) }
{
    let number = source.word()?;
    Some(TypeNumber::from(number))
}

/// The number of a type before that keeps a rule.
#[tactic(auto, unfolding(crate::specs::Symbol::sort, lil_format::specs::Format::reads))]
pub fn sort(source: &mut Source<'_>, all: &[Kind], rule: Rule) -> Result<TypeNumber, Stop>
    ensures { Reads (reads (spec.sort all.now rule) source.old) result source.new }
{
    let here = source.left();
    match type_number(source) {
        None => Err(Stop::Left(0)),
        Some(n) if names_type(all, rule, n) => Ok(n),
        Some(_) => Err(Stop::Left(here)),
    }
}
