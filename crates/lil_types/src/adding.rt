ghost use Rattle.std.specs.Prelude.{◌≡◌, ◌*◌, ◌≤◌, length, Option, Some, None, IfOk, OnOk, OnErr};
ghost use Rattle.lil_types.specs.Types as types;
ghost use Rattle.lil_types.specs.Adding as spec;

use crate::relations::known;
use crate::table::{Facts, Field, Origin, Span, TypeEntry, TypeForm, TypeId, TypeTable};
use lil_base::{Memory, whole_difference};

fn enumeration(n: TypeId, names: usize) -> Facts
    ensures { result ≡ types.enumeration_facts n names }
{
    let high = names.min(65536) as i32 - 1;
    Facts::ordinal(n, 0, high)
}

fn subrange(of: Option<Facts>, span: Span) -> Option<Facts>
    ensures { result ≡ spec.lasting (types.subrange_facts of span) }
{
    match of {
        Some(facts) => Some(Facts::ordinal(facts.base, span.low, span.high)),
        None => None,
    }
}

/// How many values a span of these ends has.
#[tactic(auto, using(crate::proofs::Sums::no_less))]
pub fn values(low: i32, high: i32) -> u64
    ensures number { result ≡ types.values (types.span low high) }
    ensures most { result ≤ 4294967296 }
{
    let count = whole_difference(high, low) + 1;
    if count < 0 { 0 } else { count as u64 }
}

/// A sum of words, which stops at 4,294,967,295.
fn stopped(words: u64) -> u32
    ensures { result ≡ spec.stopped words }
{
    words.min(4_294_967_295) as u32
}

fn record_of(n: TypeId, words: Option<u32>) -> Option<Facts>
    ensures { result ≡ types.record_facts n words }
{
    match words {
        Some(words) => Some(Facts::other(n, words)),
        None => None,
    }
}

fn array_of_span(n: TypeId, span: Span, element: Facts) -> Option<Facts>
    ensures { result ≡ spec.lasting (types.array_of_span n (Some span) element) }
{
    let words = values(span.low, span.high) * u64::from(element.words);
    Some(Facts::other(n, stopped(words)))
}

fn array(n: TypeId, index: Option<Facts>, element: Option<Facts>) -> Option<Facts>
    ensures { result ≡ spec.lasting (types.array_facts n index element) }
{
    match (index, element) {
        (
            Some(
                Facts {
                    span: Some(span),
                    ..
                },
            ),
            Some(element),
        ) => array_of_span(n, span, element),
        _ => None,
    }
}

/// The words of a field and of those before it, None where the field has no type.
fn more(sum: u32, field: Option<Facts>) -> Option<u32>
    ensures { result ≡ spec.stopped_some (types.sum_of field (Some sum)) }
{
    match field {
        Some(facts) => Some(stopped(u64::from(facts.words) + u64::from(sum))),
        None => None,
    }
}

/// The words of fields one after another.
fn fields_words(t: &TypeTable, fields: &[Field]) -> Option<u32>
    ensures { result ≡ spec.stopped_some (types.fields_words t.now fields.now) }
{
    let mut sum = 0;
    for field in fields {
        match more(sum, known(t, field.sort)) {
            Some(longer) => sum = longer,
            None => return None,
        }
    }
    Some(sum)
}

/// The facts of a form that has the number `n`.
#[tactic(auto, using(crate::proofs::Sums::record_lasts))]
fn facts_of(t: &TypeTable, n: TypeId, form: &TypeForm) -> Option<Facts>
    ensures { result ≡ spec.lasting (types.facts_of t.now n form.now) }
{
    match form {
        TypeForm::Enumeration(names) => Some(enumeration(n, names.len())),
        TypeForm::Subrange(of, span) => subrange(known(t, *of), *span),
        TypeForm::Array(index, element) => array(n, known(t, *index), known(t, *element)),
        TypeForm::Record(fields) => record_of(n, fields_words(t, fields.as_slice())),
        TypeForm::SetOf(_)
        | TypeForm::Pointer(_)
        | TypeForm::Procedure(_, _)
        | TypeForm::Opaque(_) => Some(Facts::other(n, 1)),
    }
}

fn is_short(span: Option<Span>) -> bool
    ensures { result ≡ spec.is_short span }
{
    match span {
        Some(span) => span.low >= -32768 && span.high <= 65535,
        None => true,
    }
}

fn fitting(facts: Option<Facts>) -> Option<Facts>
    ensures { result ≡ spec.fitting facts }
{
    match facts {
        Some(facts) if facts.words <= 32_000 && is_short(facts.span) => Some(facts),
        _ => None,
    }
}

/// The facts of a form that has the number `n`, None where the type is too long.
#[tactic(auto, using(crate::proofs::Sums::fits_stopped))]
fn fitting_facts(t: &TypeTable, n: TypeId, form: &TypeForm) -> Option<Facts>
    ensures { result ≡ spec.fitting (types.facts_of t.now n form.now) }
{
    fitting(facts_of(t, n, form))
}

/// The number of the next type, 0 where there is none left.
fn next_number(t: &TypeTable) -> TypeId
    ensures { result ≡ spec.next_number t.now }
{
    if t.len() < 4_294_967_279 {
        t.len() as TypeId + 16
    } else {
        0
    }
}

/// The origin of the next type, where it is the module's own.
pub fn own(t: &TypeTable) -> Origin
    ensures { result ≡ spec.own t.now }
{
    Origin {
        module: 0,
        number: next_number(t),
    }
}

/// Appends a type, and gives its number. None where a part has no number in the table, an index isn't ordinal, the type has
/// more than 32,000 words or values outside -32768 to 65535, or the table has 4,294,967,279 types; then and after a refusal of
/// memory the table is as before.
pub fn add(t: &mut TypeTable, origin: Origin, form: TypeForm) -> Result<Option<TypeId>, Memory>
    ensures number { IfOk result (λ n. n ≡ spec.added_number t.old form) }
    ensures ok { OnOk result (t.new ≡ spec.added t.old origin form) }
    ensures err { OnErr result (t.new ≡ t.old) }
    ensures sound { types.IsSound t.old → types.IsSound t.new }
{
    if t.len() >= 4_294_967_279 {
        return Ok(None);
    }
    let n = t.len() as TypeId + 16;
    match fitting_facts(t, n, &form) {
        None => Ok(None),
        Some(facts) => {
            t.push(TypeEntry {
                origin,
                form,
                facts,
            })?;
            Ok(Some(n))
        }
    }
}

fn facts_or(n: TypeId, facts: Option<Facts>) -> Facts
    ensures { result ≡ spec.facts_or n facts }
{
    match facts {
        Some(facts) => facts,
        None => Facts::other(n, 1),
    }
}

/// Appends a type of another module, which may have any length: sums of words stop at 4,294,967,295. Want of memory is told
/// too where the table has 4,294,967,279 types.
pub fn append(t: &mut TypeTable, origin: Origin, form: TypeForm) -> Result<(), Memory>
    ensures { IfOk result (λ o. t.new ≡ spec.appended t.old origin form) }
{
    if t.len() >= 4_294_967_279 {
        return Err(Memory);
    }
    let n = t.len() as TypeId + 16;
    let facts = facts_or(n, facts_of(t, n, &form));
    t.push(TypeEntry {
        origin,
        form,
        facts,
    })
}
