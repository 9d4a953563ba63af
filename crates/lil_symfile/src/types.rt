ghost use Rattle.std.specs.Prelude.{◌≡◌, ◌∷◌, ◌++◌, [], true, IfOk};
ghost use Rattle.lil_format.specs.Reading.{Reads, number_in, such, u1, u2};
ghost use Rattle.lil_format.specs.Format.{reads};
ghost use Rattle.lil_symfile.specs.Symbol as spec;
ghost use Rattle.lil_symfile.specs.Kinds.{kind_of as spec_kind_of, kinds as kinds_of};

use crate::bounds::{lower, upper};
use crate::kinds::{Kind, Rule, base_signed, kind_of, names_type, sort, type_number};
use crate::seen::{Seen, new_name};
use crate::tree::{Field, Form, Parameter, SymType, TypeNumber};
use lil_base::{Items, Name};
use lil_format::{Source, Stop, any_byte, any_word, read_name};
use std::alloc::Global;

// ---- enumerations and records

fn name_count(source: &mut Source<'_>) -> Result<u16, Stop>
    ensures { Reads (number_in u2 (such spec.at_least_one) source.old) result source.new }
{
    let here = source.left();
    match source.word() {
        None => Err(Stop::Left(0)),
        Some(n) if 1 <= n => Ok(n),
        Some(_) => Err(Stop::Left(here)),
    }
}

#[tactic(auto, using(lil_format::specs::Turns::turns), unfolding(crate::specs::Symbol::constants, lil_format::specs::Format::reads))]
fn constants(alloc: Global, source: &mut Source<'_>) -> Result<Items<Name>, Stop>
    ensures { Reads (reads spec.constants source.old) result source.new }
{
    let count = name_count(source)?;
    let mut all = Items::new(alloc);
    for _turn in 0..count {
        let next = read_name(alloc, source)?;
        all.push(next)?;
    }
    Ok(all)
}

#[tactic(auto, unfolding(crate::specs::Symbol::field, lil_format::specs::Format::reads))]
fn field(
    alloc: Global,
    source: &mut Source<'_>,
    kinds: &[Kind],
    seen: &mut Seen,
) -> Result<Field, Stop>
    ensures read { Reads (reads (spec.field kinds.now seen.old) source.old) result source.new }
    ensures seen { IfOk result (λ f. seen.new ≡ seen.old ++ f.name ∷ []) }
{
    let name = new_name(alloc, source, seen)?;
    let sort = sort(source, kinds, Rule::Any)?;
    Ok(Field { name, sort })
}

#[tactic(auto, using(lil_format::specs::Turns::turns), unfolding(crate::specs::Symbol::fields, lil_format::specs::Format::reads))]
fn fields(alloc: Global, source: &mut Source<'_>, kinds: &[Kind]) -> Result<Items<Field>, Stop>
    ensures { Reads (reads (spec.fields kinds.now) source.old) result source.new }
{
    let count = any_word(source)?;
    let mut seen = Seen::new(alloc);
    let mut all = Items::new(alloc);
    for _turn in 0..count {
        let next = field(alloc, source, kinds, &mut seen)?;
        all.push(next)?;
    }
    Ok(all)
}

// ---- parameters and results

#[tactic(auto, unfolding(crate::specs::Symbol::flags, lil_format::specs::Format::reads))]
fn flags(source: &mut Source<'_>) -> Result<(bool, bool), Stop>
    ensures { Reads (reads spec.flags source.old) result source.new }
{
    let here = source.left();
    match source.byte() {
        None => Err(Stop::Left(0)),
        Some(0) => Ok((false, false)),
        Some(1) => Ok((true, false)),
        Some(2) => Ok((false, true)),
        Some(3) => Ok((true, true)),
        Some(_) => Err(Stop::Left(here)),
    }
}

#[tactic(auto, unfolding(crate::specs::Symbol::parameter, lil_format::specs::Format::reads))]
fn parameter(source: &mut Source<'_>, kinds: &[Kind]) -> Result<Parameter, Stop>
    ensures { Reads (reads (spec.parameter kinds.now) source.old) result source.new }
{
    let (by_place, open_array) = flags(source)?;
    let sort = sort(source, kinds, Rule::Any)?;
    Ok(Parameter {
        by_place,
        open_array,
        sort,
    })
}

#[tactic(auto, using(lil_format::specs::Turns::turns), unfolding(crate::specs::Symbol::parameters, lil_format::specs::Format::reads))]
fn parameters(
    alloc: Global,
    source: &mut Source<'_>,
    kinds: &[Kind],
) -> Result<Items<Parameter>, Stop>
    ensures { Reads (reads (spec.parameters kinds.now) source.old) result source.new }
{
    let count = any_byte(source)?;
    let mut all = Items::new(alloc);
    for _turn in 0..count {
        let next = parameter(source, kinds)?;
        all.push(next)?;
    }
    Ok(all)
}

#[tactic(auto, unfolding(crate::specs::Symbol::answer, lil_format::specs::Format::reads))]
fn answer(source: &mut Source<'_>, kinds: &[Kind]) -> Result<Option<TypeNumber>, Stop>
    ensures { Reads (reads (spec.answer kinds.now) source.old) result source.new }
{
    let here = source.left();
    match type_number(source) {
        None => Err(Stop::Left(0)),
        Some(65535) => Ok(None),
        Some(n) if names_type(kinds, Rule::Any, n) => Ok(Some(n)),
        Some(_) => Err(Stop::Left(here)),
    }
}

// ---- forms

#[tactic(auto, unfolding(crate::specs::Symbol::enumeration, lil_format::specs::Format::reads))]
fn enumeration(alloc: Global, source: &mut Source<'_>) -> Result<Form, Stop>
    ensures { Reads (spec.form_arm spec.enumeration 1 source.old) result source.new }
{
    let names = constants(alloc, source)?;
    Ok(Form::Enumeration { names })
}

#[tactic(auto, unfolding(crate::specs::Symbol::subrange, lil_format::specs::Format::reads))]
fn subrange(source: &mut Source<'_>, kinds: &[Kind]) -> Result<Form, Stop>
    ensures { Reads (spec.form_arm (spec.subrange kinds.now) 2 source.old) result source.new }
{
    let base = sort(source, kinds, Rule::Ordinal)?;
    let signed = base_signed(kinds, base);
    let lower = lower(source, signed)?;
    let upper = upper(source, signed, lower)?;
    Ok(Form::Subrange { base, lower, upper })
}

#[tactic(auto, unfolding(crate::specs::Symbol::array, lil_format::specs::Format::reads))]
fn array(source: &mut Source<'_>, kinds: &[Kind]) -> Result<Form, Stop>
    ensures { Reads (spec.form_arm (spec.array kinds.now) 3 source.old) result source.new }
{
    let index = sort(source, kinds, Rule::Ordinal)?;
    let element = sort(source, kinds, Rule::Any)?;
    Ok(Form::Array { index, element })
}

#[tactic(auto, unfolding(crate::specs::Symbol::record_form, lil_format::specs::Format::reads))]
fn record_form(alloc: Global, source: &mut Source<'_>, kinds: &[Kind]) -> Result<Form, Stop>
    ensures { Reads (spec.form_arm (spec.record_form kinds.now) 4 source.old) result source.new }
{
    let fields = fields(alloc, source, kinds)?;
    Ok(Form::Record { fields })
}

#[tactic(auto, unfolding(crate::specs::Symbol::set_form, lil_format::specs::Format::reads))]
fn set_form(source: &mut Source<'_>, kinds: &[Kind]) -> Result<Form, Stop>
    ensures { Reads (spec.form_arm (spec.set_form kinds.now) 5 source.old) result source.new }
{
    let base = sort(source, kinds, Rule::Small)?;
    Ok(Form::Set { base })
}

/// Whether a number names a type of a file that has so many.
fn in_file(count: usize, n: TypeNumber) -> bool
    ensures { result ≡ spec.in_file count n }
{
    n < 8 || (16 <= n && n as usize - 16 < count)
}

#[tactic(auto, unfolding(crate::specs::Symbol::pointer, lil_format::specs::Format::reads))]
fn pointer(source: &mut Source<'_>, count: usize) -> Result<Form, Stop>
    ensures { Reads (spec.form_arm (spec.pointer count) 6 source.old) result source.new }
{
    let here = source.left();
    match type_number(source) {
        None => Err(Stop::Left(0)),
        Some(target) if in_file(count, target) => Ok(Form::Pointer { target }),
        Some(_) => Err(Stop::Left(here)),
    }
}

#[tactic(auto, unfolding(crate::specs::Symbol::procedure, lil_format::specs::Format::reads))]
fn procedure(alloc: Global, source: &mut Source<'_>, kinds: &[Kind]) -> Result<Form, Stop>
    ensures { Reads (spec.form_arm (spec.procedure kinds.now) 7 source.old) result source.new }
{
    let parameters = parameters(alloc, source, kinds)?;
    let answer = answer(source, kinds)?;
    Ok(Form::Procedure { parameters, answer })
}

fn form_number(source: &mut Source<'_>) -> Result<u8, Stop>
    ensures number { IfOk result (λ k. spec.is_form k ≡ true) }
    ensures read { Reads (number_in u1 (such spec.is_form) source.old) result source.new }
{
    let here = source.left();
    match source.byte() {
        None => Err(Stop::Left(0)),
        Some(n) if 1 <= n && n <= 8 => Ok(n),
        Some(_) => Err(Stop::Left(here)),
    }
}

/// The form of a number, in a file of so many types.
#[tactic(auto, unfolding(lil_format::specs::Format::reads))]
fn form_by(
    alloc: Global,
    source: &mut Source<'_>,
    count: usize,
    kinds: &[Kind],
    number: u8,
) -> Result<Form, Stop>
    requires { spec.is_form number ≡ true }
    ensures { Reads (spec.form_arm (spec.form_by count kinds.now number) number source.old) result source.new }
{
    match number {
        1 => enumeration(alloc, source),
        2 => subrange(source, kinds),
        3 => array(source, kinds),
        4 => record_form(alloc, source, kinds),
        5 => set_form(source, kinds),
        6 => pointer(source, count),
        7 => procedure(alloc, source, kinds),
        _ => Ok(Form::Opaque),
    }
}

#[tactic(auto, unfolding(crate::specs::Symbol::form, lil_format::specs::Format::reads))]
fn form(alloc: Global, source: &mut Source<'_>, count: usize, kinds: &[Kind]) -> Result<Form, Stop>
    ensures { Reads (reads (spec.form count kinds.now) source.old) result source.new }
{
    let number = form_number(source)?;
    form_by(alloc, source, count, kinds, number)
}

// ---- types

fn origin(source: &mut Source<'_>, rested: usize) -> Result<usize, Stop>
    ensures { Reads (number_in u1 (such (spec.is_origin rested)) source.old) result source.new }
{
    let here = source.left();
    match source.byte() {
        None => Err(Stop::Left(0)),
        Some(n) if usize::from(n) <= rested => Ok(usize::from(n)),
        Some(_) => Err(Stop::Left(here)),
    }
}

fn number_fits(before: usize, origin: usize, n: TypeNumber) -> bool
    ensures { result ≡ spec.number_fits before origin n }
{
    if origin == 0 {
        16 <= n && n as usize - 16 == before
    } else {
        16 <= n
    }
}

fn number(source: &mut Source<'_>, before: usize, origin: usize) -> Result<TypeNumber, Stop>
    ensures { Reads (number_in u2 (such (spec.number_fits before origin)) source.old) result source.new }
{
    let here = source.left();
    match type_number(source) {
        None => Err(Stop::Left(0)),
        Some(n) if number_fits(before, origin, n) => Ok(n),
        Some(_) => Err(Stop::Left(here)),
    }
}

#[tactic(auto, unfolding(crate::specs::Symbol::sym_type, lil_format::specs::Format::reads))]
fn sym_type(
    alloc: Global,
    source: &mut Source<'_>,
    rested: usize,
    count: usize,
    kinds: &[Kind],
) -> Result<SymType, Stop>
    ensures { Reads (reads (spec.sym_type rested count kinds.now) source.old) result source.new }
{
    let origin = origin(source, rested)?;
    let number = number(source, kinds.len(), origin)?;
    let form = form(alloc, source, count, kinds)?;
    Ok(SymType {
        origin,
        number,
        form,
    })
}

/// A type more, whose kind goes to those of the types before.
fn next_type(
    alloc: Global,
    source: &mut Source<'_>,
    rested: usize,
    count: u16,
    kinds: &mut Items<Kind>,
) -> Result<SymType, Stop>
    ensures read { Reads (reads (spec.sym_type rested count kinds.old) source.old) result source.new }
    ensures kinds { IfOk result (λ t. kinds.new ≡ kinds.old ++ spec_kind_of kinds.old t.form ∷ []) }
{
    let next = sym_type(alloc, source, rested, usize::from(count), kinds.as_slice())?;
    let kind = kind_of(kinds.as_slice(), &next.form);
    kinds.push(kind)?;
    Ok(next)
}

/// The types, and the kinds of all of them.
#[tactic(auto, using(lil_format::specs::Turns::turns), unfolding(crate::specs::Symbol::types, lil_format::specs::Format::reads))]
pub fn types(
    alloc: Global,
    source: &mut Source<'_>,
    rested: usize,
    kinds: &mut Items<Kind>,
) -> Result<Items<SymType>, Stop>
    requires { kinds.old ≡ [] }
    ensures read { Reads (reads (spec.types rested) source.old) result source.new }
    ensures kinds { IfOk result (λ ts. kinds.new ≡ kinds_of ts) }
{
    let count = any_word(source)?;
    let mut all = Items::new(alloc);
    for _turn in 0..count {
        let next = next_type(alloc, source, rested, count, kinds)?;
        all.push(next)?;
    }
    Ok(all)
}
