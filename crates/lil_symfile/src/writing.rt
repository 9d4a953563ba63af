ghost use Rattle.std.specs.Prelude.{◌≡◌, ◌++◌, ◌∷◌, [], ◌<◌, length, OnOk, IfOk};
ghost use Rattle.lil_base.specs.Fields.{bytes16, bytes32};
ghost use Rattle.lil_format.specs.Format.{Fits, spelling};
ghost use Rattle.lil_symfile.specs.Numbers as numbers;
ghost use Rattle.lil_symfile.specs.Symbol as spec;
ghost use Rattle.lil_symfile.specs.Written as written;

use crate::tree::{Class, Field, Form, Parameter, SymName, SymType, SymbolFile, TypeNumber};
use lil_base::{Bytes, Memory, Name, put16, put32};
use lil_format::{Wanted, put_name, put_text16, put_wanted};
use std::alloc::Global;

// ---- types

fn put_constants(out: &mut Bytes, all: &[Name]) -> Result<(), Memory>
    requires { length all.now < 65536 }
    ensures { OnOk result (out.new ≡ out.old ++ written.constants_bytes all.now) }
{
    put16(out, all.len() as u16)?;
    for one in all {
        put_name(out, one)?;
    }
    Ok(())
}

/// A number that two bytes hold.
fn put_word(out: &mut Bytes, number: u32) -> Result<(), Memory>
    requires { number < 65536 }
    ensures { OnOk result (out.new ≡ out.old ++ bytes16 number) }
{
    put16(out, number as u16)
}

fn put_field(out: &mut Bytes, field: &Field) -> Result<(), Memory>
    requires { written.short_field field.now }
    ensures { OnOk result (out.new ≡ out.old ++ written.field_bytes field.now) }
{
    put_name(out, &field.name)?;
    put_word(out, field.sort)
}

fn put_fields(out: &mut Bytes, all: &[Field]) -> Result<(), Memory>
    requires count { length all.now < 65536 }
    requires each { written.short_fields all.now }
    ensures { OnOk result (out.new ≡ out.old ++ written.fields_bytes all.now) }
{
    put16(out, all.len() as u16)?;
    for one in all {
        put_field(out, one)?;
    }
    Ok(())
}

fn flags_code(by_place: bool, open_array: bool) -> u8
    ensures { result ≡ spec.flags_code (by_place, open_array) }
{
    match (by_place, open_array) {
        (false, false) => 0,
        (true, false) => 1,
        (false, true) => 2,
        (true, true) => 3,
    }
}

fn put_parameter(out: &mut Bytes, parameter: Parameter) -> Result<(), Memory>
    requires { written.short_parameter parameter }
    ensures { OnOk result (out.new ≡ out.old ++ written.parameter_bytes parameter) }
{
    out.push(flags_code(parameter.by_place, parameter.open_array))?;
    put_word(out, parameter.sort)
}

fn put_parameters(out: &mut Bytes, all: &[Parameter]) -> Result<(), Memory>
    requires count { length all.now < 256 }
    requires each { written.short_parameters all.now }
    ensures { OnOk result (out.new ≡ out.old ++ written.parameters_bytes all.now) }
{
    out.push(all.len() as u8)?;
    for one in all {
        put_parameter(out, *one)?;
    }
    Ok(())
}

fn put_answer(out: &mut Bytes, answer: Option<TypeNumber>) -> Result<(), Memory>
    requires { written.short_answer answer }
    ensures { OnOk result (out.new ≡ out.old ++ bytes16 (spec.answer_code answer)) }
{
    match answer {
        None => put16(out, 65535),
        Some(n) => put_word(out, n),
    }
}

/// The word of a number that it holds.
fn word_of(number: i32) -> u32
    requires { numbers.word_of number < 65536 }
    ensures { result ≡ numbers.word_of number }
{
    if 0 <= number {
        number as u32
    } else {
        65535u32.saturating_sub((-1 - number) as u32)
    }
}

/// The field of four bytes of a number.
fn long_of(number: i32) -> u32
    ensures { result ≡ numbers.long_of number }
{
    if 0 <= number {
        number as u32
    } else {
        4_294_967_295 - (-1 - number) as u32
    }
}

fn put_two(out: &mut Bytes, first: u32, second: u32) -> Result<(), Memory>
    requires first { first < 65536 }
    requires second { second < 65536 }
    ensures { OnOk result (out.new ≡ out.old ++ (bytes16 first ++ bytes16 second)) }
{
    put_word(out, first)?;
    put_word(out, second)
}

fn put_subrange(out: &mut Bytes, base: TypeNumber, lower: i32, upper: i32) -> Result<(), Memory>
    requires base { base < 65536 }
    requires low { numbers.word_of lower < 65536 }
    requires high { numbers.word_of upper < 65536 }
    ensures { OnOk result (out.new ≡ out.old ++ (bytes16 base ++ (bytes16 (numbers.word_of lower) ++ bytes16 (numbers.word_of upper)))) }
{
    put_word(out, base)?;
    put_two(out, word_of(lower), word_of(upper))
}

fn put_form(out: &mut Bytes, form: &Form) -> Result<(), Memory>
    requires { written.short_form form.now }
    ensures { OnOk result (out.new ≡ out.old ++ written.form_bytes form.now) }
{
    match form {
        Form::Enumeration { names } => {
            out.push(1)?;
            put_constants(out, names.as_slice())
        }
        Form::Subrange { base, lower, upper } => {
            out.push(2)?;
            put_subrange(out, *base, *lower, *upper)
        }
        Form::Array { index, element } => {
            out.push(3)?;
            put_two(out, *index, *element)
        }
        Form::Record { fields } => {
            out.push(4)?;
            put_fields(out, fields.as_slice())
        }
        Form::Set { base } => {
            out.push(5)?;
            put_word(out, *base)
        }
        Form::Pointer { target } => {
            out.push(6)?;
            put_word(out, *target)
        }
        Form::Procedure { parameters, answer } => {
            out.push(7)?;
            put_parameters(out, parameters.as_slice())?;
            put_answer(out, *answer)
        }
        Form::Opaque => out.push(8),
    }
}

fn put_type(out: &mut Bytes, one: &SymType) -> Result<(), Memory>
    requires { written.short_type one.now }
    ensures { OnOk result (out.new ≡ out.old ++ written.type_bytes one.now) }
{
    out.push(one.origin as u8)?;
    put_word(out, one.number)?;
    put_form(out, &one.form)
}

fn put_types(out: &mut Bytes, all: &[SymType]) -> Result<(), Memory>
    requires count { length all.now < 65536 }
    requires each { written.short_types all.now }
    ensures { OnOk result (out.new ≡ out.old ++ written.types_bytes all.now) }
{
    put16(out, all.len() as u16)?;
    for one in all {
        put_type(out, one)?;
    }
    Ok(())
}

// ---- names

fn put_class(out: &mut Bytes, class: &Class) -> Result<(), Memory>
    requires { written.short_class class.now }
    ensures { OnOk result (out.new ≡ out.old ++ written.class_bytes class.now) }
{
    match class {
        Class::Whole { value } => {
            out.push(1)?;
            put32(out, long_of(*value))
        }
        Class::Scalar { sort, word } => {
            out.push(2)?;
            put_two(out, *sort, u32::from(*word))
        }
        Class::Chars { text } => {
            out.push(3)?;
            put_text16(out, text.as_slice())
        }
        Class::Sort { sort } => {
            out.push(4)?;
            put_word(out, *sort)
        }
        Class::Variable { sort, offset } => {
            out.push(5)?;
            put_two(out, *sort, *offset)
        }
        Class::Procedure { sort, number } => {
            out.push(6)?;
            put_word(out, *sort)?;
            out.push(*number as u8)
        }
    }
}

fn put_sym_name(out: &mut Bytes, one: &SymName) -> Result<(), Memory>
    requires { written.short_name one.now }
    ensures { OnOk result (out.new ≡ out.old ++ written.name_bytes one.now) }
{
    out.push(if one.shown { 1 } else { 0 })?;
    put_name(out, &one.name)?;
    put_class(out, &one.class)
}

fn put_names(out: &mut Bytes, all: &[SymName]) -> Result<(), Memory>
    requires count { length all.now < 65536 }
    requires each { written.short_names all.now }
    ensures { OnOk result (out.new ≡ out.old ++ written.names_bytes all.now) }
{
    put16(out, all.len() as u16)?;
    for one in all {
        put_sym_name(out, one)?;
    }
    Ok(())
}

// ---- the file

fn put_rests(out: &mut Bytes, all: &[Wanted]) -> Result<(), Memory>
    requires { length all.now < 256 }
    ensures { OnOk result (out.new ≡ out.old ++ written.rests_bytes all.now) }
{
    out.push(all.len() as u8)?;
    for one in all {
        put_wanted(out, one)?;
    }
    Ok(())
}

fn put_file(out: &mut Bytes, file: &SymbolFile) -> Result<(), Memory>
    requires { written.is_short file.now }
    ensures { OnOk result (out.new ≡ out.old ++ written.file_bytes file.now) }
{
    out.extend(b"LSYM")?;
    out.push(1)?;
    put_name(out, &file.name)?;
    put32(out, file.key.0)?;
    put_rests(out, file.rests.as_slice())?;
    put_types(out, file.types.as_slice())?;
    put_names(out, file.names.as_slice())
}

/// What is written of a file whose counts, numbers and bounds fit their fields.
pub fn file_bytes(alloc: Global, file: &SymbolFile) -> Result<Bytes, Memory>
    requires { written.is_short file.now }
    ensures { IfOk result (λ b. b ≡ written.file_bytes file.now) }
{
    let mut out = Bytes::new(alloc);
    put_file(&mut out, file)?;
    Ok(out)
}

/// The bytes of a symbol file: the one spelling of what it says.
#[tactic(auto, using(crate::proofs::Spelled::file_is))]
pub fn write_sym(alloc: Global, file: &SymbolFile) -> Result<Bytes, Memory>
    requires { Fits spec.symbol_file file.now }
    ensures { IfOk result (λ b. b ≡ spelling spec.symbol_file file.now) }
{
    file_bytes(alloc, file)
}
