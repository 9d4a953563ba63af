ghost use Rattle.std.specs.Prelude.{◌<◌, ◌↔◌, IsTrue};
ghost use Rattle.lil_symfile.specs.Numbers as numbers;
ghost use Rattle.lil_symfile.specs.Written as written;

use crate::tree::{Class, Field, Form, Parameter, SymName, SymType, SymbolFile, TypeNumber};

/// Whether two bytes hold a number.
fn is_word(number: u32) -> bool
    ensures { IsTrue result ↔ number < 65536 }
{
    number < 65536
}

/// Whether two bytes hold a bound. They hold what is below 0.
fn is_bound(number: i32) -> bool
    ensures { IsTrue result ↔ numbers.word_of number < 65536 }
{
    number < 65536
}

fn short_fields(all: &[Field]) -> bool
    ensures { IsTrue result ↔ written.short_fields all.now }
{
    all.iter().all(|field| is_word(field.sort))
}

fn short_parameters(all: &[Parameter]) -> bool
    ensures { IsTrue result ↔ written.short_parameters all.now }
{
    all.iter().all(|parameter| is_word(parameter.sort))
}

fn short_answer(answer: Option<TypeNumber>) -> bool
    ensures { IsTrue result ↔ written.short_answer answer }
{
    match answer {
        None => true,
        Some(n) => is_word(n),
    }
}

fn short_form(form: &Form) -> bool
    ensures { IsTrue result ↔ written.short_form form.now }
{
    match form {
        Form::Enumeration { names } => names.len() < 65536,
        Form::Subrange { base, lower, upper } => {
            is_word(*base) && is_bound(*lower) && is_bound(*upper)
        }
        Form::Array { index, element } => is_word(*index) && is_word(*element),
        Form::Record { fields } => fields.len() < 65536 && short_fields(fields.as_slice()),
        Form::Set { base } => is_word(*base),
        Form::Pointer { target } => is_word(*target),
        Form::Procedure { parameters, answer } => {
            parameters.len() < 256
                && short_parameters(parameters.as_slice())
                && short_answer(*answer)
        }
        Form::Opaque => true,
    }
}

fn short_type(one: &SymType) -> bool
    ensures { IsTrue result ↔ written.short_type one.now }
{
    one.origin < 256 && is_word(one.number) && short_form(&one.form)
}

fn short_types(all: &[SymType]) -> bool
    ensures { IsTrue result ↔ written.short_types all.now }
{
    all.iter().all(short_type)
}

fn short_class(class: &Class) -> bool
    ensures { IsTrue result ↔ written.short_class class.now }
{
    match class {
        Class::Whole { .. } => true,
        Class::Scalar { sort, .. } | Class::Sort { sort } => is_word(*sort),
        Class::Chars { text } => text.len() < 65536,
        Class::Variable { sort, offset } => is_word(*sort) && is_word(*offset),
        Class::Procedure { sort, number } => is_word(*sort) && *number < 256,
    }
}

fn short_names(all: &[SymName]) -> bool
    ensures { IsTrue result ↔ written.short_names all.now }
{
    all.iter().all(|one| short_class(&one.class))
}

/// Whether each count, number and bound of a file fits its field.
pub fn is_short(file: &SymbolFile) -> bool
    ensures { IsTrue result ↔ written.is_short file.now }
{
    file.rests.len() < 256
        && file.types.len() < 65536
        && short_types(file.types.as_slice())
        && file.names.len() < 65536
        && short_names(file.names.as_slice())
}
