//! The interface that a symbol file tells.

ghost use Rattle.std.specs.Prelude.{◌≡◌, ◌++◌, ◌∷◌, [], length, IfOk, map};
ghost use Rattle.std.specs.List.{flat_map};
ghost use Rattle.lil_iface.specs.Known as spec;

use crate::types::copied_names;
use lil_base::{Items, Memory, Shared, Text};
use lil_interfaces::{Exported, Interface, copied_rests};
use lil_scope::{Chars, ExternalProcedure, ExternalVariable, Kind, Thing};
use lil_symfile::{
    Class, Field as SymField, Form, Parameter as SymParameter, SymName, SymType, SymbolFile,
};
use lil_types::{Fields, Origin, Parameter, Span, TypeForm, TypeTable, append};
use std::alloc::Global;

fn fields_in(alloc: Global, of: &[SymField]) -> Result<Fields, Memory>
    ensures { IfOk result (λ fs. fs ≡ map spec.field_in of.now) }
{
    let mut all = Fields::new(alloc);
    for one in of {
        let (_, more) = all.with(alloc, &one.name, one.sort)?;
        all = more;
    }
    Ok(all)
}

fn parameter_in(of: SymParameter) -> Parameter
    ensures { result ≡ spec.parameter_in of }
{
    Parameter {
        by_place: of.by_place,
        open_array: of.open_array,
        sort: of.sort,
    }
}

fn parameters_in(alloc: Global, of: &[SymParameter]) -> Result<Items<Parameter>, Memory>
    ensures { IfOk result (λ ps. ps ≡ map spec.parameter_in of.now) }
{
    let mut all = Items::new(alloc);
    for one in of {
        all.push(parameter_in(*one))?;
    }
    Ok(all)
}

fn form_in(alloc: Global, of: &Form) -> Result<TypeForm, Memory>
    ensures { IfOk result (λ f. f ≡ spec.form_in of.now) }
{
    Ok(match of {
        Form::Enumeration { names } => {
            TypeForm::Enumeration(copied_names(alloc, names.as_slice())?)
        }
        Form::Subrange { base, lower, upper } => TypeForm::Subrange(
            *base,
            Span {
                low: *lower,
                high: *upper,
            },
        ),
        Form::Array { index, element } => TypeForm::Array(*index, *element),
        Form::Record { fields } => TypeForm::Record(fields_in(alloc, fields.as_slice())?),
        Form::Set { base } => TypeForm::SetOf(*base),
        Form::Pointer { target } => TypeForm::Pointer(*target),
        Form::Procedure { parameters, answer } => {
            TypeForm::Procedure(parameters_in(alloc, parameters.as_slice())?, *answer)
        }
        Form::Opaque => TypeForm::Opaque(None),
    })
}

fn add_type(alloc: Global, to: &mut TypeTable, of: &SymType) -> Result<(), Memory>
    ensures { IfOk result (λ u. to.new ≡ spec.with_type to.old of.now) }
{
    let origin = Origin {
        module: of.origin,
        number: of.number,
    };
    let form = form_in(alloc, &of.form)?;
    append(to, origin, form)
}

fn types_in(alloc: Global, of: &[SymType]) -> Result<TypeTable, Memory>
    ensures { IfOk result (λ t. t ≡ spec.types_in [] of.now) }
{
    let mut all = TypeTable::new(alloc);
    for one in of {
        add_type(alloc, &mut all, one)?;
    }
    Ok(all)
}

fn first_of(text: &[u8]) -> u8
    ensures { result ≡ spec.first_of text.now }
{
    match text {
        [] => 0,
        [first, ..] => *first,
    }
}

fn chars_in(text: &Text) -> Chars
    ensures { result ≡ spec.chars_in text.now }
{
    Chars {
        length: text.len(),
        first: first_of(text.as_slice()),
    }
}

/// The text of a constant behind those before.
fn add_text(alloc: Global, to: &mut Items<Shared<Text>>, of: &Class) -> Result<(), Memory>
    ensures { IfOk result (λ u. to.new ≡ to.old ++ spec.text_of of.now) }
{
    match of {
        Class::Chars { text } => {
            let text = Text::from_slice(alloc, text.as_slice())?;
            to.push(Shared::new(alloc, text)?)
        }
        Class::Whole { .. }
        | Class::Scalar { .. }
        | Class::Sort { .. }
        | Class::Variable { .. }
        | Class::Procedure { .. } => Ok(()),
    }
}

/// What a name stands for, where so many texts stand before.
fn thing_in(texts: usize, of: &Class) -> Thing
    ensures { result ≡ spec.thing_in texts of.now }
{
    match of {
        Class::Whole { value } => Thing::Constant(Kind::Whole(*value)),
        Class::Scalar { sort, word } => Thing::Constant(Kind::Scalar(*sort, *word)),
        Class::Chars { text } => Thing::Named(texts, chars_in(text)),
        Class::Sort { sort } => Thing::Type(*sort),
        Class::Variable { sort, offset } => Thing::ExternalVariable(ExternalVariable {
            module: 0,
            offset: *offset,
            sort: *sort,
        }),
        Class::Procedure { sort, number } => Thing::ExternalProcedure(ExternalProcedure {
            module: 0,
            number: *number,
            sort: *sort,
        }),
    }
}

fn texts_in(alloc: Global, of: &[SymName]) -> Result<Items<Shared<Text>>, Memory>
    ensures { IfOk result (λ ts. ts ≡ flat_map (λ y. spec.text_of y.class) of.now) }
{
    let mut all = Items::new(alloc);
    for one in of {
        add_text(alloc, &mut all, &one.class)?;
    }
    Ok(all)
}

fn text_count(of: &Class) -> usize
    ensures { result ≡ length (spec.text_of of.now) }
{
    match of {
        Class::Chars { .. } => 1,
        Class::Whole { .. }
        | Class::Scalar { .. }
        | Class::Sort { .. }
        | Class::Variable { .. }
        | Class::Procedure { .. } => 0,
    }
}

fn names_in(alloc: Global, of: &[SymName]) -> Result<Items<Exported>, Memory>
    ensures { IfOk result (λ ns. ns ≡ spec.names_in 0 of.now) }
{
    let mut all = Items::new(alloc);
    let mut texts: usize = 0;
    for one in of {
        let name = one.name.copy(alloc)?;
        all.push(Exported {
            shown: one.shown,
            name,
            what: thing_in(texts, &one.class),
        })?;
        texts += text_count(&one.class);
    }
    Ok(all)
}

/// The interface that a symbol file tells.
pub fn interface_in(alloc: Global, of: &SymbolFile) -> Result<Interface, Memory>
    ensures { IfOk result (λ i. i ≡ spec.interface_in of.now) }
{
    Ok(Interface {
        name: of.name.copy(alloc)?,
        key: of.key,
        rests: copied_rests(alloc, of.rests.as_slice())?,
        types: types_in(alloc, of.types.as_slice())?,
        texts: texts_in(alloc, of.names.as_slice())?,
        names: names_in(alloc, of.names.as_slice())?,
    })
}
