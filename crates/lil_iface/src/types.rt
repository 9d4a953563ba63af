//! The types of a unit as a symbol file has them.

ghost use Rattle.std.specs.Prelude.{◌≡◌, IfOk, map};
ghost use Rattle.lil_iface.specs.Iface as spec;

use lil_base::{Items, Memory, Name};
use lil_symfile::{Field as SymField, Form, Parameter as SymParameter, SymType};
use lil_types::{Field, Parameter, TypeEntry, TypeForm, TypeTable};
use std::alloc::Global;

pub(crate) fn copied_names(alloc: Global, of: &[Name]) -> Result<Items<Name>, Memory>
    ensures { IfOk result (λ ns. ns ≡ of.now) }
{
    let mut all = Items::new(alloc);
    for one in of {
        all.push(one.copy(alloc)?)?;
    }
    Ok(all)
}

fn field_of(alloc: Global, of: &Field) -> Result<SymField, Memory>
    ensures { IfOk result (λ f. f ≡ spec.field_of of.now) }
{
    let name = of.name.copy(alloc)?;
    let sort = of.sort;
    Ok(SymField { name, sort })
}

fn fields_of(alloc: Global, of: &[Field]) -> Result<Items<SymField>, Memory>
    ensures { IfOk result (λ fs. fs ≡ map spec.field_of of.now) }
{
    let mut all = Items::new(alloc);
    for one in of {
        all.push(field_of(alloc, one)?)?;
    }
    Ok(all)
}

fn parameter_of(of: Parameter) -> SymParameter
    ensures { result ≡ spec.parameter_of of }
{
    SymParameter {
        by_place: of.by_place,
        open_array: of.open_array,
        sort: of.sort,
    }
}

fn parameters_of(alloc: Global, of: &[Parameter]) -> Result<Items<SymParameter>, Memory>
    ensures { IfOk result (λ ps. ps ≡ map spec.parameter_of of.now) }
{
    let mut all = Items::new(alloc);
    for one in of {
        all.push(parameter_of(*one))?;
    }
    Ok(all)
}

fn form_of(alloc: Global, of: &TypeForm) -> Result<Form, Memory>
    ensures { IfOk result (λ f. f ≡ spec.form_of of.now) }
{
    Ok(match of {
        TypeForm::Enumeration(names) => Form::Enumeration {
            names: copied_names(alloc, names.as_slice())?,
        },
        TypeForm::Subrange(base, span) => Form::Subrange {
            base: *base,
            lower: span.low,
            upper: span.high,
        },
        TypeForm::Array(index, element) => Form::Array {
            index: *index,
            element: *element,
        },
        TypeForm::Record(fields) => Form::Record {
            fields: fields_of(alloc, fields.as_slice())?,
        },
        TypeForm::SetOf(base) => Form::Set { base: *base },
        TypeForm::Pointer(target) => Form::Pointer { target: *target },
        TypeForm::Procedure(parameters, answer) => Form::Procedure {
            parameters: parameters_of(alloc, parameters.as_slice())?,
            answer: *answer,
        },
        TypeForm::Opaque(_) => Form::Opaque,
    })
}

fn type_of(alloc: Global, of: &TypeEntry) -> Result<SymType, Memory>
    ensures { IfOk result (λ t. t ≡ spec.type_of of.now) }
{
    let form = form_of(alloc, &of.form)?;
    Ok(SymType {
        origin: of.origin.module,
        number: of.origin.number,
        form,
    })
}

/// The types in their order. What an opaque type is in its implementation isn't told.
pub(crate) fn types_of(alloc: Global, of: &TypeTable) -> Result<Items<SymType>, Memory>
    ensures { IfOk result (λ ts. ts ≡ map spec.type_of of.now) }
{
    let mut all = Items::new(alloc);
    for one in of.as_slice() {
        all.push(type_of(alloc, one)?)?;
    }
    Ok(all)
}
