//! The second part: the names of a module, its types, and where its variables lie.

use crate::page::{Page, shown};
use crate::tokens::place_text;
use lil_base::{Items, Memory};
use lil_language::{Decl, Import, Unit};
use lil_resolved::{RBase, RDeclared, RKind, RModule, ROpening, RPassing, RShape, RSignature};
use lil_text::Ident;
use std::alloc::Global;

fn show_name(page: &mut Page, of: &Ident, what: &str) -> Result<(), Memory> {
    let alloc = page.alloc();
    let place = place_text(alloc, of.place)?;
    let name = shown(alloc, of.name.as_slice())?;
    page.line(format!(in alloc; "{place:>9}  {name:<24}  {what}")?.as_str())
}

fn show_all(page: &mut Page, names: &[Ident], what: &str) -> Result<(), Memory> {
    for name in names {
        show_name(page, name, what)?;
    }
    Ok(())
}

fn show_import(page: &mut Page, import: &Import) -> Result<(), Memory> {
    let names = import.names.as_slice();
    match &import.from {
        None => show_all(page, names, "a module, imported"),
        Some(owner) => {
            let alloc = page.alloc();
            let owner = shown(alloc, owner.name.as_slice())?;
            let what = format!(in alloc; "imported from {owner}")?;
            show_all(page, names, what.as_str())
        }
    }
}

#[cycle(declaration)]
fn show_declarations(page: &mut Page, of: &Items<Decl>) -> Result<(), Memory> {
    for declaration in of.as_slice() {
        show_declaration(page, declaration)?;
    }
    Ok(())
}

#[cycle(declaration)]
fn show_declaration(page: &mut Page, of: &Decl) -> Result<(), Memory> {
    match of {
        Decl::ConstIs(_, constants) => {
            for constant in constants.as_slice() {
                show_name(page, &constant.name, "a constant")?;
            }
        }
        Decl::TypeIs(_, types) => {
            for named in types.as_slice() {
                show_name(page, &named.name, "a type")?;
            }
        }
        Decl::VarsAre(_, variables) => {
            for alike in variables.as_slice() {
                show_all(page, alike.names.as_slice(), "a variable")?;
            }
        }
        Decl::ProcIs(heading, block) => {
            show_name(page, &heading.name, "a procedure")?;
            if let Some(block) = block {
                show_declarations(page, &block.decls)?;
            }
        }
    }
    Ok(())
}

/// Shows the names that a unit has, imports or declares, where they stand.
pub(crate) fn show_names(page: &mut Page, unit: &Unit) -> Result<(), Memory> {
    page.line("    place  name                      what it is")?;
    show_name(page, &unit.head.name, "the module")?;
    for import in unit.head.imports.as_slice() {
        show_import(page, import)?;
    }
    show_declarations(page, &unit.decls)
}

fn base_text(alloc: Global, base: RBase) -> Result<String, Memory> {
    let word = match base {
        RBase::Cardinal => "CARDINAL",
        RBase::Integer => "INTEGER",
        RBase::Truth => "BOOLEAN",
        RBase::Character => "CHAR",
        RBase::Set => "set",
        RBase::Address => "ADDRESS",
        RBase::Enumeration(count) => {
            return Ok(format!(in alloc; "enumeration of {count}")?);
        }
        RBase::Pointer(number) => return Ok(format!(in alloc; "pointer of type {number}")?),
        RBase::Procedure(5) => "PROC",
        RBase::Procedure(number) => {
            return Ok(format!(in alloc; "procedure of type {number}")?);
        }
    };
    Ok(String::from_str(alloc, word)?)
}

fn kind_text(alloc: Global, kind: RKind) -> Result<String, Memory> {
    let base = base_text(alloc, kind.base)?;
    let Some(range) = kind.range else {
        return Ok(base);
    };
    let low = range.low;
    let high = range.high;
    Ok(format!(in alloc; "{base} from {low} to {high}")?)
}

/// What the shape with this number is: a kind, or the number of a type that has a line of its own.
fn shape_text(alloc: Global, module: &RModule, number: usize) -> Result<String, Memory> {
    match module.shapes.get(number) {
        Some(RShape::Word(kind)) => kind_text(alloc, *kind),
        _ => Ok(format!(in alloc; "type {number}")?),
    }
}

fn is_one_of(variables: &[RDeclared], number: usize) -> bool {
    variables.iter().any(|variable| variable.shape == number)
}

fn has_part(shape: &RShape, number: usize) -> bool {
    match shape {
        RShape::Fields(fields) => fields.as_slice().iter().any(|field| field.shape == number),
        RShape::Elements(elements) => elements.shape == number,
        RShape::Word(_) | RShape::Absent => false,
    }
}

fn is_handed_over(signature: &RSignature, number: usize) -> bool {
    let parameters = signature.parameters.as_slice();
    parameters.iter().any(|parameter| parameter.shape == number)
}

/// Whether a pointer leads to something of this type. A type that isn't one of pointers has itself as its target.
fn is_pointed_to(module: &RModule, number: usize) -> bool {
    for (pointer, target) in module.targets.as_slice().iter().enumerate() {
        if pointer != number && *target == number {
            return true;
        }
    }
    false
}

/// Whether a variable, a part of one, what a pointer leads to or a parameter is of the type with this number. Each heading has a
/// procedure type of its own, of which nothing is.
fn is_used(module: &RModule, number: usize) -> bool {
    let shapes = module.shapes.as_slice();
    let procedures = module.procedures.as_slice();
    let signatures = module.signatures.as_slice();
    is_one_of(module.variables.as_slice(), number)
        || procedures
            .iter()
            .any(|of| is_one_of(of.heading.locals.as_slice(), number))
        || shapes.iter().any(|shape| has_part(shape, number))
        || is_pointed_to(module, number)
        || signatures
            .iter()
            .any(|signature| is_handed_over(signature, number))
}

/// Whether the type with this number has parts, or is that of pointers, or of procedures in use but PROC: then it has a line of
/// its own.
fn is_listed(module: &RModule, number: usize) -> bool {
    match module.shapes.get(number) {
        Some(RShape::Fields(_)) | Some(RShape::Elements(_)) => true,
        Some(RShape::Word(kind)) => {
            kind.base == RBase::Pointer(number)
                || (number != 5 && kind.base == RBase::Procedure(number) && is_used(module, number))
        }
        Some(RShape::Absent) | None => false,
    }
}

fn show_type(page: &mut Page, module: &RModule, number: usize) -> Result<(), Memory> {
    let alloc = page.alloc();
    match module.shapes.get(number) {
        Some(RShape::Fields(fields)) => {
            page.line(format!(in alloc; "{number:>9}  a record")?.as_str())?;
            for (place, field) in fields.as_slice().iter().enumerate() {
                let what = shape_text(alloc, module, field.shape)?;
                let word = field.offset;
                let line = format!(in alloc; "             field {place}, word {word}: {what}")?;
                page.line(line.as_str())?;
            }
            Ok(())
        }
        Some(RShape::Elements(elements)) => {
            let what = shape_text(alloc, module, elements.shape)?;
            let count = elements.count;
            let words = elements.words;
            let line = format!(in alloc;
                "{number:>9}  an array of {count}, words each: {words}; {what}"
            )?;
            page.line(line.as_str())
        }
        Some(RShape::Word(kind)) if kind.base == RBase::Procedure(number) => {
            show_signature(page, module, number)
        }
        _ => show_pointer(page, module, number),
    }
}

/// Shows what procedures of the type with this number have: their parameters, and what they return.
fn show_signature(page: &mut Page, module: &RModule, number: usize) -> Result<(), Memory> {
    let Some(signature) = module.signatures.get(number) else {
        return Ok(());
    };
    let alloc = page.alloc();
    page.line(format!(in alloc; "{number:>9}  a procedure")?.as_str())?;
    for (place, parameter) in signature.parameters.as_slice().iter().enumerate() {
        let what = shape_text(alloc, module, parameter.shape)?;
        let passing = passing_text(parameter.passing);
        let line = format!(in alloc; "             parameter {place}: {passing}{what}")?;
        page.line(line.as_str())?;
    }
    if let Some(kind) = signature.result {
        let what = kind_text(alloc, kind)?;
        page.line(format!(in alloc; "             result: {what}")?.as_str())?;
    }
    Ok(())
}

fn passing_text(passing: RPassing) -> &'static str {
    match passing {
        RPassing::ByValue => "",
        RPassing::ByPlace => "VAR ",
        RPassing::Open(ROpening::Copied) => "ARRAY OF ",
        RPassing::Open(ROpening::Lent) => "VAR ARRAY OF ",
    }
}

/// Shows what the pointers of the type with this number point to.
fn show_pointer(page: &mut Page, module: &RModule, number: usize) -> Result<(), Memory> {
    let Some(target) = module.targets.get(number) else {
        return Ok(());
    };
    let alloc = page.alloc();
    let what = shape_text(alloc, module, *target)?;
    page.line(format!(in alloc; "{number:>9}  a pointer to {what}")?.as_str())
}

/// Shows the types that have parts or are those of pointers or procedures, by their numbers.
pub(crate) fn show_types(page: &mut Page, module: &RModule) -> Result<(), Memory> {
    let mut begun = false;
    for number in 0..module.shapes.len() {
        if is_listed(module, number) {
            if !begun {
                page.line("")?;
                page.line("     type  what it is")?;
            }
            begun = true;
            show_type(page, module, number)?;
        }
    }
    Ok(())
}

/// Shows where the variables of a module lie in its data.
pub(crate) fn show_variables(page: &mut Page, module: &RModule) -> Result<(), Memory> {
    let alloc = page.alloc();
    page.line("")?;
    page.line("     word  variable                  type")?;
    for variable in module.variables.as_slice() {
        let name = shown(alloc, variable.name.as_slice())?;
        let what = shape_text(alloc, module, variable.shape)?;
        let word = variable.offset;
        page.line(format!(in alloc; "{word:>9}  {name:<24}  {what}")?.as_str())?;
    }
    Ok(())
}
