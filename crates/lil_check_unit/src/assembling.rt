//! The module that what is declared and stated makes.

ghost use Rattle.std.specs.{Prelude.{◌≡◌, ◌≤◌, ◌+◌, None, map, option_map, if◌then◌else◌, IfOk, IfSome, Some}, List.All};
ghost use Rattle.lil_resolved.specs.Views.{heading_of, kind_view, module_of, procedure_of, statements_of, IsMeasured, IsMeasuredHeading};
ghost use Rattle.lil_shapes.specs.{Measured.{shapes_in, shapes_laid, IsShaped, IsLaid}, Shaping.{all_some, lying}};
ghost use Rattle.lil_check_unit.specs.Modules as spec;
ghost use Rattle.lil_check_unit.specs.Whole.{body_of};
ghost use Rattle.lil_check_unit.specs.Units.{IsThere};

use lil_base::{Items, Memory, Name};
use lil_check_stmt::Stated;
use lil_declared::{RProc, RVar};
use lil_kinds::{arity, result};
use lil_resolved::{RHeading, RKind, RModule, RProcedure, RStmt};
use lil_scope::{Env, Locals};
use lil_shapes::{Laid, Shaped, all_shapes, all_signatures, all_targets, kind_at, lay, lay_locals};
use lil_types::TypeTable;
use std::alloc::Global;

/// The numbers of procedures from 1, where all are bytes.
fn bytes(alloc: Global, of: &[usize]) -> Result<Option<Items<u8>>, Memory>
    ensures { IfOk result (λ o. o ≡ if spec.are_bytes of.now then Some (map (λ n. n + 1) of.now) else None) }
{
    let mut numbers = Items::new(alloc);
    for number in of {
        if *number >= 255 {
            return Ok(None);
        }
        numbers.push((*number + 1) as u8)?;
    }
    Ok(Some(numbers))
}

/// The kind of what a procedure returns, where it is a function.
fn result_of(table: &TypeTable, of: &RProc) -> Option<RKind>
    ensures { option_map kind_view result ≡ spec.result_by table.now of.now }
{
    match result(table, of.sort) {
        None => None,
        Some(sort) => kind_at(table, sort),
    }
}

/// A procedure with its parameters, its variables and its body, where it has code.
fn procedure(
    alloc: Global,
    table: &TypeTable,
    types: &Shaped,
    of: &RProc,
    variables: &[RVar],
    body: Option<Items<RStmt>>,
) -> Result<Option<RProcedure>, Memory>
    requires { IsShaped types.now }
    ensures means { IfOk result (λ o. option_map (procedure_of types.now.shapes) o ≡ spec.made_of table.now of.now (all_some (map (lying (shapes_in types.now)) variables.now)) body) }
    ensures body { IfOk result (λ o. IfSome o (λ p. body_of p ≡ body)) }
    ensures measured { IfOk result (λ o. IfSome o (λ p. IsMeasuredHeading types.now.shapes p.heading)) }
{
    let Some(body) = body else {
        return Ok(None);
    };
    let Some(around) = bytes(alloc, of.around.as_slice())? else {
        return Ok(None);
    };
    let Some(laid) = lay_locals(alloc, types, variables)? else {
        return Ok(None);
    };
    let name = of.name.copy(alloc)?;
    let heading = RHeading {
        name,
        around,
        locals: laid.variables,
        parameters: arity(table, of.sort),
        result: result_of(table, of),
        words: laid.words,
    };
    Ok(Some(RProcedure { heading, body }))
}

/// Procedures with their variables and their bodies, where all have code.
fn procedures(
    alloc: Global,
    table: &TypeTable,
    types: &Shaped,
    of: &[RProc],
    locals: &Locals,
    bodies: Items<Option<Items<RStmt>>>,
) -> Result<Option<Items<RProcedure>>, Memory>
    requires { IsShaped types.now }
    ensures means { IfOk result (λ o. option_map (map (procedure_of types.now.shapes)) o ≡ spec.procedures_from table.now (spec.locals_laid (shapes_in types.now) locals.now) 0 of.now bodies) }
    ensures bodies { IfOk result (λ o. IfSome o (λ ps. map body_of ps ≡ bodies)) }
    ensures measured { IfOk result (λ o. IfSome o (λ ps. All (IsMeasuredHeading types.now.shapes) (map heading_of ps))) }
{
    let mut left = bodies;
    let mut made = Items::new(alloc);
    for (number, one) in of.iter().enumerate() {
        let Some(body) = left.take_first() else {
            return Ok(None);
        };
        let Some(procedure) = procedure(alloc, table, types, one, locals.of(number), body)? else {
            return Ok(None);
        };
        made.push(procedure)?;
    }
    if left.is_empty() {
        Ok(Some(made))
    } else {
        Ok(None)
    }
}

/// A module of a name, over shapes, variables and procedures that are made.
fn named(
    alloc: Global,
    name: &Name,
    declared: &Env,
    types: Shaped,
    laid: Laid,
    procedures: Items<RProcedure>,
    body: Items<RStmt>,
) -> Result<RModule, Memory>
    requires shaped { IsShaped types }
    requires lies { IsLaid types declared.now.variables laid }
    requires measured { All (IsMeasuredHeading types.shapes) (map heading_of procedures) }
    ensures means { IfOk result (λ m. module_of m ≡ spec.module_with declared.now.types declared.now.variables declared.now.procedures declared.now.locals name.now (shapes_in types) (shapes_laid types laid) (map (procedure_of types.shapes) procedures) (statements_of body)) }
    ensures body { IfOk result (λ m. m.body ≡ body) }
    ensures procedures { IfOk result (λ m. m.procedures ≡ procedures) }
    ensures measured { IfOk result (λ m. IsMeasured m) }
{
    let name = name.copy(alloc)?;
    let targets = all_targets(alloc, &declared.types, &types)?;
    let signatures = all_signatures(alloc, &declared.types, &types)?;
    Ok(RModule {
        name,
        shapes: types.shapes,
        targets,
        signatures,
        variables: laid.variables,
        words: laid.words,
        procedures,
        body,
    })
}

/// The module of a name that what is declared and stated makes. Memory where there is no room for it.
pub(crate) fn assembled(
    alloc: Global,
    name: &Name,
    declared: &Env,
    stated: Stated,
) -> Result<RModule, Memory>
    requires there { IsThere (spec.assembled declared.now name.now stated) }
    ensures means { IfOk result (λ m. Some (module_of m) ≡ spec.assembled declared.now name.now stated) }
    ensures body { IfOk result (λ m. stated.body ≡ Some m.body) }
    ensures bodies { IfOk result (λ m. map body_of m.procedures ≡ stated.procedures) }
    ensures measured { IfOk result (λ m. IsMeasured m) }
    ensures fits { IfOk result (λ m. spec.module_words (module_of m) ≤ 32000) }
{
    let Stated {
        procedures: bodies,
        body,
    } = stated;
    let Some(body) = body else { unreachable!() };
    let Some(types) = all_shapes(alloc, &declared.types)? else {
        unreachable!()
    };
    let of = declared.procedures.as_slice();
    let table = &declared.types;
    let Some(procedures) = procedures(alloc, table, &types, of, &declared.locals, bodies)? else {
        unreachable!()
    };
    let Some(laid) = lay(alloc, &types, declared.variables.as_slice())? else {
        unreachable!()
    };
    named(alloc, name, declared, types, laid, procedures, body)
}
