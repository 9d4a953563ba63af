ghost use Rattle.std.specs.Prelude.{◌≡◌, IfOk, [], true};
ghost use Rattle.lil_report.specs.Told.{Said, walk};
ghost use Rattle.lil_check_type.specs.Records as spec;

use crate::made::add_form;
use crate::named::NamedType;
use lil_base::{FaultKind, Items, Memory, Place};
use lil_check_value::type_named;
use lil_kinds::{array_parts, is_record};
use lil_language::Formal;
use lil_report::Report;
use lil_scope::Env;
use lil_text::Qualident;
use lil_types::{Parameter, TypeForm, TypeId, TypeTable};
use std::alloc::Global;

/// The parameters of a procedure type so far, and whether the types of all have no fault.
#[derive(Drop)]
pub struct Parameters {
    pub list: Items<Parameter>,
    pub right: bool,
}

impl Parameters {
    pub fn new(alloc: Global) -> Parameters
        ensures { result ≡ spec.no_parameters }
    {
        Parameters {
            list: Items::new(alloc),
            right: true,
        }
    }
}

/// A parameter more.
pub fn add_parameter(
    parameters: &mut Parameters,
    by_place: bool,
    open_array: bool,
    sort: Option<TypeId>,
) -> Result<(), Memory>
    ensures { IfOk result (λ o. parameters.new ≡ spec.with_parameter parameters.old by_place open_array sort) }
{
    match sort {
        Some(sort) => parameters.list.push(Parameter {
            by_place,
            open_array,
            sort,
        }),
        None => {
            parameters.right = false;
            Ok(())
        }
    }
}

fn formal(
    env: &Env,
    report: &mut Report,
    parameters: &mut Parameters,
    of: &Formal,
) -> Result<(), Memory>
    ensures { IfOk result (λ o. Said (spec.formal_step env.now parameters.old of.now) report.old parameters.new report.new) }
{
    let sort = type_named(env, report, &of.sort);
    add_parameter(parameters, of.by_place, of.open_array, sort)
}

fn formals(
    alloc: Global,
    env: &Env,
    report: &mut Report,
    of: &[Formal],
) -> Result<Parameters, Memory>
    ensures { IfOk result (λ ps. Said (walk (spec.formal_step env.now) spec.no_parameters of.now) report.old ps report.new) }
{
    let mut parameters = Parameters::new(alloc);
    for one in of {
        formal(env, report, &mut parameters, one)?;
    }
    Ok(parameters)
}

/// Whether a type is an array or a record.
pub fn is_structure(t: &TypeTable, n: TypeId) -> bool
    ensures { result ≡ spec.is_structure t.now n }
{
    is_record(t, n) || array_parts(t, n).is_some()
}

/// The type of a result, at its name.
#[tactic(auto, unfolding(crate::specs::Records::result_node, lil_report::specs::Told::tell))]
fn simple_result(
    t: &TypeTable,
    report: &mut Report,
    place: Place,
    sort: Option<TypeId>,
) -> NamedType
    ensures { Said (spec.result_node t.now place sort) report.old result report.new }
{
    match sort {
        Some(n) => {
            let wrong = is_structure(t, n);
            report.note(wrong, place, FaultKind::ResultType);
            if wrong {
                NamedType::Faulty
            } else {
                NamedType::Given(n)
            }
        }
        None => NamedType::Faulty,
    }
}

/// The type of a result, if there is one.
pub fn result_type(env: &Env, report: &mut Report, of: &Option<Qualident>) -> NamedType
    ensures { Said (spec.result_means env.now of.now) report.old result report.new }
{
    match of {
        Some(q) => {
            let sort = type_named(env, report, q);
            simple_result(&env.types, report, q.name.place, sort)
        }
        None => NamedType::Absent,
    }
}

/// The procedure type of these parameters and this result.
pub fn procedure_form(parameters: Parameters, outcome: NamedType) -> Option<TypeForm>
    ensures { result ≡ spec.procedure_form parameters outcome }
{
    if !parameters.right {
        return None;
    }
    match outcome {
        NamedType::Absent => Some(TypeForm::Procedure(parameters.list, None)),
        NamedType::Given(n) => Some(TypeForm::Procedure(parameters.list, Some(n))),
        NamedType::Faulty => None,
    }
}

/// A procedure type.
pub fn procedure(
    alloc: Global,
    env: &mut Env,
    report: &mut Report,
    place: Place,
    of: &[Formal],
    outcome: &Option<Qualident>,
) -> Result<Option<TypeId>, Memory>
    ensures { IfOk result (λ o. Said (spec.procedure_means env.old place of.now outcome.now) report.old (env.new, o) report.new) }
{
    let parameters = formals(alloc, env, report, of)?;
    let outcome = result_type(env, report, outcome);
    let form = procedure_form(parameters, outcome);
    add_form(env, report, place, form)
}
