ghost use Rattle.std.specs.Prelude.{◌≡◌, ◌+◌, length, nat_le, IfOk};
ghost use Rattle.lil_report.specs.Told.{Said, walk};
ghost use Rattle.lil_scope.specs.Names as names;
ghost use Rattle.lil_check_type.specs.Records.{no_parameters};
ghost use Rattle.lil_check_decl.specs.Headings as spec;

use crate::home::Home;
use lil_base::{FaultKind, Memory};
use lil_check_type::{Parameters, add_form, add_parameter, procedure_form, result_type, sort_or};
use lil_check_value::type_named;
use lil_declared::{Mode, RProc, RVar, mode_of};
use lil_language::{Heading, Section};
use lil_report::Report;
use lil_scope::{
    Env, ExternalProcedure, Routine, Thing, Variable, awaited_procedure, bind, bind_at, chain,
    rebind, visible,
};
use lil_text::Ident;
use lil_types::{Parameter, TypeId, TypeTable};
use std::alloc::Global;

/// How many variables an owner has: a procedure, or the module.
fn count_of(env: &Env, owner: Option<usize>) -> usize
    ensures { result ≡ length (names.variables_of env.now owner) }
{
    match owner {
        None => env.variables.len(),
        Some(owner) => env.locals.of(owner).len(),
    }
}

fn variable_thing(home: Home, sort: Option<TypeId>, env: &Env) -> Thing
    ensures { result ≡ spec.variable_thing home sort env.now }
{
    match sort {
        Some(sort) => Thing::Variable(Variable {
            number: count_of(env, home.owner),
            level: home.level,
            sort,
            mode: home.mode,
        }),
        None => Thing::Broken,
    }
}

fn add_variable(
    alloc: Global,
    env: &mut Env,
    home: Home,
    sort: Option<TypeId>,
    of: &Ident,
) -> Result<(), Memory>
    ensures { IfOk result (λ o. env.new ≡ spec.with_variable home sort of.now.name env.old) }
{
    let name = of.name.copy(alloc)?;
    let variable = RVar {
        name,
        sort: sort_or(sort),
        mode: home.mode,
    };
    match home.owner {
        None => env.variables.push(variable),
        Some(owner) => env.locals.declare(owner, variable),
    }
}

/// A variable or parameter.
fn variable(
    alloc: Global,
    env: &mut Env,
    report: &mut Report,
    home: Home,
    sort: Option<TypeId>,
    of: &Ident,
) -> Result<(), Memory>
    ensures { IfOk result (λ o. Said (spec.variable_step home sort env.old of.now) report.old env.new report.new) }
{
    let thing = variable_thing(home, sort, env);
    bind_at(alloc, env, report, home.block, of, thing)?;
    add_variable(alloc, env, home, sort, of)
}

/// Variables of one type.
pub fn variables(
    alloc: Global,
    env: &mut Env,
    report: &mut Report,
    home: Home,
    sort: Option<TypeId>,
    names: &[Ident],
) -> Result<(), Memory>
    ensures { IfOk result (λ o. Said (walk (spec.variable_step home sort) env.old names.now) report.old env.new report.new) }
{
    for name in names {
        variable(alloc, env, report, home, sort, name)?;
    }
    Ok(())
}

/// The block at hand.
pub fn here(env: &Env) -> Home
    ensures { result ≡ spec.here env.now }
{
    Home {
        block: env.scopes.inner,
        level: env.scopes.outer.len(),
        owner: env.procedure,
        mode: Mode::Plain,
    }
}

fn section_home(home: Home, of: &Section) -> Home
    ensures { result ≡ spec.section_home home of.now }
{
    Home {
        block: home.block,
        level: home.level,
        owner: home.owner,
        mode: mode_of(of.by_place, of.open_array),
    }
}

fn parameter(
    alloc: Global,
    env: &mut Env,
    report: &mut Report,
    parameters: &mut Parameters,
    home: Home,
    of: &Section,
    sort: Option<TypeId>,
    name: &Ident,
) -> Result<(), Memory>
    ensures { IfOk result (λ o. Said (spec.parameter_step home of.now sort (env.old, parameters.old) name.now) report.old (env.new, parameters.new) report.new) }
{
    let home = section_home(home, of);
    variable(alloc, env, report, home, sort, name)?;
    add_parameter(parameters, of.by_place, of.open_array, sort)
}

fn parameters_of(
    alloc: Global,
    env: &mut Env,
    report: &mut Report,
    parameters: &mut Parameters,
    home: Home,
    of: &Section,
    sort: Option<TypeId>,
    names: &[Ident],
) -> Result<(), Memory>
    ensures { IfOk result (λ o. Said (walk (spec.parameter_step home of.now sort) (env.old, parameters.old) names.now) report.old (env.new, parameters.new) report.new) }
{
    for name in names {
        parameter(alloc, env, report, parameters, home, of, sort, name)?;
    }
    Ok(())
}

/// Parameters of one type.
fn section(
    alloc: Global,
    env: &mut Env,
    report: &mut Report,
    parameters: &mut Parameters,
    home: Home,
    of: &Section,
) -> Result<(), Memory>
    ensures { IfOk result (λ o. Said (spec.section_step home (env.old, parameters.old) of.now) report.old (env.new, parameters.new) report.new) }
{
    let sort = type_named(env, report, &of.sort);
    parameters_of(
        alloc,
        env,
        report,
        parameters,
        home,
        of,
        sort,
        of.names.as_slice(),
    )
}

fn sections(
    alloc: Global,
    env: &mut Env,
    report: &mut Report,
    home: Home,
    of: &[Section],
) -> Result<Parameters, Memory>
    ensures { IfOk result (λ ps. Said (walk (spec.section_step home) (env.old, no_parameters) of.now) report.old (env.new, ps) report.new) }
{
    let mut parameters = Parameters::new(alloc);
    for one in of {
        section(alloc, env, report, &mut parameters, home, one)?;
    }
    Ok(parameters)
}

/// The block of the next procedure as home of its parameters.
fn home_at(env: &Env, block: usize) -> Home
    ensures { result ≡ spec.home_at env.now block }
{
    Home {
        block,
        level: env.scopes.outer.as_slice().len() + 1,
        owner: Some(env.procedures.len()),
        mode: Mode::Plain,
    }
}

/// The block and the variables of the next procedure begin, without any.
fn begin(alloc: Global, env: &mut Env) -> Result<usize, Memory>
    ensures number { IfOk result (λ n. n ≡ length env.old.scopes.blocks) }
    ensures more { IfOk result (λ n. env.new ≡ names.begun env.old) }
{
    env.locals.begin(alloc)?;
    env.scopes.blocks.begin(alloc)
}

/// The procedure type of a heading.
fn heading_type(
    env: &mut Env,
    report: &mut Report,
    parameters: Parameters,
    of: &Heading,
) -> Result<Option<TypeId>, Memory>
    ensures { IfOk result (λ o. Said (spec.heading_type (env.old, parameters) of.now) report.old (env.new, o) report.new) }
{
    let outcome = result_type(env, report, &of.result);
    let form = procedure_form(parameters, outcome);
    add_form(env, report, of.place, form)
}

fn procedure_thing(block: usize, sort: Option<TypeId>, env: &Env) -> Thing
    ensures { result ≡ spec.procedure_thing block sort env.now }
{
    match sort {
        Some(sort) => Thing::Procedure(Routine {
            number: env.procedures.len(),
            block,
            level: env.scopes.outer.len(),
            sort,
        }),
        None => Thing::Broken,
    }
}

fn procedure_sort(sort: Option<TypeId>) -> TypeId
    ensures { result ≡ spec.procedure_sort sort }
{
    sort.unwrap_or(5)
}

fn add_procedure(
    alloc: Global,
    env: &mut Env,
    block: usize,
    sort: Option<TypeId>,
    of: &Ident,
) -> Result<(), Memory>
    ensures { IfOk result (λ o. env.new ≡ spec.with_procedure of.now.name block sort env.old) }
{
    let name = of.name.copy(alloc)?;
    let outer = visible(alloc, env)?;
    let around = chain(alloc, env)?;
    env.procedures.push(RProc {
        name,
        block,
        outer,
        around,
        sort: procedure_sort(sort),
    })
}

/// Whether 250 procedures have headings, or await them in the definition.
fn is_full(env: &Env) -> bool
    ensures { result ≡ nat_le 250 (length env.now.procedures + env.now.awaited) }
{
    env.procedures.len().saturating_add(env.awaited) >= 250
}

/// A procedure more: that is fault 62, where 250 stand before it.
#[tactic(auto, unfolding(crate::specs::Headings::numbered_node, lil_report::specs::Told::tell))]
fn numbered(
    alloc: Global,
    env: &mut Env,
    report: &mut Report,
    block: usize,
    sort: Option<TypeId>,
    of: &Ident,
) -> Result<(), Memory>
    ensures { IfOk result (λ o. Said (spec.numbered_node of.now block sort env.old) report.old env.new report.new) }
{
    let many = is_full(env);
    report.note(many, of.place, FaultKind::TooManyProcs);
    add_procedure(alloc, env, block, sort, of)
}

/// The name of a procedure that the definition hasn't, behind its heading.
fn named_new(
    alloc: Global,
    env: &mut Env,
    report: &mut Report,
    block: usize,
    of: &Ident,
    sort: Option<TypeId>,
) -> Result<(), Memory>
    ensures { IfOk result (λ o. Said (spec.new_means block of.now (env.old, sort)) report.old env.new report.new) }
{
    let thing = procedure_thing(block, sort, env);
    bind(alloc, env, report, of, thing)?;
    numbered(alloc, env, report, block, sort, of)
}

/// The name of a procedure of the definition, behind its heading in the implementation.
#[tactic(auto, unfolding(crate::specs::Headings::again_means, lil_report::specs::Told::tell))]
fn named_again(
    alloc: Global,
    env: &mut Env,
    report: &mut Report,
    awaited: ExternalProcedure,
    block: usize,
    of: &Ident,
    sort: Option<TypeId>,
) -> Result<(), Memory>
    ensures { IfOk result (λ o. Said (spec.again_means awaited block of.now (env.old, sort)) report.old env.new report.new) }
{
    let thing = procedure_thing(block, sort, env);
    rebind(env, of, thing);
    env.awaited = env.awaited.saturating_sub(1);
    report.note(awaited.number > 250, of.place, FaultKind::TooManyProcs);
    add_procedure(alloc, env, block, sort, of)
}

/// The name of a procedure, behind its heading.
fn named(
    alloc: Global,
    env: &mut Env,
    report: &mut Report,
    block: usize,
    of: &Ident,
    sort: Option<TypeId>,
) -> Result<(), Memory>
    ensures { IfOk result (λ o. Said (spec.named_means block of.now (env.old, sort)) report.old env.new report.new) }
{
    match awaited_procedure(env, &of.name) {
        None => named_new(alloc, env, report, block, of, sort),
        Some(awaited) => named_again(alloc, env, report, awaited, block, of, sort),
    }
}

/// The heading of a procedure.
#[tactic(auto, using(lil_check_type::specs::Walks::walk_steps), unfolding(lil_check_value::specs::Looks::not_built, lil_report::specs::Told::after, lil_report::specs::Told::tell))]
pub fn heading(
    alloc: Global,
    env: &mut Env,
    report: &mut Report,
    of: &Heading,
) -> Result<(), Memory>
    ensures { IfOk result (λ o. Said (spec.heading_means env.old of.now) report.old env.new report.new) }
{
    let block = begin(alloc, env)?;
    let home = home_at(env, block);
    let parameters = sections(alloc, env, report, home, of.sections.as_slice())?;
    let sort = heading_type(env, report, parameters, of)?;
    named(alloc, env, report, block, &of.name, sort)
}
