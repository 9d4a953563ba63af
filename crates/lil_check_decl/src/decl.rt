ghost use Rattle.std.specs.Prelude.{◌≡◌, [], map, IfOk};
ghost use Rattle.lil_report.specs.Told.{Said, walk};
ghost use Rattle.lil_check_decl.specs.Decls as spec;

use crate::constants::constants;
use crate::headings::{heading, here, variables};
use lil_base::{FaultKind, Items, Memory};
use lil_check_type::{add_type, sort};
use lil_check_value::type_named;
use lil_language::{Decl, Sort, TypeName, Variables};
use lil_report::Report;
use lil_scope::{Coming, Env, Thing, Wait, awaited_type, bind, enter, leave, rebind};
use lil_text::{Ident, Qualident};
use lil_types::{TypeForm, TypeId, is_pointer_type};
use std::alloc::Global;

fn type_thing(sort: Option<TypeId>) -> Thing
    ensures { result ≡ spec.type_thing sort }
{
    match sort {
        Some(sort) => Thing::Type(sort),
        None => Thing::Broken,
    }
}

/// The form of a type; without one it is opaque.
#[tactic(auto, using(lil_check_type::specs::Walks::walk_steps), unfolding(lil_check_value::specs::Looks::not_built, lil_report::specs::Told::after, lil_report::specs::Told::tell))]
fn form(
    alloc: Global,
    env: &mut Env,
    report: &mut Report,
    name: &Ident,
    of: &Option<Sort>,
) -> Result<Option<TypeId>, Memory>
    ensures { IfOk result (λ o. Said (spec.form_means env.old name.now of.now) report.old (env.new, o) report.new) }
{
    match of {
        Some(x) => sort(alloc, env, report, x),
        None => {
            report.note(true, name.place, FaultKind::NotBuilt);
            add_type(env, report, name.place, TypeForm::Opaque(None))
        }
    }
}

/// An opaque type is this type, where it is a pointer type.
fn reveal(env: &mut Env, opaque: TypeId, sort: Option<TypeId>)
    ensures { env.new ≡ spec.revealing env.old opaque sort }
{
    match sort {
        Some(sort) if is_pointer_type(&env.types, sort) => env.types.reveal(opaque, sort),
        _ => {}
    }
}

/// The name of an opaque type of the definition, behind its form in the implementation.
fn type_again(env: &mut Env, opaque: TypeId, of: &Ident, sort: Option<TypeId>)
    ensures { env.new ≡ (spec.again_type opaque of.now (env.old, sort)).0 }
{
    rebind(env, of, Thing::Type(opaque));
    reveal(env, opaque, sort);
}

/// The name of a type, behind its form.
fn bind_type(
    alloc: Global,
    env: &mut Env,
    report: &mut Report,
    of: &Ident,
    sort: Option<TypeId>,
) -> Result<(), Memory>
    ensures { IfOk result (λ o. Said (spec.bound_type of.now (env.old, sort)) report.old env.new report.new) }
{
    match awaited_type(env, &of.name) {
        None => bind(alloc, env, report, of, type_thing(sort)),
        Some(opaque) => {
            type_again(env, opaque, of, sort);
            Ok(())
        }
    }
}

fn type_name(alloc: Global, env: &mut Env, report: &mut Report, of: &TypeName) -> Result<(), Memory>
    ensures { IfOk result (λ o. Said (spec.type_step env.old of.now) report.old env.new report.new) }
{
    let number = form(alloc, env, report, &of.name, &of.sort)?;
    bind_type(alloc, env, report, &of.name, number)
}

/// Types, each bound behind its form.
fn types(alloc: Global, env: &mut Env, report: &mut Report, of: &[TypeName]) -> Result<(), Memory>
    ensures { IfOk result (λ o. Said (walk spec.type_step env.old of.now) report.old env.new report.new) }
{
    for one in of {
        type_name(alloc, env, report, one)?;
    }
    Ok(())
}

fn variables_of(
    alloc: Global,
    env: &mut Env,
    report: &mut Report,
    of: &Variables,
) -> Result<(), Memory>
    ensures { IfOk result (λ o. Said (spec.variables_step env.old of.now) report.old env.new report.new) }
{
    let number = sort(alloc, env, report, &of.sort)?;
    let home = here(env);
    variables(alloc, env, report, home, number, of.names.as_slice())
}

fn all_variables(
    alloc: Global,
    env: &mut Env,
    report: &mut Report,
    of: &[Variables],
) -> Result<(), Memory>
    ensures { IfOk result (λ o. Said (walk spec.variables_step env.old of.now) report.old env.new report.new) }
{
    for one in of {
        variables_of(alloc, env, report, one)?;
    }
    Ok(())
}

fn bare(alloc: Global, of: &Wait) -> Result<Qualident, Memory>
    ensures { IfOk result (λ q. q ≡ spec.bare of.now) }
{
    let name = of.name.copy(alloc)?;
    Ok(Qualident {
        owner: None,
        name: Ident {
            place: of.place,
            name,
        },
    })
}

fn point(env: &mut Env, pointer: TypeId, target: Option<TypeId>)
    ensures { env.new ≡ spec.pointing env.old pointer target }
{
    match target {
        Some(target) => env.types.aim(pointer, target),
        None => {}
    }
}

/// A pointer type whose target's name is looked up now.
fn settle(alloc: Global, env: &mut Env, report: &mut Report, of: &Wait) -> Result<(), Memory>
    ensures { IfOk result (λ o. Said (spec.wait_step env.old of.now) report.old env.new report.new) }
{
    let name = bare(alloc, of)?;
    let target = type_named(env, report, &name);
    point(env, of.pointer, target);
    Ok(())
}

fn settle_all(alloc: Global, env: &mut Env, report: &mut Report, of: &[Wait]) -> Result<(), Memory>
    ensures { IfOk result (λ o. Said (walk spec.wait_step env.old of.now) report.old env.new report.new) }
{
    for wait in of {
        settle(alloc, env, report, wait)?;
    }
    Ok(())
}

/// The end of a block, where so many pointers wait for the ends of the blocks around it.
fn end_block(alloc: Global, env: &mut Env, report: &mut Report, around: usize) -> Result<(), Memory>
    ensures { IfOk result (λ o. Said (spec.block_end around env.old) report.old env.new report.new) }
{
    env.coming = Coming::new(alloc);
    let waits = env.waits.split_off(around)?;
    settle_all(alloc, env, report, waits.as_slice())
}

/// The names of types more.
fn add_types(alloc: Global, coming: &mut Coming, of: &[TypeName]) -> Result<(), Memory>
    ensures { IfOk result (λ o. coming.new ≡ spec.with_types_of coming.old of.now) }
{
    for one in of {
        coming.add(alloc, &one.name.name)?;
    }
    Ok(())
}

/// The names of the types that a declaration declares.
#[tactic(auto, using(crate::proofs::Forms::decl_steps, crate::proofs::Forms::no_types_of))]
fn add_types_of(alloc: Global, coming: &mut Coming, of: &Decl) -> Result<(), Memory>
    ensures { IfOk result (λ o. coming.new ≡ spec.with_types_of coming.old (spec.decl_sense of.now).types) }
{
    match of {
        Decl::ConstIs(_, _) => Ok(()),
        Decl::TypeIs(_, xs) => add_types(alloc, coming, xs.as_slice()),
        Decl::VarsAre(_, _) => Ok(()),
        Decl::ProcIs(_, _) => Ok(()),
    }
}

fn coming_of(alloc: Global, of: &[Decl]) -> Result<Coming, Memory>
    ensures { IfOk result (λ c. c ≡ spec.with_types_in [] (map spec.decl_sense of.now)) }
{
    let mut coming = Coming::new(alloc);
    for one in of {
        add_types_of(alloc, &mut coming, one)?;
    }
    Ok(coming)
}

/// The names of the types of a block are known before its declarations.
fn expect(alloc: Global, env: &mut Env, of: &[Decl]) -> Result<(), Memory>
    ensures { IfOk result (λ o. env.new ≡ spec.expecting env.old (map spec.decl_sense of.now)) }
{
    env.coming = coming_of(alloc, of)?;
    Ok(())
}

/// Declarations of one kind, or a procedure. One of a definition has no block.
#[cycle(declarations)]
#[tactic(auto, using(crate::proofs::Forms::decl_steps), unfolding(lil_report::specs::Told::after, lil_report::specs::Told::tell))]
fn decl(alloc: Global, env: &mut Env, report: &mut Report, of: &Decl) -> Result<(), Memory>
    ensures { IfOk result (λ o. Said (spec.decl_step env.old of.now) report.old env.new report.new) }
{
    match of {
        Decl::ConstIs(_, xs) => constants(alloc, env, report, xs.as_slice()),
        Decl::TypeIs(_, xs) => types(alloc, env, report, xs.as_slice()),
        Decl::VarsAre(_, xs) => all_variables(alloc, env, report, xs.as_slice()),
        Decl::ProcIs(head, body) => {
            let number = env.procedures.len();
            heading(alloc, env, report, head)?;
            match body {
                Some(body) => {
                    let waiting = env.waits.len();
                    let around = enter(alloc, env, number)?;
                    inside_block(alloc, env, report, waiting, &body.decls)?;
                    leave(env, around);
                    Ok(())
                }
                None => {
                    report.note(true, head.place, FaultKind::NotBuilt);
                    Ok(())
                }
            }
        }
    }
}

#[cycle(declarations)]
fn each_decl(alloc: Global, env: &mut Env, report: &mut Report, of: &[Decl]) -> Result<(), Memory>
    ensures { IfOk result (λ o. Said (walk spec.decl_step env.old of.now) report.old env.new report.new) }
{
    for one in of {
        decl(alloc, env, report, one)?;
    }
    Ok(())
}

/// All that is declared behind the declarations of a block, where so many pointers wait for the ends of the blocks around it.
#[cycle(declarations)]
#[tactic(auto, using(lil_check_type::specs::Walks::walk_steps), unfolding(crate::specs::Decls::decls_inside, lil_report::specs::Told::after, lil_report::specs::Told::tell))]
fn inside_block(
    alloc: Global,
    env: &mut Env,
    report: &mut Report,
    around: usize,
    of: &Items<Decl>,
) -> Result<(), Memory>
    ensures { IfOk result (λ o. Said (spec.decls_inside around env.old of.now) report.old env.new report.new) }
{
    expect(alloc, env, of.as_slice())?;
    each_decl(alloc, env, report, of.as_slice())?;
    end_block(alloc, env, report, around)
}

/// All that is declared behind the declarations of a module, those of the procedures in it included.
#[tactic(auto, unfolding(crate::specs::Decls::decls_mean))]
pub fn declarations(
    alloc: Global,
    env: &mut Env,
    report: &mut Report,
    of: &Items<Decl>,
) -> Result<(), Memory>
    ensures { IfOk result (λ o. Said (spec.decls_mean env.old of.now) report.old env.new report.new) }
{
    inside_block(alloc, env, report, 0, of)
}
