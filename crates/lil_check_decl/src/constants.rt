ghost use Rattle.std.specs.Prelude.{◌≡◌, IfOk};
ghost use Rattle.lil_report.specs.Told.{Said, walk};
ghost use Rattle.lil_check_decl.specs.Constants as spec;

use lil_base::{FaultKind, Memory, Shared, Text};
use lil_check_value::boxed_asked;
use lil_kinds::{Form, Found, is_constant};
use lil_language::Constant;
use lil_report::Report;
use lil_scope::{Chars, Env, Kind, Thing, bind};
use std::alloc::Global;

fn add_text(env: &mut Env, text: Shared<Text>) -> Result<(), Memory>
    ensures { IfOk result (λ o. env.new ≡ spec.with_text env.old text) }
{
    env.texts.push(text)
}

/// The name of a text, which is kept.
fn text_thing(env: &mut Env, c: Chars, form: Form) -> Result<Thing, Memory>
    ensures { IfOk result (λ th. (env.new, th) ≡ spec.text_of env.old c form) }
{
    match form {
        Form::Text(text) => {
            let number = env.texts.len();
            add_text(env, text)?;
            Ok(Thing::Named(number, c))
        }
        _ => Ok(Thing::Broken),
    }
}

/// What the name of a constant stands for.
fn constant_thing(env: &mut Env, form: Form, kind: Kind) -> Result<Thing, Memory>
    ensures { IfOk result (λ th. (env.new, th) ≡ spec.constant_thing env.old form kind) }
{
    match kind {
        Kind::Whole(value) => Ok(Thing::Constant(Kind::Whole(value))),
        Kind::Scalar(sort, word) => Ok(Thing::Constant(Kind::Scalar(sort, word))),
        Kind::Chars(c) => text_thing(env, c, form),
        _ => Ok(Thing::Broken),
    }
}

fn if_constant(env: &mut Env, form: Form, kind: Kind) -> Result<Thing, Memory>
    ensures { IfOk result (λ th. (env.new, th) ≡ spec.if_constant env.old form kind) }
{
    if is_constant(kind) {
        constant_thing(env, form, kind)
    } else {
        Ok(Thing::Broken)
    }
}

/// An expression that must be constant: what its name stands for.
#[tactic(auto, unfolding(crate::specs::Constants::constant_node, lil_report::specs::Told::tell))]
fn constant_value(env: &mut Env, report: &mut Report, of: Option<Found>) -> Result<Thing, Memory>
    ensures { IfOk result (λ th. Said (spec.constant_node env.old of) report.old (env.new, th) report.new) }
{
    match of {
        Some(a) => {
            report.note(!is_constant(a.kind), a.first, FaultKind::NotConst);
            if_constant(env, a.form, a.kind)
        }
        None => Ok(Thing::Broken),
    }
}

fn constant(alloc: Global, env: &mut Env, report: &mut Report, of: &Constant) -> Result<(), Memory>
    ensures { IfOk result (λ o. Said (spec.constant_step env.old of.now) report.old env.new report.new) }
{
    let found = boxed_asked(alloc, env, report, &of.value)?;
    let thing = constant_value(env, report, found)?;
    bind(alloc, env, report, &of.name, thing)
}

/// Constants, each bound behind its expression.
pub fn constants(
    alloc: Global,
    env: &mut Env,
    report: &mut Report,
    of: &[Constant],
) -> Result<(), Memory>
    ensures { IfOk result (λ o. Said (walk spec.constant_step env.old of.now) report.old env.new report.new) }
{
    for one in of {
        constant(alloc, env, report, one)?;
    }
    Ok(())
}
