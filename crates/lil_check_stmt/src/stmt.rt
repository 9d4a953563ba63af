ghost use Rattle.std.specs.Prelude.{◌≡◌, [], IfOk, Some};
ghost use Rattle.lil_report.specs.Told.{Said, walk};
ghost use Rattle.lil_check_stmt.specs.Stmts as spec;
ghost use Rattle.lil_check_stmt.specs.Texts.{texts, texts_in};

use crate::statements::statements;
use lil_base::{Items, Memory};
use lil_language::{Decl, Stmt};
use lil_report::Report;
use lil_resolved::RStmt;
use lil_scope::{Env, enter, leave};
use std::alloc::Global;

/// The statements of a module's procedures, in the order of their headings, and its own, each where they have code.
#[derive(Drop)]
pub struct Stated {
    pub procedures: Items<Option<Items<RStmt>>>,
    pub body: Option<Items<RStmt>>,
}

fn and_body(
    before: Items<Option<Items<RStmt>>>,
    body: Option<Items<RStmt>>,
) -> Result<Items<Option<Items<RStmt>>>, Memory>
    ensures { IfOk result (λ bs. bs ≡ spec.and_body before body) }
{
    let mut bodies = before;
    bodies.push(body)?;
    Ok(bodies)
}

/// The body of the procedure of the next number, behind those before it.
fn body(
    alloc: Global,
    env: &mut Env,
    report: &mut Report,
    before: Items<Option<Items<RStmt>>>,
    of: &[Stmt],
) -> Result<Items<Option<Items<RStmt>>>, Memory>
    ensures said { IfOk result (λ bs. Said (spec.body_step env.old before (Some of.now)) report.old bs report.new) }
    ensures same { IfOk result (λ bs. env.new ≡ env.old) }
{
    let around = enter(alloc, env, before.len())?;
    let own = statements(alloc, env, report, false, of)?;
    leave(env, around);
    and_body(before, own)
}

/// The bodies in a declaration, behind those before it.
#[cycle(bodies)]
fn declaration(
    alloc: Global,
    env: &mut Env,
    report: &mut Report,
    before: Items<Option<Items<RStmt>>>,
    of: &Decl,
) -> Result<Items<Option<Items<RStmt>>>, Memory>
    ensures said { IfOk result (λ bs. Said (walk (spec.body_step env.old) before (texts_in of.now)) report.old bs report.new) }
    ensures same { IfOk result (λ bs. env.new ≡ env.old) }
{
    match of {
        Decl::ConstIs(_, _) => Ok(before),
        Decl::TypeIs(_, _) => Ok(before),
        Decl::VarsAre(_, _) => Ok(before),
        Decl::ProcIs(_, inner) => match inner {
            None => and_body(before, None),
            Some(inner) => {
                let out = body(alloc, env, report, before, inner.body.as_slice())?;
                declarations(alloc, env, report, out, inner.decls.as_slice())
            }
        },
    }
}

#[cycle(bodies)]
fn declarations(
    alloc: Global,
    env: &mut Env,
    report: &mut Report,
    before: Items<Option<Items<RStmt>>>,
    of: &[Decl],
) -> Result<Items<Option<Items<RStmt>>>, Memory>
    ensures said { IfOk result (λ bs. Said (walk (spec.body_step env.old) before (texts of.now)) report.old bs report.new) }
    ensures same { IfOk result (λ bs. env.new ≡ env.old) }
{
    let mut out = before;
    for one in of {
        let more = declaration(alloc, env, report, out, one)?;
        out = more;
    }
    Ok(out)
}

/// The statements of a module whose declarations are all known, and of its procedures. What is declared stays as it was.
pub fn bodies(
    alloc: Global,
    env: &mut Env,
    report: &mut Report,
    decls: &Items<Decl>,
    body: &Items<Stmt>,
) -> Result<Stated, Memory>
    ensures said { IfOk result (λ b. Said (spec.bodies_mean env.old decls.now body.now) report.old b report.new) }
    ensures same { IfOk result (λ b. env.new ≡ env.old) }
{
    let body = statements(alloc, env, report, false, body.as_slice())?;
    let procedures = declarations(alloc, env, report, Items::new(alloc), decls.as_slice())?;
    Ok(Stated { procedures, body })
}
