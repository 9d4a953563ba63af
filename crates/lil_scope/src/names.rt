ghost use Rattle.std.specs.Prelude.{◌≡◌, IfOk};
ghost use Rattle.lil_report.specs.Told.{Said};
ghost use Rattle.lil_scope.specs.Names as spec;

use crate::env::{Env, Wait};
use crate::scope::Scopes;
use crate::thing::{Entry, Thing};
use lil_base::{FaultKind, Memory, Name, Place};
use lil_report::Report;
use lil_text::Ident;
use lil_types::TypeId;
use std::alloc::Global;

/// The later one of two places of a text.
fn later_of(p: Place, before: Option<Place>) -> Place
    ensures { result ≡ spec.later_of p before }
{
    match before {
        Some(q) if p.offset < q.offset => q,
        _ => p,
    }
}

/// Binds a name in a block, unless it stands there before: that is fault 21, at the one of both that comes later in the text.
#[tactic(auto, unfolding(crate::specs::Names::bind_at, lil_report::specs::Told::tell), using(crate::proofs::Entries::is_twice))]
pub fn bind_at(
    alloc: Global,
    env: &mut Env,
    report: &mut Report,
    block: usize,
    name: &Ident,
    thing: Thing,
) -> Result<(), Memory>
    ensures { IfOk result (λ o. Said (spec.bind_at block env.old name.now thing) report.old env.new report.new) }
{
    let entry = Entry {
        thing,
        place: name.place,
    };
    let before = env.scopes.blocks.declare(alloc, block, &name.name, entry)?;
    let place = later_of(name.place, before);
    report.note(before.is_some(), place, FaultKind::Twice);
    Ok(())
}

/// Binds a name in the block at hand.
pub fn bind(
    alloc: Global,
    env: &mut Env,
    report: &mut Report,
    name: &Ident,
    thing: Thing,
) -> Result<(), Memory>
    ensures { IfOk result (λ o. Said (spec.bind env.old name.now thing) report.old env.new report.new) }
{
    let inner = env.scopes.inner;
    bind_at(alloc, env, report, inner, name, thing)
}

/// What a name of a module stands for, by the number of the module's block.
pub fn find_in(scopes: &Scopes, owner: usize, name: &Name) -> Option<Thing>
    ensures { result ≡ spec.member scopes.now owner name.now }
{
    scopes.blocks.find(owner, name)
}

/// Whether the block at hand declares a type of this name later.
pub fn is_later(env: &Env, name: &Name) -> bool
    ensures { result ≡ spec.is_later env.now name.now }
{
    let found = env.scopes.blocks.find(env.scopes.inner, name);
    found.is_none() && env.coming.has(name)
}

fn is_wait_for(pointer: TypeId, wait: &Wait) -> bool
    ensures { result ≡ spec.is_wait_for pointer wait.now }
{
    wait.pointer == pointer && wait.later
}

/// Whether the block at hand, or one around it, declares a pointer's target later.
pub fn waits_for(env: &Env, pointer: TypeId) -> bool
    ensures { result ≡ spec.waits_for env.now pointer }
{
    let waits = env.waits.as_slice();
    waits.iter().any(|wait| is_wait_for(pointer, wait))
}
