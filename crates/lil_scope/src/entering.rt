ghost use Rattle.std.specs.Prelude.{◌≡◌, slice_get, IfOk};
ghost use Rattle.lil_scope.specs.Names as spec;

use crate::coming::Coming;
use crate::env::{Env, Withs};
use lil_base::{Items, Memory};
use std::alloc::Global;

/// What stands around a block.
#[derive(Drop)]
pub struct Around {
    outer: Items<usize>,
    inner: usize,
    coming: Coming,
    withs: Withs,
    procedure: Option<usize>,
}

/// The blocks around the one at hand, and that too, the outermost first.
pub fn visible(alloc: Global, env: &Env) -> Result<Items<usize>, Memory>
    ensures { IfOk result (λ blocks. blocks ≡ spec.visible env.now) }
{
    let mut blocks = Items::from_slice(alloc, env.scopes.outer.as_slice())?;
    blocks.push(env.scopes.inner)?;
    Ok(blocks)
}

/// The procedure at hand and those around it by their numbers, the innermost first.
pub fn chain(alloc: Global, env: &Env) -> Result<Items<usize>, Memory>
    ensures { IfOk result (λ numbers. numbers ≡ spec.chain env.now) }
{
    let mut numbers = Items::new(alloc);
    if let Some(number) = env.procedure {
        numbers.push(number)?;
        if let Some(of) = env.procedures.get(number) {
            numbers.extend(of.around.as_slice())?;
        }
    }
    Ok(numbers)
}

/// How many procedures out of the one at hand another one is declared, by its level: 0 for those of the module.
pub fn levels_out(env: &Env, level: usize) -> usize
    ensures { result ≡ spec.levels_out env.now level }
{
    if level > 1 {
        (env.scopes.outer.as_slice().len() + 1).saturating_sub(level)
    } else {
        0
    }
}

/// The procedure so many levels out, of which the one at hand is 0.
pub fn procedure_out(env: &Env, levels: usize) -> Option<usize>
    ensures { result ≡ slice_get (spec.chain env.now) levels }
{
    let number = env.procedure?;
    if levels == 0 {
        return Some(number);
    }
    match env.procedures.get(number) {
        Some(of) => of.around.get(levels - 1).copied(),
        None => None,
    }
}

/// How many procedures out of the one at hand a variable of a procedure is declared, by its level.
pub fn variable_levels(env: &Env, level: usize) -> usize
    ensures { result ≡ spec.variable_levels env.now level }
{
    env.scopes.outer.as_slice().len().saturating_sub(level)
}

/// Enters the block of a procedure, by its number.
pub fn enter(alloc: Global, env: &mut Env, number: usize) -> Result<Around, Memory>
    ensures around { IfOk result (λ a. a ≡ spec.around env.old) }
    ensures inside { IfOk result (λ a. env.new ≡ spec.entered number env.old) }
{
    let procedure = env.procedure;
    let (outer, inner, now) = match env.procedures.get(number) {
        Some(of) => {
            let outer = Items::from_slice(alloc, of.outer.as_slice())?;
            (outer, of.block, Some(number))
        }
        None => {
            let outer = Items::from_slice(alloc, env.scopes.outer.as_slice())?;
            (outer, env.scopes.inner, procedure)
        }
    };
    let around = Around {
        outer: std::mem::replace(&mut env.scopes.outer, outer),
        inner: env.scopes.inner,
        coming: std::mem::replace(&mut env.coming, Coming::new(alloc)),
        withs: std::mem::replace(&mut env.withs, Withs::new(alloc)),
        procedure,
    };
    env.scopes.inner = inner;
    env.procedure = now;
    Ok(around)
}

/// Leaves it for what stands around it.
pub fn leave(env: &mut Env, around: Around)
    ensures { env.new ≡ spec.back around env.old }
{
    env.scopes.outer = around.outer;
    env.scopes.inner = around.inner;
    env.coming = around.coming;
    env.withs = around.withs;
    env.procedure = around.procedure;
}
