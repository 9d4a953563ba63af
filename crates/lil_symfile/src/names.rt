ghost use Rattle.std.specs.Prelude.{◌≡◌, ◌∷◌, ◌++◌, [], true, IfOk};
ghost use Rattle.lil_format.specs.Reading.{Reads, number_in, such, u1};
ghost use Rattle.lil_format.specs.Format.{reads};
ghost use Rattle.lil_symfile.specs.Symbol as spec;

use crate::bounds::constant;
use crate::kinds::{Kind, Rule, sort};
use crate::seen::{Seen, new_name};
use crate::tree::{Class, SymName};
use lil_base::Items;
use lil_format::{Source, Stop, any_run, any_word};
use std::alloc::Global;

// ---- classes

#[tactic(auto, unfolding(crate::specs::Symbol::whole, lil_format::specs::Format::reads))]
fn whole(source: &mut Source<'_>) -> Result<Class, Stop>
    ensures { Reads (spec.class_arm spec.whole 1 source.old) result source.new }
{
    let value = constant(source)?;
    Ok(Class::Whole { value })
}

#[tactic(auto, unfolding(crate::specs::Symbol::scalar, lil_format::specs::Format::reads))]
fn scalar(source: &mut Source<'_>, kinds: &[Kind]) -> Result<Class, Stop>
    ensures { Reads (spec.class_arm (spec.scalar kinds.now) 2 source.old) result source.new }
{
    let sort = sort(source, kinds, Rule::Scalar)?;
    let word = any_word(source)?;
    Ok(Class::Scalar { sort, word })
}

#[tactic(auto, unfolding(crate::specs::Symbol::chars, lil_format::specs::Format::reads))]
fn chars(alloc: Global, source: &mut Source<'_>) -> Result<Class, Stop>
    ensures { Reads (spec.class_arm spec.chars 3 source.old) result source.new }
{
    let size = any_word(source)?;
    let text = any_run(alloc, source, usize::from(size))?;
    Ok(Class::Chars { text })
}

#[tactic(auto, unfolding(crate::specs::Symbol::type_name, lil_format::specs::Format::reads))]
fn type_name(source: &mut Source<'_>, kinds: &[Kind]) -> Result<Class, Stop>
    ensures { Reads (spec.class_arm (spec.type_name kinds.now) 4 source.old) result source.new }
{
    let sort = sort(source, kinds, Rule::Any)?;
    Ok(Class::Sort { sort })
}

#[tactic(auto, unfolding(crate::specs::Symbol::variable, lil_format::specs::Format::reads))]
fn variable(source: &mut Source<'_>, kinds: &[Kind]) -> Result<Class, Stop>
    ensures { Reads (spec.class_arm (spec.variable kinds.now) 5 source.old) result source.new }
{
    let sort = sort(source, kinds, Rule::Any)?;
    let offset = u32::from(any_word(source)?);
    Ok(Class::Variable { sort, offset })
}

/// A procedure's number, from 1.
fn place(source: &mut Source<'_>) -> Result<u32, Stop>
    ensures { Reads (number_in u1 (such spec.at_least_one) source.old) result source.new }
{
    let here = source.left();
    match source.byte() {
        None => Err(Stop::Left(0)),
        Some(n) if 1 <= n => Ok(u32::from(n)),
        Some(_) => Err(Stop::Left(here)),
    }
}

#[tactic(auto, unfolding(crate::specs::Symbol::routine, lil_format::specs::Format::reads))]
fn routine(source: &mut Source<'_>, kinds: &[Kind]) -> Result<Class, Stop>
    ensures { Reads (spec.class_arm (spec.routine kinds.now) 6 source.old) result source.new }
{
    let sort = sort(source, kinds, Rule::Procedure)?;
    let number = place(source)?;
    Ok(Class::Procedure { sort, number })
}

fn class_number(source: &mut Source<'_>) -> Result<u8, Stop>
    ensures number { IfOk result (λ k. spec.is_class k ≡ true) }
    ensures read { Reads (number_in u1 (such spec.is_class) source.old) result source.new }
{
    let here = source.left();
    match source.byte() {
        None => Err(Stop::Left(0)),
        Some(n) if 1 <= n && n <= 6 => Ok(n),
        Some(_) => Err(Stop::Left(here)),
    }
}

/// What a name of the class of a number stands for.
#[tactic(auto, unfolding(lil_format::specs::Format::reads))]
fn class_by(
    alloc: Global,
    source: &mut Source<'_>,
    kinds: &[Kind],
    number: u8,
) -> Result<Class, Stop>
    requires { spec.is_class number ≡ true }
    ensures { Reads (spec.class_arm (spec.class_by kinds.now number) number source.old) result source.new }
{
    match number {
        1 => whole(source),
        2 => scalar(source, kinds),
        3 => chars(alloc, source),
        4 => type_name(source, kinds),
        5 => variable(source, kinds),
        _ => routine(source, kinds),
    }
}

#[tactic(auto, unfolding(crate::specs::Symbol::class_of, lil_format::specs::Format::reads))]
fn class(alloc: Global, source: &mut Source<'_>, kinds: &[Kind]) -> Result<Class, Stop>
    ensures { Reads (reads (spec.class_of kinds.now) source.old) result source.new }
{
    let number = class_number(source)?;
    class_by(alloc, source, kinds, number)
}

// ---- names

#[tactic(auto, unfolding(crate::specs::Symbol::shown, lil_format::specs::Format::reads))]
fn shown(source: &mut Source<'_>) -> Result<bool, Stop>
    ensures { Reads (reads spec.shown source.old) result source.new }
{
    let here = source.left();
    match source.byte() {
        None => Err(Stop::Left(0)),
        Some(0) => Ok(false),
        Some(1) => Ok(true),
        Some(_) => Err(Stop::Left(here)),
    }
}

#[tactic(auto, unfolding(crate::specs::Symbol::sym_name, lil_format::specs::Format::reads))]
fn sym_name(
    alloc: Global,
    source: &mut Source<'_>,
    kinds: &[Kind],
    seen: &mut Seen,
) -> Result<SymName, Stop>
    ensures read { Reads (reads (spec.sym_name kinds.now seen.old) source.old) result source.new }
    ensures seen { IfOk result (λ x. seen.new ≡ seen.old ++ x.name ∷ []) }
{
    let shown = shown(source)?;
    let name = new_name(alloc, source, seen)?;
    let class = class(alloc, source, kinds)?;
    Ok(SymName { shown, name, class })
}

/// The names, by the kinds of all types.
#[tactic(auto, using(lil_format::specs::Turns::turns), unfolding(crate::specs::Symbol::names, lil_format::specs::Format::reads))]
pub fn names(alloc: Global, source: &mut Source<'_>, kinds: &[Kind]) -> Result<Items<SymName>, Stop>
    ensures { Reads (reads (spec.names kinds.now) source.old) result source.new }
{
    let count = any_word(source)?;
    let mut seen = Seen::new(alloc);
    let mut all = Items::new(alloc);
    for _turn in 0..count {
        let next = sym_name(alloc, source, kinds, &mut seen)?;
        all.push(next)?;
    }
    Ok(all)
}
