//! What names stand for in a symbol file.

ghost use Rattle.std.specs.Prelude.{◌≡◌, IfOk, slice_get};
ghost use Rattle.lil_iface.specs.Iface as spec;

use lil_base::{Items, Memory, Shared, Text};
use lil_declared::RVar;
use lil_scope::{Env, Kind, Thing, Variable};
use lil_symfile::Class;
use lil_types::{TypeTable, words};
use std::alloc::Global;

/// Where variables lie: each behind those before it.
pub(crate) fn offsets(alloc: Global, types: &TypeTable, of: &[RVar]) -> Result<Items<u32>, Memory>
    ensures { IfOk result (λ os. os ≡ spec.offsets_from 0 types.now of.now) }
{
    let mut all = Items::new(alloc);
    let mut at: u32 = 0;
    for one in of {
        all.push(at)?;
        at = at.saturating_add(words(types, one.sort));
    }
    Ok(all)
}

/// The constant of a text, where there is one of this number.
fn chars_class(
    alloc: Global,
    texts: &Items<Shared<Text>>,
    number: usize,
) -> Result<Option<Class>, Memory>
    ensures { IfOk result (λ c. c ≡ spec.chars_class (slice_get texts.now number)) }
{
    match texts.get(number) {
        None => Ok(None),
        Some(text) => {
            let text = Text::from_slice(alloc, text.get().as_slice())?;
            Ok(Some(Class::Chars { text }))
        }
    }
}

fn variable_class(offsets: &Items<u32>, of: Variable) -> Option<Class>
    ensures { result ≡ spec.variable_class of.sort (slice_get offsets.now of.number) }
{
    match offsets.get(of.number) {
        None => None,
        Some(offset) => Some(Class::Variable {
            sort: of.sort,
            offset: *offset,
        }),
    }
}

fn constant_class(of: Kind) -> Option<Class>
    ensures { result ≡ spec.constant_class of }
{
    match of {
        Kind::Whole(value) => Some(Class::Whole { value }),
        Kind::Scalar(sort, word) => Some(Class::Scalar { sort, word }),
        Kind::Chars(_) | Kind::Nil | Kind::Of(_) | Kind::Open(_) | Kind::Routine(_) => None,
    }
}

/// What a name stands for in a symbol file, where it may stand there. Procedures have numbers from 1.
pub(crate) fn class_of(
    alloc: Global,
    env: &Env,
    offsets: &Items<u32>,
    of: Thing,
) -> Result<Option<Class>, Memory>
    ensures { IfOk result (λ c. c ≡ spec.class_of env.now offsets.now of) }
{
    match of {
        Thing::Constant(kind) => Ok(constant_class(kind)),
        Thing::Named(number, _) => chars_class(alloc, &env.texts, number),
        Thing::Variable(variable) => Ok(variable_class(offsets, variable)),
        Thing::Type(sort) => Ok(Some(Class::Sort { sort })),
        Thing::Procedure(routine) => Ok(Some(Class::Procedure {
            sort: routine.sort,
            number: routine.number.saturating_add(1).min(4_294_967_295) as u32,
        })),
        Thing::Nil
        | Thing::ExternalVariable(_)
        | Thing::ExternalProcedure(_)
        | Thing::Resident(_, _)
        | Thing::Standard(_)
        | Thing::Module(_)
        | Thing::Hidden
        | Thing::Broken => Ok(None),
    }
}
