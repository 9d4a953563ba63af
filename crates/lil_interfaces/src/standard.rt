ghost use Rattle.std.specs.Prelude.{◌≡◌, ◌∷◌, [], IfOk, true};
ghost use Rattle.lil_base.specs.Names.{is_name};
ghost use Rattle.lil_interfaces.specs.Standard as spec;

use crate::surface::literal;
use lil_base::{Items, Memory, Place};
use lil_declared::Standard;
use lil_scope::{Blocks, Coming, Entry, Env, Kind, Locals, Scopes, Thing, Waits, Withs};
use lil_types::{BITSET, BOOLEAN, CARDINAL, CHAR, INTEGER, PROC, TypeTable};
use std::alloc::Global;

/// What a name stands for that stands in no text.
pub(crate) fn known(thing: Thing) -> Entry
    ensures { result ≡ spec.known thing }
{
    let place = Place {
        line: 1,
        column: 1,
        offset: 0,
    };
    Entry { thing, place }
}

/// One name more in block 0.
#[tactic(auto, unfolding(crate::specs::Standard::put))]
fn put(alloc: Global, blocks: &mut Blocks, name: &[u8], thing: Thing) -> Result<(), Memory>
    requires { is_name name.now ≡ true }
    ensures { IfOk result (λ u. blocks.new ≡ spec.put blocks.old name.now thing) }
{
    let name = literal(alloc, name)?;
    blocks.declare(alloc, 0, &name, known(thing))?;
    Ok(())
}

fn standard_types(alloc: Global, blocks: &mut Blocks) -> Result<(), Memory>
    ensures { IfOk result (λ u. blocks.new ≡ spec.puts blocks.old spec.standard_types) }
{
    put(alloc, blocks, b"INTEGER", Thing::Type(INTEGER))?;
    put(alloc, blocks, b"CARDINAL", Thing::Type(CARDINAL))?;
    put(alloc, blocks, b"BOOLEAN", Thing::Type(BOOLEAN))?;
    put(alloc, blocks, b"CHAR", Thing::Type(CHAR))?;
    put(alloc, blocks, b"BITSET", Thing::Type(BITSET))?;
    put(alloc, blocks, b"PROC", Thing::Type(PROC))?;
    Ok(())
}

fn standard_constants(alloc: Global, blocks: &mut Blocks) -> Result<(), Memory>
    ensures { IfOk result (λ u. blocks.new ≡ spec.puts blocks.old spec.standard_constants) }
{
    let yes = Thing::Constant(Kind::Scalar(BOOLEAN, 1));
    let no = Thing::Constant(Kind::Scalar(BOOLEAN, 0));
    put(alloc, blocks, b"TRUE", yes)?;
    put(alloc, blocks, b"FALSE", no)?;
    put(alloc, blocks, b"NIL", Thing::Nil)?;
    Ok(())
}

fn standard_functions(alloc: Global, blocks: &mut Blocks) -> Result<(), Memory>
    ensures { IfOk result (λ u. blocks.new ≡ spec.puts blocks.old spec.standard_functions) }
{
    put(alloc, blocks, b"ABS", Thing::Standard(Standard::Abs))?;
    put(alloc, blocks, b"CAP", Thing::Standard(Standard::Cap))?;
    put(alloc, blocks, b"CHR", Thing::Standard(Standard::Chr))?;
    put(alloc, blocks, b"HIGH", Thing::Standard(Standard::High))?;
    put(alloc, blocks, b"MAX", Thing::Standard(Standard::Max))?;
    put(alloc, blocks, b"MIN", Thing::Standard(Standard::Min))?;
    put(alloc, blocks, b"ODD", Thing::Standard(Standard::Odd))?;
    put(alloc, blocks, b"ORD", Thing::Standard(Standard::Ord))?;
    put(alloc, blocks, b"VAL", Thing::Standard(Standard::Val))?;
    Ok(())
}

fn standard_procedures(alloc: Global, blocks: &mut Blocks) -> Result<(), Memory>
    ensures { IfOk result (λ u. blocks.new ≡ spec.puts blocks.old spec.standard_procedures) }
{
    put(alloc, blocks, b"DEC", Thing::Standard(Standard::Dec))?;
    put(alloc, blocks, b"EXCL", Thing::Standard(Standard::Excl))?;
    put(alloc, blocks, b"HALT", Thing::Standard(Standard::Halt))?;
    put(alloc, blocks, b"INC", Thing::Standard(Standard::Inc))?;
    put(alloc, blocks, b"INCL", Thing::Standard(Standard::Incl))?;
    put(alloc, blocks, b"NEW", Thing::Standard(Standard::New))?;
    put(
        alloc,
        blocks,
        b"DISPOSE",
        Thing::Standard(Standard::Dispose),
    )?;
    Ok(())
}

/// The block of the standard names, and the unit's own without names.
fn blocks(alloc: Global) -> Result<Blocks, Memory>
    ensures { IfOk result (λ bs. bs ≡ spec.standard_names ∷ [] ∷ []) }
{
    let mut blocks = Blocks::new(alloc);
    blocks.begin(alloc)?;
    standard_types(alloc, &mut blocks)?;
    standard_constants(alloc, &mut blocks)?;
    standard_functions(alloc, &mut blocks)?;
    standard_procedures(alloc, &mut blocks)?;
    blocks.begin(alloc)?;
    Ok(blocks)
}

/// What is declared before a unit's imports.
#[tactic(auto, unfolding(crate::specs::Standard::start))]
pub fn start(alloc: Global) -> Result<Env, Memory>
    ensures { IfOk result (λ e. e ≡ spec.start) }
{
    let blocks = blocks(alloc)?;
    let mut outer = Items::new(alloc);
    outer.push(0)?;
    Ok(Env {
        scopes: Scopes {
            blocks,
            outer,
            inner: 1,
        },
        types: TypeTable::new(alloc),
        texts: Items::new(alloc),
        variables: Items::new(alloc),
        procedures: Items::new(alloc),
        locals: Locals::new(alloc),
        waits: Waits::new(alloc),
        coming: Coming::new(alloc),
        withs: Withs::new(alloc),
        procedure: None,
        awaited: 0,
    })
}
