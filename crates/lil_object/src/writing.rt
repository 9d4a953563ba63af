ghost use Rattle.std.specs.Prelude.{◌≡◌, ◌++◌, ◌<◌, length, OnOk, IfOk};
ghost use Rattle.lil_format.specs.Format.{Fits, spelling};
ghost use Rattle.lil_object.specs.Object as spec;
ghost use Rattle.lil_object.specs.Written as written;

use crate::object::{Contents, DataString, Head, Object, ObjectKind, ProcedureEntry};
use lil_base::{Bytes, Memory, Name, put16, put32};
use lil_format::{Wanted, put_name, put_text16, put_text32, put_wanted};
use std::alloc::Global;

#[tactic(auto, unfolding(crate::specs::Object::kind, lil_format::specs::Format::spelling))]
fn put_kind(out: &mut Bytes, kind: ObjectKind) -> Result<(), Memory>
    ensures { OnOk result (out.new ≡ out.old ++ spelling spec.kind kind) }
{
    match kind {
        ObjectKind::Program => out.push(1),
        ObjectKind::Implementation => out.push(2),
    }
}

#[tactic(auto, using(crate::proofs::Lists::imports_fit))]
fn put_imports(out: &mut Bytes, all: &[Wanted]) -> Result<(), Memory>
    requires { Fits spec.imports all.now }
    ensures { OnOk result (out.new ≡ out.old ++ spelling spec.imports all.now) }
{
    out.push(all.len() as u8)?;
    for one in all {
        put_wanted(out, one)?;
    }
    Ok(())
}

#[tactic(auto, unfolding(crate::specs::Object::head, lil_format::specs::Format::Fits, lil_format::specs::Format::spelling))]
fn put_head(out: &mut Bytes, head: &Head) -> Result<(), Memory>
    requires { Fits spec.head head.now }
    ensures { OnOk result (out.new ≡ out.old ++ spelling spec.head head.now) }
{
    put_kind(out, head.kind)?;
    put_name(out, &head.name)?;
    put32(out, head.key.0)?;
    put_imports(out, head.imports.as_slice())?;
    put16(out, head.data_words)
}

fn put_procedure_name(out: &mut Bytes, name: &Option<Name>) -> Result<(), Memory>
    ensures { OnOk result (out.new ≡ out.old ++ written.name_bytes name.now) }
{
    match name {
        None => out.push(0),
        Some(name) => put_name(out, name),
    }
}

fn put_procedure(out: &mut Bytes, procedure: &ProcedureEntry) -> Result<(), Memory>
    ensures { OnOk result (out.new ≡ out.old ++ written.procedure_bytes procedure.now) }
{
    put16(out, procedure.entry)?;
    put_procedure_name(out, &procedure.name)
}

fn put_procedures(out: &mut Bytes, all: &[ProcedureEntry]) -> Result<(), Memory>
    requires { length all.now < 256 }
    ensures { OnOk result (out.new ≡ out.old ++ written.procedures_bytes all.now) }
{
    out.push(all.len() as u8)?;
    for one in all {
        put_procedure(out, one)?;
    }
    Ok(())
}

fn put_fixups(out: &mut Bytes, all: &[u16]) -> Result<(), Memory>
    requires { length all.now < 65536 }
    ensures { OnOk result (out.new ≡ out.old ++ written.fixups_bytes all.now) }
{
    put16(out, all.len() as u16)?;
    for one in all {
        put16(out, *one)?;
    }
    Ok(())
}

fn put_string(out: &mut Bytes, string: &DataString) -> Result<(), Memory>
    requires { written.short_string string.now }
    ensures { OnOk result (out.new ≡ out.old ++ written.string_bytes string.now) }
{
    put16(out, string.offset)?;
    put_text16(out, string.text.as_slice())
}

fn put_strings(out: &mut Bytes, all: &[DataString]) -> Result<(), Memory>
    requires count { length all.now < 65536 }
    requires each { written.short_strings all.now }
    ensures { OnOk result (out.new ≡ out.old ++ written.strings_bytes all.now) }
{
    put16(out, all.len() as u16)?;
    for one in all {
        put_string(out, one)?;
    }
    Ok(())
}

fn put_contents(out: &mut Bytes, contents: &Contents) -> Result<(), Memory>
    requires { written.is_short contents.now }
    ensures { OnOk result (out.new ≡ out.old ++ written.contents_bytes contents.now) }
{
    put_procedures(out, contents.procedures.as_slice())?;
    put_text16(out, contents.code.as_slice())?;
    put_fixups(out, contents.fixups.as_slice())?;
    put_strings(out, contents.strings.as_slice())?;
    put_text32(out, contents.text.as_slice())
}

/// The spelling of an object that has one: each that keeps the rules of the format.
#[tactic(auto, unfolding(crate::specs::Object::object, lil_format::specs::Format::Fits, lil_format::specs::Format::spelling))]
pub fn write_object(alloc: Global, object: &Object) -> Result<Bytes, Memory>
    requires { Fits spec.object object.now }
    ensures { IfOk result (λ bytes. bytes ≡ spelling spec.object object.now) }
{
    let mut out = Bytes::new(alloc);
    out.extend(b"LOBJ")?;
    out.push(1)?;
    put_head(&mut out, &object.head)?;
    put_contents(&mut out, &object.contents)?;
    Ok(out)
}
