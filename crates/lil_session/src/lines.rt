ghost use Rattle.std.specs.Prelude.{◌≡◌, ◌++◌, ◌∷◌, [], false, OnOk, IfOk, decimal, codes};
ghost use Rattle.lil_session.specs.Report.{trap_name, limit_name, about_text, value_text, values_text, procedure_text, place_text, fault_text, trap_text, code_text, refusal_text, is_fixed, status_lines};

use crate::Status;
use lil_base::{
    Bytes, CodePlace, FileName, LimitKind, LoadRefusal, Memory, Name, SourceFault, TrapAt, TrapKind,
};
use std::alloc::Global;

/// The byte that ends a line.
pub(crate) const LINE_END: u8 = 10;

fn trap_word(kind: TrapKind) -> &'static [u8]
    ensures { result.now ≡ trap_name kind }
{
    match kind {
        TrapKind::Range => b"range",
        TrapKind::Overflow => b"overflow",
        TrapKind::Divisor => b"divisor",
        TrapKind::Nil => b"nil",
        TrapKind::NoProcedure => b"noprocedure",
        TrapKind::NoProcess => b"noprocess",
        TrapKind::Case => b"case",
        TrapKind::Function => b"function",
        TrapKind::Halted => b"halted",
        TrapKind::Workspace => b"workspace",
        TrapKind::CoroutineEnd => b"coroutine end",
    }
}

/// The line of a limit, which wants no memory.
pub(crate) fn limit_line(kind: LimitKind) -> &'static [u8]
    ensures { result.now ≡ codes "limit " ++ limit_name kind ++ 10 ∷ [] }
{
    match kind {
        LimitKind::Stack => b"limit stack\n",
        LimitKind::Store => b"limit store\n",
        LimitKind::Code => b"limit code\n",
        LimitKind::Words => b"limit data\n",
    }
}

pub(crate) fn put_number(alloc: Global, line: &mut Bytes, n: u32) -> Result<(), Memory>
    ensures { OnOk result (line.new ≡ line.old ++ decimal n) }
{
    let text = n.to_string(alloc)?;
    line.extend(text.as_str().as_bytes())
}

/// A word, a name and a word.
fn put_name(line: &mut Bytes, before: &[u8], name: &Name, behind: &[u8]) -> Result<(), Memory>
    ensures { OnOk result (line.new ≡ line.old ++ before.now ++ name.now ++ behind.now) }
{
    line.extend(before)?;
    line.extend(name.as_slice())?;
    line.extend(behind)
}

fn put_about(line: &mut Bytes, about: &Option<Name>) -> Result<(), Memory>
    ensures { OnOk result (line.new ≡ line.old ++ about_text about.now) }
{
    match about {
        None => Ok(()),
        Some(name) => {
            line.extend(b" ")?;
            line.extend(name.as_slice())
        }
    }
}

fn put_value(alloc: Global, line: &mut Bytes, value: u32) -> Result<(), Memory>
    ensures { OnOk result (line.new ≡ line.old ++ value_text value) }
{
    line.extend(b" ")?;
    put_number(alloc, line, value)
}

/// The values of a fault: of 64 the number of bytes, of 71 both keys.
fn put_values(alloc: Global, line: &mut Bytes, s: &SourceFault) -> Result<(), Memory>
    ensures { OnOk result (line.new ≡ line.old ++ values_text s.now.number s.now.first s.now.second) }
{
    if s.number == 64 {
        return put_value(alloc, line, s.first);
    }
    if s.number != 71 {
        return Ok(());
    }
    put_value(alloc, line, s.first)?;
    put_value(alloc, line, s.second)
}

fn put_procedure(line: &mut Bytes, procedure: &Option<Name>) -> Result<(), Memory>
    ensures { OnOk result (line.new ≡ line.old ++ procedure_text procedure.now) }
{
    match procedure {
        None => Ok(()),
        Some(name) => {
            line.extend(b".")?;
            line.extend(name.as_slice())
        }
    }
}

fn put_place(alloc: Global, line: &mut Bytes, file: &[u8], s: &SourceFault) -> Result<(), Memory>
    ensures { OnOk result (line.new ≡ line.old ++ place_text file.now s.now) }
{
    line.extend(file)?;
    line.extend(b":")?;
    put_number(alloc, line, s.place.line)?;
    line.extend(b":")?;
    put_number(alloc, line, s.place.column)?;
    line.extend(b": ")
}

fn put_fault(alloc: Global, line: &mut Bytes, s: &SourceFault) -> Result<(), Memory>
    ensures { OnOk result (line.new ≡ line.old ++ fault_text s.now) }
{
    put_number(alloc, line, s.number as u32)?;
    line.extend(b" ")?;
    line.extend(s.name())?;
    put_about(line, &s.about)?;
    put_values(alloc, line, s)
}

fn put_trap(line: &mut Bytes, t: &TrapAt) -> Result<(), Memory>
    ensures { OnOk result (line.new ≡ line.old ++ trap_text t.now) }
{
    line.extend(b"trap ")?;
    line.extend(trap_word(t.kind))?;
    line.extend(b" in ")?;
    line.extend(t.module.as_slice())?;
    put_procedure(line, &t.procedure)
}

/// A word, a name and a place.
fn put_at(alloc: Global, line: &mut Bytes, word: &[u8], name: &Name, at: u32) -> Result<(), Memory>
    ensures { OnOk result (line.new ≡ line.old ++ word.now ++ name.now ++ codes " at " ++ decimal at) }
{
    put_name(line, word, name, b" at ")?;
    put_number(alloc, line, at)
}

/// A name whose key differs, and both keys.
fn put_keys(
    alloc: Global,
    line: &mut Bytes,
    name: &Name,
    wanted: u32,
    found: u32,
) -> Result<(), Memory>
    ensures { OnOk result (line.new ≡ line.old ++ codes "load: key differs " ++ name.now ++ codes " wanted " ++ decimal wanted ++ codes " found " ++ decimal found) }
{
    put_name(line, b"load: key differs ", name, b" wanted ")?;
    put_number(alloc, line, wanted)?;
    line.extend(b" found ")?;
    put_number(alloc, line, found)
}

fn put_damage(alloc: Global, line: &mut Bytes, name: &Name, at: u32) -> Result<(), Memory>
    ensures { OnOk result (line.new ≡ line.old ++ codes "load: damaged " ++ name.now ++ codes " at " ++ decimal at) }
{
    put_at(alloc, line, b"load: damaged ", name, at)
}

/// A word and a number.
fn put_full(alloc: Global, line: &mut Bytes, word: &[u8], n: u32) -> Result<(), Memory>
    ensures { OnOk result (line.new ≡ line.old ++ word.now ++ decimal n) }
{
    line.extend(word)?;
    put_number(alloc, line, n)
}

fn put_refusal(alloc: Global, line: &mut Bytes, r: &LoadRefusal) -> Result<(), Memory>
    ensures { OnOk result (line.new ≡ line.old ++ refusal_text r.now) }
{
    match r {
        LoadRefusal::Missing(name) => put_name(line, b"load: missing ", name, b""),
        LoadRefusal::Damaged(name, at) => put_damage(alloc, line, name, *at),
        LoadRefusal::KeyDiffers {
            name,
            wanted,
            found,
        } => put_keys(alloc, line, name, *wanted, *found),
        LoadRefusal::TableFull => line.extend(b"load: table full"),
        LoadRefusal::CodeFull(n) => put_full(alloc, line, b"load: code full ", *n),
        LoadRefusal::DataFull(n) => put_full(alloc, line, b"load: data full ", *n),
        LoadRefusal::NotProgram(name) => put_name(line, b"load: not a program ", name, b""),
    }
}

fn no_file_line(alloc: Global, name: &FileName) -> Result<Bytes, Memory>
    ensures { IfOk result (λ line. line ≡ codes "no file " ++ name.now ++ 10 ∷ []) }
{
    let mut line = Bytes::from_slice(alloc, b"no file ")?;
    line.extend(name.text().as_slice())?;
    line.push(LINE_END)?;
    Ok(line)
}

fn fault_line(alloc: Global, file: &[u8], s: &SourceFault) -> Result<Bytes, Memory>
    ensures { IfOk result (λ line. line ≡ place_text file.now s.now ++ fault_text s.now ++ 10 ∷ []) }
{
    let mut line = Bytes::new(alloc);
    put_place(alloc, &mut line, file, s)?;
    put_fault(alloc, &mut line, s)?;
    line.push(LINE_END)?;
    Ok(line)
}

fn refusal_line(alloc: Global, r: &LoadRefusal) -> Result<Bytes, Memory>
    ensures { IfOk result (λ line. line ≡ refusal_text r.now ++ 10 ∷ []) }
{
    let mut line = Bytes::new(alloc);
    put_refusal(alloc, &mut line, r)?;
    line.push(LINE_END)?;
    Ok(line)
}

fn trap_line(alloc: Global, t: &TrapAt) -> Result<Bytes, Memory>
    ensures { IfOk result (λ line. line ≡ trap_text t.now ++ 10 ∷ []) }
{
    let mut line = Bytes::new(alloc);
    put_trap(&mut line, t)?;
    line.push(LINE_END)?;
    Ok(line)
}

fn code_line(alloc: Global, p: &CodePlace) -> Result<Bytes, Memory>
    ensures { IfOk result (λ line. line ≡ code_text p.now ++ 10 ∷ []) }
{
    let mut line = Bytes::new(alloc);
    put_at(alloc, &mut line, b"bad code in ", &p.module, p.place as u32)?;
    line.push(LINE_END)?;
    Ok(line)
}

/// What an answer with a name or a number reports, with the file at hand.
pub(crate) fn made_lines(alloc: Global, file: &[u8], status: &Status) -> Result<Bytes, Memory>
    requires { is_fixed status.now ≡ false }
    ensures { IfOk result (λ all. all ≡ status_lines file.now status.now) }
{
    match status {
        Status::NoFile(name) => no_file_line(alloc, name),
        Status::SourceFault(s) => fault_line(alloc, file, s),
        Status::LoadRefused(r) => refusal_line(alloc, r),
        Status::Trapped(t) => trap_line(alloc, t),
        Status::BadCode(p) => code_line(alloc, p),
        _ => unreachable!(),
    }
}
