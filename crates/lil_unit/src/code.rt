//! The code of a program module: its body, and behind it its procedures, each with its frame, its statements and its end.

ghost use Rattle.std.specs.{Prelude.{◌≡◌, ◌+◌, ◌<◌, ◌≤◌, ℕ, List, [], ◌∷◌, take, length, map, min, None, IfOk, OnOk, OnErr, Err, Some, slice_get, slice_set}, List.{All, Sorted.IsStrictlyIncreasing}, Option.option_map};
ghost use Rattle.lil_resolved.specs.{Kinds.{Shape, all_words}, Views.{kind_view, IsMeasured, IsMeasuredHeading, statements_of, heading_of, procedure_of, module_of}, Sound.IsSound, Sizes.{body_strings, procedures_strings, module_strings}};
ghost use Rattle.lil_resolved.specs.Sizes as spec;
ghost use Rattle.lil_asm.specs.Bytes.{Sayable};
ghost use Rattle.lil_table.specs.{Rows.{framed, leave_code, TranslatesAs, Translates}, Patching.patched};
ghost use Rattle.lil_labels.specs.Drafts.{Adds, Emits, empty, in_procedure};
ghost use Rattle.lil_unit.specs.Framing.{AreFramed, Copying, Framed, EachFramed, AllFramed};

use crate::GenStop;
use lil_asm::Instr;
use lil_base::{Bytes, Items, Memory};
use lil_labels::CodeBuffer;
use lil_resolved::{RDeclared, RKind, RModule, ROpening, RPassing, RProcedure, RStmt};
use lil_stmt::{Around, emit_body, frame_words};
use std::alloc::Global;

/// The code of a program module, its fixups, where each of its procedures begins in it, and the words of the strings that lie
/// behind the module's variables, one a character, or a 0 for an empty string. A fixup is the place of a byte that names a
/// module by the number of its import, and the module itself by 0; loading puts the number there under which that module is
/// loaded.
#[derive(Drop)]
pub struct ModuleCode {
    pub code: Bytes,
    pub fixups: Items<u16>,
    pub entries: Items<u16>,
    pub strings: Vec<u16>,
}

/// How many bytes a module's code may have.
const LONGEST: usize = 32_767;

/// The number of a module that is loaded alone.
const ALONE: u8 = 1;

/// A number of bytes, or 4,294,967,295 where it is more.
fn counted(bytes: usize) -> u32
    ensures { result ≡ min bytes 4294967295 }
{
    u32::try_from(bytes).unwrap_or(u32::MAX)
}

/// The instruction at the end of a body or a procedure: the return, or a trap where a value of a kind should be returned.
fn leave_instr(kind: Option<RKind>) -> Instr
    ensures is { result ≡ leave_code (option_map kind_view kind) }
    ensures sayable { Sayable result }
{
    match kind {
        None => Instr::Rtn,
        Some(_) => Instr::Trp(8),
    }
}

/// Appends the instructions that copy those of the parameters of a procedure that are open arrays by value. The parameters are
/// the first of its variables.
fn emit_copies(
    code: &mut CodeBuffer<'_>,
    locals: &[RDeclared],
    parameters: usize,
) -> Result<(), Memory>
    ensures { OnOk result (Emits code.old code.new (Copying (take parameters locals.now))) }
{
    for (i, variable) in locals.iter().enumerate() {
        if i < parameters {
            emit_copy(code, variable)?;
        }
    }
    Ok(())
}

/// Appends the instruction that copies a parameter, where it is an open array by value.
fn emit_copy(code: &mut CodeBuffer<'_>, variable: &RDeclared) -> Result<(), Memory>
    ensures { OnOk result (Emits code.old code.new (Copying (variable.now ∷ []))) }
{
    match variable.passing {
        RPassing::ByValue | RPassing::ByPlace | RPassing::Open(ROpening::Lent) => Ok(()),
        RPassing::Open(ROpening::Copied) => {
            let words = code.words(variable.shape);
            code.put(Instr::Cpy(variable.offset, words))
        }
    }
}

/// What a body or a procedure has before its statements and behind them: the words of its variables in its frame, its
/// variables, of which the first are parameters, how many these are, and the kind of what it returns.
#[derive(Clone, Copy)]
struct Frame<'m> {
    words: u16,
    locals: &'m [RDeclared],
    parameters: usize,
    kind: Option<RKind>,
}

/// Appends statements with the instructions that enter and leave them: the words of the frame, the copies of its parameters,
/// and the end of what returns nothing, or a value of a kind.
fn emit_framed(code: &mut CodeBuffer<'_>, frame: Frame<'_>, body: &[RStmt]) -> Result<(), Memory>
    ensures { OnOk result ((locals : List Shape) (parameters : List Shape) → AreFramed code.old.tables.shapes frame.entry.words frame.entry.locals.now frame.entry.parameters locals parameters → Adds (body_strings (statements_of body.now)) code.old code.new (Framed (option_map kind_view frame.entry.kind) locals parameters (statements_of body.now))) }
{
    let around = Around {
        words: frame.words,
        exit: None,
    };
    code.put(Instr::Ent(frame_words(frame.words, body)))?;
    emit_copies(code, frame.locals, frame.parameters)?;
    emit_body(code, body, around)?;
    code.put(leave_instr(frame.kind))?;
    Ok(())
}

/// Appends procedures, one behind another, and gives where each begins, cut to 16 bits.
fn emit_procedures(
    code: &mut CodeBuffer<'_>,
    procedures: &[RProcedure],
) -> Result<Items<u16>, Memory>
    requires { All (IsMeasuredHeading code.now.tables.shapes) (map heading_of procedures.now) }
    ensures { IfOk result (λ entries. Adds (procedures_strings (map (procedure_of code.old.tables.shapes) procedures.now)) code.old (in_procedure code.old.tables.own code.new) (EachFramed 0 (map (procedure_of code.old.tables.shapes) procedures.now) entries)) }
{
    let mut entries = Items::new(code.alloc());
    for (i, procedure) in procedures.iter().enumerate() {
        entries.push((code.len() % 65_536) as u16)?;
        code.enter(Some(i));
        let heading = &procedure.heading;
        let frame = Frame {
            words: heading.words,
            locals: heading.locals.as_slice(),
            parameters: heading.parameters,
            kind: heading.result,
        };
        emit_framed(code, frame, procedure.body.as_slice())?;
    }
    Ok(entries)
}

/// The code of a program module, with labels, and where each of its procedures begins in it.
#[derive(Drop)]
struct Drafted<'m> {
    code: CodeBuffer<'m>,
    entries: Items<u16>,
}

/// The body of a program module, and its procedures behind it.
fn emit_module<'m>(alloc: Global, m: &'m RModule) -> Result<Drafted<'m>, Memory>
    requires { IsMeasured m.now }
    ensures { IfOk result (λ made. Adds (module_strings (module_of m.now)) (empty m.now.shapes m.now.targets m.now.variables m.now.words (map heading_of m.now.procedures)) (in_procedure None made.code) (AllFramed (module_of m.now) made.entries)) }
{
    let mut code = CodeBuffer::new(
        alloc,
        m.shapes.as_slice(),
        m.targets.as_slice(),
        m.variables.as_slice(),
        m.words,
        m.procedures.as_slice(),
    );
    let frame = Frame {
        words: 0,
        locals: &[],
        parameters: 0,
        kind: None,
    };
    emit_framed(&mut code, frame, m.body.as_slice())?;
    let entries = emit_procedures(&mut code, m.procedures.as_slice())?;
    Ok(Drafted { code, entries })
}

/// The code and the strings of a program module, where the code has at most 32,767 bytes. Its variables and strings have at
/// most 32,000 words. The code is a translation wherever the module is loaded: with the numbers of loaded modules at the
/// fixups, which name the module itself.
pub fn generate(alloc: Global, m: &RModule) -> Result<ModuleCode, GenStop>
    requires sound { IsSound (module_of m.now) }
    requires measured { IsMeasured m.now }
    requires fits { all_words (module_of m.now).variables + length (module_strings (module_of m.now)) ≤ 32000 }
    ensures strings { IfOk result (λ made. made.strings.items ≡ module_strings (module_of m.now)) }
    ensures translates { IfOk result (λ made. (numbers : ℕ → ℕ) → TranslatesAs numbers (module_of m.now) (module_strings (module_of m.now)) made.entries (patched numbers made.code made.fixups)) }
    ensures rising { IfOk result (λ made. IsStrictlyIncreasing made.fixups) }
    ensures named { IfOk result (λ made. All (λ p. slice_get made.code p ≡ Some 0) made.fixups) }
    ensures long { IfOk result (λ made. length made.code ≡ spec.code_size (module_of m.now)) }
    ensures short { IfOk result (λ made. spec.code_size (module_of m.now) ≤ 32767) }
    ensures too_long { (bytes : ℕ) → result ≡ Err (GenStop.CodeTooLong bytes) → (32767 < spec.code_size (module_of m.now)) × (bytes ≡ min (spec.code_size (module_of m.now)) 4294967295) }
{
    let Drafted { code, entries } = emit_module(alloc, m)?;
    let bytes = code.len();
    if LONGEST < bytes {
        return Err(GenStop::CodeTooLong {
            bytes: counted(bytes),
        });
    }
    Ok(ModuleCode {
        code: code.settle(alloc)?,
        fixups: code.fixups(alloc)?,
        entries,
        strings: code.strings(alloc)?,
    })
}

/// Writes a byte where the code has one.
#[tactic(auto, using(crate::proofs::Linking::set_past))]
fn put_byte(code: &mut Vec<u8>, at: usize, byte: u8)
    ensures { code.new.items ≡ slice_set code.old.items at byte }
{
    if at < code.len() {
        code[at] = byte;
    }
}

/// Puts a number at the fixups of a module's code, the number under which the module is loaded. After a refusal the code is as
/// before.
pub fn link(alloc: Global, code: &mut Bytes, fixups: &[u16], number: u8) -> Result<(), Memory>
    ensures ok { OnOk result (code.new ≡ patched (λ n. number) code.old fixups.now) }
    ensures err { OnErr result (code.new ≡ code.old) }
{
    let mut linked = Vec::from_slice(alloc, code.as_slice())?;
    for place in fixups {
        put_byte(&mut linked, usize::from(*place), number);
    }
    *code = Bytes::of_vec(linked);
    Ok(())
}

/// The same of a program module that is loaded alone: its code has its number.
pub fn generate_alone(alloc: Global, m: &RModule) -> Result<ModuleCode, GenStop>
    requires sound { IsSound (module_of m.now) }
    requires measured { IsMeasured m.now }
    requires fits { all_words (module_of m.now).variables + length (module_strings (module_of m.now)) ≤ 32000 }
    ensures strings { IfOk result (λ made. made.strings.items ≡ module_strings (module_of m.now)) }
    ensures translates { IfOk result (λ made. Translates (module_of m.now) (module_strings (module_of m.now)) made.entries made.code) }
    ensures long { IfOk result (λ made. length made.code ≡ spec.code_size (module_of m.now)) }
    ensures short { IfOk result (λ made. spec.code_size (module_of m.now) ≤ 32767) }
    ensures too_long { (bytes : ℕ) → result ≡ Err (GenStop.CodeTooLong bytes) → (32767 < spec.code_size (module_of m.now)) × (bytes ≡ min (spec.code_size (module_of m.now)) 4294967295) }
{
    let mut made = generate(alloc, m)?;
    link(alloc, &mut made.code, made.fixups.as_slice(), ALONE)?;
    Ok(made)
}
