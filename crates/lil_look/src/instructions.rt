//! The names of instructions, and how one stands in code.

ghost use Rattle.std.specs.Prelude.{◌≡◌, ◌<◌, ◌^◌, length, Some, IfSome};
ghost use Rattle.lil_asm.specs.Bytes.{decoded};

use lil_asm::{Instr, decode};
use lil_base::Memory;
use std::alloc::Global;

/// The names of the byte table, a row for each upper digit of the byte that begins an instruction.
const NAMES: [&str; 8] = [
    "-- LIW LIB DUP DRP SWP",
    "LIS LIS LIS LIS LIS LIS LIS LIS LIS LIS LIS LIS LIS LIS LIS LIS",
    "LLW LLB SLW SLB LGW LGB SGW SGB LEW SEW LNW SNW LAL LAG LAE LAN",
    "LDI STI LDF ADF MOV MVZ NLT IXC IXO RGC RGI CAP",
    "ADC SBC MLC DVC MDC ADI SBI MLI DVI MDI NGI ABI",
    "UNI DIF ITS SYM SIN SPN ICL ECL SLE NOT EQU NEQ LSC LEC LSI LEI",
    "SAV MRK MRF PSH PSM CLL CLX CLF ENT CPY RTN RST",
    "JMP JPF JAN JOR JMS JFS CAS FRI FRN TRP ALC NPR TRF SVC",
];

/// The code of a module.
#[derive(Clone, Copy)]
pub(crate) struct Code<'t> {
    pub(crate) bytes: &'t [u8],
    ghost short: { length bytes.now < 2 ^ 32 },
}

/// An instruction in code: its place, itself, and the place after it.
#[derive(Clone, Copy)]
pub(crate) struct Step {
    pub(crate) place: usize,
    pub(crate) instr: Instr,
    pub(crate) next: usize,
}

/// The instruction at a place of the code, by the byte table.
pub(crate) fn step_at(code: Code<'_>, place: usize) -> Option<Step>
    ensures decoded { IfSome result (λ s. decoded code.entry.bytes.now s.place ≡ Some (s.instr, s.next)) }
    ensures here { IfSome result (λ s. s.place ≡ place) }
{
    let (instr, next) = decode(code.bytes, place)?;
    Some(Step { place, instr, next })
}

/// The name of the instruction that a byte begins.
fn name_of(first: u8) -> &'static str {
    let Some(row) = NAMES.get(usize::from(first / 16)) else {
        return "--";
    };
    row.split(' ').nth(usize::from(first % 16)).unwrap_or("--")
}

/// The numbers that an instruction has, in their order.
fn operands(instr: Instr) -> [Option<u16>; 3] {
    match instr {
        Instr::Liw(w)
        | Instr::Llw(w)
        | Instr::Slw(w)
        | Instr::Lgw(w)
        | Instr::Sgw(w)
        | Instr::Lal(w)
        | Instr::Lag(w)
        | Instr::Ldf(w)
        | Instr::Adf(w)
        | Instr::Mov(w)
        | Instr::Ixo(w)
        | Instr::Psm(w)
        | Instr::Clf(w)
        | Instr::Ent(w)
        | Instr::Jmp(w)
        | Instr::Jpf(w)
        | Instr::Jan(w)
        | Instr::Jor(w) => [Some(w), None, None],
        Instr::Mvz(v, w)
        | Instr::Ixc(v, w)
        | Instr::Rgc(v, w)
        | Instr::Rgi(v, w)
        | Instr::Cpy(v, w)
        | Instr::Cas(v, w)
        | Instr::Frn(v, w) => [Some(v), Some(w), None],
        Instr::Clx(m, n, w) => [Some(u16::from(m)), Some(u16::from(n)), Some(w)],
        Instr::Fri(o, s, t) => [Some(o), Some(u16::from(s)), Some(t)],
        _ => byte_operands(instr),
    }
}

/// Those of an instruction whose first number is a byte.
fn byte_operands(instr: Instr) -> [Option<u16>; 3] {
    match instr {
        Instr::Lib(b)
        | Instr::Lis(b)
        | Instr::Llb(b)
        | Instr::Slb(b)
        | Instr::Lgb(b)
        | Instr::Sgb(b)
        | Instr::Mrk(b)
        | Instr::Rst(b)
        | Instr::Jms(b)
        | Instr::Jfs(b)
        | Instr::Trp(b)
        | Instr::Svc(b) => [Some(u16::from(b)), None, None],
        Instr::Lew(n, w)
        | Instr::Sew(n, w)
        | Instr::Lnw(n, w)
        | Instr::Snw(n, w)
        | Instr::Lae(n, w)
        | Instr::Lan(n, w)
        | Instr::Cll(n, w) => [Some(u16::from(n)), Some(w), None],
        _ => [None, None, None],
    }
}

/// The instruction that a byte begins, with its numbers.
pub(crate) fn instr_text(alloc: Global, first: u8, instr: Instr) -> Result<String, Memory> {
    let mut text = String::from_str(alloc, name_of(first))?;
    for operand in operands(instr) {
        if let Some(number) = operand {
            text.push_str(format!(in alloc; " {number}")?.as_str())?;
        }
    }
    Ok(text)
}
