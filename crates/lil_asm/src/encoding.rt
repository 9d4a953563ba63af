//! The bytes of instructions.

ghost use Rattle.std.specs.Prelude.{◌≡◌, ◌++◌, ◌≤◌, length, OnOk};
ghost use Rattle.lil_asm.specs.Bytes.{bytes_of, byte_bytes, word_bytes, two_word_bytes, byte_word_bytes, call_bytes, loop_bytes, entry_bytes};

use crate::Instr;
use lil_base::{Bytes, Memory, put16};

/// Appends the bytes of an instruction. After a refusal the list may only be dropped.
pub fn encode(code: &mut Bytes, instr: Instr) -> Result<(), Memory>
    ensures bytes { OnOk result (code.new ≡ code.old ++ bytes_of instr) }
    ensures grows { length code.old ≤ length code.new }
{
    match instr {
        Instr::Liw(word) => put_word(code, 0x01, word),
        Instr::Lib(byte) => put_byte(code, 0x02, byte),
        Instr::Dup => code.push(0x03),
        Instr::Drp => code.push(0x04),
        Instr::Swp => code.push(0x05),
        Instr::Lis(word) => code.push(0x10 + word % 16),
        Instr::Llw(word) => put_word(code, 0x20, word),
        Instr::Llb(byte) => put_byte(code, 0x21, byte),
        Instr::Slw(word) => put_word(code, 0x22, word),
        Instr::Slb(byte) => put_byte(code, 0x23, byte),
        Instr::Lgw(word) => put_word(code, 0x24, word),
        Instr::Lgb(byte) => put_byte(code, 0x25, byte),
        Instr::Sgw(word) => put_word(code, 0x26, word),
        Instr::Sgb(byte) => put_byte(code, 0x27, byte),
        Instr::Lew(byte, word) => put_byte_and_word(code, 0x28, byte, word),
        Instr::Sew(byte, word) => put_byte_and_word(code, 0x29, byte, word),
        Instr::Lnw(byte, word) => put_byte_and_word(code, 0x2a, byte, word),
        Instr::Snw(byte, word) => put_byte_and_word(code, 0x2b, byte, word),
        Instr::Lal(word) => put_word(code, 0x2c, word),
        Instr::Lag(word) => put_word(code, 0x2d, word),
        Instr::Lae(byte, word) => put_byte_and_word(code, 0x2e, byte, word),
        Instr::Lan(byte, word) => put_byte_and_word(code, 0x2f, byte, word),
        Instr::Ldi => code.push(0x30),
        Instr::Sti => code.push(0x31),
        Instr::Ldf(word) => put_word(code, 0x32, word),
        Instr::Adf(word) => put_word(code, 0x33, word),
        Instr::Mov(word) => put_word(code, 0x34, word),
        Instr::Mvz(first, second) => put_two_words(code, 0x35, first, second),
        Instr::Nlt => code.push(0x36),
        Instr::Ixc(first, second) => put_two_words(code, 0x37, first, second),
        Instr::Ixo(word) => put_word(code, 0x38, word),
        Instr::Rgc(first, second) => put_two_words(code, 0x39, first, second),
        Instr::Rgi(first, second) => put_two_words(code, 0x3a, first, second),
        Instr::Cap => code.push(0x3b),
        Instr::Adc => code.push(0x40),
        Instr::Sbc => code.push(0x41),
        Instr::Mlc => code.push(0x42),
        Instr::Dvc => code.push(0x43),
        Instr::Mdc => code.push(0x44),
        Instr::Adi => code.push(0x45),
        Instr::Sbi => code.push(0x46),
        Instr::Mli => code.push(0x47),
        Instr::Dvi => code.push(0x48),
        Instr::Mdi => code.push(0x49),
        Instr::Ngi => code.push(0x4a),
        Instr::Abi => code.push(0x4b),
        Instr::Uni => code.push(0x50),
        Instr::Dif => code.push(0x51),
        Instr::Its => code.push(0x52),
        Instr::Sym => code.push(0x53),
        Instr::Sin => code.push(0x54),
        Instr::Spn => code.push(0x55),
        Instr::Icl => code.push(0x56),
        Instr::Ecl => code.push(0x57),
        Instr::Sle => code.push(0x58),
        Instr::Not => code.push(0x59),
        Instr::Equ => code.push(0x5a),
        Instr::Neq => code.push(0x5b),
        Instr::Lsc => code.push(0x5c),
        Instr::Lec => code.push(0x5d),
        Instr::Lsi => code.push(0x5e),
        Instr::Lei => code.push(0x5f),
        Instr::Sav => code.push(0x60),
        Instr::Mrk(byte) => put_byte(code, 0x61, byte),
        Instr::Mrf => code.push(0x62),
        Instr::Psh => code.push(0x63),
        Instr::Psm(word) => put_word(code, 0x64, word),
        Instr::Cll(byte, word) => put_byte_and_word(code, 0x65, byte, word),
        Instr::Clx(number, procedure, words) => put_call(code, number, procedure, words),
        Instr::Clf(word) => put_word(code, 0x67, word),
        Instr::Ent(word) => put_word(code, 0x68, word),
        Instr::Cpy(first, second) => put_two_words(code, 0x69, first, second),
        Instr::Rtn => code.push(0x6a),
        Instr::Rst(byte) => put_byte(code, 0x6b, byte),
        Instr::Jmp(word) => put_word(code, 0x70, word),
        Instr::Jpf(word) => put_word(code, 0x71, word),
        Instr::Jan(word) => put_word(code, 0x72, word),
        Instr::Jor(word) => put_word(code, 0x73, word),
        Instr::Jms(byte) => put_byte(code, 0x74, byte),
        Instr::Jfs(byte) => put_byte(code, 0x75, byte),
        Instr::Cas(first, second) => put_two_words(code, 0x76, first, second),
        Instr::Fri(offset, kind, to) => put_loop(code, offset, kind, to),
        Instr::Frn(first, second) => put_two_words(code, 0x78, first, second),
        Instr::Trp(byte) => put_byte(code, 0x79, byte),
        Instr::Alc => code.push(0x7a),
        Instr::Npr => code.push(0x7b),
        Instr::Trf => code.push(0x7c),
        Instr::Svc(byte) => put_byte(code, 0x7d, byte),
    }
}

fn put_byte(code: &mut Bytes, first: u8, byte: u8) -> Result<(), Memory>
    ensures bytes { OnOk result (code.new ≡ code.old ++ byte_bytes first byte) }
    ensures grows { length code.old ≤ length code.new }
{
    code.push(first)?;
    code.push(byte)
}

fn put_word(code: &mut Bytes, first: u8, word: u16) -> Result<(), Memory>
    ensures bytes { OnOk result (code.new ≡ code.old ++ word_bytes first word) }
    ensures grows { length code.old ≤ length code.new }
{
    code.push(first)?;
    put16(code, word)
}

fn put_two_words(code: &mut Bytes, first: u8, one: u16, other: u16) -> Result<(), Memory>
    ensures bytes { OnOk result (code.new ≡ code.old ++ two_word_bytes first one other) }
    ensures grows { length code.old ≤ length code.new }
{
    put_word(code, first, one)?;
    put16(code, other)
}

fn put_byte_and_word(code: &mut Bytes, first: u8, byte: u8, word: u16) -> Result<(), Memory>
    ensures bytes { OnOk result (code.new ≡ code.old ++ byte_word_bytes first byte word) }
    ensures grows { length code.old ≤ length code.new }
{
    put_byte(code, first, byte)?;
    put16(code, word)
}

fn put_call(code: &mut Bytes, number: u8, procedure: u8, words: u16) -> Result<(), Memory>
    ensures bytes { OnOk result (code.new ≡ code.old ++ call_bytes number procedure words) }
    ensures grows { length code.old ≤ length code.new }
{
    put_byte(code, 0x66, number)?;
    put_word(code, procedure, words)
}

fn put_loop(code: &mut Bytes, offset: u16, kind: u8, to: u16) -> Result<(), Memory>
    ensures bytes { OnOk result (code.new ≡ code.old ++ loop_bytes offset kind to) }
    ensures grows { length code.old ≤ length code.new }
{
    put_word(code, 0x77, offset)?;
    put_word(code, kind, to)
}

/// Appends an entry of CAS: a range and the place for the words in it. After a refusal the list may only be dropped.
pub fn encode_entry(code: &mut Bytes, low: u16, high: u16, target: u16) -> Result<(), Memory>
    ensures bytes { OnOk result (code.new ≡ code.old ++ entry_bytes low high target) }
    ensures grows { length code.old ≤ length code.new }
{
    put16(code, low)?;
    put16(code, high)?;
    put16(code, target)
}
