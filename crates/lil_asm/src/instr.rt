ghost use Rattle.std.specs.Prelude.{◌≡◌, ◌+◌, ◌<◌, ◌^◌, ℕ, Some, None, length, slice_get, OnSome, IfSome, IfNone};
ghost use Rattle.lil_asm.specs.Bytes.{word_at, two_words_at, byte_word_at, with_byte, with_word, with_two_words, with_byte_word, with_call, with_entries, with_loop, row, row_0, row_2, row_3, row_4, row_5, row_6, row_7, decoded};

/// One instruction, with its operands in the order of their bytes. Lis has its word, from 0 to 15, in its first byte.
/// Cas has the number of its entries and the place for all other words; the entries follow it in the code.
#[derive(Clone, Copy)]
pub enum Instr {
    Liw(u16),
    Lib(u8),
    Dup,
    Drp,
    Swp,
    Lis(u8),
    Llw(u16),
    Llb(u8),
    Slw(u16),
    Slb(u8),
    Lgw(u16),
    Lgb(u8),
    Sgw(u16),
    Sgb(u8),
    Lew(u8, u16),
    Sew(u8, u16),
    Lnw(u8, u16),
    Snw(u8, u16),
    Lal(u16),
    Lag(u16),
    Lae(u8, u16),
    Lan(u8, u16),
    Ldi,
    Sti,
    Ldf(u16),
    Adf(u16),
    Mov(u16),
    Mvz(u16, u16),
    Nlt,
    Ixc(u16, u16),
    Ixo(u16),
    Rgc(u16, u16),
    Rgi(u16, u16),
    Cap,
    Adc,
    Sbc,
    Mlc,
    Dvc,
    Mdc,
    Adi,
    Sbi,
    Mli,
    Dvi,
    Mdi,
    Ngi,
    Abi,
    Uni,
    Dif,
    Its,
    Sym,
    Sin,
    Spn,
    Icl,
    Ecl,
    Sle,
    Not,
    Equ,
    Neq,
    Lsc,
    Lec,
    Lsi,
    Lei,
    Sav,
    Mrk(u8),
    Mrf,
    Psh,
    Psm(u16),
    Cll(u8, u16),
    Clx(u8, u8, u16),
    Clf(u16),
    Ent(u16),
    Cpy(u16, u16),
    Rtn,
    Rst(u8),
    Jmp(u16),
    Jpf(u16),
    Jan(u16),
    Jor(u16),
    Jms(u8),
    Jfs(u8),
    Cas(u16, u16),
    Fri(u16, u8, u16),
    Frn(u16, u16),
    Trp(u8),
    Alc,
    Npr,
    Trf,
    Svc(u8),
}

/// The word at a place of the code, its higher byte first.
#[inline]
pub fn word_of_bytes(code: &[u8], place: usize) -> Option<u16>
    requires { place < 2 ^ 33 }
    ensures value { result ≡ word_at code.now place }
    ensures within { OnSome result (place + 1 < length code.now) }
{
    if place + 1 >= code.len() {
        return None;
    }
    Some(u16::from(code[place]) * 256 + u16::from(code[place + 1]))
}

/// An instruction of two words.
fn with_two_words<F: Fn(u16, u16) -> Instr>(
    code: &[u8],
    place: usize,
    make: F,
) -> Option<(Instr, usize)>
    requires within { place < 2 ^ 32 }
    requires callable { F.IsAlwaysCallable make }
    ensures some { IfSome result (λ d. (v w : ℕ) × (word_at code.now (place + 1) ≡ Some v) × (word_at code.now (place + 3) ≡ Some w) × F.post make v w d.0 × (d.1 ≡ place + 5)) }
    ensures none { IfNone result (two_words_at code.now (place + 1) ≡ None) }
{
    let first = word_of_bytes(code, place + 1)?;
    let second = word_of_bytes(code, place + 3)?;
    Some((make(first, second), place + 5))
}

/// An instruction of a byte and a word.
fn with_byte_and_word<F: Fn(u8, u16) -> Instr>(
    code: &[u8],
    place: usize,
    make: F,
) -> Option<(Instr, usize)>
    requires within { place < 2 ^ 32 }
    requires callable { F.IsAlwaysCallable make }
    ensures some { IfSome result (λ d. (n w : ℕ) × (slice_get code.now (place + 1) ≡ Some n) × (word_at code.now (place + 2) ≡ Some w) × F.post make n w d.0 × (d.1 ≡ place + 4)) }
    ensures none { IfNone result (byte_word_at code.now (place + 1) ≡ None) }
{
    let byte = *code.get(place + 1)?;
    let word = word_of_bytes(code, place + 2)?;
    Some((make(byte, word), place + 4))
}

#[tactic(auto, unfolding(crate::specs::Bytes::row_0))]
fn decode_words(first: u8, code: &[u8], place: usize) -> Option<(Instr, usize)>
    requires { place < 2 ^ 32 }
    ensures { result ≡ row_0 first code.now place }
{
    match first {
        0x01 => Some((Instr::Liw(word_of_bytes(code, place + 1)?), place + 3)),
        0x02 => Some((Instr::Lib(*code.get(place + 1)?), place + 2)),
        0x03 => Some((Instr::Dup, place + 1)),
        0x04 => Some((Instr::Drp, place + 1)),
        0x05 => Some((Instr::Swp, place + 1)),
        _ => None,
    }
}

#[tactic(auto, unfolding(crate::specs::Bytes::row_2))]
fn decode_places(first: u8, code: &[u8], place: usize) -> Option<(Instr, usize)>
    requires { place < 2 ^ 32 }
    ensures { result ≡ row_2 first code.now place }
{
    match first {
        0x20 => Some((Instr::Llw(word_of_bytes(code, place + 1)?), place + 3)),
        0x21 => Some((Instr::Llb(*code.get(place + 1)?), place + 2)),
        0x22 => Some((Instr::Slw(word_of_bytes(code, place + 1)?), place + 3)),
        0x23 => Some((Instr::Slb(*code.get(place + 1)?), place + 2)),
        0x24 => Some((Instr::Lgw(word_of_bytes(code, place + 1)?), place + 3)),
        0x25 => Some((Instr::Lgb(*code.get(place + 1)?), place + 2)),
        0x26 => Some((Instr::Sgw(word_of_bytes(code, place + 1)?), place + 3)),
        0x27 => Some((Instr::Sgb(*code.get(place + 1)?), place + 2)),
        0x28 => with_byte_and_word(code, place, Instr::Lew),
        0x29 => with_byte_and_word(code, place, Instr::Sew),
        0x2a => with_byte_and_word(code, place, Instr::Lnw),
        0x2b => with_byte_and_word(code, place, Instr::Snw),
        0x2c => Some((Instr::Lal(word_of_bytes(code, place + 1)?), place + 3)),
        0x2d => Some((Instr::Lag(word_of_bytes(code, place + 1)?), place + 3)),
        0x2e => with_byte_and_word(code, place, Instr::Lae),
        0x2f => with_byte_and_word(code, place, Instr::Lan),
        _ => None,
    }
}

#[tactic(auto, unfolding(crate::specs::Bytes::row_3))]
fn decode_tests(first: u8, code: &[u8], place: usize) -> Option<(Instr, usize)>
    requires { place < 2 ^ 32 }
    ensures { result ≡ row_3 first code.now place }
{
    match first {
        0x30 => Some((Instr::Ldi, place + 1)),
        0x31 => Some((Instr::Sti, place + 1)),
        0x32 => Some((Instr::Ldf(word_of_bytes(code, place + 1)?), place + 3)),
        0x33 => Some((Instr::Adf(word_of_bytes(code, place + 1)?), place + 3)),
        0x34 => Some((Instr::Mov(word_of_bytes(code, place + 1)?), place + 3)),
        0x35 => with_two_words(code, place, Instr::Mvz),
        0x36 => Some((Instr::Nlt, place + 1)),
        0x37 => with_two_words(code, place, Instr::Ixc),
        0x38 => Some((Instr::Ixo(word_of_bytes(code, place + 1)?), place + 3)),
        0x39 => with_two_words(code, place, Instr::Rgc),
        0x3a => with_two_words(code, place, Instr::Rgi),
        0x3b => Some((Instr::Cap, place + 1)),
        _ => None,
    }
}

#[tactic(auto, unfolding(crate::specs::Bytes::row_4))]
fn decode_operators(first: u8, place: usize) -> Option<(Instr, usize)>
    requires { place < 2 ^ 32 }
    ensures { result ≡ row_4 first place }
{
    match first {
        0x40 => Some((Instr::Adc, place + 1)),
        0x41 => Some((Instr::Sbc, place + 1)),
        0x42 => Some((Instr::Mlc, place + 1)),
        0x43 => Some((Instr::Dvc, place + 1)),
        0x44 => Some((Instr::Mdc, place + 1)),
        0x45 => Some((Instr::Adi, place + 1)),
        0x46 => Some((Instr::Sbi, place + 1)),
        0x47 => Some((Instr::Mli, place + 1)),
        0x48 => Some((Instr::Dvi, place + 1)),
        0x49 => Some((Instr::Mdi, place + 1)),
        0x4a => Some((Instr::Ngi, place + 1)),
        0x4b => Some((Instr::Abi, place + 1)),
        _ => None,
    }
}

#[tactic(auto, unfolding(crate::specs::Bytes::row_5))]
fn decode_comparisons(first: u8, place: usize) -> Option<(Instr, usize)>
    requires { place < 2 ^ 32 }
    ensures { result ≡ row_5 first place }
{
    match first {
        0x50 => Some((Instr::Uni, place + 1)),
        0x51 => Some((Instr::Dif, place + 1)),
        0x52 => Some((Instr::Its, place + 1)),
        0x53 => Some((Instr::Sym, place + 1)),
        0x54 => Some((Instr::Sin, place + 1)),
        0x55 => Some((Instr::Spn, place + 1)),
        0x56 => Some((Instr::Icl, place + 1)),
        0x57 => Some((Instr::Ecl, place + 1)),
        0x58 => Some((Instr::Sle, place + 1)),
        0x59 => Some((Instr::Not, place + 1)),
        0x5a => Some((Instr::Equ, place + 1)),
        0x5b => Some((Instr::Neq, place + 1)),
        0x5c => Some((Instr::Lsc, place + 1)),
        0x5d => Some((Instr::Lec, place + 1)),
        0x5e => Some((Instr::Lsi, place + 1)),
        0x5f => Some((Instr::Lei, place + 1)),
        _ => None,
    }
}

fn decode_external_call(code: &[u8], place: usize) -> Option<(Instr, usize)>
    requires { place < 2 ^ 32 }
    ensures { result ≡ with_call code.now place }
{
    let number = *code.get(place + 1)?;
    let procedure = *code.get(place + 2)?;
    let words = word_of_bytes(code, place + 3)?;
    Some((Instr::Clx(number, procedure, words), place + 5))
}

#[tactic(auto, unfolding(crate::specs::Bytes::row_6))]
fn decode_frames(first: u8, code: &[u8], place: usize) -> Option<(Instr, usize)>
    requires { place < 2 ^ 32 }
    ensures { result ≡ row_6 first code.now place }
{
    match first {
        0x60 => Some((Instr::Sav, place + 1)),
        0x61 => Some((Instr::Mrk(*code.get(place + 1)?), place + 2)),
        0x62 => Some((Instr::Mrf, place + 1)),
        0x63 => Some((Instr::Psh, place + 1)),
        0x64 => Some((Instr::Psm(word_of_bytes(code, place + 1)?), place + 3)),
        0x65 => with_byte_and_word(code, place, Instr::Cll),
        0x66 => decode_external_call(code, place),
        0x67 => Some((Instr::Clf(word_of_bytes(code, place + 1)?), place + 3)),
        0x68 => Some((Instr::Ent(word_of_bytes(code, place + 1)?), place + 3)),
        0x69 => with_two_words(code, place, Instr::Cpy),
        0x6a => Some((Instr::Rtn, place + 1)),
        0x6b => Some((Instr::Rst(*code.get(place + 1)?), place + 2)),
        _ => None,
    }
}

fn decode_loop(code: &[u8], place: usize) -> Option<(Instr, usize)>
    requires { place < 2 ^ 32 }
    ensures { result ≡ with_loop code.now place }
{
    let offset = word_of_bytes(code, place + 1)?;
    let kind = *code.get(place + 3)?;
    let target = word_of_bytes(code, place + 4)?;
    Some((Instr::Fri(offset, kind, target), place + 6))
}

fn decode_case(code: &[u8], place: usize) -> Option<(Instr, usize)>
    requires { place < 2 ^ 32 }
    ensures { result ≡ with_entries code.now place }
{
    let count = word_of_bytes(code, place + 1)?;
    let target = word_of_bytes(code, place + 3)?;
    if code.len() < place + 5 + 6 * usize::from(count) {
        return None;
    }
    Some((Instr::Cas(count, target), place + 5))
}

#[tactic(auto, unfolding(crate::specs::Bytes::row_7))]
fn decode_jumps(first: u8, code: &[u8], place: usize) -> Option<(Instr, usize)>
    requires { place < 2 ^ 32 }
    ensures { result ≡ row_7 first code.now place }
{
    match first {
        0x70 => Some((Instr::Jmp(word_of_bytes(code, place + 1)?), place + 3)),
        0x71 => Some((Instr::Jpf(word_of_bytes(code, place + 1)?), place + 3)),
        0x72 => Some((Instr::Jan(word_of_bytes(code, place + 1)?), place + 3)),
        0x73 => Some((Instr::Jor(word_of_bytes(code, place + 1)?), place + 3)),
        0x74 => Some((Instr::Jms(*code.get(place + 1)?), place + 2)),
        0x75 => Some((Instr::Jfs(*code.get(place + 1)?), place + 2)),
        0x76 => decode_case(code, place),
        0x77 => decode_loop(code, place),
        0x78 => with_two_words(code, place, Instr::Frn),
        0x79 => Some((Instr::Trp(*code.get(place + 1)?), place + 2)),
        0x7a => Some((Instr::Alc, place + 1)),
        0x7b => Some((Instr::Npr, place + 1)),
        0x7c => Some((Instr::Trf, place + 1)),
        0x7d => Some((Instr::Svc(*code.get(place + 1)?), place + 2)),
        _ => None,
    }
}

fn decode_row(first: u8, code: &[u8], place: usize) -> Option<(Instr, usize)>
    requires { place < 2 ^ 32 }
    ensures { result ≡ row first code.now place }
{
    match first / 16 {
        0 => decode_words(first, code, place),
        1 => Some((Instr::Lis(first % 16), place + 1)),
        2 => decode_places(first, code, place),
        3 => decode_tests(first, code, place),
        4 => decode_operators(first, place),
        5 => decode_comparisons(first, place),
        6 => decode_frames(first, code, place),
        7 => decode_jumps(first, code, place),
        _ => None,
    }
}

/// The instruction whose bytes stand at a place of the code, and the place behind it; for CASE that of its entries.
/// None where no row of the byte table has these bytes, or the entries of CASE don't lie whole in the code.
#[tactic(auto, unfolding(crate::specs::Bytes::decoded))]
pub fn decode(code: &[u8], place: usize) -> Option<(Instr, usize)>
    requires { length code.now < 2 ^ 32 }
    ensures { result ≡ decoded code.now place }
{
    let first = *code.get(place)?;
    decode_row(first, code, place)
}
