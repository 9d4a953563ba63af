//! What docs/TOUR.md shows of Tour.MOD, Heap.MOD and Call.MOD, layer by layer: tokens, code, and the machine step by step. What the
//! meaning does in each step is proved in lil_meaning, and the screen of all is looked at by the gate.
use crate::mcode::{begun, begun_with, served};
use lil_base::{Bytes, Memory, Name, Request, Text, same_bytes};
use lil_check_unit::check_program;
use lil_lexer::tokens;
use lil_mcode::Event;
use lil_read_unit::read;
use lil_text::{Mark, Token, TokenKind};
use lil_unit::{ModuleCode, generate_alone};
use lil_volume::RamSink;
use std::alloc::Global;
use std::test::Fail;

/// The text of examples/Tour.MOD.
const TOUR: &[u8] =
    b"MODULE Tour; FROM Terminal IMPORT Write; VAR c: CARDINAL;\nBEGIN c := 7; Write(CHR(c * 9 + 2)) END Tour.\n";

/// The text of examples/Heap.MOD.
const HEAP: &[u8] =
    b"MODULE Heap; TYPE P = POINTER TO R; R = RECORD key: CARDINAL; next: P END;\nVAR a: ARRAY [0..2] OF R; i: CARDINAL;\nBEGIN i := 1; NEW(a[i].next);\n  a[i].next^.key := 1\nEND Heap.\n";

/// The text of examples/Call.MOD.
const CALL: &[u8] =
    b"MODULE Call; FROM Terminal IMPORT Write; VAR c: CARDINAL;\nPROCEDURE Next(n: CARDINAL): CARDINAL;\nBEGIN RETURN n + 1 END Next;\nBEGIN c := 60; Write(CHR(c + Next(4))) END Call.\n";

/// What a token is.
#[derive(Clone, Copy)]
enum Wanted {
    Ident(&'static [u8]),
    Number(u16),
    Mark(Mark),
}

/// The tokens of the statement in Tour.MOD: their numbers, their columns in line 2, and what they are.
const TOUR_TOKENS: &[(usize, u32, Wanted)] = &[
    (18, 15, Wanted::Ident(b"Write")),
    (19, 20, Wanted::Mark(Mark::Open)),
    (20, 21, Wanted::Ident(b"CHR")),
    (21, 24, Wanted::Mark(Mark::Open)),
    (22, 25, Wanted::Ident(b"c")),
    (23, 27, Wanted::Mark(Mark::Times)),
    (24, 29, Wanted::Number(9)),
    (25, 31, Wanted::Mark(Mark::Plus)),
    (26, 33, Wanted::Number(2)),
    (27, 34, Wanted::Mark(Mark::Close)),
    (28, 35, Wanted::Mark(Mark::Close)),
];

/// Whether a token is this one.
fn is(token: &Token, wanted: Wanted) -> bool {
    match (&token.what, wanted) {
        (TokenKind::Ident(name), Wanted::Ident(letters)) => {
            same_bytes(name.text().as_slice(), letters)
        }
        (TokenKind::Number(number), Wanted::Number(value)) => *number == value,
        (TokenKind::Mark(mark), Wanted::Mark(one)) => *mark == one,
        _ => false,
    }
}

/// The tokens of section 2.
#[test]
fn tour_tokens(rt: HostRuntime) -> Result<(), Fail> {
    let alloc = rt.alloc();
    let text = Text::from_slice(alloc, TOUR)?;
    let found = tokens(alloc, &text).map_err(|_| Memory)?;
    assert_eq!(rt; found.len(), 33);
    for (number, column, wanted) in TOUR_TOKENS {
        let token = found.get(*number).ok_or("no token")?;
        assert!(rt; token.place.line == 2 && token.place.column == *column);
        assert!(rt; is(token, *wanted));
    }
    Ok(())
}

/// The code of a program of this name.
fn code_of(alloc: Global, name: &[u8], text: &[u8]) -> Result<ModuleCode, Fail> {
    let name = Name::of_slice(alloc, name)?.ok_or("no name")?;
    let text = Text::from_slice(alloc, text)?;
    let unit = read(alloc, &text).map_err(|_| Memory)?;
    let Ok(module) = check_program(alloc, &name, &unit) else {
        return Err(Fail::from(Memory));
    };
    Ok(generate_alone(alloc, &module).map_err(|_| Memory)?)
}

/// The code of Tour.MOD: the column of bytes in section 7.
const TOUR_CODE: &[u8] = &[
    0x68, 0x00, 0x04, // ENT 4
    0x01, 0x00, 0x07, // LIW 7
    0x26, 0x00, 0x00, // SGW 0
    0x24, 0x00, 0x00, // LGW 0
    0x01, 0x00, 0x09, // LIW 9
    0x42, // MLC
    0x01, 0x00, 0x02, // LIW 2
    0x40, // ADC
    0x39, 0x00, 0x00, 0x00, 0xff, // RGC 0 255
    0x7d, 0x02, // SVC 2
    0x6a, // RTN
];

/// The code of the statement in Heap.MOD, from place 32 on: the column of bytes in section 11.
const HEAP_CODE: &[u8] = &[
    0x2d, 0x00, 0x00, // LAG 0
    0x24, 0x00, 0x06, // LGW 6
    0x39, 0x00, 0x00, 0x00, 0x02, // RGC 0 2
    0x37, 0x00, 0x00, 0x00, 0x02, // IXC 0 2
    0x32, 0x00, 0x01, // LDF 1
    0x36, // NLT
    0x33, 0x00, 0x00, // ADF 0
    0x01, 0x00, 0x01, // LIW 1
    0x31, // STI
];

/// The code of Call.MOD: the column of bytes in section 12, by the places.
const CALL_CODE: &[u8] = &[
    0x68, 0x00, 0x04, // ENT 4
    0x01, 0x00, 0x3c, // LIW 60
    0x26, 0x00, 0x00, // SGW 0
    0x24, 0x00, 0x00, // LGW 0
    0x60, // SAV
    0x61, 0x00, // MRK 0
    0x01, 0x00, 0x04, // LIW 4
    0x63, // PSH
    0x65, 0x01, 0x00, 0x01, // CLL 1 1
    0x6b, 0x01, // RST 1
    0x40, // ADC
    0x39, 0x00, 0x00, 0x00, 0xff, // RGC 0 255
    0x7d, 0x02, // SVC 2
    0x6a, // RTN
    0x68, 0x00, 0x05, // ENT 5
    0x20, 0x00, 0x04, // LLW 4
    0x01, 0x00, 0x01, // LIW 1
    0x40, // ADC
    0x6a, // RTN
    0x79, 0x08, // TRP 8
];

/// The code of sections 7, 11 and 12.
#[test]
fn tour_code(rt: HostRuntime) -> Result<(), Fail> {
    let alloc = rt.alloc();
    let tour = code_of(alloc, b"Tour", TOUR)?;
    assert!(rt; tour.code.as_slice() == TOUR_CODE && tour.strings.is_empty());
    let heap = code_of(alloc, b"Heap", HEAP)?;
    assert_eq!(rt; heap.code.len(), 60);
    let part = heap.code.as_slice().get(32..59).ok_or("no part")?;
    assert!(rt; part == HEAP_CODE);
    let call = code_of(alloc, b"Call", CALL)?;
    assert!(rt; call.code.as_slice() == CALL_CODE && call.entries.as_slice() == [34u16].as_slice());
    Ok(())
}

/// The steps of the machine with the code of Tour.MOD: the place of each instruction, what it did, and word 1 after it.
const TOUR_STEPS: &[(u16, Event, u16)] = &[
    (0, Event::Went, 0),
    (3, Event::Went, 0),
    (6, Event::Went, 7),
    (9, Event::Went, 7),
    (12, Event::Went, 7),
    (15, Event::Went, 7),
    (16, Event::Went, 7),
    (19, Event::Went, 7),
    (20, Event::Went, 7),
    (25, Event::Request(Request::Write), 7),
    (27, Event::LevelEnded, 7),
];

/// The places and events of section 8, and when word 1 becomes 7.
#[test]
fn tour_steps(rt: HostRuntime) -> Result<(), Fail> {
    let mut machine = begun(rt.alloc(), TOUR_CODE, 1)?;
    for (place, event, word) in TOUR_STEPS {
        assert!(rt; machine.step() == *event);
        assert_eq!(rt; machine.place().place, *place);
        assert_eq!(rt; machine.word(1), *word);
    }
    Ok(())
}

/// Shows the top of the expression stack in six columns, and takes it away: LIW 6; SVC 5.
const PROBE: &[u8] = &[0x01, 0x00, 0x06, 0x7d, 0x05];

/// The words on the expression stack after so many bytes of a code, the top first, each in six columns.
fn stack_after(alloc: Global, code: &[u8], bytes: usize, data_words: u8) -> Result<RamSink, Fail> {
    let mut probed = Bytes::from_slice(alloc, code.get(..bytes).ok_or("no place")?)?;
    for _word in 0..3 {
        probed.extend(PROBE)?;
    }
    let mut machine = begun(alloc, probed.as_slice(), data_words)?;
    let mut screen = RamSink::new(alloc, Bytes::new(alloc), Vec::new(alloc))?;
    for _word in 0..3 {
        served(&mut machine, &mut screen)?;
    }
    Ok(screen)
}

/// The place after each instruction of Tour.MOD but the last two, and the expression stack there.
const TOUR_STACKS: &[(usize, &[u8])] = &[
    (3, b""),
    (6, b"     7"),
    (9, b""),
    (12, b"     7"),
    (15, b"     9     7"),
    (16, b"    63"),
    (19, b"     2    63"),
    (20, b"    65"),
    (25, b"    65"),
];

/// The same of the statement in Heap.MOD.
const HEAP_STACKS: &[(usize, &[u8])] = &[
    (32, b""),
    (35, b"     1"),
    (38, b"     1     1"),
    (43, b"     1     1"),
    (48, b"     3"),
    (51, b" 65533"),
    (52, b" 65533"),
    (55, b" 65533"),
    (58, b"     1 65533"),
    (59, b""),
];

/// The columns of the expression stack in sections 8 and 11.
#[test]
fn tour_stacks(rt: HostRuntime) -> Result<(), Fail> {
    let alloc = rt.alloc();
    for (bytes, wanted) in TOUR_STACKS {
        let screen = stack_after(alloc, TOUR_CODE, *bytes, 1)?;
        assert_eq!(rt; screen.written().as_slice(), *wanted);
    }
    let heap = code_of(alloc, b"Heap", HEAP)?;
    for (bytes, wanted) in HEAP_STACKS {
        let screen = stack_after(alloc, heap.code.as_slice(), *bytes, 7)?;
        assert_eq!(rt; screen.written().as_slice(), *wanted);
    }
    Ok(())
}

/// What Heap.MOD leaves in the store: the pointer in word 4, and the object's key.
#[test]
fn tour_heap(rt: HostRuntime) -> Result<(), Fail> {
    let alloc = rt.alloc();
    let heap = code_of(alloc, b"Heap", HEAP)?;
    let mut machine = begun(alloc, heap.code.as_slice(), 7)?;
    let (event, done) = machine.run(100);
    assert!(rt; event == Event::LevelEnded && done == 20);
    assert!(rt; machine.word(4) == 65533 && machine.word(65533) == 1);
    Ok(())
}

/// The steps of the machine with the code of Call.MOD: the place of each instruction, and the words 6 to 12 after it.
const CALL_STEPS: &[(u16, [u16; 7])] = &[
    (0, [0, 0, 0, 0, 0, 0, 0]),
    (3, [0, 0, 0, 0, 0, 0, 0]),
    (6, [0, 0, 0, 0, 0, 0, 0]),
    (9, [0, 0, 0, 0, 0, 0, 0]),
    (12, [60, 1, 0, 0, 0, 0, 0]),
    (13, [60, 1, 0, 0, 0, 0, 0]),
    (15, [60, 1, 0, 0, 0, 0, 0]),
    (18, [60, 1, 0, 0, 0, 0, 4]),
    (19, [60, 1, 0, 2, 23, 1, 4]),
    (34, [60, 1, 0, 2, 23, 1, 4]),
    (37, [60, 1, 0, 2, 23, 1, 4]),
    (40, [60, 1, 0, 2, 23, 1, 4]),
    (43, [60, 1, 0, 2, 23, 1, 4]),
    (44, [60, 1, 0, 2, 23, 1, 4]),
    (23, [60, 1, 0, 2, 23, 1, 4]),
    (25, [60, 1, 0, 2, 23, 1, 4]),
    (26, [60, 1, 0, 2, 23, 1, 4]),
    (31, [60, 1, 0, 2, 23, 1, 4]),
    (33, [60, 1, 0, 2, 23, 1, 4]),
];

/// The places and the words of section 12.
#[test]
fn tour_call(rt: HostRuntime) -> Result<(), Fail> {
    let mut machine = begun_with(rt.alloc(), CALL_CODE, Some(34), 1)?;
    for (place, words) in CALL_STEPS {
        machine.step();
        assert_eq!(rt; machine.place().place, *place);
        for (above, word) in words.iter().enumerate() {
            assert_eq!(rt; machine.word(6 + above as u16), *word);
        }
    }
    Ok(())
}
