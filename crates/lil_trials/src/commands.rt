use lil_base::{Bytes, FileName, Text};
use lil_session::{Options, Rack, RamKeys, RamSink, RamVolume, lilith, once};
use std::alloc::Global;
use std::process::Abort;
use std::test::Fail;

const HELLO: &[u8] =
    b"MODULE Hello; FROM Terminal IMPORT Write; VAR c: CARDINAL; BEGIN c := 72; Write(CHR(c)); c := 70 + 3; Write(CHR(c)); Write(CHR(30)) END Hello.";

const EMPTY: &[u8] = b"MODULE E; END E.";

const OVERFLOW: &[u8] =
    b"MODULE C; FROM Terminal IMPORT Write; VAR c: CARDINAL; BEGIN Write(CHR(65)); c := 65535; c := c + 1 END C.";

const LETTERS: &[u8] =
    b"MODULE L; FROM Terminal IMPORT Write; BEGIN Write(CHR(72)); Write(CHR(73)); Write(CHR(30)) END L.";

const ENDLESS: &[u8] = b"MODULE L; FROM Terminal IMPORT Write; BEGIN LOOP Write('x') END END L.";

/// What the endless program shows in 1000 steps.
const ALL_X: [u8; 333] = [b'x'; 333];

const NOT_BUILT: &[u8] = b"MODULE N; FROM SYSTEM IMPORT PROCESS; END N.";

const HELLO_MOD: &[u8] = b"Hello.MOD";

const TOO_MANY: &[u8] = b"once Hello.MOD Hello.MOD";

const OVERFLOWS: &[u8] = b"trap overflow in C\n";

const ISNT_BUILT: &[u8] = b"N.MOD:1:30: 90 NotBuilt\n";

const NO_FILE: &[u8] = b"no file Q.MOD\n";

const NO_VOLUME: &[u8] = b"fault volume\n";

const NO_SCREEN: &[u8] = b"fault screen\n";

const USAGE: &[u8] =
    b"usage: lilith compile or run or once or demo, NAME, --steps=N --count --screen\n";

/// What is wanted of a command.
#[derive(Clone, Copy)]
struct Want<'a> {
    /// The numbers of the calls of the volume, the screen and the report that fail; 0 for none.
    fails: [u64; 3],
    status: u8,
    shown: &'a [u8],
    reported: &'a [u8],
}

/// Of one that ends and shows nothing.
const NOTHING: Want<'static> = Want {
    fails: [0, 0, 0],
    status: 0,
    shown: b"",
    reported: b"",
};

fn one(alloc: Global, number: u64) -> Result<Vec<u64>, Fail> {
    let mut numbers = Vec::new(alloc);
    numbers.push(number)?;
    Ok(numbers)
}

/// A volume of one file.
fn volume_of(alloc: Global, file: &[u8], text: Bytes, fails: u64) -> Result<RamVolume, Fail> {
    let mut files = Vec::new(alloc);
    if let Some(name) = FileName::new(alloc, &Text::from_slice(alloc, file)?)? {
        files.push((name, text))?;
    }
    Ok(RamVolume::new(alloc, files, one(alloc, fails)?)?)
}

/// The words of a line, of which there is none where it is empty.
fn words_of(alloc: Global, line: &[u8]) -> Result<Vec<Text>, Fail> {
    let mut words = Vec::new(alloc);
    let mut word = Text::new(alloc);
    for byte in line {
        if *byte == b' ' {
            words.push(word)?;
            word = Text::new(alloc);
        } else {
            word.push(*byte)?;
        }
    }
    if !line.is_empty() {
        words.push(word)?;
    }
    Ok(words)
}

/// Does a command over a volume of one file with this text.
fn check(
    rt: &impl Abort,
    alloc: Global,
    line: &[u8],
    file: &[u8],
    text: Bytes,
    want: Want<'_>,
) -> Result<(), Fail> {
    let [volume_fails, screen_fails, report_fails] = want.fails;
    let mut volume = volume_of(alloc, file, text, volume_fails)?;
    let mut keys = RamKeys::new(alloc, Bytes::new(alloc), Vec::new(alloc))?;
    let mut screen = RamSink::new(alloc, Bytes::new(alloc), one(alloc, screen_fails)?)?;
    let mut report = RamSink::new(alloc, Bytes::new(alloc), one(alloc, report_fails)?)?;
    let mut rack: Rack = Rack::new(alloc);
    let status = lilith(
        alloc,
        &words_of(alloc, line)?,
        &mut volume,
        &mut keys,
        &mut screen,
        &mut report,
        &mut rack,
    );
    assert_eq!(rt; status.code(), want.status);
    assert_eq!(rt; screen.written().as_slice(), want.shown);
    assert_eq!(rt; report.written().as_slice(), want.reported);
    assert_eq!(rt; keys.calls(), 0);
    Ok(())
}

/// The texts by the first letters of their names.
fn text_of(file: &[u8]) -> &'static [u8] {
    match file.first() {
        Some(b'H') => HELLO,
        Some(b'L') => LETTERS,
        Some(b'C') => OVERFLOW,
        Some(b'N') => NOT_BUILT,
        _ => EMPTY,
    }
}

/// The file of the volume, the words, the calls of its volume, its screen and its report that fail, the status, and what
/// is shown and reported.
const COMMANDS: &[(&[u8], &[u8], [u64; 3], u8, &[u8], &[u8])] = &[
    (HELLO_MOD, b"once Hello.MOD", [0, 0, 0], 0, b"HI\n", b""),
    (b"L.MOD", b"once L.MOD", [0, 0, 0], 0, b"HI\n", b""),
    (b"E.MOD", b"once E.MOD", [0, 0, 0], 0, b"", b""),
    (b"C.MOD", b"once C.MOD", [0, 0, 0], 5, b"A", OVERFLOWS),
    (b"N.MOD", b"once N.MOD", [0, 0, 0], 3, b"", ISNT_BUILT),
    // words that are no command
    (HELLO_MOD, b"", [0, 0, 0], 1, b"", USAGE),
    (HELLO_MOD, b"once", [0, 0, 0], 1, b"", USAGE),
    (HELLO_MOD, b"fly Hello.MOD", [0, 0, 0], 1, b"", USAGE),
    (HELLO_MOD, b"once Hello.mod", [0, 0, 0], 1, b"", USAGE),
    (HELLO_MOD, b"once Hello", [0, 0, 0], 1, b"", USAGE),
    (HELLO_MOD, b"once .MOD", [0, 0, 0], 1, b"", USAGE),
    (HELLO_MOD, TOO_MANY, [0, 0, 0], 1, b"", USAGE),
    // no such file
    (HELLO_MOD, b"once Q.MOD", [0, 0, 0], 2, b"", NO_FILE),
    // the volume fails
    (HELLO_MOD, b"once Hello.MOD", [1, 0, 0], 8, b"", NO_VOLUME),
    (HELLO_MOD, b"once Hello.MOD", [1, 0, 1], 8, b"", b""),
    // the screen fails at a letter, or would fail behind the last one
    (b"L.MOD", b"once L.MOD", [0, 1, 0], 10, b"", NO_SCREEN),
    (b"L.MOD", b"once L.MOD", [0, 2, 0], 10, b"H", NO_SCREEN),
    (b"L.MOD", b"once L.MOD", [0, 2, 1], 10, b"H", b""),
    (b"L.MOD", b"once L.MOD", [0, 4, 0], 0, b"HI\n", b""),
    (b"E.MOD", b"once E.MOD", [0, 1, 0], 0, b"", b""),
    // the report fails where there are lines, and isn't called where there are none
    (HELLO_MOD, b"fly Hello.MOD", [0, 0, 1], 12, b"", b""),
    (b"C.MOD", b"once C.MOD", [0, 0, 1], 12, b"A", b""),
    (b"N.MOD", b"once N.MOD", [0, 0, 1], 12, b"", b""),
    (b"L.MOD", b"once L.MOD", [0, 0, 1], 0, b"HI\n", b""),
    (b"E.MOD", b"once E.MOD", [0, 0, 1], 0, b"", b""),
];

/// What a command answers, shows and reports, and which calls it makes.
#[test]
fn commands(rt: HostRuntime) -> Result<(), Fail> {
    let alloc = rt.alloc();
    for (file, line, fails, status, shown, reported) in COMMANDS {
        let want = Want {
            fails: *fails,
            status: *status,
            shown,
            reported,
        };
        let text = Bytes::from_slice(alloc, text_of(file))?;
        check(&rt, alloc, line, file, text, want)?;
    }
    Ok(())
}

/// The fault of a text in K.MOD.
fn check_fault(rt: &impl Abort, alloc: Global, text: Bytes, fault: &[u8]) -> Result<(), Fail> {
    let mut reported = Bytes::from_slice(alloc, b"K.MOD:1:")?;
    reported.extend(fault)?;
    reported.push(b'\n')?;
    let want = Want {
        status: 3,
        reported: reported.as_slice(),
        ..NOTHING
    };
    check(rt, alloc, b"once K.MOD", b"K.MOD", text, want)
}

/// A text that is too long is no text.
#[test]
fn longest_text(rt: HostRuntime) -> Result<(), Fail> {
    let alloc = rt.alloc();
    let mut blanks = Bytes::new(alloc);
    for _blank in 0..262_145 {
        blanks.push(b' ')?;
    }
    check_fault(&rt, alloc, blanks, b"1: 65 TextTooLong")
}

/// What a program K shows that ends.
fn check_run(rt: &impl Abort, alloc: Global, text: Bytes, shown: &[u8]) -> Result<(), Fail> {
    let want = Want { shown, ..NOTHING };
    check(rt, alloc, b"once K.MOD", b"K.MOD", text, want)
}

/// A program with so many WITHs of one record in one of another, whose innermost statements name fields of both.
fn nested_withs(alloc: Global, count: usize) -> Result<Bytes, Fail> {
    let mut text = Bytes::from_slice(
        alloc,
        b"MODULE K; FROM InOut IMPORT WriteCard; VAR r: RECORD n: CARDINAL END; s: RECORD x: CARDINAL END; BEGIN WITH r DO ",
    )?;
    for _ in 0..count {
        text.extend(b"WITH s DO ")?;
    }
    text.extend(b"INC(x); n := x + 1")?;
    for _ in 0..count {
        text.extend(b" END")?;
    }
    text.extend(b" END; WriteCard(r.n, 1); WriteCard(s.x, 1) END K.")?;
    Ok(text)
}

/// WITHs one in another, few and many.
#[test]
fn deep_withs(rt: HostRuntime) -> Result<(), Fail> {
    let alloc = rt.alloc();
    check_run(&rt, alloc, nested_withs(alloc, 1)?, b"21")?;
    check_run(&rt, alloc, nested_withs(alloc, 40)?, b"21")
}

/// So many assignments of 10 bytes of code each, in a module that has 4 bytes beside them.
fn assignments(alloc: Global, count: usize) -> Result<Bytes, Fail> {
    let mut text = Bytes::from_slice(alloc, b"MODULE K; VAR c: CARDINAL; BEGIN ")?;
    for _ in 0..count {
        text.extend(b"c:=c+1;")?;
    }
    text.extend(b" END K.")?;
    Ok(text)
}

/// The longest code, and code that is too long.
#[test]
fn longest_code(rt: HostRuntime) -> Result<(), Fail> {
    let alloc = rt.alloc();
    check_run(&rt, alloc, assignments(alloc, 3276)?, b"")?;
    let text = assignments(alloc, 3277)?;
    check_fault(&rt, alloc, text, b"8: 64 CodeTooLong 32774")
}

/// An assignment of a sum with so many operands behind the first one.
fn sum(alloc: Global, operand: &[u8], count: usize) -> Result<Bytes, Fail> {
    let mut text = Bytes::from_slice(alloc, b"MODULE K; VAR c: CARDINAL; BEGIN c := c")?;
    for _ in 0..count {
        text.extend(operand)?;
    }
    text.extend(b" END K.")?;
    Ok(text)
}

/// The longest sums that run, and a longer one: no sum is too long to be read, counted and given back.
#[test]
fn longest_sums(rt: HostRuntime) -> Result<(), Fail> {
    let alloc = rt.alloc();
    check_run(&rt, alloc, sum(alloc, b"+1", 8180)?, b"")?;
    check_run(&rt, alloc, sum(alloc, b"+c", 8180)?, b"")?;
    let text = sum(alloc, b"+c", 100_000)?;
    check_fault(&rt, alloc, text, b"8: 64 CodeTooLong 400010")
}

/// A program with so many types beside those of its imports: arrays of one element, and that of their index.
fn arrays(alloc: Global, count: usize) -> Result<Bytes, Fail> {
    let mut text = Bytes::from_slice(
        alloc,
        b"MODULE K; FROM InOut IMPORT Write; TYPE c=[0..0]; VAR a: ARRAY c",
    )?;
    for _ in 2..count {
        text.extend(b",c")?;
    }
    text.extend(b" OF CHAR; BEGIN Write('x') END K.")?;
    Ok(text)
}

/// What may stand behind the first letter of a name.
const NAME_BYTES: &[u8; 62] = b"0123456789ABCDEFGHIJKLMNOPQRSTUVWXYZabcdefghijklmnopqrstuvwxyz";

/// A program with an enumeration of so many constants, of which each has at most three letters and digits.
fn enumeration(alloc: Global, count: usize) -> Result<Bytes, Fail> {
    let mut text = Bytes::from_slice(alloc, b"MODULE K; TYPE T=(a")?;
    for number in 1..count {
        text.push(b',')?;
        text.push(b'a' + (number % 26) as u8)?;
        let mut rest = number / 26;
        for _ in 0..2 {
            if rest > 0 {
                text.push(NAME_BYTES[rest % 62])?;
                rest /= 62;
            }
        }
    }
    text.extend(b"); END K.")?;
    Ok(text)
}

/// Types as many as a text holds, and the longest enumeration: one constant more is a fault.
#[test]
fn many_types(rt: HostRuntime) -> Result<(), Fail> {
    let alloc = rt.alloc();
    check_run(&rt, alloc, arrays(alloc, 32_001)?, b"x")?;
    check_run(&rt, alloc, arrays(alloc, 131_000)?, b"x")?;
    check_run(&rt, alloc, enumeration(alloc, 65_535)?, b"")?;
    let text = enumeration(alloc, 65_536)?;
    check_fault(&rt, alloc, text, b"8: 61 DataTooLong")
}

/// The letters take 8 instructions: the frame, a word and a request for each, and the return. The endless loop takes an
/// instruction for the frame, and three for each turn: a word, a request and a jump. Each with a budget of steps, the
/// status, and what is shown.
const BUDGETS: &[(&[u8], u64, u8, &[u8])] = &[
    (LETTERS, 0, 7, b""),
    (LETTERS, 4, 7, b"H"),
    (LETTERS, 7, 7, b"HI\n"),
    (LETTERS, 8, 0, b"HI\n"),
    (ENDLESS, 0, 7, b""),
    (ENDLESS, 9, 7, b"xxx"),
    (ENDLESS, 1000, 7, &ALL_X),
];

/// What a run shows within its budget, to the last instruction.
#[test]
fn budgets(rt: HostRuntime) -> Result<(), Fail> {
    let alloc = rt.alloc();
    for (text, steps, status, shown) in BUDGETS {
        check_budget(&rt, alloc, text, *steps, *status, shown)?;
    }
    Ok(())
}

fn check_budget(
    rt: &impl Abort,
    alloc: Global,
    text: &[u8],
    steps: u64,
    code: u8,
    shown: &[u8],
) -> Result<(), Fail> {
    let word = Text::from_slice(alloc, b"L.MOD")?;
    let text = Bytes::from_slice(alloc, text)?;
    let mut volume = volume_of(alloc, b"L.MOD", text, 0)?;
    let mut keys = RamKeys::new(alloc, Bytes::new(alloc), Vec::new(alloc))?;
    let mut screen = RamSink::new(alloc, Bytes::new(alloc), Vec::new(alloc))?;
    let mut report = RamSink::new(alloc, Bytes::new(alloc), Vec::new(alloc))?;
    let mut rack: Rack = Rack::new(alloc);
    let options = Options {
        steps,
        count: false,
        screen: false,
    };
    let status = once(
        alloc,
        &word,
        options,
        &mut volume,
        &mut keys,
        &mut screen,
        &mut report,
        &mut rack,
    );
    let reported: &[u8] = if code == 7 { b"steps spent\n" } else { b"" };
    assert_eq!(rt; status.code(), code);
    assert_eq!(rt; screen.written().as_slice(), shown);
    assert_eq!(rt; report.written().as_slice(), reported);
    Ok(())
}
