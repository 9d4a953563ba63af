use lil_base::{Bytes, FileName, Text, put16, put32, same_bytes};
use lil_session::{Rack, RamKeys, RamSink, RamVolume, Volume, lilith};
use std::alloc::Global;
use std::process::Abort;
use std::test::Fail;

const SOURCE: &[u8] = b"DEFINITION MODULE D; CONST c = 1; END D.";

/// How many bytes that text has.
const SIZE: u32 = 40;

/// What the symbol file of that text has behind the key.
const SYMBOLS: &[u8] = b"\x00\x00\x00\x00\x01\x01\x01c\x01\x00\x00\x00\x01";

const BOOK: &[u8] = b"LILITH.BOK";

const WORDS: &[&[u8]] = &[b"compile", b"D.DEF"];

const NO_VOLUME: &[u8] = b"fault volume\n";

fn file_name(alloc: Global, name: &[u8]) -> Result<FileName, Fail> {
    let found = FileName::new(alloc, &Text::from_slice(alloc, name)?)?;
    Ok(found.ok_or("no name of a file")?)
}

fn numbers(alloc: Global, number: u64) -> Result<Vec<u64>, Fail> {
    let mut all = Vec::new(alloc);
    all.push(number)?;
    Ok(all)
}

/// A volume with the source, and with this book where it is one, that fails at a call, or at none for 0.
fn volume_of(alloc: Global, book: Option<Bytes>, fails: u64) -> Result<RamVolume, Fail> {
    let mut files = Vec::new(alloc);
    files.push((
        file_name(alloc, b"D.DEF")?,
        Bytes::from_slice(alloc, SOURCE)?,
    ))?;
    if let Some(book) = book {
        files.push((file_name(alloc, BOOK)?, book))?;
    }
    Ok(RamVolume::new(alloc, files, numbers(alloc, fails)?)?)
}

/// Does what these words ask for, with a report that fails at a call, or at none for 0.
fn asked(
    rt: &impl Abort,
    alloc: Global,
    asked_for: &[&[u8]],
    volume: &mut RamVolume,
    report_fails: u64,
    code: u8,
    line: &[u8],
) -> Result<(), Fail> {
    let mut words = Vec::new(alloc);
    for word in asked_for {
        words.push(Text::from_slice(alloc, word)?)?;
    }
    let mut keys = RamKeys::new(alloc, Bytes::new(alloc), Vec::new(alloc))?;
    let mut screen = RamSink::new(alloc, Bytes::new(alloc), Vec::new(alloc))?;
    let mut report = RamSink::new(alloc, Bytes::new(alloc), numbers(alloc, report_fails)?)?;
    let mut rack: Rack = Rack::new(alloc);
    let status = lilith(
        alloc,
        &words,
        volume,
        &mut keys,
        &mut screen,
        &mut report,
        &mut rack,
    );
    assert_eq!(rt; status.code(), code);
    assert_eq!(rt; report.written().as_slice(), line);
    Ok(())
}

/// Compiles the definition.
fn compile(
    rt: &impl Abort,
    alloc: Global,
    volume: &mut RamVolume,
    report_fails: u64,
    code: u8,
    line: &[u8],
) -> Result<(), Fail> {
    asked(rt, alloc, WORDS, volume, report_fails, code, line)
}

/// A book of so many entries of the module D, each with this text of so many bytes.
fn book_of(alloc: Global, count: u16, text: &[u8], size: u32) -> Result<Bytes, Fail> {
    let mut book = Bytes::from_slice(alloc, b"LBOK\x01")?;
    put16(&mut book, count)?;
    for _ in 0..count {
        book.extend(b"\x01D")?;
        put32(&mut book, size)?;
        book.extend(text)?;
        book.push(0)?;
    }
    Ok(book)
}

/// Whether a file holds just these bytes, or isn't there where there are none.
fn holds(
    rt: &impl Abort,
    alloc: Global,
    volume: &mut RamVolume,
    name: &[u8],
    wanted: Option<&Bytes>,
) -> Result<(), Fail> {
    let Ok(found) = volume.read(alloc, &file_name(alloc, name)?) else {
        return Err(Fail::from("the volume fails"));
    };
    match (found, wanted) {
        (None, None) => {}
        (Some(found), Some(wanted)) => {
            assert!(rt; same_bytes(found.as_slice(), wanted.as_slice()));
        }
        _ => return Err(Fail::from("a file is there and shouldn't, or isn't")),
    }
    Ok(())
}

/// The files after a number of compilations that were done as far as the book, with the symbol file of a key, or none for 0.
fn left(
    rt: &impl Abort,
    alloc: Global,
    volume: &mut RamVolume,
    entries: u16,
    key: u32,
) -> Result<(), Fail> {
    let source = Bytes::from_slice(alloc, SOURCE)?;
    let book = book_of(alloc, entries, SOURCE, SIZE)?;
    let mut symbols = Bytes::from_slice(alloc, b"LSYM\x01\x01D")?;
    put32(&mut symbols, key)?;
    symbols.extend(SYMBOLS)?;
    holds(rt, alloc, volume, b"D.DEF", Some(&source))?;
    let book = if entries == 0 { None } else { Some(&book) };
    holds(rt, alloc, volume, BOOK, book)?;
    let symbols = if key == 0 { None } else { Some(&symbols) };
    holds(rt, alloc, volume, b"D.SYM", symbols)
}

/// The calls of the volume and of the report that fail, the status and the line; how many entries the book then has, and
/// the key of the symbol file, 0 where there is none.
const CALLS: &[([u64; 2], u8, &[u8], u16, u32)] = &[
    ([0, 0], 0, b"D key 1\n", 1, 1),
    ([1, 0], 8, NO_VOLUME, 0, 0),
    ([2, 0], 8, NO_VOLUME, 0, 0),
    ([3, 0], 8, NO_VOLUME, 0, 0),
    ([4, 0], 8, NO_VOLUME, 1, 0),
    ([4, 1], 8, b"", 1, 0),
    ([0, 1], 12, b"", 1, 1),
];

/// A compilation where calls fail, and the next one, which gets the next key whatever the first has left.
fn check_calls(
    rt: &impl Abort,
    alloc: Global,
    fails: [u64; 2],
    code: u8,
    line: &[u8],
    entries: u16,
    key: u32,
) -> Result<(), Fail> {
    let [volume_fails, report_fails] = fails;
    let mut volume = volume_of(alloc, None, volume_fails)?;
    compile(rt, alloc, &mut volume, report_fails, code, line)?;
    left(rt, alloc, &mut volume, entries, key)?;
    if entries == 0 {
        compile(rt, alloc, &mut volume, 0, 0, b"D key 1\n")?;
        left(rt, alloc, &mut volume, 1, 1)
    } else {
        compile(rt, alloc, &mut volume, 0, 0, b"D key 2\n")?;
        left(rt, alloc, &mut volume, 2, 2)
    }
}

/// Each call fails in its turn.
#[test]
fn failing_calls(rt: HostRuntime) -> Result<(), Fail> {
    let alloc = rt.alloc();
    for (fails, code, line, entries, key) in CALLS {
        check_calls(&rt, alloc, *fails, *code, line, *entries, *key)?;
    }
    Ok(())
}

/// A book that refuses, and the line of that.
fn refused(rt: &impl Abort, alloc: Global, book: Bytes, line: &[u8]) -> Result<(), Fail> {
    let before = Bytes::from_slice(alloc, book.as_slice())?;
    let mut volume = volume_of(alloc, Some(book), 0)?;
    compile(rt, alloc, &mut volume, 0, 3, line)?;
    holds(rt, alloc, &mut volume, BOOK, Some(&before))?;
    holds(rt, alloc, &mut volume, b"D.SYM", None)
}

/// A book that isn't of its format, and one that is full.
#[test]
fn books_that_refuse(rt: HostRuntime) -> Result<(), Fail> {
    let alloc = rt.alloc();
    let line = b"D.DEF:1:19: 78 SymDamaged LILITH\n";
    refused(&rt, alloc, Bytes::new(alloc), line)?;
    let mut longer = book_of(alloc, 1, SOURCE, SIZE)?;
    longer.push(0)?;
    refused(&rt, alloc, longer, line)?;
    let full = book_of(alloc, 65_535, b"", 0)?;
    refused(&rt, alloc, full, b"D.DEF:1:19: 79 BookFull\n")
}

/// A volume with two definitions, of which the second imports the first, that fails at a call, or at none for 0.
fn two_definitions(alloc: Global, fails: u64) -> Result<RamVolume, Fail> {
    let mut files = Vec::new(alloc);
    files.push((
        file_name(alloc, b"A.DEF")?,
        Bytes::from_slice(alloc, b"DEFINITION MODULE A; END A.")?,
    ))?;
    files.push((
        file_name(alloc, b"B.DEF")?,
        Bytes::from_slice(alloc, b"DEFINITION MODULE B; IMPORT A; END B.")?,
    ))?;
    Ok(RamVolume::new(alloc, files, numbers(alloc, fails)?)?)
}

/// The symbol file of an import can't be read: nothing is written, and the next compilation finds all as it was. The volume is
/// called four times for the first definition, and then for the source, the book, and the symbol file of the import.
#[test]
fn failing_import(rt: HostRuntime) -> Result<(), Fail> {
    let alloc = rt.alloc();
    let first: &[&[u8]] = &[b"compile", b"A.DEF"];
    let second: &[&[u8]] = &[b"compile", b"B.DEF"];
    let mut volume = two_definitions(alloc, 7)?;
    asked(
        &rt,
        alloc,
        second,
        &mut volume,
        0,
        3,
        b"B.DEF:1:29: 70 NoSymbol\n",
    )?;
    let mut volume = two_definitions(alloc, 7)?;
    asked(&rt, alloc, first, &mut volume, 0, 0, b"A key 1\n")?;
    asked(&rt, alloc, second, &mut volume, 0, 8, NO_VOLUME)?;
    holds(&rt, alloc, &mut volume, b"B.SYM", None)?;
    asked(&rt, alloc, second, &mut volume, 0, 0, b"B key 2\n")
}
