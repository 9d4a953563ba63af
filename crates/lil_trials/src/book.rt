use lil_base::{Bytes, FormatStop, Items, Key, Memory, Name, Text, same_bytes};
use lil_book::{Book, BookStop, Entry, read_book, write_book};
use std::alloc::Global;
use std::test::Fail;

/// The book of `docs/FILES.md`.
const EXAMPLE: [u8; 91] = [
    0x4C, 0x42, 0x4F, 0x4B, 0x01, 0x00, 0x02, 0x01, 0x41, 0x00, 0x00, 0x00, 0x1B, 0x44, 0x45, 0x46,
    0x49, 0x4E, 0x49, 0x54, 0x49, 0x4F, 0x4E, 0x20, 0x4D, 0x4F, 0x44, 0x55, 0x4C, 0x45, 0x20, 0x41,
    0x3B, 0x20, 0x45, 0x4E, 0x44, 0x20, 0x41, 0x2E, 0x00, 0x01, 0x42, 0x00, 0x00, 0x00, 0x25, 0x44,
    0x45, 0x46, 0x49, 0x4E, 0x49, 0x54, 0x49, 0x4F, 0x4E, 0x20, 0x4D, 0x4F, 0x44, 0x55, 0x4C, 0x45,
    0x20, 0x42, 0x3B, 0x20, 0x49, 0x4D, 0x50, 0x4F, 0x52, 0x54, 0x20, 0x41, 0x3B, 0x20, 0x45, 0x4E,
    0x44, 0x20, 0x42, 0x2E, 0x01, 0x01, 0x41, 0x00, 0x00, 0x00, 0x01,
];

/// Whether the definition with this key has this name, this text, and one rest or none: A with key 1.
fn has(book: &Book, key: u32, name: &[u8], text: &[u8], on_a: bool) -> bool {
    let Some(entry) = book.entry(Key(key)) else {
        return false;
    };
    let rests = match entry.rests.as_slice() {
        [] => !on_a,
        [rest] => on_a && same_bytes(rest.name.as_slice(), b"A") && rest.key == Key(1),
        _ => false,
    };
    rests && same_bytes(entry.name.as_slice(), name) && same_bytes(entry.text.as_slice(), text)
}

#[test]
fn both_ways(rt: HostRuntime) -> Result<(), Fail> {
    let bytes = Bytes::from_slice(rt.alloc(), &EXAMPLE)?;
    let book = read_book(rt.alloc(), &bytes)?;
    assert!(rt; book.entries.len() == 2);
    assert!(rt; has(&book, 1, b"A", b"DEFINITION MODULE A; END A.", false));
    assert!(rt;
        has(
            &book,
            2,
            b"B",
            b"DEFINITION MODULE B; IMPORT A; END B.",
            true
        )
    );
    assert!(rt; book.entry(Key(0)).is_none());
    assert!(rt; book.entry(Key(3)).is_none());
    let again = write_book(rt.alloc(), &book)?;
    assert!(rt; same_bytes(again.as_slice(), &EXAMPLE));
    Ok(())
}

/// A place of the example, the byte that stands there instead, and the offset of the fault.
const DAMAGED: &[(usize, u8, u32)] = &[
    (0, 0x4D, 0),
    (3, 0x4C, 0),
    (4, 0x02, 4),
    (6, 0x01, 41),
    (6, 0x03, 91),
    (7, 0x00, 7),
    (7, 0x41, 7),
    (8, 0x31, 8),
    (9, 0x01, 91),
    (84, 0x02, 91),
    (85, 0x02, 86),
    (86, 0x5F, 86),
];

fn fault_at(alloc: Global, bytes: &[u8]) -> Result<Option<u32>, Memory> {
    let bytes = Bytes::from_slice(alloc, bytes)?;
    Ok(match read_book(alloc, &bytes) {
        Err(FormatStop::Fault { offset }) => Some(offset),
        _ => None,
    })
}

#[test]
fn damaged(rt: HostRuntime) -> Result<(), Fail> {
    for (place, byte, offset) in DAMAGED {
        let mut bytes = EXAMPLE;
        if let Some(there) = bytes.get_mut(*place) {
            *there = *byte;
        }
        assert!(rt; fault_at(rt.alloc(), &bytes)? == Some(*offset));
    }
    for size in 0..91 {
        assert!(rt; fault_at(rt.alloc(), &EXAMPLE[..size])? == Some(size as u32));
    }
    let mut longer = Bytes::from_slice(rt.alloc(), &EXAMPLE)?;
    longer.push(0)?;
    assert!(rt; fault_at(rt.alloc(), longer.as_slice())? == Some(91));
    Ok(())
}

fn plain(alloc: Global) -> Result<Option<Entry>, Memory> {
    let Some(name) = Name::of_slice(alloc, b"A")? else {
        return Ok(None);
    };
    Ok(Some(Entry {
        name,
        text: Text::new(alloc),
        rests: Items::new(alloc),
    }))
}

#[test]
fn full(rt: HostRuntime) -> Result<(), Fail> {
    let alloc = rt.alloc();
    let mut book = Book {
        entries: Items::new(alloc),
    };
    for key in 1..65_536_u32 {
        let entry = plain(alloc)?.ok_or("no name")?;
        assert!(rt; book.append(entry) == Ok(Key(key)));
    }
    let entry = plain(alloc)?.ok_or("no name")?;
    assert!(rt; book.append(entry) == Err(BookStop::Full));
    assert!(rt; book.entries.len() == 65_535);
    assert!(rt; has(&book, 65_535, b"A", b"", false));
    assert!(rt; book.entry(Key(65_536)).is_none());
    Ok(())
}
