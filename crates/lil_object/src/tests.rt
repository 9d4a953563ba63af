use super::*;
use lil_base::{Bytes, FormatStop};
use std::test::*;

/// An implementation that has something of each part.
const SAMPLE: [u8; 95] = [
    // the head: an implementation of Flag with key 2
    76, 79, 66, 74, 1, 2, 4, 70, 108, 97, 103, 0, 0, 0, 2,
    // imports: A and Bc
    2, 1, 65, 0, 0, 0, 1, 2, 66, 99, 0, 0, 1, 44,
    // five data words
    0, 5,
    // procedures: the body at 3, Paint at 0 and Q at 11
    3, 0, 3, 0, 0, 0, 5, 80, 97, 105, 110, 116, 0, 11, 1, 81,
    // code: LIW with a number of the module itself, LEW with one of Bc, CLX with one of A, RTN
    0, 12, 1, 0, 1, 40, 2, 0, 4, 102, 1, 3, 0, 106,
    // fixups at 1, 4 and 8
    0, 3, 0, 1, 0, 4, 0, 8,
    // strings: Hi at 0, abc at 1, and an empty one at 4
    0, 3, 0, 0, 0, 2, 72, 105, 0, 1, 0, 3, 97, 98, 99, 0, 4, 0, 0,
    // the text: END
    0, 0, 0, 3, 69, 78, 68,
];

/// A byte of the sample, another in its place, and the offset of the fault then.
const FAULTS: [(usize, u8, u32); 33] = [
    // other letters
    (0, 88, 0),
    // another version
    (4, 2, 4),
    // a kind 3
    (5, 3, 5),
    // a program with a key
    (5, 1, 11),
    // a name of no byte
    (6, 0, 6),
    // a digit as a name
    (7, 48, 7),
    // an implementation without a key
    (14, 0, 11),
    // 61 imports
    (15, 61, 15),
    // a name of 65 bytes
    (16, 65, 16),
    // a hyphen in a name
    (24, 45, 23),
    // more than 32,000 data words
    (29, 126, 29),
    // no procedure
    (31, 0, 31),
    // 252 procedures
    (31, 252, 31),
    // a body with a name
    (34, 1, 34),
    // another procedure without one
    (37, 0, 37),
    // a digit as its name
    (38, 49, 38),
    // no code
    (48, 0, 47),
    // more than 32,767 bytes of code
    (47, 128, 47),
    // an entry behind the code
    (44, 12, 47),
    // code that ends where an entry is
    (48, 11, 47),
    // a module's number above those of the imports
    (53, 3, 65),
    // a fixup behind the code
    (64, 12, 63),
    // a fixup twice
    (66, 1, 65),
    // a fixup below the last one
    (68, 3, 67),
    // a fixup more than there are
    (62, 255, 69),
    // a string that ends behind the data
    (72, 4, 73),
    // one that is too long for it
    (74, 6, 73),
    // an empty one behind the data
    (85, 5, 86),
    // too few data words for the empty one
    (30, 4, 86),
    // a string more than there are
    (70, 4, 95),
    // more than 262,144 bytes of text
    (89, 4, 88),
    // a text that ends before the file
    (91, 2, 94),
    // one that ends behind it
    (91, 4, 95),
];

fn stops(rt: HostRuntime, bytes: &[u8], at: u32) -> Result<bool, Fail> {
    let bytes = Bytes::from_slice(rt.alloc(), bytes).ok().ok_or("memory")?;
    Ok(match read_object(rt.alloc(), &bytes) {
        Err(FormatStop::Fault { offset }) => offset == at,
        _ => false,
    })
}

#[test]
fn there_and_back(rt: HostRuntime) -> Result<(), Fail> {
    let bytes = Bytes::from_slice(rt.alloc(), &SAMPLE).ok().ok_or("memory")?;
    let object = read_object(rt.alloc(), &bytes)
        .ok()
        .ok_or("these are an object")?;
    let Object { head, contents } = &object;
    assert!(rt; head.kind == ObjectKind::Implementation);
    assert_eq!(rt; head.key.0, 2);
    assert_eq!(rt; head.imports.len(), 2);
    assert_eq!(rt; head.data_words, 5);
    assert_eq!(rt; contents.procedures.len(), 3);
    assert_eq!(rt; contents.code.len(), 12);
    assert_eq!(rt; contents.fixups.as_slice(), [1, 4, 8].as_slice());
    assert_eq!(rt; contents.strings.len(), 3);
    assert_eq!(rt; contents.text.as_slice(), b"END".as_slice());
    let again = write_object(rt.alloc(), &object).ok().ok_or("memory")?;
    assert_eq!(rt; again.as_slice(), SAMPLE.as_slice());
    Ok(())
}

#[test]
fn each_rule(rt: HostRuntime) -> Result<(), Fail> {
    for (at, byte, offset) in FAULTS {
        let mut other = SAMPLE;
        *other.get_mut(at).ok_or("no such byte")? = byte;
        assert!(rt; stops(rt, &other, offset)?, "with {byte} at {at}");
    }
    Ok(())
}

#[test]
fn each_end(rt: HostRuntime) -> Result<(), Fail> {
    for size in 0..95u32 {
        let front = SAMPLE.get(..size as usize).ok_or("no such front")?;
        assert!(rt; stops(rt, front, size)?, "of {size} bytes");
    }
    let mut more = Bytes::from_slice(rt.alloc(), &SAMPLE).ok().ok_or("memory")?;
    more.push(0).ok().ok_or("memory")?;
    assert!(rt; stops(rt, more.as_slice(), 95)?);
    Ok(())
}
