use super::*;
use lil_base::{Bytes, FormatStop, Items, Key, Name};
use std::test::*;

/// A file with a type of each form and a name of each class.
const SAMPLE: [u8; 159] = [
    // the head: M with key 2
    76, 83, 89, 77, 1, 1, 77, 0, 0, 0, 2,
    // rests: InOut and B
    2, 5, 73, 110, 79, 117, 116, 0, 0, 0, 0, 1, 66, 0, 0, 0, 7,
    // eight types
    0, 8,
    // 16, of B: (red, blue)
    2, 0, 20, 1, 0, 2, 3, 114, 101, 100, 4, 98, 108, 117, 101,
    // 17: INTEGER [-1 .. 5]
    0, 0, 17, 2, 0, 0, 255, 255, 0, 5,
    // 18: ARRAY OF CHAR over 17
    0, 0, 18, 3, 0, 17, 0, 3,
    // 19: RECORD x: CARDINAL; y: 18 END
    0, 0, 19, 4, 0, 2, 1, 120, 0, 1, 1, 121, 0, 18,
    // 20: SET OF 16
    0, 0, 20, 5, 0, 16,
    // 21: POINTER TO 23
    0, 0, 21, 6, 0, 23,
    // 22: PROCEDURE (VAR ARRAY OF CHAR, 17): 16
    0, 0, 22, 7, 2, 3, 0, 3, 0, 0, 17, 0, 16,
    // 23: opaque
    0, 0, 23, 8,
    // six names
    0, 6,
    // low, a whole constant: -3
    1, 3, 108, 111, 119, 1, 255, 255, 255, 253,
    // hue, a constant of 16: 1
    0, 3, 104, 117, 101, 2, 0, 16, 0, 1,
    // say, a string: Hi
    1, 3, 115, 97, 121, 3, 0, 2, 72, 105,
    // T, a type: 19
    1, 1, 84, 4, 0, 19,
    // v, a variable of 21 at 4
    1, 1, 118, 5, 0, 21, 0, 4,
    // P, procedure 1, of 22
    1, 1, 80, 6, 0, 22, 1,
];

/// A byte of the sample, another in its place, and the offset of the fault then.
const FAULTS: [(usize, u8, u32); 31] = [
    // other letters
    (0, 88, 0),
    // another version
    (4, 2, 4),
    // a name of no byte
    (5, 0, 5),
    // a digit as a name
    (6, 48, 6),
    // the key 0
    (10, 0, 7),
    // a resident module with a key
    (21, 1, 18),
    // an origin above the rests
    (30, 3, 30),
    // a foreign type below 16
    (32, 15, 31),
    // a form 9
    (33, 9, 33),
    // no name of an enumeration
    (35, 0, 34),
    // an own type with another number
    (47, 16, 46),
    // a base that isn't ordinal
    (50, 4, 49),
    // -1 as an upper bound above 0
    (53, 255, 53),
    // an index that isn't ordinal
    (60, 5, 59),
    // an element of number 8
    (62, 8, 61),
    // a field of a type to come
    (72, 19, 71),
    // a field twice
    (74, 120, 74),
    // a set of -1 to 5
    (82, 17, 81),
    // a target behind the types
    (88, 24, 87),
    // flags 4
    (94, 4, 94),
    // a parameter of number 15
    (96, 15, 95),
    // a result to come
    (101, 22, 100),
    // shown 2
    (108, 2, 108),
    // class 0
    (113, 0, 113),
    // a whole constant below -32768
    (115, 254, 114),
    // a scalar constant of a pointer type
    (125, 21, 124),
    // a name of no type
    (143, 24, 142),
    // a variable of number 9
    (149, 9, 148),
    // a name twice
    (154, 118, 154),
    // a procedure of a pointer type
    (157, 21, 156),
    // procedure 0
    (158, 0, 158),
];

fn stops(rt: HostRuntime, bytes: &[u8], at: u32) -> Result<bool, Fail> {
    let bytes = Bytes::from_slice(rt.alloc(), bytes).ok().ok_or("memory")?;
    Ok(match read_sym(rt.alloc(), &bytes) {
        Err(FormatStop::Fault { offset }) => offset == at,
        _ => false,
    })
}

#[test]
fn there_and_back(rt: HostRuntime) -> Result<(), Fail> {
    let bytes = Bytes::from_slice(rt.alloc(), &SAMPLE).ok().ok_or("memory")?;
    let file = read_sym(rt.alloc(), &bytes)
        .ok()
        .ok_or("these are a symbol file")?;
    assert_eq!(rt; file.key.0, 2);
    assert_eq!(rt; file.rests.len(), 2);
    assert_eq!(rt; file.types.len(), 8);
    assert_eq!(rt; file.names.len(), 6);
    let again = write_sym(rt.alloc(), &file).ok().ok_or("memory")?;
    assert_eq!(rt; again.as_slice(), SAMPLE.as_slice());
    Ok(())
}

#[test]
fn signed(rt: HostRuntime) -> Result<(), Fail> {
    let bytes = Bytes::from_slice(rt.alloc(), &SAMPLE).ok().ok_or("memory")?;
    let file = read_sym(rt.alloc(), &bytes)
        .ok()
        .ok_or("these are a symbol file")?;
    let bounds = match file.types.get(1).map(|t| &t.form) {
        Some(Form::Subrange { lower, upper, .. }) => (*lower, *upper),
        _ => (0, 0),
    };
    assert!(rt; bounds == (-1, 5));
    let value = match file.names.get(0).map(|n| &n.class) {
        Some(Class::Whole { value }) => *value,
        _ => 0,
    };
    assert!(rt; value == -3);
    Ok(())
}

#[test]
fn each_rule(rt: HostRuntime) -> Result<(), Fail> {
    for (at, byte, offset) in FAULTS {
        let mut other = SAMPLE;
        *other.get_mut(at).ok_or("no such byte")? = byte;
        assert!(rt; stops(rt, &other, offset)?);
    }
    Ok(())
}

#[test]
fn each_end(rt: HostRuntime) -> Result<(), Fail> {
    for size in 0..159u32 {
        let front = SAMPLE.get(..size as usize).ok_or("no such front")?;
        assert!(rt; stops(rt, front, size)?);
    }
    let mut more = Bytes::from_slice(rt.alloc(), &SAMPLE).ok().ok_or("memory")?;
    more.push(0).ok().ok_or("memory")?;
    assert!(rt; stops(rt, more.as_slice(), 159)?);
    Ok(())
}

/// LSYM, 1, A with key 1, and two rests of one name.
#[test]
fn a_rest_twice(rt: HostRuntime) -> Result<(), Fail> {
    let bytes = [
        76, 83, 89, 77, 1, 1, 65, 0, 0, 0, 1, 2, 1, 66, 0, 0, 0, 7, 1, 66, 0, 0, 0, 7, 0, 0, 0, 0,
    ];
    assert!(rt; stops(rt, &bytes, 19)?);
    Ok(())
}

/// A file of one type, which is opaque and has this number.
fn of_one(rt: HostRuntime, number: TypeNumber) -> Result<SymbolFile, Fail> {
    let name = Name::of_slice(rt.alloc(), b"A").ok().ok_or("memory")?;
    let mut types = Items::new(rt.alloc());
    let one = SymType {
        origin: 0,
        number,
        form: Form::Opaque,
    };
    types.push(one).ok().ok_or("memory")?;
    Ok(SymbolFile {
        name: name.ok_or("this is a name")?,
        key: Key(1),
        rests: Items::new(rt.alloc()),
        types,
        names: Items::new(rt.alloc()),
    })
}

fn is_spelled(rt: HostRuntime, file: &SymbolFile) -> Result<bool, Fail> {
    Ok(has_spelling(rt.alloc(), file).ok().ok_or("memory")?)
}

#[test]
fn spelled_or_not(rt: HostRuntime) -> Result<(), Fail> {
    let bytes = Bytes::from_slice(rt.alloc(), &SAMPLE).ok().ok_or("memory")?;
    let file = read_sym(rt.alloc(), &bytes)
        .ok()
        .ok_or("these are a symbol file")?;
    assert!(rt; is_spelled(rt, &file)?);
    assert!(rt; is_spelled(rt, &of_one(rt, 16)?)?);
    // another number than that of its place, and one that is 16 in two bytes
    assert!(rt; !is_spelled(rt, &of_one(rt, 17)?)?);
    assert!(rt; !is_spelled(rt, &of_one(rt, 65552)?)?);
    Ok(())
}
