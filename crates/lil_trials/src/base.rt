use lil_base::{FileKind, FileName, Memory, Name, Text, same_bytes};
use std::alloc::Global;
use std::test::Fail;

/// Bytes, and whether they are a name and the name of a file.
const NAMES: &[(&[u8], bool, bool)] = &[
    (b"M2", true, true),
    (&[65; 64], true, true),
    (&[65; 65], false, true),
    (b"2M", false, false),
    (b"", false, false),
    (b"A.B", false, true),
    (b"A.B.", false, true),
    (&[65; 68], false, true),
    (&[65; 69], false, false),
    (b".A", false, false),
];

#[test]
fn names(rt: HostRuntime) -> Result<(), Fail> {
    let alloc = rt.alloc();
    for (bytes, is_name, is_file) in NAMES {
        let text = Text::from_slice(alloc, bytes)?;
        assert!(rt; Name::new(alloc, &text)?.is_some() == *is_name);
        assert!(rt; FileName::new(alloc, &text)?.is_some() == *is_file);
    }
    Ok(())
}

/// A copy of the name of the file that has a copy of this name.
fn file_of(alloc: Global, name: &Name) -> Result<FileName, Memory> {
    let name = name.copy(alloc)?;
    let file = name.file(alloc, FileKind::Module)?;
    file.copy(alloc)
}

fn pushed(alloc: Global) -> Result<Text, Memory> {
    let mut text = Text::new(alloc);
    text.push(77)?;
    text.push(50)?;
    Ok(text)
}

#[test]
fn copies(rt: HostRuntime) -> Result<(), Fail> {
    let alloc = rt.alloc();
    let text = pushed(alloc)?;
    let name = Name::new(alloc, &text)?.ok_or("no name")?;
    let file = file_of(alloc, &name)?;
    assert!(rt; same_bytes(file.text().as_slice(), b"M2.MOD"));
    Ok(())
}
