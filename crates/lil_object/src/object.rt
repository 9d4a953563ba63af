use lil_base::{Bytes, Items, Key, Name, Text};
use lil_format::Wanted;

/// What an object was compiled from.
#[derive(Clone, Copy, Debug, PartialEq, Eq)]
pub enum ObjectKind {
    Program,
    Implementation,
}

/// A procedure: the place in the code where it begins, and its name. The first is the module's body, which has no name.
#[derive(Drop)]
pub struct ProcedureEntry {
    pub entry: u16,
    pub name: Option<Name>,
}

/// A string of the module: the offset of its first word in the data frame, from 0, and its characters, each of which takes a
/// word.
#[derive(Drop)]
pub struct DataString {
    pub offset: u16,
    pub text: Text,
}

/// Which module an object is of, and what it needs. The key is that of its definition, and 0 for a program; there are at most
/// 60 imports, and at most 32,000 words of data.
#[derive(Drop)]
pub struct Head {
    pub kind: ObjectKind,
    pub name: Name,
    pub key: Key,
    pub imports: Items<Wanted>,
    pub data_words: u16,
}

/// What an object has behind its head: 1 to 251 procedures, 1 to 32,767 bytes of code, the strings, and at most 262,144 bytes of
/// source text. A fixup is a place of the code with an import's number, from 1, or with 0 for the module itself.
#[derive(Drop)]
pub struct Contents {
    pub procedures: Items<ProcedureEntry>,
    pub code: Bytes,
    pub fixups: Items<u16>,
    pub strings: Items<DataString>,
    pub text: Text,
}

/// What an object file says.
#[derive(Drop)]
pub struct Object {
    pub head: Head,
    pub contents: Contents,
}
