use lil_base::{Items, Key, Name, Text};
use lil_format::Wanted;

/// The number of a type: 0 to 7 are the standard ones, those of a file begin at 16. A file has two bytes for it.
pub type TypeNumber = u32;

/// A field of a record.
#[derive(Drop)]
pub struct Field {
    pub name: Name,
    pub sort: TypeNumber,
}

/// A parameter of a procedure type.
#[derive(Clone, Copy)]
pub struct Parameter {
    pub by_place: bool,
    pub open_array: bool,
    pub sort: TypeNumber,
}

/// How a type is built. Its parts have smaller numbers than it; a pointer's target may have any of the file. A subrange has
/// bounds below 0 only where its last base is INTEGER.
#[derive(Drop)]
pub enum Form {
    Enumeration {
        names: Items<Name>,
    },
    Subrange {
        base: TypeNumber,
        lower: i32,
        upper: i32,
    },
    Array {
        index: TypeNumber,
        element: TypeNumber,
    },
    Record {
        fields: Items<Field>,
    },
    Set {
        base: TypeNumber,
    },
    Pointer {
        target: TypeNumber,
    },
    Procedure {
        parameters: Items<Parameter>,
        answer: Option<TypeNumber>,
    },
    Opaque,
}

/// A type: the module to which it belongs, 0 for the file's own and k for the k-th of the rests, its number there, and its
/// form.
#[derive(Drop)]
pub struct SymType {
    pub origin: usize,
    pub number: TypeNumber,
    pub form: Form,
}

/// What a name of the definition stands for.
#[derive(Drop)]
pub enum Class {
    /// A whole constant, -32768 to 65535.
    Whole { value: i32 },
    /// A constant of an ordinal or set type.
    Scalar { sort: TypeNumber, word: u16 },
    /// A constant string.
    Chars { text: Text },
    /// A type.
    Sort { sort: TypeNumber },
    /// A variable, with its place in the module's data.
    Variable { sort: TypeNumber, offset: u32 },
    /// A procedure, with its number in the module, from 1.
    Procedure { sort: TypeNumber, number: u32 },
}

/// A name that the definition declares, and whether it exports it.
#[derive(Drop)]
pub struct SymName {
    pub shown: bool,
    pub name: Name,
    pub class: Class,
}

/// What a symbol file says.
#[derive(Drop)]
pub struct SymbolFile {
    pub name: Name,
    pub key: Key,
    pub rests: Items<Wanted>,
    pub types: Items<SymType>,
    pub names: Items<SymName>,
}
