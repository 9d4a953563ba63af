use lil_base::{Name, Place};
use lil_declared::{Mode, Resident, Standard};
use lil_types::TypeId;

/// A text between two marks: how many characters it has, and its first one, 0 where it has none.
#[derive(Clone, Copy)]
pub struct Chars {
    pub length: usize,
    pub first: u8,
}

/// What is known of an operand: a whole constant, which has no type; a constant of an ordinal or set type, by its word;
/// a text; NIL; a value of a type; an open array as a whole, by the type of its elements; or a procedure itself, by its
/// procedure type.
#[derive(Clone, Copy)]
pub enum Kind {
    Whole(i32),
    Scalar(TypeId, u16),
    Chars(Chars),
    Nil,
    Of(TypeId),
    Open(TypeId),
    Routine(TypeId),
}

/// A variable: its number among those of the module or of its procedure, the level of the block that declares it, 1 for that
/// of the module, and its type, or that of its elements where it is an open array.
#[derive(Clone, Copy)]
pub struct Variable {
    pub number: usize,
    pub level: usize,
    pub sort: TypeId,
    pub mode: Mode,
}

/// A procedure: its number in the order of headings, the number of its block, the level of the block that declares
/// it, and its procedure type.
#[derive(Clone, Copy)]
pub struct Routine {
    pub number: usize,
    pub block: usize,
    pub level: usize,
    pub sort: TypeId,
}

/// A variable of another module: the number of the block of that module's names, where it lies among the module's data, in words,
/// and its type.
#[derive(Clone, Copy)]
pub struct ExternalVariable {
    pub module: usize,
    pub offset: u32,
    pub sort: TypeId,
}

/// A procedure of another module that isn't resident: the number of the block of that module's names, its number there, from 1,
/// and its procedure type.
#[derive(Clone, Copy)]
pub struct ExternalProcedure {
    pub module: usize,
    pub number: u32,
    pub sort: TypeId,
}

/// What a name stands for. The constant of a text has the text's number. A resident procedure has its procedure type, and
/// a module the number of the block of its names. A name that a definition declares and doesn't export is
/// hidden, and one whose declaration has a fault is broken.
#[derive(Clone, Copy)]
pub enum Thing {
    Constant(Kind),
    Named(usize, Chars),
    Nil,
    Variable(Variable),
    Type(TypeId),
    Procedure(Routine),
    ExternalVariable(ExternalVariable),
    ExternalProcedure(ExternalProcedure),
    Resident(Resident, TypeId),
    Standard(Standard),
    Module(usize),
    Hidden,
    Broken,
}

/// What a name of a block stands for, and where it is bound.
#[derive(Clone, Copy)]
pub struct Entry {
    pub thing: Thing,
    pub place: Place,
}

/// A name of a block, and its entry there.
#[derive(Drop)]
pub struct Bound {
    pub name: Name,
    pub entry: Entry,
}
