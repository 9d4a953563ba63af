ghost use Rattle.std.specs.Prelude.{◌≡◌};
ghost use Rattle.lil_base.specs.Faults.{fault, fault_about, fault_number, fault_name, code_too_long, key_conflict};

use crate::Name;
use thiserror::Error;

/// A place in a text: line and column from 1, in bytes, and the offset from 0.
#[derive(Clone, Copy, PartialEq, Eq)]
pub struct Place {
    pub line: u32,
    pub column: u32,
    pub offset: u32,
}

/// The number of a definition in its volume's book, from 1; 0 for programs and resident modules.
#[derive(Clone, Copy, PartialEq, Eq)]
pub struct Key(pub u32);

/// A fault of a source text, with zeros where its number has no values.
#[derive(Drop)]
pub struct SourceFault {
    pub number: u8,
    pub place: Place,
    pub about: Option<Name>,
    pub first: u32,
    pub second: u32,
}

/// The faults of source texts that are told of a place alone. `docs/LANGUAGE.md` has their table.
#[derive(Clone, Copy, PartialEq, Eq)]
pub enum FaultKind {
    /// A byte begins no token, or may not stand in a string.
    BadChar = 1,
    /// A comment isn't closed.
    OpenComment = 2,
    /// A string isn't closed on its line.
    OpenString = 3,
    /// A run of digits and letters is no number.
    BadNumber = 4,
    /// A number is above 65535, or a character's code above 377C.
    NumberTooLarge = 5,
    /// A name has more than 64 characters.
    NameTooLong = 6,
    /// The tokens go on with nothing that may stand there.
    Syntax = 10,
    /// The name behind END is another than that of what ends there.
    EndName = 11,
    /// A part is nested too deep.
    TooNested = 12,
    /// A name isn't declared where it is looked for.
    Unknown = 20,
    /// A name is bound a second time in one block, list of fields or list of parameters.
    Twice = 21,
    /// A definition declares the name, but doesn't export it.
    NotExported = 22,
    /// A name is of another kind than its place asks for.
    WrongKind = 24,
    /// EXIT stands in no LOOP.
    ExitOutside = 25,
    /// RETURN has no value in a function, or has one elsewhere.
    ReturnKind = 26,
    /// A FOR can't count with this variable.
    ForVariable = 27,
    /// An operator or standard procedure doesn't take operands of these types.
    Operands = 30,
    /// A value can't be assigned to what it is meant for.
    Assign = 31,
    /// A call has more or fewer arguments than there are parameters.
    ArgCount = 32,
    /// An argument is no variable of the parameter's type.
    VarArgument = 33,
    /// What is called is no procedure, or is of the other kind of procedure.
    NotCallable = 34,
    /// What has an index is no array.
    NotArray = 35,
    /// What has a field, or stands behind WITH, is no record.
    NotRecord = 36,
    /// What is followed, or is given to NEW or DISPOSE, is no pointer.
    NotPointer = 37,
    /// The record has no field of this name.
    NoField = 38,
    /// The base of a set isn't ordinal, or has values outside 0 to 15.
    SetBase = 39,
    /// The type of a result is an array or a record.
    ResultType = 40,
    /// A nested, standard or resident procedure stands as a value.
    ProcValue = 41,
    /// A label's value stands before in the same CASE.
    LabelTwice = 42,
    /// An opaque type of another module is followed, or given to NEW or DISPOSE.
    Opaque = 43,
    /// A constant lies outside the range that it meets, or a step is zero.
    ConstRange = 50,
    /// An expression that must be constant isn't.
    NotConst = 51,
    /// A constant result lies outside -32768 to 65535, or a constant divisor is zero.
    ConstArith = 52,
    /// The lower bound of a range is greater than its upper bound.
    EmptyRange = 53,
    /// An expression takes more than 12 words of the expression stack.
    ExprDeep = 60,
    /// A type, or a unit's data, has more than 32,000 words.
    DataTooLong = 61,
    /// The module has a 251st procedure.
    TooManyProcs = 62,
    /// A unit imports a 61st module that isn't resident.
    TooManyImports = 63,
    /// The text has more than 262,144 bytes.
    TextTooLong = 65,
    /// A module that is imported has no symbol file.
    NoSymbol = 70,
    /// A module is met with two keys.
    KeyConflict = 71,
    /// A unit imports itself, or a definition rests on its own name.
    SelfImport = 72,
    /// An implementation has no symbol file of its own.
    NoDefinition = 73,
    /// A heading differs from that of the definition, or an opaque type is no pointer.
    NotConform = 74,
    /// A procedure or opaque type of the definition isn't declared.
    NotImplemented = 75,
    /// The unit has the name of a resident module.
    ReservedModule = 76,
    /// The unit's name isn't that of its file.
    FileName = 77,
    /// A symbol file that is read, or the book, isn't of its format.
    SymDamaged = 78,
    /// The book of the volume has no room for another definition.
    BookFull = 79,
    /// The unit is of another kind than its file or its command asks for.
    UnitKind = 80,
    /// The text has a form that isn't built.
    NotBuilt = 90,
}

impl FaultKind {
    /// The number under which the fault is told.
    pub fn number(self) -> u8
        ensures { result ≡ fault_number self }
    {
        self as u8
    }
}

impl SourceFault {
    /// The fault of a kind at a place, about no name and with no values.
    pub fn at(kind: FaultKind, place: Place) -> SourceFault
        ensures { result ≡ fault (fault_number kind) place }
    {
        SourceFault {
            number: kind.number(),
            place,
            about: None,
            first: 0,
            second: 0,
        }
    }

    /// The fault of a kind at a place, about a module or another file of the volume.
    pub fn about(kind: FaultKind, place: Place, name: Name) -> SourceFault
        ensures { result ≡ fault_about (fault_number kind) place name }
    {
        SourceFault {
            number: kind.number(),
            place,
            about: Some(name),
            first: 0,
            second: 0,
        }
    }

    /// Fault 71, at a place, about a module that is met with two keys, in this order.
    pub fn key_conflict(place: Place, name: Name, first: Key, second: Key) -> SourceFault
        ensures { result ≡ key_conflict place name first.0 second.0 }
    {
        SourceFault {
            number: 71,
            place,
            about: Some(name),
            first: first.0,
            second: second.0,
        }
    }

    /// Fault 64, at the name of a unit whose code has so many bytes.
    pub fn code_too_long(place: Place, bytes: u32) -> SourceFault
        ensures { result ≡ code_too_long place bytes }
    {
        SourceFault {
            number: 64,
            place,
            about: None,
            first: bytes,
            second: 0,
        }
    }

    /// The name under which the fault is told; none for a number of no fault.
    pub fn name(&self) -> &'static [u8]
        ensures { result.now ≡ fault_name self.now.number }
    {
        match self.number {
            1 => b"BadChar",
            2 => b"OpenComment",
            3 => b"OpenString",
            4 => b"BadNumber",
            5 => b"NumberTooLarge",
            6 => b"NameTooLong",
            10 => b"Syntax",
            11 => b"EndName",
            12 => b"TooNested",
            20 => b"Unknown",
            21 => b"Twice",
            22 => b"NotExported",
            24 => b"WrongKind",
            25 => b"ExitOutside",
            26 => b"ReturnKind",
            27 => b"ForVariable",
            30 => b"Operands",
            31 => b"Assign",
            32 => b"ArgCount",
            33 => b"VarArgument",
            34 => b"NotCallable",
            35 => b"NotArray",
            36 => b"NotRecord",
            37 => b"NotPointer",
            38 => b"NoField",
            39 => b"SetBase",
            40 => b"ResultType",
            41 => b"ProcValue",
            42 => b"LabelTwice",
            43 => b"Opaque",
            50 => b"ConstRange",
            51 => b"NotConst",
            52 => b"ConstArith",
            53 => b"EmptyRange",
            60 => b"ExprDeep",
            61 => b"DataTooLong",
            62 => b"TooManyProcs",
            63 => b"TooManyImports",
            64 => b"CodeTooLong",
            65 => b"TextTooLong",
            70 => b"NoSymbol",
            71 => b"KeyConflict",
            72 => b"SelfImport",
            73 => b"NoDefinition",
            74 => b"NotConform",
            75 => b"NotImplemented",
            76 => b"ReservedModule",
            77 => b"FileName",
            78 => b"SymDamaged",
            79 => b"BookFull",
            80 => b"UnitKind",
            90 => b"NotBuilt",
            _ => b"",
        }
    }
}

/// Why an operation on whole numbers has no result.
#[derive(Clone, Copy, Debug, PartialEq, Eq, Error)]
pub enum ArithFault {
    /// The result leaves its type.
    #[error("the result leaves its type")]
    Overflow,
    /// The divisor is zero.
    #[error("the divisor is zero")]
    DivZero,
}

/// The traps of the machine, in the order of their numbers from 1.
#[derive(Clone, Copy, PartialEq, Eq)]
pub enum TrapKind {
    /// A value lies outside the range that it meets.
    Range,
    /// A result of whole numbers leaves its type.
    Overflow,
    /// A divisor is 0.
    Divisor,
    /// A pointer that points nowhere is followed.
    Nil,
    /// A procedure variable that has no procedure is called.
    NoProcedure,
    /// A transfer goes to no coroutine.
    NoProcess,
    /// A CASE has no arm for its value.
    Case,
    /// A function ends without a value.
    Function,
    /// The program called HALT.
    Halted,
    /// A workspace is too small for a coroutine.
    Workspace,
    /// The procedure of a coroutine ends.
    CoroutineEnd,
}

/// A trap, and where it happened. A module's body has no procedure.
#[derive(Drop)]
pub struct TrapAt {
    pub kind: TrapKind,
    pub module: Name,
    pub procedure: Option<Name>,
}

/// What was used up.
#[derive(Clone, Copy, PartialEq, Eq)]
pub enum LimitKind {
    /// The room of a stack for activations.
    Stack,
    /// The room of the store for objects and workspaces.
    Store,
    /// The code store.
    Code,
    /// The room of the store for the data of modules.
    Words,
}

/// A place in a module's code, in bytes.
#[derive(Drop)]
pub struct CodePlace {
    pub module: Name,
    pub place: u16,
}

/// Why a program was not loaded.
#[derive(Drop)]
pub enum LoadRefusal {
    /// A module has no object file.
    Missing(Name),
    /// A module's object file isn't of its format, from this offset on.
    Damaged(Name, u32),
    /// A module was translated with another key than the one that is loaded.
    KeyDiffers { name: Name, wanted: u32, found: u32 },
    /// The table of modules is full.
    TableFull,
    /// The code store has no room for so many bytes.
    CodeFull(u32),
    /// The store has no room for so many words of data.
    DataFull(u32),
    /// A module is no program.
    NotProgram(Name),
}

/// Why bytes are no file of a format.
#[derive(Clone, Copy, Debug, PartialEq, Eq, Error)]
pub enum FormatStop {
    /// No file goes on with the byte at this offset.
    #[error("no file of the format from byte {offset} on")]
    Fault { offset: u32 },
    /// Want of memory.
    #[error("memory")]
    Memory,
}
