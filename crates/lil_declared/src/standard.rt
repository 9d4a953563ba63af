/// A procedure of a resident module.
#[derive(Clone, Copy, PartialEq, Eq)]
pub enum Resident {
    Read,
    Write,
    WriteString,
    WriteLn,
    WriteCard,
    WriteInt,
    WriteOct,
    WriteHex,
    Allocate,
    Deallocate,
    NewProcess,
    Transfer,
    Lookup,
    CloseFile,
    Reset,
    ReadChar,
    WriteChar,
    Call,
    OpenChannel,
    PutWord,
    GetWord,
    CloseChannel,
}

/// A standard procedure, or a standard function (Programming in Modula-2, Standard procedures).
#[derive(Clone, Copy, PartialEq, Eq)]
pub enum Standard {
    Abs,
    Cap,
    Chr,
    High,
    Max,
    Min,
    Odd,
    Ord,
    Val,
    Dec,
    Excl,
    Halt,
    Inc,
    Incl,
    New,
    Dispose,
}
