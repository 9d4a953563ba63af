use lil_base::{Items, Name, Place, Text};

/// A reserved word of the language (Programming in Modula-2, Syntax).
#[derive(Clone, Copy, Debug, PartialEq, Eq)]
pub enum Word {
    And,
    Array,
    Begin,
    By,
    Case,
    Const,
    Definition,
    Div,
    Do,
    Else,
    Elsif,
    End,
    Exit,
    Export,
    For,
    From,
    If,
    Implementation,
    Import,
    In,
    Loop,
    Mod,
    Module,
    Not,
    Of,
    Or,
    Pointer,
    Procedure,
    Qualified,
    Record,
    Repeat,
    Return,
    Set,
    Then,
    To,
    TypeWord,
    Until,
    Var,
    While,
    With,
}

/// A mark of one or two bytes. `<>` is Unequal as `#` is; `&` and `~` are the words AND and NOT.
#[derive(Clone, Copy, Debug, PartialEq, Eq)]
pub enum Mark {
    Plus,
    Minus,
    Times,
    Slash,
    Becomes,
    Dot,
    Comma,
    Semicolon,
    Open,
    Close,
    OpenBracket,
    CloseBracket,
    OpenBrace,
    CloseBrace,
    Arrow,
    Equal,
    Unequal,
    Less,
    Greater,
    AtMost,
    AtLeast,
    Through,
    Colon,
    Bar,
}

/// What a token is (Programming in Modula-2, Representation). A string has the bytes between its marks.
/// Finish stands behind the last token of a text.
#[derive(Drop)]
pub enum TokenKind {
    Word(Word),
    Ident(Name),
    Number(u16),
    CharCode(u8),
    Chars(Text),
    Mark(Mark),
    Finish,
}

/// A token, and the place of its first byte.
#[derive(Drop)]
pub struct Token {
    pub what: TokenKind,
    pub place: Place,
}

/// The tokens of a text. The last is Finish.
pub type Tokens = Items<Token>;
