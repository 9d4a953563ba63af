/// An operator with one operand: a sign, or NOT.
#[derive(Clone, Copy, PartialEq, Eq)]
pub enum OneOp {
    Plus,
    Minus,
    Not,
}

/// An operator with two operands (Programming in Modula-2, Expressions).
#[derive(Clone, Copy, PartialEq, Eq)]
pub enum TwoOp {
    Equal,
    Unequal,
    Less,
    AtMost,
    Greater,
    AtLeast,
    In,
    Plus,
    Minus,
    Or,
    Times,
    Slash,
    Div,
    Mod,
    And,
}
