ghost use Rattle.std.specs.Prelude.{◌≡◌};
ghost use Rattle.lil_text.specs.Operators as operators;

use lil_text::{Mark, OneOp, TokenKind, TwoOp, Word};

/// The relation that a token is.
pub fn relation_in(what: &TokenKind) -> Option<TwoOp>
    ensures { result ≡ operators.relation what.now }
{
    match what {
        TokenKind::Mark(Mark::Equal) => Some(TwoOp::Equal),
        TokenKind::Mark(Mark::Unequal) => Some(TwoOp::Unequal),
        TokenKind::Mark(Mark::Less) => Some(TwoOp::Less),
        TokenKind::Mark(Mark::AtMost) => Some(TwoOp::AtMost),
        TokenKind::Mark(Mark::Greater) => Some(TwoOp::Greater),
        TokenKind::Mark(Mark::AtLeast) => Some(TwoOp::AtLeast),
        TokenKind::Word(Word::In) => Some(TwoOp::In),
        _ => None,
    }
}

/// The operator of a sum that a token is.
pub fn addition_in(what: &TokenKind) -> Option<TwoOp>
    ensures { result ≡ operators.addition what.now }
{
    match what {
        TokenKind::Mark(Mark::Plus) => Some(TwoOp::Plus),
        TokenKind::Mark(Mark::Minus) => Some(TwoOp::Minus),
        TokenKind::Word(Word::Or) => Some(TwoOp::Or),
        _ => None,
    }
}

/// The operator of a term that a token is.
pub fn multiplication_in(what: &TokenKind) -> Option<TwoOp>
    ensures { result ≡ operators.multiplication what.now }
{
    match what {
        TokenKind::Mark(Mark::Times) => Some(TwoOp::Times),
        TokenKind::Mark(Mark::Slash) => Some(TwoOp::Slash),
        TokenKind::Word(Word::Div) => Some(TwoOp::Div),
        TokenKind::Word(Word::Mod) => Some(TwoOp::Mod),
        TokenKind::Word(Word::And) => Some(TwoOp::And),
        _ => None,
    }
}

/// The sign that a token is.
pub fn sign_in(what: &TokenKind) -> Option<OneOp>
    ensures { result ≡ operators.sign what.now }
{
    match what {
        TokenKind::Mark(Mark::Plus) => Some(OneOp::Plus),
        TokenKind::Mark(Mark::Minus) => Some(OneOp::Minus),
        _ => None,
    }
}
