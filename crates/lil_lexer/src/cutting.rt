ghost use Rattle.std.specs.Prelude.{◌≡◌, ◌⊎◌, List, [], ◌++◌, IfOk};
ghost use Rattle.lil_base.specs.declared.fault.SourceFault.{SourceFault};
ghost use Rattle.lil_text.specs.{declared.token.Token.Token, Lexical.{before, HasTokens, HasLexicalFault}};

use crate::pieces::{Piece, behind, next_piece, stop};
use lil_base::{FaultKind, Items, Memory, Place, Text};
use lil_text::{ReadStop, Token, TokenKind, Tokens};
use std::alloc::Global;

const LONGEST_TEXT: usize = 262_144;

const START: Place = Place {
    line: 1,
    column: 1,
    offset: 0,
};

fn with_token(found: Tokens, what: Option<TokenKind>, place: Place) -> Result<Tokens, Memory>
    ensures { IfOk result (λ all. all ≡ found ++ before place what []) }
{
    let mut all = found;
    match what {
        None => Ok(all),
        Some(what) => {
            all.push(Token { what, place })?;
            Ok(all)
        }
    }
}

fn cut(alloc: Global, text: &[u8]) -> Result<Tokens, ReadStop>
    ensures found { IfOk result (λ ts. HasTokens text.now ts) }
    ensures fault { (f : SourceFault) → result ≡ Err (ReadStop.Fault f) → HasLexicalFault text.now f }
{
    if LONGEST_TEXT < text.len() {
        return Err(stop(FaultKind::TextTooLong, START));
    }
    let mut found = Items::new(alloc);
    let mut place = START;
    let mut rest = text;
    while !rest.is_empty() {
        let Piece { what, len } = next_piece(alloc, rest, place)?;
        found = with_token(found, what, place)?;
        let (front, left) = rest.split_at(len);
        place = behind(place, front);
        rest = left;
    }
    Ok(with_token(found, Some(TokenKind::Finish), place)?)
}

/// The tokens of a text, Finish behind the last byte, or its first fault: 65 for more than 262,144 bytes, else 1 to 6
/// (Programming in Modula-2, Representation). Each text has tokens or a fault and not both, and its tokens in one way,
/// whatever the call answers.
pub fn tokens(alloc: Global, t: &Text) -> Result<Tokens, ReadStop>
    ensures found { IfOk result (λ ts. HasTokens t.now ts) }
    ensures only { (ts : List Token) → HasTokens t.now ts → (result ≡ Ok ts) ⊎ (result ≡ Err ReadStop.Memory) }
    ensures fault { (f : SourceFault) → result ≡ Err (ReadStop.Fault f) → HasLexicalFault t.now f }
    ensures exact { (f : SourceFault) → HasLexicalFault t.now f → (result ≡ Err (ReadStop.Fault f)) ⊎ (result ≡ Err ReadStop.Memory) }
    ensures whole { ((ts : List Token) × HasTokens t.now ts) ⊎ ((f : SourceFault) × HasLexicalFault t.now f) }
    ensures apart { (ts : List Token) (f : SourceFault) → HasTokens t.now ts → HasLexicalFault t.now f → ⊥ }
    ensures one { (ts us : List Token) → HasTokens t.now ts → HasTokens t.now us → ts ≡ us }
{
    cut(alloc, t.as_slice())
}
