//! What each request shows.

ghost use Rattle.std.specs.Prelude.{◌≡◌, ◌≤◌, ◌%◌, [], ◌∷◌, length, false};
ghost use Rattle.lil_base.specs.Requests.{takes_array};
ghost use Rattle.lil_meaning.specs.World.{Single, byte_of, piece_of, filled as filled_text};

use crate::numbers::{natural, signed};
use arrayvec::ArrayVec;
use lil_base::Request;

/// The most columns that a number is filled to.
const MOST_COLUMNS: usize = 80;

/// What a request for words alone shows.
pub type Piece = ArrayVec<u8, MOST_COLUMNS>;

/// The character that ends a line, EOL.
const END_OF_LINE: u8 = 30;

/// The byte that ends a line.
const LINE_END: u8 = 10;

/// The byte that shows a word's character.
pub(crate) fn shown_byte(word: u16) -> u8
    ensures { result ≡ byte_of (word % 256) }
{
    let character = (word % 256) as u8;
    if character == END_OF_LINE {
        LINE_END
    } else {
        character
    }
}

fn one_byte(byte: u8) -> Piece
    ensures { result.items ≡ byte ∷ [] }
{
    let mut piece = Piece::new();
    piece.push(byte);
    piece
}

/// A text with blanks before it, so that it fills so many columns, at most 80.
fn filled(columns: u16, text: &[u8]) -> Piece
    requires { length text.now ≤ 80 }
    ensures { result.items ≡ filled_text columns text.now }
{
    let width = usize::from(columns).min(MOST_COLUMNS);
    let mut piece = Piece::new();
    for _ in 0..width.saturating_sub(text.len()) {
        piece.push(b' ');
    }
    for byte in text {
        piece.push(*byte);
    }
    piece
}

/// The piece that a request for words alone shows, by its first and its second word; a word that it doesn't take is
/// not read.
pub fn piece(request: Request, first: u16, second: u16) -> Piece
    requires { takes_array request ≡ false }
    ensures { result.items ≡ piece_of request (Single first ∷ Single second ∷ []) }
{
    match request {
        Request::Write => one_byte(shown_byte(first)),
        Request::WriteString => unreachable!(),
        Request::WriteLn => one_byte(LINE_END),
        Request::WriteCard => filled(second, natural(10, first).as_slice()),
        Request::WriteInt => filled(second, signed(first).as_slice()),
        Request::WriteOct => filled(second, natural(8, first).as_slice()),
        Request::WriteHex => filled(second, natural(16, first).as_slice()),
    }
}
