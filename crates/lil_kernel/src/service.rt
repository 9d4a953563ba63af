//! Serving a request of the machine.

ghost use Rattle.std.specs.Prelude.{◌≡◌, ◌≤◌, length, map, take, drop, reverse, true, OnOk, OnErr};
ghost use Rattle.lil_asm.specs.Requests.{request_words};
ghost use Rattle.lil_mcode.specs.Table.{array_lies};
ghost use Rattle.lil_meaning.specs.World.{Single, given_by, piece_of, first_word, second_word};
ghost use Rattle.lil_volume.specs.{Causes.HasCause, Told.{followed_by, FollowedByPrefix}};

use crate::pieces::piece;
use crate::strings::put_string;
use lil_base::Request;
use lil_mcode::{Machine, words_of_request};
use lil_volume::{Sink, SinkFailed};

/// The first and the second of the words that a request finds on the expression stack, whose top
/// is the last one. A word that it doesn't take is 0.
fn words(machine: &Machine, count: u8) -> (u16, u16)
    requires few { count ≤ 2 }
    requires there { count ≤ length machine.now.state.stack }
    ensures first { result.0 ≡ first_word (map Single (reverse (take count machine.now.state.stack))) }
    ensures second { result.1 ≡ second_word (map Single (reverse (take count machine.now.state.stack))) }
{
    match count {
        0 => (0, 0),
        1 => (machine.argument(0), 0),
        _ => (machine.argument(1), machine.argument(0)),
    }
}

/// Serves a request: takes its words from the expression stack, and puts what it shows on the
/// screen, in one piece.
///
/// # Errors
/// The screen did not take the whole piece. The words are taken all the same.
#[tactic(auto, using(crate::proofs::Characters::string_lies, crate::proofs::Characters::string_shown, crate::proofs::Characters::words_shown))]
pub fn serve<S: Sink>(
    request: Request,
    machine: &mut Machine,
    screen: &mut S,
) -> Result<(), SinkFailed>
    requires { (request_words request ≤ length machine.old.state.stack) × (array_lies request machine.old.state.stack ≡ true) }
    ensures machine { machine.new ≡ record machine.old { state = record machine.old.state { stack = drop (request_words request) machine.old.state.stack } } }
    ensures ok { OnOk result (S.written screen.new ≡ followed_by (S.written screen.old) (piece_of request (given_by request machine.old.state.store (reverse (take (request_words request) machine.old.state.stack))))) }
    ensures err { OnErr result (FollowedByPrefix (S.written screen.old) (piece_of request (given_by request machine.old.state.store (reverse (take (request_words request) machine.old.state.stack)))) (S.written screen.new)) }
    ensures cause { HasCause (S.faults screen.old) (S.faults screen.new) result }
{
    let count = words_of_request(request);
    let (first, second) = words(machine, count);
    machine.drop_arguments(count);
    if request.takes_array() {
        return put_string(machine, first, second, screen);
    }
    screen.put(piece(request, first, second).as_slice())
}
