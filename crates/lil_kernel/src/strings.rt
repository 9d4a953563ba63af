//! The arrays of characters that programs show.

ghost use Rattle.std.specs.Prelude.{◌≡◌, suc, ◌+◌, ◌≤◌, map, OnOk, OnErr};
ghost use Rattle.lil_meaning.specs.World.{byte_of, before_end, characters_at};
ghost use Rattle.lil_volume.specs.{Causes.HasCause, Told.{followed_by, FollowedByPrefix}};

use crate::pieces::shown_byte;
use arrayvec::ArrayVec;
use lil_mcode::Machine;
use lil_volume::{Sink, SinkFailed};

/// The most characters of an array: the words of the main store.
const MOST_CHARACTERS: usize = 65_536;

/// The most characters of an array for which room is made on the processor's stack in little time.
const FEW_CHARACTERS: usize = 256;

/// What an array of characters shows, by its address and the number of its last element: the characters before
/// the first 0C, or all.
#[tactic(auto, using(crate::proofs::Characters::next_shown, crate::proofs::Characters::ended, crate::proofs::Characters::none_left))]
fn string<const ROOM: usize>(machine: &Machine, address: u16, high: u16) -> ArrayVec<u8, ROOM>
    requires lies { address + high ≤ 65535 }
    requires room { suc high ≤ ROOM }
    ensures { result.items ≡ map byte_of (before_end (characters_at machine.now.state.store address (suc high))) }
{
    let mut text = ArrayVec::new();
    let end = u32::from(address) + u32::from(high) + 1;
    for at in u32::from(address)..end {
        let word = machine.word(at as u16);
        if word % 256 == 0 {
            return text;
        }
        text.push(shown_byte(word));
    }
    text
}

/// Puts what an array shows on the screen, in one piece, by its address and the number of its last element.
///
/// # Errors
/// The screen did not take the whole piece.
#[inline(never)]
pub(crate) fn put_string<S: Sink>(
    machine: &Machine,
    address: u16,
    high: u16,
    screen: &mut S,
) -> Result<(), SinkFailed>
    requires { address + high ≤ 65535 }
    ensures ok { OnOk result (S.written screen.new ≡ followed_by (S.written screen.old) (map byte_of (before_end (characters_at machine.now.state.store address (suc high))))) }
    ensures err { OnErr result (FollowedByPrefix (S.written screen.old) (map byte_of (before_end (characters_at machine.now.state.store address (suc high)))) (S.written screen.new)) }
    ensures cause { HasCause (S.faults screen.old) (S.faults screen.new) result }
{
    if usize::from(high) < FEW_CHARACTERS {
        return screen.put(string::<FEW_CHARACTERS>(machine, address, high).as_slice());
    }
    screen.put(string::<MOST_CHARACTERS>(machine, address, high).as_slice())
}
