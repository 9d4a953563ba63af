ghost use Rattle.std.specs.Prelude.{◌≡◌, IfOk};
ghost use Rattle.std.specs.{Option.option_copied, Str.bytes_eq};
ghost use Rattle.lil_session.specs.Words as spec;

use lil_base::{FileKind, Memory, Name, Text};
use std::alloc::Global;

fn are_bytes(a: &[u8], b: &[u8]) -> bool
    ensures { result ≡ bytes_eq a.now b.now }
{
    a == b
}

/// The name of a word that is a name and the ending of such a file, or None where it is another word.
pub(crate) fn named(alloc: Global, word: &[u8], kind: FileKind) -> Result<Option<Name>, Memory>
    ensures { IfOk result (λ o. o ≡ spec.name_before kind word.now) }
{
    let ending = kind.ending();
    if word.len() < ending.len() {
        return Ok(None);
    }
    let at = word.len() - ending.len();
    if !are_bytes(&word[at..], ending) {
        return Ok(None);
    }
    Name::of_slice(alloc, &word[..at])
}

/// The second of two words, where the first is this command.
pub(crate) fn word_behind<'a>(command: &[u8], words: &'a [Text]) -> Option<&'a Text>
    ensures { option_copied result ≡ spec.word_behind command.now words.now }
{
    match words {
        [first, word] if are_bytes(first.as_slice(), command) => Some(word),
        _ => None,
    }
}
