ghost use Rattle.std.specs.Prelude.{◌≡◌, ℕ, List, None, Some, codes};
ghost use Rattle.lil_volume.specs.Told.{Files};
ghost use Rattle.lil_compile.specs.Left.{Left};
ghost use Rattle.lil_session.specs.{Words.{source_name, definition_name}, Outcome.devices, Report.file_of, Answered.{Answered, CommandReported}, Defined.{DefinitionAnswered, DefinitionReported}};

use crate::definition::report_compile;
use crate::report::write_report;
use crate::text_run::report_once;
use crate::words::word_behind;
use crate::{Channel, Rack, Status};
use lil_base::Text;
use lil_volume::{Keyboard, Sink, Volume};
use std::alloc::Global;

/// The most instructions of a run.
const STEPS: u64 = 10_000_000;

/// Does the command that the words are, and writes its answer's lines.
fn dispatch<V: Volume, K: Keyboard, S: Sink, R: Sink>(
    alloc: Global,
    words: &[Text],
    volume: &mut V,
    keys: &mut K,
    screen: &mut S,
    report: &mut R,
) -> Status
    ensures reported { definition_name words.now ≡ None → let at = devices V.files V.faults K.left K.faults S.written S.faults in
        CommandReported (record {
          name = source_name words.now;
          steps = 10000000;
          file = file_of (codes "once") words.now;
          before = at volume.old keys.old screen.old;
          after = at volume.new keys.new screen.new;
          old = R.written report.old;
          old_faults = R.faults report.old;
          new = R.written report.new;
          new_faults = R.faults report.new;
        }) result }
    ensures compiled { (name : List ℕ) → definition_name words.now ≡ Some name →
        DefinitionReported (record {
          name = name;
          file = file_of (codes "compile") words.now;
          before = V.files volume.old;
          before_faults = V.faults volume.old;
          after = V.files volume.new;
          after_faults = V.faults volume.new;
          old = R.written report.old;
          old_faults = R.faults report.old;
          new = R.written report.new;
          new_faults = R.faults report.new;
        }) result }
    ensures silent { definition_name words.now ≡ None → result ≡ Status.Done → report.new ≡ report.old }
    ensures apart { (name : List ℕ) → definition_name words.now ≡ Some name → (keys.new ≡ keys.old) × (screen.new ≡ screen.old) }
{
    if let Some(word) = word_behind(b"once", words) {
        return report_once(alloc, word, STEPS, volume, keys, screen, report);
    }
    match word_behind(b"compile", words) {
        None => write_report(alloc, b"", Status::Usage, report),
        Some(word) => report_compile(alloc, word, volume, report),
    }
}

/// Does the command that the words are, and writes its answer's lines to the report. The words are those
/// after the program's name. `once X.MOD` runs the program module X from its text, for at most 10,000,000
/// instructions. `compile X.DEF` compiles the definition of the module X: the book of the volume gets an
/// entry, then X.SYM is written, and the report tells the key. Other words are no command.
pub fn lilith<V: Volume, K: Keyboard, S: Sink, R: Sink, C: Channel>(
    alloc: Global,
    words: &[Text],
    volume: &mut V,
    keys: &mut K,
    screen: &mut S,
    report: &mut R,
    rack: &mut Rack<C>,
) -> Status
    // The theorem: each field of `Answered` says one thing of the answer, of what is shown and of what the report has.
    ensures answered { definition_name words.now ≡ None → let at = devices V.files V.faults K.left K.faults S.written S.faults in
        Answered (record {
          name = source_name words.now;
          steps = 10000000;
          file = file_of (codes "once") words.now;
          before = at volume.old keys.old screen.old;
          after = at volume.new keys.new screen.new;
          old = R.written report.old;
          old_faults = R.faults report.old;
          new = R.written report.new;
          new_faults = R.faults report.new;
        }) result }
    // The same of a definition that is compiled, by `DefinitionAnswered`: the answer, the files, and what the report has.
    ensures compiled { (name : List ℕ) → definition_name words.now ≡ Some name →
        DefinitionAnswered (record {
          name = name;
          file = file_of (codes "compile") words.now;
          before = V.files volume.old;
          before_faults = V.faults volume.old;
          after = V.files volume.new;
          after_faults = V.faults volume.new;
          old = R.written report.old;
          old_faults = R.faults report.old;
          new = R.written report.new;
          new_faults = R.faults report.new;
        }) result }
    // Done has no lines where nothing was compiled: there the report isn't called.
    ensures silent { definition_name words.now ≡ None → result ≡ Status.Done → report.new ≡ report.old }
    // What earlier calls have left in the volume is left again, whatever the answer is.
    ensures left { (m n : Files) → V.files volume.old ≡ Some m → V.files volume.new ≡ Some n → Left m → Left n }
    // Where a definition is compiled, neither keyboard nor screen is called.
    ensures apart { (name : List ℕ) → definition_name words.now ≡ Some name → (keys.new ≡ keys.old) × (screen.new ≡ screen.old) }
    // The channels stay.
    ensures rack { rack.new ≡ rack.old }
{
    dispatch(alloc, words, volume, keys, screen, report)
}
