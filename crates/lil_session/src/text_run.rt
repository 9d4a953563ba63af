ghost use Rattle.std.specs.Prelude.{◌≡◌, ◌+◌, ◌≤◌, length, Some, None, false};
ghost use Rattle.lil_resolved.specs.{Views.{module_of, IsMeasured}, Sound.IsSound, Kinds.all_words, Sizes.module_strings};
ghost use Rattle.lil_session.specs.{Words.{mod_file, name_of_word}, Outcome.{devices, stopped_by, ungenerated_by, coded, says}, Answered.{Carried, TextRan, CommandRan, CommandReported, Answered}};

use crate::report::write_report;
use crate::run::run_program;
use crate::words::named;
use crate::{Channel, Options, Rack, Status};
use lil_base::{FileKind, Name, Place, SourceFault, Text};
use lil_check_unit::check_program;
use lil_language::Unit;
use lil_read_unit::read;
use lil_resolved::RModule;
use lil_text::ReadStop;
use lil_unit::{GenStop, generate_alone};
use lil_volume::{Keyboard, Sink, Volume, VolumeError};
use std::alloc::Global;

/// The answer where reading or checking stopped.
fn stopped(stop: ReadStop) -> Status
    ensures { result ≡ stopped_by stop }
{
    match stop {
        ReadStop::Fault(fault) => Status::SourceFault(fault),
        ReadStop::Memory => Status::Memory,
    }
}

/// The answer where no code was made of a unit whose name stands at this place.
fn not_generated(stop: GenStop, name: Place) -> Status
    ensures { result ≡ ungenerated_by name stop }
{
    match stop {
        GenStop::CodeTooLong { bytes } => {
            Status::SourceFault(SourceFault::code_too_long(name, bytes))
        }
        GenStop::Memory => Status::Memory,
    }
}

/// Translates a program module, whose name stands at this place, and runs its code.
#[tactic(auto, using(crate::proofs::Faulty::small_of))]
fn run_module<S: Sink>(
    alloc: Global,
    name: Place,
    m: &RModule,
    steps: u64,
    screen: &mut S,
) -> Status
    requires sound { IsSound (module_of m.now) }
    requires measured { IsMeasured m.now }
    requires fits { all_words (module_of m.now).variables + length (module_strings (module_of m.now)) ≤ 32000 }
    ensures { Carried (coded name (module_of m.now)) steps (S.written screen.old) (S.faults screen.old) (S.written screen.new) (S.faults screen.new) result }
{
    match generate_alone(alloc, m) {
        Err(stop) => not_generated(stop, name),
        Ok(made) => run_program(alloc, m, &made, steps, screen),
    }
}

/// Checks a unit in the file of this name, and runs it where it has no fault.
fn run_unit<S: Sink>(alloc: Global, file: &Name, unit: &Unit, steps: u64, screen: &mut S) -> Status
    ensures { Carried (says file.now unit.now) steps (S.written screen.old) (S.faults screen.old) (S.written screen.new) (S.faults screen.new) result }
{
    match check_program(alloc, file, unit) {
        Err(stop) => stopped(stop),
        Ok(m) => run_module(alloc, unit.head.name.place, &m, steps, screen),
    }
}

/// Runs the text of the file of this name where it has no fault.
fn run_text<S: Sink>(alloc: Global, name: &Name, text: &Text, steps: u64, screen: &mut S) -> Status
    ensures { TextRan name.now text.now steps (S.written screen.old) (S.faults screen.old) (S.written screen.new) (S.faults screen.new) result }
{
    match read(alloc, text) {
        Err(stop) => stopped(stop),
        Ok(unit) => run_unit(alloc, name, &unit, steps, screen),
    }
}

/// Runs the source of the module of this name.
fn run_source<V: Volume, K: Keyboard, S: Sink>(
    alloc: Global,
    name: &Name,
    steps: u64,
    volume: &mut V,
    keys: &mut K,
    screen: &mut S,
) -> Status
    ensures { let at = devices V.files V.faults K.left K.faults S.written S.faults in
        CommandRan (Some name.now) steps (at volume.old keys.old screen.old) (at volume.new keys.new screen.new) result }
{
    let Ok(file) = name.file(alloc, FileKind::Module) else {
        return Status::Memory;
    };
    match volume.read(alloc, &file) {
        Err(VolumeError::Failed) => Status::VolumeFault,
        Err(VolumeError::Memory) => Status::Memory,
        Ok(None) => Status::NoFile(file),
        Ok(Some(text)) => run_text(alloc, name, &text, steps, screen),
    }
}

/// Does a command `once` as far as the devices go.
fn run_once<V: Volume, K: Keyboard, S: Sink>(
    alloc: Global,
    word: &Text,
    steps: u64,
    volume: &mut V,
    keys: &mut K,
    screen: &mut S,
) -> Status
    ensures { let at = devices V.files V.faults K.left K.faults S.written S.faults in
        CommandRan (name_of_word word.now) steps (at volume.old keys.old screen.old) (at volume.new keys.new screen.new) result }
{
    match named(alloc, word.as_slice(), FileKind::Module) {
        Err(_) => Status::Memory,
        Ok(None) => Status::Usage,
        Ok(Some(name)) => run_source(alloc, &name, steps, volume, keys, screen),
    }
}

/// Does a command `once`, and writes its answer's lines.
pub(crate) fn report_once<V: Volume, K: Keyboard, S: Sink, R: Sink>(
    alloc: Global,
    word: &Text,
    steps: u64,
    volume: &mut V,
    keys: &mut K,
    screen: &mut S,
    report: &mut R,
) -> Status
    ensures reported { let at = devices V.files V.faults K.left K.faults S.written S.faults in
        CommandReported (record {
          name = name_of_word word.now;
          steps = steps;
          file = word.now;
          before = at volume.old keys.old screen.old;
          after = at volume.new keys.new screen.new;
          old = R.written report.old;
          old_faults = R.faults report.old;
          new = R.written report.new;
          new_faults = R.faults report.new;
        }) result }
    ensures silent { result ≡ Status.Done → report.new ≡ report.old }
{
    let status = run_once(alloc, word, steps, volume, keys, screen);
    write_report(alloc, word.as_slice(), status, report)
}

/// Runs the program module X from its text, where the word is `X.MOD`, and writes its answer's lines to
/// the report. It takes at most as many instructions as the options say.
pub fn once<V: Volume, K: Keyboard, S: Sink, R: Sink, C: Channel>(
    alloc: Global,
    word: &Text,
    o: Options,
    volume: &mut V,
    keys: &mut K,
    screen: &mut S,
    report: &mut R,
    rack: &mut Rack<C>,
) -> Status
    requires no_count { o.count ≡ false }
    requires no_grid { o.screen ≡ false }
    ensures answered { let at = devices V.files V.faults K.left K.faults S.written S.faults in
        Answered (record {
          name = name_of_word word.now;
          steps = o.steps;
          file = word.now;
          before = at volume.old keys.old screen.old;
          after = at volume.new keys.new screen.new;
          old = R.written report.old;
          old_faults = R.faults report.old;
          new = R.written report.new;
          new_faults = R.faults report.new;
        }) result }
    // Done has no lines: there the report isn't called.
    ensures silent { result ≡ Status.Done → report.new ≡ report.old }
    ensures rack { rack.new ≡ rack.old }
{
    report_once(alloc, word, o.steps, volume, keys, screen, report)
}
