ghost use Rattle.std.specs.Prelude.{◌≡◌, ◌≢◌, ◌⊎◌, ℕ, List, [], None, Some, IfOk};
ghost use Rattle.lil_session.specs.{Defined.{Call, DefinitionReported}, Report.Reported, Words.definition_of_word};
ghost use Rattle.lil_session.specs.Defined as spec;

use crate::Status;
use crate::lines::{LINE_END, put_number};
use crate::report::{put_lines, write_report};
use crate::words::named;
use lil_base::{Bytes, FileKind, Key, Memory, Name, Text};
use lil_compile::{CompileStop, compile_def};
use lil_volume::{Sink, Volume};
use std::alloc::Global;

/// The answer where the compilation of a definition stopped.
fn answer_of(alloc: Global, name: &Name, stop: CompileStop) -> Status
    ensures so { (result ≡ spec.stopped_so name.now stop) ⊎ (result ≡ Status.Memory) }
    ensures no_report { result ≢ Status.ReportFault }
{
    match stop {
        CompileStop::NoFile => match name.file(alloc, FileKind::Definition) {
            Ok(file) => Status::NoFile(file),
            Err(_) => Status::Memory,
        },
        CompileStop::Source(fault) => Status::SourceFault(fault),
        CompileStop::Volume => Status::VolumeFault,
        CompileStop::Memory => Status::Memory,
    }
}

/// The line of a definition that was compiled.
fn key_line(alloc: Global, name: &Name, key: Key) -> Result<Bytes, Memory>
    ensures { IfOk result (λ line. line ≡ spec.key_line name.now key.0) }
{
    let mut line = Bytes::from_slice(alloc, name.as_slice())?;
    line.extend(b" key ")?;
    put_number(alloc, &mut line, key.0)?;
    line.push(LINE_END)?;
    Ok(line)
}

/// Tells the key of a definition that was compiled.
fn tell_key<R: Sink>(alloc: Global, name: &Name, key: Key, report: &mut R) -> Status
    ensures { spec.KeyTold name.now key.0 (R.written report.old) (R.faults report.old) (R.written report.new) (R.faults report.new) result }
{
    match key_line(alloc, name, key) {
        Ok(line) => put_lines(report, line.as_slice(), Status::Done),
        Err(_) => write_report(alloc, b"", Status::Memory, report),
    }
}

/// Tells why a compilation stopped.
fn tell_stop<R: Sink>(
    alloc: Global,
    name: &Name,
    file: &[u8],
    stop: CompileStop,
    report: &mut R,
) -> Status
    ensures { spec.StopTold name.now file.now stop (R.written report.old) (R.faults report.old) (R.written report.new) (R.faults report.new) result }
{
    let status = answer_of(alloc, name, stop);
    write_report(alloc, file, status, report)
}

/// Compiles the definition of the module of this name, and writes its answer's lines.
fn report_definition<V: Volume, R: Sink>(
    alloc: Global,
    name: &Name,
    file: &[u8],
    volume: &mut V,
    report: &mut R,
) -> Status
    ensures { DefinitionReported (record {
      name = name.now;
      file = file.now;
      before = V.files volume.old;
      before_faults = V.faults volume.old;
      after = V.files volume.new;
      after_faults = V.faults volume.new;
      old = R.written report.old;
      old_faults = R.faults report.old;
      new = R.written report.new;
      new_faults = R.faults report.new;
    }) result }
{
    match compile_def(alloc, volume, name) {
        Ok(key) => tell_key(alloc, name, key, report),
        Err(stop) => tell_stop(alloc, name, file, stop, report),
    }
}

/// Does a command `compile` as far as definitions go, and writes its answer's lines: other words are no command.
pub(crate) fn report_compile<V: Volume, R: Sink>(
    alloc: Global,
    word: &Text,
    volume: &mut V,
    report: &mut R,
) -> Status
    ensures definition { (name : List ℕ) → definition_of_word word.now ≡ Some name →
        DefinitionReported (record {
          name = name;
          file = word.now;
          before = V.files volume.old;
          before_faults = V.faults volume.old;
          after = V.files volume.new;
          after_faults = V.faults volume.new;
          old = R.written report.old;
          old_faults = R.faults report.old;
          new = R.written report.new;
          new_faults = R.faults report.new;
        }) result }
    ensures other { definition_of_word word.now ≡ None → (volume.new ≡ volume.old) × spec.UsageTold (R.written report.old) (R.faults report.old) (R.written report.new) (R.faults report.new) result }
{
    match named(alloc, word.as_slice(), FileKind::Definition) {
        Err(_) => write_report(alloc, b"", Status::Memory, report),
        Ok(None) => write_report(alloc, b"", Status::Usage, report),
        Ok(Some(name)) => report_definition(alloc, &name, word.as_slice(), volume, report),
    }
}
