ghost use Rattle.std.specs.Prelude.{◌≡◌, ◌≢◌, ◌⊎◌, ◌≤◌, true, false};
ghost use Rattle.lil_volume.specs.{Causes.Rose, Told.{followed_by, FollowedByPrefix}};
ghost use Rattle.lil_session.specs.{Outcome.gives_way, Report.{is_fixed, Lined, Reported}};

use crate::Status;
use crate::lines::made_lines;
use lil_volume::Sink;
use std::alloc::Global;

/// Whether an answer stays, whatever becomes of its line.
fn stays(status: &Status) -> bool
    ensures { result ≡ gives_way status.now }
{
    match status {
        Status::VolumeFault
        | Status::KeyFault
        | Status::ScreenFault
        | Status::ChannelFault
        | Status::Memory => true,
        _ => false,
    }
}

/// Puts a piece, and doesn't look whether that failed.
fn try_put<R: Sink>(report: &mut R, piece: &[u8])
    ensures prefix { FollowedByPrefix (R.written report.old) piece.now (R.written report.new) }
    ensures tried { (R.written report.new ≡ followed_by (R.written report.old) piece.now) ⊎ Rose (R.faults report.old) (R.faults report.new) }
    ensures later { R.faults report.old ≤ R.faults report.new }
{
    let _ = report.put(piece);
}

/// Puts the lines of an answer, which then is the same, or the report's fault.
pub(crate) fn put_lines<R: Sink>(report: &mut R, lines: &[u8], status: Status) -> Status
    ensures { Lined lines.now status (R.written report.old) (R.faults report.old) (R.written report.new) (R.faults report.new) result }
{
    match report.put(lines) {
        Ok(()) => status,
        Err(_) => Status::ReportFault,
    }
}

/// Makes the lines of an answer and writes them.
fn write_made<R: Sink>(alloc: Global, file: &[u8], status: Status, report: &mut R) -> Status
    requires { is_fixed status ≡ false }
    ensures { Reported file.now status (R.written report.old) (R.faults report.old) (R.written report.new) (R.faults report.new) result }
{
    match made_lines(alloc, file, &status) {
        Ok(lines) => put_lines(report, lines.as_slice(), status),
        Err(_) => {
            try_put(report, b"memory\n");
            Status::Memory
        }
    }
}

/// Writes the lines of an answer, in one piece. The answer then is the same, or the report's fault, or
/// want of memory. Done has no lines: there the report isn't called.
pub(crate) fn write_report<R: Sink>(
    alloc: Global,
    file: &[u8],
    status: Status,
    report: &mut R,
) -> Status
    requires { status ≢ Status.ReportFault }
    ensures written { Reported file.now status (R.written report.old) (R.faults report.old) (R.written report.new) (R.faults report.new) result }
    ensures silent { result ≡ Status.Done → report.new ≡ report.old }
{
    if let Status::Done = status {
        return Status::Done;
    }
    let Some(line) = status.fixed_line() else {
        return write_made(alloc, file, status, report);
    };
    if stays(&status) {
        try_put(report, line);
        return status;
    }
    put_lines(report, line, status)
}
