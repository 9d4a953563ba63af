use crate::lines::limit_line;
use lil_base::{CodePlace, FileName, LimitKind, LoadRefusal, SourceFault, TrapAt};

/// The answer of a command.
#[derive(Drop)]
pub enum Status {
    /// The command was done, and a program came to its end.
    Done,
    /// The words are no command.
    Usage,
    /// The volume has no file of this name.
    NoFile(FileName),
    /// The text breaks a rule of the language, or has what isn't built.
    SourceFault(SourceFault),
    /// The program couldn't be loaded.
    LoadRefused(LoadRefusal),
    /// The program trapped.
    Trapped(TrapAt),
    /// The program came to a limit of the machine.
    Limit(LimitKind),
    /// The program took all instructions of its budget, and had no end.
    StepsSpent,
    /// The volume failed.
    VolumeFault,
    /// The keyboard failed.
    KeyFault,
    /// The screen failed.
    ScreenFault,
    /// A channel failed.
    ChannelFault,
    /// The report failed while the lines of another answer were written.
    ReportFault,
    /// Memory was refused.
    Memory,
    /// The code has an instruction that no machine has, or that can't be done here.
    BadCode(CodePlace),
}

impl Status {
    ghost use Rattle.std.specs.Prelude.{◌≡◌, ℕ, List, true, false, MatchOption};
    ghost use Rattle.lil_session.specs.Outcome.{code_of};
    ghost use Rattle.lil_session.specs.Report.{is_fixed, status_lines};

    /// The program's exit status: 0 to 14, in the order of the answers.
    pub fn code(&self) -> u8
        ensures { result ≡ code_of self.now }
    {
        match self {
            Status::Done => 0,
            Status::Usage => 1,
            Status::NoFile(_) => 2,
            Status::SourceFault(_) => 3,
            Status::LoadRefused(_) => 4,
            Status::Trapped(_) => 5,
            Status::Limit(_) => 6,
            Status::StepsSpent => 7,
            Status::VolumeFault => 8,
            Status::KeyFault => 9,
            Status::ScreenFault => 10,
            Status::ChannelFault => 11,
            Status::ReportFault => 12,
            Status::Memory => 13,
            Status::BadCode(_) => 14,
        }
    }

    /// The lines of an answer that has no name and no number of the text to tell, which want no memory. None for the others.
    pub fn fixed_line(&self) -> Option<&'static [u8]>
        ensures { MatchOption result (is_fixed self.now ≡ false) (λ line. (is_fixed self.now ≡ true) × ((file : List ℕ) → line.now ≡ status_lines file self.now)) }
    {
        match self {
            Status::Done | Status::ReportFault => Some(b""),
            Status::Usage => Some(
                b"usage: lilith compile or run or once or demo, NAME, --steps=N --count --screen\n",
            ),
            Status::Limit(kind) => Some(limit_line(*kind)),
            Status::StepsSpent => Some(b"steps spent\n"),
            Status::VolumeFault => Some(b"fault volume\n"),
            Status::KeyFault => Some(b"fault keyboard\n"),
            Status::ScreenFault => Some(b"fault screen\n"),
            Status::ChannelFault => Some(b"fault channel\n"),
            Status::Memory => Some(b"memory\n"),
            _ => None,
        }
    }
}
