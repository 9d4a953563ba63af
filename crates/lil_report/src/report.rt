ghost use Rattle.std.specs.Prelude.{◌≡◌, None};
ghost use Rattle.lil_report.specs.Least as spec;
ghost use Rattle.lil_report.specs.Told.{row, rows_of, noted, tell};

use lil_base::{FaultKind, Place};
use std::marker::Model;

/// What is wrong at a place.
#[derive(Clone, Copy, PartialEq, Eq)]
pub struct Fault {
    pub place: Place,
    pub kind: FaultKind,
}

/// Whether a fault comes behind all others: the form isn't built.
fn is_late(f: Fault) -> bool
    ensures { result ≡ spec.is_late f }
{
    f.kind.number() == FaultKind::NotBuilt.number()
}

/// Whether `f` stands before `g`, or is as early.
fn is_before(f: Fault, g: Fault) -> bool
    ensures { result ≡ spec.is_before f g }
{
    f.place.offset < g.place.offset
        || (f.place.offset == g.place.offset && f.kind.number() <= g.kind.number())
}

/// Whether `f` speaks before `g`, or is as early.
fn is_up_to(f: Fault, g: Fault) -> bool
    ensures { result ≡ spec.is_up_to f g }
{
    match (is_late(f), is_late(g)) {
        (false, true) => true,
        (true, false) => false,
        _ => is_before(f, g),
    }
}

/// The one of two faults that speaks, if there is any.
#[tactic(auto, unfolding(crate::specs::Least::worse, crate::specs::Least::least))]
pub fn worse(a: Option<Fault>, b: Option<Fault>) -> Option<Fault>
    ensures { result ≡ spec.worse a b }
{
    match (a, b) {
        (None, _) => b,
        (Some(f), None) => Some(f),
        (Some(f), Some(g)) => Some(if is_up_to(f, g) { f } else { g }),
    }
}

/// The least fault of those that were noted: the one at the least place, and there that of the least number. A form that
/// isn't built (90) comes behind all other faults.
#[derive(Drop)]
pub struct Report {
    worst: Option<Fault>,
}

impl Model for Report {
    ghost use Rattle.std.specs.Prelude.{Option};
    ghost use Rattle.lil_report.specs.declared.report.Fault.{Fault};

    ghost Value = { Option Fault };

    ghost view = { λ r. r.worst };
}

impl Report {
    /// No fault yet.
    pub fn new() -> Report
        ensures { result ≡ None }
    {
        Report { worst: None }
    }

    /// The one that speaks of all that were noted.
    pub fn worst(&self) -> Option<Fault>
        ensures { result ≡ self.now }
    {
        self.worst
    }

    /// The one that speaks, unless it is a form that isn't built.
    pub fn worst_now(&self) -> Option<Fault>
        ensures { result ≡ spec.now_of self.now }
    {
        match self.worst {
            Some(fault) if !is_late(fault) => Some(fault),
            _ => None,
        }
    }

    /// The one that speaks, where it is a form that isn't built.
    pub fn worst_late(&self) -> Option<Fault>
        ensures { result ≡ spec.late_of self.now }
    {
        match self.worst {
            Some(fault) if is_late(fault) => Some(fault),
            _ => None,
        }
    }

    /// One test more: where it finds something wrong, that is this fault.
    #[tactic(auto, unfolding(crate::specs::Least::when))]
    pub fn note(&mut self, wrong: bool, place: Place, kind: FaultKind)
        ensures { self.new ≡ noted self.old (row wrong place kind) }
    {
        let found = if wrong {
            Some(Fault { place, kind })
        } else {
            None
        };
        self.worst = worse(self.worst, found);
    }

    /// What other tests found.
    #[tactic(auto, unfolding(crate::specs::Told::tell))]
    pub fn note_all(&mut self, others: &Report)
        ensures { self.new ≡ tell self.old (rows_of others.now) }
    {
        match others.worst() {
            None => (),
            Some(fault) => self.note(true, fault.place, fault.kind),
        }
    }
}
