ghost use Rattle.std.specs.Prelude.{◌≡◌};
ghost use Rattle.lil_declared.specs.Modes as spec;

use lil_base::{Items, Name};
use lil_types::TypeId;

/// Whether a variable is a parameter, and how it is handed over: a value, a place, or an open array as the one or the
/// other.
#[derive(Clone, Copy, PartialEq, Eq)]
pub enum Mode {
    Plain,
    Value,
    Place,
    OpenValue,
    OpenPlace,
}

/// How a parameter is handed over: by place or by value, and as an open array or not.
pub fn mode_of(by_place: bool, open_array: bool) -> Mode
    ensures { result ≡ spec.mode_of by_place open_array }
{
    match (by_place, open_array) {
        (false, false) => Mode::Value,
        (true, false) => Mode::Place,
        (false, true) => Mode::OpenValue,
        (true, true) => Mode::OpenPlace,
    }
}

/// A variable: its type, or the type of its elements where it is an open array.
#[derive(Drop)]
pub struct RVar {
    pub name: Name,
    pub sort: TypeId,
    pub mode: Mode,
}

/// A procedure: its name; the number of its block, and those of the blocks around it, the outermost first; the procedures around
/// it by their numbers, the innermost first; and its procedure type. Its parameters are the first of its variables.
#[derive(Drop)]
pub struct RProc {
    pub name: Name,
    pub block: usize,
    pub outer: Items<usize>,
    pub around: Items<usize>,
    pub sort: TypeId,
}
