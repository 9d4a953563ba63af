ghost use Rattle.std.specs.Prelude.{◌≡◌, None, if◌then◌else◌, IfOk};
ghost use Rattle.lil_shapes.specs.Bases.{composite_at};
ghost use Rattle.lil_forms.specs.Statements as spec;

use crate::places::located_in;
use crate::sets::allocated;
use crate::values::typed;
use lil_base::{Items, Memory, Request, Shared, Text, joined};
use lil_declared::Resident;
use lil_kinds::{Form, Found, Located};
use lil_resolved::{Allocation, RArgument, RExpr, RKind, ROpening, RPlace, RStmt};
use lil_shapes::{composite_at, elements_at, kind_at};
use lil_types::{Parameter, TypeId, TypeTable};
use std::alloc::Global;

/// What a call is handed, where all of it has code: nothing yet.
pub fn nothing_handed(alloc: Global) -> Option<Items<RArgument>>
    ensures { result ≡ spec.nothing_handed }
{
    Some(Items::new(alloc))
}

/// The number of the last of some elements, where it is a word.
fn last_of(count: Option<u32>) -> Option<u16>
    ensures { result ≡ spec.last_of count }
{
    match count {
        Some(count) if count != 0 && count - 1 <= 65535 => Some((count - 1) as u16),
        _ => None,
    }
}

/// A parameter that is an open array by place isn't copied.
fn opening(by_place: bool) -> ROpening
    ensures { result ≡ spec.opening by_place }
{
    if by_place {
        ROpening::Lent
    } else {
        ROpening::Copied
    }
}

fn array_given(t: &TypeTable, opening: ROpening, of: Located) -> Option<RArgument>
    ensures { result ≡ spec.array_given t.now opening of }
{
    match last_of(elements_at(t, of.sort)) {
        None => {
            drop(of);
            None
        }
        Some(last) => Some(RArgument::Array(opening, of.place, last)),
    }
}

/// An array, a string or another open array, for a parameter that is one.
fn open_given(t: &TypeTable, opening: ROpening, of: Form) -> Option<RArgument>
    ensures { result ≡ spec.open_given t.now opening of }
{
    match of {
        Form::Text(text) => Some(RArgument::Text(text)),
        Form::Located(place) => array_given(t, opening, place),
        Form::Open(of) => Some(RArgument::Opened(opening, of.levels, of.number)),
        rest => {
            drop(rest);
            None
        }
    }
}

/// A string for an array of so many characters, where the number is a word.
fn spelled_as(text: Shared<Text>, count: Option<u32>) -> Option<RArgument>
    ensures { result ≡ spec.spelled_as text count }
{
    match count {
        Some(count) if count <= 65535 => Some(RArgument::Spelled(text, count as u16)),
        _ => {
            drop(text);
            None
        }
    }
}

/// A string, or all that lies at a place, for an array or a record of a type.
fn whole_given(t: &TypeTable, sort: TypeId, of: Form) -> Option<RArgument>
    ensures { result ≡ spec.whole_given t.now sort of }
{
    match of {
        Form::Text(text) => spelled_as(text, elements_at(t, sort)),
        Form::Located(of) => Some(RArgument::All(of.place)),
        rest => {
            drop(rest);
            None
        }
    }
}

/// All of an array or a record, or a string, for a parameter by value.
fn composite_by(t: &TypeTable, sort: TypeId, of: Form) -> Option<RArgument>
    ensures { result ≡ if composite_at t.now sort then spec.whole_given t.now sort of else None }
{
    if composite_at(t, sort) {
        whole_given(t, sort, of)
    } else {
        drop(of);
        None
    }
}

/// A value for a parameter: one of a kind, all of an array or a record, or a string for an array.
fn value_by(t: &TypeTable, sort: TypeId, kind: Option<RKind>, of: Found) -> Option<RArgument>
    ensures { result ≡ spec.value_by t.now sort kind of }
{
    let Some(kind) = kind else {
        return composite_by(t, sort, of.form);
    };
    match typed(t, sort, of) {
        None => None,
        Some(value) => Some(RArgument::Value(kind, value)),
    }
}

/// A place for a parameter by place.
fn place_given(of: Option<Located>) -> Option<RArgument>
    ensures { result ≡ spec.place_given of }
{
    match of {
        None => None,
        Some(of) => Some(RArgument::Place(of.place)),
    }
}

/// The argument that a parameter gets. It has no form where the value has none.
fn argument_given(t: &TypeTable, parameter: Parameter, of: Found) -> Option<RArgument>
    ensures { result ≡ spec.argument_given t.now parameter of }
{
    if parameter.open_array {
        open_given(t, opening(parameter.by_place), of.form)
    } else if parameter.by_place {
        place_given(located_in(of.form))
    } else {
        let kind = kind_at(t, parameter.sort);
        value_by(t, parameter.sort, kind, of)
    }
}

/// One argument more, which has a value.
#[tactic(auto, unfolding(crate::specs::Statements::handed_over))]
pub fn handed_over(
    t: &TypeTable,
    parameter: Parameter,
    before: Option<Items<RArgument>>,
    of: Found,
) -> Result<Option<Items<RArgument>>, Memory>
    ensures { IfOk result (λ given. given ≡ spec.handed_over t.now parameter before of) }
{
    let argument = argument_given(t, parameter, of);
    joined(before, argument)
}

fn request_of(of: Resident) -> Option<Request>
    ensures { result ≡ spec.request_of of }
{
    match of {
        Resident::Read
        | Resident::Allocate
        | Resident::Deallocate
        | Resident::NewProcess
        | Resident::Transfer
        | Resident::Lookup
        | Resident::CloseFile
        | Resident::Reset
        | Resident::ReadChar
        | Resident::WriteChar
        | Resident::Call
        | Resident::OpenChannel
        | Resident::PutWord
        | Resident::GetWord
        | Resident::CloseChannel => None,
        Resident::Write => Some(Request::Write),
        Resident::WriteString => Some(Request::WriteString),
        Resident::WriteLn => Some(Request::WriteLn),
        Resident::WriteCard => Some(Request::WriteCard),
        Resident::WriteInt => Some(Request::WriteInt),
        Resident::WriteOct => Some(Request::WriteOct),
        Resident::WriteHex => Some(Request::WriteHex),
    }
}

fn allocation_of(of: Resident) -> Option<Allocation>
    ensures { result ≡ spec.allocation_of of }
{
    match of {
        Resident::Allocate => Some(Allocation::Takes),
        Resident::Deallocate => Some(Allocation::GivesBack),
        Resident::Read
        | Resident::Write
        | Resident::WriteString
        | Resident::WriteLn
        | Resident::WriteCard
        | Resident::WriteInt
        | Resident::WriteOct
        | Resident::WriteHex
        | Resident::NewProcess
        | Resident::Transfer
        | Resident::Lookup
        | Resident::CloseFile
        | Resident::Reset
        | Resident::ReadChar
        | Resident::WriteChar
        | Resident::Call
        | Resident::OpenChannel
        | Resident::PutWord
        | Resident::GetWord
        | Resident::CloseChannel => None,
    }
}

/// The place that an argument is.
fn place_in(of: RArgument) -> Option<RPlace>
    ensures { result ≡ spec.place_in of }
{
    match of {
        RArgument::Place(place) => Some(place),
        rest => {
            drop(rest);
            None
        }
    }
}

/// The value that an argument is.
fn value_in(of: RArgument) -> Option<RExpr>
    ensures { result ≡ spec.value_in of }
{
    match of {
        RArgument::Value(_, value) => Some(value),
        rest => {
            drop(rest);
            None
        }
    }
}

/// ALLOCATE or DEALLOCATE of a place and a number of words.
fn allocation(way: Allocation, given: Items<RArgument>) -> Option<RStmt>
    ensures { result ≡ spec.allocation way given }
{
    let mut left = given;
    match left.take_first() {
        None => None,
        Some(place) => match left.take_first() {
            None => {
                drop(place);
                None
            }
            Some(words) => {
                if left.is_empty() {
                    allocated(way, place_in(place), value_in(words))
                } else {
                    drop((place, words, left));
                    None
                }
            }
        },
    }
}

fn request(of: Option<Request>, given: Items<RArgument>) -> Option<RStmt>
    ensures { result ≡ spec.request of given }
{
    match of {
        None => {
            drop(given);
            None
        }
        Some(request) => Some(RStmt::Request(request, given)),
    }
}

/// A call of a resident procedure. None where an argument has no form, or the procedure has no code.
#[tactic(auto, unfolding(crate::specs::Statements::called))]
pub fn called(of: Resident, given: Option<Items<RArgument>>) -> Option<RStmt>
    ensures { result ≡ spec.called of given }
{
    let Some(given) = given else {
        return None;
    };
    match allocation_of(of) {
        Some(way) => allocation(way, given),
        None => request(request_of(of), given),
    }
}
