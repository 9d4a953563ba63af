ghost use Rattle.std.specs.Prelude.{◌≡◌, ◌&&◌};
ghost use Rattle.lil_report.specs.Told.{Said};
ghost use Rattle.lil_call.specs.Procedures as spec;

use crate::call::Argument;
use crate::functions::{no_value, standard};
use crate::passing::is_variable;
use lil_base::{FaultKind, Items, Place};
use lil_declared::Standard;
use lil_forms::{changed, changed_by_one, created, disposed, located_in, turned};
use lil_kinds::{
    Found, Located, compatible, element_span, is_opaque, is_ordinal, number, set_base, target,
};
use lil_report::Report;
use lil_resolved::{Direction, Membership, RStmt};
use lil_scope::Kind;
use lil_types::{CARDINAL, INTEGER, Span, TypeId, TypeTable, base};

fn is_counting(of: Standard) -> bool
    ensures { result ≡ spec.is_counting of }
{
    match of {
        Standard::Inc => true,
        Standard::Dec => true,
        _ => false,
    }
}

fn is_joining(of: Standard) -> bool
    ensures { result ≡ spec.is_joining of }
{
    match of {
        Standard::Incl => true,
        Standard::Excl => true,
        _ => false,
    }
}

fn is_storing(of: Standard) -> bool
    ensures { result ≡ spec.is_storing of }
{
    match of {
        Standard::New => true,
        Standard::Dispose => true,
        _ => false,
    }
}

fn base_of_set(t: &TypeTable, a: Kind) -> Option<TypeId>
    ensures { result ≡ spec.base_of_set t.now a }
{
    match a {
        Kind::Of(n) => set_base(t, n),
        Kind::Scalar(n, _) => set_base(t, n),
        _ => None,
    }
}

fn span_of_set(t: &TypeTable, a: Kind) -> Option<Span>
    ensures { result ≡ spec.span_of_set t.now a }
{
    match a {
        Kind::Of(n) => element_span(t, n),
        Kind::Scalar(n, _) => element_span(t, n),
        _ => None,
    }
}

fn target_of(t: &TypeTable, a: Kind) -> Option<TypeId>
    ensures { result ≡ spec.target_of t.now a }
{
    match a {
        Kind::Of(n) => target(t, n),
        _ => None,
    }
}

fn is_hidden(t: &TypeTable, a: Kind) -> bool
    ensures { result ≡ spec.is_hidden t.now a }
{
    match a {
        Kind::Of(n) => is_opaque(t, n),
        _ => false,
    }
}

fn is_of_wrong_type(t: &TypeTable, of: Standard, a: Kind) -> bool
    ensures { result ≡ spec.is_of_wrong_type t.now of a }
{
    (is_counting(of) && !is_ordinal(t, a)) || (is_joining(of) && base_of_set(t, a).is_none())
}

fn is_no_pointer(t: &TypeTable, of: Standard, a: Kind) -> bool
    ensures { result ≡ spec.is_no_pointer t.now of a }
{
    is_storing(of) && target_of(t, a).is_none() && !is_hidden(t, a)
}

fn is_behind_opaque(t: &TypeTable, of: Standard, a: Kind) -> bool
    ensures { result ≡ spec.is_behind_opaque t.now of a }
{
    is_storing(of) && is_hidden(t, a)
}

/// Whether the first argument is a variable that the procedure can change.
#[tactic(auto, unfolding(crate::specs::Procedures::variable_node, lil_report::specs::Told::tell))]
fn changeable(t: &TypeTable, report: &mut Report, of: Standard, x: &Found) -> bool
    ensures { Said (spec.variable_node t.now of x.now) report.old result report.new }
{
    let wrong = is_of_wrong_type(t, of, x.kind);
    let variable = is_variable(x.standing);
    let other = is_no_pointer(t, of, x.kind);
    let hidden = is_behind_opaque(t, of, x.kind);
    report.note(wrong, x.first, FaultKind::Operands);
    report.note(!variable, x.first, FaultKind::VarArgument);
    report.note(other, x.first, FaultKind::NotPointer);
    report.note(hidden, x.first, FaultKind::Opaque);
    !wrong && variable && !other && !hidden
}

fn counted_in(t: &TypeTable, v: Kind) -> TypeId
    ensures { result ≡ spec.counted_in t.now v }
{
    match v {
        Kind::Of(n) => {
            if base(t, n) == INTEGER {
                INTEGER
            } else {
                CARDINAL
            }
        }
        _ => CARDINAL,
    }
}

fn is_no_count(t: &TypeTable, v: Kind, a: Kind) -> bool
    ensures { result ≡ spec.is_no_count t.now v a }
{
    !compatible(t, Kind::Of(counted_in(t, v)), a)
}

fn is_no_element(t: &TypeTable, of: Option<TypeId>, a: Kind) -> bool
    ensures { result ≡ spec.is_no_element t.now of a }
{
    match of {
        Some(n) => !compatible(t, Kind::Of(n), a),
        None => false,
    }
}

fn is_past(n: Option<i32>, span: Option<Span>) -> bool
    ensures { result ≡ spec.is_past n span }
{
    match n {
        Some(n) => match span {
            Some(s) => n < s.low || s.high < n,
            None => false,
        },
        None => false,
    }
}

fn is_wrong_operand(t: &TypeTable, of: Standard, v: Kind, a: Kind) -> bool
    ensures { result ≡ spec.is_wrong_operand t.now of v a }
{
    (is_counting(of) && is_no_count(t, v, a))
        || (is_joining(of) && is_no_element(t, base_of_set(t, v), a))
}

fn is_past_elements(t: &TypeTable, of: Standard, v: Kind, a: Kind) -> bool
    ensures { result ≡ spec.is_past_elements t.now of v a }
{
    is_joining(of) && is_past(number(t, a), span_of_set(t, v))
}

/// Whether the procedure takes its second argument beside such a variable.
#[tactic(auto, unfolding(crate::specs::Procedures::operand_node, lil_report::specs::Told::tell))]
fn taken(t: &TypeTable, report: &mut Report, of: Standard, v: Kind, x: &Found) -> bool
    ensures { Said (spec.operand_node t.now of v x.now) report.old result report.new }
{
    let wrong = is_wrong_operand(t, of, v, x.kind);
    let past = is_past_elements(t, of, v, x.kind);
    report.note(wrong, x.first, FaultKind::Operands);
    report.note(past, x.first, FaultKind::ConstRange);
    !wrong && !past
}

#[tactic(auto, unfolding(crate::specs::Procedures::deep_node, lil_report::specs::Told::tell))]
fn shallow(report: &mut Report, first: Place, depth: usize) -> bool
    ensures { Said (spec.deep_node first depth) report.old result report.new }
{
    report.note(12 < depth, first, FaultKind::ExprDeep);
    depth <= 12
}

fn both(a: bool, b: bool) -> bool
    ensures { result ≡ (a && b) }
{
    a && b
}

fn done_if(is: bool, statement: Option<RStmt>) -> Option<RStmt>
    ensures { result ≡ spec.done_if is statement }
{
    if is {
        statement
    } else {
        drop(statement);
        None
    }
}

fn variable_statement(t: &TypeTable, of: Standard, v: Option<Located>) -> Option<RStmt>
    ensures { result ≡ spec.variable_statement t.now of v }
{
    match of {
        Standard::Inc => changed_by_one(t, Direction::Up, v),
        Standard::Dec => changed_by_one(t, Direction::Down, v),
        Standard::New => created(t, v),
        Standard::Dispose => disposed(t, v),
        _ => {
            drop(v);
            None
        }
    }
}

fn operand_statement(t: &TypeTable, of: Standard, v: Option<Located>, y: Found) -> Option<RStmt>
    ensures { result ≡ spec.operand_statement t.now of v y }
{
    match of {
        Standard::Inc => changed(t, Direction::Up, v, y),
        Standard::Dec => changed(t, Direction::Down, v, y),
        Standard::Incl => turned(t, Membership::Joins, v, y),
        Standard::Excl => turned(t, Membership::Leaves, v, y),
        _ => {
            drop((v, y));
            None
        }
    }
}

/// HALT has no argument.
fn no_argument(of: Standard) -> Option<RStmt>
    ensures { result ≡ spec.no_argument of }
{
    match of {
        Standard::Halt => Some(RStmt::Halt),
        _ => None,
    }
}

/// INC or DEC of a variable, NEW and DISPOSE.
fn with_variable(
    t: &TypeTable,
    report: &mut Report,
    first: Place,
    of: Standard,
    x: Found,
) -> Option<RStmt>
    ensures { Said (spec.with_variable t.now first of x) report.old result report.new }
{
    let a = changeable(t, report, of, &x);
    let b = shallow(report, first, x.depth);
    let is = both(a, b);
    let place = located_in(x.form);
    let statement = variable_statement(t, of, place);
    done_if(is, statement)
}

/// INC or DEC by a number, INCL and EXCL.
fn with_operand(
    t: &TypeTable,
    report: &mut Report,
    first: Place,
    of: Standard,
    x: Found,
    y: Found,
) -> Option<RStmt>
    ensures { Said (spec.with_operand t.now first of x y) report.old result report.new }
{
    let a = changeable(t, report, of, &x);
    let b = taken(t, report, of, x.kind, &y);
    let depth = x.depth.max(y.depth);
    let c = shallow(report, first, depth);
    let rest = both(b, c);
    let is = both(a, rest);
    let place = located_in(x.form);
    let statement = operand_statement(t, of, place, y);
    done_if(is, statement)
}

#[tactic(auto, unfolding(lil_report::specs::Told::tell))]
fn by_one(
    t: &TypeTable,
    report: &mut Report,
    first: Place,
    of: Standard,
    x: Argument,
) -> Option<RStmt>
    ensures { Said (spec.by_one t.now first of x) report.old result report.new }
{
    match x {
        Argument::Value(None) => None,
        Argument::Value(Some(x)) => with_variable(t, report, first, of, x),
        Argument::Type(at, _) => no_value(report, at),
    }
}

#[tactic(auto, unfolding(lil_report::specs::Told::tell))]
fn by_two(
    t: &TypeTable,
    report: &mut Report,
    first: Place,
    of: Standard,
    x: Argument,
    y: Argument,
) -> Option<RStmt>
    ensures { Said (spec.by_two t.now first of x y) report.old result report.new }
{
    match x {
        Argument::Value(None) => {
            drop(y);
            None
        }
        Argument::Value(Some(x)) => match y {
            Argument::Value(None) => {
                drop(x);
                None
            }
            Argument::Value(Some(y)) => with_operand(t, report, first, of, x, y),
            Argument::Type(at, _) => {
                drop(x);
                no_value(report, at)
            }
        },
        Argument::Type(at, _) => {
            drop(y);
            no_value(report, at)
        }
    }
}

#[tactic(auto, unfolding(lil_report::specs::Told::tell))]
fn by_all(
    t: &TypeTable,
    report: &mut Report,
    first: Place,
    of: Standard,
    arguments: Items<Argument>,
) -> Option<RStmt>
    ensures { Said (spec.by_all t.now first of arguments) report.old result report.new }
{
    let mut left = arguments;
    match left.take_first() {
        None => no_argument(of),
        Some(x) => match left.take_first() {
            None => by_one(t, report, first, of, x),
            Some(y) => by_two(t, report, first, of, x, y),
        },
    }
}

/// A call of a standard procedure.
pub(crate) fn procedure_call(
    t: &TypeTable,
    report: &mut Report,
    first: Place,
    of: Standard,
    arguments: Items<Argument>,
) -> Option<RStmt>
    ensures { Said (spec.procedure_mean t.now first of arguments) report.old result report.new }
{
    let count = arguments.len();
    let ready = standard(report, first, false, of, count);
    if ready {
        by_all(t, report, first, of, arguments)
    } else {
        None
    }
}
