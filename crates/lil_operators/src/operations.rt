ghost use Rattle.std.specs.Prelude.{◌≡◌, IfOk};
ghost use Rattle.lil_report.specs.Told.{Said};
ghost use Rattle.lil_operators.specs.Operations as spec;

use crate::constants::constant_found;
use crate::depths::raised;
use lil_base::{FaultKind, Memory, OneOp, Place, TwoOp};
use lil_forms::{Built, chain_form, one_of, operated, typed, typed_by, value_form};
use lil_kinds::{Applied, Form, Found, Standing, one, operand_type, set_base, two};
use lil_report::Report;
use lil_scope::Kind;
use lil_types::{CARDINAL, TypeId, TypeTable};
use std::alloc::Global;

/// What a chain is so far: a first operand alone, by its form, or a value with operations in it, where it has a form.
#[derive(Drop)]
pub enum SoFar {
    First(Form),
    Behind(Option<Built>),
}

/// A chain so far: what it is, what is known of its value, and its depth.
#[derive(Drop)]
pub struct Chained {
    pub so_far: SoFar,
    pub kind: Kind,
    pub depth: usize,
}

fn is_refused(of: Applied) -> bool
    ensures { result ≡ spec.is_refused of }
{
    match of {
        Applied::Refused => true,
        Applied::Outside => false,
        Applied::Gives(_) => false,
    }
}

fn is_outside(of: Applied) -> bool
    ensures { result ≡ spec.is_outside of }
{
    match of {
        Applied::Refused => false,
        Applied::Outside => true,
        Applied::Gives(_) => false,
    }
}

/// A value that an operator has, by its kind.
fn one_found(
    alloc: Global,
    types: &TypeTable,
    first: Place,
    op: OneOp,
    a: Found,
    kind: Kind,
) -> Result<Found, Memory>
    ensures { IfOk result (λ x. x ≡ spec.one_found types.now first op a kind) }
{
    match kind {
        Kind::Of(sort) => {
            let depth = a.depth;
            let value = one_of(alloc, op, typed(types, sort, a))?;
            Ok(Found {
                form: value_form(value),
                kind,
                first,
                depth,
                standing: Standing::Value,
            })
        }
        _ => {
            drop(a);
            Ok(constant_found(first, kind))
        }
    }
}

fn one_value(
    alloc: Global,
    types: &TypeTable,
    first: Place,
    op: OneOp,
    a: Found,
    of: Applied,
) -> Result<Option<Found>, Memory>
    ensures { IfOk result (λ x. x ≡ spec.one_value types.now first op a of) }
{
    match of {
        Applied::Gives(kind) => Ok(Some(one_found(alloc, types, first, op, a, kind)?)),
        _ => {
            drop(a);
            Ok(None)
        }
    }
}

/// A sign or NOT before an operand that has a value.
#[tactic(auto, unfolding(crate::specs::Operations::one_applied, lil_report::specs::Told::tell))]
fn one_applied(
    alloc: Global,
    types: &TypeTable,
    report: &mut Report,
    first: Place,
    op: OneOp,
    at: Place,
    a: Found,
) -> Result<Option<Found>, Memory>
    ensures { IfOk result (λ o. Said (spec.one_applied types.now first op at a) report.old o report.new) }
{
    let of = one(types, op, a.kind);
    report.note(is_refused(of), at, FaultKind::Operands);
    report.note(is_outside(of), at, FaultKind::ConstArith);
    let value = one_value(alloc, types, first, op, a, of)?;
    Ok(value)
}

/// A sign or NOT.
#[tactic(auto, unfolding(lil_report::specs::Told::tell))]
pub fn one_node(
    alloc: Global,
    types: &TypeTable,
    report: &mut Report,
    first: Place,
    op: OneOp,
    at: Place,
    a: Option<Found>,
) -> Result<Option<Found>, Memory>
    ensures { IfOk result (λ o. Said (spec.one_node types.now first op at a) report.old o report.new) }
{
    match a {
        None => Ok(None),
        Some(a) => {
            let value = one_applied(alloc, types, report, first, op, at, a)?;
            Ok(value)
        }
    }
}

/// The first operand of a chain.
pub fn begun(of: Option<Found>) -> Option<Chained>
    ensures { result ≡ spec.begun of }
{
    match of {
        None => None,
        Some(a) => Some(Chained {
            so_far: SoFar::First(a.form),
            kind: a.kind,
            depth: a.depth,
        }),
    }
}

fn or_cardinal(sort: Option<TypeId>) -> TypeId
    ensures { result ≡ spec.or_cardinal sort }
{
    match sort {
        Some(sort) => sort,
        None => CARDINAL,
    }
}

/// The type of a left operand that has none: that of the right one, or beside a set that of its members.
fn left_type(types: &TypeTable, op: TwoOp, a: Kind, b: Kind) -> TypeId
    ensures { result ≡ spec.left_type types.now op a b }
{
    match op {
        TwoOp::In => or_cardinal(set_base(types, operand_type(types, op, a, b))),
        _ => operand_type(types, op, a, b),
    }
}

/// What stands before an operator, where the first operand gets a type by it.
fn before(alloc: Global, types: &TypeTable, sort: TypeId, kind: Kind, of: SoFar) -> Option<Built>
    ensures { result ≡ spec.before types.now sort kind of }
{
    match of {
        SoFar::First(form) => lil_forms::begun(alloc, typed_by(types, sort, kind, form)),
        SoFar::Behind(built) => built,
    }
}

/// The operation with its operands.
fn behind(
    alloc: Global,
    types: &TypeTable,
    op: TwoOp,
    a: Chained,
    b: Found,
) -> Result<Option<Built>, Memory>
    ensures { IfOk result (λ x. x ≡ spec.behind types.now op a b) }
{
    let left = left_type(types, op, a.kind, b.kind);
    let right = operand_type(types, op, a.kind, b.kind);
    let built = before(alloc, types, left, a.kind, a.so_far);
    operated(op, built, typed(types, right, b))
}

fn two_chained(built: Option<Built>, kind: Kind, depth: usize) -> Chained
    ensures { result ≡ spec.two_chained built kind depth }
{
    match kind {
        Kind::Of(_) => Chained {
            so_far: SoFar::Behind(built),
            kind,
            depth,
        },
        _ => {
            drop(built);
            Chained {
                so_far: SoFar::First(Form::Nothing),
                kind,
                depth: 1,
            }
        }
    }
}

fn two_value(built: Option<Built>, of: Applied, depth: Option<usize>) -> Option<Chained>
    ensures { result ≡ spec.two_value built of depth }
{
    match (of, depth) {
        (Applied::Gives(kind), Some(depth)) => Some(two_chained(built, kind, depth)),
        _ => {
            drop(built);
            None
        }
    }
}

/// An operator between two operands that have values.
#[tactic(auto, unfolding(crate::specs::Operations::two_applied, lil_report::specs::Told::tell))]
fn two_applied(
    alloc: Global,
    types: &TypeTable,
    report: &mut Report,
    first: Place,
    op: TwoOp,
    at: Place,
    a: Chained,
    b: Found,
) -> Result<Option<Chained>, Memory>
    ensures { IfOk result (λ o. Said (spec.two_applied types.now first op at a b) report.old o report.new) }
{
    let of = two(types, op, a.kind, b.kind);
    let depth = raised(a.depth, 1, b.depth);
    report.note(depth.is_none(), first, FaultKind::ExprDeep);
    report.note(is_refused(of), at, FaultKind::Operands);
    report.note(is_outside(of), at, FaultKind::ConstArith);
    let built = behind(alloc, types, op, a, b)?;
    Ok(two_value(built, of, depth))
}

/// An operator with two operands.
#[tactic(auto, unfolding(lil_report::specs::Told::tell))]
pub fn two_node(
    alloc: Global,
    types: &TypeTable,
    report: &mut Report,
    first: Place,
    op: TwoOp,
    at: Place,
    a: Option<Chained>,
    b: Option<Found>,
) -> Result<Option<Chained>, Memory>
    ensures { IfOk result (λ o. Said (spec.two_node types.now first op at a b) report.old o report.new) }
{
    match a.zip(b) {
        None => Ok(None),
        Some((a, b)) => {
            let value = two_applied(alloc, types, report, first, op, at, a, b)?;
            Ok(value)
        }
    }
}

fn whole_form(alloc: Global, of: SoFar) -> Result<Form, Memory>
    ensures { IfOk result (λ f. f ≡ spec.whole_form of) }
{
    match of {
        SoFar::First(form) => Ok(form),
        SoFar::Behind(built) => chain_form(alloc, built),
    }
}

/// The whole chain.
pub fn chain_found(
    alloc: Global,
    first: Place,
    of: Option<Chained>,
) -> Result<Option<Found>, Memory>
    ensures { IfOk result (λ x. x ≡ spec.chain_found first of) }
{
    match of {
        None => Ok(None),
        Some(a) => Ok(Some(Found {
            form: whole_form(alloc, a.so_far)?,
            kind: a.kind,
            first,
            depth: a.depth,
            standing: Standing::Value,
        })),
    }
}
