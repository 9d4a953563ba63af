ghost use Rattle.std.specs.Prelude.{◌≡◌, IfOk, Some};
ghost use Rattle.lil_forms.specs.Values as spec;

use crate::values::typed;
use lil_base::{Boxed, Items, Memory, OneOp, TwoOp, beside};
use lil_declared::Standard;
use lil_kinds::{Form, Found};
use lil_resolved::{RExpr, RFunction, RMember, ROperation};
use lil_shapes::{Members, kind_at, members_at};
use lil_types::{CARDINAL, TypeId, TypeTable};
use std::alloc::Global;

/// A chain so far: its first operand, and the operations behind it.
#[derive(Drop)]
pub struct Built {
    pub begin: RExpr,
    pub operations: Items<ROperation>,
}

/// The form of a value, where there is one.
pub fn value_form(of: Option<RExpr>) -> Form
    ensures { result ≡ spec.value_form of }
{
    match of {
        None => Form::Nothing,
        Some(of) => Form::Value(of),
    }
}

/// A sign or NOT of a value.
pub fn one_of(alloc: Global, operator: OneOp, of: Option<RExpr>) -> Result<Option<RExpr>, Memory>
    ensures { IfOk result (λ x. x ≡ spec.one_of operator of) }
{
    match of {
        None => Ok(None),
        Some(of) => Ok(Some(RExpr::One(operator, Boxed::new(alloc, of)?))),
    }
}

/// The first operand of a chain.
pub fn begun(alloc: Global, of: Option<RExpr>) -> Option<Built>
    ensures { result ≡ spec.begun of }
{
    match of {
        None => None,
        Some(begin) => Some(Built {
            begin,
            operations: Items::new(alloc),
        }),
    }
}

fn with_operation(operator: TwoOp, before: Built, operand: RExpr) -> Result<Built, Memory>
    ensures { IfOk result (λ b. b ≡ spec.with_operation operator before operand) }
{
    let Built { begin, operations } = before;
    let mut operations = operations;
    let pushed = operations.push(ROperation { operator, operand });
    let (begin, _) = beside(begin, pushed)?;
    Ok(Built { begin, operations })
}

/// An operation behind those before it.
pub fn operated(
    operator: TwoOp,
    before: Option<Built>,
    operand: Option<RExpr>,
) -> Result<Option<Built>, Memory>
    ensures { IfOk result (λ b. b ≡ spec.operated operator before operand) }
{
    match before.zip(operand) {
        None => Ok(None),
        Some((before, operand)) => Ok(Some(with_operation(operator, before, operand)?)),
    }
}

/// The form of a whole chain.
pub fn chain_form(alloc: Global, of: Option<Built>) -> Result<Form, Memory>
    ensures { IfOk result (λ f. f ≡ spec.chain_form of) }
{
    let Some(of) = of else {
        return Ok(Form::Nothing);
    };
    let Built { begin, operations } = of;
    let (operations, begin) = beside(operations, Boxed::new(alloc, begin))?;
    Ok(Form::Value(RExpr::Chain(begin, operations)))
}

/// A number that is in a set of such members.
pub fn single_by(t: &TypeTable, members: Option<Members>, of: Found) -> Option<RMember>
    ensures { result ≡ spec.single_by t.now members of }
{
    let Some(members) = members else {
        drop(of);
        return None;
    };
    match typed(t, members.sort, of) {
        None => None,
        Some(of) => Some(RMember::Single(of)),
    }
}

fn span(low: Option<RExpr>, high: Option<RExpr>) -> Option<RMember>
    ensures { result ≡ spec.span low high }
{
    match low.zip(high) {
        None => None,
        Some((low, high)) => Some(RMember::Span(low, high)),
    }
}

/// All numbers from one to another in a set of such members.
pub fn span_by(t: &TypeTable, members: Option<Members>, low: Found, high: Found) -> Option<RMember>
    ensures { result ≡ spec.span_by t.now members low high }
{
    let Some(members) = members else {
        drop((low, high));
        return None;
    };
    let low = typed(t, members.sort, low);
    let high = typed(t, members.sort, high);
    span(low, high)
}

/// A set of a type, of members that are all there.
pub fn set_form(t: &TypeTable, sort: TypeId, of: Option<Items<RMember>>) -> Form
    ensures { result ≡ spec.set_form t.now sort of }
{
    match members_at(t, sort).zip(of) {
        None => Form::Nothing,
        Some((members, of)) => Form::Value(RExpr::Set(members.kind, of)),
    }
}

/// A standard function of one value; VAL gives values of the type `sort`.
fn function_by(t: &TypeTable, of: Standard, sort: TypeId) -> Option<RFunction>
    ensures { result ≡ spec.function_by t.now of sort }
{
    match of {
        Standard::Abs => Some(RFunction::Abs),
        Standard::Cap => Some(RFunction::Cap),
        Standard::Chr => Some(RFunction::Chr),
        Standard::Odd => Some(RFunction::Odd),
        Standard::Ord => Some(RFunction::Ord),
        Standard::Val => match kind_at(t, sort) {
            None => None,
            Some(kind) => Some(RFunction::Val(kind)),
        },
        _ => None,
    }
}

/// HIGH of an open array.
fn high_of(of: Form) -> Option<RExpr>
    ensures { result ≡ spec.high_of of }
{
    match of {
        Form::Open(of) => Some(RExpr::High(of.levels, of.number)),
        rest => {
            drop(rest);
            None
        }
    }
}

/// What a standard function makes of a value; VAL gives values of the type `sort`.
pub fn function_value(
    alloc: Global,
    t: &TypeTable,
    of: Standard,
    sort: TypeId,
    x: Found,
) -> Result<Option<RExpr>, Memory>
    ensures { IfOk result (λ y. y ≡ spec.function_value t.now of sort x) }
{
    if of == Standard::High {
        return Ok(high_of(x.form));
    }
    let function = function_by(t, of, sort);
    let value = typed(t, CARDINAL, x);
    applied(alloc, function, value)
}

/// A function of a value.
fn applied(
    alloc: Global,
    function: Option<RFunction>,
    of: Option<RExpr>,
) -> Result<Option<RExpr>, Memory>
    ensures { IfOk result (λ x. x ≡ spec.applied function of) }
{
    match function.zip(of) {
        None => Ok(None),
        Some((function, of)) => Ok(Some(RExpr::Apply(function, Boxed::new(alloc, of)?))),
    }
}
