ghost use Rattle.std.specs.Prelude.{◌≡◌};
ghost use Rattle.lil_resolved.specs.{Kinds.{OfWhole, compared_as}, Resolved.{kind_of, function_kind}, Views.{base_view, function_of, expression_of}};
ghost use Rattle.lil_resolved.specs.Chains as chain;

use crate::{OneOp, RShape, TwoOp};
use lil_base::{Boxed, Items, Name, Request, Shared, Text};

/// What values are: numbers of a type of whole numbers, truth values, characters, the constants of an enumeration with so
/// many of them, sets of numbers from 0 to 15, pointers of the type with this number, addresses of workspaces, or procedures of the procedure type
/// with this number.
#[derive(Clone, Copy, PartialEq, Eq)]
pub enum RBase {
    Cardinal,
    Integer,
    Truth,
    Character,
    Enumeration(u16),
    Set,
    Pointer(usize),
    Address,
    Procedure(usize),
}

/// The numbers of a subrange, its ends included.
#[derive(Clone, Copy, PartialEq, Eq)]
pub struct RRange {
    pub low: i32,
    pub high: i32,
}

/// The kind of a variable: what its values are, and their range where it is a subrange.
#[derive(Clone, Copy, PartialEq, Eq)]
pub struct RKind {
    pub base: RBase,
    pub range: Option<RRange>,
}

/// A variable, by its number among those of its owner: the module, or the procedure so many levels out, of which the one
/// at hand is 0.
#[derive(Clone, Copy)]
pub enum RNamed {
    Module(usize),
    Level(u8, usize),
}

/// A variable, and its kind.
#[derive(Clone, Copy)]
pub struct RVariable {
    pub named: RNamed,
    pub kind: RKind,
}

/// A standard function of one value. VAL has the kind of which its value is.
#[derive(Clone, Copy)]
pub enum RFunction {
    Abs,
    Cap,
    Chr,
    Odd,
    Ord,
    Val(RKind),
}

/// Whether a variable's number grows, by INC, or falls, by DEC.
#[derive(Clone, Copy, PartialEq, Eq)]
pub enum Direction {
    Up,
    Down,
}

/// Whether a number joins a set, by INCL, or leaves it, by EXCL.
#[derive(Clone, Copy, PartialEq, Eq)]
pub enum Membership {
    Joins,
    Leaves,
}

/// Whether an address gets a workspace, by ALLOCATE, or is NIL again, by DEALLOCATE.
#[derive(Clone, Copy, PartialEq, Eq)]
pub enum Allocation {
    Takes,
    GivesBack,
}

/// An expression with each name replaced by its thing, and each constant expression by its value, which stands by its
/// number. That of a set is the sum of 2 to the power of each number in it, and that of NIL is 0. A chain is its first operand, and then each
/// operation in its order on what stands before it. A value that stands at a place is of the place's kind. A set has its
/// members in order, numbers of a kind. A call of a function has its procedure's number, from 1, how many levels out that is
/// declared, the kind of its value, and its arguments. HIGH has an open array, by how many levels out its procedure is and its
/// number among that one's variables. A procedure as a value has its number, and that of the procedure type; a call of the
/// procedure that is a value has the kind of what it returns, and its arguments.
#[cycle(value)]
#[derive(Drop)]
pub enum RExpr {
    Constant(RBase, i32),
    Taken(RPlace, RKind),
    One(OneOp, Boxed<RExpr>),
    Chain(Boxed<RExpr>, Items<ROperation>),
    Apply(RFunction, Boxed<RExpr>),
    Set(RKind, Items<RMember>),
    Invoke(u8, u8, RKind, Items<RArgument>),
    High(u8, usize),
    Routine(u8, usize),
    InvokeValue(Boxed<RExpr>, RKind, Items<RArgument>),
}

/// What an operator does to the value before it: the operator, and its right operand.
#[cycle(value)]
#[derive(Drop)]
pub struct ROperation {
    pub operator: TwoOp,
    pub operand: RExpr,
}

/// With what a place begins: a variable, what was handed in for a VAR parameter, by how many levels out its procedure is and
/// its number among that one's variables, an element of the open array that is a parameter, by the same and an index, or the
/// record of a WITH around, of which the innermost is 0.
#[cycle(value)]
#[derive(Drop)]
pub enum RRoot {
    Variable(RNamed),
    Handed(u8, usize),
    Along(u8, usize, Boxed<RExpr>),
    Held(usize),
}

/// A place: a root, and its parts, one in another.
#[cycle(value)]
#[derive(Drop)]
pub struct RPlace {
    pub root: RRoot,
    pub selectors: Items<RSelector>,
}

/// A field of a record by its number, an element of an array by an index of a kind, or what a pointer of the type with this
/// number points to.
#[cycle(value)]
#[derive(Drop)]
pub enum RSelector {
    Field(usize),
    Index(RKind, RExpr),
    Follow(usize),
}

/// What is in a set: a number, or all numbers from the first to the second.
#[cycle(value)]
#[derive(Drop)]
pub enum RMember {
    Single(RExpr),
    Span(RExpr, RExpr),
}

/// An argument: a value, with its parameter's kind; a place for a VAR parameter; all that lies at a place, for an array or a
/// record by value; for a parameter that is an open array an array, with the number of its last element, a string, or the
/// open array that is a parameter, by how many levels out its procedure is and its number among that one's variables; or a
/// string for an array by value, with the number of its characters.
#[cycle(value)]
#[derive(Drop)]
pub enum RArgument {
    Value(RKind, RExpr),
    Place(RPlace),
    All(RPlace),
    Array(ROpening, RPlace, u16),
    Text(Shared<Text>),
    Opened(ROpening, u8, usize),
    Spelled(Shared<Text>, u16),
}

/// A resolved statement. A place that is stored to has its kind; a copy has its place, and that of what is copied; a string
/// goes to an array of characters; a set has its place, and the kind of what joins or leaves it; NEW has the place of the
/// pointer, and the number of its type; ALLOCATE and DEALLOCATE have the place of the address, and the number of words. IF has its conditions in
/// order, a CASE or an IF without ELSE has none, FOR has its variable, its first value, its last and its step, and WITH
/// its record. A call has its procedure's number, from 1, how many levels out that is declared, and its arguments; those of the
/// module are declared 0 levels out. That of a procedure that is a value has the value in their place.
#[cycle(resolved)]
#[derive(Drop)]
pub enum RStmt {
    Assign(RPlace, RKind, RExpr),
    Copy(RPlace, RPlace),
    Text(RPlace, Shared<Text>),
    Change(Direction, RPlace, RKind, RExpr),
    Member(Membership, RPlace, RKind, RExpr),
    New(RPlace, usize),
    Allocate(Allocation, RPlace, RExpr),
    Request(Request, Items<RArgument>),
    If(Items<RGuard>, Items<RStmt>),
    Case(RExpr, Items<RArm>, Option<Items<RStmt>>),
    While(RExpr, Items<RStmt>),
    Repeat(Items<RStmt>, RExpr),
    Loop(Items<RStmt>),
    Exit,
    Halt,
    Return,
    Answer(RKind, RExpr),
    Call(u8, u8, Items<RArgument>),
    CallValue(RExpr, Items<RArgument>),
    For(RVariable, RExpr, RExpr, i16, Items<RStmt>),
    With(RPlace, Items<RStmt>),
}

/// A condition, and the statements behind its THEN.
#[cycle(resolved)]
#[derive(Drop)]
pub struct RGuard {
    pub condition: RExpr,
    pub body: Items<RStmt>,
}

/// The labels of an arm of CASE, and the statements behind them.
#[cycle(resolved)]
#[derive(Drop)]
pub struct RArm {
    pub labels: Items<RLabel>,
    pub body: Items<RStmt>,
}

/// Labels: the numbers of all values from one to another.
#[derive(Clone, Copy)]
pub struct RLabel {
    pub low: i32,
    pub high: i32,
}

/// Whether an open array is copied where its procedure is entered, or, as a VAR parameter, isn't.
#[derive(Clone, Copy, PartialEq, Eq)]
pub enum ROpening {
    Copied,
    Lent,
}

/// Whether a variable holds what lies in it, or, as a VAR parameter, the address of a place that was handed in, or, as an open
/// array, that and the number of the last element.
#[derive(Clone, Copy, PartialEq, Eq)]
pub enum RPassing {
    ByValue,
    ByPlace,
    Open(ROpening),
}

/// What a parameter of a procedure type holds, by the number of its shape.
#[derive(Clone, Copy)]
pub struct RPassed {
    pub shape: usize,
    pub passing: RPassing,
}

/// What procedures of a procedure type have: their parameters, and the kind of what they return.
#[derive(Drop)]
pub struct RSignature {
    pub parameters: Items<RPassed>,
    pub result: Option<RKind>,
}

/// A variable: its name, the words before it in the module's data or its procedure's frame, the number of the shape of what
/// lies in it, of the place that it leads to or of each element, and which of these it is.
#[derive(Drop)]
pub struct RDeclared {
    pub name: Name,
    pub offset: u16,
    pub shape: usize,
    pub passing: RPassing,
}

/// What names elsewhere need of a procedure: its name, the numbers of the procedures around it, the innermost first, its
/// variables, its parameters before the others, how many parameters it has, and how many words all of them take.
#[derive(Drop)]
pub struct RHeading {
    pub name: Name,
    pub around: Items<u8>,
    pub locals: Items<RDeclared>,
    pub parameters: usize,
    pub result: Option<RKind>,
    pub words: u16,
}

/// A procedure of a module: its heading, and its statements.
#[derive(Drop)]
pub struct RProcedure {
    pub heading: RHeading,
    pub body: Items<RStmt>,
}

/// A resolved program module: its name, the shapes of its types by their numbers, by the same numbers the shapes to which its
/// pointer types point and what procedures of its procedure types have, its variables, how many words they take, its procedures by their numbers from 1, and the statements
/// of its body.
#[derive(Drop)]
pub struct RModule {
    pub name: Name,
    pub shapes: Items<RShape>,
    pub targets: Items<usize>,
    pub signatures: Items<RSignature>,
    pub variables: Items<RDeclared>,
    pub words: u16,
    pub procedures: Items<RProcedure>,
    pub body: Items<RStmt>,
}

/// The base of the values of an expression: that of a chain's first operand, where all its operators give values of their
/// operands' kind.
#[cycle(kinds)]
#[tactic(auto, using(crate::specs::Chains::chain_kind, crate::specs::Chains::set_kind, crate::specs::Views::invoke_is, crate::specs::Views::high_is, crate::specs::Views::routine_is, crate::specs::Views::invoke_value_is, crate::specs::Bases::own_base))]
pub fn base(e: &RExpr) -> RBase
    ensures { base_view result ≡ kind_of (expression_of e.now) }
{
    match e {
        RExpr::Constant(base, _) => *base,
        RExpr::Taken(_, kind) => kind.base,
        RExpr::One(_, value) => base(value.get()),
        RExpr::Apply(function, value) => function_base(*function, value.get()),
        RExpr::Set(_, _) => RBase::Set,
        RExpr::Invoke(_, _, kind, _) => kind.base,
        RExpr::High(_, _) => RBase::Cardinal,
        RExpr::Routine(_, number) => RBase::Procedure(*number),
        RExpr::InvokeValue(_, kind, _) => kind.base,
        RExpr::Chain(first, operations) => {
            if compute_all(operations.as_slice()) {
                base(first.get())
            } else {
                RBase::Truth
            }
        }
    }
}

/// The base of the value of a standard function.
#[cycle(kinds)]
#[tactic(auto, using(crate::specs::Bases::own_base))]
fn function_base(function: RFunction, value: &RExpr) -> RBase
    ensures { base_view result ≡ function_kind (function_of function (kind_of (expression_of value.now))) }
{
    match function {
        RFunction::Abs => whole_base(base(value)),
        RFunction::Cap | RFunction::Chr => RBase::Character,
        RFunction::Odd => RBase::Truth,
        RFunction::Ord => RBase::Cardinal,
        RFunction::Val(kind) => kind.base,
    }
}

/// The whole numbers as which words of a base are compared.
pub fn whole_base(base: RBase) -> RBase
    ensures { base_view result ≡ OfWhole (compared_as (base_view base)) }
{
    match base {
        RBase::Integer => RBase::Integer,
        _ => RBase::Cardinal,
    }
}

/// Whether operations all compute, so that they leave a value of the kind that they begin with.
#[tactic(auto, using(crate::specs::Chains::arithmetic_left))]
fn compute_all(operations: &[ROperation]) -> bool
    ensures { result ≡ chain.all_arithmetic operations.now }
{
    for operation in operations {
        if !computes(operation.operator) {
            return false;
        }
    }
    true
}

/// Whether an operator is one of arithmetic.
fn computes(operator: TwoOp) -> bool
    ensures { result ≡ chain.is_arithmetic operator }
{
    match operator {
        TwoOp::Plus | TwoOp::Minus | TwoOp::Times | TwoOp::Slash | TwoOp::Div | TwoOp::Mod => true,
        _ => false,
    }
}
