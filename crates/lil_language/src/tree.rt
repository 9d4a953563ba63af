ghost use Rattle.std.specs.Prelude.{◌≡◌};
ghost use Rattle.lil_language.specs.Trees as spec;

use lil_base::{Boxed, Items, OneOp, Place, Text, TwoOp};
use lil_text::{Ident, Qualident};

/// An expression (Programming in Modula-2, Expressions). The first place of each form is that of its first token;
/// parentheses around it leave no node, but the form then begins at the outermost one. A sign or NOT has its own place
/// behind that. A chain is a first operand and, from left to right, what operators do to it. What is long and rare has a
/// block of its own, since each form takes as much memory as the longest.
#[cycle(expression)]
#[derive(Drop)]
pub enum Expr {
    Whole(Place, u16),
    Code(Place, u8),
    Chars(Place, Text),
    SetOf(Place, Option<Boxed<Qualident>>, Items<Range>),
    Desig(Place, Designator),
    Call(Place, Boxed<Designator>, Items<Expr>),
    One(Place, OneOp, Place, Boxed<Expr>),
    Chain(Place, Boxed<Expr>, Items<Operation>),
}

/// An operator at its place, and its right operand.
#[cycle(expression)]
#[derive(Drop)]
pub struct Operation {
    pub operator: TwoOp,
    pub place: Place,
    pub operand: Expr,
}

/// An element of a set or a label: a value, or all from one to another.
#[cycle(expression)]
#[derive(Drop)]
pub struct Range {
    pub low: Expr,
    pub high: Option<Boxed<Expr>>,
}

/// A name and what is selected of it.
#[cycle(expression)]
#[derive(Drop)]
pub struct Designator {
    pub first: Ident,
    pub selectors: Items<Selector>,
}

/// A field, elements, or what a pointer points to, at the full stop, the bracket or the arrow.
#[cycle(expression)]
#[derive(Drop)]
pub enum Selector {
    Field(Place, Ident),
    Index(Place, Items<Expr>),
    Follow(Place),
}

/// A statement (Programming in Modula-2, Statements), at its first word, or at `:=`. A statement without tokens is
/// none, and a call without parentheses has no arguments.
#[cycle(statement)]
#[derive(Drop)]
pub enum Stmt {
    Assign(Designator, Place, Boxed<Expr>),
    Call(Designator, Items<Expr>),
    If(Place, Items<Guard>, Option<Items<Stmt>>),
    Case(Place, Boxed<Expr>, Items<Arm>, Option<Items<Stmt>>),
    While(Place, Boxed<Expr>, Items<Stmt>),
    Repeat(Place, Items<Stmt>, Boxed<Expr>),
    Loop(Place, Items<Stmt>),
    For(Place, ForHead, Items<Stmt>),
    With(Place, Designator, Items<Stmt>),
    Exit(Place),
    Return(Place, Option<Boxed<Expr>>),
}

/// A condition, and the statements behind its THEN.
#[cycle(statement)]
#[derive(Drop)]
pub struct Guard {
    pub condition: Boxed<Expr>,
    pub body: Items<Stmt>,
}

/// The labels of an arm of CASE, and the statements behind them. An arm without tokens is none.
#[cycle(statement)]
#[derive(Drop)]
pub struct Arm {
    pub labels: Items<Range>,
    pub body: Items<Stmt>,
}

/// What stands between FOR and DO.
#[derive(Drop)]
pub struct ForHead {
    pub variable: Ident,
    pub becomes: Place,
    pub from: Boxed<Expr>,
    pub to: Boxed<Expr>,
    pub by: Option<Boxed<Expr>>,
}

/// The place of an expression's first token, a parenthesis around it included.
#[tactic(auto, unfolding(crate::specs::Trees::first_place))]
pub fn first_place(x: &Expr) -> Place
    ensures { result ≡ spec.first_place x.now }
{
    match x {
        Expr::Whole(first, _) => *first,
        Expr::Code(first, _) => *first,
        Expr::Chars(first, _) => *first,
        Expr::SetOf(first, _, _) => *first,
        Expr::Desig(first, _) => *first,
        Expr::Call(first, _, _) => *first,
        Expr::One(first, _, _, _) => *first,
        Expr::Chain(first, _, _) => *first,
    }
}

/// The same expression behind a parenthesis at this place.
#[tactic(auto, unfolding(crate::specs::Trees::begun_at))]
pub fn begun_at(first: Place, x: Expr) -> Expr
    ensures { result ≡ spec.begun_at first x }
{
    match x {
        Expr::Whole(_, value) => Expr::Whole(first, value),
        Expr::Code(_, code) => Expr::Code(first, code),
        Expr::Chars(_, text) => Expr::Chars(first, text),
        Expr::SetOf(_, sort, elements) => Expr::SetOf(first, sort, elements),
        Expr::Desig(_, designator) => Expr::Desig(first, designator),
        Expr::Call(_, designator, actuals) => Expr::Call(first, designator, actuals),
        Expr::One(_, operator, at, operand) => Expr::One(first, operator, at, operand),
        Expr::Chain(_, operand, operations) => Expr::Chain(first, operand, operations),
    }
}
