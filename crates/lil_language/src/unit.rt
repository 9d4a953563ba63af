ghost use Rattle.std.specs.Prelude.{◌≡◌};

use crate::tree::{Expr, Range, Stmt};
use lil_base::{Boxed, Items, Place};
use lil_text::{Ident, Qualident};

/// The three kinds of unit (Programming in Modula-2, Compilation units).
#[derive(Clone, Copy, PartialEq, Eq)]
pub enum UnitKind {
    Definition,
    Implementation,
    Program,
}

/// An import of modules, or of names from one, at FROM or IMPORT.
#[derive(Drop)]
pub struct Import {
    pub place: Place,
    pub from: Option<Ident>,
    pub names: Items<Ident>,
}

/// A parameter of a procedure type, at its first token: VAR, ARRAY or its type's name.
#[derive(Drop)]
pub struct Formal {
    pub place: Place,
    pub by_place: bool,
    pub open_array: bool,
    pub sort: Qualident,
}

/// Parameters of a heading that have one type, at VAR or their first name.
#[derive(Drop)]
pub struct Section {
    pub place: Place,
    pub by_place: bool,
    pub names: Items<Ident>,
    pub open_array: bool,
    pub sort: Qualident,
}

/// The heading of a procedure, at PROCEDURE. One without parentheses has no parameters.
#[derive(Drop)]
pub struct Heading {
    pub place: Place,
    pub name: Ident,
    pub sections: Items<Section>,
    pub result: Option<Qualident>,
}

/// A type that may be an index or a set's base. Forms but the name have the place of their first token.
#[derive(Drop)]
pub enum Simple {
    Named(Qualident),
    Enumeration(Place, Items<Ident>),
    Subrange(Place, Option<Qualident>, Boxed<Expr>, Boxed<Expr>),
}

/// A type as it is written, at its first word (Programming in Modula-2, Data types).
#[cycle(sort)]
#[derive(Drop)]
pub enum Sort {
    Scalar(Simple),
    ArrayOf(Place, Items<Simple>, Boxed<Sort>),
    RecordOf(Place, Items<FieldList>),
    SetOver(Place, Simple),
    PointerTo(Place, Boxed<Sort>),
    ProcedureOf(Place, Items<Formal>, Option<Qualident>),
}

/// Fields of one type, or the variants of a record at their CASE, with the fields behind its ELSE. A list without
/// tokens is none.
#[cycle(sort)]
#[derive(Drop)]
pub enum FieldList {
    Fields(Items<Ident>, Sort),
    Variants(Place, Option<Ident>, Qualident, Items<Variant>, Option<Items<FieldList>>),
}

/// The labels of a variant, and its fields. A variant without tokens is none.
#[cycle(sort)]
#[derive(Drop)]
pub struct Variant {
    pub labels: Items<Range>,
    pub fields: Items<FieldList>,
}

/// A constant.
#[derive(Drop)]
pub struct Constant {
    pub name: Ident,
    pub value: Boxed<Expr>,
}

/// A type's name, and its form. One without a form is opaque.
#[derive(Drop)]
pub struct TypeName {
    pub name: Ident,
    pub sort: Option<Sort>,
}

/// Variables of one type.
#[derive(Drop)]
pub struct Variables {
    pub names: Items<Ident>,
    pub sort: Sort,
}

/// Declarations of one kind, at their word (Programming in Modula-2, Declarations), or a procedure. A procedure of a
/// definition has no block.
#[cycle(declaration)]
#[derive(Drop)]
pub enum Decl {
    ConstIs(Place, Items<Constant>),
    TypeIs(Place, Items<TypeName>),
    VarsAre(Place, Items<Variables>),
    ProcIs(Heading, Option<Block>),
}

/// The block of a procedure, and the name behind its END.
#[cycle(declaration)]
#[derive(Drop)]
pub struct Block {
    pub decls: Items<Decl>,
    pub body: Items<Stmt>,
    pub end: Ident,
}

/// What stands before a unit's declarations, at its first word. Only a definition has exports.
#[derive(Drop)]
pub struct Head {
    pub place: Place,
    pub kind: UnitKind,
    pub name: Ident,
    pub imports: Items<Import>,
    pub exports: Option<Items<Ident>>,
}

/// A unit, with the name behind its END and the number of its tokens.
#[derive(Drop)]
pub struct Unit {
    pub head: Head,
    pub decls: Items<Decl>,
    pub body: Items<Stmt>,
    pub end: Ident,
    pub weight: u32,
}

/// The number of a unit's tokens, up to its last full stop.
pub fn weight(u: &Unit) -> u32
    ensures { result ≡ u.now.weight }
{
    u.weight
}
