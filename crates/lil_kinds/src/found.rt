use lil_base::{Place, Shared, Text};
use lil_resolved::{RExpr, ROpening, RPlace};
use lil_scope::Kind;
use lil_types::TypeId;

/// Whether an expression is the place of a variable or of a part of one: a value is none, and a character of an ARRAY OF CHAR
/// can't be handed over as a variable.
#[derive(Clone, Copy)]
pub enum Standing {
    Value,
    Variable,
    Character,
}

/// A variable or a part of one, and its type.
#[derive(Drop)]
pub struct Located {
    pub place: RPlace,
    pub sort: TypeId,
}

/// An open array as a whole, which is a parameter: whether it is copied, how many levels out its procedure is, its number among
/// that one's variables, and the type of its elements.
#[derive(Clone, Copy)]
pub struct OpenArray {
    pub opening: ROpening,
    pub levels: u8,
    pub number: usize,
    pub sort: TypeId,
}

/// What is done to have the value of an expression: nothing, where it is a constant of which all is known, and where its
/// form has no code; a string's characters are taken; the value at a place; an open array, which has none; what is computed; or
/// a procedure of the text itself, by its number.
#[derive(Drop)]
pub enum Form {
    Nothing,
    Text(Shared<Text>),
    Located(Located),
    Open(OpenArray),
    Value(RExpr),
    Routine(usize),
}

/// An expression that has a type: its form, what is known of its value, its first token, and its depth.
#[derive(Drop)]
pub struct Found {
    pub form: Form,
    pub kind: Kind,
    pub first: Place,
    pub depth: usize,
    pub standing: Standing,
}

/// What an operator or a standard function makes of its operands: it doesn't take them, the constant result lies outside, or a value
/// of this kind.
#[derive(Clone, Copy)]
pub enum Applied {
    Refused,
    Outside,
    Gives(Kind),
}
