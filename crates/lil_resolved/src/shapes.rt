use crate::RKind;
use lil_base::Items;

/// A field of a record: the words of the record before it, and the number of its shape.
#[derive(Clone, Copy)]
pub struct RField {
    pub offset: u16,
    pub shape: usize,
}

/// Elements of an array: how many there are, how many words each takes, and the number of its shape.
#[derive(Clone, Copy)]
pub struct RElements {
    pub count: u32,
    pub words: u16,
    pub shape: usize,
}

/// What lies in a variable or in a part of one: nothing of which code is made, a value, fields, or elements.
#[derive(Drop)]
pub enum RShape {
    Absent,
    Word(RKind),
    Fields(Items<RField>),
    Elements(RElements),
}
