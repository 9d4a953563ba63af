ghost use Rattle.std.specs.Prelude.{◌≡◌, ◌++◌, ◌∷◌, ◌<◌, ◌≤◌, [], length, slice_get, Some, None, OnOk, OnErr, OnSome};
ghost use Rattle.std.specs.Option.{option_copied};
ghost use Rattle.lil_types.specs.Types.{facts, span, aimed, revealed, meets as spec_meets, is_pointer as is_pointer_form, is_untold as is_untold_form};

use crate::fields::Fields;
use lil_base::{Items, Memory, Name, Text};
use std::alloc::Global;
use std::marker::Model;

/// The number of a type. The numbers 0 to 7 are INTEGER, CARDINAL, BOOLEAN, CHAR, BITSET, PROC, ADDRESS and PROCESS; those
/// of a unit's table begin at 16, in the order in which the types are complete. The greatest number is no type's.
pub type TypeId = u32;

/// INTEGER, with the values -32768 to 32767.
pub const INTEGER: TypeId = 0;

/// CARDINAL, with the values 0 to 65535.
pub const CARDINAL: TypeId = 1;

/// BOOLEAN, with FALSE as 0 and TRUE as 1.
pub const BOOLEAN: TypeId = 2;

/// CHAR, with the values 0 to 255.
pub const CHAR: TypeId = 3;

/// BITSET, a set of the numbers 0 to 15.
pub const BITSET: TypeId = 4;

/// PROC, the procedure type without parameters.
pub const PROC: TypeId = 5;

/// ADDRESS, the type of the places of the store.
pub const ADDRESS: TypeId = 6;

/// PROCESS, the type of coroutines.
pub const PROCESS: TypeId = 7;

/// The module to which a type belongs, 0 for the unit's own and k for the k-th of those on which the unit rests, and its number
/// there.
#[derive(Clone, Copy, PartialEq, Eq, Hash)]
pub struct Origin {
    pub module: usize,
    pub number: TypeId,
}

/// The numbers of an ordinal type's values, from one to another.
#[derive(Clone, Copy, PartialEq, Eq)]
pub struct Span {
    pub low: i32,
    pub high: i32,
}

/// Whether a number is in both.
pub fn meets(s: Span, u: Span) -> bool
    ensures { result ≡ spec_meets s u }
{
    !(s.high < u.low) && !(u.high < s.low)
}

/// A field of a record.
#[derive(Drop)]
pub struct Field {
    pub name: Name,
    pub sort: TypeId,
}

/// A parameter of a procedure type.
#[derive(Clone, Copy, PartialEq, Eq)]
pub struct Parameter {
    pub by_place: bool,
    pub open_array: bool,
    pub sort: TypeId,
}

/// How a type is built (Programming in Modula-2, Data types). The parts of all but pointers have smaller numbers. An opaque
/// type may be another in its implementation.
#[derive(Drop)]
pub enum TypeForm {
    Enumeration(Items<Name>),
    Subrange(TypeId, Span),
    Array(TypeId, TypeId),
    Record(Fields),
    SetOf(TypeId),
    Pointer(TypeId),
    Procedure(Items<Parameter>, Option<TypeId>),
    Opaque(Option<TypeId>),
}

/// What is often asked of a type: the type below all subranges, the words of a variable, and of an ordinal type its
/// values.
#[derive(Clone, Copy, PartialEq, Eq)]
pub struct Facts {
    pub base: TypeId,
    pub words: u32,
    pub span: Option<Span>,
}

impl Facts {
    /// Of an ordinal type, by its lowest and highest value.
    pub fn ordinal(base: TypeId, low: i32, high: i32) -> Facts
        ensures { result ≡ facts base 1 (Some (span low high)) }
    {
        Facts {
            base,
            words: 1,
            span: Some(Span { low, high }),
        }
    }

    /// Of a type that isn't ordinal.
    pub fn other(base: TypeId, words: u32) -> Facts
        ensures { result ≡ facts base words None }
    {
        Facts {
            base,
            words,
            span: None,
        }
    }
}

/// A type of a table.
#[derive(Drop)]
pub struct TypeEntry {
    pub origin: Origin,
    pub form: TypeForm,
    pub facts: Facts,
}

/// The types of a unit, from number 16 on: at most 4,294,967,279.
#[derive(Drop)]
pub struct TypeTable {
    entries: Vec<TypeEntry>,
}

impl Model for TypeTable {
    ghost use Rattle.std.specs.Prelude.{◌≤◌, List, length};
    ghost use Rattle.lil_types.specs.declared.table.TypeEntry.{TypeEntry};

    ghost Value = { List TypeEntry };

    ghost view = { λ t. t.entries.items };

    ghost invariant = { λ t. length t.entries.items ≤ 4294967279 };
}

pub(crate) fn is_pointer(form: &TypeForm) -> bool
    ensures { result ≡ is_pointer_form form.now }
{
    matches!(form, TypeForm::Pointer(_))
}

pub(crate) fn is_untold(form: &TypeForm) -> bool
    ensures { result ≡ is_untold_form form.now }
{
    matches!(form, TypeForm::Opaque(None))
}

impl TypeTable {
    /// No types but the standard ones.
    pub fn new(alloc: Global) -> TypeTable
        ensures { result ≡ [] }
    {
        TypeTable {
            entries: Vec::new(alloc),
        }
    }

    /// How many types there are but the standard ones.
    pub fn len(&self) -> usize
        ensures number { result ≡ length self.now }
        ensures most { result ≤ 4294967279 }
    {
        self.entries.len()
    }

    /// The types in their order.
    pub fn as_slice(&self) -> &[TypeEntry]
        ensures { result.now ≡ self.now }
    {
        self.entries.as_slice()
    }

    /// The type at a place of the table, from 0.
    pub fn get(&self, at: usize) -> Option<&TypeEntry>
        ensures value { option_copied result ≡ slice_get self.now at }
        ensures within { OnSome result (at < length self.now) }
    {
        self.entries.get(at)
    }

    /// A type more, at the end. After a refusal the table is as before.
    pub(crate) fn push(&mut self, entry: TypeEntry) -> Result<(), Memory>
        requires { length self.old < 4294967279 }
        ensures ok { OnOk result (self.new ≡ self.old ++ entry ∷ []) }
        ensures err { OnErr result (self.new ≡ self.old) }
    {
        self.entries.push(entry)?;
        Ok(())
    }

    /// Lets a pointer type point to another type; the number of any other type changes nothing.
    pub fn aim(&mut self, pointer: TypeId, target: TypeId)
        ensures { self.new ≡ aimed self.old pointer target }
    {
        if pointer < 16 {
            return;
        }
        let at = pointer as usize - 16;
        if at < self.entries.len() && is_pointer(&self.entries[at].form) {
            self.entries[at].form = TypeForm::Pointer(target);
        }
    }

    /// Tells which type an opaque type is in its implementation. Where that is told, and of any other type, nothing changes.
    pub fn reveal(&mut self, opaque: TypeId, other: TypeId)
        ensures { self.new ≡ revealed self.old opaque other }
    {
        if opaque < 16 {
            return;
        }
        let at = opaque as usize - 16;
        if at < self.entries.len() && is_untold(&self.entries[at].form) {
            self.entries[at].form = TypeForm::Opaque(Some(other));
        }
    }
}

/// A constant: a whole number of no type, a value of an ordinal or set type by its word, or a string.
#[derive(Drop)]
pub enum Const {
    Whole(i32),
    Scalar(TypeId, u16),
    Chars(Text),
}

/// Why an operation on constants has no result: its fault's number.
#[derive(Clone, Copy, PartialEq, Eq)]
pub enum FoldStop {
    Fault(u8),
}
