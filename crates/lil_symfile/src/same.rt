ghost use Rattle.std.specs.Prelude.{◌≡◌, ◌↔◌, IsTrue};

use crate::tree::{Class, Field, Form, Parameter, SymName, SymType, SymbolFile};
use lil_base::{Name, same_bytes};
use lil_format::Wanted;

/// Values that are compared part by part.
trait Same {
    /// Whether two are the same.
    fn same(&self, other: &Self) -> bool
        ensures { IsTrue result ↔ self.now ≡ other.now };
}

/// Whether two lists have the same items.
fn same_items<T: Same>(a: &[T], b: &[T]) -> bool
    ensures { IsTrue result ↔ a.now ≡ b.now }
{
    if a.len() != b.len() {
        return false;
    }
    for (at, one) in a.iter().enumerate() {
        if !one.same(&b[at]) {
            return false;
        }
    }
    true
}

impl Same for Name {
    fn same(&self, other: &Name) -> bool {
        same_bytes(self.as_slice(), other.as_slice())
    }
}

impl Same for Wanted {
    fn same(&self, other: &Wanted) -> bool {
        self.key.0 == other.key.0 && self.name.same(&other.name)
    }
}

impl Same for Field {
    fn same(&self, other: &Field) -> bool {
        self.sort == other.sort && self.name.same(&other.name)
    }
}

impl Same for Parameter {
    fn same(&self, other: &Parameter) -> bool {
        self.by_place == other.by_place
            && self.open_array == other.open_array
            && self.sort == other.sort
    }
}

impl Same for Form {
    fn same(&self, other: &Form) -> bool {
        match (self, other) {
            (Form::Enumeration { names }, Form::Enumeration { names: others }) => {
                same_items(names.as_slice(), others.as_slice())
            }
            (
                Form::Subrange { base, lower, upper },
                Form::Subrange {
                    base: other_base,
                    lower: other_lower,
                    upper: other_upper,
                },
            ) => base == other_base && lower == other_lower && upper == other_upper,
            (
                Form::Array { index, element },
                Form::Array {
                    index: other_index,
                    element: other_element,
                },
            ) => index == other_index && element == other_element,
            (Form::Record { fields }, Form::Record { fields: others }) => {
                same_items(fields.as_slice(), others.as_slice())
            }
            (Form::Set { base }, Form::Set { base: other_base }) => base == other_base,
            (
                Form::Pointer { target },
                Form::Pointer {
                    target: other_target,
                },
            ) => { target == other_target }
            (
                Form::Procedure { parameters, answer },
                Form::Procedure {
                    parameters: others,
                    answer: other_answer,
                },
            ) => answer == other_answer && same_items(parameters.as_slice(), others.as_slice()),
            (Form::Opaque, Form::Opaque) => true,
            _ => false,
        }
    }
}

impl Same for SymType {
    fn same(&self, other: &SymType) -> bool {
        self.origin == other.origin && self.number == other.number && self.form.same(&other.form)
    }
}

impl Same for Class {
    fn same(&self, other: &Class) -> bool {
        match (self, other) {
            (Class::Whole { value }, Class::Whole { value: other_value }) => value == other_value,
            (
                Class::Scalar { sort, word },
                Class::Scalar {
                    sort: other_sort,
                    word: other_word,
                },
            ) => sort == other_sort && word == other_word,
            (Class::Chars { text }, Class::Chars { text: other_text }) => {
                same_bytes(text.as_slice(), other_text.as_slice())
            }
            (Class::Sort { sort }, Class::Sort { sort: other_sort }) => sort == other_sort,
            (
                Class::Variable { sort, offset },
                Class::Variable {
                    sort: other_sort,
                    offset: other_offset,
                },
            ) => sort == other_sort && offset == other_offset,
            (
                Class::Procedure { sort, number },
                Class::Procedure {
                    sort: other_sort,
                    number: other_number,
                },
            ) => sort == other_sort && number == other_number,
            _ => false,
        }
    }
}

impl Same for SymName {
    fn same(&self, other: &SymName) -> bool {
        self.shown == other.shown && self.name.same(&other.name) && self.class.same(&other.class)
    }
}

/// Whether two files say the same.
pub fn same_file(a: &SymbolFile, b: &SymbolFile) -> bool
    ensures { IsTrue result ↔ a.now ≡ b.now }
{
    a.name.same(&b.name)
        && a.key.0 == b.key.0
        && same_items(a.rests.as_slice(), b.rests.as_slice())
        && same_items(a.types.as_slice(), b.types.as_slice())
        && same_items(a.names.as_slice(), b.names.as_slice())
}
