ghost use Rattle.std.specs.Prelude.{◌≡◌, [], ◌∷◌, ◌++◌, ◌≤◌, length, true, false, IsTrue, IfOk, MatchOption};
ghost use Rattle.std.specs.List.{list_all};
ghost use Rattle.lil_base.specs.Names.{is_letter, is_digit, is_name_byte, is_file_byte, is_name, is_file_name, ending, file_of, book_file};

use crate::{Memory, Text};
use std::alloc::Global;
use std::marker::Model;

/// The name of a module or of another thing of a text: 1 to 64 letters and digits that begin with a letter.
#[derive(Drop)]
pub struct Name {
    text: Text,
}

impl Model for Name {
    ghost use Rattle.std.specs.Prelude.{◌≡◌, ℕ, List, true};
    ghost use Rattle.lil_base.specs.Names.{is_name};

    ghost Value = { List ℕ };

    ghost view = { λ n. n.text };

    ghost invariant = { λ n. is_name n.text ≡ true };
}

/// The name of a file: 1 to 68 letters, digits and full stops that begin with a letter.
#[derive(Drop)]
pub struct FileName {
    text: Text,
}

impl Model for FileName {
    ghost use Rattle.std.specs.Prelude.{◌≡◌, ℕ, List, true};
    ghost use Rattle.lil_base.specs.Names.{is_file_name};

    ghost Value = { List ℕ };

    ghost view = { λ n. n.text };

    ghost invariant = { λ n. is_file_name n.text ≡ true };
}

/// The files of a module, by the endings of their names.
#[derive(Clone, Copy, PartialEq, Eq)]
pub enum FileKind {
    /// The source of its definition.
    Definition,
    /// The source of its implementation, or of a program.
    Module,
    /// The symbol file of its definition.
    Symbols,
}

impl FileKind {
    /// What follows the module's name, the full stop included.
    pub fn ending(self) -> &'static [u8]
        ensures { result.now ≡ ending self }
    {
        match self {
            FileKind::Definition => b".DEF",
            FileKind::Module => b".MOD",
            FileKind::Symbols => b".SYM",
        }
    }
}

fn letter(c: u8) -> bool
    ensures { result ≡ is_letter c }
{
    (65 <= c && c <= 90) || (97 <= c && c <= 122)
}

fn digit(c: u8) -> bool
    ensures { result ≡ is_digit c }
{
    48 <= c && c <= 57
}

fn name_byte(c: u8) -> bool
    ensures { result ≡ is_name_byte c }
{
    letter(c) || digit(c)
}

fn file_byte(c: u8) -> bool
    ensures { result ≡ is_file_byte c }
{
    letter(c) || digit(c) || c == 46
}

fn all_name_bytes(t: &[u8]) -> bool
    ensures { result ≡ list_all is_name_byte t.now }
{
    t.iter().all(|c| name_byte(*c))
}

fn all_file_bytes(t: &[u8]) -> bool
    ensures { result ≡ list_all is_file_byte t.now }
{
    t.iter().all(|c| file_byte(*c))
}

fn makes_name(t: &[u8]) -> bool
    ensures { result ≡ is_name t.now }
{
    match t {
        [] => false,
        [first, rest @ ..] => letter(*first) && rest.len() <= 63 && all_name_bytes(rest),
    }
}

fn makes_file_name(t: &[u8]) -> bool
    ensures { result ≡ is_file_name t.now }
{
    match t {
        [] => false,
        [first, rest @ ..] => letter(*first) && rest.len() <= 67 && all_file_bytes(rest),
    }
}

impl Name {
    /// The name with this text, or None where it is none.
    pub fn new(alloc: Global, t: &Text) -> Result<Option<Name>, Memory>
        ensures { IfOk result (λ o. MatchOption o (is_name t.now ≡ false) (λ n. (n ≡ t.now) × (is_name t.now ≡ true))) }
    {
        Name::of_slice(alloc, t.as_slice())
    }

    /// The name with these bytes, or None where they are none.
    pub fn of_slice(alloc: Global, t: &[u8]) -> Result<Option<Name>, Memory>
        ensures { IfOk result (λ o. MatchOption o (is_name t.now ≡ false) (λ n. (n ≡ t.now) × (is_name t.now ≡ true))) }
    {
        if !makes_name(t) {
            return Ok(None);
        }
        let text = Text::from_slice(alloc, t)?;
        Ok(Some(Name { text }))
    }

    /// Its bytes.
    pub fn text(&self) -> &Text
        ensures value { result.now ≡ self.now }
        ensures form { is_name self.now ≡ true }
    {
        &self.text
    }

    /// Its bytes as a slice.
    pub fn as_slice(&self) -> &[u8]
        ensures value { result.now ≡ self.now }
        ensures form { is_name self.now ≡ true }
    {
        self.text.as_slice()
    }

    /// Another with the same text.
    pub fn copy(&self, alloc: Global) -> Result<Name, Memory>
        ensures { IfOk result (λ n. n ≡ self.now) }
    {
        let text = Text::from_slice(alloc, self.text.as_slice())?;
        Ok(Name { text })
    }

    /// A file of the module of this name.
    pub fn file(&self, alloc: Global, kind: FileKind) -> Result<FileName, Memory>
        ensures { IfOk result (λ f. f ≡ file_of self.now kind) }
    {
        let mut text = Text::from_slice(alloc, self.text.as_slice())?;
        text.extend(kind.ending())?;
        Ok(FileName { text })
    }
}

impl FileName {
    /// The file of the volume's book.
    pub fn book(alloc: Global) -> Result<FileName, Memory>
        ensures { IfOk result (λ f. f ≡ book_file) }
    {
        let text = Text::from_slice(alloc, b"LILITH.BOK")?;
        Ok(FileName { text })
    }

    /// The file name with this text, or None where it is none.
    pub fn new(alloc: Global, t: &Text) -> Result<Option<FileName>, Memory>
        ensures { IfOk result (λ o. MatchOption o (is_file_name t.now ≡ false) (λ n. (n ≡ t.now) × (is_file_name t.now ≡ true))) }
    {
        if !makes_file_name(t.as_slice()) {
            return Ok(None);
        }
        let text = Text::from_slice(alloc, t.as_slice())?;
        Ok(Some(FileName { text }))
    }

    /// Its bytes.
    pub fn text(&self) -> &Text
        ensures value { result.now ≡ self.now }
        ensures form { is_file_name self.now ≡ true }
    {
        &self.text
    }

    /// Another with the same text.
    pub fn copy(&self, alloc: Global) -> Result<FileName, Memory>
        ensures { IfOk result (λ n. n ≡ self.now) }
    {
        let text = Text::from_slice(alloc, self.text.as_slice())?;
        Ok(FileName { text })
    }
}
