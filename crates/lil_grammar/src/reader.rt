ghost use Rattle.std.specs.Prelude.{◌≡◌, length};
ghost use Rattle.std.specs.Option.{option_copied};
ghost use Rattle.lil_grammar.specs.Steps as spec;
ghost use Rattle.lil_grammar.specs.Steps.{Reads};

use crate::fault::{nested, syntax};
use lil_base::Place;
use lil_text::{Ident, Mark, ReadStop, Token, TokenKind, Word};
use std::alloc::Global;
use std::marker::Model;

/// The tokens that are left.
#[derive(Drop)]
pub struct Reader<'t> {
    rest: &'t [Token],
}

impl<'t> Model for Reader<'t> {
    ghost use Rattle.std.specs.Prelude.{List};
    ghost use Rattle.lil_text.specs.declared.token.Token.{Token};

    ghost Value = { List Token };

    ghost view = { λ r. r.rest.now };
}

#[tactic(auto, unfolding(crate::specs::Steps::same_mark))]
fn is_mark(mark: Mark, what: &TokenKind) -> bool
    ensures { result ≡ spec.is_mark mark what.now }
{
    match what {
        TokenKind::Mark(m) => *m == mark,
        _ => false,
    }
}

#[tactic(auto, unfolding(crate::specs::Steps::same_word))]
fn is_word(word: Word, what: &TokenKind) -> bool
    ensures { result ≡ spec.is_word word what.now }
{
    match what {
        TokenKind::Word(w) => *w == word,
        _ => false,
    }
}

impl<'t> Reader<'t> {
    pub fn new(rest: &'t [Token]) -> Reader<'t>
        ensures { result ≡ rest.now }
    {
        Reader { rest }
    }

    /// How many tokens are left.
    pub fn left(&self) -> usize
        ensures { result ≡ length self.now }
    {
        self.rest.len()
    }

    /// The place of the next token.
    #[tactic(auto, unfolding(crate::specs::Steps::place_of))]
    pub fn place(&self) -> Place
        ensures { result ≡ spec.place_of self.now }
    {
        match self.rest {
            [] => Place {
                line: 0,
                column: 0,
                offset: 0,
            },
            [t, ..] => t.place,
        }
    }

    /// The fault where no part may begin, whether one would or not.
    pub fn shallow<T>(&self, begins: bool) -> Result<T, ReadStop>
        ensures { Reads (spec.either_by spec.too_deep spec.refuse begins self.now) result self.now }
    {
        if begins {
            Err(nested(self.place()))
        } else {
            Err(syntax(self.place()))
        }
    }

    /// Goes past the next token.
    #[tactic(auto, unfolding(crate::specs::Steps::next))]
    pub fn skip(&mut self)
        ensures { self.new ≡ spec.next self.old }
    {
        if let [_, rest @ ..] = self.rest {
            self.rest = rest;
        }
    }

    /// What the next token is, if one is left.
    pub fn what(&self) -> Option<&'t TokenKind>
        ensures { option_copied result ≡ spec.what self.now }
    {
        match self.rest {
            [] => None,
            [t, ..] => Some(&t.what),
        }
    }

    /// Whether the next token is this mark.
    #[tactic(auto, unfolding(crate::specs::Steps::at))]
    pub fn sees(&self, mark: Mark) -> bool
        ensures { result ≡ spec.at (spec.is_mark mark) self.now }
    {
        matches!(self.what(), Some(what) if is_mark(mark, what))
    }

    /// Whether the next token is this word.
    #[tactic(auto, unfolding(crate::specs::Steps::at))]
    pub fn sees_word(&self, word: Word) -> bool
        ensures { result ≡ spec.at (spec.is_word word) self.now }
    {
        matches!(self.what(), Some(what) if is_word(word, what))
    }

    /// Takes this mark, at its place.
    #[tactic(auto, unfolding(crate::specs::Steps::token, crate::specs::Steps::place_of))]
    pub fn expect(&mut self, mark: Mark) -> Result<Place, ReadStop>
        ensures { Reads (spec.token (spec.mark_at mark) self.old) result self.new }
    {
        match self.rest {
            [t, rest @ ..] if is_mark(mark, &t.what) => {
                self.rest = rest;
                Ok(t.place)
            }
            _ => Err(syntax(self.place())),
        }
    }

    /// Takes this word, at its place.
    #[tactic(auto, unfolding(crate::specs::Steps::token, crate::specs::Steps::place_of))]
    pub fn expect_word(&mut self, word: Word) -> Result<Place, ReadStop>
        ensures { Reads (spec.token (spec.word_at word) self.old) result self.new }
    {
        match self.rest {
            [t, rest @ ..] if is_word(word, &t.what) => {
                self.rest = rest;
                Ok(t.place)
            }
            _ => Err(syntax(self.place())),
        }
    }

    /// Takes a name.
    #[tactic(auto, unfolding(crate::specs::Steps::token, crate::specs::Steps::place_of))]
    pub fn ident(&mut self, alloc: Global) -> Result<Ident, ReadStop>
        ensures { Reads (spec.token spec.ident_at self.old) result self.new }
    {
        match self.rest {
            [t, rest @ ..] => match &t.what {
                TokenKind::Ident(name) => {
                    let name = name.copy(alloc)?;
                    self.rest = rest;
                    Ok(Ident {
                        place: t.place,
                        name,
                    })
                }
                _ => Err(syntax(t.place)),
            },
            [] => Err(syntax(self.place())),
        }
    }
}
