ghost use Rattle.std.specs.Prelude.{◌≡◌, length, MatchOption, Some, None};
ghost use Rattle.lil_format.specs.Reading.{Reads, number_of, run_of, u1, u2, u4};
ghost use Rattle.lil_format.specs.Reading as reading;
ghost use Rattle.lil_format.specs.Format as spec;

use crate::stop::Stop;
use lil_base::same_bytes;
use std::marker::Model;

/// The bytes of a file that aren't read yet.
#[derive(Drop)]
pub struct Source<'b> {
    rest: &'b [u8],
}

impl<'b> Model for Source<'b> {
    ghost use Rattle.std.specs.Prelude.{List, ℕ};

    ghost Value = { List ℕ };

    ghost view = { λ s. s.rest.now };
}

/// Whether two runs of bytes are the same.
pub fn same(a: &[u8], b: &[u8]) -> bool
    ensures { result ≡ spec.same a.now b.now }
{
    same_bytes(a, b)
}

/// The offset from which on so many bytes of a file of this size are left.
pub fn offset(size: usize, left: usize) -> u32
    ensures { result ≡ reading.offset size left }
{
    let at = size.saturating_sub(left);
    if at < 4_294_967_295 {
        at as u32
    } else {
        4_294_967_295
    }
}

impl<'b> Source<'b> {
    /// All of these bytes.
    pub fn new(rest: &'b [u8]) -> Source<'b>
        ensures { result ≡ rest.now }
    {
        Source { rest }
    }

    /// How many bytes are left.
    pub fn left(&self) -> usize
        ensures { result ≡ length self.now }
    {
        self.rest.len()
    }

    /// Whether none is left.
    pub fn is_empty(&self) -> bool
        ensures { result ≡ spec.is_end self.now }
    {
        match self.rest {
            [] => true,
            _ => false,
        }
    }

    /// Takes a number of one byte; none, and no byte, where it isn't whole. So do `word` and `long`.
    pub fn byte(&mut self) -> Option<u8>
        ensures { MatchOption result (number_of u1 self.old ≡ None) (λ n. number_of u1 self.old ≡ Some (n, self.new)) }
    {
        match self.rest {
            [a, rest @ ..] => {
                self.rest = rest;
                Some(*a)
            }
            _ => None,
        }
    }

    /// Takes a number of two bytes.
    pub fn word(&mut self) -> Option<u16>
        ensures { MatchOption result (number_of u2 self.old ≡ None) (λ n. number_of u2 self.old ≡ Some (n, self.new)) }
    {
        match self.rest {
            [a, b, rest @ ..] => {
                self.rest = rest;
                Some(u16::from(*a) * 256 + u16::from(*b))
            }
            _ => None,
        }
    }

    /// Takes a number of four bytes.
    pub fn long(&mut self) -> Option<u32>
        ensures { MatchOption result (number_of u4 self.old ≡ None) (λ n. number_of u4 self.old ≡ Some (n, self.new)) }
    {
        match self.rest {
            [a, b, c, d, rest @ ..] => {
                self.rest = rest;
                let high = u32::from(*a) * 256 + u32::from(*b);
                Some((high * 256 + u32::from(*c)) * 256 + u32::from(*d))
            }
            _ => None,
        }
    }

    /// Takes so many bytes; none where fewer are left.
    pub fn run(&mut self, size: usize) -> Option<&'b [u8]>
        ensures { MatchOption result (run_of size self.old ≡ None) (λ t. run_of size self.old ≡ Some (t.now, self.new)) }
    {
        if self.rest.len() < size {
            return None;
        }
        let (run, rest) = self.rest.split_at(size);
        self.rest = rest;
        Some(run)
    }

    /// Takes these bytes, or stops before them.
    pub fn letters(&mut self, all: &[u8]) -> Result<(), Stop>
        ensures { Reads (spec.letters_in all.now self.old) result self.new }
    {
        let here = self.left();
        match self.run(all.len()) {
            None => Err(Stop::Left(0)),
            Some(run) if same(all, run) => Ok(()),
            Some(_) => Err(Stop::Left(here)),
        }
    }
}
