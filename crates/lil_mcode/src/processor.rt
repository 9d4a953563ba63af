ghost use Rattle.std.specs.Prelude.{◌≡◌, ◌+◌, ◌<◌, ◌≤◌, length, vec_len, vec_capacity, false, drop, slice_get, IfOk, Some};
ghost use Rattle.lil_mcode.specs.{Calls.fresh, Table.{array_lies, request_row}};
ghost use Rattle.lil_frames.specs.Words.{spliced};
ghost use Rattle.lil_base.specs.Requests.{request_with};

use crate::arithmetic::{trap_of, truth_word};
use crate::machine::Event;
use crate::request::words_of_request;
use arrayvec::ArrayVec;
use lil_base::{Bytes, Memory, Name, Request};
use lil_frames::MainStore;
use std::alloc::Global;
use std::marker::Model;

mod addresses;
mod control;
mod fetching;
mod frames;
mod loading;
mod operators;
mod pushing;
mod rare;
mod sets;
mod stack;

/// How many modules may be loaded.
const MOST_MODULES: usize = 63;

/// The bytes of the code store.
const CODE_BYTES: usize = 131_072;

/// A module that is loaded: its part of the code store, in bytes, and its data frame, in words.
#[derive(Drop)]
pub struct LoadedModule {
    pub name: Name,
    pub procedures: Vec<(u16, Option<Name>)>,
    pub start: u32,
    pub size: u16,
    pub base: u16,
    pub words: u16,
}

/// The registers, the stores and the table of modules.
#[derive(Drop)]
pub struct Processor {
    modules: Vec<LoadedModule>,
    code: Vec<u8>,
    code_end: u32,
    code_start: u32,
    code_size: u16,
    code_base: u16,
    running: u8,
    place: u16,
    stack: ArrayVec<u16, 16>,
    memory: MainStore,
    frame: u16,
    top: u16,
    base: u16,
    bodies: Bytes,
    marked: bool,
}

impl Model for Processor {
    ghost use Rattle.std.specs.Prelude.{◌≡◌, ◌≤◌, length, reverse, map, vec_len, vec_capacity, []};
    ghost use Rattle.lil_mcode.specs.Table.{State};

    ghost Value = { State };

    ghost use Rattle.lil_mcode.specs.Loaded.{module_of, Lies, Runs};
    ghost use Rattle.lil_frames.specs.Store.{lowest};

    ghost view = { λ p. record {
      modules = map (module_of p.code.items) p.modules.items;
      running = p.running;
      place = p.place;
      stack = reverse p.stack.items;
      store = p.memory.words;
      frame = p.frame;
      top = p.top;
      base = p.base;
      limit = lowest p.memory;
      bodies = p.bodies;
      marked = p.marked;
      parked = [];
      waiting = [];
    } };

    ghost invariant = { λ p. (length p.code.items ≡ 131072) × (length p.modules.items ≤ 63) × (63 ≤ vec_capacity p.modules) × (p.code_end ≤ 131072) × Lies 0 p.modules.items p.code_end × Runs p.modules.items p.running p.code_start p.code_size p.code_base };
}

impl Processor {
    /// A processor without modules.
    pub fn new(alloc: Global) -> Result<Processor, Memory>
        ensures { IfOk result (λ p. p ≡ fresh.state) }
    {
        let modules = Vec::with_capacity(alloc, MOST_MODULES)?;
        let code = zero_bytes(alloc, CODE_BYTES)?;
        let mut memory = MainStore::new(alloc)?;
        memory.open_level();
        Ok(Processor {
            modules,
            code,
            code_end: 0,
            code_start: 0,
            code_size: 0,
            code_base: 0,
            running: 0,
            place: 0,
            stack: ArrayVec::new(),
            memory,
            frame: 0,
            top: 0,
            base: 0,
            bodies: Bytes::new(alloc),
            marked: false,
        })
    }

    /// The number of the running module.
    pub fn running(&self) -> u8
        ensures { result ≡ self.now.running }
    {
        self.running
    }

    /// The place of the next instruction.
    pub fn place(&self) -> u16
        ensures { result ≡ self.now.place }
    {
        self.place
    }

    /// The k-th word of the expression stack, from its top.
    pub fn argument(&self, k: u8) -> u16
        requires { k < length self.now.stack }
        ensures { slice_get self.now.stack k ≡ Some result }
    {
        let count = self.stack.len();
        self.stack[count - 1 - usize::from(k)]
    }

    /// Takes the upper n words from the expression stack.
    pub fn drop_arguments(&mut self, n: u8)
        requires { n ≤ length self.old.stack }
        ensures { self.new ≡ record self.old { stack = drop n self.old.stack } }
    {
        let count = self.stack.len();
        self.stack.truncate(count - usize::from(n));
    }

    /// The word of the store at an address.
    pub fn stored(&self, at: u16) -> u16
        ensures { slice_get self.now.store at ≡ Some result }
    {
        self.memory.word(at)
    }

    /// Words of the store from an address on become these.
    pub fn set_words(&mut self, at: u16, words: &[u16])
        requires { at + length words.now ≤ 65536 }
        ensures { self.new ≡ record self.old { store = spliced self.old.store at words.now } }
    {
        self.memory.set_words(at, words);
    }

    fn request(&mut self, number: u8, next: u16) -> Event
        ensures { request_row next self.old (request_with number) ≡ (result, self.new) }
    {
        let Some(request) = Request::with_number(number) else {
            return Event::BadCode;
        };
        let words = words_of_request(request);
        if self.stack.len() < usize::from(words) || !self.array_lies(request) {
            return Event::BadCode;
        }
        self.place = next;
        Event::Request(request)
    }

    /// The array that a request finds on the expression stack lies in the store. Only WriteString has one.
    fn array_lies(&self, request: Request) -> bool
        ensures { result ≡ array_lies request self.now.stack }
    {
        if !request.takes_array() {
            return true;
        }
        match self.two() {
            None => true,
            Some((address, high)) => u32::from(address) + u32::from(high) <= 65535,
        }
    }
}

fn zero_bytes(alloc: Global, count: usize) -> Result<Vec<u8>, Memory>
    ensures { IfOk result (λ bytes. length bytes.items ≡ count) }
{
    let bytes = vec![in alloc; 0u8; count]?;
    Ok(bytes)
}
