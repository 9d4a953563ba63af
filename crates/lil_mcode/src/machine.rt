ghost use Rattle.std.specs.Prelude.{◌≡◌, ◌+◌, ◌-◌, ◌^◌, min, ◌<◌, ◌≤◌, length, drop, slice_get, true, false, Some, None, IfOk, IfSome, IfNone};
ghost use Rattle.std.specs.{List.All, Option.option_copied};
ghost use Rattle.lil_mcode.specs.{Table.{Module, module_at, mstep}, Going.Ran, Calls.{fresh, counted, with_level, with_module, with_words, with_bodies, code_used, names_of, IsRunning}};
ghost use Rattle.lil_mcode.specs.declared.machine.Event.TheVariants as event;

use crate::processor::Processor;
use lil_base::{Bytes, LimitKind, Memory, Name, Request, TrapKind};
use std::alloc::Global;
use std::marker::Model;

/// What one step did.
#[derive(Clone, Copy, PartialEq, Eq)]
pub enum Event {
    Went,
    Request(Request),
    LevelEnded,
    Trap(TrapKind),
    Limit(LimitKind),
    BadCode,
}

/// A place in the code: the number of a module from 1, that of one of its procedures from 0, and a place in bytes.
#[derive(Clone, Copy, PartialEq, Eq)]
pub struct CodeAt {
    pub module: u8,
    pub procedure: u8,
    pub place: u16,
}

/// The machine: a store of 65,536 words, a code store of 131,072 bytes, and up to 63 modules.
#[derive(Drop)]
pub struct Machine {
    processor: Processor,
    levels: u8,
    begun: bool,
    data_end: u16,
    steps: u64,
    at_module: u8,
    at_place: u16,
}

impl Model for Machine {
    ghost use Rattle.lil_mcode.specs.Calls.{Machine as Counted};

    ghost Value = { Counted };

    ghost view = { λ m. record {
      state = m.processor;
      levels = m.levels;
      begun = m.begun;
      data_end = m.data_end;
      steps = m.steps;
      at_module = m.at_module;
      at_place = m.at_place;
    } };
}

impl Machine {
    /// A machine in which nothing is loaded. It takes all the memory that the machine will need.
    pub fn new(alloc: Global) -> Result<Machine, Memory>
        ensures { IfOk result (λ m. m ≡ fresh) }
    {
        let processor = Processor::new(alloc)?;
        Ok(Machine {
            processor,
            levels: 0,
            begun: false,
            data_end: 1,
            steps: 0,
            at_module: 0,
            at_place: 0,
        })
    }

    /// Opens the first level, and gives its number, 1. Modules come to it until it begins. No further level can be opened:
    /// its stack would lie over that of the first.
    pub fn open_level(&mut self) -> u8
        requires first { self.old.levels ≡ 0 }
        ensures new { self.new ≡ with_level self.old }
        ensures number { result ≡ self.new.levels }
    {
        self.levels += 1;
        self.begun = false;
        self.levels
    }

    /// Loads a module into the highest level: its number from 1, and the word where its data frame begins.
    /// Its procedures are given by their entries, the body first; its data words become zero.
    pub fn add_module(
        &mut self,
        name: Name,
        procedures: Vec<(u16, Option<Name>)>,
        code: &Bytes,
        data_words: u16,
    ) -> (u8, u16)
        requires open { 1 ≤ self.old.levels }
        requires collecting { self.old.begun ≡ false }
        requires table { length self.old.state.modules < 63 }
        requires code_room { code_used self.old.state.modules + length code.now ≤ 131072 }
        requires words { self.old.data_end + data_words ≤ 65535 }
        requires some { 1 ≤ length procedures.items }
        requires few { length procedures.items ≤ 251 }
        requires code_some { 1 ≤ length code.now }
        requires code_few { length code.now ≤ 32767 }
        requires entries { All (λ p. p.0 < length code.now) procedures.items }
        ensures new { self.new ≡ with_module self.old name procedures.items code.now data_words }
        ensures number { result.0 ≡ length self.new.state.modules }
        ensures base { result.1 ≡ self.old.data_end }
    {
        let base = self.data_end;
        self.data_end = base + data_words;
        let number = self
            .processor
            .load_module(name, procedures, code.as_slice(), base, data_words);
        (number, base)
    }

    /// Begins the highest level with the first of these bodies, given by the numbers of their modules; the others
    /// run behind it. Where the mark of the first doesn't fit into the store, the next step meets that limit.
    pub fn begin(&mut self, bodies: Vec<u8>)
        requires open { 1 ≤ self.old.levels }
        requires collecting { self.old.begun ≡ false }
        requires some { 1 ≤ length bodies.items }
        requires loaded { All (λ b. (1 ≤ b) × (b ≤ length self.old.state.modules)) bodies.items }
        ensures { self.new ≡ with_bodies self.old bodies.items }
    {
        self.processor.begin(bodies, self.data_end);
        self.begun = true;
        self.at_module = self.processor.running();
        self.at_place = self.processor.place();
    }

    /// One step of the running module. It takes no memory.
    pub fn step(&mut self) -> Event
        ensures row { mstep self.old.state ≡ (result, self.new.state) }
        ensures steps { self.new.steps ≡ counted self.old.steps }
        ensures at { (self.new.at_module ≡ self.old.state.running) × (self.new.at_place ≡ self.old.state.place) }
        ensures rest { (self.new.levels ≡ self.old.levels) × (self.new.begun ≡ self.old.begun) × (self.new.data_end ≡ self.old.data_end) }
    {
        self.steps = self.steps.saturating_add(1);
        self.at_module = self.processor.running();
        self.at_place = self.processor.place();
        if !self.processor.is_marked() {
            return Event::Limit(LimitKind::Stack);
        }
        self.processor.row()
    }

    /// Steps while they go on, at most so many: what the last one did, and how many were done.
    #[inline(never)]
    pub fn run(&mut self, most: u64) -> (Event, u64)
        requires { 1 ≤ most }
        ensures ran { Ran self.old.state result.1 result.0 self.new.state self.new.at_module self.new.at_place }
        ensures within { result.1 ≤ most }
        ensures whole { result.0 ≡ event.Went → result.1 ≡ most }
        ensures steps { self.new.steps ≡ min (self.old.steps + result.1) (2 ^ 64 - 1) }
        ensures rest { (self.new.levels ≡ self.old.levels) × (self.new.begun ≡ self.old.begun) × (self.new.data_end ≡ self.old.data_end) }
    {
        if !self.processor.is_marked() {
            return (self.step(), 1);
        }
        let mut module = self.at_module;
        let mut place = self.at_place;
        for k in 0..most {
            module = self.processor.running();
            place = self.processor.place();
            match self.processor.row() {
                Event::Went => (),
                last => {
                    self.note(module, place, k + 1);
                    return (last, k + 1);
                }
            }
        }
        self.note(module, place, most);
        (Event::Went, most)
    }

    /// Keeps where the last step was, and counts so many steps more.
    fn note(&mut self, number: u8, place: u16, steps: u64)
        ensures { self.new ≡ record self.old { at_module = number; at_place = place; steps = min (self.old.steps + steps) (2 ^ 64 - 1) } }
    {
        self.at_module = number;
        self.at_place = place;
        self.steps = self.steps.saturating_add(steps);
    }

    /// How many steps were done.
    pub fn steps(&self) -> u64
        ensures { result ≡ self.now.steps }
    {
        self.steps
    }

    /// The place of the instruction that the last step looked at, and before the first step that of the first one.
    pub fn place(&self) -> CodeAt
        ensures module { result.module ≡ self.now.at_module }
        ensures place { result.place ≡ self.now.at_place }
        ensures procedure { (m : Module) → module_at self.now.state.modules self.now.at_module ≡ Some m → IsRunning m.procedures self.now.at_place result.procedure }
    {
        let procedure = self.processor.procedure_at(self.at_module, self.at_place);
        CodeAt {
            module: self.at_module,
            procedure,
            place: self.at_place,
        }
    }

    /// The names of a module and of one of its procedures; the body has none. None where no such procedure is loaded.
    pub fn names(&self, at: CodeAt) -> Option<(&Name, Option<&Name>)>
        ensures some { IfSome result (λ n. names_of self.now.state.modules at.module at.procedure ≡ Some (n.0.now, option_copied n.1)) }
        ensures none { IfNone result (names_of self.now.state.modules at.module at.procedure ≡ None) }
    {
        self.processor.names(at.module, at.procedure)
    }

    /// The k-th word of the expression stack, from its top.
    pub fn argument(&self, k: u8) -> u16
        requires { k < length self.now.state.stack }
        ensures { slice_get self.now.state.stack k ≡ Some result }
    {
        self.processor.argument(k)
    }

    /// The word of the main store at an address.
    pub fn word(&self, at: u16) -> u16
        ensures { slice_get self.now.state.store at ≡ Some result }
    {
        self.processor.stored(at)
    }

    /// Words of the main store from an address on become these.
    pub fn set_words(&mut self, at: u16, words: &[u16])
        requires { at + length words.now ≤ 65536 }
        ensures { self.new ≡ with_words self.old at words.now }
    {
        self.processor.set_words(at, words);
    }

    /// Takes the upper n words from the expression stack.
    pub fn drop_arguments(&mut self, n: u8)
        requires { n ≤ length self.old.state.stack }
        ensures { self.new ≡ record self.old { state = record self.old.state { stack = drop n self.old.state.stack } } }
    {
        self.processor.drop_arguments(n);
    }
}
