//! Loading modules, and beginning their bodies.

ghost use Rattle.std.specs.Prelude.{◌≡◌, ◌+◌, ◌<◌, ◌≤◌, ◌∷◌, ◌++◌, length, vec_len, vec_capacity, IfSome, IfNone, None, Some, []};
ghost use Rattle.std.specs.Option.{option_copied};
ghost use Rattle.lil_mcode.specs.{Calls.{IsRunning, names_of, code_used}, Kept.{with_loaded, with_first, is_better}, Table.{Module, module_at, first_entry}};
ghost use Rattle.lil_frames.specs.Words.{spliced};

use super::fetching::loaded;
use super::{LoadedModule, Processor};
use crate::arithmetic::{trap_of, truth_word};
use lil_base::{Bytes, Name};

impl Processor {
    /// The procedure of a module that runs at a place.
    #[tactic(auto, using(crate::proofs::Steps::lies_loaded, crate::proofs::Steps::not_loaded))]
    pub fn procedure_at(&self, number: u8, place: u16) -> u8
        ensures { (m : Module) → module_at self.now.modules number ≡ Some m → IsRunning m.procedures place result }
    {
        match loaded(self.modules.as_slice(), number) {
            None => 0,
            Some(entry) => running_procedure(entry.procedures.as_slice(), place),
        }
    }

    /// The names of a module and of one of its procedures.
    pub fn names(&self, number: u8, procedure: u8) -> Option<(&Name, Option<&Name>)>
        ensures some { IfSome result (λ n. names_of self.now.modules number procedure ≡ Some (n.0.now, option_copied n.1)) }
        ensures none { IfNone result (names_of self.now.modules number procedure ≡ None) }
    {
        let entry = loaded(self.modules.as_slice(), number)?;
        let procedure = entry.procedures.get(usize::from(procedure))?;
        Some((&entry.name, procedure.1.as_ref()))
    }

    /// One more module behind the others, whose data frame begins at a base.
    pub fn load_module(
        &mut self,
        name: Name,
        procedures: Vec<(u16, Option<Name>)>,
        code: &[u8],
        base: u16,
        words: u16,
    ) -> u8
        requires table { length self.old.modules < 63 }
        requires code_room { code_used self.old.modules + length code.now ≤ 131072 }
        requires code_few { length code.now ≤ 32767 }
        requires few { length procedures.items ≤ 251 }
        requires room { base + words ≤ 65535 }
        ensures new { self.new ≡ with_loaded self.old (record { name = name; procedures = procedures.items; code = code.now; base = base; words = words }) }
        ensures number { result ≡ length self.new.modules }
    {
        let start = self.code_end;
        let size = code.len() as u16;
        put_code(&mut self.code, start, code);
        self.code_end = start + u32::from(size);
        let end = u32::from(base) + u32::from(words);
        self.memory.clear_words(base, end);
        let entry = LoadedModule {
            name,
            procedures,
            start,
            size,
            base,
            words,
        };
        put_entry(&mut self.modules, entry);
        self.modules.len() as u8
    }

    /// The first of the bodies begins, over a base of the main stack.
    pub fn begin(&mut self, bodies: Vec<u8>, base: u16)
        ensures { self.new ≡ with_first (record self.old { base = base }) bodies.items }
    {
        self.base = base;
        let mut bodies = Bytes::of_vec(bodies);
        let Some(number) = bodies.take_first() else {
            return;
        };
        let Some(place) = self.entry(number) else {
            return;
        };
        self.bodies = bodies;
        if u32::from(base) + 4 <= u32::from(self.memory.lowest()) {
            self.start_body(number, place);
            self.marked = true;
        } else {
            self.start_unmarked(number, place);
        }
    }
}

pub(super) fn body_place(procedures: &[(u16, Option<Name>)]) -> u16
    ensures { result ≡ first_entry procedures.now }
{
    match procedures.first() {
        None => 0,
        Some(body) => body.0,
    }
}

fn is_nearer(place: u16, found: Option<u16>, entry: u16) -> bool
    ensures { result ≡ is_better place found entry }
{
    match found {
        None => entry <= place,
        Some(before) => entry <= place && before < entry,
    }
}

fn running_procedure(procedures: &[(u16, Option<Name>)], place: u16) -> u8
    requires { length procedures.now ≤ 251 }
    ensures { IsRunning procedures.now place result }
{
    let mut number: u8 = 0;
    let mut found: Option<u16> = None;
    for (k, procedure) in procedures.iter().enumerate() {
        let entry = procedure.0;
        if is_nearer(place, found, entry) {
            number = k as u8;
            found = Some(entry);
        }
    }
    number
}

fn put_bytes(store: &mut [u8], at: usize, code: &[u8])
    requires { at + length code.now ≤ length store.old }
    ensures { store.new ≡ spliced store.old at code.now }
{
    let end = at + code.len();
    store[at..end].copy_from_slice(code);
}

fn put_code(store: &mut Vec<u8>, at: u32, code: &[u8])
    requires { at + length code.now ≤ length store.old.items }
    ensures { store.new.items ≡ spliced store.old.items at code.now }
{
    put_bytes(store, at as usize, code);
}

fn put_entry(modules: &mut Vec<LoadedModule>, entry: LoadedModule)
    requires { vec_len modules.old < vec_capacity modules.old }
    ensures items { modules.new.items ≡ modules.old.items ++ entry ∷ [] }
    ensures capacity { vec_capacity modules.old ≤ vec_capacity modules.new }
{
    match modules.push(entry) {
        Ok(()) => (),
        Err(_) => unreachable!(),
    }
}
