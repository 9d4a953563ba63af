//! Code whose jumps name labels. The labels become places when the code is settled.

ghost use Rattle.std.specs.Prelude.{◌≡◌, ℕ, ◌≤◌, [], length, slice_get, option_and_then, map, Some, IfOk, OnOk};
ghost use Rattle.lil_asm.specs.Bytes.{Sayable};
ghost use Rattle.lil_resolved.specs.{Kinds.{words, shape_at}, Sizes.words_of, Views.{AreMeasured, named_view, heading_of, shapes_of}};
ghost use Rattle.lil_labels.specs.Tables as tables;
ghost use Rattle.lil_labels.specs.{Tables.{declared_at, heading_out, target_by, variable_by, part_in, part_by, elements_in, elements_by, last_in, last_by, below, plain_words_by, held_by}, Fixing.as_said, Drafts.{empty, in_procedure, inside, outside, aimed, AreFixed, AreWithin, numbered, places_of, code_of, settled_word, Adds, Emits, Nothing, Saying, Doing, Naming, AreSayable, DoingAll, Choosing, Marking, Entering, IsOpen, Makes, Places, Ends, Notes}};

use lil_asm::{Instr, encode, encode_entry};
use lil_base::{Bytes, Items, Memory};
use lil_resolved::{RDeclared, RElements, RField, RNamed, RProcedure, RShape};
use std::alloc::Global;
use std::collections::VecDeque;
use std::marker::Model;

/// The record of a WITH: the word of the frame that has its address, and the number of its shape.
#[derive(Clone, Copy)]
pub struct HeldRecord {
    pub word: u16,
    pub shape: usize,
}

/// Two bytes of the code, from a place on, that are to hold the place of a label.
#[derive(Clone, Copy)]
pub struct Jump {
    label: usize,
    at: usize,
}

/// A byte of the code, at a place, that is to hold the number of a module, by the number of its import; 0 is the module itself.
#[derive(Clone, Copy)]
pub struct Fixup {
    at: usize,
    number: u8,
}

/// The instructions that lead to a label, without it; but CAS, which has entries behind it.
#[derive(Clone, Copy)]
pub enum Aim {
    Always,
    IfFalse,
    And,
    Or,
    Enter(u16, u8),
    Turn(u16),
}

/// Such an instruction with the word 0.
fn unaimed(aim: Aim) -> Instr
    ensures { result ≡ aimed aim 0 }
{
    match aim {
        Aim::Always => Instr::Jmp(0),
        Aim::IfFalse => Instr::Jpf(0),
        Aim::And => Instr::Jan(0),
        Aim::Or => Instr::Jor(0),
        Aim::Enter(offset, kind) => Instr::Fri(offset, kind, 0),
        Aim::Turn(offset) => Instr::Frn(offset, 0),
    }
}

/// What stands for a variable or a part that isn't there.
const NOWHERE: RField = RField {
    offset: 0,
    shape: 0,
};

/// What stands for the record of a WITH that isn't there.
const NOT_HELD: HeldRecord = HeldRecord { word: 0, shape: 0 };

/// What stands for elements that aren't there.
const NO_ELEMENTS: RElements = RElements {
    count: 0,
    words: 0,
    shape: 0,
};

/// Where a part of a shape lies in it, by its number, and the number of its own shape: a field, or an element. Zeros where
/// there is none.
fn part_of(shape: &RShape, number: usize) -> RField
    ensures { result ≡ part_in shape.now number }
{
    match shape {
        RShape::Absent | RShape::Word(_) => NOWHERE,
        RShape::Fields(fields) => match fields.get(number) {
            Some(field) => *field,
            None => NOWHERE,
        },
        RShape::Elements(elements) => RField {
            offset: number
                .saturating_mul(usize::from(elements.words))
                .min(65_535) as u16,
            shape: elements.shape,
        },
    }
}

/// What the elements of a shape are; zeros where it has none.
fn elements_of(shape: &RShape) -> RElements
    ensures { result ≡ elements_in shape.now }
{
    match shape {
        RShape::Elements(elements) => *elements,
        RShape::Absent | RShape::Word(_) | RShape::Fields(_) => NO_ELEMENTS,
    }
}

/// The last field of a shape, if there is one.
fn last_of(shape: &RShape) -> Option<RField>
    ensures { result ≡ last_in shape.now }
{
    match shape {
        RShape::Fields(fields) => fields.as_slice().last().copied(),
        RShape::Absent | RShape::Word(_) | RShape::Elements(_) => None,
    }
}

/// The last field of a shape by its number, if the field's own shape has a lesser one.
fn last_at(shapes: &[RShape], number: usize) -> Option<RField>
    ensures { result ≡ below number (last_by (slice_get shapes.now number)) }
{
    let field = last_of(shapes.get(number)?)?;
    if field.shape < number {
        Some(field)
    } else {
        None
    }
}

/// Where a variable lies, and the number of its shape; zeros where there is none.
fn variable_in(variables: &[RDeclared], number: usize) -> RField
    ensures { result ≡ variable_by (slice_get variables.now number) }
{
    match variables.get(number) {
        Some(variable) => RField {
            offset: variable.offset,
            shape: variable.shape,
        },
        None => NOWHERE,
    }
}

/// The procedure so many levels out of one, by their numbers from 0 on.
fn procedure_out(procedures: &[RProcedure], own: usize, levels: u8) -> Option<usize>
    ensures { option_and_then (slice_get (map heading_of procedures.now)) result ≡ heading_out (map heading_of procedures.now) (Some own) levels }
{
    if levels == 0 {
        return Some(own);
    }
    let around = &procedures.get(own)?.heading.around;
    let number = *around.get(usize::from(levels - 1))?;
    usize::from(number).checked_sub(1)
}

/// Where a variable of the procedure so many levels out lies.
fn local(procedures: &[RProcedure], own: Option<usize>, levels: u8, number: usize) -> Option<RField>
    ensures { tables.field_by result ≡ variable_by (slice_get (tables.locals_in (heading_out (map heading_of procedures.now) own levels)) number) }
{
    let out = procedure_out(procedures, own?, levels)?;
    Some(variable_in(procedures.get(out)?.heading.locals.as_slice(), number))
}

/// The words of a shape without fields, up to 65535.
fn plain_words(shape: &RShape) -> u16
    ensures { result ≡ tables.plain_words shape.now }
{
    match shape {
        RShape::Absent | RShape::Fields(_) => 0,
        RShape::Word(_) => 1,
        RShape::Elements(elements) => elements
            .count
            .saturating_mul(u32::from(elements.words))
            .min(65_535) as u16,
    }
}

/// The words of a shape without fields by its number, up to 65535; 0 where there is none.
fn plain_words_at(shapes: &[RShape], number: usize) -> u16
    ensures { result ≡ plain_words_by (slice_get shapes.now number) }
{
    match shapes.get(number) {
        Some(shape) => plain_words(shape),
        None => 0,
    }
}

/// How many words a measured shape takes, by its number: those before its last field, and that field's own.
fn words_at(shapes: &[RShape], number: usize) -> u16
    ensures { AreMeasured [] shapes.now → result ≡ words (shape_at (shapes_of shapes.now) number) }
{
    let mut before: u16 = 0;
    let mut inner = number;
    while let Some(field) = last_at(shapes, inner) {
        before = before.saturating_add(field.offset);
        inner = field.shape;
    }
    before.saturating_add(plain_words_at(shapes, inner))
}

/// The words of a string: one for each character, and a 0 where it has none.
fn text_words(alloc: Global, text: &[u8]) -> Result<Vec<u16>, Memory>
    ensures { IfOk result (λ words. words.items ≡ words_of text.now) }
{
    let mut words = Vec::new(alloc);
    for character in text {
        words.push(u16::from(*character))?;
    }
    if words.is_empty() {
        words.push(0)?;
    }
    Ok(words)
}

/// Writes the number of each fixup at its place.
fn put_numbers(code: &mut Vec<u8>, fixups: &[Fixup])
    requires { AreWithin (length code.old.items) fixups.now }
    ensures { code.new.items ≡ numbered as_said code.old.items fixups.now }
{
    for fixup in fixups {
        code[fixup.at] = fixup.number;
    }
}

/// Code that is being written for a module: the module's shapes, by the numbers of its pointer types those of the shapes to
/// which they point, its variables, how many words these take, its procedures and the number from 0 on of the one at hand,
/// the words of the strings so far, the records of the WITHs around, the innermost first, the bytes so far, the place of
/// each label that has one, the jumps, and the fixups.
#[derive(Drop)]
pub struct CodeBuffer<'m> {
    alloc: Global,
    shapes: &'m [RShape],
    targets: &'m [usize],
    variables: &'m [RDeclared],
    words: u16,
    procedures: &'m [RProcedure],
    own: Option<usize>,
    strings: Vec<u16>,
    held: VecDeque<HeldRecord>,
    bytes: Bytes,
    places: Vec<Option<usize>>,
    jumps: Vec<Jump>,
    fixups: Vec<Fixup>,
}

impl<'m> Model for CodeBuffer<'m> {
    ghost use Rattle.std.specs.Prelude.{length, map};
    ghost use Rattle.lil_resolved.specs.Views.{heading_of};
    ghost use Rattle.lil_labels.specs.Drafts.{Draft, IsSound};

    ghost Value = { Draft };

    ghost view = { λ c. record { tables = record { shapes = c.shapes.now; targets = c.targets.now; variables = c.variables.now; words = c.words; procedures = map heading_of c.procedures.now; own = c.own; held = c.held.items }; strings = c.strings.items; bytes = c.bytes; places = c.places.items; jumps = c.jumps.items; fixups = c.fixups.items } };

    ghost invariant = { λ c. IsSound (length c.bytes) c.places.items c.jumps.items c.fixups.items };
}

impl<'m> CodeBuffer<'m> {
    /// No code of a module with these shapes, targets of pointers, variables, which take so many words, and procedures.
    pub fn new(
        alloc: Global,
        shapes: &'m [RShape],
        targets: &'m [usize],
        variables: &'m [RDeclared],
        words: u16,
        procedures: &'m [RProcedure],
    ) -> CodeBuffer<'m>
        ensures { result ≡ empty shapes.now targets.now variables.now words (map heading_of procedures.now) }
    {
        CodeBuffer {
            alloc,
            shapes,
            targets,
            variables,
            words,
            procedures,
            own: None,
            strings: Vec::new(alloc),
            held: VecDeque::new(alloc),
            bytes: Bytes::new(alloc),
            places: Vec::new(alloc),
            jumps: Vec::new(alloc),
            fixups: Vec::new(alloc),
        }
    }

    /// Where a variable lies, and the number of its shape; zeros where there is none.
    pub fn variable(&self, named: RNamed) -> RField
        ensures { result ≡ variable_by (declared_at self.now.tables (named_view named)) }
    {
        match named {
            RNamed::Module(number) => variable_in(self.variables, number),
            RNamed::Level(levels, number) => {
                local(self.procedures, self.own, levels, number).unwrap_or(NOWHERE)
            }
        }
    }

    /// Enters a procedure, by its number from 0 on, or none.
    pub fn enter(&mut self, own: Option<usize>)
        ensures { self.new ≡ in_procedure own self.old }
    {
        self.own = own;
    }

    /// Where a part of a shape lies in it, by its number, and the number of its own shape: a field, or an element. Zeros
    /// where there is none.
    pub fn part(&self, shape: usize, number: usize) -> RField
        ensures { result ≡ part_by (slice_get self.now.tables.shapes shape) number }
    {
        match self.shapes.get(shape) {
            Some(found) => part_of(found, number),
            None => NOWHERE,
        }
    }

    /// What the elements of a shape are; zeros where it has none.
    pub fn elements(&self, shape: usize) -> RElements
        ensures { result ≡ elements_by (slice_get self.now.tables.shapes shape) }
    {
        match self.shapes.get(shape) {
            Some(found) => elements_of(found),
            None => NO_ELEMENTS,
        }
    }

    /// The number of the shape to which pointers of a type point, by the type's number; 0 where there is none.
    pub fn target(&self, pointer: usize) -> usize
        ensures { result ≡ target_by (slice_get self.now.tables.targets pointer) }
    {
        self.targets.get(pointer).copied().unwrap_or(0)
    }

    /// How many words a shape takes, where the shapes are measured.
    pub fn words(&self, shape: usize) -> u16
        ensures { AreMeasured [] self.now.tables.shapes → result ≡ words (shape_at (shapes_of self.now.tables.shapes) shape) }
    {
        words_at(self.shapes, shape)
    }

    /// Enters a WITH, whose record's address is in this word of the frame, with the number of the record's shape.
    pub fn hold(&mut self, word: u16, shape: usize) -> Result<(), Memory>
        ensures { OnOk result (self.new ≡ inside (record { word = word; shape = shape }) self.old) }
    {
        self.held.push_front(HeldRecord { word, shape })?;
        Ok(())
    }

    /// Leaves the innermost WITH.
    pub fn release(&mut self)
        ensures { self.new ≡ outside self.old }
    {
        self.held.pop_front();
    }

    /// The record of a WITH around, of which the innermost is 0; zeros where there is none.
    pub fn held(&self, number: usize) -> HeldRecord
        ensures { result ≡ held_by (slice_get self.now.tables.held number) }
    {
        match self.held.get(number) {
            Some(held) => *held,
            None => NOT_HELD,
        }
    }

    /// One string more, and its offset in the module's data, in words, cut to 16 bits: it lies behind the variables and the
    /// strings before.
    pub fn string(&mut self, text: &[u8]) -> Result<u16, Memory>
        ensures { IfOk result (λ offset. Adds (words_of text.now) self.old self.new (Saying text.now offset)) }
    {
        let words = text_words(self.alloc, text)?;
        let before = (self.strings.len() % 65_536) as u16;
        self.strings.extend_from_slice(words.as_slice())?;
        Ok(self.words.wrapping_add(before))
    }

    /// The words of the strings, one behind another.
    pub fn strings(&self, alloc: Global) -> Result<Vec<u16>, Memory>
        ensures { IfOk result (λ strings. strings.items ≡ self.now.strings) }
    {
        Ok(Vec::from_slice(alloc, self.strings.as_slice())?)
    }

    /// Where its memory comes from.
    pub fn alloc(&self) -> Global {
        self.alloc
    }

    /// How many bytes there are. No label has its place behind them.
    pub fn len(&self) -> usize
        ensures bytes { result ≡ length self.now.bytes }
        ensures behind { (l : ℕ) → (q : ℕ) → slice_get self.now.places l ≡ Some (Some q) → q ≤ result }
    {
        self.bytes.len()
    }

    /// One instruction more.
    pub fn put(&mut self, instr: Instr) -> Result<(), Memory>
        requires { Sayable instr }
        ensures { OnOk result (Emits self.old self.new (Doing (λ word. instr))) }
    {
        encode(&mut self.bytes, instr)
    }

    /// Instructions more, one behind another.
    pub fn put_all(&mut self, instrs: &[Instr]) -> Result<(), Memory>
        requires { AreSayable instrs.now }
        ensures { OnOk result (Emits self.old self.new (DoingAll instrs.now)) }
    {
        for instr in instrs {
            self.put(*instr)?;
        }
        Ok(())
    }

    /// LIW more, of a procedure of the module as a value. The byte of the module's number is a fixup.
    pub fn routine(&mut self, procedure: u8) -> Result<(), Memory>
        ensures { OnOk result (Emits self.old self.new (Naming procedure)) }
    {
        encode(&mut self.bytes, Instr::Liw(u16::from(procedure)))?;
        let at = self.bytes.len() - 2;
        self.fixups.push(Fixup { at, number: 0 })?;
        Ok(())
    }

    /// One instruction more, which leads to a label.
    pub fn jump(&mut self, aim: Aim, label: usize) -> Result<(), Memory>
        ensures { OnOk result (Emits self.old self.new (Doing (λ word. aimed aim (word label)))) }
    {
        encode(&mut self.bytes, unaimed(aim))?;
        self.note(label)
    }

    /// A CAS more, which leads to a label where none of so many entries does. They are to follow.
    pub fn choose(&mut self, count: u16, label: usize) -> Result<(), Memory>
        ensures { OnOk result (Emits self.old self.new (Choosing count label)) }
    {
        encode(&mut self.bytes, Instr::Cas(count, 0))?;
        self.note(label)
    }

    /// An entry of CAS more, which leads to a label.
    pub fn entry(&mut self, low: u16, high: u16, label: usize) -> Result<(), Memory>
        ensures { OnOk result (Emits self.old self.new (Entering low high label)) }
    {
        encode_entry(&mut self.bytes, low, high, 0)?;
        self.note(label)
    }

    /// A new label. It has no place yet.
    pub fn fresh(&mut self) -> Result<usize, Memory>
        ensures emits { IfOk result (λ label. Emits self.old self.new Nothing) }
        ensures makes { IfOk result (λ label. Makes self.old self.new label) }
    {
        let label = self.places.len();
        self.places.push(None)?;
        Ok(label)
    }

    /// A new label, with its place at the end of the code so far.
    pub fn mark(&mut self) -> Result<usize, Memory>
        ensures { IfOk result (λ label. Emits self.old self.new (Marking label)) }
    {
        let label = self.fresh()?;
        self.here(label);
        Ok(label)
    }

    /// Gives a label its place at the end of the code so far.
    pub fn here(&mut self, label: usize)
        requires { IsOpen self.old label }
        ensures places { Places self.old self.new label }
        ensures ends { Ends self.old self.new label }
    {
        let place = self.bytes.len();
        self.places[label] = Some(place);
    }

    /// The last two bytes are to hold the place of a label.
    fn note(&mut self, label: usize) -> Result<(), Memory>
        requires { 2 ≤ length self.old.bytes }
        ensures { OnOk result (Notes self.old self.new label) }
    {
        let at = self.bytes.len() - 2;
        self.jumps.push(Jump { label, at })?;
        Ok(())
    }

    /// The code, in which each jump has the place of its label, cut to 16 bits, and each fixup its number.
    pub fn settle(&self, alloc: Global) -> Result<Bytes, Memory>
        ensures { IfOk result (λ code. code ≡ code_of self.now (settled_word self.now.places) as_said) }
    {
        let mut code = Vec::from_slice(alloc, self.bytes.as_slice())?;
        for jump in &self.jumps {
            let word = self.word(jump.label);
            let at = jump.at;
            code[at] = (word / 256) as u8;
            code[at + 1] = (word % 256) as u8;
        }
        put_numbers(&mut code, self.fixups.as_slice());
        Ok(Bytes::of_vec(code))
    }

    /// Where the fixups lie, in code of at most 32,767 bytes. They rise, lie in the code, and name the module itself.
    pub fn fixups(&self, alloc: Global) -> Result<Items<u16>, Memory>
        requires { length self.now.bytes ≤ 32767 }
        ensures places { IfOk result (λ places. places ≡ places_of self.now.fixups) }
        ensures fixed { AreFixed 0 (length self.now.bytes) self.now.fixups }
    {
        let mut places = Items::new(alloc);
        for fixup in &self.fixups {
            places.push(fixup.at as u16)?;
        }
        Ok(places)
    }

    /// What a jump to a label has: its place, or 0 where it has none.
    fn word(&self, label: usize) -> u16
        ensures { result ≡ settled_word self.now.places label }
    {
        match self.places.get(label) {
            Some(Some(place)) => (*place % 65_536) as u16,
            _ => 0,
        }
    }
}
