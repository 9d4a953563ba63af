ghost use Rattle.std.specs.Prelude.{◌≡◌};
ghost use Rattle.lil_grammar.specs.Steps.{Reads};
ghost use Rattle.lil_language.specs.Grammar as spec;
ghost use Rattle.lil_language.specs.Trees as tree;

use crate::lookahead::sees_section;
use lil_base::{Items, Place, beside};
use lil_grammar::Reader;
use lil_language::{Decl, Heading, Section};
use lil_read_expr::{names, qualident};
use lil_read_type::{by_place, open_array, result};
use lil_text::{Ident, Mark, Qualident, ReadStop, Word};
use std::alloc::Global;

/// The place of the first name.
fn names_place(names: &Items<Ident>) -> Place
    ensures { result ≡ tree.names_place names.now }
{
    match names.as_slice() {
        [] => Place {
            line: 0,
            column: 0,
            offset: 0,
        },
        [first, ..] => first.place,
    }
}

#[tactic(auto, unfolding(lil_language::specs::Grammar::reading, lil_language::specs::Grammar::a_section, lil_syntax::specs::Syntax::reads, lil_syntax::specs::Syntax::before))]
fn a_section(alloc: Global, reader: &mut Reader<'_>, depth: u8) -> Result<Section, ReadStop>
    ensures { Reads (spec.reading depth spec.a_section reader.old) result reader.new }
{
    let by_place = by_place(alloc, reader, depth)?;
    let names = names(alloc, reader, depth)?;
    reader.expect(Mark::Colon)?;
    let open_array = open_array(alloc, reader, depth)?;
    let sort = qualident(alloc, reader, depth)?;
    let place = by_place.unwrap_or(names_place(&names));
    Ok(Section {
        place,
        by_place: by_place.is_some(),
        names,
        open_array: open_array.is_some(),
        sort,
    })
}

#[tactic(auto, using(lil_grammar::specs::Turns::turns), unfolding(lil_language::specs::Grammar::reading, lil_language::specs::Grammar::sections, lil_syntax::specs::Syntax::reads, lil_syntax::specs::Syntax::before, lil_grammar::specs::Steps::many))]
fn sections(alloc: Global, reader: &mut Reader<'_>, depth: u8) -> Result<Items<Section>, ReadStop>
    ensures { Reads (spec.reading depth spec.sections reader.old) result reader.new }
{
    let mut found = Items::new(alloc);
    let first = a_section(alloc, reader, depth)?;
    found.push(first)?;
    for _turn in 0..reader.left() {
        if !reader.sees(Mark::Semicolon) {
            return Ok(found);
        }
        reader.expect(Mark::Semicolon)?;
        let next = a_section(alloc, reader, depth)?;
        found.push(next)?;
    }
    Ok(found)
}

#[tactic(auto, unfolding(lil_language::specs::Grammar::reading, lil_language::specs::Grammar::some_sections, lil_syntax::specs::Syntax::reads, lil_syntax::specs::Syntax::before))]
fn some_sections(
    alloc: Global,
    reader: &mut Reader<'_>,
    depth: u8,
) -> Result<Items<Section>, ReadStop>
    ensures { Reads (spec.reading depth spec.some_sections reader.old) result reader.new }
{
    if sees_section(reader) {
        sections(alloc, reader, depth)
    } else {
        Ok(Items::new(alloc))
    }
}

#[tactic(auto, unfolding(lil_language::specs::Grammar::reading, lil_language::specs::Grammar::section_part, lil_syntax::specs::Syntax::reads, lil_syntax::specs::Syntax::before))]
fn section_part(
    alloc: Global,
    reader: &mut Reader<'_>,
    depth: u8,
) -> Result<(Items<Section>, Option<Qualident>), ReadStop>
    ensures { Reads (spec.reading depth spec.section_part reader.old) result reader.new }
{
    reader.expect(Mark::Open)?;
    let sections = some_sections(alloc, reader, depth)?;
    reader.expect(Mark::Close)?;
    let result = result(alloc, reader, depth)?;
    Ok((sections, result))
}

/// The heading of a procedure.
#[tactic(auto, unfolding(lil_language::specs::Grammar::reading, lil_language::specs::Grammar::heading, lil_language::specs::Grammar::section_part, lil_syntax::specs::Syntax::reads, lil_syntax::specs::Syntax::before))]
pub fn heading(alloc: Global, reader: &mut Reader<'_>, depth: u8) -> Result<Heading, ReadStop>
    ensures { Reads (spec.reading depth spec.heading reader.old) result reader.new }
{
    let place = reader.expect_word(Word::Procedure)?;
    let name = reader.ident(alloc)?;
    if reader.sees(Mark::Open) {
        let (sections, result) = section_part(alloc, reader, depth)?;
        Ok(Heading {
            place,
            name,
            sections,
            result,
        })
    } else {
        Ok(Heading {
            place,
            name,
            sections: Items::new(alloc),
            result: None,
        })
    }
}

/// A procedure of a definition.
#[tactic(auto, unfolding(lil_language::specs::Grammar::reading, lil_language::specs::Grammar::definition_heading, lil_syntax::specs::Syntax::reads, lil_syntax::specs::Syntax::before))]
pub fn definition_heading(
    alloc: Global,
    reader: &mut Reader<'_>,
    depth: u8,
) -> Result<Decl, ReadStop>
    ensures { Reads (spec.reading depth spec.definition_heading reader.old) result reader.new }
{
    let heading = heading(alloc, reader, depth)?;
    let (heading, _) = beside(heading, reader.expect(Mark::Semicolon))?;
    Ok(Decl::ProcIs(heading, None))
}
