ghost use Rattle.lil_grammar.specs.Steps.{Reads};
ghost use Rattle.lil_language.specs.Grammar as spec;

use lil_base::{Items, beside};
use lil_grammar::Reader;
use lil_language::{Constant, Decl, Sort, TypeName, Variables};
use lil_read_expr::{boxed_expr, names};
use lil_read_type::sort;
use lil_syntax::sees_name;
use lil_text::{Mark, ReadStop, Word};
use std::alloc::Global;

#[tactic(auto, unfolding(lil_language::specs::Grammar::reading, lil_language::specs::Grammar::constant, lil_syntax::specs::Syntax::reads, lil_syntax::specs::Syntax::before))]
fn constant(alloc: Global, reader: &mut Reader<'_>, depth: u8) -> Result<Constant, ReadStop>
    ensures { Reads (spec.reading depth spec.constant reader.old) result reader.new }
{
    let name = reader.ident(alloc)?;
    reader.expect(Mark::Equal)?;
    let value = boxed_expr(alloc, reader, depth)?;
    let (value, _) = beside(value, reader.expect(Mark::Semicolon))?;
    Ok(Constant { name, value })
}

#[tactic(auto, using(lil_grammar::specs::Turns::turns), unfolding(lil_language::specs::Grammar::reading, lil_language::specs::Grammar::constants, lil_language::specs::Grammar::constant, lil_syntax::specs::Syntax::reads, lil_syntax::specs::Syntax::before, lil_grammar::specs::Steps::many))]
fn constants(alloc: Global, reader: &mut Reader<'_>, depth: u8) -> Result<Items<Constant>, ReadStop>
    ensures { Reads (spec.reading depth spec.constants reader.old) result reader.new }
{
    let mut found = Items::new(alloc);
    for _turn in 0..reader.left() {
        if !sees_name(reader) {
            return Ok(found);
        }
        let next = constant(alloc, reader, depth)?;
        found.push(next)?;
    }
    Ok(found)
}

/// Constants behind CONST.
#[tactic(auto, unfolding(lil_language::specs::Grammar::reading, lil_language::specs::Grammar::constant_part, lil_syntax::specs::Syntax::reads, lil_syntax::specs::Syntax::before))]
pub fn constant_part(alloc: Global, reader: &mut Reader<'_>, depth: u8) -> Result<Decl, ReadStop>
    ensures { Reads (spec.reading depth spec.constant_part reader.old) result reader.new }
{
    let place = reader.expect_word(Word::Const)?;
    let found = constants(alloc, reader, depth)?;
    Ok(Decl::ConstIs(place, found))
}

#[tactic(auto, unfolding(lil_language::specs::Grammar::reading, lil_language::specs::Grammar::a_type, lil_syntax::specs::Syntax::reads, lil_syntax::specs::Syntax::before))]
fn a_type(alloc: Global, reader: &mut Reader<'_>, depth: u8) -> Result<TypeName, ReadStop>
    ensures { Reads (spec.reading depth spec.a_type reader.old) result reader.new }
{
    let name = reader.ident(alloc)?;
    reader.expect(Mark::Equal)?;
    let sort = sort(alloc, reader, depth)?;
    let (sort, _) = beside(sort, reader.expect(Mark::Semicolon))?;
    Ok(TypeName {
        name,
        sort: Some(sort),
    })
}

#[tactic(auto, using(lil_grammar::specs::Turns::turns), unfolding(lil_language::specs::Grammar::reading, lil_language::specs::Grammar::types, lil_language::specs::Grammar::a_type, lil_syntax::specs::Syntax::reads, lil_syntax::specs::Syntax::before, lil_grammar::specs::Steps::many))]
fn types(alloc: Global, reader: &mut Reader<'_>, depth: u8) -> Result<Items<TypeName>, ReadStop>
    ensures { Reads (spec.reading depth spec.types reader.old) result reader.new }
{
    let mut found = Items::new(alloc);
    for _turn in 0..reader.left() {
        if !sees_name(reader) {
            return Ok(found);
        }
        let next = a_type(alloc, reader, depth)?;
        found.push(next)?;
    }
    Ok(found)
}

/// Types behind TYPE, each with its form.
#[tactic(auto, unfolding(lil_language::specs::Grammar::reading, lil_language::specs::Grammar::type_part, lil_syntax::specs::Syntax::reads, lil_syntax::specs::Syntax::before))]
pub fn type_part(alloc: Global, reader: &mut Reader<'_>, depth: u8) -> Result<Decl, ReadStop>
    ensures { Reads (spec.reading depth spec.type_part reader.old) result reader.new }
{
    let place = reader.expect_word(Word::TypeWord)?;
    let found = types(alloc, reader, depth)?;
    Ok(Decl::TypeIs(place, found))
}

#[tactic(auto, unfolding(lil_language::specs::Grammar::reading, lil_language::specs::Grammar::type_form, lil_syntax::specs::Syntax::reads, lil_syntax::specs::Syntax::before))]
fn type_form(alloc: Global, reader: &mut Reader<'_>, depth: u8) -> Result<Option<Sort>, ReadStop>
    ensures { Reads (spec.reading depth spec.type_form reader.old) result reader.new }
{
    if reader.sees(Mark::Equal) {
        reader.expect(Mark::Equal)?;
        let sort = sort(alloc, reader, depth)?;
        Ok(Some(sort))
    } else {
        Ok(None)
    }
}

#[tactic(auto, unfolding(lil_language::specs::Grammar::reading, lil_language::specs::Grammar::definition_type, lil_syntax::specs::Syntax::reads, lil_syntax::specs::Syntax::before))]
fn definition_type(alloc: Global, reader: &mut Reader<'_>, depth: u8) -> Result<TypeName, ReadStop>
    ensures { Reads (spec.reading depth spec.definition_type reader.old) result reader.new }
{
    let name = reader.ident(alloc)?;
    let sort = type_form(alloc, reader, depth)?;
    let (sort, _) = beside(sort, reader.expect(Mark::Semicolon))?;
    Ok(TypeName { name, sort })
}

#[tactic(auto, using(lil_grammar::specs::Turns::turns), unfolding(lil_language::specs::Grammar::reading, lil_language::specs::Grammar::definition_types, lil_language::specs::Grammar::definition_type, lil_syntax::specs::Syntax::reads, lil_syntax::specs::Syntax::before, lil_grammar::specs::Steps::many))]
fn definition_types(
    alloc: Global,
    reader: &mut Reader<'_>,
    depth: u8,
) -> Result<Items<TypeName>, ReadStop>
    ensures { Reads (spec.reading depth spec.definition_types reader.old) result reader.new }
{
    let mut found = Items::new(alloc);
    for _turn in 0..reader.left() {
        if !sees_name(reader) {
            return Ok(found);
        }
        let next = definition_type(alloc, reader, depth)?;
        found.push(next)?;
    }
    Ok(found)
}

/// Types behind TYPE, of which some may be opaque.
#[tactic(auto, unfolding(lil_language::specs::Grammar::reading, lil_language::specs::Grammar::definition_type_part, lil_syntax::specs::Syntax::reads, lil_syntax::specs::Syntax::before))]
pub fn definition_type_part(
    alloc: Global,
    reader: &mut Reader<'_>,
    depth: u8,
) -> Result<Decl, ReadStop>
    ensures { Reads (spec.reading depth spec.definition_type_part reader.old) result reader.new }
{
    let place = reader.expect_word(Word::TypeWord)?;
    let found = definition_types(alloc, reader, depth)?;
    Ok(Decl::TypeIs(place, found))
}

#[tactic(auto, unfolding(lil_language::specs::Grammar::reading, lil_language::specs::Grammar::variable, lil_syntax::specs::Syntax::reads, lil_syntax::specs::Syntax::before))]
fn variable(alloc: Global, reader: &mut Reader<'_>, depth: u8) -> Result<Variables, ReadStop>
    ensures { Reads (spec.reading depth spec.variable reader.old) result reader.new }
{
    let names = names(alloc, reader, depth)?;
    reader.expect(Mark::Colon)?;
    let sort = sort(alloc, reader, depth)?;
    let (sort, _) = beside(sort, reader.expect(Mark::Semicolon))?;
    Ok(Variables { names, sort })
}

#[tactic(auto, using(lil_grammar::specs::Turns::turns), unfolding(lil_language::specs::Grammar::reading, lil_language::specs::Grammar::variable_list, lil_language::specs::Grammar::variable, lil_language::specs::Grammar::names, lil_syntax::specs::Syntax::reads, lil_syntax::specs::Syntax::before, lil_grammar::specs::Steps::many))]
fn variable_list(
    alloc: Global,
    reader: &mut Reader<'_>,
    depth: u8,
) -> Result<Items<Variables>, ReadStop>
    ensures { Reads (spec.reading depth spec.variable_list reader.old) result reader.new }
{
    let mut found = Items::new(alloc);
    for _turn in 0..reader.left() {
        if !sees_name(reader) {
            return Ok(found);
        }
        let next = variable(alloc, reader, depth)?;
        found.push(next)?;
    }
    Ok(found)
}

/// Variables behind VAR.
#[tactic(auto, unfolding(lil_language::specs::Grammar::reading, lil_language::specs::Grammar::variable_part, lil_syntax::specs::Syntax::reads, lil_syntax::specs::Syntax::before))]
pub fn variable_part(alloc: Global, reader: &mut Reader<'_>, depth: u8) -> Result<Decl, ReadStop>
    ensures { Reads (spec.reading depth spec.variable_part reader.old) result reader.new }
{
    let place = reader.expect_word(Word::Var)?;
    let found = variable_list(alloc, reader, depth)?;
    Ok(Decl::VarsAre(place, found))
}
