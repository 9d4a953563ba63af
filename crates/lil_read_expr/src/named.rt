ghost use Rattle.lil_grammar.specs.Steps.{Reads};
ghost use Rattle.lil_language.specs.Grammar as spec;

use crate::forms::{alone, designated};
use crate::lists::{call, elements};
use crate::lookahead::sees_part_selector;
use crate::selectors::{part_selectors, selected_on};
use lil_base::{Boxed, Items, Place, beside};
use lil_grammar::Reader;
use lil_language::{Expr, Selector};
use lil_text::{Ident, Mark, Qualident, ReadStop};
use std::alloc::Global;

/// What a name begins: a set of its type, or what is selected of it and called.
#[cycle(expr)]
#[tactic(auto, unfolding(lil_language::specs::Grammar::reading, lil_language::specs::Grammar::named, lil_syntax::specs::Syntax::reads, lil_syntax::specs::Syntax::before))]
pub fn named(alloc: Global, reader: &mut Reader<'_>, depth: u8) -> Result<Expr, ReadStop>
    ensures { Reads (spec.reading depth spec.named reader.old) result reader.new }
{
    let first = reader.ident(alloc)?;
    behind_name(alloc, reader, depth, first)
}

#[cycle(expr)]
#[tactic(auto, using(lil_language::specs::Laws::applied_ways), unfolding(lil_language::specs::Grammar::behind_name, lil_language::specs::Grammar::name_set, lil_language::specs::Grammar::elements, lil_language::specs::Grammar::a_field))]
fn behind_name(
    alloc: Global,
    reader: &mut Reader<'_>,
    depth: u8,
    first: Ident,
) -> Result<Expr, ReadStop>
    ensures { Reads (spec.reading depth (spec.applied first spec.behind_name) reader.old) result reader.new }
{
    if reader.sees(Mark::OpenBrace) {
        set_of(alloc, reader, depth, first)
    } else if reader.sees(Mark::Dot) {
        with_field(alloc, reader, depth, first)
    } else if sees_part_selector(reader) {
        with_part(alloc, reader, depth, first)
    } else {
        name_alone(alloc, reader, depth, first)
    }
}

#[cycle(expr)]
#[tactic(auto, unfolding(lil_language::specs::Grammar::reading, lil_language::specs::Grammar::name_set, lil_syntax::specs::Syntax::reads, lil_syntax::specs::Syntax::before))]
fn set_of(alloc: Global, reader: &mut Reader<'_>, depth: u8, first: Ident) -> Result<Expr, ReadStop>
    ensures { Reads (spec.reading depth (spec.applied first spec.name_set) reader.old) result reader.new }
{
    let place = first.place;
    let elements = elements(alloc, reader, depth)?;
    let sort = Qualident {
        owner: None,
        name: first,
    };
    let (elements, sort) = beside(elements, Boxed::new(alloc, sort))?;
    Ok(Expr::SetOf(place, Some(sort), elements))
}

#[cycle(expr)]
#[tactic(auto, unfolding(lil_language::specs::Grammar::reading, lil_language::specs::Grammar::name_call, lil_syntax::specs::Syntax::reads, lil_syntax::specs::Syntax::before))]
fn name_alone(
    alloc: Global,
    reader: &mut Reader<'_>,
    depth: u8,
    first: Ident,
) -> Result<Expr, ReadStop>
    ensures { Reads (spec.reading depth (spec.applied first spec.name_call) reader.old) result reader.new }
{
    let arguments = call(alloc, reader, depth)?;
    let found = designated(alloc, first, Items::new(alloc), arguments)?;
    Ok(found)
}

#[cycle(expr)]
#[tactic(auto, unfolding(lil_language::specs::Grammar::reading, lil_language::specs::Grammar::a_part, lil_syntax::specs::Syntax::reads, lil_syntax::specs::Syntax::before))]
fn with_part(
    alloc: Global,
    reader: &mut Reader<'_>,
    depth: u8,
    first: Ident,
) -> Result<Expr, ReadStop>
    ensures { Reads (spec.reading depth (spec.applied first spec.a_part) reader.old) result reader.new }
{
    let selectors = part_selectors(alloc, reader, depth)?;
    let arguments = call(alloc, reader, depth)?;
    let found = designated(alloc, first, selectors, arguments)?;
    Ok(found)
}

#[cycle(expr)]
#[tactic(auto, unfolding(lil_language::specs::Grammar::reading, lil_language::specs::Grammar::a_field, lil_syntax::specs::Syntax::reads, lil_syntax::specs::Syntax::before))]
fn with_field(
    alloc: Global,
    reader: &mut Reader<'_>,
    depth: u8,
    first: Ident,
) -> Result<Expr, ReadStop>
    ensures { Reads (spec.reading depth (spec.applied first spec.a_field) reader.old) result reader.new }
{
    let place = reader.expect(Mark::Dot)?;
    let name = reader.ident(alloc)?;
    behind_field(alloc, reader, depth, first, place, name)
}

#[cycle(expr)]
fn behind_field(
    alloc: Global,
    reader: &mut Reader<'_>,
    depth: u8,
    first: Ident,
    place: Place,
    field: Ident,
) -> Result<Expr, ReadStop>
    ensures { Reads (spec.reading depth (spec.applied first (spec.applied (place, field) spec.behind_field)) reader.old) result reader.new }
{
    if reader.sees(Mark::OpenBrace) {
        field_set(alloc, reader, depth, first, place, field)
    } else {
        field_path(alloc, reader, depth, first, place, field)
    }
}

#[cycle(expr)]
#[tactic(auto, unfolding(lil_language::specs::Grammar::reading, lil_language::specs::Grammar::field_set, lil_syntax::specs::Syntax::reads, lil_syntax::specs::Syntax::before))]
fn field_set(
    alloc: Global,
    reader: &mut Reader<'_>,
    depth: u8,
    first: Ident,
    place: Place,
    field: Ident,
) -> Result<Expr, ReadStop>
    ensures { Reads (spec.reading depth (spec.applied first (spec.applied (place, field) spec.field_set)) reader.old) result reader.new }
{
    let start = first.place;
    let elements = elements(alloc, reader, depth)?;
    let sort = Qualident {
        owner: Some(first),
        name: field,
    };
    let (elements, sort) = beside(elements, Boxed::new(alloc, sort))?;
    Ok(Expr::SetOf(start, Some(sort), elements))
}

#[cycle(expr)]
#[tactic(auto, using(crate::proofs::Fronted::field_path_read))]
fn field_path(
    alloc: Global,
    reader: &mut Reader<'_>,
    depth: u8,
    first: Ident,
    place: Place,
    field: Ident,
) -> Result<Expr, ReadStop>
    ensures { Reads (spec.reading depth (spec.applied first (spec.applied (place, field) spec.field_path)) reader.old) result reader.new }
{
    let begun = alone(alloc, Selector::Field(place, field))?;
    selected_on(alloc, reader, depth, first, begun)
}
