ghost use Rattle.lil_grammar.specs.Steps.{Reads};
ghost use Rattle.lil_syntax.specs.Syntax.{read};
ghost use Rattle.lil_language.specs.Grammar as spec;

use crate::lookahead::{sees_fields, sees_sort, sees_structured};
use crate::ordinal::{simple, simples};
use crate::parameter::formal_part;
use lil_base::{Boxed, Items, beside};
use lil_grammar::Reader;
use lil_language::{FieldList, Sort, Variant};
use lil_read_expr::{add_read, labels, names, qualident, sees_expression};
use lil_text::{Ident, Mark, Qualident, ReadStop, Word};
use std::alloc::Global;

/// A type, with at most `depth` parts in one another.
#[cycle(sort)]
#[tactic(auto, using(lil_language::specs::Laws::read_deeper, lil_language::specs::Laws::read_none))]
pub fn sort(alloc: Global, reader: &mut Reader<'_>, depth: u8) -> Result<Sort, ReadStop>
    ensures { Reads (read spec.grammar depth spec.sort reader.old) result reader.new }
{
    if depth == 0 {
        return reader.shallow(sees_sort(reader));
    }
    a_sort(alloc, reader, depth - 1)
}

#[cycle(sort)]
#[tactic(auto, using(lil_language::specs::Laws::ways), unfolding(lil_language::specs::Grammar::a_sort, lil_language::specs::Grammar::pointer, lil_language::specs::Grammar::procedure_type))]
fn a_sort(alloc: Global, reader: &mut Reader<'_>, depth: u8) -> Result<Sort, ReadStop>
    ensures { Reads (spec.reading depth (spec.produced spec.sort) reader.old) result reader.new }
{
    if sees_structured(reader) {
        structured(alloc, reader, depth)
    } else if reader.sees_word(Word::Pointer) {
        pointer(alloc, reader, depth)
    } else if reader.sees_word(Word::Procedure) {
        procedure_type(alloc, reader, depth)
    } else {
        scalar(alloc, reader, depth)
    }
}

#[cycle(sort)]
#[tactic(auto, using(lil_language::specs::Laws::ways), unfolding(lil_language::specs::Grammar::structured, lil_language::specs::Grammar::array, lil_language::specs::Grammar::record_type))]
fn structured(alloc: Global, reader: &mut Reader<'_>, depth: u8) -> Result<Sort, ReadStop>
    ensures { Reads (spec.reading depth spec.structured reader.old) result reader.new }
{
    if reader.sees_word(Word::Array) {
        array(alloc, reader, depth)
    } else if reader.sees_word(Word::Record) {
        record_type(alloc, reader, depth)
    } else {
        set(alloc, reader, depth)
    }
}

#[cycle(sort)]
#[tactic(auto, unfolding(lil_language::specs::Grammar::reading, lil_language::specs::Grammar::array, lil_syntax::specs::Syntax::reads, lil_syntax::specs::Syntax::before))]
fn array(alloc: Global, reader: &mut Reader<'_>, depth: u8) -> Result<Sort, ReadStop>
    ensures { Reads (spec.reading depth spec.array reader.old) result reader.new }
{
    let place = reader.expect_word(Word::Array)?;
    let indices = simples(alloc, reader, depth)?;
    reader.expect_word(Word::Of)?;
    let (indices, element) = beside(indices, sort(alloc, reader, depth))?;
    let (indices, element) = beside(indices, Boxed::new(alloc, element))?;
    Ok(Sort::ArrayOf(place, indices, element))
}

#[cycle(sort)]
#[tactic(auto, unfolding(lil_language::specs::Grammar::reading, lil_language::specs::Grammar::record_type, lil_syntax::specs::Syntax::reads, lil_syntax::specs::Syntax::before))]
fn record_type(alloc: Global, reader: &mut Reader<'_>, depth: u8) -> Result<Sort, ReadStop>
    ensures { Reads (spec.reading depth spec.record_type reader.old) result reader.new }
{
    let place = reader.expect_word(Word::Record)?;
    let fields = fields(alloc, reader, depth)?;
    reader.expect_word(Word::End)?;
    Ok(Sort::RecordOf(place, fields))
}

#[tactic(auto, unfolding(lil_language::specs::Grammar::reading, lil_language::specs::Grammar::set, lil_syntax::specs::Syntax::reads, lil_syntax::specs::Syntax::before))]
fn set(alloc: Global, reader: &mut Reader<'_>, depth: u8) -> Result<Sort, ReadStop>
    ensures { Reads (spec.reading depth spec.set reader.old) result reader.new }
{
    let place = reader.expect_word(Word::Set)?;
    reader.expect_word(Word::Of)?;
    let base = simple(alloc, reader, depth)?;
    Ok(Sort::SetOver(place, base))
}

#[cycle(sort)]
#[tactic(auto, unfolding(lil_language::specs::Grammar::reading, lil_language::specs::Grammar::pointer, lil_syntax::specs::Syntax::reads, lil_syntax::specs::Syntax::before))]
fn pointer(alloc: Global, reader: &mut Reader<'_>, depth: u8) -> Result<Sort, ReadStop>
    ensures { Reads (spec.reading depth spec.pointer reader.old) result reader.new }
{
    let place = reader.expect_word(Word::Pointer)?;
    reader.expect_word(Word::To)?;
    let target = sort(alloc, reader, depth)?;
    let target = Boxed::new(alloc, target)?;
    Ok(Sort::PointerTo(place, target))
}

#[tactic(auto, unfolding(lil_language::specs::Grammar::reading, lil_language::specs::Grammar::procedure_type, lil_language::specs::Grammar::formal_part, lil_syntax::specs::Syntax::reads, lil_syntax::specs::Syntax::before))]
fn procedure_type(alloc: Global, reader: &mut Reader<'_>, depth: u8) -> Result<Sort, ReadStop>
    ensures { Reads (spec.reading depth spec.procedure_type reader.old) result reader.new }
{
    let place = reader.expect_word(Word::Procedure)?;
    if reader.sees(Mark::Open) {
        let (formals, result) = formal_part(alloc, reader, depth)?;
        Ok(Sort::ProcedureOf(place, formals, result))
    } else {
        Ok(Sort::ProcedureOf(place, Items::new(alloc), None))
    }
}

#[tactic(auto, unfolding(lil_language::specs::Grammar::reading, lil_language::specs::Grammar::scalar, lil_syntax::specs::Syntax::reads, lil_syntax::specs::Syntax::before))]
fn scalar(alloc: Global, reader: &mut Reader<'_>, depth: u8) -> Result<Sort, ReadStop>
    ensures { Reads (spec.reading depth spec.scalar reader.old) result reader.new }
{
    let sort = simple(alloc, reader, depth)?;
    Ok(Sort::Scalar(sort))
}

/// A record's CASE, with at most `depth` parts in one another.
#[cycle(sort)]
#[tactic(auto, using(lil_language::specs::Laws::read_deeper, lil_language::specs::Laws::read_none))]
fn record_case(alloc: Global, reader: &mut Reader<'_>, depth: u8) -> Result<FieldList, ReadStop>
    ensures { Reads (read spec.grammar depth spec.record_case reader.old) result reader.new }
{
    if depth == 0 {
        return reader.shallow(reader.sees_word(Word::Case));
    }
    field_variants(alloc, reader, depth - 1)
}

/// Fields of one type, or a record's CASE.
#[cycle(sort)]
#[tactic(auto, unfolding(lil_language::specs::Grammar::reading, lil_language::specs::Grammar::a_fieldlist, lil_syntax::specs::Syntax::reads, lil_syntax::specs::Syntax::before))]
fn a_fieldlist(alloc: Global, reader: &mut Reader<'_>, depth: u8) -> Result<FieldList, ReadStop>
    ensures { Reads (spec.reading depth spec.a_fieldlist reader.old) result reader.new }
{
    if reader.sees_word(Word::Case) {
        record_case(alloc, reader, depth)
    } else {
        field_row(alloc, reader, depth)
    }
}

#[cycle(sort)]
#[tactic(auto, unfolding(lil_language::specs::Grammar::reading, lil_language::specs::Grammar::field_statement, lil_syntax::specs::Syntax::reads, lil_syntax::specs::Syntax::before))]
fn field_statement(
    alloc: Global,
    reader: &mut Reader<'_>,
    depth: u8,
) -> Result<Option<FieldList>, ReadStop>
    ensures { Reads (spec.reading depth spec.field_statement reader.old) result reader.new }
{
    if sees_fields(reader) {
        let found = a_fieldlist(alloc, reader, depth)?;
        Ok(Some(found))
    } else {
        Ok(None)
    }
}

#[cycle(sort)]
#[tactic(auto, using(lil_grammar::specs::Turns::turns), unfolding(lil_language::specs::Grammar::reading, lil_language::specs::Grammar::fields, lil_syntax::specs::Syntax::reads, lil_syntax::specs::Syntax::before, lil_grammar::specs::Steps::many))]
fn fields(alloc: Global, reader: &mut Reader<'_>, depth: u8) -> Result<Items<FieldList>, ReadStop>
    ensures { Reads (spec.reading depth spec.fields reader.old) result reader.new }
{
    let mut found = Items::new(alloc);
    let first = field_statement(alloc, reader, depth)?;
    add_read(&mut found, first)?;
    for _turn in 0..reader.left() {
        if !reader.sees(Mark::Semicolon) {
            return Ok(found);
        }
        reader.expect(Mark::Semicolon)?;
        let next = field_statement(alloc, reader, depth)?;
        add_read(&mut found, next)?;
    }
    Ok(found)
}

#[cycle(sort)]
#[tactic(auto, unfolding(lil_language::specs::Grammar::reading, lil_language::specs::Grammar::field_row, lil_syntax::specs::Syntax::reads, lil_syntax::specs::Syntax::before))]
fn field_row(alloc: Global, reader: &mut Reader<'_>, depth: u8) -> Result<FieldList, ReadStop>
    ensures { Reads (spec.reading depth spec.field_row reader.old) result reader.new }
{
    let names = names(alloc, reader, depth)?;
    reader.expect(Mark::Colon)?;
    let (names, sort) = beside(names, sort(alloc, reader, depth))?;
    Ok(FieldList::Fields(names, sort))
}

#[cycle(sort)]
#[tactic(auto, unfolding(lil_language::specs::Grammar::reading, lil_language::specs::Grammar::a_variant, lil_syntax::specs::Syntax::reads, lil_syntax::specs::Syntax::before))]
fn a_variant(alloc: Global, reader: &mut Reader<'_>, depth: u8) -> Result<Variant, ReadStop>
    ensures { Reads (spec.reading depth spec.a_variant reader.old) result reader.new }
{
    let labels = labels(alloc, reader, depth)?;
    reader.expect(Mark::Colon)?;
    let (labels, fields) = beside(labels, fields(alloc, reader, depth))?;
    Ok(Variant { labels, fields })
}

#[cycle(sort)]
#[tactic(auto, unfolding(lil_language::specs::Grammar::reading, lil_language::specs::Grammar::some_variant, lil_language::specs::Grammar::a_variant, lil_language::specs::Grammar::labels, lil_language::specs::Grammar::element, lil_syntax::specs::Syntax::reads, lil_syntax::specs::Syntax::before))]
fn some_variant(
    alloc: Global,
    reader: &mut Reader<'_>,
    depth: u8,
) -> Result<Option<Variant>, ReadStop>
    ensures { Reads (spec.reading depth spec.some_variant reader.old) result reader.new }
{
    if sees_expression(reader) {
        let found = a_variant(alloc, reader, depth)?;
        Ok(Some(found))
    } else {
        Ok(None)
    }
}

#[cycle(sort)]
#[tactic(auto, using(lil_grammar::specs::Turns::turns), unfolding(lil_language::specs::Grammar::reading, lil_language::specs::Grammar::variants, lil_syntax::specs::Syntax::reads, lil_syntax::specs::Syntax::before, lil_grammar::specs::Steps::many))]
fn variants(alloc: Global, reader: &mut Reader<'_>, depth: u8) -> Result<Items<Variant>, ReadStop>
    ensures { Reads (spec.reading depth spec.variants reader.old) result reader.new }
{
    let mut found = Items::new(alloc);
    let first = some_variant(alloc, reader, depth)?;
    add_read(&mut found, first)?;
    for _turn in 0..reader.left() {
        if !reader.sees(Mark::Bar) {
            return Ok(found);
        }
        reader.expect(Mark::Bar)?;
        let next = some_variant(alloc, reader, depth)?;
        add_read(&mut found, next)?;
    }
    Ok(found)
}

#[cycle(sort)]
#[tactic(auto, unfolding(lil_language::specs::Grammar::reading, lil_language::specs::Grammar::other_fields, lil_syntax::specs::Syntax::reads, lil_syntax::specs::Syntax::before))]
fn other_fields(
    alloc: Global,
    reader: &mut Reader<'_>,
    depth: u8,
) -> Result<Option<Items<FieldList>>, ReadStop>
    ensures { Reads (spec.reading depth spec.other_fields reader.old) result reader.new }
{
    if reader.sees_word(Word::Else) {
        reader.expect_word(Word::Else)?;
        let fields = fields(alloc, reader, depth)?;
        Ok(Some(fields))
    } else {
        Ok(None)
    }
}

#[tactic(auto, unfolding(lil_language::specs::Grammar::reading, lil_language::specs::Grammar::unnamed_tag, lil_syntax::specs::Syntax::reads, lil_syntax::specs::Syntax::before))]
fn unnamed_tag(
    alloc: Global,
    reader: &mut Reader<'_>,
    depth: u8,
) -> Result<(Option<Ident>, Qualident), ReadStop>
    ensures { Reads (spec.reading depth spec.unnamed_tag reader.old) result reader.new }
{
    reader.expect(Mark::Colon)?;
    let sort = qualident(alloc, reader, depth)?;
    Ok((None, sort))
}

#[tactic(auto, unfolding(lil_language::specs::Grammar::reading, lil_language::specs::Grammar::named_tag, lil_syntax::specs::Syntax::reads, lil_syntax::specs::Syntax::before))]
fn named_tag(
    alloc: Global,
    reader: &mut Reader<'_>,
    depth: u8,
) -> Result<(Option<Ident>, Qualident), ReadStop>
    ensures { Reads (spec.reading depth spec.named_tag reader.old) result reader.new }
{
    let first = reader.ident(alloc)?;
    if reader.sees(Mark::Colon) {
        let (first, _) = beside(first, reader.expect(Mark::Colon))?;
        let (first, sort) = beside(first, qualident(alloc, reader, depth))?;
        Ok((Some(first), sort))
    } else if reader.sees(Mark::Dot) {
        let (first, _) = beside(first, reader.expect(Mark::Dot))?;
        let (first, name) = beside(first, reader.ident(alloc))?;
        let owner = Some(first);
        Ok((None, Qualident { owner, name }))
    } else {
        let name = first;
        Ok((None, Qualident { owner: None, name }))
    }
}

/// A record's tag: its name, where it has one, and its type.
#[tactic(auto, using(lil_language::specs::Laws::ways), unfolding(lil_language::specs::Grammar::tag, lil_language::specs::Grammar::unnamed_tag))]
fn tag(
    alloc: Global,
    reader: &mut Reader<'_>,
    depth: u8,
) -> Result<(Option<Ident>, Qualident), ReadStop>
    ensures { Reads (spec.reading depth spec.tag reader.old) result reader.new }
{
    if reader.sees(Mark::Colon) {
        unnamed_tag(alloc, reader, depth)
    } else {
        named_tag(alloc, reader, depth)
    }
}

#[cycle(sort)]
#[tactic(auto, unfolding(lil_language::specs::Grammar::reading, lil_language::specs::Grammar::field_variants, lil_syntax::specs::Syntax::reads, lil_syntax::specs::Syntax::before))]
fn field_variants(alloc: Global, reader: &mut Reader<'_>, depth: u8) -> Result<FieldList, ReadStop>
    ensures { Reads (spec.reading depth spec.field_variants reader.old) result reader.new }
{
    let place = reader.expect_word(Word::Case)?;
    let tag = tag(alloc, reader, depth)?;
    let (tag, _) = beside(tag, reader.expect_word(Word::Of))?;
    let (tag, variants) = beside(tag, variants(alloc, reader, depth))?;
    let ((tag, variants), others) = beside((tag, variants), other_fields(alloc, reader, depth))?;
    let (held, _) = beside((tag, variants, others), reader.expect_word(Word::End))?;
    let ((name, sort), variants, others) = held;
    Ok(FieldList::Variants(place, name, sort, variants, others))
}
