ghost use Rattle.std.specs.Prelude.{◌≡◌};
ghost use Rattle.lil_grammar.specs.Steps.{at};
ghost use Rattle.lil_syntax.specs.{Terminals.among, Syntax.begins};
ghost use Rattle.lil_language.specs.Grammar as spec;

use lil_grammar::Reader;
use lil_text::{Mark, TokenKind, Word};

/// Whether a type is next.
#[tactic(auto, unfolding(lil_grammar::specs::Steps::at, lil_grammar::specs::Steps::same_mark, lil_grammar::specs::Steps::same_word))]
pub fn sees_sort(reader: &Reader<'_>) -> bool
    ensures { result ≡ at (among (spec.first spec.sort)) reader.now }
{
    matches!(
        reader.what(),
        Some(
            TokenKind::Ident(_)
                | TokenKind::Mark(Mark::Open | Mark::OpenBracket)
                | TokenKind::Word(
                    Word::Array | Word::Record | Word::Set | Word::Pointer | Word::Procedure
                )
        )
    )
}

/// Whether an array, a record or a set is next.
#[tactic(auto, unfolding(lil_grammar::specs::Steps::at, lil_grammar::specs::Steps::same_mark, lil_grammar::specs::Steps::same_word, lil_language::specs::Grammar::structured, lil_language::specs::Grammar::array, lil_language::specs::Grammar::record_type, lil_language::specs::Grammar::set))]
pub fn sees_structured(reader: &Reader<'_>) -> bool
    ensures { result ≡ at (among (begins spec.first spec.goes spec.structured)) reader.now }
{
    matches!(
        reader.what(),
        Some(TokenKind::Word(Word::Array | Word::Record | Word::Set))
    )
}

/// Whether fields are next.
#[tactic(auto, unfolding(lil_grammar::specs::Steps::at, lil_grammar::specs::Steps::same_mark, lil_grammar::specs::Steps::same_word, lil_language::specs::Grammar::a_fieldlist, lil_language::specs::Grammar::field_row, lil_language::specs::Grammar::names))]
pub fn sees_fields(reader: &Reader<'_>) -> bool
    ensures { result ≡ at (among (begins spec.first spec.goes spec.a_fieldlist)) reader.now }
{
    matches!(
        reader.what(),
        Some(TokenKind::Ident(_) | TokenKind::Word(Word::Case))
    )
}

/// Whether a parameter of a procedure type is next.
#[tactic(auto, unfolding(lil_grammar::specs::Steps::at, lil_grammar::specs::Steps::same_mark, lil_grammar::specs::Steps::same_word, lil_language::specs::Grammar::formals, lil_language::specs::Grammar::formal, lil_language::specs::Grammar::by_place, lil_language::specs::Grammar::open_array, lil_language::specs::Grammar::a_qualident))]
pub fn sees_formal(reader: &Reader<'_>) -> bool
    ensures { result ≡ at (among (begins spec.first spec.goes spec.formals)) reader.now }
{
    matches!(
        reader.what(),
        Some(TokenKind::Ident(_) | TokenKind::Word(Word::Var | Word::Array))
    )
}
