ghost use Rattle.std.specs.Prelude.{◌≡◌};
ghost use Rattle.lil_grammar.specs.Steps.{at};
ghost use Rattle.lil_syntax.specs.{Syntax.begins, Terminals.among};
ghost use Rattle.lil_language.specs.Grammar as spec;

use lil_grammar::Reader;
use lil_text::{TokenKind, Word};

/// Whether parameters are next.
#[tactic(auto, unfolding(lil_grammar::specs::Steps::at, lil_grammar::specs::Steps::same_word, lil_language::specs::Grammar::sections, lil_language::specs::Grammar::a_section, lil_language::specs::Grammar::by_place, lil_language::specs::Grammar::names))]
pub fn sees_section(reader: &Reader<'_>) -> bool
    ensures { result ≡ at (among (begins spec.first spec.goes spec.sections)) reader.now }
{
    matches!(
        reader.what(),
        Some(TokenKind::Ident(_) | TokenKind::Word(Word::Var))
    )
}

/// Whether a declaration is next.
#[tactic(auto, unfolding(lil_grammar::specs::Steps::at, lil_grammar::specs::Steps::same_word, lil_language::specs::Grammar::decl, lil_language::specs::Grammar::constant_part, lil_language::specs::Grammar::type_part, lil_language::specs::Grammar::variable_part, lil_language::specs::Grammar::procedure_part))]
pub fn sees_decl(reader: &Reader<'_>) -> bool
    ensures { result ≡ at (among (begins spec.first spec.goes spec.decl)) reader.now }
{
    matches!(
        reader.what(),
        Some(TokenKind::Word(Word::Const | Word::TypeWord | Word::Var | Word::Procedure))
    )
}

/// Whether a declaration of a definition is next.
#[tactic(auto, unfolding(lil_grammar::specs::Steps::at, lil_grammar::specs::Steps::same_word, lil_language::specs::Grammar::definition_decl, lil_language::specs::Grammar::constant_part, lil_language::specs::Grammar::definition_type_part, lil_language::specs::Grammar::variable_part, lil_language::specs::Grammar::definition_heading, lil_language::specs::Grammar::heading))]
pub fn sees_definition_decl(reader: &Reader<'_>) -> bool
    ensures { result ≡ at (among (begins spec.first spec.goes spec.definition_decl)) reader.now }
{
    matches!(
        reader.what(),
        Some(TokenKind::Word(Word::Const | Word::TypeWord | Word::Var | Word::Procedure))
    )
}
