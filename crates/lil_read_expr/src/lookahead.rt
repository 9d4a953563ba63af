ghost use Rattle.std.specs.Prelude.{◌≡◌};
ghost use Rattle.lil_grammar.specs.Steps as steps;
ghost use Rattle.lil_syntax.specs.Terminals.{among};
ghost use Rattle.lil_language.specs.Grammar as spec;

use lil_grammar::Reader;
use lil_text::{Mark, TokenKind, Word};

/// Whether an expression is next.
#[tactic(auto, unfolding(lil_grammar::specs::Steps::at, lil_grammar::specs::Steps::same_mark, lil_grammar::specs::Steps::same_word))]
pub fn sees_expression(reader: &Reader<'_>) -> bool
    ensures { result ≡ steps.at (among (spec.first spec.expression)) reader.now }
{
    matches!(
        reader.what(),
        Some(
            TokenKind::Number(_)
                | TokenKind::CharCode(_)
                | TokenKind::Chars(_)
                | TokenKind::Ident(_)
                | TokenKind::Mark(Mark::Plus | Mark::Minus | Mark::Open | Mark::OpenBrace)
                | TokenKind::Word(Word::Not)
        )
    )
}

/// Whether a factor is next.
#[tactic(auto, unfolding(lil_grammar::specs::Steps::at, lil_grammar::specs::Steps::same_mark, lil_grammar::specs::Steps::same_word))]
pub fn sees_factor(reader: &Reader<'_>) -> bool
    ensures { result ≡ steps.at (among (spec.first spec.operand)) reader.now }
{
    matches!(
        reader.what(),
        Some(
            TokenKind::Number(_)
                | TokenKind::CharCode(_)
                | TokenKind::Chars(_)
                | TokenKind::Ident(_)
                | TokenKind::Mark(Mark::Open | Mark::OpenBrace)
                | TokenKind::Word(Word::Not)
        )
    )
}

/// Whether a number, a character code or a string is next.
#[tactic(auto, unfolding(lil_grammar::specs::Steps::at, lil_language::specs::Grammar::literal, lil_language::specs::Grammar::number, lil_language::specs::Grammar::code, lil_language::specs::Grammar::chars))]
pub fn sees_literal(reader: &Reader<'_>) -> bool
    ensures { result ≡ steps.at (spec.turns spec.literal) reader.now }
{
    matches!(
        reader.what(),
        Some(TokenKind::Number(_) | TokenKind::CharCode(_) | TokenKind::Chars(_))
    )
}

/// Whether an index or an arrow is next.
#[tactic(auto, unfolding(lil_grammar::specs::Steps::at, lil_grammar::specs::Steps::same_mark, lil_language::specs::Grammar::a_part, lil_language::specs::Grammar::part_selectors, lil_language::specs::Grammar::part_selector, lil_language::specs::Grammar::index, lil_language::specs::Grammar::follow))]
pub fn sees_part_selector(reader: &Reader<'_>) -> bool
    ensures { result ≡ steps.at (spec.turns spec.a_part) reader.now }
{
    matches!(
        reader.what(),
        Some(TokenKind::Mark(Mark::OpenBracket | Mark::Arrow))
    )
}

/// Whether a field, an index or an arrow is next.
#[tactic(auto, unfolding(lil_grammar::specs::Steps::at, lil_grammar::specs::Steps::same_mark, lil_language::specs::Grammar::selector, lil_language::specs::Grammar::field, lil_language::specs::Grammar::part_selector, lil_language::specs::Grammar::index, lil_language::specs::Grammar::follow))]
pub fn sees_selector(reader: &Reader<'_>) -> bool
    ensures { result ≡ steps.at (spec.turns spec.selector) reader.now }
{
    matches!(
        reader.what(),
        Some(TokenKind::Mark(Mark::Dot | Mark::OpenBracket | Mark::Arrow))
    )
}
