ghost use Rattle.std.specs.Prelude.{◌≡◌};
ghost use Rattle.lil_grammar.specs.Steps as steps;
ghost use Rattle.lil_syntax.specs.Terminals.{among};
ghost use Rattle.lil_language.specs.Grammar as spec;

use lil_grammar::Reader;
use lil_text::{TokenKind, Word};

/// Whether IF or CASE is next.
#[tactic(auto, unfolding(lil_grammar::specs::Steps::at, lil_grammar::specs::Steps::same_word, lil_language::specs::Grammar::choice_form, lil_language::specs::Grammar::if_form, lil_language::specs::Grammar::case_form))]
pub fn sees_choice(reader: &Reader<'_>) -> bool
    ensures { result ≡ steps.at (spec.turns spec.choice_form) reader.now }
{
    matches!(reader.what(), Some(TokenKind::Word(Word::If | Word::Case)))
}

/// Whether WHILE, REPEAT, LOOP or FOR is next.
#[tactic(auto, unfolding(lil_grammar::specs::Steps::at, lil_grammar::specs::Steps::same_word, lil_language::specs::Grammar::loops_form, lil_language::specs::Grammar::while_form, lil_language::specs::Grammar::repeat_form, lil_language::specs::Grammar::loop_form, lil_language::specs::Grammar::for_form))]
pub fn sees_loop(reader: &Reader<'_>) -> bool
    ensures { result ≡ steps.at (spec.turns spec.loops_form) reader.now }
{
    matches!(
        reader.what(),
        Some(TokenKind::Word(Word::While | Word::Repeat | Word::Loop | Word::For))
    )
}

/// Whether WITH, EXIT or RETURN is next.
#[tactic(auto, unfolding(lil_grammar::specs::Steps::at, lil_grammar::specs::Steps::same_word, lil_language::specs::Grammar::word_form, lil_language::specs::Grammar::with_form, lil_language::specs::Grammar::exit_form, lil_language::specs::Grammar::return_form))]
pub fn sees_other_word(reader: &Reader<'_>) -> bool
    ensures { result ≡ steps.at (spec.turns spec.word_form) reader.now }
{
    matches!(
        reader.what(),
        Some(TokenKind::Word(Word::With | Word::Exit | Word::Return))
    )
}

/// Whether a statement is next.
#[tactic(auto, unfolding(lil_grammar::specs::Steps::at, lil_grammar::specs::Steps::same_word))]
pub fn sees_statement(reader: &Reader<'_>) -> bool
    ensures { result ≡ steps.at (among (spec.first spec.form)) reader.now }
{
    matches!(
        reader.what(),
        Some(
            TokenKind::Word(
                Word::If
                    | Word::Case
                    | Word::While
                    | Word::Repeat
                    | Word::Loop
                    | Word::For
                    | Word::With
                    | Word::Exit
                    | Word::Return
            ) | TokenKind::Ident(_)
        )
    )
}
