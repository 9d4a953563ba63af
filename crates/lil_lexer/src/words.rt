ghost use Rattle.std.specs.Prelude.{◌≡◌};
ghost use Rattle.lil_text.specs.Cuts as cuts;
ghost use Rattle.lil_lexer.specs.Spellings as spec;

use lil_text::Word;

const WORDS: [(&str, Word); 40] = [
    ("AND", Word::And),
    ("ARRAY", Word::Array),
    ("BEGIN", Word::Begin),
    ("BY", Word::By),
    ("CASE", Word::Case),
    ("CONST", Word::Const),
    ("DEFINITION", Word::Definition),
    ("DIV", Word::Div),
    ("DO", Word::Do),
    ("ELSE", Word::Else),
    ("ELSIF", Word::Elsif),
    ("END", Word::End),
    ("EXIT", Word::Exit),
    ("EXPORT", Word::Export),
    ("FOR", Word::For),
    ("FROM", Word::From),
    ("IF", Word::If),
    ("IMPLEMENTATION", Word::Implementation),
    ("IMPORT", Word::Import),
    ("IN", Word::In),
    ("LOOP", Word::Loop),
    ("MOD", Word::Mod),
    ("MODULE", Word::Module),
    ("NOT", Word::Not),
    ("OF", Word::Of),
    ("OR", Word::Or),
    ("POINTER", Word::Pointer),
    ("PROCEDURE", Word::Procedure),
    ("QUALIFIED", Word::Qualified),
    ("RECORD", Word::Record),
    ("REPEAT", Word::Repeat),
    ("RETURN", Word::Return),
    ("SET", Word::Set),
    ("THEN", Word::Then),
    ("TO", Word::To),
    ("TYPE", Word::TypeWord),
    ("UNTIL", Word::Until),
    ("VAR", Word::Var),
    ("WHILE", Word::While),
    ("WITH", Word::With),
];

fn look_up(table: &[(&str, Word)], name: &[u8]) -> Option<Word>
    ensures { result ≡ spec.look_up table.now name.now }
{
    for (spelling, word) in table {
        if name == spelling.as_bytes() {
            return Some(*word);
        }
    }
    None
}

/// The reserved word with this spelling.
pub(crate) fn word_of(name: &[u8]) -> Option<Word>
    ensures { result ≡ cuts.word_among cuts.all_words name.now }
{
    look_up(&WORDS, name)
}
