ghost use Rattle.std.specs.Prelude.{◌≡◌, min};
ghost use Rattle.std.specs.List.{sum_by};
ghost use Rattle.lil_layout.specs.Data as spec;

use crate::strings::body_words;
use lil_base::Items;
use lil_declared::RVar;
use lil_resolved::RStmt;
use lil_types::{TypeTable, words};

/// How many words variables take, or 4,294,967,295 where they are more.
pub fn variables_words(t: &TypeTable, of: &[RVar]) -> u32
    ensures { result ≡ min (sum_by (spec.variable_words t.now) of.now) 4294967295 }
{
    let mut sum: u32 = 0;
    for one in of {
        sum = sum.saturating_add(words(t, one.sort));
    }
    sum
}

/// The words of the strings of statements, where they have code.
fn text_words(of: &Option<Items<RStmt>>) -> u32
    ensures { result ≡ min (spec.text_words of.now) 4294967295 }
{
    match of {
        Some(body) => body_words(body.as_slice()),
        None => 0,
    }
}

fn procedures_words(of: &[Option<Items<RStmt>>]) -> u32
    ensures { result ≡ min (sum_by spec.text_words of.now) 4294967295 }
{
    let mut sum: u32 = 0;
    for one in of {
        sum = sum.saturating_add(text_words(one));
    }
    sum
}

/// How many words the data of a module take, its own variables and the strings of its procedures' statements and of its
/// body's, each where they have code, or 4,294,967,295 where they are more.
#[tactic(auto, unfolding(crate::specs::Data::data_words))]
pub fn data_words(
    types: &TypeTable,
    variables: &[RVar],
    procedures: &[Option<Items<RStmt>>],
    body: &Option<Items<RStmt>>,
) -> u32
    ensures { result ≡ min (spec.data_words types.now variables.now procedures.now body.now) 4294967295 }
{
    let own = variables_words(types, variables);
    let nested = procedures_words(procedures);
    own.saturating_add(nested.saturating_add(text_words(body)))
}
