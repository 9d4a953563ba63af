ghost use Rattle.std.specs.Prelude.{List, Ok, IfOk, IfErr};
ghost use Rattle.lil_text.specs.{declared.token.Token.Token as Each, Nesting.within};
ghost use Rattle.lil_grammar.specs.{Places.{Longest, StopsAt}, Steps.Reads};
ghost use Rattle.lil_language.specs.{declared.tree.{Expr.Expr as Tree, Stmt.Stmt as Statement}, Grammar.{Derives, Ends, reading}};
ghost use Rattle.lil_language.specs.Grammar as spec;

use crate::statement::statements;
use lil_base::Items;
use lil_grammar::Reader;
use lil_language::{Expr, Stmt};
use lil_read_expr::expr;
use lil_text::ReadStop;
use std::alloc::Global;

/// Reads the statements here and stands behind them (Programming in Modula-2, Statements): the longest run of tokens
/// that begins some, with at most `depth` parts in one another. Fault 10 where that run is none, at the token behind
/// it, and 12 where a part of it is nested deeper, at its first token.
pub fn read_statements(
    alloc: Global,
    reader: &mut Reader<'_>,
    depth: u8,
) -> Result<Items<Stmt>, ReadStop>
    ensures found { IfOk result (λ x. Derives spec.statements (within depth) reader.old reader.new x) }
    ensures longest { IfOk result (λ x. Longest (Derives spec.statements) reader.old reader.new) }
    ensures only { (x : List Statement) (rest : List Each) → Derives spec.statements (within depth) reader.old rest x → Ends spec.statements rest → Reads (Ok (x, rest)) result reader.new }
    ensures exact { IfErr result (λ e. StopsAt (Derives spec.statements) depth reader.old e) }
    ensures equation { Reads (reading depth spec.statements reader.old) result reader.new }
{
    statements(alloc, reader, depth)
}

/// Reads the expression here and stands behind it (Programming in Modula-2, Expressions). The longest run, and faults,
/// as of `read_statements`. The expression itself is one of the parts that `depth` bounds.
#[tactic(auto, unfolding(lil_language::specs::Grammar::reading, lil_syntax::specs::Syntax::reads))]
pub fn read_expression(alloc: Global, reader: &mut Reader<'_>, depth: u8) -> Result<Expr, ReadStop>
    ensures found { IfOk result (λ x. Derives spec.expr (within depth) reader.old reader.new x) }
    ensures longest { IfOk result (λ x. Longest (Derives spec.expr) reader.old reader.new) }
    ensures only { (x : Tree) (rest : List Each) → Derives spec.expr (within depth) reader.old rest x → Ends spec.expr rest → Reads (Ok (x, rest)) result reader.new }
    ensures exact { IfErr result (λ e. StopsAt (Derives spec.expr) depth reader.old e) }
    ensures equation { Reads (reading depth spec.expr reader.old) result reader.new }
{
    expr(alloc, reader, depth)
}
