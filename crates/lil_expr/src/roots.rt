//! The code of the roots of places.

ghost use Rattle.std.specs.Prelude.{IfOk};
ghost use Rattle.lil_resolved.specs.{Resolved.Along, Sizes.{expression_strings, place_strings}, Views.{expression_of, root_of}};
ghost use Rattle.lil_labels.specs.Drafts.{Adds};
ghost use Rattle.lil_expr.specs.{Accesses.access_view, Generating.Found};

use crate::expressions::emit_tested;
use crate::opened::emit_opened;
use crate::places::{Access, Reached, emit_load, variable_access};
use lil_asm::Instr;
use lil_base::Memory;
use lil_labels::CodeBuffer;
use lil_resolved::{RBase, RExpr, RKind, RNamed, RRoot};

/// Appends the code of a root, and says how code then has it. A variable takes none, what was handed in for a VAR parameter
/// and the record of a WITH the load of its address.
#[cycle(emitting)]
pub(crate) fn emit_root(code: &mut CodeBuffer<'_>, root: &RRoot) -> Result<Reached, Memory>
    ensures { IfOk result (λ at. Adds (place_strings (root_of root.now)) code.old code.new (Found (root_of root.now) (access_view at.access) at.shape)) }
{
    match root {
        RRoot::Variable(named) => {
            let variable = code.variable(*named);
            Ok(Reached {
                access: variable_access(*named, variable.offset),
                shape: variable.shape,
            })
        }
        RRoot::Handed(levels, number) => {
            let named = RNamed::Level(*levels, *number);
            let variable = code.variable(named);
            emit_load(code, variable_access(named, variable.offset))?;
            Ok(Reached {
                access: Access::OnTop,
                shape: variable.shape,
            })
        }
        RRoot::Along(levels, number, index) => emit_along(code, *levels, *number, index.get()),
        RRoot::Held(number) => {
            let held = code.held(*number);
            code.put(Instr::Llw(held.word))?;
            Ok(Reached {
                access: Access::OnTop,
                shape: held.shape,
            })
        }
    }
}

/// Appends the code of an element of the open array that is a parameter: both its words, the index and its test, and the
/// instruction that computes the element's address.
#[cycle(emitting)]
fn emit_along(
    code: &mut CodeBuffer<'_>,
    levels: u8,
    number: usize,
    index: &RExpr,
) -> Result<Reached, Memory>
    ensures { IfOk result (λ at. Adds (expression_strings (expression_of index.now)) code.old code.new (Found (Along levels number (expression_of index.now)) (access_view at.access) at.shape)) }
{
    let cardinal = RKind {
        base: RBase::Cardinal,
        range: None,
    };
    let opened = code.variable(RNamed::Level(levels, number));
    emit_opened(code, levels, opened.offset)?;
    emit_tested(code, cardinal, index)?;
    let words = code.words(opened.shape);
    code.put(Instr::Ixo(words))?;
    Ok(Reached {
        access: Access::OnTop,
        shape: opened.shape,
    })
}
