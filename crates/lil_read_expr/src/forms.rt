ghost use Rattle.std.specs.Prelude.{◌≡◌, [], ◌∷◌, IfOk};
ghost use Rattle.lil_language.specs.declared.tree.Expr.TheVariants as e;
ghost use Rattle.lil_language.specs.Grammar.{compared};
ghost use Rattle.lil_language.specs.Trees as spec;

use lil_base::{Boxed, Items, Memory, OneOp, Place, beside};
use lil_language::{Designator, Expr, Operation, Selector, first_place};
use lil_text::{Ident, Qualident};
use std::alloc::Global;

/// A first operand and what operators do to it. Without operators it is the operand alone.
pub fn chained(alloc: Global, operand: Expr, operations: Items<Operation>) -> Result<Expr, Memory>
    ensures { IfOk result (λ x. x ≡ spec.chained operand operations) }
{
    if operations.is_empty() {
        return Ok(operand);
    }
    let first = first_place(&operand);
    let operand = Boxed::new(alloc, operand)?;
    Ok(Expr::Chain(first, operand, operations))
}

/// An operand, and what it is compared with.
pub fn compared(alloc: Global, operand: Expr, comparison: Operation) -> Result<Expr, Memory>
    ensures { IfOk result (λ x. x ≡ compared operand (Some comparison)) }
{
    let (operand, operations) = beside(operand, alone(alloc, comparison))?;
    chained(alloc, operand, operations)
}

/// A list of one item.
pub fn alone<T: Drop>(alloc: Global, item: T) -> Result<Items<T>, Memory>
    ensures { IfOk result (λ items. items ≡ item ∷ []) }
{
    let mut items = Items::new(alloc);
    items.push(item)?;
    Ok(items)
}

/// An operator before its operand.
pub fn one(alloc: Global, place: Place, operator: OneOp, operand: Expr) -> Result<Expr, Memory>
    ensures { IfOk result (λ x. x ≡ e.One place operator place operand) }
{
    let operand = Boxed::new(alloc, operand)?;
    Ok(Expr::One(place, operator, place, operand))
}

/// A name and what is selected of it, or a call of that.
pub fn designated(
    alloc: Global,
    first: Ident,
    selectors: Items<Selector>,
    arguments: Option<Items<Expr>>,
) -> Result<Expr, Memory>
    ensures { IfOk result (λ x. x ≡ spec.named first selectors arguments) }
{
    let place = first.place;
    let designator = Designator { first, selectors };
    match arguments {
        None => Ok(Expr::Desig(place, designator)),
        Some(arguments) => {
            let (arguments, designator) = beside(arguments, Boxed::new(alloc, designator))?;
            Ok(Expr::Call(place, designator, arguments))
        }
    }
}
