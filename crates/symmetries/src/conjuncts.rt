//! The conjuncts of a goal.
ghost use Rattle.std.specs.Prelude.{◌≡◌, ◌++◌, IfOk, OnOk};
ghost use Rattle.task.specs.TaskParts.{formula_of};
ghost use Rattle.symmetries.specs.Lent.{formulas_lent};
ghost use Rattle.symmetries_definitions.specs.Symmetries as defined;

use faults::NoMemory;
use std::alloc::Global;
use task::Formula;

/// The conjuncts of the formula: the parts of its outermost `and`, with nested `and`s flattened; or the formula itself if it is
/// not an `and`.
pub(crate) fn conjuncts<'t>(
    alloc: Global,
    formula: &'t Formula,
) -> Result<Vec<&'t Formula>, NoMemory>
    ensures { IfOk result (λ found. formulas_lent found.items ≡ defined.conjuncts (formula_of formula.now)) }
{
    let mut found = Vec::new(alloc);
    add_conjuncts(formula, &mut found)?;
    Ok(found)
}

/// Adds the conjuncts of the formula.
fn add_conjuncts<'t>(formula: &'t Formula, found: &mut Vec<&'t Formula>) -> Result<(), NoMemory>
    ensures { OnOk result (formulas_lent found.new.items ≡ formulas_lent found.old.items ++ defined.conjuncts (formula_of formula.now)) }
{
    match formula {
        Formula::And(parts) => {
            for part in parts {
                add_conjuncts(part, found)?;
            }
            Ok(())
        }
        _ => {
            found.push(formula)?;
            Ok(())
        }
    }
}
