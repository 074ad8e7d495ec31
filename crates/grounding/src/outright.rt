//! Formulas that are equivalent to their sure literals.
ghost use Rattle.std.specs.Prelude.{◌≡◌, map};
ghost use Rattle.std.specs.List.{list_all};
ghost use Rattle.task.specs.TaskParts.{formula_of};
ghost use Rattle.grounding.specs.Outright as outright;

use task::Formula;

/// Whether the formula is built by `and` and `forall` alone from atoms, equalities and negations of these. Such a formula holds
/// if its sure literals do.
#[cycle(outright)]
pub(crate) fn is_outright(formula: &Formula) -> bool
    ensures { result ≡ outright.is_outright (formula_of formula.now) }
{
    match formula {
        Formula::Atom(_) | Formula::Equal(_, _) => true,
        Formula::Not(part) => is_simple(part),
        Formula::And(parts) => are_outright(parts),
        Formula::Forall(_, part) => is_outright(part),
        Formula::Or(_) | Formula::Imply(_, _) | Formula::Exists(_, _) => false,
    }
}

/// Whether all formulas are built so.
#[cycle(outright)]
fn are_outright(parts: &[Formula]) -> bool
    ensures { result ≡ list_all outright.is_outright (map formula_of parts.now) }
{
    for part in parts {
        if !is_outright(part) {
            return false;
        }
    }
    true
}

/// Whether the formula is an atom or an equality.
pub(crate) fn is_simple(formula: &Formula) -> bool
    ensures { result ≡ outright.is_simple (formula_of formula.now) }
{
    match formula {
        Formula::Atom(_) | Formula::Equal(_, _) => true,
        _ => false,
    }
}
