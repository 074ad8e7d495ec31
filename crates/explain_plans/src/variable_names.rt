//! The names of the variables of quantifiers, in textual order.
ghost use Rattle.std.specs.Prelude.{◌≡◌, drop, map};
ghost use Rattle.task.specs.Names.{names_in};
ghost use Rattle.task.specs.TaskParts.{formula_of};
ghost use Rattle.explain_plans.specs.NamesLeft.{names_left, after_all_lines, formulas};

use task::Formula;

/// The names left over after those of the formula's variables, which come first.
#[cycle(names_left)]
pub(crate) fn names_after<'n>(formula: &Formula, names: &'n [Vec<u8>]) -> &'n [Vec<u8>]
    ensures { names_in result.now ≡ names_left (formula_of formula.now) (names_in names.now) }
{
    match formula {
        Formula::Atom(_) | Formula::Equal(_, _) => names,
        Formula::And(parts) => names_after_each(parts, names),
        Formula::Or(parts) => names_after_each(parts, names),
        Formula::Not(part) => names_after(part, names),
        Formula::Imply(premise, conclusion) => {
            names_after(conclusion, names_after(premise, names))
        }
        Formula::Exists(_, part) | Formula::Forall(_, part) => {
            names_after(part, without_first(names))
        }
    }
}

/// The same for each of the formulas.
#[cycle(names_left)]
fn names_after_each<'n>(parts: &[Formula], names: &'n [Vec<u8>]) -> &'n [Vec<u8>]
    ensures { names_in result.now ≡ after_all_lines (formulas (map formula_of parts.now)) (names_in names.now) }
{
    let mut left = names;
    for part in parts {
        left = names_after(part, left);
    }
    left
}

/// The names without the first.
pub(crate) fn without_first<'n>(names: &'n [Vec<u8>]) -> &'n [Vec<u8>]
    ensures { names_in result.now ≡ drop 1 (names_in names.now) }
{
    match names {
        [_, others @ ..] => others,
        [] => names,
    }
}
