//! Formulas settled when the task is grounded: one without fluent atoms has the same truth value in all packed states.
ghost use Rattle.std.specs.Prelude.{◌≡◌, Bool, map, if◌then◌else◌};
ghost use Rattle.std.specs.Prelude.{Some, true};
ghost use Rattle.std.specs.List.{list_all};
ghost use Rattle.task.specs.TaskParts.{object_of, formula_of};
ghost use Rattle.formulas.specs.State.{FitsFormula, FitsFormulas};
ghost use Rattle.grounding_instances.specs.Numbering.{task_in};
ghost use Rattle.grounding.specs.Settled as settled;

use crate::outright::{is_outright, is_simple};
use formulas::{Binding, Valuation, holds};
use grounding_instances::Numbering;
use task::{Atom, Formula};

/// The initial state as a valuation.
#[derive(Drop)]
struct InitialView<'a, 't> {
    numbering: &'a Numbering<'t>,
}

impl Valuation for InitialView<'_, '_> {
    ghost use Rattle.grounding.specs.InitialView.{initial_facts};

    ghost facts = { initial_facts };

    fn contains(&self, atom: &Atom) -> bool {
        self.numbering.is_initial(atom)
    }
}

/// What the formula, well-typed for the binding, says beyond its sure literals: `Some(true)` if it holds in each packed state in
/// which they are true, `Some(false)` if in none, and `None` if it has to be evaluated in each state.
#[cycle(beyond)]
pub(crate) fn beyond(
    numbering: &Numbering<'_>,
    formula: &Formula,
    binding: &Binding,
) -> Option<bool>
    requires { FitsFormula (task_in numbering.now) (formula_of formula.now) (map object_of binding.now.items) }
    ensures { result ≡ settled.beyond (task_in numbering.now) (map object_of binding.now.items) (formula_of formula.now) }
{
    match formula {
        Formula::Atom(_) => Some(true),
        Formula::Equal(_, _) => Some(true),
        Formula::And(parts) => beyond_each(numbering, parts, binding),
        Formula::Or(_) => settled(numbering, formula, binding),
        Formula::Not(part) => settled_unless(is_simple(part), numbering, formula, binding),
        Formula::Imply(_, _) => settled(numbering, formula, binding),
        Formula::Exists(_, _) => settled(numbering, formula, binding),
        Formula::Forall(_, part) => settled_unless(is_outright(part), numbering, formula, binding),
    }
}

/// [`beyond`] of a conjunction: the answer of the first part that says more than its literals.
#[cycle(beyond)]
fn beyond_each(numbering: &Numbering<'_>, parts: &[Formula], binding: &Binding) -> Option<bool>
    requires { FitsFormulas (task_in numbering.now) (map formula_of parts.now) (map object_of binding.now.items) }
    ensures { result ≡ settled.beyond_each (task_in numbering.now) (map object_of binding.now.items) (map formula_of parts.now) }
{
    for part in parts {
        let said = beyond(numbering, part, binding);
        if !is_nothing(said) {
            return said;
        }
    }
    Some(true)
}

/// Whether the formula says nothing beyond its literals.
fn is_nothing(said: Option<bool>) -> bool
    ensures { result ≡ settled.is_nothing said }
{
    match said {
        Some(holds) => holds,
        None => false,
    }
}

/// `Some(true)` if the formula says nothing beyond its literals; otherwise what is settled of it.
fn settled_unless(
    says_nothing: bool,
    numbering: &Numbering<'_>,
    formula: &Formula,
    binding: &Binding,
) -> Option<bool>
    requires { FitsFormula (task_in numbering.now) (formula_of formula.now) (map object_of binding.now.items) }
    ensures { result ≡ settled.settled_unless says_nothing (task_in numbering.now) (formula_of formula.now) (map object_of binding.now.items) }
{
    if says_nothing {
        return Some(true);
    }
    settled(numbering, formula, binding)
}

/// Whether a static formula holds, and `None` for any other.
fn settled(numbering: &Numbering<'_>, formula: &Formula, binding: &Binding) -> Option<bool>
    requires { FitsFormula (task_in numbering.now) (formula_of formula.now) (map object_of binding.now.items) }
    ensures { result ≡ settled.settled (task_in numbering.now) (formula_of formula.now) (map object_of binding.now.items) }
{
    if !is_static(numbering, formula) {
        return None;
    }
    let view = InitialView { numbering };
    Some(holds(numbering.task(), formula, binding, &view))
}

/// Whether the formula has no atom of a fluent predicate.
#[cycle(is_static)]
fn is_static(numbering: &Numbering<'_>, formula: &Formula) -> bool
    ensures { result ≡ settled.is_static (task_in numbering.now) (formula_of formula.now) }
{
    match formula {
        Formula::Atom(atom) => !numbering.is_fluent(atom.predicate),
        Formula::Equal(_, _) => true,
        Formula::And(parts) => are_static(numbering, parts),
        Formula::Or(parts) => are_static(numbering, parts),
        Formula::Not(part) => is_static(numbering, part),
        Formula::Imply(premise, conclusion) => {
            is_static(numbering, premise) && is_static(numbering, conclusion)
        }
        Formula::Exists(_, part) => is_static(numbering, part),
        Formula::Forall(_, part) => is_static(numbering, part),
    }
}

/// Whether all formulas are static.
#[cycle(is_static)]
fn are_static(numbering: &Numbering<'_>, parts: &[Formula]) -> bool
    ensures { result ≡ list_all (settled.is_static (task_in numbering.now)) (map formula_of parts.now) }
{
    for part in parts {
        if !is_static(numbering, part) {
            return false;
        }
    }
    true
}
