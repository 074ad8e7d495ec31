//! The changes of an instance that count, by atom numbers.
ghost use Rattle.std.specs.Prelude.{◌≡◌, Some, map, IfOk};
ghost use Rattle.task.specs.TaskParts.{object_of, formula_of};
ghost use Rattle.formulas.specs.State.{FitsFormula};
ghost use Rattle.grounding_instances.specs.Numbering.{task_in, atoms_in};
ghost use Rattle.grounding_instances.specs.Numbers.{numbered_of};
ghost use Rattle.grounding_instances.specs.KeptChanges.{effect_of};
ghost use Rattle.grounding.specs.Changes.{counting_of, conditional_of, effect_in, guard_in, GuardFits, AllGuardsFit, IsCompiled, AreCompiled};

use crate::condition::Condition;
use faults::NoMemory;
use formulas::{Binding, copied};
use grounding_instances::{NumberedChange, NumberedLiteral, Numbering};
use std::alloc::Global;
use task::Formula;

/// A change that counts: a numbered atom becomes true or false, perhaps under a condition.
#[derive(Drop)]
pub struct CountingChange<'t> {
    /// The atom's number, from 0.
    pub atom: u32,
    /// Whether it becomes true.
    pub value: bool,
    /// `None` if the condition is `(and)`. Boxed, since few changes have one.
    pub(crate) condition: Option<Box<ChangeCondition<'t>>>,
}

/// The condition of a change.
#[derive(Drop)]
pub(crate) struct ChangeCondition<'t> {
    pub(crate) formula: &'t Formula,
    /// The objects of the variables in scope.
    pub(crate) binding: Binding,
    /// The formula under this binding, compiled for packed states.
    pub(crate) condition: Condition,
}

impl CountingChange<'_> {
    /// Whether the condition is `(and)`, as written: the change is made whenever its instance is applied.
    pub fn is_unconditional(&self) -> bool
        ensures { result ≡ (counting_of self.now).is_unconditional }
    {
        self.condition.is_none()
    }

    /// The sure literals of its condition whose atoms are numbered, in order; empty if it is unconditional.
    pub fn condition(&self) -> &[NumberedLiteral]
        ensures { map numbered_of result.now ≡ (conditional_of self.now).condition }
    {
        match &self.condition {
            Some(under) => under.condition.literals(),
            None => &[],
        }
    }

    /// Whether another sure literal of its condition needs a fluent atom without a number. Such a change is never made.
    pub fn requires_unnumbered(&self) -> bool
        ensures { result ≡ (conditional_of self.now).requires_unnumbered }
    {
        match &self.condition {
            Some(under) => !under.condition.may_hold(),
            None => false,
        }
    }
}

/// Compiles the conditions of an instance's changes for packed states.
pub(crate) fn counting_changes<'t>(
    alloc: Global,
    numbering: &Numbering<'t>,
    changes: &[NumberedChange<'t>],
) -> Result<Vec<CountingChange<'t>>, NoMemory>
    requires { AllGuardsFit (task_in numbering.now) (map effect_of changes.now) }
    ensures effects { IfOk result (λ found. map effect_in found.items ≡ map effect_of changes.now) }
    ensures compiled { IfOk result (λ found. AreCompiled (task_in numbering.now) (atoms_in numbering.now) found.items) }
{
    let mut found = Vec::with_capacity(alloc, changes.len())?;
    for change in changes {
        found.push(counting_change(alloc, numbering, change)?)?;
    }
    Ok(found)
}

/// Compiles the condition of one change.
fn counting_change<'t>(
    alloc: Global,
    numbering: &Numbering<'t>,
    change: &NumberedChange<'t>,
) -> Result<CountingChange<'t>, NoMemory>
    requires { GuardFits (task_in numbering.now) (effect_of change.now).guard }
    ensures effect { IfOk result (λ found. effect_in found ≡ effect_of change.now) }
    ensures compiled { IfOk result (λ found. IsCompiled (task_in numbering.now) (atoms_in numbering.now) found.condition) }
{
    let condition = match &change.guard {
        Some(guard) => Some(compiled(alloc, numbering, guard.formula, &guard.binding)?),
        None => None,
    };
    Ok(CountingChange {
        atom: change.atom,
        value: change.value,
        condition,
    })
}

/// Compiles the formula under this binding.
fn compiled<'t>(
    alloc: Global,
    numbering: &Numbering<'t>,
    formula: &'t Formula,
    binding: &Binding,
) -> Result<Box<ChangeCondition<'t>>, NoMemory>
    requires { FitsFormula (task_in numbering.now) (formula_of formula.now) (map object_of binding.now.items) }
    ensures guard { IfOk result (λ c. guard_in (Some c) ≡ Some (record { formula = formula_of formula.now; binding = map object_of binding.now.items })) }
    ensures compiled { IfOk result (λ c. IsCompiled (task_in numbering.now) (atoms_in numbering.now) (Some c)) }
{
    let condition = Condition::new(alloc, numbering, formula, binding)?;
    let change = Box::new(
        alloc,
        ChangeCondition {
            formula,
            binding: copied(binding),
            condition,
        },
    )?;
    Ok(change)
}
