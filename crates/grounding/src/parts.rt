//! What a ground task has for each instance, and for the goal.
ghost use Rattle.std.specs.Prelude.{◌≡◌, [], map, IfOk, IsTrue};
ghost use Rattle.formulas.specs.State.{instance_of};
ghost use Rattle.model.specs.Meaning.{is_instance, cost_of};
ghost use Rattle.grounding_instances.specs.Numbering.{task_in, atoms_in, instances_in};
ghost use Rattle.grounding_instances.specs.KeptChanges.{AreKept};
ghost use Rattle.grounding.specs.Conditions.{IsConditionOf};
ghost use Rattle.grounding.specs.InPlace.{AreInPlace};
ghost use Rattle.grounding.specs.Changes.{AreChangesOf};
ghost use Rattle.grounding.specs.Preconditions.{IsPrecondition};

use crate::changes::{CountingChange, counting_changes};
use crate::condition::Condition;
use faults::NoMemory;
use formulas::{Binding, Instance, cost};
use grounding_instances::{KeptChanges, Numbering};
use std::alloc::Global;

/// The compiled preconditions of all instances.
pub(crate) fn preconditions(
    alloc: Global,
    numbering: &Numbering<'_>,
) -> Result<Vec<Condition>, NoMemory>
    ensures { IfOk result (λ found. AreInPlace (IsPrecondition (task_in numbering.now) (atoms_in numbering.now)) (instances_in numbering.now) found.items) }
{
    let instances = numbering.instances();
    let mut found = Vec::new(alloc);
    for instance in instances {
        found.push(precondition(alloc, numbering, instance)?)?;
    }
    Ok(found)
}

/// The compiled precondition of the instance.
fn precondition(
    alloc: Global,
    numbering: &Numbering<'_>,
    instance: &Instance,
) -> Result<Condition, NoMemory>
    requires { IsTrue (is_instance (task_in numbering.now) (instance_of instance.now)) }
    ensures { IfOk result (IsPrecondition (task_in numbering.now) (atoms_in numbering.now) (instance_of instance.now)) }
{
    match numbering.task().schema(instance.schema) {
        Some(schema) => Condition::new(alloc, numbering, &schema.precondition, &instance.objects),
        None => unreachable!(),
    }
}

/// The changes of each instance that count, from those that were kept when the atoms were numbered.
pub(crate) fn changes_of_all<'t>(
    alloc: Global,
    numbering: &Numbering<'t>,
    kept: &KeptChanges<'t>,
) -> Result<Vec<Vec<CountingChange<'t>>>, NoMemory>
    requires { AreKept (task_in numbering.now) (atoms_in numbering.now) (instances_in numbering.now) kept.now }
    ensures { IfOk result (λ found. AreInPlace (AreChangesOf (task_in numbering.now) (atoms_in numbering.now)) (instances_in numbering.now) found.items) }
{
    let counts = kept.counts.as_slice();
    let all = kept.changes.as_slice();
    let mut begin = 0;
    let mut found = Vec::new(alloc);
    for &count in counts {
        let (_, left) = all.split_at(begin);
        let (changes, _) = left.split_at(count);
        found.push(counting_changes(alloc, numbering, changes)?)?;
        begin += count;
    }
    Ok(found)
}

/// The costs of all instances.
pub(crate) fn costs(alloc: Global, numbering: &Numbering<'_>) -> Result<Vec<u32>, NoMemory>
    ensures { IfOk result (λ found. found.items ≡ map (cost_of (task_in numbering.now)) (instances_in numbering.now)) }
{
    let instances = numbering.instances();
    let mut found = Vec::new(alloc);
    for instance in instances {
        found.push(cost(numbering.task(), instance))?;
    }
    Ok(found)
}

/// The compiled goal.
pub(crate) fn goal_condition(
    alloc: Global,
    numbering: &Numbering<'_>,
) -> Result<Condition, NoMemory>
    ensures { IfOk result (IsConditionOf (task_in numbering.now) (atoms_in numbering.now) (task_in numbering.now).goal []) }
{
    Condition::new(alloc, numbering, numbering.task().goal(), &Binding::new())
}
