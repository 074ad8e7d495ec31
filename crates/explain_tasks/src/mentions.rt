//! What a task mentions.
ghost use Rattle.std.specs.Prelude.{◌≡◌, map, IfOk, OnOk};
ghost use Rattle.std.specs.List.{flat_map};
ghost use Rattle.task.specs.Task.{task_of};
ghost use Rattle.task.specs.TaskParts.{atom_of, object_of};
ghost use Rattle.formulas.specs.Mentions.{named};
ghost use Rattle.explain_tasks.specs.Mentions.{fact_mentions, task_mentions};
ghost use Rattle.formulas.specs.MentionViews.{Come, mention_of};

use faults::NoMemory;
use formulas::{Mention, add_action_mentions, add_formula_mentions};
use std::alloc::Global;
use task::{Atom, ObjectId, Task};

/// All mentions in the task: in its goal, then its actions, then its facts.
pub(crate) fn mentions_of(alloc: Global, task: &Task) -> Result<Vec<Mention>, NoMemory>
    ensures { IfOk result (λ found. map mention_of found.items ≡ task_mentions (task_of task.now)) }
{
    let mut found = Vec::new(alloc);
    add_formula_mentions(task.goal(), &mut found)?;
    add_action_mentions(task, &mut found)?;
    add_facts(task.init(), &mut found)?;
    Ok(found)
}

/// Adds the objects of the facts.
fn add_facts(facts: &[Atom], found: &mut Vec<Mention>) -> Result<(), NoMemory>
    ensures { OnOk result (Come (flat_map (λ fact. fact_mentions (atom_of fact)) facts.now) found.old.items found.new.items) }
{
    for fact in facts {
        add_objects(fact.objects.as_slice(), found)?;
    }
    Ok(())
}

/// Adds these objects.
fn add_objects(objects: &[ObjectId], found: &mut Vec<Mention>) -> Result<(), NoMemory>
    ensures { OnOk result (Come (map named (map object_of objects.now)) found.old.items found.new.items) }
{
    for object in objects {
        found.push(Mention::Named(*object))?;
    }
    Ok(())
}
