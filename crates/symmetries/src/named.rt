//! The objects that formulas and actions name.
ghost use Rattle.std.specs.Prelude.{◌≡◌, map, IfOk, OnOk};
ghost use Rattle.std.specs.List.{flat_map};
ghost use Rattle.task.specs.Task.{task_of};
ghost use Rattle.task.specs.TaskParts.{formula_of, object_of};
ghost use Rattle.formulas.specs.Marks.{is_marked};
ghost use Rattle.formulas.specs.MentionViews.{mention_of};
ghost use Rattle.symmetries.specs.Named.{AreAdded, AreNamedIn, named_by};
ghost use Rattle.symmetries_definitions.specs.NamedObjects.{named_in_formula};

use faults::NoMemory;
use formulas::{Mention, add_action_mentions, add_formula_mentions, is_marked, named_table};
use std::alloc::Global;
use task::{Formula, ObjectId, Task};

/// The objects that the task's actions name in a precondition, an effect or a cost increase.
#[derive(Drop)]
pub(crate) struct NamedObjects {
    /// Indexed by object, up to the last one that is named.
    table: Vec<bool>,
}

impl NamedObjects {
    /// The named objects of the task.
    pub(crate) fn new(alloc: Global, task: &Task) -> Result<NamedObjects, NoMemory>
        ensures { IfOk result (λ named. AreNamedIn (task_of task.now) named.table.items) }
    {
        let mut mentions = Vec::new(alloc);
        add_action_mentions(task, &mut mentions)?;
        let table = named_table(alloc, &mentions)?;
        Ok(NamedObjects { table })
    }

    /// Whether the object is named.
    pub(crate) fn contains(&self, object: ObjectId) -> bool
        ensures { result ≡ is_marked self.now.table.items object.0 }
    {
        is_marked(&self.table, object.0 as usize)
    }
}

/// The objects that the formula names, each as often as it is named.
pub(crate) fn named_in_formula(alloc: Global, formula: &Formula) -> Result<Vec<ObjectId>, NoMemory>
    ensures { IfOk result (λ found. map object_of found.items ≡ named_in_formula (formula_of formula.now)) }
{
    let mut mentions = Vec::new(alloc);
    add_formula_mentions(formula, &mut mentions)?;
    objects_named(alloc, &mentions)
}

/// The objects that the mentions name, each as often as it is named.
fn objects_named(alloc: Global, mentions: &[Mention]) -> Result<Vec<ObjectId>, NoMemory>
    ensures { IfOk result (λ found. map object_of found.items ≡ flat_map named_by (map mention_of mentions.now)) }
{
    let mut found = Vec::new(alloc);
    for mention in mentions {
        add_named(mention, &mut found)?;
    }
    Ok(found)
}

/// Adds the object, if the mention names one.
fn add_named(mention: &Mention, found: &mut Vec<ObjectId>) -> Result<(), NoMemory>
    ensures { OnOk result (AreAdded (named_by (mention_of mention.now)) found.old.items found.new.items) }
{
    match mention {
        Mention::Asked(_) => Ok(()),
        Mention::Named(object) => {
            found.push(*object)?;
            Ok(())
        }
    }
}
