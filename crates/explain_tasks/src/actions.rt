//! Actions of which something is doubtful.
ghost use Rattle.std.specs.Prelude.{◌≡◌, ◌++◌, ◌∷◌, [], filter, IfOk, OnOk};
ghost use Rattle.task.specs.Task.{task_of};
ghost use Rattle.task.specs.TaskParts.{shape_of, shape_of_schema};
ghost use Rattle.model.specs.Task as planning;
ghost use Rattle.explain_tasks.specs.Actions as defined;
ghost use Rattle.explain_tasks.specs.Actions.{AreActionNotesOf};

use crate::conjuncts::{is_adding_what_it_deletes, is_contradictory};
use crate::costs::{is_costly, some_is_costly};
use crate::inhabited::some_is_uninhabited;
use faults::NoMemory;
use std::alloc::Global;
use task::{Schema, SchemaId, Task};

/// What is doubtful about an action.
#[derive(Clone, Copy)]
pub(crate) enum ActionDoubt {
    /// It does not increase the total cost, or only by the number 0.
    Free,
    /// An atom and its negation are conjuncts of its precondition.
    Contradictory,
    /// There is no object of the types of some parameter.
    Uninhabited,
    /// It deletes and adds the same atom under no condition, so that the atom is true afterwards.
    Undoing,
}

/// Doubtful actions, by number.
pub struct ActionNotes {
    /// Those that do not increase the total cost although it is minimized and others increase it.
    pub free: Vec<usize>,
    /// Those of which an atom and its negation are conjuncts of the precondition.
    pub contradictory: Vec<usize>,
    /// Those with a parameter of whose types there is no object.
    pub uninhabited: Vec<usize>,
    /// Those that delete and add the same atom under no condition, so that it is true afterwards.
    pub undoing: Vec<usize>,
}

impl Drop for ActionNotes {
    fn drop(self) {
        let Self {
            free: _,
            contradictory: _,
            uninhabited: _,
            undoing: _,
        } = self;
    }
}

impl ActionNotes {
    /// The notes on the task's actions.
    pub(crate) fn of(alloc: Global, task: &Task) -> Result<ActionNotes, NoMemory>
        ensures { IfOk result (AreActionNotesOf (task_of task.now)) }
    {
        let free = free_actions(alloc, task)?;
        let contradictory = doubtful_actions(alloc, task, ActionDoubt::Contradictory)?;
        let uninhabited = doubtful_actions(alloc, task, ActionDoubt::Uninhabited)?;
        let undoing = doubtful_actions(alloc, task, ActionDoubt::Undoing)?;
        Ok(ActionNotes {
            free,
            contradictory,
            uninhabited,
            undoing,
        })
    }
}

/// The actions that do not increase the total cost, if it is minimized and others increase it.
fn free_actions(alloc: Global, task: &Task) -> Result<Vec<usize>, NoMemory>
    ensures { IfOk result (λ found. found.items ≡ defined.free_actions (task_of task.now)) }
{
    let matter = task.has_metric() && some_is_costly(task);
    if matter {
        doubtful_actions(alloc, task, ActionDoubt::Free)
    } else {
        Ok(Vec::new(alloc))
    }
}

/// The actions of which this is so, in order.
fn doubtful_actions(alloc: Global, task: &Task, doubt: ActionDoubt) -> Result<Vec<usize>, NoMemory>
    ensures { IfOk result (λ found. found.items ≡ defined.doubtful_actions (task_of task.now) doubt) }
{
    let mut found = Vec::new(alloc);
    for number in 0..task.schema_count() {
        add_if_doubtful(task, doubt, number, &mut found)?;
    }
    Ok(found)
}

/// Adds the action with this number, if this is so of it.
fn add_if_doubtful(
    task: &Task,
    doubt: ActionDoubt,
    number: usize,
    found: &mut Vec<usize>,
) -> Result<(), NoMemory>
    ensures { OnOk result (found.new.items ≡ found.old.items ++ filter (defined.is_doubtful (task_of task.now) doubt) (number ∷ [])) }
{
    if !is_doubtful(task, doubt, number) {
        return Ok(());
    }
    found.push(number)?;
    Ok(())
}

/// Whether this is so of the action with this number.
fn is_doubtful(task: &Task, doubt: ActionDoubt, number: usize) -> bool
    ensures { result ≡ defined.is_doubtful (task_of task.now) doubt number }
{
    match task.schema(SchemaId(number)) {
        Some(schema) => is_doubtful_schema(task, doubt, schema),
        None => false,
    }
}

/// Whether this is so of the action.
fn is_doubtful_schema(task: &Task, doubt: ActionDoubt, schema: &Schema) -> bool
    ensures { (s : planning.Schema) → shape_of schema.now ≡ shape_of_schema s → result ≡ defined.is_doubtful_schema (task_of task.now) doubt s }
{
    match doubt {
        ActionDoubt::Free => !is_costly(&schema.increase),
        ActionDoubt::Contradictory => is_contradictory(&schema.precondition),
        ActionDoubt::Uninhabited => some_is_uninhabited(task, schema.parameters.as_slice()),
        ActionDoubt::Undoing => is_adding_what_it_deletes(&schema.effect),
    }
}
