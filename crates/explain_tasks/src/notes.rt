//! Suspicious features of a task that show in its files.
ghost use Rattle.std.specs.Prelude.{◌≡◌, map, IfOk};
ghost use Rattle.task.specs.Task.{task_of};
ghost use Rattle.explain_tasks.specs.Mentions.{task_mentions};
ghost use Rattle.explain_tasks.specs.Notes.{AreNotesOf};
ghost use Rattle.explain_tasks.specs.Unused as unused;
ghost use Rattle.formulas.specs.MentionViews.{mention_of};

use crate::actions::ActionNotes;
use crate::costs::{ignores_costs, lacks_costs};
use crate::mentions::mentions_of;
use crate::predicates::{Doubt, PredicateUses};
use crate::start_goal::{is_empty, starts_at_goal};
use crate::tables::unmarked;
use faults::NoMemory;
use formulas::{Mention, named_table};
use std::alloc::Global;
use task::Task;

/// Suspicious features of a task that show in its files.
pub struct TaskNotes {
    /// Whether some action increases the total cost although the task does not minimize it: each step costs 1.
    pub ignores_costs: bool,
    /// Whether the task minimizes the total cost although no action increases it: every plan costs 0.
    pub lacks_costs: bool,
    /// The predicates, by number, that occur in no precondition, no condition of an effect and no goal.
    pub unasked_predicates: Vec<usize>,
    /// The predicates, by number, that do occur there, but of which `:init` has no atom and no action adds one.
    pub never_true_predicates: Vec<usize>,
    /// The predicates, by number, that do occur there and of which `:init` has atoms, but which actions only delete.
    pub only_deleted_predicates: Vec<usize>,
    /// The objects, by number, that no fact, no action and no goal names.
    pub unnamed_objects: Vec<usize>,
    /// Doubtful actions.
    pub actions: ActionNotes,
    /// Whether the goal is a conjunction of nothing.
    pub has_empty_goal: bool,
    /// Whether the goal is another one that is true in the initial state.
    pub starts_at_goal: bool,
}

impl Drop for TaskNotes {
    fn drop(self) {
        let Self {
            ignores_costs: _,
            lacks_costs: _,
            unasked_predicates: _,
            never_true_predicates: _,
            only_deleted_predicates: _,
            unnamed_objects: _,
            actions: _,
            has_empty_goal: _,
            starts_at_goal: _,
        } = self;
    }
}

impl TaskNotes {
    /// The notes on this task.
    ///
    /// # Errors
    /// An allocation failed, which says nothing about the task.
    pub fn of(alloc: Global, task: &Task) -> Result<TaskNotes, NoMemory>
        ensures { IfOk result (AreNotesOf (task_of task.now)) }
    {
        let mentions = mentions_of(alloc, task)?;
        let uses = PredicateUses::of(alloc, task, &mentions)?;
        let unasked_predicates = uses.doubtful(alloc, task, Doubt::Unasked)?;
        let never_true_predicates = uses.doubtful(alloc, task, Doubt::NeverTrue)?;
        let only_deleted_predicates = uses.doubtful(alloc, task, Doubt::OnlyDeleted)?;
        let unnamed_objects = unnamed_objects(alloc, task, &mentions)?;
        let actions = ActionNotes::of(alloc, task)?;
        let starts_at_goal = starts_at_goal(alloc, task)?;
        Ok(TaskNotes {
            ignores_costs: ignores_costs(task),
            lacks_costs: lacks_costs(task),
            unasked_predicates,
            never_true_predicates,
            only_deleted_predicates,
            unnamed_objects,
            actions,
            has_empty_goal: is_empty(task.goal()),
            starts_at_goal,
        })
    }
}

/// The objects that are not named, given all mentions.
fn unnamed_objects(alloc: Global, task: &Task, mentions: &[Mention]) -> Result<Vec<usize>, NoMemory>
    requires { map mention_of mentions.now ≡ task_mentions (task_of task.now) }
    ensures { IfOk result (λ found. found.items ≡ unused.unnamed_objects (task_of task.now)) }
{
    let named = named_table(alloc, mentions)?;
    unmarked(alloc, &named, task.object_count())
}
