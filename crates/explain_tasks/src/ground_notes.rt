//! Suspicious features of a task that show in its instances.
ghost use Rattle.std.specs.Prelude.{◌≡◌, IfOk};
ghost use Rattle.grounding_instances.specs.Numbering.{task_in};
ghost use Rattle.explain_tasks.specs.Notes.{AreGroundNotesOf};
ghost use Rattle.explain_tasks.specs.Unused as unused;

use crate::added::missing_goals;
use crate::lacking::{LackingSearch, passed_over};
use crate::tables::{schema_table, unmarked};
use faults::NoMemory;
use formulas::{Atom, Instance};
use grounding_instances::Numbering;
use std::alloc::Global;

/// The maximum number of missing values, and of unreachable goal atoms, that are reported.
pub const MOST_NOTES: usize = 10;

/// The maximum number that are searched for: one more shows that there are more.
pub const MOST_FOUND: usize = 11;

/// Suspicious features of a task that show in its instances.
#[derive(Drop)]
pub struct GroundNotes {
    /// Instances that are inapplicable only because their cost increase has no value: one for each value that an action lacks,
    /// and at most [`MOST_FOUND`].
    pub lacking: Vec<Instance>,
    /// The actions, by number, with too many instances to be checked for this.
    pub passed_over: Vec<usize>,
    /// The number of instances that are not too many.
    pub most: u32,
    /// Atoms that are sure literals of the goal, are initially false, and that no action can add: at most [`MOST_FOUND`].
    pub missing_goals: Vec<Atom>,
    /// The actions, by number, that are never applicable.
    pub idle_actions: Vec<usize>,
}

impl GroundNotes {
    /// The notes on the task with this numbering. Actions with more than `most` instances are not checked for missing values.
    ///
    /// # Errors
    /// An allocation failed, which says nothing about the task.
    pub fn of(alloc: Global, numbering: &Numbering<'_>, most: u32) -> Result<GroundNotes, NoMemory>
        ensures { IfOk result (AreGroundNotesOf (task_in numbering.now) most) }
    {
        let search = LackingSearch {
            numbering,
            limit: MOST_FOUND,
            most,
        };
        let lacking = search.all(alloc)?;
        let passed_over = passed_over(alloc, numbering.task(), most)?;
        let missing_goals = missing_goals(alloc, numbering, MOST_FOUND)?;
        let idle_actions = idle_actions(alloc, numbering)?;
        Ok(GroundNotes {
            lacking,
            passed_over,
            most,
            missing_goals,
            idle_actions,
        })
    }
}

/// The actions without kept instances.
fn idle_actions(alloc: Global, numbering: &Numbering<'_>) -> Result<Vec<usize>, NoMemory>
    ensures { IfOk result (λ found. found.items ≡ unused.idle_actions (task_in numbering.now)) }
{
    let used = schema_table(alloc, numbering.instances())?;
    unmarked(alloc, &used, numbering.task().schema_count())
}
