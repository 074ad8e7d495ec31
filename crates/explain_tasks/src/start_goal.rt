//! Goals that are true at the start.
ghost use Rattle.std.specs.Prelude.{◌≡◌, IfOk};
ghost use Rattle.task.specs.Task.{task_of};
ghost use Rattle.task.specs.TaskParts.{formula_of};
ghost use Rattle.explain_tasks.specs.StartGoal as defined;

use faults::NoMemory;
use formulas::{State, meets_goal};
use std::alloc::Global;
use task::{Formula, Task};

/// Whether the formula is a conjunction of nothing.
pub(crate) fn is_empty(formula: &Formula) -> bool
    ensures { result ≡ defined.is_empty (formula_of formula.now) }
{
    match formula {
        Formula::And(parts) => parts.is_empty(),
        _ => false,
    }
}

/// Whether the goal is not empty, and true in the initial state.
pub(crate) fn starts_at_goal(alloc: Global, task: &Task) -> Result<bool, NoMemory>
    ensures { IfOk result (λ is_so. is_so ≡ defined.starts_at_goal (task_of task.now)) }
{
    if is_empty(task.goal()) {
        return Ok(false);
    }
    let state = State::initial(alloc, task)?;
    Ok(meets_goal(task, &state))
}
