//! Costs that are ignored, and a metric without costs.
ghost use Rattle.std.specs.Prelude.{◌≡◌};
ghost use Rattle.std.specs.List.{list_any};
ghost use Rattle.task.specs.Task.{task_of};
ghost use Rattle.task.specs.TaskParts.{increase_of};
ghost use Rattle.model.specs.Task.{Schema};
ghost use Rattle.explain_tasks.specs.Costs as defined;

use task::{Increase, SchemaId, Task};

/// Whether some action increases the total cost although the task does not minimize it.
pub(crate) fn ignores_costs(task: &Task) -> bool
    ensures { result ≡ defined.ignores_costs (task_of task.now) }
{
    !task.has_metric() && some_is_costly(task)
}

/// Whether the task minimizes the total cost although no action increases it.
pub(crate) fn lacks_costs(task: &Task) -> bool
    ensures { result ≡ defined.lacks_costs (task_of task.now) }
{
    task.has_metric() && !some_is_costly(task)
}

/// Whether some action increases the total cost.
pub(crate) fn some_is_costly(task: &Task) -> bool
    ensures { result ≡ list_any (λ (s : Schema). defined.is_costly s.increase) (task_of task.now).schemas }
{
    for number in 0..task.schema_count() {
        let Some(schema) = task.schema(SchemaId(number)) else {
            return false;
        };
        if is_costly(&schema.increase) {
            return true;
        }
    }
    false
}

/// Whether the increase is by more than 0, or by a function.
pub(crate) fn is_costly(increase: &Increase) -> bool
    ensures { result ≡ defined.is_costly (increase_of increase.now) }
{
    match increase {
        Increase::Number(amount) => *amount != 0,
        Increase::Function(_) => true,
    }
}
