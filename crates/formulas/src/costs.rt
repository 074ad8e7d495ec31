//! The costs of instances.
ghost use Rattle.std.specs.Prelude.{◌≡◌, slice_get};
ghost use Rattle.std.specs.Option.{option_and_then};
ghost use Rattle.task.specs.Task.{task_of};
ghost use Rattle.formulas.specs.State.{instance_of};
ghost use Rattle.model.specs.Meaning.{amount_of, cost_of};

use crate::instance::Instance;
use crate::truth::ground_atom;
use task::{Increase, Task};

/// The cost of the instance: its increase of the total cost if the task minimizes it, otherwise 1.
pub fn cost(task: &Task, instance: &Instance) -> u32
    ensures { result ≡ cost_of (task_of task.now) (instance_of instance.now) }
{
    if !task.has_metric() {
        return 1;
    }
    amount(task, instance).unwrap_or(0)
}

/// The amount by which the instance increases the total cost, whether or not there is a metric; `None` if the amount is a
/// function without a value for the instance's objects, or if the task has no such schema. Nothing is allocated.
pub fn amount(task: &Task, instance: &Instance) -> Option<u32>
    ensures { result ≡ option_and_then (λ s. amount_of (task_of task.now) s.increase (instance_of instance.now).objects) (slice_get (task_of task.now).schemas instance.now.schema.0) }
{
    let schema = task.schema(instance.schema)?;
    match &schema.increase {
        Increase::Number(amount) => Some(*amount),
        Increase::Function(function) => task.value(&ground_atom(function, &instance.objects)),
    }
}
