//! Parameters of whose types there is no object.
ghost use Rattle.std.specs.Prelude.{◌≡◌, map, not};
ghost use Rattle.std.specs.List.{list_any};
ghost use Rattle.task.specs.Task.{task_of};
ghost use Rattle.task.specs.TaskParts.{union_of};
ghost use Rattle.explain_tasks.specs.Inhabited as defined;

use formulas::objects_of;
use task::{Task, TypeUnion};

/// Whether there is no object of one of these types.
pub(crate) fn some_is_uninhabited(task: &Task, unions: &[TypeUnion]) -> bool
    ensures { result ≡ list_any (defined.is_uninhabited (task_of task.now)) (map union_of unions.now) }
{
    for types in unions {
        if is_uninhabited(task, types) {
            return true;
        }
    }
    false
}

/// Whether no object is of one of these types.
fn is_uninhabited(task: &Task, types: &TypeUnion) -> bool
    ensures { result ≡ defined.is_uninhabited (task_of task.now) (union_of types.now) }
{
    let mut objects = objects_of(task, types);
    match objects.next() {
        Some(_) => false,
        None => true,
    }
}
