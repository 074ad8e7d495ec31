//! The objects that a variable ranges over.
ghost use Rattle.std.specs.Prelude.{◌≡◌};
ghost use Rattle.task.specs.TaskParts.{object_of, union_of};
ghost use Rattle.task.specs.Task.{task_of};
ghost use Rattle.formulas.specs.Objects.{objects_left};
ghost use Rattle.model.specs.Meaning as meaning;

use task::{ObjectId, Task, TypeUnion};

/// An iterator over the objects of some types.
#[derive(Drop)]
pub struct Objects<'t> {
    task: &'t Task,
    types: &'t TypeUnion,
    /// The number of the next candidate.
    next: usize,
}

/// The objects of one of these types, by number and without repetition. Nothing is allocated.
pub fn objects_of<'t>(task: &'t Task, types: &'t TypeUnion) -> Objects<'t>
    ensures { objects_left result ≡ meaning.objects_of (task_of task.now) (union_of types.now) }
{
    Objects {
        task,
        types,
        next: 0,
    }
}

impl<'t> Iterator for Objects<'t> {
    ghost use Rattle.std.specs.Iterator.{YieldsFirstBy, item_count};

    type Item = ObjectId;

    ghost next_gives = { YieldsFirstBy object_of objects_left };

    ghost remaining = { item_count objects_left };

    fn next(&mut self) -> Option<ObjectId> {
        for number in self.next..self.task.object_count() {
            let object = ObjectId(number as u32);
            if self.task.is_of(object, self.types) {
                self.next = number + 1;
                return Some(object);
            }
        }
        self.next = self.task.object_count();
        None
    }
}
