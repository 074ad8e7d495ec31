//! Instances: schemas with objects for their parameters.
ghost use Rattle.std.specs.Prelude.{◌≡◌, ◌<◌, [], ◌∷◌, ◌++◌, map, length};
ghost use Rattle.std.specs.Cmp.Lexicographic.{pointwise};
ghost use Rattle.task.specs.Task.{task_of};
ghost use Rattle.task.specs.TaskParts.{object_of, union_of};
ghost use Rattle.formulas.specs.State.{instance_of};
ghost use Rattle.model.specs.Meaning as meaning;

use arrayvec::ArrayVec;
use task::{MAX_VARIABLES, ObjectId, SchemaId, Task, TypeUnion};

/// The objects of the variables in scope, in order: first those of a schema's parameters, then those of the enclosing
/// quantifiers.
pub type Binding = ArrayVec<ObjectId, MAX_VARIABLES>;

/// A copy of the binding that can be extended.
pub fn copied(binding: &Binding) -> Binding
    ensures { result.items ≡ binding.now.items }
{
    let mut copy = Binding::new();
    for object in binding.as_slice() {
        copy.push(*object);
    }
    copy
}

/// The binding, extended by one object.
pub fn with_object(objects: &Binding, last: ObjectId) -> Binding
    requires { length objects.now.items < MAX_VARIABLES }
    ensures { result.items ≡ objects.now.items ++ last ∷ [] }
{
    let mut longer = copied(objects);
    longer.push(last);
    longer
}

/// An action: a schema with an object for each of its parameters.
#[derive(Drop)]
pub struct Instance {
    /// The schema.
    pub schema: SchemaId,
    /// An object for each parameter of the schema, in order.
    pub objects: Binding,
}

/// Whether the instance belongs to the task: its schema does, and it has one object of the right types for each parameter. Two
/// parameters may have the same object.
pub fn is_instance(task: &Task, instance: &Instance) -> bool
    ensures { result ≡ meaning.is_instance (task_of task.now) (instance_of instance.now) }
{
    match task.schema(instance.schema) {
        Some(schema) => are_of(task, &schema.parameters, instance.objects.as_slice()),
        None => false,
    }
}

/// Whether there are as many objects as type unions, and each object is of one of the types at its index.
pub(crate) fn are_of(task: &Task, unions: &[TypeUnion], objects: &[ObjectId]) -> bool
    ensures { result ≡ pointwise (meaning.is_of (task_of task.now)) (map union_of unions.now) (map object_of objects.now) }
{
    if unions.len() != objects.len() {
        return false;
    }
    for (types, object) in unions.iter().zip(objects) {
        if !task.is_of(*object, types) {
            return false;
        }
    }
    true
}
