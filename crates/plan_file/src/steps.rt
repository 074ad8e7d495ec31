//! The meaning of the steps of a plan text.
ghost use Rattle.std.specs.Prelude.{◌≡◌, ◌<◌, ◌≤◌, ◌++◌, ◌∷◌, [], ℕ, List, Some, IsTrue, IfOk, IfErr, IfSome, OnOk, length, map, position, slice_get};
ghost use Rattle.std.specs.Cmp.Lexicographic.{pointwise};
ghost use Rattle.std.specs.Option.{option_map};
ghost use Rattle.tokens.specs.Reported.{reported_by};
ghost use Rattle.task.specs.Task.{task_of};
ghost use Rattle.task.specs.TaskParts.{object_of, schema_id_of, union_of};
ghost use Rattle.formulas.specs.State as view;
ghost use Rattle.plan_file.specs.PlanFile.{step_of, name_of, IsMeaning, IsFirstFault, IsWrongObject, IsNoObject};
ghost use Rattle.model.specs.Task as model;
ghost use Rattle.model.specs.Meaning.{is_of};
ghost use Rattle.model.specs.Typing.{folded, is_same};
ghost use Rattle.model.specs.PlanText as text;
ghost use Rattle.model.specs.PlanText.{Means, AllMean, IsNumberOf, AreNumbersOf, IsStepFault, schema_names, object_names};

use crate::word::{fold_into, refused};
use faults::{Code, Fault, NoMemory, Refused, TextRefusal};
use formulas::{Binding, Instance};
use std::alloc::Global;
use task::{ObjectId, SchemaId, Task, TypeUnion};
use tokens::Lexeme;

/// The meaning of the steps read so far: their instances, in order, or the refusal of the first faulty step.
#[derive(Drop)]
pub(super) struct Meaning {
    /// The instances of the steps before the first faulty one.
    instances: Vec<Instance>,
    /// The fault of the first faulty step.
    refusal: Option<TextRefusal>,
    /// The buffer in which names are folded; it grows to the longest name.
    buffer: Vec<u8>,
}

impl Meaning {
    /// The meaning of no steps.
    pub(super) fn new(alloc: Global) -> Meaning
        ensures { (task : model.Task) → IsMeaning task [] result }
    {
        Meaning {
            instances: Vec::new(alloc),
            refusal: None,
            buffer: Vec::new(alloc),
        }
    }

    /// Adds one step, with this action and these objects. After the first faulty step, none is examined.
    pub(super) fn take(
        &mut self,
        task: &Task,
        action: Lexeme<'_>,
        objects: &[Lexeme<'_>],
    ) -> Result<(), NoMemory>
        ensures { OnOk result ((steps : List text.Step) → IsMeaning (task_of task.now) steps self.old
            → IsMeaning (task_of task.now) (steps ++ step_of action.entry objects.now ∷ []) self.new) }
    {
        if self.refusal.is_some() {
            return Ok(());
        }
        match instance_of(task, action, objects, &mut self.buffer) {
            Ok(instance) => self.instances.push(instance)?,
            Err(Refused::At(refusal)) => self.refusal = Some(refusal),
            Err(Refused::NoMemory) => return Err(NoMemory),
        }
        Ok(())
    }

    /// The instances of all steps, or the refusal of the first faulty one.
    pub(super) fn into_instances(self) -> Result<Vec<Instance>, Fault>
        ensures mean { IfOk result (λ found. (task : model.Task) (steps : List text.Step) → IsMeaning task steps self
            → AllMean task steps (map view.instance_of found.items)) }
        ensures refused { IfErr result (λ fault. (task : model.Task) (steps : List text.Step) → IsMeaning task steps self
            → IfSome (reported_by fault) (IsFirstFault task steps)) }
    {
        let Meaning {
            instances,
            refusal,
            ..
        } = self;
        match refusal {
            Some(refusal) => Err(Refused::At(refusal)),
            None => Ok(instances),
        }
    }
}

/// The instance of the step with this action and these objects. Names are folded in the given buffer.
fn instance_of(
    task: &Task,
    action: Lexeme<'_>,
    names: &[Lexeme<'_>],
    buffer: &mut Vec<u8>,
) -> Result<Instance, Fault>
    ensures means { IfOk result (λ i. Means (task_of task.now) (step_of action.entry names.now) (view.instance_of i)) }
    ensures refused { IfErr result (λ fault. IfSome (reported_by fault) (IsStepFault (task_of task.now) (step_of action.entry names.now))) }
{
    let Some(schema) = schema_named(task, action, buffer)? else {
        return Err(refused(action, Code::UnknownAction));
    };
    let parameters = parameters_of(task, schema);
    if names.len() != parameters.len() {
        return Err(refused(action, Code::StepArity));
    }
    let objects = objects_of(task, parameters, names, buffer)?;
    Ok(Instance { schema, objects })
}

/// The types of each parameter of a schema of the task.
fn parameters_of(task: &Task, schema: SchemaId) -> &[TypeUnion]
    requires { schema.0 < length (task_of task.now).schemas }
    ensures few { length result.now ≤ 16 }
    ensures types { option_map (λ s. s.parameters) (slice_get (task_of task.now).schemas schema.0) ≡ Some (map union_of result.now) }
{
    task.schema(schema).unwrap().parameters.as_slice()
}

/// The objects with these names, in order, each of one of the types at its index.
fn objects_of(
    task: &Task,
    parameters: &[TypeUnion],
    names: &[Lexeme<'_>],
    buffer: &mut Vec<u8>,
) -> Result<Binding, Fault>
    requires few { length parameters.now ≤ 16 }
    requires counts { length names.now ≡ length parameters.now }
    ensures objects { IfOk result (λ found. AreNumbersOf (object_names (task_of task.now)) (map name_of names.now) (map object_of found.items)) }
    ensures fit { IfOk result (λ found. IsTrue (pointwise (is_of (task_of task.now)) (map union_of parameters.now) (map object_of found.items))) }
    ensures refused { IfErr result (λ fault. IfSome (reported_by fault)
        (IsWrongObject (task_of task.now) (map union_of parameters.now) (map name_of names.now))) }
{
    let mut objects = Binding::new();
    for (types, name) in parameters.iter().zip(names) {
        objects.push(object_of(task, types, *name, buffer)?);
    }
    Ok(objects)
}

/// The object with this name, which must be of one of these types.
fn object_of(
    task: &Task,
    types: &TypeUnion,
    name: Lexeme<'_>,
    buffer: &mut Vec<u8>,
) -> Result<ObjectId, Fault>
    ensures number { IfOk result (λ object. IsNumberOf (object_names (task_of task.now)) (name_of name.entry) object.0) }
    ensures fits { IfOk result (λ object. IsTrue (is_of (task_of task.now) (union_of types.now) object.0)) }
    ensures refused { IfErr result (λ fault. IfSome (reported_by fault) (IsNoObject (task_of task.now) (union_of types.now) (name_of name.entry))) }
{
    match object_named(task, name, buffer)? {
        Some(object) if task.is_of(object, types) => Ok(object),
        _ => Err(refused(name, Code::StepType)),
    }
}

fn schema_named(
    task: &Task,
    name: Lexeme<'_>,
    buffer: &mut Vec<u8>,
) -> Result<Option<SchemaId>, NoMemory>
    ensures { IfOk result (λ found.
        option_map schema_id_of found ≡ position (is_same (folded (name_of name.entry))) (schema_names (task_of task.now))) }
{
    fold_into(name, buffer)?;
    Ok(task.schema_named(buffer.as_slice()))
}

fn object_named(
    task: &Task,
    name: Lexeme<'_>,
    buffer: &mut Vec<u8>,
) -> Result<Option<ObjectId>, NoMemory>
    ensures { IfOk result (λ found.
        option_map object_of found ≡ position (is_same (folded (name_of name.entry))) (object_names (task_of task.now))) }
{
    fold_into(name, buffer)?;
    Ok(task.object_named(buffer.as_slice()))
}
