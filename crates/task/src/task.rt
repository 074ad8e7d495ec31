//! The task, with access to its parts.
ghost use Rattle.std.specs.Prelude.{IsTrue, ◌≤◌, length};
ghost use Rattle.task.specs.TaskParts.{task_of_parts};
ghost use Rattle.model.specs.WellTyped.{is_task};

use crate::atoms::{Atom, MAX_VARIABLES, ObjectId, PredicateId, SchemaId, TypeId};
use crate::parts::TaskParts;
use crate::schemas::{Formula, Predicate, Schema, TypeUnion};
use crate::types::{is_below, supertypes};
use faults::NoMemory;
use indexmap::IndexMap;
use std::alloc::Global;

/// A well-typed planning task with numbers for names.
pub struct Task {
    parts: TaskParts,
    ghost few_types: { length parts.types.entries ≤ 4096 },
    ghost few_objects: { length parts.objects.entries ≤ 65535 },
    ghost well_typed: { IsTrue (is_task (task_of_parts parts)) },
}

impl Drop for Task {
    fn drop(self) {
        let Self { parts: _ } = self;
    }
}

impl Task {
    ghost use Rattle.std.specs.Prelude.{◌≡◌, length, map, position, slice_get, IfOk, IfSome};
    ghost use Rattle.std.specs.Option.{option_copied, option_map};
    ghost use Rattle.task.specs.Names.{names_in};
    ghost use Rattle.task.specs.Task.{task_of, variable_names_of};
    ghost use Rattle.task.specs.TaskParts.{atom_of, formula_of, object_of, predicate_id_of, schema_id_of, shape_of, shape_of_schema, type_of, union_of, value_of, variable_names_of_parts};
    ghost use Rattle.task.specs.VariableNames.{names_of_action};
    ghost use Rattle.model.specs.Meaning.{supertypes_of, is_of, is_below, objects_of, value_in};
    ghost use Rattle.model.specs.Typing.{is_same};

    /// The task of these parts.
    pub fn from_parts(parts: TaskParts) -> Task
        requires few_types { length parts.types.entries ≤ 4096 }
        requires few_objects { length parts.objects.entries ≤ 65535 }
        requires well_typed { IsTrue (is_task (task_of_parts parts)) }
        ensures task { task_of result ≡ task_of_parts parts }
        ensures names { variable_names_of result ≡ variable_names_of_parts parts }
    {
        Task { parts }
    }

    /// The atoms of the initial state, as in the problem: an atom may be repeated.
    pub fn init(&self) -> &[Atom]
        ensures { map atom_of result.now ≡ (task_of self.now).init }
    {
        self.parts.init.as_slice()
    }

    /// The value that the problem gives to a function of objects; `None` if it gives none. The function's number takes the place
    /// of the predicate's. Nothing is allocated.
    pub fn value(&self, function: &Atom) -> Option<u32>
        ensures { result ≡ value_in (task_of self.now).values (atom_of function.now) }
    {
        self.parts.values.get(function).copied()
    }

    /// The values that the problem gives to functions of objects, in its order. The function's number takes the place of the
    /// predicate's.
    pub fn values(&self) -> &IndexMap<Atom, u32>
        ensures { map value_of result.now.entries ≡ (task_of self.now).values }
    {
        &self.parts.values
    }

    /// The goal.
    pub fn goal(&self) -> &Formula
        ensures { formula_of result.now ≡ (task_of self.now).goal }
    {
        &self.parts.goal
    }

    /// The names of the goal's quantified variables as in the problem, in textual order.
    pub fn goal_names(&self) -> &[Vec<u8>]
        ensures { names_in result.now ≡ (variable_names_of self.now).goal }
    {
        self.parts.goal_names.as_slice()
    }

    /// Whether the total cost is minimized; otherwise the number of steps is.
    pub fn has_metric(&self) -> bool
        ensures { result ≡ (task_of self.now).has_metric }
    {
        self.parts.has_metric
    }

    /// The number of types, including `object`.
    pub fn type_count(&self) -> usize
        ensures { result ≡ length (task_of self.now).types }
    {
        self.parts.types.len()
    }

    /// The type with this name, given in lower case, for users of the library.
    pub fn type_named(&self, folded: &[u8]) -> Option<TypeId>
        ensures { option_map type_of result ≡ position (is_same folded.now) (map (λ t. t.name) (task_of self.now).types) }
    {
        let number = self.parts.types.get_index_of(folded)?;
        Some(TypeId(number as u16))
    }

    /// The type's name, in lower case; `None` if the number is out of range.
    pub fn type_name(&self, id: TypeId) -> Option<&[u8]>
        ensures { option_copied result ≡ option_map (λ t. t.name) (slice_get (task_of self.now).types id.0) }
    {
        let (name, _) = self.parts.types.get_index(id.0 as usize)?;
        Some(name.as_slice())
    }

    /// The declared type of the object; `None` if the number is out of range.
    pub fn declared_type(&self, id: ObjectId) -> Option<TypeId>
        ensures { option_map type_of result ≡ option_map (λ o. o.type) (slice_get (task_of self.now).objects id.0) }
    {
        let (_, declared) = self.parts.objects.get_index(id.0 as usize)?;
        Some(*declared)
    }

    /// All supertypes of a type: itself and its ancestors, up to `object`. Empty if the number is out of range.
    pub fn supertypes(&self, id: TypeId) -> &[TypeId]
        ensures { map type_of result.now ≡ supertypes_of (task_of self.now) id.0 }
    {
        supertypes(&self.parts.types, id)
    }

    /// Whether the object is of one of these types; false if the number is out of range.
    pub fn is_of(&self, object: ObjectId, types: &TypeUnion) -> bool
        ensures { result ≡ is_of (task_of self.now) (union_of types.now) object.0 }
    {
        match self.parts.objects.get_index(object.0 as usize) {
            Some((_, declared)) => self.is_below(*declared, types),
            None => false,
        }
    }

    /// Whether the type is one of these or a subtype of one of them.
    pub(crate) fn is_below(&self, id: TypeId, types: &TypeUnion) -> bool
        ensures { result ≡ is_below (task_of self.now) (union_of types.now) id.0 }
    {
        is_below(&self.parts.types, types, id)
    }

    /// The objects of these types, in order and without repetition.
    pub fn objects_of(&self, alloc: Global, types: &TypeUnion) -> Result<Vec<ObjectId>, NoMemory>
        ensures { IfOk result (λ objects. map object_of objects.items ≡ objects_of (task_of self.now) (union_of types.now)) }
    {
        let mut objects = Vec::new(alloc);
        for number in 0..self.parts.objects.len() {
            let object = ObjectId(number as u32);
            if self.is_of(object, types) {
                objects.push(object)?;
            }
        }
        Ok(objects)
    }

    /// The number of objects.
    pub fn object_count(&self) -> usize
        ensures { result ≡ length (task_of self.now).objects }
    {
        self.parts.objects.len()
    }

    /// The number of predicates.
    pub fn predicate_count(&self) -> usize
        ensures { result ≡ length (task_of self.now).predicates }
    {
        self.parts.predicates.len()
    }

    /// The number of functions by which actions increase the total cost.
    pub fn function_count(&self) -> usize
        ensures { result ≡ length (task_of self.now).functions }
    {
        self.parts.functions.len()
    }

    /// The number of action schemas.
    pub fn schema_count(&self) -> usize
        ensures { result ≡ length (task_of self.now).schemas }
    {
        self.parts.schemas.len()
    }

    /// The schema with this number; `None` if it is out of range.
    pub fn schema(&self, id: SchemaId) -> Option<&Schema>
        ensures shape { option_map (λ s. shape_of s.now) result ≡ option_map shape_of_schema (slice_get (task_of self.now).schemas id.0) }
        ensures few { IfSome result (λ s. length s.now.parameters.items ≤ MAX_VARIABLES) }
    {
        let (_, schema) = self.parts.schemas.get_index(id.0)?;
        Some(schema)
    }

    /// The names of the quantified variables in the precondition of the schema with this number, as in the domain, in textual
    /// order; empty if the number is out of range.
    pub fn precondition_names(&self, id: SchemaId) -> &[Vec<u8>]
        ensures { names_in result.now ≡ names_of_action (variable_names_of self.now) id.0 }
    {
        match self.parts.schemas.get_index(id.0) {
            Some((_, schema)) => schema.precondition_names.as_slice(),
            None => &[],
        }
    }

    /// The predicate with this number; `None` if it is out of range.
    pub fn predicate(&self, id: PredicateId) -> Option<&Predicate>
        ensures { option_map (λ p. map union_of p.now.arguments.items) result ≡ option_map (λ p. p.arguments) (slice_get (task_of self.now).predicates id.0) }
    {
        self.parts.predicates.get_index(id.0).map(|entry| entry.1)
    }

    /// The object with this name, given in lower case.
    pub fn object_named(&self, folded: &[u8]) -> Option<ObjectId>
        ensures { option_map object_of result ≡ position (is_same folded.now) (map (λ o. o.name) (task_of self.now).objects) }
    {
        let number = self.parts.objects.get_index_of(folded)?;
        Some(ObjectId(number as u32))
    }

    /// The schema with this name, given in lower case.
    pub fn schema_named(&self, folded: &[u8]) -> Option<SchemaId>
        ensures { option_map schema_id_of result ≡ position (is_same folded.now) (map (λ s. s.name) (task_of self.now).schemas) }
    {
        let number = self.parts.schemas.get_index_of(folded)?;
        Some(SchemaId(number))
    }

    /// The predicate with this name, given in lower case.
    pub fn predicate_named(&self, folded: &[u8]) -> Option<PredicateId>
        ensures { option_map predicate_id_of result ≡ position (is_same folded.now) (map (λ p. p.name) (task_of self.now).predicates) }
    {
        let number = self.parts.predicates.get_index_of(folded)?;
        Some(PredicateId(number))
    }

    /// The function with this name, given in lower case, for users of the library. Its number takes the place of a predicate's.
    pub fn function_named(&self, folded: &[u8]) -> Option<PredicateId>
        ensures { option_map predicate_id_of result ≡ position (is_same folded.now) (map (λ p. p.name) (task_of self.now).functions) }
    {
        let number = self.parts.functions.get_index_of(folded)?;
        Some(PredicateId(number))
    }

    /// The function's name, in lower case; `None` if the number is out of range.
    pub fn function_name(&self, id: PredicateId) -> Option<&[u8]>
        ensures { option_copied result ≡ option_map (λ p. p.name) (slice_get (task_of self.now).functions id.0) }
    {
        let (name, _) = self.parts.functions.get_index(id.0)?;
        Some(name.as_slice())
    }

    /// The object's name, in lower case; `None` if the number is out of range.
    pub fn object_name(&self, id: ObjectId) -> Option<&[u8]>
        ensures { option_copied result ≡ option_map (λ o. o.name) (slice_get (task_of self.now).objects id.0) }
    {
        let (name, _) = self.parts.objects.get_index(id.0 as usize)?;
        Some(name.as_slice())
    }

    /// The predicate's name, in lower case; `None` if the number is out of range.
    pub fn predicate_name(&self, id: PredicateId) -> Option<&[u8]>
        ensures { option_copied result ≡ option_map (λ p. p.name) (slice_get (task_of self.now).predicates id.0) }
    {
        let (name, _) = self.parts.predicates.get_index(id.0)?;
        Some(name.as_slice())
    }

    /// The schema's name, in lower case; `None` if the number is out of range.
    pub fn schema_name(&self, id: SchemaId) -> Option<&[u8]>
        ensures { option_copied result ≡ option_map (λ s. s.name) (slice_get (task_of self.now).schemas id.0) }
    {
        let (name, _) = self.parts.schemas.get_index(id.0)?;
        Some(name.as_slice())
    }
}
