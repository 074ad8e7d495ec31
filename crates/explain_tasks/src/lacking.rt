//! Instances whose cost has no value.
ghost use Rattle.std.specs.Prelude.{◌≡◌, ◌+◌, ◌≤◌, [], ◌∷◌, ◌++◌, filter, length, map, nat_lt, not, IfOk, IfSome, OnOk};
ghost use Rattle.std.specs.List.{list_all, list_any};
ghost use Rattle.std.specs.Option.{option_map};
ghost use Rattle.task.specs.Task.{task_of};
ghost use Rattle.task.specs.TaskParts.{increase_of, object_of, shape_of, shape_of_schema, term_of, union_of};
ghost use Rattle.formulas.specs.State.{instance_of};
ghost use Rattle.grounding_instances.specs.Numbering.{task_in};
ghost use Rattle.model.specs.Instances.{product};
ghost use Rattle.model.specs.Meaning as meaning;
ghost use Rattle.model.proofs.EnumerationLemmas.{begun};
ghost use Rattle.explain_tasks.specs.Costs as defined;

use faults::NoMemory;
use formulas::{Binding, Instance, amount, copied, is_instance, named_by, objects_of, with_object};
use grounding_instances::Numbering;
use std::alloc::Global;
use task::{Increase, MAX_VARIABLES, Schema, SchemaId, Task, Term, TypeUnion};

/// A search for instances, of the task with this numbering, that lack a value.
#[derive(Drop)]
pub(crate) struct LackingSearch<'a, 't> {
    pub(crate) numbering: &'a Numbering<'t>,
    pub(crate) limit: usize,
    /// Actions with more instances than this are not checked.
    pub(crate) most: u32,
}

impl LackingSearch<'_, '_> {
    /// The first such instances, one for each value that an action lacks.
    pub(crate) fn all(&self, alloc: Global) -> Result<Vec<Instance>, NoMemory>
        ensures { IfOk result (λ found. map instance_of found.items
            ≡ defined.lacking_among (task_in self.now.numbering.now) self.now.limit [] (defined.all_looked_at (task_in self.now.numbering.now) self.now.most)) }
    {
        let mut found = Vec::new(alloc);
        for number in 0..self.numbering.task().schema_count() {
            self.add_of_schema(alloc, number, &mut found)?;
        }
        Ok(found)
    }

    /// Adds those of the action with this number.
    fn add_of_schema(
        &self,
        alloc: Global,
        number: usize,
        found: &mut Vec<Instance>,
    ) -> Result<(), NoMemory>
        ensures { OnOk result (map instance_of found.new.items
            ≡ defined.lacking_among (task_in self.now.numbering.now) self.now.limit (map instance_of found.old.items) (defined.looked_at (task_in self.now.numbering.now) self.now.most number)) }
    {
        let task = self.numbering.task();
        if !are_few(alloc, task, number, self.most)? {
            return Ok(());
        }
        match valued(task, number) {
            Some(schema) => {
                let start = Instance {
                    schema: SchemaId(number),
                    objects: Binding::new(),
                };
                self.add(&start, schema.parameters.as_slice(), found)
            }
            None => Ok(()),
        }
    }

    /// Adds those that begin with these objects and have one more for each of the remaining types.
    fn add(
        &self,
        start: &Instance,
        left: &[TypeUnion],
        found: &mut Vec<Instance>,
    ) -> Result<(), NoMemory>
        requires { length start.now.objects.items + length left.now ≤ 16 }
        ensures { OnOk result (map instance_of found.new.items
            ≡ defined.lacking_among (task_in self.now.numbering.now) self.now.limit (map instance_of found.old.items)
            (begun start.now.schema.0 (map object_of start.now.objects.items) (map (meaning.objects_of (task_in self.now.numbering.now)) (map union_of left.now)))) }
    {
        let Some((types, rest)) = left.split_first() else {
            return self.add_one(start, found);
        };
        for object in objects_of(self.numbering.task(), types) {
            let longer = Instance {
                schema: start.schema,
                objects: with_object(&start.objects, object),
            };
            self.add(&longer, rest, found)?;
        }
        Ok(())
    }

    /// Adds the instance, if it lacks a value that no instance found so far lacks, and there is room.
    fn add_one(&self, instance: &Instance, found: &mut Vec<Instance>) -> Result<(), NoMemory>
        ensures { OnOk result (map instance_of found.new.items
            ≡ defined.with_lacking (task_in self.now.numbering.now) self.now.limit (map instance_of found.old.items) (instance_of instance.now)) }
    {
        if found.len() >= self.limit {
            return Ok(());
        }
        if !self.lacks_value(instance) {
            return Ok(());
        }
        if some_lacks_the_same(self.numbering.task(), instance, found.as_slice()) {
            return Ok(());
        }
        found.push(Instance {
            schema: instance.schema,
            objects: copied(&instance.objects),
        })?;
        Ok(())
    }

    /// Whether the instance belongs to the task and is inapplicable only because it lacks a value.
    fn lacks_value(&self, instance: &Instance) -> bool
        ensures { result ≡ defined.lacks_value (task_in self.now.numbering.now) (instance_of instance.now) }
    {
        let task = self.numbering.task();
        if !is_instance(task, instance) {
            return false;
        }
        let Some(schema) = task.schema(instance.schema) else {
            return false;
        };
        if amount(task, instance).is_some() {
            return false;
        }
        !self
            .numbering
            .is_statically_false(&schema.precondition, &instance.objects)
    }
}

/// Whether one of the instances lacks the same value as this one.
fn some_lacks_the_same(task: &Task, instance: &Instance, found: &[Instance]) -> bool
    ensures { result ≡ list_any (defined.lack_the_same (task_of task.now) (instance_of instance.now)) (map instance_of found.now) }
{
    for other in found {
        if lack_the_same(task, instance, other) {
            return true;
        }
    }
    false
}

/// Whether both are of the same action, and its cost function has the same objects in both.
fn lack_the_same(task: &Task, one: &Instance, other: &Instance) -> bool
    ensures { result ≡ defined.lack_the_same (task_of task.now) (instance_of one.now) (instance_of other.now) }
{
    if one.schema.0 != other.schema.0 {
        return false;
    }
    match task.schema(one.schema) {
        Some(schema) => is_same_value(&schema.increase, &one.objects, &other.objects),
        None => false,
    }
}

/// Whether the increase is by the same function of the same objects under both bindings.
fn is_same_value(increase: &Increase, one: &Binding, other: &Binding) -> bool
    ensures { result ≡ defined.is_same_value (increase_of increase.now) (map object_of one.now.items) (map object_of other.now.items) }
{
    match increase {
        Increase::Number(_) => true,
        Increase::Function(function) => are_same_terms(&function.terms, one, other),
    }
}

/// Whether each term denotes the same object under both bindings.
fn are_same_terms(terms: &[Term], one: &Binding, other: &Binding) -> bool
    ensures { result ≡ list_all (defined.is_same_term (map object_of one.now.items) (map object_of other.now.items)) (map term_of terms.now) }
{
    for term in terms {
        if !is_same_term(term, one, other) {
            return false;
        }
    }
    true
}

/// Whether the term denotes the same object under both bindings.
fn is_same_term(term: &Term, one: &Binding, other: &Binding) -> bool
    ensures { result ≡ defined.is_same_term (map object_of one.now.items) (map object_of other.now.items) (term_of term.now) }
{
    named_by(term, one).0 == named_by(term, other).0
}

/// The action with this number, if it increases the total cost by a function.
fn valued(task: &Task, number: usize) -> Option<&Schema>
    ensures shape { option_map (λ s. shape_of s.now) result ≡ option_map shape_of_schema (defined.valued_schema (task_of task.now) number) }
    ensures few { IfSome result (λ s. length s.now.parameters.items ≤ MAX_VARIABLES) }
{
    let schema = task.schema(SchemaId(number))?;
    match &schema.increase {
        Increase::Function(_) => Some(schema),
        Increase::Number(_) => None,
    }
}

/// Whether the action with this number has at most `most` instances to be checked.
pub(crate) fn are_few(
    alloc: Global,
    task: &Task,
    number: usize,
    most: u32,
) -> Result<bool, NoMemory>
    ensures { IfOk result (λ few. few ≡ defined.are_few (task_of task.now) most number) }
{
    match valued(task, number) {
        Some(schema) => is_product_within(alloc, task, &schema.parameters, u64::from(most)),
        None => Ok(true),
    }
}

/// Whether there are at most `most` ways to choose an object for each of these types.
fn is_product_within(
    alloc: Global,
    task: &Task,
    unions: &[TypeUnion],
    most: u64,
) -> Result<bool, NoMemory>
    ensures { IfOk result (λ within. within ≡ not (nat_lt most (length (product (map (meaning.objects_of (task_of task.now)) (map union_of unions.now)))))) }
{
    let Some((types, rest)) = unions.split_first() else {
        return Ok(most >= 1);
    };
    let objects = task.objects_of(alloc, types)?.len() as u64;
    if objects == 0 {
        return Ok(true);
    }
    is_product_within(alloc, task, rest, most / objects)
}

/// The actions that are not checked because they have too many instances.
pub(crate) fn passed_over(alloc: Global, task: &Task, most: u32) -> Result<Vec<usize>, NoMemory>
    ensures { IfOk result (λ found. found.items ≡ defined.passed_over (task_of task.now) most) }
{
    let checked = Checked { task, most };
    let mut found = Vec::new(alloc);
    for number in 0..task.schema_count() {
        checked.add_if_many(alloc, number, &mut found)?;
    }
    Ok(found)
}

/// A task whose actions with more instances than this are not checked.
#[derive(Clone, Copy)]
struct Checked<'t> {
    task: &'t Task,
    most: u32,
}

impl Checked<'_> {
    /// Adds the number of the action if it has too many instances.
    fn add_if_many(
        &self,
        alloc: Global,
        number: usize,
        found: &mut Vec<usize>,
    ) -> Result<(), NoMemory>
        ensures { OnOk result (found.new.items ≡ found.old.items ++ filter (λ n. not (defined.are_few (task_of self.now.task.now) self.now.most n)) (number ∷ [])) }
    {
        let few = are_few(alloc, self.task, number, self.most)?;
        if few {
            return Ok(());
        }
        found.push(number)?;
        Ok(())
    }
}
