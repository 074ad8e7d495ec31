//! The kept instances, in order.
//!
//! A schema's parameters get objects one after another, by backtracking: a partial assignment that makes the precondition
//! statically false is abandoned. Helmert 2009, "Concise finite-domain representations for PDDL planning tasks", does so with
//! static atoms; the relaxed reachability analysis described there is not used here.
ghost use Rattle.std.specs.Prelude.{◌≡◌, ◌+◌, ◌≤◌, ◌++◌, [], ◌∷◌, map, filter, length, IfOk, IfErr, OnOk, IsTrue};
ghost use Rattle.task.specs.Task.{task_of};
ghost use Rattle.task.specs.TaskParts.{object_of};
ghost use Rattle.formulas.specs.State.{instance_of};
ghost use Rattle.model.specs.Meaning.{is_instance};
ghost use Rattle.model.specs.StaticallyFalse as statically_false;
ghost use Rattle.model.proofs.EnumerationLemmas.{begun};
ghost use Rattle.grounding_instances.specs.Parameters.{choice_of, lent_formula, ranges_of};
ghost use Rattle.grounding_instances.specs.Joins.{AreJoined};
ghost use Rattle.grounding_instances.specs.Kept.{IsBegun, ReportsInstances, instances_of_number};

use crate::fault::{GroundFault, GroundLimit};
use crate::parameters::{Parameter, decided_literals, parameters_of};
use crate::statics::Statics;
use formulas::{Binding, Instance, with_object};
use task::{Formula, SchemaId};

/// The kept instances, in the order of all instances, if there are at most `max`.
///
/// # Errors
/// [`GroundLimit::Instances`] if there are more; or an allocation failed.
pub(crate) fn kept_instances(statics: &Statics<'_>, max: u32) -> Result<Vec<Instance>, GroundFault>
    ensures kept { IfOk result (λ found. map instance_of found.items ≡ statically_false.kept_instances (task_of statics.now.task.now)) }
    ensures few { IfOk result (λ found. length found.items ≤ max) }
    ensures reported { IfErr result (ReportsInstances max (statically_false.kept_instances (task_of statics.now.task.now))) }
{
    let mut found = Vec::new(statics.alloc);
    for number in 0..statics.task.schema_count() {
        let enumeration = Enumeration {
            statics,
            schema: SchemaId(number),
            max,
        };
        enumeration.add_all(&mut found)?;
    }
    Ok(found)
}

/// The beginning of an instance.
#[derive(Drop)]
struct Prefix<'a, 't> {
    /// The objects of the first parameters.
    objects: Binding,
    /// The literals that are first decided by exactly these objects.
    literals: &'a [&'a Formula],
    /// The remaining parameters.
    left: &'a [Parameter<'t>],
}

/// The enumeration of a schema's instances, for its kept ones.
#[derive(Drop)]
struct Enumeration<'a, 't> {
    statics: &'a Statics<'t>,
    schema: SchemaId,
    max: u32,
}

impl Enumeration<'_, '_> {
    /// Adds all kept instances of the schema.
    fn add_all(&self, found: &mut Vec<Instance>) -> Result<(), GroundFault>
        requires { length found.old.items ≤ self.now.max }
        ensures kept { OnOk result (map instance_of found.new.items ≡ map instance_of found.old.items
            ++ filter (statically_false.is_kept (task_of self.now.statics.now.task.now)) (instances_of_number (task_of self.now.statics.now.task.now) self.now.schema.0)) }
        ensures few { OnOk result (length found.new.items ≤ self.now.max) }
        ensures reported { IfErr result (ReportsInstances self.now.max (map instance_of found.old.items
            ++ filter (statically_false.is_kept (task_of self.now.statics.now.task.now)) (instances_of_number (task_of self.now.statics.now.task.now) self.now.schema.0))) }
    {
        let Some(schema) = self.statics.task.schema(self.schema) else {
            return Ok(());
        };
        let literals = decided_literals(self.statics.alloc, &schema.precondition, 0)?;
        let parameters = parameters_of(self.statics, schema)?;
        let literals = literals.as_slice();
        let prefix = Prefix {
            objects: Binding::new(),
            literals,
            left: parameters.as_slice(),
        };
        self.add(prefix, found)
    }

    /// Adds the kept instances that begin with these objects.
    fn add(&self, prefix: Prefix<'_, '_>, found: &mut Vec<Instance>) -> Result<(), GroundFault>
        requires begun { IsBegun (task_of self.now.statics.now.task.now) self.now.schema.0 (map object_of prefix.objects.items) (map lent_formula prefix.literals.now) (map choice_of prefix.left.now) }
        requires joined { AreJoined (task_of self.now.statics.now.task.now) (length prefix.objects.items) prefix.left.now }
        requires room { length prefix.objects.items + length prefix.left.now ≤ 16 }
        requires few { length found.old.items ≤ self.now.max }
        ensures kept { OnOk result (map instance_of found.new.items ≡ map instance_of found.old.items
            ++ filter (statically_false.is_kept (task_of self.now.statics.now.task.now)) (begun self.now.schema.0 (map object_of prefix.entry.objects.items) (ranges_of (map choice_of prefix.entry.left.now)))) }
        ensures few { OnOk result (length found.new.items ≤ self.now.max) }
        ensures reported { IfErr result (ReportsInstances self.now.max (map instance_of found.old.items
            ++ filter (statically_false.is_kept (task_of self.now.statics.now.task.now)) (begun self.now.schema.0 (map object_of prefix.entry.objects.items) (ranges_of (map choice_of prefix.entry.left.now))))) }
    {
        let Prefix {
            objects,
            literals,
            left,
        } = prefix;
        if self.statics.literal_is_statically_false(literals, &objects) {
            return Ok(());
        }
        let Some((parameter, rest)) = left.split_first() else {
            let instance = Instance {
                schema: self.schema,
                objects,
            };
            return self.add_one(instance, found);
        };
        let candidates = parameter.candidates(self.statics.alloc, self.statics.task, &objects)?;
        for object in &candidates {
            let longer = Prefix {
                objects: with_object(&objects, *object),
                literals: parameter.literals.as_slice(),
                left: rest,
            };
            self.add(longer, found)?;
        }
        Ok(())
    }

    /// Adds the instance if it is kept.
    fn add_one(&self, instance: Instance, found: &mut Vec<Instance>) -> Result<(), GroundFault>
        requires instance { IsTrue (is_instance (task_of self.now.statics.now.task.now) (instance_of instance)) }
        requires few { length found.old.items ≤ self.now.max }
        ensures kept { OnOk result (map instance_of found.new.items ≡ map instance_of found.old.items
            ++ filter (statically_false.is_kept (task_of self.now.statics.now.task.now)) (instance_of instance ∷ [])) }
        ensures few { OnOk result (length found.new.items ≤ self.now.max) }
        ensures reported { IfErr result (ReportsInstances self.now.max (map instance_of found.old.items
            ++ filter (statically_false.is_kept (task_of self.now.statics.now.task.now)) (instance_of instance ∷ []))) }
    {
        if !self.statics.is_kept(&instance) {
            return Ok(());
        }
        if found.len() >= self.max as usize {
            return Err(GroundFault::At(GroundLimit::Instances));
        }
        found.push(instance)?;
        Ok(())
    }
}
