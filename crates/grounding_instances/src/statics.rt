//! What no action changes: static atoms and equalities, which have the same truth value in every reachable state as initially.
ghost use Rattle.std.specs.Prelude.{◌≡◌, map};
ghost use Rattle.std.specs.FinSet.{contains};
ghost use Rattle.std.proofs.Props.{props};
ghost use Rattle.task.specs.Task.{task_of};
ghost use Rattle.formulas.specs.FluentTable.{AreFluentsOf};
ghost use Rattle.model.specs.Task as model_task;
ghost use Rattle.model.specs.Meaning.{initial_state};
ghost use Rattle.grounding_instances.specs.Initial.{facts_of};

use crate::initial::InitialAtoms;
use faults::NoMemory;
use formulas::{
    Binding, Change, FluentPredicates, Instance, Valuation, amount, copied, holds, objects_of,
};
use std::alloc::Global;
use task::{Atom, Formula, PredicateId, Task, TypeUnion};

/// A task with its fluent predicates and its initial state, and the allocator of what is made from them.
pub(crate) struct Statics<'t> {
    pub(crate) alloc: Global,
    pub(crate) task: &'t Task,
    fluents: FluentPredicates,
    initial: InitialAtoms,
    ghost are_fluents: { AreFluentsOf (task_of task.now) fluents } by { Prim.hlevel props },
    ghost is_initial: { (a : model_task.Atom) → contains (facts_of initial) a ≡ contains (initial_state (task_of task.now)) a } by { Prim.hlevel props },
}

impl Drop for Statics<'_> {
    fn drop(self) {
        let Self {
            alloc: _,
            task: _,
            fluents: _,
            initial: _,
        } = self;
    }
}

impl<'t> Statics<'t> {
    ghost use Rattle.std.specs.Prelude.{◌&&◌, not, IfOk, IsTrue};
    ghost use Rattle.std.specs.List.{list_any};
    ghost use Rattle.task.specs.TaskParts.{atom_of, object_of, formula_of, union_of};
    ghost use Rattle.formulas.specs.State.{FitsFormula, FitsFormulas, instance_of};
    ghost use Rattle.formulas.specs.Effects.{change_of};
    ghost use Rattle.grounding_instances.specs.Parameters.{lent_formula};
    ghost use Rattle.model.specs.Meaning.{is_instance};
    ghost use Rattle.model.specs.Fluents as model_fluents;
    ghost use Rattle.model.specs.StaticallyFalse as statically_false;

    /// The statics of the task.
    pub(crate) fn new(alloc: Global, task: &'t Task) -> Result<Statics<'t>, NoMemory>
        ensures { IfOk result (λ s. s.task.now ≡ task.now) }
    {
        let fluents = FluentPredicates::new(alloc, task)?;
        let initial = InitialAtoms::new(alloc, task)?;
        Ok(Statics {
            alloc,
            task,
            fluents,
            initial,
        })
    }

    /// Whether some action adds or deletes an atom of the predicate.
    pub(crate) fn is_fluent(&self, predicate: PredicateId) -> bool
        ensures { result ≡ model_fluents.is_fluent (task_of self.now.task.now) predicate.0 }
    {
        self.fluents.contains(predicate)
    }

    /// Whether the atom is initially true.
    pub(crate) fn is_initial(&self, atom: &Atom) -> bool
        ensures { result ≡ contains (initial_state (task_of self.now.task.now)) (atom_of atom.now) }
    {
        self.initial.contains(atom)
    }

    /// Whether the atom is of a static predicate and initially true.
    pub(crate) fn is_initial_static(&self, atom: &Atom) -> bool
        ensures { result ≡ (not (model_fluents.is_fluent (task_of self.now.task.now) (atom_of atom.now).predicate) && contains (initial_state (task_of self.now.task.now)) (atom_of atom.now)) }
    {
        if !self.is_initial(atom) {
            return false;
        }
        !self.is_fluent(atom.predicate)
    }

    /// Whether the instance's precondition is not statically false, and its cost increase has a value.
    pub(crate) fn is_kept(&self, instance: &Instance) -> bool
        requires { IsTrue (is_instance (task_of self.now.task.now) (instance_of instance.now)) }
        ensures { result ≡ statically_false.is_kept (task_of self.now.task.now) (instance_of instance.now) }
    {
        if amount(self.task, instance).is_none() {
            return false;
        }
        match self.task.schema(instance.schema) {
            Some(schema) => !self.is_statically_false(&schema.precondition, &instance.objects),
            None => false,
        }
    }

    /// Whether the change counts: its condition is not statically false.
    pub(crate) fn counts(&self, change: &Change<'_>) -> bool
        requires { FitsFormula (task_of self.now.task.now) (change_of change.now).condition (change_of change.now).binding }
        ensures { result ≡ statically_false.counts (task_of self.now.task.now) (change_of change.now) }
    {
        match change.condition {
            Some(condition) => !self.is_statically_false(condition, &change.binding),
            None => true,
        }
    }

    /// Whether one of the literals is statically false.
    pub(crate) fn literal_is_statically_false(
        &self,
        literals: &[&Formula],
        binding: &Binding,
    ) -> bool
        requires { FitsFormulas (task_of self.now.task.now) (map lent_formula literals.now) (map object_of binding.now.items) }
        ensures { result ≡ list_any (λ part. statically_false.is_statically_false (task_of self.now.task.now) part (map object_of binding.now.items)) (map lent_formula literals.now) }
    {
        for literal in literals {
            if self.is_statically_false(literal, binding) {
                return true;
            }
        }
        false
    }

    /// Whether the formula is statically false under this binding: one of its sure literals is static or an equality, and
    /// initially false. The formula is well-typed for variables of some types that the objects are of. Nothing is allocated.
    #[cycle(statically_false)]
    pub(crate) fn is_statically_false(&self, formula: &Formula, binding: &Binding) -> bool
        requires { FitsFormula (task_of self.now.task.now) (formula_of formula.now) (map object_of binding.now.items) }
        ensures { result ≡ statically_false.is_statically_false (task_of self.now.task.now) (formula_of formula.now) (map object_of binding.now.items) }
    {
        match formula {
            Formula::Atom(atom) => {
                if self.is_fluent(atom.predicate) {
                    return false;
                }
                !holds(self.task, formula, binding, &self.initial)
            }
            Formula::Equal(_, _) => !holds(self.task, formula, binding, &self.initial),
            Formula::Not(part) => self.not_is_statically_false(part, binding),
            Formula::And(parts) => self.some_is_statically_false(parts, binding),
            Formula::Forall(types, part) => self.is_statically_false_for_some(types, part, binding),
            Formula::Or(_) => false,
            Formula::Imply(_, _) => false,
            Formula::Exists(_, _) => false,
        }
    }

    /// Whether the negation of the formula is statically false.
    fn not_is_statically_false(&self, part: &Formula, binding: &Binding) -> bool
        requires { FitsFormula (task_of self.now.task.now) (formula_of part.now) (map object_of binding.now.items) }
        ensures { result ≡ statically_false.is_statically_false (task_of self.now.task.now) (model_task.not (formula_of part.now)) (map object_of binding.now.items) }
    {
        match part {
            Formula::Atom(atom) => {
                if self.is_fluent(atom.predicate) {
                    return false;
                }
                holds(self.task, part, binding, &self.initial)
            }
            Formula::Equal(_, _) => holds(self.task, part, binding, &self.initial),
            _ => false,
        }
    }

    /// Whether one of the formulas is statically false.
    #[cycle(statically_false)]
    pub(crate) fn some_is_statically_false(&self, parts: &[Formula], binding: &Binding) -> bool
        requires { FitsFormulas (task_of self.now.task.now) (map formula_of parts.now) (map object_of binding.now.items) }
        ensures { result ≡ list_any (λ part. statically_false.is_statically_false (task_of self.now.task.now) part (map object_of binding.now.items)) (map formula_of parts.now) }
    {
        for part in parts {
            if self.is_statically_false(part, binding) {
                return true;
            }
        }
        false
    }

    /// Whether the formula is statically false for one of the objects of these types as the next variable.
    #[cycle(statically_false)]
    fn is_statically_false_for_some(
        &self,
        types: &TypeUnion,
        part: &Formula,
        binding: &Binding,
    ) -> bool
        requires { FitsFormula (task_of self.now.task.now) (model_task.forall (union_of types.now) (formula_of part.now)) (map object_of binding.now.items) }
        ensures { result ≡ statically_false.is_statically_false (task_of self.now.task.now) (model_task.forall (union_of types.now) (formula_of part.now)) (map object_of binding.now.items) }
    {
        let mut tried = copied(binding);
        for object in objects_of(self.task, types) {
            tried.push(object);
            if self.is_statically_false(part, &tried) {
                return true;
            }
            tried.pop();
        }
        false
    }
}
