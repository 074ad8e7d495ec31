//! Why a formula does not hold: its minimal false parts, which make it false.
ghost use Rattle.std.specs.Prelude.{map, IfOk, OnOk};
ghost use Rattle.task.specs.Task.{task_of};
ghost use Rattle.task.specs.TaskParts.{object_of, formula_of, union_of};
ghost use Rattle.formulas.specs.State.{state_of, FitsFormulas};
ghost use Rattle.explain_plans.specs.FalseParts.{FalsePartsReport, false_parts_of_all, itself_if_false};
ghost use Rattle.task.specs.Names.{names_in};
ghost use Rattle.explain_plans.specs.Parts.{AreFound, FindsIn, FitsIn, false_parts_in};
ghost use Rattle.explain_plans.specs.NamesLeft.{formulas};
ghost use Rattle.model.specs.Task.{forall};

use crate::variable_names::{names_after, without_first};
use faults::NoMemory;
use formulas::{Binding, State, copied, holds, objects_of, with_object};
use std::alloc::Global;
use task::{Formula, Task, TypeUnion};

/// The maximum number of false parts of a formula that are reported.
pub const MOST_REPORTED: usize = 20;

/// A part of a formula, with a binding of the variables in its scope.
#[derive(Drop)]
pub struct Part<'t> {
    /// The part.
    pub formula: &'t Formula,
    /// The objects of the variables in its scope, in order.
    pub objects: Binding,
    /// The names of the variables of quantifiers, in the order of the text, those in the part first.
    pub names: &'t [Vec<u8>],
}

/// The first few of a list of false parts.
#[derive(Drop)]
pub(crate) struct Found<'t> {
    /// The parts, from the left.
    pub parts: Vec<Part<'t>>,
    /// Whether there are more.
    pub more: bool,
}

/// Where a formula is judged: a state, and the variables in the formula's scope.
#[derive(Clone, Copy)]
pub(crate) struct Context<'c, 't> {
    /// The task.
    pub task: &'c Task,
    /// The state.
    pub state: &'c State,
    /// The objects of the variables in the formula's scope, in order.
    pub objects: &'c Binding,
    /// The names of the variables of quantifiers, in the order of the text, those in the formula first.
    pub names: &'t [Vec<u8>],
}

impl<'t> Context<'_, 't> {
    /// The first of the minimal false parts of the formula, which is well-typed for variables of some types that the objects are
    /// of.
    pub(crate) fn first_false_parts(
        self,
        alloc: Global,
        formula: &'t Formula,
    ) -> Result<Found<'t>, NoMemory>
        requires { FitsIn self (formula_of formula.now) }
        ensures { IfOk result (AreFound (task_of self.entry.task.now) (state_of self.entry.state.now) (false_parts_in self.entry (formula_of formula.now))) }
    {
        let mut found = Found {
            parts: Vec::new(alloc),
            more: false,
        };
        self.find(formula, &mut found)?;
        Ok(found)
    }

    /// Appends the false parts of the formula to those found before. The search ends once there are more than are reported.
    #[cycle(find)]
    fn find(self, formula: &'t Formula, found: &mut Found<'t>) -> Result<(), NoMemory>
        requires { FitsIn self (formula_of formula.now) }
        ensures { OnOk result (FindsIn self.entry (false_parts_in self.entry (formula_of formula.now)) found.old found.new) }
    {
        if found.more {
            return Ok(());
        }
        match formula {
            Formula::And(parts) => self.find_in_each(parts, found),
            Formula::Imply(premise, conclusion) => {
                if holds(self.task, premise, self.objects, self.state) {
                    let names = names_after(premise, self.names);
                    Context { names, ..self }.find(conclusion, found)
                } else {
                    Ok(())
                }
            }
            Formula::Forall(types, part) => self.find_for_each(types, part, found),
            _ => found.add_if_false(formula, self),
        }
    }

    /// The same for each of the formulas.
    #[cycle(find)]
    fn find_in_each(self, parts: &'t [Formula], found: &mut Found<'t>) -> Result<(), NoMemory>
        requires { FitsFormulas (task_of self.task.now) (map formula_of parts.now) (map object_of self.objects.now.items) }
        ensures { OnOk result (FindsIn self.entry (false_parts_of_all (task_of self.entry.task.now) (formulas (map formula_of parts.now)) (map object_of self.entry.objects.now.items) (names_in self.entry.names.now) (state_of self.entry.state.now)) found.old found.new) }
    {
        let mut names = self.names;
        for part in parts {
            Context { names, ..self }.find(part, found)?;
            names = names_after(part, names);
        }
        Ok(())
    }

    /// The same for each object of these types as the next variable.
    #[cycle(find)]
    fn find_for_each(
        self,
        types: &TypeUnion,
        part: &'t Formula,
        found: &mut Found<'t>,
    ) -> Result<(), NoMemory>
        requires { FitsIn self (forall (union_of types.now) (formula_of part.now)) }
        ensures { OnOk result (FindsIn self.entry (false_parts_in self.entry (forall (union_of types.now) (formula_of part.now))) found.old found.new) }
    {
        let names = without_first(self.names);
        for object in objects_of(self.task, types) {
            let objects = with_object(self.objects, object);
            let inner = Context {
                task: self.task,
                state: self.state,
                objects: &objects,
                names,
            };
            inner.find(part, found)?;
        }
        Ok(())
    }
}

impl<'t> Found<'t> {
    /// Adds the formula itself, if it is false and there is room.
    fn add_if_false(
        &mut self,
        formula: &'t Formula,
        context: Context<'_, 't>,
    ) -> Result<(), NoMemory>
        requires { FitsIn context (formula_of formula.now) }
        ensures { OnOk result (FindsIn context.entry (itself_if_false (task_of context.entry.task.now) (formula_of formula.now) (map object_of context.entry.objects.now.items) (names_in context.entry.names.now) (state_of context.entry.state.now)) self.old self.new) }
    {
        let Context {
            task,
            state,
            objects,
            names,
        } = context;
        if holds(task, formula, objects, state) {
            return Ok(());
        }
        if self.parts.len() == MOST_REPORTED {
            self.more = true;
            return Ok(());
        }
        self.parts.push(Part {
            formula,
            objects: copied(objects),
            names,
        })?;
        Ok(())
    }
}

/// A formula holds if it has no false part, and each reported part is false. Proved for all formulas; the function does nothing.
pub fn false_parts_report()
    ensures { FalsePartsReport }
{}
