//! The trace of a plan: what each step adds and deletes.
ghost use Rattle.std.specs.Prelude.{◌≡◌, ◌++◌, IfOk, IsTrue, OnOk};
ghost use Rattle.std.specs.FinSet.{difference};
ghost use Rattle.std.specs.List.{flat_map, list_all};
ghost use Rattle.std.specs.Str.Lossy.{utf8_lossy};
ghost use Rattle.std.specs.String.{string_bytes};
ghost use Rattle.task.specs.Task.{task_of};
ghost use Rattle.task.specs.TaskParts.{atom_of};
ghost use Rattle.formulas.specs.State.{plan_of, state_of};
ghost use Rattle.explain_plans.specs.LentAtoms.{lent_atoms};
ghost use Rattle.explain_plans.specs.Traces.{atoms_line, change_lines, in_order, spaced_text, trace_text};
ghost use Rattle.model.specs.Meaning.{is_instance};

use crate::printing::{Paid, PlanPrinter};
use faults::NoMemory;
use formulas::{Plan, State, apply, cost};
use std::alloc::{AllocError, Global};
use task::{Atom, Task};

/// The steps of a plan as lines, each with LF: what a step costs, and below it the atoms that it adds and those that it deletes.
///
/// A step adds the atoms that are false before it and true after it, and deletes those that are true before it and false after it;
/// a line without atoms is left out. The atoms are in the order of their predicates and then of their objects, both as declared in
/// the files. The instances of the plan belong to the task. The lines end before the first step that is not applicable.
///
/// # Errors
/// An allocation failed.
///
/// # Examples
/// ```text
/// 1  (hop a b)  cost 4, 4 so far
///    adds (at b)
///    deletes (at a)
/// ```
pub fn report_trace(alloc: Global, task: &Task, plan: &Plan) -> Result<String, NoMemory>
    requires { IsTrue (list_all (is_instance (task_of task.now)) (plan_of plan.now)) }
    // Bytes of names that are not valid UTF-8 are replaced; names have none.
    ensures { IfOk result (λ text. string_bytes text ≡ utf8_lossy (trace_text (task_of task.now) (plan_of plan.now))) }
{
    let mut text = Vec::new(alloc);
    PlanPrinter { alloc, task, plan }.add_trace(&mut text)?;
    Ok(String::from_utf8_lossy(alloc, text.as_slice())?)
}

impl PlanPrinter<'_> {
    /// Adds the lines of the plan's steps, up to the first that is not applicable.
    fn add_trace(&self, text: &mut Vec<u8>) -> Result<(), NoMemory>
        requires { IsTrue (list_all (is_instance (task_of self.now.task.now)) (plan_of self.now.plan.now)) }
        ensures { OnOk result (text.new.items ≡ text.old.items ++ trace_text (task_of self.now.task.now) (plan_of self.now.plan.now)) }
    {
        let mut state = State::initial(self.alloc, self.task)?;
        let mut total = 0;
        for (index, step) in self.plan.steps().iter().enumerate() {
            let Some(next) = apply(self.alloc, self.task, step, &state)? else {
                return Ok(());
            };
            let cost = cost(self.task, step);
            total += u64::from(cost);
            self.add_step(index + 1, step, Paid { cost, total }, text)?;
            self.add_changes(&state, &next, text)?;
            state = next;
        }
        Ok(())
    }

    /// Adds the lines of what a step adds and deletes, given the states before and after it.
    fn add_changes(&self, before: &State, after: &State, text: &mut Vec<u8>) -> Result<(), NoMemory>
        ensures { OnOk result (text.new.items ≡ text.old.items ++ change_lines (task_of self.now.task.now) (state_of before.now) (state_of after.now)) }
    {
        let added = atoms_beyond(self.alloc, after, before)?;
        let deleted = atoms_beyond(self.alloc, before, after)?;
        self.add_line(b"   adds", added.as_slice(), text)?;
        self.add_line(b"   deletes", deleted.as_slice(), text)?;
        Ok(())
    }

    /// Adds the line of these atoms, if there are any.
    fn add_line(&self, deed: &[u8], atoms: &[&Atom], text: &mut Vec<u8>) -> Result<(), AllocError>
        ensures { OnOk result (text.new.items ≡ text.old.items ++ atoms_line (task_of self.now.task.now) deed.now (lent_atoms atoms.now)) }
    {
        match atoms.first() {
            Some(_) => {
                text.extend_from_slice(deed)?;
                self.add_atoms(atoms, text)?;
                text.extend_from_slice(b"\n")
            }
            None => Ok(()),
        }
    }

    /// Adds a blank and each atom.
    fn add_atoms(&self, atoms: &[&Atom], text: &mut Vec<u8>) -> Result<(), AllocError>
        ensures { OnOk result (text.new.items ≡ text.old.items ++ flat_map (spaced_text (task_of self.now.task.now)) (lent_atoms atoms.now)) }
    {
        for atom in atoms {
            self.add_atom(atom, text)?;
        }
        Ok(())
    }

    /// Adds a blank and the atom.
    fn add_atom(&self, atom: &Atom, text: &mut Vec<u8>) -> Result<(), AllocError>
        ensures { OnOk result (text.new.items ≡ text.old.items ++ spaced_text (task_of self.now.task.now) (atom_of atom.now)) }
    {
        text.extend_from_slice(b" ")?;
        self.task.add_atom(atom, text)
    }
}

/// The atoms that are true in the state and false in the other one, in order.
fn atoms_beyond<'s>(
    alloc: Global,
    state: &'s State,
    other: &State,
) -> Result<Vec<&'s Atom>, NoMemory>
    ensures { IfOk result (λ atoms. lent_atoms atoms.items ≡ in_order (difference (state_of state.now) (state_of other.now))) }
{
    let mut atoms = Vec::new(alloc);
    for atom in state.atoms() {
        if !other.contains(atom) {
            atoms.push(atom)?;
        }
    }
    Ok(atoms)
}
