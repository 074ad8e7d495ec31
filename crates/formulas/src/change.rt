//! Successors: the state that results from applying an instance.
ghost use Rattle.std.specs.Prelude.{◌≡◌, ◌∷◌, ◌++◌, [], map, IsTrue, IfOk, OnOk};
ghost use Rattle.std.specs.Option.{option_map};
ghost use Rattle.task.specs.Task.{task_of};
ghost use Rattle.formulas.specs.State.{state_of, instance_of, FitsFormula, FitsChanges};
ghost use Rattle.formulas.specs.Effects.{change_of, ground_literal_of, lent_literal};
ghost use Rattle.formulas.specs.Changes.{after_pass};
ghost use Rattle.model.specs.Meaning as meaning;
ghost use Rattle.model.specs.Meaning.{is_instance, step, literals_in};

use crate::costs::amount;
use crate::effects::{Change, GroundLiteral, changes};
use crate::instance::Instance;
use crate::state::State;
use crate::truth::holds;
use faults::NoMemory;
use std::alloc::Global;
use task::Task;

/// Which literals are applied.
#[derive(Clone, Copy)]
enum Pass {
    /// Those that make an atom false.
    Deletes,
    /// Those that make an atom true.
    Adds,
}

/// The successor state of applying an instance of the task; `None` if it is not applicable, that is, if its precondition does not
/// hold or its cost increase has no value. All conditions are evaluated in the state before. An atom that is both deleted and
/// added is true afterwards.
///
/// # Errors
/// An allocation failed, which says nothing about the instance.
pub fn apply(
    alloc: Global,
    task: &Task,
    instance: &Instance,
    state: &State,
) -> Result<Option<State>, NoMemory>
    requires { IsTrue (is_instance (task_of task.now) (instance_of instance.now)) }
    ensures { IfOk result (λ next. option_map state_of next ≡ step (task_of task.now) (state_of state.now) (instance_of instance.now)) }
{
    advance(alloc, task, instance, state.try_clone()?)
}

/// The same as [`apply`], but updates the given state in place: the time depends on the number of changes, not on the size of the
/// state.
///
/// # Errors
/// An allocation failed, which says nothing about the instance.
fn advance(
    alloc: Global,
    task: &Task,
    instance: &Instance,
    state: State,
) -> Result<Option<State>, NoMemory>
    requires { IsTrue (is_instance (task_of task.now) (instance_of instance.now)) }
    ensures { IfOk result (λ next. option_map state_of next ≡ step (task_of task.now) (state_of state) (instance_of instance.now)) }
{
    let Some(schema) = task.schema(instance.schema) else {
        return Ok(None);
    };
    if amount(task, instance).is_none() {
        return Ok(None);
    }
    if !holds(task, &schema.precondition, &instance.objects, &state) {
        return Ok(None);
    }
    let found = changes(alloc, task, instance)?;
    let made = literals_made(alloc, task, &found, &state)?;
    let mut next = state;
    carry_out(&made, Pass::Deletes, &mut next)?;
    carry_out(&made, Pass::Adds, &mut next)?;
    Ok(Some(next))
}

/// The literals of the changes whose conditions hold in the state.
fn literals_made<'a>(
    alloc: Global,
    task: &Task,
    changes: &'a [Change<'_>],
    before: &State,
) -> Result<Vec<&'a GroundLiteral>, NoMemory>
    requires { FitsChanges (task_of task.now) (map change_of changes.now) }
    ensures { IfOk result (λ made. map lent_literal made.items ≡ literals_in (task_of task.now) (state_of before.now) (map change_of changes.now)) }
{
    let mut made = Vec::new(alloc);
    for change in changes {
        add_if_made(task, change, before, &mut made)?;
    }
    Ok(made)
}

/// Adds the literal of the change if its condition holds in the state.
fn add_if_made<'a>(
    task: &Task,
    change: &'a Change<'_>,
    before: &State,
    made: &mut Vec<&'a GroundLiteral>,
) -> Result<(), NoMemory>
    requires { FitsFormula (task_of task.now) (change_of change.now).condition (change_of change.now).binding }
    ensures { OnOk result (map lent_literal made.new.items ≡ map lent_literal made.old.items ++ literals_in (task_of task.now) (state_of before.now) (change_of change.now ∷ [])) }
{
    if !is_made(task, change, before) {
        return Ok(());
    }
    made.push(&change.literal)?;
    Ok(())
}

/// Applies the literals that belong to the pass.
fn carry_out(literals: &[&GroundLiteral], pass: Pass, next: &mut State) -> Result<(), NoMemory>
    ensures { OnOk result (state_of next.new ≡ after_pass pass (state_of next.old) (map lent_literal literals.now)) }
{
    for literal in literals {
        carry_out_one(literal, pass, next)?;
    }
    Ok(())
}

/// Whether the condition of the change holds in the state.
fn is_made(task: &Task, change: &Change, before: &State) -> bool
    requires { FitsFormula (task_of task.now) (change_of change.now).condition (change_of change.now).binding }
    ensures { result ≡ meaning.holds (task_of task.now) (change_of change.now).condition (change_of change.now).binding (state_of before.now) }
{
    match change.condition {
        Some(condition) => holds(task, condition, &change.binding, before),
        None => true,
    }
}

/// Applies the literal if it belongs to the pass.
fn carry_out_one(literal: &GroundLiteral, pass: Pass, next: &mut State) -> Result<(), NoMemory>
    ensures { OnOk result (state_of next.new ≡ after_pass pass (state_of next.old) (ground_literal_of literal.now ∷ [])) }
{
    match (pass, literal) {
        (Pass::Deletes, GroundLiteral::Deletes(atom)) => next.remove(atom),
        (Pass::Adds, GroundLiteral::Adds(atom)) => next.insert(atom.clone()?)?,
        (Pass::Deletes, GroundLiteral::Adds(_)) => {}
        (Pass::Adds, GroundLiteral::Deletes(_)) => {}
    }
    Ok(())
}
