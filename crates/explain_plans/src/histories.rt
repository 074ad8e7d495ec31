//! Since when parts of a formula have been false along a plan.
ghost use Rattle.std.specs.Prelude.{◌≡◌, ◌+◌, ℕ, ◌≤◌, IsTrue, All, IfOk, Some, length, map, if◌then◌else◌, slice_get, false};
ghost use Rattle.std.specs.List.{list_all};
ghost use Rattle.task.specs.Task.{task_of};
ghost use Rattle.formulas.specs.State.{state_of, instance_of};
ghost use Rattle.explain_plans.specs.declared.false_parts.Part as code;
ghost use Rattle.explain_plans.specs.Histories.{by_step, IsAfter, DoRun};
ghost use Rattle.explain_plans.specs.Parts.{AreHistories, FitsPart, Looked, history_of, part_of};
ghost use Rattle.model.specs.Meaning.{is_instance};

use crate::false_parts::Part;
use faults::NoMemory;
use formulas::{Instance, State, apply, holds};
use std::alloc::Global;
use task::Task;

/// Since when a part of a formula has been false.
#[derive(Clone, Copy, Debug, PartialEq, Eq)]
pub enum History {
    /// From the initial state on.
    Always,
    /// This step, counted from 1, made it false.
    ByStep(usize),
}

/// The state before the step with this number, counted from 1.
#[derive(Clone, Copy)]
struct Before<'s> {
    step: usize,
    state: &'s State,
}

/// Since when each of the parts, all false after the steps, has been false.
pub(crate) fn histories(
    alloc: Global,
    task: &Task,
    steps: &[Instance],
    parts: &[Part<'_>],
) -> Result<Vec<History>, NoMemory>
    requires instances { IsTrue (list_all (is_instance (task_of task.now)) (map instance_of steps.now)) }
    requires runs { DoRun (task_of task.now) (map instance_of steps.now) }
    requires fit { All (FitsPart (task_of task.now)) parts.now }
    requires are_false { (number : ℕ) (part : code.Part) → slice_get parts.now number ≡ Some part
        → IsAfter (task_of task.now) (map instance_of steps.now) (part_of part) (length steps.now) false }
    ensures one_each { IfOk result (λ histories. length histories.items ≡ length parts.now) }
    ensures since { IfOk result (λ histories. AreHistories (task_of task.now) (map instance_of steps.now) parts.now histories.items) }
{
    let mut histories = vec![in alloc; History::Always; parts.len()]?;
    let mut state = State::initial(alloc, task)?;
    for (index, step) in steps.iter().enumerate() {
        let before = Before {
            step: index + 1,
            state: &state,
        };
        look(task, before, parts, &mut histories);
        state = apply(alloc, task, step, &state)?.unwrap();
    }
    Ok(histories)
}

/// Updates the histories by the state before a step.
fn look(task: &Task, before: Before<'_>, parts: &[Part<'_>], histories: &mut Vec<History>)
    requires fit { All (FitsPart (task_of task.now)) parts.now }
    requires one_each { length histories.old.items ≡ length parts.now }
    ensures one_each { length histories.new.items ≡ length parts.now }
    ensures looked { Looked (task_of task.now) (state_of before.entry.state.now) before.entry.step parts.now histories.old.items histories.new.items }
{
    for (place, part) in parts.iter().enumerate() {
        if holds(task, part.formula, &part.objects, before.state) {
            histories[place] = History::ByStep(before.step);
        }
    }
}
