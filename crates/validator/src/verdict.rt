//! The verdict on a plan.
ghost use Rattle.std.specs.Prelude.{IsTrue, IfOk};
ghost use Rattle.std.specs.List.{list_all};
ghost use Rattle.task.specs.Task.{task_of};
ghost use Rattle.formulas.specs.State.{plan_of, state_of};
ghost use Rattle.validator.specs.Verdict.{verdict_of, ExactlyOneVerdict, LeadsTo};
ghost use Rattle.model.specs.Runs.{IsVerdict};
ghost use Rattle.model.specs.Meaning.{is_instance, system_of};
ghost use Rattle.model.specs.Examples.{WorkedExamples};

use faults::NoMemory;
use formulas::{Plan, State, apply, cost, meets_goal};
use std::alloc::Global;
use task::Task;

/// The verdict on a plan.
#[derive(Clone, Copy, Debug, PartialEq, Eq)]
pub enum Verdict {
    /// The plan solves the task.
    Valid {
        /// The sum of its instances' costs.
        cost: u64,
    },
    /// One of its instances is not applicable when its turn comes.
    NotApplicable {
        /// The position of the first such instance, counted from 1.
        step: usize,
    },
    /// All instances are applicable, but the goal does not hold at the end.
    GoalMissed,
}

/// The verdict on a plan, with the state it leads to.
#[derive(Drop)]
pub struct Run {
    /// The verdict.
    pub verdict: Verdict,
    /// The state after the plan, or before its first inapplicable instance.
    pub state: State,
}

/// The verdict on the plan, whose instances belong to the task.
pub fn validate(alloc: Global, task: &Task, plan: &Plan) -> Result<Verdict, NoMemory>
    requires { IsTrue (list_all (is_instance (task_of task.now)) (plan_of plan.now)) }
    ensures { IfOk result (λ v. IsVerdict (system_of (task_of task.now)) (plan_of plan.now) (verdict_of v)) }
{
    let run = run_plan(alloc, task, plan)?;
    Ok(run.verdict)
}

/// The verdict, with the state that the plan leads to.
///
/// # Errors
/// An allocation failed, which says nothing about the plan.
pub fn run_plan(alloc: Global, task: &Task, plan: &Plan) -> Result<Run, NoMemory>
    requires { IsTrue (list_all (is_instance (task_of task.now)) (plan_of plan.now)) }
    ensures verdict { IfOk result (λ r. IsVerdict (system_of (task_of task.now)) (plan_of plan.now) (verdict_of r.verdict)) }
    ensures state { IfOk result (λ r. LeadsTo (system_of (task_of task.now)) (plan_of plan.now) (verdict_of r.verdict) (state_of r.state)) }
{
    let mut state = State::initial(alloc, task)?;
    let mut total = 0;
    for (index, instance) in plan.steps().iter().enumerate() {
        match apply(alloc, task, instance, &state)? {
            Some(next) => {
                state = next;
                total += u64::from(cost(task, instance));
            }
            None => {
                let verdict = Verdict::NotApplicable { step: index + 1 };
                return Ok(Run { verdict, state });
            }
        }
    }
    if meets_goal(task, &state) {
        let verdict = Verdict::Valid { cost: total };
        Ok(Run { verdict, state })
    } else {
        let verdict = Verdict::GoalMissed;
        Ok(Run { verdict, state })
    }
}

/// Exactly one verdict is true of each plan of each task, so that `validate` has no choice.
pub fn exactly_one_verdict_is_true()
    ensures { ExactlyOneVerdict }
{}

/// The definitions mean what they should on small tasks, each chosen to expose a wrong reading of states, effects, instances,
/// runs or verdicts.
pub fn worked_examples_are_true()
    ensures { WorkedExamples }
{}
