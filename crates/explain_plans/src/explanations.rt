//! Explanations of a plan for people.
ghost use Rattle.std.specs.Prelude.{◌≡◌, ◌-◌, IsTrue, IfOk, Some, map, take};
ghost use Rattle.std.specs.List.{list_all};
ghost use Rattle.task.specs.Names.{names_in};
ghost use Rattle.task.specs.Task.{task_of, variable_names_of};
ghost use Rattle.task.specs.TaskParts.{object_of, formula_of};
ghost use Rattle.formulas.specs.State.{instance_of, plan_of, state_of};
ghost use Rattle.explain_plans.specs.Explanations.{verdict_of, AreReasons, IsExplained};
ghost use Rattle.explain_plans.specs.Parts.{FitsIn};
ghost use Rattle.model.specs.Runs.{IsVerdict, StopsAt, run, valid, goal_missed};
ghost use Rattle.model.specs.Meaning.{is_instance, initial_state, system_of, cost_of};

use crate::false_parts::{Context, Found, Part};
use crate::histories::{History, histories};
use faults::NoMemory;
use formulas::{Binding, Instance, Plan, State, amount, cost};
use std::alloc::Global;
use task::{Formula, Task};
use validator::{Run, Verdict, run_plan};

/// Why a formula does not hold after some steps of a plan: the first, from the left, of its minimal false parts, at most 20.
#[derive(Drop)]
pub struct Reasons<'t> {
    /// The false parts.
    pub parts: Vec<Part<'t>>,
    /// Since when each of them has been false.
    pub histories: Vec<History>,
    /// Whether there are more.
    pub more: bool,
}

/// An explanation of a plan.
#[derive(Drop)]
pub enum PlanExplanation<'t> {
    /// The plan solves the task.
    Solves {
        /// The cost of each step.
        costs: Vec<u32>,
        /// The sum of the costs.
        total: u64,
    },
    /// A step is not applicable when its turn comes.
    NotApplicable {
        /// The first such step, counted from 1.
        step: usize,
        /// Whether the action's cost increase has no value for the step's objects.
        lacks_cost: bool,
        /// Why its precondition does not hold; empty if it does.
        reasons: Reasons<'t>,
    },
    /// All steps are applicable, but the goal does not hold at the end.
    GoalMissed {
        /// Why the goal does not hold.
        reasons: Reasons<'t>,
    },
}

/// The verdict on a plan, whose instances belong to the task, with its reasons.
///
/// # Errors
/// An allocation failed, which says nothing about the plan.
pub fn explain_plan<'t>(
    alloc: Global,
    task: &'t Task,
    plan: &Plan,
) -> Result<PlanExplanation<'t>, NoMemory>
    requires { IsTrue (list_all (is_instance (task_of task.now)) (plan_of plan.now)) }
    ensures verdict { IfOk result (λ e. IsVerdict (system_of (task_of task.now)) (plan_of plan.now) (verdict_of e)) }
    ensures explained { IfOk result (IsExplained (task_of task.now) (variable_names_of task.now) (plan_of plan.now)) }
{
    let Run { verdict, state } = run_plan(alloc, task, plan)?;
    let explainer = Explainer { alloc, task, plan };
    match verdict {
        Verdict::Valid { cost } => explainer.why_valid(cost),
        Verdict::NotApplicable { step } => explainer.why_not_applicable(step, &state),
        Verdict::GoalMissed => explainer.why_missed(&state),
    }
}

/// Explains the verdict on a plan for a task.
#[derive(Clone, Copy)]
struct Explainer<'t, 'p> {
    alloc: Global,
    task: &'t Task,
    plan: &'p Plan,
}

impl<'t> Explainer<'t, '_> {
    /// The costs of the steps of a plan that solves the task.
    fn why_valid(self, total: u64) -> Result<PlanExplanation<'t>, NoMemory>
        requires { IsVerdict (system_of (task_of self.task.now)) (plan_of self.plan.now) (valid total) }
        ensures verdict { IfOk result (λ e. IsVerdict (system_of (task_of self.entry.task.now)) (plan_of self.entry.plan.now) (verdict_of e)) }
        ensures explained { IfOk result (IsExplained (task_of self.entry.task.now) (variable_names_of self.entry.task.now) (plan_of self.entry.plan.now)) }
    {
        let steps = self.plan.steps();
        let costs = costs_of(self.alloc, self.task, steps)?;
        Ok(PlanExplanation::Solves { costs, total })
    }

    /// Why the step with this number is not applicable in the state that the steps before it lead to.
    fn why_not_applicable(self, step: usize, state: &State) -> Result<PlanExplanation<'t>, NoMemory>
        requires instances { IsTrue (list_all (is_instance (task_of self.task.now)) (plan_of self.plan.now)) }
        requires stops { StopsAt (system_of (task_of self.task.now)) (plan_of self.plan.now) step }
        requires state { run (system_of (task_of self.task.now)) (initial_state (task_of self.task.now)) (take (step - 1) (plan_of self.plan.now)) ≡ Some (state_of state.now) }
        ensures verdict { IfOk result (λ e. IsVerdict (system_of (task_of self.entry.task.now)) (plan_of self.entry.plan.now) (verdict_of e)) }
        ensures explained { IfOk result (IsExplained (task_of self.entry.task.now) (variable_names_of self.entry.task.now) (plan_of self.entry.plan.now)) }
    {
        let steps = self.plan.steps();
        let before = &steps[..step - 1];
        let instance = &steps[step - 1];
        let schema = self.task.schema(instance.schema).unwrap();
        let lacks_cost = amount(self.task, instance).is_none();
        let context = Context {
            task: self.task,
            state,
            objects: &instance.objects,
            names: self.task.precondition_names(instance.schema),
        };
        let reasons = why_false(self.alloc, before, &schema.precondition, context)?;
        Ok(PlanExplanation::NotApplicable {
            step,
            lacks_cost,
            reasons,
        })
    }

    /// Why the goal does not hold in the state that the plan leads to.
    fn why_missed(self, state: &State) -> Result<PlanExplanation<'t>, NoMemory>
        requires instances { IsTrue (list_all (is_instance (task_of self.task.now)) (plan_of self.plan.now)) }
        requires missed { IsVerdict (system_of (task_of self.task.now)) (plan_of self.plan.now) goal_missed }
        requires state { run (system_of (task_of self.task.now)) (initial_state (task_of self.task.now)) (plan_of self.plan.now) ≡ Some (state_of state.now) }
        ensures verdict { IfOk result (λ e. IsVerdict (system_of (task_of self.entry.task.now)) (plan_of self.entry.plan.now) (verdict_of e)) }
        ensures explained { IfOk result (IsExplained (task_of self.entry.task.now) (variable_names_of self.entry.task.now) (plan_of self.entry.plan.now)) }
    {
        let steps = self.plan.steps();
        let goal = self.task.goal();
        let nothing = Binding::new();
        let context = Context {
            task: self.task,
            state,
            objects: &nothing,
            names: self.task.goal_names(),
        };
        let reasons = why_false(self.alloc, steps, goal, context)?;
        Ok(PlanExplanation::GoalMissed { reasons })
    }
}

/// The cost of each step.
fn costs_of(alloc: Global, task: &Task, steps: &[Instance]) -> Result<Vec<u32>, NoMemory>
    ensures { IfOk result (λ costs. costs.items ≡ map (λ i. cost_of (task_of task.now) (instance_of i)) steps.now) }
{
    let mut costs = Vec::with_capacity(alloc, steps.len())?;
    for step in steps {
        costs.push(cost(task, step))?;
    }
    Ok(costs)
}

/// Why the formula does not hold in the state of the context, which the steps lead to.
fn why_false<'t>(
    alloc: Global,
    steps: &[Instance],
    formula: &'t Formula,
    context: Context<'_, 't>,
) -> Result<Reasons<'t>, NoMemory>
    requires fits { FitsIn context (formula_of formula.now) }
    requires instances { IsTrue (list_all (is_instance (task_of context.task.now)) (map instance_of steps.now)) }
    requires leads { run (system_of (task_of context.task.now)) (initial_state (task_of context.task.now)) (map instance_of steps.now) ≡ Some (state_of context.state.now) }
    ensures { IfOk result (AreReasons (task_of context.entry.task.now) (map instance_of steps.now) (formula_of formula.now) (map object_of context.entry.objects.now.items) (names_in context.entry.names.now)) }
{
    let Found { parts, more } = context.first_false_parts(alloc, formula)?;
    let histories = histories(alloc, context.task, steps, parts.as_slice())?;
    Ok(Reasons {
        parts,
        histories,
        more,
    })
}
