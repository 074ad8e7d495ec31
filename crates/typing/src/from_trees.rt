//! The task of a domain and a problem.
ghost use Rattle.std.specs.Prelude.{◌≡◌, List, IfErr, IfOk, OnOk};
ghost use Rattle.task.specs.Task.{task_of, variable_names_of};
ghost use Rattle.task.specs.VariableNames.{VariableNames};
ghost use Rattle.typing.specs.Task.{ReportsAll, ReportsFault, ReportsFaults, ReportsLeastOf, variable_names};
ghost use Rattle.model.specs.Task as task;
ghost use Rattle.pddl_tree.specs.Tree.{domain_of, problem_of};
ghost use Rattle.model.specs.Typing.{task_of_trees, IsWellTyped, TypingFault};

use crate::actions;
use crate::fault::{PairFault, TaskFault};
use crate::names::{Names, Start};
use faults::Refused;
use pddl_tree::{Domain, Problem};
use std::alloc::Global;
use task::{Task, TaskParts};

/// A task can be built from trees.
pub trait FromTrees: Sized {
    /// The task, as the model has it.
    ghost task_in: { Self → task.Task };

    /// The names of its quantified variables, as in the files.
    ghost names_in: { Self → VariableNames };

    /// Builds the task of a domain and a problem, with a number for each name.
    ///
    /// # Errors
    /// The least fault of the pair, if it has one; [`TaskFault::NoMemory`] if an allocation failed.
    ///
    /// # Examples
    /// A domain with `(:constants a)` and a problem for it with `(:objects b)` make a task of two objects, the constant
    /// first:
    ///
    /// ```
    /// let task = Task::new(alloc, domain, problem)?;
    /// assert_eq!(rt; task.object_count(), 2);
    /// ```
    ///
    /// With `(:objects a)` the problem is refused by `Duplicate` at its `a`.
    fn new(alloc: Global, domain: Domain<'_>, problem: Problem<'_>) -> Result<Self, TaskFault>
        ensures well_typed { OnOk result (IsWellTyped (domain_of domain.entry) (problem_of problem.entry)) }
        ensures task { IfOk result (λ t. task_in t ≡ task_of_trees (domain_of domain.entry) (problem_of problem.entry)) }
        ensures names { IfOk result (λ t. names_in t ≡ variable_names (domain_of domain.entry) (problem_of problem.entry)) }
        ensures least { IfErr result (ReportsFault (domain_of domain.entry) (problem_of problem.entry)) };
}

impl FromTrees for Task {
    ghost task_in = { task_of };

    ghost names_in = { variable_names_of };

    fn new(alloc: Global, domain: Domain<'_>, problem: Problem<'_>) -> Result<Task, TaskFault> {
        of_trees(alloc, &domain, &problem)
    }
}

/// The task of a domain and a problem, taken by reference.
fn of_trees(alloc: Global, domain: &Domain<'_>, problem: &Problem<'_>) -> Result<Task, TaskFault>
    ensures well_typed { OnOk result (IsWellTyped (domain_of domain.now) (problem_of problem.now)) }
    ensures task { IfOk result (λ t. task_of t ≡ task_of_trees (domain_of domain.now) (problem_of problem.now)) }
    ensures names { IfOk result (λ t. variable_names_of t ≡ variable_names (domain_of domain.now) (problem_of problem.now)) }
    ensures least { IfErr result (ReportsFault (domain_of domain.now) (problem_of problem.now)) }
{
    match made(alloc, domain, problem) {
        Ok(task) => Ok(task),
        Err(fault) => Err(least(fault)),
    }
}

/// The least of the faults.
fn least(fault: PairFault) -> TaskFault
    ensures { (faults : List TypingFault) → ReportsAll faults fault → ReportsLeastOf faults result }
{
    match fault {
        Refused::At(refusal) => Refused::At(refusal.first),
        Refused::NoMemory => Refused::NoMemory,
    }
}

/// The same, with all faults of the first phase that has any.
fn made(alloc: Global, domain: &Domain<'_>, problem: &Problem<'_>) -> Result<Task, PairFault>
    ensures well_typed { OnOk result (IsWellTyped (domain_of domain.now) (problem_of problem.now)) }
    ensures task { IfOk result (λ t. task_of t ≡ task_of_trees (domain_of domain.now) (problem_of problem.now)) }
    ensures names { IfOk result (λ t. variable_names_of t ≡ variable_names (domain_of domain.now) (problem_of problem.now)) }
    ensures reported { IfErr result (ReportsFaults (domain_of domain.now) (problem_of problem.now)) }
{
    let names = Names::declared(alloc, domain, problem)?;
    let schemas = actions::schemas(alloc, &names.in_domain(), domain)?;
    let start = Start::stated_in(alloc, &names.in_problem(), problem)?;
    let Names {
        types,
        objects,
        predicates,
        functions,
    } = names;
    Ok(Task::from_parts(TaskParts {
        types: types.by_name,
        objects: objects.all,
        predicates,
        functions,
        schemas,
        init: start.init,
        values: start.values,
        goal: start.goal.formula,
        goal_names: start.goal.names,
        has_metric: problem.metric.is_some(),
    }))
}
