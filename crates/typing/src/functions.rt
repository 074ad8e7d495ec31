//! The domain's functions, the problem's metric, and the cost increases of actions.
ghost use Rattle.std.specs.Prelude.{◌≡◌, [], ◌++◌, drop, if◌then◌else◌, map, slice_get, IfErr, IfOk, OnOk};
ghost use Rattle.std.specs.List.{flat_map, list_any};
ghost use Rattle.std.specs.Option.{option_map_or};
ghost use Rattle.task.specs.TaskParts as parts;
ghost use Rattle.typing.specs.Scope.{keys_in, known_of, known_outside};
ghost use Rattle.typing.specs.Task.{file_of, ReportsAll};
ghost use Rattle.typing.specs.Walk.{Finds};
ghost use Rattle.pddl_tree.specs.Tree as read;
ghost use Rattle.model.specs.Trees.{problem_file};
ghost use Rattle.model.specs.Task as task;
ghost use Rattle.model.specs.Typing as typing;

use crate::declarations::declared;
use crate::fault::PairFault;
use crate::scope::{Globals, Scope, declares_cost};
use crate::type_names::TypeTable;
use crate::walk::Walk;
use faults::{Code, NoMemory};
use indexmap::IndexMap;
use pddl_tree as tree;
use pddl_tree::{Action, Amount, Domain, Name, Problem, TaskFile};
use std::alloc::Global;
use task::{Increase, Predicate};

/// Refuses the metric if the total cost is not declared among these functions.
fn check_metric(
    walk: &mut Walk,
    functions: &IndexMap<Vec<u8>, Predicate>,
    metric: Option<&Name<'_>>,
)
    ensures { Finds walk.old walk.new
        (option_map_or (λ n. if list_any (typing.is_same typing.total_cost) (typing.names_of_predicates (map parts.predicate_of functions.now.entries)) then [] else typing.refused_word problem_file 22 (read.name_of n.now)) metric.entry []) }
{
    if let Some(word) = metric {
        if !declares_cost(functions) {
            walk.refuse(TaskFile::Problem, Code::BadMetric, word);
        }
    }
}

/// The domain's functions, given its types, if the problem's metric is valid.
pub fn functions(
    alloc: Global,
    types: &TypeTable,
    domain: &Domain<'_>,
    problem: &Problem<'_>,
) -> Result<IndexMap<Vec<u8>, Predicate>, PairFault>
    requires { keys_in types.now.by_name.entries ≡ typing.type_names (read.domain_of domain.now) }
    ensures ok { IfOk result
        (λ m. (typing.function_faults (read.domain_of domain.now) (read.problem_of problem.now) ≡ [])
        × (map parts.predicate_of m.entries ≡ typing.functions_of (read.domain_of domain.now))) }
    ensures err { IfErr result (ReportsAll (typing.function_faults (read.domain_of domain.now) (read.problem_of problem.now))) }
{
    let mut walk = Walk::new(alloc)?;
    let functions = declared(&mut walk, types, &domain.functions)?;
    check_metric(&mut walk, &functions, problem.metric.as_ref());
    walk.finish(functions)
}

/// Refuses each of the increases.
fn refuse_increases(walk: &mut Walk, file: TaskFile, increases: &[tree::Increase<'_>])
    ensures { Finds walk.old walk.new (typing.refused 23 (map (λ i. typing.placed (file_of file) (read.name_of i.word)) increases.now)) }
{
    for increase in increases {
        walk.refuse(file, Code::BadCost, &increase.word);
    }
}

/// Refuses all increases of an action after the first; also the first if the total cost is not declared.
fn check_increases(walk: &mut Walk, globals: &Globals<'_>, action: &Action<'_>)
    ensures { Finds walk.old walk.new (typing.increase_faults (file_of globals.now.file) (known_outside globals.now) (read.action_of action.now)) }
{
    let increases = action.increases.as_slice();
    if !globals.has_cost() {
        refuse_increases(walk, globals.file, increases);
    } else if let Some((_, others)) = increases.split_first() {
        refuse_increases(walk, globals.file, others);
    }
}

/// The amount of an increase.
fn amount(walk: &mut Walk, scope: &Scope<'_>, given: &Amount<'_>) -> Result<Increase, NoMemory>
    ensures value { IfOk result (λ i. parts.increase_of i ≡ typing.increase_in (known_of scope.now) (read.amount_of given.now)) }
    ensures finds { OnOk result (Finds walk.old walk.new (typing.amount_faults (file_of scope.now.globals.now.file) (known_of scope.now) (read.amount_of given.now))) }
{
    match given {
        Amount::Number(number) => Ok(Increase::Number(*number)),
        Amount::Function(function) => {
            let functions = scope.in_function();
            Ok(Increase::Function(functions.lifted_atom(walk, function)?))
        }
    }
}

/// Reports the faults of the functions that increases use.
fn check_amounts(
    walk: &mut Walk,
    scope: &Scope<'_>,
    increases: &[tree::Increase<'_>],
) -> Result<(), NoMemory>
    ensures { OnOk result (Finds walk.old walk.new (flat_map (λ i. typing.amount_faults (file_of scope.now.globals.now.file) (known_of scope.now) (read.amount_of i.amount)) increases.now)) }
{
    for increase in increases {
        amount(walk, scope, &increase.amount)?;
    }
    Ok(())
}

/// The amount of the first increase; 0 if there is none.
fn first_amount(
    walk: &mut Walk,
    scope: &Scope<'_>,
    increases: &[tree::Increase<'_>],
) -> Result<Increase, NoMemory>
    ensures value { IfOk result (λ i. parts.increase_of i
        ≡ option_map_or (λ j. typing.increase_in (known_of scope.now) j.amount) (slice_get (map read.increase_of increases.now) 0) (task.by_number 0)) }
    ensures finds { OnOk result (Finds walk.old walk.new (flat_map (λ i. typing.amount_faults (file_of scope.now.globals.now.file) (known_of scope.now) (read.amount_of i.amount)) increases.now)) }
{
    match increases.split_first() {
        Some((first, others)) => {
            let increase = amount(walk, scope, &first.amount)?;
            check_amounts(walk, scope, others)?;
            Ok(increase)
        }
        None => Ok(Increase::Number(0)),
    }
}

/// The amount by which an action increases the total cost: that of its first increase, or 0.
pub fn increase(
    walk: &mut Walk,
    scope: &Scope<'_>,
    action: &Action<'_>,
) -> Result<Increase, NoMemory>
    ensures value { IfOk result (λ i. parts.increase_of i ≡ typing.increase_of (known_of scope.now) (read.action_of action.now)) }
    ensures finds { OnOk result (Finds walk.old walk.new
        (typing.increase_faults (file_of scope.now.globals.now.file) (known_of scope.now) (read.action_of action.now)
        ++ flat_map (λ i. typing.amount_faults (file_of scope.now.globals.now.file) (known_of scope.now) i.amount) (read.action_of action.now).increases)) }
{
    check_increases(walk, scope.globals, action);
    first_amount(walk, scope, &action.increases)
}
