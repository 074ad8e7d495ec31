//! The problem's statements: its initial state and its goal.
ghost use Rattle.std.specs.Prelude.{◌≡◌, [], ◌∷◌, ◌++◌, drop, if◌then◌else◌, map, IfErr, IfOk, OnOk};
ghost use Rattle.task.specs.TaskParts as parts;
ghost use Rattle.typing.specs.Task.{file_of, ReportsAll};
ghost use Rattle.typing.specs.QuantifiedNames.{quantified_names};
ghost use Rattle.typing.specs.Scope.{known_of, known_outside, known_over, names_in, narrow_atoms_in};
ghost use Rattle.typing.specs.Walk.{found, found_by, Finds};
ghost use Rattle.pddl_tree.specs.Tree as read;
ghost use Rattle.model.specs.Trees as tree;
ghost use Rattle.model.specs.Typing as typing;
ghost use Rattle.std.specs.List.{flat_map};

use crate::fault::PairFault;
use crate::formulas::{FormulaWithNames, condition};
use crate::resolver::Resolver;
use crate::scope::{Globals, Scope};
use crate::walk::Walk;
use faults::{Code, NoMemory};
use indexmap::IndexMap;
use pddl_tree::{Fact, InitialCost, InitialValue, Name, Problem, TaskFile};
use std::alloc::Global;
use task::{Atom, TypeUnion};

/// The statements of `:init`: the atoms that are true, and the values of functions.
#[derive(Drop)]
pub(crate) struct Initial {
    pub(crate) atoms: Vec<Atom>,
    pub(crate) values: IndexMap<Atom, u32>,
}

/// Refuses this word unless the total cost is declared.
fn check_declared(walk: &mut Walk, globals: &Globals<'_>, word: &Name<'_>)
    ensures { Finds walk.old walk.new (if typing.has_cost (known_outside globals.now) then [] else typing.refused_word (file_of globals.now.file) 23 (read.name_of word.now)) }
{
    if !globals.has_cost() {
        walk.refuse(globals.file, Code::BadCost, word);
    }
}

/// Refuses an initial total cost that is not declared or is not 0.
fn check_initial_cost(walk: &mut Walk, scope: &Scope<'_>, cost: &InitialCost<'_>)
    ensures { Finds walk.old walk.new (typing.initial_cost_faults (file_of scope.now.globals.now.file) (known_of scope.now) (read.initial_cost_of cost.now)) }
{
    check_declared(walk, scope.globals, &cost.function);
    if cost.amount != 0 {
        walk.refuse(scope.globals.file, Code::BadCost, &cost.number);
    }
}

/// Gives this value to a function of objects, unless it has one. Returns whether it has another.
fn put_value(values: &mut IndexMap<Atom, u32>, function: Atom, value: u32) -> Result<bool, NoMemory>
    ensures value { OnOk result (map parts.value_of values.new.entries ≡ typing.with_value (map parts.value_of values.old.entries) (record { function = parts.atom_of function; value = value })) }
    ensures differs { IfOk result (λ differs. differs ≡ typing.differing (map parts.value_of values.old.entries) (record { function = parts.atom_of function; value = value })) }
{
    match values.get(&function).copied() {
        Some(first) => Ok(first != value),
        None => {
            values.insert(function, value)?;
            Ok(false)
        }
    }
}

/// Adds the value of a function of objects, if all its names are known. Refuses a second value that differs.
fn add_value(
    walk: &mut Walk,
    scope: &Scope<'_>,
    values: &mut IndexMap<Atom, u32>,
    given: &InitialValue<'_>,
) -> Result<(), NoMemory>
    ensures value { OnOk result (map parts.value_of values.new.entries
        ≡ typing.values_after (known_of scope.now) (map parts.value_of values.old.entries) (tree.initial_value (read.initial_value_of given.now) ∷ [])) }
    ensures finds { OnOk result (Finds walk.old walk.new
        (typing.fact_faults (file_of scope.now.globals.now.file) (known_of scope.now) (tree.initial_value (read.initial_value_of given.now))
        ++ typing.value_faults (file_of scope.now.globals.now.file) (known_of scope.now) (map parts.value_of values.old.entries) (tree.initial_value (read.initial_value_of given.now)))) }
{
    let functions = scope.in_function();
    match functions.named_atom(walk, &given.function)? {
        Some(function) => {
            if put_value(values, function, given.value)? {
                walk.refuse(
                    scope.globals.file,
                    Code::Duplicate,
                    &given.function.predicate,
                );
            }
            Ok(())
        }
        None => Ok(()),
    }
}

/// Adds an atom of the initial state, or the value of a function. Refuses a negated atom.
fn add_fact(
    walk: &mut Walk,
    scope: &Scope<'_>,
    initial: &mut Initial,
    fact: &Fact<'_>,
) -> Result<(), NoMemory>
    ensures atoms { OnOk result (map parts.atom_of initial.new.atoms.items ≡ map parts.atom_of initial.old.atoms.items ++ narrow_atoms_in (known_of scope.now) (read.fact_of fact.now)) }
    ensures values { OnOk result (map parts.value_of initial.new.values.entries
        ≡ typing.values_after (known_of scope.now) (map parts.value_of initial.old.values.entries) (read.fact_of fact.now ∷ [])) }
    ensures finds { OnOk result (Finds walk.old walk.new
        (typing.fact_faults (file_of scope.now.globals.now.file) (known_of scope.now) (read.fact_of fact.now)
        ++ typing.value_faults (file_of scope.now.globals.now.file) (known_of scope.now) (map parts.value_of initial.old.values.entries) (read.fact_of fact.now))) }
{
    match fact {
        Fact::Atom(atom) => {
            initial.atoms.push(scope.atom(walk, atom)?)?;
            Ok(())
        }
        Fact::Negated(word, _) => {
            walk.refuse(scope.globals.file, Code::NegativeInit, word);
            Ok(())
        }
        Fact::InitialCost(cost) => {
            check_initial_cost(walk, scope, cost);
            Ok(())
        }
        Fact::InitialValue(value) => add_value(walk, scope, &mut initial.values, value),
    }
}

/// The statements of a list of facts: its atoms, possibly repeated, and its values, at most one for each function of objects.
fn stated(walk: &mut Walk, scope: &Scope<'_>, facts: &[Fact<'_>]) -> Result<Initial, NoMemory>
    ensures atoms { IfOk result (λ s. map parts.atom_of s.atoms.items ≡ flat_map (narrow_atoms_in (known_of scope.now)) (map read.fact_of facts.now)) }
    ensures values { IfOk result (λ s. map parts.value_of s.values.entries ≡ typing.values_after (known_of scope.now) [] (map read.fact_of facts.now)) }
    ensures finds { OnOk result (Finds walk.old walk.new (typing.facts_faults (file_of scope.now.globals.now.file) (known_of scope.now) [] (map read.fact_of facts.now))) }
{
    let atoms = Vec::with_capacity(walk.alloc, facts.len())?;
    let values = IndexMap::new(walk.alloc);
    let mut made = Initial { atoms, values };
    for fact in facts {
        add_fact(walk, scope, &mut made, fact)?;
    }
    Ok(made)
}

/// Refuses an initial total cost if no more are allowed. Returns how many more are allowed after the fact.
fn check_equals(walk: &mut Walk, file: TaskFile, allowed: usize, fact: &Fact<'_>) -> usize
    ensures { (rest : _) → found (found_by walk.new) (typing.refused 23 (drop result (typing.equals_in (file_of file) rest)))
        ≡ found (found_by walk.old) (typing.refused 23 (drop allowed (typing.equals_in (file_of file) (read.fact_of fact.now ∷ rest)))) }
{
    match fact {
        Fact::InitialCost(cost) => {
            if allowed == 0 {
                walk.refuse(file, Code::BadCost, &cost.equals);
                0
            } else {
                allowed - 1
            }
        }
        Fact::Atom(_) => allowed,
        Fact::Negated(_, _) => allowed,
        Fact::InitialValue(_) => allowed,
    }
}

/// Refuses each initial total cost after the first.
fn check_all_equals(walk: &mut Walk, file: TaskFile, facts: &[Fact<'_>])
    ensures { Finds walk.old walk.new (typing.refused 23 (drop 1 (typing.equals_in (file_of file) (map read.fact_of facts.now)))) }
{
    let mut allowed = 1;
    for fact in facts {
        allowed = check_equals(walk, file, allowed, fact);
    }
}

/// The atoms and values of the initial state, given the names in scope.
pub(crate) fn init(
    alloc: Global,
    globals: &Globals<'_>,
    variables: &IndexMap<Vec<u8>, TypeUnion>,
    problem: &Problem<'_>,
) -> Result<Initial, PairFault>
    ensures ok { IfOk result
        (λ s. (typing.init_faults (file_of globals.now.file) (known_over globals.now variables.now.entries) (read.problem_of problem.now).init ≡ [])
        × ((map parts.atom_of s.atoms.items ≡ flat_map (narrow_atoms_in (known_over globals.now variables.now.entries)) (read.problem_of problem.now).init)
        × (map parts.value_of s.values.entries ≡ typing.values_after (known_over globals.now variables.now.entries) [] (read.problem_of problem.now).init))) }
    ensures err { IfErr result (ReportsAll (typing.init_faults (file_of globals.now.file) (known_over globals.now variables.now.entries) (read.problem_of problem.now).init)) }
{
    let mut walk = Walk::new(alloc)?;
    let scope = globals.with(variables);
    let init = walked_init(&mut walk, &scope, problem)?;
    walk.finish(init)
}

/// The same. Faults are recorded in the walk.
pub(crate) fn walked_init(
    walk: &mut Walk,
    scope: &Scope<'_>,
    problem: &Problem<'_>,
) -> Result<Initial, NoMemory>
    ensures atoms { IfOk result (λ s. map parts.atom_of s.atoms.items ≡ flat_map (narrow_atoms_in (known_of scope.now)) (read.problem_of problem.now).init) }
    ensures values { IfOk result (λ s. map parts.value_of s.values.entries ≡ typing.values_after (known_of scope.now) [] (read.problem_of problem.now).init) }
    ensures finds { OnOk result (Finds walk.old walk.new (typing.init_faults (file_of scope.now.globals.now.file) (known_of scope.now) (read.problem_of problem.now).init)) }
{
    let facts = problem.init.as_slice();
    let init = stated(walk, scope, facts)?;
    check_all_equals(walk, scope.globals.file, facts);
    Ok(init)
}

/// The goal, with the names of its quantified variables.
pub(crate) fn goal(
    alloc: Global,
    globals: &Globals<'_>,
    problem: &Problem<'_>,
) -> Result<FormulaWithNames, PairFault>
    ensures ok { IfOk result
        (λ c. (typing.formula_faults (file_of globals.now.file) (known_outside globals.now) (read.problem_of problem.now).goal ≡ [])
        × (parts.formula_of c.formula ≡ typing.formula_in (file_of globals.now.file) (known_outside globals.now) (read.problem_of problem.now).goal)) }
    ensures names { IfOk result (λ c. names_in c.names.items ≡ quantified_names (read.problem_of problem.now).goal) }
    ensures err { IfErr result (ReportsAll (typing.formula_faults (file_of globals.now.file) (known_outside globals.now) (read.problem_of problem.now).goal)) }
{
    let walk = Walk::new(alloc)?;
    let mut resolver = Resolver::new(walk, globals);
    let goal = condition(&mut resolver, &problem.goal)?;
    resolver.finish(goal)
}
