//! Tests of states, instances and atoms in memory.
use faults::NoMemory;
use formulas::{Atom, State, is_atom, is_fluent, is_fluent_predicate, is_instance};
use std::alloc::Global;
use std::process::Abort;
use std::test::Fail;
use task::{PredicateId, Task};
use test_support::{Application, Texts, atom, atoms, instance, on_task};

/// Three places, with roads from the first to itself and to the second, and from the second to the third.
const WALK: Texts = [
    "(define (domain walk) (:predicates (at ?x) (road ?x ?y))
 (:action move :parameters (?x ?y) :precondition (and (at ?x) (road ?x ?y)) :effect (and (not (at ?x)) (at ?y))))",
    "(define (problem w) (:domain walk) (:objects a b c)
 (:init (at a) (road a a) (road a b) (road b c)) (:goal (at b)))",
];

/// Schemas with objects, and whether they form an instance.
#[rattlefmt::skip]
static INSTANCES: [(Application, bool); 6] = [
    ((0, &[0, 1]), true), ((0, &[2, 2]), true),
    ((0, &[2]), false), ((0, &[2, 1, 0]), false), ((0, &[2, 3]), false), ((1, &[0, 1]), false),
];

/// Predicates with objects, and whether they form an atom.
#[rattlefmt::skip]
static ATOMS: [(Application, bool); 7] = [
    ((0, &[2]), true), ((1, &[2, 2]), true),
    ((0, &[]), false), ((0, &[0, 1]), false), ((0, &[3]), false), ((1, &[0, 3]), false), ((2, &[0]), false),
];

/// Which instances belong to the task and which do not.
fn knows_instances(rt: &impl Abort, task: &Task) {
    for ((schema, objects), is_one) in &INSTANCES {
        assert_eq!(rt; is_instance(task, &instance(*schema, *objects)), *is_one);
    }
}

/// Which atoms belong to the task and which do not.
fn knows_atoms(rt: &impl Abort, task: &Task) {
    for ((predicate, objects), is_one) in &ATOMS {
        assert_eq!(rt; is_atom(task, &atom(*predicate, *objects)), *is_one);
    }
}

/// Only the predicate of places is fluent, and so are its atoms.
fn knows_what_is_fluent(rt: &impl Abort, task: &Task) {
    let are_fluent = [
        is_fluent_predicate(task, PredicateId(0)),
        is_fluent_predicate(task, PredicateId(1)),
        is_fluent_predicate(task, PredicateId(2)),
        is_fluent(task, &atom(0, &[2])),
        is_fluent(task, &atom(0, &[3])),
        is_fluent(task, &atom(1, &[2, 2])),
    ];
    assert_eq!(rt; are_fluent, [true, false, false, true, false, false]);
}

#[test]
fn instances_and_atoms_of_a_walk(rt: HostRuntime) -> Result<(), Fail> {
    on_task(&rt, rt.alloc(), &WALK, |rt, _, task| {
        knows_instances(rt, task);
        knows_atoms(rt, task);
        knows_what_is_fluent(rt, task);
        Ok(())
    })
}

/// The state with these atoms, inserted one after another.
fn state(alloc: Global, rows: &[Application]) -> Result<State, NoMemory> {
    let mut state = State::new(alloc);
    for row in rows {
        state.insert(atom(row.0, row.1))?;
    }
    Ok(state)
}

/// Atoms ordered by predicate and then lexicographically by objects.
#[rattlefmt::skip]
static IN_ORDER: [Application; 5] = [(0, &[1]), (0, &[2]), (1, &[0, 1]), (1, &[0, 2]), (1, &[1, 0])];

/// The same atoms in another order, some of them twice.
#[rattlefmt::skip]
static MIXED: [Application; 7] = [(1, &[1, 0]), (0, &[2]), (1, &[0, 1]), (0, &[2]), (0, &[1]), (1, &[0, 2]), (1, &[1, 0])];

/// Whether the state lists exactly these atoms in this order, and so does its copy.
fn is_listed(state: &State, atoms: &[Atom]) -> Result<bool, NoMemory> {
    let copy = state.try_clone()?;
    Ok(state.atoms().iter().eq(atoms) & (copy == *state))
}

/// Whether the state into which the first atoms were inserted lists the second ones in this order, and so does its copy.
fn lists(alloc: Global, put: &[Application], required: &[Application]) -> Result<bool, NoMemory> {
    let state = state(alloc, put)?;
    is_listed(&state, &atoms(alloc, required)?)
}

/// Whether the states with these atoms are equal.
fn is_one(alloc: Global, some: &[Application], other: &[Application]) -> Result<bool, NoMemory> {
    let some = state(alloc, some)?;
    Ok(some == state(alloc, other)?)
}

#[test]
fn states_are_sets(rt: HostRuntime) -> Result<(), Fail> {
    let alloc = rt.alloc();
    let found = [
        is_one(alloc, &MIXED, &IN_ORDER)?,
        !is_one(alloc, &MIXED, &IN_ORDER[1..])?,
        lists(alloc, &MIXED, &IN_ORDER)?,
        lists(alloc, &IN_ORDER[1..], &IN_ORDER[1..])?,
        lists(alloc, &[], &[])?,
    ];
    assert_eq!(rt; found, [true; 5]);
    Ok(())
}
