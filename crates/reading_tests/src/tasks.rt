//! Tests of tasks in memory: their names and numbers.
use std::process::Abort;
use std::test::Fail;
use task::{ObjectId, PredicateId, SchemaId, Task, TypeId};
use test_support::{Application, Texts, atom, on_task};

/// Names in mixed case.
const MIXED: Texts = [
    "(define (domain Go) (:predicates (p)) (:action GO :parameters () :effect (P)))",
    "(define (problem g) (:domain gO) (:objects one Two) (:init) (:goal (p)))",
];

/// The number of entities of each kind, and the numbers of names, all in lower case.
fn names_lead_to_numbers(rt: &impl Abort, task: &Task) {
    let objects = (task.object_named(b"two"), task.object_named(b"three"));
    let schemas = (task.schema_named(b"go"), task.schema_named(b"p"));
    let found = (task.object_count(), objects, task.schema_count(), schemas);
    let required = (2, (Some(ObjectId(1)), None), 1, (Some(SchemaId(0)), None));
    assert_eq!(rt; found, required);
}

/// The names of numbers.
fn numbers_lead_to_names(rt: &impl Abort, task: &Task) {
    let objects = (task.object_name(ObjectId(1)), task.object_name(ObjectId(2)));
    let schemas = (task.schema_name(SchemaId(0)), task.schema_name(SchemaId(1)));
    let (two, go) = (Some(b"two".as_slice()), Some(b"go".as_slice()));
    assert_eq!(rt; (objects, schemas), ((two, None), (go, None)));
}

/// A task without declared types has the single type `object`.
fn has_one_type(rt: &impl Abort, task: &Task) {
    let names = (task.type_name(TypeId(0)), task.type_name(TypeId(1)));
    let found = (task.type_count(), task.type_named(b"object"), names);
    let required = (1, Some(TypeId(0)), (Some(b"object".as_slice()), None));
    assert_eq!(rt; found, required);
}

#[test]
fn names_become_numbers(rt: HostRuntime) -> Result<(), Fail> {
    on_task(&rt, rt.alloc(), &MIXED, |rt, _, task| {
        names_lead_to_numbers(rt, task);
        numbers_lead_to_names(rt, task);
        has_one_type(rt, task);
        Ok(())
    })
}

/// Functions of two objects and of none.
const ROADS: Texts = [
    "(define (domain roads) (:predicates (at ?x)) (:functions (total-cost) - number (Len ?x ?y) - number (toll)))",
    "(define (problem r) (:domain roads) (:objects a b)
 (:init (= (LEN a B) 12) (= (toll) 0) (= (total-cost) 0) (= (len A b) 12)) (:goal (and)))",
];

/// The names of functions and their numbers, which are separate from those of predicates.
fn functions_have_names(rt: &impl Abort, task: &Task) {
    let named = (task.function_named(b"len"), task.function_named(b"at"));
    let names = (
        task.function_name(PredicateId(1)),
        task.function_name(PredicateId(3)),
    );
    let required = (
        (Some(PredicateId(1)), None),
        (Some(b"len".as_slice()), None),
    );
    assert_eq!(rt; (named, names), required);
}

/// Functions applied to objects, and their values.
#[rattlefmt::skip]
static VALUES: [(Application, Option<u32>); 5] = [
    ((1, &[0, 1]), Some(12)), ((2, &[]), Some(0)),
    ((1, &[1, 0]), None), ((0, &[]), None), ((3, &[]), None),
];

/// The values of the functions.
fn functions_have_values(rt: &impl Abort, task: &Task) {
    for ((function, objects), value) in &VALUES {
        assert_eq!(rt; task.value(&atom(*function, *objects)), *value);
    }
}

#[test]
fn functions_have_names_and_values(rt: HostRuntime) -> Result<(), Fail> {
    on_task(&rt, rt.alloc(), &ROADS, |rt, _, task| {
        functions_have_names(rt, task);
        functions_have_values(rt, task);
        Ok(())
    })
}
