//! The parts of a task.
use crate::atoms::{Atom, TypeId};
use crate::schemas::{Formula, Predicate, Schema};
use indexmap::IndexMap;

/// The parts of a task. Each entry of a table by name is at the index of its number, and its name is in lower case.
pub struct TaskParts {
    /// The types, `object` first, each with all its supertypes (itself included).
    pub types: IndexMap<Vec<u8>, Vec<TypeId>>,
    /// The objects, each with its type.
    pub objects: IndexMap<Vec<u8>, TypeId>,
    /// The predicates.
    pub predicates: IndexMap<Vec<u8>, Predicate>,
    /// The functions by which actions increase the total cost.
    pub functions: IndexMap<Vec<u8>, Predicate>,
    /// The action schemas.
    pub schemas: IndexMap<Vec<u8>, Schema>,
    /// The atoms that are true in the initial state.
    pub init: Vec<Atom>,
    /// The values of functions of objects. The function's number takes the place of the predicate's.
    pub values: IndexMap<Atom, u32>,
    /// The goal.
    pub goal: Formula,
    /// The names of the goal's quantified variables as in the problem, in textual order. They are no part of the meaning.
    pub goal_names: Vec<Vec<u8>>,
    /// Whether the total cost is minimized; otherwise the number of steps is.
    pub has_metric: bool,
}

impl Drop for TaskParts {
    fn drop(self) {
        let Self {
            types: _,
            objects: _,
            predicates: _,
            functions: _,
            schemas: _,
            init: _,
            values: _,
            goal: _,
            goal_names: _,
            has_metric: _,
        } = self;
    }
}
