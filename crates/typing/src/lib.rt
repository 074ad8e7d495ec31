//! Resolves names: a well-typed pair of trees becomes a task, and the faults of any other pair are found.
#![tactic(auto)]

mod actions;
mod chains;
mod declarations;
mod domain;
mod effects;
mod fault;
mod formulas;
mod from_trees;
mod functions;
mod laws;
mod listed;
mod names;
mod objects;
mod resolver;
mod scope;
mod statements;
mod type_names;
mod typed_lists;
mod types;
mod variables;
mod walk;

pub use fault::{PairFault, PairRefusal, TaskFault, TaskRefusal};
pub use from_trees::FromTrees;
pub use laws::{cycles_are_of_ancestors, examples_are_typed, supertypes_are_those_above};
pub use listed::listed_faults;
pub use names::DeclaredObjects;
pub use pddl_tree::TaskFile;
pub use walk::MAX_LISTED;
