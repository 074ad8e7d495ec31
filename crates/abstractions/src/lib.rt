//! Abstractions of a task: groups of atoms as variables, and the reachable rows of tables over them.
//!
//! A group seems to be mutually exclusive. Nothing is claimed about it: users must find out which of its atoms may be true together.
//!
//! A table is over some variables, and a row gives the value of each. Conditions and changes of instances on other variables are
//! ignored (a projection; Edelkamp 2001, "Planning with Pattern Databases"). Nothing is claimed about the result.
#![tactic(auto)]

mod adders;
mod by_counting;
mod classes;
mod families;
mod goals;
mod groups;
mod growing;
mod lists;
mod mentioned;
mod numbers;
mod reached;
mod row_graph;
mod steps;
mod transitions;
mod variables;

pub use goals::GoalValues;
pub use groups::{AtomGroup, found_groups};
pub use numbers::{number_of, place_of};
pub use reached::{MAX_TABLE_VARIABLES, Reaching, RowLimits, VariableTask};
pub use row_graph::{Arc, InstanceClass, RowGraph};
pub use steps::{Shutters, Steps};
pub use variables::{VariableValue, Variables};
