//! The ground task: what the task does, by numbers of instances and atoms, over states that are bits.
//!
//! A formula is evaluated only if its sure literals do not decide it.
#![tactic(auto)]

mod changes;
mod condition;
mod ground;
mod instances;
mod laws;
mod match_tree;
mod often;
mod outright;
mod parts;
mod settled;
mod state_view;
mod steps;
mod tree_builder;
mod unnumbered;
mod watch_lists;

pub use changes::CountingChange;
pub use ground::Ground;
pub use grounding_instances::{GroundFault, GroundLimit, NumberedLiteral};
pub use instances::instance_count;
pub use laws::{
    atoms_are_numbered, ground_task_is_bisimilar, ground_task_solves_alike,
    grounding_examples_are_judged, numbered_literals_hold, only_counting_changes_are_made,
    packs_states, statically_false_is_not_applicable,
};
