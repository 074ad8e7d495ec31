//! Explains why a task has no plan: atoms of the goal that are never true, or never both true, and contradictions.
#![tactic(auto)]

mod chains;
mod contradictions;
mod exclusive;
mod goal_notes;
mod laws;
mod mutex_groups;
mod needs;
mod printing;
mod reached;
mod relaxation;

pub use exclusive::Exclusive;
pub use goal_notes::{GoalNotes, MOST_FOUND, MOST_NOTES, Unreachable};
pub use laws::{
    closed_sets_are_invariants, contradictory_goals_are_unsolvable, exclusive_goals_are_unsolvable,
    never_true_goals_are_unsolvable,
};
