//! Which words may stand at a place of a file: those that the reader of `pddl_tree` does not refuse there.
#![tactic(auto)]

mod candidates;
mod refusals;

pub use candidates::expected;
pub use refusals::refused;
