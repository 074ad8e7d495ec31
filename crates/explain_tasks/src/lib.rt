//! Explains a task: its counts and forms, and what is suspicious: ignored costs, unreachable goals, unused declarations.
#![tactic(auto)]

mod actions;
mod added;
mod conjuncts;
mod costs;
mod forms;
mod ground_notes;
mod inhabited;
mod lacking;
mod mentions;
mod notes;
mod predicates;
mod printing;
mod start_goal;
mod summary;
mod tables;

pub use actions::ActionNotes;
pub use forms::Forms;
pub use ground_notes::{GroundNotes, MOST_FOUND, MOST_NOTES};
pub use notes::TaskNotes;
pub use printing::add_bytes;
pub use summary::Summary;
