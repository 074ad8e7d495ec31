//! Potential functions in memory: their values, and the test of fairness.
#![tactic(auto)]

mod allowance;
mod fairness;
mod goals;
mod laws;
mod losses;
mod potentials;
mod range;
mod said;
mod swing;
mod words;

pub use allowance::Allowance;
pub use fairness::Fairness;
pub use goals::GoalAtoms;
pub use laws::ground_atoms_are_numberable;
pub use losses::loses_at_most;
pub use potentials::{Potentials, or_zero};
pub use range::{MAX_WEIGHT, is_in_range};
pub use said::Said;
pub use swing::{Swing, touches};
