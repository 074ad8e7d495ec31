//! What the lines of a search's found states say, by the values of all states or by landmark values, and the test that it is so.
#![tactic(auto)]

mod marked;
mod sampled;
mod shown;

pub use marked::{Marked, tested_marks};
pub use sampled::{Budget, Paused, budget_for_trial, pays};
