//! Landmark values over a ground task: which instances may break a zone, whether a value is fair, and the value of a state.
#![tactic(auto)]

mod breaking;
mod counters;
mod cut_index;
mod laws;
mod makers;
mod testing;
mod values;

pub use breaking::may_break;
pub use cut_index::CutIndex;
pub use laws::kept_landmarks_are_sorted;
pub use testing::Fairness;
pub use values::{is_whole, is_worth, value_in};
