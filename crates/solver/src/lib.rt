//! Solves a task: the answer holds of every list of instances, and carries a certificate.
#![tactic(auto)]

mod answer;
mod asked;
mod asking;
mod attempt;
mod by_landmarks;
mod by_tables;
mod fair_guide;
mod fair_tables;
mod guidance;
mod limits;
mod listing;
mod max_version;
mod parts;
mod pauses;
mod reports;
mod searched;
mod setting;
mod stopped;

pub use answer::{Answer, Exceeded, solve, solve_and_say};
pub use limits::{Limits, MAX_LIMIT};
pub use max_version::MaxVersion;
pub use reports::{RaisedBy, Report};
