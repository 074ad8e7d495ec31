//! Prints answers as text or as a line of JSON, and determines the exit status.
#![tactic(auto)]

mod answer;
mod check;
mod explained_check;
mod explanations;
mod members;
mod objects;
mod reports;
mod statuses;
mod verdict;

pub use check::failure_of;
pub use explained_check::ExplainedCheck;
pub use members::json_examples_are_written;
pub use reports::{Format, Report, json_line, json_text, report_text, said};
pub use statuses::{REFUSED, status_of};
