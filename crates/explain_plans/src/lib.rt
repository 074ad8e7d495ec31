//! Explains a plan: why it fails, or what each step costs, adds and deletes.
#![tactic(auto)]

mod explanations;
mod false_parts;
mod formula_text;
mod histories;
mod printing;
mod step_places;
mod trace;
mod variable_names;

pub use explanations::{PlanExplanation, Reasons, explain_plan};
pub use false_parts::{MOST_REPORTED, Part, false_parts_report};
pub use histories::History;
pub use printing::{report_details, report_verdict};
pub use step_places::step_place;
pub use trace::report_trace;
