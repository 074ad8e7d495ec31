//! From the bytes of files to answers: solve, validate, check and explain, or the first fault.
#![tactic(auto)]

mod checking;
mod explaining;
mod explanation;
mod files;
mod laws;
mod solving;
mod validating;

pub use checking::{CheckInputs, Checked, check_files, check_files_and_say};
pub use explain_faults::FileRefusal;
pub use explain_hints::{File, NamedText};
pub use explain_tasks::Summary;
pub use explaining::{ExplainOptions, ExplainedFiles, StepLines, explain_files};
pub use explanation::{Explanation, FurtherFault, Grounded, Location, Subject};
pub use files::{FileFault, TaskFiles, one_task, plan_of_file, task_of_files};
pub use laws::{solved_certificates_are_accepted, tasks_of_files_are_well_typed};
pub use solving::{Solved, solve_files, solve_files_and_say};
pub use validating::validate_files;
