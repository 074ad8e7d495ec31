//! The whole program over any files, and the library's public interface.
#![tactic(auto)]

mod failures;
mod program;

pub use cert_checker::{Accepted, Refusal, RefusalCode};
pub use command_line::{CertVersion, MaxCount, Order, WordsFault, read_words};
pub use devices::{Files, SystemFiles};
pub use failures::report_no_memory;
pub use file_answers::{
    CheckInputs, Checked, ExplainOptions, ExplainedFiles, Explanation, File, FileFault, Grounded,
    Location, NamedText, Solved, StepLines, Subject, Summary, TaskFiles, check_files,
    explain_files, one_task, solve_files, solved_certificates_are_accepted,
    tasks_of_files_are_well_typed, validate_files,
};
pub use printed_answers::{Report, json_examples_are_written, json_line};
pub use program::run;
pub use solver::{Answer, Exceeded, Limits, MaxVersion};
pub use validator::Verdict;
