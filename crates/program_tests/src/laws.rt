//! The laws of the texts of files and of JSON that are proved for all values, each called once.
use planner_main::{json_examples_are_written, one_task, solved_certificates_are_accepted};

#[test]
fn laws_of_files_are_called() {
    one_task();
    solved_certificates_are_accepted();
    json_examples_are_written();
}
