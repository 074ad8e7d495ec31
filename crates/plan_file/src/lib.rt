//! Reads and writes plan texts: lists of steps `(action object ..)`.
#![tactic(auto)]

mod reader;
mod steps;
mod text;
mod word;
mod writer;

pub use reader::{examples_are_as_reported, one_fault, one_plan, read_plan};
pub use writer::{examples_are_written, step_text, write_plan, written_text_reads_back};
