//! Explanations of files.
ghost use Rattle.std.specs.Prelude.{◌≡◌, ◌-◌, IfOk};
ghost use Rattle.std.specs.String.{string_bytes};
ghost use Rattle.file_answers.specs.ExplanationLines.{place_in};

use explain_faults::FileRefusal;
use explain_hints::{File, LineColumn};
use explain_tasks::Summary;
use faults::{Code, Span};
use grounding_instances::GroundLimit;
use std::alloc::{AllocError, Global};
use validator::Verdict;

/// An explanation of some files, for people.
#[derive(Drop)]
pub struct Explanation {
    /// Its subject.
    pub subject: Subject,
    /// The explanation as lines, each with LF.
    pub text: String,
    /// The place of a fault, or of the first inapplicable step.
    pub location: Option<Location>,
    /// Hints beside a fault's sentence, each without LF.
    pub hints: Vec<String>,
    /// Further faults of the domain and the problem.
    pub further: Vec<FurtherFault>,
    /// Notes on what looks wrong with a task, a line each, without LF.
    pub notes: Vec<String>,
}

/// A further fault.
pub struct FurtherFault {
    /// The refusal and its place.
    pub fault: FileRefusal,
    /// The explanation as lines, each with LF.
    pub text: String,
}

impl Drop for FurtherFault {
    fn drop(self) {
        let Self { fault: _, text: _ } = self;
    }
}

/// A place in a file, as an editor shows it.
pub struct Location {
    /// The name of the file, as given.
    pub file: String,
    /// The number of the line, from 1.
    pub line: usize,
    /// The number of the first byte in its line, from 1.
    pub column: usize,
    /// Its length in bytes.
    pub length: usize,
}

impl Drop for Location {
    fn drop(self) {
        let Self {
            file: _,
            line: _,
            column: _,
            length: _,
        } = self;
    }
}

impl Location {
    /// The location of a span in the file with this name; its first byte is at this place.
    ///
    /// # Errors
    /// An allocation failed.
    pub(crate) fn new(
        alloc: Global,
        name: &str,
        place: LineColumn,
        span: Span,
    ) -> Result<Location, AllocError>
        ensures file { IfOk result (λ at. string_bytes at.file ≡ name.now) }
        ensures place { IfOk result (λ at. place_in at ≡ place) }
        ensures length { IfOk result (λ at. at.length ≡ span.end - span.start) }
    {
        Ok(Location {
            file: String::from_str(alloc, name)?,
            line: place.line,
            column: place.column,
            length: span.end.saturating_sub(span.start),
        })
    }
}

/// The subject of an explanation.
#[derive(Clone, Copy, Debug, PartialEq, Eq)]
pub enum Subject {
    /// The first fault: the refused file, the code and the place.
    Fault {
        /// The file that the place is in.
        file: File,
        /// What is wrong.
        code: Code,
        /// Where it is, in bytes.
        span: Span,
    },
    /// The plan, with its verdict.
    Plan(Verdict),
    /// The task of two files, if no plan is given.
    Task {
        /// Its summary.
        holds: Summary,
        /// The outcome of grounding.
        grounded: Grounded,
    },
}

/// The outcome of grounding a task.
#[derive(Clone, Copy, Debug, PartialEq, Eq)]
pub enum Grounded {
    /// It is within the limits.
    Within {
        /// The number of kept instances.
        instances: usize,
        /// The number of numbered atoms.
        atoms: u32,
    },
    /// It would exceed this limit.
    Beyond(GroundLimit),
}
