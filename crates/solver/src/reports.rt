//! Reports of progress: lines of `key=value`, for scripts.
ghost use Rattle.std.specs.Prelude.{◌≡◌, ℕ, IfOk, OnOk, Option};
ghost use Rattle.std.specs.String.{string_bytes};
ghost use Rattle.devices.specs.Devices.{IsWritten};
ghost use Rattle.devices.specs.Progress.{MayContinue};
ghost use Rattle.solver.specs.Said.{IsTrueLine, IsTrueReport, line_of};
ghost use Rattle.model.specs.Task.{Task};

use devices::{Sink, say_line};
use faults::NoMemory;
use std::alloc::{AllocError, Global};

/// A report of progress.
#[derive(Clone, Copy, Debug, PartialEq, Eq)]
pub enum Report {
    /// The ground task is made.
    Ground {
        /// The number of kept instances.
        instances: usize,
        /// The number of numbered atoms.
        atoms: usize,
    },
    /// A search is under way.
    Search {
        /// A lower bound of every plan's cost.
        bound: u64,
        /// The number of listed states.
        listed: usize,
        /// The number of expanded states.
        expanded: usize,
    },
    /// A limit is exceeded, which an option raises.
    Limit(RaisedBy),
    /// The answer has a certificate.
    End {
        /// The number of states that the certificate lists.
        listed: usize,
        /// The number of open ones: these were expanded.
        expanded: usize,
    },
}

/// The option that raises a limit.
#[derive(Clone, Copy, Debug, PartialEq, Eq)]
pub enum RaisedBy {
    /// The limit of listed states.
    States,
    /// The limit of kept instances.
    Instances,
    /// The limit of time.
    Seconds,
}

impl Report {
    /// The report's line.
    fn line(self, alloc: Global) -> Result<String, AllocError>
        ensures { IfOk result (λ line. string_bytes line ≡ line_of self) }
    {
        match self {
            Report::Ground { instances, atoms } => {
                format!(in alloc; "progress=ground instances={instances} atoms={atoms}\n")
            }
            Report::Search {
                bound,
                listed,
                expanded,
            } => {
                format!(in alloc;
                    "progress=search bound={bound} listed={listed} expanded={expanded}\n"
                )
            }
            Report::Limit(RaisedBy::States) => {
                format!(in alloc; "progress=limit raise=--states\n")
            }
            Report::Limit(RaisedBy::Instances) => {
                format!(in alloc; "progress=limit raise=--instances\n")
            }
            Report::Limit(RaisedBy::Seconds) => {
                format!(in alloc; "progress=limit raise=--seconds\n")
            }
            Report::End { listed, expanded } => {
                format!(in alloc; "progress=end listed={listed} expanded={expanded}\n")
            }
        }
    }
}

/// Writes the report's line. A failing sink may have taken a part of the line; nothing else changes.
///
/// # Errors
/// Memory for the line is refused. Nothing is written.
pub(crate) fn say<E: Sink>(alloc: Global, report: Report, err: &mut E) -> Result<(), NoMemory>
    ensures said { (task : Task) (seconds : Option ℕ) (states instances : ℕ) → IsTrueReport task seconds states instances report → MayContinue (IsTrueLine task seconds states instances) E.may_lack_memory (E.failures err.old) (E.taken err.old) (E.failures err.new) (E.taken err.new) }
    ensures written { OnOk result (IsWritten E.may_lack_memory (E.failures err.old) (E.failures err.new) (E.taken err.old) (E.taken err.new) (line_of report)) }
{
    match report.line(alloc) {
        Ok(line) => {
            say_line(err, line.as_bytes());
            Ok(())
        }
        Err(AllocError) => Err(NoMemory),
    }
}
