//! Why a pair of a domain and a problem is not a task.
ghost use Rattle.std.specs.Prelude.{◌≡◌};
ghost use Rattle.typing.specs.Refusals.{refusal_of};
ghost use Rattle.model.specs.Typing.{is_before};

use faults::{RefusalIn, Refused};
use pddl_tree::TaskFile;

/// A pair of a domain and a problem is not well-typed: the refused file, the code and the place.
pub type TaskRefusal = RefusalIn<TaskFile>;

/// Why a pair of a domain and a problem is not a task.
pub type TaskFault = Refused<TaskRefusal>;

/// The faults of a pair that is not well-typed.
#[derive(Debug, Drop)]
pub struct PairRefusal {
    /// The least fault.
    pub first: TaskRefusal,
    /// The first [`MAX_LISTED`](crate::MAX_LISTED) faults, in the order in which they were found.
    pub listed: Vec<TaskRefusal>,
}

/// Why a pair of a domain and a problem is not a task, with all faults.
pub type PairFault = Refused<PairRefusal>;

/// Whether a fault is reported before another: the domain before the problem, then the least start, then the lower number.
pub(crate) fn precedes(fault: &TaskRefusal, other: &TaskRefusal) -> bool
    ensures { result ≡ is_before (refusal_of fault.now) (refusal_of other.now) }
{
    if fault.file != other.file {
        fault.file == TaskFile::Domain
    } else if fault.span.start != other.span.start {
        fault.span.start < other.span.start
    } else {
        fault.code.number() < other.code.number()
    }
}
