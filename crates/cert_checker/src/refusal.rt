//! Why a certificate is refused.
ghost use Rattle.std.specs.Prelude.{◌≡◌};
ghost use Rattle.cert_checker.specs.CertFaults.{text_refusal};

use certificate::{CertFault, TextFault};
use faults::NoMemory;
use formulas::Instance;
use std::alloc::AllocFailed;
use std::fmt;

/// What is wrong with a certificate, or with the plan given with it. The discriminant is the number that the program prints.
#[derive(Clone, Copy, Debug, PartialEq, Eq, Drop)]
pub enum RefusalCode {
    /// A line that is invalid at its place or too long, or a byte after the last line.
    CertForm = 40,
    /// A first line for another version.
    CertVersion = 41,
    /// The text ends before its last line does.
    Truncated = 42,
    /// An atom that is not well-typed, or whose predicate no action changes.
    NotFluent = 43,
    /// An atom, a state, or a row of a table, that occurred in an earlier line.
    Repeated = 44,
    /// The initial state is not listed at cost 0.
    NoInitial = 45,
    /// An instance may make the potential function fall by more than its cost.
    Unfair = 46,
    /// The potential function may exceed 0 in a goal state.
    UnfairGoal = 47,
    /// An expanded state satisfies the goal at a cost that contradicts the claim.
    GoalOpen = 48,
    /// A successor of an expanded state is not listed.
    SuccessorMissing = 49,
    /// A successor of an expanded state is listed at more than the expanded state's cost plus that of the instance.
    SuccessorDearer = 50,
    /// A cut's bound exceeds the state's value, or does not reach the claim.
    CutWeak = 51,
    /// A cut although the claim is that no plan solves the task.
    CutNotAllowed = 52,
    /// The plan does not solve the task.
    PlanInvalid = 53,
    /// The plan costs more than the claim.
    PlanDearer = 54,
    /// More atoms or states than allowed; or the ground task would keep more instances than the limit, or number more than
    /// 1,048,576 atoms.
    Limit = 55,
    /// An instance may make the potential function for dead ends fall.
    DeadUnfair = 56,
    /// The potential function for dead ends may exceed 0 in a goal state.
    DeadUnfairGoal = 57,
    /// A state listed as a dead end whose dead-end value is less than 1.
    NotDead = 58,
    /// An exchange of objects that is not a symmetry of the task, or that maps a numbered atom to one without a number.
    NotSymmetry = 59,
    /// A landmark value charges an instance more than it costs, or has a zone without a literal of the goal.
    ValueUnfair = 62,
    /// A dead end rests on a landmark value that charges an instance something, or has a zone without a literal of the goal.
    ValueNotDead = 63,
}

impl RefusalCode {
    ghost use Rattle.std.specs.Prelude.{◌≡◌};
    ghost use Rattle.cert_checker.specs.RefusalCode.{name_of, number_of};

    /// The number that the program prints.
    pub fn number(self) -> u8
        ensures { result ≡ number_of self }
    {
        self as u8
    }

    /// The name that the program prints beside the number: the variant's name.
    pub fn name(self) -> &'static str
        ensures { result.now ≡ name_of self }
    {
        match self {
            RefusalCode::CertForm => "CertForm",
            RefusalCode::CertVersion => "CertVersion",
            RefusalCode::Truncated => "Truncated",
            RefusalCode::NotFluent => "NotFluent",
            RefusalCode::Repeated => "Repeated",
            RefusalCode::NoInitial => "NoInitial",
            RefusalCode::Unfair => "Unfair",
            RefusalCode::UnfairGoal => "UnfairGoal",
            RefusalCode::GoalOpen => "GoalOpen",
            RefusalCode::SuccessorMissing => "SuccessorMissing",
            RefusalCode::SuccessorDearer => "SuccessorDearer",
            RefusalCode::CutWeak => "CutWeak",
            RefusalCode::CutNotAllowed => "CutNotAllowed",
            RefusalCode::PlanInvalid => "PlanInvalid",
            RefusalCode::PlanDearer => "PlanDearer",
            RefusalCode::Limit => "Limit",
            RefusalCode::DeadUnfair => "DeadUnfair",
            RefusalCode::DeadUnfairGoal => "DeadUnfairGoal",
            RefusalCode::NotDead => "NotDead",
            RefusalCode::NotSymmetry => "NotSymmetry",
            RefusalCode::ValueUnfair => "ValueUnfair",
            RefusalCode::ValueNotDead => "ValueNotDead",
        }
    }
}

impl fmt::Display for RefusalCode {
    fn fmt<W: fmt::Write>(&self, f: &mut fmt::Formatter<W>) -> fmt::Result {
        write!(f, "{}", self.name())
    }
}

/// Why a certificate, or the plan given with it, is refused.
#[derive(Drop)]
pub enum Refusal {
    /// A line of the certificate is wrong.
    Line {
        /// What is wrong.
        code: RefusalCode,
        /// The line of the text, counted from 1.
        line: u64,
    },
    /// The first instance that may lose more than its cost.
    Unfair(Instance),
    /// The first instance that may make the potential function for dead ends fall.
    DeadUnfair(Instance),
    /// Wrong, but not at a particular line; or the text has too many lines of some kind.
    Plain(RefusalCode),
    /// An allocation failed.
    NoMemory,
    /// The device failed.
    Device,
    /// The reader reported a fault before.
    Failed,
}

/// The refusal of a text for this fault at this line. A limit is reported without its line.
fn text_refusal(fault: TextFault, line: u64) -> Refusal
    ensures { result ≡ text_refusal fault line }
{
    match fault {
        TextFault::Form => Refusal::Line {
            code: RefusalCode::CertForm,
            line,
        },
        TextFault::Version => Refusal::Line {
            code: RefusalCode::CertVersion,
            line,
        },
        TextFault::Truncated => Refusal::Line {
            code: RefusalCode::Truncated,
            line,
        },
        TextFault::Limit => Refusal::Plain(RefusalCode::Limit),
    }
}

impl From<CertFault> for Refusal {
    ghost use Rattle.std.specs.Prelude.{◌≡◌};
    ghost use Rattle.cert_checker.specs.CertFaults.{refusal_of};

    ghost from_gives = { λ fault given. given ≡ refusal_of fault };

    fn from(fault: CertFault) -> Refusal {
        match fault {
            CertFault::Line { code, line } => text_refusal(code, line),
            CertFault::Device => Refusal::Device,
            CertFault::NoMemory => Refusal::NoMemory,
            CertFault::Failed => Refusal::Failed,
        }
    }
}

impl From<NoMemory> for Refusal {
    ghost use Rattle.std.specs.Prelude.{◌≡◌};
    ghost use Rattle.cert_checker.specs.declared.refusal.Refusal.TheVariants.{NoMemory};

    ghost from_gives = { λ _ e. e ≡ NoMemory };

    fn from(_error: NoMemory) -> Refusal {
        Refusal::NoMemory
    }
}

impl<T: Drop> From<AllocFailed<T>> for Refusal {
    ghost use Rattle.std.specs.Prelude.{◌≡◌};
    ghost use Rattle.cert_checker.specs.declared.refusal.Refusal.TheVariants.{NoMemory};

    ghost from_gives = { λ _ e. e ≡ NoMemory };

    fn from(_error: AllocFailed<T>) -> Refusal {
        Refusal::NoMemory
    }
}
