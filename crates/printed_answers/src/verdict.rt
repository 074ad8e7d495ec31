//! The text of a verdict: a line.
ghost use Rattle.std.specs.Prelude.{◌≡◌, IfOk};
ghost use Rattle.std.specs.String.{string_bytes};
ghost use Rattle.validator.specs.Verdict.{verdict_of};
ghost use Rattle.printed_answers.specs.VerdictReported.{line_of};

use std::alloc::{AllocError, Global};
use validator::Verdict;

/// The line for a verdict. The only error is that an allocation failed.
pub(crate) fn verdict_line(alloc: Global, verdict: Verdict) -> Result<String, AllocError>
    ensures { IfOk result (λ line. string_bytes line ≡ line_of (verdict_of verdict)) }
{
    match verdict {
        Verdict::Valid { cost } => format!(in alloc; "valid cost {cost}\n"),
        Verdict::NotApplicable { step } => format!(in alloc; "not applicable step {step}\n"),
        Verdict::GoalMissed => String::from_str(alloc, "goal missed\n"),
    }
}
