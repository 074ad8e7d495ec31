//! Exit statuses for reported results.
ghost use Rattle.std.specs.Prelude.{◌≡◌};
ghost use Rattle.printed_answers.specs.Reported.{status_of};
ghost use Rattle.validator.specs.Verdict.{verdict_of};
ghost use Rattle.printed_answers.specs.AnswerReported as answers;
ghost use Rattle.printed_answers.specs.CheckReported as checks;
ghost use Rattle.printed_answers.specs.VerdictReported as verdicts;
ghost use Rattle.printed_answers.specs.ExplanationReported as explanations;

use crate::reports::Report;
use cert_checker::{Accepted, Refusal};
use file_answers::{Grounded, Subject};
use solver::Answer;
use validator::Verdict;

/// A plan is printed, the plan solves the task, the certificate is accepted, or nothing is wrong with the files.
const YES: u8 = 0;

/// There is no plan.
const UNSOLVABLE: u8 = 10;

/// A limit was exceeded.
const UNKNOWN: u8 = 11;

/// The plan does not solve the task, or the certificate is not accepted.
const NO: u8 = 12;

/// A file's text is refused.
pub const REFUSED: u8 = 20;

/// The exit status of a result: 0 for a plan, a plan that solves its task, an accepted certificate, and files without faults; 10
/// if there is no plan; 11 if a limit is exceeded; 12 for a plan that does not solve its task and for a refused certificate; 20
/// for an explained fault.
pub fn status_of(report: &Report) -> u8
    ensures { result ≡ status_of report.now }
{
    match report {
        Report::Solve(solved) => answer_status(&solved.answer),
        Report::Validate(verdict) => verdict_status(*verdict),
        Report::Check(checked) => check_status(&checked.answer),
        Report::Explain(explanation) => explanation_status(explanation.subject),
        Report::ExplainCheck(explained) => check_status(&explained.checked.answer),
    }
}

fn answer_status(answer: &Answer) -> u8
    ensures { result ≡ answers.status_of answer.now }
{
    match answer {
        Answer::Plan { .. } => YES,
        Answer::Unsolvable { .. } => UNSOLVABLE,
        Answer::Unknown(_) => UNKNOWN,
    }
}

fn check_status(answer: &Result<Accepted, Refusal>) -> u8
    ensures { result ≡ checks.status_of answer.now }
{
    match answer {
        Ok(_) => YES,
        Err(_) => NO,
    }
}

fn verdict_status(verdict: Verdict) -> u8
    ensures { result ≡ verdicts.status_of (verdict_of verdict) }
{
    match verdict {
        Verdict::Valid { .. } => YES,
        Verdict::NotApplicable { .. } | Verdict::GoalMissed => NO,
    }
}

fn task_status(grounded: Grounded) -> u8
    ensures { result ≡ explanations.status_of_task grounded }
{
    match grounded {
        Grounded::Within { .. } => YES,
        Grounded::Beyond(_) => UNKNOWN,
    }
}

fn explanation_status(subject: Subject) -> u8
    ensures { result ≡ explanations.status_of subject }
{
    match subject {
        Subject::Fault { .. } => REFUSED,
        Subject::Plan(verdict) => verdict_status(verdict),
        Subject::Task { grounded, .. } => task_status(grounded),
    }
}
