//! The text of the checker's answer: a line.
ghost use Rattle.std.specs.Prelude.{◌≡◌, IfOk, IsTrue};
ghost use Rattle.std.specs.String.{string_bytes};
ghost use Rattle.task.specs.Task.{task_of};
ghost use Rattle.formulas.specs.State.{instance_of};
ghost use Rattle.printed_answers.specs.CheckReported.{IsReportedRefusal, accepted_line, failure_of, instance_refused, line_of, line_refused, plain_refused};
ghost use Rattle.model.specs.PlanWriting.{has_names};

use cert_checker::{Accepted, Refusal, RefusalCode};
use devices::IoFault;
use faults::NoMemory;
use formulas::Instance;
use plan_file::step_text;
use std::alloc::{AllocError, Global};
use task::Task;

/// Why there is nothing to report for a certificate: its device failed, or an allocation failed. `None` if there is an answer to
/// report.
pub fn failure_of(answer: &Result<Accepted, Refusal>) -> Option<IoFault>
    ensures { result ≡ failure_of answer.now }
{
    match answer {
        Ok(_) => None,
        Err(Refusal::Line { .. } | Refusal::Unfair(_) | Refusal::DeadUnfair(_)) => None,
        Err(Refusal::Plain(_)) => None,
        Err(Refusal::Device) => Some(IoFault::Device),
        // The reader is new, so it has reported no fault yet.
        Err(Refusal::NoMemory | Refusal::Failed) => Some(IoFault::NoMemory),
    }
}

/// The line for the checker's answer. The only error, here and in the functions below, is that an allocation failed.
pub(crate) fn checked_line(
    alloc: Global,
    task: &Task,
    answer: &Result<Accepted, Refusal>,
) -> Result<String, AllocError>
    requires names { IsTrue (has_names (task_of task.now)) }
    requires said { IsReportedRefusal answer.now }
    ensures { IfOk result (λ line. string_bytes line ≡ line_of (task_of task.now) answer.now) }
{
    match answer {
        Ok(accepted) => accepted_line(alloc, *accepted),
        Err(Refusal::Line { code, line }) => line_refused(alloc, *code, *line),
        Err(Refusal::Unfair(step)) => instance_refused(alloc, RefusalCode::Unfair, task, step),
        Err(Refusal::DeadUnfair(step)) => {
            instance_refused(alloc, RefusalCode::DeadUnfair, task, step)
        }
        Err(Refusal::Plain(code)) => plain_refused(alloc, *code),
        Err(Refusal::NoMemory | Refusal::Device | Refusal::Failed) => unreachable!(),
    }
}

/// The line for what a certificate shows.
fn accepted_line(alloc: Global, accepted: Accepted) -> Result<String, AllocError>
    ensures { IfOk result (λ line. string_bytes line ≡ accepted_line accepted) }
{
    match accepted {
        Accepted::Optimal { cost } => format!(in alloc; "optimal cost {cost}\n"),
        Accepted::AtLeast { cost } => format!(in alloc; "at least {cost}\n"),
        Accepted::Unsolvable => String::from_str(alloc, "unsolvable\n"),
    }
}

/// The line for a refusal at a line.
fn line_refused(alloc: Global, code: RefusalCode, line: u64) -> Result<String, AllocError>
    ensures { IfOk result (λ said. string_bytes said ≡ line_refused code line) }
{
    let number = code.number();
    let name = code.name();
    format!(in alloc; "not accepted {number} {name} line {line}\n")
}

/// The line for an instance that may lose more than allowed.
fn instance_refused(
    alloc: Global,
    code: RefusalCode,
    task: &Task,
    step: &Instance,
) -> Result<String, AllocError>
    requires { IsTrue (has_names (task_of task.now)) }
    ensures { IfOk result (λ said. string_bytes said ≡ instance_refused code (task_of task.now) (instance_of step.now)) }
{
    let number = code.number();
    let name = code.name();
    match step_text(alloc, task, step) {
        Ok(step) => format!(in alloc; "not accepted {number} {name} {step}\n"),
        Err(NoMemory) => Err(AllocError),
    }
}

/// The line for a refusal that is not at a line.
fn plain_refused(alloc: Global, code: RefusalCode) -> Result<String, AllocError>
    ensures { IfOk result (λ said. string_bytes said ≡ plain_refused code) }
{
    let number = code.number();
    let name = code.name();
    format!(in alloc; "not accepted {number} {name}\n")
}
