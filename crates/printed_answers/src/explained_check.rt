//! The checker's answer to a certificate, with words beside it.
ghost use Rattle.std.specs.Prelude.{◌≡◌, IfOk, IsTrue};
ghost use Rattle.std.specs.String.{string_bytes};
ghost use Rattle.task.specs.Task.{task_of};
ghost use Rattle.printed_answers.specs.CheckReported.{IsReportedRefusal};
ghost use Rattle.printed_answers.specs.ExplainedCheckReported.{of_accepted, of_answer, of_explained_check, of_refused, text_of};
ghost use Rattle.printed_answers.specs.JsonText.{object_text};

use crate::check::checked_line;
use crate::members::{Member, object_text};
use cert_checker::{Accepted, Refusal, RefusalCode};
use file_answers::Checked;
use std::alloc::{AllocError, Global};

/// The checker's answer to a certificate, with words beside it.
pub struct ExplainedCheck {
    /// The task, and the checker's answer.
    pub checked: Checked,
    /// What the answer means, in lines, each with LF.
    pub words: String,
}

impl Drop for ExplainedCheck {
    fn drop(self) {
        let Self {
            checked: _,
            words: _,
        } = self;
    }
}

/// The line of the answer, and the words. The only error, here and in the functions below, is that an allocation failed.
pub(crate) fn explained_text(
    alloc: Global,
    explained: &ExplainedCheck,
) -> Result<String, AllocError>
    requires { IsReportedRefusal explained.now.checked.answer }
    ensures { IfOk result (λ text. string_bytes text ≡ text_of explained.now) }
{
    let checked = &explained.checked;
    let mut text = checked_line(alloc, &checked.task, &checked.answer)?;
    text.push_str(explained.words.as_str())?;
    Ok(text)
}

/// The object of the answer, with its text.
pub(crate) fn explained_object(
    alloc: Global,
    explained: &ExplainedCheck,
) -> Result<String, AllocError>
    requires { IsReportedRefusal explained.now.checked.answer }
    ensures { IfOk result (λ text. string_bytes text ≡ object_text (of_explained_check explained.now)) }
{
    let text = explained_text(alloc, explained)?;
    answer_object(alloc, &explained.checked.answer, text.as_str())
}

/// The object of an answer, with this text.
fn answer_object(
    alloc: Global,
    answer: &Result<Accepted, Refusal>,
    lines: &str,
) -> Result<String, AllocError>
    requires { IsReportedRefusal answer.now }
    ensures { IfOk result (λ text. string_bytes text ≡ object_text (of_answer answer.now lines.now)) }
{
    match answer {
        Ok(accepted) => accepted_object(alloc, *accepted, lines),
        Err(Refusal::Line { code, .. }) => refused_object(alloc, *code, lines),
        Err(Refusal::Unfair(_)) => refused_object(alloc, RefusalCode::Unfair, lines),
        Err(Refusal::DeadUnfair(_)) => refused_object(alloc, RefusalCode::DeadUnfair, lines),
        Err(Refusal::Plain(code)) => refused_object(alloc, *code, lines),
        Err(Refusal::NoMemory | Refusal::Device | Refusal::Failed) => unreachable!(),
    }
}

/// The object of an accepted certificate.
fn accepted_object(alloc: Global, accepted: Accepted, lines: &str) -> Result<String, AllocError>
    ensures { IfOk result (λ text. string_bytes text ≡ object_text (of_accepted accepted lines.now)) }
{
    let command = Member::text("command", "explain");
    let text = Member::text("text", lines);
    match accepted {
        Accepted::Optimal { cost } => {
            let cost = Member::number("cost", cost);
            let result = Member::text("result", "optimal");
            object_text(alloc, &[command, cost, result, text])
        }
        Accepted::AtLeast { cost } => {
            let cost = Member::number("cost", cost);
            let result = Member::text("result", "at least");
            object_text(alloc, &[command, cost, result, text])
        }
        Accepted::Unsolvable => {
            let result = Member::text("result", "unsolvable");
            object_text(alloc, &[command, result, text])
        }
    }
}

/// The object of a refused certificate.
fn refused_object(alloc: Global, code: RefusalCode, lines: &str) -> Result<String, AllocError>
    ensures { IfOk result (λ text. string_bytes text ≡ object_text (of_refused code lines.now)) }
{
    let numbered = Member::number("code", u64::from(code.number()));
    let command = Member::text("command", "explain");
    let named = Member::text("name", code.name());
    let result = Member::text("result", "not accepted");
    let text = Member::text("text", lines);
    object_text(alloc, &[numbered, command, named, result, text])
}
