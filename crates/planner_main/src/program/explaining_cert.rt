//! `explain --cert`: the checker's answer to a certificate, in words.
ghost use Rattle.std.specs.Prelude.{◌≡◌, ℕ, false, IfErr, IfOk, IfSome, IsTrue, List, None, Option, ◌∷◌};
ghost use Rattle.devices.specs.Texts.{AreKept};
ghost use Rattle.file_answers.specs.Files.{text_in};
ghost use Rattle.planner_main.specs.Program.{CountsFailure, IsCertExplanationOn, IsCheckOn, IsExplanationOn, IsOneOf, IsUnread, IsWordedCheckOn, fault_in, if_named};

use crate::failures::Failure;
use crate::program::acceptance::{CheckAsked, InputNames, report_of_check};
use crate::program::explaining::{ExplainAsked, report_of_explain};
use crate::program::inputs::PairNames;
use crate::program::validation::verdict_on;
use cert_checker::{Accepted, Refusal, RefusalCode};
use devices::{Files, IoFault, Unheard, read_file};
use explain_certs::{CheckedCert, words_of};
use file_answers::{Checked, ExplainOptions, FileFault, StepLines};
use printed_answers::{ExplainedCheck, Report};
use std::alloc::Global;
use validator::Verdict;

/// What the certificate in a file shows about the task of two files, and about the plan in a third, if one is named; or why it is
/// refused. If a text of the task or of the plan is refused, its first fault is explained.
pub(super) fn report_of_cert<F: Files>(
    alloc: Global,
    asked: CheckAsked<'_>,
    files: &mut F,
) -> Result<Report, Failure>
    ensures report { IfOk result (IsCertExplanationOn (F.contents files.old) asked.entry.names.domain.now asked.entry.names.problem.now asked.entry.names.cert.now (text_in asked.entry.names.plan) asked.entry.instances) }
    // A fault of a text is explained; it is not a failure.
    ensures no_text { IfErr result (λ failure. fault_in failure ≡ None) }
    ensures kept { AreKept (F.contents files.old) (F.contents files.new) }
    ensures unfailed { IfOk result (λ _. F.failures files.new ≡ F.failures files.old) }
    ensures failures { IfErr result (CountsFailure (F.failures files.old) (F.failures files.new)) }
    ensures unread { (name : List ℕ) → IsOneOf (asked.entry.names.domain.now ∷ asked.entry.names.problem.now ∷ asked.entry.names.cert.now ∷ if_named (text_in asked.entry.names.plan)) name
        → IsTrue (F.is_missing files.old name) → IsUnread result }
    ensures unreadable { (name : List ℕ) → IsOneOf (asked.entry.names.domain.now ∷ asked.entry.names.problem.now ∷ if_named (text_in asked.entry.names.plan)) name
        → IsTrue (F.is_unreadable files.old name) → IsUnread result }
{
    match report_of_check(alloc, asked, files, &mut Unheard) {
        Ok(report) => in_words(alloc, asked, report, files),
        Err(failure) => instead_of(alloc, asked, failure, files),
    }
}

/// The same answer, with words beside it. The files are read once more for them.
fn in_words<F: Files>(
    alloc: Global,
    asked: CheckAsked<'_>,
    report: Report,
    files: &mut F,
) -> Result<Report, Failure>
    ensures report { (contents : List ℕ → Option (List ℕ)) (domain problem cert : List ℕ) (plan : Option (List ℕ)) (most : ℕ)
        → IsCheckOn contents domain problem cert plan most report → IfOk result (IsWordedCheckOn contents domain problem cert plan most) }
    ensures no_text { IfErr result (λ failure. fault_in failure ≡ None) }
    ensures kept { AreKept (F.contents files.old) (F.contents files.new) }
    ensures unfailed { IfOk result (λ _. F.failures files.new ≡ F.failures files.old) }
    ensures failures { IfErr result (CountsFailure (F.failures files.old) (F.failures files.new)) }
{
    match report {
        Report::Check(checked) => {
            let words = words_beside(alloc, asked, &checked, files)?;
            Ok(Report::ExplainCheck(ExplainedCheck { checked, words }))
        }
        report => Ok(report),
    }
}

/// What is reported instead of the checker's answer: for the fault of a text its explanation.
fn instead_of<F: Files>(
    alloc: Global,
    asked: CheckAsked<'_>,
    failure: Failure,
    files: &mut F,
) -> Result<Report, Failure>
    ensures report { IfOk result (IsExplanationOn (F.contents files.old) asked.entry.names.domain.now asked.entry.names.problem.now (text_in asked.entry.names.plan) false asked.entry.instances) }
    ensures faulty { fault_in failure ≡ None → IsUnread result }
    ensures no_text { IfErr result (λ failure. fault_in failure ≡ None) }
    ensures kept { AreKept (F.contents files.old) (F.contents files.new) }
    ensures unfailed { (before : ℕ) → CountsFailure before (F.failures files.old) failure → IfOk result (λ _. F.failures files.new ≡ before) }
    ensures failures { (before : ℕ) → CountsFailure before (F.failures files.old) failure → IfErr result (CountsFailure before (F.failures files.new)) }
{
    match failure {
        Failure::Text(FileFault::At { .. }) => explain_inputs(alloc, asked, files),
        Failure::Text(FileFault::NoMemory) => Err(Failure::Device(IoFault::NoMemory)),
        Failure::Device(fault) => Err(Failure::Device(fault)),
    }
}

/// The explanation of the files beside a certificate.
fn explain_inputs<F: Files>(
    alloc: Global,
    asked: CheckAsked<'_>,
    files: &mut F,
) -> Result<Report, Failure>
    ensures report { IfOk result (IsExplanationOn (F.contents files.old) asked.entry.names.domain.now asked.entry.names.problem.now (text_in asked.entry.names.plan) false asked.entry.instances) }
    ensures no_text { IfErr result (λ failure. fault_in failure ≡ None) }
    ensures kept { AreKept (F.contents files.old) (F.contents files.new) }
    ensures unfailed { IfOk result (λ _. F.failures files.new ≡ F.failures files.old) }
    ensures failures { IfErr result (CountsFailure (F.failures files.old) (F.failures files.new)) }
{
    let options = ExplainOptions {
        max_instances: asked.instances,
        steps: StepLines::Costs,
    };
    let explained = ExplainAsked {
        plan: asked.names.plan,
        options,
    };
    report_of_explain(alloc, pair_of(asked.names), explained, files)
}

/// The names of the files of the task.
fn pair_of<'a>(names: InputNames<'a>) -> PairNames<'a>
    ensures domain { result.domain ≡ names.entry.domain }
    ensures problem { result.problem ≡ names.entry.problem }
{
    PairNames {
        domain: names.domain,
        problem: names.problem,
    }
}

/// The words about the checker's answer. No clause says what they mean.
fn words_beside<F: Files>(
    alloc: Global,
    asked: CheckAsked<'_>,
    checked: &Checked,
    files: &mut F,
) -> Result<String, Failure>
    ensures no_text { IfErr result (λ failure. fault_in failure ≡ None) }
    ensures kept { AreKept (F.contents files.old) (F.contents files.new) }
    ensures unfailed { IfOk result (λ _. F.failures files.new ≡ F.failures files.old) }
    ensures failures { IfErr result (CountsFailure (F.failures files.old) (F.failures files.new)) }
{
    let text = refused_text(alloc, asked.names, &checked.answer, files)?;
    let verdict = verdict_beside(alloc, asked.names, &checked.answer, files)?;
    let cert = CheckedCert {
        task: &checked.task,
        text: &text,
        verdict,
        max_instances: asked.instances,
    };
    Ok(words_of(alloc, cert, &checked.answer)?)
}

/// The text of a certificate that is refused. It is empty for one that is accepted: no line of it is shown.
fn refused_text<F: Files>(
    alloc: Global,
    names: InputNames<'_>,
    answer: &Result<Accepted, Refusal>,
    files: &mut F,
) -> Result<Vec<u8>, Failure>
    ensures no_text { IfErr result (λ failure. fault_in failure ≡ None) }
    ensures kept { AreKept (F.contents files.old) (F.contents files.new) }
    ensures unfailed { IfOk result (λ _. F.failures files.new ≡ F.failures files.old) }
    ensures failures { IfErr result (CountsFailure (F.failures files.old) (F.failures files.new)) }
{
    match answer {
        Ok(_) => Ok(Vec::new(alloc)),
        Err(_) => Ok(read_file(alloc, files, names.cert)?),
    }
}

/// The verdict on the plan beside a certificate, if the plan is why the certificate is refused.
fn verdict_beside<F: Files>(
    alloc: Global,
    names: InputNames<'_>,
    answer: &Result<Accepted, Refusal>,
    files: &mut F,
) -> Result<Option<Verdict>, Failure>
    ensures no_text { IfErr result (λ failure. fault_in failure ≡ None) }
    ensures kept { AreKept (F.contents files.old) (F.contents files.new) }
    ensures unfailed { IfOk result (λ _. F.failures files.new ≡ F.failures files.old) }
    ensures failures { IfErr result (CountsFailure (F.failures files.old) (F.failures files.new)) }
{
    let Some(plan) = refused_plan(names, answer) else {
        return Ok(None);
    };
    match verdict_on(alloc, pair_of(names), plan, files) {
        Ok(verdict) => Ok(Some(verdict)),
        Err(failure) => no_verdict(failure),
    }
}

/// The name of the plan file, if the plan is why the certificate is refused.
fn refused_plan<'a>(names: InputNames<'a>, answer: &Result<Accepted, Refusal>) -> Option<&'a str> {
    match answer {
        Err(Refusal::Plain(RefusalCode::PlanInvalid | RefusalCode::PlanDearer)) => names.plan,
        _ => None,
    }
}

/// There is no verdict on a plan whose text is refused; other failures remain.
fn no_verdict(failure: Failure) -> Result<Option<Verdict>, Failure>
    ensures no_text { IfErr result (λ failure. fault_in failure ≡ None) }
    ensures unfailed { (before after : ℕ) → CountsFailure before after failure → IfOk result (λ _. after ≡ before) }
    ensures failures { (before after : ℕ) → CountsFailure before after failure → IfErr result (CountsFailure before after) }
{
    match failure {
        Failure::Text(FileFault::At { .. }) => Ok(None),
        Failure::Text(FileFault::NoMemory) => Err(Failure::Device(IoFault::NoMemory)),
        Failure::Device(fault) => Err(Failure::Device(fault)),
    }
}
