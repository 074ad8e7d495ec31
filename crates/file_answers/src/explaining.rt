//! From the bytes of files to their explanation.
ghost use Rattle.std.specs.Prelude.{◌≡◌, [], IfOk, IfSome};
ghost use Rattle.std.specs.Option.{option_map_or};
ghost use Rattle.explain_hints.specs.declared.texts.NamedText.{NamedText};
ghost use Rattle.file_answers.specs.ExplanationLines.{IsSaidOf, files_of};
ghost use Rattle.file_answers.specs.Explanations.{IsTrueOf, text_in};
ghost use Rattle.file_answers.specs.Notes.{AreNoted};
ghost use Rattle.file_answers.specs.StepLines.{is_traced};

mod further;
mod of_fault;
mod of_plan;
mod of_task;
mod step_lines;

use crate::explanation::Explanation;
use crate::files::task_of_files;
use explain_hints::{NamedText, NamedTexts};
use faults::NoMemory;
use of_fault::explain_refused;
use of_plan::explain_plan_file;
use of_task::explain_task;
use std::alloc::Global;
pub use step_lines::StepLines;

/// The files that are explained.
#[derive(Clone, Copy)]
pub struct ExplainedFiles<'a> {
    /// The domain file.
    pub domain: NamedText<'a>,
    /// The problem file.
    pub problem: NamedText<'a>,
    /// The plan file, if one is given.
    pub plan: Option<NamedText<'a>>,
}

/// What is asked of an explanation.
#[derive(Clone, Copy)]
pub struct ExplainOptions {
    /// The maximum number of instances that may be kept.
    pub max_instances: u32,
    /// What is said of the steps of the plan, if one is given.
    pub steps: StepLines,
}

/// Explains a domain file and a problem file, and a plan file if one is given.
///
/// The domain is scanned and parsed, then the problem; then both are typed together, and the plan is read. The first fault is
/// explained. Without a fault it is the plan, or without a plan the task, whose grounding may keep at most
/// `options.max_instances` instances.
///
/// # Errors
/// An allocation failed, which says nothing about the files.
///
/// # Examples
/// ```text
/// domain.pddl:12:27: error: `?t` has type `thing`, but `fast` requires `car` [19 WrongType]
///   12 |       :precondition (and (fast ?t))
///      |                                ^^
/// ```
pub fn explain_files(
    alloc: Global,
    files: ExplainedFiles<'_>,
    options: ExplainOptions,
) -> Result<Explanation, NoMemory>
    ensures subject { IfOk result (λ e. IsTrueOf files.entry.domain.text.now files.entry.problem.text.now (text_in files.entry.plan) options.max_instances e.subject) }
    // The notes on a task are all that are found, in order, up to the numbers that are written.
    ensures noted { IfOk result (AreNoted files.entry.domain.text.now files.entry.problem.text.now options.max_instances) }
    // The lines give the explanation, and the location is that of the fault or the step.
    ensures said { IfOk result (IsSaidOf (is_traced options.steps) (files_of files.entry.domain files.entry.problem files.entry.plan)) }
{
    let texts = texts_of(files);
    let task = match task_of_files(alloc, files.domain.text, files.problem.text) {
        Ok(task) => task,
        Err(fault) => return explain_refused(alloc, &texts, fault),
    };
    match files.plan {
        Some(_) => explain_plan_file(alloc, &task, &texts, options.steps),
        None => explain_task(alloc, &task, options.max_instances),
    }
}

/// The texts in which a fault is looked up. The plan's text is empty if no plan is given.
fn texts_of<'a>(files: ExplainedFiles<'a>) -> NamedTexts<'a>
    ensures domain { result.domain ≡ files.entry.domain }
    ensures problem { result.problem ≡ files.entry.problem }
    ensures plan { IfSome files.entry.plan (λ named. result.plan ≡ named) }
    ensures text { result.plan.text.now ≡ option_map_or (λ (named : NamedText). named.text.now) files.entry.plan [] }
{
    let nothing = NamedText {
        name: "",
        text: b"",
    };
    NamedTexts {
        domain: files.domain,
        problem: files.problem,
        plan: files.plan.unwrap_or(nothing),
    }
}
