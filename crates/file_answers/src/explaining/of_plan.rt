//! Explains a plan file.
ghost use Rattle.std.specs.Prelude.{◌≡◌, ◌++◌, ℕ, IfOk, IfSome, IsTrue, List, Some};
ghost use Rattle.std.specs.List.{list_all};
ghost use Rattle.std.specs.String.{string_bytes};
ghost use Rattle.task.specs.Task.{task_of, variable_names_of};
ghost use Rattle.formulas.specs.State.{plan_of};
ghost use Rattle.validator.specs.Verdict.{verdict_of};
ghost use Rattle.explain_plans.specs.Explanations as plans;
ghost use Rattle.file_answers.specs.StepLines.{is_traced};
ghost use Rattle.file_answers.specs.QuantifiedNames.{IsNamedTask};
ghost use Rattle.file_answers.specs.ExplanationLines.{IsSaidOf, SayPlan, SayPlanAs, SayVerdict, named_of, place_text};
ghost use Rattle.file_answers.specs.Explanations.{IsLocatedIf, IsStepFound, IsStepOf, IsTrueOf, IsPlanReported, IsVerdictExplained, files_in};
ghost use Rattle.model.specs.Files.{IsTaskOf};
ghost use Rattle.model.specs.Meaning.{is_instance};
ghost use Rattle.model.specs.PlanText.{IsPlanText};

use crate::explaining::of_fault::explain_refused;
use crate::explaining::step_lines::StepLines;
use crate::explanation::{Explanation, Location, Subject};
use crate::files::plan_of_file;
use explain_hints::{NamedText, NamedTexts, marked, place_of};
use explain_plans::{
    PlanExplanation, explain_plan, report_details, report_trace, report_verdict, step_place,
};
use faults::{NoMemory, Span};
use formulas::Plan;
use std::alloc::{AllocError, Global};
use task::Task;
use validator::Verdict;

/// Explains the plan in this text for the task of the other texts.
pub(super) fn explain_plan_file(
    alloc: Global,
    task: &Task,
    texts: &NamedTexts<'_>,
    lines: StepLines,
) -> Result<Explanation, NoMemory>
    ensures subject { (domain problem : List ℕ) (most : ℕ) → IsTaskOf domain problem (task_of task.now)
        → IfOk result (λ e. IsTrueOf domain problem (Some texts.now.plan.text.now) most e.subject) }
    ensures said { IsNamedTask texts.now.domain.text.now texts.now.problem.text.now (task_of task.now) (variable_names_of task.now)
        → IfOk result (IsSaidOf (is_traced lines) (files_in texts.now)) }
{
    match plan_of_file(alloc, task, texts.plan.text) {
        Ok(plan) => {
            let file = PlanFile {
                file: texts.plan,
                lines,
            };
            explain_steps(alloc, task, file, &plan)
        }
        Err(fault) => explain_refused(alloc, texts, fault),
    }
}

/// A plan file, and what is said of its steps.
#[derive(Clone, Copy)]
struct PlanFile<'a> {
    file: NamedText<'a>,
    lines: StepLines,
}

/// Explains the steps of this file.
fn explain_steps(
    alloc: Global,
    task: &Task,
    file: PlanFile<'_>,
    plan: &Plan,
) -> Result<Explanation, NoMemory>
    requires instances { IsTrue (list_all (is_instance (task_of task.now)) (plan_of plan.now)) }
    requires text { IsPlanText (task_of task.now) file.file.text.now (plan_of plan.now) }
    ensures { IfOk result (IsVerdictExplained (task_of task.now) (variable_names_of task.now) (plan_of plan.now) (is_traced file.entry.lines) (named_of file.entry.file)) }
{
    let explained = explain_plan(alloc, task, plan)?;
    let explained_plan = ExplainedPlan {
        task,
        plan,
        explained: &explained,
        lines: file.lines,
    };
    explained_plan.explain_verdict(alloc, file.file)
}

/// A plan for a task, with its explanation.
#[derive(Clone, Copy)]
struct ExplainedPlan<'t, 'p, 'e> {
    task: &'t Task,
    plan: &'p Plan,
    explained: &'e PlanExplanation<'t>,
    /// What is said of its steps.
    lines: StepLines,
}

impl ExplainedPlan<'_, '_, '_> {
    /// Explains the verdict on the plan in this file.
    fn explain_verdict(self, alloc: Global, file: NamedText<'_>) -> Result<Explanation, NoMemory>
        requires instances { IsTrue (list_all (is_instance (task_of self.task.now)) (plan_of self.plan.now)) }
        requires step { IsStepOf file.text.now (plans.verdict_of self.explained.now) }
        ensures { IfOk result (IsPlanReported (task_of self.entry.task.now) (plan_of self.entry.plan.now) (is_traced self.entry.lines) (named_of file.entry) self.entry.explained.now) }
    {
        let verdict = verdict_in(self.explained);
        let failed = failed_step(file.text, verdict);
        let location = location_of(alloc, file, failed)?;
        let marks = marks_of(alloc, file.text, failed)?;
        let text = self.text(alloc, &location, marks.as_str())?;
        Ok(Explanation {
            subject: Subject::Plan(verdict),
            text,
            location,
            hints: Vec::new(alloc),
            further: Vec::new(alloc),
            notes: Vec::new(alloc),
        })
    }

    /// The lines of the explanation: with a trace, if one is asked for.
    fn text(
        self,
        alloc: Global,
        location: &Option<Location>,
        marks: &str,
    ) -> Result<String, NoMemory>
        requires { IsTrue (list_all (is_instance (task_of self.task.now)) (plan_of self.plan.now)) }
        ensures { IfOk result (λ text. SayPlanAs (is_traced self.entry.lines) location.now (task_of self.entry.task.now) (plan_of self.entry.plan.now) self.entry.explained.now (string_bytes text)) }
    {
        match self.lines {
            StepLines::Costs => self.plain_text(alloc, location, marks),
            StepLines::Trace => {
                let trace = report_trace(alloc, self.task, self.plan)?;
                let verdict = self.verdict_text(alloc, location, marks)?;
                joined(trace, verdict.as_str())
            }
        }
    }

    /// The lines without a trace: those of the verdict, after what each step costs, if the plan solves the task.
    fn plain_text(
        self,
        alloc: Global,
        location: &Option<Location>,
        marks: &str,
    ) -> Result<String, NoMemory>
        ensures { IfOk result (λ text. SayPlan location.now (task_of self.entry.task.now) (plan_of self.entry.plan.now) self.entry.explained.now (string_bytes text)) }
    {
        let verdict = self.verdict_text(alloc, location, marks)?;
        match self.explained {
            PlanExplanation::Solves { .. } => {
                let details = report_details(alloc, self.task, self.plan, self.explained)?;
                joined(details, verdict.as_str())
            }
            PlanExplanation::NotApplicable { .. } => Ok(verdict),
            PlanExplanation::GoalMissed { .. } => Ok(verdict),
        }
    }

    /// The line of the verdict, and the reasons. An inapplicable step is shown with its place in the file, its line and marks.
    fn verdict_text(
        self,
        alloc: Global,
        location: &Option<Location>,
        marks: &str,
    ) -> Result<String, NoMemory>
        ensures { IfOk result (λ text. SayVerdict location.now (task_of self.entry.task.now) (plan_of self.entry.plan.now) self.entry.explained.now (string_bytes text)) }
    {
        let verdict = report_verdict(alloc, self.task, self.plan, self.explained)?;
        match self.explained {
            PlanExplanation::Solves { .. } => Ok(verdict),
            PlanExplanation::NotApplicable { .. } => {
                let details = report_details(alloc, self.task, self.plan, self.explained)?;
                let after = joined(String::from_str(alloc, marks)?, details.as_str())?;
                step_text(alloc, location, verdict.as_str(), after.as_str())
            }
            PlanExplanation::GoalMissed { .. } => {
                let details = report_details(alloc, self.task, self.plan, self.explained)?;
                joined(verdict, details.as_str())
            }
        }
    }
}

/// The verdict in an explanation.
fn verdict_in(explained: &PlanExplanation<'_>) -> Verdict
    ensures { verdict_of result ≡ plans.verdict_of explained.now }
{
    match explained {
        PlanExplanation::Solves { total, .. } => Verdict::Valid { cost: *total },
        PlanExplanation::NotApplicable { step, .. } => Verdict::NotApplicable { step: *step },
        PlanExplanation::GoalMissed { .. } => Verdict::GoalMissed,
    }
}

/// The span of the inapplicable step in the text, if there is one.
fn failed_step(text: &[u8], verdict: Verdict) -> Option<Span>
    requires { IsStepOf text.now (verdict_of verdict) }
    ensures { IsStepFound text.now (verdict_of verdict) result }
{
    match verdict {
        Verdict::NotApplicable { step } => step_place(text, step),
        Verdict::Valid { .. } | Verdict::GoalMissed => None,
    }
}

/// The location of the step at this span.
fn location_of(
    alloc: Global,
    file: NamedText<'_>,
    failed: Option<Span>,
) -> Result<Option<Location>, NoMemory>
    ensures { IfOk result (IsLocatedIf (named_of file.entry) failed) }
{
    match failed {
        Some(span) => {
            let place = place_of(file.text, span.start);
            Ok(Some(Location::new(alloc, file.name, place, span)?))
        }
        None => Ok(None),
    }
}

/// The line in which the step at this span begins, with the step marked.
fn marks_of(alloc: Global, text: &[u8], failed: Option<Span>) -> Result<String, NoMemory> {
    match failed {
        Some(span) => marked(alloc, text, span),
        None => Ok(String::new(alloc)),
    }
}

/// The concatenation of two texts.
pub(super) fn joined(first: String, second: &str) -> Result<String, NoMemory>
    ensures { IfOk result (λ text. string_bytes text ≡ string_bytes first ++ second.now) }
{
    let mut text = first;
    text.push_str(second)?;
    Ok(text)
}

/// The line of an inapplicable step, preceded by its place, and the lines after it.
fn step_text(
    alloc: Global,
    location: &Option<Location>,
    line: &str,
    after: &str,
) -> Result<String, NoMemory>
    ensures { IfOk result (λ text. IfSome location.now (λ at. string_bytes text ≡ place_text at ++ (line.now ++ after.now))) }
{
    let mut text = place_text(alloc, location)?;
    text.push_str(line)?;
    text.push_str(after)?;
    Ok(text)
}

/// The file, the line and the column, such as `plan:7:1: `.
fn place_text(alloc: Global, location: &Option<Location>) -> Result<String, AllocError>
    ensures { IfOk result (λ text. IfSome location.now (λ at. string_bytes text ≡ place_text at)) }
{
    match location {
        Some(at) => {
            let (file, line, column) = (at.file.as_str(), at.line, at.column);
            format!(in alloc; "{file}:{line}:{column}: ")
        }
        None => Ok(String::new(alloc)),
    }
}
