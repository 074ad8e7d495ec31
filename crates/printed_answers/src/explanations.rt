//! Explanations as JSON objects, for editors and services.
ghost use Rattle.std.specs.Prelude.{◌≡◌, IfOk, map};
ghost use Rattle.std.specs.String.{string_bytes};
ghost use Rattle.validator.specs.Verdict.{verdict_of};
ghost use Rattle.printed_answers.specs.ExplanationObjects as defined;
ghost use Rattle.printed_answers.specs.JsonText.{object_text};

use crate::members::{Member, object_text};
use faults::Code;
use file_answers::{Explanation, FurtherFault, Grounded, Location, Subject, Summary};
use grounding_instances::GroundLimit;
use std::alloc::{AllocError, Global};
use validator::Verdict;

/// The fields of the object of a fault that do not depend on its place.
struct FaultFields<'a> {
    code: Code,
    /// The lines of each further fault.
    further: &'a [String],
    hints: &'a [String],
    lines: &'a str,
}

impl Drop for FaultFields<'_> {
    fn drop(self) {
        let Self {
            code: _,
            further: _,
            hints: _,
            lines: _,
        } = self;
    }
}

/// The fields of the object of a task that do not depend on the outcome of grounding.
struct TaskFields<'a> {
    holds: Summary,
    notes: &'a [String],
    lines: &'a str,
}

impl Drop for TaskFields<'_> {
    fn drop(self) {
        let Self {
            holds: _,
            notes: _,
            lines: _,
        } = self;
    }
}

/// The object of an explanation, as compact text. The only error, here and in the functions below, is that an allocation failed.
pub(crate) fn explanation_object(
    alloc: Global,
    explanation: &Explanation,
) -> Result<String, AllocError>
    ensures { IfOk result (λ text. string_bytes text ≡ object_text (defined.of_explanation explanation.now)) }
{
    let lines = explanation.text.as_str();
    match explanation.subject {
        Subject::Fault { code, .. } => {
            let hints = explanation.hints.as_slice();
            let further = further_texts(alloc, &explanation.further)?;
            let fault = FaultFields {
                code,
                further: further.as_slice(),
                hints,
                lines,
            };
            fault_object(alloc, &fault, &explanation.location)
        }
        Subject::Plan(verdict) => plan_object(alloc, verdict, &explanation.location, lines),
        Subject::Task { holds, grounded } => {
            let task = TaskFields {
                holds,
                notes: &explanation.notes,
                lines,
            };
            task_object(alloc, &task, grounded)
        }
    }
}

/// The lines of each of these faults.
fn further_texts(alloc: Global, further: &[FurtherFault]) -> Result<Vec<String>, AllocError>
    ensures { IfOk result (λ texts. map string_bytes texts.items ≡ map defined.lines_of further.now) }
{
    let mut texts = Vec::new(alloc);
    'faults: for fault in further {
        texts.push(String::from_str(alloc, fault.text.as_str())?)?;
    }
    Ok(texts)
}

/// The object of a fault.
fn fault_object(
    alloc: Global,
    fault: &FaultFields<'_>,
    location: &Option<Location>,
) -> Result<String, AllocError>
    ensures { IfOk result (λ text. string_bytes text ≡ object_text (defined.of_fault fault.now.code location.now (map string_bytes fault.now.further.now) (map string_bytes fault.now.hints.now) fault.now.lines.now)) }
{
    match location {
        Some(at) => located_fault_object(alloc, fault, at),
        None => plain_fault_object(alloc, fault),
    }
}

/// The object of a fault at this place.
fn located_fault_object(
    alloc: Global,
    fault: &FaultFields<'_>,
    at: &Location,
) -> Result<String, AllocError>
    ensures { IfOk result (λ text. string_bytes text ≡ object_text (defined.of_located_fault fault.now.code (string_bytes at.now.file) at.now.line at.now.column at.now.length (map string_bytes fault.now.further.now) (map string_bytes fault.now.hints.now) fault.now.lines.now)) }
{
    let numbered = Member::number("code", u64::from(fault.code.number()));
    let column = Member::number("column", at.column as u64);
    let command = Member::text("command", "explain");
    let file = Member::text("file", at.file.as_str());
    let others = Member::texts("further", fault.further);
    let hints = Member::texts("hints", fault.hints);
    let length = Member::number("length", at.length as u64);
    let line = Member::number("line", at.line as u64);
    let named = Member::text("name", fault.code.name());
    let result = Member::text("result", "fault");
    let text = Member::text("text", fault.lines);
    let members = [
        numbered, column, command, file, others, hints, length, line, named, result, text,
    ];
    object_text(alloc, &members)
}

/// The object of a fault without a known place.
fn plain_fault_object(alloc: Global, fault: &FaultFields<'_>) -> Result<String, AllocError>
    ensures { IfOk result (λ text. string_bytes text ≡ object_text (defined.of_plain_fault fault.now.code (map string_bytes fault.now.further.now) (map string_bytes fault.now.hints.now) fault.now.lines.now)) }
{
    let numbered = Member::number("code", u64::from(fault.code.number()));
    let command = Member::text("command", "explain");
    let others = Member::texts("further", fault.further);
    let hints = Member::texts("hints", fault.hints);
    let named = Member::text("name", fault.code.name());
    let result = Member::text("result", "fault");
    let text = Member::text("text", fault.lines);
    object_text(
        alloc,
        &[numbered, command, others, hints, named, result, text],
    )
}

/// The object of a verdict on a plan.
fn plan_object(
    alloc: Global,
    verdict: Verdict,
    location: &Option<Location>,
    lines: &str,
) -> Result<String, AllocError>
    ensures { IfOk result (λ text. string_bytes text ≡ object_text (defined.of_plan (verdict_of verdict) location.now lines.now)) }
{
    match verdict {
        Verdict::Valid { cost } => valid_object(alloc, cost, lines),
        Verdict::NotApplicable { step } => step_object(alloc, step, location, lines),
        Verdict::GoalMissed => missed_object(alloc, lines),
    }
}

/// The object of a plan that solves the task at this cost.
fn valid_object(alloc: Global, cost: u64, lines: &str) -> Result<String, AllocError>
    ensures { IfOk result (λ text. string_bytes text ≡ object_text (defined.of_valid cost lines.now)) }
{
    let command = Member::text("command", "explain");
    let total = Member::number("cost", cost);
    let result = Member::text("result", "valid");
    let text = Member::text("text", lines);
    object_text(alloc, &[command, total, result, text])
}

/// The object of a plan that misses the goal.
fn missed_object(alloc: Global, lines: &str) -> Result<String, AllocError>
    ensures { IfOk result (λ text. string_bytes text ≡ object_text (defined.of_missed lines.now)) }
{
    let command = Member::text("command", "explain");
    let result = Member::text("result", "goal missed");
    let text = Member::text("text", lines);
    object_text(alloc, &[command, result, text])
}

/// The object of a plan whose step with this number is not applicable.
fn step_object(
    alloc: Global,
    step: usize,
    location: &Option<Location>,
    lines: &str,
) -> Result<String, AllocError>
    ensures { IfOk result (λ text. string_bytes text ≡ object_text (defined.of_step step location.now lines.now)) }
{
    match location {
        Some(at) => located_step_object(alloc, step, at, lines),
        None => plain_step_object(alloc, step, lines),
    }
}

/// The object of a step at this place.
fn located_step_object(
    alloc: Global,
    step: usize,
    at: &Location,
    lines: &str,
) -> Result<String, AllocError>
    ensures { IfOk result (λ text. string_bytes text ≡ object_text (defined.of_located_step step (string_bytes at.now.file) at.now.line at.now.column at.now.length lines.now)) }
{
    let column = Member::number("column", at.column as u64);
    let command = Member::text("command", "explain");
    let file = Member::text("file", at.file.as_str());
    let length = Member::number("length", at.length as u64);
    let line = Member::number("line", at.line as u64);
    let result = Member::text("result", "not applicable");
    let numbered = Member::number("step", step as u64);
    let text = Member::text("text", lines);
    let members = [column, command, file, length, line, result, numbered, text];
    object_text(alloc, &members)
}

/// The object of a step without a known place.
fn plain_step_object(alloc: Global, step: usize, lines: &str) -> Result<String, AllocError>
    ensures { IfOk result (λ text. string_bytes text ≡ object_text (defined.of_plain_step step lines.now)) }
{
    let command = Member::text("command", "explain");
    let result = Member::text("result", "not applicable");
    let numbered = Member::number("step", step as u64);
    let text = Member::text("text", lines);
    object_text(alloc, &[command, result, numbered, text])
}

/// The object of a task: its summary, the outcome of grounding, and the notes.
fn task_object(
    alloc: Global,
    task: &TaskFields<'_>,
    grounded: Grounded,
) -> Result<String, AllocError>
    ensures { IfOk result (λ text. string_bytes text ≡ object_text (defined.of_task task.now.holds grounded (map string_bytes task.now.notes.now) task.now.lines.now)) }
{
    match grounded {
        Grounded::Within { instances, atoms } => grounded_object(alloc, task, instances, atoms),
        Grounded::Beyond(limit) => beyond_object(alloc, task, limit_name(limit)),
    }
}

/// The object of a task with this many kept instances and numbered atoms.
fn grounded_object(
    alloc: Global,
    task: &TaskFields<'_>,
    kept: usize,
    width: u32,
) -> Result<String, AllocError>
    ensures { IfOk result (λ text. string_bytes text ≡ object_text (defined.of_grounded task.now.holds kept width (map string_bytes task.now.notes.now) task.now.lines.now)) }
{
    let actions = Member::number("actions", task.holds.actions as u64);
    let atoms = Member::number("atoms", u64::from(width));
    let command = Member::text("command", "explain");
    let functions = Member::number("functions", task.holds.functions as u64);
    let instances = Member::number("instances", kept as u64);
    let notes = Member::texts("notes", task.notes);
    let objects = Member::number("objects", task.holds.objects as u64);
    let predicates = Member::number("predicates", task.holds.predicates as u64);
    let result = Member::text("result", "task");
    let text = Member::text("text", task.lines);
    let types = Member::number("types", task.holds.types as u64);
    let members = [
        actions, atoms, command, functions, instances, notes, objects, predicates, result, text,
        types,
    ];
    object_text(alloc, &members)
}

/// The object of a task that exceeds the limit with this name.
fn beyond_object(alloc: Global, task: &TaskFields<'_>, limit: &str) -> Result<String, AllocError>
    ensures { IfOk result (λ text. string_bytes text ≡ object_text (defined.of_beyond task.now.holds limit.now (map string_bytes task.now.notes.now) task.now.lines.now)) }
{
    let actions = Member::number("actions", task.holds.actions as u64);
    let command = Member::text("command", "explain");
    let functions = Member::number("functions", task.holds.functions as u64);
    let notes = Member::texts("notes", task.notes);
    let objects = Member::number("objects", task.holds.objects as u64);
    let predicates = Member::number("predicates", task.holds.predicates as u64);
    let reason = Member::text("reason", limit);
    let result = Member::text("result", "unknown");
    let text = Member::text("text", task.lines);
    let types = Member::number("types", task.holds.types as u64);
    let members = [
        actions, command, functions, notes, objects, predicates, reason, result, text, types,
    ];
    object_text(alloc, &members)
}

/// The name of the limit.
fn limit_name(limit: GroundLimit) -> &'static str
    ensures { result.now ≡ defined.limit_name limit }
{
    match limit {
        GroundLimit::Instances => "instances",
        GroundLimit::Atoms => "atoms",
    }
}
