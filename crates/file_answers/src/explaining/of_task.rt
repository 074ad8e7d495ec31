//! Explains a task without a plan.
ghost use Rattle.std.specs.Prelude.{◌≡◌, ℕ, ◌++◌, [], IfOk, List, None, map};
ghost use Rattle.std.specs.String.{string_bytes};
ghost use Rattle.task.specs.Task.{task_of};
ghost use Rattle.explain_tasks.specs.Summary.{summary_text};
ghost use Rattle.file_answers.specs.ExplanationLines.{grounded_line, on_lines};
ghost use Rattle.file_answers.specs.Explanations.{IsGrounded, IsTaskExplained};
ghost use Rattle.file_answers.specs.Notes.{AreGroundReported, AreSuggested, AreReportedOfGround};
ghost use Rattle.explain_goals.specs.Notes.{AreGoalNotesOf};
ghost use Rattle.grounding_instances.specs.Numbering.{task_in};
ghost use Rattle.model.specs.Grounding.{exceeded_limit};
ghost use Rattle.model.specs.Limits.{max_numbered_atoms};

use crate::explanation::{Explanation, Grounded, Subject};
use explain_goals::GoalNotes;
use explain_tasks::{GroundNotes, Summary, TaskNotes};
use faults::{NoMemory, Refused};
use grounding::Ground;
use grounding_instances::{GroundLimit, Numbering};
use std::alloc::{AllocError, Global};
use task::Task;

/// The outcome of grounding a task, and the notes it leads to, a line each.
#[derive(Drop)]
struct Grounding {
    grounded: Grounded,
    notes: Vec<String>,
}

/// A summary of the task, the outcome of grounding it with this limit of instances, and notes on what looks wrong.
pub(super) fn explain_task(
    alloc: Global,
    task: &Task,
    max_instances: u32,
) -> Result<Explanation, NoMemory>
    ensures { IfOk result (IsTaskExplained (task_of task.now) max_instances) }
{
    let holds = Summary::of(task);
    let Grounding { grounded, notes } = ground(alloc, task, max_instances)?;
    let notes = with_task_notes(alloc, task, notes)?;
    let text = text_of(alloc, holds, grounded, &notes)?;
    Ok(Explanation {
        subject: Subject::Task { holds, grounded },
        text,
        location: None,
        hints: Vec::new(alloc),
        further: Vec::new(alloc),
        notes,
    })
}

/// The notes, followed by those that the files themselves lead to.
fn with_task_notes(alloc: Global, task: &Task, notes: Vec<String>) -> Result<Vec<String>, NoMemory>
    ensures { IfOk result (λ lines. (others : List (List ℕ)) × AreSuggested (task_of task.now) others × (map string_bytes lines.items ≡ map string_bytes notes.items ++ others)) }
{
    let mut lines = notes;
    TaskNotes::of(alloc, task)?.add_lines(alloc, task, &mut lines)?;
    Ok(lines)
}

/// The lines of the explanation.
fn text_of(
    alloc: Global,
    holds: Summary,
    grounded: Grounded,
    notes: &[String],
) -> Result<String, NoMemory>
    ensures { IfOk result (λ text. string_bytes text ≡ summary_text holds ++ (grounded_line grounded ++ on_lines (map string_bytes notes.now))) }
{
    let mut text = holds.text(alloc)?;
    let line = grounded_line(alloc, grounded)?;
    text.push_str(line.as_str())?;
    add_lines(notes, &mut text)?;
    Ok(text)
}

/// Adds the lines, each with LF.
fn add_lines(lines: &[String], text: &mut String) -> Result<(), NoMemory>
    ensures { IfOk result (λ _. string_bytes text.new ≡ string_bytes text.old ++ on_lines (map string_bytes lines.now)) }
{
    'lines: for line in lines {
        text.push_str(line.as_str())?;
        text.push_str("\n")?;
    }
    Ok(())
}

/// The number of kept instances and numbered atoms, or the limit that is exceeded.
fn ground(alloc: Global, task: &Task, max_instances: u32) -> Result<Grounding, NoMemory>
    ensures grounded { IfOk result (λ g. IsGrounded (task_of task.now) max_instances g.grounded) }
    ensures notes { IfOk result (λ g. AreReportedOfGround (task_of task.now) max_instances g.grounded (map string_bytes g.notes.items)) }
{
    match Numbering::new(alloc, task, &[], max_instances) {
        Ok(numbering) => {
            let instances = numbering.instances().len();
            let atoms = numbering.width();
            let notes = notes_of(alloc, &numbering, max_instances)?;
            let grounded = Grounded::Within { instances, atoms };
            Ok(Grounding { grounded, notes })
        }
        Err(Refused::At(limit)) => Ok(Grounding {
            grounded: Grounded::Beyond(limit),
            notes: Vec::new(alloc),
        }),
        Err(Refused::NoMemory) => Err(NoMemory),
    }
}

/// The notes that the instances lead to; actions with more than `most` instances are not checked for missing values.
fn notes_of(alloc: Global, numbering: &Numbering<'_>, most: u32) -> Result<Vec<String>, NoMemory>
    requires { exceeded_limit most max_numbered_atoms (task_in numbering.now) [] ≡ None }
    ensures { IfOk result (λ lines. AreGroundReported (task_in numbering.now) most (map string_bytes lines.items)) }
{
    let task = numbering.task();
    let notes = GroundNotes::of(alloc, numbering, most)?;
    let goal_notes = goal_notes(alloc, task, most)?;
    let mut lines = Vec::new(alloc);
    notes.add_lines(alloc, task, &mut lines)?;
    goal_notes.add_lines(alloc, task, &notes.missing_goals, &mut lines)?;
    Ok(lines)
}

/// The notes on the goal. The ground task is within its limits.
fn goal_notes(alloc: Global, task: &Task, most: u32) -> Result<GoalNotes, NoMemory>
    requires { exceeded_limit most max_numbered_atoms (task_of task.now) [] ≡ None }
    ensures { IfOk result (AreGoalNotesOf (task_of task.now)) }
{
    match Ground::new(alloc, task, &[], most) {
        Ok(ground) => GoalNotes::of(alloc, &ground),
        Err(Refused::At(_)) => unreachable!(),
        Err(Refused::NoMemory) => Err(NoMemory),
    }
}

/// The line for the outcome of grounding.
fn grounded_line(alloc: Global, grounded: Grounded) -> Result<String, AllocError>
    ensures { IfOk result (λ line. string_bytes line ≡ grounded_line grounded) }
{
    match grounded {
        Grounded::Within { instances, atoms } => {
            format!(in alloc; "instances kept {instances}, atoms numbered {atoms}\n")
        }
        Grounded::Beyond(GroundLimit::Instances) => String::from_str(alloc, "unknown instances\n"),
        Grounded::Beyond(GroundLimit::Atoms) => String::from_str(alloc, "unknown atoms\n"),
    }
}
