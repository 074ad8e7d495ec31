//! From a plan to its text.
ghost use Rattle.std.specs.Prelude.{◌≡◌, ◌≤◌, ◌++◌, ℕ, List, IsTrue, IfOk, OnOk, codes, length};
ghost use Rattle.std.specs.Io.KnownBytes.{Appends};
ghost use Rattle.std.specs.List.{list_all};
ghost use Rattle.std.specs.Str.Lossy.{utf8_lossy};
ghost use Rattle.std.specs.String.{string_bytes};
ghost use Rattle.devices.specs.Devices.{AppendsBeginning, CountsDevice};
ghost use Rattle.task.specs.Task.{task_of};
ghost use Rattle.formulas.specs.State.{instance_of, plan_of};
ghost use Rattle.model.specs.Task as model;
ghost use Rattle.model.specs.Files.{IsTaskOf};
ghost use Rattle.model.specs.Meaning.{is_instance};
ghost use Rattle.model.specs.PlanText.{IsPlanText};
ghost use Rattle.model.specs.PlanWriting.{plan_text, step_text, step_line, cost_line, has_names};
ghost use Rattle.model.specs.PlanWritingExamples.{AreWritten};
ghost use Rattle.model.specs.Words.{longest_text};

use devices::{IoFault, Sink, write_all};
use faults::NoMemory;
use formulas::{Instance, Plan};
use std::alloc::{AllocError, Global};
use task::Task;

/// Writes the text of a plan with this cost.
///
/// Each step is on a line of its own, in lower case with one blank between words; the last line is `; cost = N`. Every line ends
/// with LF. An empty plan of cost 0 is `; cost = 0` and LF. Lines are built in memory one at a time, never the whole text.
///
/// # Errors
/// The device failed, or an allocation failed. A prefix of the text has then been written.
///
/// # Examples
/// ```
/// let mut out = Memory::empty(alloc);
/// write_plan(alloc, &task, &plan, 6, &mut out)?;
/// assert_eq!(rt; out.as_slice(), b"(hop a b)\n(hop b c)\n; cost = 6\n");
/// ```
pub fn write_plan<W: Sink>(
    alloc: Global,
    task: &Task,
    plan: &Plan,
    cost: u64,
    out: &mut W,
) -> Result<(), IoFault>
    ensures text { OnOk result (Appends (W.taken out.old) (W.taken out.new) (plan_text (task_of task.now) (plan_of plan.now) cost)) }
    ensures beginning { AppendsBeginning (W.taken out.old) (W.taken out.new) (plan_text (task_of task.now) (plan_of plan.now) cost) }
    ensures failures { CountsDevice (W.failures out.old) (W.failures out.new) result }
{
    let mut line = Vec::new(alloc);
    for step in plan.steps() {
        write_step(task, step, &mut line, out)?;
    }
    write_cost(alloc, cost, out)
}

/// One step as the writer formats it, without LF: `(hop a b)`.
///
/// # Errors
/// An allocation failed.
pub fn step_text(alloc: Global, task: &Task, step: &Instance) -> Result<String, NoMemory>
    // Bytes of names that are not valid UTF-8 are replaced; names that are PDDL names have none.
    ensures text { IfOk result (λ text. string_bytes text ≡ utf8_lossy (step_text (task_of task.now) (instance_of step.now))) }
    ensures names { IsTrue (has_names (task_of task.now)) → IfOk result (λ text.
        string_bytes text ≡ step_text (task_of task.now) (instance_of step.now)) }
{
    let mut text = Vec::new(alloc);
    add_step(task, step, &mut text)?;
    Ok(String::from_utf8_lossy(alloc, text.as_slice())?)
}

/// What the writer writes reads back as the same list: if a task's names are valid names and distinct, the text of a list of its
/// instances reads as that list, unless the text is over 16,777,216 bytes. The names of every task read from files are such.
/// Proved for all tasks, lists and costs; the function does nothing.
pub fn written_text_reads_back()
    ensures reads { (task : model.Task) (plan : List model.Instance) (cost : ℕ)
        → IsTrue (has_names task) → IsTrue (list_all (is_instance task) plan)
        → length (plan_text task plan cost) ≤ longest_text
        → IsPlanText task (plan_text task plan cost) plan }
    ensures names { (domain problem : List ℕ) (task : model.Task) → IsTaskOf domain problem task → IsTrue (has_names task) }
{}

/// The worked examples of written texts: small plans with their texts.
pub fn examples_are_written()
    ensures { AreWritten }
{}

/// Writes a step on a line of its own, built in the given buffer.
fn write_step<W: Sink>(
    task: &Task,
    step: &Instance,
    line: &mut Vec<u8>,
    out: &mut W,
) -> Result<(), IoFault>
    ensures text { OnOk result (Appends (W.taken out.old) (W.taken out.new) (step_line (task_of task.now) (instance_of step.now))) }
    ensures beginning { AppendsBeginning (W.taken out.old) (W.taken out.new) (step_line (task_of task.now) (instance_of step.now)) }
    ensures failures { CountsDevice (W.failures out.old) (W.failures out.new) result }
{
    line.clear();
    add_line(task, step, line)?;
    write_all(out, line.as_slice())
}

/// Writes the last line, with the cost.
fn write_cost<W: Sink>(alloc: Global, cost: u64, out: &mut W) -> Result<(), IoFault>
    ensures text { OnOk result (Appends (W.taken out.old) (W.taken out.new) (cost_line cost)) }
    ensures beginning { AppendsBeginning (W.taken out.old) (W.taken out.new) (cost_line cost) }
    ensures failures { CountsDevice (W.failures out.old) (W.failures out.new) result }
{
    let line = format!(in alloc; "; cost = {cost}\n")?;
    write_all(out, line.as_bytes())
}

/// Adds a step and LF.
fn add_line(task: &Task, step: &Instance, line: &mut Vec<u8>) -> Result<(), AllocError>
    ensures { OnOk result (line.new.items ≡ line.old.items ++ step_line (task_of task.now) (instance_of step.now)) }
{
    add_step(task, step, line)?;
    line.extend_from_slice(b"\n")
}

/// Adds a step: the schema's name and the names of its objects.
fn add_step(task: &Task, step: &Instance, text: &mut Vec<u8>) -> Result<(), AllocError>
    ensures { OnOk result (text.new.items ≡ text.old.items ++ step_text (task_of task.now) (instance_of step.now)) }
{
    text.extend_from_slice(b"(")?;
    text.extend_from_slice(task.name_of_schema(step.schema))?;
    task.add_names(step.objects.as_slice(), text)?;
    text.extend_from_slice(b")")
}
