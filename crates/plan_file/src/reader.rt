//! From a plan text to the plan, in one pass: each step is resolved as it ends, so that no list of steps is built. The first
//! fault of meaning is held back until the end of the text, since faults of form take precedence.
ghost use Rattle.std.specs.Prelude.{◌≡◌, ◌<◌, List, IsTrue, IfOk, IfErr, IsErrAnd, IfSome, None, Some, ℕ, length, map};
ghost use Rattle.std.specs.List.{list_all};
ghost use Rattle.tokens.specs.Reported.{reported_by};
ghost use Rattle.task.specs.Task.{task_of};
ghost use Rattle.formulas.specs.State.{instance_of, plan_of};
ghost use Rattle.model.specs.Meaning.{is_instance};
ghost use Rattle.model.specs.PlanExamples.{ArePlans};
ghost use Rattle.model.specs.PlanText.{IsPlanText, IsPlanFault};
ghost use Rattle.model.specs.Words.{longest_text};
ghost use Rattle.model.specs.Task as model;
ghost use Rattle.model.specs.Fault as reported;

use crate::steps::Meaning;
use crate::text::{Advance, PlanPlace};
use crate::word::{Sort, refusal};
use faults::{Code, Fault};
use formulas::{Instance, Plan};
use std::alloc::Global;
use task::Task;
use tokens::{LONGEST_TEXT, Lexemes};

/// Reads a text as a plan for the task.
///
/// A text is a list of steps and nothing else, with blanks and comments as in a domain file. A step is `(`, the name of an
/// action, the name of an object for each parameter, and `)`. Case does not matter.
///
/// # Errors
/// Faults of form take precedence over faults of meaning. Form: the first unexpected parenthesis, run or stray byte is refused,
/// with code 31 if it is a time stamp (a run outside a step that begins with a digit, `.` or `[`), otherwise with code 30. A text
/// that ends inside a step is refused at its end, and a text over 16,777,216 bytes at the bytes beyond, both with code 30.
/// Meaning: the first faulty step is refused, with code 32 at an undeclared action, 33 at the action if the number of objects is
/// not that of its parameters, 34 at the first object that is undeclared or not of its parameter's types. `NoMemory` means that
/// an allocation failed; a text over 16,777,216 bytes is refused before anything is allocated.
///
/// # Examples
/// For a task with the action `go` of two parameters and the objects `a` and `b`, the text `(go a b) ; there` is a plan
/// of one step, and `(go a B)(GO b a)` one of two:
///
/// ```
/// let plan = read_plan(alloc, &task, b"(go a B)(GO b a)")?;
/// assert_eq!(rt; plan.steps().len(), 2);
/// ```
///
/// `(go a b` is refused by `PlanForm` at `7..7`, `0: (go a b)` by `TimedStep` at `0..2`, `(fly a b)` by `UnknownAction` at
/// `1..4`, `(go a)` by `StepArity` at `1..3`, and `(go a c)` by `StepType` at `6..7`, where there is no object `c` or `c` is not
/// of the second parameter's types.
pub fn read_plan(alloc: Global, task: &Task, text: &[u8]) -> Result<Plan, Fault>
    ensures plan { IfOk result (λ plan. IsPlanText (task_of task.now) text.now (plan_of plan)) }
    ensures instances { IfOk result (λ plan. IsTrue (list_all (is_instance (task_of task.now)) (plan_of plan))) }
    ensures refused { IfErr result (λ fault. IfSome (reported_by fault) (IsPlanFault (task_of task.now) text.now)) }

    // A text that is a plan for the task is never refused: the only error is running out of memory.
    ensures taken { (plan : List model.Instance) → IsPlanText (task_of task.now) text.now plan
        → IfErr result (λ fault. reported_by fault ≡ None) }

    // A text that is too long is refused for that, and never for running out of memory.
    ensures too_long { longest_text < length text.now → IsErrAnd result (λ fault. reported_by fault
        ≡ Some (record { code = 30; span = record { start = longest_text; end = length text.now } })) }
{
    let instances = instances_of(alloc, task, text)?;
    // A step has at least three bytes, so there are never too many steps.
    Ok(Plan::new(instances).unwrap())
}

/// The instances of the steps of a whole text, in order.
fn instances_of(alloc: Global, task: &Task, text: &[u8]) -> Result<Vec<Instance>, Fault>
    ensures plan { IfOk result (λ found. IsPlanText (task_of task.now) text.now (map instance_of found.items)) }
    ensures refused { IfErr result (λ fault. IfSome (reported_by fault) (IsPlanFault (task_of task.now) text.now)) }
    ensures too_long { longest_text < length text.now → IsErrAnd result (λ fault. reported_by fault
        ≡ Some (record { code = 30; span = record { start = longest_text; end = length text.now } })) }
{
    if text.len() > LONGEST_TEXT {
        return Err(refusal(Code::PlanForm, LONGEST_TEXT, text.len()));
    }
    let mut place = PlanPlace::Outside;
    let mut objects = Vec::new(alloc);
    let mut meaning = Meaning::new(alloc);
    'words: for word in Lexemes::of(text) {
        let sort = Sort::of(word);
        match place.after(sort, word, &mut objects)? {
            Advance::Goes(next) => place = next,
            Advance::Ends(action) => {
                meaning.take(task, action, objects.as_slice())?;
                place = PlanPlace::Outside;
            }
        }
    }
    match place {
        PlanPlace::Outside => meaning.into_instances(),
        PlanPlace::Opened | PlanPlace::Inside(_) => {
            Err(refusal(Code::PlanForm, text.len(), text.len()))
        }
    }
}

/// A text is at most one plan for a task, and no fault is reported for a text that is a plan. Proved for all texts; the function
/// does nothing.
pub fn one_plan()
    ensures one { (task : model.Task) (text : List ℕ) (plan other : List model.Instance)
        → IsPlanText task text plan → IsPlanText task text other → plan ≡ other }
    ensures none { (task : model.Task) (text : List ℕ) (plan : List model.Instance) (fault : reported.Fault)
        → IsPlanText task text plan → IsPlanFault task text fault → ⊥ }
{}

/// At most one fault is reported for a text and a task. Proved for all texts; the function does nothing.
pub fn one_fault()
    ensures { (task : model.Task) (text : List ℕ) (fault other : reported.Fault)
        → IsPlanFault task text fault → IsPlanFault task text other → fault ≡ other }
{}

/// The worked examples of plan texts: small texts with their plan or with the fault reported for them.
pub fn examples_are_as_reported()
    ensures { ArePlans }
{}
