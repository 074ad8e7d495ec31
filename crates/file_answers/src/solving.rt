//! From the bytes of a domain file and a problem file to an optimal plan.
ghost use Rattle.std.specs.Prelude.{◌≡◌, ℕ, List, IfOk, IfErr, IfSome, IsTrue, None};
ghost use Rattle.task.specs.Task.{task_of};
ghost use Rattle.devices.specs.Progress.{MayContinue};
ghost use Rattle.solver.specs.Said.{HasEnded};
ghost use Rattle.solver.specs.Solver.{HasVersionUpTo, IsTrueAnswer};
ghost use Rattle.solver.specs.Versions.{number_of};
ghost use Rattle.file_answers.specs.SaidOf.{IsTrueLineOf};
ghost use Rattle.file_answers.specs.Files.{reported_in};
ghost use Rattle.model.specs.Task as model;
ghost use Rattle.model.specs.Files.{IsTaskOf, IsTaskFault};
ghost use Rattle.model.specs.PlanWriting.{has_names};

use crate::files::{FileFault, TaskFiles, task_of_files};
use devices::{Clock, Sink, Unheard};
use faults::NoMemory;
use solver::{Answer, Limits, solve_and_say};
use std::alloc::Global;
use task::Task;

/// A task read from files, with the planner's answer.
#[derive(Drop)]
pub struct Solved {
    /// The task of the two files.
    pub task: Task,
    /// The planner's answer.
    pub answer: Answer,
    pub ghost names: { IsTrue (has_names (task_of task)) },
}

/// Finds an optimal plan for the task of two files, or shows that there is none.
///
/// The domain is scanned and parsed, then the problem; then both are typed together. The first fault ends the call. If the state
/// limit is exceeded, the answer still has a claim: each plan costs at least its bound, and its certificate shows that. It is the same if
/// the time is over. At the other two limits nothing is claimed about plans.
///
/// ```
/// let Some(limits) = Limits::new(1_000_000, 1_000_000) else { return Ok(()) };
/// match solve_files(alloc, TaskFiles { domain, problem }, limits)?.answer {
///     Answer::Plan { cost, .. } => println!(rt; "no plan costs less than {cost}")?,
///     Answer::Unsolvable { .. } => println!(rt; "there is no plan")?,
///     Answer::Unknown(Exceeded::States { bound, .. }) => println!(rt; "each plan costs {bound} or more")?,
///     Answer::Unknown(Exceeded::Time { bound, .. }) => println!(rt; "each plan costs {bound} or more")?,
///     Answer::Unknown(Exceeded::Instances | Exceeded::Atoms) => println!(rt; "the task is too large")?,
/// }
/// ```
pub fn solve_files(alloc: Global, files: TaskFiles<'_>, limits: Limits) -> Result<Solved, FileFault>
    // The task is that of the two texts, and the answer is correct for it.
    ensures task { IfOk result (λ s. IsTaskOf files.entry.domain.now files.entry.problem.now (task_of s.task)) }
    ensures answer { IfOk result (λ s. IsTrueAnswer (task_of s.task) limits.seconds limits.states limits.instances s.answer) }
    // The certificate is of at most the version that is asked for.
    ensures version { IfOk result (λ s. HasVersionUpTo (number_of limits.version) s.answer) }
    ensures names { IfOk result (λ s. IsTrue (has_names (task_of s.task))) }
    ensures refused { IfErr result (λ fault. IfSome (reported_in fault) (IsTaskFault files.entry.domain.now files.entry.problem.now)) }

    // If the two texts are a task, there is an answer: the only error is running out of memory.
    ensures taken { (task : model.Task) → IsTaskOf files.entry.domain.now files.entry.problem.now task → IfErr result (λ fault. reported_in fault ≡ None) }
{
    solve_files_and_say(alloc, files, limits, &mut Unheard)
}

/// The same, with progress reports as by `solve_and_say`: each line is true of the task of the two files, and if the answer has a
/// certificate, the last line describes its listing. If a text is refused, nothing is reported. If the time is limited, it is that of
/// the clock beside the sink.
pub fn solve_files_and_say<E: Sink + Clock>(
    alloc: Global,
    files: TaskFiles<'_>,
    limits: Limits,
    err: &mut E,
) -> Result<Solved, FileFault>
    ensures task { IfOk result (λ s. IsTaskOf files.entry.domain.now files.entry.problem.now (task_of s.task)) }
    ensures answer { IfOk result (λ s. IsTrueAnswer (task_of s.task) limits.seconds limits.states limits.instances s.answer) }
    ensures version { IfOk result (λ s. HasVersionUpTo (number_of limits.version) s.answer) }
    ensures names { IfOk result (λ s. IsTrue (has_names (task_of s.task))) }
    ensures refused { IfErr result (λ fault. IfSome (reported_in fault) (IsTaskFault files.entry.domain.now files.entry.problem.now)) }
    ensures taken { (task : model.Task) → IsTaskOf files.entry.domain.now files.entry.problem.now task → IfErr result (λ fault. reported_in fault ≡ None) }

    // Every progress line is true of the task of the two texts.
    ensures said { MayContinue (IsTrueLineOf files.entry.domain.now files.entry.problem.now limits.seconds limits.states limits.instances) E.may_lack_memory (E.failures err.old) (E.taken err.old) (E.failures err.new) (E.taken err.new) }
    ensures ended { IfOk result (λ s. HasEnded E.may_lack_memory (E.failures err.new) (E.taken err.new) s.answer) }
{
    let task = task_of_files(alloc, files.domain, files.problem)?;
    solve_task(alloc, task, limits, err)
}

/// The task with the planner's answer. The only error is running out of memory.
fn solve_task<E: Sink + Clock>(
    alloc: Global,
    task: Task,
    limits: Limits,
    err: &mut E,
) -> Result<Solved, FileFault>
    requires { IsTrue (has_names (task_of task)) }
    ensures task { (domain problem : List ℕ) → IsTaskOf domain problem (task_of task) → IfOk result (λ s. IsTaskOf domain problem (task_of s.task)) }
    ensures answer { IfOk result (λ s. IsTrueAnswer (task_of s.task) limits.seconds limits.states limits.instances s.answer) }
    ensures version { IfOk result (λ s. HasVersionUpTo (number_of limits.version) s.answer) }
    ensures memory { IfErr result (λ fault. reported_in fault ≡ None) }
    ensures said { (domain problem : List ℕ) → IsTaskOf domain problem (task_of task)
        → MayContinue (IsTrueLineOf domain problem limits.seconds limits.states limits.instances) E.may_lack_memory (E.failures err.old) (E.taken err.old) (E.failures err.new) (E.taken err.new) }
    ensures ended { IfOk result (λ s. HasEnded E.may_lack_memory (E.failures err.new) (E.taken err.new) s.answer) }
{
    match solve_and_say(alloc, &task, limits, err) {
        Ok(answer) => Ok(Solved { task, answer }),
        Err(NoMemory) => Err(FileFault::NoMemory),
    }
}
