//! From the bytes of three files to the verdict.
ghost use Rattle.std.specs.Prelude.{◌≡◌, ℕ, List, IfOk, IfErr, IfSome, None};
ghost use Rattle.task.specs.Task.{task_of};
ghost use Rattle.validator.specs.Verdict.{verdict_of};
ghost use Rattle.file_answers.specs.Files.{reported_in};
ghost use Rattle.model.specs.Task as model;
ghost use Rattle.model.specs.Files.{AreRead, IsTaskOf, IsVerdictOf, IsFileFault};

use crate::files::{FileFault, plan_of_file, task_of_files};
use std::alloc::Global;
use task::Task;
use validator::{Verdict, validate};

/// The verdict on the plan, from the bytes of the three files.
///
/// The domain is scanned and parsed, then the problem; then both are typed together, and the plan is read. The first fault ends
/// the call.
///
/// ```
/// match validate_files(alloc, domain, problem, b"(go a b)\n(go b c)\n")? {
///     Verdict::Valid { cost } => println!(rt; "a plan of cost {cost}")?,
///     Verdict::NotApplicable { step } => println!(rt; "step {step} is not applicable")?,
///     Verdict::GoalMissed => println!(rt; "the goal is missed")?,
/// }
/// ```
pub fn validate_files(
    alloc: Global,
    domain: &[u8],
    problem: &[u8],
    plan: &[u8],
) -> Result<Verdict, FileFault>
    ensures verdict { IfOk result (λ verdict. IsVerdictOf domain.now problem.now plan.now (verdict_of verdict)) }
    ensures refused { IfErr result (λ fault. IfSome (reported_in fault) (IsFileFault domain.now problem.now plan.now)) }

    // If the three texts are a task and a plan for it, there is a verdict: the only error is running out of memory.
    ensures taken { (task : model.Task) (steps : List model.Instance)
        → AreRead domain.now problem.now plan.now task steps → IfErr result (λ fault. reported_in fault ≡ None) }
{
    let task = task_of_files(alloc, domain, problem)?;
    verdict_on(alloc, &task, plan)
}

/// The verdict on the plan for this task, from the bytes of the plan file.
fn verdict_on(alloc: Global, task: &Task, plan: &[u8]) -> Result<Verdict, FileFault>
    ensures verdict { (domain problem : List ℕ) → IsTaskOf domain problem (task_of task.now)
        → IfOk result (λ verdict. IsVerdictOf domain problem plan.now (verdict_of verdict)) }
    ensures refused { (domain problem : List ℕ) → IsTaskOf domain problem (task_of task.now)
        → IfErr result (λ fault. IfSome (reported_in fault) (IsFileFault domain problem plan.now)) }
{
    let plan = plan_of_file(alloc, task, plan)?;
    Ok(validate(alloc, task, &plan)?)
}
