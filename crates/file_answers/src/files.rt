//! From the bytes of files to their task and their plan, and the faults of files.
ghost use Rattle.std.specs.Prelude.{◌≡◌, ℕ, All, List, IfOk, IfErr, IfSome, IsTrue};
ghost use Rattle.std.specs.List.{list_all};
ghost use Rattle.tokens.specs.Reported.{reported_by};
ghost use Rattle.pddl_tree.specs.Tree.{domain_of, problem_of};
ghost use Rattle.task.specs.Task.{task_of, variable_names_of};
ghost use Rattle.formulas.specs.State.{plan_of};
ghost use Rattle.file_answers.specs.Files.{reported_in};
ghost use Rattle.file_answers.specs.Complete.{AreListedOf, AreUnread};
ghost use Rattle.file_answers.specs.FurtherFaults.{IsFaultOfTexts};
ghost use Rattle.typing.specs.Task.{refusal_of};
ghost use Rattle.file_answers.specs.QuantifiedNames.{IsNamedTask};
ghost use Rattle.model.specs.Task as model;
ghost use Rattle.model.specs.Files as reported;
ghost use Rattle.model.specs.Trees.{domain_file, problem_file};
ghost use Rattle.model.specs.Files.{IsDomainText, IsProblemText, IsTextFault, IsTaskOf, IsTaskFault, IsFileFault};
ghost use Rattle.model.specs.Meaning.{is_instance};
ghost use Rattle.model.specs.PlanText.{IsPlanText};

use explain_hints::File;
use faults::{Code, Fault, NoMemory, RefusalIn, Refused, Span, TextRefusal};
use formulas::Plan;
use plan_file::read_plan;
use std::alloc::Global;
use task::Task;
use thiserror::Error;
use tokens::scan;
use typing::{FromTrees, TaskFault, TaskFile, TaskRefusal, listed_faults};

/// Why files have no answer.
#[derive(Clone, Copy, Debug, PartialEq, Eq, Error)]
pub enum FileFault {
    /// The refused file, the code and the place.
    #[error("{code} in {file} at {}..{}", .span.start, .span.end)]
    At {
        /// The file that the place is in.
        file: File,
        /// What is wrong.
        code: Code,
        /// Where it is.
        span: Span,
    },
    /// An allocation failed.
    #[error("out of memory")]
    NoMemory,
}

impl FileFault {
    ghost use Rattle.std.specs.Prelude.{◌≡◌};
    ghost use Rattle.tokens.specs.Reported.{reported_by};
    ghost use Rattle.file_answers.specs.Files.{reported_in, in_file};

    /// The fault of this file, given the fault of its text.
    fn of(file: File, fault: Fault) -> FileFault
        ensures { reported_in result ≡ in_file file (reported_by fault) }
    {
        match fault {
            Refused::At(TextRefusal { code, span }) => FileFault::At { file, code, span },
            Refused::NoMemory => FileFault::NoMemory,
        }
    }
}

impl From<TaskFault> for FileFault {
    ghost use Rattle.std.specs.Prelude.{◌≡◌};
    ghost use Rattle.file_answers.specs.Files.{reported_in, reported_of_pair};

    ghost from_gives = { λ fault e. reported_in e ≡ reported_of_pair fault };

    fn from(fault: TaskFault) -> FileFault {
        match fault {
            Refused::At(RefusalIn { file, code, span }) => {
                let file = match file {
                    TaskFile::Domain => File::Domain,
                    TaskFile::Problem => File::Problem,
                };
                FileFault::At { file, code, span }
            }
            Refused::NoMemory => FileFault::NoMemory,
        }
    }
}

impl From<NoMemory> for FileFault {
    ghost use Rattle.std.specs.Prelude.{◌≡◌};
    ghost use Rattle.file_answers.specs.declared.files.FileFault.TheVariants.{NoMemory};

    ghost from_gives = { λ _ e. e ≡ NoMemory };

    fn from(_error: NoMemory) -> FileFault {
        FileFault::NoMemory
    }
}

/// The texts of a domain file and a problem file.
#[derive(Clone, Copy)]
pub struct TaskFiles<'a> {
    /// The text of the domain.
    pub domain: &'a [u8],
    /// The text of the problem.
    pub problem: &'a [u8],
}

/// Reads the task of a domain file and a problem file.
///
/// The domain is scanned and parsed, then the problem; then both are typed together. The first fault ends the call.
///
/// # Errors
/// The first fault of the two texts, or an allocation failed.
pub fn task_of_files(alloc: Global, domain: &[u8], problem: &[u8]) -> Result<Task, FileFault>
    ensures task { IfOk result (λ task. IsTaskOf domain.now problem.now (task_of task)) }
    ensures names { IfOk result (λ task. IsNamedTask domain.now problem.now (task_of task) (variable_names_of task)) }
    ensures refused { IfErr result (λ fault. IfSome (reported_in fault) (IsTaskFault domain.now problem.now)) }
{
    let Trees { domain, problem } = trees_of_files(alloc, domain, problem)?;
    Ok(Task::new(alloc, domain, problem)?)
}

/// The faults of two files that do not hide each other, if the first one is a typing fault; otherwise none.
pub(crate) fn faults_of_files(
    alloc: Global,
    domain: &[u8],
    problem: &[u8],
) -> Result<Vec<TaskRefusal>, NoMemory>
    ensures each { IfOk result (λ found. All (λ r. IsFaultOfTexts domain.now problem.now (refusal_of r)) found.items) }
    ensures all { IfOk result (λ found. AreListedOf domain.now problem.now found.items) }
{
    match trees_of_files(alloc, domain, problem) {
        Ok(trees) => listed_faults(alloc, &trees.domain, &trees.problem),
        Err(FileFault::At { .. }) => Ok(Vec::new(alloc)),
        Err(FileFault::NoMemory) => Err(NoMemory),
    }
}

/// The trees of a domain file and a problem file.
#[derive(Drop)]
struct Trees<'a> {
    domain: pddl_tree::Domain<'a>,
    problem: pddl_tree::Problem<'a>,
}

/// The trees of two files: the domain is scanned and parsed, then the problem.
fn trees_of_files<'a>(
    alloc: Global,
    domain: &'a [u8],
    problem: &'a [u8],
) -> Result<Trees<'a>, FileFault>
    ensures domain { IfOk result (λ trees. IsDomainText domain.now (domain_of trees.domain)) }
    ensures problem { IfOk result (λ trees. IsProblemText problem.now (problem_of trees.problem)) }
    ensures refused { IfErr result (λ fault. IfSome (reported_in fault) (IsTaskFault domain.now problem.now)) }
    ensures unread { IfErr result (λ fault. IfSome (reported_in fault) (λ _. AreUnread domain.now problem.now)) }
{
    let domain = match read_domain(alloc, domain) {
        Ok(domain) => domain,
        Err(fault) => return Err(FileFault::of(File::Domain, fault)),
    };
    let problem = match read_problem(alloc, problem) {
        Ok(problem) => problem,
        Err(fault) => return Err(FileFault::of(File::Problem, fault)),
    };
    Ok(Trees { domain, problem })
}

/// Reads the plan of a plan file, for this task.
///
/// # Errors
/// The first fault of the text, reported for the plan file; or an allocation failed.
pub fn plan_of_file(alloc: Global, task: &Task, text: &[u8]) -> Result<Plan, FileFault>
    ensures plan { IfOk result (λ plan. IsPlanText (task_of task.now) text.now (plan_of plan)) }
    ensures instances { IfOk result (λ plan. IsTrue (list_all (is_instance (task_of task.now)) (plan_of plan))) }
    ensures refused { (domain problem : List ℕ) → IsTaskOf domain problem (task_of task.now)
        → IfErr result (λ fault. IfSome (reported_in fault) (IsFileFault domain problem text.now)) }
{
    match read_plan(alloc, task, text) {
        Ok(plan) => Ok(plan),
        Err(fault) => Err(FileFault::of(File::Plan, fault)),
    }
}

fn read_domain(alloc: Global, text: &[u8]) -> Result<pddl_tree::Domain<'_>, Fault>
    ensures domain { IfOk result (λ domain. IsDomainText text.now (domain_of domain)) }
    ensures refused { IfErr result (λ fault. IfSome (reported_by fault) (IsTextFault domain_file text.now)) }
{
    let words = scan(alloc, text)?;
    pddl_tree::domain(alloc, &words)
}

fn read_problem(alloc: Global, text: &[u8]) -> Result<pddl_tree::Problem<'_>, Fault>
    ensures problem { IfOk result (λ problem. IsProblemText text.now (problem_of problem)) }
    ensures refused { IfErr result (λ fault. IfSome (reported_by fault) (IsTextFault problem_file text.now)) }
{
    let words = scan(alloc, text)?;
    pddl_tree::problem(alloc, &words)
}

/// Two texts are at most one task, and no fault is reported for texts that are a task. Proved for all texts; the function does
/// nothing.
pub fn one_task()
    ensures one { (domain problem : List ℕ) (task other : model.Task)
        → IsTaskOf domain problem task → IsTaskOf domain problem other → task ≡ other }
    ensures none { (domain problem : List ℕ) (task : model.Task) (fault : reported.FileFault)
        → IsTaskOf domain problem task → IsTaskFault domain problem fault → ⊥ }
{}
