//! From the bytes of a domain file and a problem file, and the text of a certificate, to what the certificate shows.
ghost use Rattle.std.specs.Prelude.{◌≡◌, ℕ, List, Option, IfOk, IfErr, IfSome, IsErr, IsTrue, None};
ghost use Rattle.task.specs.Task.{task_of};
ghost use Rattle.cert_checker.specs.CheckProgress.{IsCheckLine};
ghost use Rattle.devices.specs.Progress.{AreSaid, stream};
ghost use Rattle.file_answers.specs.SaidOf.{IsCheckLineOf};
ghost use Rattle.cert_checker.specs.Reading.{CountsRefusal, IsFresh};
ghost use Rattle.certificate_reader.specs.Reader.{source_of};
ghost use Rattle.file_answers.specs.Checked.{IsChecked};
ghost use Rattle.file_answers.specs.Inputs.{IsGiven, IsInputFault};
ghost use Rattle.file_answers.specs.Files.{text_in, reported_in};
ghost use Rattle.model.specs.Task as model;
ghost use Rattle.model.specs.Files.{IsTaskOf};
ghost use Rattle.model.specs.PlanWriting.{has_names};

use crate::files::{FileFault, TaskFiles, plan_of_file, task_of_files};
use cert_checker::{Accepted, Refusal, check_and_say};
use certificate::CertReader;
use devices::{Sink, Source, Unheard};
use std::alloc::Global;
use task::Task;

/// What a certificate is checked against.
#[derive(Clone, Copy)]
pub struct CheckInputs<'a> {
    /// The files of the task.
    pub task: TaskFiles<'a>,
    /// The text of the plan file, if one is given.
    pub plan: Option<&'a [u8]>,
    /// The maximum number of instances that may be kept.
    pub max_instances: u32,
}

/// A task read from files, with the checker's answer to a certificate for it.
#[derive(Drop)]
pub struct Checked {
    /// The task of the two files.
    pub task: Task,
    /// What the certificate shows, or why it is refused.
    pub answer: Result<Accepted, Refusal>,
    pub ghost names: { IsTrue (has_names (task_of task)) },
}

/// What a certificate shows about the task of two files, and about the plan of a third, if it is given. The reader must be a new
/// one.
///
/// The domain is scanned and parsed, then the problem; then both are typed together, and the plan is read. The first fault ends
/// the call, and the certificate is not read at all. Otherwise its lines are checked as they are read.
///
/// ```
/// let inputs = CheckInputs { task: TaskFiles { domain, problem }, plan: None, max_instances: 1_000_000 };
/// let mut cert = CertReader::new(alloc, Memory::new(text));
/// match check_files(alloc, inputs, &mut cert)?.answer {
///     Ok(Accepted::AtLeast { cost }) => println!(rt; "no plan costs less than {cost}")?,
///     Ok(Accepted::Unsolvable) => println!(rt; "there is no plan")?,
///     Ok(Accepted::Optimal { .. }) => println!(rt; "only where a plan is given")?,
///     Err(_) => println!(rt; "the certificate shows nothing")?,
/// }
/// ```
pub fn check_files<R: Source>(
    alloc: Global,
    inputs: CheckInputs<'_>,
    cert: &mut CertReader<R>,
) -> Result<Checked, FileFault>
    requires { IsFresh cert.old }

    // The task is that of the two texts, and the answer is correct for it and for what was read of the certificate.
    ensures task { IfOk result (λ c. IsTaskOf inputs.entry.task.domain.now inputs.entry.task.problem.now (task_of c.task)) }
    ensures answer { IfOk result (λ c. IsChecked R.remaining (task_of c.task) cert.old cert.new (text_in inputs.entry.plan) inputs.entry.max_instances c.answer) }
    ensures names { IfOk result (λ c. IsTrue (has_names (task_of c.task))) }
    ensures failures { IfOk result (λ c. CountsRefusal (R.failures (source_of cert.old)) (R.failures (source_of cert.new)) c.answer) }
    ensures refused { IfErr result (λ fault. IfSome (reported_in fault) (IsInputFault inputs.entry.task.domain.now inputs.entry.task.problem.now (text_in inputs.entry.plan))) }
    ensures unread { IsErr result → cert.new ≡ cert.old }

    // If the texts are a task, and a plan for it if one is given, there is an answer: the only error is running out of memory.
    ensures taken { (task : model.Task) (steps : Option (List model.Instance)) → IsTaskOf inputs.entry.task.domain.now inputs.entry.task.problem.now task
        → IsGiven task (text_in inputs.entry.plan) steps → IfErr result (λ fault. reported_in fault ≡ None) }
{
    check_files_and_say(alloc, inputs, cert, &mut Unheard)
}

/// The same, with progress reports of how much of the certificate has been read, as by `check_and_say`.
pub fn check_files_and_say<R: Source, E: Sink>(
    alloc: Global,
    inputs: CheckInputs<'_>,
    cert: &mut CertReader<R>,
    err: &mut E,
) -> Result<Checked, FileFault>
    requires { IsFresh cert.old }

    // The task is that of the two texts, and the answer is correct for it and for what was read of the certificate.
    ensures task { IfOk result (λ c. IsTaskOf inputs.entry.task.domain.now inputs.entry.task.problem.now (task_of c.task)) }
    ensures answer { IfOk result (λ c. IsChecked R.remaining (task_of c.task) cert.old cert.new (text_in inputs.entry.plan) inputs.entry.max_instances c.answer) }
    ensures names { IfOk result (λ c. IsTrue (has_names (task_of c.task))) }
    ensures failures { IfOk result (λ c. CountsRefusal (R.failures (source_of cert.old)) (R.failures (source_of cert.new)) c.answer) }
    ensures refused { IfErr result (λ fault. IfSome (reported_in fault) (IsInputFault inputs.entry.task.domain.now inputs.entry.task.problem.now (text_in inputs.entry.plan))) }
    ensures unread { IsErr result → cert.new ≡ cert.old }

    // If the texts are a task, and a plan for it if one is given, there is an answer: the only error is running out of memory.
    ensures taken { (task : model.Task) (steps : Option (List model.Instance)) → IsTaskOf inputs.entry.task.domain.now inputs.entry.task.problem.now task
        → IsGiven task (text_in inputs.entry.plan) steps → IfErr result (λ fault. reported_in fault ≡ None) }

    // Every progress line is true of the task of the two texts.
    ensures said { AreSaid (IsCheckLineOf inputs.entry.task.domain.now inputs.entry.task.problem.now (R.remaining (source_of cert.old))) E.may_lack_memory (stream (E.failures err.old) (E.taken err.old)) (stream (E.failures err.new) (E.taken err.new)) }
{
    let task = task_of_files(alloc, inputs.task.domain, inputs.task.problem)?;
    Checker { alloc, inputs }.check_task(task, cert, err)
}

/// Checks a certificate for a task, and for the plan that the inputs give.
#[derive(Clone, Copy)]
struct Checker<'a> {
    alloc: Global,
    inputs: CheckInputs<'a>,
}

impl Checker<'_> {
    /// The task with the checker's answer to the certificate.
    fn check_task<R: Source, E: Sink>(
        self,
        task: Task,
        cert: &mut CertReader<R>,
        err: &mut E,
    ) -> Result<Checked, FileFault>
        requires fresh { IsFresh cert.old }
        requires names { IsTrue (has_names (task_of task)) }
        ensures task { (domain problem : List ℕ) → IsTaskOf domain problem (task_of task) → IfOk result (λ c. IsTaskOf domain problem (task_of c.task)) }
        ensures answer { IfOk result (λ c. IsChecked R.remaining (task_of c.task) cert.old cert.new (text_in self.entry.inputs.plan) self.entry.inputs.max_instances c.answer) }
        ensures failures { IfOk result (λ c. CountsRefusal (R.failures (source_of cert.old)) (R.failures (source_of cert.new)) c.answer) }
        ensures refused { (domain problem : List ℕ) → IsTaskOf domain problem (task_of task)
            → IfErr result (λ fault. IfSome (reported_in fault) (IsInputFault domain problem (text_in self.entry.inputs.plan))) }
        ensures unread { IsErr result → cert.new ≡ cert.old }
        ensures said { (domain problem : List ℕ) → IsTaskOf domain problem (task_of task)
            → AreSaid (IsCheckLineOf domain problem (R.remaining (source_of cert.old))) E.may_lack_memory (stream (E.failures err.old) (E.taken err.old)) (stream (E.failures err.new) (E.taken err.new)) }
    {
        match self.answer_on(&task, cert, err) {
            Ok(answer) => Ok(Checked { task, answer }),
            Err(fault) => Err(fault),
        }
    }

    /// The checker's answer to the certificate for this task, and for the plan that the inputs give, if any.
    fn answer_on<R: Source, E: Sink>(
        self,
        task: &Task,
        cert: &mut CertReader<R>,
        err: &mut E,
    ) -> Result<Result<Accepted, Refusal>, FileFault>
        requires { IsFresh cert.old }
        ensures answer { IfOk result (IsChecked R.remaining (task_of task.now) cert.old cert.new (text_in self.entry.inputs.plan) self.entry.inputs.max_instances) }
        ensures failures { IfOk result (CountsRefusal (R.failures (source_of cert.old)) (R.failures (source_of cert.new))) }
        ensures refused { (domain problem : List ℕ) → IsTaskOf domain problem (task_of task.now)
            → IfErr result (λ fault. IfSome (reported_in fault) (IsInputFault domain problem (text_in self.entry.inputs.plan))) }
        ensures unread { IsErr result → cert.new ≡ cert.old }
        ensures said { AreSaid (IsCheckLine (task_of task.now) (R.remaining (source_of cert.old))) E.may_lack_memory (stream (E.failures err.old) (E.taken err.old)) (stream (E.failures err.new) (E.taken err.new)) }
    {
        let (alloc, most) = (self.alloc, self.inputs.max_instances);
        let Some(text) = self.inputs.plan else {
            return Ok(check_and_say(alloc, task, cert, None, most, err));
        };
        let plan = plan_of_file(alloc, task, text)?;
        Ok(check_and_say(alloc, task, cert, Some(&plan), most, err))
    }
}
