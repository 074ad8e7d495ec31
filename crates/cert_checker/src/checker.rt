//! The checker: it accepts exactly the texts of certificates that are closed for the task, whose claims hold for every plan.
ghost use Rattle.std.specs.Prelude.{◌≡◌, ℕ, List, Some, None, IsTrue, IfErr, IfOk, OnOk, length};
ghost use Rattle.std.specs.List.{list_all};
ghost use Rattle.std.specs.Option.{ForSome, option_map};
ghost use Rattle.task.specs.Task.{task_of};
ghost use Rattle.formulas.specs.State.{plan_of};
ghost use Rattle.model.specs.Meaning.{is_instance};
ghost use Rattle.certificate_definitions.specs.CertificateChecking.{IsAccepted};
ghost use Rattle.cert_checker.specs.Weights.{AreCounted};
ghost use Rattle.certificate_reader.specs.Reader.{source_of};
ghost use Rattle.cert_checker.specs.Reading.{CountsRefusal, IsFresh};
ghost use Rattle.certificate.specs.Certificate.{certificate_of};
ghost use Rattle.model.specs.Limits.{max_numbered_atoms};
ghost use Rattle.model.specs.Grounding.{exceeded_limit};
ghost use Rattle.certificate_definitions.specs.Certificates.{IsClosedFor, lines_of};
ghost use Rattle.cert_checker.specs.FluentAtoms.{AreFluent};
ghost use Rattle.cert_checker.specs.Exchanged.{is_said};
ghost use Rattle.cert_checker.specs.CheckedLines.{CutsAreAllowed};
ghost use Rattle.cert_checker.specs.CertChecker.{Answers, IsFirstRefusal, IsNoFault, IsShown, IsTrueRefusal};
ghost use Rattle.cert_checker.specs.Checking.{Accepts, Refuses};
ghost use Rattle.cert_checker.specs.CheckProgress.{IsCheckLine};
ghost use Rattle.devices.specs.Progress.{AreSaid, stream};

mod answer;
mod classes;
mod evidence;
mod landmark_values;
mod packed;
mod steps;
mod symmetry;
mod values;
mod weights;

use crate::cert_reader::read_cert;
use crate::check_progress::say_whole;
use crate::refusal::Refusal;
use certificate::{Cert, CertReader};
use devices::{Sink, Source, Unheard};
use formulas::Plan;
use std::alloc::Global;
use task::Task;

/// What an accepted certificate shows.
#[derive(Clone, Copy, Debug, PartialEq, Eq)]
pub enum Accepted {
    /// The given plan solves the task at this cost, and no plan solves it at less.
    Optimal {
        /// The plan's cost.
        cost: u64,
    },
    /// No plan solves the task at less than this cost.
    AtLeast {
        /// The bound.
        cost: u64,
    },
    /// No plan solves the task.
    Unsolvable,
}

/// Decides whether the reader's text is that of a certificate closed for the task and, if a plan is given, whether the plan
/// solves the task at no more than the claimed cost. Nothing has been read from the reader yet, and the plan's instances are the
/// task's. Lines are read one at a time; the text is not kept.
///
/// # Errors
/// The first of these that applies:
/// - the first faulty line, as [`read_cert`] reports it (40 to 44, 52, 55);
/// - 55: the ground task has more than `max_instances` instances or 1,048,576 numbered atoms;
/// - 59: the first exchange that is no symmetry of the task, with its line;
/// - value by value, 46: the first instance that may lose more than it costs; or 47: more than 0 may be left in a goal state;
/// - of the value for dead ends, 56: the first instance that may lose anything; or 57: more than 0 may be left in a goal state;
/// - 62: the first landmark value that is not fair, with its line;
/// - 63: the first dead end that rests on a landmark value that is not dead-fair, with its line;
/// - 45: no state of the initial state's class is listed at cost 0;
/// - line by line, 48 to 51, 58: a wrong expanded state, cut or dead end;
/// - 53, 54: the plan does not solve the task, or is dearer than claimed.
///
/// [`Refusal::Device`]: the device failed. [`Refusal::NoMemory`]: an allocation failed.
pub fn check<R: Source>(
    alloc: Global,
    task: &Task,
    reader: &mut CertReader<R>,
    plan: Option<&Plan>,
    max_instances: u32,
) -> Result<Accepted, Refusal>
    requires fresh { IsFresh reader.old }
    requires instances { ForSome plan (λ p. IsTrue (list_all (is_instance (task_of task.now)) (plan_of p.now))) }

    // The answer holds for all lists of instances.
    ensures shown { IfOk result (IsShown (task_of task.now) (option_map (λ p. plan_of p.now) plan.entry)) }

    // It accepts exactly the texts of closed certificates, with a plan that costs no more than claimed if one is given. Only
    // limits of the ground task, memory and the device may prevent that.
    ensures accepted { IfOk result (Accepts R.remaining (task_of task.now) reader.old reader.new (option_map (λ p. plan_of p.now) plan.entry) max_instances) }
    ensures accepts { (text : List ℕ) → R.remaining (source_of reader.old) ≡ Some text
        → IsAccepted (task_of task.now) text (option_map (λ p. plan_of p.now) plan.entry) → IfErr result IsNoFault }

    // Each refusal is true, and the first that applies.
    ensures refused { IfErr result (Refuses R.remaining (task_of task.now) reader.old reader.new (option_map (λ p. plan_of p.now) plan.entry) max_instances) }
    ensures failures { CountsRefusal (R.failures (source_of reader.old)) (R.failures (source_of reader.new)) result }
{
    check_and_say(alloc, task, reader, plan, max_instances, &mut Unheard)
}

/// [`check`], with progress: the number of lines read, at 1,024 and whenever it has doubled; at the end the numbers of atoms and
/// listed states. A failing sink changes no answer.
pub fn check_and_say<R: Source, E: Sink>(
    alloc: Global,
    task: &Task,
    reader: &mut CertReader<R>,
    plan: Option<&Plan>,
    max_instances: u32,
    err: &mut E,
) -> Result<Accepted, Refusal>
    requires fresh { IsFresh reader.old }
    requires instances { ForSome plan (λ p. IsTrue (list_all (is_instance (task_of task.now)) (plan_of p.now))) }

    // The answer holds for all lists of instances.
    ensures shown { IfOk result (IsShown (task_of task.now) (option_map (λ p. plan_of p.now) plan.entry)) }

    // It accepts exactly the texts of closed certificates, with a plan that costs no more than claimed if one is given. Only
    // limits of the ground task, memory and the device may prevent that.
    ensures accepted { IfOk result (Accepts R.remaining (task_of task.now) reader.old reader.new (option_map (λ p. plan_of p.now) plan.entry) max_instances) }
    ensures accepts { (text : List ℕ) → R.remaining (source_of reader.old) ≡ Some text
        → IsAccepted (task_of task.now) text (option_map (λ p. plan_of p.now) plan.entry) → IfErr result IsNoFault }

    // Each refusal is true, and the first that applies.
    ensures refused { IfErr result (Refuses R.remaining (task_of task.now) reader.old reader.new (option_map (λ p. plan_of p.now) plan.entry) max_instances) }
    ensures failures { CountsRefusal (R.failures (source_of reader.old)) (R.failures (source_of reader.new)) result }

    // Progress lines are true.
    ensures said { AreSaid (IsCheckLine (task_of task.now) (R.remaining (source_of reader.old))) E.may_lack_memory (stream (E.failures err.old) (E.taken err.old)) (stream (E.failures err.new) (E.taken err.new)) }
{
    let cert = read_cert(alloc, task, reader, err)?;
    say_whole(alloc, &cert, err);
    judge(alloc, task, cert, plan, max_instances)
}

/// Decides the same for a certificate that has been read without fault.
fn judge(
    alloc: Global,
    task: &Task,
    cert: Cert,
    plan: Option<&Plan>,
    max_instances: u32,
) -> Result<Accepted, Refusal>
    requires instances { ForSome plan (λ p. IsTrue (list_all (is_instance (task_of task.now)) (plan_of p.now))) }
    requires counted { AreCounted cert }
    requires said { IsTrue (list_all (is_said (task_of task.now)) (certificate_of cert).exchanges) }
    requires fluent { AreFluent (task_of task.now) (certificate_of cert).atoms }
    requires allowed { CutsAreAllowed (task_of task.now) (certificate_of cert) (length (lines_of (task_of task.now) (certificate_of cert))) }
    ensures shown { IfOk result (IsShown (task_of task.now) (option_map (λ p. plan_of p.now) plan.entry)) }
    ensures closed { OnOk result (IsClosedFor (task_of task.now) (certificate_of cert)) }
    ensures answers { IfOk result (Answers (certificate_of cert).claim (option_map (λ p. plan_of p.now) plan.entry)) }
    ensures within { OnOk result (exceeded_limit max_instances max_numbered_atoms (task_of task.now) (certificate_of cert).atoms ≡ None) }
    ensures refused { IfErr result (IsTrueRefusal (task_of task.now) (certificate_of cert) (option_map (λ p. plan_of p.now) plan.entry) max_instances) }
    ensures first { IfErr result (IsFirstRefusal (task_of task.now) (certificate_of cert) (option_map (λ p. plan_of p.now) plan.entry) max_instances) }
{
    let claim = cert.claim();
    steps::check_cert(alloc, task, cert, max_instances)?;
    answer::answer(alloc, task, claim, plan)
}
