//! `solve`: an optimal plan, from files.
ghost use Rattle.std.specs.Prelude.{◌≡◌, ℕ, IfErr, IfOk, IfSome, IsTrue, List, [], ◌∷◌};
ghost use Rattle.planner_main.specs.Program.{CountsFailure, IsOneOf, IsSolutionOn, IsUnread, OnTwo, fault_in};
ghost use Rattle.devices.specs.Texts.{AreKept};
ghost use Rattle.model.specs.Files.{IsTaskFault, IsTaskOf};
ghost use Rattle.task.specs.Task.{task_of};
ghost use Rattle.file_answers.specs.Files.{reported_in};
ghost use Rattle.file_answers.specs.SaidOf.{IsTrueLineOf};
ghost use Rattle.planner_main.specs.Progress.{HasEndedIf, IsSearchLine};
ghost use Rattle.devices.specs.Progress.{AreSaid, stream};
ghost use Rattle.solver.specs.Said.{HasEnded};
ghost use Rattle.solver.specs.Solver.{HasVersionUpTo, IsTrueAnswer};
ghost use Rattle.solver.specs.Versions.{number_of};

use crate::failures::Failure;
use crate::program::inputs::{PairNames, TaskTexts, read_pair};
use devices::{Clock, Files, Quiet, Sink};
use file_answers::{FileFault, Solved, TaskFiles, solve_files_and_say};
use printed_answers::Report;
use solver::Limits;
use std::alloc::Global;

/// The files and options of `solve`.
#[derive(Clone, Copy)]
pub(super) struct SolveAsked<'a> {
    /// The domain file and the problem file.
    pub(super) names: PairNames<'a>,
    /// The limits of the search.
    pub(super) limits: Limits,
    /// Whether the progress of the search is reported.
    pub(super) progress: bool,
}

/// An optimal plan for the task of two files, that there is none, or the limit that is exceeded. If progress is asked for, the
/// progress of the search is reported.
pub(super) fn report_of_solve<F: Files, E: Sink + Clock>(
    alloc: Global,
    asked: SolveAsked<'_>,
    files: &mut F,
    err: &mut E,
) -> Result<Report, Failure>
    ensures report { IfOk result (IsSolutionOn (F.contents files.old) asked.entry.names.domain.now asked.entry.names.problem.now asked.entry.limits.seconds asked.entry.limits.states asked.entry.limits.instances (number_of asked.entry.limits.version)) }
    ensures refused { IfErr result (λ failure. IfSome (fault_in failure) (λ fault.
        OnTwo (F.contents files.old) asked.entry.names.domain.now asked.entry.names.problem.now (λ d p. IsTaskFault d p fault))) }
    ensures kept { AreKept (F.contents files.old) (F.contents files.new) }
    ensures unfailed { IfOk result (λ _. F.failures files.new ≡ F.failures files.old) }
    ensures failures { IfErr result (CountsFailure (F.failures files.old) (F.failures files.new)) }
    ensures unread { (name : List ℕ) → IsOneOf (asked.entry.names.domain.now ∷ asked.entry.names.problem.now ∷ []) name → IsTrue (F.is_missing files.old name) → IsUnread result }
    ensures unreadable { (name : List ℕ) → IsOneOf (asked.entry.names.domain.now ∷ asked.entry.names.problem.now ∷ []) name → IsTrue (F.is_unreadable files.old name) → IsUnread result }
    ensures progress { AreSaid (IsSearchLine (F.contents files.old) asked.entry.names.domain.now asked.entry.names.problem.now asked.entry.limits.seconds asked.entry.limits.states asked.entry.limits.instances asked.entry.progress) E.may_lack_memory (stream (E.failures err.old) (E.taken err.old)) (stream (E.failures err.new) (E.taken err.new)) }
    ensures ended { IfOk result (HasEndedIf asked.entry.progress E.may_lack_memory (E.failures err.new) (E.taken err.new)) }
{
    let pair = read_pair(alloc, files, asked.names.domain, asked.names.problem)?;
    let solved = solved(alloc, &pair, asked, err)?;
    Ok(Report::Solve(solved))
}

/// The answer to the task of two texts.
fn solved<E: Sink + Clock>(
    alloc: Global,
    pair: &TaskTexts,
    asked: SolveAsked<'_>,
    err: &mut E,
) -> Result<Solved, FileFault>
    ensures task { IfOk result (λ s. IsTaskOf pair.now.domain.items pair.now.problem.items (task_of s.task)) }
    ensures answer { IfOk result (λ s. IsTrueAnswer (task_of s.task) asked.entry.limits.seconds asked.entry.limits.states asked.entry.limits.instances s.answer) }
    ensures version { IfOk result (λ s. HasVersionUpTo (number_of asked.entry.limits.version) s.answer) }
    ensures refused { IfErr result (λ fault. IfSome (reported_in fault) (IsTaskFault pair.now.domain.items pair.now.problem.items)) }
    ensures progress { AreSaid (λ line. IsTrue asked.entry.progress × IsTrueLineOf pair.now.domain.items pair.now.problem.items asked.entry.limits.seconds asked.entry.limits.states asked.entry.limits.instances line) E.may_lack_memory (stream (E.failures err.old) (E.taken err.old)) (stream (E.failures err.new) (E.taken err.new)) }
    ensures ended { IfOk result (λ s. IsTrue asked.entry.progress → HasEnded E.may_lack_memory (E.failures err.new) (E.taken err.new) s.answer) }
{
    let files = TaskFiles {
        domain: &pair.domain,
        problem: &pair.problem,
    };
    if asked.progress {
        solve_files_and_say(alloc, files, asked.limits, err)
    } else {
        let mut quiet = Quiet(err);
        solve_files_and_say(alloc, files, asked.limits, &mut quiet)
    }
}
