//! `validate`: the verdict on a plan, from files.
ghost use Rattle.std.specs.Prelude.{◌≡◌, ℕ, IfErr, IfOk, IfSome, IsTrue, List, [], ◌∷◌};
ghost use Rattle.planner_main.specs.Program.{CountsFailure, IsOneOf, IsUnread, IsVerdictOn, OnThree, fault_in};
ghost use Rattle.devices.specs.Texts.{AreKept};
ghost use Rattle.model.specs.Files.{IsFileFault, IsVerdictOf};
ghost use Rattle.validator.specs.Verdict.{verdict_of};

use crate::failures::Failure;
use crate::program::inputs::{PairNames, read_pair};
use devices::{Files, read_file};
use file_answers::validate_files;
use printed_answers::Report;
use std::alloc::Global;
use validator::Verdict;

/// The verdict on the plan in a file, for the task of two files.
pub(super) fn verdict_on<F: Files>(
    alloc: Global,
    names: PairNames<'_>,
    plan: &str,
    files: &mut F,
) -> Result<Verdict, Failure>
    ensures verdict { IfOk result (λ v. OnThree (F.contents files.old) names.entry.domain.now names.entry.problem.now plan.now (λ d p l. IsVerdictOf d p l (verdict_of v))) }
    ensures refused { IfErr result (λ failure. IfSome (fault_in failure) (λ fault.
        OnThree (F.contents files.old) names.entry.domain.now names.entry.problem.now plan.now (λ d p l. IsFileFault d p l fault))) }
    ensures kept { AreKept (F.contents files.old) (F.contents files.new) }
    ensures unfailed { IfOk result (λ _. F.failures files.new ≡ F.failures files.old) }
    ensures failures { IfErr result (CountsFailure (F.failures files.old) (F.failures files.new)) }
    ensures unread { (name : List ℕ) → IsOneOf (names.entry.domain.now ∷ names.entry.problem.now ∷ plan.now ∷ []) name → IsTrue (F.is_missing files.old name) → IsUnread result }
    ensures unreadable { (name : List ℕ) → IsOneOf (names.entry.domain.now ∷ names.entry.problem.now ∷ plan.now ∷ []) name → IsTrue (F.is_unreadable files.old name) → IsUnread result }
{
    let task = read_pair(alloc, files, names.domain, names.problem)?;
    let plan = read_file(alloc, files, plan)?;
    let verdict = validate_files(alloc, &task.domain, &task.problem, &plan)?;
    Ok(verdict)
}

/// The same, as a report.
pub(super) fn report_of_validate<F: Files>(
    alloc: Global,
    names: PairNames<'_>,
    plan: &str,
    files: &mut F,
) -> Result<Report, Failure>
    ensures report { IfOk result (IsVerdictOn (F.contents files.old) names.entry.domain.now names.entry.problem.now plan.now) }
    ensures refused { IfErr result (λ failure. IfSome (fault_in failure) (λ fault.
        OnThree (F.contents files.old) names.entry.domain.now names.entry.problem.now plan.now (λ d p l. IsFileFault d p l fault))) }
    ensures kept { AreKept (F.contents files.old) (F.contents files.new) }
    ensures unfailed { IfOk result (λ _. F.failures files.new ≡ F.failures files.old) }
    ensures failures { IfErr result (CountsFailure (F.failures files.old) (F.failures files.new)) }
    ensures unread { (name : List ℕ) → IsOneOf (names.entry.domain.now ∷ names.entry.problem.now ∷ plan.now ∷ []) name → IsTrue (F.is_missing files.old name) → IsUnread result }
    ensures unreadable { (name : List ℕ) → IsOneOf (names.entry.domain.now ∷ names.entry.problem.now ∷ plan.now ∷ []) name → IsTrue (F.is_unreadable files.old name) → IsUnread result }
{
    match verdict_on(alloc, names, plan, files) {
        Ok(verdict) => Ok(Report::Validate(verdict)),
        Err(failure) => Err(failure),
    }
}
