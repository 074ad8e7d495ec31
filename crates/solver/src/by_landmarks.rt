//! Search by the potentials of a paused search that asks for landmark values: on trial at each pause, and to its end where tables were in
//! vain.
//!
//! The potentials are taken for values over no tables, so that one guide serves all searches that ask.
ghost use Rattle.std.specs.Prelude.{◌≡◌, ◌≤◌, [], IfOk, IfSome, IsTrue, length, map};
ghost use Rattle.certificate.specs.Evidence.{is_evidence, evidence_of};
ghost use Rattle.certificate_definitions.specs.Certificates.{no_landmarks, three};
ghost use Rattle.devices.specs.Progress.{MayContinue};
ghost use Rattle.search_spaces.specs.GroundListing.{listed_width};
ghost use Rattle.search_spaces.specs.SearchSpace.{ground_in, IsSearchSpace};
ghost use Rattle.grounding.specs.Ground.{task_in, atoms_in, IsGroundOf};
ghost use Rattle.lower_bounds.specs.FairTables.{AreFair};
ghost use Rattle.lower_bounds.specs.Settled.{initial_value};
ghost use Rattle.model.specs.Grounding.{ground_system};
ghost use Rattle.potentials.specs.Potentials.{potentials_of};
ghost use Rattle.solver.specs.Asked.{IsAsked};
ghost use Rattle.solver.specs.Attempts.{IfDone};
ghost use Rattle.solver.specs.Guidance.{by_tables, estimate_by, first_value};
ghost use Rattle.solver.specs.Improved.{AreSettledOrHigh, AreDeadSettledOrHigh};
ghost use Rattle.solver.specs.Said.{IsLineWithin};
ghost use Rattle.solver.specs.Solver.{IsAnswerWithin};
ghost use Rattle.solver.specs.Stopped.{IsStopped};
ghost use Rattle.solver.specs.Versions.{number_of};

use crate::answer::Answer;
use crate::asked::answer_of_asked;
use crate::asking::{Asked, search_asking};
use crate::attempt::Attempt;
use crate::by_tables::{Draft, ValuesOver, written};
use crate::fair_guide::{functions_no_lower, guide_if_fair};
use crate::guidance::potential_of;
use crate::limits::Limits;
use crate::setting::Setting;
use crate::stopped::Stopped;
use certificate::{Evidence, Landmarks, Version};
use devices::{Clock, Sink};
use faults::NoMemory;
use line_evidence::{Budget, budget_for_trial, pays};
use potentials::Potentials;
use std::alloc::Global;

/// A search that asks for landmark values.
#[derive(Clone, Copy)]
struct Trial<'a> {
    /// At the start its values are to be no lower than these potentials.
    potentials: &'a Potentials,
    /// What it may take.
    budget: Budget,
}

/// The answer of a search by the potentials of the paused one that asks for landmark values, if it ends in a part of the time that the
/// paused one has taken.
pub(crate) fn solve_on_trial<E: Sink + Clock>(
    setting: Setting<'_, '_>,
    stopped: &Stopped<'_, '_, '_>,
    err: &mut E,
) -> Result<Attempt<Answer>, NoMemory>
    requires space { IsSearchSpace setting.space }
    requires ground { IsGroundOf (task_in (ground_in setting.space)) [] setting.limits.instances (ground_in setting.space) }
    requires stopped { IsStopped stopped.now.listing.now stopped.now.nodes.now }
    requires store_width { listed_width stopped.now.listing.now ≡ length (atoms_in (ground_in setting.space)) }
    requires width { length (potentials_of stopped.now.potentials.now).weights ≡ length (atoms_in (ground_in setting.space)) }
    requires improved { AreSettledOrHigh (task_in (ground_in setting.space)) (atoms_in (ground_in setting.space)) (potentials_of stopped.now.potentials.now) }
    requires dead_ends_improved { AreDeadSettledOrHigh (task_in (ground_in setting.space)) (atoms_in (ground_in setting.space)) (potentials_of stopped.now.dead_ends.now) }
    ensures answer { IfOk result (IfDone (IsAnswerWithin (task_in (ground_in setting.entry.space)) setting.entry.limits)) }
    ensures said { MayContinue (IsLineWithin (task_in (ground_in setting.entry.space)) setting.entry.limits) E.may_lack_memory (E.failures err.old) (E.taken err.old) (E.failures err.new) (E.taken err.new) }
{
    let Setting {
        alloc,
        space,
        limits,
    } = setting;
    if !may_ask(limits, err) {
        return Ok(Attempt::InVain);
    }
    let budget = budget_for_trial(alloc, space.ground(), &stopped.paused())?;
    solve_within(setting, stopped, budget, err)
}

/// The answer of a search by the potentials of the paused one that asks for landmark values, if that is estimated to pay.
pub(crate) fn solve_asking<E: Sink + Clock>(
    setting: Setting<'_, '_>,
    stopped: &Stopped<'_, '_, '_>,
    err: &mut E,
) -> Result<Attempt<Answer>, NoMemory>
    requires space { IsSearchSpace setting.space }
    requires ground { IsGroundOf (task_in (ground_in setting.space)) [] setting.limits.instances (ground_in setting.space) }
    requires stopped { IsStopped stopped.now.listing.now stopped.now.nodes.now }
    requires store_width { listed_width stopped.now.listing.now ≡ length (atoms_in (ground_in setting.space)) }
    requires width { length (potentials_of stopped.now.potentials.now).weights ≡ length (atoms_in (ground_in setting.space)) }
    requires improved { AreSettledOrHigh (task_in (ground_in setting.space)) (atoms_in (ground_in setting.space)) (potentials_of stopped.now.potentials.now) }
    requires dead_ends_improved { AreDeadSettledOrHigh (task_in (ground_in setting.space)) (atoms_in (ground_in setting.space)) (potentials_of stopped.now.dead_ends.now) }
    ensures answer { IfOk result (IfDone (IsAnswerWithin (task_in (ground_in setting.entry.space)) setting.entry.limits)) }
    ensures said { MayContinue (IsLineWithin (task_in (ground_in setting.entry.space)) setting.entry.limits) E.may_lack_memory (E.failures err.old) (E.taken err.old) (E.failures err.new) (E.taken err.new) }
{
    let Setting {
        alloc,
        space,
        limits,
    } = setting;
    if !may_ask(limits, err) {
        return Ok(Attempt::InVain);
    }
    if !pays(alloc, space.ground(), &stopped.paused())? {
        return Ok(Attempt::InVain);
    }
    solve_within(setting, stopped, Budget::unlimited(), err)
}

/// Whether a search may ask for landmark values: the certificate may have them, and there is time.
fn may_ask<C: Clock>(limits: Limits, clock: &C) -> bool
    ensures { IsTrue result → 4 ≤ number_of limits.version }
{
    limits.allow_version_four() && !limits.are_over(clock)
}

/// The answer of a search by the potentials of the paused one that asks for landmark values, if it ends within this budget.
fn solve_within<E: Sink + Clock>(
    setting: Setting<'_, '_>,
    stopped: &Stopped<'_, '_, '_>,
    budget: Budget,
    err: &mut E,
) -> Result<Attempt<Answer>, NoMemory>
    requires version { 4 ≤ number_of setting.limits.version }
    requires space { IsSearchSpace setting.space }
    requires ground { IsGroundOf (task_in (ground_in setting.space)) [] setting.limits.instances (ground_in setting.space) }
    requires width { length (potentials_of stopped.now.potentials.now).weights ≡ length (atoms_in (ground_in setting.space)) }
    requires improved { AreSettledOrHigh (task_in (ground_in setting.space)) (atoms_in (ground_in setting.space)) (potentials_of stopped.now.potentials.now) }
    requires dead_ends_improved { AreDeadSettledOrHigh (task_in (ground_in setting.space)) (atoms_in (ground_in setting.space)) (potentials_of stopped.now.dead_ends.now) }
    ensures answer { IfOk result (IfDone (IsAnswerWithin (task_in (ground_in setting.entry.space)) setting.entry.limits)) }
    ensures said { MayContinue (IsLineWithin (task_in (ground_in setting.entry.space)) setting.entry.limits) E.may_lack_memory (E.failures err.old) (E.taken err.old) (E.failures err.new) (E.taken err.new) }
{
    match without_tables(setting, stopped)? {
        Some(draft) => {
            let trial = Trial {
                potentials: stopped.potentials,
                budget,
            };
            answer_asking(setting, draft, trial, err)
        }
        None => Ok(Attempt::InVain),
    }
}

/// The potentials of the paused search, as values over no tables, if a certificate can have them.
fn without_tables(
    setting: Setting<'_, '_>,
    stopped: &Stopped<'_, '_, '_>,
) -> Result<Option<Draft>, NoMemory>
    ensures within_limits { IfOk result (λ o. IfSome o (λ draft. IsTrue (is_evidence three (length (atoms_in (ground_in setting.entry.space))) (evidence_of draft.evidence) no_landmarks))) }
    ensures values { IfOk result (λ o. IfSome o (λ draft. map potentials_of draft.values.items ≡ (evidence_of draft.evidence).values)) }
    ensures dead_ends { IfOk result (λ o. IfSome o (λ draft. potentials_of draft.dead_ends ≡ (evidence_of draft.evidence).dead_ends)) }
    ensures first { IfOk result (λ o. IfSome o (λ draft. first_value (by_tables (evidence_of draft.evidence)) ≡ potentials_of stopped.now.potentials.now)) }
    ensures given_dead_ends { IfOk result (λ o. IfSome o (λ draft. potentials_of draft.dead_ends ≡ potentials_of stopped.now.dead_ends.now)) }
{
    let Setting { alloc, space, .. } = setting;
    let value = stopped.potentials.copied(alloc)?;
    let dead_ends = stopped.dead_ends.copied(alloc)?;
    let values = vec![in alloc; value]?;
    let evidence = Evidence {
        values: written(alloc, &values)?,
        dead_ends: potential_of(alloc, &dead_ends)?,
        tables: Vec::new(alloc),
        landmarks: Landmarks::none(alloc),
    };
    if !evidence.keep_limits(Version::Three, space.ground().width() as usize) {
        return Ok(None);
    }
    Ok(Some(Draft {
        evidence,
        values,
        dead_ends,
    }))
}

/// The answer of a search by this draft that asks for landmark values.
fn answer_asking<E: Sink + Clock>(
    setting: Setting<'_, '_>,
    draft: Draft,
    trial: Trial<'_>,
    err: &mut E,
) -> Result<Attempt<Answer>, NoMemory>
    requires version { 4 ≤ number_of setting.limits.version }
    requires space { IsSearchSpace setting.space }
    requires ground { IsGroundOf (task_in (ground_in setting.space)) [] setting.limits.instances (ground_in setting.space) }
    requires within_limits { IsTrue (is_evidence three (length (atoms_in (ground_in setting.space))) (evidence_of draft.evidence) no_landmarks) }
    requires values { map potentials_of draft.values.items ≡ (evidence_of draft.evidence).values }
    requires dead_ends { potentials_of draft.dead_ends ≡ (evidence_of draft.evidence).dead_ends }
    requires first { first_value (by_tables (evidence_of draft.evidence)) ≡ potentials_of trial.potentials.now }
    requires width { length (potentials_of trial.potentials.now).weights ≡ length (atoms_in (ground_in setting.space)) }
    requires improved { AreSettledOrHigh (task_in (ground_in setting.space)) (atoms_in (ground_in setting.space)) (potentials_of trial.potentials.now) }
    requires dead_ends_improved { AreDeadSettledOrHigh (task_in (ground_in setting.space)) (atoms_in (ground_in setting.space)) (potentials_of draft.dead_ends) }
    ensures answer { IfOk result (IfDone (IsAnswerWithin (task_in (ground_in setting.entry.space)) setting.entry.limits)) }
    ensures said { MayContinue (IsLineWithin (task_in (ground_in setting.entry.space)) setting.entry.limits) E.may_lack_memory (E.failures err.old) (E.taken err.old) (E.failures err.new) (E.taken err.new) }
{
    let Draft {
        evidence,
        values,
        dead_ends,
    } = draft;
    let over = ValuesOver {
        evidence: &evidence,
        values,
        dead_ends,
    };
    let Some(asked) = search_over(setting, over, trial, err)? else {
        return Ok(Attempt::InVain);
    };
    match answer_of_asked(setting, evidence, asked)? {
        Some(answer) => Ok(Attempt::Done(answer)),
        None => Ok(Attempt::InVain),
    }
}

/// Searches by these values and asks for landmark values, if they are fair and no lower than the trial's potentials at the start.
fn search_over<'l, 't, E: Sink + Clock>(
    setting: Setting<'l, 't>,
    over: ValuesOver<'_>,
    trial: Trial<'_>,
    err: &mut E,
) -> Result<Option<Asked<'l, 't>>, NoMemory>
    requires space { IsSearchSpace setting.space }
    requires within_limits { IsTrue (is_evidence three (length (atoms_in (ground_in setting.space))) (evidence_of over.evidence.now) no_landmarks) }
    requires values { map potentials_of over.values.items ≡ (evidence_of over.evidence.now).values }
    requires dead_ends { potentials_of over.dead_ends ≡ (evidence_of over.evidence.now).dead_ends }
    requires width { length (potentials_of trial.potentials.now).weights ≡ length (atoms_in (ground_in setting.space)) }
    ensures fair { IfOk result (λ o. IfSome o (λ _. AreFair (task_in (ground_in setting.entry.space)) (atoms_in (ground_in setting.entry.space)) (evidence_of over.entry.evidence.now))) }
    ensures no_lower { IfOk result (λ o. IfSome o (λ _. initial_value (task_in (ground_in setting.entry.space)) (atoms_in (ground_in setting.entry.space)) (potentials_of trial.entry.potentials.now) ≤ estimate_by (by_tables (evidence_of over.entry.evidence.now)) (ground_system (task_in (ground_in setting.entry.space)) (atoms_in (ground_in setting.entry.space))).initial)) }
    ensures asked { IfOk result (λ o. IfSome o (IsAsked setting.entry.space (evidence_of over.entry.evidence.now) setting.entry.limits)) }
    ensures said { MayContinue (IsLineWithin (task_in (ground_in setting.entry.space)) setting.entry.limits) E.may_lack_memory (E.failures err.old) (E.taken err.old) (E.failures err.new) (E.taken err.new) }
{
    let Some(functions) = functions_no_lower(setting, over, trial.potentials)? else {
        return Ok(None);
    };
    match guide_if_fair(setting, functions, err)? {
        Attempt::Done(guide) => search_asking(setting, &guide, trial.budget, err),
        _ => Ok(None),
    }
}
