//! Search by values over tables.
//!
//! Nothing is known of drafted tables. They are used if a certificate can have them, if they would have saved the paused search by
//! potentials enough of its expansions, and if they pass the test of fairness. The potentials of the first value are those of that
//! search. The search by tables pauses once too, and others are drafted from what it found.
ghost use Rattle.std.specs.Prelude.{◌≡◌, ◌≤◌, [], IfOk, IfSome, IsTrue, Some, length, map, slice_get};
ghost use Rattle.certificate.specs.Evidence.{is_evidence, evidence_of, potential_of};
ghost use Rattle.certificate_definitions.specs.Certificates.{no_landmarks, three};
ghost use Rattle.grounding.specs.Ground.{task_in, atoms_in, IsGroundOf};
ghost use Rattle.model.specs.Grounding.{ground_system};
ghost use Rattle.search_spaces.specs.GroundListing.{listed_width};
ghost use Rattle.lower_bounds.specs.Settled.{initial_value};
ghost use Rattle.potentials.specs.Potentials.{potentials_of};
ghost use Rattle.solver.specs.Asked.{IsTablesEnding};
ghost use Rattle.solver.specs.Attempts.{IfDone};
ghost use Rattle.solver.specs.Guidance.{by_tables, estimate_by, first_value, reports_dead};
ghost use Rattle.solver.specs.Guided.{IsEnding, IsGuidanceFor};
ghost use Rattle.solver.specs.Improved.{AreSettledOrHigh, AreDeadSettledOrHigh};
ghost use Rattle.search_spaces.specs.SearchSpace.{ground_in, IsSearchSpace};
ghost use Rattle.devices.specs.Progress.{MayContinue};
ghost use Rattle.solver.specs.Said.{IsLineWithin};
ghost use Rattle.solver.specs.Solver.{IsAnswerWithin};
ghost use Rattle.solver.specs.Versions.{number_of};
ghost use Rattle.solver.specs.Stopped.{IsStopped};
ghost use Rattle.solver.specs.Stretches.{IsTrueEnd};
ghost use Rattle.guides.specs.FairTables as guides;
ghost use Rattle.guides.specs.FairTables.{functions_in};
ghost use Rattle.lower_bounds.specs.FairTables.{AreFair};

use crate::answer::{Answer, answer_of};
use crate::asked::answer_of_asked;
use crate::attempt::Attempt;
use crate::fair_guide::{functions_no_lower, guide_if_fair};
use crate::fair_tables::{TablesEnding, search_or_ask};
use crate::guidance::{Guidance, potential_of};
use crate::parts::{Drafting, Given, LATER, Parts};
use crate::searched::{Ending, search_by};
use crate::setting::Setting;
use crate::stopped::Stopped;
use certificate::{Evidence, Landmarks, Version, WrittenPotentials};
use devices::{Clock, Sink};
use faults::NoMemory;
use guides::FairTables;
use potentials::Potentials;
use search_spaces::SearchSpace;
use std::alloc::Global;
use tables_drafted::{DraftInput, DraftedTables, drafted_tables};

/// A draft of values over tables: as a certificate has them, and their constants and weights of atoms as potentials.
#[derive(Drop)]
pub(crate) struct Draft {
    pub(crate) evidence: Evidence,
    pub(crate) values: Vec<Potentials>,
    pub(crate) dead_ends: Potentials,
}

/// A draft of which the certificate's part is only lent.
#[derive(Drop)]
pub(crate) struct ValuesOver<'a> {
    pub(crate) evidence: &'a Evidence,
    pub(crate) values: Vec<Potentials>,
    pub(crate) dead_ends: Potentials,
}

/// The answer by tables, if better ones than the potentials of the paused search are found.
pub(crate) fn solve_by_tables<E: Sink + Clock>(
    setting: Setting<'_, '_>,
    stopped: &Stopped<'_, '_, '_>,
    err: &mut E,
) -> Result<Attempt<Answer>, NoMemory>
    requires version { 3 ≤ number_of setting.limits.version }
    requires space { IsSearchSpace setting.space }
    requires ground { IsGroundOf (task_in (ground_in setting.space)) [] setting.limits.instances (ground_in setting.space) }
    requires stopped { IsStopped stopped.now.listing.now stopped.now.nodes.now }
    requires store_width { listed_width stopped.now.listing.now ≡ length (atoms_in (ground_in setting.space)) }
    requires width { length (potentials_of stopped.now.potentials.now).weights ≡ length (atoms_in (ground_in setting.space)) }
    requires improved { AreSettledOrHigh (task_in (ground_in setting.space)) (atoms_in (ground_in setting.space)) (potentials_of stopped.now.potentials.now) }
    requires dead_ends_improved { AreDeadSettledOrHigh (task_in (ground_in setting.space)) (atoms_in (ground_in setting.space)) (potentials_of stopped.now.dead_ends.now) }
    ensures answer { IfOk result (IfDone (IsAnswerWithin (task_in (ground_in setting.entry.space)) setting.entry.limits)) }
    ensures said { MayContinue (IsLineWithin (task_in (ground_in setting.entry.space)) setting.entry.limits) E.may_lack_memory (E.failures err.old) (E.taken err.old) (E.failures err.new) (E.taken err.new) }
{
    match draft_for(setting, stopped, err)? {
        Some(draft) => answer_by_tables(setting, draft, stopped, err),
        None => Ok(Attempt::InVain),
    }
}

/// The answer by other tables, if better ones than those of the paused search, which goes by tables, are found.
pub(crate) fn solve_by_later_tables<E: Sink + Clock>(
    setting: Setting<'_, '_>,
    stopped: &Stopped<'_, '_, '_>,
    err: &mut E,
) -> Result<Attempt<Answer>, NoMemory>
    requires version { 3 ≤ number_of setting.limits.version }
    requires space { IsSearchSpace setting.space }
    requires ground { IsGroundOf (task_in (ground_in setting.space)) [] setting.limits.instances (ground_in setting.space) }
    requires stopped { IsStopped stopped.now.listing.now stopped.now.nodes.now }
    requires store_width { listed_width stopped.now.listing.now ≡ length (atoms_in (ground_in setting.space)) }
    requires width { length (potentials_of stopped.now.potentials.now).weights ≡ length (atoms_in (ground_in setting.space)) }
    requires improved { AreSettledOrHigh (task_in (ground_in setting.space)) (atoms_in (ground_in setting.space)) (potentials_of stopped.now.potentials.now) }
    requires dead_ends_improved { AreDeadSettledOrHigh (task_in (ground_in setting.space)) (atoms_in (ground_in setting.space)) (potentials_of stopped.now.dead_ends.now) }
    ensures answer { IfOk result (IfDone (IsAnswerWithin (task_in (ground_in setting.entry.space)) setting.entry.limits)) }
    ensures said { MayContinue (IsLineWithin (task_in (ground_in setting.entry.space)) setting.entry.limits) E.may_lack_memory (E.failures err.old) (E.taken err.old) (E.failures err.new) (E.taken err.new) }
{
    match draft_for(setting, stopped, err)? {
        Some(draft) => answer_by_later_tables(setting, draft, stopped, err),
        None => Ok(Attempt::InVain),
    }
}

/// A draft of tables that a certificate can have, which may be better than the values of the paused search. None if the time is over.
fn draft_for<C: Clock>(
    setting: Setting<'_, '_>,
    stopped: &Stopped<'_, '_, '_>,
    clock: &C,
) -> Result<Option<Draft>, NoMemory>
    requires stopped { IsStopped stopped.now.listing.now stopped.now.nodes.now }
    ensures within_limits { IfOk result (λ o. IfSome o (λ draft. IsTrue (is_evidence three (length (atoms_in (ground_in setting.entry.space))) (evidence_of draft.evidence) no_landmarks))) }
    ensures values { IfOk result (λ o. IfSome o (λ draft. map potentials_of draft.values.items ≡ (evidence_of draft.evidence).values)) }
    ensures dead_ends { IfOk result (λ o. IfSome o (λ draft. potentials_of draft.dead_ends ≡ (evidence_of draft.evidence).dead_ends)) }
    ensures first { IfOk result (λ o. IfSome o (λ draft. first_value (by_tables (evidence_of draft.evidence)) ≡ potentials_of stopped.now.potentials.now)) }
    ensures given_dead_ends { IfOk result (λ o. IfSome o (λ draft. potentials_of draft.dead_ends ≡ potentials_of stopped.now.dead_ends.now)) }
{
    let Setting { alloc, space, .. } = setting;
    if setting.limits.are_over(clock) {
        return Ok(None);
    }
    let Some(draft) = drafted(alloc, space, stopped)? else {
        return Ok(None);
    };
    let DraftedTables {
        tables,
        values,
        dead_ends,
    } = draft;
    let evidence = Evidence {
        values: written(alloc, &values)?,
        dead_ends: potential_of(alloc, &dead_ends)?,
        tables,
        landmarks: Landmarks::none(alloc),
    };
    if !evidence.keep_limits(Version::Three, space.ground().width() as usize) {
        return Ok(None);
    }
    Ok(Some(Draft {
        evidence,
        values,
        dead_ends,
    }))
}

/// A draft of tables that may be better than the potentials of the paused search, if there is to be one.
fn drafted(
    alloc: Global,
    space: SearchSpace<'_, '_>,
    stopped: &Stopped<'_, '_, '_>,
) -> Result<Option<DraftedTables>, NoMemory>
    requires stopped { IsStopped stopped.now.listing.now stopped.now.nodes.now }
    ensures first { IfOk result (λ o. IfSome o (λ draft. slice_get (map potentials_of draft.values.items) 0 ≡ Some (potentials_of stopped.now.potentials.now))) }
    ensures dead_ends { IfOk result (λ o. IfSome o (λ draft. potentials_of draft.dead_ends ≡ potentials_of stopped.now.dead_ends.now)) }
{
    let Some(effort) = stopped.effort else {
        return Ok(None);
    };
    let states = stopped.samples(alloc)?;
    let starts = space.other_starts(alloc, &states)?;
    let required = DraftInput {
        potentials: stopped.potentials,
        dead_ends: stopped.dead_ends,
        states: &states,
        starts: &starts,
        effort,
    };
    let draft = drafted_tables(alloc, space.ground(), &required)?;
    Ok(draft)
}

/// The constants and weights of these values, as a certificate has them.
pub(crate) fn written(
    alloc: Global,
    values: &[Potentials],
) -> Result<Vec<WrittenPotentials>, NoMemory>
    ensures { IfOk result (λ written. map potential_of written.items ≡ map potentials_of values.now) }
{
    let mut written = Vec::with_capacity(alloc, values.len())?;
    for value in values {
        written.push(potential_of(alloc, value)?)?;
    }
    Ok(written)
}

/// The answer by this draft, if its values are fair and better than the potentials of the paused search.
fn answer_by_tables<E: Sink + Clock>(
    setting: Setting<'_, '_>,
    draft: Draft,
    stopped: &Stopped<'_, '_, '_>,
    err: &mut E,
) -> Result<Attempt<Answer>, NoMemory>
    requires version { 3 ≤ number_of setting.limits.version }
    requires space { IsSearchSpace setting.space }
    requires ground { IsGroundOf (task_in (ground_in setting.space)) [] setting.limits.instances (ground_in setting.space) }
    requires within_limits { IsTrue (is_evidence three (length (atoms_in (ground_in setting.space))) (evidence_of draft.evidence) no_landmarks) }
    requires values { map potentials_of draft.values.items ≡ (evidence_of draft.evidence).values }
    requires dead_ends { potentials_of draft.dead_ends ≡ (evidence_of draft.evidence).dead_ends }
    requires first { first_value (by_tables (evidence_of draft.evidence)) ≡ potentials_of stopped.now.potentials.now }
    requires given_dead_ends { potentials_of draft.dead_ends ≡ potentials_of stopped.now.dead_ends.now }
    requires stopped { IsStopped stopped.now.listing.now stopped.now.nodes.now }
    requires store_width { listed_width stopped.now.listing.now ≡ length (atoms_in (ground_in setting.space)) }
    requires width { length (potentials_of stopped.now.potentials.now).weights ≡ length (atoms_in (ground_in setting.space)) }
    requires improved { AreSettledOrHigh (task_in (ground_in setting.space)) (atoms_in (ground_in setting.space)) (potentials_of stopped.now.potentials.now) }
    requires dead_ends_improved { AreDeadSettledOrHigh (task_in (ground_in setting.space)) (atoms_in (ground_in setting.space)) (potentials_of stopped.now.dead_ends.now) }
    ensures answer { IfOk result (IfDone (IsAnswerWithin (task_in (ground_in setting.entry.space)) setting.entry.limits)) }
    ensures said { MayContinue (IsLineWithin (task_in (ground_in setting.entry.space)) setting.entry.limits) E.may_lack_memory (E.failures err.old) (E.taken err.old) (E.failures err.new) (E.taken err.new) }
{
    let Draft {
        evidence,
        values,
        dead_ends,
    } = draft;
    let over = ValuesOver {
        evidence: &evidence,
        values,
        dead_ends,
    };
    let attempt = search_by_tables(setting, over, stopped, err)?;
    match attempt {
        Attempt::Done(ending) => answer_of_tables(setting, evidence, ending),
        Attempt::Promising => Ok(Attempt::Promising),
        Attempt::InVain => Ok(Attempt::InVain),
    }
}

/// The answer of a search by these values, with landmark values or without.
fn answer_of_tables(
    setting: Setting<'_, '_>,
    evidence: Evidence,
    ending: TablesEnding<'_, '_>,
) -> Result<Attempt<Answer>, NoMemory>
    requires version { 3 ≤ number_of setting.limits.version }
    requires space { IsSearchSpace setting.space }
    requires ground { IsGroundOf (task_in (ground_in setting.space)) [] setting.limits.instances (ground_in setting.space) }
    requires guidance { IsGuidanceFor setting.space (by_tables (evidence_of evidence)) }
    requires ending { IsTablesEnding setting.space (evidence_of evidence) setting.limits ending }
    ensures { IfOk result (IfDone (IsAnswerWithin (task_in (ground_in setting.entry.space)) setting.entry.limits)) }
{
    match ending {
        TablesEnding::InParts(parts) => {
            let answer = answer_of_parts(setting, evidence, parts)?;
            Ok(Attempt::Done(answer))
        }
        TablesEnding::Asked(asked) => match answer_of_asked(setting, evidence, asked)? {
            Some(answer) => Ok(Attempt::Done(answer)),
            None => Ok(Attempt::InVain),
        },
    }
}

/// The answer of a search by these values, or by those that were drafted on the way.
fn answer_of_parts(
    setting: Setting<'_, '_>,
    evidence: Evidence,
    parts: Parts<'_, '_>,
) -> Result<Answer, NoMemory>
    requires version { 3 ≤ number_of setting.limits.version }
    requires space { IsSearchSpace setting.space }
    requires ground { IsGroundOf (task_in (ground_in setting.space)) [] setting.limits.instances (ground_in setting.space) }
    requires guidance { IsGuidanceFor setting.space (by_tables (evidence_of evidence)) }
    requires end { IsTrueEnd setting.space (estimate_by (by_tables (evidence_of evidence))) (reports_dead (by_tables (evidence_of evidence))) setting.limits parts }
    ensures { IfOk result (IsAnswerWithin (task_in (ground_in setting.entry.space)) setting.entry.limits) }
{
    match parts {
        Parts::ByTables(answer) => Ok(answer),
        Parts::ByGuide(ending) => answer_of(setting, Guidance::Tables(evidence), ending),
    }
}

/// The answer by this draft, if its values are fair and better than those of the paused search, which goes by tables.
fn answer_by_later_tables<E: Sink + Clock>(
    setting: Setting<'_, '_>,
    draft: Draft,
    stopped: &Stopped<'_, '_, '_>,
    err: &mut E,
) -> Result<Attempt<Answer>, NoMemory>
    requires version { 3 ≤ number_of setting.limits.version }
    requires space { IsSearchSpace setting.space }
    requires ground { IsGroundOf (task_in (ground_in setting.space)) [] setting.limits.instances (ground_in setting.space) }
    requires within_limits { IsTrue (is_evidence three (length (atoms_in (ground_in setting.space))) (evidence_of draft.evidence) no_landmarks) }
    requires values { map potentials_of draft.values.items ≡ (evidence_of draft.evidence).values }
    requires dead_ends { potentials_of draft.dead_ends ≡ (evidence_of draft.evidence).dead_ends }
    requires first { first_value (by_tables (evidence_of draft.evidence)) ≡ potentials_of stopped.now.potentials.now }
    requires given_dead_ends { potentials_of draft.dead_ends ≡ potentials_of stopped.now.dead_ends.now }
    requires stopped { IsStopped stopped.now.listing.now stopped.now.nodes.now }
    requires store_width { listed_width stopped.now.listing.now ≡ length (atoms_in (ground_in setting.space)) }
    requires width { length (potentials_of stopped.now.potentials.now).weights ≡ length (atoms_in (ground_in setting.space)) }
    requires improved { AreSettledOrHigh (task_in (ground_in setting.space)) (atoms_in (ground_in setting.space)) (potentials_of stopped.now.potentials.now) }
    requires dead_ends_improved { AreDeadSettledOrHigh (task_in (ground_in setting.space)) (atoms_in (ground_in setting.space)) (potentials_of stopped.now.dead_ends.now) }
    ensures answer { IfOk result (IfDone (IsAnswerWithin (task_in (ground_in setting.entry.space)) setting.entry.limits)) }
    ensures said { MayContinue (IsLineWithin (task_in (ground_in setting.entry.space)) setting.entry.limits) E.may_lack_memory (E.failures err.old) (E.taken err.old) (E.failures err.new) (E.taken err.new) }
{
    let Draft {
        evidence,
        values,
        dead_ends,
    } = draft;
    let over = ValuesOver {
        evidence: &evidence,
        values,
        dead_ends,
    };
    let attempt = search_by_later_tables(setting, over, stopped, err)?;
    match attempt {
        Attempt::Done(ending) => {
            let guidance = Guidance::Tables(evidence);
            let answer = answer_of(setting, guidance, ending)?;
            Ok(Attempt::Done(answer))
        }
        Attempt::Promising => Ok(Attempt::Promising),
        Attempt::InVain => Ok(Attempt::InVain),
    }
}

/// Searches by these values, if they are fair and better. On the way it drafts others, or asks for landmark values.
fn search_by_tables<'l, 't, E: Sink + Clock>(
    setting: Setting<'l, 't>,
    over: ValuesOver<'_>,
    stopped: &Stopped<'_, '_, '_>,
    err: &mut E,
) -> Result<Attempt<TablesEnding<'l, 't>>, NoMemory>
    requires version { 3 ≤ number_of setting.limits.version }
    requires space { IsSearchSpace setting.space }
    requires within_limits { IsTrue (is_evidence three (length (atoms_in (ground_in setting.space))) (evidence_of over.evidence.now) no_landmarks) }
    requires values { map potentials_of over.values.items ≡ (evidence_of over.evidence.now).values }
    requires dead_ends { potentials_of over.dead_ends ≡ (evidence_of over.evidence.now).dead_ends }
    requires stopped { IsStopped stopped.now.listing.now stopped.now.nodes.now }
    requires store_width { listed_width stopped.now.listing.now ≡ length (atoms_in (ground_in setting.space)) }
    requires width { length (potentials_of stopped.now.potentials.now).weights ≡ length (atoms_in (ground_in setting.space)) }
    requires ground { IsGroundOf (task_in (ground_in setting.space)) [] setting.limits.instances (ground_in setting.space) }
    requires improved { AreSettledOrHigh (task_in (ground_in setting.space)) (atoms_in (ground_in setting.space)) (potentials_of stopped.now.potentials.now) }
    requires dead_ends_improved { AreDeadSettledOrHigh (task_in (ground_in setting.space)) (atoms_in (ground_in setting.space)) (potentials_of stopped.now.dead_ends.now) }
    ensures fair { IfOk result (IfDone (λ _. AreFair (task_in (ground_in setting.entry.space)) (atoms_in (ground_in setting.entry.space)) (evidence_of over.entry.evidence.now))) }
    ensures no_lower { IfOk result (IfDone (λ _. initial_value (task_in (ground_in setting.entry.space)) (atoms_in (ground_in setting.entry.space)) (potentials_of stopped.now.potentials.now) ≤ estimate_by (by_tables (evidence_of over.entry.evidence.now)) (ground_system (task_in (ground_in setting.entry.space)) (atoms_in (ground_in setting.entry.space))).initial)) }
    ensures ending { IfOk result (IfDone (IsTablesEnding setting.entry.space (evidence_of over.entry.evidence.now) setting.entry.limits)) }
    ensures said { MayContinue (IsLineWithin (task_in (ground_in setting.entry.space)) setting.entry.limits) E.may_lack_memory (E.failures err.old) (E.taken err.old) (E.failures err.new) (E.taken err.new) }
{
    let given = Given {
        potentials: stopped.potentials,
        dead_ends: stopped.dead_ends,
    };
    let drafting = Drafting {
        pause: LATER,
        given,
        table_count: over.evidence.tables.len(),
    };
    let attempt = better_guide(setting, over, stopped, err)?;
    match attempt {
        Attempt::Done(guide) => {
            let ending = search_or_ask(setting, &guide, drafting, err)?;
            Ok(Attempt::Done(ending))
        }
        Attempt::Promising => Ok(Attempt::Promising),
        Attempt::InVain => Ok(Attempt::InVain),
    }
}

/// Searches by these values to the end, if they are fair and better.
fn search_by_later_tables<'l, 't, E: Sink + Clock>(
    setting: Setting<'l, 't>,
    over: ValuesOver<'_>,
    stopped: &Stopped<'_, '_, '_>,
    err: &mut E,
) -> Result<Attempt<Ending<'l, 't>>, NoMemory>
    requires space { IsSearchSpace setting.space }
    requires within_limits { IsTrue (is_evidence three (length (atoms_in (ground_in setting.space))) (evidence_of over.evidence.now) no_landmarks) }
    requires values { map potentials_of over.values.items ≡ (evidence_of over.evidence.now).values }
    requires dead_ends { potentials_of over.dead_ends ≡ (evidence_of over.evidence.now).dead_ends }
    requires stopped { IsStopped stopped.now.listing.now stopped.now.nodes.now }
    requires store_width { listed_width stopped.now.listing.now ≡ length (atoms_in (ground_in setting.space)) }
    requires width { length (potentials_of stopped.now.potentials.now).weights ≡ length (atoms_in (ground_in setting.space)) }
    ensures fair { IfOk result (IfDone (λ _. AreFair (task_in (ground_in setting.entry.space)) (atoms_in (ground_in setting.entry.space)) (evidence_of over.entry.evidence.now))) }
    ensures no_lower { IfOk result (IfDone (λ _. initial_value (task_in (ground_in setting.entry.space)) (atoms_in (ground_in setting.entry.space)) (potentials_of stopped.now.potentials.now) ≤ estimate_by (by_tables (evidence_of over.entry.evidence.now)) (ground_system (task_in (ground_in setting.entry.space)) (atoms_in (ground_in setting.entry.space))).initial)) }
    ensures ending { IfOk result (IfDone (IsEnding setting.entry.space (estimate_by (by_tables (evidence_of over.entry.evidence.now))) (reports_dead (by_tables (evidence_of over.entry.evidence.now))) setting.entry.limits)) }
    ensures said { MayContinue (IsLineWithin (task_in (ground_in setting.entry.space)) setting.entry.limits) E.may_lack_memory (E.failures err.old) (E.taken err.old) (E.failures err.new) (E.taken err.new) }
{
    let attempt = better_guide(setting, over, stopped, err)?;
    match attempt {
        Attempt::Done(guide) => {
            let ending = search_by(setting, &guide, err)?;
            Ok(Attempt::Done(ending))
        }
        Attempt::Promising => Ok(Attempt::Promising),
        Attempt::InVain => Ok(Attempt::InVain),
    }
}

/// The guide by these values, if they are fair and better than those of the paused search. Whether they are better is tested first,
/// which takes less time than the test of fairness.
fn better_guide<'l, 't, 'a, C: Clock>(
    setting: Setting<'l, 't>,
    over: ValuesOver<'a>,
    stopped: &Stopped<'_, '_, '_>,
    clock: &C,
) -> Result<Attempt<FairTables<'l, 't, 'a>>, NoMemory>
    requires space { IsSearchSpace setting.space }
    requires within_limits { IsTrue (is_evidence three (length (atoms_in (ground_in setting.space))) (evidence_of over.evidence.now) no_landmarks) }
    requires values { map potentials_of over.values.items ≡ (evidence_of over.evidence.now).values }
    requires dead_ends { potentials_of over.dead_ends ≡ (evidence_of over.evidence.now).dead_ends }
    requires stopped { IsStopped stopped.now.listing.now stopped.now.nodes.now }
    requires store_width { listed_width stopped.now.listing.now ≡ length (atoms_in (ground_in setting.space)) }
    requires width { length (potentials_of stopped.now.potentials.now).weights ≡ length (atoms_in (ground_in setting.space)) }
    ensures functions { IfOk result (IfDone (λ guide. functions_in guide ≡ evidence_of over.entry.evidence.now)) }
    ensures ground { IfOk result (IfDone (λ guide. guides.ground_in guide ≡ ground_in setting.entry.space)) }
    ensures no_lower { IfOk result (IfDone (λ _. initial_value (task_in (ground_in setting.entry.space)) (atoms_in (ground_in setting.entry.space)) (potentials_of stopped.now.potentials.now) ≤ estimate_by (by_tables (evidence_of over.entry.evidence.now)) (ground_system (task_in (ground_in setting.entry.space)) (atoms_in (ground_in setting.entry.space))).initial)) }
{
    let table_count = over.evidence.tables.len();
    let Some(functions) = functions_no_lower(setting, over, stopped.potentials)? else {
        return Ok(Attempt::InVain);
    };
    if setting.limits.are_over(clock) {
        return Ok(Attempt::InVain);
    }
    let saving = stopped.saving_by(setting.alloc, &functions)?;
    if saving.is_worth(stopped.table_count, table_count) {
        return guide_if_fair(setting, functions, clock);
    }
    if saving.is_promising() {
        return Ok(Attempt::Promising);
    }
    Ok(Attempt::InVain)
}
