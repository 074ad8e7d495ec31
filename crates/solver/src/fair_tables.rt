//! A search by fair values over tables. On the way others are drafted, or landmark values are asked for: to the end where that is estimated
//! to pay, and else on trial.
ghost use Rattle.std.specs.Prelude.{◌≡◌, ◌≤◌, [], IfOk, length};
ghost use Rattle.grounding.specs.Ground.{task_in, atoms_in, IsGroundOf};
ghost use Rattle.search_spaces.specs.GroundListing.{listed_width};
ghost use Rattle.search_spaces.specs.SearchSpace.{ground_in, IsSearchSpace};
ghost use Rattle.devices.specs.Progress.{MayContinue};
ghost use Rattle.lower_bounds.specs.TableFunctions.{dead_ends_of, functions_of, greatest_value, is_dead_by};
ghost use Rattle.potentials.specs.Potentials.{potentials_of};
ghost use Rattle.search.specs.UnderWay.{store_in, nodes_of};
ghost use Rattle.solver.specs.Asked.{IsTablesEnding};
ghost use Rattle.solver.specs.Improved.{AreSettledOrHigh, AreDeadSettledOrHigh};
ghost use Rattle.solver.specs.Said.{IsLineWithin};
ghost use Rattle.solver.specs.Stopped.{IsStopped};
ghost use Rattle.solver.specs.Stretches.{IsUnderWay};
ghost use Rattle.solver.specs.Versions.{number_of};
ghost use Rattle.guides.specs.FairTables as guides;
ghost use Rattle.guides.specs.FairTables.{functions_in};
ghost use Rattle.tables.specs.Several.{Knows};

use crate::asking::{Asked, search_asking};
use crate::parts::{Drafting, Parts, finish_with_tables};
use crate::searched::{Stretch, begin_by, go_on_by};
use crate::setting::{Session, Setting};
use devices::{Clock, Sink};
use faults::NoMemory;
use guides::FairTables;
use line_evidence::{Budget, Paused, budget_for_trial, pays};
use search::Search;
use search_spaces::GroundListing;
use tables::KnownState;

/// The pause of a search by tables after which it may ask for landmark values: the number of listed states, at least.
const ASKING_PAUSE: u32 = 100_000;

/// How a search by tables ended.
#[derive(Drop)]
pub(crate) enum TablesEnding<'l, 't> {
    /// It asked for no landmark values.
    InParts(Parts<'l, 't>),
    /// It asked for landmark values.
    Asked(Asked<'l, 't>),
}

/// Searches by these values, which are fair. At a pause a search that asks for landmark values begins anew. If that is on trial, and in
/// vain, this one goes on, and tries to switch to other tables at a further pause.
pub(crate) fn search_or_ask<'l, 't, E: Sink + Clock>(
    setting: Setting<'l, 't>,
    guide: &FairTables<'_, '_, '_>,
    drafting: Drafting<'_>,
    err: &mut E,
) -> Result<TablesEnding<'l, 't>, NoMemory>
    requires version { 3 ≤ number_of setting.limits.version }
    requires space { IsSearchSpace setting.space }
    requires task { IsGroundOf (task_in (ground_in setting.space)) [] setting.limits.instances (ground_in setting.space) }
    requires ground { guides.ground_in guide.now ≡ ground_in setting.space }
    requires width { length (potentials_of drafting.given.potentials.now).weights ≡ length (atoms_in (ground_in setting.space)) }
    requires improved { AreSettledOrHigh (task_in (ground_in setting.space)) (atoms_in (ground_in setting.space)) (potentials_of drafting.given.potentials.now) }
    requires dead_ends_improved { AreDeadSettledOrHigh (task_in (ground_in setting.space)) (atoms_in (ground_in setting.space)) (potentials_of drafting.given.dead_ends.now) }
    ensures ending { IfOk result (IsTablesEnding setting.entry.space (functions_in guide.now) setting.entry.limits) }
    ensures said { MayContinue (IsLineWithin (task_in (ground_in setting.entry.space)) setting.entry.limits) E.may_lack_memory (E.failures err.old) (E.taken err.old) (E.failures err.new) (E.taken err.new) }
{
    let session = Session { setting, guide };
    let search = begin_by(&session)?;
    if !setting.limits.allow_version_four() || ASKING_PAUSE >= setting.limits.states() {
        return finish_in_parts(&session, search, drafting, err);
    }
    match go_on_by(&session, search, ASKING_PAUSE, err)? {
        Stretch::Ended(ending) => Ok(TablesEnding::InParts(Parts::ByGuide(ending))),
        Stretch::Paused(search) => finish_or_ask(&session, search, drafting, err),
    }
}

/// Begins anew and asks for landmark values, within a budget. If that is in vain, the search goes on.
fn finish_or_ask<'l, 't, E: Sink + Clock>(
    session: &Session<'_, 'l, 't, FairTables<'_, '_, '_>>,
    search: Search<GroundListing<'l, 't>, KnownState>,
    drafting: Drafting<'_>,
    err: &mut E,
) -> Result<TablesEnding<'l, 't>, NoMemory>
    requires version { 4 ≤ number_of session.now.setting.limits.version }
    requires space { IsSearchSpace session.now.setting.space }
    requires task { IsGroundOf (task_in (ground_in session.now.setting.space)) [] session.now.setting.limits.instances (ground_in session.now.setting.space) }
    requires ground { guides.ground_in session.now.guide.now ≡ ground_in session.now.setting.space }
    requires under_way { IsUnderWay session.now.setting.space (greatest_value (functions_of (functions_in session.now.guide.now))) (is_dead_by (dead_ends_of (functions_in session.now.guide.now))) (Knows session.now.guide.now.functions) session.now.setting.limits.states search }
    requires width { length (potentials_of drafting.given.potentials.now).weights ≡ length (atoms_in (ground_in session.now.setting.space)) }
    requires improved { AreSettledOrHigh (task_in (ground_in session.now.setting.space)) (atoms_in (ground_in session.now.setting.space)) (potentials_of drafting.given.potentials.now) }
    requires dead_ends_improved { AreDeadSettledOrHigh (task_in (ground_in session.now.setting.space)) (atoms_in (ground_in session.now.setting.space)) (potentials_of drafting.given.dead_ends.now) }
    ensures ending { IfOk result (IsTablesEnding session.now.setting.space (functions_in session.now.guide.now) session.now.setting.limits) }
    ensures said { MayContinue (IsLineWithin (task_in (ground_in session.now.setting.space)) session.now.setting.limits) E.may_lack_memory (E.failures err.old) (E.taken err.old) (E.failures err.new) (E.taken err.new) }
{
    let budget = budget_after(session.setting, &search)?;
    match search_asking(session.setting, session.guide, budget, err)? {
        Some(asked) => Ok(TablesEnding::Asked(asked)),
        None => finish_in_parts(session, search, drafting, err),
    }
}

/// Continues the search without landmark values.
fn finish_in_parts<'l, 't, E: Sink + Clock>(
    session: &Session<'_, 'l, 't, FairTables<'_, '_, '_>>,
    search: Search<GroundListing<'l, 't>, KnownState>,
    drafting: Drafting<'_>,
    err: &mut E,
) -> Result<TablesEnding<'l, 't>, NoMemory>
    requires version { 3 ≤ number_of session.now.setting.limits.version }
    requires space { IsSearchSpace session.now.setting.space }
    requires task { IsGroundOf (task_in (ground_in session.now.setting.space)) [] session.now.setting.limits.instances (ground_in session.now.setting.space) }
    requires ground { guides.ground_in session.now.guide.now ≡ ground_in session.now.setting.space }
    requires under_way { IsUnderWay session.now.setting.space (greatest_value (functions_of (functions_in session.now.guide.now))) (is_dead_by (dead_ends_of (functions_in session.now.guide.now))) (Knows session.now.guide.now.functions) session.now.setting.limits.states search }
    requires width { length (potentials_of drafting.given.potentials.now).weights ≡ length (atoms_in (ground_in session.now.setting.space)) }
    requires improved { AreSettledOrHigh (task_in (ground_in session.now.setting.space)) (atoms_in (ground_in session.now.setting.space)) (potentials_of drafting.given.potentials.now) }
    requires dead_ends_improved { AreDeadSettledOrHigh (task_in (ground_in session.now.setting.space)) (atoms_in (ground_in session.now.setting.space)) (potentials_of drafting.given.dead_ends.now) }
    ensures ending { IfOk result (IsTablesEnding session.now.setting.space (functions_in session.now.guide.now) session.now.setting.limits) }
    ensures said { MayContinue (IsLineWithin (task_in (ground_in session.now.setting.space)) session.now.setting.limits) E.may_lack_memory (E.failures err.old) (E.taken err.old) (E.failures err.new) (E.taken err.new) }
{
    let parts = finish_with_tables(session, search, drafting, err)?;
    Ok(TablesEnding::InParts(parts))
}

/// The budget of a search that begins anew and asks for landmark values: unlimited where that is estimated to pay.
fn budget_after<R>(
    setting: Setting<'_, '_>,
    search: &Search<GroundListing<'_, '_>, R>,
) -> Result<Budget, NoMemory>
    requires stopped { IsStopped (store_in search.now) (nodes_of search.now) }
    requires store_width { listed_width (store_in search.now) ≡ length (atoms_in (ground_in setting.space)) }
{
    let Some(bound) = search.bound() else {
        return Ok(Budget::none());
    };
    let paused = Paused {
        listing: search.store(),
        nodes: search.nodes(),
        bound,
    };
    let (alloc, ground) = (setting.alloc, setting.space.ground());
    if pays(alloc, ground, &paused)? {
        return Ok(Budget::unlimited());
    }
    budget_for_trial(alloc, ground, &paused)
}
