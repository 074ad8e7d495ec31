//! A search by values over tables that asks for landmark values of the states whose turn comes.
//!
//! It begins anew where a paused search is estimated to take longer to its end, or on trial. The landmark values that its lines name are
//! tested with what the lines say. If a trial does not end, or if one test fails, which is not expected, the paused search goes on.
ghost use Rattle.std.specs.Prelude.{◌≡◌, ◌≤◌, IfOk, IfSome, length};
ghost use Rattle.grounding.specs.Ground.{task_in, atoms_in};
ghost use Rattle.devices.specs.Progress.{MayContinue};
ghost use Rattle.search_spaces.specs.GroundListing.{listed_states};
ghost use Rattle.search_spaces.specs.SearchSpace.{class_in, ground_in, system_of, IsSearchSpace};
ghost use Rattle.search.specs.UnderWay.{IsTrueStopBy};
ghost use Rattle.guides.specs.FairTables as guides;
ghost use Rattle.guides.specs.FairTables.{functions_in};
ghost use Rattle.solver.specs.Asked.{IsAsked, IsStoppedWithin, found_at};
ghost use Rattle.solver.specs.Said.{IsLineWithin};
ghost use Rattle.solver.specs.Stretches.{IsHaltBy, IsUnderWayBy};

use crate::pauses::next_pause;
use crate::searched::{found_in, say_news};
use crate::setting::{Session, Setting};
use devices::{Clock, Sink};
use faults::NoMemory;
use guides::{DraftLimits, FairTables, LandmarksOnDemand, tested_instances};
use landmarks::CutIndex;
use line_evidence::{Budget, Marked, tested_marks};
use search::{
    FoundStates, Guide, Halt, Problem, Search, StateListing, Stop, ValuesOnDemand, begin_asking,
    go_on_asking, stop_asking,
};
use search_spaces::{GroundListing, GroundSystem};

/// A search that asked for landmark values, at its end or stopped since its time is over, and the marks of its found states.
#[derive(Drop)]
pub(crate) struct Asked<'l, 't> {
    pub(crate) stop: Stop<GroundListing<'l, 't>>,
    pub(crate) marked: Marked,
}

/// Searches the ground task from the beginning by these values, and asks for landmark values. `None`: it listed as many states as its
/// budget has before its end, or a test of what its lines say failed.
pub(crate) fn search_asking<'l, 't, E: Sink + Clock>(
    setting: Setting<'l, 't>,
    guide: &FairTables<'_, '_, '_>,
    budget: Budget,
    err: &mut E,
) -> Result<Option<Asked<'l, 't>>, NoMemory>
    requires space { IsSearchSpace setting.space }
    requires ground { guides.ground_in guide.now ≡ ground_in setting.space }
    ensures asked { IfOk result (λ o. IfSome o (IsAsked setting.entry.space (functions_in guide.now) setting.entry.limits)) }
    ensures said { MayContinue (IsLineWithin (task_in (ground_in setting.entry.space)) setting.entry.limits) E.may_lack_memory (E.failures err.old) (E.taken err.old) (E.failures err.new) (E.taken err.new) }
{
    let alloc = setting.alloc;
    let ground = setting.space.ground();
    let instances = tested_instances(alloc, ground)?;
    let index = CutIndex::new(alloc, ground, &instances)?;
    let limits = DraftLimits::of_steps(budget.steps);
    let mut values = LandmarksOnDemand::new(alloc, ground, &index, limits)?;
    let session = Session { setting, guide };
    let Some(stop) = search_to_stop(&session, &mut values, budget.states, err)? else {
        return Ok(None);
    };
    match tested_marks(alloc, guide, &values, found_at(&stop))? {
        Some(marked) => Ok(Some(Asked { stop, marked })),
        None => Ok(None),
    }
}

/// Searches until the search ends or its time is over, asks for the values of states whose turn comes, and reports progress. `None`: this
/// number of states is listed before that.
fn search_to_stop<'l, 't, G: Guide, V: ValuesOnDemand, E: Sink + Clock>(
    session: &Session<'_, 'l, 't, G>,
    values: &mut V,
    states: u32,
    err: &mut E,
) -> Result<Option<Stop<GroundListing<'l, 't>>>, NoMemory>
    requires space { IsSearchSpace session.now.setting.space }
    requires system { G.system_of session.now.guide.now ≡ system_of session.now.setting.space }
    requires width { G.width_of session.now.guide.now ≡ length (atoms_in (ground_in session.now.setting.space)) }
    requires values_system { V.system_of values.old ≡ system_of session.now.setting.space }
    requires values_width { V.width_of values.old ≡ length (atoms_in (ground_in session.now.setting.space)) }
    ensures stop { IfOk result (λ o. IfSome o (IsTrueStopBy (system_of session.now.setting.space) (class_in session.now.setting.space) (G.estimate_of session.now.guide.now) (G.is_dead session.now.guide.now) V.answers listed_states session.now.setting.limits.states)) }
    ensures within { IfOk result (λ o. IfSome o (IsStoppedWithin session.now.setting.limits)) }
    ensures said { MayContinue (IsLineWithin (task_in (ground_in session.now.setting.space)) session.now.setting.limits) E.may_lack_memory (E.failures err.old) (E.taken err.old) (E.failures err.new) (E.taken err.new) }
{
    let mut search = begin_asking_by(session, values)?;
    let mut said = None;
    'stretches: while search.store().len() < states as usize {
        if session.setting.limits.are_over(err) {
            let stop = stop_asking_by(session, values, search)?;
            return Ok(Some(stop));
        }
        said = say_news(session.setting, &search, said, err)?;
        let next = next_pause(search.store().len(), states);
        match stretch_asking(session, values, search, next)? {
            Halt::Ended(outcome) => return Ok(Some(Stop::Ended(outcome))),
            Halt::Paused(paused) => search = paused,
        }
    }
    Ok(None)
}

/// Begins a search that asks for values. The initial state alone is found.
fn begin_asking_by<'l, 't, G: Guide, V: ValuesOnDemand>(
    session: &Session<'_, 'l, 't, G>,
    values: &V,
) -> Result<Search<GroundListing<'l, 't>, G::Scratch>, NoMemory>
    requires system { G.system_of session.now.guide.now ≡ system_of session.now.setting.space }
    requires width { G.width_of session.now.guide.now ≡ length (atoms_in (ground_in session.now.setting.space)) }
    ensures { IfOk result (IsUnderWayBy session.now.setting.space (G.estimate_of session.now.guide.now) (G.is_dead session.now.guide.now) V.answers (G.fits session.now.guide.now) session.now.setting.limits.states) }
{
    let Setting {
        alloc,
        space,
        limits,
    } = session.setting;
    let system = GroundSystem(space.ground());
    let listing = space.listing(alloc)?;
    let problem = Problem {
        alloc,
        system: &system,
        guide: session.guide,
        max_states: limits.states(),
    };
    begin_asking(&problem, values, listing)
}

/// Continues the search until it ends or `pause` states are listed.
fn stretch_asking<'l, 't, G: Guide, V: ValuesOnDemand>(
    session: &Session<'_, 'l, 't, G>,
    values: &mut V,
    search: Search<GroundListing<'l, 't>, G::Scratch>,
    pause: u32,
) -> Result<Halt<GroundListing<'l, 't>, G::Scratch>, NoMemory>
    requires space { IsSearchSpace session.now.setting.space }
    requires system { G.system_of session.now.guide.now ≡ system_of session.now.setting.space }
    requires width { G.width_of session.now.guide.now ≡ length (atoms_in (ground_in session.now.setting.space)) }
    requires values_system { V.system_of values.old ≡ system_of session.now.setting.space }
    requires values_width { V.width_of values.old ≡ length (atoms_in (ground_in session.now.setting.space)) }
    requires under_way { IsUnderWayBy session.now.setting.space (G.estimate_of session.now.guide.now) (G.is_dead session.now.guide.now) V.answers (G.fits session.now.guide.now) session.now.setting.limits.states search }
    ensures values_system { IfOk result (λ _. V.system_of values.new ≡ system_of session.now.setting.space) }
    ensures values_width { IfOk result (λ _. V.width_of values.new ≡ length (atoms_in (ground_in session.now.setting.space))) }
    ensures halt { IfOk result (IsHaltBy session.now.setting.space (G.estimate_of session.now.guide.now) (G.is_dead session.now.guide.now) V.answers (G.fits session.now.guide.now) pause session.now.setting.limits.states) }
{
    let Setting {
        alloc,
        space,
        limits,
    } = session.setting;
    let system = GroundSystem(space.ground());
    let problem = Problem {
        alloc,
        system: &system,
        guide: session.guide,
        max_states: limits.states(),
    };
    go_on_asking(&problem, values, search, pause)
}

/// Stops the search: its time is over.
fn stop_asking_by<'l, 't, G: Guide, V: ValuesOnDemand>(
    session: &Session<'_, 'l, 't, G>,
    values: &V,
    search: Search<GroundListing<'l, 't>, G::Scratch>,
) -> Result<Stop<GroundListing<'l, 't>>, NoMemory>
    requires space { IsSearchSpace session.now.setting.space }
    requires system { G.system_of session.now.guide.now ≡ system_of session.now.setting.space }
    requires under_way { IsUnderWayBy session.now.setting.space (G.estimate_of session.now.guide.now) (G.is_dead session.now.guide.now) V.answers (G.fits session.now.guide.now) session.now.setting.limits.states search }
    ensures { IfOk result (IsTrueStopBy (system_of session.now.setting.space) (class_in session.now.setting.space) (G.estimate_of session.now.guide.now) (G.is_dead session.now.guide.now) V.answers listed_states session.now.setting.limits.states) }
{
    stop_asking(session.setting.alloc, session.guide, values, search)
}

/// The states that it found.
fn found_at<'s, 'l, 't>(
    stop: &'s Stop<GroundListing<'l, 't>>,
) -> &'s FoundStates<GroundListing<'l, 't>>
    ensures { result.now ≡ found_at stop.now }
{
    match stop {
        Stop::Ended(outcome) => found_in(outcome),
        Stop::Waiting { states, .. } => states,
    }
}
