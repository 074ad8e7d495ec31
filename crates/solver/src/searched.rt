//! A search of the ground task, with the certificate's mark of each found state.
//!
//! Marks are made where the search ends, from the estimates that it reports. So the guide is not asked again, and its tables can move into
//! the certificate without a copy.
ghost use Rattle.std.specs.Prelude.{◌≡◌, ℕ, Bool, List, count_by, length, is_some, IfOk, IsTrue};
ghost use Rattle.grounding.specs.Ground.{task_in, atoms_in};
ghost use Rattle.search.specs.Outcome.{is_expanded};
ghost use Rattle.solver.specs.Guided as guided;
ghost use Rattle.solver.specs.Guided.{AreMarksOf, CanBeMarked, IsEnding, IsMarkOf};
ghost use Rattle.search_spaces.specs.SearchSpace.{ground_in, system_of, IsSearchSpace};
ghost use Rattle.devices.specs.Progress.{MayContinue};
ghost use Rattle.solver.specs.Said.{IsLineWithin};
ghost use Rattle.solver.specs.Stretches.{IsSound, IsStretch, IsUnderWay};

use crate::pauses::{Milestone, is_news, next_pause};
use crate::reports::{Report, say};
use crate::setting::{Session, Setting};
use certificate::{Basis, Listed, Mark};
use devices::{Clock, Sink};
use faults::NoMemory;
use search::{
    FoundStates, Guide, Halt, Node, NodeStatus, Outcome, Search, StateListing, Stop, begin, go_on,
    stop_at_pause,
};
use search_spaces::{GroundListing, GroundSystem};
use std::alloc::Global;

/// The outcome of a search, and the certificate's mark of each found state, in order.
#[derive(Drop)]
pub(crate) struct Searched<'l, 't> {
    pub(crate) outcome: Outcome<GroundListing<'l, 't>>,
    pub(crate) marks: Vec<Listed>,
}

/// A search that was stopped at a pause: its bound, the found states, and the certificate's mark of each, in order.
#[derive(Drop)]
pub(crate) struct Halted<'l, 't> {
    /// A lower bound of every plan's cost.
    pub(crate) bound: u64,
    pub(crate) states: FoundStates<GroundListing<'l, 't>>,
    pub(crate) marks: Vec<Listed>,
}

/// How a search ended.
#[derive(Drop)]
pub(crate) enum Ending<'l, 't> {
    /// By itself.
    Complete(Searched<'l, 't>),
    /// Its time is over.
    OutOfTime(Halted<'l, 't>),
}

/// How far a search has come.
#[derive(Drop)]
pub(crate) enum Stretch<'l, 't, R> {
    /// To its end.
    Ended(Ending<'l, 't>),
    /// To a pause.
    Paused(Search<GroundListing<'l, 't>, R>),
}

/// Begins a search of the ground task by the guide. The initial state alone is found.
pub(crate) fn begin_by<'l, 't, G: Guide>(
    session: &Session<'_, 'l, 't, G>,
) -> Result<Search<GroundListing<'l, 't>, G::Scratch>, NoMemory>
    requires { G.width_of session.now.guide.now ≡ length (atoms_in (ground_in session.now.setting.space)) }
    ensures { IfOk result (IsUnderWay session.now.setting.space (G.estimate_of session.now.guide.now) (G.is_dead session.now.guide.now) (G.fits session.now.guide.now) session.now.setting.limits.states) }
{
    let alloc = session.setting.alloc;
    let space = session.setting.space;
    let system = GroundSystem(space.ground());
    let listing = space.listing(alloc)?;
    begin(alloc, &system, session.guide, listing)
}

/// Continues the search until it ends or `pause` states are listed.
fn stretch_by<'l, 't, G: Guide>(
    session: &Session<'_, 'l, 't, G>,
    search: Search<GroundListing<'l, 't>, G::Scratch>,
    pause: u32,
) -> Result<Stretch<'l, 't, G::Scratch>, NoMemory>
    requires space { IsSearchSpace session.now.setting.space }
    requires system { G.system_of session.now.guide.now ≡ system_of session.now.setting.space }
    requires width { G.width_of session.now.guide.now ≡ length (atoms_in (ground_in session.now.setting.space)) }
    requires under_way { IsUnderWay session.now.setting.space (G.estimate_of session.now.guide.now) (G.is_dead session.now.guide.now) (G.fits session.now.guide.now) session.now.setting.limits.states search }
    ensures { IfOk result (IsStretch session.now.setting.space (G.estimate_of session.now.guide.now) (G.is_dead session.now.guide.now) (G.fits session.now.guide.now) pause session.now.setting.limits) }
{
    let Setting {
        alloc,
        space,
        limits,
    } = session.setting;
    let guide = session.guide;
    let system = GroundSystem(space.ground());
    match go_on(alloc, &system, guide, search, pause, limits.states())? {
        Halt::Ended(outcome) => {
            let marks = marks(alloc, found_in(&outcome))?;
            Ok(Stretch::Ended(Ending::Complete(Searched { outcome, marks })))
        }
        Halt::Paused(search) => Ok(Stretch::Paused(search)),
    }
}

/// Stops the search: its time is over.
pub(crate) fn stop_by<'l, 't, G: Guide>(
    session: &Session<'_, 'l, 't, G>,
    search: Search<GroundListing<'l, 't>, G::Scratch>,
) -> Result<Ending<'l, 't>, NoMemory>
    requires space { IsSearchSpace session.now.setting.space }
    requires system { G.system_of session.now.guide.now ≡ system_of session.now.setting.space }
    requires under_way { IsUnderWay session.now.setting.space (G.estimate_of session.now.guide.now) (G.is_dead session.now.guide.now) (G.fits session.now.guide.now) session.now.setting.limits.states search }
    requires limited { IsTrue (is_some session.now.setting.limits.seconds) }
    ensures { IfOk result (IsEnding session.now.setting.space (G.estimate_of session.now.guide.now) (G.is_dead session.now.guide.now) session.now.setting.limits) }
{
    let alloc = session.setting.alloc;
    match stop_at_pause(alloc, session.guide, search)? {
        Stop::Ended(outcome) => {
            let marks = marks(alloc, found_in(&outcome))?;
            Ok(Ending::Complete(Searched { outcome, marks }))
        }
        Stop::Waiting { bound, states } => {
            let marks = marks(alloc, &states)?;
            Ok(Ending::OutOfTime(Halted {
                bound,
                states,
                marks,
            }))
        }
    }
}

/// Continues the search until it ends, its time is over or `pause` states are listed, and reports progress: now, and whenever the bound
/// has risen or the listing has doubled.
pub(crate) fn go_on_by<'l, 't, G: Guide, E: Sink + Clock>(
    session: &Session<'_, 'l, 't, G>,
    search: Search<GroundListing<'l, 't>, G::Scratch>,
    pause: u32,
    err: &mut E,
) -> Result<Stretch<'l, 't, G::Scratch>, NoMemory>
    requires space { IsSearchSpace session.now.setting.space }
    requires system { G.system_of session.now.guide.now ≡ system_of session.now.setting.space }
    requires width { G.width_of session.now.guide.now ≡ length (atoms_in (ground_in session.now.setting.space)) }
    requires under_way { IsUnderWay session.now.setting.space (G.estimate_of session.now.guide.now) (G.is_dead session.now.guide.now) (G.fits session.now.guide.now) session.now.setting.limits.states search }
    ensures stretch { IfOk result (IsStretch session.now.setting.space (G.estimate_of session.now.guide.now) (G.is_dead session.now.guide.now) (G.fits session.now.guide.now) pause session.now.setting.limits) }
    ensures said { MayContinue (IsLineWithin (task_in (ground_in session.now.setting.space)) session.now.setting.limits) E.may_lack_memory (E.failures err.old) (E.taken err.old) (E.failures err.new) (E.taken err.new) }
{
    let mut search = search;
    let mut said = None;
    'stretches: while search.store().len() < pause as usize {
        if session.setting.limits.are_over(err) {
            return Ok(Stretch::Ended(stop_by(session, search)?));
        }
        let next = next_pause(search.store().len(), pause);
        said = say_news(session.setting, &search, said, err)?;
        match stretch_by(session, search, next)? {
            Stretch::Ended(ending) => return Ok(Stretch::Ended(ending)),
            Stretch::Paused(paused) => search = paused,
        }
    }
    Ok(Stretch::Paused(search))
}

/// Reports progress if there is news after the last report. The result is the last report from now on.
pub(crate) fn say_news<R, E: Sink>(
    setting: Setting<'_, '_>,
    search: &Search<GroundListing<'_, '_>, R>,
    last: Option<Milestone>,
    err: &mut E,
) -> Result<Option<Milestone>, NoMemory>
    requires space { IsSearchSpace setting.space }
    requires sound { IsSound setting.space search.now }
    ensures { MayContinue (IsLineWithin (task_in (ground_in setting.entry.space)) setting.entry.limits) E.may_lack_memory (E.failures err.old) (E.taken err.old) (E.failures err.new) (E.taken err.new) }
{
    let now = Milestone::of(search);
    if !is_news(last, now) {
        return Ok(last);
    }
    say_progress(setting, search, err)?;
    Ok(now)
}

/// Reports progress, unless the open list is empty: then the search is about to end.
fn say_progress<R, E: Sink>(
    setting: Setting<'_, '_>,
    search: &Search<GroundListing<'_, '_>, R>,
    err: &mut E,
) -> Result<(), NoMemory>
    requires space { IsSearchSpace setting.space }
    requires sound { IsSound setting.space search.now }
    ensures { MayContinue (IsLineWithin (task_in (ground_in setting.entry.space)) setting.entry.limits) E.may_lack_memory (E.failures err.old) (E.taken err.old) (E.failures err.new) (E.taken err.new) }
{
    let Some(bound) = search.bound() else {
        return Ok(());
    };
    let listed = search.store().len();
    let expanded = expanded_in(search.nodes());
    let report = Report::Search {
        bound,
        listed,
        expanded,
    };
    say(setting.alloc, report, err)
}

/// The number of expanded states.
fn expanded_in(nodes: &[Node]) -> usize
    ensures { result ≡ count_by is_expanded nodes.now }
{
    let mut count = 0;
    for node in nodes {
        if node.is_expanded() {
            count += 1;
        }
    }
    count
}

/// Continues the search to its end, and reports progress.
pub(crate) fn finish_by<'l, 't, G: Guide, E: Sink + Clock>(
    session: &Session<'_, 'l, 't, G>,
    search: Search<GroundListing<'l, 't>, G::Scratch>,
    err: &mut E,
) -> Result<Ending<'l, 't>, NoMemory>
    requires space { IsSearchSpace session.now.setting.space }
    requires system { G.system_of session.now.guide.now ≡ system_of session.now.setting.space }
    requires width { G.width_of session.now.guide.now ≡ length (atoms_in (ground_in session.now.setting.space)) }
    requires under_way { IsUnderWay session.now.setting.space (G.estimate_of session.now.guide.now) (G.is_dead session.now.guide.now) (G.fits session.now.guide.now) session.now.setting.limits.states search }
    ensures ending { IfOk result (IsEnding session.now.setting.space (G.estimate_of session.now.guide.now) (G.is_dead session.now.guide.now) session.now.setting.limits) }
    ensures said { MayContinue (IsLineWithin (task_in (ground_in session.now.setting.space)) session.now.setting.limits) E.may_lack_memory (E.failures err.old) (E.taken err.old) (E.failures err.new) (E.taken err.new) }
{
    match go_on_by(session, search, u32::MAX, err)? {
        Stretch::Ended(ending) => Ok(ending),
        Stretch::Paused(_) => unreachable!(),
    }
}

/// Searches the ground task by the guide, and reports progress.
pub(crate) fn search_by<'l, 't, G: Guide, E: Sink + Clock>(
    setting: Setting<'l, 't>,
    guide: &G,
    err: &mut E,
) -> Result<Ending<'l, 't>, NoMemory>
    requires space { IsSearchSpace setting.space }
    requires system { G.system_of guide.now ≡ system_of setting.space }
    requires width { G.width_of guide.now ≡ length (atoms_in (ground_in setting.space)) }
    ensures ending { IfOk result (IsEnding setting.entry.space (G.estimate_of guide.now) (G.is_dead guide.now) setting.entry.limits) }
    ensures said { MayContinue (IsLineWithin (task_in (ground_in setting.entry.space)) setting.entry.limits) E.may_lack_memory (E.failures err.old) (E.taken err.old) (E.failures err.new) (E.taken err.new) }
{
    let session = Session { setting, guide };
    let search = begin_by(&session)?;
    finish_by(&session, search, err)
}

/// The found states.
pub(crate) fn found_in<'o, 'l, 't>(
    outcome: &'o Outcome<GroundListing<'l, 't>>,
) -> &'o FoundStates<GroundListing<'l, 't>>
    ensures { result.now ≡ guided.found_in outcome.now }
{
    match outcome {
        Outcome::Found { states, .. } => states,
        Outcome::Exhausted { states } => states,
        Outcome::States { states, .. } => states,
    }
}

/// The marks of the found states, in order.
fn marks(alloc: Global, found: &FoundStates<GroundListing<'_, '_>>) -> Result<Vec<Listed>, NoMemory>
    requires { length found.now.estimates.items ≡ length found.now.nodes.items }
    ensures { IfOk result (λ marks. (estimate : List Bool → ℕ) (is_dead : List Bool → Bool)
        → CanBeMarked estimate is_dead found.now → AreMarksOf estimate is_dead found.now marks.items) }
{
    let mut marks = Vec::with_capacity(alloc, found.nodes.len())?;
    for place in 0..found.nodes.len() {
        marks.push(listed(found.nodes[place], found.estimates[place]))?;
    }
    Ok(marks)
}

/// The mark of a state with this node: open if it was expanded, dead if it is marked dead, and otherwise a cut with this estimate.
fn listed(node: Node, estimate: u64) -> Listed
    ensures { IsMarkOf node estimate result }
{
    let cost = node.cost;
    match node.status {
        NodeStatus::Expanded => Listed {
            cost,
            mark: Mark::Expanded,
        },
        NodeStatus::Dead => Listed {
            cost,
            mark: Mark::Dead { by: Basis::OfAll },
        },
        NodeStatus::Unexpanded | NodeStatus::Reopened => Listed {
            cost,
            mark: Mark::Cut {
                by: Basis::OfAll,
                rest: estimate,
            },
        },
    }
}
