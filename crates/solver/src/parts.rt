//! A search that pauses to look for better values: one by potentials, or by tables that were found before.
ghost use Rattle.std.specs.Prelude.{◌≡◌, ◌≤◌, [], IfOk, length};
ghost use Rattle.grounding.specs.Ground.{task_in, atoms_in, IsGroundOf};
ghost use Rattle.search_spaces.specs.GroundListing.{listed_width};
ghost use Rattle.potentials.specs.Potentials.{potentials_of};
ghost use Rattle.search.specs.UnderWay.{store_in, nodes_of};
ghost use Rattle.solver.specs.Attempts.{IfDone};
ghost use Rattle.solver.specs.Improved.{AreSettledOrHigh, AreDeadSettledOrHigh};
ghost use Rattle.search_spaces.specs.SearchSpace.{ground_in, system_of, IsSearchSpace};
ghost use Rattle.devices.specs.Progress.{MayContinue};
ghost use Rattle.solver.specs.Said.{IsLineWithin};
ghost use Rattle.solver.specs.Solver.{IsAnswerWithin};
ghost use Rattle.solver.specs.Versions.{number_of};
ghost use Rattle.solver.specs.Stopped.{IsStopped};
ghost use Rattle.solver.specs.Stretches.{IsTrueEnd, IsTruePart, IsUnderWay};

use crate::answer::{Answer, Exceeded};
use crate::attempt::Attempt;
use crate::by_landmarks::{solve_asking, solve_on_trial};
use crate::by_tables::{solve_by_later_tables, solve_by_tables};
use crate::searched::{Ending, Stretch, begin_by, finish_by, go_on_by, stop_by};
use crate::setting::{Session, Setting};
use crate::stopped::Stopped;
use devices::{Clock, Sink};
use faults::NoMemory;
use potentials::Potentials;
use search::{Guide, Search};
use search_spaces::{GroundListing, SearchSpace};
use tables_drafted::Effort;

/// A pause of a search, at which landmark values are tried and tables are drafted.
#[derive(Clone, Copy)]
pub(crate) struct Pause {
    /// The number of listed states, at least.
    states: u32,
    /// The effort of the draft of tables, if there is to be one.
    effort: Option<Effort>,
}

/// The first pause, at which landmark values are tried. A task that is solved by fewer states is solved by potentials.
const TRIAL: Pause = Pause {
    states: 25_000,
    effort: None,
};

/// The first pause at which tables are drafted. A task that is solved by fewer states is solved without them.
const QUICK: Pause = Pause {
    states: 100_000,
    effort: Some(Effort::Quick),
};

/// The same where states take long.
const QUICK_IF_DEAR: Pause = Pause {
    states: 50_000,
    effort: Some(Effort::Quick),
};

/// With this many exchanges of objects or more, states take long: each has to be made its representative.
const MANY_EXCHANGES: usize = 3;

/// The last pause, if a quick draft is promising.
const THOROUGH: Pause = Pause {
    states: 500_000,
    effort: Some(Effort::Thorough),
};

/// The last pause, if it is not.
const LAST_TRIAL: Pause = Pause {
    states: 500_000,
    effort: None,
};

/// The pause of a search by tables.
pub(crate) const LATER: Pause = Pause {
    states: 300_000,
    effort: Some(Effort::Thorough),
};

/// The potentials that guide a search, or the first value of the tables that do.
#[derive(Clone, Copy)]
pub(crate) struct Given<'a> {
    pub(crate) potentials: &'a Potentials,
    /// The potentials for dead ends.
    pub(crate) dead_ends: &'a Potentials,
}

/// What is done at a pause of a search, with these potentials, which other values are to exceed.
#[derive(Clone, Copy)]
pub(crate) struct Drafting<'a> {
    pub(crate) pause: Pause,
    pub(crate) given: Given<'a>,
    /// The number of tables that guide the search.
    pub(crate) table_count: usize,
}

/// The end of a search in parts.
#[derive(Drop)]
pub(crate) enum Parts<'l, 't> {
    /// An answer by other values, found at a pause.
    ByTables(Answer),
    /// The search's own end.
    ByGuide(Ending<'l, 't>),
}

/// The end of a part: of the search up to a pause, and the attempt with other values there.
#[derive(Drop)]
enum Part<'l, 't, R> {
    /// The end of the search.
    Ended(Parts<'l, 't>),
    /// No tables yet, but more effort is promising.
    Promising(Search<GroundListing<'l, 't>, R>),
    /// No tables, and none are expected.
    InVain(Search<GroundListing<'l, 't>, R>),
}

/// Searches the ground task by the guide, which is that of these potentials. At pauses it tries landmark values and tables, if the
/// certificate may have them.
pub(crate) fn search_in_parts<'l, 't, G: Guide, E: Sink + Clock>(
    session: &Session<'_, 'l, 't, G>,
    given: Given<'_>,
    err: &mut E,
) -> Result<Parts<'l, 't>, NoMemory>
    requires space { IsSearchSpace session.now.setting.space }
    requires ground { IsGroundOf (task_in (ground_in session.now.setting.space)) [] session.now.setting.limits.instances (ground_in session.now.setting.space) }
    requires system { G.system_of session.now.guide.now ≡ system_of session.now.setting.space }
    requires guide_width { G.width_of session.now.guide.now ≡ length (atoms_in (ground_in session.now.setting.space)) }
    requires width { length (potentials_of given.potentials.now).weights ≡ length (atoms_in (ground_in session.now.setting.space)) }
    requires improved { AreSettledOrHigh (task_in (ground_in session.now.setting.space)) (atoms_in (ground_in session.now.setting.space)) (potentials_of given.potentials.now) }
    requires dead_ends_improved { AreDeadSettledOrHigh (task_in (ground_in session.now.setting.space)) (atoms_in (ground_in session.now.setting.space)) (potentials_of given.dead_ends.now) }
    ensures end { IfOk result (IsTrueEnd session.now.setting.space (G.estimate_of session.now.guide.now) (G.is_dead session.now.guide.now) session.now.setting.limits) }
    ensures said { MayContinue (IsLineWithin (task_in (ground_in session.now.setting.space)) session.now.setting.limits) E.may_lack_memory (E.failures err.old) (E.taken err.old) (E.failures err.new) (E.taken err.new) }
{
    let drafting = Drafting {
        pause: TRIAL,
        given,
        table_count: 0,
    };
    let search = begin_by(session)?;
    if !session.setting.limits.allow_version_three() {
        return search_to_end(session, search, err);
    }
    match search_to_pause(session, search, drafting, err)? {
        Part::Ended(parts) => Ok(parts),
        Part::Promising(search) => search_after_trial(session, search, given, err),
        Part::InVain(search) => search_after_trial(session, search, given, err),
    }
}

/// Continues the search after the first pause.
fn search_after_trial<'l, 't, G: Guide, E: Sink + Clock>(
    session: &Session<'_, 'l, 't, G>,
    search: Search<GroundListing<'l, 't>, G::Scratch>,
    given: Given<'_>,
    err: &mut E,
) -> Result<Parts<'l, 't>, NoMemory>
    requires version { 3 ≤ number_of session.now.setting.limits.version }
    requires space { IsSearchSpace session.now.setting.space }
    requires ground { IsGroundOf (task_in (ground_in session.now.setting.space)) [] session.now.setting.limits.instances (ground_in session.now.setting.space) }
    requires system { G.system_of session.now.guide.now ≡ system_of session.now.setting.space }
    requires guide_width { G.width_of session.now.guide.now ≡ length (atoms_in (ground_in session.now.setting.space)) }
    requires under_way { IsUnderWay session.now.setting.space (G.estimate_of session.now.guide.now) (G.is_dead session.now.guide.now) (G.fits session.now.guide.now) session.now.setting.limits.states search }
    requires width { length (potentials_of given.potentials.now).weights ≡ length (atoms_in (ground_in session.now.setting.space)) }
    requires improved { AreSettledOrHigh (task_in (ground_in session.now.setting.space)) (atoms_in (ground_in session.now.setting.space)) (potentials_of given.potentials.now) }
    requires dead_ends_improved { AreDeadSettledOrHigh (task_in (ground_in session.now.setting.space)) (atoms_in (ground_in session.now.setting.space)) (potentials_of given.dead_ends.now) }
    ensures end { IfOk result (IsTrueEnd session.now.setting.space (G.estimate_of session.now.guide.now) (G.is_dead session.now.guide.now) session.now.setting.limits) }
    ensures said { MayContinue (IsLineWithin (task_in (ground_in session.now.setting.space)) session.now.setting.limits) E.may_lack_memory (E.failures err.old) (E.taken err.old) (E.failures err.new) (E.taken err.new) }
{
    let drafting = Drafting {
        pause: tables_pause(session.setting.space),
        given,
        table_count: 0,
    };
    match search_to_pause(session, search, drafting, err)? {
        Part::Ended(parts) => Ok(parts),
        Part::Promising(search) => {
            let pause = THOROUGH;
            search_on(session, search, Drafting { pause, ..drafting }, err)
        }
        Part::InVain(search) => {
            let pause = LAST_TRIAL;
            search_on(session, search, Drafting { pause, ..drafting }, err)
        }
    }
}

/// The first pause of a search of this space at which tables are drafted.
fn tables_pause(space: SearchSpace<'_, '_>) -> Pause {
    match space {
        SearchSpace::Alone(_) => QUICK,
        SearchSpace::Orbits(representatives) => {
            if representatives.exchanges().len() < MANY_EXCHANGES {
                QUICK
            } else {
                QUICK_IF_DEAR
            }
        }
    }
}

/// Continues the search to its end, with one more pause.
fn search_on<'l, 't, G: Guide, E: Sink + Clock>(
    session: &Session<'_, 'l, 't, G>,
    search: Search<GroundListing<'l, 't>, G::Scratch>,
    drafting: Drafting<'_>,
    err: &mut E,
) -> Result<Parts<'l, 't>, NoMemory>
    requires version { 3 ≤ number_of session.now.setting.limits.version }
    requires space { IsSearchSpace session.now.setting.space }
    requires ground { IsGroundOf (task_in (ground_in session.now.setting.space)) [] session.now.setting.limits.instances (ground_in session.now.setting.space) }
    requires system { G.system_of session.now.guide.now ≡ system_of session.now.setting.space }
    requires guide_width { G.width_of session.now.guide.now ≡ length (atoms_in (ground_in session.now.setting.space)) }
    requires under_way { IsUnderWay session.now.setting.space (G.estimate_of session.now.guide.now) (G.is_dead session.now.guide.now) (G.fits session.now.guide.now) session.now.setting.limits.states search }
    requires width { length (potentials_of drafting.given.potentials.now).weights ≡ length (atoms_in (ground_in session.now.setting.space)) }
    requires improved { AreSettledOrHigh (task_in (ground_in session.now.setting.space)) (atoms_in (ground_in session.now.setting.space)) (potentials_of drafting.given.potentials.now) }
    requires dead_ends_improved { AreDeadSettledOrHigh (task_in (ground_in session.now.setting.space)) (atoms_in (ground_in session.now.setting.space)) (potentials_of drafting.given.dead_ends.now) }
    ensures end { IfOk result (IsTrueEnd session.now.setting.space (G.estimate_of session.now.guide.now) (G.is_dead session.now.guide.now) session.now.setting.limits) }
    ensures said { MayContinue (IsLineWithin (task_in (ground_in session.now.setting.space)) session.now.setting.limits) E.may_lack_memory (E.failures err.old) (E.taken err.old) (E.failures err.new) (E.taken err.new) }
{
    match search_to_pause(session, search, drafting, err)? {
        Part::Ended(parts) => Ok(parts),
        Part::Promising(search) => search_to_end(session, search, err),
        Part::InVain(search) => search_to_end(session, search, err),
    }
}

/// Continues a search by tables, of which the first value is these potentials. At a pause it tries to switch to other tables, drafted
/// from the states that it has found.
pub(crate) fn finish_with_tables<'l, 't, G: Guide, E: Sink + Clock>(
    session: &Session<'_, 'l, 't, G>,
    search: Search<GroundListing<'l, 't>, G::Scratch>,
    drafting: Drafting<'_>,
    err: &mut E,
) -> Result<Parts<'l, 't>, NoMemory>
    requires version { 3 ≤ number_of session.now.setting.limits.version }
    requires space { IsSearchSpace session.now.setting.space }
    requires ground { IsGroundOf (task_in (ground_in session.now.setting.space)) [] session.now.setting.limits.instances (ground_in session.now.setting.space) }
    requires system { G.system_of session.now.guide.now ≡ system_of session.now.setting.space }
    requires guide_width { G.width_of session.now.guide.now ≡ length (atoms_in (ground_in session.now.setting.space)) }
    requires under_way { IsUnderWay session.now.setting.space (G.estimate_of session.now.guide.now) (G.is_dead session.now.guide.now) (G.fits session.now.guide.now) session.now.setting.limits.states search }
    requires width { length (potentials_of drafting.given.potentials.now).weights ≡ length (atoms_in (ground_in session.now.setting.space)) }
    requires improved { AreSettledOrHigh (task_in (ground_in session.now.setting.space)) (atoms_in (ground_in session.now.setting.space)) (potentials_of drafting.given.potentials.now) }
    requires dead_ends_improved { AreDeadSettledOrHigh (task_in (ground_in session.now.setting.space)) (atoms_in (ground_in session.now.setting.space)) (potentials_of drafting.given.dead_ends.now) }
    ensures end { IfOk result (IsTrueEnd session.now.setting.space (G.estimate_of session.now.guide.now) (G.is_dead session.now.guide.now) session.now.setting.limits) }
    ensures said { MayContinue (IsLineWithin (task_in (ground_in session.now.setting.space)) session.now.setting.limits) E.may_lack_memory (E.failures err.old) (E.taken err.old) (E.failures err.new) (E.taken err.new) }
{
    match search_to_later_pause(session, search, drafting, err)? {
        Part::Ended(parts) => Ok(parts),
        Part::Promising(search) => search_to_end(session, search, err),
        Part::InVain(search) => search_to_end(session, search, err),
    }
}

/// Continues the search after the last pause.
fn search_to_end<'l, 't, G: Guide, E: Sink + Clock>(
    session: &Session<'_, 'l, 't, G>,
    search: Search<GroundListing<'l, 't>, G::Scratch>,
    err: &mut E,
) -> Result<Parts<'l, 't>, NoMemory>
    requires space { IsSearchSpace session.now.setting.space }
    requires system { G.system_of session.now.guide.now ≡ system_of session.now.setting.space }
    requires guide_width { G.width_of session.now.guide.now ≡ length (atoms_in (ground_in session.now.setting.space)) }
    requires under_way { IsUnderWay session.now.setting.space (G.estimate_of session.now.guide.now) (G.is_dead session.now.guide.now) (G.fits session.now.guide.now) session.now.setting.limits.states search }
    ensures end { IfOk result (IsTrueEnd session.now.setting.space (G.estimate_of session.now.guide.now) (G.is_dead session.now.guide.now) session.now.setting.limits) }
    ensures said { MayContinue (IsLineWithin (task_in (ground_in session.now.setting.space)) session.now.setting.limits) E.may_lack_memory (E.failures err.old) (E.taken err.old) (E.failures err.new) (E.taken err.new) }
{
    let ending = finish_by(session, search, err)?;
    Ok(Parts::ByGuide(ending))
}

/// Continues the search to a pause, and tries to switch to better values there. There is no pause at the limit of states.
fn search_to_pause<'l, 't, G: Guide, E: Sink + Clock>(
    session: &Session<'_, 'l, 't, G>,
    search: Search<GroundListing<'l, 't>, G::Scratch>,
    drafting: Drafting<'_>,
    err: &mut E,
) -> Result<Part<'l, 't, G::Scratch>, NoMemory>
    requires version { 3 ≤ number_of session.now.setting.limits.version }
    requires space { IsSearchSpace session.now.setting.space }
    requires ground { IsGroundOf (task_in (ground_in session.now.setting.space)) [] session.now.setting.limits.instances (ground_in session.now.setting.space) }
    requires system { G.system_of session.now.guide.now ≡ system_of session.now.setting.space }
    requires guide_width { G.width_of session.now.guide.now ≡ length (atoms_in (ground_in session.now.setting.space)) }
    requires under_way { IsUnderWay session.now.setting.space (G.estimate_of session.now.guide.now) (G.is_dead session.now.guide.now) (G.fits session.now.guide.now) session.now.setting.limits.states search }
    requires width { length (potentials_of drafting.given.potentials.now).weights ≡ length (atoms_in (ground_in session.now.setting.space)) }
    requires improved { AreSettledOrHigh (task_in (ground_in session.now.setting.space)) (atoms_in (ground_in session.now.setting.space)) (potentials_of drafting.given.potentials.now) }
    requires dead_ends_improved { AreDeadSettledOrHigh (task_in (ground_in session.now.setting.space)) (atoms_in (ground_in session.now.setting.space)) (potentials_of drafting.given.dead_ends.now) }
    ensures part { IfOk result (IsTruePart session.now.setting.space (G.estimate_of session.now.guide.now) (G.is_dead session.now.guide.now) (G.fits session.now.guide.now) session.now.setting.limits) }
    ensures said { MayContinue (IsLineWithin (task_in (ground_in session.now.setting.space)) session.now.setting.limits) E.may_lack_memory (E.failures err.old) (E.taken err.old) (E.failures err.new) (E.taken err.new) }
{
    let pause = drafting.pause.states;
    if pause >= session.setting.limits.states() {
        return Ok(Part::InVain(search));
    }
    match go_on_by(session, search, pause, err)? {
        Stretch::Ended(ending) => Ok(Part::Ended(Parts::ByGuide(ending))),
        Stretch::Paused(search) => {
            let attempt = solve_at_pause(session.setting, &search, drafting, err)?;
            part_after(session, search, attempt, err)
        }
    }
}

/// The same for a search by tables, which tries to switch to other tables.
fn search_to_later_pause<'l, 't, G: Guide, E: Sink + Clock>(
    session: &Session<'_, 'l, 't, G>,
    search: Search<GroundListing<'l, 't>, G::Scratch>,
    drafting: Drafting<'_>,
    err: &mut E,
) -> Result<Part<'l, 't, G::Scratch>, NoMemory>
    requires version { 3 ≤ number_of session.now.setting.limits.version }
    requires space { IsSearchSpace session.now.setting.space }
    requires ground { IsGroundOf (task_in (ground_in session.now.setting.space)) [] session.now.setting.limits.instances (ground_in session.now.setting.space) }
    requires system { G.system_of session.now.guide.now ≡ system_of session.now.setting.space }
    requires guide_width { G.width_of session.now.guide.now ≡ length (atoms_in (ground_in session.now.setting.space)) }
    requires under_way { IsUnderWay session.now.setting.space (G.estimate_of session.now.guide.now) (G.is_dead session.now.guide.now) (G.fits session.now.guide.now) session.now.setting.limits.states search }
    requires width { length (potentials_of drafting.given.potentials.now).weights ≡ length (atoms_in (ground_in session.now.setting.space)) }
    requires improved { AreSettledOrHigh (task_in (ground_in session.now.setting.space)) (atoms_in (ground_in session.now.setting.space)) (potentials_of drafting.given.potentials.now) }
    requires dead_ends_improved { AreDeadSettledOrHigh (task_in (ground_in session.now.setting.space)) (atoms_in (ground_in session.now.setting.space)) (potentials_of drafting.given.dead_ends.now) }
    ensures part { IfOk result (IsTruePart session.now.setting.space (G.estimate_of session.now.guide.now) (G.is_dead session.now.guide.now) (G.fits session.now.guide.now) session.now.setting.limits) }
    ensures said { MayContinue (IsLineWithin (task_in (ground_in session.now.setting.space)) session.now.setting.limits) E.may_lack_memory (E.failures err.old) (E.taken err.old) (E.failures err.new) (E.taken err.new) }
{
    let pause = drafting.pause.states;
    if pause >= session.setting.limits.states() {
        return Ok(Part::InVain(search));
    }
    match go_on_by(session, search, pause, err)? {
        Stretch::Ended(ending) => Ok(Part::Ended(Parts::ByGuide(ending))),
        Stretch::Paused(search) => {
            let attempt = solve_at_later_pause(session.setting, &search, drafting, err)?;
            part_after(session, search, attempt, err)
        }
    }
}

/// What the search comes to after this attempt at a pause.
fn part_after<'l, 't, G: Guide, C: Clock>(
    session: &Session<'_, 'l, 't, G>,
    search: Search<GroundListing<'l, 't>, G::Scratch>,
    attempt: Attempt<Answer>,
    clock: &C,
) -> Result<Part<'l, 't, G::Scratch>, NoMemory>
    requires space { IsSearchSpace session.now.setting.space }
    requires system { G.system_of session.now.guide.now ≡ system_of session.now.setting.space }
    requires under_way { IsUnderWay session.now.setting.space (G.estimate_of session.now.guide.now) (G.is_dead session.now.guide.now) (G.fits session.now.guide.now) session.now.setting.limits.states search }
    requires answer { IfDone (IsAnswerWithin (task_in (ground_in session.now.setting.space)) session.now.setting.limits) attempt }
    ensures { IfOk result (IsTruePart session.now.setting.space (G.estimate_of session.now.guide.now) (G.is_dead session.now.guide.now) (G.fits session.now.guide.now) session.now.setting.limits) }
{
    match attempt {
        Attempt::Done(answer) => {
            // A search by tables that ran out of time may not have come as far as this one.
            if is_outdone(&answer, search.bound()) && session.setting.limits.are_over(clock) {
                let ending = stop_by(session, search)?;
                return Ok(Part::Ended(Parts::ByGuide(ending)));
            }
            Ok(Part::Ended(Parts::ByTables(answer)))
        }
        Attempt::Promising => Ok(Part::Promising(search)),
        Attempt::InVain => Ok(Part::InVain(search)),
    }
}

/// Whether the answer is only that the time is over, with a bound below this one.
fn is_outdone(answer: &Answer, bound: Option<u64>) -> bool {
    match (answer, bound) {
        (Answer::Unknown(Exceeded::Time { bound, .. }), Some(known)) => *bound < known,
        _ => false,
    }
}

/// The answer by landmark values on trial, or by tables, or by landmark values.
fn solve_at_pause<R, E: Sink + Clock>(
    setting: Setting<'_, '_>,
    search: &Search<GroundListing<'_, '_>, R>,
    drafting: Drafting<'_>,
    err: &mut E,
) -> Result<Attempt<Answer>, NoMemory>
    requires version { 3 ≤ number_of setting.limits.version }
    requires space { IsSearchSpace setting.space }
    requires ground { IsGroundOf (task_in (ground_in setting.space)) [] setting.limits.instances (ground_in setting.space) }
    requires stopped { IsStopped (store_in search.now) (nodes_of search.now) }
    requires store_width { listed_width (store_in search.now) ≡ length (atoms_in (ground_in setting.space)) }
    requires width { length (potentials_of drafting.given.potentials.now).weights ≡ length (atoms_in (ground_in setting.space)) }
    requires improved { AreSettledOrHigh (task_in (ground_in setting.space)) (atoms_in (ground_in setting.space)) (potentials_of drafting.given.potentials.now) }
    requires dead_ends_improved { AreDeadSettledOrHigh (task_in (ground_in setting.space)) (atoms_in (ground_in setting.space)) (potentials_of drafting.given.dead_ends.now) }
    ensures answer { IfOk result (IfDone (IsAnswerWithin (task_in (ground_in setting.entry.space)) setting.entry.limits)) }
    ensures said { MayContinue (IsLineWithin (task_in (ground_in setting.entry.space)) setting.entry.limits) E.may_lack_memory (E.failures err.old) (E.taken err.old) (E.failures err.new) (E.taken err.new) }
{
    let Some(bound) = search.bound() else {
        return Ok(Attempt::InVain);
    };
    let stopped = Stopped {
        bound,
        listing: search.store(),
        nodes: search.nodes(),
        potentials: drafting.given.potentials,
        dead_ends: drafting.given.dead_ends,
        effort: drafting.pause.effort,
        table_count: drafting.table_count,
    };
    match solve_on_trial(setting, &stopped, err)? {
        Attempt::Done(answer) => Ok(Attempt::Done(answer)),
        _ => solve_by_better_values(setting, &stopped, err),
    }
}

/// The answer by tables, if better ones than the potentials of the paused search are found, or else by landmark values. None of both is
/// tried if no tables are to be drafted.
fn solve_by_better_values<E: Sink + Clock>(
    setting: Setting<'_, '_>,
    stopped: &Stopped<'_, '_, '_>,
    err: &mut E,
) -> Result<Attempt<Answer>, NoMemory>
    requires version { 3 ≤ number_of setting.limits.version }
    requires space { IsSearchSpace setting.space }
    requires ground { IsGroundOf (task_in (ground_in setting.space)) [] setting.limits.instances (ground_in setting.space) }
    requires stopped { IsStopped stopped.now.listing.now stopped.now.nodes.now }
    requires store_width { listed_width stopped.now.listing.now ≡ length (atoms_in (ground_in setting.space)) }
    requires width { length (potentials_of stopped.now.potentials.now).weights ≡ length (atoms_in (ground_in setting.space)) }
    requires improved { AreSettledOrHigh (task_in (ground_in setting.space)) (atoms_in (ground_in setting.space)) (potentials_of stopped.now.potentials.now) }
    requires dead_ends_improved { AreDeadSettledOrHigh (task_in (ground_in setting.space)) (atoms_in (ground_in setting.space)) (potentials_of stopped.now.dead_ends.now) }
    ensures answer { IfOk result (IfDone (IsAnswerWithin (task_in (ground_in setting.entry.space)) setting.entry.limits)) }
    ensures said { MayContinue (IsLineWithin (task_in (ground_in setting.entry.space)) setting.entry.limits) E.may_lack_memory (E.failures err.old) (E.taken err.old) (E.failures err.new) (E.taken err.new) }
{
    if stopped.effort.is_none() {
        return Ok(Attempt::InVain);
    }
    match solve_by_tables(setting, stopped, err)? {
        Attempt::Done(answer) => Ok(Attempt::Done(answer)),
        Attempt::Promising => match solve_asking(setting, stopped, err)? {
            Attempt::Done(answer) => Ok(Attempt::Done(answer)),
            _ => Ok(Attempt::Promising),
        },
        Attempt::InVain => solve_asking(setting, stopped, err),
    }
}

/// The answer by other tables, if better ones than those of this search are found.
fn solve_at_later_pause<R, E: Sink + Clock>(
    setting: Setting<'_, '_>,
    search: &Search<GroundListing<'_, '_>, R>,
    drafting: Drafting<'_>,
    err: &mut E,
) -> Result<Attempt<Answer>, NoMemory>
    requires version { 3 ≤ number_of setting.limits.version }
    requires space { IsSearchSpace setting.space }
    requires ground { IsGroundOf (task_in (ground_in setting.space)) [] setting.limits.instances (ground_in setting.space) }
    requires stopped { IsStopped (store_in search.now) (nodes_of search.now) }
    requires store_width { listed_width (store_in search.now) ≡ length (atoms_in (ground_in setting.space)) }
    requires width { length (potentials_of drafting.given.potentials.now).weights ≡ length (atoms_in (ground_in setting.space)) }
    requires improved { AreSettledOrHigh (task_in (ground_in setting.space)) (atoms_in (ground_in setting.space)) (potentials_of drafting.given.potentials.now) }
    requires dead_ends_improved { AreDeadSettledOrHigh (task_in (ground_in setting.space)) (atoms_in (ground_in setting.space)) (potentials_of drafting.given.dead_ends.now) }
    ensures answer { IfOk result (IfDone (IsAnswerWithin (task_in (ground_in setting.entry.space)) setting.entry.limits)) }
    ensures said { MayContinue (IsLineWithin (task_in (ground_in setting.entry.space)) setting.entry.limits) E.may_lack_memory (E.failures err.old) (E.taken err.old) (E.failures err.new) (E.taken err.new) }
{
    let Some(bound) = search.bound() else {
        return Ok(Attempt::InVain);
    };
    let stopped = Stopped {
        bound,
        listing: search.store(),
        nodes: search.nodes(),
        potentials: drafting.given.potentials,
        dead_ends: drafting.given.dead_ends,
        effort: drafting.pause.effort,
        table_count: drafting.table_count,
    };
    solve_by_later_tables(setting, &stopped, err)
}
