//! A* search for a cheapest plan (Hart, Nilsson & Raphael, A Formal Basis for the Heuristic Determination of Minimum Cost Paths, 1968;
//! Russell & Norvig, Artificial Intelligence, section 3.5.2), which can pause between two expansions.
//!
//! **Order.** The state to expand next has the least sum of cost and estimate; of these the least estimate; of these it was found
//! first. A goal state is answered when its turn comes. With the estimate 0 (`NoEstimate`) this is uniform-cost search.
//!
//! **Estimates** have to be admissible, and need not be consistent: an expanded state that is reached at a lower cost waits again
//! (Martelli, On the Complexity of Admissible Search Algorithms, 1977). Until it is expanded again, the states reached from it keep
//! their costs, so the actions along parents may cost less than a node says. To the answered goal they cost the same, as no list costs
//! less.
//!
//! **Dead ends** that the guide reports are listed and never expanded. The guide is asked where a state is found, and again where it
//! is reached at a lower cost.
//!
//! **Values on demand.** `go_on_asking` asks for a better value of a state when its turn comes (`ValuesOnDemand`). If the value is
//! higher, the state waits again, by the higher sum; if the state is dead, it is marked so. A state that has been expanded is not asked
//! for: its value has decided which states were reached from it. All that is proved holds by the values that the states have at the end.
//!
//! **Classes.** From states of one class the goal is reached alike: at the same costs. So a state need not be expanded if one of its
//! class is, at no greater cost. If classes are the states that symmetries map to each other, this prunes by symmetries (Domshlak,
//! Katz & Shleyfman, Enhanced Symmetry Breaking in Cost-Optimal Planning as Forward Search, 2012; as orbit space search: Symmetry
//! Breaking in Deterministic Planning as Forward Search, 2015). A class is found by a key (`StateListing`), and states of one orbit
//! may have different keys. What is listed are the states themselves: the plan is read along parents, estimates are those of the
//! states, and only reachable states are listed. A reached state is compared with the current one of its class:
//!
//! - None is listed: the state is new.
//! - The current one costs no more: nothing changes.
//! - The current one was never expanded: the state takes its place, as no other was reached from it.
//! - The current one has been expanded: the state is listed too, and is the current one from now on. The other stays at its cost, so
//!   the states reached from it keep their parent.
//!
//! A listed state that is itself reached at a lower cost waits again at its place. If estimates differ within a class, an expanded
//! state need not have been reached by a cheapest way, even if they are consistent: a cheaper way may lead through a waiting state of
//! its class.
//!
//! **Memory.** States are in a listing, in the order in which they were found, and are named by their places there. If a cheaper way
//! to a waiting state is found, its old entry stays in the open list, and is skipped when it comes up (lazy deletion). All expansions
//! share the same buffers, so a state takes no memory but its place in the listing, its node and its entry.
//!
//! **The limit.** If one more state than `max_states` would have to be listed, the outcome is `States`, and its bound is the least sum
//! of a waiting state. The state that was being expanded counts as waiting, though some of its successors may be listed.
//!
//! **What is proved** (`IsTrueOutcome`, `HasEstimates`) is what costs decide:
//!
//! - A plan that is found is a cheapest one. No plan costs less than an expanded state with its estimate.
//! - `States` is reported only if more states than the limit may have to be found before any plan is known to be cheapest
//!   (`PrecedesPlans`). The bound is the least sum of cost and estimate over the cuts: the found states that are neither expanded nor
//!   reported dead. The found states prove it (`IsAtLimit`).
//! - Exactly the states that are reported dead are marked dead, and none of them is expanded.
//! - The estimate of each cut is reported, so it need not be computed again.
//! - With a consistent estimate, at the limit no expanded state has a greater sum than the bound, and the initial state no greater
//!   estimate. If moreover each state is a class of its own, and successors of reported dead ends are reported too, expanded states
//!   were reached by a cheapest way.
//!
//! Left open are which of several cheapest plans is answered, which states whose sum equals its cost are expanded before, and the
//! order of the listing. `next_waiting` promises the order above; that its state is the one to expand or answer, and that states are
//! found in the order of successors, is only tested.
ghost use Rattle.std.specs.Prelude.{◌≡◌, ◌≤◌, ℕ, [], IfOk, None, length};
ghost use Rattle.model.specs.Limits.{max_states_listed};
ghost use Rattle.search.specs.OnDemand.{noted_at};
ghost use Rattle.search.specs.OpenList.{IsLeastSum};
ghost use Rattle.search.specs.Outcome.{AreClassesOf, HasEstimates, IsTrueOutcome};
ghost use Rattle.search.specs.Nodes.{AreClosed};
ghost use Rattle.search.specs.Progress.{HoldsIn, IsSearch, nodes_in};
ghost use Rattle.search.specs.UnderWay.{store_in, nodes_of, IsUnderWay, IsUnderWayBy, IsTrueHalt, IsTrueHaltBy, IsTrueStop, IsTrueStopBy};

use crate::bases::Bases;
use crate::best::Outcome;
use crate::buffers::Buffers;
use crate::guide::Guide;
use crate::listing::StateListing;
use crate::nodes::{FoundStates, Node};
use crate::on_demand::{GuideAlone, ValuesOnDemand};
use crate::problem::Problem;
use crate::progress::Progress;
use crate::transitions::TransitionSystem;
use faults::NoMemory;
use std::alloc::Global;

/// A search between two expansions: the states found so far, and which of them wait. `R` is its guide's scratch.
#[derive(Drop)]
pub struct Search<L, R> {
    progress: Progress<L>,
    buffers: Buffers<R>,
}

/// Where a search halts.
#[derive(Drop)]
pub enum Halt<L, R> {
    /// At its end, with the outcome.
    Ended(Outcome<L>),
    /// At a pause: as many states are listed as were asked for, and there is no outcome yet.
    Paused(Search<L, R>),
}

/// What a search that is stopped at a pause shows.
#[derive(Drop)]
pub enum Stop<L> {
    /// No state waits, so it is at its end: no plan exists.
    Ended(Outcome<L>),
    /// States wait.
    Waiting {
        /// A lower bound of every plan's cost: the least sum of a waiting state.
        bound: u64,
        /// The found states.
        states: FoundStates<L>,
    },
}

impl<L: StateListing, R> Search<L, R> {
    /// The same search, whose states stand on the guide alone.
    fn without_bases(self, alloc: Global) -> Search<L, R>
        ensures store { result.progress.store ≡ self.progress.store }
        ensures nodes { result.progress.nodes ≡ self.progress.nodes }
        ensures open_list { result.progress.open_list ≡ self.progress.open_list }
        ensures bases { (place : ℕ) → noted_at result.progress.bases place ≡ 0 }
        ensures buffers { result.buffers ≡ self.buffers }
    {
        let Search { progress, buffers } = self;
        let Progress {
            store,
            nodes,
            bases: _,
            open_list,
        } = progress;
        Search {
            progress: Progress {
                store,
                nodes,
                bases: Bases::new(alloc),
                open_list,
            },
            buffers,
        }
    }

    /// The listed states, in the order in which they were found. A state may have taken the place of another of its class.
    pub fn store(&self) -> &L
        ensures { result.now ≡ store_in self.now }
    {
        &self.progress.store
    }

    /// How each of them was reached, in the same order.
    pub fn nodes(&self) -> &[Node]
        ensures { result.now ≡ nodes_of self.now }
    {
        &self.progress.nodes
    }

    /// The least sum of cost and estimate in the open list, unless it is empty. The entry may be stale: its state was reached at a
    /// lower cost since, or another took its place.
    pub fn bound(&self) -> Option<u64>
        ensures { IsLeastSum self.now.progress.open_list result }
    {
        self.progress.open_list.least_sum()
    }
}

/// Begins a search over this listing, which is empty at first. The initial state alone is found.
///
/// # Errors
/// Memory is refused.
pub fn begin<T: TransitionSystem, G: Guide, L: StateListing>(
    alloc: Global,
    system: &T,
    guide: &G,
    store: L,
) -> Result<Search<L, G::Scratch>, NoMemory>
    requires guide_width { G.width_of guide.now ≡ T.width_of system.now }
    requires empty { L.states store ≡ [] }
    requires width { L.width_of store ≡ T.width_of system.now }
    ensures { IfOk result (λ search. (max_states : ℕ) → 1 ≤ max_states
        → IsUnderWay (T.means system.now) (L.class_of store) (G.estimate_of guide.now) (G.is_dead guide.now) (G.fits guide.now) L.states L.class_of L.width_of (T.width_of system.now) max_states search) }
{
    start(alloc, system, guide, store)
}

/// Begins a search as `begin` does, whose values are to be asked for. No state stands on a basis yet.
///
/// # Errors
/// Memory is refused.
pub fn begin_asking<T: TransitionSystem, G: Guide, V: ValuesOnDemand, L: StateListing>(
    problem: &Problem<'_, T, G>,
    _values: &V,
    store: L,
) -> Result<Search<L, G::Scratch>, NoMemory>
    requires made_for { G.system_of problem.now.guide.now ≡ T.means problem.now.system.now }
    requires guide_width { G.width_of problem.now.guide.now ≡ T.width_of problem.now.system.now }
    requires empty { L.states store ≡ [] }
    requires width { L.width_of store ≡ T.width_of problem.now.system.now }
    ensures { IfOk result (λ search. (max_states : ℕ) → 1 ≤ max_states
        → IsUnderWayBy (T.means problem.now.system.now) (L.class_of store) (G.estimate_of problem.now.guide.now) (G.is_dead problem.now.guide.now) V.answers (G.fits problem.now.guide.now) L.states L.class_of L.width_of (T.width_of problem.now.system.now) max_states search) }
{
    start(problem.alloc, problem.system, problem.guide, store)
}

/// A search whose initial state alone is found, and stands on the guide.
fn start<T: TransitionSystem, G: Guide, L: StateListing>(
    alloc: Global,
    system: &T,
    guide: &G,
    store: L,
) -> Result<Search<L, G::Scratch>, NoMemory>
    requires guide_width { G.width_of guide.now ≡ T.width_of system.now }
    requires empty { L.states store ≡ [] }
    requires width { L.width_of store ≡ T.width_of system.now }
    ensures under_way { IfOk result (λ search. (max_states : ℕ) → 1 ≤ max_states
        → IsUnderWay (T.means system.now) (L.class_of store) (G.estimate_of guide.now) (G.is_dead guide.now) (G.fits guide.now) L.states L.class_of L.width_of (T.width_of system.now) max_states search) }
    ensures bases { IfOk result (λ search. (place : ℕ) → noted_at search.progress.bases place ≡ 0) }
{
    let scratch = guide.scratch(alloc)?;
    let mut buffers = Buffers::new(alloc, system.width(), scratch)?;
    let progress = Progress::start(alloc, system, guide, &mut buffers.scratch, store)?;
    Ok(Search { progress, buffers })
}

/// Continues the search until it ends or at least `pause` states are listed. It pauses only between two expansions, so more may be
/// listed by then.
///
/// # Errors
/// Memory is refused.
pub fn go_on<T: TransitionSystem, G: Guide, L: StateListing>(
    alloc: Global,
    system: &T,
    guide: &G,
    search: Search<L, G::Scratch>,
    pause: u32,
    max_states: u32,
) -> Result<Halt<L, G::Scratch>, NoMemory>
    requires made_for { G.system_of guide.now ≡ T.means system.now }
    requires guide_width { G.width_of guide.now ≡ T.width_of system.now }
    requires under_way { IsUnderWay (T.means system.now) (L.class_of (store_in search)) (G.estimate_of guide.now) (G.is_dead guide.now) (G.fits guide.now) L.states L.class_of L.width_of (T.width_of system.now) max_states search }
    requires classes { AreClassesOf (T.means system.now) (L.class_of (store_in search)) }
    requires limit { max_states ≤ max_states_listed }
    ensures { IfOk result (IsTrueHalt (T.means system.now) (L.class_of (store_in search)) (G.estimate_of guide.now) (G.is_dead guide.now) (G.fits guide.now) L.states L.class_of L.width_of (T.width_of system.now) pause max_states) }
{
    let search = search.without_bases(alloc);
    let mut values = GuideAlone(guide);
    let problem = Problem {
        alloc,
        system,
        guide,
        max_states,
    };
    go_on_asking(&problem, &mut values, search, pause)
}

/// Continues the search as `go_on` does. The values of states are asked for when their turn comes.
///
/// # Errors
/// Memory is refused.
pub fn go_on_asking<T: TransitionSystem, G: Guide, V: ValuesOnDemand, L: StateListing>(
    problem: &Problem<'_, T, G>,
    values: &mut V,
    search: Search<L, G::Scratch>,
    pause: u32,
) -> Result<Halt<L, G::Scratch>, NoMemory>
    requires made_for { G.system_of problem.now.guide.now ≡ T.means problem.now.system.now }
    requires values_for { V.system_of values.old ≡ T.means problem.now.system.now }
    requires guide_width { G.width_of problem.now.guide.now ≡ T.width_of problem.now.system.now }
    requires values_width { V.width_of values.old ≡ T.width_of problem.now.system.now }
    requires under_way { IsUnderWayBy (T.means problem.now.system.now) (L.class_of (store_in search)) (G.estimate_of problem.now.guide.now) (G.is_dead problem.now.guide.now) V.answers (G.fits problem.now.guide.now) L.states L.class_of L.width_of (T.width_of problem.now.system.now) problem.now.max_states search }
    requires classes { AreClassesOf (T.means problem.now.system.now) (L.class_of (store_in search)) }
    requires limit { problem.now.max_states ≤ max_states_listed }
    ensures values_for { IfOk result (λ _. V.system_of values.new ≡ V.system_of values.old) }
    ensures values_width { IfOk result (λ _. V.width_of values.new ≡ V.width_of values.old) }
    ensures halt { IfOk result (IsTrueHaltBy (T.means problem.now.system.now) (L.class_of (store_in search)) (G.estimate_of problem.now.guide.now) (G.is_dead problem.now.guide.now) V.answers (G.fits problem.now.guide.now) L.states L.class_of L.width_of (T.width_of problem.now.system.now) pause problem.now.max_states) }
{
    let Search {
        mut progress,
        mut buffers,
    } = search;
    buffers.asks = u32::MAX;
    'turns: while progress.store.len() < pause as usize {
        let Some(turn) = progress.next_waiting() else {
            let states = progress.into_states(problem.alloc)?;
            return Ok(Halt::Ended(Outcome::Exhausted { states }));
        };
        progress.store.get(turn.id.0, &mut buffers.state);
        if problem.system.meets_goal(&buffers.state) {
            let cost = progress.nodes[turn.id.0 as usize].cost;
            let (steps, states) = progress.into_plan(problem.alloc, turn)?;
            return Ok(Halt::Ended(Outcome::Found {
                steps,
                cost,
                states,
            }));
        }
        if !progress.take_turn(problem, values, &mut buffers, turn)? {
            let (bound, states) = progress.into_bound(problem.alloc, turn)?;
            return Ok(Halt::Ended(Outcome::States { bound, states }));
        }
    }
    Ok(Halt::Paused(Search { progress, buffers }))
}

/// Continues the search to its end.
///
/// # Errors
/// Memory is refused.
pub fn finish<T: TransitionSystem, G: Guide, L: StateListing>(
    alloc: Global,
    system: &T,
    guide: &G,
    search: Search<L, G::Scratch>,
    max_states: u32,
) -> Result<Outcome<L>, NoMemory>
    requires made_for { G.system_of guide.now ≡ T.means system.now }
    requires guide_width { G.width_of guide.now ≡ T.width_of system.now }
    requires under_way { IsUnderWay (T.means system.now) (L.class_of (store_in search)) (G.estimate_of guide.now) (G.is_dead guide.now) (G.fits guide.now) L.states L.class_of L.width_of (T.width_of system.now) max_states search }
    requires classes { AreClassesOf (T.means system.now) (L.class_of (store_in search)) }
    requires limit { max_states ≤ max_states_listed }
    ensures outcome { IfOk result (IsTrueOutcome (T.means system.now) (L.class_of (store_in search)) (G.estimate_of guide.now) (G.is_dead guide.now) L.states max_states) }
    ensures estimates { IfOk result (HasEstimates (G.estimate_of guide.now) (G.is_dead guide.now) L.states) }
{
    match go_on(alloc, system, guide, search, u32::MAX, max_states)? {
        Halt::Ended(outcome) => Ok(outcome),
        Halt::Paused(_) => unreachable!(),
    }
}

/// Stops the search where it pauses. The found states prove its bound, as they do at the limit of states. The guide is asked nothing.
///
/// # Errors
/// Memory is refused.
pub fn stop_at_pause<G: Guide, L: StateListing>(
    alloc: Global,
    guide: &G,
    search: Search<L, G::Scratch>,
) -> Result<Stop<L>, NoMemory>
    requires search { IsSearch (G.system_of guide.now) (L.class_of (store_in search)) (G.estimate_of guide.now) (G.is_dead guide.now) L.states search.progress }
    requires successors { AreClosed (G.system_of guide.now) (L.class_of (store_in search)) (nodes_in L.states search.progress) }
    requires classes { AreClassesOf (G.system_of guide.now) (L.class_of (store_in search)) }
    ensures { IfOk result (λ stop. (max_states : ℕ) → length (L.states (store_in search)) ≤ max_states
        → IsTrueStop (G.system_of guide.now) (L.class_of (store_in search)) (G.estimate_of guide.now) (G.is_dead guide.now) L.states max_states stop) }
{
    let search = search.without_bases(alloc);
    stop_asking(alloc, guide, &GuideAlone(guide), search)
}

/// Stops a search as `stop_at_pause` does, whose values were asked for. Nothing is asked.
///
/// # Errors
/// Memory is refused.
pub fn stop_asking<G: Guide, V: ValuesOnDemand, L: StateListing>(
    alloc: Global,
    _guide: &G,
    _values: &V,
    search: Search<L, G::Scratch>,
) -> Result<Stop<L>, NoMemory>
    requires search { HoldsIn (G.system_of _guide.now) (G.estimate_of _guide.now) (G.is_dead _guide.now) V.answers L.states search.progress
        (λ value is_dead. IsSearch (G.system_of _guide.now) (L.class_of (store_in search)) value is_dead L.states search.progress) }
    requires successors { AreClosed (G.system_of _guide.now) (L.class_of (store_in search)) (nodes_in L.states search.progress) }
    requires classes { AreClassesOf (G.system_of _guide.now) (L.class_of (store_in search)) }
    ensures { IfOk result (λ stop. (max_states : ℕ) → length (L.states (store_in search)) ≤ max_states
        → IsTrueStopBy (G.system_of _guide.now) (L.class_of (store_in search)) (G.estimate_of _guide.now) (G.is_dead _guide.now) V.answers L.states max_states stop) }
{
    let Search {
        mut progress,
        buffers: _,
    } = search;
    let Some(turn) = progress.next_waiting() else {
        let states = progress.into_states(alloc)?;
        return Ok(Stop::Ended(Outcome::Exhausted { states }));
    };
    let (bound, states) = progress.into_bound(alloc, turn)?;
    Ok(Stop::Waiting { bound, states })
}
