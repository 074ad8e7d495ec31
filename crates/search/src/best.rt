//! The outcome of a search, and a search that runs to its end without a pause.
ghost use Rattle.std.specs.Prelude.{◌≡◌, ◌≤◌, [], IfOk};
ghost use Rattle.model.specs.Limits.{max_states_listed};
ghost use Rattle.search.specs.Outcome.{HasEstimates, IsTrueOutcome};

use crate::guide::Guide;
use crate::listing::OwnClasses;
use crate::nodes::FoundStates;
use crate::transitions::TransitionSystem;
use crate::under_way::{begin, finish};
use faults::NoMemory;
use packed_state::StateStore;
use std::alloc::Global;

/// The greatest limit of listed states.
pub const MAX_STATES: u32 = 16_777_216;

/// The outcome of a search.
#[derive(Drop)]
pub enum Outcome<L> {
    /// A cheapest plan.
    Found {
        /// Its actions, in order.
        steps: Vec<u32>,
        /// Their total cost.
        cost: u64,
        /// The found states.
        states: FoundStates<L>,
    },
    /// No plan exists.
    Exhausted {
        /// The found states. If each state is a class of its own, these are all reachable states, except those that only dead ends
        /// lead to.
        states: FoundStates<L>,
    },
    /// The limit of listed states was reached before any plan was known to be cheapest.
    States {
        /// A lower bound of every plan's cost.
        bound: u64,
        /// The found states: as many as the limit allows.
        states: FoundStates<L>,
    },
}

/// Runs the search of `begin` and `finish` to its end, with each state as a class of its own. The states are in the given store, which
/// is empty at first. It is there for users of the library: the program pauses its searches.
///
/// # Errors
/// Memory is refused.
///
/// ```text
/// let store = PooledStore::new(alloc, system.width())?;
/// let estimate = NoEstimate(&system);
/// let dead_ends = NoDeadEnd(&system);
/// let guide = EstimateWithDeadEnds::new(&estimate, &dead_ends);
/// match best_first(alloc, &system, &guide, store, 1_000_000)? {
///     Outcome::Found { steps, cost, states } => ..,
///     Outcome::Exhausted { states } => ..,
///     Outcome::States { bound, states } => ..,
/// }
/// ```
pub fn best_first<T: TransitionSystem, G: Guide, S: StateStore>(
    alloc: Global,
    system: &T,
    guide: &G,
    store: S,
    max_states: u32,
) -> Result<Outcome<S>, NoMemory>
    requires made_for { G.system_of guide.now ≡ T.means system.now }
    requires guide_width { G.width_of guide.now ≡ T.width_of system.now }
    requires empty { S.states store ≡ [] }
    requires width { S.width_of store ≡ T.width_of system.now }
    requires some { 1 ≤ max_states }
    requires limit { max_states ≤ max_states_listed }
    ensures outcome { IfOk result (IsTrueOutcome (T.means system.now) (λ s. s) (G.estimate_of guide.now) (G.is_dead guide.now) S.states max_states) }
    ensures estimates { IfOk result (HasEstimates (G.estimate_of guide.now) (G.is_dead guide.now) S.states) }
{
    let search = begin(alloc, system, guide, OwnClasses(store))?;
    Ok(match finish(alloc, system, guide, search, max_states)? {
        Outcome::Found {
            steps,
            cost,
            states,
        } => Outcome::Found {
            steps,
            cost,
            states: states.in_store(),
        },
        Outcome::Exhausted { states } => Outcome::Exhausted {
            states: states.in_store(),
        },
        Outcome::States { bound, states } => Outcome::States {
            bound,
            states: states.in_store(),
        },
    })
}

impl<S> FoundStates<OwnClasses<S>> {
    /// The found states, in the store alone.
    fn in_store(self) -> FoundStates<S>
        ensures store { result.store ≡ self.store.0 }
        ensures nodes { result.nodes.items ≡ self.nodes.items }
        ensures estimates { result.estimates.items ≡ self.estimates.items }
    {
        let FoundStates {
            store,
            nodes,
            bases,
            estimates,
        } = self;
        FoundStates {
            store: store.0,
            nodes,
            bases,
            estimates,
        }
    }
}
