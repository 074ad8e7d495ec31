//! The state that is expanded next, its successors, and a state as it is reached.
ghost use Rattle.std.specs.Prelude.{◌≡◌, ◌<◌, ◌^◌, length};
ghost use Rattle.packed_state.specs.Packed.{bits_of};
ghost use Rattle.search.specs.Nodes.{parent_of};
ghost use Rattle.search.specs.OnDemand.{IsRestOf};
ghost use Rattle.search.specs.Standing.{rest_value, IsEstimateBy};

use crate::bases::Rest;
use crate::best::MAX_STATES;
use crate::guide::Guide;
use crate::nodes::{Node, NodeStatus, ShortId, StateId};
use crate::on_demand::{Basis, ValuesOnDemand};
use packed_state::Packed;

/// The state that is expanded next, with its estimate, and the sum of its cost and estimate.
#[derive(Clone, Copy)]
pub(crate) struct Turn {
    pub(crate) id: StateId,
    pub(crate) sum: u64,
    pub(crate) estimate: u64,
}

/// A successor of the state that is being expanded.
#[derive(Clone, Copy)]
pub(crate) struct Successor<'a> {
    pub(crate) parent: StateId,
    pub(crate) action: u32,
    pub(crate) state: &'a Packed,
}

/// What the value of a state stands on where it is reached.
#[derive(Clone, Copy)]
pub(crate) enum Standing {
    /// It is listed, and marked dead.
    Dead,
    /// On the guide, and on this.
    Based(Rest),
}

/// A state as it is reached now, with its node, its estimate, and what that stands on beside the guide. Without an estimate it is dead.
#[derive(Clone, Copy)]
pub(crate) struct Reached<'a> {
    pub(crate) state: &'a Packed,
    pub(crate) node: Node,
    pub(crate) estimate: Option<u64>,
    pub(crate) rest: Rest,
}

impl Standing {
    /// What it stands on beside the guide.
    pub(crate) fn rest(self) -> Rest
        ensures { result.value ≡ rest_value self }
    {
        match self {
            Standing::Dead => Rest::none(),
            Standing::Based(rest) => rest,
        }
    }

    /// The estimate of a state by the guide and by what it stands on, or `None` if it is dead.
    pub(crate) fn estimate<G: Guide>(
        self,
        guide: &G,
        state: &Packed,
        scratch: &mut G::Scratch,
    ) -> Option<u64>
        requires width { length (bits_of state.now) ≡ G.width_of guide.now }
        requires scratch { G.fits guide.now scratch.old }
        requires fits { rest_value self < 2 ^ 63 }
        ensures estimate { IsEstimateBy (G.estimate_of guide.now) (G.is_dead guide.now) (bits_of state.now) self result }
        ensures scratch { G.fits guide.now scratch.new }
    {
        let Standing::Based(rest) = self else {
            return None;
        };
        let Some(estimate) = guide.value(state, scratch) else {
            return None;
        };
        Some(estimate.max(rest.value))
    }
}

/// What the value of a state rests on by this basis, if there is one.
pub(crate) fn rest_by<V: ValuesOnDemand>(values: &V, basis: Option<Basis>, state: &Packed) -> Rest
    requires { length (bits_of state.now) ≡ V.width_of values.now }
    ensures { IsRestOf V.answers (V.system_of values.now) (bits_of state.now) result.value }
{
    match basis {
        Some(at) => Rest {
            basis,
            value: values.value(at, state),
        },
        None => Rest::none(),
    }
}

impl Successor<'_> {
    /// Its node, if it is reached so at this cost.
    pub(crate) fn node(&self, cost: u64, status: NodeStatus) -> Node
        requires { self.now.parent.0 < MAX_STATES }
        ensures cost { result.cost ≡ cost }
        ensures status { result.status ≡ status }
        ensures parent { parent_of result ≡ self.now.parent.0 }
        ensures action { result.action ≡ self.now.action }
    {
        Node {
            cost,
            status,
            parent: ShortId::new(self.parent),
            action: self.action,
        }
    }
}
