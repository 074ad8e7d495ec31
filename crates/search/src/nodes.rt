//! The found states of a search, and how they were reached.
ghost use Rattle.std.specs.Prelude.{◌≡◌, ◌+◌, ◌*◌, ◌<◌, ◌≤◌, length, IfOk};
ghost use Rattle.search.specs.Outcome.{is_expanded, is_marked_dead};
ghost use Rattle.search.specs.Nodes.{has_been_expanded_status, place_in, status_again, status_of_reached, IsPath, IsReachedIn};

use crate::bases::Bases;
use crate::best::MAX_STATES;
use faults::NoMemory;
use std::alloc::Global;

/// The place of a found state, from 0, in the order in which they were found.
#[derive(Clone, Copy, Debug, PartialEq, Eq, PartialOrd, Ord)]
pub struct StateId(pub u32);

/// A place in three bytes, the lowest first: enough for the greatest limit.
#[derive(Clone, Copy, Debug, PartialEq, Eq)]
pub(crate) struct ShortId {
    low: u8,
    middle: u8,
    high: u8,
}

/// The status of a found state.
#[derive(Clone, Copy, Debug, PartialEq, Eq)]
pub enum NodeStatus {
    /// It waits to be expanded for the first time.
    Unexpanded,
    /// It was expanded, at least in part, and waits to be expanded again: it was reached at a lower cost since, or the limit stopped
    /// its expansion.
    Reopened,
    /// It was expanded: a state of each successor's class is found.
    Expanded,
    /// It is reported dead, and is never expanded.
    Dead,
}

/// How a found state was reached, and its status, in 16 bytes.
#[derive(Clone, Copy, Debug, PartialEq, Eq)]
pub struct Node {
    /// The cost of some list of actions that leads to the state.
    pub cost: u64,
    /// Whether it waits, was expanded, or is reported dead.
    pub status: NodeStatus,
    /// The state from which it was reached at this cost, and which may have been reached at a lower cost since. It has been expanded,
    /// so no other takes its place. For the initial state this means nothing.
    pub(crate) parent: ShortId,
    /// The action that leads from the parent to it.
    pub(crate) action: u32,
}

/// The found states.
#[derive(Drop)]
pub struct FoundStates<L> {
    /// The states.
    pub store: L,
    /// How each of them was reached, in the same order.
    pub nodes: Vec<Node>,
    /// What their values stand on beside the guide, by place.
    pub bases: Bases,
    /// In the same order, the estimate of each waiting state. For any other state the number means nothing.
    pub estimates: Vec<u64>,
}

impl NodeStatus {
    /// The status of a new state with this estimate. `None`: it is reported dead.
    pub(crate) fn of_reached(estimate: Option<u64>) -> NodeStatus
        ensures { result ≡ status_of_reached estimate }
    {
        match estimate {
            Some(_) => NodeStatus::Unexpanded,
            None => NodeStatus::Dead,
        }
    }

    /// The status after the state is reached at a lower cost, with this estimate. `None`: it is reported dead.
    pub(crate) fn again(self, estimate: Option<u64>) -> NodeStatus
        ensures { result ≡ status_again self estimate }
    {
        match estimate {
            Some(_) if self.has_been_expanded() => NodeStatus::Reopened,
            _ => NodeStatus::of_reached(estimate),
        }
    }

    /// Whether the state was ever expanded, at least in part. If not, no other was reached from it.
    pub(crate) fn has_been_expanded(self) -> bool
        ensures { result ≡ has_been_expanded_status self }
    {
        matches!(self, NodeStatus::Reopened | NodeStatus::Expanded)
    }
}

impl Node {
    /// Whether the state was expanded at its present cost.
    pub fn is_expanded(&self) -> bool
        ensures { result ≡ is_expanded self.now }
    {
        matches!(self.status, NodeStatus::Expanded)
    }

    /// Whether the state is marked dead.
    pub fn is_marked_dead(&self) -> bool
        ensures { result ≡ is_marked_dead self.now }
    {
        matches!(self.status, NodeStatus::Dead)
    }
}

impl ShortId {
    /// The place in three bytes.
    pub(crate) fn new(id: StateId) -> ShortId
        requires { id.0 < MAX_STATES }
        ensures { place_in result ≡ id.0 }
    {
        ShortId {
            low: (id.0 % 256) as u8,
            middle: (id.0 / 256 % 256) as u8,
            high: (id.0 / 65_536) as u8,
        }
    }

    /// The place.
    fn id(self) -> StateId
        ensures { result.0 ≡ place_in self }
    {
        StateId(number_of(self.low, self.middle, self.high))
    }
}

/// The number with these bytes, the lowest first.
fn number_of(low: u8, middle: u8, high: u8) -> u32
    ensures { result ≡ low + middle * 256 + high * 65536 }
{
    u32::from(low) + u32::from(middle) * 256 + u32::from(high) * 65_536
}

/// The actions that lead from the initial state to the goal state.
pub(crate) fn steps_to(alloc: Global, nodes: &[Node], goal: StateId) -> Result<Vec<u32>, NoMemory>
    requires { IsReachedIn nodes.now goal.0 (length nodes.now) }
    ensures path { IfOk result (λ steps. IsPath nodes.now goal.0 steps.items) }
    ensures short { IfOk result (λ steps. length steps.items ≤ length nodes.now) }
{
    let mut steps = Vec::new(alloc);
    let mut at = goal;
    while at.0 != 0 {
        let node = nodes[at.0 as usize];
        steps.push(node.action)?;
        at = node.parent.id();
    }
    steps.reverse();
    Ok(steps)
}
