//! Goal distances of abstract states, and the saturated costs that they need.
use crate::costs::Costs;
use abstractions::{InstanceClass, RowGraph, number_of, place_of};
use bucket_queue::{BucketQueue, Queued};
use faults::DraftMemory;

/// The distance of an abstract state without a path to the goal.
pub(crate) const NO_WAY: i64 = i64::MAX;

/// Finds goal distances of abstract states, by Dijkstra's algorithm backwards from the goal.
#[derive(Drop)]
pub(crate) struct GoalDistances<'a> {
    memory: &'a DraftMemory,
    /// The remaining cost of each class of instances; `None` if all are shut out.
    costs: Vec<Option<i64>>,
    /// The abstract states to expand, by distance.
    waiting: BucketQueue,
}

impl<'a> GoalDistances<'a> {
    /// Room to find them in.
    pub(crate) fn new(memory: &'a DraftMemory) -> GoalDistances<'a> {
        GoalDistances {
            memory,
            costs: memory.list(),
            waiting: BucketQueue::new(memory),
        }
    }

    /// The memory that they take.
    pub(crate) fn memory(&self) -> &'a DraftMemory {
        self.memory
    }

    /// The goal distance of each abstract state under the remaining costs.
    pub(crate) fn of(&mut self, abstraction: &RowGraph, costs: &Costs) -> Vec<i64> {
        self.find_costs(abstraction, costs);
        let mut distances = self.memory.filled(NO_WAY, abstraction.state_count());
        self.begin(abstraction, &mut distances);
        for _ in 0..u64::MAX {
            let Some(Queued { key, number }) = self.waiting.pop() else {
                break;
            };
            let distance = i64::try_from(key).unwrap_or(NO_WAY);
            if distance_of(&distances, number) == distance {
                self.relax(abstraction, number, &mut distances);
            }
        }
        distances
    }

    /// Finds the remaining cost of each class.
    fn find_costs(&mut self, abstraction: &RowGraph, costs: &Costs) {
        self.costs.clear();
        for class in abstraction.classes() {
            let cost = costs.of_class(abstraction, class);
            self.memory.push(&mut self.costs, cost);
        }
    }

    /// Begins at the abstract states that the goal allows.
    fn begin(&mut self, abstraction: &RowGraph, distances: &mut [i64]) {
        self.waiting.clear();
        for (place, distance) in distances.iter_mut().enumerate() {
            let number = number_of(place);
            if abstraction.is_goal(number) {
                *distance = 0;
                self.waiting.push(self.memory, Queued { key: 0, number });
            }
        }
    }

    /// Relaxes the arcs that lead to this abstract state, whose goal distance is known.
    fn relax(&mut self, abstraction: &RowGraph, state: u32, distances: &mut [i64]) {
        let distance = distance_of(distances, state);
        for arc in abstraction.arcs_to(state) {
            if let Some(Some(cost)) = self.costs.get(place_of(arc.class)) {
                let next = distance.saturating_add(*cost);
                if let Some(before) = distances.get_mut(place_of(arc.from)) {
                    if next < *before {
                        *before = next;
                        let queued = Queued {
                            key: next.unsigned_abs(),
                            number: arc.from,
                        };
                        self.waiting.push(self.memory, queued);
                    }
                }
            }
        }
    }
}

/// Whether some abstract state has a path to the goal, and is not at no distance from it.
pub(crate) fn are_some_far(distances: &[i64]) -> bool {
    distances
        .iter()
        .any(|distance| *distance > 0 && *distance != NO_WAY)
}

/// The distance of the abstract state with this number.
pub(crate) fn distance_of(distances: &[i64], state: u32) -> i64 {
    match distances.get(place_of(state)) {
        Some(distance) => *distance,
        None => NO_WAY,
    }
}

/// Subtracts the saturated costs from the costs: for each class the greatest decrease of the distance along its arcs. It may be
/// negative, in which case the cost grows.
pub(crate) fn take_saturated(
    memory: &DraftMemory,
    abstraction: &RowGraph,
    distances: &[i64],
    costs: &mut Costs,
) {
    let saturated = saturated_costs(memory, abstraction, distances);
    for (class, cost) in abstraction.classes().iter().zip(&saturated) {
        if let Some(cost) = cost {
            if *cost != 0 {
                for instance in abstraction.instances_of(class) {
                    costs.take(*instance, *cost);
                }
            }
        }
    }
}

/// The sum of the saturated costs, without the instances that are shut out.
pub(crate) fn saturated_sum(
    memory: &DraftMemory,
    abstraction: &RowGraph,
    distances: &[i64],
    costs: &Costs,
) -> i64 {
    let saturated = saturated_costs(memory, abstraction, distances);
    let mut sum = 0i64;
    for (class, cost) in abstraction.classes().iter().zip(&saturated) {
        let cost = cost.unwrap_or(0).max(0);
        for instance in abstraction.instances_of(class) {
            if costs.of(*instance).is_some() {
                sum = sum.saturating_add(cost);
            }
        }
    }
    sum
}

/// The saturated cost of each class; `None` if it has no effect.
pub(crate) fn saturated_costs(
    memory: &DraftMemory,
    abstraction: &RowGraph,
    distances: &[i64],
) -> Vec<Option<i64>> {
    let mut saturated = unsaturated(memory, abstraction.classes());
    let mut state = 0u32;
    for to in distances {
        for arc in abstraction.arcs_to(state) {
            if let Some(lost) = lost(distance_of(distances, arc.from), *to) {
                raise(&mut saturated, arc.class, lost);
            }
        }
        state = state.saturating_add(1);
    }
    saturated
}

/// The saturated cost of each class before its arcs are seen.
fn unsaturated(memory: &DraftMemory, classes: &[InstanceClass]) -> Vec<Option<i64>> {
    let mut saturated = memory.filled(None, classes.len());
    for (cost, class) in saturated.iter_mut().zip(classes) {
        if class.has_loop {
            *cost = Some(0);
        }
    }
    saturated
}

/// The decrease from one distance to another; `None` if only one of the abstract states has no path to the goal. Two
/// without one count as equal.
fn lost(from: i64, to: i64) -> Option<i64> {
    match (from == NO_WAY, to == NO_WAY) {
        (false, false) => Some(from.saturating_sub(to)),
        (true, true) => Some(0),
        (false, true) => None,
        (true, false) => None,
    }
}

/// Raises the saturated cost of the class to at least this.
fn raise(saturated: &mut [Option<i64>], class: u32, lost: i64) {
    if let Some(cost) = saturated.get_mut(place_of(class)) {
        *cost = match *cost {
            Some(before) => Some(before.max(lost)),
            None => Some(lost),
        };
    }
}
