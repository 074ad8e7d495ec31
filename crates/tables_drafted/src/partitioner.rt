//! The search for orders that give states great values.
use crate::cost_partition::CostPartition;
use crate::costs::Costs;
use crate::goal_distances::{GoalDistances, NO_WAY, distance_of, saturated_sum};
use crate::orders::{Order, Worth};
use abstractions::RowGraph;
use faults::DraftMemory;
use potentials_drafted::RandomGenerator;

/// The part, in thousandths, of the states' sum of values that is left without tables that add little. With 1,000 and with 990 miconic,
/// lifts that stop and floortile expand the same states; woodworking of five parts 1,242 and 2,136, of six 1,726 and 1,783.
const NEARLY_ALL: i64 = 998;

/// The numbers of a state's abstract states, by table index.
pub(crate) type AbstractStates = Vec<u32>;

/// The search for orders: tables, costs of instances, and the states whose values are to be raised.
#[derive(Drop)]
pub(crate) struct Partitioner<'a> {
    memory: &'a DraftMemory,
    finder: GoalDistances<'a>,
    abstractions: &'a [RowGraph],
    costs: &'a Costs,
    /// The first is the initial state.
    states: &'a [AbstractStates],
    /// For each table, the value of each state if it comes first in the order.
    alone: Vec<Vec<i64>>,
    /// The sum of the saturated costs of each table in that case.
    saturated: Vec<i64>,
    random: RandomGenerator,
    /// Work counter (arcs, rows and instances), and its limit, after which no order is modified any more.
    work: u64,
    max_work: u64,
}

/// The quality of a partition: the value of the given state, and the sum of the values of all states.
#[derive(Clone, Copy, Debug, PartialEq, Eq, PartialOrd, Ord)]
struct Merit {
    first: i64,
    all: i64,
}

/// An order, with its quality.
#[derive(Drop)]
struct Ranked {
    order: Order,
    merit: Merit,
}

impl Merit {
    /// Whether the given state has no lower value than by the other, and all states have nearly as much.
    fn is_nearly(self, other: Merit) -> bool {
        self.first >= other.first
            && self.all.saturating_mul(1000) >= other.all.saturating_mul(NEARLY_ALL)
    }
}

impl<'a> Partitioner<'a> {
    /// A search for these tables, costs and states.
    pub(crate) fn new(
        memory: &'a DraftMemory,
        abstractions: &'a [RowGraph],
        costs: &'a Costs,
        states: &'a [AbstractStates],
    ) -> Partitioner<'a> {
        let mut partitioner = Partitioner {
            memory,
            finder: GoalDistances::new(memory),
            abstractions,
            costs,
            states,
            alone: memory.list(),
            saturated: memory.list(),
            random: RandomGenerator::new(),
            work: 0,
            max_work: 0,
        };
        for (table, abstraction) in abstractions.iter().enumerate() {
            if memory.is_refused() {
                break;
            }
            partitioner.add(table, abstraction);
        }
        partitioner
    }

    /// Records the values and the saturated costs of the table if it comes first.
    fn add(&mut self, table: usize, abstraction: &RowGraph) {
        let memory = self.memory;
        let distances = self.finder.of(abstraction, self.costs);
        let mut given = memory.filled(0, self.states.len());
        for (value, state) in given.iter_mut().zip(self.states) {
            if let Some(number) = state.get(table) {
                *value = or_nothing(distance_of(&distances, *number));
            }
        }
        let saturated = saturated_sum(memory, abstraction, &distances, self.costs);
        memory.push(&mut self.saturated, saturated);
        memory.push(&mut self.alone, given);
        self.count(abstraction);
    }

    /// Allows this much further work.
    pub(crate) fn allow(&mut self, more: u64) {
        self.max_work = self.work.saturating_add(more);
    }

    /// Whether the work limit is reached, or memory was refused.
    pub(crate) fn is_done(&self) -> bool {
        self.work > self.max_work || self.memory.is_refused()
    }

    /// Counts a pass over the abstraction as work.
    fn count(&mut self, abstraction: &RowGraph) {
        self.work = self.work.saturating_add(abstraction.size() as u64);
    }

    /// The worth of each table for the state at this index, for the tables with a positive value in some state.
    fn worths(&self, state: usize) -> Vec<Worth> {
        let mut worths = self.memory.list();
        for (table, (given, saturated)) in self.alone.iter().zip(&self.saturated).enumerate() {
            if given.iter().any(|value| *value > 0) {
                let worth = Worth {
                    table,
                    value: match given.get(state) {
                        Some(value) => *value,
                        None => 0,
                    },
                    saturated: *saturated,
                };
                self.memory.push(&mut worths, worth);
            }
        }
        worths
    }

    /// The greedy order for the state at this index.
    fn greedy(&self, state: usize) -> Order {
        Order::by_worth(self.memory, self.worths(state))
    }

    /// The partition by this order.
    pub(crate) fn divide(&mut self, order: &Order) -> CostPartition {
        for table in order.tables() {
            if let Some(abstraction) = self.abstractions.get(*table) {
                self.count(abstraction);
            }
        }
        self.partition(order, self.costs)
    }

    /// The partition of these costs by this order.
    pub(crate) fn partition(&mut self, order: &Order, costs: &Costs) -> CostPartition {
        CostPartition::new(&mut self.finder, self.abstractions, order, costs)
    }

    /// The value of each state by the partition; 0 if the state is a known dead end.
    pub(crate) fn values(&self, partition: &CostPartition) -> Vec<i64> {
        let mut values = self.memory.filled(0, self.states.len());
        for (value, rows) in values.iter_mut().zip(self.states) {
            *value = partition.value(rows).unwrap_or(0);
        }
        values
    }

    /// An order that gives the initial state a great value, and among equals one with a great sum over all states: the better of
    /// two orders, without tables that add little.
    pub(crate) fn best_order(&mut self) -> Order {
        let greedy = self.greedy(0);
        let mut best = self.ranked(greedy, 0);
        let other = Order::by_value(self.memory, self.worths(0));
        let other = self.ranked(other, 0);
        if other.merit > best.merit {
            best = other;
        }
        let Ranked { order, .. } = self.pruned(&best.order, 0);
        order
    }

    /// The order, improved for the initial state by hill climbing within this many trials.
    pub(crate) fn improved(&mut self, order: Order, trials: u32) -> Order {
        let ranked = self.ranked(order, 0);
        self.climb(ranked, 0, trials)
    }

    /// An order with a great value of the state at this index.
    pub(crate) fn order_for(&mut self, state: usize, trials: u32) -> Order {
        let order = self.greedy(state);
        let pruned = self.pruned(&order, state);
        self.climb(pruned, state, trials)
    }

    /// The order without tables that add little: after them the state at this index has no lower value, and all states have
    /// nearly as much. It drops halves, then quarters, and at last single tables, those from the end first.
    fn pruned(&mut self, order: &Order, state: usize) -> Ranked {
        let order = self.divide(order).order(self.memory);
        let mut best = self.ranked(order, state);
        let mut size = best.order.tables().len();
        for _ in 0..usize::BITS {
            if size == 0 {
                break;
            }
            best = self.pruned_by(best, state, size);
            size /= 2;
        }
        best
    }

    /// The same, dropping this many tables at a time.
    fn pruned_by(&mut self, ranked: Ranked, state: usize, size: usize) -> Ranked {
        let mut best = ranked;
        let mut end = best.order.tables().len();
        for _ in 0..best.order.tables().len() {
            if end == 0 || self.is_done() {
                break;
            }
            let start = end.saturating_sub(size);
            let fewer = best.order.without(self.memory, start..end);
            let fewer = self.ranked(fewer, state);
            if fewer.merit.is_nearly(best.merit) {
                best = Ranked {
                    order: fewer.order,
                    merit: fewer.merit.max(best.merit),
                };
            }
            end = start;
        }
        best
    }

    /// Hill climbing: moves tables within the order as long as that is no worse, within this many trials.
    fn climb(&mut self, best: Ranked, state: usize, trials: u32) -> Order {
        let mut best = best;
        for _ in 0..trials {
            if self.is_done() {
                break;
            }
            let from = self.random.below(best.order.tables().len());
            let to = self.random.below(best.order.tables().len());
            if from != to {
                let moved = best.order.moved(self.memory, from, to);
                let moved = self.ranked(moved, state);
                if moved.merit >= best.merit {
                    best = moved;
                }
            }
        }
        let Ranked { order, .. } = best;
        order
    }

    /// The order with its quality for the state at this index and for all states.
    fn ranked(&mut self, order: Order, state: usize) -> Ranked {
        let partition = self.divide(&order);
        let mut merit = Merit { first: 0, all: 0 };
        for (place, rows) in self.states.iter().enumerate() {
            let value = partition.value(rows).unwrap_or(0);
            merit.all = merit.all.saturating_add(value);
            if place == state {
                merit.first = value;
            }
        }
        Ranked { order, merit }
    }
}

/// The distance; 0 if there is no path.
fn or_nothing(distance: i64) -> i64 {
    if distance == NO_WAY { 0 } else { distance }
}
