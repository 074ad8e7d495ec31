//! Chooses several values, whose maximum counts: each value kept exceeds the others in some state (diversification; Seipp, Keller
//! & Helmert 2020, "Saturated Cost Partitioning for Optimal Classical Planning").
use crate::cost_partition::CostPartition;
use crate::costs::Costs;
use crate::draft::Effort;
use crate::orders::Order;
use crate::partitioner::Partitioner;
use crate::rests::{left_by, potentials_of_rest, score};
use crate::states::Sampled;
use abstractions::RowGraph;
use faults::DraftMemory;
use potentials::Potentials;
use potentials_drafted::ProgramInput;

/// The maximum number of values, with the potentials alone.
const MAX_VALUES: usize = 9;

/// The maximum number of candidates that values are chosen from.
const MAX_CANDIDATES: u64 = 20;

/// The number of trials for the best order for the initial state, and for another state.
const TRIALS: u32 = 400;

const TRIALS_OF_STATE: u32 = 12;

/// Work limits, in arcs: for dropping tables from the initial state's order, for improving it, and for the orders of all other
/// states. A tenth of each at a quick draft gives the same tables in the same time.
const MAX_WORK_OF_PRUNING: u64 = 20_000_000;

const MAX_WORK: u64 = 20_000_000;

const MAX_WORK_OF_STATES: u64 = 20_000_000;

/// A value: a cost partition over tables, plus potentials.
#[derive(Drop)]
pub(crate) struct PartitionedValue {
    pub(crate) partition: CostPartition,
    pub(crate) potentials: Potentials,
}

/// A candidate value, and its value in each state.
#[derive(Drop)]
struct CandidateValue {
    value: PartitionedValue,
    given: Vec<i64>,
}

/// The search for orders, the candidates, and the greatest value of each state: by all parts, and by tables alone.
#[derive(Drop)]
struct CandidateValues<'a> {
    partitioner: Partitioner<'a>,
    all: Vec<CandidateValue>,
    most: Vec<i64>,
    most_by_tables: Vec<i64>,
    /// How often potentials were drafted for remaining costs.
    rests: u64,
}

/// The inputs of the choice.
#[derive(Drop)]
pub(crate) struct Choosing<'a> {
    pub(crate) memory: &'a DraftMemory,
    pub(crate) abstractions: &'a [RowGraph],
    pub(crate) costs: &'a Costs,
    pub(crate) sampled: Sampled<'a>,
    pub(crate) potentials: &'a Potentials,
    pub(crate) effort: Effort,
}

impl Choosing<'_> {
    /// The values beside the potentials alone: each raises the value of some state.
    pub(crate) fn values(&self, input: &mut ProgramInput) -> Vec<PartitionedValue> {
        let candidates = self.candidates(input);
        self.chosen(candidates)
    }

    /// The limit at this effort.
    fn part_of(&self, count: u64) -> u64 {
        self.effort.part_of(count, self.costs.left().len())
    }

    /// The candidates: by an order for the initial state, and by orders for other states.
    fn candidates(&self, input: &mut ProgramInput) -> Vec<CandidateValue> {
        let mut candidates = self.no_candidates();
        self.add_first(input, &mut candidates);
        self.add_others(input, &mut candidates);
        let CandidateValues { all, .. } = candidates;
        all
    }

    /// No candidates: each state has the value 0.
    fn no_candidates(&self) -> CandidateValues<'_> {
        let memory = self.memory;
        let states = self.sampled.abstract_states;
        CandidateValues {
            partitioner: Partitioner::new(memory, self.abstractions, self.costs, states),
            all: memory.list(),
            most: memory.filled(0, states.len()),
            most_by_tables: memory.filled(0, states.len()),
            rests: 0,
        }
    }

    /// Adds the candidates by an order for the initial state.
    fn add_first(&self, input: &mut ProgramInput, candidates: &mut CandidateValues<'_>) {
        candidates.partitioner.allow(MAX_WORK_OF_PRUNING);
        let order = candidates.partitioner.best_order();
        candidates.partitioner.allow(self.part_of(MAX_WORK));
        let order = candidates.partitioner.improved(order, TRIALS);
        self.add(input, &order, candidates);
        self.add_after_potentials(input, &order, candidates);
    }

    /// Adds the candidates by orders for the other states.
    fn add_others(&self, input: &mut ProgramInput, candidates: &mut CandidateValues<'_>) {
        candidates
            .partitioner
            .allow(self.part_of(MAX_WORK_OF_STATES));
        for state in 1..self.sampled.abstract_states.len() {
            if candidates.partitioner.is_done() {
                break;
            }
            let order = candidates.partitioner.order_for(state, TRIALS_OF_STATE);
            self.add(input, &order, candidates);
        }
    }

    /// Adds the partition by this order, with potentials for the remaining costs, if its tables alone raise the value of some
    /// state.
    fn add(&self, input: &mut ProgramInput, order: &Order, candidates: &mut CandidateValues<'_>) {
        let partition = candidates.partitioner.divide(order);
        let given = candidates.partitioner.values(&partition);
        if !raise(&mut candidates.most_by_tables, &given)
            || candidates.rests >= self.part_of(MAX_CANDIDATES)
        {
            return;
        }
        candidates.rests = candidates.rests.saturating_add(1);
        if let Some(potentials) = potentials_of_rest(self.memory, input, &partition.left) {
            let value = PartitionedValue {
                partition,
                potentials,
            };
            self.push(value, candidates);
        }
    }

    /// Adds the partition by this order of the costs that potentials leave.
    fn add_after_potentials(
        &self,
        input: &mut ProgramInput,
        order: &Order,
        candidates: &mut CandidateValues<'_>,
    ) {
        if let Some(potentials) = potentials_of_rest(self.memory, input, self.costs) {
            let left = left_by(self.memory, input, self.costs, potentials.weights());
            let partition = candidates.partitioner.partition(order, &left);
            let value = PartitionedValue {
                partition,
                potentials,
            };
            self.push(value, candidates);
        }
    }

    /// Adds the value if it raises the value of some state.
    fn push(&self, value: PartitionedValue, candidates: &mut CandidateValues<'_>) {
        let given = self.given(&value);
        if raise(&mut candidates.most, &given) {
            let candidate = CandidateValue { value, given };
            self.memory.push(&mut candidates.all, candidate);
        }
    }

    /// The value in each state, at least 0.
    fn given(&self, value: &PartitionedValue) -> Vec<i64> {
        let mut given = self.memory.list();
        for (numbers, atoms) in self.sampled.abstract_states.iter().zip(self.sampled.atoms) {
            let by_tables = value.partition.value(numbers).unwrap_or(0);
            let sum = by_tables.saturating_add(score(&value.potentials, atoms));
            self.memory.push(&mut given, sum.max(0));
        }
        given
    }

    /// The same by the potentials alone.
    fn given_alone(&self) -> Vec<i64> {
        let mut given = self.memory.list();
        for (_, atoms) in self.sampled.abstract_states.iter().zip(self.sampled.atoms) {
            let sum = score(self.potentials, atoms);
            self.memory.push(&mut given, sum.max(0));
        }
        given
    }

    /// Repeatedly the candidate by which the initial state, and next all states, gain most, as long as there is a gain over the
    /// potentials alone.
    fn chosen(&self, mut candidates: Vec<CandidateValue>) -> Vec<PartitionedValue> {
        let mut values = self.memory.list();
        let mut most = self.given_alone();
        for _ in 1..MAX_VALUES {
            let Some(value) = next_value(&mut candidates, &mut most) else {
                break;
            };
            self.memory.push(&mut values, value);
        }
        values
    }
}

/// Removes the candidate by which the states gain most, and raises their values to those by it. `None` if none gains.
fn next_value(candidates: &mut Vec<CandidateValue>, most: &mut [i64]) -> Option<PartitionedValue> {
    let place = best(candidates, most)?;
    if place >= candidates.len() {
        return None;
    }
    let CandidateValue { value, given } = candidates.swap_remove(place);
    for (before, value) in most.iter_mut().zip(&given) {
        *before = (*before).max(*value);
    }
    Some(value)
}

/// Raises each number to the one at its index, if that is greater. Returns whether any was raised.
fn raise(most: &mut [i64], given: &[i64]) -> bool {
    let mut is_raised = false;
    for (before, value) in most.iter_mut().zip(given) {
        if *value > *before {
            *before = *value;
            is_raised = true;
        }
    }
    is_raised
}

/// The index of the candidate with the greatest gain, where the initial state has priority; `None` if there is no gain.
fn best(candidates: &[CandidateValue], most: &[i64]) -> Option<usize> {
    let mut best = None;
    let mut greatest = (0i64, 0i64);
    for (place, candidate) in candidates.iter().enumerate() {
        let gain = gain(&candidate.given, most);
        if gain > greatest {
            greatest = gain;
            best = Some(place);
        }
    }
    best
}

/// The gain of the first state by these values, and the gain of all states.
fn gain(given: &[i64], most: &[i64]) -> (i64, i64) {
    let mut first = None;
    let mut all = 0i64;
    for (value, before) in given.iter().zip(most) {
        let more = value.saturating_sub(*before).max(0);
        if first.is_none() {
            first = Some(more);
        }
        all = all.saturating_add(more);
    }
    (first.unwrap_or(0), all)
}
