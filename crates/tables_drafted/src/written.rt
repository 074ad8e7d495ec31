//! Tables in memory, with the weights of several values.
ghost use Rattle.std.specs.Prelude.{◌≡◌, nat_lt, slice_get, true};
ghost use Rattle.std.specs.Option.{option_map_or};
ghost use Rattle.table_rows.specs.Rows as rows;

use crate::chosen::PartitionedValue;
use crate::cost_partition::Part;
use crate::goal_distances::NO_WAY;
use abstractions::{RowGraph, Variables, number_of, place_of};
use faults::DraftMemory;
use potentials::{MAX_WEIGHT, Potentials};
use table_rows::Table;

/// Finite stand-in for infinity: the weight of a row without a path to the goal, for values. It exceeds the weights of rows with
/// a path, and the costs taken where a path ends.
const WEIGHT_OF_DEAD: i64 = 1_073_741_824;

/// What the rows of a table are written from.
#[derive(Clone, Copy)]
pub(crate) struct Writing<'a> {
    pub(crate) memory: &'a DraftMemory,
    pub(crate) variables: &'a Variables,
    /// The values beside the potentials alone, which take nothing from tables.
    pub(crate) values: &'a [PartitionedValue],
    /// The weight, for dead ends, of a row without a path to the goal.
    pub(crate) weight_of_dead: i64,
}

/// The dead-end weight that a row without a path to the goal needs, so that every state in the row is detected whatever these
/// potentials contribute.
pub(crate) fn weight_of_dead(dead_ends: &Potentials) -> i64 {
    let mut sum = dead_ends.constant().saturating_abs();
    for weight in dead_ends.weights() {
        sum = sum.saturating_add(weight.saturating_abs());
    }
    sum.saturating_add(1).min(MAX_WEIGHT)
}

impl Writing<'_> {
    /// The table with these rows, given their goal distances under the full costs. `None` if a weight is out of range, or the
    /// rows are not valid table rows.
    pub(crate) fn table(&self, place: usize, graph: &RowGraph, reach: &[i64]) -> Option<Table> {
        let mut table = self.empty_table(graph)?;
        for (row, distance) in reach.iter().enumerate() {
            let weights = self.weights(place, row, *distance)?;
            let atoms = graph.atoms_of(self.memory, self.variables, number_of(row));
            add(self.memory, &mut table, &atoms, &weights);
        }
        Some(table)
    }

    /// The table without rows. `None` if its atoms are not valid.
    fn empty_table(&self, graph: &RowGraph) -> Option<Table> {
        let scope = graph.scope(self.memory, self.variables);
        let count = number_of(self.values.len()).saturating_add(2);
        if !is_rising(&scope) || scope.len() > place_of(u32::MAX) {
            return None;
        }
        self.memory
            .kept(Table::new(self.memory.alloc(), scope, count))
    }

    /// The weights of the row at this index of this table, with this goal distance under the full costs; `None` if one is out of
    /// range.
    fn weights(&self, table: usize, row: usize, distance: i64) -> Option<Vec<i64>> {
        let mut weights = self.memory.filled(0, 1);
        for value in self.values {
            let weight = match part_of(value, table) {
                Some(part) => weight_of(part, row),
                None => 0,
            };
            if weight > MAX_WEIGHT {
                return None;
            }
            self.memory.push(&mut weights, weight);
        }
        let for_dead_ends = if distance == NO_WAY {
            self.weight_of_dead
        } else {
            0
        };
        self.memory.push(&mut weights, for_dead_ends);
        Some(weights)
    }
}

/// The table's part of the value.
pub(crate) fn part_of(value: &PartitionedValue, table: usize) -> Option<&Part> {
    value
        .partition
        .parts
        .iter()
        .find(|part| part.table == table)
}

/// The weight of the row at this index.
fn weight_of(part: &Part, row: usize) -> i64 {
    match part.distances.get(row) {
        Some(distance) => {
            if *distance == NO_WAY {
                WEIGHT_OF_DEAD
            } else {
                *distance
            }
        }
        None => 0,
    }
}

/// Adds the row with these atoms and weights, if it is a valid row.
fn add(memory: &DraftMemory, table: &mut Table, atoms: &[u32], weights: &[i64]) {
    if is_rising(atoms)
        && weights.len() == place_of(table.weight_count())
        && table.row_count() < 16_777_216
    {
        memory.kept(table.add(memory.alloc(), atoms, weights));
    }
}

/// Whether the numbers are strictly ascending.
#[tactic(auto, using(crate::proofs::RisingLemmas::rising_on, crate::proofs::RisingLemmas::rising_not))]
fn is_rising(numbers: &[u32]) -> bool
    ensures { result ≡ rows.are_rising numbers.now }
{
    let mut left = numbers;
    while let [first, others @ ..] = left {
        if !is_below(*first, others) {
            return false;
        }
        left = others;
    }
    true
}

/// Whether the number is below the first of the others, if there is one.
fn is_below(number: u32, others: &[u32]) -> bool
    ensures { result ≡ option_map_or (λ first. nat_lt number first) (slice_get others.now 0) true }
{
    match others {
        [first, ..] => number < *first,
        [] => true,
    }
}
