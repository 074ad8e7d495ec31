//! Cost partitions over abstractions.
use crate::costs::Costs;
use crate::goal_distances::{GoalDistances, NO_WAY, are_some_far, distance_of, take_saturated};
use crate::orders::Order;
use abstractions::RowGraph;
use faults::DraftMemory;

/// An abstraction's part of a partition: the value of each of its abstract states.
#[derive(Drop)]
pub(crate) struct Part {
    /// The index of the table.
    pub(crate) table: usize,
    /// The goal distance of each abstract state under the costs that were left for it.
    pub(crate) distances: Vec<i64>,
}

/// A saturated cost partition over abstractions.
#[derive(Drop)]
pub(crate) struct CostPartition {
    /// The parts, in the order of the tables. Tables in which all distances are 0 are left out.
    pub(crate) parts: Vec<Part>,
    /// The remaining costs.
    pub(crate) left: Costs,
}

impl CostPartition {
    /// The partition in which the abstractions take their saturated costs in this order.
    pub(crate) fn new(
        finder: &mut GoalDistances<'_>,
        abstractions: &[RowGraph],
        order: &Order,
        costs: &Costs,
    ) -> CostPartition {
        let memory = finder.memory();
        let mut partition = CostPartition {
            parts: memory.list(),
            left: costs.copied(memory),
        };
        for table in order.tables() {
            if memory.is_refused() {
                break;
            }
            if let Some(abstraction) = abstractions.get(*table) {
                let distances = finder.of(abstraction, &partition.left);
                if distances.iter().any(|distance| *distance != 0) {
                    if are_some_far(&distances) {
                        take_saturated(memory, abstraction, &distances, &mut partition.left);
                    }
                    let part = Part {
                        table: *table,
                        distances,
                    };
                    memory.push(&mut partition.parts, part);
                }
            }
        }
        partition
    }

    /// The order of the tables that have a part.
    pub(crate) fn order(&self, memory: &DraftMemory) -> Order {
        let mut tables = memory.filled(0, self.parts.len());
        for (table, part) in tables.iter_mut().zip(&self.parts) {
            *table = part.table;
        }
        Order::new(tables)
    }

    /// The value of a state with these rows, indexed by table; `None` if one of the rows has no path to the goal.
    pub(crate) fn value(&self, rows: &[u32]) -> Option<i64> {
        let mut value = 0i64;
        for part in &self.parts {
            if let Some(row) = rows.get(part.table) {
                let distance = distance_of(&part.distances, *row);
                if distance == NO_WAY {
                    return None;
                }
                value = value.saturating_add(distance);
            }
        }
        Some(value)
    }
}
