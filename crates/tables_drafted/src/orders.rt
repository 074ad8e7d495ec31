//! Orders of tables for saturated cost partitioning, among them the greedy order by value per stolen cost (Seipp, Keller &
//! Helmert 2020, "Saturated Cost Partitioning for Optimal Classical Planning").
use faults::DraftMemory;
use std::ops::Range;

/// An order of tables, by index.
#[derive(Drop)]
pub(crate) struct Order {
    tables: Vec<usize>,
}

/// The worth of a table for a state: the value that it gives, and the sum of its saturated costs.
#[derive(Clone, Copy, Debug)]
pub(crate) struct Worth {
    pub(crate) table: usize,
    pub(crate) value: i64,
    pub(crate) saturated: i64,
}

impl Order {
    /// The order with these tables.
    pub(crate) fn new(tables: Vec<usize>) -> Order {
        Order { tables }
    }

    /// The tables, in order.
    pub(crate) fn tables(&self) -> &[usize] {
        &self.tables
    }

    /// The tables by value per stolen cost, the best first; among equals, the one with the greater value first.
    pub(crate) fn by_worth(memory: &DraftMemory, mut worths: Vec<Worth>) -> Order {
        worths.sort_unstable_by(|one, other| {
            other
                .ratio()
                .cmp(&one.ratio())
                .then_with(|| other.value.cmp(&one.value))
                .then_with(|| one.table.cmp(&other.table))
        });
        Order::of(memory, &worths)
    }

    /// The tables by value, the best first.
    pub(crate) fn by_value(memory: &DraftMemory, mut worths: Vec<Worth>) -> Order {
        worths.sort_unstable_by(|one, other| {
            other
                .value
                .cmp(&one.value)
                .then_with(|| one.table.cmp(&other.table))
        });
        Order::of(memory, &worths)
    }

    /// The tables in this order.
    fn of(memory: &DraftMemory, worths: &[Worth]) -> Order {
        let mut tables = memory.filled(0, worths.len());
        for (table, worth) in tables.iter_mut().zip(worths) {
            *table = worth.table;
        }
        Order { tables }
    }

    /// The order without the tables at these indices.
    pub(crate) fn without(&self, memory: &DraftMemory, dropped: Range<usize>) -> Order {
        let mut tables = memory.list();
        for (place, table) in self.tables.iter().enumerate() {
            if place < dropped.start || place >= dropped.end {
                memory.push(&mut tables, *table);
            }
        }
        Order { tables }
    }

    /// The order with the table at one index moved to another.
    pub(crate) fn moved(&self, memory: &DraftMemory, from: usize, to: usize) -> Order {
        let mut tables = memory.copied(&self.tables);
        if from < tables.len() {
            let table = tables.remove(from);
            if to <= tables.len() {
                memory.kept(tables.insert(to, table));
            } else {
                memory.push(&mut tables, table);
            }
        }
        Order { tables }
    }
}

impl Worth {
    /// The value times 1000, divided by the sum of the saturated costs plus one.
    fn ratio(self) -> i64 {
        self.value.saturating_mul(1000).saturating_add(1) / self.saturated.max(0).saturating_add(1)
    }
}
