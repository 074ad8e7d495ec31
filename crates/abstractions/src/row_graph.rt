//! The reachable rows of a table, and the arcs between them.
use crate::lists::{append, with_room};
use crate::numbers::{number_of, place_of};
use crate::reached::VariableTask;
use crate::variables::Variables;
use faults::DraftMemory;

/// Instances with the same behaviour in a table.
#[derive(Clone, Copy, Debug)]
pub struct InstanceClass {
    /// Their start among the instances of all classes.
    pub start: u32,
    /// Their end.
    pub end: u32,
    /// Whether one of them may lead from some row to itself.
    pub has_loop: bool,
    /// The number of rows that allow them.
    pub state_count: u32,
}

/// An arc: the instances of a class may lead from this row to another.
#[derive(Clone, Copy, Debug)]
pub struct Arc {
    /// The number of the source.
    pub from: u32,
    /// The number of the class.
    pub class: u32,
}

/// The reachable rows of a table, by number, the initial state's first, with the arcs between them.
#[derive(Drop)]
pub struct RowGraph {
    pub(crate) variables: Vec<u32>,
    /// The increase of a row's index for each increment of a variable's value.
    pub(crate) radices: Vec<u32>,
    /// The index of each row.
    pub(crate) rows: Vec<u32>,
    /// Pairs of a row's index and its number, sorted by index.
    pub(crate) by_index: Vec<(u32, u32)>,
    pub(crate) is_goal: Vec<bool>,
    pub(crate) classes: Vec<InstanceClass>,
    pub(crate) instances: Vec<u32>,
    /// The end of the arcs into each row, among the arcs that lead to another row.
    pub(crate) ends: Vec<u32>,
    pub(crate) arcs: Vec<Arc>,
}

impl RowGraph {
    /// The table's variables, in ascending order.
    pub fn variables(&self) -> &[u32] {
        &self.variables
    }

    /// Finds out whether the goal allows each of the rows.
    pub(crate) fn find_goals(&mut self, memory: &DraftMemory, task: &VariableTask<'_>) {
        self.is_goal.clear();
        for index in &self.rows {
            let is_goal = self.variables.iter().zip(&self.radices).all(|(variable, radix)| {
                let value = value_at(*index, *radix, task.variables.value_count(*variable));
                task.goals.allow(*variable, value)
            });
            memory.push(&mut self.is_goal, is_goal);
        }
    }

    /// The number of arcs that lead to another row.
    pub fn arc_count(&self) -> usize {
        self.arcs.len()
    }

    /// The number of row tests needed to test the loss of every instance: for each instance, the rows that allow it.
    pub fn test_count(&self) -> u64 {
        let mut count = 0u64;
        for class in &self.classes {
            let instances = self.instances_of(class).len() as u64;
            count = count.saturating_add(instances.saturating_mul(u64::from(class.state_count)));
        }
        count
    }

    /// The end of the arcs into the row with this number.
    fn end(&self, place: usize) -> usize {
        match self.ends.get(place) {
            Some(end) => place_of(*end),
            None => 0,
        }
    }

    /// The instances that no row allows.
    pub fn shut_out(&self, memory: &DraftMemory) -> Vec<u32> {
        let mut found = memory.list();
        for class in &self.classes {
            if class.state_count == 0 {
                append(memory, &mut found, self.instances_of(class));
            }
        }
        found
    }

    /// The index of the row with these values.
    fn index_of(&self, values: &[u32]) -> u32 {
        let mut index = 0u32;
        for (variable, radix) in self.variables.iter().zip(&self.radices) {
            if let Some(value) = values.get(place_of(*variable)) {
                index = index.saturating_add(value.saturating_mul(*radix));
            }
        }
        index
    }

    /// The true atoms in the row with this number, in ascending order.
    pub fn atoms_of(&self, memory: &DraftMemory, variables: &Variables, row: u32) -> Vec<u32> {
        let mut atoms = memory.list();
        let Some(index) = self.rows.get(place_of(row)) else {
            return atoms;
        };
        for (variable, radix) in self.variables.iter().zip(&self.radices) {
            let value = value_at(*index, *radix, variables.value_count(*variable));
            if let Some(place) = place_of(value).checked_sub(1) {
                if let Some(atom) = variables.atoms(*variable).get(place) {
                    memory.push(&mut atoms, *atom);
                }
            }
        }
        atoms.sort_unstable();
        atoms
    }

    /// The atoms of the table's scope, in ascending order.
    pub fn scope(&self, memory: &DraftMemory, variables: &Variables) -> Vec<u32> {
        let mut scope = memory.list();
        for variable in &self.variables {
            append(memory, &mut scope, variables.atoms(*variable));
        }
        scope.sort_unstable();
        scope.dedup();
        scope
    }

    /// The number of rows.
    pub fn state_count(&self) -> usize {
        self.rows.len()
    }

    /// The number of the row of a state, which is given by the values of all variables. `None` if it was not reached.
    pub fn state_of(&self, values: &[u32]) -> Option<u32> {
        let index = self.index_of(values);
        match self
            .by_index
            .binary_search_by_key(&index, |(index, _)| *index)
        {
            Ok(place) => match self.by_index.get(place) {
                Some((_, row)) => Some(*row),
                None => None,
            },
            Err(_) => None,
        }
    }

    /// Whether the goal allows the row with this number.
    pub fn is_goal(&self, state: u32) -> bool {
        match self.is_goal.get(place_of(state)) {
            Some(is_goal) => *is_goal,
            None => false,
        }
    }

    /// The classes of instances, by number.
    pub fn classes(&self) -> &[InstanceClass] {
        &self.classes
    }

    /// The instances of the class, in ascending order.
    pub fn instances_of(&self, class: &InstanceClass) -> &[u32] {
        match self
            .instances
            .get(place_of(class.start)..place_of(class.end))
        {
            Some(instances) => instances,
            None => &[],
        }
    }

    /// The arcs from other rows to the one with this number.
    pub fn arcs_to(&self, state: u32) -> &[Arc] {
        let start = match place_of(state).checked_sub(1) {
            Some(before) => self.end(before),
            None => 0,
        };
        match self.arcs.get(start..self.end(place_of(state))) {
            Some(arcs) => arcs,
            None => &[],
        }
    }

    /// Its size as a measure of work: its arcs, rows and instances.
    pub fn size(&self) -> usize {
        self.arcs
            .len()
            .saturating_add(self.rows.len())
            .saturating_add(self.instances.len())
    }
}

/// The value at this radix in an index, for a variable with this many values.
pub(crate) fn value_at(index: u32, radix: u32, count: u32) -> u32 {
    if radix == 0 || count == 0 {
        return 0;
    }
    index / radix % count
}

/// The numbers of the rows, sorted by index.
pub(crate) fn by_index(memory: &DraftMemory, rows: &[u32]) -> Vec<(u32, u32)> {
    let mut by_index = with_room(memory, rows.len());
    for (place, index) in rows.iter().enumerate() {
        memory.push(&mut by_index, (*index, number_of(place)));
    }
    by_index.sort_unstable();
    by_index
}
