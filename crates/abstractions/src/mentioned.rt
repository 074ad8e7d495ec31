//! The variables that an instance mentions.
use crate::variables::Variables;
use faults::DraftMemory;
use grounding::{CountingChange, NumberedLiteral};

impl Variables {
    /// The variables of the atoms in these literals, in ascending order.
    pub fn of_literals(&self, memory: &DraftMemory, literals: &[NumberedLiteral]) -> Vec<u32> {
        let mut found = memory.list();
        for literal in literals {
            self.add_variables(memory, literal.atom, &mut found);
        }
        found.sort_unstable();
        found.dedup();
        found
    }

    /// The variables of the atoms in these changes, in ascending order.
    pub fn of_changes(&self, memory: &DraftMemory, changes: &[CountingChange<'_>]) -> Vec<u32> {
        let mut found = memory.list();
        for change in changes {
            self.add_variables(memory, change.atom, &mut found);
        }
        found.sort_unstable();
        found.dedup();
        found
    }

    /// Adds the variables of the atom.
    fn add_variables(&self, memory: &DraftMemory, atom: u32, found: &mut Vec<u32>) {
        for value in self.of_atom(atom) {
            memory.push(found, value.variable);
        }
    }
}
