//! Variables: each has the atoms of a group as its values, and one more value for "none of them".
//!
//! The first groups are chosen by the greedy covering of Helmert 2009, "Concise finite-domain representations for PDDL planning
//! tasks". Other groups are variables too, so an atom may have several: a table has the one that serves it best.
use crate::groups::AtomGroup;
use crate::lists::empty_lists;
use crate::numbers::{number_of, place_of};
use faults::DraftMemory;

/// The maximum number of values of the variables beyond a cover of the atoms, as a multiple of the number of atoms.
const MAX_TIMES: usize = 4;

/// A value of a variable: the position, from 1, of the atom that is true, or 0 if none is.
#[derive(Clone, Copy, Debug, PartialEq, Eq, PartialOrd, Ord)]
pub struct VariableValue {
    /// The variable.
    pub variable: u32,
    /// The value, which is at least 1.
    pub value: u32,
}

/// Variables that cover all atoms: each atom belongs to at least one.
#[derive(Drop)]
pub struct Variables {
    /// For each variable its atoms, in the order of its values, from 1.
    atoms: Vec<AtomGroup>,
    /// For each atom the values it stands for.
    of_atom: Vec<Vec<VariableValue>>,
}

impl Variables {
    /// Variables for this many atoms. While some group has several atoms without a variable, the one with the most such atoms
    /// becomes a variable with all its atoms. So do other groups that are no part of one before, within a limit. Each remaining atom
    /// is a variable by itself.
    pub fn new(memory: &DraftMemory, width: u32, groups: &[AtomGroup]) -> Variables {
        let mut variables = Variables {
            atoms: memory.list(),
            of_atom: empty_lists(memory, width),
        };
        variables.add_best(memory, groups);
        variables.add_others(memory, groups);
        for atom in 0..width {
            if !variables.has(atom) {
                variables.add(memory, memory.filled(atom, 1));
            }
        }
        variables
    }

    /// Adds the group with the most atoms without a variable, while one has several.
    fn add_best(&mut self, memory: &DraftMemory, groups: &[AtomGroup]) {
        for _ in 0..groups.len() {
            // A group that could not be added would be the best again.
            if memory.is_refused() {
                break;
            }
            let Some(group) = self.best_of(groups) else {
                break;
            };
            self.add(memory, memory.copied(group));
        }
    }

    /// Adds the groups of which no variable has all atoms, the first ones first, within a limit.
    fn add_others(&mut self, memory: &DraftMemory, groups: &[AtomGroup]) {
        let mut left = self.of_atom.len().saturating_mul(MAX_TIMES);
        for group in groups {
            if group.len() <= left && !self.has_all(group) {
                left = left.saturating_sub(group.len());
                self.add(memory, memory.copied(group));
            }
        }
    }

    /// Whether some variable has all these atoms, which ascend.
    fn has_all(&self, atoms: &[u32]) -> bool {
        let Some(first) = atoms.first() else {
            return true;
        };
        self.of_atom(*first).iter().any(|value| {
            let others = self.atoms(value.variable);
            atoms.iter().all(|atom| others.binary_search(atom).is_ok())
        })
    }

    /// The group with the most atoms without a variable, if it has several such atoms.
    fn best_of<'a>(&self, groups: &'a [AtomGroup]) -> Option<&'a [u32]> {
        let mut best = None;
        let mut most = 1usize;
        for group in groups {
            let free = group.iter().filter(|atom| !self.has(**atom)).count();
            if free > most {
                most = free;
                best = Some(group.as_slice());
            }
        }
        best
    }

    /// Whether the atom has a variable.
    fn has(&self, atom: u32) -> bool {
        !self.of_atom(atom).is_empty()
    }

    /// Adds the variable with these atoms.
    fn add(&mut self, memory: &DraftMemory, atoms: AtomGroup) {
        let variable = number_of(self.atoms.len());
        for (place, atom) in atoms.iter().enumerate() {
            let value = number_of(place).saturating_add(1);
            if let Some(values) = self.of_atom.get_mut(place_of(*atom)) {
                memory.push(values, VariableValue { variable, value });
            }
        }
        memory.push(&mut self.atoms, atoms);
    }

    /// The number of variables.
    pub fn count(&self) -> u32 {
        number_of(self.atoms.len())
    }

    /// The atoms of the variable, in the order of its values, from 1.
    pub fn atoms(&self, variable: u32) -> &[u32] {
        match self.atoms.get(place_of(variable)) {
            Some(atoms) => atoms,
            None => &[],
        }
    }

    /// The number of the variable's values, including "none".
    pub fn value_count(&self, variable: u32) -> u32 {
        number_of(self.atoms(variable).len()).saturating_add(1)
    }

    /// The values of variables that the atom stands for.
    pub fn of_atom(&self, atom: u32) -> &[VariableValue] {
        match self.of_atom.get(place_of(atom)) {
            Some(values) => values,
            None => &[],
        }
    }

    /// Whether the variables share an atom.
    pub fn overlap(&self, one: u32, other: u32) -> bool {
        self.atoms(one).iter().any(|atom| self
            .of_atom(*atom)
            .iter()
            .any(|value| value.variable == other))
    }
}
