//! Families of atoms: all atoms of a predicate, or those with given objects at one or two given positions.
use crate::numbers::number_of;
use faults::DraftMemory;
use grounding::Ground;
use task::{ObjectId, PredicateId};

/// The minimum number of arguments of atoms of which two are shared. With two arguments such a family would have one atom.
const LEAST_WITH_PAIRS: usize = 3;

/// An object at a position, counted from 0, of an atom's arguments.
#[derive(Clone, Copy, Debug, PartialEq, Eq, PartialOrd, Ord)]
pub(crate) struct Argument {
    place: u32,
    object: ObjectId,
}

/// The arguments that all atoms of a family have.
#[derive(Clone, Copy, Debug, PartialEq, Eq, PartialOrd, Ord)]
pub(crate) enum Shared {
    /// None, so the family has all atoms of its predicate.
    Nothing,
    /// One argument.
    One(Argument),
    /// Two arguments, in the order of their positions.
    Two(Argument, Argument),
}

/// The atoms of a predicate with these arguments. Families that share fewer arguments come first in the order.
#[derive(Clone, Copy, Debug, PartialEq, Eq, PartialOrd, Ord)]
pub(crate) struct Family {
    pub(crate) shared: Shared,
    pub(crate) predicate: PredicateId,
}

/// All families of a ground task's atoms.
#[derive(Drop)]
pub(crate) struct Families {
    /// In ascending order, without repetition.
    families: Vec<Family>,
    /// For each family its atoms, in ascending order.
    atoms: Vec<Vec<u32>>,
    /// For each atom its families, beginning with that of all the predicate's atoms.
    of_atom: Vec<Vec<Family>>,
}

impl Families {
    /// The families of the ground task's atoms.
    pub(crate) fn new(memory: &DraftMemory, ground: &Ground<'_>) -> Families {
        let mut all = Families {
            families: memory.list(),
            atoms: memory.list(),
            of_atom: families_of_atoms(memory, ground),
        };
        all.file(memory);
        all
    }

    /// Files each atom under its families.
    fn file(&mut self, memory: &DraftMemory) {
        let mut entries: Vec<(Family, u32)> = memory.list();
        for (atom, families) in self.of_atom.iter().enumerate() {
            for family in families {
                memory.push(&mut entries, (*family, number_of(atom)));
            }
        }
        entries.sort_unstable();
        for (family, atom) in &entries {
            self.file_one(memory, *family, *atom);
        }
    }

    /// Files the atom under the family, which is the last one or comes after it.
    fn file_one(&mut self, memory: &DraftMemory, family: Family, atom: u32) {
        if self.families.last() != Some(&family) {
            memory.push(&mut self.families, family);
            memory.push(&mut self.atoms, memory.list());
        }
        if let Some(atoms) = self.atoms.last_mut() {
            memory.push(atoms, atom);
        }
    }

    /// The families, in ascending order.
    pub(crate) fn all(&self) -> &[Family] {
        &self.families
    }

    /// The atoms of the family, in ascending order.
    pub(crate) fn atoms(&self, family: &Family) -> &[u32] {
        match self.families.binary_search(family) {
            Ok(place) => match self.atoms.get(place) {
                Some(atoms) => atoms,
                None => &[],
            },
            Err(_) => &[],
        }
    }

    /// The families of the atom.
    pub(crate) fn of_atom(&self, atom: u32) -> &[Family] {
        match self.of_atom.get(atom as usize) {
            Some(families) => families,
            None => &[],
        }
    }
}

impl Family {
    /// Whether the atoms of both families share the same objects, at any positions.
    pub(crate) fn shares_objects_with(&self, other: &Family) -> bool {
        match (self.shared, other.shared) {
            (Shared::Nothing, Shared::Nothing) => true,
            (Shared::One(own), Shared::One(its)) => own.object == its.object,
            (Shared::Two(first, second), Shared::Two(left, right)) => {
                let (own, its) = ((first.object, second.object), (left.object, right.object));
                own == its || own == (its.1, its.0)
            }
            _ => false,
        }
    }
}

/// For each atom its families.
fn families_of_atoms(memory: &DraftMemory, ground: &Ground<'_>) -> Vec<Vec<Family>> {
    let mut of_atom = memory.list();
    for atom in ground.atoms().as_slice() {
        let families = families_of(memory, atom.predicate, atom.objects.as_slice());
        memory.push(&mut of_atom, families);
    }
    of_atom
}

/// The families of an atom with this predicate and these objects, beginning with that of all the predicate's atoms.
fn families_of(memory: &DraftMemory, predicate: PredicateId, objects: &[ObjectId]) -> Vec<Family> {
    let arguments = arguments_of(memory, objects);
    let mut families = memory.list();
    let shared = Shared::Nothing;
    memory.push(&mut families, Family { shared, predicate });
    for argument in &arguments {
        let shared = Shared::One(*argument);
        memory.push(&mut families, Family { shared, predicate });
    }
    if arguments.len() >= LEAST_WITH_PAIRS {
        add_pairs(memory, &mut families, predicate, &arguments);
    }
    families
}

/// The arguments of an atom with these objects, in the order of their positions.
fn arguments_of(memory: &DraftMemory, objects: &[ObjectId]) -> Vec<Argument> {
    let mut arguments = memory.list();
    for (place, object) in objects.iter().enumerate() {
        memory.push(
            &mut arguments,
            Argument {
                place: number_of(place),
                object: *object,
            },
        );
    }
    arguments
}

/// Adds the predicate's families that share two of the arguments.
fn add_pairs(
    memory: &DraftMemory,
    families: &mut Vec<Family>,
    predicate: PredicateId,
    arguments: &[Argument],
) {
    for first in arguments {
        for second in arguments {
            if first.place < second.place {
                let shared = Shared::Two(*first, *second);
                memory.push(families, Family { shared, predicate });
            }
        }
    }
}
