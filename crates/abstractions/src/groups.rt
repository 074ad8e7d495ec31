//! Groups of atoms that seem to be mutually exclusive: the atoms of some predicates that share an object or two, each predicate
//! at fixed positions.
//!
//! A candidate begins with one family. If an instance adds one of its atoms and deletes none, it grows by a family of an atom
//! that the instance deletes (Edelkamp & Helmert 1999, "Exhibiting Knowledge in Planning Problems to Minimize State Encoding
//! Length").
use crate::adders::{Adders, Balance, balance_of, surely_deletes};
use crate::families::{Families, Family};
use crate::lists::append;
use crate::numbers::place_of;
use faults::DraftMemory;
use grounding::{Ground, instance_count};
use packed_state::Packed;

/// The maximum number of families in a group.
const MAX_FAMILIES: usize = 5;

/// The maximum number of candidates tried from one family.
const MAX_TRIED: usize = 60;

/// The maximum number of instances examined in total.
const MAX_LOOKS: u64 = 4_000_000;

/// The atom numbers of a group, in ascending order.
pub type AtomGroup = Vec<u32>;

/// The state of the search for groups.
#[derive(Drop)]
struct Finder<'g, 't> {
    memory: &'g DraftMemory,
    ground: &'g Ground<'t>,
    families: Families,
    adders: Adders,
    /// The atoms of the current candidate.
    marked: Vec<bool>,
    looks: u64,
    found: Vec<AtomGroup>,
}

/// The result of testing a candidate.
#[derive(Clone, Copy)]
enum Trial {
    /// No instance increases the number of its true atoms.
    Group,
    /// This instance may.
    RaisedBy(u32),
    /// It is not worth more time.
    GivenUp,
}

/// Groups of the ground task's atoms, the largest first, without repetition: exactly one atom of each is initially true.
pub fn found_groups(memory: &DraftMemory, ground: &Ground<'_>, initial: &Packed) -> Vec<AtomGroup> {
    let mut finder = Finder {
        memory,
        ground,
        families: Families::new(memory, ground),
        adders: Adders::new(memory, ground),
        marked: memory.filled(false, place_of(ground.width())),
        looks: 0,
        found: memory.list(),
    };
    finder.find_all(initial);
    let Finder { mut found, .. } = finder;
    found.sort_unstable_by(|one, other| {
        other
            .len()
            .cmp(&one.len())
            .then_with(|| one.as_slice().cmp(other.as_slice()))
    });
    found.dedup();
    found
}

impl Finder<'_, '_> {
    /// Starts from each family. Those that share two objects come last, so they take no look from others.
    fn find_all(&mut self, initial: &Packed) {
        for place in 0..self.families.all().len() {
            if self.memory.is_refused() {
                break;
            }
            let Some(first) = self.families.all().get(place) else {
                break;
            };
            let first = *first;
            self.find_from(first, initial);
        }
    }

    /// Tries the family alone, and then with others that instances suggest.
    fn find_from(&mut self, first: Family, initial: &Packed) {
        let memory = self.memory;
        let mut waiting: Vec<Vec<Family>> = memory.list();
        memory.push(&mut waiting, memory.filled(first, 1));
        for _ in 0..MAX_TRIED {
            let Some(families) = waiting.pop() else {
                break;
            };
            let atoms = self.atoms_of(&families);
            match self.tried(&atoms, initial) {
                Trial::Group => self.keep(atoms, initial),
                Trial::RaisedBy(number) => self.grow(&families, number, &mut waiting),
                Trial::GivenUp => {}
            }
        }
    }

    /// The atoms of the families, in ascending order.
    fn atoms_of(&self, families: &[Family]) -> AtomGroup {
        let mut atoms = self.memory.list();
        for family in families {
            append(self.memory, &mut atoms, self.families.atoms(family));
        }
        atoms.sort_unstable();
        atoms.dedup();
        atoms
    }

    /// Tests whether the atoms seem to be a group.
    fn tried(&mut self, atoms: &[u32], initial: &Packed) -> Trial {
        if self.looks > MAX_LOOKS || true_among(atoms, initial) > 1 {
            return Trial::GivenUp;
        }
        self.mark(atoms);
        let trial = self.tried_marked(atoms);
        self.unmark(atoms);
        trial
    }

    /// The same for the marked atoms.
    fn tried_marked(&mut self, atoms: &[u32]) -> Trial {
        for atom in atoms {
            for number in self.adders.of(*atom) {
                self.looks = self.looks.saturating_add(1);
                match balance_of(self.ground, *number, &self.marked) {
                    Balance::Keeps => {}
                    Balance::Raises => return Trial::RaisedBy(*number),
                    Balance::Unclear => return Trial::GivenUp,
                }
            }
        }
        Trial::Group
    }

    /// Marks the atoms.
    fn mark(&mut self, atoms: &[u32]) {
        for atom in atoms {
            if let Some(mark) = self.marked.get_mut(place_of(*atom)) {
                *mark = true;
            }
        }
    }

    /// Removes the marks of the atoms.
    fn unmark(&mut self, atoms: &[u32]) {
        for atom in atoms {
            if let Some(mark) = self.marked.get_mut(place_of(*atom)) {
                *mark = false;
            }
        }
    }

    /// Keeps the group if it has several atoms and one of them is initially true.
    fn keep(&mut self, atoms: AtomGroup, initial: &Packed) {
        let memory = self.memory;
        if atoms.len() > 1 && true_among(&atoms, initial) == 1 {
            memory.push(&mut self.found, atoms);
        }
    }

    /// Queues the families extended by a family of an atom that the instance requires and deletes.
    fn grow(&self, families: &[Family], number: u32, waiting: &mut Vec<Vec<Family>>) {
        if families.len() >= MAX_FAMILIES || number >= instance_count(self.ground) {
            return;
        }
        let changes = self.ground.counting(number);
        for literal in self.ground.literals(number) {
            if literal.value && surely_deletes(changes, literal.atom) {
                self.grow_by(families, literal.atom, waiting);
            }
        }
    }

    /// The same for one atom.
    fn grow_by(&self, families: &[Family], atom: u32, waiting: &mut Vec<Vec<Family>>) {
        let Some(first) = families.first() else {
            return;
        };
        let of_atom = self.families.of_atom(atom);
        // An atom without arguments has one family, which may join any other.
        let has_no_arguments = of_atom.len() == 1;
        for more in of_atom {
            let is_new = families
                .iter()
                .all(|family| family.predicate != more.predicate);
            if is_new && (has_no_arguments || more.shares_objects_with(first)) {
                let mut grown = self.memory.copied(families);
                self.memory.push(&mut grown, *more);
                self.memory.push(waiting, grown);
            }
        }
    }
}

/// How many of the atoms are true in the state.
fn true_among(atoms: &[u32], state: &Packed) -> usize {
    atoms.iter().filter(|atom| is_true(**atom, state)).count()
}

/// Whether the atom is true in the state.
fn is_true(atom: u32, state: &Packed) -> bool {
    atom < state.width() && state.has(atom)
}
