//! Which instances add an atom, and whether they preserve that one atom of a set is true.
use crate::lists::empty_lists;
use crate::numbers::place_of;
use faults::DraftMemory;
use grounding::{CountingChange, Ground, instance_count};

/// For each atom the instances that may add it, in ascending order.
#[derive(Drop)]
pub(crate) struct Adders {
    of_atom: Vec<Vec<u32>>,
}

/// What an instance does to the number of true atoms in a set when one is true before.
#[derive(Clone, Copy, Debug, PartialEq, Eq)]
pub(crate) enum Balance {
    /// It deletes as many as it adds.
    Keeps,
    /// It may add one more than it deletes.
    Raises,
    /// It may add several, or adds one under a `when` that deletes none.
    Unclear,
}

impl Adders {
    /// The adders of the ground task's atoms.
    pub(crate) fn new(memory: &DraftMemory, ground: &Ground<'_>) -> Adders {
        let mut adders = Adders {
            of_atom: empty_lists(memory, ground.width()),
        };
        for number in 0..instance_count(ground) {
            adders.file(memory, number, ground.counting(number));
        }
        adders
    }

    /// Files the instance under the atoms that it may add.
    fn file(&mut self, memory: &DraftMemory, number: u32, changes: &[CountingChange<'_>]) {
        for change in changes {
            if change.value {
                self.push(memory, change.atom, number);
            }
        }
    }

    /// Records that the instance adds the atom. Repetitions are ignored.
    fn push(&mut self, memory: &DraftMemory, atom: u32, number: u32) {
        if let Some(instances) = self.of_atom.get_mut(place_of(atom)) {
            if instances.last() != Some(&number) {
                memory.push(instances, number);
            }
        }
    }

    /// The instances that may add the atom, in ascending order.
    pub(crate) fn of(&self, atom: u32) -> &[u32] {
        match self.of_atom.get(place_of(atom)) {
            Some(instances) => instances,
            None => &[],
        }
    }
}

/// Whether another change, under the same condition or none, deletes a marked atom when this one, which is under a `when`, adds
/// one: like a carried parcel, which leaves the place where it was.
fn moves(changes: &[CountingChange<'_>], add: &CountingChange<'_>, marked: &[bool]) -> bool {
    changes.iter().any(|change| {
        !change.value
            && change.atom != add.atom
            && is_marked(marked, change.atom)
            && (change.is_unconditional() || have_same_condition(change, add))
    })
}

/// Whether the literals of both conditions are the same.
fn have_same_condition(one: &CountingChange<'_>, other: &CountingChange<'_>) -> bool {
    let (one, other) = (one.condition(), other.condition());
    one.len() == other.len()
        && one.iter().zip(other).all(|(left, right)| left.atom == right.atom
            && left.value == right.value)
}

/// Whether the change deletes the atom unconditionally.
pub(crate) fn surely_deletes(changes: &[CountingChange<'_>], atom: u32) -> bool {
    changes.iter().any(|change| change.atom == atom && !change.value && change.is_unconditional())
}

/// What the instance with this number does to the marked atoms.
pub(crate) fn balance_of(ground: &Ground<'_>, number: u32, marked: &[bool]) -> Balance {
    if number >= instance_count(ground) {
        return Balance::Unclear;
    }
    let changes = ground.counting(number);
    let mut added = None;
    for change in changes {
        if change.value && is_marked(marked, change.atom) {
            if !change.is_unconditional() {
                if moves(changes, change, marked) {
                    continue;
                }
                return Balance::Unclear;
            }
            if added.is_some() && added != Some(change.atom) {
                return Balance::Unclear;
            }
            added = Some(change.atom);
        }
    }
    let takes_one = ground.literals(number).iter().any(|literal| {
        literal.value
            && is_marked(marked, literal.atom)
            && (added == Some(literal.atom) || surely_deletes(changes, literal.atom))
    });
    if takes_one || added.is_none() {
        Balance::Keeps
    } else {
        Balance::Raises
    }
}

/// Whether the atom is marked.
pub(crate) fn is_marked(marked: &[bool], atom: u32) -> bool {
    match marked.get(place_of(atom)) {
        Some(is_marked) => *is_marked,
        None => false,
    }
}
