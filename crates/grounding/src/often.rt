//! How often atoms are true on random walks: match trees test rare literals first.
//!
//! A step draws an atom that is true, and then one of the instances that watch it. In a state that has few applicable instances
//! this finds one much sooner than drawing from all of them.
ghost use Rattle.std.specs.Prelude.{◌<◌, length};
ghost use Rattle.grounding_instances.specs.Numbering.{atoms_in};
ghost use Rattle.grounding.specs.MatchNodes.{AreWithin};

use crate::changes::CountingChange;
use crate::condition::Condition;
use crate::watch_lists::WatchLists;
use faults::NoMemory;
use grounding_instances::{NumberedLiteral, Numbering};
use packed_state::Packed;
use std::alloc::Global;

/// The number of walks.
const WALKS: usize = 8;

/// Steps per walk, at most.
const STEPS: u32 = 64;

/// Instances drawn per walk, at most.
const TRIES: usize = 4_096;

/// Counts of the states, on some walks, in which each atom was true.
#[derive(Drop)]
pub(crate) struct Often {
    /// The number of steps of all walks.
    steps: u32,
    /// For each atom, the number of steps after which it was true.
    times: Vec<u32>,
}

/// A random walk. It applies instances whose sure literals are true, and their unconditional changes.
#[derive(Drop)]
struct Walk {
    state: Packed,
    /// Its true atoms.
    atoms: Vec<u32>,
    /// State of the random number generator.
    chance: u64,
    often: Often,
}

impl Often {
    /// Counts on walks from the initial state, by instances with these preconditions and changes.
    pub(crate) fn new(
        alloc: Global,
        numbering: &Numbering<'_>,
        conditions: &[Condition],
        changes: &[Vec<CountingChange<'_>>],
    ) -> Result<Often, NoMemory>
        requires within { AreWithin (length (atoms_in numbering.now)) conditions.now }
        requires few { length conditions.now < 4294967296 }
    {
        let unknown = Often::unknown(alloc, numbering.width())?;
        let lists = WatchLists::new(alloc, numbering.width(), conditions, &unknown)?;
        let initial = initial(alloc, numbering)?;
        let mut walk = Walk::new(alloc, numbering.width())?;
        for _ in 0..WALKS {
            walk.start(&initial)?;
            walk.go(&lists, conditions, changes)?;
        }
        Ok(walk.often)
    }

    /// No counts yet, of atoms below `width`.
    fn unknown(alloc: Global, width: u32) -> Result<Often, NoMemory> {
        let times = vec![in alloc; 0; width as usize]?;
        Ok(Often { steps: 0, times })
    }

    /// The number of steps after which the atom was true.
    pub(crate) fn atom(&self, atom: u32) -> u32 {
        match self.times.get(atom as usize) {
            Some(times) => *times,
            None => 0,
        }
    }

    /// The number of steps after which the literal was true.
    pub(crate) fn literal(&self, literal: &NumberedLiteral) -> u32 {
        let times = self.atom(literal.atom);
        if literal.value {
            times
        } else {
            self.steps.saturating_sub(times)
        }
    }

    /// Counts one more step, after which these atoms are true.
    fn count(&mut self, atoms: &[u32]) {
        self.steps = self.steps.saturating_add(1);
        for &atom in atoms {
            if let Some(times) = self.times.get_mut(atom as usize) {
                *times = times.saturating_add(1);
            }
        }
    }
}

impl Walk {
    /// A walk that has not begun, over `width` atoms.
    fn new(alloc: Global, width: u32) -> Result<Walk, NoMemory> {
        Ok(Walk {
            state: Packed::empty(alloc, width)?,
            atoms: Vec::new(alloc),
            chance: 1,
            often: Often::unknown(alloc, width)?,
        })
    }

    /// Returns to the initial state.
    fn start(&mut self, initial: &Packed) -> Result<(), NoMemory> {
        if self.state.width() == initial.width() {
            self.state.copy_from(initial);
        }
        self.state.list_numbers(&mut self.atoms)
    }

    /// Walks.
    fn go(
        &mut self,
        lists: &WatchLists,
        conditions: &[Condition],
        changes: &[Vec<CountingChange<'_>>],
    ) -> Result<(), NoMemory> {
        let last = self.often.steps.saturating_add(STEPS);
        for _ in 0..TRIES {
            if let Some(number) = self.draw(lists) {
                self.try_one(number as usize, conditions, changes)?;
            }
            if self.often.steps >= last {
                return Ok(());
            }
        }
        Ok(())
    }

    /// Draws a true atom, or none, and then an instance that watches it, if there is one.
    fn draw(&mut self, lists: &WatchLists) -> Option<u32> {
        let count = self.atoms.len().saturating_add(1);
        let place = self.below(count);
        let numbers = watching(lists, number_at(&self.atoms, place));
        let place = self.below(numbers.len());
        number_at(numbers, place)
    }

    /// Applies the instance with this number, if its literals are true.
    fn try_one(
        &mut self,
        number: usize,
        conditions: &[Condition],
        changes: &[Vec<CountingChange<'_>>],
    ) -> Result<(), NoMemory> {
        let (Some(condition), Some(changes)) = (conditions.get(number), changes.get(number)) else {
            return Ok(());
        };
        if !condition.can_hold() || !are_true(condition.literals(), &self.state) {
            return Ok(());
        }
        delete(changes, &mut self.state);
        add(changes, &mut self.state);
        self.state.list_numbers(&mut self.atoms)?;
        self.often.count(&self.atoms);
        Ok(())
    }

    /// A random number below `bound`, or 0 if that is 0, by the linear congruential generator of Knuth's MMIX.
    fn below(&mut self, bound: usize) -> usize {
        self.chance = self
            .chance
            .wrapping_mul(6_364_136_223_846_793_005)
            .wrapping_add(1_442_695_040_888_963_407);
        if bound == 0 {
            return 0;
        }
        (self.chance >> 33) as usize % bound
    }
}

/// The number at this place, if there is one.
fn number_at(numbers: &[u32], place: usize) -> Option<u32> {
    match numbers.get(place) {
        Some(number) => Some(*number),
        None => None,
    }
}

/// The instances that watch the atom, or no atom.
fn watching(lists: &WatchLists, atom: Option<u32>) -> &[u32] {
    match atom {
        Some(atom) => lists.of(atom),
        None => &lists.unwatched,
    }
}

/// The initial state.
fn initial(alloc: Global, numbering: &Numbering<'_>) -> Result<Packed, NoMemory> {
    let mut state = Packed::empty(alloc, numbering.width())?;
    for (number, atom) in numbering.atoms().iter().enumerate() {
        if numbering.is_initial(atom) {
            insert(&mut state, number as u32);
        }
    }
    Ok(state)
}

/// Whether all literals are true in the state.
fn are_true(literals: &[NumberedLiteral], state: &Packed) -> bool {
    for literal in literals {
        if has(state, literal.atom) != literal.value {
            return false;
        }
    }
    true
}

/// Makes the unconditional deletes.
fn delete(changes: &[CountingChange<'_>], state: &mut Packed) {
    for change in changes {
        if !change.value && change.is_unconditional() {
            remove(state, change.atom);
        }
    }
}

/// Makes the unconditional adds.
fn add(changes: &[CountingChange<'_>], state: &mut Packed) {
    for change in changes {
        if change.value && change.is_unconditional() {
            insert(state, change.atom);
        }
    }
}

/// Whether the atom is true in the state; not if the state has no bit for it.
fn has(state: &Packed, atom: u32) -> bool {
    atom < state.width() && state.has(atom)
}

/// Makes the atom true, if the state has a bit for it.
fn insert(state: &mut Packed, atom: u32) {
    if atom < state.width() {
        state.insert(atom);
    }
}

/// Makes the atom false, if the state has a bit for it.
fn remove(state: &mut Packed, atom: u32) {
    if atom < state.width() {
        state.remove(atom);
    }
}
