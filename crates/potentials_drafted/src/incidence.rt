//! The incidence of instances and atoms, with what an instance may do to an atom.
ghost use Rattle.std.specs.Prelude.{◌≡◌, ℕ, ◌+◌, ◌<◌, ◌++◌, ◌∷◌, [], ◌==◌, if◌then◌else◌, All, IfOk, List, OnOk, length, map, take};
ghost use Rattle.grounding.specs.Changes.{counting_of};
ghost use Rattle.grounding.specs.Ground.{task_in, atoms_in};
ghost use Rattle.model.specs.StaticallyFalse.{kept_instances};
ghost use Rattle.model.specs.NumberedLiterals.{NumberedChange};
ghost use Rattle.potentials_drafted.specs.Incidence.{touches_at, IsAdded, IsIncidence};

use faults::NoMemory;
use grounding::{CountingChange, Ground, NumberedLiteral, instance_count};
use potentials::{Swing, is_in_range, touches};
use std::alloc::Global;

/// An entry for an instance that touches an atom, or for an atom that an instance touches: its number, and what the instance may
/// do to the atom.
#[derive(Clone, Copy)]
pub struct IncidenceEntry {
    /// The number of the instance, or of the atom.
    pub number: u32,
    swing: Swing,
}

impl IncidenceEntry {
    /// The greatest loss of the instance by the atom, if the atom has this weight.
    pub(crate) fn loss(self, weight: i64) -> i64 {
        if is_in_range(weight) {
            self.swing.worst(weight)
        } else {
            0
        }
    }
}

/// An instance that is added: its number, its literals and its changes.
#[derive(Clone, Copy)]
struct AddedInstance<'a, 't> {
    number: u32,
    literals: &'a [NumberedLiteral],
    changes: &'a [CountingChange<'t>],
}

/// For each numbered atom the instances that touch it, and for each instance the atoms that it touches.
pub struct Incidence {
    rows: Vec<Vec<IncidenceEntry>>,
    /// The atoms that the instances touch, instance by instance, and the end of each instance's part.
    atoms: Vec<IncidenceEntry>,
    ends: Vec<usize>,
}

impl Drop for Incidence {
    fn drop(self) {
        let Self {
            rows: _,
            atoms: _,
            ends: _,
        } = self;
    }
}

impl Incidence {
    /// The incidence of the ground task.
    pub(crate) fn new(alloc: Global, ground: &Ground<'_>) -> Result<Incidence, NoMemory>
        ensures { IfOk result (IsIncidence (task_in ground.now) (atoms_in ground.now) (length (kept_instances (task_in ground.now)))) }
    {
        let mut incidence = Incidence::empty(alloc, ground.width())?;
        for number in 0..instance_count(ground) {
            incidence.add(number, ground.literals(number), ground.counting(number))?;
        }
        Ok(incidence)
    }

    /// An incidence with this many empty rows.
    fn empty(alloc: Global, width: u32) -> Result<Incidence, NoMemory>
        ensures width { IfOk result (λ t. length t.rows.items ≡ width) }
        ensures empty { IfOk result (λ t. (a : ℕ) → touches_at t a ≡ []) }
    {
        let mut rows = Vec::new(alloc);
        for _ in 0..width {
            rows.push(Vec::new(alloc))?;
        }
        Ok(Incidence {
            rows,
            atoms: Vec::new(alloc),
            ends: Vec::new(alloc),
        })
    }

    /// Adds the next instance, with this number: it touches the atoms of these changes.
    fn add(
        &mut self,
        number: u32,
        literals: &[NumberedLiteral],
        changes: &[CountingChange<'_>],
    ) -> Result<(), NoMemory>
        requires { All (λ (c : NumberedChange). c.atom < length self.old.rows.items) (map counting_of changes.now) }
        ensures { OnOk result (IsAdded number (map counting_of changes.now) self.old self.new) }
    {
        for place in 0..changes.len() {
            let instance = AddedInstance {
                number,
                literals,
                changes,
            };
            self.add_change(instance, place)?;
        }
        self.ends.push(self.atoms.len())?;
        Ok(())
    }

    /// Adds that the instance touches the atom of the change at this index, unless an earlier change is of the same atom.
    fn add_change(&mut self, instance: AddedInstance<'_, '_>, place: usize) -> Result<(), NoMemory>
        requires within { place < length instance.changes.now }
        requires below { All (λ (c : NumberedChange). c.atom < length self.old.rows.items) (map counting_of instance.changes.now) }
        ensures { OnOk result ((first : Incidence) → IsAdded instance.entry.number (map counting_of (take place instance.entry.changes.now)) first self.old
            → IsAdded instance.entry.number (map counting_of (take (place + 1) instance.entry.changes.now)) first self.new) }
    {
        let AddedInstance {
            number,
            literals,
            changes,
        } = instance;
        let atom = changes[place].atom;
        if touches(&changes[..place], atom) {
            return Ok(());
        }
        let swing = Swing::new(literals, changes, atom);
        self.atoms.push(IncidenceEntry {
            number: atom,
            swing,
        })?;
        self.push(atom, IncidenceEntry { number, swing })?;
        Ok(())
    }

    /// Adds that the instance touches the atom.
    fn push(&mut self, atom: u32, instance: IncidenceEntry) -> Result<(), NoMemory>
        requires { atom < length self.old.rows.items }
        ensures width { OnOk result (length self.new.rows.items ≡ length self.old.rows.items) }
        ensures rows { OnOk result ((a : ℕ) → touches_at self.new a ≡ (if a == atom then touches_at self.old a ++ instance ∷ [] else touches_at self.old a)) }
    {
        self.rows[atom as usize].push(instance)?;
        Ok(())
    }

    /// The instances that touch the atom with this number.
    pub fn of(&self, atom: u32) -> &[IncidenceEntry]
        ensures { result.now ≡ touches_at self.now atom }
    {
        match self.rows.get(atom as usize) {
            Some(row) => row,
            None => &[],
        }
    }

    /// The atoms that the instance at this index touches.
    pub(crate) fn atoms_at(&self, place: usize) -> &[IncidenceEntry] {
        let start = match place.checked_sub(1) {
            Some(before) => self.end(before),
            None => 0,
        };
        let end = self.end(place);
        if start <= end && end <= self.atoms.len() {
            &self.atoms[start..end]
        } else {
            &[]
        }
    }

    /// The end of the part of the instance at this index.
    fn end(&self, place: usize) -> usize {
        match self.ends.get(place) {
            Some(end) => *end,
            None => 0,
        }
    }
}
