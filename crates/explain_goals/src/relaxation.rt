//! What of a task may become true in its delete relaxation, by atoms.
ghost use Rattle.std.specs.Prelude.{◌≡◌, ◌++◌, ◌∷◌, [], IfOk, OnOk, map};
ghost use Rattle.std.specs.List.{fold};
ghost use Rattle.packed_state.specs.Packed.{bits_of};
ghost use Rattle.task.specs.TaskParts.{atom_of};
ghost use Rattle.formulas.specs.Literals.{literal_of};
ghost use Rattle.formulas.specs.State.{state_of};
ghost use Rattle.grounding.specs.Ground.{atoms_in, task_in};
ghost use Rattle.model.specs.Meaning.{initial_state};
ghost use Rattle.explain_tasks.specs.Goals.{atom_asked_for, atoms_asked_for, with_passing};
ghost use Rattle.explain_goals.specs.Notes.{most_found};
ghost use Rattle.explain_goals.specs.Settled as defined;
ghost use Rattle.explain_goals.specs.Views.{is_out};

use crate::goal_notes::MOST_FOUND;
use crate::reached::has;
use faults::NoMemory;
use formulas::{Atom, Literal, State};
use grounding::Ground;
use packed_state::Packed;
use std::alloc::Global;

/// What of a ground task may become true if deletes and negative literals are ignored.
#[derive(Drop)]
pub(crate) struct Relaxation<'a, 't> {
    pub(crate) ground: &'a Ground<'t>,
    /// The atoms that are initially true.
    pub(crate) initial: &'a State,
    /// The numbers of the atoms that may become true.
    pub(crate) set: &'a Packed,
}

impl Relaxation<'_, '_> {
    /// Whether the atom may become true.
    pub(crate) fn has(&self, atom: &Atom) -> bool
        requires { state_of self.now.initial.now ≡ initial_state (task_in self.now.ground.now) }
        ensures { result ≡ defined.is_in (task_in self.now.ground.now) (atoms_in self.now.ground.now) (bits_of self.now.set.now) (atom_of atom.now) }
    {
        self.initial.contains(atom) || self.has_number(atom)
    }

    /// Whether the atom has a number and may become true.
    pub(crate) fn has_number(&self, atom: &Atom) -> bool
        ensures { result ≡ defined.has_number (atoms_in self.now.ground.now) (bits_of self.now.set.now) (atom_of atom.now) }
    {
        match self.ground.number_of(atom) {
            Some(number) => has(self.set, number),
            None => false,
        }
    }

    /// The first atoms that the literals require and that may not become true.
    pub(crate) fn missing(&self, alloc: Global, literals: &[Literal]) -> Result<Vec<Atom>, NoMemory>
        requires { state_of self.now.initial.now ≡ initial_state (task_in self.now.ground.now) }
        ensures { IfOk result (λ found. map atom_of found.items ≡ fold (with_passing (is_out self.now) most_found) [] (atoms_asked_for (map literal_of literals.now))) }
    {
        let mut found = Vec::new(alloc);
        for literal in literals {
            self.add_if_missing(literal, &mut found)?;
        }
        Ok(found)
    }

    /// Adds the atom that the literal requires, if it may not become true and there is room.
    fn add_if_missing(&self, literal: &Literal, found: &mut Vec<Atom>) -> Result<(), NoMemory>
        requires { state_of self.now.initial.now ≡ initial_state (task_in self.now.ground.now) }
        ensures { OnOk result (map atom_of found.new.items ≡ fold (with_passing (is_out self.now) most_found) (map atom_of found.old.items) (atom_asked_for (literal_of literal.now))) }
    {
        match literal {
            Literal::IsTrue(atom) => self.add_atom_if_missing(atom, found),
            _ => Ok(()),
        }
    }

    /// Adds the atom, if it may not become true and there is room.
    fn add_atom_if_missing(&self, atom: &Atom, found: &mut Vec<Atom>) -> Result<(), NoMemory>
        requires { state_of self.now.initial.now ≡ initial_state (task_in self.now.ground.now) }
        ensures { OnOk result (map atom_of found.new.items ≡ with_passing (is_out self.now) most_found (map atom_of found.old.items) (atom_of atom.now)) }
    {
        if found.len() >= MOST_FOUND {
            return Ok(());
        }
        if self.has(atom) {
            return Ok(());
        }
        push_copy(atom, found)
    }
}

/// Adds a copy of the atom.
fn push_copy(atom: &Atom, found: &mut Vec<Atom>) -> Result<(), NoMemory>
    ensures { OnOk result (map atom_of found.new.items ≡ map atom_of found.old.items ++ atom_of atom.now ∷ []) }
{
    found.push(atom.clone()?)?;
    Ok(())
}
