//! Why the goal of a task can never be met.
ghost use Rattle.std.specs.Prelude.{◌≡◌, [], IfOk, map, true};
ghost use Rattle.task.specs.TaskParts.{atom_of};
ghost use Rattle.formulas.specs.Literals.{literal_of};
ghost use Rattle.formulas.specs.State.{state_of};
ghost use Rattle.packed_state.specs.Packed.{bits_of};
ghost use Rattle.grounding.specs.Ground.{atoms_in, task_in};
ghost use Rattle.model.specs.Meaning.{initial_state};
ghost use Rattle.model.specs.NumberedAtoms.{numbered_atoms};
ghost use Rattle.model.specs.SureLiterals.{sure};
ghost use Rattle.explain_goals.specs.Needed.{AreUnreachable, IsOutChain};
ghost use Rattle.explain_goals.specs.Notes.{AreGoalNotesOf};
ghost use Rattle.explain_goals.specs.Settled.{IsLeastSettled};
ghost use Rattle.explain_goals.specs.Views.{is_out};

use crate::contradictions::contradictory;
use crate::exclusive::Exclusive;
use crate::reached::reached;
use crate::relaxation::Relaxation;
use faults::NoMemory;
use formulas::{Atom, Binding, Literal, State, sure};
use grounding::Ground;
use std::alloc::Global;

/// The maximum number of atoms that are reported.
pub const MOST_NOTES: usize = 10;

/// The maximum number that are searched for: one more shows that there are more.
pub const MOST_FOUND: usize = 11;

/// Why the goal of a task can never be met. Without notes it may be met or not.
#[derive(Drop)]
pub struct GoalNotes {
    /// Atoms that the goal requires and that are never true: at most [`MOST_FOUND`].
    pub unreachable: Vec<Unreachable>,
    /// The first atom that the goal requires to be true and to be false.
    pub contradictory: Option<Atom>,
    /// Two atoms that the goal requires and that are never both true, though each may be.
    pub exclusive: Option<Exclusive>,
}

/// An atom of the goal that is never true.
#[derive(Drop)]
pub struct Unreachable {
    /// The atom.
    pub atom: Atom,
    /// What it needs: sets of atoms that are never true. The first has the atom alone. Each action that adds an atom of one set needs
    /// an atom of the next; if that is empty, no action adds one. The chain may end early.
    pub chain: Vec<State>,
}

impl GoalNotes {
    /// The notes on the goal of this ground task.
    ///
    /// # Errors
    /// An allocation failed, which says nothing about the task.
    pub fn of(alloc: Global, ground: &Ground<'_>) -> Result<GoalNotes, NoMemory>
        requires { atoms_in ground.now ≡ numbered_atoms (task_in ground.now) [] }
        ensures { IfOk result (AreGoalNotesOf (task_in ground.now)) }
    {
        let task = ground.task();
        let literals = sure(alloc, task, task.goal(), &Binding::new())?;
        let initial = State::initial(alloc, task)?;
        let set = reached(alloc, ground)?;
        let relaxation = Relaxation {
            ground,
            initial: &initial,
            set: &set,
        };
        relaxation.notes(alloc, &literals)
    }
}

impl Relaxation<'_, '_> {
    /// The notes on the goal with these sure literals.
    fn notes(&self, alloc: Global, literals: &[Literal]) -> Result<GoalNotes, NoMemory>
        requires initial { state_of self.now.initial.now ≡ initial_state (task_in self.now.ground.now) }
        requires numbered { atoms_in self.now.ground.now ≡ numbered_atoms (task_in self.now.ground.now) [] }
        requires least { IsLeastSettled (task_in self.now.ground.now) (atoms_in self.now.ground.now) (bits_of self.now.set.now) }
        requires literals { map literal_of literals.now ≡ sure (task_in self.now.ground.now) (task_in self.now.ground.now).goal [] }
        ensures { IfOk result (AreGoalNotesOf (task_in self.now.ground.now)) }
    {
        let unreachable = self.unreachable(alloc, literals)?;
        let contradictory = contradictory(alloc, literals)?;
        let exclusive = self.exclusive_atoms(alloc, literals)?;
        Ok(GoalNotes {
            unreachable,
            contradictory,
            exclusive,
        })
    }

    /// The atoms that the literals require and that may not become true, each with its chain.
    fn unreachable(&self, alloc: Global, literals: &[Literal]) -> Result<Vec<Unreachable>, NoMemory>
        requires initial { state_of self.now.initial.now ≡ initial_state (task_in self.now.ground.now) }
        requires numbered { atoms_in self.now.ground.now ≡ numbered_atoms (task_in self.now.ground.now) [] }
        ensures { IfOk result (λ found. AreUnreachable self.now (map literal_of literals.now) found.items) }
    {
        let missing = self.missing(alloc, literals)?;
        let mut found = Vec::new(alloc);
        'atoms: for atom in &missing {
            found.push(self.with_chain(alloc, atom)?)?;
        }
        Ok(found)
    }

    /// The atom with its chain.
    fn with_chain(&self, alloc: Global, atom: &Atom) -> Result<Unreachable, NoMemory>
        requires initial { state_of self.now.initial.now ≡ initial_state (task_in self.now.ground.now) }
        requires numbered { atoms_in self.now.ground.now ≡ numbered_atoms (task_in self.now.ground.now) [] }
        requires out { is_out self.now (atom_of atom.now) ≡ true }
        ensures atom { IfOk result (λ u. atom_of u.atom ≡ atom_of atom.now) }
        ensures chain { IfOk result (λ u. IsOutChain self.now (atom_of atom.now) (map state_of u.chain.items)) }
    {
        let chain = self.chain(alloc, atom)?;
        Ok(Unreachable {
            atom: atom.clone()?,
            chain,
        })
    }
}
