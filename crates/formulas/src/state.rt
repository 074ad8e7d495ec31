//! States: which atoms are true.
ghost use Rattle.std.specs.Prelude.{◌≡◌};
ghost use Rattle.std.proofs.Props.{props};
ghost use Rattle.task.specs.TaskParts.{AreInOrder};

use faults::NoMemory;
use std::alloc::Global;
use std::collections::BTreeSet;
use task::{Atom, Task};

/// A state: the set of the atoms that are true.
#[derive(PartialEq, Eq, Hash, Drop)]
pub struct State {
    atoms: BTreeSet<Atom>,
    ghost in_order: { AreInOrder atoms.keys } by { Prim.hlevel props },
}

impl State {
    ghost use Rattle.std.specs.Prelude.{map, IfOk, OnOk, OnErr};
    ghost use Rattle.std.specs.FinSet.{empty, contains, from_list, insert, remove};
    ghost use Rattle.task.specs.TaskParts.{atom_of};
    ghost use Rattle.task.specs.Task.{task_of};
    ghost use Rattle.formulas.specs.State.{state_of};
    ghost use Rattle.model.specs.Meaning.{initial_state};

    /// The state without true atoms.
    pub fn new(alloc: Global) -> State
        ensures { state_of result ≡ empty }
    {
        State {
            atoms: BTreeSet::new(alloc),
        }
    }

    /// The initial state: the atoms in `:init`.
    pub fn initial(alloc: Global, task: &Task) -> Result<State, NoMemory>
        ensures { IfOk result (λ s. state_of s ≡ initial_state (task_of task.now)) }
    {
        let mut state = State {
            atoms: BTreeSet::new(alloc),
        };
        for atom in task.init() {
            state.insert(atom.clone()?)?;
        }
        Ok(state)
    }

    /// Whether the atom is true.
    pub fn contains(&self, atom: &Atom) -> bool
        ensures { result ≡ contains (state_of self.now) (atom_of atom.now) }
    {
        self.atoms.contains(atom)
    }

    /// The true atoms, ordered by predicate and then lexicographically by objects.
    pub fn atoms(&self) -> &BTreeSet<Atom>
        ensures { from_list (map atom_of result.now.keys) ≡ state_of self.now }
    {
        &self.atoms
    }

    /// Makes the atom true. If an allocation fails, the state is unchanged.
    pub fn insert(&mut self, atom: Atom) -> Result<(), NoMemory>
        ensures ok { OnOk result (state_of self.new ≡ insert (state_of self.old) (atom_of atom)) }
        ensures err { OnErr result (state_of self.new ≡ state_of self.old) }
    {
        self.atoms.insert(atom)?;
        Ok(())
    }

    /// Makes the atom false.
    pub(crate) fn remove(&mut self, atom: &Atom)
        ensures { state_of self.new ≡ remove (state_of self.old) (atom_of atom.now) }
    {
        self.atoms.remove(atom);
    }

    /// A copy of the state.
    pub fn try_clone(&self) -> Result<State, NoMemory>
        ensures { IfOk result (λ s. state_of s ≡ state_of self.now) }
    {
        Ok(State {
            atoms: self.atoms.clone()?,
        })
    }
}
