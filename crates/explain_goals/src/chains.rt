//! Chains of what atoms need that may not become true.
ghost use Rattle.std.specs.Prelude.{◌≡◌, [], IfOk, map, true};
ghost use Rattle.std.specs.FinSet.{empty, insert};
ghost use Rattle.task.specs.TaskParts.{atom_of};
ghost use Rattle.formulas.specs.State.{state_of};
ghost use Rattle.grounding.specs.Ground.{atoms_in, task_in};
ghost use Rattle.model.specs.Meaning.{initial_state};
ghost use Rattle.model.specs.NumberedAtoms.{numbered_atoms};
ghost use Rattle.model.specs.Task as planning;
ghost use Rattle.explain_goals.specs.Needed.{IsOutChain};
ghost use Rattle.explain_goals.specs.Views.{is_out};

use crate::relaxation::Relaxation;
use faults::NoMemory;
use formulas::{Atom, State};
use std::alloc::Global;

/// The maximum number of links after the first.
const MOST_LINKS: usize = 3;

/// Whether a chain got a further link.
#[derive(Clone, Copy, Debug, PartialEq, Eq)]
enum Extended {
    Further,
    Ended,
}

impl Relaxation<'_, '_> {
    /// The chain of what the atom needs, which may not become true.
    pub(crate) fn chain(&self, alloc: Global, atom: &Atom) -> Result<Vec<State>, NoMemory>
        requires initial { state_of self.now.initial.now ≡ initial_state (task_in self.now.ground.now) }
        requires numbered { atoms_in self.now.ground.now ≡ numbered_atoms (task_in self.now.ground.now) [] }
        requires out { is_out self.now (atom_of atom.now) ≡ true }
        ensures { IfOk result (λ links. IsOutChain self.now (atom_of atom.now) (map state_of links.items)) }
    {
        let mut links = Vec::new(alloc);
        links.push(alone(alloc, atom)?)?;
        'links: for _ in 0..MOST_LINKS {
            match self.extend(alloc, &mut links)? {
                Extended::Further => {}
                Extended::Ended => return Ok(links),
            }
        }
        Ok(links)
    }

    /// Adds a link of what the last link needs, unless earlier links have all of it.
    fn extend(&self, alloc: Global, links: &mut Vec<State>) -> Result<Extended, NoMemory>
        requires initial { state_of self.now.initial.now ≡ initial_state (task_in self.now.ground.now) }
        requires numbered { atoms_in self.now.ground.now ≡ numbered_atoms (task_in self.now.ground.now) [] }
        ensures { (a : planning.Atom) → IsOutChain self.now a (map state_of links.old.items) → IfOk result (λ _. IsOutChain self.now a (map state_of links.new.items)) }
    {
        let count = links.len();
        if count == 0 {
            return Ok(Extended::Ended);
        }
        let last = &links[count - 1];
        if last.atoms().len() == 0 {
            return Ok(Extended::Ended);
        }
        let Some(needed) = self.needs(alloc, last)? else {
            return Ok(Extended::Ended);
        };
        if are_in_links(&needed, links) {
            return Ok(Extended::Ended);
        }
        links.push(needed)?;
        Ok(Extended::Further)
    }
}

/// The set of this atom alone.
pub(crate) fn alone(alloc: Global, atom: &Atom) -> Result<State, NoMemory>
    ensures { IfOk result (λ s. state_of s ≡ insert empty (atom_of atom.now)) }
{
    let mut set = State::new(alloc);
    set.insert(atom.clone()?)?;
    Ok(set)
}

/// Whether there are atoms, and each is in one of the links.
fn are_in_links(atoms: &State, links: &[State]) -> bool {
    for atom in atoms.atoms() {
        if !links.iter().any(|link| link.contains(atom)) {
            return false;
        }
    }
    atoms.atoms().len() > 0
}
