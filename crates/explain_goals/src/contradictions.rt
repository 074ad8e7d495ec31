//! An atom that a goal requires to be true and to be false.
ghost use Rattle.std.specs.Prelude.{◌≡◌, IfOk, IfSome, map, true};
ghost use Rattle.task.specs.TaskParts.{atom_of};
ghost use Rattle.formulas.specs.Literals.{literal_of};
ghost use Rattle.formulas.specs.State.{state_of};
ghost use Rattle.explain_goals.specs.Contradictions.{IsBoth, IsOneRequired};

use crate::chains::alone;
use faults::NoMemory;
use formulas::{Atom, Literal, State};
use std::alloc::Global;

/// The first atom that the literals require both to be true and to be false.
pub(crate) fn contradictory(alloc: Global, literals: &[Literal]) -> Result<Option<Atom>, NoMemory>
    ensures { IfOk result (λ o. IfSome o (λ a. IsBoth (map literal_of literals.now) (atom_of a))) }
{
    'literals: for literal in literals {
        if let Literal::IsFalse(atom) = literal {
            if is_required(&alone(alloc, atom)?, literals) {
                return Ok(Some(atom.clone()?));
            }
        }
    }
    Ok(None)
}

/// Whether the literals require one of the atoms to be true.
fn is_required(atoms: &State, literals: &[Literal]) -> bool
    ensures { result ≡ true → IsOneRequired (map literal_of literals.now) (state_of atoms.now) }
{
    for literal in literals {
        if let Literal::IsTrue(atom) = literal {
            if atoms.contains(atom) {
                return true;
            }
        }
    }
    false
}
