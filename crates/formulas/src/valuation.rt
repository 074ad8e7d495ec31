//! What formulas are evaluated in.
ghost use Rattle.std.specs.Prelude.{◌≡◌};
ghost use Rattle.std.specs.FinSet.{contains};
ghost use Rattle.task.specs.TaskParts.{atom_of};
ghost use Rattle.formulas.specs.State.{state_of};
ghost use Rattle.model.specs.Meaning as meaning;

use crate::state::State;
use task::Atom;

/// An assignment of truth values to atoms.
pub trait Valuation {
    ghost facts: { Self → meaning.State };

    /// Whether the atom is true.
    fn contains(&self, atom: &Atom) -> bool
        ensures { result ≡ contains (facts self.now) (atom_of atom.now) };
}

impl Valuation for State {
    ghost facts = { state_of };

    fn contains(&self, atom: &Atom) -> bool {
        State::contains(self, atom)
    }
}
