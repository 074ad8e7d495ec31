//! Packed states as valuations.
ghost use Rattle.std.specs.Prelude.{◌≡◌, length};
ghost use Rattle.std.proofs.Props.{props};
ghost use Rattle.packed_state.specs.Packed.{bits_of};
ghost use Rattle.grounding_instances.specs.Numbering.{atoms_in};

use formulas::Valuation;
use grounding_instances::Numbering;
use packed_state::Packed;
use task::Atom;

/// The state that a packed state stands for: the numbered atoms whose bits are set, and the static atoms of the initial state.
#[derive(Drop)]
pub(crate) struct StateView<'a, 't> {
    numbering: &'a Numbering<'t>,
    state: &'a Packed,
    ghost same_width: { length (bits_of state.now) ≡ length (atoms_in numbering.now) } by { Prim.hlevel props },
}

impl<'a, 't> StateView<'a, 't> {
    ghost use Rattle.grounding_instances.specs.Numbering.{task_in};
    ghost use Rattle.model.specs.Grounding.{state_of_bits};
    ghost use Rattle.grounding.specs.StateView.{facts_of};

    /// The view of a packed state, which has a bit for each numbered atom.
    pub(crate) fn new(numbering: &'a Numbering<'t>, state: &'a Packed) -> StateView<'a, 't>
        requires { length (bits_of state.now) ≡ length (atoms_in numbering.now) }
        ensures { facts_of result ≡ state_of_bits (task_in numbering.now) (atoms_in numbering.now) (bits_of state.now) }
    {
        StateView { numbering, state }
    }
}

impl Valuation for StateView<'_, '_> {
    ghost use Rattle.grounding.specs.StateView.{facts_of};

    ghost facts = { facts_of };

    fn contains(&self, atom: &Atom) -> bool {
        match self.numbering.number_of(atom) {
            Some(number) => self.state.has(number),
            None => self.numbering.is_initial_static(atom),
        }
    }
}
