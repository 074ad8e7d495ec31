//! A law of ground tasks, proved. The function does nothing.
ghost use Rattle.grounding.specs.Ground.{task_in, atoms_in};
ghost use Rattle.lower_bounds.specs.PotentialLaws.{AreNumberable};

use grounding::Ground;

/// The atoms of a ground task are as the laws of potential functions require: fluent, and each numbered once. So the answer of
/// [`fair`](crate::Potentials::fair) suffices for a lower bound.
pub fn ground_atoms_are_numberable(ground: &Ground<'_>)
    ensures { AreNumberable (task_in ground.now) (atoms_in ground.now) }
{}
