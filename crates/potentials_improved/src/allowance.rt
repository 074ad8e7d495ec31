//! Allowances: what an instance may lose by potentials.
ghost use Rattle.std.specs.Prelude.{◌≡◌, ◌<◌, ◌↔◌, ℕ, List, Some, IfOk, IsTrue, length, slice_get};
ghost use Rattle.grounding.specs.Ground.{task_in, atoms_in};
ghost use Rattle.model.specs.Task.{Atom, Task, Instance};
ghost use Rattle.model.specs.StaticallyFalse.{kept_instances};
ghost use Rattle.lower_bounds.specs.PotentialFunctions.{PotentialFunction};
ghost use Rattle.lower_bounds.specs.FairPotentials.{IsFairAt, AreFairAt};
ghost use Rattle.lower_bounds.specs.PotentialLaws.{AreNumberable};
ghost use Rattle.potentials.specs.Potentials.{potentials_of};
ghost use Rattle.potentials.specs.Fairness.{ReportsAt};

use faults::NoMemory;
use grounding::Ground;
use potentials::{Fairness, Potentials};
use std::alloc::Global;

/// An allowance of a task's instances: their cost ([`Costs`](crate::Costs)), or nothing ([`DeadEnds`](crate::DeadEnds)). It gives a
/// meaning to the values of potentials that are fair at it.
pub trait Allowance {
    /// The most that an instance of the task may lose.
    ghost allowance: { Task → Instance → ℕ };

    /// The meaning of values by potentials that are fair at the allowance.
    ghost Gives: { Task → List Atom → PotentialFunction → Type 0 };

    /// Whether the potentials are fair at the allowance for the ground task. They have a weight for each numbered atom.
    ///
    /// # Errors
    /// An allocation failed.
    fn fairness(
        potentials: &Potentials,
        alloc: Global,
        ground: &Ground<'_>,
    ) -> Result<Fairness, NoMemory>
        requires { length (potentials_of potentials.now).weights ≡ length (atoms_in ground.now) }
        ensures { IfOk result (ReportsAt (allowance (task_in ground.now)) (task_in ground.now) (atoms_in ground.now) (potentials_of potentials.now)) };

    /// Whether the instance with this number is fair at the allowance. The potentials have a weight for each numbered atom.
    fn is_fair_at(potentials: &Potentials, ground: &Ground<'_>, number: u32) -> bool
        requires width { length (potentials_of potentials.now).weights ≡ length (atoms_in ground.now) }
        requires within { number < length (kept_instances (task_in ground.now)) }
        ensures { (i : Instance) → slice_get (kept_instances (task_in ground.now)) number ≡ Some i
            → (IsTrue result ↔ IsFairAt (allowance (task_in ground.now) i) (task_in ground.now) (atoms_in ground.now) (potentials_of potentials.now).weights i) };

    ghost gives: { (task : Task) (atoms : List Atom) (p : PotentialFunction) → AreNumberable task atoms → AreFairAt (allowance task) task atoms p → Gives task atoms p };
}
