//! Potentials that are fair at an allowance.
ghost use Rattle.std.specs.Prelude.{◌≡◌, ◌≤ℤ◌, ◌↔◌, pos, Bool, List, false, All, IsTrue, length};
ghost use Rattle.std.proofs.Props.{props};
ghost use Rattle.grounding.specs.Ground.{task_in, atoms_in};
ghost use Rattle.lower_bounds.specs.PotentialFunctions.{is_dead_by};
ghost use Rattle.lower_bounds.specs.FairPotentials.{AreFairAt};
ghost use Rattle.potentials.specs.Potentials.{potentials_of};
ghost use Rattle.potentials_improved.specs.Guides.{Guides};

use crate::allowance::Allowance;
use crate::costs::Costs;
use crate::dead_ends::DeadEnds;
use faults::NoMemory;
use grounding::Ground;
use potentials::{Fairness, Potentials};
use std::alloc::Global;
use std::marker::PhantomData;

/// Potentials that are fair at an allowance for a ground task: no kept instance may lose more by them than its allowance.
#[derive(Drop)]
pub struct FairAt<'g, 't, A: Allowance> {
    pub(crate) potentials: Potentials,
    pub(crate) ground: &'g Ground<'t>,
    /// Whether no weight and no constant is above 0; no state has a value of at least 1 then.
    are_all_zero: bool,
    allowance: PhantomData<A>,
    ghost width: { length (potentials_of potentials).weights ≡ length (atoms_in ground.now) } by { Prim.hlevel props },
    ghost fair: { AreFairAt (A.allowance (task_in ground.now)) (task_in ground.now) (atoms_in ground.now) (potentials_of potentials) } by { Prim.hlevel props },
    ghost guides: { Guides (A.allowance (task_in ground.now)) (task_in ground.now) (atoms_in ground.now) (potentials_of potentials) } by { Prim.hlevel props },
    ghost none: { IsTrue are_all_zero → (bits : List Bool) → is_dead_by (potentials_of potentials) bits ≡ false } by { Prim.hlevel props },
}

/// Fair potentials: no instance loses more than it costs. A state's value is a lower bound on its remaining cost.
pub type Fair<'g, 't> = FairAt<'g, 't, Costs>;

/// Dead-fair potentials: no instance loses anything. A state with a value of at least 1 is a dead end.
pub type DeadFair<'g, 't> = FairAt<'g, 't, DeadEnds>;

impl<'g, 't, A: Allowance> FairAt<'g, 't, A> {
    ghost use Rattle.std.specs.Prelude.{IfOk, MatchOption};
    ghost use Rattle.potentials_improved.specs.FairPotentials.{potentials_in, ground_in, AreOf};

    /// The potentials, if they are fair at the allowance for the ground task; else `None`. They have a weight for each numbered
    /// atom.
    ///
    /// # Errors
    /// An allocation failed.
    pub fn new(
        alloc: Global,
        potentials: Potentials,
        ground: &'g Ground<'t>,
    ) -> Result<Option<FairAt<'g, 't, A>>, NoMemory>
        requires { length (potentials_of potentials).weights ≡ length (atoms_in ground.now) }
        ensures fair { IfOk result (λ o. MatchOption o (¬ AreFairAt (A.allowance (task_in ground.now)) (task_in ground.now) (atoms_in ground.now) (potentials_of potentials)) (AreOf ground.now (potentials_of potentials))) }
    {
        let fairness = A::fairness(&potentials, alloc, ground)?;
        match fairness {
            Fairness::Fair => Ok(Some(FairAt::known(potentials, ground))),
            Fairness::Instance(_) => Ok(None),
            Fairness::Goal => Ok(None),
        }
    }

    /// The potentials, which are already known to be fair at the allowance for the ground task. Tests nothing.
    pub fn known(potentials: Potentials, ground: &'g Ground<'t>) -> FairAt<'g, 't, A>
        requires width { length (potentials_of potentials).weights ≡ length (atoms_in ground.now) }
        requires fair { AreFairAt (A.allowance (task_in ground.now)) (task_in ground.now) (atoms_in ground.now) (potentials_of potentials) }
        ensures { AreOf ground.now (potentials_of potentials) result }
    {
        let are_all_zero = are_all_zero(&potentials);
        FairAt {
            potentials,
            ground,
            are_all_zero,
            allowance: PhantomData,
        }
    }

    /// The potentials.
    pub fn potentials(&self) -> &Potentials
        ensures { potentials_of result.now ≡ potentials_in self.now }
    {
        &self.potentials
    }

    /// The ground task.
    pub fn ground(&self) -> &'g Ground<'t>
        ensures { result.now ≡ ground_in self.now }
    {
        self.ground
    }

    /// Whether no state can have a value of at least 1. May be false although none has one.
    pub(crate) fn are_all_zero(&self) -> bool
        ensures { IsTrue result → (bits : List Bool) → is_dead_by (potentials_in self.now) bits ≡ false }
    {
        self.are_all_zero
    }
}

/// Whether neither the constant nor a weight is above 0, so that no state has a value of at least 1.
fn are_all_zero(potentials: &Potentials) -> bool
    ensures { IsTrue result → (bits : List Bool) → is_dead_by (potentials_of potentials.now) bits ≡ false }
{
    potentials.constant() <= 0 && are_at_most_zero(potentials.weights())
}

/// Whether no weight is above 0.
fn are_at_most_zero(weights: &[i64]) -> bool
    ensures { IsTrue result ↔ All (λ w. w ≤ℤ pos 0) weights.now }
{
    weights.iter().all(|weight| *weight <= 0)
}
