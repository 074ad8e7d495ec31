//! Costs as an allowance: fair potentials are an estimate for a search.
ghost use Rattle.std.specs.Prelude.{◌≡◌, ◌≤◌, ℕ, Bool, List, Some, IsTrue, length};
ghost use Rattle.packed_state.specs.Packed.{bits_of};
ghost use Rattle.grounding.specs.Ground.{task_in, atoms_in};
ghost use Rattle.model.specs.Runs.{run, cost_of_all};
ghost use Rattle.model.specs.Grounding.{ground_system};
ghost use Rattle.lower_bounds.specs.PotentialFunctions as potential;
ghost use Rattle.lower_bounds.specs.PotentialLaws.{AreLowerBounds};
ghost use Rattle.potentials_improved.specs.FairPotentials.{potentials_in, ground_in};

use crate::allowance::Allowance;
use crate::drafted::{Drafts, no_worse};
use crate::fair_at::FairAt;
use crate::groundwork::Groundwork;
use faults::{DraftMemory, NoMemory};
use grounding::Ground;
use packed_state::Packed;
use potentials::{Fairness, Potentials};
use potentials_drafted::drafted_weights;
use search::Estimate;
use std::alloc::Global;

/// Each instance may lose its cost. The values of fair potentials are lower bounds.
#[derive(Clone, Copy, Debug)]
pub struct Costs;

impl Allowance for Costs {
    ghost use Rattle.model.specs.Meaning.{cost_of};
    ghost use Rattle.lower_bounds.specs.PotentialLaws.{AreLowerBounds};
    ghost use Rattle.lower_bounds.proofs.PotentialLowerBound.{are_lower_bounds};

    ghost allowance = { cost_of };

    ghost Gives = { AreLowerBounds };

    ghost gives = { are_lower_bounds };

    fn fairness(
        potentials: &Potentials,
        alloc: Global,
        ground: &Ground<'_>,
    ) -> Result<Fairness, NoMemory> {
        potentials.fair(alloc, ground)
    }

    fn is_fair_at(potentials: &Potentials, ground: &Ground<'_>, number: u32) -> bool {
        potentials.is_fair_at(ground, number)
    }
}

impl Drafts for Costs {
    /// One draft, by a linear program.
    fn drafted(
        alloc: Global,
        potentials: Potentials,
        groundwork: &Groundwork<'_, '_>,
        _rounds: u32,
    ) -> Result<Potentials, NoMemory> {
        let memory = DraftMemory::new(alloc);
        let weights = drafted_weights(&memory, &groundwork.input, potentials.weights());
        let weights = memory.finish(weights)?;
        no_worse::<Costs>(alloc, potentials, groundwork, weights)
    }
}

impl FairAt<'_, '_, Costs> {
    /// The state's value, a lower bound on the cost of every list of instances from it to a state that meets the goal. Allocates
    /// nothing.
    pub fn estimate(&self, state: &Packed) -> u64
        requires { length (bits_of state.now) ≡ length (atoms_in (ground_in self.now)) }
        ensures value { result ≡ potential.value (potentials_in self.now) (bits_of state.now) }
        ensures laws { AreLowerBounds (task_in (ground_in self.now)) (atoms_in (ground_in self.now)) (potentials_in self.now) }
        ensures bound { (end : List Bool) (plan : List ℕ) → run (ground_system (task_in (ground_in self.now)) (atoms_in (ground_in self.now))) (bits_of state.now) plan ≡ Some end
            → IsTrue ((ground_system (task_in (ground_in self.now)) (atoms_in (ground_in self.now))).meets_goal end)
            → result ≤ cost_of_all (ground_system (task_in (ground_in self.now)) (atoms_in (ground_in self.now))) plan }
    {
        self.potentials.value(state)
    }
}

/// Scores by the potentials. A state's score is found from another state's by the atoms in which they differ.
impl Estimate for FairAt<'_, '_, Costs> {
    ghost use Rattle.std.specs.Prelude.{length};
    ghost use Rattle.std.proofs.Common.{le_refl};
    ghost use Rattle.grounding.specs.Ground.{task_in, atoms_in};
    ghost use Rattle.model.specs.Grounding.{ground_system};
    ghost use Rattle.lower_bounds.specs.PotentialFunctions as potential;
    ghost use Rattle.potentials_improved.specs.FairPotentials.{potentials_in, ground_in};

    ghost width_of = { λ estimate. length (atoms_in (ground_in estimate)) };

    ghost system_of = { λ estimate. ground_system (task_in (ground_in estimate)) (atoms_in (ground_in estimate)) };

    ghost score_of = { λ estimate. potential.score (potentials_in estimate) };

    ghost is_consistent = { λ estimate. estimate.guides.estimate (λ i. le_refl _) };

    fn width(&self) -> u32 {
        self.ground().width()
    }

    fn score(&self, state: &Packed) -> i64 {
        self.potentials().score(state)
    }

    fn score_after(&self, score: i64, before: &Packed, after: &Packed) -> i64 {
        self.potentials().score_after(score, before, after)
    }
}
