//! Nothing as an allowance: dead-fair potentials are a search's test for dead ends.
use crate::allowance::Allowance;
use crate::drafted::{Drafts, no_worse};
use crate::fair_at::FairAt;
use crate::groundwork::Groundwork;
use faults::{DraftMemory, NoMemory};
use grounding::Ground;
use packed_state::Packed;
use potentials::{Fairness, Potentials};
use potentials_drafted::DeadDrafts;
use search::DeadEnd;
use std::alloc::Global;

/// No instance may lose anything. States with a value of at least 1 by dead-fair potentials are dead ends.
#[derive(Clone, Copy, Debug)]
pub struct DeadEnds;

impl Allowance for DeadEnds {
    ghost use Rattle.lower_bounds.specs.FairPotentials.{nothing};
    ghost use Rattle.lower_bounds.specs.PotentialLaws.{DetectDeadEnds};
    ghost use Rattle.lower_bounds.proofs.PotentialLowerBound.{detect_dead_ends};

    ghost allowance = { λ task. nothing };

    ghost Gives = { DetectDeadEnds };

    ghost gives = { detect_dead_ends };

    fn fairness(
        potentials: &Potentials,
        alloc: Global,
        ground: &Ground<'_>,
    ) -> Result<Fairness, NoMemory> {
        potentials.dead_fair(alloc, ground)
    }

    fn is_fair_at(potentials: &Potentials, ground: &Ground<'_>, number: u32) -> bool {
        potentials.is_dead_fair_at(ground, number)
    }
}

impl Drafts for DeadEnds {
    /// One draft a round at most: one that makes the initial state a dead end, or more of the sampled states than before. The
    /// result does not rest on the drafts' input.
    fn drafted(
        alloc: Global,
        potentials: Potentials,
        groundwork: &Groundwork<'_, '_>,
        rounds: u32,
    ) -> Result<Potentials, NoMemory> {
        let memory = DraftMemory::new(alloc);
        let mut drafts = DeadDrafts::new(&memory, &groundwork.input);
        let mut best = potentials;
        for _ in 0..rounds {
            let Some(weights) = drafts.next(best.weights()) else {
                break;
            };
            best = no_worse::<DeadEnds>(alloc, best, groundwork, weights)?;
        }
        if memory.is_refused() {
            return Err(NoMemory);
        }
        Ok(best)
    }
}

/// A state is dead if its value is at least 1.
impl DeadEnd for FairAt<'_, '_, DeadEnds> {
    ghost use Rattle.std.specs.Prelude.{length};
    ghost use Rattle.std.proofs.Common.{le_refl};
    ghost use Rattle.grounding.specs.Ground.{task_in, atoms_in};
    ghost use Rattle.model.specs.Grounding.{ground_system};
    ghost use Rattle.lower_bounds.specs.PotentialFunctions.{is_dead_by};
    ghost use Rattle.potentials_improved.specs.FairPotentials.{potentials_in, ground_in};

    ghost width_of = { λ test. length (atoms_in (ground_in test)) };

    ghost system_of = { λ test. ground_system (task_in (ground_in test)) (atoms_in (ground_in test)) };

    ghost is_dead = { λ test. is_dead_by (potentials_in test) };

    ghost detects_dead_ends = { λ test. test.guides.dead_ends (λ i. le_refl _) };

    fn dead(&self, state: &Packed) -> bool {
        !self.are_all_zero() && self.potentials().value(state) >= 1
    }
}
