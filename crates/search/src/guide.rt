//! Guides of a search: an estimate of each state, unless it is reported dead.
ghost use Rattle.std.specs.Prelude.{◌≡◌, ℕ, Bool, List, IfOk, length};
ghost use Rattle.std.proofs.Props.{props};
ghost use Rattle.model.specs.Runs.{System};
ghost use Rattle.packed_state.specs.Packed.{bits_of};
ghost use Rattle.search.specs.Estimates.{IsAdmissible, value_by};
ghost use Rattle.search.specs.DeadEnds.{DetectsDeadEnds, ReportsDeadEnds, IsValueUnlessDead};

use crate::dead_ends::DeadEnd;
use crate::estimates::{Estimate, value_of};
use faults::NoMemory;
use packed_state::Packed;
use std::alloc::Global;

/// A guide of a search: an admissible estimate of the remaining cost, and a test for dead ends, asked together.
///
/// Neither has to respect actions: the estimate may fall by more than an action costs, and a successor of a reported dead end need
/// not be reported. The test need not report all dead ends.
///
/// Questions use a scratch, so they take no memory. It is at some state, and keeps what helps to answer for states that differ little
/// from it. No answer depends on which state that is.
pub trait Guide {
    /// What is known of one state, and room to answer for others.
    type Scratch: Drop;

    ghost width_of: { Self → ℕ };

    ghost system_of: { Self → System (List Bool) ℕ };

    ghost estimate_of: { Self → List Bool → ℕ };

    ghost is_dead: { Self → List Bool → Bool };

    // the scratch is one of the guide, and what it knows is right
    ghost fits: { Self → Self.Scratch → Type 0 };

    /// A scratch, at some state.
    ///
    /// # Errors
    /// Memory is refused.
    fn scratch(&self, alloc: Global) -> Result<Self::Scratch, NoMemory>
        ensures { IfOk result (fits self.now) };

    /// Moves the scratch to the state. The next questions are expected to be of states that differ little from it.
    fn move_to(&self, state: &Packed, scratch: &mut Self::Scratch)
        requires width { length (bits_of state.now) ≡ width_of self.now }
        requires scratch { fits self.now scratch.old }
        ensures { fits self.now scratch.new };

    /// The estimate of the state, or `None` if it is reported dead.
    fn value(&self, state: &Packed, scratch: &mut Self::Scratch) -> Option<u64>
        requires width { length (bits_of state.now) ≡ width_of self.now }
        requires scratch { fits self.now scratch.old }
        ensures value { IsValueUnlessDead (estimate_of self.now) (is_dead self.now) (bits_of state.now) result }
        ensures scratch { fits self.now scratch.new };

    ghost is_admissible: { (guide : Self) → IsAdmissible (system_of guide) (estimate_of guide) };

    ghost reports_dead_ends: { (guide : Self) → ReportsDeadEnds (system_of guide) (is_dead guide) };
}

/// An independent estimate and test for dead ends, as a guide. Both promise more than a guide has to: the estimate is consistent
/// (`E.is_consistent`), and successors of reported dead ends are reported too (`detects`).
#[derive(Drop)]
pub struct EstimateWithDeadEnds<'a, E: Estimate, D: DeadEnd> {
    estimate: &'a E,
    dead_ends: &'a D,
    ghost width: { D.width_of dead_ends.now ≡ E.width_of estimate.now } by { Prim.hlevel props },
    ghost detects: { DetectsDeadEnds (E.system_of estimate.now) (D.is_dead dead_ends.now) } by { Prim.hlevel props },
    ghost admissible: { IsAdmissible (E.system_of estimate.now) (value_by (E.score_of estimate.now)) } by { Prim.hlevel props },
    ghost reports: { ReportsDeadEnds (E.system_of estimate.now) (D.is_dead dead_ends.now) } by { Prim.hlevel props },
}

impl<'a, E: Estimate, D: DeadEnd> EstimateWithDeadEnds<'a, E, D> {
    /// The guide of both, which are made for the same system.
    pub fn new(estimate: &'a E, dead_ends: &'a D) -> EstimateWithDeadEnds<'a, E, D>
        requires system { D.system_of dead_ends.now ≡ E.system_of estimate.now }
        requires width { D.width_of dead_ends.now ≡ E.width_of estimate.now }
        ensures estimate { result.estimate.now ≡ estimate.now }
        ensures dead_ends { result.dead_ends.now ≡ dead_ends.now }
    {
        EstimateWithDeadEnds {
            estimate,
            dead_ends,
        }
    }
}

/// A state and its score.
#[derive(Drop)]
pub struct ScoredState {
    state: Packed,
    score: i64,
}

/// The scratch knows the score of one state. That of another is found from the atoms that differ.
impl<E: Estimate, D: DeadEnd> Guide for EstimateWithDeadEnds<'_, E, D> {
    type Scratch = ScoredState;

    ghost width_of = { λ guide. E.width_of guide.estimate.now };

    ghost system_of = { λ guide. E.system_of guide.estimate.now };

    ghost estimate_of = { λ guide. value_by (E.score_of guide.estimate.now) };

    ghost is_dead = { λ guide. D.is_dead guide.dead_ends.now };

    ghost fits = { λ guide known. (length (bits_of known.state) ≡ E.width_of guide.estimate.now) × (known.score ≡ E.score_of guide.estimate.now (bits_of known.state)) };

    ghost is_admissible = { λ guide. guide.admissible };

    ghost reports_dead_ends = { λ guide. guide.reports };

    fn scratch(&self, alloc: Global) -> Result<ScoredState, NoMemory> {
        let state = Packed::empty(alloc, self.estimate.width())?;
        let score = self.estimate.score(&state);
        Ok(ScoredState { state, score })
    }

    fn move_to(&self, state: &Packed, known: &mut ScoredState) {
        known.score = self.estimate.score_after(known.score, &known.state, state);
        known.state.copy_from(state);
    }

    fn value(&self, state: &Packed, known: &mut ScoredState) -> Option<u64> {
        if self.dead_ends.dead(state) {
            return None;
        }
        let score = self.estimate.score_after(known.score, &known.state, state);
        Some(value_of(score))
    }
}
