//! What is known of one state.
ghost use Rattle.std.specs.Prelude.{◌≡◌, ◌<◌, IfOk, pos, length, slice_index_or, slice_set};
ghost use Rattle.packed_state.specs.Packed.{bits_of};
ghost use Rattle.lower_bounds.specs.PotentialFunctions.{score};
ghost use Rattle.potentials.specs.Potentials.{potentials_of};
ghost use Rattle.tables.specs.Several.{width_of, state_of, AreScores, Knows};

use crate::known_rows::KnownRows;
use crate::several::TableFunctions;
use faults::NoMemory;
use packed_state::Packed;
use potentials::Potentials;
use std::alloc::Global;

/// What is known of one state, at which it stands, so that another is evaluated by its difference.
pub struct KnownState {
    /// Its rows.
    pub(crate) rows: KnownRows,
    /// The score of its atoms by each value, and last by that for dead ends.
    pub(crate) scores: Vec<i64>,
}

impl Drop for KnownState {
    fn drop(self) {
        let Self { rows: _, scores: _ } = self;
    }
}

impl TableFunctions<'_> {
    /// What is known of the state in which no atom is true.
    ///
    /// # Errors
    /// Where memory is refused.
    pub fn known_state(&self, alloc: Global) -> Result<KnownState, NoMemory>
        ensures { IfOk result (Knows self.now) }
    {
        let width = self.dead_ends.weights().len() as u32;
        let rows = self.tables.known_rows(alloc, width)?;
        let scores = self.scores(alloc, &rows.projections.state)?;
        Ok(KnownState { rows, scores })
    }

    /// The score of the state's atoms by each value, and last by that for dead ends.
    ///
    /// # Errors
    /// Where memory is refused.
    fn scores(&self, alloc: Global, state: &Packed) -> Result<Vec<i64>, NoMemory>
        requires { length (bits_of state.now) ≡ width_of self.now }
        ensures { IfOk result (λ scores. AreScores self.now.values.items self.now.dead_ends (bits_of state.now) scores.items) }
    {
        let mut scores = Vec::new(alloc);
        for place in 0..self.values.len() {
            scores.push(self.values[place].score(state))?;
        }
        scores.push(self.dead_ends.score(state))?;
        Ok(scores)
    }

    /// Brings it to this state, at the cost of the difference. No memory is taken.
    pub fn move_to(&self, state: &Packed, known: &mut KnownState)
        requires width { length (bits_of state.now) ≡ width_of self.now }
        requires known { Knows self.now known.old }
        ensures known { Knows self.now known.new }
        ensures state { state_of known.new ≡ bits_of state.now }
    {
        for place in 0..self.values.len() {
            known.score_after(place, &self.values[place], state);
        }
        known.score_after(self.values.len(), &self.dead_ends, state);
        known.rows.move_to(&self.tables, state);
    }
}

impl KnownState {
    /// Replaces the score at this place, by these potentials, by the next state's.
    fn score_after(&mut self, place: usize, by: &Potentials, next: &Packed)
        requires there { place < length self.old.scores.items }
        requires before { length (state_of self.old) ≡ length (potentials_of by.now).weights }
        requires next { length (bits_of next.now) ≡ length (potentials_of by.now).weights }
        requires score { slice_index_or self.old.scores.items place (pos 0) ≡ score (potentials_of by.now) (state_of self.old) }
        ensures scores { self.new.scores.items ≡ slice_set self.old.scores.items place (score (potentials_of by.now) (bits_of next.now)) }
        ensures rows { self.new.rows ≡ self.old.rows }
    {
        let score = self.scores[place];
        self.scores[place] = by.score_after(score, &self.rows.projections.state, next);
    }
}
