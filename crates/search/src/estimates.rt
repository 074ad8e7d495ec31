//! Estimates of the remaining cost, by which a search chooses the state to expand next.
ghost use Rattle.std.specs.Prelude.{◌≡◌, ℕ, ◌<◌, ◌^◌, ℤ, Bool, List, length};
ghost use Rattle.model.specs.Runs.{System};
ghost use Rattle.packed_state.specs.Packed.{bits_of};
ghost use Rattle.search.specs.Estimates.{IsConsistent, above_zero, value_by};

use crate::transitions::TransitionSystem;
use packed_state::Packed;

/// A consistent estimate of the remaining cost from each state of a transition system.
///
/// The estimate is the greater of 0 and the state's score (`value_of`). A score is found from that of another state, so only their
/// difference is looked at.
pub trait Estimate {
    ghost width_of: { Self → ℕ };

    ghost system_of: { Self → System (List Bool) ℕ };

    ghost score_of: { Self → List Bool → ℤ };

    /// The width of each state.
    fn width(&self) -> u32
        ensures { result ≡ width_of self.now };

    /// The state's score.
    fn score(&self, state: &Packed) -> i64
        requires { length (bits_of state.now) ≡ width_of self.now }
        ensures { result ≡ score_of self.now (bits_of state.now) };

    /// The score of the state `after`, from that of `before`. The time grows with their difference.
    fn score_after(&self, score: i64, before: &Packed, after: &Packed) -> i64
        requires before { length (bits_of before.now) ≡ width_of self.now }
        requires after { length (bits_of after.now) ≡ width_of self.now }
        requires score { score ≡ score_of self.now (bits_of before.now) }
        ensures { result ≡ score_of self.now (bits_of after.now) };

    ghost is_consistent: { (estimate : Self) → IsConsistent (system_of estimate) (value_by (score_of estimate)) };
}

/// The estimate that belongs to a score: the greater of 0 and the score.
pub fn value_of(score: i64) -> u64
    ensures value { result ≡ above_zero score }
    ensures within { result < 2 ^ 63 }
{
    if score > 0 { score as u64 } else { 0 }
}

/// The estimate 0 for each state, for users of the library: by it the search is uniform-cost search.
#[derive(Clone, Copy)]
pub struct NoEstimate<'a, T>(pub &'a T);

impl<T: TransitionSystem> Estimate for NoEstimate<'_, T> {
    ghost use Rattle.std.specs.Prelude.{pos};
    ghost use Rattle.search.specs.Estimates.{consistent_zero};

    ghost width_of = { λ estimate. T.width_of estimate.0.now };

    ghost system_of = { λ estimate. T.means estimate.0.now };

    ghost score_of = { λ _ _. pos 0 };

    ghost is_consistent = { λ estimate. consistent_zero (T.means estimate.0.now) };

    fn width(&self) -> u32 {
        self.0.width()
    }

    fn score(&self, _state: &Packed) -> i64 {
        0
    }

    fn score_after(&self, _score: i64, _before: &Packed, _after: &Packed) -> i64 {
        0
    }
}
