//! Tests for dead ends: states from which no list of actions leads to the goal, so a search need not expand them.
ghost use Rattle.std.specs.Prelude.{◌≡◌, ℕ, Bool, List, length};
ghost use Rattle.model.specs.Runs.{System};
ghost use Rattle.packed_state.specs.Packed.{bits_of};
ghost use Rattle.search.specs.DeadEnds.{DetectsDeadEnds};

use crate::transitions::TransitionSystem;
use packed_state::Packed;

/// A test for dead ends of a transition system. It need not report all of them.
///
/// A state that it reports does not meet the goal, and all successors of the state are reported too. So the state is a dead end.
pub trait DeadEnd {
    ghost width_of: { Self → ℕ };

    ghost system_of: { Self → System (List Bool) ℕ };

    ghost is_dead: { Self → List Bool → Bool };

    /// Whether the state is reported dead.
    fn dead(&self, state: &Packed) -> bool
        requires { length (bits_of state.now) ≡ width_of self.now }
        ensures { result ≡ is_dead self.now (bits_of state.now) };

    ghost detects_dead_ends: { (test : Self) → DetectsDeadEnds (system_of test) (is_dead test) };
}

/// The test that reports no state, for users of the library.
#[derive(Clone, Copy)]
pub struct NoDeadEnd<'a, T>(pub &'a T);

impl<T: TransitionSystem> DeadEnd for NoDeadEnd<'_, T> {
    ghost use Rattle.std.specs.Prelude.{false};
    ghost use Rattle.search.specs.DeadEnds.{reports_none};

    ghost width_of = { λ test. T.width_of test.0.now };

    ghost system_of = { λ test. T.means test.0.now };

    ghost is_dead = { λ _ _. false };

    ghost detects_dead_ends = { λ test. reports_none (T.means test.0.now) };

    fn dead(&self, _state: &Packed) -> bool {
        false
    }
}
