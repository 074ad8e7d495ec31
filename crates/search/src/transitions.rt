//! A planning problem as a search sees it: packed states, numbered actions, steps, costs and goals. What the numbers stand for is
//! hidden.
ghost use Rattle.std.specs.Prelude.{◌≡◌, ℕ, Bool, List, Some, IsTrue, is_some, length, IfOk, OnOk, OnErr};
ghost use Rattle.model.specs.Runs.{System};
ghost use Rattle.packed_state.specs.Packed.{bits_of};
ghost use Rattle.search.specs.Transitions.{AreApplicable};

use faults::NoMemory;
use packed_state::Packed;
use std::alloc::Global;

/// A transition system. All its states have the same width.
pub trait TransitionSystem {
    ghost width_of: { Self → ℕ };

    ghost means: { Self → System (List Bool) ℕ };

    /// The width of each state.
    fn width(&self) -> u32
        ensures { result ≡ width_of self.now };

    /// The initial state.
    ///
    /// # Errors
    /// Memory is refused.
    fn initial(&self, alloc: Global) -> Result<Packed, NoMemory>
        ensures width { IfOk result (λ s. length (bits_of s) ≡ width_of self.now) }
        ensures initial { IfOk result (λ s. bits_of s ≡ (means self.now).initial) };

    /// Replaces the buffer by the actions that are applicable in the state, in the system's order.
    ///
    /// # Errors
    /// Memory is refused. The buffer is unchanged.
    fn applicable(&self, state: &Packed, into: &mut Vec<u32>) -> Result<(), NoMemory>
        requires { length (bits_of state.now) ≡ width_of self.now }
        ensures ok { OnOk result (AreApplicable (means self.now) (bits_of state.now) into.new.items) }
        ensures err { OnErr result (into.new.items ≡ into.old.items) };

    /// Sets `into` to the state that the action leads to.
    fn successor(&self, action: u32, state: &Packed, into: &mut Packed)
        requires width { length (bits_of state.now) ≡ width_of self.now }
        requires into_width { length (bits_of into.old) ≡ width_of self.now }
        requires applicable { IsTrue (is_some ((means self.now).step (bits_of state.now) action)) }
        ensures width { length (bits_of into.new) ≡ width_of self.now }
        ensures step { (means self.now).step (bits_of state.now) action ≡ Some (bits_of into.new) };

    /// The action's cost.
    fn cost(&self, action: u32) -> u32
        ensures { result ≡ (means self.now).cost action };

    /// Whether the state meets the goal.
    fn meets_goal(&self, state: &Packed) -> bool
        requires { length (bits_of state.now) ≡ width_of self.now }
        ensures { result ≡ (means self.now).meets_goal (bits_of state.now) };
}
