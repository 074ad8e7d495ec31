//! What an instance may lose.
ghost use Rattle.std.specs.Prelude.{◌≡◌, ◌<◌, Some, length, slice_get};
ghost use Rattle.grounding.specs.Ground.{task_in};
ghost use Rattle.model.specs.Task.{Instance};
ghost use Rattle.model.specs.StaticallyFalse.{kept_instances};
ghost use Rattle.potentials.specs.Fairness.{allowed_by};

use grounding::Ground;

/// The most that an instance may lose by a lower bound that is fair.
#[derive(Clone, Copy, Debug, PartialEq, Eq)]
pub enum Allowance {
    /// Its cost: the bound is on the cost that is still to pay.
    Cost,
    /// Nothing: a state with a value above 0 is a dead end.
    Nothing,
}

impl Allowance {
    /// The allowance of the kept instance with this number, which is below their count.
    pub fn of(self, ground: &Ground<'_>, number: u32) -> u32
        requires { number < length (kept_instances (task_in ground.now)) }
        ensures { (i : Instance) → slice_get (kept_instances (task_in ground.now)) number ≡ Some i → result ≡ allowed_by self (task_in ground.now) i }
    {
        match self {
            Allowance::Cost => ground.cost(number),
            Allowance::Nothing => 0,
        }
    }
}
