//! The test of fairness.
ghost use Rattle.std.specs.Prelude.{◌≡◌, ◌<◌, ◌↔◌, ◌≤ℤ◌, pos, Some, IfOk, MatchOption, IsTrue, length, slice_get};
ghost use Rattle.grounding.specs.Ground.{task_in, atoms_in};
ghost use Rattle.model.specs.Task.{Instance};
ghost use Rattle.model.specs.Meaning.{cost_of};
ghost use Rattle.model.specs.StaticallyFalse.{kept_instances};
ghost use Rattle.lower_bounds.specs.FairPotentials.{nothing, IsFairAt, IsFairAtGoals, IsFirstUnfairAt};
ghost use Rattle.potentials.specs.Potentials.{potentials_of};
ghost use Rattle.potentials.specs.Fairness.{allowed_by, AreInstancesFairAt, ReportsAt, Reports, DetectsDead};

use crate::allowance::Allowance;
use crate::goals::GoalAtoms;
use crate::losses::loses_at_most;
use crate::potentials::Potentials;
use faults::NoMemory;
use grounding::{Ground, instance_count};
use std::alloc::Global;

/// Whether potentials are fair for a ground task, and what violates fairness if not.
#[derive(Clone, Copy, Debug, PartialEq, Eq)]
pub enum Fairness {
    /// They are fair.
    Fair,
    /// The number of the first kept instance that violates fairness.
    Instance(u32),
    /// Each kept instance is fair, but the goal condition is violated.
    Goal,
}

impl Potentials {
    /// Whether they are fair for the ground task: no kept instance may lose more than it costs, and the value in goal states is
    /// at most 0. There must be a weight for each numbered atom.
    pub fn fair(&self, alloc: Global, ground: &Ground<'_>) -> Result<Fairness, NoMemory>
        requires { length (potentials_of self.now).weights ≡ length (atoms_in ground.now) }
        ensures { IfOk result (Reports (task_in ground.now) (atoms_in ground.now) (potentials_of self.now)) }
    {
        self.fairness(alloc, ground, Allowance::Cost)
    }

    /// Whether they are dead-fair for the ground task: no kept instance may lose anything, and the value in goal states is at
    /// most 0. A state with a value of at least 1 is then a dead end. There must be a weight for each numbered atom.
    ///
    /// # Errors
    /// An allocation failed.
    pub fn dead_fair(&self, alloc: Global, ground: &Ground<'_>) -> Result<Fairness, NoMemory>
        requires { length (potentials_of self.now).weights ≡ length (atoms_in ground.now) }
        ensures { IfOk result (DetectsDead (task_in ground.now) (atoms_in ground.now) (potentials_of self.now)) }
    {
        self.fairness(alloc, ground, Allowance::Nothing)
    }

    /// Whether they are fair with this allowance for each instance.
    fn fairness(
        &self,
        alloc: Global,
        ground: &Ground<'_>,
        allowance: Allowance,
    ) -> Result<Fairness, NoMemory>
        requires { length (potentials_of self.now).weights ≡ length (atoms_in ground.now) }
        ensures { IfOk result (ReportsAt (allowed_by allowance (task_in ground.now)) (task_in ground.now) (atoms_in ground.now) (potentials_of self.now)) }
    {
        match self.first_unfair(ground, allowance) {
            Some(number) => Ok(Fairness::Instance(number)),
            None => {
                if self.is_fair_at_goals(alloc, ground)? {
                    Ok(Fairness::Fair)
                } else {
                    Ok(Fairness::Goal)
                }
            }
        }
    }

    /// Whether they satisfy the goal condition.
    fn is_fair_at_goals(&self, alloc: Global, ground: &Ground<'_>) -> Result<bool, NoMemory>
        requires { length (potentials_of self.now).weights ≡ length (atoms_in ground.now) }
        ensures { IfOk result (λ fair. IsTrue fair ↔ IsFairAtGoals (task_in ground.now) (atoms_in ground.now) (potentials_of self.now)) }
    {
        let goal = GoalAtoms::new(alloc, ground.goal_literals(), ground.width())?;
        let given = goal.give_at_most(self.weights());
        let sum = self.constant() + given;
        Ok(is_at_most(sum, 0))
    }

    /// The number of the first instance that violates fairness, if there is one.
    fn first_unfair(&self, ground: &Ground<'_>, allowance: Allowance) -> Option<u32>
        requires { length (potentials_of self.now).weights ≡ length (atoms_in ground.now) }
        ensures { MatchOption result
            (AreInstancesFairAt (allowed_by allowance (task_in ground.now)) (task_in ground.now) (atoms_in ground.now) (potentials_of self.now))
            (IsFirstUnfairAt (allowed_by allowance (task_in ground.now)) (task_in ground.now) (atoms_in ground.now) (potentials_of self.now)) }
    {
        for number in 0..instance_count(ground) {
            if !self.is_fair_within(ground, number, allowance) {
                return Some(number);
            }
        }
        None
    }

    /// Whether the instance with this number is fair.
    pub fn is_fair_at(&self, ground: &Ground<'_>, number: u32) -> bool
        requires width { length (potentials_of self.now).weights ≡ length (atoms_in ground.now) }
        requires within { number < length (kept_instances (task_in ground.now)) }
        ensures { (i : Instance) → slice_get (kept_instances (task_in ground.now)) number ≡ Some i
            → (IsTrue result ↔ IsFairAt (cost_of (task_in ground.now) i) (task_in ground.now) (atoms_in ground.now) (potentials_of self.now).weights i) }
    {
        self.is_fair_within(ground, number, Allowance::Cost)
    }

    /// Whether the instance with this number is dead-fair.
    pub fn is_dead_fair_at(&self, ground: &Ground<'_>, number: u32) -> bool
        requires width { length (potentials_of self.now).weights ≡ length (atoms_in ground.now) }
        requires within { number < length (kept_instances (task_in ground.now)) }
        ensures { (i : Instance) → slice_get (kept_instances (task_in ground.now)) number ≡ Some i
            → (IsTrue result ↔ IsFairAt (nothing i) (task_in ground.now) (atoms_in ground.now) (potentials_of self.now).weights i) }
    {
        self.is_fair_within(ground, number, Allowance::Nothing)
    }

    /// Whether the instance with this number is fair with this allowance.
    fn is_fair_within(&self, ground: &Ground<'_>, number: u32, allowance: Allowance) -> bool
        requires width { length (potentials_of self.now).weights ≡ length (atoms_in ground.now) }
        requires within { number < length (kept_instances (task_in ground.now)) }
        ensures { (i : Instance) → slice_get (kept_instances (task_in ground.now)) number ≡ Some i
            → (IsTrue result ↔ IsFairAt (allowed_by allowance (task_in ground.now) i) (task_in ground.now) (atoms_in ground.now) (potentials_of self.now).weights i) }
    {
        let losses = loses_at_most(
            ground.literals(number),
            ground.counting(number),
            self.weights(),
        );
        is_at_most(losses, allowance.of(ground, number))
    }
}

/// Whether the number is at most the allowance.
fn is_at_most(number: i64, allowed: u32) -> bool
    ensures { IsTrue result ↔ (number ≤ℤ pos allowed) }
{
    number <= i64::from(allowed)
}
