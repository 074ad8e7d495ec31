//! Potentials from drafts.
ghost use Rattle.std.specs.Prelude.{◌≡◌, ◌≤◌, IfOk, IfSome, length};
ghost use Rattle.grounding.specs.Ground.{task_in, atoms_in};
ghost use Rattle.lower_bounds.specs.FairPotentials.{AreFairAt};
ghost use Rattle.lower_bounds.specs.Settled.{initial_value};
ghost use Rattle.potentials.specs.Potentials.{potentials_of};
ghost use Rattle.potentials_improved.specs.Drafted.{IsNoWorseAt};
ghost use Rattle.potentials_improved.specs.Groundwork.{ground_under};

use crate::allowance::Allowance;
use crate::climb::greatest_constant;
use crate::groundwork::Groundwork;
use faults::NoMemory;
use potentials::{Fairness, MAX_WEIGHT, Potentials};
use std::alloc::Global;

/// An allowance with drafts.
pub trait Drafts: Allowance {
    /// Potentials that are fair at the allowance and no worse than these, from at most `rounds` rounds of drafts; or these.
    fn drafted(
        alloc: Global,
        potentials: Potentials,
        groundwork: &Groundwork<'_, '_>,
        rounds: u32,
    ) -> Result<Potentials, NoMemory>
        requires width { length (potentials_of potentials).weights ≡ length (atoms_in (ground_under groundwork.now)) }
        requires fair { AreFairAt (Self.allowance (task_in (ground_under groundwork.now))) (task_in (ground_under groundwork.now)) (atoms_in (ground_under groundwork.now)) (potentials_of potentials) }
        ensures { IfOk result (λ p. IsNoWorseAt (Self.allowance (task_in (ground_under groundwork.now))) (task_in (ground_under groundwork.now)) (atoms_in (ground_under groundwork.now)) (potentials_of potentials) (potentials_of p)) };
}

/// Potentials with these weights and the greatest constant, if they are fair and no worse than the others; else the others.
pub(crate) fn no_worse<A: Allowance>(
    alloc: Global,
    potentials: Potentials,
    groundwork: &Groundwork<'_, '_>,
    weights: Vec<i64>,
) -> Result<Potentials, NoMemory>
    requires width { length (potentials_of potentials).weights ≡ length (atoms_in (ground_under groundwork.now)) }
    requires fair { AreFairAt (A.allowance (task_in (ground_under groundwork.now))) (task_in (ground_under groundwork.now)) (atoms_in (ground_under groundwork.now)) (potentials_of potentials) }
    ensures { IfOk result (λ p. IsNoWorseAt (A.allowance (task_in (ground_under groundwork.now))) (task_in (ground_under groundwork.now)) (atoms_in (ground_under groundwork.now)) (potentials_of potentials) (potentials_of p)) }
{
    let Some(other) = if_no_lower(&potentials, groundwork, weights) else {
        return Ok(potentials);
    };
    match A::fairness(&other, alloc, groundwork.ground)? {
        Fairness::Fair => Ok(other),
        Fairness::Instance(_) => Ok(potentials),
        Fairness::Goal => Ok(potentials),
    }
}

/// Potentials with these weights and the greatest constant, if their value of the initial state is no lower than the others'.
fn if_no_lower(
    potentials: &Potentials,
    groundwork: &Groundwork<'_, '_>,
    weights: Vec<i64>,
) -> Option<Potentials>
    requires width { length (potentials_of potentials.now).weights ≡ length (atoms_in (ground_under groundwork.now)) }
    ensures width { IfSome result (λ p. length (potentials_of p).weights ≡ length (atoms_in (ground_under groundwork.now))) }
    ensures no_lower { IfSome result (λ p. initial_value (task_in (ground_under groundwork.now)) (atoms_in (ground_under groundwork.now)) (potentials_of potentials.now) ≤ initial_value (task_in (ground_under groundwork.now)) (atoms_in (ground_under groundwork.now)) (potentials_of p)) }
{
    if weights.len() != groundwork.ground.width() as usize {
        return None;
    }
    let Some(mut other) = Potentials::new(0, weights) else {
        return None;
    };
    let goal = groundwork.goal.give_at_most(other.weights());
    if goal > MAX_WEIGHT {
        return None;
    }
    other.set_constant(greatest_constant(goal));
    let initial = &groundwork.initial;
    if other.value(initial) < potentials.value(initial) {
        return None;
    }
    Some(other)
}
