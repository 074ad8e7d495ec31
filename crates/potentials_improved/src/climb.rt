//! Hill climbing: steps of single weights from fair potentials to better ones.
ghost use Rattle.std.specs.Prelude.{◌≡◌, ◌<◌, ◌≤◌, ◌↔◌, ℤ, ◌+ℤ◌, ◌≤ℤ◌, neg_ℤ, pos, set, if◌then◌else◌, All, IfSome, IfNone, IsTrue, length, map};
ghost use Rattle.packed_state.specs.Packed.{bits_of};
ghost use Rattle.packed_state.specs.Sets.{has};
ghost use Rattle.grounding.specs.Ground.{task_in, atoms_in};
ghost use Rattle.model.specs.StaticallyFalse.{kept_instances};
ghost use Rattle.model.specs.NumberedLiterals.{literals_of_goal};
ghost use Rattle.model.specs.Grounding.{ground_system};
ghost use Rattle.lower_bounds.specs.PotentialFunctions.{IsInRange};
ghost use Rattle.lower_bounds.specs.PotentialFunctions as potential;
ghost use Rattle.lower_bounds.specs.FairPotentials as model;
ghost use Rattle.lower_bounds.specs.FairPotentials.{AreFairAt};
ghost use Rattle.lower_bounds.specs.Settled.{initial_value};
ghost use Rattle.lower_bounds.proofs.Settling.{IsNoneBetter};
ghost use Rattle.potentials.specs.Potentials.{potentials_of};
ghost use Rattle.potentials_drafted.specs.Incidence.{number_of};
ghost use Rattle.potentials_improved.specs.Groundwork.{ground_under};
ghost use Rattle.potentials_improved.specs.Climb.{AreFairAmong, IsClimb, IsNext, IsWeightTried, IsAtomTried, IsPass, worth};

use crate::allowance::Allowance;
use crate::groundwork::Groundwork;
use grounding::Ground;
use packed_state::Packed;
use potentials::{MAX_WEIGHT, Potentials, is_in_range, or_zero};
use potentials_drafted::IncidenceEntry;

/// Potentials that are fair at an allowance and have the greatest constant, an upper bound of their score in goal states without
/// the constant, and their score in the initial state.
#[derive(Drop)]
pub(crate) struct Climb {
    pub(crate) potentials: Potentials,
    pub(crate) goal: i64,
    pub(crate) score: i64,
}

/// The same numbers for a changed weight.
#[derive(Clone, Copy)]
pub(crate) struct Next {
    pub(crate) constant: i64,
    pub(crate) goal: i64,
    pub(crate) score: i64,
}

/// A weight to be tried for an atom.
#[derive(Clone, Copy)]
pub(crate) struct Trial {
    pub(crate) atom: u32,
    pub(crate) weight: i64,
}

/// The greatest constant in range, given the upper bound of the score in goal states.
pub(crate) fn greatest_constant(goal: i64) -> i64
    requires { goal ≤ℤ pos 2147483647 }
    ensures range { IsInRange result }
    ensures meets { (result +ℤ goal) ≤ℤ pos 0 }
    ensures greatest { (k : ℤ) → IsInRange k → (k +ℤ goal) ≤ℤ pos 0 → k ≤ℤ result }
{
    if goal < -MAX_WEIGHT {
        return MAX_WEIGHT;
    }
    -goal
}

impl Climb {
    /// Begins at these potentials, with the greatest constant.
    pub(crate) fn new<A: Allowance>(
        mut potentials: Potentials,
        groundwork: &Groundwork<'_, '_>,
    ) -> Climb
        requires width { length (potentials_of potentials).weights ≡ length (atoms_in (ground_under groundwork.now)) }
        requires fair { AreFairAt (A.allowance (task_in (ground_under groundwork.now))) (task_in (ground_under groundwork.now)) (atoms_in (ground_under groundwork.now)) (potentials_of potentials) }
        ensures climb { IsClimb (A.allowance (task_in (ground_under groundwork.now))) (task_in (ground_under groundwork.now)) (atoms_in (ground_under groundwork.now)) result }
        ensures no_lower { initial_value (task_in (ground_under groundwork.now)) (atoms_in (ground_under groundwork.now)) (potentials_of potentials) ≤ worth (task_in (ground_under groundwork.now)) (atoms_in (ground_under groundwork.now)) result }
    {
        let goal = groundwork.goal.give_at_most(potentials.weights());
        let constant = greatest_constant(goal);
        potentials.set_constant(constant);
        let score = potentials.score(&groundwork.initial);
        Climb {
            potentials,
            goal,
            score,
        }
    }

    /// The upper bound in goal states, with the changed weight.
    fn moved_goal<A: Allowance>(&self, groundwork: &Groundwork<'_, '_>, trial: Trial) -> i64
        requires climb { IsClimb (A.allowance (task_in (ground_under groundwork.now))) (task_in (ground_under groundwork.now)) (atoms_in (ground_under groundwork.now)) self.now }
        requires within { trial.atom < length (atoms_in (ground_under groundwork.now)) }
        requires range { IsInRange trial.weight }
        ensures { result ≡ model.goal_gives_at_most (length (atoms_in (ground_under groundwork.now))) (set self.now.potentials.weights.items trial.atom trial.weight) (literals_of_goal (task_in (ground_under groundwork.now)) (atoms_in (ground_under groundwork.now))) }
    {
        let old = self.potentials.weight(trial.atom);
        let said = groundwork.goal.of(trial.atom);
        let before = said.gives(old);
        let after = said.gives(trial.weight);
        exchanged(self.goal, before, after)
    }

    /// The score in the initial state, with the changed weight and this constant.
    fn moved_score<A: Allowance>(
        &self,
        groundwork: &Groundwork<'_, '_>,
        trial: Trial,
        constant: i64,
    ) -> i64
        requires climb { IsClimb (A.allowance (task_in (ground_under groundwork.now))) (task_in (ground_under groundwork.now)) (atoms_in (ground_under groundwork.now)) self.now }
        requires within { trial.atom < length (atoms_in (ground_under groundwork.now)) }
        requires weight { IsInRange trial.weight }
        requires constant { IsInRange constant }
        ensures { result ≡ potential.score (record { constant = constant; weights = set self.now.potentials.weights.items trial.atom trial.weight }) (ground_system (task_in (ground_under groundwork.now)) (atoms_in (ground_under groundwork.now))).initial }
    {
        let old = self.potentials.weight(trial.atom);
        let before = given(&groundwork.initial, trial.atom, old);
        let after = given(&groundwork.initial, trial.atom, trial.weight);
        let moved = exchanged(self.score, self.potentials.constant(), constant);
        exchanged(moved, before, after)
    }

    /// The numbers for the changed weight, if they are better.
    fn next<A: Allowance>(&self, groundwork: &Groundwork<'_, '_>, trial: Trial) -> Option<Next>
        requires climb { IsClimb (A.allowance (task_in (ground_under groundwork.now))) (task_in (ground_under groundwork.now)) (atoms_in (ground_under groundwork.now)) self.now }
        requires within { trial.atom < length (atoms_in (ground_under groundwork.now)) }
        requires range { IsInRange trial.weight }
        ensures none { IfNone result (IsNoneBetter (A.allowance (task_in (ground_under groundwork.now))) (task_in (ground_under groundwork.now)) (atoms_in (ground_under groundwork.now)) (potentials_of self.now.potentials) (set self.now.potentials.weights.items trial.atom trial.weight)) }
        ensures some { IfSome result (IsNext (task_in (ground_under groundwork.now)) (atoms_in (ground_under groundwork.now)) self.now trial.atom trial.weight) }
    {
        let goal = self.moved_goal::<A>(groundwork, trial);
        if goal > MAX_WEIGHT {
            return None;
        }
        let constant = greatest_constant(goal);
        let score = self.moved_score::<A>(groundwork, trial, constant);
        if or_zero(score) <= or_zero(self.score) {
            return None;
        }
        Some(Next {
            constant,
            goal,
            score,
        })
    }

    /// Takes the weight, if the potentials become better and stay fair.
    fn try_weight<A: Allowance>(&mut self, groundwork: &Groundwork<'_, '_>, trial: Trial) -> bool
        requires climb { IsClimb (A.allowance (task_in (ground_under groundwork.now))) (task_in (ground_under groundwork.now)) (atoms_in (ground_under groundwork.now)) self.old }
        requires within { trial.atom < length (atoms_in (ground_under groundwork.now)) }
        ensures { IsWeightTried (A.allowance (task_in (ground_under groundwork.now))) (task_in (ground_under groundwork.now)) (atoms_in (ground_under groundwork.now)) self.old self.new trial.atom trial.weight result }
    {
        if !is_in_range(trial.weight) {
            return false;
        }
        match self.next::<A>(groundwork, trial) {
            Some(next) => self.take_if_fair::<A>(groundwork, trial, next),
            None => false,
        }
    }

    /// Takes the weight and its numbers, if each instance that touches the atom stays fair. All others do.
    fn take_if_fair<A: Allowance>(
        &mut self,
        groundwork: &Groundwork<'_, '_>,
        trial: Trial,
        next: Next,
    ) -> bool
        requires climb { IsClimb (A.allowance (task_in (ground_under groundwork.now))) (task_in (ground_under groundwork.now)) (atoms_in (ground_under groundwork.now)) self.old }
        requires within { trial.atom < length (atoms_in (ground_under groundwork.now)) }
        requires range { IsInRange trial.weight }
        requires next { IsNext (task_in (ground_under groundwork.now)) (atoms_in (ground_under groundwork.now)) self.old trial.atom trial.weight next }
        ensures { IsWeightTried (A.allowance (task_in (ground_under groundwork.now))) (task_in (ground_under groundwork.now)) (atoms_in (ground_under groundwork.now)) self.old self.new trial.atom trial.weight result }
    {
        let old = self.potentials.weight(trial.atom);
        self.potentials.set_weight(trial.atom, trial.weight);
        let touching = groundwork.input.incidence().of(trial.atom);
        if !are_fair_at::<A>(&self.potentials, groundwork.ground, touching) {
            self.potentials.set_weight(trial.atom, old);
            return false;
        }
        self.potentials.set_constant(next.constant);
        self.goal = next.goal;
        self.score = next.score;
        true
    }

    /// Tries the atom's weight less one, and plus one.
    fn try_atom<A: Allowance>(&mut self, groundwork: &Groundwork<'_, '_>, atom: u32) -> bool
        requires climb { IsClimb (A.allowance (task_in (ground_under groundwork.now))) (task_in (ground_under groundwork.now)) (atoms_in (ground_under groundwork.now)) self.old }
        requires within { atom < length (atoms_in (ground_under groundwork.now)) }
        ensures { IsAtomTried (A.allowance (task_in (ground_under groundwork.now))) (task_in (ground_under groundwork.now)) (atoms_in (ground_under groundwork.now)) self.old self.new atom result }
    {
        let old = self.potentials.weight(atom);
        let less = Trial {
            atom,
            weight: old - 1,
        };
        if self.try_weight::<A>(groundwork, less) {
            return true;
        }
        let more = Trial {
            atom,
            weight: old + 1,
        };
        self.try_weight::<A>(groundwork, more)
    }

    /// One pass: tries each atom once.
    pub(crate) fn pass<A: Allowance>(&mut self, groundwork: &Groundwork<'_, '_>) -> bool
        requires climb { IsClimb (A.allowance (task_in (ground_under groundwork.now))) (task_in (ground_under groundwork.now)) (atoms_in (ground_under groundwork.now)) self.old }
        ensures { IsPass (A.allowance (task_in (ground_under groundwork.now))) (task_in (ground_under groundwork.now)) (atoms_in (ground_under groundwork.now)) (length (atoms_in (ground_under groundwork.now))) self.old self.new result }
    {
        let mut raised = false;
        for atom in 0..groundwork.ground.width() {
            let better = self.try_atom::<A>(groundwork, atom);
            raised |= better;
        }
        raised
    }
}

/// Whether all these instances are fair at the allowance.
pub(crate) fn are_fair_at<A: Allowance>(
    potentials: &Potentials,
    ground: &Ground<'_>,
    instances: &[IncidenceEntry],
) -> bool
    requires width { length (potentials_of potentials.now).weights ≡ length (atoms_in ground.now) }
    requires within { All (λ n. n < length (kept_instances (task_in ground.now))) (map number_of instances.now) }
    ensures { IsTrue result ↔ AreFairAmong (A.allowance (task_in ground.now)) (task_in ground.now) (atoms_in ground.now) (potentials_of potentials.now) (map number_of instances.now) }
{
    for place in 0..instances.len() {
        if !A::is_fair_at(potentials, ground, instances[place].number) {
            return false;
        }
    }
    true
}

/// The sum with one part replaced.
fn exchanged(sum: i64, before: i64, after: i64) -> i64
    requires least { neg_ℤ (pos 4503599627370496) ≤ℤ sum }
    requires most { sum ≤ℤ pos 4503599627370496 }
    requires before { IsInRange before }
    requires after { IsInRange after }
    ensures { result ≡ ((sum +ℤ neg_ℤ before) +ℤ after) }
{
    sum - before + after
}

/// The weight, if the atom is true in the state; else 0.
fn given(state: &Packed, atom: u32, weight: i64) -> i64
    requires within { atom < length (bits_of state.now) }
    requires range { IsInRange weight }
    ensures value { result ≡ (if has (bits_of state.now) atom then weight else pos 0) }
    ensures range { IsInRange result }
{
    if state.has(atom) { weight } else { 0 }
}
