//! Whether a value is fair for a ground task.
ghost use Rattle.std.specs.Prelude.{◌≡◌, ◌≤◌, ◌∷◌, [], IfOk, List, length, map};
ghost use Rattle.std.specs.List.{filter_map, list_all};
ghost use Rattle.grounding.specs.Views.{numbered_of};
ghost use Rattle.lower_bounds.specs.TableFunctions as tables;
ghost use Rattle.lower_bounds.specs.LandmarkLines.{landmark_of, share_count};
ghost use Rattle.landmark_zones.specs.Landmarks.{landmarks_of, share_of};
ghost use Rattle.landmarks.specs.Breaking.{AreSorted};
ghost use Rattle.landmarks.specs.Counters.{AreCounters};
ghost use Rattle.landmarks.specs.Fairness.{AreAsked, AreFairness, IsFairness, function_over, has_one, is_dead_fair, is_unfair};

use crate::breaking::has_any;
use crate::counters::Counters;
use crate::cut_index::CutIndex;
use faults::NoMemory;
use grounding::NumberedLiteral;
use landmark_zones::{Landmarks, Share};
use potentials::Allowance;
use std::alloc::Global;

/// Whether a value is fair.
#[derive(Clone, Copy, Debug, PartialEq, Eq)]
pub enum Fairness {
    /// No instance is charged at all: a state with a value that is not 0 is a dead end.
    DeadFair,
    /// No instance is charged more than it costs, and one is charged something: the value is a lower bound of the remaining cost.
    Fair,
    /// An instance is charged more than it costs, or a zone has no literal of the goal.
    Unfair,
}

impl Fairness {
    /// Whether it is not fair.
    pub fn is_unfair(self) -> bool
        ensures { result ≡ is_unfair self }
    {
        match self {
            Fairness::DeadFair | Fairness::Fair => false,
            Fairness::Unfair => true,
        }
    }

    /// Whether no instance is charged at all.
    pub fn is_dead_fair(self) -> bool
        ensures { result ≡ is_dead_fair self }
    {
        match self {
            Fairness::DeadFair => true,
            Fairness::Fair | Fairness::Unfair => false,
        }
    }
}

impl CutIndex<'_, '_> {
    ghost use Rattle.landmarks.specs.CutIndex.{asked_in, atoms_of, count_in, task_of};

    /// Whether each of the values is fair for the ground task, in their order.
    ///
    /// # Errors
    /// An allocation failed.
    pub fn fairness_of_all(
        &self,
        alloc: Global,
        landmarks: &Landmarks,
    ) -> Result<Vec<Fairness>, NoMemory>
        requires sorted { AreSorted (landmarks_of landmarks.now).zones }
        requires few { share_count (landmarks_of landmarks.now).values ≤ 67108864 }
        ensures { IfOk result (λ found. (beside : List tables.Table) → AreAsked (task_of self.now) (atoms_of self.now) beside (asked_in self.now)
            → AreFairness (task_of self.now) (atoms_of self.now) beside (landmarks_of landmarks.now) found.items) }
    {
        let mut counters = self.counters(alloc)?;
        let mut found = Vec::new(alloc);
        for number in 0..landmarks.value_count() {
            let shares = landmarks.value(number);
            found.push(self.fairness_for(&mut counters, landmarks, shares))?;
        }
        Ok(found)
    }

    /// Whether the value with these shares is fair for the ground task. It costs what the zones touch: the instances that make one
    /// of their literals true.
    fn fairness_for(
        &self,
        counters: &mut Counters,
        landmarks: &Landmarks,
        shares: &[Share],
    ) -> Fairness
        requires sorted { AreSorted (landmarks_of landmarks.now).zones }
        requires few { length shares.now ≤ 67108864 }
        requires counted { AreCounters (count_in self.now) counters.old }
        ensures counted { AreCounters (count_in self.now) counters.new }
        ensures fairness { (beside : List tables.Table) → AreAsked (task_of self.now) (atoms_of self.now) beside (asked_in self.now)
            → IsFairness (task_of self.now) (atoms_of self.now) (function_over beside (landmarks_of landmarks.now).zones (map share_of shares.now)) result }
    {
        if !are_of_goal(landmarks, shares, self.ground.goal_literals()) {
            return Fairness::Unfair;
        }
        if self.stays_within(counters, landmarks, shares, Allowance::Nothing) {
            return Fairness::DeadFair;
        }
        if self.stays_within(counters, landmarks, shares, Allowance::Cost) {
            return Fairness::Fair;
        }
        Fairness::Unfair
    }
}

/// Whether each zone of the shares has one of the goal's literals, which are these.
fn are_of_goal(landmarks: &Landmarks, shares: &[Share], goal: &[NumberedLiteral]) -> bool
    requires { AreSorted (landmarks_of landmarks.now).zones }
    ensures { result ≡ list_all (has_one (map numbered_of goal.now)) (filter_map (landmark_of (landmarks_of landmarks.now).zones) (map share_of shares.now)) }
{
    for share in shares {
        if !is_of_goal(landmarks, *share, goal) {
            return false;
        }
    }
    true
}

/// Whether the zone of the share has one of the goal's literals, which are these. A share without a zone counts for nothing.
fn is_of_goal(landmarks: &Landmarks, share: Share, goal: &[NumberedLiteral]) -> bool
    requires { AreSorted (landmarks_of landmarks.now).zones }
    ensures { result ≡ list_all (has_one (map numbered_of goal.now)) (filter_map (landmark_of (landmarks_of landmarks.now).zones) (map share_of (share ∷ []))) }
{
    let number = share.zone as usize;
    if number >= landmarks.zone_count() {
        return true;
    }
    has_any(landmarks.zone(number), goal)
}
