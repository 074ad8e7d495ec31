//! Landmark values that were tested.
ghost use Rattle.std.specs.Prelude.{◌≡◌, ◌<◌, ◌^◌, [], IfOk, IfSome, length};
ghost use Rattle.packed_state.specs.Packed.{bits_of};
ghost use Rattle.lower_bounds.specs.TableLaws.{AreAllNumbered};
ghost use Rattle.landmark_zones.specs.Landmarks.{landmarks_of};
ghost use Rattle.landmarks.specs.CutIndex.{asked_in, atoms_of, task_of};
ghost use Rattle.landmarks.specs.Fairness.{AreAsked, IsFairness};
ghost use Rattle.landmarks_drafted.specs.Drafts.{IsOneValue};
ghost use Rattle.guides.specs.Tested.{IsOne, IsTested, first_of, is_dead_by, value_by};

use faults::NoMemory;
use landmark_zones::Landmarks;
use landmarks::{CutIndex, Fairness, value_in};
use landmarks_drafted::{Draft, KnownValue};
use packed_state::Packed;
use std::alloc::Global;

/// The memory that a zone takes beside its literals, in entries of 4 bytes. A literal takes one.
const ZONE_ENTRIES: usize = 8;

/// A landmark value that was found to be fair.
#[derive(Drop)]
pub(crate) struct TestedValue {
    /// The value, the only one, over zones of its own.
    pub(crate) landmarks: Landmarks,
    /// Whether it is dead-fair too.
    pub(crate) is_dead_fair: bool,
    /// The place of the state for which it was drafted.
    pub(crate) place: u32,
}

impl TestedValue {
    /// The drafted value, if it is fair. It was drafted for the state at this place.
    pub(crate) fn test(
        alloc: Global,
        index: &CutIndex<'_, '_>,
        draft: Draft,
        place: u32,
    ) -> Result<Option<TestedValue>, NoMemory>
        requires numbered { AreAllNumbered (task_of index.now) (atoms_of index.now) }
        requires asked { AreAsked (task_of index.now) (atoms_of index.now) [] (asked_in index.now) }
        requires draft { IsOneValue (length (atoms_of index.now)) draft }
        ensures { IfOk result (λ found. IfSome found (IsTested (task_of index.now) (atoms_of index.now))) }
    {
        let Draft { landmarks, .. } = draft;
        let fairness = fairness(alloc, index, &landmarks)?;
        if fairness.is_unfair() {
            return Ok(None);
        }
        let is_dead_fair = fairness.is_dead_fair();
        Ok(Some(TestedValue {
            landmarks,
            is_dead_fair,
            place,
        }))
    }

    /// The memory that it takes, in entries of 4 bytes: one for each literal, and `ZONE_ENTRIES` more for each zone.
    pub(crate) fn entries(&self) -> usize {
        let mut entries = 0usize;
        for number in 0..self.landmarks.zone_count() {
            let zone = self.landmarks.zone(number);
            entries = entries
                .saturating_add(ZONE_ENTRIES)
                .saturating_add(zone.atoms.len())
                .saturating_add(zone.negated.len());
        }
        entries
    }

    /// The value, as it is given to the drafter.
    pub(crate) fn known(&self) -> KnownValue<'_>
        requires { length (landmarks_of self.now.landmarks).values ≡ 1 }
    {
        let shares = self.landmarks.value(0);
        KnownValue {
            landmarks: &self.landmarks,
            shares,
        }
    }

    /// The state's value.
    pub(crate) fn value(&self, state: &Packed) -> u64
        requires { IsOne (length (bits_of state.now)) (landmarks_of self.now.landmarks) }
        ensures value { result ≡ value_by self.now (bits_of state.now) }
        ensures fits { result < 2 ^ 63 }
    {
        let shares = self.landmarks.value(0);
        value_in(state, &self.landmarks, shares)
    }

    /// Whether it shows that the state is a dead end.
    pub(crate) fn shows_dead_end(&self, state: &Packed) -> bool
        requires { IsOne (length (bits_of state.now)) (landmarks_of self.now.landmarks) }
        ensures { result ≡ is_dead_by self.now (bits_of state.now) }
    {
        self.is_dead_fair && self.value(state) >= 1
    }
}

/// Whether the value, the only one of these landmarks, is fair.
fn fairness(
    alloc: Global,
    index: &CutIndex<'_, '_>,
    landmarks: &Landmarks,
) -> Result<Fairness, NoMemory>
    requires asked { AreAsked (task_of index.now) (atoms_of index.now) [] (asked_in index.now) }
    requires one { IsOne (length (atoms_of index.now)) (landmarks_of landmarks.now) }
    ensures { IfOk result (IsFairness (task_of index.now) (atoms_of index.now) (first_of (landmarks_of landmarks.now))) }
{
    let found = index.fairness_of_all(alloc, landmarks)?;
    Ok(found[0])
}
