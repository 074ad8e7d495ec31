//! The cuts of zones, found by an index.
ghost use Rattle.std.specs.Prelude.{◌≡◌, ℕ, ◌<◌, ◌≤◌, ◌∷◌, [], All, IfOk, length, map, true};
ghost use Rattle.std.proofs.Props.{props};
ghost use Rattle.std.specs.List.{flat_map};
ghost use Rattle.grounding.specs.Ground.{atoms_in, task_in};
ghost use Rattle.model.specs.NumberedLiterals.{literals_of_number};
ghost use Rattle.model.specs.ConditionalChanges.{conditional_of_number};
ghost use Rattle.model.specs.StaticallyFalse.{kept_instances};
ghost use Rattle.lower_bounds.specs.TableFunctions.{is_among};
ghost use Rattle.lower_bounds.specs.FairLandmarks as fair;
ghost use Rattle.landmark_zones.specs.Landmarks.{landmarks_of, share_of};
ghost use Rattle.landmarks.specs.Breaking.{AreSorted, IsSorted, zone_in};
ghost use Rattle.table_rows.specs.Lists.{list_at};
ghost use Rattle.landmarks.specs.Makers.{AreMakers};
ghost use Rattle.landmarks.specs.Counters.{AreCounters};

use crate::breaking::may_break;
use crate::counters::Counters;
use crate::makers::Makers;
use faults::NoMemory;
use grounding::Ground;
use landmark_zones::{Landmarks, Share, ZoneRef};
use potentials::Allowance;
use std::alloc::Global;
use table_rows::Lists;

/// What the instances that may break a zone are charged for it.
#[derive(Clone, Copy)]
pub(crate) struct Charge<'z> {
    pub(crate) zone: ZoneRef<'z>,
    pub(crate) weight: u32,
    pub(crate) allowance: Allowance,
}

/// An index of a ground task by which the instances that may break a zone are found: those of each literal that they make true. It
/// has the kept instances that the tables beside the values do not shut out.
pub struct CutIndex<'a, 't> {
    pub(crate) ground: &'a Ground<'t>,
    /// The numbers of its instances.
    pub(crate) asked: &'a [u32],
    pub(crate) makers: Makers,
    ghost kept: { All (λ number. number < length (kept_instances (task_in ground.now))) asked.now } by { Prim.hlevel props },
    ghost made: { AreMakers (task_in ground.now) (atoms_in ground.now) asked.now makers } by { Prim.hlevel props },
}

impl Drop for CutIndex<'_, '_> {
    fn drop(self) {
        let Self {
            ground: _,
            asked: _,
            makers: _,
        } = self;
    }
}

impl<'a, 't> CutIndex<'a, 't> {
    ghost use Rattle.landmarks.specs.CutIndex.{asked_in, atoms_of, candidates, charging_by, count_in, share_charging, task_of, allowed_at, HasTotals, Charges, ChargesShare, landmark_in};

    /// The index of the kept instances with these numbers.
    ///
    /// # Errors
    /// An allocation failed.
    pub fn new(
        alloc: Global,
        ground: &'a Ground<'t>,
        asked: &'a [u32],
    ) -> Result<CutIndex<'a, 't>, NoMemory>
        requires { All (λ number. number < length (kept_instances (task_in ground.now))) asked.now }
        ensures task { IfOk result (λ index. task_of index ≡ task_in ground.now) }
        ensures atoms { IfOk result (λ index. atoms_of index ≡ atoms_in ground.now) }
        ensures asked { IfOk result (λ index. asked_in index ≡ asked.now) }
    {
        let makers = Makers::new(alloc, ground, asked)?;
        Ok(CutIndex {
            ground,
            asked,
            makers,
        })
    }

    /// A counter for each kept instance, for the tests of values one after another.
    ///
    /// # Errors
    /// An allocation failed.
    pub(crate) fn counters(&self, alloc: Global) -> Result<Counters, NoMemory>
        ensures { IfOk result (AreCounters (count_in self.now)) }
    {
        Counters::new(alloc, self.ground.instances().len())
    }

    /// Whether a value with these shares charges no instance more than it is allowed.
    pub(crate) fn stays_within(
        &self,
        counters: &mut Counters,
        landmarks: &Landmarks,
        shares: &[Share],
        allowance: Allowance,
    ) -> bool
        requires sorted { AreSorted (landmarks_of landmarks.now).zones }
        requires few { length shares.now ≤ 67108864 }
        requires counted { AreCounters (count_in self.now) counters.old }
        ensures counted { AreCounters (count_in self.now) counters.new }
        ensures within { HasTotals self.now (landmarks_of landmarks.now).zones shares.now allowance result }
    {
        counters.begin();
        for share in shares {
            if !self.charge_share(counters, landmarks, *share, allowance) {
                return false;
            }
        }
        true
    }

    /// Charges the instances that may break the zone of the share. A share without a zone counts for nothing. Whether none is then
    /// charged more than it is allowed.
    fn charge_share(
        &self,
        counters: &mut Counters,
        landmarks: &Landmarks,
        share: Share,
        allowance: Allowance,
    ) -> bool
        requires sorted { AreSorted (landmarks_of landmarks.now).zones }
        requires counted { AreCounters (count_in self.now) counters.old }
        requires early { counters.old.clock < 4294967295 }
        ensures { ChargesShare (share_charging self.now (landmarks_of landmarks.now).zones (share_of share) allowance) counters.old counters.new result }
    {
        counters.tick();
        let number = share.zone as usize;
        if number >= landmarks.zone_count() {
            return true;
        }
        let by = Charge {
            zone: landmarks.zone(number),
            weight: share.weight,
            allowance,
        };
        self.charge_zone(counters, by)
    }

    /// Charges the instances that may break the zone. Whether none is then charged more than it is allowed.
    fn charge_zone(&self, counters: &mut Counters, by: Charge<'_>) -> bool
        requires sorted { IsSorted (zone_in by.zone) }
        requires counted { AreCounters (count_in self.now) counters.old }
        ensures { Charges (charging_by self.now by.entry) (candidates self.now.makers (zone_in by.entry.zone)) counters.old counters.new result }
    {
        let added = self.charge_rows(counters, &self.makers.adding, by.zone.atoms, by);
        if !added {
            return false;
        }
        self.charge_rows(counters, &self.makers.deleting, by.zone.negated, by)
    }

    /// Charges those of the instances in the rows of these atoms that may break the zone.
    fn charge_rows(
        &self,
        counters: &mut Counters,
        rows: &Lists,
        atoms: &[u32],
        by: Charge<'_>,
    ) -> bool
        requires sorted { IsSorted (zone_in by.zone) }
        requires counted { AreCounters (count_in self.now) counters.old }
        requires asked { (atom number : ℕ) → is_among (list_at rows.now atom) number ≡ true → is_among (asked_in self.now) number ≡ true }
        ensures { Charges (charging_by self.now by.entry) (flat_map (list_at rows.now) atoms.now) counters.old counters.new result }
    {
        for atom in atoms {
            if !self.charge_all(counters, rows.of(*atom), by) {
                return false;
            }
        }
        true
    }

    /// Charges those of these instances that may break the zone.
    fn charge_all(&self, counters: &mut Counters, numbers: &[u32], by: Charge<'_>) -> bool
        requires sorted { IsSorted (zone_in by.zone) }
        requires counted { AreCounters (count_in self.now) counters.old }
        requires asked { (number : ℕ) → is_among numbers.now number ≡ true → is_among (asked_in self.now) number ≡ true }
        ensures { Charges (charging_by self.now by.entry) numbers.now counters.old counters.new result }
    {
        for number in numbers {
            if !self.charge_one(counters, *number, by) {
                return false;
            }
        }
        true
    }

    /// Charges the instance, if it may break the zone and has not been looked at for it.
    fn charge_one(&self, counters: &mut Counters, number: u32, by: Charge<'_>) -> bool
        requires sorted { IsSorted (zone_in by.zone) }
        requires counted { AreCounters (count_in self.now) counters.old }
        requires asked { is_among (asked_in self.now) number ≡ true }
        ensures { Charges (charging_by self.now by.entry) (number ∷ []) counters.old counters.new result }
    {
        if counters.is_seen(number) {
            return true;
        }
        let weight = self.weight_for(number, by);
        let most = self.allowed(number, by.allowance);
        counters.charge(number, weight, most)
    }

    /// The weight of the zone, if the instance may break it.
    fn weight_for(&self, number: u32, by: Charge<'_>) -> u32
        requires sorted { IsSorted (zone_in by.zone) }
        requires asked { is_among (asked_in self.now) number ≡ true }
        ensures { result ≡ fair.charge (literals_of_number (task_of self.now) (atoms_of self.now) number) (conditional_of_number (task_of self.now) (atoms_of self.now) number) (landmark_in by.entry) }
    {
        let literals = self.ground.literals(number);
        let changes = self.ground.counting(number);
        if may_break(by.zone, literals, changes) {
            by.weight
        } else {
            0
        }
    }

    /// What the instance may be charged.
    fn allowed(&self, number: u32, allowance: Allowance) -> u32
        ensures { result ≡ allowed_at (task_of self.now) (atoms_of self.now) allowance number }
    {
        match allowance {
            Allowance::Cost => self.ground.cost(number),
            Allowance::Nothing => 0,
        }
    }
}
