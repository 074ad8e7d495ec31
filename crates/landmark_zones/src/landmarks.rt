//! Zones, and landmark values over them.
ghost use Rattle.std.specs.Prelude.{IsTrue};
ghost use Rattle.std.proofs.Props.{props};
ghost use Rattle.landmark_zones.specs.Rows.{are_rows, are_zones};

use crate::limits::{MAX_ENTRIES, MAX_VALUES, MAX_ZONES, is_value, is_zone};
use crate::values::{Share, Values};
use crate::zones::{ZoneRef, Zones};
use faults::NoMemory;
use std::alloc::Global;

/// Zones, and landmark values over them: the value of a state is the sum of the weights of the zones that are whole in it. Zones and
/// values are numbered from 0, each by itself.
pub struct Landmarks {
    zones: Zones,
    values: Values,
    ghost zones_fit: { IsTrue (are_zones zones) } by { Prim.hlevel props },
    ghost values_fit: { IsTrue (are_rows values) } by { Prim.hlevel props },
}

impl Drop for Landmarks {
    fn drop(self) {
        let Self {
            zones: _,
            values: _,
        } = self;
    }
}

impl Landmarks {
    ghost use Rattle.std.specs.Prelude.{◌≡◌, ◌<◌, [], OnErr, OnOk, Some, length, map, slice_get};
    ghost use Rattle.std.specs.Prelude.{◌&&◌, nat_le};
    ghost use Rattle.std.specs.List.{list_all};
    ghost use Rattle.lower_bounds.specs.LandmarkLines as lines;
    ghost use Rattle.landmark_zones.specs.Landmarks.{landmarks_of, share_of, with_value, with_zone};

    /// No zones and no values.
    pub fn none(alloc: Global) -> Landmarks
        ensures { landmarks_of result ≡ record { zones = []; values = [] } }
    {
        Landmarks {
            zones: Zones::none(alloc),
            values: Values::none(alloc),
        }
    }

    /// The number of zones.
    pub fn zone_count(&self) -> usize
        ensures { result ≡ length (landmarks_of self.now).zones }
    {
        self.zones.ends.len()
    }

    /// The number of values.
    pub fn value_count(&self) -> usize
        ensures { result ≡ length (landmarks_of self.now).values }
    {
        self.values.ends.len()
    }

    /// Appends a zone.
    ///
    /// # Errors
    /// An allocation failed. Nothing is changed then.
    pub fn push_zone(&mut self, zone: ZoneRef<'_>) -> Result<(), NoMemory>
        ensures ok { OnOk result (landmarks_of self.new ≡ with_zone (landmarks_of self.old) (record { atoms = zone.entry.atoms.now; negated = zone.entry.negated.now })) }
        ensures err { OnErr result (landmarks_of self.new ≡ landmarks_of self.old) }
    {
        self.zones.push(zone)
    }

    /// Appends a value.
    ///
    /// # Errors
    /// An allocation failed. Nothing is changed then.
    pub fn push_value(&mut self, shares: &[Share]) -> Result<(), NoMemory>
        ensures ok { OnOk result (landmarks_of self.new ≡ with_value (landmarks_of self.old) (map share_of shares.now)) }
        ensures err { OnErr result (landmarks_of self.new ≡ landmarks_of self.old) }
    {
        self.values.push(shares)
    }

    /// The zone with this number.
    pub fn zone(&self, number: usize) -> ZoneRef<'_>
        requires { number < length (landmarks_of self.now).zones }
        ensures { slice_get (landmarks_of self.now).zones number ≡ Some (record { atoms = result.atoms.now; negated = result.negated.now }) }
    {
        self.zones.of(number)
    }

    /// The shares of the value with this number.
    pub fn value(&self, number: usize) -> &[Share]
        requires { number < length (landmarks_of self.now).values }
        ensures { slice_get (landmarks_of self.now).values number ≡ Some (map share_of result.now) }
    {
        self.values.of(number)
    }

    /// Whether a certificate's text with this many atoms may have them.
    pub fn keep_limits(&self, atom_count: usize) -> bool
        ensures { result ≡ lines.keep_limits atom_count (landmarks_of self.now) }
    {
        self.zones_keep_limits(atom_count) && self.values_keep_limits()
    }

    /// Whether a text with this many atoms may have the zones.
    fn zones_keep_limits(&self, atom_count: usize) -> bool
        ensures { result ≡ (list_all (lines.is_zone atom_count) (landmarks_of self.now).zones && nat_le (length (landmarks_of self.now).zones) lines.most_zones && nat_le (lines.literal_count (landmarks_of self.now).zones) lines.most_entries) }
    {
        self.are_zones(atom_count)
            && self.zone_count() <= MAX_ZONES
            && self.literal_count() <= MAX_ENTRIES
    }

    /// Whether a text with these zones may have the values.
    fn values_keep_limits(&self) -> bool
        ensures { result ≡ (list_all (lines.is_value (length (landmarks_of self.now).zones)) (landmarks_of self.now).values && nat_le (length (landmarks_of self.now).values) lines.most_values && nat_le (lines.share_count (landmarks_of self.now).values) lines.most_entries) }
    {
        self.are_values() && self.value_count() <= MAX_VALUES && self.share_count() <= MAX_ENTRIES
    }

    /// The number of literals of all zones together.
    fn literal_count(&self) -> usize
        ensures { result ≡ lines.literal_count (landmarks_of self.now).zones }
    {
        self.zones.numbers.len()
    }

    /// The number of zones of all values together.
    fn share_count(&self) -> usize
        ensures { result ≡ lines.share_count (landmarks_of self.now).values }
    {
        self.values.shares.len()
    }

    /// Whether a text with this many atoms may have each zone.
    fn are_zones(&self, atom_count: usize) -> bool
        ensures { result ≡ list_all (lines.is_zone atom_count) (landmarks_of self.now).zones }
    {
        for number in 0..self.zone_count() {
            if !is_zone(self.zone(number), atom_count) {
                return false;
            }
        }
        true
    }

    /// Whether a text with these zones may have each value.
    fn are_values(&self) -> bool
        ensures { result ≡ list_all (lines.is_value (length (landmarks_of self.now).zones)) (landmarks_of self.now).values }
    {
        for number in 0..self.value_count() {
            if !is_value(self.value(number), self.zone_count()) {
                return false;
            }
        }
        true
    }
}
