//! Zones in memory.
ghost use Rattle.std.specs.Prelude.{◌≡◌, ◌<◌, ◌+◌, ◌++◌, ◌∷◌, [], OnErr, OnOk, IsTrue, Some, length, slice_get, take};
ghost use Rattle.landmark_zones.specs.Rows.{zones_of, are_zones, zone_start};

use faults::NoMemory;
use std::alloc::{AllocError, Global};

/// A zone: the numbers, in ascending order, of the atoms that are its literals, and of the atoms whose negations are.
#[derive(Clone, Copy)]
pub struct ZoneRef<'a> {
    /// The atoms that are false where the zone is whole.
    pub atoms: &'a [u32],
    /// The atoms that are true where it is.
    pub negated: &'a [u32],
}

/// Where a zone ends in the list of all numbers.
#[derive(Clone, Copy)]
pub(crate) struct ZoneEnd {
    /// The end of its atoms, where the negated ones begin.
    pub(crate) atoms: usize,
    /// The end of the negated ones, where the next zone begins.
    pub(crate) negated: usize,
}

/// Zones of any size, whose numbers are in one list.
#[derive(Drop)]
pub(crate) struct Zones {
    pub(crate) numbers: Vec<u32>,
    pub(crate) ends: Vec<ZoneEnd>,
}

impl Zones {
    /// No zones.
    pub(crate) fn none(alloc: Global) -> Zones
        ensures none { zones_of result ≡ [] }
        ensures fit { IsTrue (are_zones result) }
    {
        Zones {
            numbers: Vec::new(alloc),
            ends: Vec::new(alloc),
        }
    }

    /// Appends a zone. If an allocation fails, the zones stay as they are.
    pub(crate) fn push(&mut self, zone: ZoneRef<'_>) -> Result<(), NoMemory>
        requires { IsTrue (are_zones self.old) }
        ensures fit { IsTrue (are_zones self.new) }
        ensures ok { OnOk result (zones_of self.new ≡ zones_of self.old ++ record { atoms = zone.entry.atoms.now; negated = zone.entry.negated.now } ∷ []) }
        ensures err { OnErr result (zones_of self.new ≡ zones_of self.old) }
    {
        let before = self.numbers.len();
        if self.extend(zone).is_err() {
            self.numbers.truncate(before);
            return Err(NoMemory);
        }
        Ok(())
    }

    /// Appends a zone. If an allocation fails, some of its numbers may have been appended.
    fn extend(&mut self, zone: ZoneRef<'_>) -> Result<(), AllocError>
        ensures numbers { OnOk result (self.new.numbers.items ≡ (self.old.numbers.items ++ zone.entry.atoms.now) ++ zone.entry.negated.now) }
        ensures ends { OnOk result (self.new.ends.items ≡ self.old.ends.items ++ record { atoms = length self.old.numbers.items + length zone.entry.atoms.now; negated = length self.old.numbers.items + length zone.entry.atoms.now + length zone.entry.negated.now } ∷ []) }
        ensures begun { OnErr result (take (length self.old.numbers.items) self.new.numbers.items ≡ self.old.numbers.items) }
        ensures same_ends { OnErr result (self.new.ends.items ≡ self.old.ends.items) }
    {
        self.numbers.extend_from_slice(zone.atoms)?;
        let atoms = self.numbers.len();
        self.numbers.extend_from_slice(zone.negated)?;
        let negated = self.numbers.len();
        self.ends.push(ZoneEnd { atoms, negated })?;
        Ok(())
    }

    /// The zone with this number.
    pub(crate) fn of(&self, number: usize) -> ZoneRef<'_>
        requires fit { IsTrue (are_zones self.now) }
        requires there { number < length self.now.ends.items }
        ensures { slice_get (zones_of self.now) number ≡ Some (record { atoms = result.atoms.now; negated = result.negated.now }) }
    {
        let start = self.start(number);
        let end = self.ends[number];
        ZoneRef {
            atoms: &self.numbers[start..end.atoms],
            negated: &self.numbers[end.atoms..end.negated],
        }
    }

    /// Where the zone with this number begins.
    fn start(&self, number: usize) -> usize
        requires { number < length self.now.ends.items }
        ensures { result ≡ zone_start 0 self.now.ends.items number }
    {
        if number == 0 {
            0
        } else {
            self.ends[number - 1].negated
        }
    }
}
