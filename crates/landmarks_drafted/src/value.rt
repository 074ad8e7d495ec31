//! The value that is being drafted.
use crate::facts::Facts;
use crate::rows::number_of;
use faults::DraftMemory;
use landmark_zones::{Landmarks, Share, ZoneRef};

/// A landmark value that is being made, zone by zone.
#[derive(Drop)]
pub(crate) struct DraftedValue {
    landmarks: Landmarks,
    shares: Vec<Share>,
}

impl DraftedValue {
    /// No zones.
    pub(crate) fn none(memory: &DraftMemory) -> DraftedValue {
        DraftedValue {
            landmarks: Landmarks::none(memory.alloc()),
            shares: memory.list(),
        }
    }

    /// Begins a value without zones.
    pub(crate) fn begin(&mut self, memory: &DraftMemory) {
        self.landmarks = Landmarks::none(memory.alloc());
        self.shares.clear();
    }

    /// Adds the zone.
    pub(crate) fn add(&mut self, memory: &DraftMemory, zone: ZoneRef<'_>, weight: u32) {
        let share = Share {
            zone: number_of(self.landmarks.zone_count()),
            weight,
        };
        memory.kept(self.landmarks.push_zone(zone));
        memory.push(&mut self.shares, share);
    }

    /// The value over its zones, which are then no longer here.
    pub(crate) fn take(&mut self, memory: &DraftMemory) -> Landmarks {
        memory.kept(self.landmarks.push_value(&self.shares));
        std::mem::replace(&mut self.landmarks, Landmarks::none(memory.alloc()))
    }
}

/// The literals of a zone.
#[derive(Drop)]
pub(crate) struct ZoneLiterals {
    atoms: Vec<u32>,
    negated: Vec<u32>,
}

impl ZoneLiterals {
    /// No literals.
    pub(crate) fn none(memory: &DraftMemory) -> ZoneLiterals {
        ZoneLiterals {
            atoms: memory.list(),
            negated: memory.list(),
        }
    }

    /// Takes the literals of these facts in place of its own.
    pub(crate) fn take(&mut self, memory: &DraftMemory, facts: &Facts, zone: &[u32]) {
        self.atoms.clear();
        self.negated.clear();
        for fact in zone {
            if let Some(literal) = facts.literal(*fact) {
                if literal.value {
                    memory.push(&mut self.atoms, literal.atom);
                } else {
                    memory.push(&mut self.negated, literal.atom);
                }
            }
        }
        self.atoms.sort_unstable();
        self.negated.sort_unstable();
    }

    /// The zone.
    pub(crate) fn zone(&self) -> ZoneRef<'_> {
        ZoneRef {
            atoms: &self.atoms,
            negated: &self.negated,
        }
    }
}
