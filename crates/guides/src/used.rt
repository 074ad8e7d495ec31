//! The values that a certificate names, in one list.
ghost use Rattle.std.specs.Prelude.{◌≡◌, length};
ghost use Rattle.landmark_zones.specs.Landmarks.{landmarks_of};

use crate::on_demand::LandmarksOnDemand;
use faults::NoMemory;
use landmark_zones::{Landmarks, Share};
use search::Basis;
use std::alloc::Global;

/// Some of the values on demand, with numbers of their own: in the order in which they were first named. Nothing is promised of
/// them: what a certificate has is tested.
pub struct UsedValues {
    /// For each value on demand its number here, if it has one.
    numbers: Vec<Option<u32>>,
    landmarks: Landmarks,
}

impl Drop for UsedValues {
    fn drop(self) {
        let Self {
            numbers: _,
            landmarks: _,
        } = self;
    }
}

impl UsedValues {
    /// None of the values.
    ///
    /// # Errors
    /// An allocation failed.
    pub fn none(
        alloc: Global,
        values: &LandmarksOnDemand<'_, '_, '_>,
    ) -> Result<UsedValues, NoMemory> {
        Ok(UsedValues {
            numbers: vec![in alloc; None; values.count()]?,
            landmarks: Landmarks::none(alloc),
        })
    }

    /// The number of the value here, which is added if it is not here yet; `None` if there is no such value.
    ///
    /// # Errors
    /// An allocation failed.
    pub fn number_of(
        &mut self,
        alloc: Global,
        values: &LandmarksOnDemand<'_, '_, '_>,
        basis: Basis,
    ) -> Result<Option<u32>, NoMemory> {
        match self.known(basis) {
            Some(number) => Ok(Some(number)),
            None => self.add_value(alloc, values, basis),
        }
    }

    /// The number of the value here, if it has one.
    fn known(&self, basis: Basis) -> Option<u32> {
        match self.numbers.get(basis.0 as usize) {
            Some(number) => *number,
            None => None,
        }
    }

    /// Adds the value, if there is one. The result is its number here.
    fn add_value(
        &mut self,
        alloc: Global,
        values: &LandmarksOnDemand<'_, '_, '_>,
        basis: Basis,
    ) -> Result<Option<u32>, NoMemory> {
        let Some(value) = values.landmarks(basis) else {
            return Ok(None);
        };
        let number = short(self.landmarks.value_count());
        self.add(alloc, value)?;
        if let Some(found) = self.numbers.get_mut(basis.0 as usize) {
            *found = Some(number);
        }
        Ok(Some(number))
    }

    /// Appends the value, the only one of these landmarks, with its zones.
    fn add(&mut self, alloc: Global, value: &Landmarks) -> Result<(), NoMemory>
        requires { length (landmarks_of value.now).values ≡ 1 }
    {
        let first = short(self.landmarks.zone_count());
        for number in 0..value.zone_count() {
            self.landmarks.push_zone(value.zone(number))?;
        }
        let mut shares = Vec::new(alloc);
        for share in value.value(0) {
            shares.push(Share {
                zone: share.zone.saturating_add(first),
                weight: share.weight,
            })?;
        }
        self.landmarks.push_value(&shares)
    }

    /// All of them.
    pub fn into_landmarks(self) -> Landmarks {
        let Self {
            numbers: _,
            landmarks,
        } = self;
        landmarks
    }
}

/// The number in 32 bits; the greatest such number if it is too large.
fn short(number: usize) -> u32 {
    match u32::try_from(number) {
        Ok(number) => number,
        Err(_) => u32::MAX,
    }
}
