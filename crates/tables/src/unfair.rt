//! The first of several values that is not fair for an instance.
ghost use Rattle.std.specs.Prelude.{◌≡◌, ◌<◌, IfOk, Some, length, slice_get};
ghost use Rattle.grounding.specs.Ground.{task_in, atoms_in};
ghost use Rattle.model.specs.NumberedLiterals.{literals_of_number};
ghost use Rattle.model.specs.ConditionalChanges.{conditional_of_number};
ghost use Rattle.model.specs.Task.{Instance};
ghost use Rattle.model.specs.StaticallyFalse.{kept_instances};
ghost use Rattle.lower_bounds.specs.FairTables.{IsFairAt};
ghost use Rattle.tables.specs.AllTables.{tables_of, count_of};
ghost use Rattle.tables.specs.Several.{several_of, width_of};
ghost use Rattle.tables.specs.TotalLosses.{AreLossesByAll, IsKnownAfter};
ghost use Rattle.tables.specs.Unfair.{function_in, allowance_in, places_in, earlier_of, IsFairIn, IsFirstOf, IsFirstUnfairValue};
ghost use Rattle.tables.specs.Unfair as model;

use crate::losses::{Losses, Standing};
use crate::several::TableFunctions;
use faults::NoMemory;
use grounding::{Ground, instance_count};
use std::alloc::Global;

/// The first of several values that is not fair for an instance, and the first such instance.
#[derive(Clone, Copy)]
pub(crate) struct Unfair {
    /// The value's place, from 0. That for dead ends is the last.
    pub(crate) place: u32,
    /// The instance's number.
    pub(crate) number: u32,
}

/// The number of instances that a table is applied to before the next table is.
const BLOCK: u32 = 512;

impl TableFunctions<'_> {
    /// The first value that is not fair for a kept instance, and the first such instance, if there is one.
    ///
    /// # Errors
    /// An allocation failed.
    pub(crate) fn first_unfair(
        &self,
        alloc: Global,
        ground: &Ground<'_>,
    ) -> Result<Option<Unfair>, NoMemory>
        requires { width_of self.now ≡ length (atoms_in ground.now) }
        ensures { IfOk result (IsFirstUnfairValue (task_in ground.now) (atoms_in ground.now) (several_of self.now)) }
    {
        let count = instance_count(ground);
        let mut first = None;
        for block in 0..count / BLOCK + 1 {
            let start = block * BLOCK;
            let losses = self
                .tables
                .losses(alloc, ground, start, BLOCK.min(count - start))?;
            for index in 0..losses.len() {
                let place = self.first_place(ground, &losses[index]);
                first = earlier(first, place, start + index as u32);
            }
            if self.places_before(first) == 0 {
                return Ok(first);
            }
        }
        Ok(first)
    }

    /// The number of values before this one; of all values, with that for dead ends, if there is none.
    pub(crate) fn places_before(&self, first: Option<Unfair>) -> u32
        ensures { result ≡ model.places_before (places_in (several_of self.now)) first }
    {
        match first {
            Some(unfair) => unfair.place,
            None => self.tables.weight_count(),
        }
    }

    /// The place of the first value that is not fair for the instance with these losses by all tables, if there is one.
    fn first_place(&self, ground: &Ground<'_>, losses: &Losses) -> Option<u32>
        requires fits { width_of self.now ≡ length (atoms_in ground.now) }
        requires known { IsKnownAfter self.now.tables (task_in ground.now) (atoms_in ground.now) (length (tables_of self.now.tables)) losses.now }
        ensures { (i : Instance) → slice_get (kept_instances (task_in ground.now)) losses.now.number ≡ Some i
            → IsFirstOf (λ k. IsFairIn (task_in ground.now) (atoms_in ground.now) (several_of self.now) k i) (places_in (several_of self.now)) result }
    {
        match losses.standing {
            Standing::ShutOut => None,
            Standing::LeadsOut => Some(0),
            Standing::Stays => self.first_place_with(ground, losses.number, &losses.total),
        }
    }

    /// The same for an instance that stays on rows, by its number and its greatest losses.
    fn first_place_with(&self, ground: &Ground<'_>, number: u32, total: &[i64]) -> Option<u32>
        requires fits { width_of self.now ≡ length (atoms_in ground.now) }
        requires within { number < length (kept_instances (task_in ground.now)) }
        requires long { length total.now ≡ count_of self.now.tables }
        requires lost { AreLossesByAll (count_of self.now.tables) (literals_of_number (task_in ground.now) (atoms_in ground.now) number) (conditional_of_number (task_in ground.now) (atoms_in ground.now) number) (tables_of self.now.tables) total.now }
        ensures { (i : Instance) → slice_get (kept_instances (task_in ground.now)) number ≡ Some i
            → IsFirstOf (λ k. IsFairAt (allowance_in (task_in ground.now) (several_of self.now) k i) (task_in ground.now) (atoms_in ground.now) (function_in (several_of self.now) k) i) (places_in (several_of self.now)) result }
    {
        for place in 0..self.tables.weight_count() {
            let value = self.value_at(place);
            if !value.is_fair_with(ground, number, total[place as usize]) {
                return Some(place);
            }
        }
        None
    }
}

/// The first value so far, or that at this place, which is not fair for the next instance, if its place is lesser.
fn earlier(first: Option<Unfair>, place: Option<u32>, number: u32) -> Option<Unfair>
    ensures { result ≡ earlier_of first place number }
{
    match place {
        Some(place) => Some(least_of(first, Unfair { place, number })),
        None => first,
    }
}

/// The one whose value has the lesser place; `first`, if it is the same.
fn least_of(first: Option<Unfair>, next: Unfair) -> Unfair
    ensures { result ≡ model.least_of first next }
{
    match first {
        Some(unfair) => {
            if next.place < unfair.place {
                next
            } else {
                unfair
            }
        }
        None => next,
    }
}
