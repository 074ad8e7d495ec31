//! The sets that an instance may make of a row.
ghost use Rattle.std.specs.Prelude.{◌≡◌, IfOk, OnOk, length, map, nat_le};
ghost use Rattle.packed_state.specs.Packed.{bits_of};
ghost use Rattle.table_rows.specs.Afters as model;
ghost use Rattle.table_rows.specs.Afters.{left_of, free_places, AreListed};
ghost use Rattle.table_rows.specs.FitsTable.{HasWidth};
ghost use Rattle.table_rows.specs.PlacedChanges.{when_of, changes_of, FitsWhen, FitsWidth};

use crate::placed::{PlacedLiteral, all_are_so};
use faults::NoMemory;
use packed_state::{Mask, Packed};
use std::alloc::Global;

/// A change under a `when` of one of a scope's atoms.
#[derive(Drop)]
pub(crate) struct When {
    /// The atom's place in the scope, from 0.
    pub(crate) place: u32,
    /// Whether it becomes true.
    pub(crate) value: bool,
    /// The condition's literals of the scope's atoms.
    pub(crate) condition: Vec<PlacedLiteral>,
}

/// An instance's changes of a scope's atoms.
pub(crate) struct PlacedChanges {
    /// The places that are deleted unconditionally.
    pub(crate) deletes: Mask,
    /// The places that are added unconditionally.
    pub(crate) adds: Mask,
    /// The changes under a `when` of places that are not added unconditionally.
    pub(crate) whens: Vec<When>,
}

impl Drop for PlacedChanges {
    fn drop(self) {
        let Self {
            deletes: _,
            adds: _,
            whens: _,
        } = self;
    }
}

/// Free places enough for more ways than a table can have rows, 2^24.
const ENOUGH: usize = 25;

/// Scratch for one row: the row, what unconditional changes make of it, and its free places: those that changes under a
/// `when` may still turn.
pub(crate) struct Scratch {
    pub(crate) row: Packed,
    pub(crate) left: Packed,
    pub(crate) free: Vec<u32>,
}

impl Drop for Scratch {
    fn drop(self) {
        let Self {
            row: _,
            left: _,
            free: _,
        } = self;
    }
}

impl Scratch {
    /// Scratch for rows of this width.
    pub(crate) fn new(alloc: Global, width: u32) -> Result<Scratch, NoMemory>
        ensures { IfOk result (HasWidth width) }
    {
        let row = Packed::empty(alloc, width)?;
        let left = Packed::empty(alloc, width)?;
        let free = Vec::new(alloc);
        Ok(Scratch { row, left, free })
    }

    /// Finds what the changes make of the row, and the row's free places, or enough of them.
    pub(crate) fn find(&mut self, changes: &PlacedChanges) -> Result<(), NoMemory>
        requires fits { FitsWidth (length (bits_of self.old.row)) (changes_of changes.now) }
        requires left { length (bits_of self.old.left) ≡ length (bits_of self.old.row) }
        ensures row { OnOk result (bits_of self.new.row ≡ bits_of self.old.row) }
        ensures left { OnOk result (bits_of self.new.left ≡ left_of (changes_of changes.now) (bits_of self.old.row)) }
        ensures free { OnOk result (AreListed (free_places (changes_of changes.now).whens (bits_of self.old.row) (left_of (changes_of changes.now) (bits_of self.old.row))) self.new.free.items) }
    {
        self.left.copy_from(&self.row);
        changes.leave(&mut self.left);
        changes.list_free(&self.row, &self.left, &mut self.free)?;
        Ok(())
    }
}

impl PlacedChanges {
    /// Applies the unconditional changes to the row.
    pub(crate) fn leave(&self, row: &mut Packed)
        requires { FitsWidth (length (bits_of row.old)) (changes_of self.now) }
        ensures { bits_of row.new ≡ left_of (changes_of self.now) (bits_of row.old) }
    {
        row.change(&self.deletes, &self.adds);
    }

    /// Replaces `free` by the row's free places: those that a change under a `when` would turn whose condition the row does not
    /// contradict. Stops at [`ENOUGH`].
    pub(crate) fn list_free(
        &self,
        row: &Packed,
        left: &Packed,
        free: &mut Vec<u32>,
    ) -> Result<(), NoMemory>
        requires row { FitsWidth (length (bits_of row.now)) (changes_of self.now) }
        requires left { length (bits_of left.now) ≡ length (bits_of row.now) }
        ensures { OnOk result (AreListed (free_places (changes_of self.now).whens (bits_of row.now) (bits_of left.now)) free.new.items) }
    {
        free.clear();
        for when in &self.whens {
            if are_enough(free.len()) {
                return Ok(());
            }
            when.add_free(row, left, free)?;
        }
        Ok(())
    }
}

impl When {
    /// Adds its place, if that is free by it and not there yet.
    fn add_free(&self, row: &Packed, left: &Packed, free: &mut Vec<u32>) -> Result<(), NoMemory>
        requires fits { FitsWhen (length (bits_of row.now)) (when_of self.now) }
        requires left { length (bits_of left.now) ≡ length (bits_of row.now) }
        ensures { OnOk result (free.new.items ≡ model.freed (bits_of row.now) (bits_of left.now) free.old.items (when_of self.now)) }
    {
        if free.contains(&self.place) {
            return Ok(());
        }
        if !self.turns(row, left) {
            return Ok(());
        }
        free.push(self.place)?;
        Ok(())
    }

    /// Whether the row does not contradict its condition, and it would change what is left.
    fn turns(&self, row: &Packed, left: &Packed) -> bool
        requires fits { FitsWhen (length (bits_of row.now)) (when_of self.now) }
        requires left { length (bits_of left.now) ≡ length (bits_of row.now) }
        ensures { result ≡ model.turns (bits_of row.now) (bits_of left.now) (when_of self.now) }
    {
        left.has(self.place) != self.value && all_are_so(row, &self.condition)
    }
}

/// Whether free places that are this many give more ways than a table can have rows.
fn are_enough(places: usize) -> bool
    ensures { result ≡ nat_le 25 places }
{
    places >= ENOUGH
}
