//! Values over zones, in memory.
ghost use Rattle.std.specs.Prelude.{◌≡◌, ◌<◌, ◌+◌, ◌++◌, ◌∷◌, [], OnErr, OnOk, IsTrue, Some, length, map, slice_get, take};
ghost use Rattle.landmark_zones.specs.Rows.{rows_of, are_rows, row_start};

use faults::NoMemory;
use std::alloc::{AllocError, Global};

/// A zone of a value, with its weight.
#[derive(Clone, Copy, Debug, PartialEq, Eq)]
pub struct Share {
    /// The zone's number, from 0.
    pub zone: u32,
    /// The weight, from 1 to 2,147,483,647.
    pub weight: u32,
}

/// Values of any size, whose shares are in one list.
#[derive(Drop)]
pub(crate) struct Values {
    pub(crate) shares: Vec<Share>,
    /// Where each value ends in it.
    pub(crate) ends: Vec<usize>,
}

impl Values {
    /// No values.
    pub(crate) fn none(alloc: Global) -> Values
        ensures none { rows_of result ≡ [] }
        ensures fit { IsTrue (are_rows result) }
    {
        Values {
            shares: Vec::new(alloc),
            ends: Vec::new(alloc),
        }
    }

    /// Appends a value. If an allocation fails, the values stay as they are.
    pub(crate) fn push(&mut self, shares: &[Share]) -> Result<(), NoMemory>
        requires { IsTrue (are_rows self.old) }
        ensures fit { IsTrue (are_rows self.new) }
        ensures ok { OnOk result (rows_of self.new ≡ rows_of self.old ++ shares.now ∷ []) }
        ensures err { OnErr result (rows_of self.new ≡ rows_of self.old) }
    {
        let before = self.shares.len();
        if self.extend(shares).is_err() {
            self.shares.truncate(before);
            return Err(NoMemory);
        }
        Ok(())
    }

    /// Appends a value. If an allocation fails, its shares may have been appended.
    fn extend(&mut self, shares: &[Share]) -> Result<(), AllocError>
        ensures shares { OnOk result (self.new.shares.items ≡ self.old.shares.items ++ shares.now) }
        ensures ends { OnOk result (self.new.ends.items ≡ self.old.ends.items ++ (length self.old.shares.items + length shares.now) ∷ []) }
        ensures begun { OnErr result (take (length self.old.shares.items) self.new.shares.items ≡ self.old.shares.items) }
        ensures same_ends { OnErr result (self.new.ends.items ≡ self.old.ends.items) }
    {
        self.shares.extend_from_slice(shares)?;
        let end = self.shares.len();
        self.ends.push(end)?;
        Ok(())
    }

    /// The shares of the value with this number.
    pub(crate) fn of(&self, number: usize) -> &[Share]
        requires fit { IsTrue (are_rows self.now) }
        requires there { number < length self.now.ends.items }
        ensures { slice_get (rows_of self.now) number ≡ Some result.now }
    {
        let start = self.start(number);
        let end = self.ends[number];
        &self.shares[start..end]
    }

    /// Where the value with this number begins.
    fn start(&self, number: usize) -> usize
        requires { number < length self.now.ends.items }
        ensures { result ≡ row_start 0 self.now.ends.items number }
    {
        if number == 0 {
            0
        } else {
            self.ends[number - 1]
        }
    }
}
