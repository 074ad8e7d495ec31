//! Rows given by their atoms.
ghost use Rattle.std.specs.Prelude.{◌≡◌, ◌<◌, IsTrue, IfOk, OnErr, OnOk, Some, length, slice_get};
ghost use Rattle.packed_state.specs.Packed.{bits_of};
ghost use Rattle.lower_bounds.specs.TableFunctions.{Row};
ghost use Rattle.table_rows.specs.Rows.{are_rising};
ghost use Rattle.table_rows.specs.Tables.{table_of, weight_count_of};

use crate::places::{list_atoms, set_of};
use crate::table::Table;
use faults::NoMemory;
use packed_state::Packed;
use std::alloc::Global;

/// The outcome of adding a row.
#[derive(Clone, Copy, Debug, PartialEq, Eq)]
pub enum Added {
    /// It was added as the last row.
    New,
    /// Not added: an atom is not in the scope.
    OutsideScope,
    /// Not added: a row has exactly these atoms.
    Repeated,
}

impl Table {
    ghost use Rattle.table_rows.specs.Adding.{IsAdded};

    /// Replaces `atoms` by the atoms of this row, rising. `set` is scratch, as wide as the scope.
    ///
    /// # Errors
    /// Where memory is refused.
    pub fn list_atoms(
        &self,
        row: u32,
        set: &mut Packed,
        atoms: &mut Vec<u32>,
    ) -> Result<(), NoMemory>
        requires there { row < length (table_of self.now).rows }
        requires width { length (bits_of set.old) ≡ length (table_of self.now).scope }
        ensures atoms { (r : Row) → slice_get (table_of self.now).rows row ≡ Some r → OnOk result (atoms.new.items ≡ r.atoms) }
        ensures width { length (bits_of set.new) ≡ length (table_of self.now).scope }
    {
        self.get(row, set);
        atoms.clear();
        list_atoms(self.scope(), set, atoms)
    }

    /// Appends the row of these atoms, rising, with these weights. The table is unchanged where the row is not added.
    ///
    /// # Errors
    /// Where memory is refused.
    pub fn add(&mut self, alloc: Global, atoms: &[u32], weights: &[i64]) -> Result<Added, NoMemory>
        requires rising { IsTrue (are_rising atoms.now) }
        requires weights { length weights.now ≡ weight_count_of self.old }
        requires room { length (table_of self.old).rows < 16777216 }
        ensures ok { IfOk result (IsAdded (table_of self.old) (table_of self.new) (record { atoms = atoms.now; weights = weights.now })) }
        ensures count { weight_count_of self.new ≡ weight_count_of self.old }
        ensures err { OnErr result (table_of self.new ≡ table_of self.old) }
    {
        let Some(set) = set_of(alloc, self.scope(), atoms)? else {
            return Ok(Added::OutsideScope);
        };
        if self.insert(&set, weights)? {
            Ok(Added::New)
        } else {
            Ok(Added::Repeated)
        }
    }
}
