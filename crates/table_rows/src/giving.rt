//! The greatest weight of a table's rows that agree with literals, and whether one agrees.
ghost use Rattle.std.specs.Prelude.{◌≡◌, ℤ, pos, ◌<◌, All, IfOk, Some, length, map, slice_get};
ghost use Rattle.std.specs.Option.{option_map_or};
ghost use Rattle.std.specs.List.{list_any, list_all};
ghost use Rattle.grounding.specs.Views.{numbered_of};
ghost use Rattle.packed_state.specs.Packed.{bits_of};
ghost use Rattle.lower_bounds.specs.TableFunctions.{Row};
ghost use Rattle.lower_bounds.specs.FairTables as model;
ghost use Rattle.table_rows.specs.Afters.{raised};
ghost use Rattle.table_rows.specs.Fates.{IsLoss};
ghost use Rattle.table_rows.specs.Rows.{atoms_at};
ghost use Rattle.table_rows.specs.Tables.{sets_of};
ghost use Rattle.table_rows.specs.Giving.{given_by};
ghost use Rattle.table_rows.specs.Losses.{indexed_of, indexed_count_of};
ghost use Rattle.table_rows.specs.Placed as by_places;
ghost use Rattle.table_rows.specs.Placed.{placed_of, is_so};

use crate::columns::greater;
use crate::indexed::IndexedTable;
use crate::placed::{PlacedLiteral, all_are_so, placed};
use faults::NoMemory;
use grounding::NumberedLiteral;
use packed_state::Packed;
use std::alloc::Global;

impl IndexedTable<'_> {
    /// Whether a row of the table agrees with the literals.
    ///
    /// # Errors
    /// An allocation failed.
    pub fn some_agrees(&self, alloc: Global, literals: &[NumberedLiteral]) -> Result<bool, NoMemory>
        ensures { IfOk result (λ some. some ≡ list_any (λ (r : Row). model.agrees (map numbered_of literals.now) (indexed_of self.now).scope r.atoms) (indexed_of self.now).rows) }
    {
        let placed = placed(alloc, self.table.scope(), literals)?;
        let mut set = Packed::empty(alloc, self.table.width())?;
        Ok(self.some_are_so(placed.as_slice(), &mut set))
    }

    /// Whether the literals are true of a row. `set` is scratch.
    fn some_are_so(&self, literals: &[PlacedLiteral], set: &mut Packed) -> bool
        requires width { length (bits_of set.old) ≡ length (indexed_of self.now).scope }
        requires below { All (λ (l : by_places.PlacedLiteral). l.place < length (indexed_of self.now).scope) (map placed_of literals.now) }
        ensures { result ≡ list_any (λ bits. list_all (is_so bits) (map placed_of literals.now)) (sets_of self.now.table.now) }
    {
        let candidates = self.candidates(literals);
        for k in 0..candidates.len() {
            self.table.get(candidates.at(k), set);
            if all_are_so(set, literals) {
                return true;
            }
        }
        false
    }

    /// The greatest weight at this place of the rows that agree with the literals; 0 if none agrees.
    ///
    /// # Errors
    /// An allocation failed.
    pub fn gives(
        &self,
        alloc: Global,
        literals: &[NumberedLiteral],
        place: u32,
    ) -> Result<i64, NoMemory>
        requires { place < indexed_count_of self.now }
        ensures value { IfOk result (λ given. given ≡ model.table_gives place (map numbered_of literals.now) (indexed_of self.now)) }
        ensures range { IfOk result IsLoss }
    {
        let placed = placed(alloc, self.table.scope(), literals)?;
        let mut set = Packed::empty(alloc, self.table.width())?;
        let mut most = None;
        for row in 0..self.table.row_count() {
            most = self.raised_by(row as u32, placed.as_slice(), place, &mut set, most);
        }
        Ok(or_nothing(most))
    }

    /// The maximum of `most` and the row's weight, if the row agrees; else `most`. `set` is scratch.
    fn raised_by(
        &self,
        row: u32,
        literals: &[PlacedLiteral],
        place: u32,
        set: &mut Packed,
        most: Option<i64>,
    ) -> Option<i64>
        requires there { row < length (indexed_of self.now).rows }
        requires place { place < indexed_count_of self.now }
        requires width { length (bits_of set.old) ≡ length (indexed_of self.now).scope }
        requires below { All (λ (l : by_places.PlacedLiteral). l.place < length (indexed_of self.now).scope) (map placed_of literals.now) }
        ensures most { (r : Row) → slice_get (indexed_of self.now).rows row ≡ Some r
            → result ≡ given_by (map placed_of literals.now) place r (bits_of set.new) most }
        ensures set { (r : Row) → slice_get (indexed_of self.now).rows row ≡ Some r → r.atoms ≡ atoms_at (indexed_of self.now).scope (bits_of set.new) }
        ensures width { length (bits_of set.new) ≡ length (indexed_of self.now).scope }
    {
        self.table.get(row, set);
        if !all_are_so(set, literals) {
            return most;
        }
        Some(greater_of(most, self.table.weight(row, place)))
    }
}

/// The maximum of the two numbers; `number` if there is no other.
fn greater_of(most: Option<i64>, number: i64) -> i64
    ensures { result ≡ raised most number }
{
    match most {
        Some(most) => greater(most, number),
        None => number,
    }
}

/// The number; 0 if there is none.
fn or_nothing(number: Option<i64>) -> i64
    ensures { result ≡ option_map_or (λ (z : ℤ). z) number (pos 0) }
{
    match number {
        Some(number) => number,
        None => 0,
    }
}
