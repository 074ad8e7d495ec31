//! Tables in memory.
ghost use Rattle.std.specs.Prelude.{◌≡◌, ◌*◌, ◌<◌, ◌≤◌, ◌^◌, IsTrue, length};
ghost use Rattle.packed_state.specs.PooledView.{pooled_width, pooled_states};
ghost use Rattle.std.proofs.Props.{props};
ghost use Rattle.table_rows.specs.Rows as rows_in_memory;

use crate::rows::Rows;
use faults::NoMemory;
use packed_state::{Packed, StateStore};
use std::alloc::Global;

/// A table: a scope, which is a rising list of atom numbers, and rows. A row is a set of atoms of the scope, by their indices in it,
/// with a weight for each value.
pub struct Table {
    scope: Vec<u32>,
    count: u32,
    rows: Rows,
    ghost few: { length scope.items < 2 ^ 32 },
    ghost rising: { IsTrue (rows_in_memory.are_rising scope.items) } by { Prim.hlevel props },
    ghost wide: { pooled_width rows.sets ≡ length scope.items } by { Prim.hlevel props },
    ghost weighed: { length rows.weights.items ≡ count * length (pooled_states rows.sets) } by { Prim.hlevel props },
}

impl Drop for Table {
    fn drop(self) {
        let Self {
            scope: _,
            count: _,
            rows: _,
        } = self;
    }
}

impl Table {
    ghost use Rattle.std.specs.Prelude.{[], IfOk, IfSome, OnErr, MatchOption, None, Some, slice_get};
    ghost use Rattle.packed_state.specs.Packed.{bits_of};
    ghost use Rattle.lower_bounds.specs.TableFunctions.{Row, row_of, weight_at};
    ghost use Rattle.table_rows.specs.Tables.{table_of, sets_of, weight_count_of, IsInserted};

    /// An empty table over this scope, rising, whose rows will have `count` weights.
    ///
    /// # Errors
    /// Where memory is refused.
    pub fn new(alloc: Global, scope: Vec<u32>, count: u32) -> Result<Table, NoMemory>
        requires rising { IsTrue (rows_in_memory.are_rising scope.items) }
        requires few { length scope.items < 2 ^ 32 }
        ensures table { IfOk result (λ t. table_of t ≡ record { scope = scope.items; rows = [] }) }
        ensures count { IfOk result (λ t. weight_count_of t ≡ count) }
    {
        let rows = Rows::new(alloc, scope.len() as u32)?;
        Ok(Table { scope, count, rows })
    }

    /// The atoms of its scope, rising.
    pub fn scope(&self) -> &[u32]
        ensures { result.now ≡ (table_of self.now).scope }
    {
        &self.scope
    }

    /// The number of atoms in its scope.
    pub fn width(&self) -> u32
        ensures { result ≡ length (table_of self.now).scope }
    {
        self.scope.len() as u32
    }

    /// The number of weights of each row.
    pub fn weight_count(&self) -> u32
        ensures { result ≡ weight_count_of self.now }
    {
        self.count
    }

    /// The number of rows.
    pub fn row_count(&self) -> usize
        ensures rows { result ≡ length (table_of self.now).rows }
        ensures few { result ≤ 16777216 }
    {
        self.rows.sets.len()
    }

    /// The number of the row with this set, from 0, if there is one.
    pub fn find(&self, set: &Packed) -> Option<u32>
        requires { length (bits_of set.now) ≡ length (table_of self.now).scope }
        ensures there { IfSome result (λ place. place < length (table_of self.now).rows) }
        ensures row { MatchOption result
            (row_of (table_of self.now) (rows_in_memory.atoms_at (table_of self.now).scope (bits_of set.now)) ≡ None)
            (λ place. slice_get (table_of self.now).rows place ≡ row_of (table_of self.now) (rows_in_memory.atoms_at (table_of self.now).scope (bits_of set.now))) }
    {
        self.rows.sets.find(set)
    }

    /// Copies the set of this row.
    pub fn get(&self, row: u32, set: &mut Packed)
        requires there { row < length (table_of self.now).rows }
        requires width { length (bits_of set.old) ≡ length (table_of self.now).scope }
        ensures atoms { (r : Row) → slice_get (table_of self.now).rows row ≡ Some r → r.atoms ≡ rows_in_memory.atoms_at (table_of self.now).scope (bits_of set.new) }
        ensures set { slice_get (sets_of self.now) row ≡ Some (bits_of set.new) }
        ensures width { length (bits_of set.new) ≡ length (table_of self.now).scope }
    {
        self.rows.sets.get(row, set);
    }

    /// The weight of this row for the value at `place`.
    pub fn weight(&self, row: u32, place: u32) -> i64
        requires there { row < length (table_of self.now).rows }
        requires place { place < weight_count_of self.now }
        ensures { (r : Row) → slice_get (table_of self.now).rows row ≡ Some r → result ≡ weight_at place r }
    {
        let start = self.count as usize * row as usize;
        self.rows.weights[start + place as usize]
    }

    /// All weights of this row.
    pub fn weights(&self, row: u32) -> &[i64]
        requires { row < length (table_of self.now).rows }
        ensures { (r : Row) → slice_get (table_of self.now).rows row ≡ Some r → result.now ≡ r.weights }
    {
        let count = self.count as usize;
        let start = count * row as usize;
        &self.rows.weights[start..start + count]
    }

    /// Appends the row with this set and these weights, or returns `false` if a row has the set. Where memory is refused the table is
    /// unchanged.
    ///
    /// # Errors
    /// Where memory is refused.
    pub fn insert(&mut self, set: &Packed, weights: &[i64]) -> Result<bool, NoMemory>
        requires width { length (bits_of set.now) ≡ length (table_of self.old).scope }
        requires weights { length weights.now ≡ weight_count_of self.old }
        requires room { length (table_of self.old).rows < 16777216 }
        ensures ok { IfOk result (IsInserted (table_of self.old) (table_of self.new) (record { atoms = rows_in_memory.atoms_at (table_of self.old).scope (bits_of set.now); weights = weights.now })) }
        ensures count { weight_count_of self.new ≡ weight_count_of self.old }
        ensures err { OnErr result (table_of self.new ≡ table_of self.old) }
    {
        self.rows.push(set, weights)
    }
}
