//! Rows of tables, and the sums of their weights.
ghost use Rattle.std.specs.Prelude.{◌≡◌, ℕ, ◌<◌, All, IfOk, IfSome, None, Some, length, replicate, slice_get, slice_index_or, slice_set};
ghost use Rattle.lower_bounds.specs.TableFunctions.{Table};
ghost use Rattle.table_rows.specs.Fates.{IsLoss};
ghost use Rattle.tables.specs.AllTables.{tables_of, count_of};
ghost use Rattle.tables.specs.RowSums.{AreAdded, AreSums, IsSmall};

use crate::tables::IndexedTables;
use faults::NoMemory;
use std::alloc::Global;

/// A row of each table, or none, and the sums of their weights.
#[derive(Drop)]
pub(crate) struct RowSums {
    /// For each table the number of its row, if there is one.
    pub(crate) rows: Vec<Option<u32>>,
    /// The number of tables without one.
    pub(crate) missing: usize,
    /// For each value the sum of the rows' weights.
    pub(crate) totals: Vec<i64>,
}

impl IndexedTables<'_> {
    /// No rows.
    ///
    /// # Errors
    /// Where memory is refused.
    pub(crate) fn no_rows(&self, alloc: Global) -> Result<RowSums, NoMemory>
        ensures { IfOk result (AreSums (tables_of self.now) (count_of self.now)) }
    {
        let missing = self.tables().len();
        let mut rows = Vec::new(alloc);
        for _ in 0..missing {
            rows.push(None)?;
        }
        let totals = vec![in alloc; 0; self.weight_count() as usize]?;
        Ok(RowSums {
            rows,
            missing,
            totals,
        })
    }
}

impl RowSums {
    /// Replaces the row of the table at this place.
    pub(crate) fn set_row(&mut self, tables: &IndexedTables<'_>, place: usize, row: Option<u32>)
        requires sums { AreSums (tables_of tables.now) (count_of tables.now) self.old }
        requires there { place < length (tables_of tables.now) }
        requires row { (t : Table) → slice_get (tables_of tables.now) place ≡ Some t → IfSome row (λ row. row < length t.rows) }
        ensures sums { AreSums (tables_of tables.now) (count_of tables.now) self.new }
        ensures rows { self.new.rows.items ≡ slice_set self.old.rows.items place row }
    {
        if self.rows[place] == row {
            return;
        }
        self.take_off(tables, place);
        match row {
            Some(row) => self.put_on(tables, place, row),
            None => {}
        }
    }

    /// Removes the row of the table at this place, if there is one.
    fn take_off(&mut self, tables: &IndexedTables<'_>, place: usize)
        requires sums { AreSums (tables_of tables.now) (count_of tables.now) self.old }
        requires there { place < length (tables_of tables.now) }
        ensures sums { AreSums (tables_of tables.now) (count_of tables.now) self.new }
        ensures rows { self.new.rows.items ≡ slice_set self.old.rows.items place None }
    {
        match self.rows[place] {
            Some(row) => {
                take_each(&mut self.totals, tables.table(place).weights(row));
                self.missing += 1;
                self.rows[place] = None;
            }
            None => {}
        }
    }

    /// Adds the row of the table at this place, which has none.
    fn put_on(&mut self, tables: &IndexedTables<'_>, place: usize, row: u32)
        requires sums { AreSums (tables_of tables.now) (count_of tables.now) self.old }
        requires there { place < length (tables_of tables.now) }
        requires none { slice_index_or self.old.rows.items place None ≡ None }
        requires row { (t : Table) → slice_get (tables_of tables.now) place ≡ Some t → row < length t.rows }
        ensures sums { AreSums (tables_of tables.now) (count_of tables.now) self.new }
        ensures rows { self.new.rows.items ≡ slice_set self.old.rows.items place (Some row) }
    {
        add_each(&mut self.totals, tables.table(place).weights(row));
        self.missing -= 1;
        self.rows[place] = Some(row);
    }
}

/// Adds the weights to the totals, place by place.
pub(crate) fn add_each(totals: &mut Vec<i64>, weights: &[i64])
    requires long { length weights.now ≡ length totals.old.items }
    requires range { All IsLoss weights.now }
    requires small { All IsSmall totals.old.items }
    ensures { AreAdded totals.old.items weights.now totals.new.items }
{
    for place in 0..weights.len() {
        totals[place] += weights[place];
    }
}

/// Subtracts the weights from the totals, place by place.
fn take_each(totals: &mut Vec<i64>, weights: &[i64])
    requires long { length weights.now ≡ length totals.old.items }
    requires range { All IsLoss weights.now }
    requires small { All IsSmall totals.old.items }
    ensures { AreAdded totals.new.items weights.now totals.old.items }
{
    for place in 0..weights.len() {
        totals[place] -= weights[place];
    }
}
