//! The rows of a state, found by its difference from another.
ghost use Rattle.std.specs.Prelude.{◌≡◌, ℕ, List, [], IfOk, length};
ghost use Rattle.packed_state.specs.Packed.{bits_of};
ghost use Rattle.packed_state.specs.Sets.{set_of};
ghost use Rattle.lower_bounds.specs.TableFunctions.{Table, has_rows};
ghost use Rattle.tables.specs.AllTables.{tables_of, count_of};
ghost use Rattle.tables.specs.KnownRows.{AreKnown, IsKnown};
ghost use Rattle.tables.specs.Projections.{AreProjections};
ghost use Rattle.tables.specs.RowSums.{AreSums};

use crate::projections::Projections;
use crate::row_sums::RowSums;
use crate::tables::IndexedTables;
use faults::NoMemory;
use packed_state::Packed;
use std::alloc::Global;

/// A state and its rows, with the sums of their weights.
#[derive(Drop)]
pub(crate) struct KnownRows {
    pub(crate) projections: Projections,
    pub(crate) sums: RowSums,
}

impl IndexedTables<'_> {
    /// The rows of the state in which none of `width` atoms is true.
    ///
    /// # Errors
    /// Where memory is refused.
    pub(crate) fn known_rows(&self, alloc: Global, width: u32) -> Result<KnownRows, NoMemory>
        ensures known { IfOk result (IsKnown (tables_of self.now) (count_of self.now)) }
        ensures state { IfOk result (λ k. bits_of k.projections.state ≡ set_of width []) }
    {
        let projections = self.projections(alloc, width)?;
        let sums = self.no_rows(alloc)?;
        let mut known = KnownRows { projections, sums };
        known.find_touched(self);
        Ok(known)
    }
}

impl KnownRows {
    /// Whether each table has a row for the state.
    pub(crate) fn are_all(&self) -> bool
        ensures { (tables : List Table) (count : ℕ) → IsKnown tables count self.now → result ≡ has_rows tables (bits_of self.now.projections.state) }
    {
        self.sums.missing == 0
    }

    /// Finds the rows of this state.
    pub(crate) fn move_to(&mut self, tables: &IndexedTables<'_>, state: &Packed)
        requires known { IsKnown (tables_of tables.now) (count_of tables.now) self.old }
        requires width { length (bits_of state.now) ≡ length (bits_of self.old.projections.state) }
        ensures known { IsKnown (tables_of tables.now) (count_of tables.now) self.new }
        ensures state { bits_of self.new.projections.state ≡ bits_of state.now }
    {
        self.projections.move_to(tables, state);
        self.find_touched(tables);
    }

    /// Finds the rows of the touched tables. No table stays touched.
    fn find_touched(&mut self, tables: &IndexedTables<'_>)
        requires projections { AreProjections (tables_of tables.now) self.old.projections }
        requires sums { AreSums (tables_of tables.now) (count_of tables.now) self.old.sums }
        requires known { AreKnown (tables_of tables.now) (bits_of self.old.projections.touched) (bits_of self.old.projections.state) self.old.sums.rows.items }
        ensures known { IsKnown (tables_of tables.now) (count_of tables.now) self.new }
        ensures state { bits_of self.new.projections.state ≡ bits_of self.old.projections.state }
    {
        let mut place = self.projections.touched.next(0);
        'touched: while place < self.projections.touched.width() {
            self.projections.touched.remove(place);
            let likely = self.sums.rows[place as usize];
            let row = self.projections.find(tables, place as usize, likely);
            self.sums.set_row(tables, place as usize, row);
            place = self.projections.touched.next(place);
        }
    }
}
