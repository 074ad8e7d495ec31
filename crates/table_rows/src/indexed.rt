//! Tables with an index of their rows by atom.
ghost use Rattle.std.specs.Prelude.{◌≡◌, ℕ, ◌<◌, ◌⊎◌, true, All, IfOk, length, map, slice_get, Some};
ghost use Rattle.std.proofs.Props.{props};
ghost use Rattle.packed_state.specs.Packed.{bits_of};
ghost use Rattle.lower_bounds.specs.PotentialFunctions.{IsInRange};
ghost use Rattle.lower_bounds.specs.TableFunctions.{Row};
ghost use Rattle.table_rows.specs.Lists.{list_at, IsIndexOf};
ghost use Rattle.table_rows.specs.Tables.{table_of, sets_of};

use crate::candidates::Candidates;
use crate::lists::Lists;
use crate::placed::PlacedLiteral;
use crate::table::Table;
use faults::NoMemory;
use packed_state::Packed;
use std::alloc::Global;

/// A table and, for each atom of its scope, the rows in which the atom is true.
#[derive(Drop)]
pub struct IndexedTable<'a> {
    pub(crate) table: &'a Table,
    index: Lists,
    ghost indexed: { IsIndexOf (sets_of table.now) (length (sets_of table.now)) index } by { Prim.hlevel props },
    ghost in_range: { All (λ (r : Row). All IsInRange r.weights) (table_of table.now).rows } by { Prim.hlevel props },
}

impl<'a> IndexedTable<'a> {
    ghost use Rattle.table_rows.specs.Candidates.{candidates_of, AreCandidates};
    ghost use Rattle.table_rows.specs.Tables.{weight_count_of};
    ghost use Rattle.table_rows.specs.Losses.{indexed_of, indexed_count_of};
    ghost use Rattle.table_rows.specs.Placed as by_places;
    ghost use Rattle.table_rows.specs.Placed.{placed_of};

    /// Indexes the table. Its weights are from -2147483647 to 2147483647.
    ///
    /// # Errors
    /// An allocation failed.
    pub fn new(alloc: Global, table: &'a Table) -> Result<IndexedTable<'a>, NoMemory>
        requires { All (λ (r : Row). All IsInRange r.weights) (table_of table.now).rows }
        ensures table { IfOk result (λ t. indexed_of t ≡ table_of table.now) }
        ensures count { IfOk result (λ t. indexed_count_of t ≡ weight_count_of table.now) }
    {
        let index = index_of(alloc, table)?;
        Ok(IndexedTable { table, index })
    }

    /// The table.
    pub fn table(&self) -> &'a Table
        ensures { result.now ≡ self.now.table.now }
    {
        self.table
    }

    /// The rows of the rarest atom that a literal requires to be true; all rows if none does.
    pub(crate) fn candidates(&self, literals: &[PlacedLiteral]) -> Candidates<'_>
        ensures { AreCandidates (sets_of self.now.table.now) (map placed_of literals.now) (candidates_of result) }
    {
        let mut best = Candidates::All(self.table.row_count() as u32);
        for literal in literals {
            best = self.narrowed(best, literal);
        }
        best
    }

    /// The rows of the literal's atom, if it is to be true and has fewer rows than `best`; else `best`.
    fn narrowed<'b>(&'b self, best: Candidates<'b>, literal: &PlacedLiteral) -> Candidates<'b>
        ensures { (candidates_of result ≡ candidates_of best.entry) ⊎ ((candidates_of result ≡ list_at self.now.index literal.now.place) × (literal.now.value ≡ true)) }
    {
        if !literal.value {
            return best;
        }
        let rows = self.index.of(literal.place);
        if rows.len() >= best.len() {
            return best;
        }
        Candidates::These(rows)
    }
}

/// For each atom of the table's scope, by its place there, the rows in which it is true.
fn index_of(alloc: Global, table: &Table) -> Result<Lists, NoMemory>
    ensures { IfOk result (IsIndexOf (sets_of table.now) (length (sets_of table.now))) }
{
    let width = table.width();
    let mut index = Lists::empty(alloc, width)?;
    let mut set = Packed::empty(alloc, width)?;
    for row in 0..table.row_count() {
        table.get(row as u32, &mut set);
        index.file(&set, row as u32)?;
    }
    Ok(index)
}
