//! Tables with indexes of their scopes and rows.
ghost use Rattle.std.specs.Prelude.{◌≡◌, ◌<◌, ◌^◌, IsTrue, All, IfOk, length, map};
ghost use Rattle.std.proofs.Props.{props};
ghost use Rattle.lower_bounds.specs.TableLaws.{are_over};
ghost use Rattle.table_rows.specs.declared.indexed.IndexedTable as declared;
ghost use Rattle.table_rows.specs.Losses.{indexed_of, indexed_count_of};
ghost use Rattle.tables.specs.RowIndex.{indexed_in};
ghost use Rattle.tables.specs.ByAtom.{IsByAtom};
ghost use Rattle.tables.specs.ScopePlaces.{scopes_of, AreScopePlaces};

use crate::row_index::RowIndex;
use crate::scope_places::{ScopePlace, ScopePlaces};
use faults::NoMemory;
use grounding::{CountingChange, NumberedLiteral};
use packed_state::Packed;
use std::alloc::Global;
use table_rows::{IndexedTable, Lists, Table};

/// Tables whose rows have a weight for each value. Tables and indices in scopes are listed by atom, rows by key.
pub struct IndexedTables<'a> {
    tables: Vec<IndexedTable<'a>>,
    count: u32,
    rows: Vec<RowIndex<'a>>,
    by_atom: Lists,
    scope_places: ScopePlaces,
    ghost few: { length tables.items < 2 ^ 24 },
    ghost counts: { All (λ (t : declared.IndexedTable). indexed_count_of t ≡ count) tables.items } by { Prim.hlevel props },
    ghost rows_of_each: { map indexed_in rows.items ≡ map indexed_of tables.items } by { Prim.hlevel props },
    ghost named: { IsByAtom (map indexed_of tables.items) (length tables.items) by_atom } by { Prim.hlevel props },
    ghost placed: { AreScopePlaces (scopes_of (map indexed_of tables.items)) scope_places } by { Prim.hlevel props },
}

impl Drop for IndexedTables<'_> {
    fn drop(self) {
        let Self {
            tables: _,
            count: _,
            rows: _,
            by_atom: _,
            scope_places: _,
        } = self;
    }
}

impl<'a> IndexedTables<'a> {
    ghost use Rattle.std.specs.Prelude.{◌∷◌, [], ℕ, ℤ, pos, neg_ℤ, ◌*◌, ◌≤ℤ◌, OnOk, Some, slice_get};
    ghost use Rattle.std.specs.List.{list_any};
    ghost use Rattle.grounding.specs.Changes.{counting_of, conditional_of};
    ghost use Rattle.grounding.specs.Views.{numbered_of};
    ghost use Rattle.model.specs.NumberedLiterals as numbered;
    ghost use Rattle.packed_state.specs.Packed.{bits_of};
    ghost use Rattle.lower_bounds.specs.PotentialFunctions.{IsInRange};
    ghost use Rattle.lower_bounds.specs.TableFunctions as functions;
    ghost use Rattle.lower_bounds.specs.TableFunctions.{Row, sum_over};
    ghost use Rattle.table_rows.specs.declared.table.Table as in_memory;
    ghost use Rattle.table_rows.specs.Tables.{table_of, weight_count_of};
    ghost use Rattle.lower_bounds.specs.FairTables as model;
    ghost use Rattle.tables.specs.AllTables.{tables_of, count_of};
    ghost use Rattle.tables.specs.ByAtom.{AreMarked};
    ghost use Rattle.tables.specs.ScopePlaces.{places_of};

    /// Indexes these tables over `width` atoms, whose rows have `count` weights.
    ///
    /// # Errors
    /// Where memory is refused.
    pub fn new(
        alloc: Global,
        width: u32,
        count: u32,
        tables: Vec<IndexedTable<'a>>,
    ) -> Result<IndexedTables<'a>, NoMemory>
        requires few { length tables.items < 2 ^ 24 }
        requires counts { All (λ (t : declared.IndexedTable). indexed_count_of t ≡ count) tables.items }
        requires scopes { IsTrue (are_over width (map indexed_of tables.items)) }
        ensures tables { IfOk result (λ all. tables_of all ≡ map indexed_of tables.entry.items) }
        ensures count { IfOk result (λ all. count_of all ≡ count) }
    {
        let by_atom = by_atom(alloc, width, &tables)?;
        let scope_places = ScopePlaces::new(alloc, width, &tables)?;
        let rows = row_indexes(alloc, &tables)?;
        Ok(IndexedTables {
            tables,
            count,
            rows,
            by_atom,
            scope_places,
        })
    }

    /// Indexes these tables over `width` atoms, whose rows have `count` weights from -2147483647 to 2147483647.
    ///
    /// # Errors
    /// Where memory is refused.
    pub fn index(
        alloc: Global,
        width: u32,
        count: u32,
        tables: &'a [Table],
    ) -> Result<IndexedTables<'a>, NoMemory>
        requires few { length tables.now < 2 ^ 24 }
        requires counts { All (λ (t : in_memory.Table). weight_count_of t ≡ count) tables.now }
        requires range { All (λ (t : in_memory.Table). All (λ (r : Row). All IsInRange r.weights) (table_of t).rows) tables.now }
        requires scopes { IsTrue (are_over width (map table_of tables.now)) }
        ensures tables { IfOk result (λ all. tables_of all ≡ map table_of tables.now) }
        ensures count { IfOk result (λ all. count_of all ≡ count) }
    {
        let mut indexed = Vec::new(alloc);
        for table in tables {
            indexed.push(IndexedTable::new(alloc, table)?)?;
        }
        IndexedTables::new(alloc, width, count, indexed)
    }

    /// The tables.
    pub(crate) fn tables(&self) -> &[IndexedTable<'a>]
        ensures { result.now ≡ self.now.tables.items }
    {
        &self.tables
    }

    /// The table with this number, from 0.
    pub(crate) fn table(&self, place: usize) -> &'a Table
        requires { place < length (tables_of self.now) }
        ensures table { slice_get (tables_of self.now) place ≡ Some (table_of result.now) }
        ensures count { weight_count_of result.now ≡ count_of self.now }
        ensures range { All (λ (r : Row). All IsInRange r.weights) (table_of result.now).rows }
    {
        self.tables[place].table()
    }

    /// The rows of the table with this number, from 0.
    pub(crate) fn rows(&self, place: usize) -> &RowIndex<'a>
        requires { place < length (tables_of self.now) }
        ensures { slice_get (tables_of self.now) place ≡ Some (indexed_in result.now) }
    {
        &self.rows[place]
    }

    /// Where the atom occurs in scopes.
    pub(crate) fn places_of(&self, number: u32) -> &[ScopePlace]
        ensures { result.now ≡ places_of self.now.scope_places number }
    {
        self.scope_places.of(number)
    }

    /// The number of tables.
    pub fn len(&self) -> usize
        ensures { result ≡ length (tables_of self.now) }
    {
        self.tables.len()
    }

    /// The number of weights of each row.
    pub fn weight_count(&self) -> u32
        ensures { result ≡ count_of self.now }
    {
        self.count
    }

    /// Whether the literals are shut out: some table has no row that agrees with them.
    ///
    /// # Errors
    /// Where memory is refused.
    pub fn is_shut_out(&self, alloc: Global, literals: &[NumberedLiteral]) -> Result<bool, NoMemory>
        ensures { IfOk result (λ out. out ≡ model.is_shut_out (map numbered_of literals.now) (tables_of self.now)) }
    {
        let named = self.named_by_literals(alloc, literals)?;
        for table in 0..self.tables.len() {
            if !self.agrees_in(alloc, table, &named, literals)? {
                return Ok(true);
            }
        }
        Ok(false)
    }

    /// Whether a row of this table agrees with the literals, whose atoms are in the scopes of the `named` tables only.
    fn agrees_in(
        &self,
        alloc: Global,
        table: usize,
        named: &Packed,
        literals: &[NumberedLiteral],
    ) -> Result<bool, NoMemory>
        requires there { table < length (tables_of self.now) }
        requires named { AreMarked self.now.by_atom (length (tables_of self.now)) (map (λ (l : numbered.NumberedLiteral). l.atom) (map numbered_of literals.now)) (bits_of named.now) }
        ensures { (t : functions.Table) → slice_get (tables_of self.now) table ≡ Some t
            → IfOk result (λ some. some ≡ list_any (λ (r : Row). model.agrees (map numbered_of literals.now) t.scope r.atoms) t.rows) }
    {
        if !named.has(table as u32) {
            return Ok(self.tables[table].table().row_count() > 0);
        }
        self.tables[table].some_agrees(alloc, literals)
    }

    /// The greatest sum of weights for the value at `place` of rows that agree with the literals, one from each table.
    ///
    /// # Errors
    /// Where memory is refused.
    pub fn give(
        &self,
        alloc: Global,
        literals: &[NumberedLiteral],
        place: u32,
    ) -> Result<i64, NoMemory>
        requires { place < count_of self.now }
        ensures value { IfOk result (λ given. given ≡ sum_over (tables_of self.now) (model.table_gives place (map numbered_of literals.now))) }
        ensures least { IfOk result (λ given. neg_ℤ (pos (4294967294 * length (tables_of self.now))) ≤ℤ given) }
        ensures most { IfOk result (λ given. given ≤ℤ pos (4294967294 * length (tables_of self.now))) }
    {
        let mut total = 0i64;
        for table in 0..self.tables.len() {
            total += self.tables[table].gives(alloc, literals, place)?;
        }
        Ok(total)
    }

    /// The tables with an atom of a literal in their scope.
    fn named_by_literals(
        &self,
        alloc: Global,
        literals: &[NumberedLiteral],
    ) -> Result<Packed, NoMemory>
        ensures { IfOk result (λ named. AreMarked self.now.by_atom (length (tables_of self.now)) (map (λ (l : numbered.NumberedLiteral). l.atom) (map numbered_of literals.now)) (bits_of named)) }
    {
        let mut named = Packed::empty(alloc, self.tables.len() as u32)?;
        for literal in literals {
            self.by_atom.mark(literal.atom, &mut named);
        }
        Ok(named)
    }

    /// The tables with an atom of a change in their scope.
    pub(crate) fn named_by_changes(
        &self,
        alloc: Global,
        changes: &[CountingChange<'_>],
    ) -> Result<Packed, NoMemory>
        ensures { IfOk result (λ named. AreMarked self.now.by_atom (length (tables_of self.now)) (map (λ (c : numbered.NumberedChange). c.atom) (map counting_of changes.now)) (bits_of named)) }
    {
        let mut named = Packed::empty(alloc, self.tables.len() as u32)?;
        for change in changes {
            self.by_atom.mark(change.atom, &mut named);
        }
        Ok(named)
    }
}

/// The tables by the atoms of their scopes.
fn by_atom(alloc: Global, width: u32, tables: &[IndexedTable<'_>]) -> Result<Lists, NoMemory>
    requires few { length tables.now < 2 ^ 24 }
    requires scopes { IsTrue (are_over width (map indexed_of tables.now)) }
    ensures { IfOk result (IsByAtom (map indexed_of tables.now) (length tables.now)) }
{
    let mut lists = Lists::empty(alloc, width)?;
    for number in 0..tables.len() {
        lists.file_at_all(tables[number].table().scope(), number as u32)?;
    }
    Ok(lists)
}

/// The rows of each table by their keys.
fn row_indexes<'a>(
    alloc: Global,
    tables: &[IndexedTable<'a>],
) -> Result<Vec<RowIndex<'a>>, NoMemory>
    ensures { IfOk result (λ rows. map indexed_in rows.items ≡ map indexed_of tables.now) }
{
    let mut rows = Vec::new(alloc);
    for indexed in tables {
        rows.push(RowIndex::new(alloc, indexed.table())?)?;
    }
    Ok(rows)
}
