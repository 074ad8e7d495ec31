//! Upper bounds of an instance's loss by a table, and whether it leads from rows to rows.
ghost use Rattle.std.specs.Prelude.{◌≡◌, ◌^◌, ◌<◌, nat_lt, ◌∷◌, [], All, IfOk, List, OnOk, length, map};
ghost use Rattle.packed_state.specs.Packed.{bits_of};
ghost use Rattle.lower_bounds.specs.PotentialFunctions.{IsInRange};
ghost use Rattle.grounding.specs.Views.{numbered_of};
ghost use Rattle.grounding.specs.Changes.{conditional_of};
ghost use Rattle.lower_bounds.specs.TableFunctions.{Row};
ghost use Rattle.lower_bounds.specs.FairTables as model;
ghost use Rattle.table_rows.specs.Losses.{indexed_of, indexed_count_of, AreLossesByTable};
ghost use Rattle.table_rows.specs.Afters.{turned, ways};
ghost use Rattle.table_rows.specs.Columns.{IsMost, RaisesTo, RaisesFrom, LosesInEach};
ghost use Rattle.table_rows.specs.Fates.{question_of};
ghost use Rattle.table_rows.specs.FitsTable.{FitsTable, HasWidth};
ghost use Rattle.table_rows.specs.Tables.{table_of, weight_count_of};

use crate::afters::{PlacedChanges, Scratch};
use crate::columns::{NOTHING_YET, fill, raise, settle};
use crate::indexed::IndexedTable;
use crate::placed::{PlacedLiteral, all_are_so, placed};
use faults::NoMemory;
use grounding::{CountingChange, NumberedLiteral};
use packed_state::Packed;
use potentials::touches;
use std::alloc::Global;

/// An instance within the scope of a table.
#[derive(Clone, Copy)]
pub(crate) struct Question<'a> {
    pub(crate) literals: &'a [PlacedLiteral],
    pub(crate) changes: &'a PlacedChanges,
}

impl IndexedTable<'_> {
    /// Whether an instance with these literals and changes leads from each row that agrees with the literals to rows only. If
    /// so, `most` becomes, for the weights at each place, the greatest difference of such a row's weight and that of a row after
    /// it, which may be negative; 0 if no row agrees or no change is of an atom of the scope.
    ///
    /// # Errors
    /// An allocation failed.
    pub fn loses_by_each(
        &self,
        alloc: Global,
        literals: &[NumberedLiteral],
        changes: &[CountingChange<'_>],
        most: &mut [i64],
    ) -> Result<bool, NoMemory>
        requires { length most.old ≡ indexed_count_of self.now }
        ensures { IfOk result (AreLossesByTable (indexed_count_of self.now) (map numbered_of literals.now) (map conditional_of changes.now) (indexed_of self.now) most.new) }
    {
        let scope = self.table.scope();
        if !touches_scope(changes, scope) {
            fill(most, 0);
            return Ok(true);
        }
        let literals = placed(alloc, scope, literals)?;
        let changes = PlacedChanges::new(alloc, scope, changes)?;
        let question = Question {
            literals: literals.as_slice(),
            changes: &changes,
        };
        self.most_lost(alloc, &question, most)
    }

    /// Whether each row that agrees leads to rows only. If so, `most` becomes the greatest losses; 0 if no row agrees.
    pub(crate) fn most_lost(
        &self,
        alloc: Global,
        question: &Question<'_>,
        most: &mut [i64],
    ) -> Result<bool, NoMemory>
        requires fits { FitsTable self.now.table.now question.now }
        requires long { length most.old ≡ weight_count_of self.now.table.now }
        ensures { IfOk result (LosesInEach (question_of self.now.table.now question.now) most.new) }
    {
        let mut scratch = Scratch::new(alloc, self.table.width())?;
        let candidates = self.candidates(question.literals);
        fill(most, NOTHING_YET);
        for k in 0..candidates.len() {
            let row = candidates.at(k);
            if !self.raise_from(question, row, &mut scratch, most)? {
                return Ok(false);
            }
        }
        settle(most);
        Ok(true)
    }

    /// Whether the row with this number, if it agrees, leads to rows only. If so, raises `most` to the losses from it.
    fn raise_from(
        &self,
        question: &Question<'_>,
        row: u32,
        scratch: &mut Scratch,
        most: &mut [i64],
    ) -> Result<bool, NoMemory>
        requires fits { FitsTable self.now.table.now question.now }
        requires there { row < length (table_of self.now.table.now).rows }
        requires scratch { HasWidth (length (table_of self.now.table.now).scope) scratch.old }
        requires long { length most.old ≡ weight_count_of self.now.table.now }
        requires range { All IsMost most.old }
        ensures raised { IfOk result (RaisesFrom (question_of self.now.table.now question.now) row most.old most.new) }
        ensures scratch { OnOk result (HasWidth (length (table_of self.now.table.now).scope) scratch.new) }
    {
        self.table.get(row, &mut scratch.row);
        if !all_are_so(&scratch.row, question.literals) {
            return Ok(true);
        }
        scratch.find(question.changes)?;
        if self.is_outnumbered(scratch.free.len()) {
            return Ok(false);
        }
        Ok(self.raise_to(
            &mut scratch.left,
            &scratch.free,
            self.table.weights(row),
            most,
        ))
    }

    /// Whether the ways to turn some of this many places are more than the rows: one of them then makes a set that is no row.
    fn is_outnumbered(&self, places: usize) -> bool
        ensures { result ≡ nat_lt (length (table_of self.now.table.now).rows) (2 ^ places) }
    {
        places >= 32 || self.table.row_count() >> places == 0
    }

    /// Whether each way to turn some of the free places makes a row of the set. If so, raises `most` to the losses from these
    /// weights to those of the rows. The set is restored.
    fn raise_to(&self, set: &mut Packed, free: &[u32], from: &[i64], most: &mut [i64]) -> bool
        requires width { length (bits_of set.old) ≡ length (table_of self.now.table.now).scope }
        requires free { All (λ k. k < length (table_of self.now.table.now).scope) free.now }
        requires weights { length from.now ≡ weight_count_of self.now.table.now }
        requires weights_range { All IsInRange from.now }
        requires long { length most.old ≡ weight_count_of self.now.table.now }
        requires range { All IsMost most.old }
        ensures raised { RaisesTo (table_of self.now.table.now) from.now (ways (bits_of set.old) free.now) most.old most.new result }
        ensures set { bits_of set.new ≡ bits_of set.old }
    {
        match free {
            [first, others @ ..] => {
                if !self.raise_to(set, others, from, most) {
                    return false;
                }
                turn(set, *first);
                let are_rows = self.raise_to(set, others, from, most);
                turn(set, *first);
                are_rows
            }
            [] => self.raise_to_row(set, from, most),
        }
    }

    /// Whether the set is a row. If so, raises `most` to the losses from these weights to the row's.
    fn raise_to_row(&self, set: &Packed, from: &[i64], most: &mut [i64]) -> bool
        requires width { length (bits_of set.now) ≡ length (table_of self.now.table.now).scope }
        requires weights { length from.now ≡ weight_count_of self.now.table.now }
        requires weights_range { All IsInRange from.now }
        requires long { length most.old ≡ weight_count_of self.now.table.now }
        requires range { All IsMost most.old }
        ensures { RaisesTo (table_of self.now.table.now) from.now (bits_of set.now ∷ []) most.old most.new result }
    {
        match self.table.find(set) {
            Some(row) => {
                raise(most, from, self.table.weights(row));
                true
            }
            None => false,
        }
    }
}

/// Whether a change is of an atom of the scope.
fn touches_scope(changes: &[CountingChange<'_>], scope: &[u32]) -> bool
    ensures { (rows : List Row) → result ≡ model.touches_scope (map conditional_of changes.now) (record { scope = scope.now; rows = rows }) }
{
    scope.iter().any(|atom| touches(changes, *atom))
}

/// Removes the place from the set if it is there; else inserts it.
fn turn(set: &mut Packed, place: u32)
    requires { place < length (bits_of set.old) }
    ensures { bits_of set.new ≡ turned (bits_of set.old) place }
{
    if set.has(place) {
        set.remove(place);
    } else {
        set.insert(place);
    }
}
