//! The values of states, found by what is known of another.
ghost use Rattle.std.specs.Prelude.{◌≡◌, ◌<◌, ◌^◌, ◌+ℤ◌, ◌≤ℤ◌, pos, IsTrue, MatchOption, Some, false, true, length, max, nat_le, slice_get, slice_index_or};
ghost use Rattle.packed_state.specs.Packed.{bits_of};
ghost use Rattle.lower_bounds.specs.TableFunctions.{TableFunction, functions_of, dead_ends_of, greatest_value, is_dead_by, has_rows, value};
ghost use Rattle.tables.specs.AllTables.{tables_of, count_of};
ghost use Rattle.tables.specs.Several.{several_of, state_of, width_of, Knows};

use crate::known_state::KnownState;
use crate::several::TableFunctions;
use packed_state::Packed;
use potentials::or_zero;

impl TableFunctions<'_> {
    /// The greatest of the values of the state, 0 where a table has no row for it. Brings `known` to the state. No memory is taken.
    pub fn value(&self, state: &Packed, known: &mut KnownState) -> u64
        requires width { length (bits_of state.now) ≡ width_of self.now }
        requires known { Knows self.now known.old }
        ensures value { result ≡ greatest_value (functions_of (several_of self.now)) (bits_of state.now) }
        ensures known { Knows self.now known.new }
    {
        self.move_to(state, known);
        if !known.rows.are_all() {
            return 0;
        }
        self.greatest(known)
    }

    /// Whether some value of the state is at least this. Brings `known` to the state. No memory is taken.
    pub fn is_worth(&self, least: u64, state: &Packed, known: &mut KnownState) -> bool
        requires width { length (bits_of state.now) ≡ width_of self.now }
        requires known { Knows self.now known.old }
        ensures worth { result ≡ nat_le least (greatest_value (functions_of (several_of self.now)) (bits_of state.now)) }
        ensures known { Knows self.now known.new }
    {
        self.move_to(state, known);
        if !known.rows.are_all() {
            return least == 0;
        }
        self.is_worth_with_rows(least, known)
    }

    /// Whether each table has a row for the state. Brings `known` to the state. No memory is taken.
    pub fn has_rows(&self, state: &Packed, known: &mut KnownState) -> bool
        requires width { length (bits_of state.now) ≡ width_of self.now }
        requires known { Knows self.now known.old }
        ensures rows { result ≡ has_rows (several_of self.now).tables (bits_of state.now) }
        ensures known { Knows self.now known.new }
    {
        self.move_to(state, known);
        known.rows.are_all()
    }

    /// The greatest of the values of the state, unless it is dead. Brings `known` to the state. No memory is taken.
    pub fn value_unless_dead(&self, state: &Packed, known: &mut KnownState) -> Option<u64>
        requires width { length (bits_of state.now) ≡ width_of self.now }
        requires known { Knows self.now known.old }
        ensures value { MatchOption result
            (IsTrue (is_dead_by (dead_ends_of (several_of self.now)) (bits_of state.now)))
            (λ value. (is_dead_by (dead_ends_of (several_of self.now)) (bits_of state.now) ≡ false) × (value ≡ greatest_value (functions_of (several_of self.now)) (bits_of state.now)) × (value < 2 ^ 63)) }
        ensures known { Knows self.now known.new }
    {
        self.move_to(state, known);
        if !known.rows.are_all() {
            return Some(0);
        }
        self.value_with_rows(known)
    }

    /// Whether the state is dead: the value for dead ends is at least 1. Brings `known` to the state. No memory is taken.
    pub fn is_dead_end(&self, state: &Packed, known: &mut KnownState) -> bool
        requires width { length (bits_of state.now) ≡ width_of self.now }
        requires known { Knows self.now known.old }
        ensures dead { result ≡ is_dead_by (dead_ends_of (several_of self.now)) (bits_of state.now) }
        ensures known { Knows self.now known.new }
    {
        self.move_to(state, known);
        if !known.rows.are_all() {
            return false;
        }
        self.is_dead_with_rows(known)
    }

    /// The greatest of the values of a state that has all its rows, unless it is dead.
    fn value_with_rows(&self, known: &KnownState) -> Option<u64>
        requires known { Knows self.now known.now }
        requires rows { has_rows (tables_of self.now.tables) (state_of known.now) ≡ true }
        ensures { MatchOption result
            (IsTrue (is_dead_by (dead_ends_of (several_of self.now)) (state_of known.now)))
            (λ value. (is_dead_by (dead_ends_of (several_of self.now)) (state_of known.now) ≡ false) × (value ≡ greatest_value (functions_of (several_of self.now)) (state_of known.now)) × (value < 2 ^ 63)) }
    {
        if self.is_dead_with_rows(known) {
            return None;
        }
        Some(self.greatest(known))
    }

    /// Whether some value of a state that has all its rows is at least this.
    fn is_worth_with_rows(&self, least: u64, known: &KnownState) -> bool
        requires known { Knows self.now known.now }
        requires rows { has_rows (tables_of self.now.tables) (state_of known.now) ≡ true }
        ensures { result ≡ nat_le least (greatest_value (functions_of (several_of self.now)) (state_of known.now)) }
    {
        for place in 0..self.values.len() {
            if self.value_with_all(place, known) >= least {
                return true;
            }
        }
        least == 0
    }

    /// The value at this place of a state that has all its rows.
    fn value_with_all(&self, place: usize, known: &KnownState) -> u64
        requires known { Knows self.now known.now }
        requires place { place < length self.now.values.items }
        requires rows { has_rows (tables_of self.now.tables) (state_of known.now) ≡ true }
        ensures value { (h : TableFunction) → slice_get (functions_of (several_of self.now)) place ≡ Some h → result ≡ value h (state_of known.now) }
        ensures small { result < 2 ^ 63 }
    {
        or_zero(self.total(place, known))
    }

    /// The greatest of the values of a state that has all its rows.
    fn greatest(&self, known: &KnownState) -> u64
        requires known { Knows self.now known.now }
        requires rows { has_rows (tables_of self.now.tables) (state_of known.now) ≡ true }
        ensures value { result ≡ greatest_value (functions_of (several_of self.now)) (state_of known.now) }
        ensures small { result < 2 ^ 63 }
    {
        let mut greatest = 0;
        for place in 0..self.values.len() {
            greatest = greater(greatest, self.value_with_all(place, known));
        }
        greatest
    }

    /// Whether a state that has all its rows is dead.
    fn is_dead_with_rows(&self, known: &KnownState) -> bool
        requires known { Knows self.now known.now }
        requires rows { has_rows (tables_of self.now.tables) (state_of known.now) ≡ true }
        ensures { result ≡ is_dead_by (dead_ends_of (several_of self.now)) (state_of known.now) }
    {
        or_zero(self.total(self.values.len(), known)) > 0
    }

    /// The score of the state's atoms plus the sum of its rows' weights, for the value at this place. That for dead ends is last.
    fn total(&self, place: usize, known: &KnownState) -> i64
        requires known { Knows self.now known.now }
        requires place { place < count_of self.now.tables }
        ensures total { result ≡ (slice_index_or known.now.scores.items place (pos 0) +ℤ slice_index_or known.now.rows.sums.totals.items place (pos 0)) }
        ensures most { result ≤ℤ pos 72057594037927936 }
    {
        known.scores[place] + known.rows.sums.totals[place]
    }
}

/// The greater of two numbers.
fn greater(one: u64, other: u64) -> u64
    ensures { result ≡ max one other }
{
    if other < one { one } else { other }
}
