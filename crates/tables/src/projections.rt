//! A state, projected to the scopes of tables.
ghost use Rattle.std.specs.Prelude.{◌≡◌, ◌≢◌, ℕ, [], ◌*◌, ◌/◌, ◌<◌, IfOk, IsTrue, Some, true, length, map, slice_get, slice_set};
ghost use Rattle.packed_state.specs.Packed.{bits_of};
ghost use Rattle.packed_state.specs.Sets.{has, set_of};
ghost use Rattle.lower_bounds.specs.TableFunctions.{Table};
ghost use Rattle.tables.specs.AllTables.{tables_of};
ghost use Rattle.tables.specs.KnownRows.{IsPlaceOfRow};
ghost use Rattle.tables.specs.Projections.{set_at, AreProjections, AreMoved};

use crate::scope_places::ScopePlace;
use crate::tables::IndexedTables;
use faults::NoMemory;
use packed_state::Packed;
use std::alloc::Global;

/// A state, and its projections to the scopes of tables.
#[derive(Drop)]
pub(crate) struct Projections {
    /// The state.
    pub(crate) state: Packed,
    /// For each table the indices in its scope of the atoms that are true.
    pub(crate) sets: Vec<Packed>,
    /// The tables whose projection may have changed since their row was found.
    pub(crate) touched: Packed,
}

impl IndexedTables<'_> {
    /// Those of the state in which none of `width` atoms is true. All tables are touched.
    ///
    /// # Errors
    /// Where memory is refused.
    pub(crate) fn projections(&self, alloc: Global, width: u32) -> Result<Projections, NoMemory>
        ensures projections { IfOk result (AreProjections (tables_of self.now)) }
        ensures state { IfOk result (λ p. bits_of p.state ≡ set_of width []) }
        ensures touched { IfOk result (λ p. (k : ℕ) → k < length (tables_of self.now) → IsTrue (has (bits_of p.touched) k)) }
    {
        let state = Packed::empty(alloc, width)?;
        let touched = full(alloc, self.tables().len() as u32)?;
        let sets = self.empty_sets(alloc)?;
        Ok(Projections {
            state,
            sets,
            touched,
        })
    }

    /// The empty projection to each scope.
    fn empty_sets(&self, alloc: Global) -> Result<Vec<Packed>, NoMemory>
        ensures { IfOk result (λ sets. map bits_of sets.items ≡ map (λ (t : Table). set_of (length t.scope) []) (tables_of self.now)) }
    {
        let mut sets = Vec::new(alloc);
        for table in self.tables() {
            sets.push(Packed::empty(alloc, table.table().width())?)?;
        }
        Ok(sets)
    }
}

impl Projections {
    /// Projects this state. The tables whose projection changes are touched.
    pub(crate) fn move_to(&mut self, tables: &IndexedTables<'_>, state: &Packed)
        requires projections { AreProjections (tables_of tables.now) self.old }
        requires width { length (bits_of state.now) ≡ length (bits_of self.old.state) }
        ensures projections { AreProjections (tables_of tables.now) self.new }
        ensures state { bits_of self.new.state ≡ bits_of state.now }
        ensures moved { AreMoved (tables_of tables.now) self.old self.new }
    {
        let words = state.words();
        'words: for place in 0..words.len() {
            self.follow_word(tables, state, place);
        }
    }

    /// The same for the atoms of one word.
    fn follow_word(&mut self, tables: &IndexedTables<'_>, state: &Packed, place: usize)
        requires projections { AreProjections (tables_of tables.now) self.old }
        requires width { length (bits_of state.now) ≡ length (bits_of self.old.state) }
        requires place { 64 * place < length (bits_of state.now) }
        ensures projections { AreProjections (tables_of tables.now) self.new }
        ensures moved { AreMoved (tables_of tables.now) self.old self.new }
        ensures width { length (bits_of self.new.state) ≡ length (bits_of self.old.state) }
        ensures here { (n : ℕ) → n / 64 ≡ place → has (bits_of self.new.state) n ≡ has (bits_of state.now) n }
        ensures others { (n : ℕ) → n / 64 ≢ place → has (bits_of self.new.state) n ≡ has (bits_of self.old.state) n }
    {
        prove!(place < state.width() as usize); // so that each number fits
        let was = self.state.words()[place];
        let is = state.words()[place];
        let mut rest = was ^ is;
        'rest: while rest != 0 {
            let bit = rest.trailing_zeros();
            self.follow(tables, state, place as u32 * 64 + bit);
            rest &= !(1 << bit);
        }
    }

    /// The same for one atom.
    fn follow(&mut self, tables: &IndexedTables<'_>, state: &Packed, number: u32)
        requires projections { AreProjections (tables_of tables.now) self.old }
        requires width { length (bits_of state.now) ≡ length (bits_of self.old.state) }
        requires number { number < length (bits_of state.now) }
        ensures projections { AreProjections (tables_of tables.now) self.new }
        ensures state { bits_of self.new.state ≡ slice_set (bits_of self.old.state) number (has (bits_of state.now) number) }
        ensures moved { AreMoved (tables_of tables.now) self.old self.new }
    {
        let is = state.has(number);
        set_to(&mut self.state, number, is);
        let places = tables.places_of(number);
        for index in 0..places.len() {
            self.set_place(places[index], is);
        }
    }

    /// Puts the index into the projection, or takes it out, and touches the table.
    fn set_place(&mut self, at: ScopePlace, is: bool)
        requires table { at.table < length self.old.sets.items }
        requires place { at.place < length (set_at self.old at.table) }
        requires touched { at.table < length (bits_of self.old.touched) }
        ensures sets { map bits_of self.new.sets.items ≡ slice_set (map bits_of self.old.sets.items) at.table (slice_set (set_at self.old at.table) at.place is) }
        ensures touched { bits_of self.new.touched ≡ slice_set (bits_of self.old.touched) at.table true }
        ensures state { bits_of self.new.state ≡ bits_of self.old.state }
    {
        set_to(&mut self.sets[at.table as usize], at.place, is);
        self.touched.insert(at.table);
    }

    /// The number of the state's row of the table at this place, if it has one. The likely row is tried first.
    pub(crate) fn find(
        &self,
        tables: &IndexedTables<'_>,
        place: usize,
        likely: Option<u32>,
    ) -> Option<u32>
        requires projections { AreProjections (tables_of tables.now) self.now }
        requires there { place < length (tables_of tables.now) }
        ensures { (t : Table) → slice_get (tables_of tables.now) place ≡ Some t → IsPlaceOfRow t (bits_of self.now.state) result }
    {
        tables.rows(place).find(&self.sets[place], likely)
    }
}

/// Puts the number into the set, or takes it out.
fn set_to(set: &mut Packed, number: u32, is: bool)
    requires { number < length (bits_of set.old) }
    ensures { bits_of set.new ≡ slice_set (bits_of set.old) number is }
{
    if is {
        set.insert(number);
    } else {
        set.remove(number);
    }
}

/// The set of all numbers below `width`.
fn full(alloc: Global, width: u32) -> Result<Packed, NoMemory>
    ensures width { IfOk result (λ set. length (bits_of set) ≡ width) }
    ensures all { IfOk result (λ set. (k : ℕ) → k < width → IsTrue (has (bits_of set) k)) }
{
    let mut set = Packed::empty(alloc, width)?;
    for number in 0..width {
        set.insert(number);
    }
    Ok(set)
}
