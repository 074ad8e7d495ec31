//! A list of states in one vector of words.
ghost use Rattle.std.specs.Prelude.{◌≡◌, ◌+◌, ◌*◌, ◌<◌, ◌≤◌, ◌↔◌, [], ◌∷◌, ◌++◌, length, slice_get, slice_set, Some, IsTrue, IfOk, OnOk};
ghost use Rattle.std.proofs.Props.{props};
ghost use Rattle.packed_state.specs.Packed.{bits_of};
ghost use Rattle.packed_state.specs.Pool.{row_at};
ghost use Rattle.search_spaces.specs.Rows.{AreRowsOf, overwritten};

use faults::NoMemory;
use packed_state::Packed;
use std::alloc::Global;

/// States of one width, `stride` words each, one after another.
#[derive(Drop)]
pub(crate) struct States {
    width: u32,
    stride: usize,
    /// The number of states. The words do not determine it if a state has none.
    count: usize,
    words: Vec<u64>,
    ghost rows: { AreRowsOf width stride count words.items } by { Prim.hlevel props },
}

impl States {
    ghost use Rattle.search_spaces.specs.States.{states_width, states_of, HasRoom};

    /// An empty list of sets of numbers below `width`.
    pub(crate) fn new(alloc: Global, width: u32) -> States
        ensures width { states_width result ≡ width }
        ensures states { states_of result ≡ [] }
    {
        States {
            width,
            stride: words_for(width),
            count: 0,
            words: Vec::new(alloc),
        }
    }

    /// A list of `count` unspecified states, to be overwritten.
    pub(crate) fn blank(alloc: Global, width: u32, count: u32) -> Result<States, NoMemory>
        requires { count ≤ 16777216 }
        ensures width { IfOk result (λ states. states_width states ≡ width) }
        ensures count { IfOk result (λ states. length (states_of states) ≡ count) }
    {
        let empty = Packed::empty(alloc, width)?;
        let mut states = States::new(alloc, width);
        for _ in 0..count {
            states.reserve_one()?;
            states.push_reserved(&empty);
        }
        Ok(states)
    }

    /// The number of states.
    pub(crate) fn len(&self) -> usize
        ensures { result ≡ length (states_of self.now) }
    {
        self.count
    }

    /// Where the words of the state at this place begin.
    fn start(&self, place: usize) -> usize
        requires { place < self.now.count }
        ensures { result ≡ place * self.now.stride }
    {
        place * self.stride
    }

    /// The words of the state at this place.
    fn row(&self, place: usize) -> &[u64]
        requires { place < self.now.count }
        ensures { result.now ≡ row_at self.now.stride self.now.words.items place }
    {
        let start = self.start(place);
        &self.words[start..start + self.stride]
    }

    /// Copies the state at this place into `into`.
    pub(crate) fn get(&self, place: usize, into: &mut Packed)
        requires there { place < length (states_of self.now) }
        requires width { length (bits_of into.old) ≡ states_width self.now }
        ensures set { slice_get (states_of self.now) place ≡ Some (bits_of into.new) }
        ensures width { length (bits_of into.new) ≡ states_width self.now }
    {
        into.copy_words(self.row(place));
    }

    /// Whether the state is the one at this place.
    pub(crate) fn is_at(&self, place: usize, state: &Packed) -> bool
        requires there { place < length (states_of self.now) }
        requires width { length (bits_of state.now) ≡ states_width self.now }
        ensures { IsTrue result ↔ (slice_get (states_of self.now) place ≡ Some (bits_of state.now)) }
    {
        self.row(place) == state.words()
    }

    /// Makes room for one more state.
    pub(crate) fn reserve_one(&mut self) -> Result<(), NoMemory>
        ensures width { states_width self.new ≡ states_width self.old }
        ensures states { states_of self.new ≡ states_of self.old }
        ensures room { OnOk result (HasRoom self.new) }
    {
        self.words.reserve(self.stride)?;
        Ok(())
    }

    /// Appends the state, for which room was made.
    pub(crate) fn push_reserved(&mut self, state: &Packed)
        requires width { length (bits_of state.now) ≡ states_width self.old }
        requires few { length (states_of self.old) < 16777216 }
        requires room { HasRoom self.old }
        ensures width { states_width self.new ≡ states_width self.old }
        ensures states { states_of self.new ≡ states_of self.old ++ bits_of state.now ∷ [] }
    {
        let _room_was_made = self.words.extend_from_slice(state.words());
        self.count += 1;
    }

    /// Overwrites the state at this place.
    pub(crate) fn set(&mut self, place: usize, state: &Packed)
        requires there { place < length (states_of self.old) }
        requires width { length (bits_of state.now) ≡ states_width self.old }
        ensures width { states_width self.new ≡ states_width self.old }
        ensures states { states_of self.new ≡ slice_set (states_of self.old) place (bits_of state.now) }
    {
        let start = self.start(place);
        overwrite(&mut self.words, start, state.words());
    }
}

/// The number of words that the numbers below `width` need.
fn words_for(width: u32) -> usize
    ensures enough { width ≤ 64 * result }
    ensures no_more { 64 * result < width + 64 }
{
    width.div_ceil(64) as usize
}

/// Overwrites the words from `start` on by those of the row.
fn overwrite(words: &mut [u64], start: usize, row: &[u64])
    requires { start + length row.now ≤ length words.old }
    ensures { words.new ≡ overwritten words.old start row.now }
{
    words[start..start + row.len()].copy_from_slice(row);
}
