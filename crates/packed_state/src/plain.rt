//! A plain store of states: an `IndexSet` of their words. It is what the pooled store is compared with.
ghost use Rattle.std.specs.Prelude.{◌≡◌, ℕ, ◌<◌, ◌≤◌, List, [], length, map, slice_get, vec_items, Contains, MatchOption, IfOk, OnErr, false, is_err};
ghost use Rattle.std.proofs.Props.{props};
ghost use Rattle.packed_state.specs.Store.{AreStored};
ghost use Rattle.packed_state.specs.Words.{AreWordsOf};

use crate::packed::Packed;
use crate::store::StateStore;
use faults::NoMemory;
use indexmap::IndexSet;
use std::alloc::Global;

/// A list of distinct sets, each in a vector of its own. It is the plain form of a store, for users of the library and for tests: the
/// program keeps its states in a `PooledStore`.
#[derive(Drop)]
pub struct PlainStore {
    width: u32,
    rows: IndexSet<Vec<u64>>,
    alloc: Global,
    ghost stored: { AreStored width (map vec_items rows.keys) } by { Prim.hlevel props },
}

impl PlainStore {
    ghost use Rattle.packed_state.specs.Store.{IsPlaced};
    ghost use Rattle.packed_state.specs.PlainStore.{plain_width, plain_states};

    /// An empty store of sets of numbers below `width`.
    pub fn new(alloc: Global, width: u32) -> Result<PlainStore, NoMemory>
        ensures width { IfOk result (λ store. plain_width store ≡ width) }
        ensures states { IfOk result (λ store. plain_states store ≡ []) }
        ensures ok { is_err result ≡ false }
    {
        Ok(PlainStore {
            width,
            rows: IndexSet::new(alloc),
            alloc,
        })
    }

    fn place_of(&self, words: &[u64]) -> Option<usize>
        ensures { MatchOption result
            (¬ Contains (map vec_items self.now.rows.keys) words.now)
            (λ place. slice_get (map vec_items self.now.rows.keys) place ≡ Some words.now) }
    {
        self.rows.get_index_of(words)
    }

    fn put(&mut self, words: &[u64]) -> Result<(u32, bool), NoMemory>
        requires packed { AreWordsOf self.old.width words.now }
        requires room { length self.old.rows.keys < 16777216 }
        ensures width { self.new.width ≡ self.old.width }
        ensures ok { IfOk result (λ r. IsPlaced (map vec_items self.old.rows.keys) (map vec_items self.new.rows.keys) words.now r.0 r.1) }
        ensures err { OnErr result (self.new.rows.keys ≡ self.old.rows.keys) }
    {
        if let Some(place) = self.place_of(words) {
            return Ok((place as u32, false));
        }
        let place = self.rows.len() as u32;
        self.rows.insert(Vec::from_slice(self.alloc, words)?)?;
        Ok((place, true))
    }
}

impl StateStore for PlainStore {
    ghost use Rattle.packed_state.specs.Packed.{bits_of};
    ghost use Rattle.packed_state.specs.PlainStore.{plain_width, plain_states};

    ghost width_of = { plain_width };

    ghost states = { plain_states };

    fn width(&self) -> u32 {
        self.width
    }

    fn len(&self) -> usize {
        self.rows.len()
    }

    fn get(&self, place: u32, into: &mut Packed) {
        into.copy_words(&self.rows.as_slice()[place as usize]);
    }

    fn find(&self, state: &Packed) -> Option<u32> {
        match self.place_of(state.words()) {
            Some(place) => Some(place as u32),
            None => None,
        }
    }

    fn insert_copy_if_new(&mut self, state: &Packed) -> Result<(u32, bool), NoMemory> {
        self.put(state.words())
    }

    ghost distinct = { λ store. store.stored.distinct };
}
