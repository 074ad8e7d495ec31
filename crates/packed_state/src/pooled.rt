//! A store of states in one vector of words.
ghost use Rattle.std.specs.Prelude.{◌≡◌, ◌<◌, [], length, IfOk, OnErr};
ghost use Rattle.std.proofs.Props.{props};
ghost use Rattle.packed_state.specs.Words.{AreWordsOf};
ghost use Rattle.packed_state.specs.PooledStore.{IsPoolOf};

use crate::packed::Packed;
use crate::pool::{Pool, key};
use crate::store::StateStore;
use crate::words;
use faults::NoMemory;
use std::alloc::Global;

/// A list of distinct sets, all in one vector.
pub struct PooledStore {
    width: u32,
    pool: Pool,
    ghost pooled: { IsPoolOf width pool } by { Prim.hlevel props },
}

impl Drop for PooledStore {
    fn drop(self) {
        let Self { width: _, pool: _ } = self;
    }
}

/// Slots of a new table: a power of two, since it grows by doubling, and a key names its slot by its lowest bits.
const FIRST_SLOTS: usize = 16;

/// From this number of states on, slots are seldom at hand in a cache.
const LARGE: usize = 65_536;

impl PooledStore {
    ghost use Rattle.packed_state.specs.Store.{IsPlaced};
    ghost use Rattle.packed_state.specs.PooledStore.{rows_of};
    ghost use Rattle.packed_state.specs.PooledView.{pooled_width, pooled_states};

    /// An empty store of sets of numbers below `width`.
    ///
    /// # Errors
    /// Memory was refused.
    pub fn new(alloc: Global, width: u32) -> Result<PooledStore, NoMemory>
        ensures width { IfOk result (λ store. pooled_width store ≡ width) }
        ensures states { IfOk result (λ store. pooled_states store ≡ []) }
    {
        let pool = Pool::new(alloc, words::words_for(width), FIRST_SLOTS)?;
        Ok(PooledStore { width, pool })
    }

    /// The place of the state with these words, and whether it was new.
    fn put(&mut self, words: &[u64]) -> Result<(u32, bool), NoMemory>
        requires packed { AreWordsOf self.old.width words.now }
        requires room { length (rows_of self.old.pool) < 16777216 }
        ensures width { self.new.width ≡ self.old.width }
        ensures ok { IfOk result (λ r. IsPlaced (rows_of self.old.pool) (rows_of self.new.pool) words.now r.0 r.1) }
        ensures err { OnErr result (rows_of self.new.pool ≡ rows_of self.old.pool) }
    {
        let place = self.pool.len() as u32;
        self.pool.make_room()?;
        match self.pool.look_up(words) {
            Ok(place) => Ok((place, false)),
            Err(vacancy) => {
                self.pool.push(words, vacancy)?;
                Ok((place, true))
            }
        }
    }
}

impl StateStore for PooledStore {
    ghost use Rattle.packed_state.specs.PooledView.{pooled_width, pooled_states};

    ghost width_of = { pooled_width };

    ghost states = { pooled_states };

    fn width(&self) -> u32 {
        self.width
    }

    fn len(&self) -> usize {
        self.pool.len()
    }

    fn get(&self, place: u32, into: &mut Packed) {
        into.copy_words(self.pool.row(place as usize));
    }

    fn find(&self, state: &Packed) -> Option<u32> {
        match self.pool.look_up(state.words()) {
            Ok(place) => Some(place),
            Err(_) => None,
        }
    }

    fn insert_copy_if_new(&mut self, state: &Packed) -> Result<(u32, bool), NoMemory> {
        self.put(state.words())
    }

    fn is_large(&self) -> bool {
        self.pool.len() >= LARGE
    }

    fn key(&self, state: &Packed) -> u32 {
        key(state.words())
    }

    fn touch(&self, keys: &[u32]) -> u32 {
        self.pool.table.touch(keys)
    }

    ghost distinct = { λ store. store.pooled.stored.distinct };
}
