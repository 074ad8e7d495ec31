//! The words of states, state after state, and a hash table of their places.
ghost use Rattle.std.specs.Prelude.{◌≡◌, ◌+◌, ◌<◌, ◌≤◌, ◌↔◌, IsTrue, [], ◌∷◌, ◌++◌, length, slice_get, Contains, MatchResult, IfOk, OnOk, OnErr};
ghost use Rattle.packed_state.specs.Pool.{row_at, mixed, key_of};
ghost use Rattle.packed_state.specs.Table.{number_of, tag_in, tag_of, IsFirstFree};

use crate::table::{FREE, Table, entry_tag, number, tag};
use crate::words::are_same;
use faults::NoMemory;
use std::alloc::Global;

/// States of `stride` words each, all in one vector.
#[derive(Drop)]
pub(crate) struct Pool {
    pub(crate) stride: usize,
    pub(crate) words: Vec<u64>,
    /// Finds a state's place by the key of its words.
    pub(crate) table: Table,
    /// The keys of the states, from which a larger table is filled.
    pub(crate) keys: Vec<u32>,
    alloc: Global,
}

/// Where to insert a state that was not found.
#[derive(Clone, Copy, Drop)]
pub(crate) struct Vacancy {
    /// The key of its words.
    pub(crate) key: u32,
    /// The first free slot for it.
    pub(crate) slot: usize,
}

impl Pool {
    ghost use Rattle.packed_state.specs.PooledStore.{rows_of, IsLinked};

    /// An empty pool, with this number of slots in its table.
    pub(crate) fn new(alloc: Global, stride: usize, slots: usize) -> Result<Pool, NoMemory>
        requires some { 0 < slots }
        requires few { slots ≤ 67108864 }
        ensures linked { IfOk result (λ pool. IsLinked pool) }
        ensures rows { IfOk result (λ pool. (rows_of pool ≡ []) × (pool.stride ≡ stride)) }
    {
        let table = Table::new(alloc, slots)?;
        Ok(Pool {
            stride,
            words: Vec::new(alloc),
            table,
            keys: Vec::new(alloc),
            alloc,
        })
    }

    /// The number of states.
    pub(crate) fn len(&self) -> usize
        ensures { result ≡ length (rows_of self.now) }
    {
        self.table.count
    }

    /// The words of the state at this place.
    pub(crate) fn row(&self, place: usize) -> &[u64]
        requires linked { IsLinked self.now }
        requires place { place < self.now.table.count }
        ensures { result.now ≡ row_at self.now.stride self.now.words.items place }
    {
        let start = place * self.stride;
        &self.words[start..start + self.stride]
    }

    /// The place of the state with these words; where it is to be inserted if there is none.
    pub(crate) fn look_up(&self, words: &[u64]) -> Result<u32, Vacancy>
        requires { IsLinked self.now }
        ensures { MatchResult result
            (λ place. slice_get (rows_of self.now) place ≡ Some words.now)
            (λ vacancy. (¬ Contains (rows_of self.now) words.now) × ((vacancy.key ≡ key_of words.now) × IsFirstFree self.now.table.entries.items (key_of words.now) vacancy.slot)) }
    {
        let key = key(words);
        let mut step = 0;
        'slots: loop {
            let slot = self.table.slot(key, step);
            let entry = self.table.entries[slot];
            if entry == FREE {
                return Err(Vacancy { key, slot });
            }
            if self.is_entry_of(entry, key, words) {
                return Ok(number(entry));
            }
            step += 1;
        }
    }

    /// Whether the entry, which is not free, is that of the state with these words and their key. The words decide; they are
    /// looked at only if the tags are equal.
    fn is_entry_of(&self, entry: u32, key: u32, words: &[u64]) -> bool
        requires linked { IsLinked self.now }
        requires taken { 0 < entry }
        requires within { number_of entry < self.now.table.count }
        ensures { IsTrue result ↔ ((tag_in entry ≡ tag_of key) × (row_at self.now.stride self.now.words.items (number_of entry) ≡ words.now)) }
    {
        entry_tag(entry) == tag(key) && are_same(self.row(number(entry) as usize), words)
    }

    /// Inserts a state of these words, which was not found.
    ///
    /// # Errors
    /// Memory was refused: nothing changes.
    pub(crate) fn push(&mut self, words: &[u64], vacancy: Vacancy) -> Result<(), NoMemory>
        requires linked { IsLinked self.old }
        requires words { length words.now ≡ self.old.stride }
        requires few { self.old.table.count < 16777216 }
        requires room { self.old.table.count + 1 < length self.old.table.entries.items }
        requires key { vacancy.key ≡ key_of words.now }
        requires slot { IsFirstFree self.old.table.entries.items (key_of words.now) vacancy.slot }
        ensures stride { self.new.stride ≡ self.old.stride }
        ensures linked { IsLinked self.new }
        ensures ok { OnOk result (rows_of self.new ≡ rows_of self.old ++ words.now ∷ []) }
        ensures err { OnErr result (rows_of self.new ≡ rows_of self.old) }
    {
        self.keys.reserve(1)?;
        self.words.extend_from_slice(words)?;
        self.keys.push_reserved(vacancy.key);
        self.table.put(vacancy.key, vacancy.slot);
        Ok(())
    }

    /// Makes room for one more state: doubles the slots if more than three in four would be taken.
    ///
    /// # Errors
    /// Memory was refused: nothing changes.
    pub(crate) fn make_room(&mut self) -> Result<(), NoMemory>
        requires linked { IsLinked self.old }
        requires few { self.old.table.count < 16777216 }
        ensures stride { self.new.stride ≡ self.old.stride }
        ensures linked { IsLinked self.new }
        ensures rows { rows_of self.new ≡ rows_of self.old }
        ensures count { self.new.table.count ≡ self.old.table.count }
        ensures room { OnOk result (self.new.table.count + 1 < length self.new.table.entries.items) }
    {
        let slots = self.table.entries.len();
        if 4 * (self.table.count + 1) <= 3 * slots {
            return Ok(());
        }
        self.table = Table::of_keys(self.alloc, &self.keys, 2 * slots)?;
        Ok(())
    }
}

/// The key of these words: the upper half of their hash. It is mixed once more after the last word.
pub(crate) fn key(words: &[u64]) -> u32
    ensures { result ≡ key_of words.now }
{
    let mut hash = 0;
    for &word in words {
        hash = mix(hash, word);
    }
    (mix(hash, 0) >> 32) as u32
}

/// Mixes one more word into the hash: multiplies, then folds the high half of the product into the low half.
fn mix(hash: u64, word: u64) -> u64
    ensures { result ≡ mixed hash word }
{
    let product = (hash ^ word).wrapping_mul(0x9E37_79B9_7F4A_7C15);
    product ^ (product >> 32)
}
