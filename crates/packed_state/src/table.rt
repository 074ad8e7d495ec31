//! A hash table with open addressing and linear probing (Knuth, The Art of Computer Programming, volume 3, section 6.4, algorithm
//! L). It maps the keys of states to their places.
ghost use Rattle.std.specs.Prelude.{◌≡◌, ◌+◌, ◌<◌, ◌≤◌, length, replicate, slice_index, slice_set, IfOk};
ghost use Rattle.packed_state.specs.Table.{slot_at, tag_of, entry_of, number_of, tag_in, free_in, IsFirstFree, IsTable};

use faults::NoMemory;
use std::alloc::Global;

/// Entries for the numbers from 0 on. Each is in the first slot that was free when it was inserted, counted from the one that its
/// key names, and round at the end. An entry takes four bytes, so that fewer look-ups miss the cache: the number, and a tag
/// that tells most keys apart.
#[derive(Drop)]
pub(crate) struct Table {
    /// The entry of each slot: [`FREE`], or a number and the tag of its key.
    pub(crate) entries: Vec<u32>,
    /// The number of entries that are not free.
    pub(crate) count: usize,
}

/// The entry of a free slot.
pub(crate) const FREE: u32 = 0;

/// Numbers are below this.
const NUMBERS: u32 = 0x100_0000;

/// The quotient of a key by this is its tag: its seven highest bits.
const TAGS: u32 = 0x200_0000;

impl Table {
    /// A table of this number of slots, all of them free.
    pub(crate) fn new(alloc: Global, slots: usize) -> Result<Table, NoMemory>
        ensures { IfOk result (λ table. (table.entries.items ≡ replicate slots 0) × (table.count ≡ 0)) }
    {
        let entries = vec![in alloc; FREE; slots]?;
        Ok(Table { entries, count: 0 })
    }

    /// A table of this number of slots, in which each key has its place in the list as its number.
    pub(crate) fn of_keys(alloc: Global, keys: &[u32], slots: usize) -> Result<Table, NoMemory>
        requires few { length keys.now ≤ 16777216 }
        requires room { length keys.now < slots }
        requires slots { slots ≤ 67108864 }
        ensures count { IfOk result (λ table. table.count ≡ length keys.now) }
        ensures slots { IfOk result (λ table. length table.entries.items ≡ slots) }
        ensures table { IfOk result (λ table. IsTable (slice_index keys.now) table.count table.entries.items) }
    {
        let mut table = Table::new(alloc, slots)?;
        for &key in keys {
            let slot = table.first_free(key);
            table.put(key, slot);
        }
        Ok(table)
    }

    /// The slot `step` places after the one that the key names.
    pub(crate) fn slot(&self, key: u32, step: usize) -> usize
        requires step { step < length self.now.entries.items }
        requires few { length self.now.entries.items ≤ 67108864 }
        ensures slot { result ≡ slot_at (length self.now.entries.items) key step }
        ensures within { result < length self.now.entries.items }
    {
        let slots = self.entries.len();
        let slot = (key as usize & (slots - 1)) + step;
        if slot < slots { slot } else { slot - slots }
    }

    /// Reads the slot that each key names. The answer means nothing.
    pub(crate) fn touch(&self, keys: &[u32]) -> u32 {
        let last = self.entries.len().saturating_sub(1);
        let mut read = FREE;
        for key in keys {
            if let Some(&entry) = self.entries.get(*key as usize & last) {
                read |= entry;
            }
        }
        read
    }

    /// The first free slot for the key.
    pub(crate) fn first_free(&self, key: u32) -> usize
        requires free { 0 < free_in self.now.entries.items }
        requires few { length self.now.entries.items ≤ 67108864 }
        ensures { IsFirstFree self.now.entries.items key result }
    {
        let mut step = 0;
        'taken: loop {
            let slot = self.slot(key, step);
            let entry = self.entries[slot];
            if entry == FREE {
                return slot;
            }
            step += 1;
        }
    }

    /// Inserts the next number by its key, in this slot.
    pub(crate) fn put(&mut self, key: u32, slot: usize)
        requires slot { slot < length self.old.entries.items }
        requires room { self.old.count < 16777216 }
        ensures entries { self.new.entries.items ≡ slice_set self.old.entries.items slot (entry_of key self.old.count) }
        ensures count { self.new.count ≡ self.old.count + 1 }
    {
        self.entries[slot] = entry(key, self.count as u32);
        self.count += 1;
    }
}

/// The entry of a number and its key.
fn entry(key: u32, number: u32) -> u32
    requires { number < 16777216 }
    ensures { result ≡ entry_of key number }
{
    tag(key) * NUMBERS + number + 1
}

/// The tag of a key.
pub(crate) fn tag(key: u32) -> u32
    ensures tag { result ≡ tag_of key }
    ensures small { result < 128 }
{
    key / TAGS
}

/// The number of an entry that is not free.
pub(crate) fn number(entry: u32) -> u32
    requires { 0 < entry }
    ensures { result ≡ number_of entry }
{
    (entry - 1) % NUMBERS
}

/// The tag of an entry that is not free.
pub(crate) fn entry_tag(entry: u32) -> u32
    requires { 0 < entry }
    ensures { result ≡ tag_in entry }
{
    (entry - 1) / NUMBERS
}
