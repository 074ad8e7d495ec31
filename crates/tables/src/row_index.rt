//! Rows found by one look-up.
ghost use Rattle.std.specs.Prelude.{◌≡◌, ◌<◌, ◌≤◌, ◌^◌, IsTrue, IfOk, IfSome, MatchOption, None, Some, length, slice_get};
ghost use Rattle.std.proofs.Props.{props};
ghost use Rattle.packed_state.specs.Packed.{bits_of};
ghost use Rattle.lower_bounds.specs.TableFunctions.{row_of};
ghost use Rattle.tables.specs.Keys.{AreKeys, HasKey};
ghost use Rattle.table_rows.specs.Rows as rows_in_memory;
ghost use Rattle.table_rows.specs.Tables.{table_of, sets_of};

use faults::NoMemory;
use packed_state::Packed;
use std::alloc::Global;
use table_rows::Table;

/// The most slots that a look-up reads.
const PROBES: usize = 8;

/// Stands in a slot without a row.
const FREE: u32 = u32::MAX;

/// A table whose rows are found by one look-up. The set of a row over at most 64 atoms is one word, its key. Keys are compared, so
/// slots decide only how fast a row is found.
#[derive(Drop)]
pub(crate) struct RowIndex<'a> {
    pub(crate) table: &'a Table,
    /// The key of each row, or none where the scope has more than 64 atoms.
    pub(crate) keys: Vec<u64>,
    /// Row numbers, each in the first free slot from the hash of its key on.
    slots: Vec<u32>,
    ghost keyed: { AreKeys (length (table_of table.now).scope) (sets_of table.now) keys.items } by { Prim.hlevel props },
}

impl<'a> RowIndex<'a> {
    ghost use Rattle.tables.specs.RowIndex.{indexed_in, keys_in};

    /// An index of the table.
    ///
    /// # Errors
    /// Where memory is refused.
    pub(crate) fn new(alloc: Global, table: &'a Table) -> Result<RowIndex<'a>, NoMemory>
        ensures { IfOk result (λ index. indexed_in index ≡ table_of table.now) }
    {
        let keys = keys(alloc, table)?;
        let slots = slots(alloc, &keys)?;
        Ok(RowIndex { table, keys, slots })
    }

    /// The number of the row with this set, if there is one. The likely row is tried first.
    pub(crate) fn find(&self, set: &Packed, likely: Option<u32>) -> Option<u32>
        requires { length (bits_of set.now) ≡ length (indexed_in self.now).scope }
        ensures there { IfSome result (λ row. row < length (indexed_in self.now).rows) }
        ensures row { MatchOption result
            (row_of (indexed_in self.now) (rows_in_memory.atoms_at (indexed_in self.now).scope (bits_of set.now)) ≡ None)
            (λ row. slice_get (indexed_in self.now).rows row ≡ row_of (indexed_in self.now) (rows_in_memory.atoms_at (indexed_in self.now).scope (bits_of set.now))) }
    {
        match self.find_words(set.words(), likely) {
            Some(row) => Some(row),
            None => self.table.find(set),
        }
    }

    /// A row whose key is the one word, unless its slot is too far from its hash.
    fn find_words(&self, words: &[u64], likely: Option<u32>) -> Option<u32>
        ensures { IfSome result (HasKey (keys_in self.now) words.now) }
    {
        if words.len() != 1 {
            return None;
        }
        self.find_key(words[0], likely)
    }

    /// A row with this key, unless its slot is too far from its hash.
    fn find_key(&self, key: u64, likely: Option<u32>) -> Option<u32>
        ensures { IfSome result (λ row. slice_get (keys_in self.now) row ≡ Some key) }
    {
        match likely {
            Some(row) => {
                if self.has_key(row, key) {
                    return Some(row);
                }
            }
            None => {}
        }
        let home = home(key, self.keys.len());
        for slot in home..home + PROBES {
            let Some(&row) = self.slots.get(slot) else {
                return None;
            };
            if self.has_key(row, key) {
                return Some(row);
            }
        }
        None
    }

    /// Whether there is a row of this number and it has this key.
    fn has_key(&self, row: u32, key: u64) -> bool
        ensures { IsTrue result → slice_get (keys_in self.now) row ≡ Some key }
    {
        match self.keys.get(row as usize) {
            Some(&other) => other == key,
            None => false,
        }
    }
}

/// The key of each row, or none where sets have more than one word, or no word.
fn keys(alloc: Global, table: &Table) -> Result<Vec<u64>, NoMemory>
    ensures keyed { IfOk result (λ keys. AreKeys (length (table_of table.now).scope) (sets_of table.now) keys.items) }
    ensures few { IfOk result (λ keys. length keys.items ≤ 16777216) }
{
    let mut set = Packed::empty(alloc, table.width())?;
    let mut keys = Vec::new(alloc);
    if set.words().len() != 1 {
        return Ok(keys);
    }
    for row in 0..table.row_count() {
        table.get(row as u32, &mut set);
        keys.push(set.words()[0])?;
    }
    Ok(keys)
}

/// Two slots a row, and some more for those at the end.
fn slots(alloc: Global, keys: &[u64]) -> Result<Vec<u32>, NoMemory>
    requires { length keys.now ≤ 16777216 }
{
    let mut slots = vec![in alloc; FREE; 2 * keys.len() + PROBES]?;
    for row in 0..keys.len() {
        put(&mut slots, home(keys[row], keys.len()), row as u32);
    }
    Ok(slots)
}

/// Puts the row into the first free slot, if it is near its home.
fn put(slots: &mut [u32], home: usize, row: u32)
    requires { home < 2 ^ 33 }
{
    for slot in home..home + PROBES {
        if slot < slots.len() && slots[slot] == FREE {
            slots[slot] = row;
            return;
        }
    }
}

/// The first slot for a key, of two for each of this many keys.
fn home(key: u64, count: usize) -> usize
    ensures { result < 2 ^ 33 }
{
    let hash = key.wrapping_mul(0x9E37_79B9_7F4A_7C15) >> 32;
    (hash.wrapping_mul(count as u64) >> 31) as usize
}
