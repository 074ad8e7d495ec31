//! Words of 64 bits as sets of numbers: bit `k % 64` of word `k / 64`, counted from the lowest, stands for the number k.
ghost use Rattle.std.specs.Prelude.{◌≡◌, ℕ, true, false, ◌+◌, ◌*◌, ◌/◌, ◌<◌, ◌≤◌, ◌↔◌, ◌==◌, ◌&&◌, ◌||◌, ◌^◌, ◌++◌, not, IsTrue, OnOk, length, slice_index};
ghost use Rattle.std.specs.List.{filter, range_with_len};
ghost use Rattle.packed_state.specs.Words.{word_has, numbers_of_word, BeginsWith};

use crate::lanes::{self, Includes, IsApart, IsSame, all};
use faults::NoMemory;

/// The number of words that the numbers below `width` need.
pub(crate) fn words_for(width: u32) -> usize
    ensures enough { width ≤ 64 * result }
    ensures no_more { 64 * result < width + 64 }
{
    width.div_ceil(64) as usize
}

/// Whether the number is in the set.
pub(crate) fn has(words: &[u64], number: u32) -> bool
    requires { number < 64 * length words.now }
    ensures { result ≡ word_has words.now number }
{
    (words[number as usize / 64] >> (number % 64)) & 1 == 1
}

/// The least number in the set that is at least `from`; if there is none, a number past the last word.
pub(crate) fn next(words: &[u64], from: usize) -> usize
    requires from { from < 2 ^ 33 }
    requires few { 64 * length words.now < 2 ^ 33 }
    ensures from { from ≤ result }
    ensures none_between { (k : ℕ) → from ≤ k → k < result → word_has words.now k ≡ false }
    ensures is_in { result < 64 * length words.now → word_has words.now result ≡ true }
{
    let mut number = from;
    'words: while number / 64 < words.len() {
        let rest = words[number / 64] >> (number % 64);
        if rest != 0 {
            return number + rest.trailing_zeros() as usize;
        }
        number = (number / 64 + 1) * 64;
    }
    number
}

/// Adds the number.
pub(crate) fn insert(words: &mut [u64], number: u32)
    requires within { number < 64 * length words.old }
    requires small { (place : ℕ) → slice_index words.old place < 2 ^ 64 }
    ensures has { (k : ℕ) → word_has words.new k ≡ (word_has words.old k || (number == k)) }
    ensures small { (place : ℕ) → slice_index words.new place < 2 ^ 64 }
{
    words[number as usize / 64] |= 1 << (number % 64);
}

/// Removes the number.
pub(crate) fn remove(words: &mut [u64], number: u32)
    requires within { number < 64 * length words.old }
    requires small { (place : ℕ) → slice_index words.old place < 2 ^ 64 }
    ensures has { (k : ℕ) → word_has words.new k ≡ (word_has words.old k && not (number == k)) }
    ensures small { (place : ℕ) → slice_index words.new place < 2 ^ 64 }
{
    words[number as usize / 64] &= !(1 << (number % 64));
}

/// Whether each number of `part` is in the set.
pub(crate) fn includes(words: &[u64], part: &[u64]) -> bool
    requires { length words.now ≡ length part.now }
    ensures { IsTrue result ↔ ((k : ℕ) → IsTrue (word_has part.now k) → IsTrue (word_has words.now k)) }
{
    all::<Includes>(words, part)
}

/// Whether the sets are disjoint.
pub(crate) fn are_disjoint(words: &[u64], others: &[u64]) -> bool
    requires { length words.now ≡ length others.now }
    ensures { IsTrue result ↔ ((k : ℕ) → ¬ (IsTrue (word_has words.now k) × IsTrue (word_has others.now k))) }
{
    all::<IsApart>(words, others)
}

/// Whether the words are the same.
pub(crate) fn are_same(words: &[u64], others: &[u64]) -> bool
    ensures { IsTrue result ↔ (words.now ≡ others.now) }
{
    words.len() == others.len() && all::<IsSame>(words, others)
}

/// Removes the numbers of `deletes`, then adds those of `adds`.
pub(crate) fn change(words: &mut [u64], deletes: &[u64], adds: &[u64])
    requires deletes { length deletes.now ≡ length words.old }
    requires adds { length adds.now ≡ length words.old }
    requires small { (place : ℕ) → slice_index words.old place < 2 ^ 64 }
    ensures small { (place : ℕ) → slice_index words.new place < 2 ^ 64 }
    ensures has { (k : ℕ) → word_has words.new k ≡ ((word_has words.old k && not (word_has deletes.now k)) || word_has adds.now k) }
{
    lanes::change(words, deletes, adds);
}

/// Appends the numbers in the set to `into`, in ascending order. If memory is refused, only some of them.
pub(crate) fn push_numbers(words: &[u64], into: &mut Vec<u32>) -> Result<(), NoMemory>
    requires { 64 * length words.now ≤ 2 ^ 32 }
    ensures ok { OnOk result (into.new.items ≡ into.old.items ++ filter (word_has words.now) (range_with_len 0 (64 * length words.now))) }
    ensures begins { BeginsWith into.old.items into.new.items }
{
    'words: for (place, &word) in words.iter().enumerate() {
        push_numbers_of_word(word, place as u32 * 64, into)?;
    }
    Ok(())
}

/// Appends the numbers of one word, whose lowest bit stands for `first`.
fn push_numbers_of_word(word: u64, first: u32, into: &mut Vec<u32>) -> Result<(), NoMemory>
    requires { first + 64 ≤ 2 ^ 32 }
    ensures ok { OnOk result (into.new.items ≡ into.old.items ++ numbers_of_word first word) }
    ensures begins { BeginsWith into.old.items into.new.items }
{
    let mut rest = word;
    'rest: while rest != 0 {
        let lowest = rest.trailing_zeros();
        into.push(first + lowest)?;
        rest &= !(1 << lowest);
    }
    Ok(())
}
