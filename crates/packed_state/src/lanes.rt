//! Comparing the words of two sets of one width, pair by pair: eight pairs at a time by the lanes of `std::simd`, then the rest
//! one by one. The first pair that decides ends it.
ghost use Rattle.std.specs.Prelude.{◌≡◌, ◌↔◌, IsTrue, length};
ghost use Rattle.packed_state.specs.Lanes.{Pairwise, IsChanged};

use std::simd::prelude::*;

/// Words per chunk.
const LANES: usize = 8;

/// A relation of a word to the word at the same place of another set.
pub(crate) trait Relation {
    ghost use Rattle.std.specs.Prelude.{ℕ};

    ghost holds: { ℕ → ℕ → Type 0 };

    /// Whether it holds of two words.
    fn of_words(word: u64, other: u64) -> bool
        ensures { IsTrue result ↔ holds word other };

    /// Whether it holds of each pair of words of two chunks.
    fn of_chunks(words: [u64; LANES], others: [u64; LANES]) -> bool
        requires { (length words ≡ 8) × (length others ≡ 8) }
        ensures { IsTrue result ↔ Pairwise holds words others };
}

/// Whether the relation holds of each pair of words.
pub(crate) fn all<R: Relation>(words: &[u64], others: &[u64]) -> bool
    requires { length words.now ≡ length others.now }
    ensures { IsTrue result ↔ Pairwise R.holds words.now others.now }
{
    let (chunks, rest) = words.as_chunks::<LANES>();
    let (other_chunks, other_rest) = others.as_chunks::<LANES>();
    'chunks: for place in 0..chunks.len() {
        if !R::of_chunks(chunks[place], other_chunks[place]) {
            return false;
        }
    }
    all_one_by_one::<R>(rest, other_rest)
}

/// [`all`] without lanes.
fn all_one_by_one<R: Relation>(words: &[u64], others: &[u64]) -> bool
    requires { length words.now ≡ length others.now }
    ensures { IsTrue result ↔ Pairwise R.holds words.now others.now }
{
    'words: for place in 0..words.len() {
        if !R::of_words(words[place], others[place]) {
            return false;
        }
    }
    true
}

/// The first word has each bit of the other one.
pub(crate) struct Includes;

impl Relation for Includes {
    ghost use Rattle.packed_state.specs.Lanes.{includes};

    ghost holds = { includes };

    fn of_words(word: u64, other: u64) -> bool {
        other & !word == 0
    }

    fn of_chunks(words: [u64; LANES], others: [u64; LANES]) -> bool {
        (u64x8::from_array(others) & !u64x8::from_array(words)).reduce_or() == 0
    }
}

/// The words have no bit in common.
pub(crate) struct IsApart;

impl Relation for IsApart {
    ghost use Rattle.packed_state.specs.Lanes.{is_apart};

    ghost holds = { is_apart };

    fn of_words(word: u64, other: u64) -> bool {
        word & other == 0
    }

    fn of_chunks(words: [u64; LANES], others: [u64; LANES]) -> bool {
        (u64x8::from_array(words) & u64x8::from_array(others)).reduce_or() == 0
    }
}

/// The words are the same.
pub(crate) struct IsSame;

impl Relation for IsSame {
    ghost use Rattle.packed_state.specs.Lanes.{is_same};

    ghost holds = { is_same };

    fn of_words(word: u64, other: u64) -> bool {
        word == other
    }

    fn of_chunks(words: [u64; LANES], others: [u64; LANES]) -> bool {
        (u64x8::from_array(words) ^ u64x8::from_array(others)).reduce_or() == 0
    }
}

/// Clears the bits of `deletes` in each word, then sets those of `adds`.
pub(crate) fn change(words: &mut [u64], deletes: &[u64], adds: &[u64])
    requires deletes { length deletes.now ≡ length words.old }
    requires adds { length adds.now ≡ length words.old }
    ensures changed { IsChanged words.old deletes.now adds.now words.new }
    ensures length { length words.new ≡ length words.old }
{
    let (delete_chunks, _) = deletes.as_chunks::<LANES>();
    let (add_chunks, _) = adds.as_chunks::<LANES>();
    'chunks: for place in 0..delete_chunks.len() {
        let start = place * LANES;
        let kept = u64x8::from_slice(&words[start..]) & !u64x8::from_array(delete_chunks[place]);
        let changed = kept | u64x8::from_array(add_chunks[place]);
        changed.copy_to_slice(&mut words[start..]);
    }
    'rest: for place in delete_chunks.len() * LANES..words.len() {
        words[place] = words[place] & !deletes[place] | adds[place];
    }
}
