//! Sets of numbers below a width, as words of 64 bits.
ghost use Rattle.std.specs.Prelude.{◌≡◌, ◌<◌, ◌≤◌, ℕ, false, List, []};
ghost use Rattle.std.proofs.Props.{props};
ghost use Rattle.packed_state.specs.Words.{bits_in, AreWordsOf};

use crate::words;
use faults::NoMemory;
use std::alloc::Global;

/// A set of numbers below its width. Two are equal if their widths and their numbers are.
#[derive(Debug, Drop)]
pub struct Packed {
    width: u32,
    words: Vec<u64>,
    ghost packed: { AreWordsOf width words.items } by { Prim.hlevel props },
}

/// A set of numbers below its width, with which a [`Packed`] is compared or changed.
#[derive(Debug, Drop)]
pub struct Mask {
    set: Packed,
}

impl Packed {
    ghost use Rattle.std.specs.Prelude.{◌↔◌, IsTrue, IfOk, OnOk, OnErr, length, true, slice_set};
    ghost use Rattle.std.specs.List.{All, filter, range_with_len};
    ghost use Rattle.packed_state.specs.Sets.{has, set_of, IsNext, Includes, AreDisjoint, changed, at_width};
    ghost use Rattle.packed_state.specs.Packed.{bits_of, mask_bits_of};

    /// The empty set of numbers below `width`.
    pub fn empty(alloc: Global, width: u32) -> Result<Packed, NoMemory>
        ensures { IfOk result (λ set. bits_of set ≡ set_of width []) }
    {
        let words = vec![in alloc; 0; words::words_for(width)]?;
        Ok(Packed { width, words })
    }

    /// The set of these numbers below `width`.
    pub fn new(alloc: Global, width: u32, numbers: &[u32]) -> Result<Packed, NoMemory>
        requires { All (λ number. number < width) numbers.now }
        ensures { IfOk result (λ set. bits_of set ≡ set_of width numbers.now) }
    {
        let mut set = Packed::empty(alloc, width)?;
        for &number in numbers {
            set.insert(number);
        }
        Ok(set)
    }

    /// A copy of another width, which all its numbers are below.
    pub fn with_width(&self, alloc: Global, width: u32) -> Result<Packed, NoMemory>
        requires { (number : ℕ) → IsTrue (has (bits_of self.now) number) → number < width }
        ensures { IfOk result (λ set. bits_of set ≡ at_width width (bits_of self.now)) }
    {
        let mut words = Vec::from_slice(alloc, &self.words)?;
        words.resize(words::words_for(width), 0)?;
        Ok(Packed { width, words })
    }

    /// The width: all numbers in the set are below it.
    pub fn width(&self) -> u32
        ensures { result ≡ length (bits_of self.now) }
    {
        self.width
    }

    /// The words that hold the set, as many as its width needs: bit `k % 64` of word `k / 64`, counted from the lowest, is
    /// set if the number k is in.
    pub fn words(&self) -> &[u64]
        ensures packed { AreWordsOf (length (bits_of self.now)) result.now }
        ensures bits { bits_in (length (bits_of self.now)) result.now ≡ bits_of self.now }
    {
        &self.words
    }

    /// Replaces it by the set that these words hold.
    pub fn copy_words(&mut self, words: &[u64])
        requires { AreWordsOf (length (bits_of self.old)) words.now }
        ensures { bits_of self.new ≡ bits_in (length (bits_of self.old)) words.now }
    {
        self.words.copy_from_slice(words);
    }

    /// Replaces it by another set of its width.
    pub fn copy_from(&mut self, other: &Packed)
        requires { length (bits_of self.old) ≡ length (bits_of other.now) }
        ensures { bits_of self.new ≡ bits_of other.now }
    {
        self.copy_words(other.words());
    }

    /// Whether the number is in the set.
    pub fn has(&self, number: u32) -> bool
        requires { number < length (bits_of self.now) }
        ensures { result ≡ has (bits_of self.now) number }
    {
        words::has(&self.words, number)
    }

    /// The least number in the set that is at least `from`, or the width if there is none.
    pub fn next(&self, from: u32) -> u32
        requires { from ≤ length (bits_of self.now) }
        ensures { IsNext (bits_of self.now) from result }
    {
        let width = self.width();
        let number = words::next(&self.words, from as usize);
        if number < width as usize {
            number as u32
        } else {
            width
        }
    }

    /// Adds the number.
    pub fn insert(&mut self, number: u32)
        requires { number < length (bits_of self.old) }
        ensures { bits_of self.new ≡ slice_set (bits_of self.old) number true }
    {
        words::insert(&mut self.words, number);
    }

    /// Removes the number.
    pub fn remove(&mut self, number: u32)
        requires { number < length (bits_of self.old) }
        ensures { bits_of self.new ≡ slice_set (bits_of self.old) number false }
    {
        words::remove(&mut self.words, number);
    }

    /// The numbers in the set, in ascending order.
    pub fn numbers(&self, alloc: Global) -> Result<Vec<u32>, NoMemory>
        ensures { IfOk result (λ numbers. numbers.items ≡ filter (has (bits_of self.now)) (range_with_len 0 (length (bits_of self.now)))) }
    {
        let mut numbers = Vec::new(alloc);
        self.list_numbers(&mut numbers)?;
        Ok(numbers)
    }

    /// Replaces the contents of `into` by the numbers in the set, in ascending order.
    ///
    /// # Errors
    /// Memory was refused: `into` is as it was.
    pub fn list_numbers(&self, into: &mut Vec<u32>) -> Result<(), NoMemory>
        ensures ok { OnOk result (into.new.items ≡ filter (has (bits_of self.now)) (range_with_len 0 (length (bits_of self.now)))) }
        ensures err { OnErr result (into.new.items ≡ into.old.items) }
    {
        prove!(self.words.len() == words::words_for(self.width())); // so that each number is a u32
        let before = into.len();
        if words::push_numbers(&self.words, into).is_err() {
            into.truncate(before);
            return Err(NoMemory);
        }
        into.rotate_left(before);
        into.truncate(into.len() - before);
        Ok(())
    }

    /// Whether each number of the mask is in the set. The program tests conditions literal by literal; this is for users of the
    /// library.
    pub fn has_all(&self, mask: &Mask) -> bool
        requires { length (bits_of self.now) ≡ length (mask_bits_of mask.now) }
        ensures { IsTrue result ↔ Includes (bits_of self.now) (mask_bits_of mask.now) }
    {
        words::includes(&self.words, &mask.set.words)
    }

    /// Whether no number of the mask is in the set. Like `has_all`, this is for users of the library.
    pub fn has_none(&self, mask: &Mask) -> bool
        requires { length (bits_of self.now) ≡ length (mask_bits_of mask.now) }
        ensures { IsTrue result ↔ AreDisjoint (bits_of self.now) (mask_bits_of mask.now) }
    {
        words::are_disjoint(&self.words, &mask.set.words)
    }

    /// Removes the numbers of `deletes`, then adds those of `adds`.
    pub fn change(&mut self, deletes: &Mask, adds: &Mask)
        requires deletes { length (bits_of self.old) ≡ length (mask_bits_of deletes.now) }
        requires adds { length (bits_of self.old) ≡ length (mask_bits_of adds.now) }
        ensures { bits_of self.new ≡ changed (bits_of self.old) (mask_bits_of deletes.now) (mask_bits_of adds.now) }
    {
        words::change(&mut self.words, &deletes.set.words, &adds.set.words);
    }
}

impl PartialEq for Packed {
    ghost use Rattle.std.proofs.Common.{rules};
    ghost use Rattle.std.specs.Bool.{beq};
    ghost use Rattle.std.specs.Cmp.Lexicographic.{pointwise};
    ghost use Rattle.std.specs.Cmp.Rules.{comparing};
    ghost use Rattle.packed_state.specs.Packed.{bits_of};

    ghost eq = { λ a b. pointwise beq (bits_of a) (bits_of b) };

    ghost laws = { Prim.search (comparing, rules) };

    fn eq(&self, other: &Packed) -> bool {
        self.width == other.width && words::are_same(&self.words, &other.words)
    }
}

impl Eq for Packed {
    ghost use Rattle.std.proofs.Common.{rules};
    ghost use Rattle.std.specs.Cmp.Rules.{comparing};

    ghost laws = { Prim.search (comparing, rules) };
}

impl Mask {
    ghost use Rattle.std.specs.Prelude.{IfOk};
    ghost use Rattle.std.specs.List.{All};
    ghost use Rattle.packed_state.specs.Sets.{set_of};
    ghost use Rattle.packed_state.specs.Packed.{mask_bits_of};

    /// The mask of these numbers below `width`.
    pub fn new(alloc: Global, width: u32, numbers: &[u32]) -> Result<Mask, NoMemory>
        requires { All (λ number. number < width) numbers.now }
        ensures { IfOk result (λ mask. mask_bits_of mask ≡ set_of width numbers.now) }
    {
        let set = Packed::new(alloc, width, numbers)?;
        Ok(Mask { set })
    }
}
