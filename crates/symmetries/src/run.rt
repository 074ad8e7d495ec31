//! A run of pairs of atoms, whose bits are compared a word at a time.
ghost use Rattle.std.specs.Prelude.{◌≡◌, ◌<◌, ◌-◌, ◌%◌, ◌^◌};
ghost use Rattle.std.specs.Int.{bit_at};

use crate::pairs::Pair;
use packed_state::Packed;

/// Pairs of atoms at the same distance, whose lower numbers are in one word of a state, and whose upper numbers too.
#[derive(Clone, Copy)]
pub(crate) struct Run {
    /// The first pair.
    pub(crate) lower: u32,
    pub(crate) upper: u32,
    /// Bit i is set if `lower + i` and `upper + i` are a pair.
    mask: u64,
    ghost first: { bit_at mask 0 ≡ 1 },
    ghost lower_inside: { mask < 2 ^ (64 - lower % 64) },
    ghost upper_inside: { mask < 2 ^ (64 - upper % 64) },
}

impl Run {
    ghost use Rattle.std.specs.Prelude.{◌+◌, ◌==◌, ◌++◌, ℕ, [], ◌∷◌, IfSome, IsTrue, length};
    ghost use Rattle.packed_state.specs.Packed.{bits_of};
    ghost use Rattle.symmetries.specs.NumberPairs.{pair_of};
    ghost use Rattle.symmetries.specs.Runs.{pairs_in, differs_at, IsBelow};

    /// The run of one pair.
    pub(crate) fn new(pair: Pair) -> Run
        ensures { pairs_in result ≡ pair_of pair ∷ [] }
    {
        Run {
            lower: pair.lower,
            upper: pair.upper,
            mask: 1,
        }
    }

    /// The run with this pair appended; `None` if it does not fit.
    pub(crate) fn with(self, pair: Pair) -> Option<Run>
        ensures { IfSome result (λ run. pairs_in run ≡ pairs_in self ++ pair_of pair ∷ []) }
    {
        let place = pair.lower.checked_sub(self.lower)?;
        let upper_place = pair.upper.checked_sub(self.upper)?;
        if place != upper_place || !self.has_room(place) {
            return None;
        }
        Some(Run {
            lower: self.lower,
            upper: self.upper,
            mask: self.mask | 1 << place,
        })
    }

    /// Whether a pair at this place is in the same words, and after all others.
    fn has_room(self, place: u32) -> bool
        ensures lower { IsTrue result → self.lower % 64 + place < 64 }
        ensures upper { IsTrue result → self.upper % 64 + place < 64 }
        ensures after { IsTrue result → self.mask < 2 ^ place }
    {
        place < 64 - self.lower % 64 && place < 64 - self.upper % 64 && self.mask >> place == 0
    }

    /// The places of the pairs whose bits differ in the state.
    pub(crate) fn differing(self, state: &Packed) -> u64
        requires { IsBelow (length (bits_of state.now)) self }
        ensures { (place : ℕ) → (bit_at result place == 1) ≡ differs_at self (bits_of state.now) place }
    {
        let words = state.words();
        let lower = words[self.lower as usize / 64] >> (self.lower % 64);
        let upper = words[self.upper as usize / 64] >> (self.upper % 64);
        (lower ^ upper) & self.mask
    }
}
