//! Sums of weights, word by word, for packed states.
ghost use Rattle.std.specs.Prelude.{◌≡◌, ◌+◌, ◌^◌, ◌<◌, ◌==◌, neg_ℤ, All, if◌then◌else◌};
ghost use Rattle.std.specs.Int.{bit_at};
ghost use Rattle.lower_bounds.specs.PotentialFunctions.{weight, IsInRange};
ghost use Rattle.potentials.specs.Words as model;

use crate::losses::weight_at;

/// The gain of the atoms in one word, whose lowest bit stands for atom `first`, when the bits set in `changed` take their values
/// from `after`. Other bits are ignored.
pub(crate) fn gained_in_word(weights: &[i64], first: usize, changed: u64, after: u64) -> i64
    requires range { All IsInRange weights.now }
    requires few { first + 64 < 2 ^ 64 }
    ensures { result ≡ model.gained_in_word weights.now first changed after }
{
    let mut total = 0i64;
    let mut rest = changed;
    'rest: while rest != 0 {
        let bit = rest.trailing_zeros();
        total += gained_by(weights, first + bit as usize, after, bit);
        rest &= !(1 << bit);
    }
    total
}

/// The gain of the atom with this number: its weight if its bit is set in `after`, otherwise the negated weight.
fn gained_by(weights: &[i64], number: usize, after: u64, bit: u32) -> i64
    requires range { All IsInRange weights.now }
    requires within { bit < 64 }
    ensures value { result ≡ (if bit_at after bit == 1 then weight weights.now number else neg_ℤ (weight weights.now number)) }
    ensures range { IsInRange result }
{
    let weight = weight_at(weights, number);
    if (after >> bit) & 1 == 1 {
        weight
    } else {
        -weight
    }
}
