//! Potentials.
ghost use Rattle.std.specs.Prelude.{◌≡◌, All};
ghost use Rattle.std.proofs.Props.{props};
ghost use Rattle.lower_bounds.specs.PotentialFunctions as potential;
ghost use Rattle.lower_bounds.specs.PotentialFunctions.{IsInRange};

use crate::range::{are_in_range, is_in_range};
use crate::words::gained_in_word;
use faults::NoMemory;
use grounding::Ground;
use packed_state::Packed;
use std::alloc::Global;

/// A potential function: a constant and a weight for each numbered atom, each from -2147483647 to 2147483647.
#[derive(Debug, Drop)]
pub struct Potentials {
    constant: i64,
    weights: Vec<i64>,
    ghost constant_in_range: { IsInRange constant } by { Prim.hlevel props },
    ghost weights_in_range: { All IsInRange weights.items } by { Prim.hlevel props },
}

impl Potentials {
    ghost use Rattle.std.specs.Prelude.{◌<◌, ◌↔◌, IsSome, IfSome, IfOk, pos, set, length, replicate};
    ghost use Rattle.grounding.specs.Ground.{task_in, atoms_in};
    ghost use Rattle.packed_state.specs.Packed.{bits_of};
    ghost use Rattle.lower_bounds.specs.PotentialFunctions.{AreInRange};
    ghost use Rattle.lower_bounds.specs.FairPotentials.{AreFair};
    ghost use Rattle.potentials.specs.Potentials.{potentials_of};

    /// Potentials with this constant and these weights, each at the index of its atom's number. `None` exactly if one of them is
    /// out of range.
    pub fn new(constant: i64, weights: Vec<i64>) -> Option<Potentials>
        ensures in_range { IsSome result ↔ AreInRange (record { constant = constant; weights = weights.items }) }
        ensures given { IfSome result (λ p. potentials_of p ≡ record { constant = constant; weights = weights.items }) }
    {
        if !is_in_range(constant) {
            return None;
        }
        if !are_in_range(&weights) {
            return None;
        }
        Some(Potentials { constant, weights })
    }

    /// Potentials that are all 0, for the ground task. They are fair.
    pub fn zero(alloc: Global, ground: &Ground<'_>) -> Result<Potentials, NoMemory>
        ensures zero { IfOk result (λ p. potentials_of p ≡ record { constant = pos 0; weights = replicate (length (atoms_in ground.now)) (pos 0) }) }
        ensures fair { IfOk result (λ p. AreFair (task_in ground.now) (atoms_in ground.now) (potentials_of p)) }
    {
        let weights = vec![in alloc; 0; ground.width() as usize]?;
        Ok(Potentials {
            constant: 0,
            weights,
        })
    }

    /// A copy.
    ///
    /// # Errors
    /// An allocation failed.
    pub fn copied(&self, alloc: Global) -> Result<Potentials, NoMemory>
        ensures { IfOk result (λ p. potentials_of p ≡ potentials_of self.now) }
    {
        let weights = Vec::from_slice(alloc, &self.weights)?;
        Ok(Potentials {
            constant: self.constant,
            weights,
        })
    }

    /// The constant.
    pub fn constant(&self) -> i64
        ensures { result ≡ (potentials_of self.now).constant }
    {
        self.constant
    }

    /// The weights, each at the index of its atom's number.
    pub fn weights(&self) -> &[i64]
        ensures { result.now ≡ (potentials_of self.now).weights }
    {
        &self.weights
    }

    /// The value of the state: its score, or 0 if that is negative. There must be a weight for each of its atoms. Nothing is
    /// allocated.
    pub fn value(&self, state: &Packed) -> u64
        requires { length (bits_of state.now) ≡ length (potentials_of self.now).weights }
        ensures { result ≡ potential.value (potentials_of self.now) (bits_of state.now) }
    {
        or_zero(self.score(state))
    }

    /// The constant plus the weights of the atoms that are true in the state.
    pub fn score(&self, state: &Packed) -> i64
        requires { length (bits_of state.now) ≡ length (potentials_of self.now).weights }
        ensures { result ≡ potential.score (potentials_of self.now) (bits_of state.now) }
    {
        prove!(self.weights.len() == state.width() as usize); // so that each sum fits
        let words = state.words();
        let mut total = self.constant;
        'words: for place in 0..words.len() {
            let word = words[place];
            total += gained_in_word(&self.weights, place * 64, word, word);
        }
        total
    }

    /// The score of the state `after`, updated from that of `before`: the weights of the atoms that differ are added or
    /// subtracted.
    pub fn score_after(&self, score: i64, before: &Packed, after: &Packed) -> i64
        requires before_width { length (bits_of before.now) ≡ length (potentials_of self.now).weights }
        requires after_width { length (bits_of after.now) ≡ length (potentials_of self.now).weights }
        requires score { score ≡ potential.score (potentials_of self.now) (bits_of before.now) }
        ensures { result ≡ potential.score (potentials_of self.now) (bits_of after.now) }
    {
        prove!(self.weights.len() == before.width() as usize); // so that each sum fits
        let was = before.words();
        let is = after.words();
        let mut total = score;
        'words: for place in 0..was.len() {
            total += gained_in_word(&self.weights, place * 64, was[place] ^ is[place], is[place]);
        }
        total
    }

    /// The weight of the atom with this number.
    pub fn weight(&self, number: u32) -> i64
        requires { number < length (potentials_of self.now).weights }
        ensures value { result ≡ potential.weight (potentials_of self.now).weights number }
        ensures range { IsInRange result }
    {
        self.weights[number as usize]
    }

    /// Sets the weight of the atom with this number.
    pub fn set_weight(&mut self, number: u32, weight: i64)
        requires within { number < length (potentials_of self.old).weights }
        requires range { IsInRange weight }
        ensures { potentials_of self.new ≡ record { constant = (potentials_of self.old).constant; weights = set (potentials_of self.old).weights number weight } }
    {
        self.weights[number as usize] = weight;
    }

    /// Sets the constant.
    pub fn set_constant(&mut self, constant: i64)
        requires { IsInRange constant }
        ensures { potentials_of self.new ≡ record { constant = constant; weights = (potentials_of self.old).weights } }
    {
        self.constant = constant;
    }
}

/// The maximum of 0 and the number.
pub fn or_zero(number: i64) -> u64
    ensures { result ≡ potential.or_zero number }
{
    if number > 0 { number as u64 } else { 0 }
}
