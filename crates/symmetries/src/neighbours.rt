//! Neighbours: exchanges that share an atom. Once an image is taken, only neighbours are tried again, since the image by any other
//! exchange precedes the state if and only if it did before.
ghost use Rattle.std.specs.Prelude.{◌≡◌, ◌<◌, ◌≤◌, ℕ, true, length, map, IfOk};
ghost use Rattle.symmetries.specs.NumberPairs.{pair_of, swaps_in, AreBelow};
ghost use Rattle.symmetries.specs.Apart.{is_in, AreAllWithin};
ghost use Rattle.symmetries.specs.Lowest.{may_move_at, AreLowest, AreAllNeighbours};

use crate::lowest::{Lowest, MOST};
use crate::pairs::Pair;
use arrayvec::ArrayVec;
use faults::NoMemory;
use std::alloc::Global;

/// For each exchange, the lowest of those before it that share an atom with it. All atoms are below `width`.
pub(crate) fn neighbours(
    alloc: Global,
    width: usize,
    swaps: &[Vec<Pair>],
) -> Result<Vec<Lowest>, NoMemory>
    requires { AreAllWithin width (swaps_in swaps.now) }
    ensures all { IfOk result (λ all. AreAllNeighbours (swaps_in swaps.now) all.items) }
    ensures each { IfOk result (λ all. length all.items ≡ length swaps.now) }
{
    // for each atom the lowest exchanges that move it
    let mut noted = none_noted(alloc, width)?;
    let mut all = Vec::new(alloc);
    for number in 0..swaps.len() {
        let lowest = neighbours_of(&noted, swaps[number].as_slice(), number);
        all.push(lowest)?;
        note(&mut noted, swaps[number].as_slice(), number);
    }
    Ok(all)
}

/// For each atom, no exchange yet.
fn none_noted(alloc: Global, width: usize) -> Result<Vec<Lowest>, NoMemory>
    ensures { IfOk result (λ noted. length noted.items ≡ width) }
{
    let mut noted = Vec::with_capacity(alloc, width)?;
    for _ in 0..width {
        noted.push(Lowest::new())?;
    }
    Ok(noted)
}

/// The lowest numbers below `number` that are noted at the atoms of the pairs.
fn neighbours_of(noted: &[Lowest], pairs: &[Pair], number: usize) -> Lowest
    requires { AreBelow (length noted.now) pairs.now }
    ensures { AreLowest noted.now (map pair_of pairs.now) number result.numbers.items result.from }
{
    let mut numbers = ArrayVec::new();
    let mut from = least_from(noted, pairs, 0, number);
    'lowest: for _ in 0..MOST {
        if from == number {
            return Lowest { numbers, from };
        }
        numbers.push(from);
        from = least_from(noted, pairs, from + 1, number);
    }
    Lowest { numbers, from }
}

/// A lower bound of `number` and of what is noted, from `start` on, at the atoms of the pairs.
fn least_from(noted: &[Lowest], pairs: &[Pair], start: usize, number: usize) -> usize
    requires { AreBelow (length noted.now) pairs.now }
    ensures most { result ≤ number }
    ensures least { (atom n : ℕ) → is_in (map pair_of pairs.now) atom ≡ true → may_move_at noted.now atom n ≡ true → start ≤ n → result ≤ n }
{
    let mut least = number;
    for &pair in pairs {
        let lower = first_at(noted, pair.lower as usize, start);
        let upper = first_at(noted, pair.upper as usize, start);
        least = least.min(lower).min(upper);
    }
    least
}

/// A lower bound of what is noted at this place, from `start` on.
fn first_at(noted: &[Lowest], place: usize, start: usize) -> usize
    requires { place < length noted.now }
    ensures { (n : ℕ) → may_move_at noted.now place n ≡ true → start ≤ n → result ≤ n }
{
    noted[place].first_from(start)
}

/// Notes the exchange at the atoms of its pairs.
fn note(noted: &mut [Lowest], pairs: &[Pair], number: usize)
    requires { AreBelow (length noted.old) pairs.now }
    ensures wide { length noted.new ≡ length noted.old }
    ensures kept { (atom n : ℕ) → may_move_at noted.old atom n ≡ true → may_move_at noted.new atom n ≡ true }
    ensures noted { (atom : ℕ) → is_in (map pair_of pairs.now) atom ≡ true → may_move_at noted.new atom number ≡ true }
{
    for &pair in pairs {
        note_at(noted, pair.lower as usize, number);
        note_at(noted, pair.upper as usize, number);
    }
}

/// Notes the exchange at this place.
fn note_at(noted: &mut [Lowest], place: usize, number: usize)
    requires { place < length noted.old }
    ensures wide { length noted.new ≡ length noted.old }
    ensures kept { (atom n : ℕ) → may_move_at noted.old atom n ≡ true → may_move_at noted.new atom n ≡ true }
    ensures noted { may_move_at noted.new place number ≡ true }
{
    noted[place].note(number);
}
