//! Images of packed states by runs of pairs.
ghost use Rattle.std.specs.Prelude.{◌≡◌, ◌<◌, ◌++◌, [], ◌∷◌, IfOk, OnOk, MatchBool, length, map, slice_set};
ghost use Rattle.packed_state.specs.Packed.{bits_of};
ghost use Rattle.packed_state.specs.Sets.{has};
ghost use Rattle.symmetries.specs.SwappedPlaces.{is_earlier, with_swapped};
ghost use Rattle.symmetries.specs.NumberPairs.{pair_of, swaps_in};
ghost use Rattle.symmetries.specs.Runs.{pairs_in, pairs_in_all, swaps_in_runs, IsBelow, AreBelow};

use crate::pairs::Pair;
use crate::run::Run;
use faults::NoMemory;
use packed_state::Packed;
use std::alloc::Global;

/// The pairs of each exchange in runs.
pub(crate) fn runs_of_all(alloc: Global, swaps: &[Vec<Pair>]) -> Result<Vec<Vec<Run>>, NoMemory>
    ensures { IfOk result (λ all. swaps_in_runs all.items ≡ swaps_in swaps.now) }
{
    let mut all = Vec::new(alloc);
    for swap in swaps {
        let runs = runs_of(alloc, swap.as_slice())?;
        all.push(runs)?;
    }
    Ok(all)
}

/// The pairs in runs, in the same order.
fn runs_of(alloc: Global, pairs: &[Pair]) -> Result<Vec<Run>, NoMemory>
    ensures { IfOk result (λ runs. pairs_in_all runs.items ≡ map pair_of pairs.now) }
{
    let mut runs = Vec::new(alloc);
    for &pair in pairs {
        add(&mut runs, pair)?;
    }
    Ok(runs)
}

/// Appends the pair to the last run, or as a run of its own if it does not fit there.
fn add(runs: &mut Vec<Run>, pair: Pair) -> Result<(), NoMemory>
    ensures { OnOk result (pairs_in_all runs.new.items ≡ pairs_in_all runs.old.items ++ pair_of pair ∷ []) }
{
    if !fits_last(runs, pair) {
        runs.push(Run::new(pair))?;
    }
    Ok(())
}

/// Appends the pair to the last run, if it fits there.
fn fits_last(runs: &mut Vec<Run>, pair: Pair) -> bool
    ensures { MatchBool result (pairs_in_all runs.new.items ≡ pairs_in_all runs.old.items ++ pair_of pair ∷ []) (runs.new.items ≡ runs.old.items) }
{
    let Some(last) = runs.last_mut() else {
        return false;
    };
    let Some(longer) = last.with(pair) else {
        return false;
    };
    *last = longer;
    true
}

/// Whether the image of the state, in which the bits of each pair are swapped, precedes it: in the first pair whose bits differ, the
/// upper bit is set.
pub(crate) fn image_comes_before(runs: &[Run], state: &Packed) -> bool
    requires { AreBelow (length (bits_of state.now)) runs.now }
    ensures { result ≡ is_earlier (pairs_in_all runs.now) (has (bits_of state.now)) }
{
    prove!(state.width() <= u32::MAX); // so that each number below it is a u32
    for &run in runs {
        let differing = run.differing(state);
        if differing != 0 {
            return state.has(run.upper + differing.trailing_zeros());
        }
    }
    false
}

/// Replaces the state by its image: swaps the bits of each pair.
pub(crate) fn exchange_bits(runs: &[Run], state: &mut Packed)
    requires { AreBelow (length (bits_of state.old)) runs.now }
    ensures { bits_of state.new ≡ with_swapped (pairs_in_all runs.now) (bits_of state.old) }
{
    for &run in runs {
        exchange_run(run, state);
    }
}

/// Swaps the bits of each pair of the run.
fn exchange_run(run: Run, state: &mut Packed)
    requires { IsBelow (length (bits_of state.old)) run }
    ensures { bits_of state.new ≡ with_swapped (pairs_in run) (bits_of state.old) }
{
    prove!(state.width() <= u32::MAX); // so that each number below it is a u32
    let mut from = 0;
    'places: while from < 64 {
        let differing = run.differing(state) >> from;
        if differing == 0 {
            return;
        }
        let place = from + differing.trailing_zeros();
        exchange_pair(state, run.lower + place, run.upper + place);
        from = place + 1;
    }
}

/// Swaps the bits of two numbers.
fn exchange_pair(state: &mut Packed, lower: u32, upper: u32)
    requires lower { lower < length (bits_of state.old) }
    requires upper { upper < length (bits_of state.old) }
    ensures { bits_of state.new ≡ slice_set (slice_set (bits_of state.old) lower (has (bits_of state.old) upper)) upper (has (bits_of state.old) lower) }
{
    let lower_bit = state.has(lower);
    let upper_bit = state.has(upper);
    put(state, lower, upper_bit);
    put(state, upper, lower_bit);
}

/// Sets the number's bit to `value`.
fn put(state: &mut Packed, number: u32, value: bool)
    requires { number < length (bits_of state.old) }
    ensures { bits_of state.new ≡ slice_set (bits_of state.old) number value }
{
    if value {
        state.insert(number);
    } else {
        state.remove(number);
    }
}
