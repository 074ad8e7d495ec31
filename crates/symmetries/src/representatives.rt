//! Representatives of the packed states of a ground task: greedy canonical states, as in Pochter, Zohar & Rosenschein 2011,
//! "Exploiting Problem Symmetries in State-Based Planners".
ghost use Rattle.std.specs.Prelude.{◌≡◌, true, length, map, is_some, IfOk, IfSome};
ghost use Rattle.std.specs.List.{list_all};
ghost use Rattle.std.proofs.Props.{props};
ghost use Rattle.grounding.specs.Ground.{atoms_in};
ghost use Rattle.symmetries_definitions.specs.Orbits.{keeps_atoms};
ghost use Rattle.symmetries.specs.Exchange.{exchange_of};
ghost use Rattle.symmetries.specs.NumberPairs.{pair_of};
ghost use Rattle.symmetries.specs.Runs.{swaps_in_runs};
ghost use Rattle.symmetries.specs.SwappedPlaces.{swap_of, swaps_of_all};
ghost use Rattle.symmetries.specs.Lowest.{AreAllNeighbours};

use crate::exchange::Exchange;
use crate::lowest::Lowest;
use crate::neighbours::neighbours;
use crate::numbers::exchanged_numbers;
use crate::pairs::{Pair, pairs_from};
use crate::run::Run;
use crate::runs::{exchange_bits, image_comes_before, runs_of_all};
use faults::NoMemory;
use grounding::Ground;
use packed_state::Packed;
use std::alloc::Global;

/// Exchanges of objects acting on the packed states of a ground task. A state's representative stands for its images.
pub struct Representatives<'g, 't, 'e> {
    ground: &'g Ground<'t>,
    exchanges: &'e [Exchange],
    /// For each exchange, the pairs of atoms that it swaps, by their lower numbers, in runs.
    swaps: Vec<Vec<Run>>,
    /// For each exchange, the lowest of those before it that share an atom with it.
    neighbours: Vec<Lowest>,
    ghost kept: { list_all (keeps_atoms (atoms_in ground.now)) (map exchange_of exchanges.now) ≡ true } by { Prim.hlevel props },
    ghost made: { swaps_in_runs swaps.items ≡ swaps_of_all (atoms_in ground.now) (map exchange_of exchanges.now) } by { Prim.hlevel props },
    ghost apart: { AreAllNeighbours (swaps_in_runs swaps.items) neighbours.items } by { Prim.hlevel props },
    ghost each: { length neighbours.items ≡ length swaps.items },
}

impl Drop for Representatives<'_, '_, '_> {
    fn drop(self) {
        let Self {
            ground: _,
            exchanges: _,
            swaps: _,
            neighbours: _,
        } = self;
    }
}

impl<'g, 't, 'e> Representatives<'g, 't, 'e> {
    ghost use Rattle.std.specs.Prelude.{◌<◌, Some};
    ghost use Rattle.packed_state.specs.Packed.{bits_of};
    ghost use Rattle.grounding.specs.Ground.{task_in};
    ghost use Rattle.symmetries_definitions.specs.Orbits.{packed_representative};
    ghost use Rattle.symmetries.specs.SwappedPlaces.{is_earlier_at, swapped_at, FindsFrom};
    ghost use Rattle.symmetries.specs.Representatives.{ground_of, task_of, atoms_of, exchanges_of, swaps_of};

    /// Representatives by these exchanges of the ground task's objects; `None` if one of them maps a numbered atom to one without a
    /// number.
    ///
    /// # Errors
    /// Memory was refused.
    pub fn new(
        alloc: Global,
        ground: &'g Ground<'t>,
        exchanges: &'e [Exchange],
    ) -> Result<Option<Representatives<'g, 't, 'e>>, NoMemory>
        ensures kept { IfOk result (λ made. is_some made ≡ list_all (keeps_atoms (atoms_in ground.now)) (map exchange_of exchanges.now)) }
        ensures task { IfOk result (λ made. IfSome made (λ r. task_of r ≡ task_in ground.now)) }
        ensures atoms { IfOk result (λ made. IfSome made (λ r. atoms_of r ≡ atoms_in ground.now)) }
        ensures exchanges { IfOk result (λ made. IfSome made (λ r. exchanges_of r ≡ map exchange_of exchanges.now)) }
        ensures ground { IfOk result (λ made. IfSome made (λ r. ground_of r ≡ ground.now)) }
    {
        let mut swaps = Vec::new(alloc);
        for exchange in exchanges {
            match pairs_of(alloc, ground, exchange)? {
                Some(pairs) => swaps.push(pairs)?,
                None => return Ok(None),
            }
        }
        let neighbours = neighbours(alloc, ground.width() as usize, swaps.as_slice())?;
        let runs = runs_of_all(alloc, swaps.as_slice())?;
        Ok(Some(Representatives {
            ground,
            exchanges,
            swaps: runs,
            neighbours,
        }))
    }

    /// The ground task.
    pub fn ground(&self) -> &'g Ground<'t>
        ensures task { task_in result.now ≡ task_of self.now }
        ensures atoms { atoms_in result.now ≡ atoms_of self.now }
        ensures ground { result.now ≡ ground_of self.now }
    {
        self.ground
    }

    /// The exchanges.
    pub fn exchanges(&self) -> &'e [Exchange]
        ensures { map exchange_of result.now ≡ exchanges_of self.now }
    {
        self.exchanges
    }

    /// Replaces a state by its representative: as long as the image by some exchange precedes it, the first such image takes its
    /// place, but (n + 1)^2 times at most, n the number of exchanges. Of two states, the one precedes in which the least atom in
    /// which they differ is true. No memory is taken.
    pub fn represent(&self, state: &mut Packed)
        requires { length (bits_of state.old) ≡ length (atoms_of self.now) }
        ensures { bits_of state.new ≡ packed_representative (task_of self.now) (atoms_of self.now) (exchanges_of self.now) (bits_of state.old) }
    {
        let count = self.swaps.len() + 1;
        let mut next = self.next_before(state, 0);
        'rounds: for _ in 0..count {
            'images: for _ in 0..count {
                let Some(number) = next else {
                    return;
                };
                next = self.take_image(number, state);
            }
        }
    }

    /// Replaces the state by its image by this exchange, the first whose image precedes it. Answers the first exchange whose image
    /// precedes the new state: none before this one that shares no atom with it.
    fn take_image(&self, number: usize, state: &mut Packed) -> Option<usize>
        requires wide { length (bits_of state.old) ≡ length (atoms_of self.now) }
        requires first { FindsFrom (swaps_of self.now) (bits_of state.old) 0 (Some number) }
        ensures image { bits_of state.new ≡ swapped_at (swaps_of self.now) (bits_of state.old) number }
        ensures next { FindsFrom (swaps_of self.now) (bits_of state.new) 0 result }
    {
        self.exchange(number, state);
        let lowest = &self.neighbours[number];
        for &neighbour in lowest.numbers.as_slice() {
            if self.comes_before(neighbour, state) {
                return Some(neighbour);
            }
        }
        self.next_before(state, lowest.from)
    }

    /// The first exchange, from this number on, whose image precedes the state.
    fn next_before(&self, state: &Packed, from: usize) -> Option<usize>
        requires { length (bits_of state.now) ≡ length (atoms_of self.now) }
        ensures { FindsFrom (swaps_of self.now) (bits_of state.now) from result }
    {
        for number in from..self.swaps.len() {
            if self.comes_before(number, state) {
                return Some(number);
            }
        }
        None
    }

    /// Whether the image by this exchange precedes the state.
    fn comes_before(&self, number: usize, state: &Packed) -> bool
        requires number { number < length (swaps_of self.now) }
        requires wide { length (bits_of state.now) ≡ length (atoms_of self.now) }
        ensures { result ≡ is_earlier_at (swaps_of self.now) (bits_of state.now) number }
    {
        image_comes_before(self.swaps[number].as_slice(), state)
    }

    /// Replaces the state by its image by this exchange.
    fn exchange(&self, number: usize, state: &mut Packed)
        requires number { number < length (swaps_of self.now) }
        requires wide { length (bits_of state.old) ≡ length (atoms_of self.now) }
        ensures { bits_of state.new ≡ swapped_at (swaps_of self.now) (bits_of state.old) number }
    {
        exchange_bits(self.swaps[number].as_slice(), state);
    }
}

/// The pairs of atoms that the exchange swaps; `None` if it maps a numbered atom to one without a number.
fn pairs_of(
    alloc: Global,
    ground: &Ground<'_>,
    exchange: &Exchange,
) -> Result<Option<Vec<Pair>>, NoMemory>
    ensures kept { IfOk result (λ found. is_some found ≡ keeps_atoms (atoms_in ground.now) (exchange_of exchange.now)) }
    ensures pairs { IfOk result (λ found. IfSome found (λ pairs. map pair_of pairs.items ≡ swap_of (atoms_in ground.now) (exchange_of exchange.now))) }
{
    let Some(numbers) = exchanged_numbers(alloc, ground.atoms(), exchange)? else {
        return Ok(None);
    };
    let pairs = pairs_from(alloc, numbers.as_slice())?;
    Ok(Some(pairs))
}
