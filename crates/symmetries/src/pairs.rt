//! Pairs of atoms that an exchange swaps, by number.
ghost use Rattle.std.specs.Prelude.{◌≡◌, ◌^◌, IfOk, IsTrue, map};
ghost use Rattle.symmetries.specs.SwappedPlaces.{are_within};
ghost use Rattle.symmetries.specs.NumberPairs.{pair_of};

use faults::NoMemory;
use std::alloc::Global;

/// The numbers of two atoms that an exchange swaps.
#[derive(Clone, Copy)]
pub(crate) struct Pair {
    pub(crate) lower: u32,
    pub(crate) upper: u32,
}

/// The pairs of these numbers.
pub(crate) fn pairs_from(alloc: Global, numbers: &[(usize, usize)]) -> Result<Vec<Pair>, NoMemory>
    requires { IsTrue (are_within (2 ^ 32) numbers.now) }
    ensures { IfOk result (λ pairs. map pair_of pairs.items ≡ numbers.now) }
{
    let mut pairs = Vec::new(alloc);
    for &(lower, upper) in numbers {
        pairs.push(Pair {
            lower: lower as u32,
            upper: upper as u32,
        })?;
    }
    Ok(pairs)
}
