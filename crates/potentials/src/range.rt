//! The range of constants and weights.
ghost use Rattle.std.specs.Prelude.{◌↔◌, All, IsTrue};
ghost use Rattle.lower_bounds.specs.PotentialFunctions.{IsInRange};

/// The greatest constant and weight; the least is its negative.
pub const MAX_WEIGHT: i64 = 2_147_483_647;

/// Whether the number may be a constant or a weight.
pub fn is_in_range(number: i64) -> bool
    ensures { IsTrue result ↔ IsInRange number }
{
    -MAX_WEIGHT <= number && number <= MAX_WEIGHT
}

/// Whether all numbers may be.
pub(crate) fn are_in_range(numbers: &[i64]) -> bool
    ensures { IsTrue result ↔ All IsInRange numbers.now }
{
    numbers.iter().all(|number| is_in_range(*number))
}
