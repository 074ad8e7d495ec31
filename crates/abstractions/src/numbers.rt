//! Conversions between indices and `u32` numbers.
ghost use Rattle.std.specs.Prelude.{◌≡◌, ◌≤◌};

/// The index as a number; the greatest number if it is too large.
pub fn number_of(place: usize) -> u32
    ensures { result ≤ place }
{
    match u32::try_from(place) {
        Ok(number) => number,
        Err(_) => u32::MAX,
    }
}

/// The number as an index.
pub fn place_of(number: u32) -> usize
    ensures { result ≡ number }
{
    number as usize
}
