//! Columns of greatest losses: one for each weight of a row, raised row by row.
ghost use Rattle.std.specs.Prelude.{◌≡◌, All, length};
ghost use Rattle.std.specs.Int.{int_max};
ghost use Rattle.lower_bounds.specs.PotentialFunctions.{IsInRange};
ghost use Rattle.table_rows.specs.Columns.{IsMost, AreAll, AreRaisedBy, AreSettled, IsSettled};

/// Stands where no loss is known yet. Any loss is greater.
pub(crate) const NOTHING_YET: i64 = i64::MIN;

/// Sets each entry to this number.
pub(crate) fn fill(most: &mut [i64], number: i64)
    ensures { AreAll number most.old most.new }
{
    for place in 0..most.len() {
        most[place] = number;
    }
}

/// Raises each entry to the difference of the two weights at its place, if that is greater.
pub(crate) fn raise(most: &mut [i64], from: &[i64], to: &[i64])
    requires from { length from.now ≡ length most.old }
    requires to { length to.now ≡ length most.old }
    requires from_range { All IsInRange from.now }
    requires to_range { All IsInRange to.now }
    requires range { All IsMost most.old }
    ensures raised { AreRaisedBy from.now to.now most.old most.new }
    ensures range { All IsMost most.new }
{
    for place in 0..most.len() {
        most[place] = greater(most[place], from[place] - to[place]);
    }
}

/// Sets the entries without a loss to 0.
pub(crate) fn settle(most: &mut [i64])
    requires { All IsMost most.old }
    ensures { AreSettled most.old most.new }
{
    for place in 0..most.len() {
        most[place] = settled(most[place]);
    }
}

/// The entry; 0 if it has no loss.
fn settled(most: i64) -> i64
    ensures { IsSettled most result }
{
    if most == NOTHING_YET { 0 } else { most }
}

/// The greater of two numbers.
pub(crate) fn greater(one: i64, other: i64) -> i64
    ensures { result ≡ int_max one other }
{
    if other < one { one } else { other }
}
