//! Replaces a value by another and drops the old one. Generic, so that callers' proofs need not unfold either value.
ghost use Rattle.std.specs.Prelude.{◌≡◌};
ghost use Rattle.pddl_tree.specs.Reading.{IsPut};

use crate::look::Parsed;
use crate::word_fault::WordFault;

/// Puts a value in place of another.
pub fn replace<T: Drop>(place: &mut T, value: T)
    ensures { place.new ≡ value }
{
    *place = value;
}

/// Puts the value that was read in place of another: the index after it.
pub fn put<T: Drop>(place: &mut T, read: Parsed<T>) -> Result<usize, WordFault>
    ensures { IsPut read place.new result }
{
    match read {
        Ok((value, next)) => {
            *place = value;
            Ok(next)
        }
        Err(fault) => Err(fault),
    }
}
