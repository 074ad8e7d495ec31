//! Upper bounds of an instance's loss.
ghost use Rattle.std.specs.Prelude.{◌≡◌, ◌<◌, ◌≤◌, ◌^◌, if◌then◌else◌, pos, All, Some, length, map, take, slice_get};
ghost use Rattle.grounding.specs.Views.{numbered_of};
ghost use Rattle.grounding.specs.declared.changes.CountingChange.{CountingChange};
ghost use Rattle.grounding.specs.Changes.{counting_of};
ghost use Rattle.model.specs.NumberedLiterals.{NumberedChange};
ghost use Rattle.lower_bounds.specs.PotentialFunctions.{weight, IsInRange};
ghost use Rattle.lower_bounds.specs.FairPotentials as model;

use crate::swing::{Swing, touches};
use grounding::{CountingChange, NumberedLiteral};

/// The weight of the atom with this number.
pub(crate) fn weight_of(weights: &[i64], atom: u32) -> i64
    requires { All IsInRange weights.now }
    ensures value { result ≡ weight weights.now atom }
    ensures range { IsInRange result }
{
    weight_at(weights, atom as usize)
}

/// The weight at this index; 0 past the end.
pub(crate) fn weight_at(weights: &[i64], place: usize) -> i64
    requires { All IsInRange weights.now }
    ensures value { result ≡ weight weights.now place }
    ensures range { IsInRange result }
{
    match weights.get(place) {
        Some(weight) => *weight,
        None => 0,
    }
}

/// Upper bound of the loss of an instance with these literals and changes, for these weights.
pub fn loses_at_most(
    literals: &[NumberedLiteral],
    changes: &[CountingChange<'_>],
    weights: &[i64],
) -> i64
    requires range { All IsInRange weights.now }
    requires few { length weights.now < 2 ^ 32 }
    requires below { All (λ (c : NumberedChange). c.atom < length weights.now) (map counting_of changes.now) }
    ensures { result ≡ model.loses_at_most (length weights.now) weights.now (map numbered_of literals.now) (map counting_of changes.now) }
{
    let mut total = 0i64;
    for place in 0..changes.len() {
        total += loses_by(literals, changes, place, weights);
    }
    total
}

/// Upper bound of its loss by the atom of the change at this index; 0 if an earlier change is of the same atom.
fn loses_by(
    literals: &[NumberedLiteral],
    changes: &[CountingChange<'_>],
    place: usize,
    weights: &[i64],
) -> i64
    requires range { All IsInRange weights.now }
    requires within { place < length changes.now }
    ensures value { (c : CountingChange) → slice_get changes.now place ≡ Some c
        → result ≡ (if model.touches (map counting_of (take place changes.now)) c.atom then pos 0
        else model.worst (map numbered_of literals.now) (map counting_of changes.now) (weight weights.now c.atom) c.atom) }
    ensures range { IsInRange result }
{
    let atom = changes[place].atom;
    if touches(&changes[..place], atom) {
        return 0;
    }
    Swing::new(literals, changes, atom).worst(weight_of(weights, atom))
}
