//! Literals of a scope's atoms, by place.
ghost use Rattle.std.specs.Prelude.{◌≡◌, ◌<◌, ◌==◌, ◌++◌, ◌∷◌, ◌^◌, [], All, IfOk, OnOk, length, map};
ghost use Rattle.std.specs.List.{filter_map, list_all};
ghost use Rattle.grounding.specs.Views.{numbered_of};
ghost use Rattle.packed_state.specs.Packed.{bits_of};
ghost use Rattle.table_rows.specs.Placed as model;
ghost use Rattle.table_rows.specs.Placed.{placed_of, placed_in};

use crate::places::place_in;
use faults::NoMemory;
use grounding::NumberedLiteral;
use packed_state::Packed;
use std::alloc::Global;

/// A literal of one of a scope's atoms.
#[derive(Clone, Copy, Debug)]
pub(crate) struct PlacedLiteral {
    /// The atom's place in the scope, from 0.
    pub(crate) place: u32,
    /// Whether the atom is true.
    pub(crate) value: bool,
}

/// The literals of the scope's atoms, in order.
pub(crate) fn placed(
    alloc: Global,
    scope: &[u32],
    literals: &[NumberedLiteral],
) -> Result<Vec<PlacedLiteral>, NoMemory>
    requires { length scope.now < 2 ^ 32 }
    ensures { IfOk result (λ found. map placed_of found.items ≡ filter_map (placed_in scope.now) (map numbered_of literals.now)) }
{
    let mut found = Vec::new(alloc);
    for literal in literals {
        add_placed(scope, literal, &mut found)?;
    }
    Ok(found)
}

/// Adds the literal, if its atom is in the scope.
fn add_placed(
    scope: &[u32],
    literal: &NumberedLiteral,
    found: &mut Vec<PlacedLiteral>,
) -> Result<(), NoMemory>
    requires { length scope.now < 2 ^ 32 }
    ensures { OnOk result (map placed_of found.new.items ≡ map placed_of found.old.items ++ filter_map (placed_in scope.now) (numbered_of literal.now ∷ [])) }
{
    match place_in(scope, literal.atom) {
        Some(place) => {
            found.push(PlacedLiteral {
                place,
                value: literal.value,
            })?;
            Ok(())
        }
        None => Ok(()),
    }
}

/// Whether all literals are true of the set.
pub(crate) fn all_are_so(set: &Packed, literals: &[PlacedLiteral]) -> bool
    requires { All (λ (l : model.PlacedLiteral). l.place < length (bits_of set.now)) (map placed_of literals.now) }
    ensures { result ≡ list_all (model.is_so (bits_of set.now)) (map placed_of literals.now) }
{
    for literal in literals {
        if !is_so(set, literal) {
            return false;
        }
    }
    true
}

/// Whether the literal is true of the set.
fn is_so(set: &Packed, literal: &PlacedLiteral) -> bool
    requires { literal.now.place < length (bits_of set.now) }
    ensures { result ≡ model.is_so (bits_of set.now) (placed_of literal.now) }
{
    set.has(literal.place) == literal.value
}
