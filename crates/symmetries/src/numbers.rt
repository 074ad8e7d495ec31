//! The numbered atoms that an exchange swaps.
ghost use Rattle.std.specs.Prelude.{◌≡◌, ◌<◌, ◌++◌, ◌∷◌, [], nat_lt, if◌then◌else◌, is_some, length, map, IfOk, IfSome, OnOk};
ghost use Rattle.task.specs.TaskParts.{atom_of};
ghost use Rattle.symmetries.specs.Exchange.{exchange_of, image};
ghost use Rattle.symmetries.specs.Numbers as defined;
ghost use Rattle.symmetries_definitions.specs.Orbits.{keeps_atoms};

use crate::exchange::Exchange;
use crate::images::image_of_atom;
use faults::NoMemory;
use indexmap::IndexSet;
use std::alloc::Global;
use task::Atom;

/// The pairs of atoms, by number, that the exchange swaps: the lower number first in each pair, and the pairs in ascending order.
/// An atom's number is its index. `None` if the image of some atom is not among the atoms.
///
/// # Errors
/// An allocation failed, which says nothing about the atoms.
pub fn exchanged_numbers(
    alloc: Global,
    atoms: &IndexSet<Atom>,
    exchange: &Exchange,
) -> Result<Option<Vec<(usize, usize)>>, NoMemory>
    ensures kept { IfOk result (λ found. is_some found ≡ keeps_atoms (map atom_of atoms.now.keys) (exchange_of exchange.now)) }
    ensures pairs { IfOk result (λ found. IfSome found (λ pairs. pairs.items ≡ defined.exchanged_numbers (map atom_of atoms.now.keys) (image exchange.now))) }
{
    let mut pairs = Vec::new(alloc);
    for number in 0..atoms.len() {
        match number_of_image(atoms, exchange, number) {
            Some(other) => add_if_rising(number, other, &mut pairs)?,
            None => return Ok(None),
        }
    }
    Ok(Some(pairs))
}

/// The number of the image of the atom with this number, if there is one.
fn number_of_image(atoms: &IndexSet<Atom>, exchange: &Exchange, number: usize) -> Option<usize>
    ensures { result ≡ defined.image_number (map atom_of atoms.now.keys) (image exchange.now) number }
{
    let Some(atom) = atoms.get_index(number) else {
        return None;
    };
    let image = image_of_atom(exchange, atom);
    atoms.get_index_of(&image)
}

/// Adds this pair of numbers if the first is the lower one.
fn add_if_rising(
    number: usize,
    other: usize,
    pairs: &mut Vec<(usize, usize)>,
) -> Result<(), NoMemory>
    ensures { OnOk result (pairs.new.items ≡ pairs.old.items ++ (if nat_lt number other then (number, other) ∷ [] else [])) }
{
    if number < other {
        pairs.push((number, other))?;
    }
    Ok(())
}
