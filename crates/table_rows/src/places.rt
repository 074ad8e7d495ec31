//! The indices of atoms in a scope.
ghost use Rattle.std.specs.Prelude.{◌≡◌, ◌<◌, ◌^◌, ◌++◌, ◌∷◌, [], IsTrue, IfOk, OnOk, length};
ghost use Rattle.packed_state.specs.Packed.{bits_of};
ghost use Rattle.packed_state.specs.Sets.{has};
ghost use Rattle.table_rows.specs.Places.{IsSetOf};
ghost use Rattle.table_rows.specs.Rows as model;
ghost use Rattle.table_rows.specs.Rows.{are_rising, atoms_at};

use faults::NoMemory;
use packed_state::Packed;
use std::alloc::Global;

/// The index of the atom in the scope, if it is there.
pub(crate) fn place_in(scope: &[u32], atom: u32) -> Option<u32>
    requires { length scope.now < 2 ^ 32 }
    ensures { result ≡ model.place_in scope.now atom }
{
    match position_in(scope, atom) {
        Some(place) => Some(place as u32),
        None => None,
    }
}

/// The same, as a `usize`.
fn position_in(scope: &[u32], atom: u32) -> Option<usize>
    ensures { result ≡ model.place_in scope.now atom }
{
    scope.iter().position(|number| *number == atom)
}

/// The indices of these atoms in the scope, or `None` if one is not there.
pub(crate) fn set_of(
    alloc: Global,
    scope: &[u32],
    atoms: &[u32],
) -> Result<Option<Packed>, NoMemory>
    requires few { length scope.now < 2 ^ 32 }
    requires rising { IsTrue (are_rising scope.now) }
    ensures { IfOk result (IsSetOf scope.now atoms.now) }
{
    let mut set = Packed::empty(alloc, scope.len() as u32)?;
    for atom in atoms {
        let Some(place) = place_in(scope, *atom) else {
            return Ok(None);
        };
        set.insert(place);
    }
    Ok(Some(set))
}

/// Appends the atoms of the scope whose indices are in the set.
pub(crate) fn list_atoms(scope: &[u32], set: &Packed, atoms: &mut Vec<u32>) -> Result<(), NoMemory>
    requires few { length scope.now < 2 ^ 32 }
    requires width { length (bits_of set.now) ≡ length scope.now }
    ensures { OnOk result (atoms.new.items ≡ atoms.old.items ++ atoms_at scope.now (bits_of set.now)) }
{
    for place in 0..scope.len() {
        push_if_in(set, place as u32, scope[place], atoms)?;
    }
    Ok(())
}

/// Appends the atom if its index is in the set.
fn push_if_in(set: &Packed, place: u32, atom: u32, atoms: &mut Vec<u32>) -> Result<(), NoMemory>
    requires { place < length (bits_of set.now) }
    ensures { OnOk result (atoms.new.items ≡ atoms.old.items ++ atoms_at (atom ∷ []) (has (bits_of set.now) place ∷ [])) }
{
    if !set.has(place) {
        return Ok(());
    }
    atoms.push(atom)?;
    Ok(())
}
