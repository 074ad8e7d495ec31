//! The numbering of atoms.
ghost use Rattle.std.specs.Prelude.{◌≡◌, ◌≤◌, [], ◌∷◌, if◌then◌else◌, None, map, length, IfOk, IfErr, OnOk, IsTrue};
ghost use Rattle.std.specs.List.{flat_map, list_all};
ghost use Rattle.task.specs.Task.{task_of};
ghost use Rattle.task.specs.TaskParts.{atom_of};
ghost use Rattle.formulas.specs.State.{instance_of};
ghost use Rattle.model.specs.Meaning.{is_instance};
ghost use Rattle.model.specs.Fluents as model_fluents;
ghost use Rattle.model.specs.StaticallyFalse as statically_false;
ghost use Rattle.model.specs.NumberedAtoms as numbered;
ghost use Rattle.grounding_instances.specs.Atoms.{ReportsAtoms};
ghost use Rattle.grounding_instances.specs.KeptNumbers.{IsNumberOf};
ghost use Rattle.grounding_instances.specs.KeptChanges.{IsEmpty, AreKept};

use crate::changes::{KeptChanges, number_instance};
use crate::fault::{GroundFault, GroundLimit};
use crate::numbers::number_of;
use crate::statics::Statics;
use formulas::Instance;
use indexmap::IndexSet;
use task::Atom;

/// The maximum number of numbered atoms.
pub const MAX_ATOMS: usize = 1_048_576;

/// The numbered atoms, each at the index of its number: `more`, in its order; then the fluent atoms that are initially true; then
/// the atoms that a counting change of a kept instance adds or deletes. These changes are kept.
///
/// # Errors
/// [`GroundLimit::Atoms`] if there are more than [`MAX_ATOMS`]; or an allocation failed.
pub(crate) fn numbered_atoms<'t>(
    statics: &Statics<'t>,
    more: &[Atom],
    kept: &[Instance],
    changes: &mut KeptChanges<'t>,
) -> Result<IndexSet<Atom>, GroundFault>
    requires { map instance_of kept.now ≡ statically_false.kept_instances (task_of statics.now.task.now) }
    ensures numbered { IfOk result (λ atoms. map atom_of atoms.keys ≡ numbered.numbered_atoms (task_of statics.now.task.now) (map atom_of more.now)) }
    ensures few { IfOk result (λ atoms. length atoms.keys ≤ MAX_ATOMS) }
    ensures reported { IfErr result (ReportsAtoms (numbered.numbered_atoms (task_of statics.now.task.now) (map atom_of more.now))) }
    ensures kept { IfOk result (λ atoms. IsEmpty changes.old → AreKept (task_of statics.now.task.now) (map atom_of atoms.keys) (map instance_of kept.now) changes.new) }
{
    let mut atoms = IndexSet::new(statics.alloc);
    number_all(&mut atoms, more)?;
    number_initial(statics, &mut atoms)?;
    number_touched(statics, kept, &mut atoms, changes)?;
    Ok(atoms)
}

/// Numbers each of the atoms.
fn number_all(atoms: &mut IndexSet<Atom>, list: &[Atom]) -> Result<(), GroundFault>
    requires { length atoms.old.keys ≤ MAX_ATOMS }
    ensures numbered { OnOk result (map atom_of atoms.new.keys ≡ numbered.with_atoms (map atom_of atoms.old.keys) (map atom_of list.now)) }
    ensures few { OnOk result (length atoms.new.keys ≤ MAX_ATOMS) }
    ensures reported { IfErr result (ReportsAtoms (numbered.with_atoms (map atom_of atoms.old.keys) (map atom_of list.now))) }
{
    for atom in list {
        number(atoms, atom)?;
    }
    Ok(())
}

/// Numbers the fluent atoms that are initially true.
fn number_initial(statics: &Statics<'_>, atoms: &mut IndexSet<Atom>) -> Result<(), GroundFault>
    requires { length atoms.old.keys ≤ MAX_ATOMS }
    ensures numbered { OnOk result (map atom_of atoms.new.keys ≡ numbered.with_atoms (map atom_of atoms.old.keys) (numbered.initial_fluent_atoms (task_of statics.now.task.now))) }
    ensures few { OnOk result (length atoms.new.keys ≤ MAX_ATOMS) }
    ensures reported { IfErr result (ReportsAtoms (numbered.with_atoms (map atom_of atoms.old.keys) (numbered.initial_fluent_atoms (task_of statics.now.task.now)))) }
{
    for atom in statics.task.init() {
        number_if_fluent(statics, atom, atoms)?;
    }
    Ok(())
}

/// Numbers the atom, if it is fluent.
fn number_if_fluent(
    statics: &Statics<'_>,
    atom: &Atom,
    atoms: &mut IndexSet<Atom>,
) -> Result<(), GroundFault>
    requires { length atoms.old.keys ≤ MAX_ATOMS }
    ensures numbered { OnOk result (map atom_of atoms.new.keys ≡ numbered.with_atoms (map atom_of atoms.old.keys)
        (if model_fluents.is_fluent (task_of statics.now.task.now) (atom_of atom.now).predicate then atom_of atom.now ∷ [] else [])) }
    ensures few { OnOk result (length atoms.new.keys ≤ MAX_ATOMS) }
    ensures reported { IfErr result (ReportsAtoms (numbered.with_atoms (map atom_of atoms.old.keys)
        (if model_fluents.is_fluent (task_of statics.now.task.now) (atom_of atom.now).predicate then atom_of atom.now ∷ [] else []))) }
{
    if !statics.is_fluent(atom.predicate) {
        return Ok(());
    }
    number(atoms, atom)?;
    Ok(())
}

/// Numbers the atoms that counting changes of the instances add or delete, and keeps these changes.
fn number_touched<'t>(
    statics: &Statics<'t>,
    instances: &[Instance],
    atoms: &mut IndexSet<Atom>,
    kept: &mut KeptChanges<'t>,
) -> Result<(), GroundFault>
    requires few { length atoms.old.keys ≤ MAX_ATOMS }
    requires instances { IsTrue (list_all (is_instance (task_of statics.now.task.now)) (map instance_of instances.now)) }
    ensures numbered { OnOk result (map atom_of atoms.new.keys ≡ numbered.with_atoms (map atom_of atoms.old.keys) (flat_map (numbered.touched_by (task_of statics.now.task.now)) (map instance_of instances.now))) }
    ensures few { OnOk result (length atoms.new.keys ≤ MAX_ATOMS) }
    ensures reported { IfErr result (ReportsAtoms (numbered.with_atoms (map atom_of atoms.old.keys) (flat_map (numbered.touched_by (task_of statics.now.task.now)) (map instance_of instances.now)))) }
    ensures kept { OnOk result (IsEmpty kept.old → AreKept (task_of statics.now.task.now) (map atom_of atoms.new.keys) (map instance_of instances.now) kept.new) }
{
    for instance in instances {
        number_instance(statics, instance, atoms, kept)?;
    }
    Ok(())
}

/// The number of the atom; it gets one if it has none.
pub(crate) fn number(atoms: &mut IndexSet<Atom>, atom: &Atom) -> Result<u32, GroundFault>
    requires { length atoms.old.keys ≤ MAX_ATOMS }
    ensures numbered { OnOk result (map atom_of atoms.new.keys ≡ numbered.with_atom (map atom_of atoms.old.keys) (atom_of atom.now)) }
    ensures few { OnOk result (length atoms.new.keys ≤ MAX_ATOMS) }
    ensures number { IfOk result (IsNumberOf (map atom_of atoms.new.keys) (atom_of atom.now)) }
    ensures reported { IfErr result (ReportsAtoms (numbered.with_atom (map atom_of atoms.old.keys) (atom_of atom.now))) }
{
    match number_of(atoms, atom) {
        Some(number) => Ok(number),
        None => add(atoms, atom),
    }
}

/// Numbers an atom that has no number yet.
fn add(atoms: &mut IndexSet<Atom>, atom: &Atom) -> Result<u32, GroundFault>
    requires few { length atoms.old.keys ≤ MAX_ATOMS }
    requires new { numbered.number_of (map atom_of atoms.old.keys) (atom_of atom.now) ≡ None }
    ensures numbered { OnOk result (map atom_of atoms.new.keys ≡ numbered.with_atom (map atom_of atoms.old.keys) (atom_of atom.now)) }
    ensures few { OnOk result (length atoms.new.keys ≤ MAX_ATOMS) }
    ensures number { IfOk result (IsNumberOf (map atom_of atoms.new.keys) (atom_of atom.now)) }
    ensures reported { IfErr result (ReportsAtoms (numbered.with_atom (map atom_of atoms.old.keys) (atom_of atom.now))) }
{
    let number = atoms.len();
    if number >= MAX_ATOMS {
        return Err(GroundFault::At(GroundLimit::Atoms));
    }
    atoms.insert(atom.clone()?)?;
    Ok(number as u32)
}
