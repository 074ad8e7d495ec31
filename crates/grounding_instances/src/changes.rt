//! The counting changes of kept instances, by the numbers of their atoms.
ghost use Rattle.std.specs.Prelude.{◌≡◌, ◌≤◌, ◌-◌, [], ◌∷◌, ◌++◌, true, List, Some, if◌then◌else◌, map, filter, length, IfOk, IfErr, OnOk, IsTrue};
ghost use Rattle.task.specs.Task.{task_of};
ghost use Rattle.task.specs.TaskParts.{atom_of, object_of, formula_of};
ghost use Rattle.formulas.specs.State.{instance_of, FitsFormula};
ghost use Rattle.formulas.specs.Effects.{change_of, ground_literal_of};
ghost use Rattle.model.specs.Task as model_task;
ghost use Rattle.model.specs.Meaning.{is_instance};
ghost use Rattle.model.specs.StaticallyFalse as statically_false;
ghost use Rattle.model.specs.NumberedAtoms as numbered;
ghost use Rattle.grounding_instances.specs.Atoms.{AllFit, ReportsAtoms, atoms_changed};
ghost use Rattle.grounding_instances.specs.NumberedEffects.{is_adding};
ghost use Rattle.grounding_instances.specs.NumberedEffects as effects;
ghost use Rattle.grounding_instances.specs.KeptChanges.{guard_in, IsEmpty, AddsEffects, AreKept};

use crate::atoms::{MAX_ATOMS, number};
use crate::fault::GroundFault;
use crate::statics::Statics;
use faults::NoMemory;
use formulas::{Binding, Change, GroundLiteral, Instance, changes, copied};
use indexmap::IndexSet;
use std::alloc::Global;
use task::{Atom, Formula};

/// A counting change: a numbered atom becomes true or false, with or without a condition.
#[derive(Drop)]
pub struct NumberedChange<'t> {
    /// The atom's number, from 0.
    pub atom: u32,
    /// Whether it becomes true.
    pub value: bool,
    /// `None` if the condition is `(and)`. Boxed, since few changes have one.
    pub guard: Option<Box<Guard<'t>>>,
}

/// The condition of a change.
#[derive(Drop)]
pub struct Guard<'t> {
    /// The condition as written.
    pub formula: &'t Formula,
    /// The objects of the variables in the formula's scope.
    pub binding: Binding,
}

/// The counting changes of some instances, instance by instance.
#[derive(Drop)]
pub struct KeptChanges<'t> {
    /// The changes of all instances.
    pub changes: Vec<NumberedChange<'t>>,
    /// The number of changes of each instance.
    pub counts: Vec<usize>,
    /// Whether changes are kept at all.
    keeps: bool,
}

impl KeptChanges<'_> {
    /// An empty list of changes that can be extended.
    pub fn new(alloc: Global) -> Self
        ensures { IsEmpty result }
    {
        KeptChanges {
            changes: Vec::new(alloc),
            counts: Vec::new(alloc),
            keeps: true,
        }
    }

    /// An empty list that stays empty, whatever is added.
    pub(crate) fn none(alloc: Global) -> Self {
        KeptChanges {
            changes: Vec::new(alloc),
            counts: Vec::new(alloc),
            keeps: false,
        }
    }

    /// Ends the changes of an instance, which begin at this index.
    fn end_instance(&mut self, begin: usize) -> Result<(), NoMemory>
        requires { begin ≤ length self.old.changes.items }
        ensures keeps { OnOk result (self.new.keeps ≡ self.old.keeps) }
        ensures changes { OnOk result (self.old.keeps ≡ true → self.new.changes.items ≡ self.old.changes.items) }
        ensures counts { OnOk result (self.old.keeps ≡ true → self.new.counts.items ≡ self.old.counts.items ++ (length self.old.changes.items - begin) ∷ []) }
    {
        if self.keeps {
            self.counts.push(self.changes.len() - begin)?;
        } else {
            self.changes.clear();
        }
        Ok(())
    }
}

/// Numbers the atoms that counting changes of the instance add or delete, and keeps these changes.
pub(crate) fn number_instance<'t>(
    statics: &Statics<'t>,
    instance: &Instance,
    atoms: &mut IndexSet<Atom>,
    kept: &mut KeptChanges<'t>,
) -> Result<(), GroundFault>
    requires few { length atoms.old.keys ≤ MAX_ATOMS }
    requires instance { IsTrue (is_instance (task_of statics.now.task.now) (instance_of instance.now)) }
    ensures numbered { OnOk result (map atom_of atoms.new.keys ≡ numbered.with_atoms (map atom_of atoms.old.keys) (numbered.touched_by (task_of statics.now.task.now) (instance_of instance.now))) }
    ensures few { OnOk result (length atoms.new.keys ≤ MAX_ATOMS) }
    ensures reported { IfErr result (ReportsAtoms (numbered.with_atoms (map atom_of atoms.old.keys) (numbered.touched_by (task_of statics.now.task.now) (instance_of instance.now)))) }
    ensures keeps { OnOk result (kept.new.keeps ≡ kept.old.keeps) }
    ensures kept { OnOk result (kept.old.keeps ≡ true → (before : List model_task.Instance) → AreKept (task_of statics.now.task.now) (map atom_of atoms.old.keys) before kept.old
        → AreKept (task_of statics.now.task.now) (map atom_of atoms.new.keys) (before ++ instance_of instance.now ∷ []) kept.new) }
{
    let changes = changes(statics.alloc, statics.task, instance)?;
    let begin = kept.changes.len();
    number_counting(statics, changes.as_slice(), atoms, &mut kept.changes)?;
    kept.end_instance(begin)?;
    Ok(())
}

/// Numbers the atoms that the counting ones of these changes add or delete, and adds these changes.
fn number_counting<'t>(
    statics: &Statics<'_>,
    changes: &[Change<'t>],
    atoms: &mut IndexSet<Atom>,
    found: &mut Vec<NumberedChange<'t>>,
) -> Result<(), GroundFault>
    requires few { length atoms.old.keys ≤ MAX_ATOMS }
    requires fit { AllFit (task_of statics.now.task.now) (map change_of changes.now) }
    ensures numbered { OnOk result (map atom_of atoms.new.keys ≡ numbered.with_atoms (map atom_of atoms.old.keys) (atoms_changed (filter (statically_false.counts (task_of statics.now.task.now)) (map change_of changes.now)))) }
    ensures few { OnOk result (length atoms.new.keys ≤ MAX_ATOMS) }
    ensures reported { IfErr result (ReportsAtoms (numbered.with_atoms (map atom_of atoms.old.keys) (atoms_changed (filter (statically_false.counts (task_of statics.now.task.now)) (map change_of changes.now))))) }
    ensures found { OnOk result (AddsEffects (task_of statics.now.task.now) (map atom_of atoms.new.keys) (map change_of changes.now) found.old.items found.new.items) }
{
    for change in changes {
        number_if_counting(statics, change, atoms, found)?;
    }
    Ok(())
}

/// Numbers the atom that the change adds or deletes, and adds the change, if the change counts.
fn number_if_counting<'t>(
    statics: &Statics<'_>,
    change: &Change<'t>,
    atoms: &mut IndexSet<Atom>,
    found: &mut Vec<NumberedChange<'t>>,
) -> Result<(), GroundFault>
    requires few { length atoms.old.keys ≤ MAX_ATOMS }
    requires fits { FitsFormula (task_of statics.now.task.now) (change_of change.now).condition (change_of change.now).binding }
    ensures numbered { OnOk result (map atom_of atoms.new.keys ≡ numbered.with_atoms (map atom_of atoms.old.keys)
        (if statically_false.counts (task_of statics.now.task.now) (change_of change.now) then numbered.atom_of_literal (change_of change.now).literal ∷ [] else [])) }
    ensures few { OnOk result (length atoms.new.keys ≤ MAX_ATOMS) }
    ensures reported { IfErr result (ReportsAtoms (numbered.with_atoms (map atom_of atoms.old.keys)
        (if statically_false.counts (task_of statics.now.task.now) (change_of change.now) then numbered.atom_of_literal (change_of change.now).literal ∷ [] else []))) }
    ensures found { OnOk result (AddsEffects (task_of statics.now.task.now) (map atom_of atoms.new.keys) (change_of change.now ∷ []) found.old.items found.new.items) }
{
    if !statics.counts(change) {
        return Ok(());
    }
    let atom = number(atoms, changed_atom(&change.literal))?;
    let value = is_addition(&change.literal);
    let guard = guard_of(statics.alloc, change)?;
    found.push(NumberedChange { atom, value, guard })?;
    Ok(())
}

/// The atom that is added or deleted.
fn changed_atom(literal: &GroundLiteral) -> &Atom
    ensures { atom_of result.now ≡ numbered.atom_of_literal (ground_literal_of literal.now) }
{
    match literal {
        GroundLiteral::Adds(atom) => atom,
        GroundLiteral::Deletes(atom) => atom,
    }
}

/// Whether the atom becomes true.
fn is_addition(literal: &GroundLiteral) -> bool
    ensures { result ≡ is_adding (ground_literal_of literal.now) }
{
    match literal {
        GroundLiteral::Adds(_) => true,
        GroundLiteral::Deletes(_) => false,
    }
}

/// The condition of the change; `None` if it is `(and)`.
fn guard_of<'t>(alloc: Global, change: &Change<'t>) -> Result<Option<Box<Guard<'t>>>, NoMemory>
    ensures { IfOk result (λ guard. guard_in guard ≡ effects.guard_of (change_of change.now)) }
{
    let Some(formula) = change.condition else {
        return Ok(None);
    };
    if is_empty_and(formula) {
        return Ok(None);
    }
    let guard = guarded(alloc, formula, &change.binding)?;
    Ok(Some(guard))
}

/// The formula with this binding of the variables.
fn guarded<'t>(
    alloc: Global,
    formula: &'t Formula,
    binding: &Binding,
) -> Result<Box<Guard<'t>>, NoMemory>
    ensures { IfOk result (λ guard. guard_in (Some guard) ≡ Some (record { formula = formula_of formula.now; binding = map object_of binding.now.items })) }
{
    let guard = Box::new(
        alloc,
        Guard {
            formula,
            binding: copied(binding),
        },
    )?;
    Ok(guard)
}

/// Whether the formula is literally `(and)`.
fn is_empty_and(formula: &Formula) -> bool
    ensures { result ≡ statically_false.is_empty_and (formula_of formula.now) }
{
    match formula {
        Formula::And(parts) => parts.is_empty(),
        _ => false,
    }
}
