//! The kept instances of a task and its numbered atoms.
ghost use Rattle.std.specs.Prelude.{◌≡◌, ◌≤◌, true, length, map};
ghost use Rattle.std.proofs.Props.{props};
ghost use Rattle.task.specs.Task.{task_of};
ghost use Rattle.task.specs.TaskParts.{atom_of};
ghost use Rattle.formulas.specs.State.{instance_of};
ghost use Rattle.model.specs.Task as model_task;
ghost use Rattle.model.specs.Fluents.{is_fluent};
ghost use Rattle.model.specs.StaticallyFalse.{kept_instances};
ghost use Rattle.model.specs.NumberedAtoms.{occurs_in, are_distinct};
ghost use Rattle.grounding_instances.specs.declared.atoms.TheConstants.{MAX_ATOMS};

use crate::atoms::{MAX_ATOMS, numbered_atoms};
use crate::changes::KeptChanges;
use crate::fault::GroundFault;
use crate::kept::kept_instances;
use crate::numbers::{NumberedLiteral, number_of, numbered};
use crate::statics::Statics;
use faults::NoMemory;
use formulas::{Binding, Change, Instance, Literal};
use indexmap::IndexSet;
use std::alloc::Global;
use task::{Atom, Formula, PredicateId, Task};

/// The kept instances of a task and its numbered atoms, each at the index of its number, from 0. The atoms are of fluent
/// predicates, and each has exactly one number.
pub struct Numbering<'t> {
    statics: Statics<'t>,
    atoms: IndexSet<Atom>,
    instances: Vec<Instance>,
    ghost few_atoms: { length atoms.keys ≤ MAX_ATOMS },
    ghost kept: { map instance_of instances.items ≡ kept_instances (task_of statics.task.now) } by { Prim.hlevel props },
    ghost fluent: { (a : model_task.Atom) → occurs_in (map atom_of atoms.keys) a ≡ true → is_fluent (task_of statics.task.now) a.predicate ≡ true } by { Prim.hlevel props },
    ghost distinct: { are_distinct (map atom_of atoms.keys) ≡ true } by { Prim.hlevel props },
}

impl Drop for Numbering<'_> {
    fn drop(self) {
        let Self {
            statics: _,
            atoms: _,
            instances: _,
        } = self;
    }
}

impl<'t> Numbering<'t> {
    ghost use Rattle.std.specs.Prelude.{not, ◌&&◌, All, IfOk, IfErr, IsTrue};
    ghost use Rattle.std.specs.List.{filter_map};
    ghost use Rattle.std.specs.FinSet.{contains};
    ghost use Rattle.task.specs.TaskParts.{object_of, formula_of};
    ghost use Rattle.formulas.specs.State.{FitsFormula};
    ghost use Rattle.formulas.specs.Effects.{change_of};
    ghost use Rattle.formulas.specs.Literals.{literal_of};
    ghost use Rattle.model.specs.Meaning.{initial_state};
    ghost use Rattle.model.specs.Fluents.{is_fluent_atom};
    ghost use Rattle.model.specs.StaticallyFalse as statically_false;
    ghost use Rattle.model.specs.NumberedAtoms as model_atoms;
    ghost use Rattle.model.specs.NumberedLiterals as model_literals;
    ghost use Rattle.grounding_instances.specs.Numbers.{numbered_of};
    ghost use Rattle.grounding_instances.specs.KeptChanges.{IsEmpty, AreKept};
    ghost use Rattle.grounding_instances.specs.Numbering.{task_in, atoms_in, instances_in, IsNumberingOf, ReportsLimit};

    /// The numbering of the task. The atoms in `more` have the first numbers, if they are distinct.
    ///
    /// # Errors
    /// [`GroundLimit::Instances`](crate::GroundLimit::Instances) exactly if more than `max_instances` instances are kept;
    /// [`GroundLimit::Atoms`](crate::GroundLimit::Atoms) exactly if not, but more than [`MAX_ATOMS`](crate::MAX_ATOMS) atoms have
    /// numbers; or an allocation failed.
    pub fn new(
        alloc: Global,
        task: &'t Task,
        more: &[Atom],
        max_instances: u32,
    ) -> Result<Numbering<'t>, GroundFault>
        requires fluent { All (λ a. IsTrue (is_fluent_atom (task_of task.now) a)) (map atom_of more.now) }
        ensures numbering { IfOk result (IsNumberingOf (task_of task.now) (map atom_of more.now) max_instances) }
        ensures reported { IfErr result (ReportsLimit (task_of task.now) (map atom_of more.now) max_instances) }
    {
        Numbering::with_changes(
            alloc,
            task,
            more,
            max_instances,
            &mut KeptChanges::none(alloc),
        )
    }

    /// The same, and keeps the counting changes of the kept instances.
    ///
    /// # Errors
    /// The same.
    pub fn with_changes(
        alloc: Global,
        task: &'t Task,
        more: &[Atom],
        max_instances: u32,
        changes: &mut KeptChanges<'t>,
    ) -> Result<Numbering<'t>, GroundFault>
        requires fluent { All (λ a. IsTrue (is_fluent_atom (task_of task.now) a)) (map atom_of more.now) }
        ensures numbering { IfOk result (IsNumberingOf (task_of task.now) (map atom_of more.now) max_instances) }
        ensures reported { IfErr result (ReportsLimit (task_of task.now) (map atom_of more.now) max_instances) }
        ensures kept { IfOk result (λ n. IsEmpty changes.old → AreKept (task_in n) (atoms_in n) (instances_in n) changes.new) }
    {
        let statics = Statics::new(alloc, task)?;
        Numbering::of_statics(statics, more, max_instances, changes)
    }

    /// The numbering of the task with these statics.
    fn of_statics(
        statics: Statics<'t>,
        more: &[Atom],
        max_instances: u32,
        changes: &mut KeptChanges<'t>,
    ) -> Result<Numbering<'t>, GroundFault>
        requires fluent { All (λ a. IsTrue (is_fluent_atom (task_of statics.task.now) a)) (map atom_of more.now) }
        ensures numbering { IfOk result (IsNumberingOf (task_of statics.entry.task.now) (map atom_of more.now) max_instances) }
        ensures reported { IfErr result (ReportsLimit (task_of statics.entry.task.now) (map atom_of more.now) max_instances) }
        ensures kept { IfOk result (λ n. IsEmpty changes.old → AreKept (task_in n) (atoms_in n) (instances_in n) changes.new) }
    {
        let instances = kept_instances(&statics, max_instances)?;
        let atoms = numbered_atoms(&statics, more, instances.as_slice(), changes)?;
        Ok(Numbering {
            statics,
            atoms,
            instances,
        })
    }

    /// The task.
    pub fn task(&self) -> &'t Task
        ensures { task_of result.now ≡ task_in self.now }
    {
        self.statics.task
    }

    /// The number of numbered atoms.
    pub fn width(&self) -> u32
        ensures { result ≡ length (atoms_in self.now) }
    {
        self.atoms.len() as u32
    }

    /// The kept instances, each at the index of its number, from 0.
    pub fn instances(&self) -> &[Instance]
        ensures { map instance_of result.now ≡ instances_in self.now }
    {
        self.instances.as_slice()
    }

    /// The numbered atoms, each at the index of its number, from 0.
    pub fn atoms(&self) -> &IndexSet<Atom>
        ensures { map atom_of result.now.keys ≡ atoms_in self.now }
    {
        &self.atoms
    }

    /// The number of the atom, if it has one.
    pub fn number_of(&self, atom: &Atom) -> Option<u32>
        ensures { result ≡ model_atoms.number_of (atoms_in self.now) (atom_of atom.now) }
    {
        number_of(&self.atoms, atom)
    }

    /// Whether the atom is initially true.
    pub fn is_initial(&self, atom: &Atom) -> bool
        ensures { result ≡ contains (initial_state (task_in self.now)) (atom_of atom.now) }
    {
        self.statics.is_initial(atom)
    }

    /// Whether some action adds or deletes an atom of the predicate.
    pub fn is_fluent(&self, predicate: PredicateId) -> bool
        ensures { result ≡ is_fluent (task_in self.now) predicate.0 }
    {
        self.statics.is_fluent(predicate)
    }

    /// Whether the atom is of a static predicate and initially true.
    pub fn is_initial_static(&self, atom: &Atom) -> bool
        ensures { result ≡ (not (is_fluent (task_in self.now) (atom_of atom.now).predicate) && contains (initial_state (task_in self.now)) (atom_of atom.now)) }
    {
        self.statics.is_initial_static(atom)
    }

    /// Whether the change counts: its condition is not statically false.
    pub fn counts(&self, change: &Change<'_>) -> bool
        requires { FitsFormula (task_in self.now) (change_of change.now).condition (change_of change.now).binding }
        ensures { result ≡ statically_false.counts (task_in self.now) (change_of change.now) }
    {
        self.statics.counts(change)
    }

    /// Whether the formula is statically false under this binding: one of its sure literals is static or an equality, and
    /// initially false. The formula is well-typed for variables of some types that the objects are of. Nothing is allocated.
    pub fn is_statically_false(&self, formula: &Formula, binding: &Binding) -> bool
        requires { FitsFormula (task_in self.now) (formula_of formula.now) (map object_of binding.now.items) }
        ensures { result ≡ statically_false.is_statically_false (task_in self.now) (formula_of formula.now) (map object_of binding.now.items) }
    {
        self.statics.is_statically_false(formula, binding)
    }

    /// The literals that are of numbered atoms, in order.
    pub fn numbered(
        &self,
        alloc: Global,
        literals: &[Literal],
    ) -> Result<Vec<NumberedLiteral>, NoMemory>
        ensures { IfOk result (λ found. map numbered_of found.items ≡ filter_map (model_literals.numbered_literal (atoms_in self.now)) (map literal_of literals.now)) }
    {
        numbered(alloc, &self.atoms, literals)
    }
}
