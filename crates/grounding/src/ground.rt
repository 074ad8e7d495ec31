//! Ground tasks.
ghost use Rattle.std.specs.Prelude.{◌≡◌, ◌<◌, ◌^◌, [], length, map};
ghost use Rattle.std.proofs.Props.{props};
ghost use Rattle.grounding_instances.specs.Numbering as numbering_views;
ghost use Rattle.grounding.specs.Conditions.{IsConditionOf};
ghost use Rattle.grounding.specs.InPlace.{AreInPlace};
ghost use Rattle.grounding.specs.FormulaSet.{formula-set};
ghost use Rattle.grounding.specs.Changes.{AreChangesOf};
ghost use Rattle.grounding.specs.Preconditions.{IsPrecondition};
ghost use Rattle.grounding.specs.MatchTree.{AreMatched};
ghost use Rattle.model.specs.Meaning.{cost_of};

use crate::changes::CountingChange;
use crate::condition::Condition;
use crate::match_tree::MatchTree;
use crate::often::Often;
use crate::parts::{changes_of_all, costs, goal_condition, preconditions};
use faults::NoMemory;
use formulas::Instance;
use grounding_instances::{GroundFault, KeptChanges, NumberedLiteral, Numbering};
use indexmap::IndexSet;
use std::alloc::Global;
use task::{Atom, Task};

/// A ground task: the task over the numbers of its kept instances and of its atoms. A state has a bit for each numbered atom.
pub struct Ground<'t> {
    pub(crate) numbering: Numbering<'t>,
    /// The compiled precondition of each instance.
    pub(crate) conditions: Vec<Condition>,
    /// The changes of each instance that count.
    pub(crate) changes: Vec<Vec<CountingChange<'t>>>,
    pub(crate) costs: Vec<u32>,
    pub(crate) goal: Condition,
    /// The successor generator.
    pub(crate) tree: MatchTree,
    ghost few: { length (numbering_views.instances_in numbering) < 2 ^ 32 },
    ghost preconditions: { AreInPlace (IsPrecondition (numbering_views.task_in numbering) (numbering_views.atoms_in numbering)) (numbering_views.instances_in numbering) conditions.items } by { Prim.hlevel props },
    ghost changes_made: { AreInPlace (AreChangesOf (numbering_views.task_in numbering) (numbering_views.atoms_in numbering)) (numbering_views.instances_in numbering) changes.items } by { Prim.hlevel (props, formula-set) },
    ghost each_cost: { costs.items ≡ map (cost_of (numbering_views.task_in numbering)) (numbering_views.instances_in numbering) } by { Prim.hlevel props },
    ghost matched: { AreMatched (length (numbering_views.atoms_in numbering)) conditions.items tree } by { Prim.hlevel props },
    ghost of_goal: { IsConditionOf (numbering_views.task_in numbering) (numbering_views.atoms_in numbering) (numbering_views.task_in numbering).goal [] goal } by { Prim.hlevel props },
}

impl Drop for Ground<'_> {
    fn drop(self) {
        let Self {
            numbering: _,
            conditions: _,
            changes: _,
            costs: _,
            goal: _,
            tree: _,
        } = self;
    }
}

impl<'t> Ground<'t> {
    ghost use Rattle.std.specs.Prelude.{All, IfOk, IfErr, IsTrue, slice_get};
    ghost use Rattle.std.specs.Option.{option_map};
    ghost use Rattle.task.specs.Task.{task_of};
    ghost use Rattle.task.specs.TaskParts.{atom_of};
    ghost use Rattle.formulas.specs.State.{instance_of};
    ghost use Rattle.model.specs.Fluents.{is_fluent_atom};
    ghost use Rattle.model.specs.StaticallyFalse.{kept_instances};
    ghost use Rattle.model.specs.NumberedAtoms as numbered;
    ghost use Rattle.model.specs.NumberedLiterals.{literals_of_number, literals_of_goal, counting_of_number};
    ghost use Rattle.model.specs.ConditionalChanges.{conditional_of_number, number_requires_unnumbered};
    ghost use Rattle.model.specs.Grounding.{ground_system};
    ghost use Rattle.grounding_instances.specs.Numbers.{numbered_of};
    ghost use Rattle.grounding_instances.specs.KeptChanges.{AreKept};
    ghost use Rattle.grounding.specs.Changes.{counting_of, conditional_of};
    ghost use Rattle.grounding.specs.Ground.{numbering_in, task_in, atoms_in, IsGroundOf, ReportsLimit};

    /// Grounds the task. The atoms of `more` have the first numbers; one that is repeated counts once.
    ///
    /// # Errors
    /// [`GroundLimit::Instances`](crate::GroundLimit::Instances) if and only if more than `max_instances` are kept;
    /// [`GroundLimit::Atoms`](crate::GroundLimit::Atoms) if and only if no more are kept and more than 1,048,576 atoms are
    /// numbered; or memory was refused.
    pub fn new(
        alloc: Global,
        task: &'t Task,
        more: &[Atom],
        max_instances: u32,
    ) -> Result<Ground<'t>, GroundFault>
        requires fluent { All (λ a. IsTrue (is_fluent_atom (task_of task.now) a)) (map atom_of more.now) }
        ensures ground_task { IfOk result (IsGroundOf (task_of task.now) (map atom_of more.now) max_instances) }
        ensures reported { IfErr result (ReportsLimit (task_of task.now) (map atom_of more.now) max_instances) }
    {
        let mut kept = KeptChanges::new(alloc);
        let numbering = Numbering::with_changes(alloc, task, more, max_instances, &mut kept)?;
        let ground = Ground::of_numbering(alloc, numbering, kept)?;
        Ok(ground)
    }

    /// The ground task of this numbering, with the changes that count.
    fn of_numbering(
        alloc: Global,
        numbering: Numbering<'t>,
        kept: KeptChanges<'t>,
    ) -> Result<Ground<'t>, NoMemory>
        requires kept { AreKept (numbering_views.task_in numbering) (numbering_views.atoms_in numbering) (numbering_views.instances_in numbering) kept }
        requires few { length (numbering_views.instances_in numbering) < 2 ^ 32 }
        ensures { IfOk result (λ g. numbering_in g ≡ numbering.entry) }
    {
        let changes = changes_of_all(alloc, &numbering, &kept)?;
        drop(kept);
        let conditions = preconditions(alloc, &numbering)?;
        let often = Often::new(alloc, &numbering, &conditions, &changes)?;
        let tree = MatchTree::new(alloc, numbering.width(), &conditions, &often)?;
        let costs = costs(alloc, &numbering)?;
        let goal = goal_condition(alloc, &numbering)?;
        Ok(Ground {
            numbering,
            conditions,
            changes,
            costs,
            goal,
            tree,
        })
    }

    /// The task.
    pub fn task(&self) -> &'t Task
        ensures { task_of result.now ≡ task_in self.now }
    {
        self.numbering.task()
    }

    /// The number of numbered atoms.
    pub fn width(&self) -> u32
        ensures { result ≡ length (atoms_in self.now) }
    {
        self.numbering.width()
    }

    /// The kept instances. An instance's number is its place, from 0.
    pub fn instances(&self) -> &[Instance]
        ensures { map instance_of result.now ≡ kept_instances (task_in self.now) }
    {
        self.numbering.instances()
    }

    /// The numbered atoms. An atom's number is its place, from 0.
    pub fn atoms(&self) -> &IndexSet<Atom>
        ensures { map atom_of result.now.keys ≡ atoms_in self.now }
    {
        self.numbering.atoms()
    }

    /// The number of the atom, if it has one.
    pub fn number_of(&self, atom: &Atom) -> Option<u32>
        ensures { result ≡ numbered.number_of (atoms_in self.now) (atom_of atom.now) }
    {
        self.numbering.number_of(atom)
    }

    /// The instance with this number, if there is one.
    pub fn instance(&self, number: u32) -> Option<&Instance>
        ensures { option_map (λ i. instance_of i.now) result ≡ slice_get (kept_instances (task_in self.now)) number }
    {
        self.numbering.instances().get(number as usize)
    }

    /// The atom with this number, if there is one.
    pub fn atom(&self, number: u32) -> Option<&Atom>
        ensures { option_map (λ a. atom_of a.now) result ≡ slice_get (atoms_in self.now) number }
    {
        self.numbering.atoms().get_index(number as usize)
    }

    /// The cost of the instance with this number; 0 if there is none.
    pub fn cost(&self, number: u32) -> u32
        ensures { result ≡ (ground_system (task_in self.now) (atoms_in self.now)).cost number }
    {
        match self.costs.get(number as usize) {
            Some(cost) => *cost,
            None => 0,
        }
    }

    /// The sure literals of the instance's precondition whose atoms are numbered, in order.
    pub fn literals(&self, number: u32) -> &[NumberedLiteral]
        requires { number < length (kept_instances (task_in self.now)) }
        ensures { map numbered_of result.now ≡ literals_of_number (task_in self.now) (atoms_in self.now) number }
    {
        self.conditions[number as usize].literals()
    }

    /// Whether another sure literal of the instance's precondition needs a fluent atom without a number. Such an instance is
    /// applicable in no state.
    pub fn requires_unnumbered(&self, number: u32) -> bool
        requires { number < length (kept_instances (task_in self.now)) }
        ensures { result ≡ number_requires_unnumbered (task_in self.now) (atoms_in self.now) number }
    {
        !self.conditions[number as usize].may_hold()
    }

    /// The sure literals of the goal whose atoms are numbered, in order.
    pub fn goal_literals(&self) -> &[NumberedLiteral]
        ensures { map numbered_of result.now ≡ literals_of_goal (task_in self.now) (atoms_in self.now) }
    {
        self.goal.literals()
    }

    /// The changes of the instance that count, in order.
    pub fn counting(&self, number: u32) -> &[CountingChange<'t>]
        requires { number < length (kept_instances (task_in self.now)) }
        ensures counting { map counting_of result.now ≡ counting_of_number (task_in self.now) (atoms_in self.now) number }
        ensures conditional { map conditional_of result.now ≡ conditional_of_number (task_in self.now) (atoms_in self.now) number }
    {
        self.changes[number as usize].as_slice()
    }
}
