//! Whether a value by tables is fair over a ground task.
ghost use Rattle.std.specs.Prelude.{◌≡◌, ◌<◌, ◌↔◌, ◌≤ℤ◌, pos, Some, IfOk, IsTrue, length, slice_get};
ghost use Rattle.grounding.specs.Ground.{task_in, atoms_in};
ghost use Rattle.model.specs.Task.{Instance};
ghost use Rattle.model.specs.NumberedLiterals.{literals_of_number};
ghost use Rattle.model.specs.ConditionalChanges.{conditional_of_number};
ghost use Rattle.model.specs.StaticallyFalse.{kept_instances};
ghost use Rattle.lower_bounds.specs.FairTables as model;
ghost use Rattle.potentials.specs.Fairness.{allowed_by};
ghost use Rattle.tables.specs.AllTables.{tables_of};
ghost use Rattle.tables.specs.ByAtom.{LosesByAll};
ghost use Rattle.tables.specs.Fairness.{function_of, FitsGround};

use crate::tables::IndexedTables;
use faults::NoMemory;
use grounding::Ground;
use potentials::{Allowance, GoalAtoms, Potentials, loses_at_most};
use std::alloc::Global;

/// One of several values, for the test of what instances may lose by it.
#[derive(Clone, Copy)]
pub(crate) struct TableValue<'a, 't> {
    /// The constant and the weights of atoms.
    pub(crate) potentials: &'a Potentials,
    /// The tables.
    pub(crate) tables: &'a IndexedTables<'t>,
    /// The place of its weights in rows, from 0.
    pub(crate) place: u32,
    /// The most that an instance may lose.
    pub(crate) allowance: Allowance,
}

impl TableValue<'_, '_> {
    /// Whether the value is fair for this instance, which leads from rows to rows and loses at most `by_tables` by them.
    pub(crate) fn is_fair_with(&self, ground: &Ground<'_>, number: u32, by_tables: i64) -> bool
        requires fits { FitsGround ground.now self.now }
        requires within { number < length (kept_instances (task_in ground.now)) }
        requires lost { LosesByAll self.now.place (literals_of_number (task_in ground.now) (atoms_in ground.now) number) (conditional_of_number (task_in ground.now) (atoms_in ground.now) number) (tables_of self.now.tables.now) by_tables }
        ensures { (i : Instance) → slice_get (kept_instances (task_in ground.now)) number ≡ Some i
            → (IsTrue result ↔ model.IsFairAt (allowed_by self.now.allowance (task_in ground.now) i) (task_in ground.now) (atoms_in ground.now) (function_of self.now) i) }
    {
        let literals = ground.literals(number);
        let changes = ground.counting(number);
        let by_atoms = loses_at_most(literals, changes, self.potentials.weights());
        is_at_most(by_atoms + by_tables, self.allowance.of(ground, number))
    }

    /// Whether it is fair at goals: at most 0, or some table has no row that agrees with the goal's literals.
    pub(crate) fn is_fair_at_goals(
        &self,
        alloc: Global,
        ground: &Ground<'_>,
    ) -> Result<bool, NoMemory>
        requires { FitsGround ground.now self.now }
        ensures { IfOk result (λ fair. IsTrue fair ↔ model.IsFairAtGoals (task_in ground.now) (atoms_in ground.now) (function_of self.now)) }
    {
        let literals = ground.goal_literals();
        if self.tables.is_shut_out(alloc, literals)? {
            return Ok(true);
        }
        let by_tables = self.tables.give(alloc, literals, self.place)?;
        let goal = GoalAtoms::new(alloc, literals, ground.width())?;
        let by_atoms = goal.give_at_most(self.potentials.weights());
        Ok(is_at_most(self.potentials.constant() + by_atoms + by_tables, 0))
    }
}

/// Whether the instance is shut out: its precondition has an atom without a number, or some table has no row that agrees with its
/// sure literals.
///
/// # Errors
/// Where memory is refused.
pub fn is_instance_shut_out(
    alloc: Global,
    ground: &Ground<'_>,
    tables: &IndexedTables<'_>,
    number: u32,
) -> Result<bool, NoMemory>
    requires { number < length (kept_instances (task_in ground.now)) }
    ensures { (i : Instance) → slice_get (kept_instances (task_in ground.now)) number ≡ Some i
        → IfOk result (λ out. out ≡ model.is_instance_shut_out (task_in ground.now) (atoms_in ground.now) (tables_of tables.now) i) }
{
    if ground.requires_unnumbered(number) {
        return Ok(true);
    }
    tables.is_shut_out(alloc, ground.literals(number))
}

/// Whether the number is at most the other.
fn is_at_most(number: i64, allowed: u32) -> bool
    ensures { IsTrue result ↔ (number ≤ℤ pos allowed) }
{
    number <= i64::from(allowed)
}
