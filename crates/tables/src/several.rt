//! Several values over the same tables.
ghost use Rattle.std.proofs.Props.{props};
ghost use Rattle.tables.specs.Together.{FitTogether};

use crate::fairness::TableValue;
use crate::tables::IndexedTables;
use crate::unfair::Unfair;
use faults::NoMemory;
use grounding::Ground;
use potentials::{Allowance, Potentials};
use std::alloc::Global;

/// Several values over the same tables, of which the greatest counts, and one for dead ends. A row has a weight for each value, in
/// this order, and last one for dead ends.
pub struct TableFunctions<'a> {
    pub(crate) values: Vec<Potentials>,
    pub(crate) dead_ends: Potentials,
    pub(crate) tables: IndexedTables<'a>,
    ghost together: { FitTogether values.items dead_ends tables } by { Prim.hlevel props },
}

impl Drop for TableFunctions<'_> {
    fn drop(self) {
        let Self {
            values: _,
            dead_ends: _,
            tables: _,
        } = self;
    }
}

/// Whether all values are fair for a ground task and that for dead ends is dead-fair, or the first fault: value by value, instances
/// before goals.
#[derive(Clone, Copy, Debug, PartialEq, Eq)]
pub enum ValuesFairness {
    /// There is no fault.
    Fair,
    /// The first unfair value, and the first kept instance for which it is unfair.
    Instance {
        /// The value's place, from 0.
        place: u32,
        /// The instance's number.
        number: u32,
    },
    /// The first unfair value is fair for each kept instance, but not at goals.
    Goals {
        /// The value's place, from 0.
        place: u32,
    },
    /// All values are fair. The first kept instance for which that for dead ends is not dead-fair.
    DeadEndInstance {
        /// The instance's number.
        number: u32,
    },
    /// All values are fair. That for dead ends is dead-fair for each kept instance, and not at goals.
    DeadEndGoals,
}

impl<'a> TableFunctions<'a> {
    ghost use Rattle.std.specs.Prelude.{◌≡◌, ◌<◌, IfOk, length, map};
    ghost use Rattle.grounding.specs.Ground.{task_in, atoms_in};
    ghost use Rattle.model.specs.Task.{Task};
    ghost use Rattle.potentials.specs.Potentials.{potentials_of};
    ghost use Rattle.tables.specs.AllTables.{tables_of, count_of};
    ghost use Rattle.potentials.specs.Fairness.{allowed_by};
    ghost use Rattle.tables.specs.Fairness.{function_of};
    ghost use Rattle.tables.specs.Reports.{goals_report, instance_report, first_report};
    ghost use Rattle.tables.specs.Several.{several_of, width_of, ReportsValues};
    ghost use Rattle.tables.specs.Unfair.{function_in, allowance_in};

    /// Puts together the values, that for dead ends, and their tables.
    pub fn new(
        values: Vec<Potentials>,
        dead_ends: Potentials,
        tables: IndexedTables<'a>,
    ) -> TableFunctions<'a>
        requires { FitTogether values.items dead_ends tables }
        ensures { several_of result ≡ record { values = map potentials_of values.items; dead_ends = potentials_of dead_ends; tables = tables_of tables.entry } }
    {
        TableFunctions {
            values,
            dead_ends,
            tables,
        }
    }

    /// Tests whether they are fair for the ground task, as a certificate's have to be.
    ///
    /// # Errors
    /// Where memory is refused.
    pub fn fairness(&self, alloc: Global, ground: &Ground<'_>) -> Result<ValuesFairness, NoMemory>
        requires { width_of self.now ≡ length (atoms_in ground.now) }
        ensures { IfOk result (ReportsValues (task_in ground.now) (atoms_in ground.now) (several_of self.now)) }
    {
        let first = self.first_unfair(alloc, ground)?;
        for place in 0..self.places_before(first) {
            if !self.value_at(place).is_fair_at_goals(alloc, ground)? {
                return Ok(self.unfair_at_goals(place));
            }
        }
        Ok(self.report(first))
    }

    /// The report that the value at this place is unfair at goals.
    fn unfair_at_goals(&self, place: u32) -> ValuesFairness
        requires { place < count_of self.now.tables }
        ensures { result ≡ goals_report (several_of self.now) place }
    {
        if (place as usize) < self.values.len() {
            ValuesFairness::Goals { place }
        } else {
            ValuesFairness::DeadEndGoals
        }
    }

    /// The report of the first value that is unfair for an instance, if there is one.
    fn report(&self, first: Option<Unfair>) -> ValuesFairness
        ensures { result ≡ first_report (several_of self.now) first }
    {
        match first {
            Some(unfair) => self.unfair_for_instance(unfair),
            None => ValuesFairness::Fair,
        }
    }

    /// The report that this value is unfair for this instance.
    fn unfair_for_instance(&self, unfair: Unfair) -> ValuesFairness
        ensures { result ≡ instance_report (several_of self.now) unfair }
    {
        let Unfair { place, number } = unfair;
        if (place as usize) < self.values.len() {
            ValuesFairness::Instance { place, number }
        } else {
            ValuesFairness::DeadEndInstance { number }
        }
    }

    /// The value at this place, from 0; after the last one that for dead ends.
    pub(crate) fn value_at(&self, place: u32) -> TableValue<'_, 'a>
        ensures function { function_of result ≡ function_in (several_of self.now) place }
        ensures tables { result.tables.now ≡ self.now.tables }
        ensures width { length (function_of result).potentials.weights ≡ width_of self.now }
        ensures place { result.place ≡ place }
        ensures allowance { (task : Task) → allowed_by result.allowance task ≡ allowance_in task (several_of self.now) place }
    {
        match self.values.get(place as usize) {
            Some(potentials) => TableValue {
                potentials,
                tables: &self.tables,
                place,
                allowance: Allowance::Cost,
            },
            None => TableValue {
                potentials: &self.dead_ends,
                tables: &self.tables,
                place,
                allowance: Allowance::Nothing,
            },
        }
    }
}
