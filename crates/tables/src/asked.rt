//! The instances that tables do not shut out.
ghost use Rattle.std.specs.Prelude.{◌≡◌, ℕ, ◌<◌, All, IfOk, Some, length, slice_get};
ghost use Rattle.grounding.specs.Ground.{task_in, atoms_in};
ghost use Rattle.model.specs.Task.{Instance};
ghost use Rattle.model.specs.StaticallyFalse.{kept_instances};
ghost use Rattle.lower_bounds.specs.TableFunctions.{is_among};
ghost use Rattle.lower_bounds.specs.FairTables.{is_asked};
ghost use Rattle.tables.specs.Several.{several_of};

use crate::fairness::is_instance_shut_out;
use crate::several::TableFunctions;
use faults::NoMemory;
use grounding::{Ground, instance_count};
use std::alloc::Global;

impl TableFunctions<'_> {
    /// The numbers of the kept instances that the tables do not shut out, in ascending order.
    ///
    /// # Errors
    /// An allocation failed.
    pub fn asked(&self, alloc: Global, ground: &Ground<'_>) -> Result<Vec<u32>, NoMemory>
        ensures kept { IfOk result (λ asked. All (λ number. number < length (kept_instances (task_in ground.now))) asked.items) }
        ensures asked { IfOk result (λ asked. (number : ℕ) (i : Instance) → slice_get (kept_instances (task_in ground.now)) number ≡ Some i
            → is_among asked.items number ≡ is_asked (task_in ground.now) (atoms_in ground.now) (several_of self.now).tables i) }
    {
        let mut asked = Vec::new(alloc);
        for number in 0..instance_count(ground) {
            if !is_instance_shut_out(alloc, ground, &self.tables, number)? {
                asked.push(number)?;
            }
        }
        Ok(asked)
    }
}
