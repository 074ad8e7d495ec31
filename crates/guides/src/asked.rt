//! The instances for which values are tested.
ghost use Rattle.std.specs.Prelude.{◌≡◌, ◌<◌, [], All, IfOk, Some, length, slice_get};
ghost use Rattle.grounding.specs.Ground.{atoms_in, task_in};
ghost use Rattle.model.specs.Task.{Instance};
ghost use Rattle.model.specs.StaticallyFalse.{kept_instances};
ghost use Rattle.lower_bounds.specs.FairTables.{is_asked};
ghost use Rattle.landmarks.specs.Fairness.{AreAsked};

use faults::NoMemory;
use grounding::{Ground, instance_count};
use std::alloc::Global;

/// The numbers of the kept instances for which a value without tables is tested: all but those that need an atom without a number.
///
/// # Errors
/// An allocation failed.
pub fn tested_instances(alloc: Global, ground: &Ground<'_>) -> Result<Vec<u32>, NoMemory>
    ensures kept { IfOk result (λ asked. All (λ number. number < length (kept_instances (task_in ground.now))) asked.items) }
    ensures asked { IfOk result (λ asked. AreAsked (task_in ground.now) (atoms_in ground.now) [] asked.items) }
{
    let mut asked = Vec::new(alloc);
    for number in 0..instance_count(ground) {
        if is_asked(ground, number) {
            asked.push(number)?;
        }
    }
    Ok(asked)
}

/// Whether the instance may be applicable: its precondition needs no atom without a number.
fn is_asked(ground: &Ground<'_>, number: u32) -> bool
    requires { number < length (kept_instances (task_in ground.now)) }
    ensures { (i : Instance) → slice_get (kept_instances (task_in ground.now)) number ≡ Some i → result ≡ is_asked (task_in ground.now) (atoms_in ground.now) [] i }
{
    !ground.requires_unnumbered(number)
}
