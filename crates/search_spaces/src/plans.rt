//! Plans from numbers of instances.
ghost use Rattle.std.specs.Prelude.{◌≡◌, ◌<◌, ◌≤◌, [], All, length, map, IfOk};
ghost use Rattle.std.specs.List.{AllZip};
ghost use Rattle.formulas.specs.State.{instance_of, plan_of};
ghost use Rattle.model.specs.Limits.{max_steps};
ghost use Rattle.grounding.specs.Ground.{task_in, atoms_in};
ghost use Rattle.model.specs.StaticallyFalse.{kept_instances};
ghost use Rattle.model.specs.NumberedAtoms.{numbered_atoms};
ghost use Rattle.model.specs.Grounding.{ground_system, NamesKept};
ghost use Rattle.model.specs.Meaning as meaning;
ghost use Rattle.model.specs.Runs.{Solves};
ghost use Rattle.search_spaces.specs.Plans.{IsCarriedOut};

use faults::NoMemory;
use formulas::{Instance, Plan, copied};
use grounding::Ground;
use std::alloc::Global;

/// The plan of the instances with these numbers, which solve the ground task: it solves the task at the same cost.
///
/// # Errors
/// Memory was refused.
pub fn plan_of(alloc: Global, ground: &Ground<'_>, numbers: &[u32]) -> Result<Plan, NoMemory>
    requires atoms { atoms_in ground.now ≡ numbered_atoms (task_in ground.now) [] }
    requires solves { Solves (ground_system (task_in ground.now) (atoms_in ground.now)) numbers.now }
    requires few { length numbers.now ≤ max_steps }
    ensures { IfOk result (λ plan. IsCarriedOut (ground_system (task_in ground.now) (atoms_in ground.now)) (meaning.system_of (task_in ground.now)) numbers.now (plan_of plan)) }
{
    named_plan(alloc, ground, numbers)
}

/// The plan of the instances with these numbers.
fn named_plan(alloc: Global, ground: &Ground<'_>, numbers: &[u32]) -> Result<Plan, NoMemory>
    requires named { All (λ number. number < length (kept_instances (task_in ground.now))) numbers.now }
    requires few { length numbers.now ≤ max_steps }
    ensures { IfOk result (λ plan. AllZip (NamesKept (task_in ground.now)) numbers.now (plan_of plan)) }
{
    match Plan::new(instances_of(alloc, ground, numbers)?) {
        Some(plan) => Ok(plan),
        None => unreachable!(),
    }
}

/// The instances with these numbers, in order.
fn instances_of(
    alloc: Global,
    ground: &Ground<'_>,
    numbers: &[u32],
) -> Result<Vec<Instance>, NoMemory>
    requires { All (λ number. number < length (kept_instances (task_in ground.now))) numbers.now }
    ensures { IfOk result (λ steps. AllZip (NamesKept (task_in ground.now)) numbers.now (map instance_of steps.items)) }
{
    let instances = ground.instances();
    let mut steps = Vec::new(alloc);
    for number in numbers {
        let instance = &instances[*number as usize];
        steps.push(Instance {
            schema: instance.schema,
            objects: copied(&instance.objects),
        })?;
    }
    Ok(steps)
}
