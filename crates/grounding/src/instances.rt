//! The number of kept instances of a ground task.
ghost use Rattle.std.specs.Prelude.{◌≡◌, length};
ghost use Rattle.grounding.specs.Ground.{task_in};
ghost use Rattle.model.specs.StaticallyFalse.{kept_instances};

use crate::ground::Ground;

/// The number of kept instances of the ground task. Instances are numbered from 0.
pub fn instance_count(ground: &Ground<'_>) -> u32
    ensures { result ≡ length (kept_instances (task_in ground.now)) }
{
    ground.instances().len() as u32
}
