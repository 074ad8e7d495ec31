//! Plans: lists of instances.
ghost use Rattle.std.specs.Prelude.{◌≤◌, vec_len};
ghost use Rattle.model.specs.Limits.{max_steps};

use crate::instance::Instance;

/// The maximum number of instances in a plan.
pub const MAX_STEPS: usize = 16_777_216;

/// A list of at most 16,777,216 instances, to be applied in order.
#[derive(Drop)]
pub struct Plan {
    steps: Vec<Instance>,
    ghost at_most: { vec_len steps ≤ max_steps },
}

impl Plan {
    ghost use Rattle.std.specs.Prelude.{◌≡◌, ◌<◌, ◌↔◌, map, IsNone, IfSome, length};
    ghost use Rattle.formulas.specs.State.{instance_of, plan_of};

    /// The plan with these instances; `None` if there are more than 16,777,216.
    pub fn new(steps: Vec<Instance>) -> Option<Plan>
        ensures too_long { IsNone result ↔ (max_steps < vec_len steps) }
        ensures steps { IfSome result (λ p. plan_of p ≡ map instance_of steps.items) }
    {
        if steps.len() > MAX_STEPS {
            return None;
        }
        Some(Plan { steps })
    }

    /// The instances, in order.
    pub fn steps(&self) -> &[Instance]
        ensures steps { map instance_of result.now ≡ plan_of self.now }
        ensures at_most { length result.now ≤ max_steps }
    {
        self.steps.as_slice()
    }
}
