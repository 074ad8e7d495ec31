//! The ground task, as search sees it.
use faults::NoMemory;
use grounding::Ground;
use packed_state::Packed;
use search::TransitionSystem;
use std::alloc::Global;

/// A ground task as a transition system over packed states, whose actions are the numbers of the kept instances. It means the
/// model's ground system, which is bisimilar to the task (`GroundTaskIsBisimilar`).
///
/// ```text
/// let system = GroundSystem(&ground);
/// let store = PooledStore::new(alloc, ground.width())?;
/// let outcome = best_first(alloc, &system, &guide, store, 100_000)?;
/// ```
#[derive(Clone, Copy)]
pub struct GroundSystem<'a, 't>(pub &'a Ground<'t>);

impl TransitionSystem for GroundSystem<'_, '_> {
    ghost use Rattle.std.specs.Prelude.{length};
    ghost use Rattle.grounding.specs.Ground.{task_in, atoms_in};
    ghost use Rattle.model.specs.Grounding.{ground_system};

    ghost width_of = { λ system. length (atoms_in system.0.now) };

    ghost means = { λ system. ground_system (task_in system.0.now) (atoms_in system.0.now) };

    fn width(&self) -> u32 {
        self.0.width()
    }

    fn initial(&self, alloc: Global) -> Result<Packed, NoMemory> {
        self.0.initial(alloc)
    }

    fn applicable(&self, state: &Packed, into: &mut Vec<u32>) -> Result<(), NoMemory> {
        self.0.list_applicable(state, into)
    }

    fn successor(&self, action: u32, state: &Packed, into: &mut Packed) {
        self.0.step_into(action, state, into);
    }

    fn cost(&self, action: u32) -> u32 {
        self.0.cost(action)
    }

    fn meets_goal(&self, state: &Packed) -> bool {
        self.0.meets_goal(state)
    }
}
