//! The atoms that are initially true.
ghost use Rattle.std.specs.Prelude.{◌≡◌, IfOk};
ghost use Rattle.std.specs.FinSet.{contains};
ghost use Rattle.task.specs.Task.{task_of};
ghost use Rattle.model.specs.Task as model_task;
ghost use Rattle.model.specs.Meaning.{initial_state};
ghost use Rattle.grounding_instances.specs.Initial.{facts_of};

use faults::NoMemory;
use formulas::Valuation;
use indexmap::IndexSet;
use std::alloc::Global;
use task::{Atom, Task};

/// The atoms that are initially true, hashed, since grounding looks one up for each static literal of each instance.
#[derive(Drop)]
pub(crate) struct InitialAtoms {
    atoms: IndexSet<Atom>,
}

impl InitialAtoms {
    /// The initial atoms of the task.
    pub(crate) fn new(alloc: Global, task: &Task) -> Result<InitialAtoms, NoMemory>
        ensures { IfOk result (λ initial. (a : model_task.Atom) → contains (facts_of initial) a ≡ contains (initial_state (task_of task.now)) a) }
    {
        let mut atoms = IndexSet::new(alloc);
        for atom in task.init() {
            atoms.insert(atom.clone()?)?;
        }
        Ok(InitialAtoms { atoms })
    }
}

impl Valuation for InitialAtoms {
    ghost facts = { facts_of };

    fn contains(&self, atom: &Atom) -> bool {
        self.atoms.contains(atom)
    }
}
