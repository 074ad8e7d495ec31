//! Data of a ground task that drafts of potentials read repeatedly.
ghost use Rattle.std.specs.Prelude.{◌≡◌, IfOk};
ghost use Rattle.potentials_drafted.specs.ProgramInputs.{IsInputOf};

use crate::incidence::{Incidence, IncidenceEntry};
use crate::samples::sampled;
use faults::{DraftMemory, NoMemory};
use grounding::{Ground, instance_count};
use packed_state::Packed;
use potentials::{Said, is_in_range};
use std::alloc::Global;

/// The number of sampled states.
const SAMPLES: u32 = 32;

/// What the goal requires of an atom.
#[derive(Clone, Copy)]
pub(crate) struct AtGoal {
    is_true: bool,
    is_false: bool,
}

/// The data that drafts read, for values and for dead ends alike: for each atom what the goal requires of it and the instances
/// that touch it, for each instance its cost and the atoms that it touches, and states sampled by random walks.
pub struct ProgramInput {
    width: u32,
    at_goal: Vec<AtGoal>,
    costs: Vec<i64>,
    incidence: Incidence,
    /// The true atoms of the initial state and then of the sampled states.
    states: Vec<Vec<u32>>,
}

impl Drop for ProgramInput {
    fn drop(self) {
        let Self {
            width: _,
            at_goal: _,
            costs: _,
            incidence: _,
            states: _,
        } = self;
    }
}

impl AtGoal {
    /// No requirement.
    const OPEN: AtGoal = AtGoal {
        is_true: false,
        is_false: false,
    };

    /// The amount by which the constant must fall when the atom's weight changes.
    pub(crate) fn less(self, before: i64, after: i64) -> i64 {
        self.gives(after).saturating_sub(self.gives(before))
    }

    /// Upper bound of the atom's contribution in goal states, for this weight.
    fn gives(self, weight: i64) -> i64 {
        if is_in_range(weight) {
            let said = Said {
                is_false: self.is_false,
                is_true: self.is_true,
            };
            said.gives(weight)
        } else {
            0
        }
    }
}

impl ProgramInput {
    /// The data of the ground task with this initial state.
    ///
    /// # Errors
    /// An allocation failed.
    pub fn new(
        alloc: Global,
        ground: &Ground<'_>,
        initial: &Packed,
    ) -> Result<ProgramInput, NoMemory>
        ensures { IfOk result (IsInputOf ground.now) }
    {
        let memory = DraftMemory::new(alloc);
        let incidence = Incidence::new(alloc, ground)?;
        let input = ProgramInput {
            width: ground.width(),
            at_goal: reported_at_goal(&memory, ground),
            costs: costs(&memory, ground),
            incidence,
            states: sampled(&memory, ground, initial, SAMPLES),
        };
        memory.finish(input)
    }

    /// The number of atoms.
    pub fn width(&self) -> u32 {
        self.width
    }

    /// What the goal requires of the atom.
    pub(crate) fn at_goal(&self, atom: u32) -> AtGoal {
        match self.at_goal.get(atom as usize) {
            Some(at_goal) => *at_goal,
            None => AtGoal::OPEN,
        }
    }

    /// The cost of each instance.
    pub fn costs(&self) -> &[i64] {
        &self.costs
    }

    /// Replaces the costs of the instances by these, in the order of instances.
    pub fn set_costs(&mut self, costs: Vec<i64>) {
        self.costs = costs;
    }

    /// Upper bound of the loss of the instance with this number, for these weights.
    pub fn loss(&self, number: u32, weights: &[i64]) -> i64 {
        let mut total = 0i64;
        for entry in self.atoms_of(number) {
            if let Some(weight) = weights.get(entry.number as usize) {
                total = total.saturating_add(entry.loss(*weight));
            }
        }
        total
    }

    /// The true atoms of the initial state and then of the sampled states.
    pub fn states(&self) -> &[Vec<u32>] {
        &self.states
    }

    /// The greatest constant for which these weights have at most the value 0 in goal states.
    pub fn constant(&self, weights: &[i64]) -> i64 {
        let mut constant = 0i64;
        let mut atom = 0u32;
        for weight in weights {
            constant = constant.saturating_sub(self.at_goal(atom).gives(*weight));
            atom = atom.saturating_add(1);
        }
        constant
    }

    /// The instances that touch the atom.
    pub(crate) fn instances_of(&self, atom: u32) -> &[IncidenceEntry] {
        self.incidence.of(atom)
    }

    /// The atoms that the instance touches.
    pub(crate) fn atoms_of(&self, number: u32) -> &[IncidenceEntry] {
        self.atoms_at(number as usize)
    }

    /// The atoms that the instance at this index touches.
    pub(crate) fn atoms_at(&self, place: usize) -> &[IncidenceEntry] {
        self.incidence.atoms_at(place)
    }

    /// The incidence of instances and atoms.
    pub fn incidence(&self) -> &Incidence
        ensures { result.now ≡ self.now.incidence }
    {
        &self.incidence
    }
}

/// What the goal requires of each atom.
fn reported_at_goal(memory: &DraftMemory, ground: &Ground<'_>) -> Vec<AtGoal> {
    let mut reported = memory.filled(AtGoal::OPEN, ground.width() as usize);
    for literal in ground.goal_literals() {
        let place = literal.atom as usize;
        if place < reported.len() {
            reported[place].is_true |= literal.value;
            reported[place].is_false |= !literal.value;
        }
    }
    reported
}

/// The cost of each instance.
fn costs(memory: &DraftMemory, ground: &Ground<'_>) -> Vec<i64> {
    let mut costs = memory.list();
    for number in 0..instance_count(ground) {
        memory.push(&mut costs, i64::from(ground.cost(number)));
    }
    costs
}
