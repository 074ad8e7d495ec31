//! Landmark values of single states by LM-cut, zone by zone.
ghost use Rattle.std.specs.Prelude.{IfSome};
ghost use Rattle.landmarks_drafted.specs.Drafts.{IsOneValue};

use crate::cut::Cut;
use crate::draft::{Claim, Draft};
use crate::facts::GOAL;
use crate::levels::Levels;
use crate::relaxed_task::RelaxedTask;
use crate::value::{DraftedValue, ZoneLiterals};
use faults::DraftMemory;
use grounding::Ground;
use landmark_zones::{Landmarks, MAX_SHARE_WEIGHT, Share};
use packed_state::Packed;

/// The maximum number of zones that are drafted for a value.
const MAX_CUTS: usize = 65_536;

/// Makes landmark values. What it needs of memory serves the next one again.
#[derive(Drop)]
pub(crate) struct ValueMaker {
    task: RelaxedTask,
    levels: Levels,
    cut: Cut,
    literals: ZoneLiterals,
    value: DraftedValue,
}

impl ValueMaker {
    /// The maker for the ground task.
    pub(crate) fn new(memory: &DraftMemory, ground: &Ground<'_>) -> ValueMaker {
        let task = RelaxedTask::new(memory, ground);
        let levels = Levels::new(memory, &task);
        let cut = Cut::new(memory, &task);
        ValueMaker {
            task,
            levels,
            cut,
            literals: ZoneLiterals::none(memory),
            value: DraftedValue::none(memory),
        }
    }

    /// The steps so far: each looks at an operator.
    pub(crate) fn steps(&self) -> u64 {
        self.levels.steps().saturating_add(self.cut.steps())
    }

    /// Begins a value for this state.
    pub(crate) fn start(&mut self, memory: &DraftMemory, state: &Packed) {
        self.levels.start(memory, &self.task.facts, state);
        self.value.begin(memory);
    }

    /// Keeps the zones of these shares that are whole in the state, with as much of their weights as the costs allow.
    pub(crate) fn keep_all(
        &mut self,
        memory: &DraftMemory,
        landmarks: &Landmarks,
        shares: &[Share],
    ) {
        for share in shares {
            self.keep(memory, landmarks, *share);
        }
    }

    /// Keeps the zone of the share, if it is whole in the state from which levels are about to be computed.
    fn keep(&mut self, memory: &DraftMemory, landmarks: &Landmarks, share: Share) {
        let number = share.zone as usize;
        if number >= landmarks.zone_count() {
            return;
        }
        let zone = landmarks.zone(number);
        if !self.cut.take_zone(memory, &self.task, zone)
            || self.levels.are_some_reached(self.cut.zone())
        {
            return;
        }
        let instances = self.cut.instances();
        let weight = self
            .levels
            .least_cost(&self.task, instances)
            .min(share.weight);
        if weight > 0 {
            self.value.add(memory, zone, weight);
            self.levels.charge(&self.task, instances, weight);
        }
    }

    /// The draft, once the zones that are kept are in the value and charged for.
    pub(crate) fn draft(&mut self, memory: &DraftMemory, atom_count: u32) -> Option<Draft>
        ensures { IfSome result (IsOneValue atom_count) }
    {
        let claim = self.add_zones(memory);
        Draft::new(self.value.take(memory), atom_count, claim)
    }

    /// Adds zones to the value until the goal is reached at no cost. If it is not reached at all, the value is a zone that shows it.
    fn add_zones(&mut self, memory: &DraftMemory) -> Claim {
        self.levels.explore(memory, &self.task);
        if !self.levels.is_reached(GOAL) {
            self.cut.find(memory, &self.task, &self.levels);
            self.value.begin(memory);
            self.add_zone(memory, 1);
            return Claim::DeadEnd;
        }
        for _ in 0..MAX_CUTS {
            if self.levels.of(GOAL) == 0 || memory.is_refused() || !self.add_cut(memory) {
                break;
            }
        }
        Claim::LowerBound
    }

    /// Adds the zone of the next cut, and takes its weight from the costs of the cut. Whether there is one.
    fn add_cut(&mut self, memory: &DraftMemory) -> bool {
        self.cut.find(memory, &self.task, &self.levels);
        let instances = self.cut.instances();
        let weight = self
            .levels
            .least_cost(&self.task, instances)
            .min(MAX_SHARE_WEIGHT);
        if weight == 0 {
            return false;
        }
        self.add_zone(memory, weight);
        let instances = self.cut.instances();
        self.levels.charge(&self.task, instances, weight);
        self.levels.settle(memory, &self.task, instances);
        true
    }

    /// Adds the zone of the cut.
    fn add_zone(&mut self, memory: &DraftMemory, weight: u32) {
        self.literals
            .take(memory, &self.task.facts, self.cut.zone());
        self.value.add(memory, self.literals.zone(), weight);
    }
}
