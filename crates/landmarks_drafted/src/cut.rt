//! One cut of LM-cut (Helmert & Domshlak 2009, "Landmarks, Critical Paths and Abstractions: What's the Difference Anyway?"), and a
//! small zone of which it is the cut.
use crate::facts::{ALWAYS, GOAL};
use crate::levels::Levels;
use crate::relaxed_task::RelaxedTask;
use faults::DraftMemory;
use grounding::NumberedLiteral;
use landmark_zones::ZoneRef;

/// Where a fact is, seen from the cut, in the graph in which each operator leads from its supporter to all that it reaches.
#[derive(Clone, Copy, PartialEq, Eq)]
enum Side {
    /// It is reached from the state without the cut.
    Before,
    /// The goal is reached from it at no cost.
    Behind,
    /// Neither.
    Between,
}

/// A zone, by its facts, and its cut: the instances with an operator that reaches one of them and needs none.
#[derive(Drop)]
pub(crate) struct Cut {
    sides: Vec<Side>,
    /// The facts of a side, in the order in which they are found.
    found: Vec<u32>,
    zone: Vec<u32>,
    is_in_zone: Vec<bool>,
    /// The operators that may lead into the zone.
    entering: Vec<u32>,
    instances: Vec<u32>,
    /// How often an operator was looked at.
    steps: u64,
}

impl Cut {
    /// No cut, for the relaxation.
    pub(crate) fn new(memory: &DraftMemory, task: &RelaxedTask) -> Cut {
        let count = task.facts.count() as usize;
        Cut {
            sides: memory.filled(Side::Between, count),
            found: memory.list(),
            zone: memory.list(),
            is_in_zone: memory.filled(false, count),
            entering: memory.list(),
            instances: memory.list(),
            steps: 0,
        }
    }

    /// How often an operator was looked at.
    pub(crate) fn steps(&self) -> u64 {
        self.steps
    }

    /// The facts of the zone.
    pub(crate) fn zone(&self) -> &[u32] {
        &self.zone
    }

    /// The instances of the cut, in ascending order.
    pub(crate) fn instances(&self) -> &[u32] {
        &self.instances
    }

    /// Finds the next cut of the state from which these levels are, and its zone. If the goal is not reached, the cut is empty: no
    /// instance leads into the zone.
    pub(crate) fn find(&mut self, memory: &DraftMemory, task: &RelaxedTask, levels: &Levels) {
        self.sides.fill(Side::Between);
        if levels.is_reached(GOAL) {
            self.find_behind(memory, task, levels);
            self.find_before(memory, task, levels);
        }
        self.clear_zone();
        self.add_to_zone(memory, GOAL);
        self.close(memory, task, levels);
        self.list_instances(memory, task);
    }

    /// Takes this zone, and finds its cut. Whether all its literals are facts: if not, an instance may be missing.
    pub(crate) fn take_zone(
        &mut self,
        memory: &DraftMemory,
        task: &RelaxedTask,
        zone: ZoneRef<'_>,
    ) -> bool {
        self.clear_zone();
        for atom in zone.atoms {
            let (atom, value) = (*atom, true);
            if !self.take(memory, task, NumberedLiteral { atom, value }) {
                return false;
            }
        }
        for atom in zone.negated {
            let (atom, value) = (*atom, false);
            if !self.take(memory, task, NumberedLiteral { atom, value }) {
                return false;
            }
        }
        for fact in &self.zone {
            memory.kept(self.entering.extend_from_slice(task.reached_by(*fact)));
        }
        self.list_instances(memory, task);
        true
    }

    /// Adds the literal to the zone, if it is a fact. Whether it is one.
    fn take(&mut self, memory: &DraftMemory, task: &RelaxedTask, literal: NumberedLiteral) -> bool {
        let Some(fact) = task.facts.of(literal) else {
            return false;
        };
        self.add_to_zone(memory, fact);
        true
    }

    /// Finds the facts from which the goal is reached at no cost.
    fn find_behind(&mut self, memory: &DraftMemory, task: &RelaxedTask, levels: &Levels) {
        self.found.clear();
        self.put(memory, GOAL, Side::Behind);
        for place in 0..self.sides.len() {
            let Some(fact) = number_at(&self.found, place) else {
                break;
            };
            let operators = task.reached_by(fact);
            self.count(operators);
            for operator in operators {
                if levels.cost(*operator) == 0 {
                    if let Some(supporter) = levels.supporter(*operator) {
                        self.put(memory, supporter, Side::Behind);
                    }
                }
            }
        }
    }

    /// Finds the facts that are reached from the state without a fact that is past the cut.
    fn find_before(&mut self, memory: &DraftMemory, task: &RelaxedTask, levels: &Levels) {
        self.found.clear();
        for fact in levels.holding() {
            self.put(memory, *fact, Side::Before);
        }
        for place in 0..self.sides.len() {
            let Some(fact) = number_at(&self.found, place) else {
                break;
            };
            let operators = task.needed_by(fact);
            self.count(operators);
            for operator in operators {
                if levels.supporter(*operator) == Some(fact) {
                    self.go_on(memory, task.reaches(*operator));
                }
            }
        }
    }

    /// Counts these operators, each of which is looked at.
    fn count(&mut self, operators: &[u32]) {
        self.steps = self.steps.saturating_add(operators.len() as u64);
    }

    /// Notes that these facts are reached, unless one of them is past the cut.
    fn go_on(&mut self, memory: &DraftMemory, facts: &[u32]) {
        for fact in facts {
            if self.side(*fact) == Side::Behind {
                return;
            }
        }
        for fact in facts {
            self.put(memory, *fact, Side::Before);
        }
    }

    /// Notes the side of a fact, and that it is found if its side is a new one.
    fn put(&mut self, memory: &DraftMemory, fact: u32, side: Side) {
        if let Some(found) = self.sides.get_mut(fact as usize) {
            if *found != side {
                *found = side;
                memory.push(&mut self.found, fact);
            }
        }
    }

    /// The side of the fact.
    fn side(&self, fact: u32) -> Side {
        match self.sides.get(fact as usize) {
            Some(side) => *side,
            None => Side::Between,
        }
    }

    /// Empties the zone.
    fn clear_zone(&mut self) {
        for fact in &self.zone {
            if let Some(is_in_zone) = self.is_in_zone.get_mut(*fact as usize) {
                *is_in_zone = false;
            }
        }
        self.zone.clear();
        self.entering.clear();
    }

    /// Adds the fact to the zone.
    fn add_to_zone(&mut self, memory: &DraftMemory, fact: u32) {
        if let Some(is_in_zone) = self.is_in_zone.get_mut(fact as usize) {
            if !*is_in_zone {
                *is_in_zone = true;
                memory.push(&mut self.zone, fact);
            }
        }
    }

    /// Adds facts to the zone until no operators lead into it from outside but those of the cut.
    fn close(&mut self, memory: &DraftMemory, task: &RelaxedTask, levels: &Levels) {
        for place in 0..self.sides.len() {
            let Some(fact) = number_at(&self.zone, place) else {
                break;
            };
            let operators = task.reached_by(fact);
            self.count(operators);
            for operator in operators {
                if !self.needs_zone(task, *operator) {
                    let need = last_need(task, levels, *operator);
                    self.enter(memory, *operator, need);
                }
            }
        }
    }

    /// Notes that the operator leads into the zone, if this fact that it needs is before the cut; if not, the fact is of the zone too.
    fn enter(&mut self, memory: &DraftMemory, operator: u32, need: u32) {
        if self.side(need) == Side::Before {
            memory.push(&mut self.entering, operator);
        } else {
            self.add_to_zone(memory, need);
        }
    }

    /// Whether the operator needs a fact of the zone.
    fn needs_zone(&self, task: &RelaxedTask, operator: u32) -> bool {
        task.needs(operator)
            .iter()
            .any(|fact| self.is_in_zone(*fact))
    }

    /// Whether the fact is in the zone.
    fn is_in_zone(&self, fact: u32) -> bool {
        match self.is_in_zone.get(fact as usize) {
            Some(is_in_zone) => *is_in_zone,
            None => false,
        }
    }

    /// Lists the instances of the operators that lead into the zone.
    fn list_instances(&mut self, memory: &DraftMemory, task: &RelaxedTask) {
        self.instances.clear();
        self.steps = self.steps.saturating_add(self.entering.len() as u64);
        for place in 0..self.entering.len() {
            if let Some(operator) = number_at(&self.entering, place) {
                if !self.needs_zone(task, operator) {
                    memory.push(&mut self.instances, task.instance_of(operator));
                }
            }
        }
        self.instances.sort_unstable();
        self.instances.dedup();
    }
}

/// The operator's supporter, or a fact that it needs and that is not reached.
fn last_need(task: &RelaxedTask, levels: &Levels, operator: u32) -> u32 {
    if let Some(supporter) = levels.supporter(operator) {
        return supporter;
    }
    for need in task.needs(operator) {
        if !levels.is_reached(*need) {
            return *need;
        }
    }
    ALWAYS
}

/// The number at this place, if there is one.
fn number_at(numbers: &[u32], place: usize) -> Option<u32> {
    match numbers.get(place) {
        Some(number) => Some(*number),
        None => None,
    }
}
