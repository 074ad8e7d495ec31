//! Levels of facts by h-max (Bonet & Geffner 2001, "Planning as Heuristic Search"): what it costs at least to reach each, where
//! several facts cost as much as the dearest of them.
use crate::facts::{ALWAYS, FIRST, Facts};
use crate::relaxed_task::RelaxedTask;
use crate::rows::number_of;
use bucket_queue::{BucketQueue, Queued};
use faults::DraftMemory;
use grounding::NumberedLiteral;
use packed_state::Packed;

/// The level of a fact that is not reached.
const UNREACHED: u32 = u32::MAX;

/// The greatest level of a fact that is reached. One that is dearer has this level too.
const MAX_LEVEL: u32 = u32::MAX - 1;

/// A fact that waits at a level.
#[derive(Clone, Copy)]
struct Waiting {
    level: u32,
    fact: u32,
}

/// What is known of an operator.
#[derive(Clone, Copy)]
struct OperatorState {
    /// What is left of its instance's cost.
    cost: u32,
    /// The number of facts that it needs and that are not reached.
    missing: u32,
    /// If none is missing, a fact of the greatest level among those that it needs: its supporter.
    supporter: u32,
    /// The supporter's level.
    level: u32,
}

/// The level of each fact from a state, by what is left of the costs.
#[derive(Drop)]
pub(crate) struct Levels {
    /// What is known of each operator at first.
    fresh: Vec<OperatorState>,
    operators: Vec<OperatorState>,
    levels: Vec<u32>,
    /// The facts that hold in the state.
    holding: Vec<u32>,
    /// The facts that wait, by their levels.
    queue: BucketQueue,
    /// How often an operator was looked at.
    steps: u64,
}

impl Levels {
    /// Levels for the relaxation, before they are computed from a state.
    pub(crate) fn new(memory: &DraftMemory, task: &RelaxedTask) -> Levels {
        let mut fresh = memory.list();
        for operator in 0..task.operator_count() {
            memory.push(&mut fresh, OperatorState::fresh(task, operator));
        }
        Levels {
            fresh,
            operators: memory.list(),
            levels: memory.list(),
            holding: memory.list(),
            queue: BucketQueue::new(memory),
            steps: 0,
        }
    }

    /// Begins at this state, with the costs of all instances whole. No level is computed yet.
    pub(crate) fn start(&mut self, memory: &DraftMemory, facts: &Facts, state: &Packed) {
        self.queue.clear();
        self.operators.clear();
        memory.kept(self.operators.extend_from_slice(&self.fresh));
        self.holding.clear();
        self.levels.clear();
        memory.kept(self.levels.resize(facts.count() as usize, UNREACHED));
        self.hold(memory, ALWAYS);
        let mut fact = FIRST;
        for literal in facts.literals() {
            if holds(state, *literal) {
                self.hold(memory, fact);
            }
            fact = fact.saturating_add(1);
        }
    }

    /// Notes that the fact holds in the state.
    fn hold(&mut self, memory: &DraftMemory, fact: u32) {
        memory.push(&mut self.holding, fact);
        self.lower(memory, fact, 0);
    }

    /// How often an operator was looked at.
    pub(crate) fn steps(&self) -> u64 {
        self.steps
    }

    /// The facts that hold in the state.
    pub(crate) fn holding(&self) -> &[u32] {
        &self.holding
    }

    /// Whether the fact is reached.
    pub(crate) fn is_reached(&self, fact: u32) -> bool {
        self.of(fact) < UNREACHED
    }

    /// Whether one of the facts is reached.
    pub(crate) fn are_some_reached(&self, facts: &[u32]) -> bool {
        facts.iter().any(|fact| self.is_reached(*fact))
    }

    /// The level of the fact.
    pub(crate) fn of(&self, fact: u32) -> u32 {
        match self.levels.get(fact as usize) {
            Some(level) => *level,
            None => UNREACHED,
        }
    }

    /// What is left of the operator's cost; nothing if there is no such operator.
    pub(crate) fn cost(&self, operator: u32) -> u32 {
        match self.operators.get(operator as usize) {
            Some(state) => state.cost,
            None => 0,
        }
    }

    /// The supporter of the operator, if all that it needs is reached.
    pub(crate) fn supporter(&self, operator: u32) -> Option<u32> {
        match self.operators.get(operator as usize) {
            Some(state) if state.missing == 0 => Some(state.supporter),
            _ => None,
        }
    }

    /// Computes all levels.
    pub(crate) fn explore(&mut self, memory: &DraftMemory, task: &RelaxedTask) {
        for _ in 0..u64::MAX {
            let Some(waiting) = self.next() else {
                break;
            };
            if self.of(waiting.fact) == waiting.level {
                self.expand(memory, task, waiting);
            }
        }
    }

    /// Goes on from a fact, whose level is final.
    fn expand(&mut self, memory: &DraftMemory, task: &RelaxedTask, waiting: Waiting) {
        let operators = task.needed_by(waiting.fact);
        self.steps = self.steps.saturating_add(operators.len() as u64);
        for operator in operators {
            if let Some(level) = self.support(*operator, waiting) {
                self.lower_all(memory, task.reaches(*operator), level);
            }
        }
    }

    /// Notes that a fact is reached that the operator needs. If it is the last one, it is the supporter, and the result is the level
    /// of what the operator reaches.
    fn support(&mut self, operator: u32, waiting: Waiting) -> Option<u32> {
        let state = self.operators.get_mut(operator as usize)?;
        state.missing = state.missing.saturating_sub(1);
        if state.missing > 0 {
            return None;
        }
        state.supporter = waiting.fact;
        state.level = waiting.level;
        Some(state.level_after())
    }

    /// Lowers the levels of these facts to at most this.
    fn lower_all(&mut self, memory: &DraftMemory, facts: &[u32], level: u32) {
        for fact in facts {
            self.lower(memory, *fact, level);
        }
    }

    /// Lowers the level of the fact to at most this.
    fn lower(&mut self, memory: &DraftMemory, fact: u32, level: u32) {
        let place = fact as usize;
        if place < self.levels.len() && level < self.levels[place] {
            self.levels[place] = level;
            let queued = Queued {
                key: u64::from(level),
                number: fact,
            };
            self.queue.push(memory, queued);
        }
    }

    /// Removes a fact of the least level from those that wait.
    fn next(&mut self) -> Option<Waiting> {
        match self.queue.pop() {
            Some(queued) => Some(Waiting {
                level: u32::try_from(queued.key).unwrap_or(UNREACHED),
                fact: queued.number,
            }),
            None => None,
        }
    }

    /// What is left of the costs of each of these instances; 0 if there are none.
    pub(crate) fn least_cost(&self, task: &RelaxedTask, instances: &[u32]) -> u32 {
        let mut least = None;
        for instance in instances {
            let cost = self.cost(task.operators_of(*instance).start);
            least = Some(match least {
                Some(least) => cost.min(least),
                None => cost,
            });
        }
        match least {
            Some(least) => least,
            None => 0,
        }
    }

    /// Takes the weight from the costs of these instances.
    pub(crate) fn charge(&mut self, task: &RelaxedTask, instances: &[u32], weight: u32) {
        for instance in instances {
            for operator in task.operators_of(*instance) {
                if let Some(state) = self.operators.get_mut(operator as usize) {
                    state.cost = state.cost.saturating_sub(weight);
                }
            }
        }
    }

    /// Lowers the levels after the costs of these instances have fallen, where all levels have been computed before.
    pub(crate) fn settle(&mut self, memory: &DraftMemory, task: &RelaxedTask, instances: &[u32]) {
        for instance in instances {
            for operator in task.operators_of(*instance) {
                self.lower_reached(memory, task, operator);
            }
        }
        for _ in 0..u64::MAX {
            let Some(waiting) = self.next() else {
                break;
            };
            if self.of(waiting.fact) == waiting.level {
                self.expand_lowered(memory, task, waiting);
            }
        }
    }

    /// Lowers the levels of what the operator reaches, if all that it needs is reached.
    fn lower_reached(&mut self, memory: &DraftMemory, task: &RelaxedTask, operator: u32) {
        if let Some(state) = self.operators.get(operator as usize) {
            if state.missing == 0 {
                let level = state.level_after();
                self.lower_all(memory, task.reaches(operator), level);
            }
        }
    }

    /// Goes on from a fact whose level has fallen: to the operators that it supports.
    fn expand_lowered(&mut self, memory: &DraftMemory, task: &RelaxedTask, waiting: Waiting) {
        let operators = task.needed_by(waiting.fact);
        self.steps = self.steps.saturating_add(operators.len() as u64);
        for operator in operators {
            if let Some(level) = self.support_again(task, *operator, waiting) {
                self.lower_all(memory, task.reaches(*operator), level);
            }
        }
    }

    /// Finds the operator's supporter again, if the fact was it and its level has fallen. If the operator's level falls too, the
    /// result is that of what it reaches.
    fn support_again(
        &mut self,
        task: &RelaxedTask,
        operator: u32,
        waiting: Waiting,
    ) -> Option<u32> {
        let state = self.operators.get(operator as usize)?;
        if state.missing > 0 || state.supporter != waiting.fact || state.level <= waiting.level {
            return None;
        }
        let supporter = self.dearest(task.needs(operator), waiting);
        let state = self.operators.get_mut(operator as usize)?;
        state.supporter = supporter.fact;
        if supporter.level >= state.level {
            return None;
        }
        state.level = supporter.level;
        Some(state.level_after())
    }

    /// The fact of the greatest level among these and the first.
    fn dearest(&self, facts: &[u32], first: Waiting) -> Waiting {
        let mut dearest = first;
        for fact in facts {
            let level = self.of(*fact);
            if level > dearest.level {
                dearest = Waiting { level, fact: *fact };
            }
        }
        dearest
    }
}

impl OperatorState {
    /// What is known of the operator at first.
    fn fresh(task: &RelaxedTask, operator: u32) -> OperatorState {
        OperatorState {
            cost: task.cost(operator),
            missing: number_of(task.needs(operator).len()),
            supporter: ALWAYS,
            level: 0,
        }
    }

    /// The level of what the operator reaches, if all that it needs is reached.
    fn level_after(self) -> u32 {
        self.level.saturating_add(self.cost).min(MAX_LEVEL)
    }
}

/// Whether the literal holds in the state.
fn holds(state: &Packed, literal: NumberedLiteral) -> bool {
    literal.atom < state.width() && state.has(literal.atom) == literal.value
}
