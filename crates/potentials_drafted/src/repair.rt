//! Integral weights: rounded ones, repaired where they are not fair.
use crate::aims::{Aims, Gain, WeightStep};
use crate::incidence::IncidenceEntry;
use crate::program_input::ProgramInput;
use faults::DraftMemory;
use potentials::is_in_range;
use std::num::saturating_f64_to_i64;

/// Repair limit per rounding; of these, moves away from zero.
const MAX_MOVES: u32 = 65_536;

const MAX_MOVES_AWAY: u32 = 1024;

/// Work limits, in instance touches: after the first, no move leads away from zero; after the second, repair stops.
const MAX_WORK_AWAY: u64 = 4_194_304;

const MAX_WORK: u64 = 8_388_608;

/// The tolerance within which a number counts as an integer.
const NEAR: f64 = 0.01;

/// The rounding modes: each is an offset added to a weight before rounding to the nearest integer.
const LIFTS: [f64; 5] = [0.48, 0.25, 0.0, -0.25, -0.48];

/// Where moves may lead.
#[derive(Clone, Copy)]
enum Direction {
    /// Toward zero, and away from it.
    Any,
    /// Toward zero.
    TowardZero,
}

/// The weights under repair, and the best weights so far.
#[derive(Drop)]
pub(crate) struct Repair<'a> {
    memory: &'a DraftMemory,
    weights: Vec<i64>,
    /// The slack of each instance, and the instances with negative slack.
    slacks: Vec<i64>,
    unfair: Vec<u32>,
    /// Where moves may lead now.
    direction: Direction,
    work: u64,
    best: Vec<i64>,
    gain: Gain,
}

impl<'a> Repair<'a> {
    /// Starts with these weights as the best so far.
    pub(crate) fn new(
        memory: &'a DraftMemory,
        input: &ProgramInput,
        aims: &Aims,
        weights: &[i64],
    ) -> Repair<'a> {
        Repair {
            memory,
            weights: memory.list(),
            slacks: memory.list(),
            unfair: memory.list(),
            direction: Direction::Any,
            work: 0,
            best: memory.copied(weights),
            gain: aims.gain_of_all(input, weights),
        }
    }

    /// The best weights.
    pub(crate) fn into_best(self) -> Vec<i64> {
        self.best
    }

    /// Rounds the weights in each mode, unless they are integral, repairs them, and keeps them if they are better than the best.
    pub(crate) fn take(&mut self, input: &ProgramInput, aims: &Aims, weights: &[f64]) {
        for lift in LIFTS {
            self.start(input, weights, lift);
            if self.repair(input, aims) {
                self.keep_if_better(input, aims);
            }
            if weights.iter().all(|weight| is_whole(*weight)) {
                return;
            }
        }
    }

    /// Rounds the weights, and lists the instances that are then unfair.
    fn start(&mut self, input: &ProgramInput, weights: &[f64], lift: f64) {
        self.weights.clear();
        for weight in weights {
            let rounded = saturating_f64_to_i64((*weight + lift).round());
            self.memory.push(&mut self.weights, rounded);
        }
        self.slacks.clear();
        self.unfair.clear();
        let mut number = 0u32;
        for cost in input.costs() {
            let slack = self.slack(input.atoms_of(number), *cost);
            self.memory.push(&mut self.slacks, slack);
            if slack < 0 {
                self.memory.push(&mut self.unfair, number);
            }
            number = number.saturating_add(1);
        }
    }

    /// The slack of an instance that touches these atoms: its cost minus its loss.
    fn slack(&self, touches: &[IncidenceEntry], cost: i64) -> i64 {
        let mut left = cost;
        for touch in touches {
            left = left.saturating_sub(touch.loss(self.weight(touch.number)));
        }
        left
    }

    /// Makes the weights the best, if they are better and in range.
    fn keep_if_better(&mut self, input: &ProgramInput, aims: &Aims) {
        let gain = aims.gain_of_all(input, &self.weights);
        let are_in_range = self.weights.iter().all(|weight| is_in_range(*weight));
        if are_in_range && gain.is_better_than(self.gain) {
            self.gain = gain;
            std::mem::swap(&mut self.weights, &mut self.best);
        }
    }

    /// Changes single weights by one until each instance is fair. Returns whether that succeeds.
    fn repair(&mut self, input: &ProgramInput, aims: &Aims) -> bool {
        for moves in 0..MAX_MOVES {
            let Some(number) = self.unfair.pop() else {
                return true;
            };
            if self.slack_of(number) < 0 {
                self.choose_direction(moves);
                let Some(step) = self.best_move(input, aims, number) else {
                    return false;
                };
                if self.is_done() {
                    return false;
                }
                self.memory.push(&mut self.unfair, number);
                self.shift(input, step);
            }
        }
        false
    }

    /// Whether the work limit is reached, or memory was refused.
    fn is_done(&self) -> bool {
        self.work > MAX_WORK || self.memory.is_refused()
    }

    /// Moves lead away from zero only at first: as long as few were made, with little work.
    fn choose_direction(&mut self, moves: u32) {
        self.direction = if moves < MAX_MOVES_AWAY && self.work <= MAX_WORK_AWAY {
            Direction::Any
        } else {
            Direction::TowardZero
        };
    }

    /// The best move that reduces the loss of the instance; the first of equal ones.
    fn best_move(&mut self, input: &ProgramInput, aims: &Aims, number: u32) -> Option<WeightStep> {
        let mut best = None;
        let mut most = i64::MIN;
        for touch in input.atoms_of(number) {
            for by in [-1, 1] {
                let step = WeightStep {
                    atom: touch.number,
                    by,
                };
                if self.is_of_use(*touch, by) {
                    let score = self.score(input, aims, step);
                    if best.is_none() || score > most {
                        best = Some(step);
                        most = score;
                    }
                }
            }
        }
        best
    }

    /// Whether the move reduces the loss of an instance with this touch, and leads where it may.
    fn is_of_use(&self, touch: IncidenceEntry, by: i64) -> bool {
        let before = self.weight(touch.number);
        let after = before.saturating_add(by);
        let may_be_made = match self.direction {
            Direction::Any => true,
            Direction::TowardZero => after.saturating_abs() <= before.saturating_abs(),
        };
        may_be_made && touch.loss(after) < touch.loss(before)
    }

    /// The score of the move: the gain of the initial state and the reduction of unfairness.
    fn score(&mut self, input: &ProgramInput, aims: &Aims, step: WeightStep) -> i64 {
        let gain = aims.gain(input, step, self.weight(step.atom));
        let repaired = self.repaired(input, step);
        gain.saturating_mul(4).saturating_add(repaired)
    }

    /// The total reduction of unfairness by the move.
    fn repaired(&mut self, input: &ProgramInput, step: WeightStep) -> i64 {
        let before = self.weight(step.atom);
        let after = before.saturating_add(step.by);
        let touches = input.instances_of(step.atom);
        let mut repaired = 0i64;
        for touch in touches {
            let slack = self.slack_of(touch.number);
            let less = touch.loss(before).saturating_sub(touch.loss(after));
            let later = slack.saturating_add(less);
            repaired = repaired.saturating_add(later.min(0).saturating_sub(slack.min(0)));
        }
        self.count(touches.len());
        repaired
    }

    /// Makes the move, and lists the instances that become unfair.
    fn shift(&mut self, input: &ProgramInput, step: WeightStep) {
        let before = self.weight(step.atom);
        let after = before.saturating_add(step.by);
        self.set_weight(step.atom, after);
        let touches = input.instances_of(step.atom);
        for touch in touches {
            self.shift_slack(*touch, before, after);
        }
        self.count(touches.len());
    }

    /// Updates the slack of an instance after a change of a weight.
    fn shift_slack(&mut self, touch: IncidenceEntry, before: i64, after: i64) {
        let less = touch.loss(before).saturating_sub(touch.loss(after));
        let place = touch.number as usize;
        if place < self.slacks.len() {
            let slack = self.slacks[place].saturating_add(less);
            self.slacks[place] = slack;
            if slack < 0 {
                self.memory.push(&mut self.unfair, touch.number);
            }
        }
    }

    /// Counts this many touches as work.
    fn count(&mut self, more: usize) {
        self.work = self.work.saturating_add(more as u64);
    }

    /// The weight of the atom.
    fn weight(&self, atom: u32) -> i64 {
        match self.weights.get(atom as usize) {
            Some(weight) => *weight,
            None => 0,
        }
    }

    /// Sets the weight.
    fn set_weight(&mut self, atom: u32, weight: i64) {
        let place = atom as usize;
        if place < self.weights.len() {
            self.weights[place] = weight;
        }
    }

    /// The slack of the instance.
    fn slack_of(&self, number: u32) -> i64 {
        match self.slacks.get(number as usize) {
            Some(slack) => *slack,
            None => 0,
        }
    }
}

/// Whether the number is an integer, within the tolerance.
pub(crate) fn is_whole(number: f64) -> bool {
    (number - number.round()).abs() < NEAR
}
