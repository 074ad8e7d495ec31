//! Weights that may detect dead ends.
//!
//! If no instance may lose anything, every multiple of fair weights is fair, so that the linear program has unbounded rays. Along
//! a ray on which a state gains, its value eventually reaches 1, and the state is detected as a dead end.
use crate::aims::{Aim, Aims};
use crate::linear_program::LinearProgram;
use crate::program_input::ProgramInput;
use crate::repair::is_whole;
use crate::simplex::Vertex;
use faults::DraftMemory;
use potentials::Allowance;
use std::num::{nearest_i64_to_f64, saturating_f64_to_i64};

/// The maximum number of states that weights are drafted for: the initial one, and sampled ones.
const MAX_STATES: usize = 17;

/// Work limits of the simplex algorithm: in total, and of that for the sampled states after the initial one.
const MAX_WORK: u64 = 524_288;

const MAX_WORK_SAMPLED: u64 = 131_072;

/// The greatest integer tried for the least weight when weights are scaled to integers.
const MAX_FACTOR: i64 = 60;

/// Weights up to this size count as 0.
const NOTHING: f64 = 1e-9;

/// The states that weights are drafted for, and the linear program.
pub struct DeadDrafts<'a> {
    memory: &'a DraftMemory,
    input: &'a ProgramInput,
    program: LinearProgram<'a>,
    vertex: Vertex,
    /// The true atoms of the initial state and then of the sampled states.
    states: &'a [Vec<u32>],
    /// The number of states already processed.
    done: usize,
}

impl Drop for DeadDrafts<'_> {
    fn drop(self) {
        let Self {
            memory: _,
            input: _,
            program: _,
            vertex: _,
            states: _,
            done: _,
        } = self;
    }
}

/// The states that weights detect as dead ends: whether the initial one, and how many in all.
#[derive(Clone, Copy)]
struct Reported {
    is_initial: bool,
    states: usize,
}

impl<'a> DeadDrafts<'a> {
    /// Drafts for the initial state and for some states reached by random walks from it. The memory knows whether it was refused.
    pub fn new(memory: &'a DraftMemory, input: &'a ProgramInput) -> DeadDrafts<'a> {
        let all = input.states();
        let states = &all[..all.len().min(MAX_STATES)];
        let width = input.width();
        let aims = Aims::new(Aim::none(memory, width), Aim::all(memory, width, states));
        let program = LinearProgram::new(memory, input, &aims);
        let vertex = Vertex::new(&program, Allowance::Nothing, MAX_WORK);
        DeadDrafts {
            memory,
            input,
            program,
            vertex,
            states,
            done: 0,
        }
    }

    /// The next weights that may detect more of the states as dead ends than the given ones, if there are any. Nothing more is
    /// drafted once the initial state is detected.
    pub fn next(&mut self, weights: &[i64]) -> Option<Vec<i64>> {
        if self.is_reported(0, weights) {
            return None;
        }
        for place in self.done..self.states.len() {
            self.done = place.saturating_add(1);
            if !self.is_reported(place, weights) {
                let draft = self.draft(place, weights);
                if place == 0 {
                    self.vertex.limit_work(MAX_WORK_SAMPLED);
                }
                if draft.is_some() {
                    return draft;
                }
            }
        }
        None
    }

    /// Weights, drafted for the state at this index, that detect more of the states than the given ones: either alone or added to
    /// them.
    fn draft(&mut self, place: usize, weights: &[i64]) -> Option<Vec<i64>> {
        let found = self.found(place)?;
        let both = self.sums(&found, weights);
        let before = self.reported(weights);
        let alone = self.reported(&found);
        let together = self.reported(&both);
        if together.is_more_than(before) && !alone.is_more_than(together) {
            return Some(both);
        }
        if alone.is_more_than(before) {
            Some(found)
        } else {
            None
        }
    }

    /// The sums of the weights.
    fn sums(&self, found: &[i64], weights: &[i64]) -> Vec<i64> {
        let mut both = self.memory.list();
        for (more, weight) in found.iter().zip(weights) {
            self.memory.push(&mut both, more.saturating_add(*weight));
        }
        both
    }

    /// Weights along an unbounded ray on which the state at this index gains, if there is one.
    fn found(&mut self, place: usize) -> Option<Vec<i64>> {
        let atoms = self.states.get(place)?;
        let width = self.input.width();
        let aims = Aims::new(
            Aim::one(self.memory, width, atoms),
            Aim::none(self.memory, width),
        );
        let along = self.vertex.unbounded_ray(&self.program, &aims)?;
        let weights = self.program.weights(along);
        whole(self.memory, &weights)
    }

    /// Which of the states these weights detect as dead ends, with the greatest constant that the goal allows.
    fn reported(&self, weights: &[i64]) -> Reported {
        let constant = self.input.constant(weights);
        let mut states = 0usize;
        for atoms in self.states {
            if score(constant, weights, atoms) > 0 {
                states = states.saturating_add(1);
            }
        }
        Reported {
            is_initial: self.is_reported(0, weights),
            states,
        }
    }

    /// Whether they detect the state at this index.
    fn is_reported(&self, place: usize, weights: &[i64]) -> bool {
        match self.states.get(place) {
            Some(atoms) => score(self.input.constant(weights), weights, atoms) > 0,
            None => false,
        }
    }
}

impl Reported {
    /// Whether only these detect the initial state, or both agree on it and these detect more states.
    fn is_more_than(self, other: Reported) -> bool {
        if self.is_initial == other.is_initial {
            self.states > other.states
        } else {
            self.is_initial
        }
    }
}

/// The score of a state with these true atoms.
fn score(constant: i64, weights: &[i64], atoms: &[u32]) -> i64 {
    let mut score = constant;
    for atom in atoms {
        if let Some(weight) = weights.get(*atom as usize) {
            score = score.saturating_add(*weight);
        }
    }
    score
}

/// Integers in the same proportions, if small multiples of the least weight give them.
fn whole(memory: &DraftMemory, weights: &[f64]) -> Option<Vec<i64>> {
    let mut least = f64::INFINITY;
    for weight in weights {
        if weight.abs() > NOTHING {
            least = least.min(weight.abs());
        }
    }
    for factor in 1..=MAX_FACTOR {
        let scale = nearest_i64_to_f64(factor) / least;
        if weights.iter().all(|weight| is_whole(*weight * scale)) {
            return Some(scaled(memory, weights, scale));
        }
    }
    None
}

/// The weights times `scale`, rounded to integers.
fn scaled(memory: &DraftMemory, weights: &[f64], scale: f64) -> Vec<i64> {
    let mut whole = memory.list();
    for weight in weights {
        memory.push(&mut whole, saturating_f64_to_i64((*weight * scale).round()));
    }
    whole
}
