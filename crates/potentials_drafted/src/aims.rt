//! The objective: the states whose values are to be raised.
use crate::program_input::ProgramInput;
use faults::DraftMemory;
use std::num::nearest_i64_to_f64;

/// A change of an atom's weight by one.
#[derive(Clone, Copy)]
pub(crate) struct WeightStep {
    pub(crate) atom: u32,
    pub(crate) by: i64,
}

/// States whose values are to be raised: their number, and for each atom the number of these states in which it is true.
#[derive(Drop)]
pub(crate) struct Aim {
    states: i64,
    times: Vec<i64>,
}

/// The initial state, whose value has priority, and sampled states.
pub(crate) struct Aims {
    initial: Aim,
    sampled: Aim,
}

impl Drop for Aims {
    fn drop(self) {
        let Self {
            initial: _,
            sampled: _,
        } = self;
    }
}

/// The gain of the initial state, and the sum of the gains of the sampled states.
#[derive(Clone, Copy)]
pub(crate) struct Gain {
    initial: i64,
    sampled: i64,
}

impl Aim {
    /// No states.
    pub(crate) fn none(memory: &DraftMemory, width: u32) -> Aim {
        Aim {
            states: 0,
            times: memory.filled(0, width as usize),
        }
    }

    /// The single state with these true atoms.
    pub(crate) fn one(memory: &DraftMemory, width: u32, atoms: &[u32]) -> Aim {
        let mut aim = Aim::none(memory, width);
        aim.add(atoms);
        aim
    }

    /// These states, each given by its true atoms.
    pub(crate) fn all(memory: &DraftMemory, width: u32, states: &[Vec<u32>]) -> Aim {
        let mut aim = Aim::none(memory, width);
        for atoms in states {
            aim.add(atoms);
        }
        aim
    }

    /// Adds a state with these true atoms.
    fn add(&mut self, atoms: &[u32]) {
        self.states = self.states.saturating_add(1);
        for atom in atoms {
            self.count(*atom);
        }
    }

    /// Counts one more state in which the atom is true.
    fn count(&mut self, atom: u32) {
        let place = atom as usize;
        if place < self.times.len() {
            self.times[place] = self.times[place].saturating_add(1);
        }
    }

    /// The sum of the states' gains when the atom's weight grows by `more` and the constant falls by `less`.
    fn gain(&self, atom: u32, more: i64, less: i64) -> i64 {
        let times = match self.times.get(atom as usize) {
            Some(times) => *times,
            None => 0,
        };
        times
            .saturating_mul(more)
            .saturating_sub(self.states.saturating_mul(less))
    }
}

impl Aims {
    /// These states.
    pub(crate) fn new(initial: Aim, sampled: Aim) -> Aims {
        Aims { initial, sampled }
    }

    /// The gain of the initial state by the move, if the atom's weight is `before`.
    pub(crate) fn gain(&self, input: &ProgramInput, step: WeightStep, before: i64) -> i64 {
        let after = before.saturating_add(step.by);
        let less = input.at_goal(step.atom).less(before, after);
        self.initial.gain(step.atom, step.by, less)
    }

    /// The gain of the initial state by the move from weight 0, plus `share` times the average gain of the sampled states.
    pub(crate) fn shared_gain(&self, input: &ProgramInput, step: WeightStep, share: f64) -> f64 {
        let less = input.at_goal(step.atom).less(0, step.by);
        let initial = self.initial.gain(step.atom, step.by, less);
        let sampled = self.sampled.gain(step.atom, step.by, less);
        let states = self.sampled.states.max(1);
        nearest_i64_to_f64(initial)
            + share * nearest_i64_to_f64(sampled) / nearest_i64_to_f64(states)
    }

    /// The gains by these weights.
    pub(crate) fn gain_of_all(&self, input: &ProgramInput, weights: &[i64]) -> Gain {
        let (mut initial, mut sampled) = (0i64, 0i64);
        let mut atom = 0u32;
        for weight in weights {
            let less = input.at_goal(atom).less(0, *weight);
            initial = initial.saturating_add(self.initial.gain(atom, *weight, less));
            sampled = sampled.saturating_add(self.sampled.gain(atom, *weight, less));
            atom = atom.saturating_add(1);
        }
        Gain { initial, sampled }
    }
}

impl Gain {
    /// Whether the initial state gains more than by the other, or equally much and the sampled states gain more.
    pub(crate) fn is_better_than(self, other: Gain) -> bool {
        self.initial > other.initial
            || self.initial == other.initial && self.sampled > other.sampled
    }
}
