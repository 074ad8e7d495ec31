//! The linear program whose solutions are fair potentials (Pommerening, Helmert, Röger & Seipp 2015, "From Non-Negative to
//! General Operator Cost Partitioning").
//!
//! A weight is the difference of two non-negative variables: its positive and its negative part. The loss of an instance is then
//! at most a sum of variables, each at most once, and so is the contribution in goal states.
use crate::aims::{Aims, WeightStep};
use crate::program_input::ProgramInput;
use faults::DraftMemory;
use std::num::nearest_i64_to_f64;

/// The variables for an atom's weight, if there are any.
#[derive(Clone, Copy)]
struct WeightVariables {
    below: Option<usize>,
    above: Option<usize>,
}

/// The variables of the program, with an index by atom.
#[derive(Drop)]
pub(crate) struct LinearProgram<'a> {
    memory: &'a DraftMemory,
    input: &'a ProgramInput,
    /// The move of a weight that each variable stands for.
    variables: Vec<WeightStep>,
    pairs: Vec<WeightVariables>,
}

impl<'a> LinearProgram<'a> {
    /// The program for this input. A variable is left out if no state gains by it and no instance loses less.
    pub(crate) fn new(
        memory: &'a DraftMemory,
        input: &'a ProgramInput,
        aims: &Aims,
    ) -> LinearProgram<'a> {
        let mut program = LinearProgram {
            memory,
            input,
            variables: memory.list(),
            pairs: memory.list(),
        };
        for atom in 0..input.width() {
            let pair = WeightVariables {
                below: program.add(aims, WeightStep { atom, by: -1 }),
                above: program.add(aims, WeightStep { atom, by: 1 }),
            };
            memory.push(&mut program.pairs, pair);
        }
        program
    }

    /// Adds the variable for this move if it is useful. Returns its index.
    fn add(&mut self, aims: &Aims, step: WeightStep) -> Option<usize> {
        let input = self.input;
        let is_of_use = aims.shared_gain(input, step, 1.0) > 0.0
            || input
                .instances_of(step.atom)
                .iter()
                .any(|touch| touch.loss(step.by) < 0);
        if !is_of_use {
            return None;
        }
        let place = self.variables.len();
        self.memory.push(&mut self.variables, step);
        Some(place)
    }

    /// The memory of the draft.
    pub(crate) fn memory(&self) -> &'a DraftMemory {
        self.memory
    }

    /// The data that the program is made of.
    pub(crate) fn input(&self) -> &'a ProgramInput {
        self.input
    }

    /// The move of a weight that each variable stands for.
    pub(crate) fn variables(&self) -> &[WeightStep] {
        &self.variables
    }

    /// The index of the variable for moves of the atom's weight by -1 or 1, if there is one.
    pub(crate) fn variable(&self, atom: u32, by: i64) -> Option<usize> {
        match self.pairs.get(atom as usize) {
            Some(pair) => if by < 0 { pair.below } else { pair.above },
            None => None,
        }
    }

    /// The weights given by the values of the variables.
    pub(crate) fn weights(&self, along: &[f64]) -> Vec<f64> {
        let mut weights = self.memory.filled(0.0, self.pairs.len());
        for (step, far) in self.variables.iter().zip(along) {
            let place = step.atom as usize;
            if place < weights.len() {
                weights[place] += nearest_i64_to_f64(step.by) * *far;
            }
        }
        weights
    }
}
