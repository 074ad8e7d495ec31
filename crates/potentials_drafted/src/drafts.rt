//! Weights that may raise the value of the initial state and of sampled states.
use crate::aims::{Aim, Aims};
use crate::linear_program::LinearProgram;
use crate::program_input::ProgramInput;
use crate::repair::Repair;
use crate::simplex::Vertex;
use faults::DraftMemory;
use potentials::Allowance;

/// The weight of the sampled states together in the objective, relative to the initial state's weight of 1: first none, then
/// little.
const SHARES: [f64; 2] = [0.0, 0.01];

/// Work limit of the simplex algorithm.
const MAX_WORK: u64 = 4_194_304;

/// Weights that may be better than these: rounded solutions of a linear program, optimized first for the initial state alone and
/// then also for the sampled states. Nothing is claimed about them, not even that there is one for each atom. The memory knows
/// whether it was refused.
///
/// Both objectives are from Seipp, Pommerening & Helmert 2015, "New Optimization Functions for Potential Heuristics".
pub fn drafted_weights(memory: &DraftMemory, input: &ProgramInput, weights: &[i64]) -> Vec<i64> {
    let aims = aims(memory, input);
    let program = LinearProgram::new(memory, input, &aims);
    let mut vertex = Vertex::new(&program, Allowance::Cost, MAX_WORK);
    let mut repair = Repair::new(memory, input, &aims, weights);
    for share in SHARES {
        if vertex.climb(&program, &aims, share) {
            let grown = vertex.grown(&program);
            repair.take(input, &aims, &program.weights(&grown));
        }
    }
    repair.into_best()
}

/// The initial state, and the sampled ones.
fn aims(memory: &DraftMemory, input: &ProgramInput) -> Aims {
    let width = input.width();
    let states = input.states();
    let first = states.len().min(1);
    Aims::new(
        Aim::all(memory, width, &states[..first]),
        Aim::all(memory, width, &states[first..]),
    )
}
