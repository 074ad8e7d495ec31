//! States whose values are to be raised.
use crate::partitioner::AbstractStates;
use abstractions::{RowGraph, Variables, place_of};
use faults::DraftMemory;

/// Sampled states, the initial state first: their true atoms, and their abstract states by table index.
#[derive(Clone, Copy)]
pub(crate) struct Sampled<'a> {
    pub(crate) atoms: &'a [Vec<u32>],
    pub(crate) abstract_states: &'a [AbstractStates],
}

/// The values of all variables in each of the states, which are given by their true atoms.
pub(crate) fn values_of_all(
    memory: &DraftMemory,
    variables: &Variables,
    states: &[Vec<u32>],
) -> Vec<Vec<u32>> {
    let mut all = memory.list();
    for atoms in states {
        memory.push(&mut all, values_of(memory, variables, atoms));
    }
    all
}

/// The values of all variables in the state with these true atoms.
fn values_of(memory: &DraftMemory, variables: &Variables, atoms: &[u32]) -> Vec<u32> {
    let mut values = memory.filled(0, place_of(variables.count()));
    for atom in atoms {
        for said in variables.of_atom(*atom) {
            if let Some(value) = values.get_mut(place_of(said.variable)) {
                *value = said.value;
            }
        }
    }
    values
}

/// The abstract states of each of the states, by table index.
pub(crate) fn abstract_states_of_all(
    memory: &DraftMemory,
    abstractions: &[RowGraph],
    states: &[Vec<u32>],
) -> Vec<AbstractStates> {
    let mut all = memory.list();
    for values in states {
        let mut numbers = memory.filled(u32::MAX, abstractions.len());
        for (number, abstraction) in numbers.iter_mut().zip(abstractions) {
            *number = abstraction.state_of(values).unwrap_or(u32::MAX);
        }
        memory.push(&mut all, numbers);
    }
    all
}

/// The first of the states, if there is one.
pub(crate) fn first_of(states: &[Vec<u32>]) -> &[Vec<u32>] {
    match states.get(..1) {
        Some(first) => first,
        None => &[],
    }
}

/// The true atoms of the first of these states, then of the states that a search found, and then of the rest.
pub(crate) fn samples(
    memory: &DraftMemory,
    states: &[Vec<u32>],
    found: &[Vec<u32>],
) -> Vec<Vec<u32>> {
    let mut all = memory.list();
    for atoms in states.iter().take(1) {
        memory.push(&mut all, memory.copied(atoms));
    }
    for atoms in found {
        memory.push(&mut all, memory.copied(atoms));
    }
    for atoms in states.iter().skip(1) {
        memory.push(&mut all, memory.copied(atoms));
    }
    all
}
