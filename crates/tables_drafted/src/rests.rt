//! Potentials for the costs that tables leave, and costs that potentials leave for tables.
use crate::costs::Costs;
use faults::DraftMemory;
use potentials::Potentials;
use potentials_drafted::{ProgramInput, drafted_weights};

/// The cost of a shut-out instance for potentials.
const COST_OF_SHUT_OUT: i64 = 1_048_576;

/// The remaining costs, as potentials use them.
fn rest_of(memory: &DraftMemory, costs: &Costs) -> Vec<i64> {
    let mut rest = memory.filled(COST_OF_SHUT_OUT, costs.left().len());
    for (rest, left) in rest.iter_mut().zip(costs.left()) {
        if let Some(left) = left {
            *rest = (*left).max(0).min(COST_OF_SHUT_OUT);
        }
    }
    rest
}

/// The costs that the weights leave of these.
pub(crate) fn left_by(
    memory: &DraftMemory,
    input: &ProgramInput,
    costs: &Costs,
    weights: &[i64],
) -> Costs {
    let mut left = memory.copied(costs.left());
    let mut number = 0u32;
    for cost in left.iter_mut() {
        if let Some(cost) = cost {
            *cost = (*cost).saturating_sub(input.loss(number, weights));
        }
        number = number.saturating_add(1);
    }
    Costs::new(left)
}

/// Potentials that are fair for the remaining costs, if some are found and memory was not refused.
pub(crate) fn potentials_of_rest(
    memory: &DraftMemory,
    input: &mut ProgramInput,
    left: &Costs,
) -> Option<Potentials> {
    if memory.is_refused() {
        return None;
    }
    input.set_costs(rest_of(memory, left));
    let zero = memory.filled(0, input.width() as usize);
    let weights = drafted_weights(memory, input, &zero);
    Potentials::new(input.constant(&weights), weights)
}

/// The score of a state with these true atoms.
pub(crate) fn score(potentials: &Potentials, atoms: &[u32]) -> i64 {
    let mut score = potentials.constant();
    for atom in atoms {
        if let Some(weight) = potentials.weights().get(*atom as usize) {
            score = score.saturating_add(*weight);
        }
    }
    score
}
