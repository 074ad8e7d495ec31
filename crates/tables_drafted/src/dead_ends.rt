//! Sampled states that tables show to be dead ends.
use crate::goal_distances::NO_WAY;
use crate::partitioner::AbstractStates;
use abstractions::place_of;
use faults::DraftMemory;

/// Sampled states, and which of them are shown to be dead ends.
#[derive(Drop)]
pub(crate) struct DeadEnds<'a> {
    states: &'a [AbstractStates],
    are_shown: Vec<bool>,
}

impl<'a> DeadEnds<'a> {
    /// The states, of which none is shown.
    pub(crate) fn new(memory: &DraftMemory, states: &'a [AbstractStates]) -> DeadEnds<'a> {
        DeadEnds {
            states,
            are_shown: memory.filled(false, states.len()),
        }
    }

    /// Records what the table at this index shows by these goal distances. Returns whether that is more than before.
    pub(crate) fn show(&mut self, table: usize, distances: &[i64]) -> bool {
        let mut shows_more = false;
        for (numbers, is_shown) in self.states.iter().zip(self.are_shown.iter_mut()) {
            let number = numbers.get(table);
            if !*is_shown && is_dead(distances, number) {
                *is_shown = true;
                shows_more = true;
            }
        }
        shows_more
    }
}

/// Whether no path leads to the goal from the abstract state with this number, if there is one.
fn is_dead(distances: &[i64], number: Option<&u32>) -> bool {
    let Some(number) = number else {
        return false;
    };
    match distances.get(place_of(*number)) {
        Some(distance) => *distance == NO_WAY,
        None => false,
    }
}
