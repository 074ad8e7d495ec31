//! What a search found, as the tests expect it.
use faults::NoMemory;
use packed_state::{Packed, StateStore};
use search::Node;
use std::alloc::Global;

/// The least door of a room, by which the rooms of a test differ, and the cost at which the room was reached.
pub(crate) type FoundRoom = (u32, u64);

/// The rooms, in the order in which they were found.
pub(crate) fn found_rooms<S: StateStore>(
    alloc: Global,
    store: &S,
    nodes: &[Node],
) -> Result<Vec<FoundRoom>, NoMemory> {
    let mut found = Vec::new(alloc);
    let mut room = Packed::empty(alloc, store.width())?;
    for (node, place) in nodes.iter().zip(0..u32::MAX) {
        if room.width() == store.width() && (place as usize) < store.len() {
            store.get(place, &mut room);
        }
        found.push((room.next(0), node.cost))?;
    }
    Ok(found)
}
