//! Lists of a draft, beyond those that its memory gives.
use faults::DraftMemory;

/// An empty list with room for this many items.
pub(crate) fn with_room<T: Drop>(memory: &DraftMemory, count: usize) -> Vec<T> {
    memory
        .kept(Vec::with_capacity(memory.alloc(), count))
        .unwrap_or(memory.list())
}

/// This many empty lists.
pub(crate) fn empty_lists<T: Drop>(memory: &DraftMemory, count: u32) -> Vec<Vec<T>> {
    let mut lists: Vec<Vec<T>> = memory.list();
    for _ in 0..count {
        memory.push(&mut lists, memory.list());
    }
    lists
}

/// Appends these items.
pub(crate) fn append<T: Copy>(memory: &DraftMemory, list: &mut Vec<T>, items: &[T]) {
    memory.kept(list.extend_from_slice(items));
}
