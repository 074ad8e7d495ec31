//! What a search is given.

use std::alloc::Global;

/// A transition system, with the guide of its search and the limit of listed states.
#[derive(Drop)]
pub struct Problem<'a, T, G> {
    /// Where the search takes its memory.
    pub alloc: Global,
    /// The system.
    pub system: &'a T,
    /// The guide, which is made for it.
    pub guide: &'a G,
    /// How many states may be listed.
    pub max_states: u32,
}
