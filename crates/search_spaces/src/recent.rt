//! A cache of the classes of recently reached states.
ghost use Rattle.std.specs.Prelude.{◌≡◌, ◌<◌, ◌≤◌, ◌⊎◌, ℕ, Bool, List, length, IfOk, IfSome};
ghost use Rattle.packed_state.specs.Packed.{bits_of};
ghost use Rattle.search_spaces.specs.States.{states_of};

use crate::rows::States;
use faults::NoMemory;
use packed_state::Packed;
use std::alloc::Global;

/// Places of the cache, at most.
const MAX_PLACES: u32 = 4096;

/// Bits of all cached states, at most: 4 MiB. A single state may have more.
const MAX_BITS: u32 = 1 << 25;

/// A direct-mapped cache: a state's hash names its place, where it stays until another state takes it.
pub(crate) struct RecentStates {
    states: States,
    /// The class of the state at each place, if one was noted.
    classes: Vec<Option<u32>>,
    ghost some: { 0 < length classes.items },
    ghost each: { length (states_of states) ≡ length classes.items },
}

impl Drop for RecentStates {
    fn drop(self) {
        let Self {
            states: _,
            classes: _,
        } = self;
    }
}

impl RecentStates {
    ghost use Rattle.search_spaces.specs.RecentStates.{recent_width, IsNoted};

    /// An empty cache for states of this width.
    pub(crate) fn new(alloc: Global, width: u32) -> Result<RecentStates, NoMemory>
        ensures width { IfOk result (λ recent. recent_width recent ≡ width) }
        ensures none { IfOk result (λ recent. (s : List Bool) (class : ℕ) → ¬ IsNoted recent s class) }
    {
        let places = places_for(width);
        let states = States::blank(alloc, width, places)?;
        let classes = vec![in alloc; None; places as usize]?;
        Ok(RecentStates { states, classes })
    }

    /// The class that was noted for this state, unless another state took its place since.
    pub(crate) fn find(&self, state: &Packed) -> Option<u32>
        requires { length (bits_of state.now) ≡ recent_width self.now }
        ensures { IfSome result (λ class. IsNoted self.now (bits_of state.now) class) }
    {
        let place = self.place_of(state);
        if self.states.is_at(place, state) {
            self.classes[place]
        } else {
            None
        }
    }

    /// Notes the state's class, in place of what was noted there.
    pub(crate) fn note(&mut self, state: &Packed, class: u32)
        requires { length (bits_of state.now) ≡ recent_width self.old }
        ensures width { recent_width self.new ≡ recent_width self.old }
        ensures noted { IsNoted self.new (bits_of state.now) class }
        ensures before { (s : List Bool) (other : ℕ) → IsNoted self.new s other → IsNoted self.old s other ⊎ ((s ≡ bits_of state.now) × (other ≡ class)) }
    {
        let place = self.place_of(state);
        self.states.set(place, state);
        self.classes[place] = Some(class);
    }

    /// The state's place: the highest bits of a hash of its words.
    fn place_of(&self, state: &Packed) -> usize
        ensures { result < length self.now.classes.items }
    {
        let mut hash: u64 = 0;
        for &word in state.words() {
            hash = (hash ^ word).wrapping_mul(0x9E37_79B9_7F4A_7C15);
            hash ^= hash >> 32;
        }
        (hash >> 52) as usize % self.classes.len()
    }
}

/// The number of places for states of this width.
fn places_for(width: u32) -> u32
    ensures some { 1 ≤ result }
    ensures few { result ≤ 4096 }
{
    (MAX_BITS / width.max(1)).clamp(1, MAX_PLACES)
}
