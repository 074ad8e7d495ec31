//! The listing of a search of a ground task, with exchanges of objects or without.
use crate::orbit_store::OrbitStore;
use faults::NoMemory;
use packed_state::{Packed, PooledStore};
use search::{OwnClasses, Place, StateListing};

/// The states of a ground task that a search lists, with or without exchanges.
#[derive(Drop)]
pub enum GroundListing<'l, 't> {
    /// Each state is a class of its own.
    Alone(OwnClasses<PooledStore>),
    /// The class of a state is named by its representative.
    Orbits(OrbitStore<'l, 't>),
}

impl StateListing for GroundListing<'_, '_> {
    ghost use Rattle.search_spaces.specs.GroundListing.{listed_width, listed_states, listed_class, is_current_in, are_listed_once};

    ghost width_of = { listed_width };

    ghost states = { listed_states };

    ghost class_of = { listed_class };

    ghost is_current = { is_current_in };

    ghost distinct = { are_listed_once };

    fn width(&self) -> u32 {
        match self {
            GroundListing::Alone(listing) => listing.width(),
            GroundListing::Orbits(store) => store.width(),
        }
    }

    fn len(&self) -> usize {
        match self {
            GroundListing::Alone(listing) => listing.len(),
            GroundListing::Orbits(store) => store.len(),
        }
    }

    fn get(&self, place: u32, into: &mut Packed) {
        match self {
            GroundListing::Alone(listing) => listing.get(place, into),
            GroundListing::Orbits(store) => store.get(place, into),
        }
    }

    fn place(&mut self, state: &Packed, max_states: u32) -> Result<Option<Place>, NoMemory> {
        match self {
            GroundListing::Alone(listing) => listing.place(state, max_states),
            GroundListing::Orbits(store) => store.place(state, max_states),
        }
    }

    fn is_large(&self) -> bool {
        match self {
            GroundListing::Alone(listing) => listing.is_large(),
            GroundListing::Orbits(_) => false,
        }
    }

    fn key(&self, state: &Packed) -> u32 {
        match self {
            GroundListing::Alone(listing) => listing.key(state),
            GroundListing::Orbits(_) => 0,
        }
    }

    fn touch(&self, keys: &[u32]) -> u32 {
        match self {
            GroundListing::Alone(listing) => listing.touch(keys),
            GroundListing::Orbits(_) => 0,
        }
    }

    fn append(&mut self, state: &Packed, place: u32) -> Result<(), NoMemory> {
        match self {
            GroundListing::Alone(listing) => listing.append(state, place),
            GroundListing::Orbits(store) => store.append(state, place),
        }
    }

    fn replace(&mut self, place: u32, state: &Packed) {
        match self {
            GroundListing::Alone(listing) => listing.replace(place, state),
            GroundListing::Orbits(store) => store.replace(place, state),
        }
    }
}
