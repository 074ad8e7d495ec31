//! The states that a search lists, and the keys by which it finds them.
ghost use Rattle.std.specs.Prelude.{◌≡◌, ℕ, ◌<◌, ◌≤◌, Bool, List, [], ◌∷◌, ◌++◌, length, slice_get, slice_set, Some, Contains, IfOk, OnOk};
ghost use Rattle.packed_state.specs.Packed.{bits_of};
ghost use Rattle.packed_state.specs.Store.{AreDistinct};
ghost use Rattle.search.specs.Listing.{IsAlikeAt, IsPlacedBy};

use crate::best::MAX_STATES;
use faults::NoMemory;
use packed_state::{Packed, StateStore};

/// Where a state belongs in a listing. Places count from 0, in the order of listing.
#[derive(Clone, Copy, Debug, PartialEq, Eq)]
pub enum Place {
    /// It is the first of its class, and has just been listed at this place, the last one.
    New(u32),
    /// It is listed, at this place.
    Listed(u32),
    /// It is not listed, and the current state of its class is at this place.
    Alike(u32),
}

/// A listing of distinct states, which knows the current state of each class.
///
/// States are of one class if they have the same key. The listing decides what a key is: for a system with symmetries, it stands for
/// states that symmetries map to each other (orbit space search: Domshlak, Katz & Shleyfman, Symmetry Breaking in Deterministic
/// Planning as Forward Search, 2015). What is listed is the state itself, never the key.
pub trait StateListing: Drop {
    ghost width_of: { Self → ℕ };

    ghost states: { Self → List (List Bool) };

    // the key of a state
    ghost class_of: { Self → List Bool → List Bool };

    // the state at this place is the current one of its class
    ghost is_current: { Self → ℕ → Type 0 };

    /// The width of each state.
    fn width(&self) -> u32
        ensures { result ≡ width_of self.now };

    /// The number of listed states.
    fn len(&self) -> usize
        ensures { result ≡ length (states self.now) };

    /// Copies the state at this place.
    fn get(&self, place: u32, into: &mut Packed)
        requires there { place < length (states self.now) }
        requires width { length (bits_of into.old) ≡ width_of self.now }
        ensures state { slice_get (states self.now) place ≡ Some (bits_of into.new) }
        ensures width { length (bits_of into.new) ≡ width_of self.now };

    /// Where the state belongs. The first state of a class is listed at once; `None` if the limit does not allow it.
    ///
    /// # Errors
    /// Memory is refused.
    fn place(&mut self, state: &Packed, max_states: u32) -> Result<Option<Place>, NoMemory>
        requires width { length (bits_of state.now) ≡ width_of self.old }
        requires within { length (states self.old) ≤ max_states }
        requires limit { max_states ≤ MAX_STATES }
        ensures width { width_of self.new ≡ width_of self.old }
        ensures class { class_of self.new ≡ class_of self.old }
        ensures placed { IfOk result
            (IsPlacedBy (class_of self.old) (is_current self.new) (states self.old) (states self.new) (bits_of state.now) max_states) };

    /// Lists the state at the end, beside the current one of its class, which is at this place. It is the current one from now on.
    ///
    /// # Errors
    /// Memory is refused.
    fn append(&mut self, state: &Packed, place: u32) -> Result<(), NoMemory>
        requires width { length (bits_of state.now) ≡ width_of self.old }
        requires current { is_current self.old place }
        requires alike { IsAlikeAt (class_of self.old) (states self.old) (bits_of state.now) place }
        requires new { ¬ Contains (states self.old) (bits_of state.now) }
        requires room { length (states self.old) < MAX_STATES }
        ensures width { width_of self.new ≡ width_of self.old }
        ensures class { class_of self.new ≡ class_of self.old }
        ensures ok { OnOk result (states self.new ≡ states self.old ++ bits_of state.now ∷ []) };

    /// Replaces the current state of its class, which is at this place, by the state.
    fn replace(&mut self, place: u32, state: &Packed)
        requires width { length (bits_of state.now) ≡ width_of self.old }
        requires current { is_current self.old place }
        requires alike { IsAlikeAt (class_of self.old) (states self.old) (bits_of state.now) place }
        requires new { ¬ Contains (states self.old) (bits_of state.now) }
        ensures width { width_of self.new ≡ width_of self.old }
        ensures class { class_of self.new ≡ class_of self.old }
        ensures states { states self.new ≡ slice_set (states self.old) place (bits_of state.now) };

    /// Whether look-ups mostly wait for memory, so that it pays to [`touch`](StateListing::touch) the keys of several first.
    fn is_large(&self) -> bool {
        false
    }

    /// The key by which a state is looked up.
    fn key(&self, _state: &Packed) -> u32 {
        0
    }

    /// Reads where the look-ups of these keys begin (`StateStore::touch`). The answer means nothing.
    fn touch(&self, _keys: &[u32]) -> u32 {
        0
    }

    ghost distinct: { (listing : Self) → AreDistinct (states listing) };
}

/// The states of a store, each a class of its own.
#[derive(Drop)]
pub struct OwnClasses<S>(pub S);

impl<S: StateStore> StateListing for OwnClasses<S> {
    ghost use Rattle.std.specs.Prelude.{⊤};

    ghost width_of = { λ listing. S.width_of listing.0 };

    ghost states = { λ listing. S.states listing.0 };

    ghost class_of = { λ _ s. s };

    ghost is_current = { λ _ _. ⊤ };

    ghost distinct = { λ listing. S.distinct listing.0 };

    fn width(&self) -> u32 {
        self.0.width()
    }

    fn len(&self) -> usize {
        self.0.len()
    }

    fn get(&self, place: u32, into: &mut Packed) {
        self.0.get(place, into);
    }

    fn place(&mut self, state: &Packed, max_states: u32) -> Result<Option<Place>, NoMemory> {
        if self.0.len() < max_states as usize {
            return match self.0.insert_copy_if_new(state)? {
                (place, true) => Ok(Some(Place::New(place))),
                (place, false) => Ok(Some(Place::Listed(place))),
            };
        }
        match self.0.find(state) {
            Some(place) => Ok(Some(Place::Listed(place))),
            None => Ok(None),
        }
    }

    fn is_large(&self) -> bool {
        self.0.is_large()
    }

    fn key(&self, state: &Packed) -> u32 {
        self.0.key(state)
    }

    fn touch(&self, keys: &[u32]) -> u32 {
        self.0.touch(keys)
    }

    fn append(&mut self, _state: &Packed, _place: u32) -> Result<(), NoMemory> {
        unreachable!()
    }

    fn replace(&mut self, _place: u32, _state: &Packed) {
        unreachable!()
    }
}
