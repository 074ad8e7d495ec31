//! Listed states, and the keys of their classes.
ghost use Rattle.std.specs.Prelude.{◌≡◌, ℕ, ◌<◌, ◌≤◌, [], ◌∷◌, ◌++◌, length, slice_get, slice_set, Contains, MatchOption, Some, IfOk, OnOk};
ghost use Rattle.packed_state.specs.Packed.{bits_of};
ghost use Rattle.packed_state.specs.PooledView.{pooled_states};
ghost use Rattle.search.specs.Listing.{IsAlikeAt, IsPlacedBy};
ghost use Rattle.symmetries.specs.Representatives.{atoms_of};
ghost use Rattle.search_spaces.specs.Orbits.{key_by, states_in, is_current_of, IsLinked, IsPlacedIn};

use crate::recent::RecentStates;
use crate::rows::States;
use faults::NoMemory;
use packed_state::{Packed, PooledStore, StateStore};
use search::Place;
use std::alloc::Global;
use symmetries::Representatives;

/// States in the order in which they were listed, and the key of each class: the representative of its states. Each class has one
/// current state.
pub(crate) struct Orbits<'l, 't> {
    pub(crate) representatives: &'l Representatives<'l, 't, 'l>,
    /// Buffer for a key or a state.
    key: Packed,
    states: States,
    keys: PooledStore,
    /// For each class, the place of its current state.
    current: Vec<u32>,
    /// Listed states that are no longer current.
    superseded: PooledStore,
    /// The place of each of them.
    places: Vec<u32>,
    /// Cache of the classes of recent states, since a search reaches the same states again and again.
    recent: RecentStates,
}

impl Drop for Orbits<'_, '_> {
    fn drop(self) {
        let Self {
            representatives: _,
            key: _,
            states: _,
            keys: _,
            current: _,
            superseded: _,
            places: _,
            recent: _,
        } = self;
    }
}

impl<'l, 't> Orbits<'l, 't> {
    /// No states yet.
    pub(crate) fn new(
        alloc: Global,
        representatives: &'l Representatives<'l, 't, 'l>,
    ) -> Result<Orbits<'l, 't>, NoMemory>
        ensures linked { IfOk result IsLinked }
        ensures states { IfOk result (λ orbits. states_in orbits ≡ []) }
        ensures representatives { IfOk result (λ orbits. orbits.representatives.now ≡ representatives.now) }
    {
        let width = representatives.ground().width();
        Ok(Orbits {
            representatives,
            key: Packed::empty(alloc, width)?,
            states: States::new(alloc, width),
            keys: PooledStore::new(alloc, width)?,
            current: Vec::new(alloc),
            superseded: PooledStore::new(alloc, width)?,
            places: Vec::new(alloc),
            recent: RecentStates::new(alloc, width)?,
        })
    }

    /// The number of listed states.
    pub(crate) fn len(&self) -> usize
        ensures { result ≡ length (states_in self.now) }
    {
        self.states.len()
    }

    /// Copies the state at this place.
    pub(crate) fn get(&self, place: u32, into: &mut Packed)
        requires linked { IsLinked self.now }
        requires there { place < length (states_in self.now) }
        requires width { length (bits_of into.old) ≡ length (atoms_of self.now.representatives.now) }
        ensures { slice_get (states_in self.now) place ≡ Some (bits_of into.new) }
    {
        self.states.get(place as usize, into);
    }

    /// Where the state is to be listed. The first state of a class is listed at once; `None` if the limit forbids it.
    pub(crate) fn place(
        &mut self,
        state: &Packed,
        max_states: u32,
    ) -> Result<Option<Place>, NoMemory>
        requires linked { IsLinked self.old }
        requires width { length (bits_of state.now) ≡ length (atoms_of self.old.representatives.now) }
        requires within { length (states_in self.old) ≤ max_states }
        requires limit { max_states ≤ 16777216 }
        ensures linked { IsLinked self.new }
        ensures representatives { self.new.representatives ≡ self.old.representatives }
        ensures placed { IfOk result
            (IsPlacedBy (key_by self.old.representatives.now) (is_current_of self.new) (states_in self.old) (states_in self.new) (bits_of state.now) max_states) }
    {
        match self.class_of(state) {
            Some(class) => Ok(Some(self.place_in_class(class, state))),
            None if self.states.len() < max_states as usize => {
                let place = self.begin_class(state)?;
                Ok(Some(Place::New(place)))
            }
            None => Ok(None),
        }
    }

    /// The number of the state's class. If it is not known yet, `key` holds its key afterwards.
    fn class_of(&mut self, state: &Packed) -> Option<u32>
        requires linked { IsLinked self.old }
        requires width { length (bits_of state.now) ≡ length (atoms_of self.old.representatives.now) }
        ensures linked { IsLinked self.new }
        ensures class { MatchOption result
            ((bits_of self.new.key ≡ key_by self.old.representatives.now (bits_of state.now)) × (¬ Contains (pooled_states self.new.keys) (bits_of self.new.key)))
            (λ class. slice_get (pooled_states self.new.keys) class ≡ Some (key_by self.old.representatives.now (bits_of state.now))) }
        ensures representatives { self.new.representatives ≡ self.old.representatives }
        ensures states { self.new.states ≡ self.old.states }
        ensures keys { self.new.keys ≡ self.old.keys }
        ensures current { self.new.current ≡ self.old.current }
        ensures superseded { self.new.superseded ≡ self.old.superseded }
        ensures places { self.new.places ≡ self.old.places }
    {
        if let Some(class) = self.recent.find(state) {
            return Some(class);
        }
        self.represent(state);
        let class = self.keys.find(&self.key)?;
        self.recent.note(state, class);
        Some(class)
    }

    /// Computes the key of the state, into `key`.
    fn represent(&mut self, state: &Packed)
        requires linked { IsLinked self.old }
        requires width { length (bits_of state.now) ≡ length (atoms_of self.old.representatives.now) }
        ensures linked { IsLinked self.new }
        ensures key { bits_of self.new.key ≡ key_by self.old.representatives.now (bits_of state.now) }
        ensures representatives { self.new.representatives ≡ self.old.representatives }
        ensures states { self.new.states ≡ self.old.states }
        ensures keys { self.new.keys ≡ self.old.keys }
        ensures current { self.new.current ≡ self.old.current }
        ensures superseded { self.new.superseded ≡ self.old.superseded }
        ensures places { self.new.places ≡ self.old.places }
        ensures recent { self.new.recent ≡ self.old.recent }
    {
        self.key.copy_from(state);
        self.representatives.represent(&mut self.key);
    }

    /// The place of a state of this class. It is listed if it is the current state of the class, or was.
    fn place_in_class(&self, class: u32, state: &Packed) -> Place
        requires linked { IsLinked self.now }
        requires width { length (bits_of state.now) ≡ length (atoms_of self.now.representatives.now) }
        requires class { slice_get (pooled_states self.now.keys) class ≡ Some (key_by self.now.representatives.now (bits_of state.now)) }
        ensures { IsPlacedIn self.now (bits_of state.now) result }
    {
        let place = self.current[class as usize];
        if self.states.is_at(place as usize, state) {
            return Place::Listed(place);
        }
        match self.superseded.find(state) {
            Some(past) => Place::Listed(self.places[past as usize]),
            None => Place::Alike(place),
        }
    }

    /// Lists the first state of a class, whose key is in `key`.
    fn begin_class(&mut self, state: &Packed) -> Result<u32, NoMemory>
        requires linked { IsLinked self.old }
        requires width { length (bits_of state.now) ≡ length (atoms_of self.old.representatives.now) }
        requires key { bits_of self.old.key ≡ key_by self.old.representatives.now (bits_of state.now) }
        requires new { ¬ Contains (pooled_states self.old.keys) (bits_of self.old.key) }
        requires room { length (states_in self.old) < 16777216 }
        ensures linked { IsLinked self.new }
        ensures representatives { self.new.representatives ≡ self.old.representatives }
        ensures states { OnOk result (states_in self.new ≡ states_in self.old ++ bits_of state.now ∷ []) }
        ensures place { IfOk result (λ place. place ≡ length (states_in self.old)) }
    {
        self.states.reserve_one()?;
        self.current.reserve(1)?;
        let place = self.states.len() as u32;
        let (class, _) = self.keys.insert_copy_if_new(&self.key)?;
        self.current.push_reserved(place);
        self.states.push_reserved(state);
        self.recent.note(state, class);
        Ok(place)
    }

    /// Appends the state. It is the current one of its class from now on; the one at `place` is superseded.
    pub(crate) fn append(&mut self, state: &Packed, place: u32) -> Result<(), NoMemory>
        requires linked { IsLinked self.old }
        requires width { length (bits_of state.now) ≡ length (atoms_of self.old.representatives.now) }
        requires current { is_current_of self.old place }
        requires alike { IsAlikeAt (key_by self.old.representatives.now) (states_in self.old) (bits_of state.now) place }
        requires new { ¬ Contains (states_in self.old) (bits_of state.now) }
        requires room { length (states_in self.old) < 16777216 }
        ensures linked { IsLinked self.new }
        ensures representatives { self.new.representatives ≡ self.old.representatives }
        ensures states { OnOk result (states_in self.new ≡ states_in self.old ++ bits_of state.now ∷ []) }
    {
        let Some(class) = self.class_of(state) else {
            unreachable!()
        };
        self.states.reserve_one()?;
        self.places.reserve(1)?;
        self.states.get(place as usize, &mut self.key);
        self.superseded.insert_copy_if_new(&self.key)?;
        self.places.push_reserved(place);
        self.current[class as usize] = self.states.len() as u32;
        self.states.push_reserved(state);
        Ok(())
    }

    /// Overwrites the current state of the class, which is at `place`.
    pub(crate) fn replace(&mut self, place: u32, state: &Packed)
        requires linked { IsLinked self.old }
        requires width { length (bits_of state.now) ≡ length (atoms_of self.old.representatives.now) }
        requires current { is_current_of self.old place }
        requires alike { IsAlikeAt (key_by self.old.representatives.now) (states_in self.old) (bits_of state.now) place }
        requires new { ¬ Contains (states_in self.old) (bits_of state.now) }
        ensures linked { IsLinked self.new }
        ensures representatives { self.new.representatives ≡ self.old.representatives }
        ensures states { states_in self.new ≡ slice_set (states_in self.old) place (bits_of state.now) }
    {
        self.states.set(place as usize, state);
    }
}
