//! A store of listed states by orbit.
ghost use Rattle.std.specs.Prelude.{◌≡◌, [], IfOk};
ghost use Rattle.std.proofs.Props.{props};
ghost use Rattle.search_spaces.specs.Orbits.{IsLinked};

use crate::orbits::Orbits;
use faults::NoMemory;
use packed_state::Packed;
use search::{Place, StateListing};
use std::alloc::Global;
use symmetries::Representatives;

/// The states of a ground task that a search lists. States with the same representative are of one class.
///
/// The current state of a class is found by its representative. The superseded ones are few, and found by themselves.
pub struct OrbitStore<'l, 't> {
    orbits: Orbits<'l, 't>,
    ghost linked: { IsLinked orbits } by { Prim.hlevel props },
}

impl Drop for OrbitStore<'_, '_> {
    fn drop(self) {
        let Self { orbits: _ } = self;
    }
}

impl<'l, 't> OrbitStore<'l, 't> {
    ghost use Rattle.std.specs.Prelude.{length};
    ghost use Rattle.symmetries.specs.Representatives.{atoms_of};
    ghost use Rattle.search_spaces.specs.Orbits.{key_by};
    ghost use Rattle.search_spaces.specs.OrbitStore.{orbit_width, orbit_states, orbit_class};

    /// An empty store.
    ///
    /// # Errors
    /// Memory was refused.
    pub fn new(
        alloc: Global,
        representatives: &'l Representatives<'l, 't, 'l>,
    ) -> Result<OrbitStore<'l, 't>, NoMemory>
        ensures width { IfOk result (λ store. orbit_width store ≡ length (atoms_of representatives.now)) }
        ensures states { IfOk result (λ store. orbit_states store ≡ []) }
        ensures class { IfOk result (λ store. orbit_class store ≡ key_by representatives.now) }
    {
        let orbits = Orbits::new(alloc, representatives)?;
        Ok(OrbitStore { orbits })
    }
}

impl StateListing for OrbitStore<'_, '_> {
    ghost use Rattle.search_spaces.specs.OrbitStore.{orbit_width, orbit_states, orbit_class, is_orbit_current};

    ghost width_of = { orbit_width };

    ghost states = { orbit_states };

    ghost class_of = { orbit_class };

    ghost is_current = { is_orbit_current };

    ghost distinct = { λ store. store.linked.listed.distinct };

    fn width(&self) -> u32 {
        self.orbits.representatives.ground().width()
    }

    fn len(&self) -> usize {
        self.orbits.len()
    }

    fn get(&self, place: u32, into: &mut Packed) {
        self.orbits.get(place, into);
    }

    fn place(&mut self, state: &Packed, max_states: u32) -> Result<Option<Place>, NoMemory> {
        self.orbits.place(state, max_states)
    }

    fn append(&mut self, state: &Packed, place: u32) -> Result<(), NoMemory> {
        self.orbits.append(state, place)
    }

    fn replace(&mut self, place: u32, state: &Packed) {
        self.orbits.replace(place, state);
    }
}
