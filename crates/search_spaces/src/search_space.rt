//! The space that a search explores: the states of a ground task, or their orbits under exchanges of objects.
ghost use Rattle.std.specs.Prelude.{◌≡◌, [], IfOk, length, map};
ghost use Rattle.certificate.specs.CertificateParts.{exchange_in};
ghost use Rattle.grounding.specs.Ground.{atoms_in};
ghost use Rattle.search_spaces.specs.SearchSpace.{ground_in, exchanges_in, class_in};
ghost use Rattle.search_spaces.specs.GroundListing.{listed_width, listed_states, listed_class};

use crate::exchanges::written_exchanges;
use crate::ground_listing::GroundListing;
use crate::orbit_store::OrbitStore;
use crate::starts::images_of_start;
use faults::NoMemory;
use grounding::Ground;
use packed_state::PooledStore;
use search::OwnClasses;
use std::alloc::Global;
use symmetries::Representatives;
use task::ObjectId;

/// A ground task, and the classes of its states. The listed states are states of the task in both cases.
#[derive(Clone, Copy)]
pub enum SearchSpace<'l, 't> {
    /// Each state is a class of its own.
    Alone(&'l Ground<'t>),
    /// States with the same representative by these exchanges are of one class.
    Orbits(&'l Representatives<'l, 't, 'l>),
}

impl<'l, 't> SearchSpace<'l, 't> {
    /// The ground task.
    pub fn ground(&self) -> &'l Ground<'t>
        ensures { result.now ≡ ground_in self.now }
    {
        match self {
            SearchSpace::Alone(ground) => ground,
            SearchSpace::Orbits(representatives) => representatives.ground(),
        }
    }

    /// An empty listing.
    ///
    /// # Errors
    /// Memory was refused.
    pub fn listing(&self, alloc: Global) -> Result<GroundListing<'l, 't>, NoMemory>
        ensures width { IfOk result (λ listing. listed_width listing ≡ length (atoms_in (ground_in self.now))) }
        ensures states { IfOk result (λ listing. listed_states listing ≡ []) }
        ensures class { IfOk result (λ listing. listed_class listing ≡ class_in self.now) }
    {
        match self {
            SearchSpace::Alone(ground) => {
                let store = PooledStore::new(alloc, ground.width())?;
                Ok(GroundListing::Alone(OwnClasses(store)))
            }
            SearchSpace::Orbits(representatives) => {
                let store = OrbitStore::new(alloc, representatives)?;
                Ok(GroundListing::Orbits(store))
            }
        }
    }

    /// More states to draft tables from, by their true atoms, which need not be reachable: images of the initial state by exchanges,
    /// and the states of `found`. None without exchanges.
    ///
    /// # Errors
    /// Memory was refused.
    pub fn other_starts(
        &self,
        alloc: Global,
        found: &[Vec<u32>],
    ) -> Result<Vec<Vec<u32>>, NoMemory> {
        match self {
            SearchSpace::Alone(_) => Ok(Vec::new(alloc)),
            SearchSpace::Orbits(representatives) => {
                let mut starts = images_of_start(alloc, representatives)?;
                for atoms in found {
                    starts.push(Vec::from_slice(alloc, atoms)?)?;
                }
                Ok(starts)
            }
        }
    }

    /// The exchanges as a certificate has them: the pairs of objects of each.
    ///
    /// # Errors
    /// Memory was refused.
    pub fn written_exchanges(
        &self,
        alloc: Global,
    ) -> Result<Vec<Vec<(ObjectId, ObjectId)>>, NoMemory>
        ensures { IfOk result (λ written. map exchange_in written.items ≡ exchanges_in self.now) }
    {
        match self {
            SearchSpace::Alone(_) => Ok(Vec::new(alloc)),
            SearchSpace::Orbits(representatives) => {
                written_exchanges(alloc, representatives.exchanges())
            }
        }
    }
}
