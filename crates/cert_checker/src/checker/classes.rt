//! The listed states of a certificate, by classes.
ghost use Rattle.std.specs.Prelude.{◌≡◌, ◌+◌, ◌<◌, length, map, slice_get, true, Contains, IfOk, OnOk, MatchOption, Some};
ghost use Rattle.std.specs.List.{list_all};
ghost use Rattle.grounding.specs.Ground.{task_in, atoms_in};
ghost use Rattle.packed_state.specs.Packed.{bits_of};
ghost use Rattle.packed_state.specs.PooledView.{pooled_width};
ghost use Rattle.symmetries_definitions.specs.Orbits.{keeps_atoms};
ghost use Rattle.symmetries.specs.Exchange.{exchange_of};
ghost use Rattle.symmetries.specs.Representatives.{atoms_of};
ghost use Rattle.certificate.specs.Certificate.{certificate_of, store_in};
ghost use Rattle.cert_checker.specs.Classified.{key_by, keys_in, AreOfOneWidth, AreCheapestUpTo, IsKeptFor, AreClassified};
ghost use Rattle.cert_checker.specs.CheapestPlaces.{costs_of};

use crate::checker::symmetry::representatives_by;
use certificate::Cert;
use faults::NoMemory;
use grounding::Ground;
use packed_state::{Packed, PooledStore, StateStore};
use std::alloc::Global;
use symmetries::{Exchange, Representatives};

/// The cheapest listed state of each class. States with the same representative form a class.
#[derive(Drop)]
pub(super) struct Classes<'a, 't> {
    cert: &'a Cert,
    representatives: Representatives<'a, 't, 'a>,
    /// The representatives of listed states.
    keys: PooledStore,
    /// For each of them, the place of the cheapest line whose state has it.
    cheapest: Vec<u32>,
}

impl<'a, 't> Classes<'a, 't> {
    /// The classes of the certificate's states.
    fn new(
        alloc: Global,
        cert: &'a Cert,
        representatives: Representatives<'a, 't, 'a>,
    ) -> Result<Classes<'a, 't>, NoMemory>
        requires { length (atoms_of representatives) ≡ pooled_width (store_in cert.now) }
        ensures width { IfOk result AreOfOneWidth }
        ensures cert { IfOk result (λ classes. classes.cert.now ≡ cert.now) }
        ensures representatives { IfOk result (λ classes. classes.representatives ≡ representatives.entry) }
        ensures cheapest { IfOk result (λ classes. AreCheapestUpTo classes (length (certificate_of cert.now).lines)) }
    {
        let width = cert.sets().width();
        let keys = PooledStore::new(alloc, width)?;
        let mut classes = Classes {
            cert,
            representatives,
            keys,
            cheapest: Vec::new(alloc),
        };
        let mut state = Packed::empty(alloc, width)?;
        for place in 0..cert.marks().len() {
            classes.take(place, &mut state)?;
        }
        Ok(classes)
    }

    /// Adds the state at this place to its class. `state` is scratch.
    fn take(&mut self, place: usize, state: &mut Packed) -> Result<(), NoMemory>
        requires place { place < length (certificate_of self.old.cert.now).lines }
        requires state { length (bits_of state.old) ≡ pooled_width (store_in self.old.cert.now) }
        requires width { AreOfOneWidth self.old }
        requires before { AreCheapestUpTo self.old place }
        ensures cert { self.new.cert.now ≡ self.old.cert.now }
        ensures representatives { self.new.representatives ≡ self.old.representatives }
        ensures state { length (bits_of state.new) ≡ pooled_width (store_in self.old.cert.now) }
        ensures width { OnOk result (AreOfOneWidth self.new) }
        ensures after { OnOk result (AreCheapestUpTo self.new (place + 1)) }
    {
        self.cert.sets().get(place as u32, state);
        self.representatives.represent(state);
        let (key, is_new) = self.keys.insert_copy_if_new(state)?;
        if is_new {
            self.cheapest.push(place as u32)?;
            return Ok(());
        }
        let known = self.cheapest[key as usize];
        if cost_at(self.cert, place) < cost_at(self.cert, known as usize) {
            self.cheapest[key as usize] = place as u32;
        }
        Ok(())
    }

    /// The place of the cheapest line whose state is of this one's class, if there is one. The state becomes its representative.
    pub(super) fn cheapest(&self, state: &mut Packed) -> Option<u32>
        requires state { length (bits_of state.old) ≡ length (atoms_of self.now.representatives) }
        requires width { pooled_width self.now.keys ≡ length (atoms_of self.now.representatives) }
        requires as_many { length self.now.cheapest.items ≡ length (keys_in self.now) }
        ensures state { length (bits_of state.new) ≡ length (bits_of state.old) }
        ensures place { MatchOption result (¬ Contains (keys_in self.now) (key_by self.now (bits_of state.old))) (IsKeptFor self.now (key_by self.now (bits_of state.old))) }
    {
        self.representatives.represent(state);
        match self.keys.find(state) {
            Some(key) => Some(self.cheapest[key as usize]),
            None => None,
        }
    }
}

/// The cost of the certificate's line at this place.
pub(super) fn cost_at(cert: &Cert, place: usize) -> u64
    requires { place < length (certificate_of cert.now).lines }
    ensures { slice_get (costs_of (certificate_of cert.now)) place ≡ Some result }
{
    cert.marks()[place].cost
}

/// The classes of the certificate's states by its exchanges. `None` if it has none: each state is then a class of its own.
pub(super) fn classes_by<'a, 't>(
    alloc: Global,
    grounded: &'a Ground<'t>,
    cert: &'a Cert,
    exchanges: &'a [Exchange],
) -> Result<Option<Classes<'a, 't>>, NoMemory>
    requires width { pooled_width (store_in cert.now) ≡ length (atoms_in grounded.now) }
    requires exchanges { map exchange_of exchanges.now ≡ (certificate_of cert.now).exchanges }
    requires kept { list_all (keeps_atoms (atoms_in grounded.now)) (map exchange_of exchanges.now) ≡ true }
    ensures { IfOk result (AreClassified (task_in grounded.now) (atoms_in grounded.now) (certificate_of cert.now) (store_in cert.now)) }
{
    if exchanges.is_empty() {
        return Ok(None);
    }
    let representatives = representatives_by(alloc, grounded, exchanges)?;
    let classes = Classes::new(alloc, cert, representatives)?;
    Ok(Some(classes))
}
