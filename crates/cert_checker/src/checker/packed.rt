//! A certificate's listing, over packed states of the ground task.
ghost use Rattle.std.proofs.Props.{props};
ghost use Rattle.grounding.specs.Ground.{task_in, atoms_in};
ghost use Rattle.certificate.specs.Certificate.{certificate_of, store_in};
ghost use Rattle.cert_checker.specs.PackedLines.{IsPackedListing};
ghost use Rattle.cert_checker.specs.GroundEvidence.{IsEvidenceOf};
ghost use Rattle.cert_checker.specs.CheckedLines.{AreSymmetries};
ghost use Rattle.cert_checker.specs.Classified.{AreClassified};
ghost use Rattle.std.specs.Prelude.{length};

use crate::checker::classes::{Classes, cost_at};
use crate::checker::evidence::GroundEvidence;
use certificate::{Basis, Cert};
use faults::NoMemory;
use grounding::Ground;
use packed_state::{Packed, StateStore};
use std::alloc::Global;
use tables::KnownState;

/// A certificate over a ground task that numbers the certificate's atoms first: its packed states, what its lines rest on, and its
/// classes of states. Versions 1 and 2 have no classes.
pub(super) struct PackedListing<'a, 't> {
    pub(super) grounded: &'a Ground<'t>,
    pub(super) cert: &'a Cert,
    evidence: GroundEvidence<'a>,
    classes: Option<Classes<'a, 't>>,
    ghost listed: { IsPackedListing (task_in grounded.now) (atoms_in grounded.now) (certificate_of cert.now) (store_in cert.now) } by { Prim.hlevel props },
    ghost valued: { IsEvidenceOf (certificate_of cert.now) (length (atoms_in grounded.now)) evidence } by { Prim.hlevel props },
    ghost symmetric: { AreSymmetries (task_in grounded.now) (certificate_of cert.now) } by { Prim.hlevel props },
    ghost classified: { AreClassified (task_in grounded.now) (atoms_in grounded.now) (certificate_of cert.now) (store_in cert.now) classes } by { Prim.hlevel props },
}

impl Drop for PackedListing<'_, '_> {
    fn drop(self) {
        let Self {
            grounded: _,
            cert: _,
            evidence: _,
            classes: _,
        } = self;
    }
}

impl<'a, 't> PackedListing<'a, 't> {
    ghost use Rattle.std.specs.Prelude.{◌≡◌, ℕ, ◌<◌, ◌≤◌, ◌↔◌, IsTrue, IfOk, MatchOption};
    ghost use Rattle.certificate_definitions.specs.Evidence.{LineMark};
    ghost use Rattle.certificate_reader.specs.Lines.{basis_of};
    ghost use Rattle.packed_state.specs.PooledView.{pooled_width};
    ghost use Rattle.cert_checker.specs.FluentAtoms.{AreFluent};
    ghost use Rattle.cert_checker.specs.CheckedLines.{HasCost, IsCheapestAt, IsLeastCost, IsListedBy};
    ghost use Rattle.cert_checker.specs.PackedListing.{task_at, certificate_at, has_basis_at, state_at, IsPacked, IsKnownIn};
    ghost use Rattle.model.specs.NumberedAtoms.{numbered_atoms};
    ghost use Rattle.certificate_definitions.specs.Certificates.{is_dead_end_by, lines_of, value_by, AreAlikeFor};
    ghost use Rattle.certificate_definitions.specs.CertificateRefusals.{IsListed};

    /// The listing of the certificate.
    pub(super) fn new(
        grounded: &'a Ground<'t>,
        cert: &'a Cert,
        evidence: GroundEvidence<'a>,
        classes: Option<Classes<'a, 't>>,
    ) -> PackedListing<'a, 't>
        requires fluent { AreFluent (task_in grounded.now) (certificate_of cert.now).atoms }
        requires numbered { atoms_in grounded.now ≡ numbered_atoms (task_in grounded.now) (certificate_of cert.now).atoms }
        requires width { pooled_width (store_in cert.now) ≡ length (atoms_in grounded.now) }
        requires evidence { IsEvidenceOf (certificate_of cert.now) (length (atoms_in grounded.now)) evidence }
        requires symmetric { AreSymmetries (task_in grounded.now) (certificate_of cert.now) }
        requires classified { AreClassified (task_in grounded.now) (atoms_in grounded.now) (certificate_of cert.now) (store_in cert.now) classes }
        ensures same { (task_at result ≡ task_in grounded.now) × (certificate_at result ≡ certificate_of cert.now) }
    {
        PackedListing {
            grounded,
            cert,
            evidence,
            classes,
        }
    }

    /// Copies the state of the line at this place.
    pub(super) fn get(&self, place: usize, into: &mut Packed)
        requires within { place < length (certificate_at self.now).lines }
        requires packed { IsPacked self.now into.old }
        ensures packed { IsPacked self.now into.new }
        ensures state { (cost : ℕ) (mark : LineMark) → HasCost (certificate_at self.now) place cost mark
            → IsListedBy (task_at self.now) (certificate_at self.now) place (state_at self.now into.new) cost mark }
    {
        self.cert.sets().get(place as u32, into);
    }

    /// The least cost of a listed state of the same class, if there is one. The state becomes its representative.
    pub(super) fn least_cost(&self, state: &mut Packed) -> Option<u64>
        requires { IsPacked self.now state.old }
        ensures packed { IsPacked self.now state.new }
        ensures least { MatchOption result
            (¬ IsListed (AreAlikeFor (task_at self.now) (certificate_at self.now)) (lines_of (task_at self.now) (certificate_at self.now)) (state_at self.now state.old))
            (IsLeastCost (AreAlikeFor (task_at self.now) (certificate_at self.now)) (lines_of (task_at self.now) (certificate_at self.now)) (state_at self.now state.old)) }
    {
        match self.cheapest(state) {
            Some(place) => Some(cost_at(self.cert, place as usize)),
            None => None,
        }
    }

    /// The place of the cheapest line whose state is of the same class, if there is one. The state becomes its representative.
    fn cheapest(&self, state: &mut Packed) -> Option<u32>
        requires { IsPacked self.now state.old }
        ensures packed { IsPacked self.now state.new }
        ensures place { MatchOption result
            (¬ IsListed (AreAlikeFor (task_at self.now) (certificate_at self.now)) (lines_of (task_at self.now) (certificate_at self.now)) (state_at self.now state.old))
            (IsCheapestAt (AreAlikeFor (task_at self.now) (certificate_at self.now)) (lines_of (task_at self.now) (certificate_at self.now)) (state_at self.now state.old)) }
    {
        match &self.classes {
            Some(classes) => classes.cheapest(state),
            None => self.cert.sets().find(state),
        }
    }

    /// An evaluation to start from, which the calls below move from state to state.
    pub(super) fn known_state(&self, alloc: Global) -> Result<KnownState, NoMemory>
        ensures { IfOk result (IsKnownIn self.now) }
    {
        self.evidence.known_state(alloc)
    }

    /// Whether the state's value by this basis, a lower bound on the remaining cost, is at least this.
    pub(super) fn is_worth(
        &self,
        by: Basis,
        least: u64,
        state: &Packed,
        known: &mut KnownState,
    ) -> bool
        requires state { IsPacked self.now state.now }
        requires basis { IsTrue (has_basis_at self.now (basis_of by)) }
        requires known { IsKnownIn self.now known.old }
        ensures worth { IsTrue result ↔ (least ≤ value_by (task_at self.now) (certificate_at self.now) (basis_of by) (state_at self.now state.now)) }
        ensures known { IsKnownIn self.now known.new }
    {
        self.evidence.is_worth(by, least, state, known)
    }

    /// Whether this basis shows that the state is a dead end.
    pub(super) fn shows_dead_end(&self, by: Basis, state: &Packed, known: &mut KnownState) -> bool
        requires state { IsPacked self.now state.now }
        requires basis { IsTrue (has_basis_at self.now (basis_of by)) }
        requires known { IsKnownIn self.now known.old }
        ensures dead { result ≡ is_dead_end_by (task_at self.now) (certificate_at self.now) (basis_of by) (state_at self.now state.now) }
        ensures known { IsKnownIn self.now known.new }
    {
        self.evidence.shows_dead_end(by, state, known)
    }
}
