//! What the state lines of a certificate rest on, in its ground task. Each kind of evidence has its field here, and its arms.
ghost use Rattle.std.specs.Prelude.{◌≡◌, ◌≤◌, IfErr, IfOk, IsTrue, OnOk, length, nat_le, nat_lt};
ghost use Rattle.std.proofs.Props.{props};
ghost use Rattle.std.specs.List.{list_all};
ghost use Rattle.grounding.specs.Ground.{task_in, atoms_in};
ghost use Rattle.packed_state.specs.Packed.{bits_of};
ghost use Rattle.lower_bounds.specs.LandmarkLines.{share_count};
ghost use Rattle.lower_bounds.specs.LandmarkLaws.{is_zone_over};
ghost use Rattle.landmark_zones.specs.Landmarks.{landmarks_of};
ghost use Rattle.certificate_reader.specs.Lines.{basis_of};
ghost use Rattle.certificate.specs.Certificate.{certificate_of};
ghost use Rattle.certificate_definitions.specs.Certificates.{AreFairFor, AreLandmarksFair};
ghost use Rattle.certificate_definitions.specs.Evidence.{landmark};
ghost use Rattle.cert_checker.specs.FluentAtoms.{AreFluent};
ghost use Rattle.cert_checker.specs.CheckedLines.{IsFirstSymmetric, IsTrueAnyway};
ghost use Rattle.cert_checker.specs.Weights.{AreCounted};
ghost use Rattle.model.specs.NumberedAtoms.{numbered_atoms};
ghost use Rattle.tables.specs.Several.{width_of};

use crate::checker::landmark_values::check_landmarks;
use crate::checker::values::fair_values;
use crate::refusal::Refusal;
use certificate::{Basis, Cert, Landmarks};
use faults::NoMemory;
use grounding::Ground;
use landmarks::is_worth;
use packed_state::Packed;
use std::alloc::Global;
use tables::{KnownState, TableFunctions};

/// What the state lines of a certificate rest on, in its ground task.
#[derive(Drop)]
pub(super) struct GroundEvidence<'a> {
    /// The values of all states, and that for dead ends, with a weight for each numbered atom.
    common: TableFunctions<'a>,
    /// The landmark values.
    landmarks: &'a Landmarks,
    ghost over: { IsTrue (list_all (is_zone_over (width_of common)) (landmarks_of landmarks.now).zones) } by { Prim.hlevel props },
    ghost few: { share_count (landmarks_of landmarks.now).values ≤ 67108864 } by { Prim.hlevel props },
}

impl<'a> GroundEvidence<'a> {
    ghost use Rattle.cert_checker.specs.GroundEvidence.{has_basis, is_dead_at, value_at, width_in, IsEvidenceOf, IsKnownBy};

    /// The certificate's evidence, if all values are fair and those that dead ends rest on are dead-fair. The ground task numbers the
    /// certificate's atoms first.
    ///
    /// # Errors
    /// 46, 47, 56, 57, 62 and 63, as `check` reports them. [`Refusal::NoMemory`]: an allocation failed.
    pub(super) fn fair(
        alloc: Global,
        cert: &'a Cert,
        grounded: &Ground<'_>,
    ) -> Result<GroundEvidence<'a>, Refusal>
        requires counted { AreCounted cert.now }
        requires fluent { AreFluent (task_in grounded.now) (certificate_of cert.now).atoms }
        requires numbered { atoms_in grounded.now ≡ numbered_atoms (task_in grounded.now) (certificate_of cert.now).atoms }
        ensures evidence { IfOk result (IsEvidenceOf (certificate_of cert.now) (length (atoms_in grounded.now))) }
        ensures fair { OnOk result (AreFairFor (task_in grounded.now) (certificate_of cert.now)) }
        ensures landmarks { OnOk result (AreLandmarksFair (task_in grounded.now) (certificate_of cert.now)) }
        ensures wrong { IfErr result (IsTrueAnyway (task_in grounded.now) (certificate_of cert.now)) }
        ensures first { IfErr result (IsFirstSymmetric (task_in grounded.now) (certificate_of cert.now)) }
    {
        let common = fair_values(alloc, cert, grounded)?;
        check_landmarks(alloc, cert, grounded, &common)?;
        let landmarks = &cert.evidence().landmarks;
        Ok(GroundEvidence { common, landmarks })
    }

    /// An evaluation to start from, which the calls below move from state to state.
    pub(super) fn known_state(&self, alloc: Global) -> Result<KnownState, NoMemory>
        ensures { IfOk result (IsKnownBy self.now) }
    {
        self.common.known_state(alloc)
    }

    /// Whether the state's value by this basis is at least this.
    pub(super) fn is_worth(
        &self,
        by: Basis,
        least: u64,
        state: &Packed,
        known: &mut KnownState,
    ) -> bool
        requires state { length (bits_of state.now) ≡ width_in self.now }
        requires basis { IsTrue (has_basis self.now (basis_of by)) }
        requires known { IsKnownBy self.now known.old }
        ensures worth { result ≡ nat_le least (value_at self.now (basis_of by) (bits_of state.now)) }
        ensures known { IsKnownBy self.now known.new }
    {
        match by {
            Basis::OfAll => self.common.is_worth(least, state, known),
            Basis::Landmark(number) => self.is_worth_by(number, least, state, known),
        }
    }

    /// Whether this basis shows that the state is a dead end.
    pub(super) fn shows_dead_end(&self, by: Basis, state: &Packed, known: &mut KnownState) -> bool
        requires state { length (bits_of state.now) ≡ width_in self.now }
        requires basis { IsTrue (has_basis self.now (basis_of by)) }
        requires known { IsKnownBy self.now known.old }
        ensures dead { result ≡ is_dead_at self.now (basis_of by) (bits_of state.now) }
        ensures known { IsKnownBy self.now known.new }
    {
        match by {
            Basis::OfAll => self.common.is_dead_end(state, known),
            Basis::Landmark(number) => self.is_worth_by(number, 1, state, known),
        }
    }

    /// Whether the state's landmark value with this number is at least this. It is 0 where a table has no row for the state.
    fn is_worth_by(&self, number: u32, least: u64, state: &Packed, known: &mut KnownState) -> bool
        requires state { length (bits_of state.now) ≡ width_in self.now }
        requires there { IsTrue (nat_lt number (length (landmarks_of self.now.landmarks.now).values)) }
        requires known { IsKnownBy self.now known.old }
        ensures worth { result ≡ nat_le least (value_at self.now (landmark number) (bits_of state.now)) }
        ensures known { IsKnownBy self.now known.new }
    {
        if !self.common.has_rows(state, known) {
            return least == 0;
        }
        let shares = self.landmarks.value(number as usize);
        is_worth(state, self.landmarks, shares, least)
    }
}
