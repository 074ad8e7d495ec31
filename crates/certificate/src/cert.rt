//! A certificate of a task.
ghost use Rattle.std.specs.Prelude.{◌≡◌, IsTrue, length};
ghost use Rattle.certificate_definitions.specs.Certificates.{keeps_limits};
ghost use Rattle.packed_state.specs.PooledView.{pooled_states};
ghost use Rattle.certificate.specs.CertificateParts.{certificate_with};

use crate::evidence::Evidence;
use crate::header::Header;
use crate::limits::keeps_limits;
use crate::listing::states_of;
use crate::states::{Listed, States};
use crate::widening::widened;
use certificate_reader::{Claim, StateLine, Version};
use faults::NoMemory;
use packed_state::{Packed, PooledStore, StateStore};
use std::alloc::Global;
use task::{Atom, ObjectId};

/// A certificate of a task, within the limits of a certificate's text: its version, claim, exchanges and atoms, the evidence that
/// its lines rest on, and the states it lists, as sets of its atoms' numbers.
pub struct Cert {
    header: Header,
    states: States,
    pub ghost within_limits: { IsTrue (keeps_limits (certificate_with header states)) },
    ghost marked: { length states.marks.items ≡ length (pooled_states states.sets) },
}

impl Drop for Cert {
    fn drop(self) {
        let Self {
            header: _,
            states: _,
        } = self;
    }
}

impl Cert {
    ghost use Rattle.std.specs.Prelude.{◌+◌, ◌<◌, ◌≤◌, ◌^◌, ◌↔◌, All, IfOk, IfSome, IsSome, OnOk, Some, map, slice_get};
    ghost use Rattle.task.specs.TaskParts.{atom_of};
    ghost use Rattle.packed_state.specs.Packed.{bits_of};
    ghost use Rattle.packed_state.specs.PooledView.{pooled_width};
    ghost use Rattle.certificate_definitions.specs.CertificateRefusals.{state_line};
    ghost use Rattle.certificate_definitions.specs.Certificates as certificates;
    ghost use Rattle.certificate_definitions.specs.Certificates.{are_landmarks, are_potentials, are_tables, has_basis, is_value_count, is_weight, several_of};
    ghost use Rattle.std.specs.List.{list_all};
    ghost use Rattle.landmark_zones.specs.Landmarks.{landmarks_of};
    ghost use Rattle.certificate_reader.specs.Lines.{claim_of, line_of, version_of};
    ghost use Rattle.certificate_reader.specs.declared.line.TheConstants.{MAX_ATOMS, MAX_STATE_LINES, MAX_SWAPS};
    ghost use Rattle.certificate.specs.declared.evidence.WrittenPotentials as code;
    ghost use Rattle.certificate.specs.CertificateParts.{certificate_with_lines, exchange_in, listed_of};
    ghost use Rattle.certificate.specs.Evidence.{evidence_of, potential_of};
    ghost use Rattle.certificate.specs.ListedSets.{marked};
    ghost use Rattle.certificate.specs.Listing.{ListOnce};
    ghost use Rattle.certificate.specs.Certificate.{certificate_of, store_in, tables_in};

    /// The certificate with this header that lists the states of these lines, in order; `None` if it would exceed a limit of a
    /// certificate's text, or list a state twice, which is never accepted.
    ///
    /// # Errors
    /// An allocation failed.
    pub fn new(alloc: Global, header: Header, lines: &[StateLine]) -> Result<Option<Cert>, NoMemory>
        ensures within { IfOk result (λ made. IsSome made ↔ (IsTrue (keeps_limits (certificate_with_lines header (map line_of lines.now))) × ListOnce (map line_of lines.now))) }
        ensures parts { IfOk result (λ made. IfSome made (λ cert. certificate_of cert ≡ certificate_with_lines header (map line_of lines.now))) }
    {
        if !keeps_limits(&header, lines) {
            return Ok(None);
        }
        match states_of(alloc, header.atoms.len() as u32, lines)? {
            Some(states) => Ok(Some(Cert::from_parts(header, states))),
            None => Ok(None),
        }
    }

    /// The certificate with this header and these states. There are as many marks as sets, and the limits of a certificate's text
    /// hold.
    pub fn from_parts(header: Header, states: States) -> Cert
        requires limits { IsTrue (keeps_limits (certificate_with header states)) }
        requires marked { length states.marks.items ≡ length (pooled_states states.sets) }
        ensures certificate { certificate_of result ≡ certificate_with header states }
        ensures sets { store_in result ≡ states.sets }
        ensures tables { tables_in result ≡ header.evidence.tables.items }
    {
        Cert { header, states }
    }

    /// The version of its text.
    pub fn version(&self) -> Version
        ensures { version_of result ≡ (certificate_of self.now).version }
    {
        self.header.version
    }

    /// Its claim about all plans.
    pub fn claim(&self) -> Claim
        ensures { claim_of result ≡ (certificate_of self.now).claim }
    {
        self.header.claim
    }

    /// Its exchanges, by which a state represents others: for each exchange, the pairs of objects that it swaps.
    pub fn exchanges(&self) -> &[Vec<(ObjectId, ObjectId)>]
        ensures exchanges { map exchange_in result.now ≡ (certificate_of self.now).exchanges }
        ensures at_most { length result.now ≤ MAX_SWAPS }
    {
        self.header.exchanges.as_slice()
    }

    /// What its state lines rest on, within the limits of a certificate's text: each potential function has one weight per atom.
    pub fn evidence(&self) -> &Evidence
        ensures evidence { evidence_of result.now ≡ several_of (certificate_of self.now) }
        ensures value_count { IsTrue (is_value_count (certificate_of self.now).version (length result.now.values.items)) }
        ensures values { All (λ (p : code.WrittenPotentials). IsTrue (are_potentials is_weight (length (certificate_of self.now).atoms) (potential_of p))) result.now.values.items }
        ensures dead_ends { IsTrue (are_potentials is_weight (length (certificate_of self.now).atoms) (potential_of result.now.dead_ends)) }
        ensures tables { IsTrue (are_tables (certificate_of self.now).version (length (certificate_of self.now).atoms) (length result.now.values.items + 1) (certificate_of self.now).tables) }
        ensures in_memory { result.now.tables.items ≡ tables_in self.now }
        ensures landmarks { landmarks_of result.now.landmarks ≡ (certificate_of self.now).landmarks }
        ensures landmark_limits { IsTrue (are_landmarks (certificate_of self.now).version (length (certificate_of self.now).atoms) (certificate_of self.now).landmarks) }
    {
        &self.header.evidence
    }

    /// Its atoms, which its states refer to by index, from 0.
    pub fn atoms(&self) -> &[Atom]
        ensures atoms { map atom_of result.now ≡ (certificate_of self.now).atoms }
        ensures at_most { length result.now ≤ MAX_ATOMS }
    {
        self.header.atoms.as_slice()
    }

    /// The costs and roles of its states, in line order. The landmark values that they rest on exist.
    pub fn marks(&self) -> &[Listed]
        ensures marks { map listed_of result.now ≡ map marked (certificate_of self.now).lines }
        ensures at_most { length result.now ≤ MAX_STATE_LINES }
        ensures bases { IsTrue (list_all (λ (l : certificates.StateLine). has_basis (length (certificate_of self.now).landmarks.values) l.mark) (certificate_of self.now).lines) }
    {
        self.states.marks.as_slice()
    }

    /// Its states, in line order, as sets of atom numbers.
    pub fn sets(&self) -> &PooledStore
        ensures { result.now ≡ store_in self.now }
    {
        &self.states.sets
    }

    /// The number of the line of its first state, from 1. Each exchange, atom, table, row, zone and landmark value before it has a
    /// line.
    pub fn first_state_line(&self) -> u64
        ensures line { result ≡ state_line (certificate_of self.now) 0 }
        ensures small { result < 2 ^ 32 }
    {
        4 + self.header.exchanges.len() as u64
            + self.header.atoms.len() as u64
            + self.header.evidence.line_count()
    }

    /// The number of states that it lists.
    pub fn line_count(&self) -> usize
        ensures { result ≡ length (certificate_of self.now).lines }
    {
        self.marks().len()
    }

    /// Reads the state line at this index, from 0, using the given set (of the same width as its sets) as scratch.
    ///
    /// # Errors
    /// An allocation failed.
    pub fn read_line(
        &self,
        place: usize,
        set: &mut Packed,
        line: &mut StateLine,
    ) -> Result<(), NoMemory>
        requires there { place < length (certificate_of self.now).lines }
        requires width { length (bits_of set.old) ≡ pooled_width (store_in self.now) }
        ensures width { length (bits_of set.new) ≡ pooled_width (store_in self.now) }
        ensures line { OnOk result (slice_get (certificate_of self.now).lines place ≡ Some (line_of line.new)) }
    {
        let listed = self.marks()[place];
        self.sets().get(place as u32, set);
        line.cost = listed.cost;
        line.mark = listed.mark;
        set.list_numbers(&mut line.atoms)
    }

    /// The same certificate with sets of this width, which is at least the number of its atoms. The sets are rebuilt if their
    /// width differs.
    ///
    /// # Errors
    /// An allocation failed.
    pub fn at_width(self, alloc: Global, width: u32) -> Result<Cert, NoMemory>
        requires { length (certificate_of self).atoms ≤ width }
        ensures same { IfOk result (λ cert. certificate_of cert ≡ certificate_of self) }
        ensures width { IfOk result (λ cert. pooled_width (store_in cert) ≡ width) }
        ensures tables { IfOk result (λ cert. tables_in cert ≡ tables_in self) }
    {
        if self.states.sets.width() == width {
            return Ok(self);
        }
        let Cert { header, states } = self;
        let sets = widened(alloc, &states.sets, width)?;
        let states = States {
            marks: states.marks,
            sets,
        };
        Ok(Cert::from_parts(header, states))
    }
}
