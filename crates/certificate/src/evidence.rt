//! What the state lines of a certificate rest on. Each kind of evidence has its field here, and its arm of each function.
ghost use Rattle.std.specs.Prelude.{◌≡◌, ◌≤◌, ◌++◌, length, OnOk};
ghost use Rattle.devices.specs.Devices.{AppendsBeginning, CountsDevice};
ghost use Rattle.certificate_definitions.specs.Certificates.{rows_of};
ghost use Rattle.landmark_zones.specs.Landmarks.{landmarks_of};
ghost use Rattle.lower_bounds.specs.LandmarkLines.{most_values, most_zones};
ghost use Rattle.certificate_reader.specs.Lines.{version_of};
ghost use Rattle.certificate_reader.specs.declared.part_line.TheConstants.{MAX_ROWS};
ghost use Rattle.certificate.specs.Evidence.{evidence_of, is_evidence, line_count, parts_text};
ghost use Rattle.certificate.specs.Gathering.{IsPassedOn};

use crate::limits::{
    are_dead_ends, are_few_rows, are_landmarks, are_tables, are_values, is_value_count, row_count,
};
use crate::writer::{write_landmarks, write_tables};
use certificate_reader::{MAX_TABLES, Version};
use devices::{IoFault, Sink};
use landmark_zones::Landmarks;
use std::alloc::Global;
use table_rows::Table;

/// A potential function as a text has it: a constant, and a weight for each atom, in order. `potentials::Potentials` has them in the range
/// in which sums are exact.
#[derive(Drop)]
pub struct WrittenPotentials {
    /// The constant.
    pub constant: i64,
    /// The weights.
    pub weights: Vec<i64>,
}

/// What the state lines of a certificate rest on.
#[derive(Drop)]
pub struct Evidence {
    /// The potential functions that give the values of a state: lower bounds of the remaining cost, of which the maximum counts.
    /// Versions 1 and 2 have exactly one.
    pub values: Vec<WrittenPotentials>,
    /// The potential function that detects dead ends. In version 1 it is 0 everywhere.
    pub dead_ends: WrittenPotentials,
    /// The tables. Each row has a weight for each value and, last, one for dead ends. Versions 1 and 2 have none.
    pub tables: Vec<Table>,
    /// The zones and landmark values, each of which counts for the lines that name it. Versions 1 to 3 have none.
    pub landmarks: Landmarks,
}

impl Evidence {
    /// Whether a certificate of this version and with this many atoms may have this evidence: the numbers of values, tables, zones
    /// and landmark values, the number of weights of each, and all weights are within their limits.
    pub fn keep_limits(&self, version: Version, atom_count: usize) -> bool
        ensures { result ≡ is_evidence (version_of version) atom_count (evidence_of self.now) (landmarks_of self.now.landmarks) }
    {
        is_value_count(version, self.values.len())
            && are_values(&self.values, atom_count)
            && are_dead_ends(version, &self.dead_ends, atom_count)
            && are_tables(version, &self.tables, atom_count, self.values.len() + 1)
            && self.tables.len() <= MAX_TABLES
            && are_few_rows(&self.tables)
            && are_landmarks(version, &self.landmarks, atom_count)
    }

    /// The number of its lines in a certificate's text, beside those of the constants and the atoms.
    pub(crate) fn line_count(&self) -> u64
        requires rows { length (rows_of (evidence_of self.now).tables) ≤ MAX_ROWS }
        requires zones { length (landmarks_of self.now.landmarks).zones ≤ most_zones }
        requires values { length (landmarks_of self.now.landmarks).values ≤ most_values }
        ensures { result ≡ line_count (evidence_of self.now) (landmarks_of self.now.landmarks) }
    {
        let tables = self.tables.len() as u64 + row_count(&self.tables);
        tables + self.landmarks.zone_count() as u64 + self.landmarks.value_count() as u64
    }

    /// Writes these lines after the buffered bytes.
    pub(crate) fn write_parts<W: Sink>(
        &self,
        alloc: Global,
        held: &mut Vec<u8>,
        out: &mut W,
    ) -> Result<(), IoFault>
        ensures text { OnOk result (IsPassedOn (W.taken out.old) (W.taken out.new) held.old.items held.new.items (parts_text (evidence_of self.now) (landmarks_of self.now.landmarks))) }
        ensures beginning { AppendsBeginning (W.taken out.old) (W.taken out.new) (held.old.items ++ parts_text (evidence_of self.now) (landmarks_of self.now.landmarks)) }
        ensures failures { CountsDevice (W.failures out.old) (W.failures out.new) result }
        ensures name { W.name out.new ≡ W.name out.old }
    {
        write_tables(alloc, &self.tables, held, out)?;
        write_landmarks(&self.landmarks, held, out)
    }
}
