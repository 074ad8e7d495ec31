//! The parts of a certificate's text: the lines between its atoms and its states, which give what state lines rest on. Each kind
//! of evidence has its variants here.
ghost use Rattle.std.specs.Prelude.{◌≡◌, ◌==◌, ◌≤◌, ◌+◌, ℕ, codes, IsTrue, List, Some, length, map};
ghost use Rattle.lower_bounds.specs.TableFunctions.{Row};
ghost use Rattle.lower_bounds.specs.LandmarkFunctions.{Zone};
ghost use Rattle.lower_bounds.specs.LandmarkLines.{zone, value};
ghost use Rattle.landmark_zones.specs.Landmarks.{share_of};
ghost use Rattle.certificate_definitions.specs.CertificateText.{longest_line, most_atoms};
ghost use Rattle.certificate_definitions.specs.Parts.{are_few, how_many, landmark_line, no_parts, row, scope, tabled};
ghost use Rattle.certificate_reader.specs.Parts.{IsCounted, IsPartParsed, counts_of, part_of};
ghost use Rattle.certificate_reader.specs.Stages.{format_of};
ghost use Rattle.certificate_reader.specs.Words.{with_rest};

use crate::fault::{NextFault, TextFault};
use crate::first_word::is;
use crate::format::{Format, has_tables};
use crate::landmark_lines::{marks_line, zone_line};
use crate::parts::{leading_weights, numbers};
use landmark_zones::{MAX_ENTRIES, MAX_VALUES, MAX_ZONES, Share, is_value};
use std::alloc::Global;

/// The maximum number of tables of a certificate.
pub const MAX_TABLES: usize = 4_194_304;

/// The maximum number of rows of all tables of a certificate together.
pub const MAX_ROWS: usize = 4_194_304;

/// A part of a certificate's text.
#[derive(PartialEq, Eq, Drop)]
pub enum PartLine {
    /// A table over these atoms: `table 0 2`.
    Table {
        /// The atoms, in ascending order, by index.
        scope: Vec<u32>,
    },
    /// A row of the last table: `row 3 0 2`.
    Row {
        /// The weights, as many as the constants.
        weights: Vec<i64>,
        /// The true atoms of the table, in ascending order, by index.
        atoms: Vec<u32>,
    },
    /// A zone: `zone 0 not 2`. Zones are numbered from 0.
    Zone {
        /// The atoms that are false where the zone is whole, in ascending order, by index.
        atoms: Vec<u32>,
        /// The atoms that are true where it is, in ascending order, by index.
        negated: Vec<u32>,
    },
    /// A landmark value over the zones before it: `marks 0 3`. Landmark values are numbered from 0.
    Landmark {
        /// The zones, in ascending order, with their weights.
        shares: Vec<Share>,
    },
}

/// The numbers of parts so far, by kind.
#[derive(Clone, Copy)]
pub(crate) struct PartCounts {
    /// The number of tables.
    pub(crate) tables: usize,
    /// The number of rows.
    pub(crate) rows: usize,
    /// The number of zones.
    pub(crate) zones: usize,
    /// The number of literals of all zones together.
    pub(crate) literals: usize,
    /// The number of landmark values.
    pub(crate) values: usize,
    /// The number of zones of all landmark values together.
    pub(crate) shares: usize,
}

impl PartCounts {
    /// No parts.
    pub(crate) fn none() -> PartCounts
        ensures { counts_of result ≡ no_parts }
    {
        PartCounts {
            tables: 0,
            rows: 0,
            zones: 0,
            literals: 0,
            values: 0,
            shares: 0,
        }
    }

    /// Whether no part has come yet.
    pub(crate) fn is_empty(self) -> bool
        ensures { result ≡ (how_many (counts_of self) == 0) }
    {
        self.tables == 0 && self.rows == 0 && self.zones == 0 && self.values == 0
    }

    /// The counts with this part, or the fault of a part that is not allowed here.
    pub(crate) fn after(self, part: &PartLine) -> Result<PartCounts, TextFault>
        requires few { IsTrue (are_few (counts_of self)) }
        ensures { IsCounted (counts_of self) (part_of part.now) result }
    {
        match part {
            PartLine::Table { .. } => self.after_table(),
            PartLine::Row { .. } => self.after_row(),
            PartLine::Zone { atoms, negated } => self.after_zone(atoms.len() + negated.len()),
            PartLine::Landmark { shares } => self.after_landmark(shares),
        }
    }

    /// The counts with one more table, or its fault. Tables come before zones.
    fn after_table(self) -> Result<PartCounts, TextFault>
        requires few { IsTrue (are_few (counts_of self)) }
        ensures { (atoms : List ℕ) → IsCounted (counts_of self) (tabled (scope atoms)) result }
    {
        if self.zones > 0 {
            return Err(TextFault::Form);
        }
        if self.tables >= MAX_TABLES {
            return Err(TextFault::Limit);
        }
        let mut counts = self;
        counts.tables += 1;
        Ok(counts)
    }

    /// The counts with one more row, or its fault. A row comes after a table, and before zones.
    fn after_row(self) -> Result<PartCounts, TextFault>
        requires few { IsTrue (are_few (counts_of self)) }
        ensures { (r : Row) → IsCounted (counts_of self) (tabled (row r)) result }
    {
        if self.tables == 0 || self.zones > 0 {
            return Err(TextFault::Form);
        }
        if self.rows >= MAX_ROWS {
            return Err(TextFault::Limit);
        }
        let mut counts = self;
        counts.rows += 1;
        Ok(counts)
    }

    /// The counts with one more zone, which has this many literals, or its fault. Zones come before landmark values.
    fn after_zone(self, literals: usize) -> Result<PartCounts, TextFault>
        requires few { IsTrue (are_few (counts_of self)) }
        ensures { (z : Zone) → length z.atoms + length z.negated ≡ literals → IsCounted (counts_of self) (landmark_line (zone z)) result }
    {
        if self.values > 0 {
            return Err(TextFault::Form);
        }
        if self.zones >= MAX_ZONES || literals > MAX_ENTRIES - self.literals {
            return Err(TextFault::Limit);
        }
        let mut counts = self;
        counts.zones += 1;
        counts.literals += literals;
        Ok(counts)
    }

    /// The counts with one more landmark value, or its fault. Its zones have come.
    fn after_landmark(self, shares: &[Share]) -> Result<PartCounts, TextFault>
        requires few { IsTrue (are_few (counts_of self)) }
        ensures { IsCounted (counts_of self) (landmark_line (value (map share_of shares.now))) result }
    {
        if !is_value(shares, self.zones) {
            return Err(TextFault::Form);
        }
        if self.values >= MAX_VALUES || shares.len() > MAX_ENTRIES - self.shares {
            return Err(TextFault::Limit);
        }
        let mut counts = self;
        counts.values += 1;
        counts.shares += shares.len();
        Ok(counts)
    }
}

/// Parses a part with this first word and this rest.
pub(crate) fn parse_part(
    alloc: Global,
    word: &[u8],
    rest: &[u8],
    format: Format,
) -> Result<PartLine, NextFault>
    requires few { format.atoms ≤ most_atoms }
    requires short { length (with_rest word.now (Some rest.now)) ≤ longest_line }
    ensures { IsPartParsed word.now rest.now (format_of format) result }
{
    if is(word, b"row") {
        return row_line(alloc, rest, format);
    }
    if is(word, b"table") {
        return table_line(alloc, rest, format);
    }
    if is(word, b"zone") {
        return zone_line(alloc, rest, format);
    }
    if is(word, b"marks") {
        return marks_line(alloc, rest, format);
    }
    Err(NextFault::Text(TextFault::Form))
}

/// Parses a table from the scope that follows `table`.
fn table_line(alloc: Global, rest: &[u8], format: Format) -> Result<PartLine, NextFault>
    requires few { format.atoms ≤ most_atoms }
    ensures { IsPartParsed (codes "table") rest.now (format_of format) result }
{
    if !has_tables(format.version) {
        return Err(NextFault::Text(TextFault::Form));
    }
    match numbers(alloc, Some(rest), format.atoms)? {
        Some(scope) => Ok(PartLine::Table { scope }),
        None => Err(NextFault::Text(TextFault::Form)),
    }
}

/// Parses a row with its weights from what follows `row`.
fn row_line(alloc: Global, rest: &[u8], format: Format) -> Result<PartLine, NextFault>
    requires few { format.atoms ≤ most_atoms }
    ensures { IsPartParsed (codes "row") rest.now (format_of format) result }
{
    if !has_tables(format.version) {
        return Err(NextFault::Text(TextFault::Form));
    }
    let Some((weights, following)) = leading_weights(alloc, Some(rest), format.weights)? else {
        return Err(NextFault::Text(TextFault::Form));
    };
    if weights.len() < format.weights {
        return Err(NextFault::Text(TextFault::Form));
    }
    match numbers(alloc, following, format.atoms)? {
        Some(atoms) => Ok(PartLine::Row { weights, atoms }),
        None => Err(NextFault::Text(TextFault::Form)),
    }
}
