//! The limits of a certificate's text.
ghost use Rattle.std.specs.Prelude.{◌≡◌, ◌≤◌, ◌&&◌, [], IsTrue, length, map, nat_le};
ghost use Rattle.std.specs.List.{list_all};
ghost use Rattle.certificate_definitions.specs.Certificates as certificates;
ghost use Rattle.certificate_definitions.specs.Certificates.{is_number, is_weight, is_dead_end_weight, is_claim, is_basis, is_mark, has_basis, rise, is_state_line, are_potentials, is_value_count, is_row, is_table, has_tables, are_tables, rows_of, has_exchanges, are_exchanges, has_landmarks, are_landmarks, keeps_limits};
ghost use Rattle.certificate_reader.specs.Lines.{basis_of, claim_of, line_of, mark_of, version_of};
ghost use Rattle.certificate_reader.specs.declared.part_line.TheConstants.{MAX_ROWS};
ghost use Rattle.table_rows.specs.Tables.{table_of};
ghost use Rattle.landmark_zones.specs.Landmarks.{landmarks_of};
ghost use Rattle.certificate.specs.CertificateParts.{certificate_with_lines, exchange_in, keeps_exchange_limits, keeps_item_limits};
ghost use Rattle.certificate.specs.Evidence.{potential_of};

use crate::evidence::WrittenPotentials;
use crate::header::Header;
use certificate_reader::{
    Basis, Claim, MAX_ATOMS, MAX_CONSTANTS, MAX_ROWS, MAX_STATE_LINES, MAX_SWAPS, Mark,
    NUMBER_LIMIT, StateLine, Version, is_weight,
};
use landmark_zones::{Landmarks, MAX_VALUES};
use table_rows::Table;
use task::ObjectId;

/// Whether a certificate with this header may have these lines.
pub(crate) fn keeps_limits(header: &Header, lines: &[StateLine]) -> bool
    ensures { result ≡ keeps_limits (certificate_with_lines header.now (map line_of lines.now)) }
{
    if !keeps_item_limits(header, lines) {
        return false;
    }
    let evidence = &header.evidence;
    if !evidence.keep_limits(header.version, header.atoms.len()) {
        return false;
    }
    if !keeps_exchange_limits(header) {
        return false;
    }
    have_bases(lines, evidence.landmarks.value_count())
}

/// Whether the claim, the atoms and each of the lines by itself are within their limits.
fn keeps_item_limits(header: &Header, lines: &[StateLine]) -> bool
    ensures { result ≡ keeps_item_limits (certificate_with_lines header.now (map line_of lines.now)) }
{
    let atom_count = header.atoms.len();
    is_claim(header.claim)
        && atom_count <= MAX_ATOMS
        && lines.len() <= MAX_STATE_LINES
        && are_state_lines(header.version, lines, atom_count)
}

/// Whether the exchanges are within their limits.
fn keeps_exchange_limits(header: &Header) -> bool
    ensures { result ≡ keeps_exchange_limits (certificate_with_lines header.now []) }
{
    are_exchanges(header.version, &header.exchanges) && header.exchanges.len() <= MAX_SWAPS
}

/// Whether a certificate of this version may have these exchanges. Each must have at least one pair of objects.
fn are_exchanges(version: Version, exchanges: &[Vec<(ObjectId, ObjectId)>]) -> bool
    ensures { result ≡ are_exchanges (version_of version) (map exchange_in exchanges.now) }
{
    for exchange in exchanges {
        if !(has_exchanges(version) && 1 <= exchange.len()) {
            return false;
        }
    }
    true
}

/// Whether a certificate of this version may have exchanges.
fn has_exchanges(version: Version) -> bool
    ensures { result ≡ has_exchanges (version_of version) }
{
    version == Version::Three || version == Version::Four
}

/// Whether a certificate of this version may have this many values.
pub(crate) fn is_value_count(version: Version, count: usize) -> bool
    ensures { result ≡ is_value_count (version_of version) count }
{
    match version {
        Version::One | Version::Two => count == 1,
        Version::Three | Version::Four => 1 <= count && count < MAX_CONSTANTS,
    }
}

/// Whether the number may occur in a certificate.
fn is_number(number: u64) -> bool
    ensures { result ≡ is_number number }
{
    number < NUMBER_LIMIT
}

/// Whether the claim may occur in a certificate.
fn is_claim(claim: Claim) -> bool
    ensures { result ≡ is_claim (claim_of claim) }
{
    match claim {
        Claim::Bound(least) => is_number(least),
        Claim::Unsolvable => true,
    }
}

/// Whether each value has a constant and a weight for each of this many atoms.
pub(crate) fn are_values(values: &[WrittenPotentials], atom_count: usize) -> bool
    ensures { result ≡ list_all (are_potentials is_weight atom_count) (map potential_of values.now) }
{
    for value in values {
        if !are_potentials(value, atom_count) {
            return false;
        }
    }
    true
}

/// Whether this potential function has a weight for each of this many atoms, all in range.
fn are_potentials(potential: &WrittenPotentials, atom_count: usize) -> bool
    ensures { result ≡ are_potentials is_weight atom_count (potential_of potential.now) }
{
    is_weight(potential.constant)
        && potential.weights.len() == atom_count
        && are_weights(&potential.weights)
}

/// Whether this potential function may detect dead ends in a certificate of this version and with this many atoms.
pub(crate) fn are_dead_ends(
    version: Version,
    potential: &WrittenPotentials,
    atom_count: usize,
) -> bool
    ensures { result ≡ are_potentials (is_dead_end_weight (version_of version)) atom_count (potential_of potential.now) }
{
    is_dead_end_weight(version, potential.constant)
        && potential.weights.len() == atom_count
        && are_dead_end_weights(version, &potential.weights)
}

/// Whether each number may be a weight.
fn are_weights(weights: &[i64]) -> bool
    ensures { result ≡ list_all is_weight weights.now }
{
    weights.iter().all(|weight| is_weight(*weight))
}

/// Whether each number may be a weight that detects dead ends.
fn are_dead_end_weights(version: Version, weights: &[i64]) -> bool
    ensures { result ≡ list_all (is_dead_end_weight (version_of version)) weights.now }
{
    weights
        .iter()
        .all(|weight| is_dead_end_weight(version, *weight))
}

/// Whether the number may be a weight that detects dead ends, of which version 1 has none.
fn is_dead_end_weight(version: Version, number: i64) -> bool
    ensures { result ≡ is_dead_end_weight (version_of version) number }
{
    match version {
        Version::One => number == 0,
        Version::Two | Version::Three | Version::Four => is_weight(number),
    }
}

/// Whether each line may occur in a certificate of this version and with this many atoms.
fn are_state_lines(version: Version, lines: &[StateLine], atom_count: usize) -> bool
    ensures { result ≡ list_all (is_state_line (version_of version) atom_count) (map line_of lines.now) }
{
    for line in lines {
        if !is_state_line(version, line, atom_count) {
            return false;
        }
    }
    true
}

/// Whether the line may occur in a certificate of this version and with this many atoms.
fn is_state_line(version: Version, line: &StateLine, atom_count: usize) -> bool
    ensures { result ≡ is_state_line (version_of version) atom_count (line_of line.now) }
{
    is_number(line.cost) && is_mark(version, line.mark) && rise(&line.atoms, atom_count)
}

/// Whether a state may have this role in a certificate of this version.
fn is_mark(version: Version, mark: Mark) -> bool
    ensures { result ≡ is_mark (version_of version) (mark_of mark) }
{
    match mark {
        Mark::Expanded => true,
        Mark::Cut { by, rest } => is_basis(version, by) && is_number(rest),
        Mark::Dead { by } => version != Version::One && is_basis(version, by),
    }
}

/// Whether a line of a certificate of this version may rest on this.
fn is_basis(version: Version, basis: Basis) -> bool
    ensures { result ≡ is_basis (version_of version) (basis_of basis) }
{
    match basis {
        Basis::OfAll => true,
        Basis::Landmark(number) => has_landmarks(version) && (number as usize) < MAX_VALUES,
    }
}

/// Whether all landmark values that the lines rest on are among this many.
fn have_bases(lines: &[StateLine], value_count: usize) -> bool
    ensures { result ≡ list_all (λ (l : certificates.StateLine). has_basis value_count l.mark) (map line_of lines.now) }
{
    for line in lines {
        if !has_basis(line.mark, value_count) {
            return false;
        }
    }
    true
}

/// Whether the landmark value that the state's role rests on, if any, is among this many.
fn has_basis(mark: Mark, value_count: usize) -> bool
    ensures { result ≡ has_basis value_count (mark_of mark) }
{
    match mark {
        Mark::Expanded => true,
        Mark::Cut { by, .. } | Mark::Dead { by } => match by {
            Basis::OfAll => true,
            Basis::Landmark(number) => (number as usize) < value_count,
        },
    }
}

/// Whether the numbers are strictly ascending and below the count.
fn rise(numbers: &[u32], atom_count: usize) -> bool
    ensures { result ≡ rise atom_count 0 numbers.now }
{
    let mut least = 0;
    for number in numbers {
        let number = *number as usize;
        if number < least || number >= atom_count {
            return false;
        }
        least = number + 1;
    }
    true
}

/// Whether a certificate of this version and with this many atoms may have these tables, whose rows have this many weights.
pub(crate) fn are_tables(
    version: Version,
    tables: &[Table],
    atom_count: usize,
    weight_count: usize,
) -> bool
    ensures { result ≡ are_tables (version_of version) atom_count weight_count (map table_of tables.now) }
{
    for table in tables {
        if !(has_tables(version) && is_table(table, atom_count, weight_count)) {
            return false;
        }
    }
    true
}

/// Whether a certificate of this version may have tables.
fn has_tables(version: Version) -> bool
    ensures { result ≡ has_tables (version_of version) }
{
    match version {
        Version::One | Version::Two => false,
        Version::Three | Version::Four => true,
    }
}

/// Whether a certificate with this many atoms may have this table, whose rows have this many weights.
fn is_table(table: &Table, atom_count: usize, weight_count: usize) -> bool
    ensures { result ≡ is_table atom_count weight_count (table_of table.now) }
{
    rise(table.scope(), atom_count)
        && 1 <= table.width()
        && are_rows(table, atom_count, weight_count)
}

/// Whether each row of the table has this many weights, each within its limits. The scope may occur in a certificate with this
/// many atoms. That a row's atoms belong to the scope holds for every table.
fn are_rows(table: &Table, atom_count: usize, weight_count: usize) -> bool
    requires scope { IsTrue (rise atom_count 0 (table_of table.now).scope) }
    ensures { result ≡ list_all (is_row atom_count weight_count (table_of table.now).scope) (table_of table.now).rows }
{
    for row in 0..table.row_count() {
        if !are_row_weights(table.weights(row as u32), weight_count) {
            return false;
        }
    }
    true
}

/// Whether these are this many weights, all in range.
fn are_row_weights(weights: &[i64], count: usize) -> bool
    ensures { result ≡ certificates.are_weights count weights.now }
{
    weights.len() == count && are_weights(weights)
}

/// Whether the tables have no more rows in total than a certificate may have.
pub(crate) fn are_few_rows(tables: &[Table]) -> bool
    ensures { result ≡ nat_le (length (rows_of (map table_of tables.now))) MAX_ROWS }
{
    let mut room = MAX_ROWS;
    for table in tables {
        if table.row_count() > room {
            return false;
        }
        room -= table.row_count();
    }
    true
}

/// The total number of rows of the tables, which is within the limit of a certificate.
pub(crate) fn row_count(tables: &[Table]) -> u64
    requires { length (rows_of (map table_of tables.now)) ≤ MAX_ROWS }
    ensures { result ≡ length (rows_of (map table_of tables.now)) }
{
    let mut count = 0;
    for table in tables {
        count += table.row_count() as u64;
    }
    count
}

/// Whether a certificate of this version and with this many atoms may have these zones and landmark values.
pub(crate) fn are_landmarks(version: Version, landmarks: &Landmarks, atom_count: usize) -> bool
    ensures { result ≡ are_landmarks (version_of version) atom_count (landmarks_of landmarks.now) }
{
    (has_landmarks(version) || is_empty(landmarks)) && landmarks.keep_limits(atom_count)
}

/// Whether a certificate of this version may have landmark values.
fn has_landmarks(version: Version) -> bool
    ensures { result ≡ has_landmarks (version_of version) }
{
    version == Version::Four
}

/// Whether there are no zones and no values.
fn is_empty(landmarks: &Landmarks) -> bool
    ensures { result ≡ (nat_le (length (landmarks_of landmarks.now).zones) 0 && nat_le (length (landmarks_of landmarks.now).values) 0) }
{
    landmarks.zone_count() == 0 && landmarks.value_count() == 0
}
