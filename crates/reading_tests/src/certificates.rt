//! Tests of the limits of certificates that are made in memory.
use certificate::{
    Basis, Cert, Claim, Evidence, Header, Landmarks, Mark, StateLine, Version, WrittenPotentials,
};
use faults::NoMemory;
use indexmap::IndexSet;
use std::alloc::{AllocError, Global};
use std::test::Fail;
use task::Atom;
use test_support::{Application, atom};

/// A constant, and the weights of the atoms.
pub(crate) type Weights = (i64, &'static [i64]);

/// The cost of a state, its role, and its atoms.
type Line = (u64, Mark, &'static [u32]);

/// A version, a claim, the weights of values and dead ends, and a state: the parts of a certificate with two atoms, and whether
/// they are within its limits.
type Row = (Version, Claim, Weights, Weights, Line, bool);

/// The largest number that may occur in a certificate.
const MOST: u64 = 1_152_921_504_606_846_975;

/// Constants and weights of 0, and the largest ones.
const ZERO: Weights = (0, &[0, 0]);

const LARGEST: Weights = (2_147_483_647, &[-2_147_483_647, 3]);

/// The state without an atom.
const START: Line = (0, Mark::Expanded, &[]);

/// Claims and states; weights of values; versions, and weights of dead ends.
#[rattlefmt::skip]
static ROWS: [Row; 32] = [
    (Version::One, Claim::Bound(MOST), LARGEST, ZERO, (MOST, Mark::Cut { by: Basis::OfAll, rest: MOST }, &[0, 1]), true),
    (Version::One, Claim::Bound(0), LARGEST, ZERO, (0, Mark::Cut { by: Basis::OfAll, rest: 0 }, &[1]), true),
    (Version::One, Claim::Unsolvable, LARGEST, ZERO, START, true),
    (Version::One, Claim::Bound(MOST + 1), LARGEST, ZERO, START, false),
    (Version::One, Claim::Bound(0), LARGEST, ZERO, (MOST + 1, Mark::Expanded, &[]), false),
    (Version::One, Claim::Bound(0), LARGEST, ZERO, (0, Mark::Cut { by: Basis::OfAll, rest: MOST + 1 }, &[]), false),
    // Numbers that descend, repeat, or name no atom.
    (Version::One, Claim::Bound(0), LARGEST, ZERO, (0, Mark::Expanded, &[1, 0]), false),
    (Version::One, Claim::Bound(0), LARGEST, ZERO, (0, Mark::Expanded, &[0, 0]), false),
    (Version::One, Claim::Bound(0), LARGEST, ZERO, (0, Mark::Expanded, &[1, 1]), false),
    (Version::One, Claim::Bound(0), LARGEST, ZERO, (0, Mark::Expanded, &[2]), false),
    (Version::One, Claim::Bound(0), LARGEST, ZERO, (0, Mark::Expanded, &[0, 1, 2]), false),
    (Version::One, Claim::Bound(0), ZERO, ZERO, START, true),
    (Version::One, Claim::Bound(0), (-2_147_483_647, &[2_147_483_647, -2_147_483_647]), ZERO, START, true),
    (Version::One, Claim::Bound(0), (-2_147_483_648, &[0, 0]), ZERO, START, false),
    (Version::One, Claim::Bound(0), (0, &[2_147_483_648, 0]), ZERO, START, false),
    (Version::One, Claim::Bound(0), (0, &[0, -2_147_483_648]), ZERO, START, false),
    // One weight too few, and one too many.
    (Version::One, Claim::Bound(0), (0, &[0]), ZERO, START, false),
    (Version::One, Claim::Bound(0), (0, &[0, 0, 0]), ZERO, START, false),
    (Version::One, Claim::Unsolvable, ZERO, ZERO, START, true),
    (Version::One, Claim::Unsolvable, ZERO, ZERO, (0, Mark::Dead { by: Basis::OfAll }, &[]), false),
    (Version::One, Claim::Unsolvable, ZERO, (1, &[0, 0]), START, false),
    (Version::One, Claim::Unsolvable, ZERO, (0, &[0, -1]), START, false),
    (Version::Two, Claim::Unsolvable, ZERO, ZERO, START, true),
    (Version::Two, Claim::Unsolvable, ZERO, (1, &[-1, 2_147_483_647]), (0, Mark::Dead { by: Basis::OfAll }, &[]), true),
    (Version::Two, Claim::Unsolvable, ZERO, (-2_147_483_647, &[0, 1]), (0, Mark::Cut { by: Basis::OfAll, rest: MOST }, &[]), true),
    (Version::Two, Claim::Unsolvable, ZERO, (2_147_483_648, &[0, 0]), (0, Mark::Dead { by: Basis::OfAll }, &[]), false),
    (Version::Two, Claim::Unsolvable, ZERO, (0, &[0, -2_147_483_648]), (0, Mark::Dead { by: Basis::OfAll }, &[]), false),
    (Version::Two, Claim::Unsolvable, ZERO, (0, &[0]), (0, Mark::Dead { by: Basis::OfAll }, &[]), false),
    // Lines by landmark values, of which there are none.
    (Version::Four, Claim::Bound(0), ZERO, ZERO, (0, Mark::Cut { by: Basis::OfAll, rest: 0 }, &[]), true),
    (Version::Four, Claim::Unsolvable, ZERO, ZERO, (0, Mark::Dead { by: Basis::OfAll }, &[]), true),
    (Version::Four, Claim::Bound(0), ZERO, ZERO, (0, Mark::Cut { by: Basis::Landmark(0), rest: 0 }, &[]), false),
    (Version::Four, Claim::Unsolvable, ZERO, ZERO, (0, Mark::Dead { by: Basis::Landmark(0) }, &[]), false),
];

/// The potential function with this constant and these weights.
fn potential(alloc: Global, weights: &Weights) -> Result<WrittenPotentials, AllocError> {
    let (constant, weights) = *weights;
    let weights = Vec::from_slice(alloc, weights)?;
    Ok(WrittenPotentials { constant, weights })
}

/// The set of these atoms.
pub(crate) fn atoms(alloc: Global, rows: &[Application]) -> Result<IndexSet<Atom>, NoMemory> {
    let mut atoms = IndexSet::new(alloc);
    for row in rows {
        atoms.insert(atom(row.0, row.1))?;
    }
    Ok(atoms)
}

/// The evidence with these weights of one value and of dead ends, with neither tables nor landmark values.
pub(crate) fn evidence(
    alloc: Global,
    value: &Weights,
    dead_ends: &Weights,
) -> Result<Evidence, NoMemory> {
    let values = vec![in alloc; potential(alloc, value)?]?;
    Ok(Evidence {
        values,
        dead_ends: potential(alloc, dead_ends)?,
        tables: Vec::new(alloc),
        landmarks: Landmarks::none(alloc),
    })
}

/// The header of the certificate, with the atoms of two predicates.
fn header(alloc: Global, row: &Row) -> Result<Header, NoMemory> {
    let atoms = atoms(alloc, &[(0, &[]), (1, &[])])?;
    Ok(Header {
        version: row.0,
        claim: row.1,
        exchanges: Vec::new(alloc),
        atoms,
        evidence: evidence(alloc, &row.2, &row.3)?,
    })
}

/// The line of the state.
fn line(alloc: Global, line: &Line) -> Result<StateLine, AllocError> {
    let (cost, mark, numbers) = *line;
    let atoms = numbers.to_vec(alloc)?;
    Ok(StateLine { cost, mark, atoms })
}

/// The number of lines of the certificate with these parts; `None` if there is no such certificate.
fn lines_of(alloc: Global, row: &Row) -> Result<Option<usize>, NoMemory> {
    let lines = vec![in alloc; line(alloc, &row.4)?]?;
    let cert = Cert::new(alloc, header(alloc, row)?, &lines)?;
    Ok(cert.as_ref().map(Cert::line_count))
}

#[test]
fn certificates_keep_their_limits(rt: HostRuntime) -> Result<(), Fail> {
    for (number, row) in ROWS.iter().enumerate() {
        let required = row.5.then_some(1);
        assert_eq!(rt; lines_of(rt.alloc(), row)?, required, "row {number}");
    }
    Ok(())
}
