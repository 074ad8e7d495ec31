//! Tests of certificates written to sinks that fail.
use crate::certificates::{Weights, atoms, evidence};
use certificate::{Basis, Cert, Claim, Header, Mark, StateLine, Version, write_cert};
use devices::{IoFault, Memory};
use faults::NoMemory;
use std::alloc::{AllocError, Global};
use std::process::Abort;
use std::test::Fail;
use task::Task;
use test_support::{Application, FailsAt, GO, InPieces, on_task};

/// The number of atoms of the certificates: the two of `GO`, and others, for which the task has no names.
const ATOMS: u32 = 12;

/// The atoms of a state: the positions of the ones in its binary number.
fn atoms_of(alloc: Global, state: u32) -> Result<Vec<u32>, AllocError> {
    let mut atoms = Vec::new(alloc);
    for atom in 0..ATOMS {
        if state >> atom & 1 == 1 {
            atoms.push(atom)?;
        }
    }
    Ok(atoms)
}

/// The number of states, whose text exceeds the writer's buffer.
const MANY: u32 = 4_000;

/// The lines of the states, which are dead ends.
fn lines(alloc: Global) -> Result<Vec<StateLine>, AllocError> {
    let mut lines = Vec::new(alloc);
    for state in 0..MANY {
        lines.push(StateLine {
            cost: 0,
            mark: Mark::Dead { by: Basis::OfAll },
            atoms: atoms_of(alloc, state)?,
        })?;
    }
    Ok(lines)
}

/// The atoms, each with a predicate of its own.
#[rattlefmt::skip]
static NAMED: [Application; 12] = [
    (0, &[]), (1, &[]), (2, &[]), (3, &[]), (4, &[]), (5, &[]),
    (6, &[]), (7, &[]), (8, &[]), (9, &[]), (10, &[]), (11, &[]),
];

/// A value of 0; only the state without atoms counts as a dead end.
const VALUE: Weights = (0, &[0, 0, 0, 0, 0, 0, 0, 0, 0, 0, 0, 0]);

const DEAD_ENDS: Weights = (1, &[-1, -1, -1, -1, -1, -1, -1, -1, -1, -1, -1, -1]);

/// The header of the certificate.
fn header(alloc: Global) -> Result<Header, NoMemory> {
    let atoms = atoms(alloc, &NAMED)?;
    Ok(Header {
        version: Version::Two,
        claim: Claim::Bound(0),
        exchanges: Vec::new(alloc),
        atoms,
        evidence: evidence(alloc, &VALUE, &DEAD_ENDS)?,
    })
}

/// The certificate that lists the states as dead ends.
fn cert(alloc: Global) -> Result<Option<Cert>, NoMemory> {
    let lines = lines(alloc)?;
    Cert::new(alloc, header(alloc)?, &lines)
}

/// A certificate, and the task that has the names of its text.
#[derive(Clone, Copy)]
struct NamedCert<'a> {
    task: &'a Task,
    cert: &'a Cert,
}

/// The result of writing, and the bytes taken, if the sink takes a thousand bytes per write and the write after this many fails.
fn taken(alloc: Global, named: NamedCert<'_>, writes: u64) -> (Result<(), IoFault>, Vec<u8>) {
    let pieces = InPieces::new(Memory::empty(alloc), 1_000);
    let mut sink = FailsAt::sink(pieces, Some(writes));
    let written = write_cert(alloc, named.task, named.cert, &mut sink);
    (written, sink.inner.inner.into_vec())
}

/// More writes than the text takes.
const MOST_WRITES: u64 = 90;

/// The size of the writer's buffer, which the text exceeds.
const HELD: usize = 65_536;

/// Whether a sink that fails at the write after this many has a beginning of the text; one piece may have been shorter.
fn has_beginning(alloc: Global, named: NamedCert<'_>, text: &[u8], writes: u64) -> bool {
    let (written, taken) = taken(alloc, named, writes);
    let most = writes.saturating_mul(1_000);
    let count = taken.len() as u64;
    match written {
        Ok(()) => taken.as_slice() == text,
        Err(_) => text.starts_with(&taken) && count <= most && most < count.saturating_add(1_000),
    }
}

/// A sink that would fail only after the end of the text does not fail, and one that fails earlier has a beginning of it.
fn begins_where_a_write_fails(rt: &impl Abort, alloc: Global, named: NamedCert<'_>) {
    let (written, text) = taken(alloc, named, MOST_WRITES);
    assert!(rt; written.is_ok() && text.len() > HELD && text.ends_with(b"\nend 4000\n"));
    for writes in 0..MOST_WRITES {
        assert!(rt; has_beginning(alloc, named, &text, writes), "{writes}");
    }
}

#[test]
fn a_certificate_is_begun_where_a_write_fails(rt: HostRuntime) -> Result<(), Fail> {
    let cert = cert(rt.alloc())?.ok_or("beyond the limits")?;
    on_task(&rt, rt.alloc(), &GO, |rt, alloc, task| {
        let cert = &cert;
        begins_where_a_write_fails(rt, alloc, NamedCert { task, cert });
        Ok(())
    })
}
