//! Tests of a certificate of version 4, whose lines rest on a landmark value: it is written, and its text is read back.
use crate::certificates::{atoms, evidence};
use certificate::{
    Basis, Cert, CertLine, CertReader, Claim, Evidence, Header, Landmarks, Mark, PartLine, Share,
    StateLine, Version, ZoneRef, write_cert,
};
use devices::Memory;
use faults::NoMemory;
use std::alloc::{AllocError, Global};
use std::test::Fail;
use test_support::{GO, on_task};

/// The text of the certificate, over the atoms of `GO`.
const TEXT: &[u8] =
    b"pddl-cert 4\nclaim bound 4\nconstant 0 0\natom 0 0 (p)\natom 0 0 (q)\nzone 1\nzone 0 not 1\nmarks 0 3 1 5\nopen 0 0\ncut-by 0 1 3 1\ndead-by 0 2 0 1\nend 3\n";

/// The weights of the landmark value's two zones.
const SHARES: [Share; 2] = [Share { zone: 0, weight: 3 }, Share { zone: 1, weight: 5 }];

/// The states: their costs, roles and atoms.
#[rattlefmt::skip]
static STATES: [(u64, Mark, &[u32]); 3] = [
    (0, Mark::Expanded, &[0]),
    (1, Mark::Cut { by: Basis::Landmark(0), rest: 3 }, &[1]),
    (2, Mark::Dead { by: Basis::Landmark(0) }, &[0, 1]),
];

/// Two zones, and a landmark value over them.
fn landmarks(alloc: Global) -> Result<Landmarks, NoMemory> {
    let mut landmarks = Landmarks::none(alloc);
    landmarks.push_zone(ZoneRef {
        atoms: &[1],
        negated: &[],
    })?;
    landmarks.push_zone(ZoneRef {
        atoms: &[0],
        negated: &[1],
    })?;
    landmarks.push_value(&SHARES)?;
    Ok(landmarks)
}

/// The header of the certificate.
fn header(alloc: Global) -> Result<Header, NoMemory> {
    let evidence = evidence(alloc, &(0, &[0, 0]), &(0, &[0, 0]))?;
    Ok(Header {
        version: Version::Four,
        claim: Claim::Bound(4),
        exchanges: Vec::new(alloc),
        atoms: atoms(alloc, &[(0, &[]), (1, &[])])?,
        evidence: Evidence {
            landmarks: landmarks(alloc)?,
            ..evidence
        },
    })
}

/// The lines of the states.
fn states(alloc: Global) -> Result<Vec<StateLine>, AllocError> {
    let mut lines = Vec::new(alloc);
    for (cost, mark, numbers) in &STATES {
        lines.push(StateLine {
            cost: *cost,
            mark: *mark,
            atoms: numbers.to_vec(alloc)?,
        })?;
    }
    Ok(lines)
}

/// The certificate.
fn cert(alloc: Global) -> Result<Option<Cert>, NoMemory> {
    let lines = states(alloc)?;
    Cert::new(alloc, header(alloc)?, &lines)
}

#[test]
fn a_certificate_with_landmark_values_is_written(rt: HostRuntime) -> Result<(), Fail> {
    let cert = cert(rt.alloc())?.ok_or("beyond the limits")?;
    on_task(&rt, rt.alloc(), &GO, |rt, alloc, task| {
        let mut out = Memory::empty(alloc);
        let written = write_cert(alloc, task, &cert, &mut out);
        assert!(rt; written.is_ok() && out.as_slice() == TEXT);
        Ok(())
    })
}

/// The line of a zone with these atoms and these negated ones.
fn zone_line(alloc: Global, atoms: &[u32], negated: &[u32]) -> Result<CertLine, AllocError> {
    let atoms = atoms.to_vec(alloc)?;
    let negated = negated.to_vec(alloc)?;
    Ok(CertLine::Part(PartLine::Zone { atoms, negated }))
}

/// The line of the landmark value.
fn value_line(alloc: Global) -> Result<CertLine, AllocError> {
    let shares = SHARES.to_vec(alloc)?;
    Ok(CertLine::Part(PartLine::Landmark { shares }))
}

/// The lines of the zones, of the landmark value, and of the states.
fn required(alloc: Global) -> Result<Vec<CertLine>, AllocError> {
    let mut lines = Vec::new(alloc);
    lines.push(zone_line(alloc, &[1], &[])?)?;
    lines.push(zone_line(alloc, &[0], &[1])?)?;
    lines.push(value_line(alloc)?)?;
    for line in states(alloc)? {
        lines.push(CertLine::Listed(line))?;
    }
    Ok(lines)
}

/// All lines of the text; `None` if it is not that of a certificate.
fn read(alloc: Global, text: &[u8]) -> Result<Option<Vec<CertLine>>, AllocError> {
    let mut reader = CertReader::new(alloc, Memory::new(text.to_vec(alloc)?));
    let mut lines = Vec::new(alloc);
    for _ in 0..text.len() {
        match reader.next_line() {
            Ok(Some(line)) => lines.push(line)?,
            Ok(None) => return Ok(Some(lines)),
            Err(_) => return Ok(None),
        }
    }
    Ok(None)
}

#[test]
fn lines_of_landmark_values_are_read_back(rt: HostRuntime) -> Result<(), Fail> {
    let alloc = rt.alloc();
    let lines = read(alloc, TEXT)?.ok_or("no certificate")?;
    let required = required(alloc)?;
    assert!(rt; lines.len() == 12 && lines[5..11] == required[..]);
    Ok(())
}
