//! Tests of the output order: the certificate file comes before the plan file, and both before standard output.
use crate::failing_files::{Failing, FailingFiles, WRITE_PIECE};
use crate::failing_runs::{OLDER, TWO_HOPS, run_with, table};
use std::alloc::Global;
use std::process::Abort;
use std::test::Fail;

/// An order for a plan and a certificate, each in a file.
const SOLVE: [&str; 7] = [
    "solve", "domain", "problem", "--plan", "out", "--cert", "cert",
];

/// Whether a run with this failure of written files ends with this status and leaves these contents of the certificate file, the
/// plan file and standard output.
fn leaves(
    alloc: Global,
    failing: Failing,
    status: u8,
    left: [Option<&[u8]>; 3],
) -> Result<bool, Fail> {
    let mut files = FailingFiles::new(table(alloc)?, failing);
    let ran = run_with(alloc, &SOLVE, &mut files);
    let [certificate, plan, reported] = left;
    Ok(
        ran.status == status
            && files.table.get("cert") == certificate
            && files.table.get("out") == plan
            && Some(ran.out.as_slice()) == reported,
    )
}

/// What a run without failures writes to the certificate file.
fn certificate(alloc: Global) -> Result<Vec<u8>, Fail> {
    let mut files = FailingFiles::new(table(alloc)?, Failing::Never);
    let _ = run_with(alloc, &SOLVE, &mut files);
    let written = files.table.get("cert").ok_or("no certificate")?;
    Ok(Vec::from_slice(alloc, written)?)
}

/// A certificate file that fails at a write has what was written before.
fn fails_at_each_write(rt: &impl Abort, alloc: Global, certificate: &[u8]) -> Result<(), Fail> {
    for count in 0..certificate.len().div_ceil(WRITE_PIECE) {
        let beginning = certificate.get(..count * WRITE_PIECE);
        let left = [beginning, Some(OLDER), Some(b"")];
        assert!(rt; leaves(alloc, Failing::Write(count as u64), 21, left)?);
    }
    Ok(())
}

/// The certificate file fails after its last write, on creation, and on closing.
fn fails_before_and_after(rt: &impl Abort, alloc: Global, certificate: &[u8]) -> Result<(), Fail> {
    let writes = certificate.len().div_ceil(WRITE_PIECE) as u64;
    let rows = [
        (
            Failing::Write(writes),
            0,
            [Some(certificate), Some(TWO_HOPS), Some(TWO_HOPS)],
        ),
        (Failing::Creating, 21, [None, Some(OLDER), Some(b"")]),
        (
            Failing::Closing,
            21,
            [Some(certificate), Some(OLDER), Some(b"")],
        ),
    ];
    for (number, (failing, status, left)) in rows.iter().enumerate() {
        assert!(rt; leaves(alloc, *failing, *status, *left)?, "row {number}");
    }
    Ok(())
}

#[test]
fn a_certificate_that_fails_leaves_the_plan_unwritten(rt: HostRuntime) -> Result<(), Fail> {
    let certificate = certificate(rt.alloc())?;
    fails_at_each_write(&rt, rt.alloc(), &certificate)?;
    fails_before_and_after(&rt, rt.alloc(), &certificate)
}
