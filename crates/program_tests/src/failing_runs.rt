//! Tests of runs over files whose writing fails, and over endless files.
use crate::failing_files::{EndlessFiles, Failing, FailingFiles};
use devices::{Files, Memory};
use faults::NoMemory;
use planner_main::run;
use std::alloc::Global;
use std::process::Abort;
use std::test::Fail;
use test_support::{HOP, Table};

/// The text of two hops.
pub(crate) const TWO_HOPS: &[u8] = b"(hop a b)\n(hop b c)\n; cost = 6\n";

/// The earlier contents of the plan file.
pub(crate) const OLDER: &[u8] = b"(leap a c)\n; cost = 10\n; it is dearer\n";

/// The bytes taken of the two hops in pieces of seven if the first write fails, or the second, and so on.
#[rattlefmt::skip]
static BEGINNINGS: [&[u8]; 5] = [
    b"", b"(hop a ", b"(hop a b)\n(hop", b"(hop a b)\n(hop b c)\n;", b"(hop a b)\n(hop b c)\n; cost =",
];

/// An order for a plan, with its text in a file.
const SOLVE: [&str; 5] = ["solve", "domain", "problem", "--plan", "out"];

/// The files of the hops, and an older plan file.
pub(crate) fn table(alloc: Global) -> Result<Table, NoMemory> {
    let mut table = Table::new(alloc);
    table.put("domain", HOP[0].as_bytes())?;
    table.put("problem", HOP[1].as_bytes())?;
    table.put("out", OLDER)?;
    Ok(table)
}

/// What a run leaves: its exit status, the standard output and the standard error.
#[derive(Drop)]
pub(crate) struct Ran {
    pub(crate) status: u8,
    pub(crate) out: Memory,
    err: Memory,
}

/// What a run with these words leaves.
pub(crate) fn run_with<F: Files>(alloc: Global, words: &[&str], files: &mut F) -> Ran {
    let (mut out, mut err) = (Memory::empty(alloc), Memory::empty(alloc));
    let status = run(alloc, words, files, &mut out, &mut err);
    Ran { status, out, err }
}

/// An exit status, the contents of the plan file, and the standard output.
#[derive(Clone, Copy)]
struct Left<'a> {
    status: u8,
    file: &'a [u8],
    out: &'a [u8],
}

/// Nothing fails.
const WHOLE: Left<'static> = Left {
    status: 0,
    file: TWO_HOPS,
    out: TWO_HOPS,
};

/// A device fails before the plan file is created.
const NOTHING: Left<'static> = Left {
    status: 21,
    file: OLDER,
    out: b"",
};

/// Whether a run leaves this if this operation on the plan file fails. Standard error reports a failed device, and nothing
/// otherwise.
fn leaves_where(alloc: Global, failing: Failing, required: Left<'_>) -> Result<bool, NoMemory> {
    let mut files = FailingFiles::new(table(alloc)?, failing);
    let ran = run_with(alloc, &SOLVE, &mut files);
    let reported: &[u8] = if ran.status == 21 {
        b"fault 61 Device\n"
    } else {
        b""
    };
    Ok(
        ran.status == required.status
            && files.table.get("out") == Some(required.file)
            && ran.out.as_slice() == required.out
            && ran.err.as_slice() == reported,
    )
}

/// A plan file that fails at a write has a prefix of the plan.
fn fails_at_each_write(rt: &impl Abort, alloc: Global) -> Result<(), Fail> {
    for (writes, file) in BEGINNINGS.iter().enumerate() {
        let required = Left {
            file: *file,
            ..NOTHING
        };
        assert!(rt; leaves_where(alloc, Failing::Write(writes as u64), required)?);
    }
    Ok(())
}

/// Whether a run leaves the whole plan if only a write after the last would fail, and if nothing fails.
fn leaves_the_whole(alloc: Global) -> Result<[bool; 2], NoMemory> {
    let following = Failing::Write(BEGINNINGS.len() as u64);
    Ok([
        leaves_where(alloc, following, WHOLE)?,
        leaves_where(alloc, Failing::Never, WHOLE)?,
    ])
}

#[test]
fn a_file_that_fails_has_a_beginning_of_the_plan(rt: HostRuntime) -> Result<(), Fail> {
    fails_at_each_write(&rt, rt.alloc())?;
    assert_eq!(rt; leaves_the_whole(rt.alloc())?, [true, true]);
    Ok(())
}

/// Whether a run leaves what it should if the plan file cannot be created, and if it cannot be closed.
fn leaves_made_or_closed(alloc: Global) -> Result<[bool; 2], NoMemory> {
    let closed = Left {
        file: TWO_HOPS,
        ..NOTHING
    };
    Ok([
        leaves_where(alloc, Failing::Creating, NOTHING)?,
        leaves_where(alloc, Failing::Closing, closed)?,
    ])
}

#[test]
fn a_file_may_fail_where_it_is_made_or_closed(rt: HostRuntime) -> Result<(), Fail> {
    assert_eq!(rt; leaves_made_or_closed(rt.alloc())?, [true, true]);
    Ok(())
}

/// The same order, with progress reports.
const SOLVE_AND_SAY: [&str; 6] = ["solve", "domain", "problem", "--plan", "out", "--progress"];

/// Whether standard error ends with the name of the failing file, if this operation on it fails.
fn says_which(alloc: Global, failing: Failing) -> Result<bool, NoMemory> {
    let mut files = FailingFiles::new(table(alloc)?, failing);
    let ran = run_with(alloc, &SOLVE_AND_SAY, &mut files);
    let last = b"\nprogress=failed file=out\nfault 61 Device\n".as_slice();
    Ok(ran.status == 21 && ran.err.as_slice().ends_with(last))
}

/// The same if the file cannot be created, if it cannot be closed, and if its first write fails.
fn says_which_of_each(alloc: Global) -> Result<[bool; 3], NoMemory> {
    Ok([
        says_which(alloc, Failing::Creating)?,
        says_which(alloc, Failing::Closing)?,
        says_which(alloc, Failing::Write(0))?,
    ])
}

#[test]
fn the_file_that_fails_is_named(rt: HostRuntime) -> Result<(), Fail> {
    assert_eq!(rt; says_which_of_each(rt.alloc())?, [true, true, true]);
    Ok(())
}

/// Whether a run over endless files reports that the domain is too long, and nothing else.
fn is_too_long(alloc: Global) -> bool {
    let ran = run_with(alloc, &SOLVE, &mut EndlessFiles::new(alloc));
    let reported = b"fault 5 TooLong in domain at 16777216..16777217\n".as_slice();
    ran.status == 20 && ran.out.as_slice().is_empty() && ran.err.as_slice() == reported
}

#[test]
fn a_domain_without_an_end_is_too_long(rt: HostRuntime) {
    assert!(rt; is_too_long(rt.alloc()));
}
