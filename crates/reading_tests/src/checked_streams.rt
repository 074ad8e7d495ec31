//! Tests of the checker: with endless certificates, and when no instance may be kept.
use cert_checker::RefusalCode::{CertForm, Limit, NotFluent, Repeated};
use cert_checker::{Accepted, Refusal, RefusalCode, check};
use certificate::CertReader;
use devices::Memory;
use std::alloc::{AllocError, Global};
use std::process::Abort;
use std::test::Fail;
use task::Task;
use test_support::{Endless, GO, PAIRS, Texts, UNTIED, on_task};

/// A certificate that there is no plan.
const NO_PLAN: &[u8] =
    b"pddl-cert 1\nclaim none\nconstant 0\natom 0 (on s1)\natom 0 (on s2)\natom 0 (on s3)\nopen 0\nopen 1 0 1\nopen 1 0 2\nopen 1 1 2\nend 4\n";

/// A certificate that repeats an atom.
const AGAIN: &[u8] = b"pddl-cert 1\nclaim none\nconstant 0\natom 0 (on s1)\natom 0 (on s1)\n";

/// The lines before the first atom.
const HEAD: &[u8] = b"pddl-cert 1\nclaim none\nconstant 0\n";

/// Texts, the bytes that follow them forever, and the first faulty line.
#[rattlefmt::skip]
static ENDLESS: [(&[u8], &[u8], RefusalCode, u64); 6] = [
    (AGAIN, b" ", Repeated, 5),
    (NO_PLAN, b" ", CertForm, 12),
    (b"", b"0", CertForm, 1),
    (HEAD, b"0", CertForm, 4),
    (HEAD, b"atom 0 (on s1)\n", Repeated, 5),
    (HEAD, b"atom 0 (on s9)\n", NotFluent, 4),
];

/// The fault and the line that the checker refuses of a text followed by these bytes forever, if it refuses a line.
fn refused_line(
    alloc: Global,
    task: &Task,
    text: &[u8],
    again: &[u8],
) -> Result<Option<(RefusalCode, u64)>, AllocError> {
    let again = again.repeat(alloc, 4_096)?;
    if again.is_empty() {
        return Ok(None);
    }
    let source = Endless::new(text.to_vec(alloc)?, again);
    let mut reader = CertReader::new(alloc, source);
    Ok(match check(alloc, task, &mut reader, None, 6) {
        Err(Refusal::Line { code, line }) => Some((code, line)),
        _ => None,
    })
}

/// The first faulty line is reported, whatever follows.
fn ends_are_reported(rt: &impl Abort, alloc: Global, task: &Task) -> Result<(), Fail> {
    for (number, (text, again, code, line)) in ENDLESS.iter().enumerate() {
        let refused = refused_line(alloc, task, *text, *again)?;
        assert_eq!(rt; refused, Some((*code, *line)), "row {number}");
    }
    Ok(())
}

#[test]
fn texts_without_an_end_are_refused(rt: HostRuntime) -> Result<(), Fail> {
    on_task(&rt, rt.alloc(), &PAIRS, ends_are_reported)
}

/// Tasks, certificates for them, and whether they are accepted when no instance may be kept: `GO` keeps one, `UNTIED` none.
#[rattlefmt::skip]
static NO_INSTANCE: [(Texts, &[u8], bool); 2] = [
    (GO, b"pddl-cert 1\nclaim bound 1\nconstant 0\natom 0 (p)\natom 0 (q)\nopen 0 0\ncut 1 0 0 1\nend 2\n", false),
    (UNTIED, b"pddl-cert 1\nclaim none\nconstant 0\natom 0 (tied)\nopen 0\nend 1\n", true),
];

/// When no instance may be kept, whether the checker accepts that there is no plan (`true`), or reports the limit (`false`).
fn without_instances(alloc: Global, task: &Task, text: &[u8]) -> Result<Option<bool>, AllocError> {
    let mut reader = CertReader::new(alloc, Memory::new(text.to_vec(alloc)?));
    Ok(match check(alloc, task, &mut reader, None, 0) {
        Ok(Accepted::Unsolvable) => Some(true),
        Err(Refusal::Plain(Limit)) => Some(false),
        _ => None,
    })
}

#[test]
fn no_instance_may_be_kept(rt: HostRuntime) -> Result<(), Fail> {
    for (texts, text, is_accepted) in &NO_INSTANCE {
        on_task(&rt, rt.alloc(), texts, |rt, alloc, task| {
            let answer = without_instances(alloc, task, *text)?;
            assert_eq!(rt; answer, Some(*is_accepted));
            Ok(())
        })?;
    }
    Ok(())
}
