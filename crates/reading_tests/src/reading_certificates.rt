//! Tests of reading endless certificate texts: the first line beyond a limit is reported, and then nothing else.
use certificate::{CertFault, CertReader, TextFault};
use devices::Source;
use std::alloc::Global;
use std::test::Fail;
use test_support::Endless;

/// The fault with this code at this line.
const fn at_line(code: TextFault, line: u64) -> CertFault {
    CertFault::Line { code, line }
}

/// The number of lines returned, and the fault after them; `None` if the text is a certificate.
type Reported = (u64, Option<CertFault>);

/// What the reader reports; `None` if it never ends.
fn reported<S: Source>(reader: &mut CertReader<S>) -> Option<Reported> {
    for count in 0..17_000_000 {
        match reader.next_line() {
            Ok(Some(_)) => {}
            Ok(None) => return Some((count, None)),
            Err(fault) => {
                let still = reader.next_line();
                return (still == Err(CertFault::Failed)).then_some((count, Some(fault)));
            }
        }
    }
    None
}

/// The reader's report for the text that the source gives.
fn reads<S: Source + Drop>(alloc: Global, source: S) -> Option<Reported> {
    reported(&mut CertReader::new(alloc, source))
}

#[test]
fn one_atom_more_than_there_may_be_is_reported(rt: HostRuntime) -> Result<(), Fail> {
    let alloc = rt.alloc();
    let head = b"pddl-cert 1\nclaim none\nconstant 0\n".to_vec(alloc)?;
    let again = b"atom 0 (lit)\n".repeat(alloc, 5_000)?;
    let limit = Some((1_048_579, Some(at_line(TextFault::Limit, 1_048_580))));
    assert!(rt; reads(alloc, Endless::new(head, again)) == limit);
    Ok(())
}

#[test]
fn one_state_more_than_there_may_be_is_reported(rt: HostRuntime) -> Result<(), Fail> {
    let alloc = rt.alloc();
    let head = b"pddl-cert 1\nclaim none\nconstant 0\n".to_vec(alloc)?;
    let again = b"open 0\n".repeat(alloc, 9_000)?;
    let limit = Some((16_777_219, Some(at_line(TextFault::Limit, 16_777_220))));
    assert!(rt; reads(alloc, Endless::new(head, again)) == limit);
    Ok(())
}
