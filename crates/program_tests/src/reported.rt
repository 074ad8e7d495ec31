//! Tests of the words for faults.
use devices::{DeviceFault, IoFault};
use faults::{Code, NoMemory, Span};
use planner_main::{File, FileFault};
use std::alloc::{AllocError, Global};
use std::test::Fail;

/// The faults of each file, as reported.
fn reported_files(alloc: Global) -> Result<String, Fail> {
    let mut reported = String::new(alloc);
    let (code, span) = (Code::BadForm, Span { start: 4, end: 17 });
    for file in [File::Domain, File::Problem, File::Plan] {
        write!(reported, "{file}: {}; ", FileFault::At { file, code, span })?;
    }
    Ok(reported)
}

/// The reports of memory and device failures.
fn reported_failures(alloc: Global) -> Result<String, AllocError> {
    let (of_memory, of_device) = (IoFault::NoMemory, IoFault::Device);
    let of_file = FileFault::NoMemory;
    format!(in alloc; "{NoMemory}, {of_memory}, {of_file}, {DeviceFault}, {of_device}")
}

#[test]
fn faults_are_reported_in_words(rt: HostRuntime) -> Result<(), Fail> {
    let reported = [reported_files(rt.alloc())?, reported_failures(rt.alloc())?];
    let files = "domain: BadForm in domain at 4..17; problem: BadForm in problem at 4..17; \
plan: BadForm in plan at 4..17; ";
    let failures = "out of memory, out of memory, out of memory, device failed, device failed";
    assert_eq!(rt;
        [reported[0].as_str(), reported[1].as_str()],
        [files, failures]
    );
    Ok(())
}
