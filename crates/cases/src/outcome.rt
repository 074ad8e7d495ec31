//! The actual results of a case, compared with the expected ones.
use crate::case::{Case, CaseFault};
use crate::clock::CaseClock;
use crate::stream::StreamDevice;
use devices::Timed;
use std::alloc::{AllocError, Global};

/// The texts of a case, and the byte that it is run for, if it lists some.
#[derive(Clone, Copy)]
pub struct CaseText<'a> {
    /// The sections that all cases of its file share.
    pub shared: &'a str,
    /// Its own sections, below its title.
    pub own: &'a str,
    /// The byte.
    pub byte: Option<u8>,
}

/// How a run ended.
#[derive(Drop)]
struct Ended {
    status: u8,
    out: StreamDevice,
    err: Timed<StreamDevice, CaseClock>,
}

/// How a case fails; `None` if it passes.
pub fn difference(alloc: Global, text: CaseText<'_>) -> Result<Option<String>, CaseFault> {
    let mut case = Case::new(alloc);
    filled_difference(alloc, &mut case, text)
}

/// The same, for a case filled from these texts.
fn filled_difference<'a>(
    alloc: Global,
    case: &mut Case<'a>,
    text: CaseText<'a>,
) -> Result<Option<String>, CaseFault> {
    case.take(alloc, text.shared, text.byte)?;
    case.take(alloc, text.own, text.byte)?;
    run(alloc, case)
}

/// Runs the command of a case: how its results differ; `None` if they do not.
fn run(alloc: Global, case: &mut Case<'_>) -> Result<Option<String>, CaseFault> {
    let Some(words) = &case.words else {
        return Err(CaseFault::NothingRun);
    };
    let mut out = case.out.device(alloc);
    let mut err = Timed {
        sink: case.err.device(alloc),
        clock: CaseClock::new(case.clock),
    };
    let status = planner_main::run(alloc, words, &mut case.files, &mut out, &mut err);
    let ended = Ended { status, out, err };
    Ok(reported_difference(alloc, case, &ended)?)
}

/// How the exit status, the output or the files differ; `None` if nothing does.
fn reported_difference(
    alloc: Global,
    case: &mut Case<'_>,
    ended: &Ended,
) -> Result<Option<String>, AllocError> {
    if u32::from(ended.status) != case.status {
        return Ok(Some(status_text(alloc, ended.status, case.status)?));
    }
    match stream_difference(alloc, case, ended)? {
        None => left_difference(alloc, case),
        found => Ok(found),
    }
}

/// How the remaining files, or the output of a further run over them, differ; `None` if they do not.
fn left_difference(alloc: Global, case: &mut Case<'_>) -> Result<Option<String>, AllocError> {
    match case.holdings.difference(alloc, &case.files.table)? {
        None => then_difference(alloc, case),
        found => Ok(found),
    }
}

/// How the output of the further run differs; `None` if it does not, or if there is no further run.
fn then_difference(alloc: Global, case: &mut Case<'_>) -> Result<Option<String>, AllocError> {
    match &case.then {
        Some(then) => then.difference(alloc, &mut case.files),
        None => Ok(None),
    }
}

/// How the output of the streams differs; `None` if it does not.
fn stream_difference(
    alloc: Global,
    case: &Case<'_>,
    ended: &Ended,
) -> Result<Option<String>, AllocError> {
    match case.err.difference(alloc, "stderr", &ended.err.sink)? {
        None => case.out.difference(alloc, "stdout", &ended.out),
        found => Ok(found),
    }
}

fn status_text(alloc: Global, status: u8, expected: u32) -> Result<String, AllocError> {
    format!(in alloc; "status is {status}, and not {expected}")
}
