//! The program `optplan`: `planner_main` over the machine's files and streams.
#![tactic(auto)]

mod looks;
mod machine;
mod replayed;

use crate::looks::{look_at, look_line};
use crate::machine::MachineFiles;
use command_line::{Order, WordsFault, fills_the_output, is_stream, read_words};
use devices::{Clock, Device, Sink, SystemClock, Timed, write_all};
use planner_main::{report_no_memory, run};
use std::alloc::AllocError;
use std::process::ExitCode;
use std::{env, io};

/// The exit status of an I/O error.
const DEVICE: u8 = 21;

fn main(rt: HostRuntime) -> ExitCode {
    let clock = SystemClock::start(&rt);
    let arguments = arguments(&rt);
    let words: Result<Vec<&str>, AllocError> = match &arguments {
        Ok(arguments) => arguments
            .iter()
            .map(|word| word.as_str())
            .collect(rt.alloc()),
        Err(AllocError) => Err(AllocError),
    };
    let mut err = Timed {
        sink: Device::new(rt.stderr()),
        clock,
    };
    let status = match words {
        Ok(words) => answer(&rt, &words, &mut err),
        Err(AllocError) => report_no_memory(&mut err),
    };
    ExitCode::from(status)
}

/// Carries out what the words ask for, and returns the exit status. The answer goes to the standard output, or if that takes a file,
/// to the standard error.
fn answer<E: Sink + Clock>(rt: &HostRuntime, words: &[&str], err: &mut E) -> u8 {
    let mut files = MachineFiles::new(rt);
    let status = match is_output_taken(rt, words) {
        Ok(false) => {
            let mut out = Device::new(rt.stdout());
            run(rt.alloc(), words, &mut files, &mut out, err)
        }
        Ok(true) => {
            let mut out = Device::new(rt.stderr());
            run(rt.alloc(), words, &mut files, &mut out, err)
        }
        Err(AllocError) => report_no_memory(err),
    };
    if status == DEVICE {
        report_files(rt, words, err);
    }
    status
}

/// Whether a file is written to the standard output.
fn is_output_taken(rt: &HostRuntime, words: &[&str]) -> Result<bool, AllocError> {
    match read_words(rt.alloc(), words) {
        Ok(order) => Ok(fills_the_output(&order)),
        // `run` reports what is wrong with them.
        Err(WordsFault::Words(_)) => Ok(false),
        Err(WordsFault::NoMemory) => Err(AllocError),
    }
}

/// The arguments after the program's name; none if one of them is not valid text.
fn arguments(rt: &HostRuntime) -> Result<Vec<String>, AllocError> {
    match env::args(rt) {
        Ok(arguments) => arguments.skip(1).collect(rt.alloc()),
        Err(error) if error.kind() == io::ErrorKind::OutOfMemory => Err(AllocError),
        Err(_) => Ok(Vec::new(rt.alloc())),
    }
}

/// After an I/O error of `explain`: reports the problem of the first file that cannot be read.
fn report_files<E: Sink>(rt: &HostRuntime, words: &[&str], err: &mut E) {
    let (domain, problem, cert, plan) = match read_words(rt.alloc(), words) {
        Ok(
            Order::Explain {
                domain,
                problem,
                plan,
                ..
            },
        ) => (domain, problem, problem, plan),
        Ok(
            Order::ExplainCert {
                domain,
                problem,
                cert,
                plan,
                ..
            },
        ) => (domain, problem, cert, plan),
        _ => return,
    };
    let _ = report_file(rt, domain, err)
        || report_file(rt, problem, err)
        || report_file(rt, cert, err)
        || report_file(rt, plan.unwrap_or(problem), err);
}

/// Reports the problem of the file with this name, as far as a second attempt shows. Returns whether there was one. Of the standard
/// input there is no second attempt.
fn report_file<E: Sink>(rt: &HostRuntime, name: &str, err: &mut E) -> bool {
    if is_stream(name) {
        return false;
    }
    let Some(found) = look_at(rt, name) else {
        return false;
    };
    if let Ok(line) = look_line(rt.alloc(), name, found) {
        let _ = write_all(err, line.as_bytes());
    }
    true
}
