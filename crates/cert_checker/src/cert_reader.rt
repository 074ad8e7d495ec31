//! Reading a certificate of a task from its text.
ghost use Rattle.std.specs.Prelude.{IfErr, IfOk};
ghost use Rattle.task.specs.Task.{task_of};
ghost use Rattle.certificate_reader.specs.Reader.{source_of};
ghost use Rattle.cert_checker.specs.Reading.{CountsRefusal, IsFresh, IsLineRefusal, IsRead};
ghost use Rattle.cert_checker.specs.ReadProgress.{IsReadLine};
ghost use Rattle.cert_checker.specs.Tabled.{AreWeighedIn};
ghost use Rattle.devices.specs.Progress.{AreSaid, stream};
ghost use Rattle.certificate.specs.Certificate.{certificate_of};

use crate::header::read_header;
use crate::listed_states::take_line;
use crate::read_progress::{FIRST_REPORT, say_if_due};
use crate::refusal::Refusal;
use certificate::{Cert, CertReader, States};
use devices::{Sink, Source};
use std::alloc::Global;
use task::Task;

/// Reads a certificate, resolving each line in the terms of the task.
///
/// # Errors
/// The first faulty line: 40 to 42, and 55 without its line, by the rules of the text; also 40 if a row has an atom outside its
/// table's scope; 43 if its atom does not belong to the task, or no action changes its predicate; 44 if its atom, its state, or
/// its row of a table, occurred in an earlier line; 52 if it is a cut although the claim is that no plan solves the task.
/// [`Refusal::Device`] if the device failed; [`Refusal::NoMemory`] if an allocation failed.
///
/// Progress is reported by the number of lines read, at 1,024 and at each doubling.
pub(crate) fn read_cert<R: Source, E: Sink>(
    alloc: Global,
    task: &Task,
    reader: &mut CertReader<R>,
    err: &mut E,
) -> Result<Cert, Refusal>
    requires fresh { IsFresh reader.old }
    ensures read { IfOk result (λ cert. IsRead R.remaining (task_of task.now) reader.old reader.new (certificate_of cert)) }
    ensures weighed { IfOk result AreWeighedIn }
    ensures refused { IfErr result (IsLineRefusal R.remaining (task_of task.now) reader.old reader.new) }
    ensures failures { CountsRefusal (R.failures (source_of reader.old)) (R.failures (source_of reader.new)) result }
    ensures said { AreSaid (IsReadLine (R.remaining (source_of reader.old))) E.may_lack_memory (stream (E.failures err.old) (E.taken err.old)) (stream (E.failures err.new) (E.taken err.new)) }
{
    let (header, mut next) = read_header(alloc, task, reader)?;
    let mut states = States::new(alloc, header.atoms.len() as u32)?;
    let mut due = FIRST_REPORT;
    'states: while let Some(line) = next {
        let number = reader.lines();
        due = say_if_due(alloc, number, due, err);
        take_line(&mut states, alloc, header.claim, line, number)?;
        next = reader.next_line()?;
    }
    Ok(Cert::from_parts(header, states))
}
