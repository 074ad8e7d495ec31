//! The next line of a text, read at the current stage.
ghost use Rattle.std.specs.Prelude.{◌≡◌, ◌≢◌, IsTrue, []};
ghost use Rattle.certificate_reader.specs.Waiting.{waiting_of};
ghost use Rattle.certificate_reader.specs.Ready.{is_ready};
ghost use Rattle.certificate_reader.specs.Stages.{IsWithin, place_of};
ghost use Rattle.certificate_reader.specs.Next.{CountsFault, HasEnd, IsEnd, IsNext, IsTaken};
ghost use Rattle.devices.specs.Devices.{CountsDevice};

use crate::fault::{NextFault, TextFault};
use crate::line::CertLine;
use crate::ready::{Ready, await_line};
use crate::stage::{Stage, read_line};
use crate::waiting::Waiting;
use devices::{IoFault, Source};
use std::alloc::Global;

/// The next line and the stage after it. The source is read only if no line is buffered.
pub(crate) fn next_line<S: Source>(
    alloc: Global,
    stage: Stage,
    waiting: &mut Waiting,
    source: &mut S,
) -> Result<(CertLine, Stage), NextFault>
    requires within { IsWithin (place_of stage) }
    ensures next { IsNext (place_of stage) (waiting_of waiting.old) (waiting_of waiting.new) (S.remaining source.old) (S.remaining source.new) result }
    ensures lazy { IsTrue (is_ready (waiting_of waiting.old)) → source.new ≡ source.old }
    ensures failures { CountsFault (S.failures source.old) (S.failures source.new) result }
{
    match await_line(waiting, source)? {
        Ready::Line(end) => take_line(alloc, stage, waiting, end),
        Ready::TooLong => Err(NextFault::Text(TextFault::Form)),
        Ready::End => Err(NextFault::Text(TextFault::Truncated)),
    }
}

/// The buffered line with this length.
fn take_line(
    alloc: Global,
    stage: Stage,
    waiting: &mut Waiting,
    end: usize,
) -> Result<(CertLine, Stage), NextFault>
    requires within { IsWithin (place_of stage) }
    requires line { HasEnd (waiting_of waiting.old) end }
    ensures { IsTaken (place_of stage) (waiting_of waiting.old) (waiting_of waiting.new) result }
{
    let read = read_line(alloc, stage, &waiting.bytes()[..end])?;
    waiting.pass(end + 1);
    Ok(read)
}

/// Whether nothing follows the last line. The source is read only if nothing is buffered.
pub(crate) fn is_at_end<S: Source>(waiting: &mut Waiting, source: &mut S) -> Result<bool, IoFault>
    ensures end { IsEnd (waiting_of waiting.old) (waiting_of waiting.new) (S.remaining source.old) (S.remaining source.new) result }
    ensures lazy { waiting_of waiting.old ≢ [] → source.new ≡ source.old }
    ensures failures { CountsDevice (S.failures source.old) (S.failures source.new) result }
{
    if !waiting.bytes().is_empty() {
        return Ok(false);
    }
    Ok(waiting.fill(source)? == 0)
}
