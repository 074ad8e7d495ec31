//! Buffers a text until a line is complete.
ghost use Rattle.std.specs.Prelude.{◌≡◌, Err, IfOk, IsTrue};
ghost use Rattle.devices.specs.Devices.{CountsDevice};
ghost use Rattle.devices.specs.declared.device.IoFault.TheVariants.{Device as device_failed};
ghost use Rattle.certificate_reader.specs.Waiting.{waiting_of};
ghost use Rattle.certificate_reader.specs.Ready.{IsGrown, IsLineIn, IsReady, IsUnready, is_ready};

use crate::line::LONGEST_LINE;
use crate::waiting::Waiting;
use devices::{IoFault, Source};

/// What is buffered of a text.
#[derive(Clone, Copy)]
pub(crate) enum Ready {
    /// A line of this length, with its LF.
    Line(usize),
    /// A line that exceeds the maximum length, whether or not its LF has come.
    TooLong,
    /// The end of the text without the LF of a line.
    End,
}

/// Reads until a line, an overlong line or the end of the text is buffered.
pub(crate) fn await_line<S: Source>(waiting: &mut Waiting, source: &mut S) -> Result<Ready, IoFault>
    ensures grown { IfOk result (λ _. IsGrown (S.remaining source.old) (S.remaining source.new) (waiting_of waiting.old) (waiting_of waiting.new)) }
    ensures ready { IfOk result (IsReady (waiting_of waiting.new) (S.remaining source.new)) }
    ensures lazy { IsTrue (is_ready (waiting_of waiting.old)) → source.new ≡ source.old }
    ensures device { result ≡ Err device_failed → IsUnready (S.remaining source.old) (S.remaining source.new) (waiting_of waiting.old) (waiting_of waiting.new) }
    ensures failures { CountsDevice (S.failures source.old) (S.failures source.new) result }
{
    'reads: loop {
        if let Some(ready) = line_in(waiting) {
            return Ok(ready);
        }
        if waiting.fill(source)? == 0 {
            return Ok(Ready::End);
        }
    }
}

/// The buffered line or overlong line; `None` if there is neither.
fn line_in(waiting: &mut Waiting) -> Option<Ready>
    ensures line { IsLineIn (waiting_of waiting.old) result }
    ensures kept { waiting_of waiting.new ≡ waiting_of waiting.old }
{
    match waiting.line_end() {
        Some(end) if end <= LONGEST_LINE => Some(Ready::Line(end)),
        Some(_) => Some(Ready::TooLong),
        None if waiting.bytes().len() > LONGEST_LINE => Some(Ready::TooLong),
        None => None,
    }
}
