//! Progress reports while a certificate is read.
ghost use Rattle.std.specs.Prelude.{◌≡◌, IfOk};
ghost use Rattle.std.specs.String.{string_bytes};
ghost use Rattle.cert_checker.specs.ReadProgress.{lines_line};
ghost use Rattle.devices.specs.Progress.{AreSaid, stream};

use devices::{Sink, say_line};
use std::alloc::{AllocError, Global};

/// The number of lines at which the first report is made.
pub(crate) const FIRST_REPORT: u64 = 1_024;

/// Reports the number of lines read if the report is due, and returns when the next one is: at twice as many.
pub(crate) fn say_if_due<E: Sink>(alloc: Global, lines: u64, due: u64, err: &mut E) -> u64
    ensures { AreSaid (λ line. line ≡ lines_line lines) E.may_lack_memory (stream (E.failures err.old) (E.taken err.old)) (stream (E.failures err.new) (E.taken err.new)) }
{
    if lines < due {
        return due;
    }
    say_lines(alloc, lines, err);
    due.saturating_mul(2)
}

/// Reports the number of lines read. If an allocation for the line fails, nothing is reported.
fn say_lines<E: Sink>(alloc: Global, lines: u64, err: &mut E)
    ensures { AreSaid (λ line. line ≡ lines_line lines) E.may_lack_memory (stream (E.failures err.old) (E.taken err.old)) (stream (E.failures err.new) (E.taken err.new)) }
{
    if let Ok(line) = lines_line(alloc, lines) {
        say_line(err, line.as_bytes());
    }
}

fn lines_line(alloc: Global, lines: u64) -> Result<String, AllocError>
    ensures { IfOk result (λ line. string_bytes line ≡ lines_line lines) }
{
    format!(in alloc; "progress=read lines={lines}\n")
}
