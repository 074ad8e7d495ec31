//! Writes lines of progress to a sink. A failing sink changes nothing else.
ghost use Rattle.devices.specs.Devices.{IsWritten};

use crate::device::{IoFault, Sink, write_all};

/// Writes a line, as far as the sink takes it.
pub fn say_line<E: Sink>(err: &mut E, line: &[u8])
    ensures { IsWritten E.may_lack_memory (E.failures err.old) (E.failures err.new) (E.taken err.old) (E.taken err.new) line.now }
{
    let _ = write_all(err, line);
}

/// A sink that discards everything.
#[derive(Drop)]
pub struct Unheard;

impl Sink for Unheard {
    ghost use Rattle.std.specs.Prelude.{None};

    ghost failures = { λ _. 0 };

    ghost taken = { λ _. None };

    fn write(&mut self, piece: &[u8]) -> Result<usize, IoFault> {
        Ok(piece.len())
    }
}
