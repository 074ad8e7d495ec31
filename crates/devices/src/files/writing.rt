//! Texts that can be written to any device.
ghost use Rattle.std.specs.Prelude.{◌≡◌, ℕ, List, OnOk};
ghost use Rattle.std.specs.Io.KnownBytes.{Appends};
ghost use Rattle.devices.specs.Devices.{AppendsBeginning, CountsDevice};

use crate::device::{IoFault, Sink, write_all};

/// A text that can be written to any device.
pub trait Document {
    /// Its bytes.
    ghost text: { Self → List ℕ };

    /// Writes the text. If the sink fails, it has taken a prefix of it.
    fn write_to<S: Sink>(&self, sink: &mut S) -> Result<(), IoFault>
        ensures ok { OnOk result (Appends (S.taken sink.old) (S.taken sink.new) (text self.now)) }
        ensures beginning { AppendsBeginning (S.taken sink.old) (S.taken sink.new) (text self.now) }
        ensures failures { CountsDevice (S.failures sink.old) (S.failures sink.new) result }
        ensures name { S.name sink.new ≡ S.name sink.old };
}

/// A text in memory.
#[derive(Clone, Copy)]
pub struct Bytes<'a>(pub &'a [u8]);

impl Document for Bytes<'_> {
    ghost text = { λ bytes. bytes.0.now };

    fn write_to<S: Sink>(&self, sink: &mut S) -> Result<(), IoFault> {
        write_all(sink, self.0)
    }
}
