//! A device that works in pieces, for tests.
ghost use Rattle.std.specs.Prelude.{◌≡◌, ◌<◌, ◌≤◌, length, min};

use devices::{DeviceFault, IoFault, Sink, Source};

/// A device that moves a limited number of bytes per call.
#[derive(Drop)]
pub struct InPieces<D> {
    /// The device inside.
    pub inner: D,
    length: usize,
    ghost some: { 0 < length },
}

impl<D> InPieces<D> {
    ghost use Rattle.test_support.specs.Pieces.{piece_length};

    /// The device, limited to pieces of this length.
    pub fn new(inner: D, length: usize) -> InPieces<D>
        requires { 0 < length }
        ensures inner { result.inner ≡ inner }
        ensures length { piece_length result ≡ length }
    {
        InPieces { inner, length }
    }
}

impl<S: Source> Source for InPieces<S> {
    ghost use Rattle.std.specs.Prelude.{IfOk, IfSome, IsErr, IsTrue, OnErr};
    ghost use Rattle.std.specs.Io.{ReadsAtMost};
    ghost use Rattle.std.specs.Io.KnownBytes.{ReadConsumes};
    ghost use Rattle.devices.specs.Devices.{Counts};
    ghost use Rattle.test_support.specs.Pieces.{piece_length};

    ghost failures = { λ device. S.failures device.inner };

    ghost remaining = { λ device. S.remaining device.inner };

    ghost read_count = { λ device room. S.read_count device.inner (min (piece_length device) room) };

    ghost is_failing = { λ device. S.is_failing device.inner };

    fn read(&mut self, into: &mut [u8]) -> Result<usize, DeviceFault>
        ensures bound { ReadsAtMost result into.new }
        ensures at_most { IfOk result (λ count. count ≤ piece_length self.old) }
        ensures unchanged { OnErr result (into.new ≡ into.old) }
        ensures gives { IfOk result (λ count. IfSome (⟦<InPieces<S> as Source>⟧.read_count self.old (length into.old)) (λ reported. count ≡ reported)) }
        ensures bytes { ReadConsumes (S.remaining self.old.inner) (S.remaining self.new.inner) result into.new }
        ensures failing { IsTrue (S.is_failing self.old.inner) → IsErr result }
        ensures failures { Counts (S.failures self.old.inner) (S.failures self.new.inner) result }
        ensures length { piece_length self.new ≡ piece_length self.old }
    {
        let count = self.length.min(into.len());
        self.inner.read(&mut into[..count])
    }
}

impl<S: Sink> Sink for InPieces<S> {
    ghost use Rattle.std.specs.Prelude.{Err, IfOk, IfSome, IsTrue};
    ghost use Rattle.std.specs.Io.{WritesAtMost};
    ghost use Rattle.std.specs.Io.KnownBytes.{WriteAppends};
    ghost use Rattle.devices.specs.Devices.{CountsDevice};
    ghost use Rattle.test_support.specs.Pieces.{piece_length};

    ghost failures = { λ device. S.failures device.inner };

    ghost taken = { λ device. S.taken device.inner };

    ghost write_count = { λ device piece. S.write_count device.inner (min (piece_length device) piece) };

    ghost may_lack_memory = { S.may_lack_memory };

    ghost name = { λ device. S.name device.inner };

    fn write(&mut self, piece: &[u8]) -> Result<usize, IoFault>
        ensures bound { WritesAtMost result piece.now }
        ensures at_most { IfOk result (λ count. count ≤ piece_length self.old) }
        ensures progress { 0 < length piece.now → IfOk result (λ count. 0 < count) }
        ensures takes { IfOk result (λ count. IfSome (⟦<InPieces<S> as Sink>⟧.write_count self.old (length piece.now)) (λ reported. count ≡ reported)) }
        ensures bytes { WriteAppends (S.taken self.old.inner) (S.taken self.new.inner) result piece.now }
        ensures memory { result ≡ Err IoFault.NoMemory → IsTrue S.may_lack_memory }
        ensures failures { CountsDevice (S.failures self.old.inner) (S.failures self.new.inner) result }
        ensures name { S.name self.new.inner ≡ S.name self.old.inner }
        ensures length { piece_length self.new ≡ piece_length self.old }
    {
        let count = self.length.min(piece.len());
        self.inner.write(&piece[..count])
    }
}
