//! A device that fails at one call, for tests.
ghost use Rattle.std.specs.Prelude.{◌≡◌, ◌<◌, length};
ghost use Rattle.devices.specs.Devices.{one_more};

use devices::{DeviceFault, IoFault, Sink, Source};

/// A device that fails at one call and otherwise behaves like the device inside it.
#[derive(Drop)]
pub struct FailsAt<D> {
    /// The device inside.
    pub inner: D,
    // How many calls succeed before the one that fails; `None` if none fails.
    calls_before: Option<u64>,
    failures: u64,
}

impl<D> FailsAt<D> {
    ghost use Rattle.test_support.specs.Failing.{after_a_call, calls_left, fails_now};

    /// The device, failing once after this many calls; with `None` it never fails by itself.
    pub fn new(inner: D, calls_before: Option<u64>) -> FailsAt<D>
        ensures inner { result.inner ≡ inner }
        ensures calls { calls_left result ≡ calls_before }
    {
        FailsAt {
            inner,
            calls_before,
            failures: 0,
        }
    }

    /// Whether the call that begins now is the one that fails.
    fn is_failing_call(&mut self) -> bool
        ensures fails { result ≡ fails_now (calls_left self.old) }
        ensures calls { calls_left self.new ≡ after_a_call (calls_left self.old) }
        ensures inner { self.new.inner ≡ self.old.inner }
        ensures failures { self.new.failures ≡ self.old.failures }
    {
        match self.calls_before {
            Some(0) => {
                self.calls_before = None;
                true
            }
            Some(calls) => {
                self.calls_before = Some(calls - 1);
                false
            }
            None => false,
        }
    }

    fn count_failure(&mut self)
        ensures calls { calls_left self.new ≡ calls_left self.old }
        ensures inner { self.new.inner ≡ self.old.inner }
        ensures failures { self.new.failures ≡ one_more self.old.failures }
    {
        self.failures = self.failures.saturating_add(1);
    }
}

impl<S: Source> FailsAt<S> {
    ghost use Rattle.test_support.specs.Failing.{calls_left};

    /// The same, as a source with no failed read.
    pub fn source(inner: S, reads_before: Option<u64>) -> FailsAt<S>
        ensures failures { ⟦<FailsAt<S> as Source>⟧.failures result ≡ 0 }
        ensures remaining { ⟦<FailsAt<S> as Source>⟧.remaining result ≡ S.remaining inner }
        ensures inner { result.inner ≡ inner }
        ensures calls { calls_left result ≡ reads_before }
    {
        FailsAt {
            inner,
            calls_before: reads_before,
            failures: 0,
        }
    }

    /// How often reading has failed.
    pub fn failed_reads(&self) -> u64
        ensures { result ≡ ⟦<FailsAt<S> as Source>⟧.failures self.now }
    {
        self.failures
    }
}

impl<S: Source> Source for FailsAt<S> {
    ghost use Rattle.std.specs.Prelude.{IfOk, IfSome, IsErr, IsTrue, OnErr, false};
    ghost use Rattle.std.specs.Io.{ReadsAtMost};
    ghost use Rattle.std.specs.Io.KnownBytes.{ReadConsumes};
    ghost use Rattle.devices.specs.Devices.{Counts};
    ghost use Rattle.test_support.specs.Failing.{after_a_call, calls_left, fails_now};

    ghost failures = { λ device. device.failures };

    ghost remaining = { λ device. S.remaining device.inner };

    ghost read_count = { λ device room. S.read_count device.inner room };

    ghost is_failing = { λ device. fails_now (calls_left device) };

    fn read(&mut self, into: &mut [u8]) -> Result<usize, DeviceFault>
        ensures bound { ReadsAtMost result into.new }
        ensures unchanged { OnErr result (into.new ≡ into.old) }
        ensures gives { IfOk result (λ count. IfSome (S.read_count self.old.inner (length into.old)) (λ reported. count ≡ reported)) }
        ensures bytes { ReadConsumes (S.remaining self.old.inner) (S.remaining self.new.inner) result into.new }
        ensures failures { Counts (⟦<FailsAt<S> as Source>⟧.failures self.old) (⟦<FailsAt<S> as Source>⟧.failures self.new) result }
        ensures failing { IsTrue (⟦<FailsAt<S> as Source>⟧.is_failing self.old) → IsErr result }
        ensures fails { IsTrue (fails_now (calls_left self.old)) → IsErr result × (self.new.inner ≡ self.old.inner) }
        ensures passes { fails_now (calls_left self.old) ≡ false → Counts (S.failures self.old.inner) (S.failures self.new.inner) result }
        ensures calls { calls_left self.new ≡ after_a_call (calls_left self.old) }
    {
        if self.is_failing_call() {
            self.count_failure();
            return Err(DeviceFault);
        }
        match self.inner.read(into) {
            Ok(count) => Ok(count),
            Err(fault) => {
                self.count_failure();
                Err(fault)
            }
        }
    }
}

impl<S: Sink> FailsAt<S> {
    ghost use Rattle.test_support.specs.Failing.{calls_left};

    /// The same, as a sink with no failed write.
    pub fn sink(inner: S, writes_before: Option<u64>) -> FailsAt<S>
        ensures failures { ⟦<FailsAt<S> as Sink>⟧.failures result ≡ 0 }
        ensures taken { ⟦<FailsAt<S> as Sink>⟧.taken result ≡ S.taken inner }
        ensures inner { result.inner ≡ inner }
        ensures calls { calls_left result ≡ writes_before }
    {
        FailsAt {
            inner,
            calls_before: writes_before,
            failures: 0,
        }
    }

    /// How often writing has failed. A write that fails for want of memory does not count.
    pub fn failed_writes(&self) -> u64
        ensures { result ≡ ⟦<FailsAt<S> as Sink>⟧.failures self.now }
    {
        self.failures
    }
}

impl<S: Sink> Sink for FailsAt<S> {
    ghost use Rattle.std.specs.Prelude.{Err, IfOk, IfSome, IsTrue, false};
    ghost use Rattle.std.specs.Io.{WritesAtMost};
    ghost use Rattle.std.specs.Io.KnownBytes.{WriteAppends};
    ghost use Rattle.devices.specs.Devices.{CountsDevice};
    ghost use Rattle.test_support.specs.Failing.{after_a_call, calls_left, fails_now};

    ghost failures = { λ device. device.failures };

    ghost taken = { λ device. S.taken device.inner };

    ghost write_count = { λ device piece. S.write_count device.inner piece };

    ghost may_lack_memory = { S.may_lack_memory };

    ghost name = { λ device. S.name device.inner };

    fn write(&mut self, piece: &[u8]) -> Result<usize, IoFault>
        ensures bound { WritesAtMost result piece.now }
        ensures progress { 0 < length piece.now → IfOk result (λ count. 0 < count) }
        ensures takes { IfOk result (λ count. IfSome (S.write_count self.old.inner (length piece.now)) (λ reported. count ≡ reported)) }
        ensures bytes { WriteAppends (S.taken self.old.inner) (S.taken self.new.inner) result piece.now }
        ensures memory { result ≡ Err IoFault.NoMemory → IsTrue S.may_lack_memory }
        ensures failures { CountsDevice (⟦<FailsAt<S> as Sink>⟧.failures self.old) (⟦<FailsAt<S> as Sink>⟧.failures self.new) result }
        ensures name { S.name self.new.inner ≡ S.name self.old.inner }
        ensures fails { IsTrue (fails_now (calls_left self.old)) → (result ≡ Err IoFault.Device) × (self.new.inner ≡ self.old.inner) }
        ensures passes { fails_now (calls_left self.old) ≡ false → CountsDevice (S.failures self.old.inner) (S.failures self.new.inner) result }
        ensures calls { calls_left self.new ≡ after_a_call (calls_left self.old) }
    {
        if self.is_failing_call() {
            self.count_failure();
            return Err(IoFault::Device);
        }
        match self.inner.write(piece) {
            Ok(count) => Ok(count),
            Err(IoFault::Device) => {
                self.count_failure();
                Err(IoFault::Device)
            }
            Err(IoFault::NoMemory) => Err(IoFault::NoMemory),
        }
    }
}
