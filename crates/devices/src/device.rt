//! Devices: sources and sinks of bytes. Any call may fail.
ghost use Rattle.std.specs.Prelude.{◌≡◌, ℕ, ◌<◌, Bool, false, true, List, [], Option, length, Err, IfOk, IfSome, IsErr, IsTrue, OnErr, OnOk, None};
ghost use Rattle.std.specs.Io.{ReadsAtMost, WritesAtMost};
ghost use Rattle.std.specs.Io.KnownBytes.{Appends, ReadConsumes, WriteAppends};
ghost use Rattle.devices.specs.Devices.{AppendsBeginning, Counts, CountsDevice};

use std::alloc::{AllocError, AllocFailed};
use thiserror::Error;

/// The device failed in this call.
#[derive(Clone, Copy, Debug, PartialEq, Eq, Error)]
#[error("device failed")]
pub struct DeviceFault;

/// Why a write, or an operation on files, failed.
#[derive(Clone, Copy, Debug, PartialEq, Eq, Error)]
pub enum IoFault {
    /// The device failed in this call.
    #[error("device failed")]
    Device,
    /// An allocation failed. The device did not fail.
    #[error("out of memory")]
    NoMemory,
}

impl From<DeviceFault> for IoFault {
    ghost use Rattle.std.specs.Prelude.{◌≡◌};
    ghost use Rattle.devices.specs.declared.device.IoFault.TheVariants.{Device as device_failed};

    ghost from_gives = { λ _ fault. fault ≡ device_failed };

    fn from(_fault: DeviceFault) -> IoFault {
        IoFault::Device
    }
}

impl From<AllocError> for IoFault {
    ghost use Rattle.std.specs.Prelude.{◌≡◌};
    ghost use Rattle.devices.specs.declared.device.IoFault.TheVariants.{NoMemory};

    ghost from_gives = { λ _ fault. fault ≡ NoMemory };

    fn from(_error: AllocError) -> IoFault {
        IoFault::NoMemory
    }
}

impl<T: Drop> From<AllocFailed<T>> for IoFault {
    ghost use Rattle.std.specs.Prelude.{◌≡◌};
    ghost use Rattle.devices.specs.declared.device.IoFault.TheVariants.{NoMemory};

    ghost from_gives = { λ _ fault. fault ≡ NoMemory };

    fn from(_error: AllocFailed<T>) -> IoFault {
        IoFault::NoMemory
    }
}

/// A source of bytes.
pub trait Source {
    /// How often the device has failed. The count saturates at 18446744073709551615.
    ghost failures: { Self → ℕ };

    /// The bytes that later reads will give, if the device reports them.
    ghost remaining: { Self → Option (List ℕ) } = { λ _. None };

    /// The number of bytes that a successful read gives for a buffer of a given length, if the device reports it.
    ghost read_count: { Self → ℕ → Option ℕ } = { λ _ _. None };

    /// Whether the next read fails, if that is known.
    ghost is_failing: { Self → Bool } = { λ _. false };

    /// Reads some bytes into the buffer, and returns how many. 0 for a non-empty buffer means the end. An interrupted call counts
    /// as failed. If the call fails, the buffer is unchanged.
    fn read(&mut self, into: &mut [u8]) -> Result<usize, DeviceFault>
        ensures bound { ReadsAtMost result into.new }
        ensures unchanged { OnErr result (into.new ≡ into.old) }
        ensures gives { IfOk result (λ count. IfSome (read_count self.old (length into.old)) (λ reported. count ≡ reported)) }
        ensures bytes { ReadConsumes (remaining self.old) (remaining self.new) result into.new }
        ensures failing { IsTrue (is_failing self.old) → IsErr result }
        ensures failures { Counts (failures self.old) (failures self.new) result };
}

/// A sink for bytes.
pub trait Sink {
    /// How often the device has failed. The count saturates at 18446744073709551615.
    ghost failures: { Self → ℕ };

    /// The bytes that it has taken, if the device reports them.
    ghost taken: { Self → Option (List ℕ) } = { λ _. None };

    /// The number of bytes that a successful write takes of a piece of a given length, if the device reports it.
    ghost write_count: { Self → ℕ → Option ℕ } = { λ _ _. None };

    /// Whether a write may fail for want of memory.
    ghost may_lack_memory: { Bool } = { true };

    /// The name of the file that it writes, if that is known.
    ghost name: { Self → List ℕ } = { λ _. [] };

    /// Takes some of the bytes, and returns how many. Taking nothing of a non-empty piece counts as a failure, and so does an
    /// interrupted call.
    fn write(&mut self, piece: &[u8]) -> Result<usize, IoFault>
        ensures bound { WritesAtMost result piece.now }
        ensures progress { 0 < length piece.now → IfOk result (λ count. 0 < count) }
        ensures takes { IfOk result (λ count. IfSome (write_count self.old (length piece.now)) (λ reported. count ≡ reported)) }
        ensures bytes { WriteAppends (taken self.old) (taken self.new) result piece.now }
        ensures memory { result ≡ Err IoFault.NoMemory → IsTrue may_lack_memory }
        ensures failures { CountsDevice (failures self.old) (failures self.new) result }
        ensures name { name self.new ≡ name self.old };
}

/// Writes all of the bytes. If the sink fails, it has taken a prefix of them.
pub fn write_all<S: Sink>(sink: &mut S, bytes: &[u8]) -> Result<(), IoFault>
    ensures ok { OnOk result (Appends (S.taken sink.old) (S.taken sink.new) bytes.now) }
    ensures beginning { AppendsBeginning (S.taken sink.old) (S.taken sink.new) bytes.now }
    ensures failures { CountsDevice (S.failures sink.old) (S.failures sink.new) result }
    ensures memory { result ≡ Err IoFault.NoMemory → IsTrue S.may_lack_memory }
    ensures name { S.name sink.new ≡ S.name sink.old }
{
    let mut rest = bytes;
    'writes: while !rest.is_empty() {
        let count = sink.write(rest)?;
        rest = &rest[count..];
    }
    Ok(())
}
