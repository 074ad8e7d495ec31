//! Devices over the system's readers and writers.
ghost use Rattle.std.specs.Prelude.{◌≡◌, false};
ghost use Rattle.devices.specs.Devices.{one_more};

use crate::device::{DeviceFault, IoFault, Sink, Source};
use std::io::{Read, Write};

/// The maximum number of bytes per read.
const PIECE: usize = 8192;

/// A reader or a writer of the standard library, with a count of failures.
#[derive(Drop)]
pub struct Device<T> {
    inner: T,
    failures: u64,
}

impl<W: Write> Device<W> {
    /// A sink of which no write has failed yet.
    pub fn new(inner: W) -> Device<W>
        ensures failures { ⟦<Device<W> as Sink>⟧.failures result ≡ 0 }
        ensures taken { ⟦<Device<W> as Sink>⟧.taken result ≡ W.contents inner }
    {
        Device { inner, failures: 0 }
    }

    /// How often writing has failed.
    pub fn failed_writes(&self) -> u64
        ensures { result ≡ ⟦<Device<W> as Sink>⟧.failures self.now }
    {
        self.failures
    }
}

impl<R: Read> Device<R> {
    /// A source of which no read has failed yet.
    pub fn source(reader: R) -> Device<R>
        ensures failures { ⟦<Device<R> as Source>⟧.failures result ≡ 0 }
        ensures remaining { ⟦<Device<R> as Source>⟧.remaining result ≡ R.remaining reader }
    {
        Device {
            inner: reader,
            failures: 0,
        }
    }

    /// How often reading has failed.
    pub fn failed_reads(&self) -> u64
        ensures { result ≡ ⟦<Device<R> as Source>⟧.failures self.now }
    {
        self.failures
    }
}

impl<T> Device<T> {
    fn count_failure(&mut self)
        ensures inner { self.new.inner ≡ self.old.inner }
        ensures failures { self.new.failures ≡ one_more self.old.failures }
    {
        self.failures = self.failures.saturating_add(1);
    }
}

impl<R: Read> Source for Device<R> {
    ghost failures = { λ device. device.failures };

    ghost remaining = { λ device. R.remaining device.inner };

    fn read(&mut self, into: &mut [u8]) -> Result<usize, DeviceFault> {
        // std does not say what a failed read leaves in its buffer, so bytes go into another one first.
        let mut piece = [0u8; PIECE];
        let room = PIECE.min(into.len());
        match self.inner.read(&mut piece[..room]) {
            Ok(count) => {
                into[..count].copy_from_slice(&piece[..count]);
                Ok(count)
            }
            // Also for `ErrorKind::Interrupted`: an interrupted call is counted and not repeated.
            Err(_) => {
                self.count_failure();
                Err(DeviceFault)
            }
        }
    }
}

impl<W: Write> Sink for Device<W> {
    ghost failures = { λ device. device.failures };

    ghost taken = { λ device. W.contents device.inner };

    ghost may_lack_memory = { false };

    fn write(&mut self, piece: &[u8]) -> Result<usize, IoFault> {
        match self.inner.write(piece) {
            Ok(count) if count > 0 || piece.is_empty() => Ok(count),
            // Nothing was taken, or an error occurred, possibly `ErrorKind::Interrupted`: counted and not retried.
            _ => {
                self.count_failure();
                Err(IoFault::Device)
            }
        }
    }
}
