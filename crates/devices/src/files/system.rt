//! The machine's files.
ghost use Rattle.std.specs.Prelude.{◌≡◌, ◌<◌, Err, IfSome, IsOk, IsTrue, OnOk};
ghost use Rattle.devices.specs.Devices.{CountsDevice};
ghost use Rattle.devices.specs.Written.{HoldsBeginning};

use crate::device::{IoFault, Sink};
use crate::files::Files;
use crate::system::Device;
use std::{fs, io, rt};

/// The files that a runtime reaches, with a count of failures.
#[derive(Drop)]
pub struct SystemFiles<'a, R> {
    runtime: &'a R,
    failures: u64,
}

impl<'a, R: rt::Files> SystemFiles<'a, R> {
    /// The runtime's files; no call has failed yet.
    pub fn new(runtime: &'a R) -> SystemFiles<'a, R>
        ensures { ⟦<SystemFiles<'a, R> as Files>⟧.failures result ≡ 0 }
    {
        SystemFiles {
            runtime,
            failures: 0,
        }
    }
}

impl<R> SystemFiles<'_, R> {
    /// The result of a system call, with a failure counted.
    fn counted<T: Drop>(&mut self, outcome: io::Result<T>) -> Result<T, IoFault>
        ensures { CountsDevice self.old.failures self.new.failures result }
    {
        match outcome {
            Ok(value) => Ok(value),
            Err(_) => {
                self.failures = self.failures.saturating_add(1);
                Err(IoFault::Device)
            }
        }
    }
}

impl<'a, R: rt::Files> Files for SystemFiles<'a, R> {
    type Input = Device<R::File>;

    type Output = Device<R::File>;

    ghost failures = { λ files. files.failures };

    fn open(&mut self, name: &str) -> Result<Device<R::File>, IoFault> {
        let opened = fs::open(self.runtime, name);
        Ok(Device::source(self.counted(opened)?))
    }

    fn finish(&mut self, input: Device<R::File>) {
        let failed = input.failed_reads().min(1);
        self.failures = self.failures.saturating_add(failed);
    }

    fn create(&mut self, name: &str) -> Result<Device<R::File>, IoFault> {
        let created = fs::create(self.runtime, name);
        Ok(Device::new(self.counted(created)?))
    }

    // std writes at once and closes a file when it is dropped; an error that the system reports only at that close is lost. So
    // what is reported here is an earlier failed write.
    fn close(&mut self, output: Device<R::File>) -> Result<(), IoFault>
        ensures failures { CountsDevice (⟦<SystemFiles<'a, R> as Files>⟧.failures self.old) (⟦<SystemFiles<'a, R> as Files>⟧.failures self.new) result }
        ensures failed { 0 < ⟦<Device<R::File> as Sink>⟧.failures output → result ≡ Err IoFault.Device }
        ensures written { IsTrue ⟦<SystemFiles<'a, R> as Files>⟧.is_known → OnOk result (⟦<SystemFiles<'a, R> as Files>⟧.contents self.new (⟦<Device<R::File> as Sink>⟧.name output) ≡ ⟦<Device<R::File> as Sink>⟧.taken output) }
        ensures beginning { IsTrue ⟦<SystemFiles<'a, R> as Files>⟧.is_known → IfSome (⟦<Device<R::File> as Sink>⟧.taken output) (HoldsBeginning (⟦<SystemFiles<'a, R> as Files>⟧.contents self.old (⟦<Device<R::File> as Sink>⟧.name output)) (⟦<SystemFiles<'a, R> as Files>⟧.contents self.new (⟦<Device<R::File> as Sink>⟧.name output))) }
        ensures only_failed { ⟦<Device<R::File> as Sink>⟧.failures output ≡ 0 → IsOk result }
    {
        if output.failed_writes() > 0 {
            self.failures = self.failures.saturating_add(1);
            return Err(IoFault::Device);
        }
        Ok(())
    }
}
