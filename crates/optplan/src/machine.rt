//! The machine's files, with the standard input and output among them.
ghost use Rattle.std.specs.Prelude.{◌≡◌, IfErr, IfOk};
ghost use Rattle.devices.specs.declared.device.IoFault.TheVariants.{NoMemory};
ghost use Rattle.optplan.specs.Machine.{failed_reads, failed_writes, together};

use crate::replayed::{Kept, Replayed};
use command_line::is_stream;
use devices::{Device, DeviceFault, Files, IoFault, Sink, Source, SystemFiles};
use std::fs::File;
use std::rt::{Stdin, Stdout};

/// The machine's files, of which the one named `-` is the standard input, and to write the standard output.
#[derive(Drop)]
pub struct MachineFiles<'a> {
    runtime: &'a HostRuntime,
    files: SystemFiles<'a, HostRuntime>,
    /// What was read of the standard input, so that it can be opened again.
    kept: Option<Kept>,
    /// How often a stream has failed.
    failures: u64,
}

impl<'a> MachineFiles<'a> {
    /// The files and streams of this machine; no call has failed yet.
    pub(crate) fn new(runtime: &'a HostRuntime) -> MachineFiles<'a>
        ensures { ⟦<MachineFiles<'a> as Files>⟧.failures result ≡ 0 }
    {
        MachineFiles {
            runtime,
            files: SystemFiles::new(runtime),
            kept: None,
            failures: 0,
        }
    }

    /// The standard input, from its first byte on.
    fn standard_input(&mut self) -> Result<Input, IoFault>
        ensures fresh { IfOk result (λ input. failed_reads input ≡ 0) }
        ensures memory { IfErr result (λ fault. fault ≡ NoMemory) }
        ensures files { self.new.files ≡ self.old.files }
        ensures failures { self.new.failures ≡ self.old.failures }
    {
        let kept = match self.kept.take() {
            Some(kept) => kept,
            None => Kept::nothing(self.runtime.alloc()),
        };
        if kept.is_lost() {
            return Err(IoFault::NoMemory);
        }
        let source = Device::source(self.runtime.stdin());
        Ok(Input::Stream(Replayed::new(source, kept)))
    }
}

/// A file, or the standard input.
#[derive(Drop)]
pub enum Input {
    /// A file.
    File(Device<File>),
    /// The standard input.
    Stream(Replayed<Device<Stdin>>),
}

/// A file, or the standard output.
#[derive(Drop)]
pub enum Output {
    /// A file.
    File(Device<File>),
    /// The standard output.
    Stream(Device<Stdout>),
}

impl Source for Input {
    ghost failures = { failed_reads };

    fn read(&mut self, into: &mut [u8]) -> Result<usize, DeviceFault> {
        match self {
            Input::File(file) => file.read(into),
            Input::Stream(stream) => stream.read(into),
        }
    }
}

impl Sink for Output {
    ghost failures = { failed_writes };

    fn write(&mut self, piece: &[u8]) -> Result<usize, IoFault> {
        match self {
            Output::File(file) => file.write(piece),
            Output::Stream(stream) => stream.write(piece),
        }
    }
}

impl<'a> Files for MachineFiles<'a> {
    type Input = Input;

    type Output = Output;

    ghost failures = { λ machine. together (⟦<SystemFiles<'a, HostRuntime> as Files>⟧.failures machine.files) machine.failures };

    fn open(&mut self, name: &str) -> Result<Input, IoFault> {
        if is_stream(name) {
            return self.standard_input();
        }
        let file = self.files.open(name)?;
        Ok(Input::File(file))
    }

    fn finish(&mut self, input: Input) {
        match input {
            Input::File(file) => self.files.finish(file),
            Input::Stream(stream) => {
                let (source, kept) = stream.into_parts();
                let failed = source.failed_reads().min(1);
                self.failures = self.failures.saturating_add(failed);
                self.kept = Some(kept);
            }
        }
    }

    fn create(&mut self, name: &str) -> Result<Output, IoFault> {
        if is_stream(name) {
            return Ok(Output::Stream(Device::new(self.runtime.stdout())));
        }
        let file = self.files.create(name)?;
        Ok(Output::File(file))
    }

    fn close(&mut self, output: Output) -> Result<(), IoFault> {
        match output {
            Output::File(file) => self.files.close(file),
            Output::Stream(stream) => {
                if stream.failed_writes() > 0 {
                    self.failures = self.failures.saturating_add(1);
                    return Err(IoFault::Device);
                }
                Ok(())
            }
        }
    }
}
