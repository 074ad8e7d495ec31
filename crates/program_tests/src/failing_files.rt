//! File systems for tests: a table whose writing fails, and files that never end.
ghost use Rattle.std.specs.Prelude.{◌≡◌};
ghost use Rattle.devices.specs.Devices.{one_more};

use devices::{Files, IoFault, Memory};
use std::alloc::{AllocError, Global};
use test_support::{Endless, FailsAt, InPieces, Table};

/// The maximum number of bytes per write.
pub(crate) const WRITE_PIECE: usize = 7;

/// The operation on a written file that fails.
#[derive(Clone, Copy)]
pub(crate) enum Failing {
    /// Nothing.
    Never,
    /// Creating it.
    Creating,
    /// The write after this many.
    Write(u64),
    /// Closing it.
    Closing,
}

impl Failing {
    /// How many writes succeed before the one that fails; `None` if none fails.
    fn writes_before(self) -> Option<u64> {
        match self {
            Failing::Write(writes) => Some(writes),
            _ => None,
        }
    }
}

/// The files of a table with failing writes. A closed file holds what it took, whether or not a write failed.
#[derive(Drop)]
pub(crate) struct FailingFiles {
    pub(crate) table: Table,
    failing: Failing,
    failures: u64,
}

impl FailingFiles {
    /// The files of the table; no call has failed yet.
    pub(crate) fn new(table: Table, failing: Failing) -> FailingFiles {
        FailingFiles {
            table,
            failing,
            failures: 0,
        }
    }

    fn fails_at_closing(&self) -> bool {
        matches!(self.failing, Failing::Closing)
    }

    fn count_failure(&mut self)
        ensures table { self.new.table ≡ self.old.table }
        ensures failures { self.new.failures ≡ one_more self.old.failures }
    {
        self.failures = self.failures.saturating_add(1);
    }
}

impl Files for FailingFiles {
    type Input = FailsAt<Memory>;

    type Output = FailsAt<InPieces<<Table as Files>::Output>>;

    ghost failures = { λ files. files.failures };

    ghost contents = { λ files name. ⟦<Table as Files>⟧.contents files.table name };

    ghost is_missing = { λ files name. ⟦<Table as Files>⟧.is_missing files.table name };

    ghost is_unreadable = { λ files name. ⟦<Table as Files>⟧.is_unreadable files.table name };

    ghost is_known = { ⟦<Table as Files>⟧.is_known };

    fn open(&mut self, name: &str) -> Result<FailsAt<Memory>, IoFault> {
        match self.table.open(name) {
            Ok(input) => Ok(input),
            Err(IoFault::Device) => {
                self.count_failure();
                Err(IoFault::Device)
            }
            Err(IoFault::NoMemory) => Err(IoFault::NoMemory),
        }
    }

    fn finish(&mut self, input: FailsAt<Memory>) {
        let failed = input.failed_reads().min(1);
        self.failures = self.failures.saturating_add(failed);
    }

    fn create(
        &mut self,
        name: &str,
    ) -> Result<FailsAt<InPieces<<Table as Files>::Output>>, IoFault> {
        if let Failing::Creating = self.failing {
            self.count_failure();
            return Err(IoFault::Device);
        }
        match self.table.create(name) {
            Ok(draft) => Ok(FailsAt::sink(
                InPieces::new(draft, WRITE_PIECE),
                self.failing.writes_before(),
            )),
            // A table can only fail for want of memory here.
            Err(_) => Err(IoFault::NoMemory),
        }
    }

    fn close(
        &mut self,
        output: FailsAt<InPieces<<Table as Files>::Output>>,
    ) -> Result<(), IoFault> {
        let has_failed = output.failed_writes() > 0;
        let closed = self.table.close(output.inner.inner);
        if has_failed || self.fails_at_closing() {
            self.count_failure();
            return Err(IoFault::Device);
        }
        match closed {
            Ok(()) => Ok(()),
            // A table can only fail for want of memory here.
            Err(_) => Err(IoFault::NoMemory),
        }
    }
}

/// Files that consist of blanks without end. What is written is discarded.
#[derive(Drop)]
pub(crate) struct EndlessFiles {
    alloc: Global,
}

/// The number of blanks per read.
const BLANKS: usize = 65_536;

impl EndlessFiles {
    /// Every name is a file.
    pub(crate) fn new(alloc: Global) -> EndlessFiles {
        EndlessFiles { alloc }
    }

    fn blanks(&self) -> Result<Endless, AllocError> {
        let blanks = vec![in self.alloc; b' '; BLANKS]?;
        Ok(Endless::new(Vec::new(self.alloc), blanks))
    }
}

impl Files for EndlessFiles {
    type Input = Endless;

    type Output = Memory;

    ghost failures = { λ files. 0 };

    fn open(&mut self, _name: &str) -> Result<Endless, IoFault> {
        Ok(self.blanks()?)
    }

    fn finish(&mut self, _input: Endless) {}

    fn create(&mut self, _name: &str) -> Result<Memory, IoFault> {
        Ok(Memory::empty(self.alloc))
    }

    fn close(&mut self, _output: Memory) -> Result<(), IoFault> {
        Ok(())
    }
}
