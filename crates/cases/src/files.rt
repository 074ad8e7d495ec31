//! The files of a case.
use devices::{Files, IoFault, Memory};
use std::alloc::Global;
use test_support::{FailsAt, InPieces, Table};

/// A table of files, and how reads of them behave.
#[derive(Drop)]
pub struct CaseFiles {
    /// The files.
    pub table: Table,
    /// The maximum number of bytes per read; 0 counts as 1.
    pub piece: u32,
}

impl CaseFiles {
    /// No files, and reads that give as much as requested.
    pub fn new(alloc: Global) -> CaseFiles {
        CaseFiles {
            table: Table::new(alloc),
            piece: u32::MAX,
        }
    }
}

impl Files for CaseFiles {
    type Input = InPieces<FailsAt<Memory>>;

    type Output = <Table as Files>::Output;

    ghost failures = { λ files. ⟦<Table as Files>⟧.failures files.table };

    ghost contents = { λ files name. ⟦<Table as Files>⟧.contents files.table name };

    ghost is_missing = { λ files name. ⟦<Table as Files>⟧.is_missing files.table name };

    ghost is_known = { ⟦<Table as Files>⟧.is_known };

    fn open(&mut self, name: &str) -> Result<InPieces<FailsAt<Memory>>, IoFault> {
        let input = self.table.open(name)?;
        Ok(InPieces::new(input, self.piece.max(1) as usize))
    }

    fn finish(&mut self, input: InPieces<FailsAt<Memory>>) {
        self.table.finish(input.inner);
    }

    fn create(&mut self, name: &str) -> Result<<Table as Files>::Output, IoFault> {
        self.table.create(name)
    }

    fn close(&mut self, output: <Table as Files>::Output) -> Result<(), IoFault> {
        self.table.close(output)
    }
}
