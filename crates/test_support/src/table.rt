//! A table of files in memory, for tests.
ghost use Rattle.std.specs.Prelude.{◌≡◌, ℕ, List, None, IfOk, IfSome, IsOkUnless, IsTrue, OnErr, OnOk, Some, [], false, is_none, position, true};
ghost use Rattle.std.specs.Option.{option_map};
ghost use Rattle.devices.specs.Devices.{CountsDevice, IsKept};
ghost use Rattle.test_support.specs.Failing.{calls_left, fails_now};
ghost use Rattle.std.specs.String.{string_bytes};
ghost use Rattle.test_support.specs.Table.{contents_of, draft_name, is_named, KeepsFiles, PutsFile, reads_before};

use crate::failing::FailsAt;
use devices::{Files, IoFault, Memory, Sink, Source};
use faults::NoMemory;
use std::alloc::Global;

#[derive(Drop)]
struct Entry {
    name: String,
    bytes: Vec<u8>,
    // How many reads succeed before the one that fails; `None` if none fails.
    reads_before: Option<u64>,
}

/// Files in memory. A name that is not in the table cannot be opened.
#[derive(Drop)]
pub struct Table {
    alloc: Global,
    entries: Vec<Entry>,
    failures: u64,
}

/// A file of the table that is being written. It enters the table when it is closed.
#[derive(Drop)]
pub struct Draft {
    name: String,
    bytes: Memory,
}

impl Table {
    /// An empty table; no call has failed yet.
    pub fn new(alloc: Global) -> Table
        ensures empty { (name : List ℕ) → ⟦<Table as Files>⟧.contents result name ≡ None }
        ensures failures { ⟦<Table as Files>⟧.failures result ≡ 0 }
    {
        Table {
            alloc,
            entries: Vec::new(alloc),
            failures: 0,
        }
    }

    /// Puts a file into the table, replacing any with that name.
    pub fn put(&mut self, name: &str, bytes: &[u8]) -> Result<(), NoMemory>
        ensures put { OnOk result (PutsFile self.old self.new name.now bytes.now None) }
        ensures refused { OnErr result (KeepsFiles self.old self.new) }
        ensures failures { ⟦<Table as Files>⟧.failures self.new ≡ ⟦<Table as Files>⟧.failures self.old }
    {
        let name = String::from_str(self.alloc, name)?;
        let bytes = Vec::from_slice(self.alloc, bytes)?;
        self.insert(name, bytes, None)
    }

    /// Puts a file into the table whose device fails once, after this many reads.
    pub fn put_failing(
        &mut self,
        name: &str,
        bytes: &[u8],
        reads_before: u64,
    ) -> Result<(), NoMemory>
        ensures put { OnOk result (PutsFile self.old self.new name.now bytes.now (Some reads_before)) }
        ensures refused { OnErr result (KeepsFiles self.old self.new) }
        ensures failures { ⟦<Table as Files>⟧.failures self.new ≡ ⟦<Table as Files>⟧.failures self.old }
    {
        let name = String::from_str(self.alloc, name)?;
        let bytes = Vec::from_slice(self.alloc, bytes)?;
        self.insert(name, bytes, Some(reads_before))
    }

    /// The bytes of a file; `None` if there is none with this name.
    pub fn get(&self, name: &str) -> Option<&[u8]>
        ensures { option_map (λ bytes. bytes.now) result ≡ ⟦<Table as Files>⟧.contents self.now name.now }
    {
        for entry in &self.entries {
            if entry.name.as_str() == name {
                return Some(entry.bytes.as_slice());
            }
        }
        None
    }

    fn insert(
        &mut self,
        name: String,
        bytes: Vec<u8>,
        reads_before: Option<u64>,
    ) -> Result<(), NoMemory>
        ensures put { OnOk result (PutsFile self.old self.new (string_bytes name) bytes.items reads_before) }
        ensures refused { OnErr result (KeepsFiles self.old self.new) }
        ensures failures { self.new.failures ≡ self.old.failures }
    {
        let entry = Entry {
            name,
            bytes,
            reads_before,
        };
        match self.place_of(entry.name.as_str()) {
            Some(i) => self.entries[i] = entry,
            None => self.entries.push(entry)?,
        }
        Ok(())
    }

    /// The index of the first file with this name.
    fn place_of(&self, name: &str) -> Option<usize>
        ensures { result ≡ position (is_named name.now) self.now.entries.items }
    {
        self.entries
            .iter()
            .position(|entry| entry.name.as_str() == name)
    }
}

impl Files for Table {
    type Input = FailsAt<Memory>;

    type Output = Draft;

    ghost failures = { λ table. table.failures };

    ghost contents = { λ table name. contents_of table.entries.items name };

    ghost is_missing = { λ table name. is_none (contents_of table.entries.items name) };

    ghost is_unreadable = { λ table name. fails_now (reads_before table name) };

    ghost is_known = { true };

    fn open(&mut self, name: &str) -> Result<FailsAt<Memory>, IoFault>
        ensures failures { CountsDevice (⟦<Table as Files>⟧.failures self.old) (⟦<Table as Files>⟧.failures self.new) result }
        ensures missing { IsTrue (⟦<Table as Files>⟧.is_missing self.old name.now) → result ≡ Err IoFault.Device }
        ensures there { ⟦<Table as Files>⟧.is_missing self.old name.now ≡ false → IsOkUnless result IoFault.NoMemory }
        ensures fresh { IfOk result (λ input. ⟦<FailsAt<Memory> as Source>⟧.failures input ≡ 0) }
        ensures bytes { IfOk result (λ input. IsKept (⟦<Table as Files>⟧.contents self.old name.now) (⟦<FailsAt<Memory> as Source>⟧.remaining input)) }
        ensures reads { IfOk result (λ input. calls_left input ≡ reads_before self.old name.now) }
        ensures failing { IsTrue (⟦<Table as Files>⟧.is_unreadable self.old name.now) → IfOk result (λ input. IsTrue (⟦<FailsAt<Memory> as Source>⟧.is_failing input)) }
        ensures kept { (other : List ℕ) → ⟦<Table as Files>⟧.contents self.new other ≡ ⟦<Table as Files>⟧.contents self.old other }
        ensures still { (other : List ℕ) → ⟦<Table as Files>⟧.is_missing self.new other ≡ ⟦<Table as Files>⟧.is_missing self.old other }
        ensures as_readable { (other : List ℕ) → ⟦<Table as Files>⟧.is_unreadable self.new other ≡ ⟦<Table as Files>⟧.is_unreadable self.old other }
        ensures unchanged { KeepsFiles self.old self.new }
    {
        for entry in &self.entries {
            if entry.name.as_str() == name {
                return match Vec::from_slice(self.alloc, entry.bytes.as_slice()) {
                    Ok(bytes) => Ok(FailsAt::source(Memory::new(bytes), entry.reads_before)),
                    Err(_) => Err(IoFault::NoMemory),
                };
            }
        }
        self.failures = self.failures.saturating_add(1);
        Err(IoFault::Device)
    }

    fn finish(&mut self, input: FailsAt<Memory>) {
        let failed = input.failed_reads().min(1);
        self.failures = self.failures.saturating_add(failed);
    }

    fn create(&mut self, name: &str) -> Result<Draft, IoFault>
        ensures failures { CountsDevice (⟦<Table as Files>⟧.failures self.old) (⟦<Table as Files>⟧.failures self.new) result }
        ensures only { IsOkUnless result IoFault.NoMemory }
        ensures named { IfOk result (λ draft. draft_name draft ≡ name.now) }
        ensures empty { IfOk result (λ draft. ⟦<Draft as Sink>⟧.taken draft ≡ Some []) }
        ensures unchanged { KeepsFiles self.old self.new }
    {
        match String::from_str(self.alloc, name) {
            Ok(name) => Ok(Draft {
                name,
                bytes: Memory::empty(self.alloc),
            }),
            Err(_) => Err(IoFault::NoMemory),
        }
    }

    fn close(&mut self, output: Draft) -> Result<(), IoFault>
        ensures failures { CountsDevice (⟦<Table as Files>⟧.failures self.old) (⟦<Table as Files>⟧.failures self.new) result }
        ensures only { IsOkUnless result IoFault.NoMemory }
        ensures put { OnOk result (IfSome (⟦<Draft as Sink>⟧.taken output) (λ bytes.
            PutsFile self.old self.new (draft_name output) bytes None)) }
        ensures refused { OnErr result (KeepsFiles self.old self.new) }
    {
        let Draft { name, bytes } = output;
        match self.insert(name, bytes.into_vec(), None) {
            Ok(()) => Ok(()),
            Err(NoMemory) => Err(IoFault::NoMemory),
        }
    }
}

impl Sink for Draft {
    ghost failures = { λ draft. 0 };

    ghost taken = { λ draft. ⟦<Memory as Sink>⟧.taken draft.bytes };

    ghost write_count = { λ draft piece. ⟦<Memory as Sink>⟧.write_count draft.bytes piece };

    ghost name = { draft_name };

    fn write(&mut self, piece: &[u8]) -> Result<usize, IoFault> {
        self.bytes.write(piece)
    }
}
