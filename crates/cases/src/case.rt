//! A case: the files, the words of the command, and the expected results.
use crate::files::CaseFiles;
use crate::follow_up::FollowUp;
use crate::holdings::{Expected, Holdings};
use crate::section::{Escapes, Section};
use crate::stream::Stream;
use faults::NoMemory;
use std::alloc::{AllocError, Global};
use test_support::Table;

/// Why a case could not be tried.
#[derive(Clone, Copy, Debug)]
pub enum CaseFault {
    /// An allocation failed.
    NoMemory,
    /// A word is not a number, or the number is too large.
    Number,
    /// The words of a section have no meaning.
    Words,
    /// No section gives a command.
    NothingRun,
}

impl CaseFault {
    /// The fault in words.
    pub fn text(&self) -> &'static str {
        match self {
            CaseFault::NoMemory => "memory was refused",
            CaseFault::Number => "a number is none, or too large",
            CaseFault::Words => "a section has words that are none",
            CaseFault::NothingRun => "nothing is run",
        }
    }
}

impl From<AllocError> for CaseFault {
    fn from(_error: AllocError) -> CaseFault {
        CaseFault::NoMemory
    }
}

impl From<NoMemory> for CaseFault {
    fn from(_error: NoMemory) -> CaseFault {
        CaseFault::NoMemory
    }
}

/// The number that a word denotes.
pub fn number_of(word: &str) -> Result<u32, CaseFault> {
    word.parse::<u32>().map_err(|_| CaseFault::Number)
}

/// Reads the number that a word denotes.
pub fn read_number(word: &str, into: &mut u32) -> Result<(), CaseFault> {
    *into = number_of(word)?;
    Ok(())
}

/// A case.
#[derive(Drop)]
pub struct Case<'a> {
    /// The files of its sections.
    pub files: CaseFiles,
    /// The words of the command, if one is run.
    pub words: Option<Vec<&'a str>>,
    /// The expected contents of files after the run.
    pub holdings: Holdings<'a>,
    /// The standard output.
    pub out: Stream,
    /// The standard error.
    pub err: Stream,
    /// How many questions for the time are answered by 0. Later it is over.
    pub clock: u32,
    /// The expected exit status.
    pub status: u32,
    /// A further run over the files that are left, if any.
    pub then: Option<FollowUp<'a>>,
}

impl<'a> Case<'a> {
    /// A case without files and command, which expects no output and status 0.
    pub fn new(alloc: Global) -> Case<'a> {
        Case {
            files: CaseFiles::new(alloc),
            words: None,
            holdings: Holdings::new(alloc),
            out: Stream::new(alloc),
            err: Stream::new(alloc),
            clock: u32::MAX,
            status: 0,
            then: None,
        }
    }

    /// Takes the sections of a text, in which `\\@` stands for this byte. Anything before the first is a title or a comment.
    pub fn take(
        &mut self,
        alloc: Global,
        text: &'a str,
        byte: Option<u8>,
    ) -> Result<(), CaseFault> {
        for text in text.split("\n--- ").skip(1) {
            self.take_section(alloc, Section::of(text, Escapes { number: 0, byte }))?;
        }
        Ok(())
    }

    fn take_section(&mut self, alloc: Global, section: Section<'a>) -> Result<(), CaseFault> {
        match section.name {
            // The section `each` was read before.
            "each" => Ok(()),
            "run" => self.take_words(alloc, section.words),
            "status" => read_number(section.words, &mut self.status),
            "then" => self.take_follow_up(alloc, section),
            "clock" => read_number(section.words, &mut self.clock),
            "reads" => read_number(section.words, &mut self.files.piece),
            "file" => expect_file(alloc, &mut self.holdings, section),
            "no" => expect_no_file(&mut self.holdings, section),
            "stdout" => self.out.take(alloc, section),
            "stderr" => self.err.take(alloc, section),
            _ => take_file(alloc, &mut self.files.table, section),
        }
    }

    fn take_words(&mut self, alloc: Global, words: &'a str) -> Result<(), CaseFault> {
        self.words = Some(words.split_whitespace().collect(alloc)?);
        Ok(())
    }

    fn take_follow_up(&mut self, alloc: Global, section: Section<'a>) -> Result<(), CaseFault> {
        self.then = Some(FollowUp::of(alloc, section)?);
        Ok(())
    }
}

/// Expects the section's file to have these bytes after the run, or to begin with them.
fn expect_file<'a>(
    alloc: Global,
    holdings: &mut Holdings<'a>,
    section: Section<'a>,
) -> Result<(), CaseFault> {
    let bytes = section.bytes(alloc)?;
    match section.verb() {
        (name, "") => Ok(holdings.require(name, Expected::Whole(bytes))?),
        (name, "begins") => Ok(holdings.require(name, Expected::Beginning(bytes))?),
        _ => Err(CaseFault::Words),
    }
}

/// Expects the section's file not to exist after the run.
fn expect_no_file<'a>(holdings: &mut Holdings<'a>, section: Section<'a>) -> Result<(), CaseFault> {
    match section.verb() {
        ("file", name) => Ok(holdings.require(name, Expected::Missing)?),
        _ => Err(CaseFault::Words),
    }
}

/// Takes a section about a file.
fn take_file(alloc: Global, files: &mut Table, section: Section<'_>) -> Result<(), CaseFault> {
    let (verb, count) = section.verb();
    match verb {
        "" => put_file(alloc, files, section),
        "more" => add_to(alloc, files, section),
        "fails" => fail_at(alloc, files, section.name, count),
        _ => Err(CaseFault::Words),
    }
}

/// Gives the section's file its bytes.
fn put_file(alloc: Global, files: &mut Table, section: Section<'_>) -> Result<(), CaseFault> {
    let bytes = section.bytes(alloc)?;
    Ok(files.put(section.name, &bytes)?)
}

/// Appends the section's bytes to the file as often as the word says; once if there is no word.
fn add_to(alloc: Global, files: &mut Table, section: Section<'_>) -> Result<(), CaseFault> {
    let (_, count) = section.verb();
    let mut times = 1;
    if !count.is_empty() {
        read_number(count, &mut times)?;
    }
    let mut bytes = contents(alloc, files, section.name)?;
    add_section(alloc, section, times, &mut bytes)?;
    Ok(files.put(section.name, &bytes)?)
}

/// Appends the section's bytes `count` times.
fn add_section(
    alloc: Global,
    section: Section<'_>,
    count: u32,
    bytes: &mut Vec<u8>,
) -> Result<(), AllocError> {
    if section.is_numbered() {
        return add_numbered(alloc, section, count, bytes);
    }
    let unit = section.bytes(alloc)?;
    add_blocks(alloc, &unit, count, bytes)
}

/// Appends the section's bytes `count` times, each time with its number.
fn add_numbered(
    alloc: Global,
    section: Section<'_>,
    count: u32,
    bytes: &mut Vec<u8>,
) -> Result<(), AllocError> {
    for number in 0..count {
        section.repeated(number).add_bytes(alloc, bytes)?;
    }
    Ok(())
}

/// The number of repetitions that are combined into a block and appended at once.
const BLOCK: u32 = 4096;

/// Appends the bytes `count` times, mostly in blocks.
fn add_blocks(
    alloc: Global,
    unit: &[u8],
    count: u32,
    bytes: &mut Vec<u8>,
) -> Result<(), AllocError> {
    let block = unit.repeat(alloc, BLOCK as usize)?;
    add_repeated(&block, count / BLOCK, bytes)?;
    add_repeated(unit, count % BLOCK, bytes)
}

/// Appends the bytes `count` times.
fn add_repeated(unit: &[u8], count: u32, bytes: &mut Vec<u8>) -> Result<(), AllocError> {
    for _ in 0..count {
        bytes.extend_from_slice(unit)?;
    }
    Ok(())
}

/// Lets the file's device fail once, after this many reads.
fn fail_at(alloc: Global, files: &mut Table, name: &str, count: &str) -> Result<(), CaseFault> {
    let reads = u64::from(number_of(count)?);
    let bytes = contents(alloc, files, name)?;
    Ok(files.put_failing(name, &bytes, reads)?)
}

/// The bytes of the file so far; none if there is no such file.
fn contents(alloc: Global, files: &Table, name: &str) -> Result<Vec<u8>, AllocError> {
    Vec::from_slice(alloc, files.get(name).unwrap_or(&[]))
}
