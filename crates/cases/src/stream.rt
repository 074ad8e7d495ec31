//! Standard output and standard error of a case.
use crate::case::{CaseFault, number_of, read_number};
use crate::section::Section;
use devices::Memory;
use std::alloc::{AllocError, Global};
use test_support::{FailsAt, InPieces};

/// A stream that may take its bytes in pieces, and fail.
pub type StreamDevice = FailsAt<InPieces<Memory>>;

/// The part of a stream's output that is compared.
#[derive(Clone, Copy)]
enum Part {
    Whole,
    Beginning,
    End,
}

/// The part that a section with this verb compares.
fn part_of(verb: &str) -> Result<Part, CaseFault> {
    match verb {
        "" => Ok(Part::Whole),
        "begins" => Ok(Part::Beginning),
        "ends" => Ok(Part::End),
        _ => Err(CaseFault::Words),
    }
}

/// A stream: the expected output, and how the device behaves.
#[derive(Drop)]
pub struct Stream {
    expected: Vec<u8>,
    // The part that the expected bytes are.
    part: Part,
    // The maximum number of bytes per write.
    piece: u32,
    // How many writes succeed before the one that fails; `None` if none fails.
    writes_before: Option<u32>,
}

impl Stream {
    /// A stream without expected output.
    pub fn new(alloc: Global) -> Stream {
        Stream {
            expected: Vec::new(alloc),
            part: Part::Whole,
            piece: u32::MAX,
            writes_before: None,
        }
    }

    /// Takes a section about the stream.
    pub fn take(&mut self, alloc: Global, section: Section<'_>) -> Result<(), CaseFault> {
        let (verb, number) = section.verb();
        match verb {
            "pieces" => read_number(number, &mut self.piece),
            "fails" => self.fail_after(number),
            _ => self.require(alloc, section, part_of(verb)?),
        }
    }

    fn fail_after(&mut self, count: &str) -> Result<(), CaseFault> {
        self.writes_before = Some(number_of(count)?);
        Ok(())
    }

    fn require(
        &mut self,
        alloc: Global,
        section: Section<'_>,
        part: Part,
    ) -> Result<(), CaseFault> {
        self.expected = section.bytes(alloc)?;
        self.part = part;
        Ok(())
    }

    /// The stream's device, empty.
    pub fn device(&self, alloc: Global) -> StreamDevice {
        // A piece has at least one byte.
        let length = self.piece.max(1) as usize;
        FailsAt::new(
            InPieces::new(Memory::empty(alloc), length),
            self.writes_before.map(u64::from),
        )
    }

    /// How the output differs from the expected one; `None` if it does not.
    pub fn difference(
        &self,
        alloc: Global,
        name: &str,
        device: &StreamDevice,
    ) -> Result<Option<String>, AllocError> {
        let taken = device.inner.inner.as_slice();
        if self.is_expected(taken) {
            return Ok(None);
        }
        let (is, expected) = (taken.escape_ascii(), self.expected.escape_ascii());
        Ok(Some(format!(in alloc; "{name} is \"{is}\", and not \"{expected}\"")?))
    }

    fn is_expected(&self, taken: &[u8]) -> bool {
        match self.part {
            Part::Whole => taken == self.expected.as_slice(),
            Part::Beginning => taken.starts_with(&self.expected),
            Part::End => taken.ends_with(&self.expected),
        }
    }
}
