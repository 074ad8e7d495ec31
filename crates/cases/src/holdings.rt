//! The expected contents of files after the run.
use std::alloc::{AllocError, Global};
use std::fmt;
use test_support::Table;

/// What is expected of a file.
#[derive(Drop)]
pub enum Expected {
    /// These bytes.
    Whole(Vec<u8>),
    /// Bytes that begin with these.
    Beginning(Vec<u8>),
    /// That there is no such file.
    Missing,
}

/// A file of which this is expected.
#[derive(Drop)]
struct Holding<'a> {
    name: &'a str,
    expected: Expected,
}

impl Expected {
    /// The bytes; `None` if there should be no file.
    fn bytes(&self) -> Option<&[u8]> {
        match self {
            Expected::Whole(bytes) => Some(bytes.as_slice()),
            Expected::Beginning(bytes) => Some(bytes.as_slice()),
            Expected::Missing => None,
        }
    }
}

impl Holding<'_> {
    /// Whether the file is as expected; `None` stands for no file.
    fn is_met(&self, found: Option<&[u8]>) -> bool {
        match (found, &self.expected) {
            (Some(found), Expected::Whole(bytes)) => found == bytes.as_slice(),
            (Some(found), Expected::Beginning(bytes)) => found.starts_with(bytes),
            (None, Expected::Missing) => true,
            _ => false,
        }
    }

    /// How the file differs from the expectation.
    fn text(&self, alloc: Global, found: Option<&[u8]>) -> Result<String, AllocError> {
        let (name, is, expected) = (self.name, Shown(found), Shown(self.expected.bytes()));
        format!(in alloc; "the file {name} is {is}, and not {expected}")
    }
}

/// The bytes of a file in a report; `None` if there is none.
#[derive(Clone, Copy)]
struct Shown<'a>(Option<&'a [u8]>);

impl fmt::Display for Shown<'_> {
    fn fmt<W: fmt::Write>(&self, f: &mut fmt::Formatter<W>) -> fmt::Result {
        match self.0 {
            Some(bytes) => write!(f, "\"{}\"", bytes.escape_ascii()),
            None => f.write_str("missing"),
        }
    }
}

/// The expected contents of files after the run. Files that are not listed may have any contents.
#[derive(Drop)]
pub struct Holdings<'a> {
    expected: Vec<Holding<'a>>,
}

impl<'a> Holdings<'a> {
    /// No expectations.
    pub fn new(alloc: Global) -> Holdings<'a> {
        Holdings {
            expected: Vec::new(alloc),
        }
    }

    /// Expects this of the file with this name. Replaces earlier expectations.
    pub fn require(&mut self, name: &'a str, expected: Expected) -> Result<(), AllocError> {
        self.expected.retain(|other| other.name != name);
        self.expected.push(Holding { name, expected })?;
        Ok(())
    }

    /// How the first file that is not as expected differs; `None` if there is none.
    pub fn difference(&self, alloc: Global, files: &Table) -> Result<Option<String>, AllocError> {
        for holding in &self.expected {
            let found = files.get(holding.name);
            if !holding.is_met(found) {
                return Ok(Some(holding.text(alloc, found)?));
            }
        }
        Ok(None)
    }
}
