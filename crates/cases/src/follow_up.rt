//! A further run over the files that a case leaves.
use crate::case::CaseFault;
use crate::files::CaseFiles;
use crate::section::Section;
use devices::Memory;
use std::alloc::{AllocError, Global};

/// The words of a further run, and its expected standard output.
#[derive(Drop)]
pub struct FollowUp<'a> {
    words: Vec<&'a str>,
    expected: Vec<u8>,
}

impl<'a> FollowUp<'a> {
    /// The further run that a section describes: its words, and below them the expected output.
    pub fn of(alloc: Global, section: Section<'a>) -> Result<FollowUp<'a>, CaseFault> {
        Ok(FollowUp {
            words: section.words.split_whitespace().collect(alloc)?,
            expected: section.bytes(alloc)?,
        })
    }

    /// How the output differs from the expected one; `None` if it does not.
    pub fn difference(
        &self,
        alloc: Global,
        files: &mut CaseFiles,
    ) -> Result<Option<String>, AllocError> {
        let (mut out, mut err) = (Memory::empty(alloc), Memory::empty(alloc));
        let status = planner_main::run(alloc, &self.words, files, &mut out, &mut err);
        self.reported(alloc, status, out.as_slice())
    }

    /// How these bytes differ from the expected ones; `None` if they do not.
    fn reported(&self, alloc: Global, status: u8, is: &[u8]) -> Result<Option<String>, AllocError> {
        if is == self.expected.as_slice() {
            return Ok(None);
        }
        let (is, expected) = (is.escape_ascii(), self.expected.escape_ascii());
        Ok(Some(format!(in alloc;
            "then stdout is \"{is}\" with status {status}, and not \"{expected}\""
        )?))
    }
}
