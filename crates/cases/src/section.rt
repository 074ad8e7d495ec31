//! The sections of a case.
use crate::text::{add_lines, add_unescaped};
use std::alloc::{AllocError, Global};

/// The content of a section: what is below its first line, or after the colon in that line.
#[derive(Clone, Copy)]
enum Content<'a> {
    /// The lines below, verbatim, without blank lines at the end.
    Lines(&'a str),
    /// The rest of the line, with escapes.
    Line(&'a str),
}

/// The values of the two variable escapes.
#[derive(Clone, Copy, Default)]
pub struct Escapes {
    /// The number of earlier repetitions: `\#`.
    pub number: u32,
    /// The byte that the case is run for, if it lists some: `\@`.
    pub byte: Option<u8>,
}

/// A section: its subject, its words, and its content.
#[derive(Clone, Copy)]
pub struct Section<'a> {
    /// The subject: the first word after the dashes.
    pub name: &'a str,
    /// The further words, up to a colon or the end of the line.
    pub words: &'a str,
    content: Content<'a>,
    escapes: Escapes,
}

impl<'a> Section<'a> {
    /// Parses a section, the text between two lines of dashes, in which the variable escapes have these values.
    pub fn of(text: &'a str, escapes: Escapes) -> Section<'a> {
        let (first, below) = text.split_once('\n').unwrap_or((text, ""));
        match first.split_once(": ") {
            Some((head, line)) => Section::with(head, Content::Line(line), escapes),
            None => Section::with(first, Content::Lines(below), escapes),
        }
    }

    fn with(head: &'a str, content: Content<'a>, escapes: Escapes) -> Section<'a> {
        let (name, words) = head.split_once(' ').unwrap_or((head, ""));
        Section {
            name,
            words,
            content,
            escapes,
        }
    }

    /// The same section after this number of earlier repetitions.
    pub fn repeated(&self, number: u32) -> Section<'a> {
        let byte = self.escapes.byte;
        Section {
            name: self.name,
            words: self.words,
            content: self.content,
            escapes: Escapes { number, byte },
        }
    }

    /// The first of the further words, and what follows it.
    pub fn verb(&self) -> (&'a str, &'a str) {
        self.words.split_once(' ').unwrap_or((self.words, ""))
    }

    /// Whether the section contains the escape for the repetition's number.
    pub fn is_numbered(&self) -> bool {
        match self.content {
            Content::Lines(_) => false,
            Content::Line(line) => line.contains("\\#"),
        }
    }

    /// The bytes of the section's content.
    pub fn bytes(&self, alloc: Global) -> Result<Vec<u8>, AllocError> {
        let mut bytes = Vec::new(alloc);
        self.add_bytes(alloc, &mut bytes)?;
        Ok(bytes)
    }

    /// Appends the bytes of the section's content.
    pub fn add_bytes(&self, alloc: Global, bytes: &mut Vec<u8>) -> Result<(), AllocError> {
        match self.content {
            Content::Lines(lines) => add_lines(lines, bytes),
            Content::Line(line) => add_unescaped(alloc, line, self.escapes, bytes),
        }
    }
}
