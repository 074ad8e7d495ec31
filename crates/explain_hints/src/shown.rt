//! Names and places in sentences.
use crate::place::{LineColumn, place_of};
use crate::texts::{File, NamedTexts};
use std::fmt;
use tokens::Lexeme;

/// The maximum number of bytes shown of a name or run.
const LONGEST: usize = 80;

/// The maximum number of names shown of a chain.
const MOST_LINKS: usize = 12;

/// Bytes as they are shown: what is not printable ASCII as `\xNN`, and a long run cut at the end.
#[derive(Clone, Copy)]
pub(crate) struct Shown<'a>(pub(crate) &'a [u8]);

impl fmt::Display for Shown<'_> {
    fn fmt<W: fmt::Write>(&self, f: &mut fmt::Formatter<W>) -> fmt::Result {
        let shown = &self.0[..self.0.len().min(LONGEST)];
        let ending = if self.0.len() <= LONGEST { "" } else { "..." };
        write!(f, "{}{ending}", shown.escape_ascii())
    }
}

/// A name in backquotes, as it is shown.
#[derive(Clone, Copy)]
pub struct Name<'a>(pub &'a [u8]);

impl fmt::Display for Name<'_> {
    fn fmt<W: fmt::Write>(&self, f: &mut fmt::Formatter<W>) -> fmt::Result {
        write!(f, "`{}`", Shown(self.0))
    }
}

/// Names separated by commas, with a word before the last.
#[derive(Clone, Copy)]
pub(crate) struct NameList<'n, 'a> {
    /// The names.
    pub(crate) names: &'n [&'a [u8]],
    /// The separator before the last name, such as ` and `.
    pub(crate) last: &'static str,
}

impl fmt::Display for NameList<'_, '_> {
    fn fmt<W: fmt::Write>(&self, f: &mut fmt::Formatter<W>) -> fmt::Result {
        for (index, name) in self.names.iter().enumerate() {
            let separator = separator(index, self.names.len(), self.last);
            write!(f, "{separator}{}", Name(name))?;
        }
        Ok(())
    }
}

/// The separator before the item of a list with this index; before the last one it is `last`.
pub fn separator(index: usize, count: usize, last: &'static str) -> &'static str {
    if index == 0 {
        ""
    } else if index < count.saturating_sub(1) {
        ", "
    } else {
        last
    }
}

/// The types of a term or of an argument, of which it has one; `object` if none is written.
#[derive(Clone, Copy)]
pub(crate) struct Types<'w, 'a>(pub(crate) &'w [Lexeme<'a>]);

impl fmt::Display for Types<'_, '_> {
    fn fmt<W: fmt::Write>(&self, f: &mut fmt::Formatter<W>) -> fmt::Result {
        if self.0.is_empty() {
            return write!(f, "`object`");
        }
        for (index, name) in self.0.iter().enumerate() {
            let separator = separator(index, self.0.len(), " or ");
            write!(f, "{separator}{}", Name(name.text()))?;
        }
        Ok(())
    }
}

/// The names of a chain with arrows between them: all of them, or the first ones and the last if the chain is too long.
#[derive(Clone, Copy)]
pub(crate) struct Chain<'n, 'a>(pub(crate) &'n [&'a [u8]]);

impl fmt::Display for Chain<'_, '_> {
    fn fmt<W: fmt::Write>(&self, f: &mut fmt::Formatter<W>) -> fmt::Result {
        let count = self.0.len();
        for (index, name) in self.0.iter().enumerate() {
            if count <= MOST_LINKS || index < MOST_LINKS - 2 || index == count - 1 {
                let arrow = if index == 0 { "" } else { " -> " };
                write!(f, "{arrow}{}", Name(name))?;
            } else if index == MOST_LINKS - 2 {
                write!(f, " -> ({} more)", count - (MOST_LINKS - 1))?;
            }
        }
        Ok(())
    }
}

/// A place in a named file, shown like `domain.pddl:12:27`.
#[derive(Clone, Copy)]
pub struct FilePlace<'t> {
    name: &'t str,
    place: LineColumn,
}

impl<'t> FilePlace<'t> {
    /// The place of the byte at an offset of a file.
    pub fn of(texts: &NamedTexts<'t>, file: File, offset: usize) -> FilePlace<'t> {
        FilePlace {
            name: texts.name(file),
            place: place_of(texts.text(file), offset),
        }
    }
}

impl fmt::Display for FilePlace<'_> {
    fn fmt<W: fmt::Write>(&self, f: &mut fmt::Formatter<W>) -> fmt::Result {
        let (line, column) = (self.place.line, self.place.column);
        write!(f, "{}:{line}:{column}", self.name)
    }
}
