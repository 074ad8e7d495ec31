//! Sentences about texts that do not read as words (codes 1 to 6), and about unexpected words (codes 7 to 13).
use crate::context::Context;
use crate::declarations::{action_name, section};
use crate::lists::{Items, head_of, item_at, opening_of};
use crate::shown::{Name, NameList};
use crate::texts::File;
use std::alloc::{AllocError, Global};
use tokens::{Lexeme, Shape};

/// The required sections of a domain.
static IN_DOMAIN: [&[u8]; 1] = [b":predicates"];

/// The required sections of a problem.
static IN_PROBLEM: [&[u8]; 3] = [b":domain", b":init", b":goal"];

/// The required parts of an action.
static IN_ACTION: [&[u8]; 1] = [b":parameters"];

impl Context<'_, '_> {
    /// Names the `(` of the list that is open at the end of the text. Nothing is said of a `)` without a `(`.
    pub(crate) fn add_open(self, out: &mut String) -> Result<(), AllocError> {
        if self.fault.span.start < self.fault.span.end {
            return Ok(());
        }
        let here = self.here();
        match opening_of(here, here.len()).and_then(|open| here.get(open)) {
            Some(open) => write!(out, "the `(` at {} is never closed.", self.place_of(open)),
            None => Ok(()),
        }
    }

    /// Names the end of the first list, with its last section if another section follows.
    pub(crate) fn add_trailing(self, out: &mut String) -> Result<(), AllocError> {
        let here = self.here();
        let first = here
            .iter()
            .position(|piece| piece.shape() == Shape::Open)
            .unwrap_or(0);
        let list = item_at(here, first);
        let Some(end) = list.last() else {
            return Ok(());
        };
        let end = self.place_of(end);
        match last_section(list) {
            Some((start, name)) if self.is_section_next() => {
                let (name, start) = (Name(name), self.place_of(&start));
                write!(
                    out,
                    "the `)` at {end} closes `(define`: is there one `)` too many in {name}, which begins at {start}?"
                )
            }
            _ => write!(out, "nothing may follow the list that ends at {end}."),
        }
    }

    /// Whether the reported word is the keyword of a section or the parenthesis before one.
    fn is_section_next(self) -> bool {
        let next = self
            .at()
            .and_then(|at| self.here().get(at.saturating_add(1)));
        let is_keyword = self.word.starts_with(b":");
        is_keyword || next.is_some_and(|piece| piece.text().starts_with(b":"))
    }

    /// Says what is missing from the list that the reported `)` closes.
    pub(crate) fn add_missing(self, out: &mut String) -> Result<(), AllocError> {
        let list = self.list();
        if list.is_empty() {
            return Ok(());
        }
        let names = if self.is_action_incomplete() {
            absent(self.alloc, list, &IN_ACTION)?
        } else {
            match self.fault.file {
                File::Domain => absent(self.alloc, list, &IN_DOMAIN)?,
                File::Problem => absent(self.alloc, list, &IN_PROBLEM)?,
                File::Plan => return Ok(()),
            }
        };
        let verb = if names.len() == 1 { "is" } else { "are" };
        let last = " and ";
        let names = NameList {
            names: &names,
            last,
        };
        write!(out, "{names} {verb} missing.")
    }

    /// Whether the list that the reported `)` closes is an action.
    pub(crate) fn is_action_incomplete(self) -> bool {
        head_of(self.list()).eq_ignore_ascii_case(b":action")
    }
}

/// The `(` and the name of the section that a file's list ends with, if it is one: an action's name, or the keyword.
fn last_section<'a>(list: &[Lexeme<'a>]) -> Option<(Lexeme<'a>, &'a [u8])> {
    if !head_of(list).eq_ignore_ascii_case(b"define") {
        return None;
    }
    let section = Items::of(list).last()?;
    let keyword = head_of(section);
    if !keyword.starts_with(b":") {
        return None;
    }
    let name = match action_name(section) {
        Some(action) => action.text(),
        None => keyword,
    };
    Some((*section.first()?, name))
}

/// Those of these keywords that head no item of the list.
fn absent(
    alloc: Global,
    list: &[Lexeme<'_>],
    keywords: &[&'static [u8]],
) -> Result<Vec<&'static [u8]>, AllocError> {
    let mut found: Vec<&'static [u8]> = Vec::new(alloc);
    for keyword in keywords {
        if section(list, keyword).is_empty() {
            found.push(*keyword)?;
        }
    }
    Ok(found)
}
